//! Lists of specifiers by number: their distinct atoms, and the lists of the cars and of the cdrs of their conses.
#![tactic(auto)]

mod ids;
mod node;
mod sides;

pub use ids::Ids;
pub use node::{branches, cons_sides, element};
pub use sides::{Sides, add, distinct_of, sides_of};
