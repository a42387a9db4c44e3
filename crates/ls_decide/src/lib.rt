//! The decisions of inclusion (SUBTYPEP) and of membership (TYPEP): their answers, and what a decision costs. The cost is counted over numbers of
//! specifiers in a table, each distinct list of them once.
#![tactic(auto)]

mod answer;
mod belonging;
mod candidates;
mod compare;
mod cost;
mod counting;
mod cut;
mod decide;
mod laws;
mod learn;
mod node;
mod pairs;
mod session;
mod shapes;
mod upgrade;

pub use answer::{Answer, Belongs};
pub use laws::{
    every_meaning_of_inclusion, every_meaning_of_membership, marks_are_meant, one_right_membership,
};
pub use session::Session;
