//! What the crates above look up: the built-in names of type specifiers, sets of small numbers, and what the entries
//! of the upgrading table hold.
#![tactic(auto)]

mod extent;
mod laws;
mod look_up;
mod meeting;
mod name;
mod tags;
mod texts;

pub use extent::code_range;
pub use laws::laws_of_the_table;
pub use look_up::builtin;
pub use meeting::code_meet;
pub use name::Builtin;
pub use tags::{TagSet, one_set_for_its_members};
pub use texts::code_text;
