//! Structure definitions (DEFSTRUCT): what a form defines, and the structure types of a file, as its forms make them
//! one after another.
#![tactic(auto)]

// What a form says.
mod fault;
mod form;
mod option;

// What the forms make.
mod tree;

pub use fault::{StructFault, TreeFault};
pub use form::StructForm;
pub use tree::{Defined, Tree};
