//! Specifiers by number: each distinct specifier stands once in a table, with numbers in place of its parts, and
//! equal specifiers have one number. So specifiers are compared in one step, and lists of them are lists of numbers.
#![tactic(auto)]

mod keys;
mod node;
mod table;
mod tree;

pub use node::{Id, Node};
pub use table::Table;
