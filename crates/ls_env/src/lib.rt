//! What the forms of a file say together: its queries, among the top-level forms (3.2.3.1), its structure types, and
//! the status and the template of each name that it defines; and which arguments need no evaluation.
#![tactic(auto)]

// Top-level forms, and which of them are queries.
mod operator;
mod query;
mod top;

// The forms that define names, and what each name is by them.
mod census;
mod definition;
mod status;
mod structure;
mod table;

// Templates that lead back to themselves.
mod finishing;
mod marking;
mod mention;
mod parts;
mod walk;

// All of it together.
mod env;

// The values of arguments.
mod argument;

pub use argument::{Argument, quoted_in, value_of};
pub use env::{Env, a_walk_comes_back_where_a_template_reaches_itself};
pub use query::{Query, QueryKind};
pub use status::NameStatus;
