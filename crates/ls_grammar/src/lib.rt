//! From data to type specifiers (4.2.3), where each name and abbreviation is expanded, and to the objects that are
//! written out (3.1.2.1.3, QUOTE); or the first thing that is wrong is told with its place.
#![tactic(auto)]

// Why a datum is no specifier.
mod refusal;

// What a datum says one level deep.
mod array;
mod level;
mod number;
mod saying;

// The whole of it, level by level.
mod resolving;

// Objects that are written out.
mod literal;

pub use literal::{ObjectRefusal, each_datum_is_an_object_or_is_refused, object_of};
pub use refusal::{Refusal, RefusalKind, Stop};
pub use resolving::{DEEPEST, ROOM, each_datum_resolves_or_is_refused, resolve};
