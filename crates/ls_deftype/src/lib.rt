//! Templates: what a DEFTYPE form says, and a template with arguments put in, as written data (DEFTYPE, 3.4.8).
#![tactic(auto)]

// Parts of forms.
mod quoting;
mod symbol;

// What a form says.
mod body;
mod fault;
mod lambda;
mod mark;
mod names;
mod reading;
mod template;

// What a template with arguments says.
mod arguments;
mod begun;
mod copying;
mod filling;
mod room;
mod substituting;

pub use fault::{SubstituteFault, TemplateFault};
pub use lambda::OptionalParam;
pub use template::Template;

#[cfg(test)]
mod tests;
