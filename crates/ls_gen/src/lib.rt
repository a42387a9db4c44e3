//! The text that is generated for measuring, and what is known of it.
#![tactic(auto)]

mod asked;
mod laws;
#[cfg(test)]
mod tests;
mod text;

pub use asked::generated_queries_are_asked;
pub use laws::generated_text_is_read;
pub use text::text_of;
