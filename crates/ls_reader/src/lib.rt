//! The reader: from the bytes of a text to its data, each with the place where it stands (chapter 2).
#![tactic(auto)]

// What is read.
mod datum;
mod fault;
mod place;
mod small;

// From characters to lexemes.
mod character;
mod charname;
mod comment;
mod interpret;
mod lexeme;
mod name;
mod number;
mod sharpsign;
mod string;
mod token;
mod token_char;

// From lexemes to data.
mod builder;
mod copy;
mod feature;
mod frame;
mod making;
mod reader;
mod stack;

pub use datum::{Datum, FloatFormat, Form, Literal, Span};
pub use fault::ReadError;
pub use reader::{one_answer, read_text};
pub use small::SmallRat;
