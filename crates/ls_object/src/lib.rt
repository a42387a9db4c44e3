//! Lisp objects as the program holds them: numbers in lowest terms, symbols, texts and objects of every
//! shape. Each stands for an object of the universe without bound that `specs/Universe.antt` defines.
#![tactic(auto)]

mod between;
mod copy;
mod dims;
mod kind;
mod laws;
mod object;
mod parents;
mod rat;
mod stored;
mod symbol;
mod table;
mod text;
mod write;

pub use dims::Dims;
pub use kind::Kind;
pub use laws::{
    entries_of_the_table, inclusion_is_decided, limits_of_rationals, named_codes,
    one_text_one_object, places_of_the_table,
};
pub use object::{Object, Shape};
pub use parents::Parents;
pub use rat::{DENOMINATOR_LIMIT, NUMERATOR_LIMIT, Rat};
pub use sqlite_items::{Boxed, Items};
pub use symbol::Symbol;
pub use table::{
    BASE_CHAR_PLACE, BIT_PLACE, CHARACTER_PLACE, Code, Entry, NIL_PLACE, T_PLACE, TABLE_LEN,
    UPGRADING_TABLE,
};
pub use text::Text;
