use crate::dims::Dims;
use crate::kind::Kind;
use crate::rat::Rat;
use crate::symbol::Symbol;
use crate::table::Code;
use sqlite_items::{Boxed, Items};

/// What an object is, apart from its marks. Objects of different shape are different (4.2.2).
#[cycle(object)]
#[derive(Drop)]
pub enum Shape {
    /// A rational number.
    Number(Rat),
    /// A character: a Unicode scalar value.
    Char(char),
    /// A symbol.
    Sym(Symbol),
    /// A cons: its car and its cdr.
    Pair(Boxed<Object>, Boxed<Object>),
    /// An array: its element code, whether it is simple, and its dimensions.
    Array {
        elem: Code,
        simple: bool,
        dims: Dims,
    },
    /// A structure: the name of its own DEFSTRUCT.
    Structure(Symbol),
    /// An object of one of the other kinds.
    Opaque(Kind),
}

/// An object: the names of the predicates that are true of its top node, and its shape.
#[cycle(object)]
#[derive(Drop)]
pub struct Object {
    pub marks: Items<Symbol>,
    pub shape: Shape,
}
