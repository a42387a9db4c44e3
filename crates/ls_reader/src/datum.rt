use crate::small::SmallRat;
use ls_object::{Boxed, Items, Symbol, Text};

/// Where a datum stands in its text: the byte offsets of its first byte and of the byte past its last one,
/// and the line and column of its start, counted from 1. A column counts characters.
#[derive(Clone, Copy, Debug, PartialEq, Eq)]
pub struct Span {
    pub start: u32,
    pub end: u32,
    pub line: u32,
    pub column: u32,
}

/// What was read, and where it stands.
#[cycle(datum)]
#[derive(Drop)]
pub struct Datum {
    pub span: Span,
    pub form: Form,
}

/// What a datum is.
#[cycle(datum)]
#[derive(Drop)]
pub enum Form {
    /// A symbol (2.3.4).
    Symbol(Symbol),
    /// An integer or a ratio (2.3.2.1).
    Number(Literal),
    /// A float; its value is not kept (2.3.2.2).
    Float(FloatFormat),
    /// A character (2.4.8.1).
    Char(char),
    /// A string (2.4.5).
    Str(Text),
    /// A list of at least one datum (2.4.1); the empty list is the symbol NIL.
    List(Items<Datum>),
    /// A dotted list: the data before the dot, and the one behind it.
    Dotted(Items<Datum>, Boxed<Datum>),
    /// A vector (2.4.8.3).
    Vector(Items<Datum>),
    /// A bit vector, by the count of its bits (2.4.8.4).
    Bits(u64),
    /// `'x` (2.4.3).
    Quote(Boxed<Datum>),
    /// A backquoted datum (2.4.6).
    Back(Boxed<Datum>),
    /// `,x` within a backquoted datum.
    Comma(Boxed<Datum>),
    /// `,@x` or `,.x` within a backquoted datum.
    Splice(Boxed<Datum>),
    /// `#'x` (2.4.8.2).
    FunctionOf(Boxed<Datum>),
    /// A datum of another kind, which is read and not kept.
    Odd,
}

/// A number as it is written.
#[derive(Clone, Copy, Debug, PartialEq, Eq)]
pub enum Literal {
    /// The number, where it is within the limits.
    Value(SmallRat),
    /// A number with a numerator of more than 2^64 in absolute value, or a denominator of more than 2^60.
    Wide,
}

/// The format of a float.
#[derive(Clone, Copy, Debug, PartialEq, Eq)]
pub enum FloatFormat {
    Single,
    Double,
}
