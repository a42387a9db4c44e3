use ls_object::{Boxed, Items, Kind, Rat, Symbol};

/// A single object that EQL or MEMBER may name.
#[derive(Drop)]
pub enum Point {
    Number(Rat),
    Char(char),
    Sym(Symbol),
}

/// Which numbers a range ranges over.
#[derive(Clone, Copy, Debug, PartialEq, Eq)]
pub enum RangeKind {
    Integer,
    Rational,
}

/// An end of a range: none, a number that belongs to it, or one that doesn't.
#[derive(Clone, Copy, Debug, PartialEq, Eq)]
pub enum Bound {
    Free,
    Incl(Rat),
    Excl(Rat),
}

/// All characters, those with a code below 128, or newline and those with a code from 32 to 126.
#[derive(Clone, Copy, Debug, PartialEq, Eq)]
pub enum CharClass {
    Any,
    Base,
    Standard,
}

/// All symbols, or those of the package KEYWORD.
#[derive(Clone, Copy, Debug, PartialEq, Eq)]
pub enum SymClass {
    Any,
    Keyword,
}

/// What is asked of the dimensions of an array: nothing, or at each place a number or nothing.
#[derive(Drop)]
pub enum DimPattern {
    Any,
    Places(Items<Option<u64>>),
}

/// A type specifier with every name and abbreviation expanded (4.2.3).
#[derive(Drop)]
pub enum Spec {
    /// T, all objects.
    All,
    /// NIL, no object.
    Nothing,
    /// AND: the objects of all parts.
    And(Items<Spec>),
    /// OR: the objects of some part.
    Or(Items<Spec>),
    /// NOT: the objects that are not of the part.
    Not(Boxed<Spec>),
    /// EQL: one object.
    Eql(Point),
    /// INTEGER or RATIONAL with two bounds.
    Range {
        kind: RangeKind,
        lo: Bound,
        hi: Bound,
    },
    /// CHARACTER, BASE-CHAR or STANDARD-CHAR.
    Chars(CharClass),
    /// SYMBOL or KEYWORD.
    Symbols(SymClass),
    /// The opaque objects of one kind.
    Kind(Kind),
    /// A structure name: the structures of that type or of one that includes it.
    StructIs(Symbol),
    /// STRUCTURE-OBJECT.
    StructAny,
    /// ARRAY or SIMPLE-ARRAY, with an element type or `*`. With `simple` only simple arrays are asked for.
    ArrayOf {
        elem: Option<Boxed<Spec>>,
        simple: bool,
        dims: DimPattern,
    },
    /// STRING or SIMPLE-STRING, of a length or of any.
    StringOf {
        simple: bool,
        dim: Option<u64>,
    },
    /// CONS of a type of the car and one of the cdr.
    ConsOf(Boxed<Spec>, Boxed<Spec>),
    /// SATISFIES: the objects of which a predicate is true.
    Satisfies(Symbol),
}
