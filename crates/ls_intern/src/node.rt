// One level of a specifier.

use ls_object::{Items, Kind, Symbol};
use ls_spec::{Bound, CharClass, DimPattern, Point, RangeKind, SymClass};

/// The number of a specifier in a table: its place, counted from 0.
pub type Id = usize;

/// A type specifier (4.2.3) with numbers in place of its parts. The variants are those of `ls_spec::Spec`.
#[derive(Drop)]
pub enum Node {
    /// T.
    All,
    /// NIL.
    Nothing,
    /// AND of the specifiers with these numbers.
    And(Items<Id>),
    /// OR of the specifiers with these numbers.
    Or(Items<Id>),
    /// NOT.
    Not(Id),
    /// EQL.
    Eql(Point),
    /// INTEGER or RATIONAL with two bounds.
    Range {
        kind: RangeKind,
        lo: Bound,
        hi: Bound,
    },
    /// CHARACTER, BASE-CHAR or STANDARD-CHAR.
    Chars(CharClass),
    /// SYMBOL or KEYWORD.
    Symbols(SymClass),
    /// The opaque objects of one kind.
    Kind(Kind),
    /// A structure name.
    StructIs(Symbol),
    /// STRUCTURE-OBJECT.
    StructAny,
    /// ARRAY or SIMPLE-ARRAY, with the number of its element type, or none for `*`.
    ArrayOf {
        elem: Option<Id>,
        simple: bool,
        dims: DimPattern,
    },
    /// STRING or SIMPLE-STRING, of a length or of any.
    StringOf {
        simple: bool,
        dim: Option<u64>,
    },
    /// CONS of the type of the car and that of the cdr.
    ConsOf(Id, Id),
    /// SATISFIES.
    Satisfies(Symbol),
}
