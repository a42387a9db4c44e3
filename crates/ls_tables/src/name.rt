ghost use Rattle.std.specs.Prelude.{◌≡◌};
ghost use Rattle.ls_tables.specs.Builtins as spec;

/// A built-in name of type specifiers: a symbol of COMMON-LISP that the standard defines as one (4.2.3), or the
/// symbol `*`.
#[derive(Clone, Copy, Debug, PartialEq, Eq)]
pub enum Builtin {
    // Names that stand as atoms alone (4.2.3, figure 4-2). First T and NIL.
    T,
    Nil,
    // Conses and symbols (chapters 10 and 14).
    Atom,
    List,
    Null,
    Boolean,
    Symbol,
    Keyword,
    // Characters (13.2).
    Character,
    BaseChar,
    StandardChar,
    ExtendedChar,
    // Numbers (chapter 12).
    Bit,
    Fixnum,
    Bignum,
    Ratio,
    Number,
    // Sequences and structures (chapters 17 and 8).
    Sequence,
    StructureObject,
    // Objects of which nothing but the kind is known (4.2.2).
    HashTable,
    Readtable,
    Package,
    Pathname,
    LogicalPathname,
    Stream,
    RandomState,
    Condition,
    Restart,
    CompiledFunction,
    // Names that stand as atoms and as heads of lists with arguments (4.2.3, figure 4-3). First numbers with bounds
    // or a size (12.2).
    Integer,
    Rational,
    SignedByte,
    UnsignedByte,
    // Conses of a car and a cdr (14.2).
    Cons,
    // Arrays, vectors and strings (15.2, 16.2).
    Array,
    SimpleArray,
    Vector,
    SimpleVector,
    BitVector,
    SimpleBitVector,
    BaseString,
    SimpleBaseString,
    String,
    SimpleString,
    // Floats, reals and complex numbers (12.1.4, 12.1.5).
    Float,
    ShortFloat,
    SingleFloat,
    LongFloat,
    DoubleFloat,
    Real,
    Complex,
    // Functions (4.4, FUNCTION).
    Function,
    // Names that stand as heads of lists alone (4.2.3, figure 4-4).
    And,
    Or,
    Not,
    Member,
    Eql,
    Satisfies,
    Mod,
    Values,
    // The symbol `*`: it stands for a missing argument, and is no type specifier by itself.
    Star,
}

impl Builtin {
    /// Whether the name is a type specifier by itself: neither a head of lists alone nor the symbol `*`.
    pub fn stands_alone(self) -> bool
        ensures { result ≡ spec.stands_alone self }
    {
        match self {
            Builtin::And | Builtin::Or | Builtin::Not => false,
            Builtin::Member | Builtin::Eql | Builtin::Satisfies => false,
            Builtin::Mod | Builtin::Values | Builtin::Star => false,
            _ => true,
        }
    }
}
