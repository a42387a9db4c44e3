use ls_reader::Span;
use std::alloc::{AllocError, AllocFailed};
use thiserror::Error;

/// What is wrong with a datum as a type specifier.
#[derive(Clone, Copy, Debug, PartialEq, Eq, Error)]
pub enum RefusalKind {
    /// The name is neither built in nor defined.
    #[error("no type has this name")]
    UnknownType,
    /// A DEFCLASS or DEFINE-CONDITION defines the name.
    #[error("types of classes and conditions are not supported")]
    ClassType,
    /// Two or more forms define the name.
    #[error("the name is defined more than once")]
    NameTwice,
    /// The DEFTYPE of the name leads back to it.
    #[error("recursive types are not supported")]
    RecursiveType,
    /// The DEFTYPE of the name has a body that is no quoted or backquoted data.
    #[error("the definition of the type computes")]
    CodeBody,
    /// The DEFTYPE of the name has a lambda list that is not supported.
    #[error("the definition of the type is not supported")]
    BadDefinition,
    /// A use of a DEFTYPE has a wrong count of arguments.
    #[error("the count of arguments is wrong")]
    ArgumentCount,
    /// A float name or REAL has an argument other than `*`.
    #[error("ranges of floats and of reals are not supported")]
    FloatRange,
    /// COMPLEX has an argument other than `*`.
    #[error("complex numbers with a part type are not supported")]
    ComplexPart,
    /// The list form of FUNCTION, or VALUES.
    #[error("function types stand in declarations of functions alone")]
    FunctionList,
    /// No symbol and no list with a symbol as its head, a wrong count of arguments, a name where it cannot stand, or
    /// what is no rank, no dimension and no list of dimensions.
    #[error("no type specifier has this form")]
    BadArgument,
    /// A bound or a size that is none.
    #[error("this is no bound or size")]
    BadBound,
    /// A number past the limits, or more dimensions than there may be.
    #[error("the number is past the limits")]
    NumberTooWide,
    /// An object of MEMBER or EQL that is no symbol, character or rational number.
    #[error("only symbols, characters and rational numbers may stand here")]
    MemberObject,
    /// `*` where a specifier is needed.
    #[error("`*` is no type specifier")]
    StarNotAllowed,
    /// The nesting passes the limit.
    #[error("the type specifier is nested too deeply")]
    TooDeep,
    /// The count of specifiers and objects passes the limit.
    #[error("the type specifier is too large")]
    TooManyNodes,
}

/// Why a datum is no type specifier, and where.
#[derive(Clone, Copy, Debug, PartialEq, Eq, Error)]
#[error("no type specifier")]
pub struct Refusal {
    pub kind: RefusalKind,
    pub place: Span,
}

/// Why a datum was not resolved.
#[derive(Debug, Drop)]
pub enum Stop {
    /// There was no memory for the specifier.
    Memory,
    /// The datum is no type specifier.
    Refused(Refusal),
}

impl From<AllocError> for Stop {
    ghost use Rattle.std.specs.Prelude.{◌≡◌};
    ghost use Rattle.ls_grammar.specs.declared.refusal.Stop.TheVariants.{Memory};

    ghost from_gives = { λ _ e. e ≡ Memory };

    fn from(_e: AllocError) -> Stop {
        Stop::Memory
    }
}

impl<T: Drop> From<AllocFailed<T>> for Stop {
    ghost use Rattle.std.specs.Prelude.{◌≡◌};
    ghost use Rattle.ls_grammar.specs.declared.refusal.Stop.TheVariants.{Memory};

    ghost from_gives = { λ _ e. e ≡ Memory };

    fn from(_e: AllocFailed<T>) -> Stop {
        Stop::Memory
    }
}
