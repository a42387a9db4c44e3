use crate::datum::Span;
use crate::place::Place;
use std::alloc::{AllocError, AllocFailed};
use thiserror::Error;

/// The kinds of faults of a text.
#[derive(Clone, Copy, Debug, PartialEq, Eq)]
pub(crate) enum FaultKind {
    NotUtf8,
    BadToken,
    StrayClose,
    Unclosed,
    BadDot,
    TooDeep,
    ZeroDenominator,
    Label,
}

/// Why the lexer stops: no memory, or a fault and how many characters stand before its place.
#[derive(Debug, Drop)]
pub(crate) enum Stop {
    Memory,
    Fault(FaultKind, usize),
}

/// Why reading stops: no memory, or a fault and its place.
#[derive(Debug, Drop)]
pub(crate) enum Failure {
    Memory,
    Fault(FaultKind, Place),
}

/// Why a text is not read: its first fault, or no memory. The span of a fault begins and ends at its place,
/// and has the line and the column of it.
#[derive(Debug, Drop, Error)]
pub enum ReadError {
    /// The bytes are not UTF-8; the place is behind the longest front that is.
    #[error("the text is not in UTF-8 from here on")]
    NotUtf8(Span),
    /// A token that is neither a number nor a symbol, a dispatching character that means nothing, a character that
    /// stands in no token, or a feature expression out of form (at its `#`).
    #[error("what stands here is no token")]
    BadToken(Span),
    /// A closing bracket that ends no list: none is begun, or a prefix that has no datum yet is.
    #[error("a closing bracket stands where no list can end")]
    StrayClose(Span),
    /// The text ends within a list, a string, a comment or an escape, or behind a prefix; the place is where the
    /// innermost of them begins.
    #[error("what begins here is not ended")]
    Unclosed(Span),
    /// A dot that stands where none may, one that no datum follows (at the bracket behind it), or a second datum
    /// behind a dot (at its start).
    #[error("a dot, or what stands behind one, is out of place")]
    BadDot(Span),
    /// A list, a vector or a prefix that would be 257 deep.
    #[error("the nesting is too deep")]
    TooDeep(Span),
    /// A ratio whose denominator is zero.
    #[error("the denominator of a ratio is zero")]
    ZeroDenominator(Span),
    /// A label, or a reference to one (2.4.8.15, 2.4.8.16).
    #[error("labels are not read")]
    Label(Span),
    /// There was no memory for the data.
    #[error("out of memory")]
    Memory,
}

impl From<AllocError> for Stop {
    ghost use Rattle.std.specs.Prelude.{◌≡◌};
    ghost use Rattle.ls_reader.specs.declared.fault.Stop.TheVariants.{Memory};

    ghost from_gives = { λ _ e. e ≡ Memory };

    fn from(_e: AllocError) -> Stop {
        Stop::Memory
    }
}

impl<T: Drop> From<AllocFailed<T>> for Stop {
    ghost use Rattle.std.specs.Prelude.{◌≡◌};
    ghost use Rattle.ls_reader.specs.declared.fault.Stop.TheVariants.{Memory};

    ghost from_gives = { λ _ e. e ≡ Memory };

    fn from(_e: AllocFailed<T>) -> Stop {
        Stop::Memory
    }
}

impl From<AllocError> for Failure {
    ghost use Rattle.std.specs.Prelude.{◌≡◌};
    ghost use Rattle.ls_reader.specs.declared.fault.Failure.TheVariants.{Memory};

    ghost from_gives = { λ _ e. e ≡ Memory };

    fn from(_e: AllocError) -> Failure {
        Failure::Memory
    }
}

impl<T: Drop> From<AllocFailed<T>> for Failure {
    ghost use Rattle.std.specs.Prelude.{◌≡◌};
    ghost use Rattle.ls_reader.specs.declared.fault.Failure.TheVariants.{Memory};

    ghost from_gives = { λ _ e. e ≡ Memory };

    fn from(_e: AllocFailed<T>) -> Failure {
        Failure::Memory
    }
}

impl From<Failure> for ReadError {
    ghost use Rattle.std.specs.Prelude.{◌≡◌};
    ghost use Rattle.ls_reader.specs.Answers.{fault_of};
    ghost use Rattle.ls_reader.specs.steps.Running.{fault_of_failure};

    ghost from_gives = { λ failure e. fault_of e ≡ fault_of_failure failure };

    fn from(failure: Failure) -> ReadError {
        match failure {
            Failure::Memory => ReadError::Memory,
            Failure::Fault(FaultKind::NotUtf8, at) => ReadError::NotUtf8(at.span()),
            Failure::Fault(FaultKind::BadToken, at) => ReadError::BadToken(at.span()),
            Failure::Fault(FaultKind::StrayClose, at) => ReadError::StrayClose(at.span()),
            Failure::Fault(FaultKind::Unclosed, at) => ReadError::Unclosed(at.span()),
            Failure::Fault(FaultKind::BadDot, at) => ReadError::BadDot(at.span()),
            Failure::Fault(FaultKind::TooDeep, at) => ReadError::TooDeep(at.span()),
            Failure::Fault(FaultKind::ZeroDenominator, at) => ReadError::ZeroDenominator(at.span()),
            Failure::Fault(FaultKind::Label, at) => ReadError::Label(at.span()),
        }
    }
}
