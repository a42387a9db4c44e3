use std::alloc::{AllocError, AllocFailed};
use thiserror::Error;

/// Why a DEFTYPE form says no template.
#[derive(Clone, Copy, Debug, PartialEq, Eq, Error)]
pub enum TemplateFault {
    /// The form has not exactly one body that is quoted or backquoted data, T or NIL, or a comma, a splice or a
    /// backquote stands in it where none may.
    #[error("the body is no template")]
    CodeBody,
    /// The lambda list has something else than required, optional and rest parameters in their order, a default that
    /// is no constant, or a name twice.
    #[error("the lambda list is not supported")]
    BadLambdaList,
    /// There was no memory for the template.
    #[error("there is no memory for the template")]
    Memory,
}

/// Why arguments are not put into a template.
#[derive(Clone, Copy, Debug, PartialEq, Eq, Error)]
pub enum SubstituteFault {
    /// There are fewer arguments than required ones, or too many without a rest parameter.
    #[error("the count of arguments is wrong")]
    ArgumentCount,
    /// The result would have more data than there is room for.
    #[error("the result is too large")]
    TooManyNodes,
    /// There was no memory for the result.
    #[error("there is no memory for the result")]
    Memory,
}

impl From<AllocError> for TemplateFault {
    ghost use Rattle.std.specs.Prelude.{◌≡◌};
    ghost use Rattle.ls_deftype.specs.declared.fault.TemplateFault.TheVariants.{Memory};

    ghost from_gives = { λ _ e. e ≡ Memory };

    fn from(_e: AllocError) -> TemplateFault {
        TemplateFault::Memory
    }
}

impl From<AllocError> for SubstituteFault {
    ghost use Rattle.std.specs.Prelude.{◌≡◌};
    ghost use Rattle.ls_deftype.specs.declared.fault.SubstituteFault.TheVariants.{Memory};

    ghost from_gives = { λ _ e. e ≡ Memory };

    fn from(_e: AllocError) -> SubstituteFault {
        SubstituteFault::Memory
    }
}
