use std::alloc::{AllocError, AllocFailed};
use thiserror::Error;

/// Why a form is no structure definition.
#[derive(Clone, Copy, Debug, PartialEq, Eq, Error)]
pub enum StructFault {
    /// No name, or one that is no symbol.
    #[error("the structure definition has no name")]
    NoName,
    /// An option that the standard does not name, one that is no keyword and no list that begins with one, an inclusion
    /// without the name of a structure type, or a second inclusion.
    #[error("an option of the structure definition is out of form")]
    BadOption,
    /// There was no memory for the definition.
    #[error("out of memory")]
    Memory,
}

/// Why a structure definition makes nothing of its name.
#[derive(Clone, Copy, Debug, PartialEq, Eq, Error)]
pub enum TreeFault {
    /// The name is built in.
    #[error("the name is that of a type of the standard")]
    Reserved,
    /// The name is defined already.
    #[error("the name has a structure definition already")]
    Twice,
    /// The included name is not defined before.
    #[error("the included structure type is not defined before")]
    UnknownInclude,
    /// The included name was defined with `:TYPE`, so it is that of no type.
    #[error("the included structure is of another representation and no type")]
    IncludeOfTyped,
    /// There was no memory for the definition.
    #[error("out of memory")]
    Memory,
}

impl From<AllocError> for StructFault {
    ghost use Rattle.std.specs.Prelude.{◌≡◌};
    ghost use Rattle.ls_structs.specs.declared.fault.StructFault.TheVariants.{Memory};

    ghost from_gives = { λ _ e. e ≡ Memory };

    fn from(_e: AllocError) -> StructFault {
        StructFault::Memory
    }
}

impl From<AllocError> for TreeFault {
    ghost use Rattle.std.specs.Prelude.{◌≡◌};
    ghost use Rattle.ls_structs.specs.declared.fault.TreeFault.TheVariants.{Memory};

    ghost from_gives = { λ _ e. e ≡ Memory };

    fn from(_e: AllocError) -> TreeFault {
        TreeFault::Memory
    }
}

impl<T: Drop> From<AllocFailed<T>> for TreeFault {
    ghost use Rattle.std.specs.Prelude.{◌≡◌};
    ghost use Rattle.ls_structs.specs.declared.fault.TreeFault.TheVariants.{Memory};

    ghost from_gives = { λ _ e. e ≡ Memory };

    fn from(_e: AllocFailed<T>) -> TreeFault {
        TreeFault::Memory
    }
}
