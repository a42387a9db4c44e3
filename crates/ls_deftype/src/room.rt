ghost use Rattle.ls_deftype.specs.steps.Room.{Takes};

use std::alloc::{AllocError, AllocFailed};

/// Why data are not made: no memory, or more of them than there is room for.
#[derive(Debug, Drop)]
pub(crate) enum Stop {
    Memory,
    TooMany,
}

impl From<AllocError> for Stop {
    ghost use Rattle.std.specs.Prelude.{◌≡◌};
    ghost use Rattle.ls_deftype.specs.declared.room.Stop.TheVariants.{Memory};

    ghost from_gives = { λ _ e. e ≡ Memory };

    fn from(_e: AllocError) -> Stop {
        Stop::Memory
    }
}

impl<T: Drop> From<AllocFailed<T>> for Stop {
    ghost use Rattle.std.specs.Prelude.{◌≡◌};
    ghost use Rattle.ls_deftype.specs.declared.room.Stop.TheVariants.{Memory};

    ghost from_gives = { λ _ e. e ≡ Memory };

    fn from(_e: AllocFailed<T>) -> Stop {
        Stop::Memory
    }
}

/// Takes the room of one datum.
pub(crate) fn take_one(room: &mut u64) -> Result<(), Stop>
    ensures { Takes (λ _. Unit {0}) 1 room.old room.new result }
{
    if *room == 0 {
        return Err(Stop::TooMany);
    }
    *room -= 1;
    Ok(())
}
