ghost use Rattle.std.specs.Prelude.{◌≡◌};
ghost use Rattle.result_file.specs.declared.stops.Stop.TheVariants.{NoMemory as NoMemoryStop};

use crate::verdicts::Part;
use std::alloc::AllocError;

/// Why a check stops at a line.
#[derive(Clone, Copy)]
pub(crate) enum Stop {
    /// This part of the line is wrong.
    Wrong(Part),
    /// There is no memory for it.
    NoMemory,
}

impl From<AllocError> for Stop {
    ghost from_gives = { λ _ stop. stop ≡ NoMemoryStop };

    fn from(_error: AllocError) -> Stop {
        Stop::NoMemory
    }
}
