ghost use Rattle.std.specs.Prelude.{◌≡◌};
ghost use Rattle.trace.specs.declared.stop.Stop.TheVariants.{Line, Memory};

use crate::reason::Reason;
use std::alloc::{AllocError, AllocFailed};

/// Why a line was not answered.
#[derive(Clone, Copy, Debug)]
pub enum Stop {
    /// The line is no command.
    Line(Reason),
    /// There was no memory for the answer.
    Memory,
}

impl From<Reason> for Stop {
    ghost from_gives = { λ reason stop. stop ≡ Line reason };

    fn from(reason: Reason) -> Stop {
        Stop::Line(reason)
    }
}

impl From<AllocError> for Stop {
    ghost from_gives = { λ _ stop. stop ≡ Memory };

    fn from(_error: AllocError) -> Stop {
        Stop::Memory
    }
}

impl<T: Drop> From<AllocFailed<T>> for Stop {
    ghost from_gives = { λ _ stop. stop ≡ Memory };

    fn from(_failed: AllocFailed<T>) -> Stop {
        Stop::Memory
    }
}
