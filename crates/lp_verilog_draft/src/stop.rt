use lp_text::{NameId, NoMemory};
use std::alloc::{AllocError, AllocFailed};

/// How a text leaves the netlists that are read.
#[derive(Clone, Copy)]
pub enum Off {
    /// The token cannot stand there.
    Syntax,
    /// The token belongs to the language, but not to what is read of it.
    Unsupported,
    /// The name is declared twice.
    Duplicate(NameId),
    /// The port whose name stands at this byte has no direction.
    Lacking(usize),
}

/// Why a step is not taken.
#[derive(Clone, Copy)]
pub enum Stop {
    Off(Off),
    /// An allocation was refused.
    NoMemory,
}

impl From<NoMemory> for Stop {
    ghost use Rattle.std.specs.Prelude.{◌≡◌};
    ghost use Rattle.lp_verilog_draft.specs.declared.stop.Stop.TheVariants as stops;

    ghost from_gives = { λ _ s. s ≡ stops.NoMemory };

    fn from(_error: NoMemory) -> Stop {
        Stop::NoMemory
    }
}

impl From<AllocError> for Stop {
    ghost use Rattle.std.specs.Prelude.{◌≡◌};
    ghost use Rattle.lp_verilog_draft.specs.declared.stop.Stop.TheVariants as stops;

    ghost from_gives = { λ _ s. s ≡ stops.NoMemory };

    fn from(_error: AllocError) -> Stop {
        Stop::NoMemory
    }
}

impl<T: Drop> From<AllocFailed<T>> for Stop {
    ghost use Rattle.std.specs.Prelude.{◌≡◌};
    ghost use Rattle.lp_verilog_draft.specs.declared.stop.Stop.TheVariants as stops;

    ghost from_gives = { λ _ s. s ≡ stops.NoMemory };

    fn from(_error: AllocFailed<T>) -> Stop {
        Stop::NoMemory
    }
}
