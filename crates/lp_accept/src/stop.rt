ghost use Rattle.std.specs.Prelude.{IsTrue};
ghost use Rattle.lp_model.specs.FaultLines.{fault_line, is_plain};
ghost use Rattle.lp_spec_insertion.specs.Faults.{not_yet as line_not_yet};
ghost use Rattle.lp_accept.specs.Stages.{IsLine, StopsBy};

use lp_model::{Fault, write_line};
use lp_text::{Bytes, Names, NoMemory};
use std::alloc::{AllocError, AllocFailed, Global};

/// Why the texts of an insertion give no design.
#[derive(Drop)]
pub enum Stop {
    /// The line of the first fault, without its line feed.
    Fault(Bytes),
    /// An allocation was refused.
    NoMemory,
}

impl From<NoMemory> for Stop {
    ghost use Rattle.std.specs.Prelude.{◌≡◌};
    ghost use Rattle.lp_accept.specs.declared.stop.Stop.TheVariants as stops;

    ghost from_gives = { λ _ e. e ≡ stops.NoMemory };

    fn from(_error: NoMemory) -> Stop {
        Stop::NoMemory
    }
}

impl From<AllocError> for Stop {
    ghost use Rattle.std.specs.Prelude.{◌≡◌};
    ghost use Rattle.lp_accept.specs.declared.stop.Stop.TheVariants as stops;

    ghost from_gives = { λ _ e. e ≡ stops.NoMemory };

    fn from(_error: AllocError) -> Stop {
        Stop::NoMemory
    }
}

impl<T: Drop> From<AllocFailed<T>> for Stop {
    ghost use Rattle.std.specs.Prelude.{◌≡◌};
    ghost use Rattle.lp_accept.specs.declared.stop.Stop.TheVariants as stops;

    ghost from_gives = { λ _ e. e ≡ stops.NoMemory };

    fn from(_error: AllocFailed<T>) -> Stop {
        Stop::NoMemory
    }
}

/// The stop of a line.
fn stop_by(line: Result<Bytes, NoMemory>) -> Stop
    ensures { StopsBy line result }
{
    match line {
        Ok(line) => Stop::Fault(line),
        Err(NoMemory) => Stop::NoMemory,
    }
}

/// The stop of a fault whose fields names and places alone give.
pub(crate) fn stop_at(alloc: Global, names: &Names, fault: &Fault) -> Stop
    requires { IsTrue (is_plain fault.now) }
    ensures { IsLine (fault_line names.now fault.now) result }
{
    stop_by(write_line(alloc, names, fault))
}

/// The stop at a form that is not built yet, by the number of the work that lifts it.
pub(crate) fn not_yet(alloc: Global, names: &Names, k: u32) -> Stop
    ensures { IsLine (line_not_yet k) result }
{
    stop_at(alloc, names, &Fault::NotYet(k))
}
