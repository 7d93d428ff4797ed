ghost use Rattle.std.specs.Prelude.{◌≡◌};
ghost use Rattle.lp_top.specs.Outcomes.{status_of};

use crate::design::Fault;

/// What is wrong with the words of a command.
#[derive(Clone, Copy)]
pub enum UsageFault {
    /// They are no command.
    Form,
    /// There are more than 16 libraries, or an output is another file too.
    Files,
}

/// How a run ended. A number is a file's: 0 standard output, 1 netlist, 2 UPF, 3 netlist out,
/// 4 report, 9 + k the k-th library from 1.
#[derive(Drop)]
pub enum Outcome {
    /// All input was read and all output written.
    Done,
    /// The inputs have this first fault.
    Refused(Fault),
    /// This input file is above the limit of one file.
    TooLong(u32),
    /// The words are no command that can be run.
    Usage(UsageFault),
    /// This file could not be read.
    ReadFault(u32),
    /// This file could not be written.
    WriteFault(u32),
    /// An allocation was refused.
    NoMemory,
}

/// The exit status of an outcome: 0 to 4.
pub fn status(outcome: &Outcome) -> u8
    ensures { result ≡ status_of outcome.now }
{
    match outcome {
        Outcome::Done => 0,
        Outcome::Refused(_) => 1,
        Outcome::TooLong(_) => 1,
        Outcome::Usage(_) => 2,
        Outcome::ReadFault(_) => 3,
        Outcome::WriteFault(_) => 3,
        Outcome::NoMemory => 4,
    }
}
