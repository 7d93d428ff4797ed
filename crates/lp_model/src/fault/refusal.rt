ghost use Rattle.std.specs.Prelude.{◌≡◌};
ghost use Rattle.lp_model.specs.FaultLines.{design_word, is_plain_design, is_plain_netlist, fault_word, is_plain};

use crate::fault::check::CheckFault;
use crate::fault::intent::IntentFault;
use crate::fault::library::LibraryFault;
use crate::fault::netlist::NetlistFault;
use crate::fault::run::{EventFault, GeneratorFault, PinFault};
use crate::fault::strategy::StrategyFault;
use crate::fault::supply::SupplyFault;
use crate::upf::Commands;
use lp_text::NoMemory;
use std::alloc::{AllocError, AllocFailed};

/// A fault of the inputs of an insertion, whose number begins with F.
#[derive(Clone, Copy)]
pub enum DesignFault {
    /// Of the libraries.
    Library(LibraryFault),
    /// Of the netlist.
    Netlist(NetlistFault),
    /// Of the power intent's text.
    Intent(IntentFault),
    /// Of its domains and supplies.
    Supply(SupplyFault),
    /// Of its strategies.
    Strategy(StrategyFault),
}

impl DesignFault {
    /// The number and the name of the fault, as `F51 Tied`.
    pub fn word(&self) -> &'static str
        ensures { result.now ≡ design_word self.now }
    {
        match self {
            DesignFault::Library(fault) => fault.word(),
            DesignFault::Netlist(fault) => fault.word(),
            DesignFault::Intent(fault) => fault.word(),
            DesignFault::Supply(fault) => fault.word(),
            DesignFault::Strategy(fault) => fault.word(),
        }
    }
}

/// A fault of the inputs. What its fields count is said at each field; names are numbers of a table of names.
#[derive(Clone, Copy)]
pub enum Fault {
    /// Of the inputs of an insertion.
    Design(DesignFault),
    /// Of the events.
    Event(EventFault),
    /// Of a netlist that is simulated by its pins.
    Pins(PinFault),
    /// Of the generator.
    Generator(GeneratorFault),
    /// Of a powered netlist that is compared with what the intent asks for.
    Check(CheckFault),
    /// Of the text of that netlist and of its elaboration.
    Powered(NetlistFault),
    /// Of the k-th loaded file, from 1, in whose text its place is.
    Loaded(u32, IntentFault),
    /// A form that is not read yet, by its number.
    NotYet(u32),
}

impl Fault {
    /// The number and the name of the fault, as `F51 Tied`.
    pub fn word(&self) -> &'static str
        ensures { result.now ≡ fault_word self.now }
    {
        match self {
            Fault::Design(fault) => fault.word(),
            Fault::Event(fault) => fault.word(),
            Fault::Pins(fault) => fault.word(),
            Fault::Generator(fault) => fault.word(),
            Fault::Check(fault) => fault.word(),
            Fault::Powered(fault) => fault.word(),
            Fault::Loaded(_, fault) => fault.word(),
            Fault::NotYet(_) => "F99 NotYet",
        }
    }

    /// Whether its line can be written by the table of names alone. For the others, the stage that finds them gives
    /// the fields of the line.
    pub fn is_plain(&self) -> bool
        ensures { result ≡ is_plain self.now }
    {
        match self {
            Fault::Design(fault) => is_plain_design(fault),
            Fault::Powered(fault) => is_plain_netlist(fault),
            Fault::Event(_) | Fault::Generator(_) | Fault::Loaded(..) | Fault::NotYet(_) => true,
            Fault::Pins(_) | Fault::Check(_) => false,
        }
    }
}

fn is_plain_design(fault: &DesignFault) -> bool
    ensures { result ≡ is_plain_design fault.now }
{
    match fault {
        DesignFault::Library(_) | DesignFault::Intent(_) => true,
        DesignFault::Netlist(fault) => is_plain_netlist(fault),
        DesignFault::Supply(fault) => matches!(fault, SupplyFault::NoDomain { .. }),
        DesignFault::Strategy(_) => false,
    }
}

fn is_plain_netlist(fault: &NetlistFault) -> bool
    ensures { result ≡ is_plain_netlist fault.now }
{
    !matches!(
        fault,
        NetlistFault::TwoDrivers { .. } | NetlistFault::WireLoop { .. }
    )
}

/// Why a call gives no answer.
#[derive(Clone, Copy)]
pub enum Refusal {
    /// The inputs have this fault.
    Fault(Fault),
    /// An allocation was refused.
    NoMemory,
}

impl From<NoMemory> for Refusal {
    ghost use Rattle.std.specs.Prelude.{◌≡◌};
    ghost use Rattle.lp_model.specs.declared.fault.refusal.Refusal.TheVariants as refusals;

    ghost from_gives = { λ _ r. r ≡ refusals.NoMemory };

    fn from(_error: NoMemory) -> Refusal {
        Refusal::NoMemory
    }
}

impl From<AllocError> for Refusal {
    ghost use Rattle.std.specs.Prelude.{◌≡◌};
    ghost use Rattle.lp_model.specs.declared.fault.refusal.Refusal.TheVariants as refusals;

    ghost from_gives = { λ _ r. r ≡ refusals.NoMemory };

    fn from(_error: AllocError) -> Refusal {
        Refusal::NoMemory
    }
}

impl<T: Drop> From<AllocFailed<T>> for Refusal {
    ghost use Rattle.std.specs.Prelude.{◌≡◌};
    ghost use Rattle.lp_model.specs.declared.fault.refusal.Refusal.TheVariants as refusals;

    ghost from_gives = { λ _ r. r ≡ refusals.NoMemory };

    fn from(_error: AllocFailed<T>) -> Refusal {
        Refusal::NoMemory
    }
}

/// The commands of a UPF text and of the files that it loads (IEEE 1801-2015 load_upf).
#[derive(Drop)]
pub struct Loaded {
    /// The commands.
    pub commands: Commands,
    /// The fault at which the search for loads ended; none where it reached the end.
    pub stopped: Option<Fault>,
}
