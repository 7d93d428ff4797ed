//! The faults of a command, of which the one of the earliest place counts.
ghost use Rattle.std.specs.Prelude.{◌≡◌, ℕ, true, false, None, Some, List};
ghost use Rattle.lp_model.specs.Agreement.{numbers_below};
ghost use Rattle.lp_spec_upf.specs.Commands.{is_before, place_of};
ghost use Rattle.lp_upf.specs.Faults.{fault_view, faults_view, first_numbers, first_view, is_off, join, joined};

use lp_model::OptionWord;
use lp_text::{NameId, Place};

/// Why a command is refused.
#[derive(Clone, Copy)]
pub(crate) enum CommandFault {
    /// It leaves the form of commands.
    Syntax(Place),
    /// A word that is not read.
    Unsupported(Place, NameId),
    /// The word of an option whose expression is not read.
    Expression(Place, OptionWord),
    /// A clamp value other than 0 and 1.
    ClampRefused(Place),
}

/// The faults of a part of a command: the one of the earliest place, and whether one leaves the form of commands.
#[derive(Clone, Copy)]
pub(crate) struct Faults {
    pub first: Option<CommandFault>,
    pub cut: bool,
}

fn place_of(fault: CommandFault) -> Place
    ensures { (names : List (List ℕ)) → result ≡ place_of (fault_view names fault) }
{
    match fault {
        CommandFault::Syntax(place)
        | CommandFault::Unsupported(place, _)
        | CommandFault::Expression(place, _)
        | CommandFault::ClampRefused(place) => place,
    }
}

fn is_before(a: Place, b: Place) -> bool
    ensures { result ≡ is_before a b }
{
    a.line < b.line || a.line == b.line && a.column < b.column
}

/// The fault of the earlier place; the first, where their places are equal.
pub(crate) fn earlier(
    first: Option<CommandFault>,
    second: Option<CommandFault>,
) -> Option<CommandFault>
    ensures value { (names : List (List ℕ)) → first_view names result ≡ join (first_view names first) (first_view names second) }
    ensures numbers { (n : ℕ) → numbers_below n (first_numbers first) ≡ true → numbers_below n (first_numbers second) ≡ true → numbers_below n (first_numbers result) ≡ true }
{
    match (first, second) {
        (None, fault) | (fault, None) => fault,
        (Some(one), Some(other)) => {
            if is_before(place_of(other), place_of(one)) {
                Some(other)
            } else {
                Some(one)
            }
        }
    }
}

impl Faults {
    /// No fault.
    pub(crate) fn none() -> Faults
        ensures { result ≡ record { first = None; cut = false } }
    {
        Faults {
            first: None,
            cut: false,
        }
    }

    /// One fault.
    pub(crate) fn of(fault: CommandFault) -> Faults
        ensures { result ≡ record { first = Some fault; cut = is_off fault } }
    {
        Faults {
            first: Some(fault),
            cut: matches!(fault, CommandFault::Syntax(_)),
        }
    }

    /// These faults and more.
    pub(crate) fn joined(self, more: Faults) -> Faults
        ensures value { (names : List (List ℕ)) → faults_view names result ≡ joined (faults_view names self) (faults_view names more) }
        ensures numbers { (n : ℕ) → numbers_below n (first_numbers self.first) ≡ true → numbers_below n (first_numbers more.first) ≡ true → numbers_below n (first_numbers result.first) ≡ true }
    {
        Faults {
            first: earlier(self.first, more.first),
            cut: self.cut || more.cut,
        }
    }
}
