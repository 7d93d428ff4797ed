//! Laws about the definitions alone: each is the clause of a function that does nothing.
ghost use Rattle.lp_spec_upf.specs.Laws.{EachIsSaid, ElementsAreDenoted, SaidOnce};

/// Each text says its commands, or has its one fault.
pub fn intent_is_said()
    ensures { EachIsSaid }
{}

/// A text says its commands, or has its one fault, in one way.
pub fn intent_is_said_once()
    ensures { SaidOnce }
{}

/// The elements by which a list is judged are those that its content has as a list.
pub fn elements_are_denoted()
    ensures { ElementsAreDenoted }
{}
