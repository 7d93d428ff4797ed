//! The laws of the absence of faults: each is the clause of a function that does nothing.
ghost use Rattle.lp_spec_faultless.specs.Laws.{ControlsByAnyOrder, NoFaultIsFaultless, NoLoopHasOrder};

/// Where no net bit depends on itself (F21), all that occurs in the equations under intent has an order, so that exactly one
/// assignment settles. What is joined is declared, inputs of switches lead to ports, and no control is the outer side of a
/// port.
#[tactic(auto, using(crate::proofs::Loops::no_loop_has_order))]
pub fn no_loop_has_order()
    ensures { NoLoopHasOrder }
{}

/// Whether a control is read by a supply that is too high (F59) does not depend on the order of the commands.
#[tactic(auto, using(crate::proofs::Whole::controls_by_any_order))]
pub fn controls_by_any_order()
    ensures { ControlsByAnyOrder }
{}

/// Where no line of the table of faults that bears on values holds, a project that is read is without faults.
pub fn no_fault_is_faultless()
    ensures { NoFaultIsFaultless }
{}
