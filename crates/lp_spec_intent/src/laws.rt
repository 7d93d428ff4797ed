//! Laws that show that the definitions say what is meant: each is the clause of a function that does nothing.
ghost use Rattle.lp_spec_intent.specs.Laws.{NamesStandInside};

/// Whatever commands make over a netlist with a top: the control names of strategies and switches give net bits of
/// instances, and the scopes of switches are instances.
pub fn names_stand_inside()
    ensures { NamesStandInside }
{}
