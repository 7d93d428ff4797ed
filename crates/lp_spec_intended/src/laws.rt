//! The laws of the resolver of power intent joined: each is the clause of a function that does nothing.
ghost use Rattle.lp_spec_intended.specs.Laws.{TextsGiveProjects, TextsMakeNetworks};

/// Whatever a text of power intent makes, where F37, F38 and F39 hold nowhere: its supply network keeps its limits,
/// its roots are those of its inputs, and inputs of switches lead to ports.
pub fn texts_make_networks()
    ensures { TextsMakeNetworks }
{}

/// The project that it gives over a netlist with a top, no instance of which is deeper than 64, is what the theorem of
/// insertion asks of the resolver of power intent.
pub fn texts_give_projects()
    ensures { TextsGiveProjects }
{}
