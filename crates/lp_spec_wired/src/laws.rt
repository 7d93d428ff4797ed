//! Laws about the wires of a written netlist: each is the clause of a function that does nothing.
ghost use Rattle.lp_spec_wired.specs.Additions.{AreApart};
ghost use Rattle.lp_spec_wired.specs.Laws.{ChainNetsAreApart, ControlsComeDown, InnerReadsComeDown, InputsComeDown, NodesAreApart, NodesAreNotMade};
ghost use Rattle.lp_spec_wired.specs.Laws.{LeadsAreApart, LeadsAreNotMade, NodesAreNotLed, OperatorWiresAreApart, PortsComeDown, SwitchesComeDown};
ghost use Rattle.lp_spec_wired.specs.Laws.{AddedAssignsDriveNoChain, ChainNetsHaveNoPorts, ControlsAreApart, ControlsAreNoOthers, ControlsAreNotSupplies};
ghost use Rattle.lp_spec_wired.specs.Laws.{SourceAssignsDriveNoChain, SuppliesAreApart, SuppliesAreNoOthers, TopInputsComeIn, TopReadsComeIn};

/// A supply port goes from the top down to each instance that has it.
pub fn supply_ports_come_down()
    ensures { PortsComeDown }
{}

/// The output of a switch goes down to each instance that has it as an input port.
pub fn switch_outputs_come_down()
    ensures { SwitchesComeDown }
{}

/// Inside an input port whose operators stand in the parent, a net bit of the source is driven as the hub says.
pub fn inputs_come_down()
    ensures { InputsComeDown }
{}

/// The names of additions differ by kind and number, and none is a name of the source.
pub fn added_names_are_apart()
    ensures { AreApart }
{}

/// A control that comes in at an input port comes from where it is in the parent.
pub fn controls_come_down()
    ensures { ControlsComeDown }
{}

/// Two nets of chains in one instance that have one name are the same net of the same stretch.
pub fn chain_nets_are_apart()
    ensures { ChainNetsAreApart }
{}

/// What the first operator inside an input port reads is driven as the hub says.
pub fn inner_reads_come_down()
    ensures { InnerReadsComeDown }
{}

/// Two operators that make wires of one name are the same operator of the same way.
pub fn operator_wires_are_apart()
    ensures { OperatorWiresAreApart }
{}

/// Two net bits of the source that have one net bit in the written netlist are one.
pub fn node_names_are_apart()
    ensures { NodesAreApart }
{}

/// The net bit of a net bit of the source is not that of a wire that an operator makes.
pub fn node_names_are_not_made()
    ensures { NodesAreNotMade }
{}

/// Inside an input port of the top without operators, a net bit of the source is driven from the port's outer side.
pub fn top_inputs_come_in()
    ensures { TopInputsComeIn }
{}

/// What the first operator of a top input reads is driven from the port's outer side.
pub fn top_reads_come_in()
    ensures { TopReadsComeIn }
{}

/// The net of its own by which a constant comes to the first operator of a way is no wire that an operator makes.
pub fn constant_nets_are_not_made()
    ensures { LeadsAreNotMade }
{}

/// Two ways to which a constant comes by one net are one.
pub fn constant_nets_are_apart()
    ensures { LeadsAreApart }
{}

/// The net bit of a net bit of the source is not the net of its own by which a constant comes to a way.
pub fn node_names_are_not_led()
    ensures { NodesAreNotLed }
{}

/// No input port of an instance has the name of a net of a chain.
pub fn chain_nets_have_no_ports()
    ensures { ChainNetsHaveNoPorts }
{}

/// Two parts of control routes that have one net bit are one.
pub fn controls_are_apart()
    ensures { ControlsAreApart }
{}

/// In no instance is the net bit of a supply that of a wire which is no supply's and no control's.
pub fn supplies_are_no_others()
    ensures { SuppliesAreNoOthers }
{}

/// The net bit of a part of a control route is that of no wire which is no supply's and no control's.
pub fn controls_are_no_others()
    ensures { ControlsAreNoOthers }
{}

/// The net bit of a supply is not that of a part of a control route.
pub fn controls_are_not_supplies()
    ensures { ControlsAreNotSupplies }
{}

/// Two supplies that have one net bit are the same origin in the same instance.
pub fn supplies_are_apart()
    ensures { SuppliesAreApart }
{}

/// A net of a chain that is not a constant's own is driven by no assign that is added.
pub fn added_assigns_drive_no_chain()
    ensures { AddedAssignsDriveNoChain }
{}

/// A net of a chain that takes no bit's place is driven by no assign of the source.
pub fn source_assigns_drive_no_chain()
    ensures { SourceAssignsDriveNoChain }
{}
