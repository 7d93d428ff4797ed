//! Laws about what drives the net bits of a written netlist: each is the clause of a function that does nothing.
ghost use Rattle.lp_spec_driven.specs.Laws.{AddedOutputsGive, AssignBitsStand, AssignsGive, CellBitsStand, ConstantNetsStand, ConstantsGive, ControlAssignsGive, ControlsGoUp, ControlsLeadOut, DrivenAsTold};
ghost use Rattle.lp_spec_driven.specs.Laws.{OperatorsGive, OperatorsStand, OuterSidesStand, OutputBitsStand, OutputReadsStand, OutputsGive, SourceCellsGive, SourcesGive, SuppliesGoUp, SwitchOutputsStand, SwitchesGive, UndrivenStand, WiresAreApart};

/// Two wires that are there and have one net bit are one.
pub fn wires_are_apart()
    ensures { WiresAreApart }
{}

/// What a cell instance of the source drives in the written netlist are the net bits that it drives in the source.
pub fn source_cells_give()
    ensures { SourceCellsGive }
{}

/// What an operator drives there is the wire that it drives in the hub.
pub fn operators_give()
    ensures { OperatorsGive }
{}

/// What an output port of a module instance drives there is what the wires that it drives say.
pub fn outputs_give()
    ensures { OutputsGive }
{}

/// What an assign of the source drives there is the net bit that it drives in the source.
pub fn assigns_give()
    ensures { AssignsGive }
{}

/// What an added output of a module instance drives in the parent is a supply or a control that goes up.
pub fn added_outputs_give()
    ensures { AddedOutputsGive }
{}

/// An added assign of a constant drives the constant's own net.
pub fn constants_give()
    ensures { ConstantsGive }
{}

/// An added assign of a control drives an output port that leads it out.
pub fn control_assigns_give()
    ensures { ControlAssignsGive }
{}

/// What a switch drives there is the net of its own origin.
pub fn switches_give()
    ensures { SwitchesGive }
{}

/// Each source of a net bit from the instances and the assigns of its module is what drives a wire that has this net bit.
pub fn sources_give()
    ensures { SourcesGive }
{}

/// A wire whose net bit has a source stands for what drives it: its net bit is driven as the hub says.
pub fn net_bits_are_driven_as_told()
    ensures { DrivenAsTold }
{}

/// A wire that nothing drives has a net bit that nothing drives.
pub fn undriven_wires_stand()
    ensures { UndrivenStand }
{}

/// A net bit that an output of a cell instance of the source drives is driven in the written netlist as the hub says.
pub fn cell_bits_stand()
    ensures { CellBitsStand }
{}

/// A net bit to which an assign of the source leads is driven in the written netlist as the hub says.
pub fn assign_bits_stand()
    ensures { AssignBitsStand }
{}

/// What an operator makes is driven there by its output.
pub fn operators_stand()
    ensures { OperatorsStand }
{}

/// Where no operator of an output's way stands in the parent, the net bit that the output drives is driven from it.
pub fn output_bits_stand()
    ensures { OutputBitsStand }
{}

/// Where some operators of an output's way stand in the parent, what the first one of them reads is driven from the output.
pub fn output_reads_stand()
    ensures { OutputReadsStand }
{}

/// The net of a switch's origin is driven by the switch in the instance where it stands.
pub fn switch_outputs_stand()
    ensures { SwitchOutputsStand }
{}

/// The own net of a constant is driven from the constant.
pub fn constant_nets_stand()
    ensures { ConstantNetsStand }
{}

/// Where a switch's output goes up out of a module instance, the net of its origin in the parent is driven from there.
pub fn supplies_go_up()
    ensures { SuppliesGoUp }
{}

/// Where a control goes up out of a module instance, its wire or output port in the parent is driven from there.
pub fn controls_go_up()
    ensures { ControlsGoUp }
{}

/// The output port by which a control is led out of an instance is driven from its net bit or its wire there.
pub fn controls_lead_out()
    ensures { ControlsLeadOut }
{}

/// The outer sides of the top's ports are driven by the environment at inputs, and from what comes to the edge at outputs.
pub fn outer_sides_stand()
    ensures { OuterSidesStand }
{}
