//! Laws about the modules of the written netlist by their paths: each is the clause of a function that does nothing.
ghost use Rattle.lp_spec_written_at.specs.Laws.{ConnectionsAreRead, ContentIsProjectNetlist, ControlNamesAreNetBits, DeclaresByTest, DeclaresItsBits, ExpectedCellsDiffer, HasAllItsCells, HasItsInstances, HasItsOrigins, HasItsPorts, HasNoOtherCells, HasOperatorCells, HasSourceCells, InstanceNamesDiffer, IsAsChosen, IsShallow, KnowsTargets, ModuleNamesDiffer, NoneLacks, OperatorPinsAreRead, OperatorsComeFromPlan, OperatorsDiffer, OperatorsStand, OriginsAreApart, PartNamesDiffer, PinsAreWritten, PlacesOperators, PlacesSwitches, RetentionPinsAreRead, SourceCellsDiffer, SourceCellsStand, SourcePinsAreKept, SourceSuppliesAreRead, SupplyNamesDiffer, SwitchControlsAreNetBits, SwitchPinsAreRead, SwitchesComeFromPlan, SwitchesDiffer, SwitchesStand, TargetsAreFree, WrittenAreReached, WrittenAtItsPaths, WrittenIsProjectNetlist, WrittenNamesDiffer};

/// The written netlist has at each path of the source the written module of that path, and no other paths.
pub fn written_is_written_at()
    ensures { WrittenAtItsPaths }
{}

/// A netlist of that content has the module instances of the source.
pub fn content_has_the_instances_of_the_source()
    ensures { HasItsInstances }
{}

/// It is no deeper than a design may be.
pub fn content_is_shallow()
    ensures { IsShallow }
{}

/// Its top has the ports of the source.
pub fn content_has_the_ports_of_the_source()
    ensures { HasItsPorts }
{}

/// Its top has the port of each supply origin that is a port.
pub fn content_has_the_ports_of_origins()
    ensures { HasItsOrigins }
{}

/// Each target of it is a module or a cell.
pub fn content_knows_its_targets()
    ensures { KnowsTargets }
{}

/// Each module that is written is that of an instance.
pub fn written_modules_have_instances()
    ensures { WrittenAreReached }
{}

/// Each cell instance of the source is there, a register with retention by the cell that was chosen for it.
pub fn content_has_the_cells_of_the_source()
    ensures { HasSourceCells }
{}

/// Each operator has the instance of its name, of the cell that was chosen for it.
pub fn content_has_the_cells_of_operators()
    ensures { HasOperatorCells }
{}

/// The placement that goes with it has each operator of the plan at an instance of the cell that was chosen for it.
pub fn operators_are_placed()
    ensures { PlacesOperators }
{}

/// It has each switch at an instance of the cell that was chosen for it.
pub fn switches_are_placed()
    ensures { PlacesSwitches }
{}

/// Each operator stands in its place by a cell that fits, the chosen one.
pub fn operators_stand()
    ensures { OperatorsStand }
{}

/// Each switch stands in its scope by a cell that fits, the chosen one.
pub fn switches_stand()
    ensures { SwitchesStand }
{}

/// Each cell instance of the source stands, a register with retention by a cell that fits, the chosen one.
pub fn source_cells_stand()
    ensures { SourceCellsStand }
{}

/// All cells that are added, and those of registers with retention, are the chosen ones in their places.
pub fn cells_are_as_chosen()
    ensures { IsAsChosen }
{}

/// Where no operator, register or switch lacks a cell, registers with retention and switches have the chosen ones.
pub fn none_lacks_a_cell()
    ensures { NoneLacks }
{}

/// Each operator that is written in an instance is the one that the placement has there for some operator.
pub fn written_operators_come_from_the_plan()
    ensures { OperatorsComeFromPlan }
{}

/// So is each switch.
pub fn written_switches_come_from_the_plan()
    ensures { SwitchesComeFromPlan }
{}

/// There are no other cell instances than those of the source, the operators and the switches.
pub fn content_has_no_other_cells()
    ensures { HasNoOtherCells }
{}

/// No cell instance of the source stands twice.
pub fn source_cells_differ()
    ensures { SourceCellsDiffer }
{}

/// No two operators stand at one cell instance.
pub fn operators_differ()
    ensures { OperatorsDiffer }
{}

/// No two switches stand at one cell instance.
pub fn switches_differ()
    ensures { SwitchesDiffer }
{}

/// No two cell instances of the source, of operators and of switches are one.
pub fn expected_cells_differ()
    ensures { ExpectedCellsDiffer }
{}

/// The cells that the project asks for are there, each once, and no others.
pub fn content_has_all_its_cells()
    ensures { HasAllItsCells }
{}

/// No two modules that are written have one name.
pub fn written_module_names_differ()
    ensures { ModuleNamesDiffer }
{}

/// No two instances in a module that is written have one name.
pub fn written_instance_names_differ()
    ensures { InstanceNamesDiffer }
{}

/// Where no instance is of an unfit cell, no target begins as the added names.
pub fn fit_targets_are_free()
    ensures { TargetsAreFree }
{}

/// Supply ports have names of their own, and switches have numbers of their own.
pub fn supply_names_differ()
    ensures { SupplyNamesDiffer }
{}

/// The names of supply ports are apart, and none is that of a port of the source.
pub fn origins_are_apart()
    ensures { OriginsAreApart }
{}

/// The ports, nets and instances of a written module have names apart, all together.
pub fn written_part_names_differ()
    ensures { PartNamesDiffer }
{}

/// No name stands twice in the written netlist.
pub fn written_names_differ()
    ensures { WrittenNamesDiffer }
{}

/// Each bit that a module of that content joins is declared there.
pub fn content_declares_its_bits()
    ensures { DeclaresItsBits }
{}

/// A netlist that declares its bits passes the test of project netlists.
pub fn declared_bits_pass_the_test()
    ensures { DeclaresByTest }
{}

/// Modules of the written content are a netlist of the project, where no net bit is driven twice and no wire comes back to itself.
pub fn content_is_a_project_netlist()
    ensures { ContentIsProjectNetlist }
{}

/// So is the written netlist.
pub fn written_is_a_project_netlist()
    ensures { WrittenIsProjectNetlist }
{}

/// A pin of an instance of that content is connected as it is written.
pub fn pins_are_written()
    ensures { PinsAreWritten }
{}

/// Where no two connections have one name, each gives its pin its first bit.
pub fn connections_are_read()
    ensures { ConnectionsAreRead }
{}

/// So does each connection of an operator, whose cell has no two pins of one name.
pub fn operator_pins_are_read()
    ensures { OperatorPinsAreRead }
{}

/// And each connection of a switch.
pub fn switch_pins_are_read()
    ensures { SwitchPinsAreRead }
{}

/// A pin of a cell instance of the source that is connected stays connected to the net bit, by the name that it has there.
pub fn source_pins_are_kept()
    ensures { SourcePinsAreKept }
{}

/// Each power and ground pin of a cell instance of the source is connected to the net of the origin to which it is joined.
pub fn source_supplies_are_read()
    ensures { SourceSuppliesAreRead }
{}

/// Each retention pin of a register with retention is connected to the net of its control.
pub fn retention_pins_are_read()
    ensures { RetentionPinsAreRead }
{}

/// What a control name gives is a net bit that its instance declares.
pub fn control_names_are_net_bits()
    ensures { ControlNamesAreNetBits }
{}

/// So is the control of each switch, or a constant.
pub fn switch_controls_are_net_bits()
    ensures { SwitchControlsAreNetBits }
{}
