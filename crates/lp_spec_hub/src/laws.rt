//! Laws about the wires of an insertion: each is the clause of a function that does nothing.
ghost use Rattle.lp_spec_hub.specs.Laws.{NodesBegin, DataBegins, ControlsBegin, BeginAsIntended, DataAsIntended, EndsAsWired, RoutesAreSound, RoutesCome, SuppliesBegin, OriginsAsIntended, PlanByBits, PlanByNumbers, PlanIsWhole, PlanIsInFlow, DoneIsInFlow, StandsNear, ChainByReaders, ContentIsEquivalence, ModuleNamesDiffer, WaysFromBits, OneMoreOperator, CellsAreThere, WaysApart, WholePlan, PartsStandAside, PartsStay, OtherEntries};

/// Whichever entries are done, a net bit of the source begins at the last operator that is done on its way back.
pub fn nodes_begin_behind_what_is_done()
    ensures { NodesBegin }
{}

/// The first operator of a way takes what comes to the way, each other one what the one before it gives.
pub fn operators_take_their_data()
    ensures { DataBegins }
{}

/// A control that has come to an instance begins there where its node does.
pub fn controls_begin_where_their_nodes_do()
    ensures { ControlsBegin }
{}

/// Where all operators are done, a net bit of the source begins where a realised netlist has it.
pub fn net_bits_begin_as_intended()
    ensures { BeginAsIntended }
{}

/// Where all operators are done, each takes its data where a realised netlist has it.
pub fn operators_take_data_as_intended()
    ensures { DataAsIntended }
{}

/// A net bit that stands for a wire has the end that begins at the wire.
pub fn wires_have_their_ends()
    ensures { EndsAsWired }
{}

/// What each part of a control's route comes from is there.
pub fn routes_are_sound()
    ensures { RoutesAreSound }
{}

/// A control has come to each instance to which a route leads it.
pub fn routes_come_to_their_readers()
    ensures { RoutesCome }
{}

/// A supply origin begins at its port or at its switch in each instance that uses it.
pub fn supplies_begin_at_their_origins()
    ensures { SuppliesBegin }
{}

/// That is where a realised netlist has it.
pub fn origins_begin_as_intended()
    ensures { OriginsAsIntended }
{}

/// In the whole plan the operators of a way are those of its boundary bit.
pub fn plan_goes_by_boundary_bits()
    ensures { PlanByBits }
{}

/// In the whole plan the place of an operator on its way is its number in the chain.
pub fn plan_goes_by_numbers()
    ensures { PlanByNumbers }
{}

/// In the whole plan each way that leads to a node has all operators of its chain.
pub fn plan_is_whole()
    ensures { PlanIsWhole }
{}

/// Without a fault of location order, in the whole plan the operators before a way's edge come first.
pub fn plan_is_in_flow()
    ensures { PlanIsInFlow }
{}

/// So they do among those that are done, where these are the first ones of each way.
pub fn what_is_done_is_in_flow()
    ensures { DoneIsInFlow }
{}

/// An operator stands in the instance of its bit or in the parent.
pub fn operators_stand_near_their_bits()
    ensures { StandsNear }
{}

/// A chain depends on the set of supplies that read its crossing and on the first reader.
pub fn chains_go_by_the_set_of_readers()
    ensures { ChainByReaders }
{}

/// Equal content is an equivalence down to a depth.
pub fn equal_content_is_an_equivalence()
    ensures { ContentIsEquivalence }
{}

/// The written modules of two instances have two names.
pub fn written_modules_have_names_of_their_own()
    ensures { ModuleNamesDiffer }
{}

/// Where names stand apart, a way of a boundary bit that leads to a node comes from the node before the bit.
pub fn ways_come_from_their_bits()
    ensures { WaysFromBits }
{}

/// One more operator changes one wire, makes its own, and leaves all others.
pub fn one_more_operator_changes_one_wire()
    ensures { OneMoreOperator }
{}

/// Where no operator lacks a cell, each has its place and its cell.
pub fn operators_have_their_cells()
    ensures { CellsAreThere }
{}

/// Where names stand apart, no two boundary bits have one way.
pub fn ways_stand_apart()
    ensures { WaysApart }
{}

/// Once the whole plan is done, all wires begin where a realised netlist has them.
pub fn the_whole_plan_begins_as_intended()
    ensures { WholePlan }
{}

/// Input ports for a control stand in no instance above its own.
pub fn parts_stand_aside()
    ensures { PartsStandAside }
{}

/// One more route leaves each part that is made with what it comes from.
pub fn parts_stay_as_they_are()
    ensures { PartsStay }
{}

/// A register with retention changes no wire, nor does a switch before supplies are joined.
pub fn other_entries_change_no_wire()
    ensures { OtherEntries }
{}
