//! What the laws on wires ask of a project, from the absence of faults: each is the clause of a function that only calls others.
ghost use Rattle.lp_spec_proper.specs.Laws.{AddedCellsHavePinsApart, AdditionsAreProper, AdditionsHaveFitCells, AdditionsHaveNames, AdditionsHavePlaces, AdditionsHaveRoutes, AdditionsHaveSwitches, AdditionsStandOnWays};
ghost use Rattle.lp_spec_proper.specs.Laws.{CellsHaveFreePins, ClampsHaveEnables, InsertableIsOrderly, InsertableIsReady, PortsHaveSupplies, RoutesAreOfControls, SourceIsPlain, UsesAreOfOrigins, WaysComeFromThere};

use lp_spec_hub::{
    operators_have_their_cells, operators_stand_near_their_bits, parts_stand_aside,
    plan_is_in_flow, routes_are_sound, ways_come_from_their_bits, ways_stand_apart,
};

/// A source that is read and of which no line of the table of faults holds is ready for an insertion, within limits.
pub fn insertable_is_ready()
    ensures { InsertableIsReady }
{}

/// What is added to it has names of its own: chains are those of the plan, operators stand in instances, each way is of
/// one boundary bit, supplies have names of their own, and numbers fit 64 bits.
pub fn additions_have_names()
    ensures { AdditionsHaveNames }
{
    ways_stand_apart();
}

/// No net bit of it has two sources, no name of an addition stands in it, and no two ports of a module have one name.
pub fn source_is_plain()
    ensures { SourceIsPlain }
{}

/// Cells of the source switch nothing, registers with retention have cells that take their places, operators have cells of
/// one output, and no two pins of a cell have one name.
pub fn additions_have_fit_cells()
    ensures { AdditionsHaveFitCells }
{}

/// Operators stand in the instance of their bit or in its parent, those before the edge come first, and their ways lead from
/// bit to bit.
pub fn additions_stand_on_ways()
    ensures { AdditionsStandOnWays }
{
    ways_stand_apart();
    operators_have_their_cells();
    plan_is_in_flow();
    operators_stand_near_their_bits();
}

/// The way of an operator comes from the node on the near side of its bit.
pub fn ways_come_from_there()
    ensures { WaysComeFromThere }
{
    ways_stand_apart();
    ways_come_from_their_bits();
}

/// Each part of a control's route is of a net bit, has what it comes from, and stands once: for every project.
pub fn additions_have_routes()
    ensures { AdditionsHaveRoutes }
{
    routes_are_sound();
    parts_stand_aside();
}

/// No origin has two switches, and each switch has a cell with one switched pin, which is joined to its origin.
pub fn additions_have_switches()
    ensures { AdditionsHaveSwitches }
{}

/// Together: what is added to a project without faults is as the laws on wires ask.
pub fn additions_are_proper()
    ensures { AdditionsAreProper }
{
    additions_have_names();
    additions_stand_on_ways();
    ways_come_from_there();
    additions_have_routes();
}

/// Switches, parts of control routes and users of supplies stand in instances, no control goes out of the top, and neither
/// controls nor what assigns take have names of additions.
pub fn additions_have_places()
    ensures { AdditionsHavePlaces }
{}

/// The pins of a cell that stands for one of the source have names of their own, and the source connects no retention pin
/// that is added, nor a power or ground pin.
pub fn cells_have_free_pins()
    ensures { CellsHaveFreePins }
{}

/// It has the order that the laws on where wires begin ask for: names apart, no way that comes back to where it began, no
/// operator, register or switch without a cell, and an order of locations.
pub fn insertable_is_orderly()
    ensures { InsertableIsOrderly }
{}

/// No two pins of a cell that is added have one name, power and ground pins among them.
pub fn added_cells_have_pins_apart()
    ensures { AddedCellsHavePinsApart }
{}

/// What is led to a pin is a net bit of an instance or a constant.
pub fn routes_are_of_controls()
    ensures { RoutesAreOfControls }
{}

/// The environment's side of each port of the top has a supply, whose power and ground are origins.
pub fn ports_have_supplies()
    ensures { PortsHaveSupplies }
{}

/// Each use of a supply, by a cell of the source or by one that is added, is of an origin of the network.
pub fn uses_are_of_origins()
    ensures { UsesAreOfOrigins }
{}

/// Each clamp has an enable: it is one of a strategy that isolates and inserts, which names its control.
pub fn clamps_have_enables()
    ensures { ClampsHaveEnables }
{}
