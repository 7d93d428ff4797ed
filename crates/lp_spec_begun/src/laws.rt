//! Laws about where the wires of a written netlist begin: each is the clause of a function that only calls others.
ghost use Rattle.lp_spec_begun.specs.Laws.{BeginsAsIntended, BitsBegin, ContentHasWires, ControlsBegin, InsertableBegins, SuppliesBegin, WiresBegin};

use lp_spec_added_wires::wires_are_closed;
use lp_spec_data_wires::wires_stand;
use lp_spec_hub::{
    operators_have_their_cells, routes_are_sound, routes_come_to_their_readers,
    the_whole_plan_begins_as_intended, wires_have_their_ends,
};
use lp_spec_proper::{
    added_cells_have_pins_apart, additions_are_proper, additions_have_places, cells_have_free_pins,
    clamps_have_enables, insertable_is_orderly, ports_have_supplies, routes_are_of_controls,
    uses_are_of_origins,
};

/// A netlist of the written content has its wires: each stands and comes from one that does.
pub fn written_content_has_its_wires()
    ensures { ContentHasWires }
{
    wires_stand();
    wires_are_closed();
}

/// Each net bit of the source begins in the written netlist where it has to.
pub fn net_bits_begin_where_they_have_to()
    ensures { BitsBegin }
{
    wires_have_their_ends();
    the_whole_plan_begins_as_intended();
}

/// So do the input pins of the source's cells, the outputs of the top and the data pins of operators; a pin that is open
/// stays open.
pub fn pins_and_outputs_begin_where_they_have_to()
    ensures { WiresBegin }
{
    wires_have_their_ends();
    the_whole_plan_begins_as_intended();
    operators_have_their_cells();
}

/// So do the enables of clamps, the pins of switches and the retention pins of registers.
pub fn controls_begin_where_they_have_to()
    ensures { ControlsBegin }
{
    routes_are_sound();
    routes_come_to_their_readers();
    wires_have_their_ends();
    the_whole_plan_begins_as_intended();
    operators_have_their_cells();
}

/// Each power and ground pin is joined to an origin and begins there, and the top has the ports of the supplies of its
/// ports.
pub fn supplies_begin_where_they_have_to()
    ensures { SuppliesBegin }
{
    wires_have_their_ends();
    the_whole_plan_begins_as_intended();
    operators_have_their_cells();
}

/// Together: in a netlist of the written content whose wires stand, pins, outputs of the top, controls, supplies and net bits
/// of the source begin where they have to.
pub fn everything_begins_as_intended()
    ensures { BeginsAsIntended }
{
    pins_and_outputs_begin_where_they_have_to();
    controls_begin_where_they_have_to();
    supplies_begin_where_they_have_to();
    net_bits_begin_where_they_have_to();
}

/// So in a netlist of the written content of a project that is read and has no fault, within limits.
pub fn insertable_begins()
    ensures { InsertableBegins }
{
    insertable_is_orderly();
    additions_are_proper();
    additions_have_places();
    cells_have_free_pins();
    added_cells_have_pins_apart();
    routes_are_of_controls();
    clamps_have_enables();
    ports_have_supplies();
    uses_are_of_origins();
    written_content_has_its_wires();
    everything_begins_as_intended();
}
