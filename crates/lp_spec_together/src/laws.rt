//! The laws of insertion joined: each is the clause of a function that only calls others.
ghost use Rattle.lp_spec_together.specs.Laws.{ContentImplements, ContentIsWired, ContentKeepsIndices, ContentShowsTheSame, RealisedIsSupplied, SharedHasContent, SharedImplements, WrittenHasContent, WrittenImplements};

use lp_spec_added_wires::no_wire_comes_back;
use lp_spec_begun::insertable_begins;
use lp_spec_data_wires::wires_stand;
use lp_spec_hub::{operators_have_their_cells, ways_stand_apart};
use lp_spec_proper::{additions_are_proper, additions_have_places, insertable_is_orderly};
use lp_spec_realises::netlists_have_fuel;
use lp_spec_sources::content_has_single_sources;

/// A netlist that realises a project without faults has one supply for each power and ground pin.
pub fn realised_is_supplied()
    ensures { RealisedIsSupplied }
{}

/// A netlist of the written content has the bits of the source's outputs by their indices.
pub fn content_keeps_indices()
    ensures { ContentKeepsIndices }
{}

/// The modules that are written are of the written content: at each path of the source its written module, each of them
/// that of an instance, and no name twice.
pub fn written_has_content()
    ensures { WrittenHasContent }
{}

/// So are they where modules of equal content are written once.
pub fn shared_has_content()
    ensures { SharedHasContent }
{}

/// A netlist of the written content is wired: no node has two sources, no wire comes back, and pins, outputs of the top,
/// controls, supplies and net bits of the source begin where they have to.
pub fn content_is_wired()
    ensures { ContentIsWired }
{
    insertable_is_orderly();
    additions_are_proper();
    additions_have_places();
    wires_stand();
    no_wire_comes_back();
    netlists_have_fuel();
    content_has_single_sources();
    insertable_begins();
}

/// So it implements its project: it realises the project by the chosen cells in their places, and each net bit of the
/// source can be found in it.
pub fn content_implements()
    ensures { ContentImplements }
{
    ways_stand_apart();
    operators_have_their_cells();
    content_is_wired();
}

/// So it shows what the source shows under its power intent.
pub fn content_shows_the_same()
    ensures { ContentShowsTheSame }
{
    ways_stand_apart();
    operators_have_their_cells();
    content_is_wired();
}

/// The theorem of insertion. For each project that is read and of which no line of the table of faults holds that bears on
/// an insertion, within limits, the netlist that is written implements the project, and for all events within the rows and
/// all states of the registers it shows what the source shows under its power intent.
pub fn written_implements()
    ensures { WrittenImplements }
{
    written_has_content();
    content_implements();
    content_shows_the_same();
}

/// And so does the netlist with each content once, which is the one that an insertion writes.
pub fn shared_implements()
    ensures { SharedImplements }
{
    shared_has_content();
    content_implements();
    content_shows_the_same();
}
