//! Laws that join numbers to paths: each is the clause of a function that does nothing.
ghost use Rattle.lp_spec_bridge.specs.Laws.{TrailsByNumber, EndsByNumber, WireSourcesByNumber, PassesByNumber, LoopsByNumber, CellsByNumber, PinsByNumber, DriversListed, KeysApart, AllNoted, FirstNoted, NamesTested, SingleBitsTested, InputsByNumber, OwnLoopsByNumber, WireLoopsByNumber, LeavesRead, ReadersByNumber, ReadersBehind, TemplatesServe, DomainsInherit, SourcesKept, CellsKept, PinsKept, KeptRepresents, KeptElaborates};

/// The way back from a node by number is its way back by paths.
#[tactic(auto, using(crate::proofs::Trails::trail_key))]
pub fn trails_by_number()
    ensures { TrailsByNumber }
{}

/// It begins at the same node.
#[tactic(auto, using(crate::proofs::Trails::end_by_number))]
pub fn ends_by_number()
    ensures { EndsByNumber }
{}

/// The same drives it in the end.
#[tactic(auto, using(crate::proofs::Trails::wire_source_key))]
pub fn wire_sources_by_number()
    ensures { WireSourcesByNumber }
{}

/// An edge leads to a node by number as by paths, where no key stands twice.
#[tactic(auto, using(crate::proofs::Passed::passes_key))]
pub fn passes_by_number()
    ensures { PassesByNumber }
{}

/// A node lies on a way back by number as by paths, where no key stands twice.
#[tactic(auto, using(crate::proofs::Passed::loop_key))]
pub fn loops_by_number()
    ensures { LoopsByNumber }
{}

/// A cell instance has its cell by number as by paths.
#[tactic(auto, using(crate::proofs::Passed::cell_key))]
pub fn cells_by_number()
    ensures { CellsByNumber }
{}

/// A cell instance has at its pins the nodes that it has by paths.
#[tactic(auto, using(crate::proofs::Passed::pins_key))]
pub fn pins_by_number()
    ensures { PinsByNumber }
{}

/// What drives a node is what the list of all drives has for it, in order, where each pin has one bit at most.
#[tactic(auto, using(crate::proofs::Driven::drivers_listed))]
pub fn drivers_are_listed()
    ensures { DriversListed }
{}

/// Where the names of each module are apart, no key of a design stands twice.
pub fn keys_stand_once()
    ensures { KeysApart }
{}

/// Where rows by number are the drives of a design, those of a node are all its sources, and the first one is its source.
pub fn drives_are_noted()
    ensures all { AllNoted }
    ensures first { FirstNoted }
{}

/// The bits of a module, resolved once, are right in each of its instances.
pub fn templates_serve()
    ensures { TemplatesServe }
{}

/// The domains of all instances come from the lists that name them, in one pass.
pub fn domains_inherit()
    ensures { DomainsInherit }
{}

/// What passes the tests has names apart, and one bit at most at each pin.
#[tactic(auto, using(crate::proofs::Tested::names_tested, crate::proofs::Tested::single_tested))]
pub fn tests_are_right()
    ensures names { NamesTested }
    ensures bits { SingleBitsTested }
{}

/// The connected input pins of a cell instance by number are those by paths, each with its node.
#[tactic(auto, using(crate::proofs::Inputs::inputs_key))]
pub fn inputs_by_number()
    ensures { InputsByNumber }
{}

/// A wire loop of an elaborated netlist by number is one by paths, at the same nodes.
pub fn wire_loops_by_number()
    ensures own { OwnLoopsByNumber }
    ensures some { WireLoopsByNumber }
{}

/// The input pins of all cell instances are by number the readers that they are by paths, in order.
#[tactic(auto, using(crate::proofs::Readers::leaves_read))]
pub fn leaves_read_by_number()
    ensures { LeavesRead }
{}

/// All readers of an elaborated netlist by number are those by paths, in order, where names are apart.
pub fn readers_by_number()
    ensures { ReadersByNumber }
{}

/// The readers to which an edge leads are by number those by paths, in order, where names are apart.
#[tactic(auto, using(crate::proofs::Behind::behind_key))]
pub fn readers_behind_an_edge()
    ensures { ReadersBehind }
{}

/// Nodes whose source is the first row that was noted for them have their sources by paths.
pub fn noted_are_sources()
    ensures { SourcesKept }
{}

/// Cell instances whose rows were resolved once for their modules have their cells and the nodes at their pins.
pub fn rows_serve()
    ensures cells { CellsKept }
    ensures pins { PinsKept }
{}

/// Tables that keep noted drives and rows by module represent the design.
pub fn kept_tables_represent()
    ensures { KeptRepresents }
{}

/// With the names of each module's bits, instance by instance, they are the elaborated netlist.
pub fn kept_tables_elaborate()
    ensures { KeptElaborates }
{}
