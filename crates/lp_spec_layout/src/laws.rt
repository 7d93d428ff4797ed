//! Laws on what is made module by module: each is the clause of a function that does nothing.
ghost use Rattle.lp_spec_layout.specs.Laws.{RowsAreDrives, RowsAreEdges, WalkSites, LeafRowsStand, SizesCount, HeightsBound, SizesCountBelow, HeightsReached, RowsGoOn, EdgesGoOn, NotedInOnePass, LaidOutElaborates};

/// The rows that are made in one pass over the module instances are the drives of the design.
pub fn rows_are_drives()
    ensures { RowsAreDrives }
{}

/// The edges that are made with them have the ends and kinds of the design's.
pub fn rows_are_edges()
    ensures { RowsAreEdges }
{}

/// A walk over all instances gives their sites, by the sizes of modules.
pub fn walk_gives_sites()
    ensures { WalkSites }
{}

/// The rows of cell instances that are made by the same walk have their cells and the places of their modules.
pub fn leaf_rows_stand()
    ensures { LeafRowsStand }
{}

/// The size of the top's module is that of the design, and each module's that of its instances with all below them.
pub fn sizes_count()
    ensures whole { SizesCount }
    ensures each { SizesCountBelow }
{}

/// No instance is deeper than the height of the top's module, and where heights are no more than wanted one is as deep.
pub fn heights_bound()
    ensures bound { HeightsBound }
    ensures reached { HeightsReached }
{}

/// The rows and the edges of more feeds come behind those of the first ones.
pub fn feeds_go_on()
    ensures rows { RowsGoOn }
    ensures edges { EdgesGoOn }
{}

/// One pass over the rows notes the first one for each node.
pub fn noted_in_one_pass()
    ensures { NotedInOnePass }
{}

/// Tables that are made in this way, with the names of each module, are the elaborated netlist.
pub fn laid_out_elaborates()
    ensures { LaidOutElaborates }
{}
