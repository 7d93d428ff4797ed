//! Laws about modules that are written once for each content: each is the clause of a function that does nothing.
ghost use Rattle.lp_spec_shared.specs.Laws.{SharedAreReached, SharedAtItsPaths, SharedHasItsCells, SharedHasItsInstances, SharedIsProjectNetlist, SharedNamesDiffer, SharingKeepsContent, SharingKeepsNames, SharingKeepsReached, WrittenCanBeShared};

/// Where modules of equal content are written once, each path has a module of the content that it had.
pub fn sharing_keeps_content()
    ensures { SharingKeepsContent }
{}

/// Each module that is left is that of an instance.
pub fn sharing_keeps_modules_reached()
    ensures { SharingKeepsReached }
{}

/// Names that are apart stay apart.
pub fn sharing_keeps_names_apart()
    ensures { SharingKeepsNames }
{}

/// The modules that are written can be shared.
pub fn written_can_be_shared()
    ensures { WrittenCanBeShared }
{}

/// The written netlist, with each content once, has at each path a module of the written content.
pub fn shared_is_written_at()
    ensures { SharedAtItsPaths }
{}

/// Each of its modules is that of an instance.
pub fn shared_modules_have_instances()
    ensures { SharedAreReached }
{}

/// No name stands twice in it.
pub fn shared_names_differ()
    ensures { SharedNamesDiffer }
{}

/// It is a netlist of the project, where no net bit is driven twice and no wire comes back to itself.
pub fn shared_is_a_project_netlist()
    ensures { SharedIsProjectNetlist }
{}

/// It has the module instances of the source.
pub fn shared_has_the_instances_of_the_source()
    ensures { SharedHasItsInstances }
{}

/// It has the cells that the project asks for, each once, and no others, the chosen ones in their places.
pub fn shared_has_all_its_cells()
    ensures { SharedHasItsCells }
{}
