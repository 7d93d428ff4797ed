//! Laws about the form of the written netlist: each is the clause of a function that does nothing.
ghost use Rattle.lp_spec_legal.specs.Laws.{ReadIsLegal, SharedHasTable, SharedIsWellFormed, SharedReadsBack, SharingKeepsForm, SharingKeepsTable, WrittenIsWellFormed, WrittenModulesAreWellFormed, WrittenReadsBack};

/// What readers give is legal, where supply ports have visible names.
pub fn read_is_legal()
    ensures { ReadIsLegal }
{}

/// Each module that is written is well formed.
pub fn written_modules_are_well_formed()
    ensures { WrittenModulesAreWellFormed }
{}

/// So the written netlist is.
pub fn written_is_well_formed()
    ensures { WrittenIsWellFormed }
{}

/// Modules that are well formed stay so where those of equal content are written once.
pub fn sharing_keeps_form()
    ensures { SharingKeepsForm }
{}

/// So the netlist of an insertion is well formed.
pub fn shared_is_well_formed()
    ensures { SharedIsWellFormed }
{}

/// A table of the names of modules has those that are left where equal ones are written once.
pub fn sharing_keeps_table()
    ensures { SharingKeepsTable }
{}

/// Where what is read has a table, and not too many names are added, so has the netlist of an insertion.
pub fn shared_has_table()
    ensures { SharedHasTable }
{}

/// The text of the written netlist reads as it, and as no other.
pub fn written_reads_back()
    ensures { WrittenReadsBack }
{}

/// And so does the text of the netlist of an insertion.
pub fn shared_reads_back()
    ensures { SharedReadsBack }
{}
