//! Laws about the definitions alone: each is the clause of a function that does nothing.
ghost use Rattle.lp_spec_ready.specs.Laws.{ModulesHaveFewBits, ReadModulesDeclareTheirBits, ReadNamesAreApart};

/// A netlist that a text denotes has its names apart.
pub fn read_names_are_apart()
    ensures { ReadNamesAreApart }
{}

/// Each module of a netlist that a text denotes declares what it joins and assigns.
pub fn read_modules_declare_their_bits()
    ensures { ReadModulesDeclareTheirBits }
{}

/// Where one top has all modules below it and no limit is passed, each module has few bits.
pub fn modules_have_few_bits()
    ensures { ModulesHaveFewBits }
{}
