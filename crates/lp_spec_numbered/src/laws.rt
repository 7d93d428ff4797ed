//! Laws about the definitions alone: each is the clause of a function that does nothing.
ghost use Rattle.lp_spec_numbered.specs.Laws.{TemplatesAreThose, TemplatesAreSized};

/// The templates of modules by the numbers of names are those by their texts.
pub fn templates_are_those()
    ensures { TemplatesAreThose }
{}

/// They lie behind one another by the sizes of modules, and no module is higher than the instances that stand in it.
pub fn templates_are_sized()
    ensures { TemplatesAreSized }
{}
