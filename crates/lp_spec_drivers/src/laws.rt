//! Laws on nodes with two drivers: each is the clause of a function that does nothing.
ghost use Rattle.lp_spec_drivers.specs.Laws.{SourcesCounted, FirstTwoDrivers, TwoDriversByModule, TwiceWithin, BelowIsThere, TopInputsApart, ChildInputsApart, FirstEntered};

/// A node has as many sources as there are feeds that drive it.
pub fn sources_are_counted()
    ensures { SourcesCounted }
{}

/// The first node with two sources is found instance by instance, from the places of its module.
pub fn first_two_drivers()
    ensures { FirstTwoDrivers }
{}

/// It is found module by module, from what each module has below it.
pub fn two_drivers_by_module()
    ensures first { TwoDriversByModule }
    ensures within { TwiceWithin }
{}

/// There is such a node below each module, or none, as far down as its height says.
pub fn below_is_there()
    ensures { BelowIsThere }
{}

/// No place of a module is connected outside twice.
pub fn inputs_are_apart()
    ensures top { TopInputsApart }
    ensures child { ChildInputsApart }
{}

/// The first place that is driven twice is so from inside, or is the first from outside that is driven from inside.
pub fn first_entered_twice()
    ensures { FirstEntered }
{}
