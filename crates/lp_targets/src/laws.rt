//! Laws about the definitions alone: each is the clause of a function that does nothing.
ghost use Rattle.lp_targets.specs.Laws.{OrderMeansNoRecursion, LoopMeansRecursion, RecursionByPlace, FirstByPlace, NoLoopMeansNoRecursion, DepthOfModulesIsEnough, TogetherByModule, CappedByPlace, CappedTellsOver};

/// Where the modules have an order, no module contains itself.
pub fn order_means_no_recursion()
    ensures { OrderMeansNoRecursion }
{}

/// Where the modules have a loop, a module contains itself.
pub fn loop_means_recursion()
    ensures { LoopMeansRecursion }
{}

/// A module contains itself exactly where its place leads to itself.
pub fn recursion_by_place()
    ensures { RecursionByPlace }
{}

/// The first place that leads to itself is that of the first module that contains itself.
pub fn first_by_place()
    ensures { FirstByPlace }
{}

/// Where no place leads to itself, no module contains itself.
pub fn no_loop_means_no_recursion()
    ensures { NoLoopMeansNoRecursion }
{}

/// Where no module contains itself, what it has with all below it is the same from as much depth as there are modules.
pub fn depth_of_modules_is_enough()
    ensures { DepthOfModulesIsEnough }
{}

/// Where no module contains itself, what it has with all below it is its own and what each module in it has so.
pub fn together_by_module()
    ensures { TogetherByModule }
{}

/// Where no module contains itself, what it has with all below it, up to a limit, is found from a table by place.
pub fn capped_by_place()
    ensures { CappedByPlace }
{}

/// A count that is kept up to one more than a limit tells whether it is over the limit.
pub fn capped_tells_over()
    ensures { CappedTellsOver }
{}
