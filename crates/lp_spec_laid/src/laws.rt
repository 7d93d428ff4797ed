//! Laws about the definitions alone: each is the clause of a function that does nothing.
ghost use Rattle.lp_spec_laid.specs.Laws.{LaidIsLaidOut, ShapesAreHeld};

/// What is laid out are the tables of the layout, with the shapes of cells as they are.
pub fn laid_is_laid_out()
    ensures { LaidIsLaidOut }
{}

/// These are the shapes that are laid out, where no cell has more than 255 power and ground pins.
pub fn shapes_are_held()
    ensures { ShapesAreHeld }
{}
