//! Laws about the definitions alone: each is the clause of a function that does nothing.
ghost use Rattle.lp_places.specs.Laws.{NumbersAreTexts};

/// Equal numbers of a table are equal texts.
pub fn numbers_are_texts()
    ensures { NumbersAreTexts }
{}
