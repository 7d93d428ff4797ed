//! Laws that join what is said twice: each is the clause of a function that does nothing.
ghost use Rattle.lp_spec_design.specs.Texts.{FunctionsByTexts};

/// Over a table of distinct texts a function of a cell has the same value by the texts of its names as by their numbers.
pub fn functions_by_texts()
    ensures { FunctionsByTexts }
{}
