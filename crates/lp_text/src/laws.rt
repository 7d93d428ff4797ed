//! Laws about the definitions alone: each is the clause of a function that does nothing.
ghost use Rattle.std.specs.Prelude.{ℕ, List};
ghost use Rattle.lp_text.specs.Texts.{Grown, KeepsNumbers};

/// What a table of names says of a number stays true when the table grows.
pub fn grown_names_keep_numbers()
    ensures { (old new : List (List ℕ)) → Grown old new → KeepsNumbers old new }
{}
