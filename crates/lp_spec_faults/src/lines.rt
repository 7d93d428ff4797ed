//! Laws of lines: each is the clause of a function that does nothing.
ghost use Rattle.std.specs.Prelude.{◌≡◌, ◌++◌, ◌∷◌, ℕ, List, Some, None, true, false};
ghost use Rattle.std.specs.List.{list_any};
ghost use Rattle.lp_spec_faults.specs.Lines.{Line, HasFirst, first_of};
ghost use Rattle.lp_spec_faults.specs.Order.{of_command, by_commands, goes_up};

/// What a line gives is the first place at which its test holds, and none only where it holds at none.
#[tactic(auto, using(crate::proofs::Loops::has_first))]
pub fn a_line_has_its_first<T>()
    ensures { (l : Line T) → HasFirst l (first_of l) }
{}

/// A loop that stops at a place at which the test holds, and has gone past no other such place, has found the fault of
/// the line.
#[tactic(auto, using(crate::proofs::Loops::stops))]
pub fn stops_at_the_fault<T>()
    ensures { (l : Line T) (front back : List T) (x : T) → l.places ≡ front ++ x ∷ back
        → list_any l.test front ≡ false → l.test x ≡ true → first_of l ≡ Some x }
{}

/// A loop that has gone past all places, at none of which the test holds, has shown that the line has no fault.
#[tactic(auto, using(crate::proofs::Loops::ends))]
pub fn ends_without_fault<T>()
    ensures { (l : Line T) → list_any l.test l.places ≡ false → first_of l ≡ None }
{}

/// What commands made, in their order, goes up by the numbers of the commands, and has of each command what it made. No
/// other list does.
#[tactic(auto, using(crate::proofs::Ordered::commands_up, crate::proofs::Ordered::commands_same, crate::proofs::Ordered::commands_only))]
pub fn commands_go_in_order<T>()
    ensures up { (all : List (ℕ × T)) → goes_up (by_commands all) ≡ true }
    ensures same { (all : List (ℕ × T)) (k : ℕ) → of_command (by_commands all) k ≡ of_command all k }
    ensures only { (all ordered : List (ℕ × T)) → goes_up ordered ≡ true
        → ((k : ℕ) → of_command ordered k ≡ of_command all k) → ordered ≡ by_commands all }
{}
