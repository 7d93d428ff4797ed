ghost use Rattle.std.specs.Prelude.{◌≡◌, ◌≤◌, ◌<◌, ◌+◌, ◌-◌, [], ◌∷◌, ◌++◌, length, map, take};
ghost use Rattle.std.specs.List.{list_all};
ghost use Rattle.lp_expr.specs.Places as places;
ghost use Rattle.lp_behaviour.specs.Signals.{known};
ghost use Rattle.lp_spec_fit.specs.Equality.{choices};
ghost use Rattle.lp_choice.specs.Wires.{agree, agree_at, bit_at, level, value_at};

use lp_expr::{Expr, value};
use lp_tern::Tern;

/// As many slots as functions have at most that can be equal, and as many variables as an expression has.
const SLOTS: usize = 12;

/// From which slot a variable takes its value.
#[derive(Clone, Copy)]
pub(crate) struct Wire {
    /// The slot; the value is 0 where there is none.
    pub(crate) slot: Option<usize>,
    /// Whether it takes the complement.
    pub(crate) negated: bool,
}

/// Whether two functions of `n` slots have one value for each choice of 0 or 1 for the slots; those of more than 12
/// slots count as different.
pub(crate) fn agree(e: &Expr, v: &[Wire], f: &Expr, w: &[Wire], n: usize) -> bool
    requires first { length v.now ≡ length e.now.variables }
    requires second { length w.now ≡ length f.now.variables }
    ensures { result ≡ agree e.now v.now f.now w.now n }
{
    n <= SLOTS && agree_from(e, v, f, w, [false; SLOTS], 0, n)
}

/// Whether they have one value for each choice whose first `set` values are these.
fn agree_from(
    e: &Expr,
    v: &[Wire],
    f: &Expr,
    w: &[Wire],
    choice: [bool; SLOTS],
    set: usize,
    n: usize,
) -> bool
    requires first { length v.now ≡ length e.now.variables }
    requires second { length w.now ≡ length f.now.variables }
    requires few { n ≤ 12 }
    requires set { set ≤ n }
    ensures { result ≡ list_all (λ c. agree_at e.now v.now f.now w.now (take set choice ++ c)) (choices (n - set)) }
{
    if set == n {
        let choice = &choice[..n];
        return value_at(e, v, choice) == value_at(f, w, choice);
    }
    agree_from(e, v, f, w, with_bit(choice, set, false), set + 1, n)
        && agree_from(e, v, f, w, with_bit(choice, set, true), set + 1, n)
}

/// A choice with one more value.
fn with_bit(choice: [bool; SLOTS], set: usize, bit: bool) -> [bool; SLOTS]
    requires { set < 12 }
    ensures { take (set + 1) result ≡ take set choice ++ bit ∷ [] }
{
    let mut next = choice;
    next[set] = bit;
    next
}

/// The value of a function where the slots have these values.
fn value_at(e: &Expr, wires: &[Wire], choice: &[bool]) -> bool
    requires { length wires.now ≡ length e.now.variables }
    ensures { result ≡ value_at e.now wires.now choice.now }
{
    let count = e.variables().len();
    let levels = levels_of(wires, choice, count);
    is_one(value(e, &levels[..count]))
}

/// Whether a value is 1.
fn is_one(value: Tern) -> bool
    ensures { result ≡ places.is_one value }
{
    value == Tern::One
}

/// The values of variables where the slots have these values.
fn levels_of(wires: &[Wire], choice: &[bool], count: usize) -> [Tern; SLOTS]
    requires length { length wires.now ≡ count }
    requires few { count ≤ 12 }
    ensures { take count result ≡ map (λ w. known (level choice.now w)) wires.now }
{
    let mut levels = [Tern::Zero; SLOTS];
    for i in 0..count {
        levels[i] = level(wires[i], choice);
    }
    levels
}

/// The value of a variable.
fn level(wire: Wire, choice: &[bool]) -> Tern
    ensures { result ≡ known (level choice.now wire) }
{
    if bit_at(wire.slot, choice) != wire.negated {
        Tern::One
    } else {
        Tern::Zero
    }
}

/// The value of a slot.
fn bit_at(slot: Option<usize>, choice: &[bool]) -> bool
    ensures { result ≡ bit_at choice.now slot }
{
    match slot {
        Some(slot) => slot < choice.len() && choice[slot],
        None => false,
    }
}
