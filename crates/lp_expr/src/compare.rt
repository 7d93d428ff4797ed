ghost use Rattle.std.specs.Prelude.{◌≡◌, ◌+◌, ◌<◌, ◌≤◌, map, length, All, IsTrue, ◌↔◌};
ghost use Rattle.lp_expr.specs.Formula.{truth};
ghost use Rattle.lp_expr.specs.Places.{digit_of, place_of};
ghost use Rattle.lp_expr.specs.Table.{AreOneFunction, is_bit};

use crate::expr::Expr;

/// Whether two expressions are one Boolean function of `n` slots, where each variable of the first and
/// then of the second takes the value of its slot.
///
/// Takes no memory, and time in proportion to the number of choices of 0 or 1 for the slots.
pub fn same(a: &Expr, b: &Expr, slots: &[u8], n: u8) -> bool
    requires slots { length slots.now ≡ length a.now.variables + length b.now.variables }
    requires below { All (λ slot. slot < n) slots.now }
    requires few { n ≤ 12 }
    ensures { IsTrue result ↔ AreOneFunction a.now b.now slots.now }
{
    let (front, back) = slots.split_at(a.count());
    for choice in 0..1 << n {
        if value_in(a, front, choice) != value_in(b, back, choice) {
            return false;
        }
    }
    true
}

/// The value of an expression whose variables take their values from slots: slot k has digit k of `choice`.
fn value_in(e: &Expr, slots: &[u8], choice: usize) -> bool
    requires length { length slots.now ≡ length e.now.variables }
    requires below { All (λ slot. slot < 64) slots.now }
    ensures { result ≡ truth e.now.steps (map (is_bit choice) slots.now) }
{
    e.bit(place_in(slots, e.count(), choice))
}

/// The place in the table of an expression whose variables take their values from slots.
fn place_in(slots: &[u8], count: usize, choice: usize) -> usize
    requires length { length slots.now ≡ count }
    requires few { count ≤ 12 }
    requires below { All (λ slot. slot < 64) slots.now }
    ensures { result ≡ place_of (map (is_bit choice) slots.now) }
{
    let mut place = 0;
    for i in (0..count).rev() {
        place = place * 2 + digit_at(choice, slots[i]);
    }
    place
}

/// The digit of a number at a slot.
fn digit_at(choice: usize, slot: u8) -> usize
    requires { slot < 64 }
    ensures { result ≡ digit_of (is_bit choice slot) }
{
    (choice >> slot) & 1
}
