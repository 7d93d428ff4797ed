//! Laws about the definitions alone: each is the clause of a function that does nothing.
ghost use Rattle.std.specs.Prelude.{◌≡◌, ◌↔◌, ℕ, Bool, true, false, List, slice_index_or};
ghost use Rattle.lp_tern.specs.declared.tern.Tern.{Tern};
ghost use Rattle.lp_tern.specs.declared.tern.Tern.TheVariants.{Zero, One};
ghost use Rattle.lp_tern.specs.Expression.{Expression};
ghost use Rattle.lp_expr.specs.Formula.{Formula, truth, value_of};
ghost use Rattle.lp_expr.specs.Replaces.{Replaces};
ghost use Rattle.lp_spec_place.specs.Leaving.{Leaves};
ghost use Rattle.lp_expr.specs.declared.dialect.Dialect.{Dialect};
ghost use Rattle.lp_expr.specs.Grammar.{IsExpression, Spells};
ghost use Rattle.lp_expr.specs.Postfix.{postfix, holds_where};

/// An expression is 1 exactly where every replacement of unknown values by 0 or 1 makes it true.
pub fn always_one()
    ensures { (e : Formula) (v : List Tern) → (value_of e v ≡ One) ↔ ((c : List Bool) → Replaces v c → truth e.steps c ≡ true) }
{}

/// An expression is 0 exactly where every replacement of unknown values by 0 or 1 makes it false.
pub fn always_zero()
    ensures { (e : Formula) (v : List Tern) → (value_of e v ≡ Zero) ↔ ((c : List Bool) → Replaces v c → truth e.steps c ≡ false) }
{}

/// The steps of an expression compute its value, where each name has the value at its number.
pub fn postfix_computes()
    ensures { (number : List ℕ → ℕ) (c : List Bool) (e : Expression) → truth (postfix number e) c ≡ holds_where (λ n. slice_index_or c (number n) false) e }
{}

/// A text is an expression in one way.
pub fn one_expression()
    ensures { (d : Dialect) (text : List ℕ) → (a b : Spells d text) → a.tree ≡ b.tree }
{}

/// A text leaves the expressions at one place, and then it is none.
pub fn one_place()
    ensures place { (d : Dialect) (text : List ℕ) (p q : ℕ) → Leaves ℕ (IsExpression d) text p → Leaves ℕ (IsExpression d) text q → p ≡ q }
    ensures none { (d : Dialect) (text : List ℕ) (p : ℕ) → Leaves ℕ (IsExpression d) text p → Spells d text → ⊥ }
{}
