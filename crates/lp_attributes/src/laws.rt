//! Laws about the definitions alone: each is the clause of a function that does nothing.
ghost use Rattle.std.specs.Prelude.{◌≡◌, ◌⊎◌, ◌<◌, ℕ, List, Some, None, length};
ghost use Rattle.lp_text.specs.declared.shelf.TheConstants.{LIMIT};
ghost use Rattle.lp_expr.specs.declared.dialect.Dialect.TheVariants.{Liberty};
ghost use Rattle.lp_expr.specs.Grammar.{Spells};
ghost use Rattle.lp_expr.specs.Denotes.{HasTooMany};
ghost use Rattle.lp_model.specs.LibraryView.{ExprView};
ghost use Rattle.lp_attributes.specs.Expressions.{IsKept, expression_of};

/// The expression of a text is the one that the text is in the grammar of Liberty expressions; a text has none exactly
/// where it is no expression, has 13 or more variables, or has more than 64 MiB.
pub fn expressions_are_read()
    ensures some { (text : List ℕ) (e : ExprView) → expression_of text ≡ Some e → IsKept text e }
    ensures found { (text : List ℕ) (e : ExprView) → IsKept text e → expression_of text ≡ Some e }
    ensures none { (text : List ℕ) → expression_of text ≡ None → (LIMIT < length text) ⊎ ((Spells Liberty text → ⊥) ⊎ HasTooMany Liberty text) }
{}
