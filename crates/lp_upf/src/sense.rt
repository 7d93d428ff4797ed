//! Whether an expression is the control of a switch, or its complement.
ghost use Rattle.std.specs.Prelude.{◌≡◌, ◌≤◌, Bool, true, false, [], ◌∷◌, length, IfOk};
ghost use Rattle.lp_text.specs.declared.shelf.TheConstants.{LIMIT};
ghost use Rattle.lp_text.specs.Texts.{text_at};
ghost use Rattle.lp_tern.specs.Values.{agreed};
ghost use Rattle.lp_expr.specs.Denotes.{texts_of};
ghost use Rattle.lp_expr.specs.Formula.{truth};
ghost use Rattle.lp_upf.specs.Senses.{IsSenseOf, high_by, sense_by};

use lp_expr::{Expr, ExprFault, one_expression, one_place, postfix_computes, read_control, value};
use lp_tern::Tern;
use lp_text::{NameId, Names, NoMemory};
use std::alloc::Global;

/// Which of the two an expression of one name is, by its values where the name is 1 and where it is 0.
fn high_of(on: Tern, off: Tern) -> Option<bool>
    ensures { (a b : Bool) → on ≡ agreed (a ∷ []) → off ≡ agreed (b ∷ []) → result ≡ high_by a b }
{
    match (on, off) {
        (Tern::One, Tern::Zero) => Some(true),
        (Tern::Zero, Tern::One) => Some(false),
        _ => None,
    }
}

/// The text of a number, empty where it is none of the table.
fn text_of(names: &Names, id: NameId) -> &[u8]
    ensures { result.now ≡ text_at names.now id.0 }
{
    if id.0 < names.count() {
        names.text(id).as_bytes()
    } else {
        b""
    }
}

/// Which of the two an expression is, if it has this one name.
pub(crate) fn sense_in(e: &Expr, own: &Names, control: &[u8]) -> Option<bool>
    ensures { result ≡ sense_by (texts_of own.now e.now.variables) control.now (truth e.now.steps (true ∷ [])) (truth e.now.steps (false ∷ [])) }
{
    let variables = e.variables();
    if variables.len() != 1 {
        return None;
    }
    if text_of(own, variables[0]) != control {
        return None;
    }
    high_of(value(e, &[Tern::One]), value(e, &[Tern::Zero]))
}

/// Which of the two a text is, if it is one.
///
/// # Errors
///
/// Only where memory is refused.
pub(crate) fn sense_of(alloc: Global, text: &str, control: &[u8]) -> Result<Option<bool>, NoMemory>
    requires { length text.now ≤ LIMIT }
    ensures { IfOk result (IsSenseOf text.now control.now) }
{
    one_expression();
    one_place();
    postfix_computes();
    let mut own = Names::new(alloc)?;
    match read_control(alloc, &mut own, text) {
        Ok(e) => Ok(sense_in(&e, &own, control)),
        Err(ExprFault::NoMemory) => Err(NoMemory),
        Err(ExprFault::Syntax(_)) => Ok(None),
        Err(ExprFault::TooManyVariables) => Ok(None),
    }
}
