ghost use Rattle.std.specs.Prelude.{◌≡◌, length, true, false, None, IfNone, IfOk, IfSome, IsTrue};
ghost use Rattle.std.specs.Option.{option_map};
ghost use Rattle.lp_model.specs.Agreement.{name_numbers, name_texts, numbers_below, option_numbers};
ghost use Rattle.lp_model.specs.LibraryView.{expr_view, expr_numbers};
ghost use Rattle.lp_expr.specs.declared.read.ExprFault.TheVariants as faults;
ghost use Rattle.lp_attributes.specs.Expressions.{FindsStanding, are_known, at_most_12, expression_over, may_stand, standing};

use crate::names::text_of;
use lp_expr::{Expr, ExprFault, Step, read_liberty};
use lp_table::Table;
use lp_text::{NameId, Names, NoMemory};
use std::alloc::Global;

/// The most bytes of a text.
const LARGEST: usize = 67_108_864;

/// The most variables of an expression.
const MOST: usize = 12;

/// The number of a name in the table, where it is among the names that may stand.
fn standing_name(names: &Names, stand: &Table, name: &str) -> Option<NameId>
    requires known { IsTrue (are_known names.now stand.now) }
    ensures { FindsStanding names.now stand.now name.now result }
{
    match stand.find(name.as_bytes()) {
        None => None,
        Some(_) => names.find(name),
    }
}

/// The numbers in the table of names in another, where all of them may stand.
#[tactic(auto, using(crate::proofs::Below::below_name))]
fn standing_names(
    alloc: Global,
    names: &Names,
    stand: &Table,
    own: &Names,
    variables: &[NameId],
) -> Result<Option<Vec<NameId>>, NoMemory>
    requires known { IsTrue (are_known names.now stand.now) }
    ensures none { IfOk result (λ o. IfNone o (may_stand stand.now (name_texts own.now variables.now) ≡ false)) }
    ensures some { IfOk result (λ o. IfSome o (λ ids. may_stand stand.now (name_texts own.now variables.now) ≡ true)) }
    ensures same { IfOk result (λ o. IfSome o (λ ids. name_texts names.now ids.items ≡ name_texts own.now variables.now)) }
    ensures below { IfOk result (λ o. IfSome o (λ ids. numbers_below (length names.now) (name_numbers ids.items) ≡ true)) }
{
    let mut ids = Vec::new(alloc);
    for variable in variables {
        match standing_name(names, stand, text_of(own, *variable)) {
            None => return Ok(None),
            Some(id) => ids.push(id)?,
        }
    }
    Ok(Some(ids))
}

/// An expression over another table, where all of its names may stand.
fn over_table(
    alloc: Global,
    names: &Names,
    stand: &Table,
    own: &Names,
    e: &Expr,
) -> Result<Option<Expr>, NoMemory>
    requires known { IsTrue (are_known names.now stand.now) }
    ensures same { IfOk result (λ o. option_map (expr_view names.now) o ≡ standing stand.now (at_most_12 (expr_view own.now e.now))) }
    ensures below { IfOk result (λ o. numbers_below (length names.now) (option_numbers expr_numbers o) ≡ true) }
{
    if e.variables().len() > MOST {
        return Ok(None);
    }
    match standing_names(alloc, names, stand, own, e.variables())? {
        None => Ok(None),
        Some(ids) => {
            let steps = Vec::from_slice(alloc, e.steps())?;
            Ok(Some(Expr::new(alloc, ids, steps)?))
        }
    }
}

/// No expression, for each fault but want of memory.
fn missing(fault: ExprFault) -> Result<Option<Expr>, NoMemory>
    ensures { IfOk result (λ o. (o ≡ None) × (fault ≡ faults.NoMemory → ⊥)) }
{
    match fault {
        ExprFault::NoMemory => Err(NoMemory),
        ExprFault::Syntax(_) | ExprFault::TooManyVariables => Ok(None),
    }
}

/// The expression of a text over names of the table, none where the text is no expression of at most 12 variables or
/// has a name that is not among those that may stand.
///
/// # Errors
///
/// Only where memory is refused.
pub fn expression_over(
    alloc: Global,
    names: &Names,
    stand: &Table,
    text: &str,
) -> Result<Option<Expr>, NoMemory>
    requires known { IsTrue (are_known names.now stand.now) }
    ensures same { IfOk result (λ o. option_map (expr_view names.now) o ≡ expression_over stand.now text.now) }
    ensures below { IfOk result (λ o. numbers_below (length names.now) (option_numbers expr_numbers o) ≡ true) }
{
    if text.len() > LARGEST {
        return Ok(None);
    }
    let mut own = Names::new(alloc)?;
    match read_liberty(alloc, &mut own, text) {
        Ok(e) => over_table(alloc, names, stand, &own, &e),
        Err(fault) => missing(fault),
    }
}
