ghost use Rattle.std.specs.Prelude.{◌≡◌, ◌≤◌, [], ◌∷◌, ◌++◌, false, true, Some, IfOk, IsTrue, OnOk, length, map, take, vec_len};
ghost use Rattle.std.specs.List.{filter, flat_map};
ghost use Rattle.std.specs.Option.{option_copied, option_map};
ghost use Rattle.lp_expr.specs.declared.step.Step.TheVariants as steps;
ghost use Rattle.lp_model.specs.Agreement.{name_numbers, numbers_below, option_numbers};
ghost use Rattle.lp_model.specs.LibraryView.{expr_numbers, expr_view, pg_pin_numbers, pg_pin_view};
ghost use Rattle.lp_attributes.specs.Expressions.{are_known};
ghost use Rattle.lp_parts.specs.Functions.{alone, default_down, down_by, down_of, down_steps, is_plain, joint, literal, over_if_any, passed, small};
ghost use Rattle.lp_parts.specs.Pins.{function_if_any};

use crate::scope::{is_ground, is_power};
use lp_attributes::{expression_over, text_of};
use lp_expr::{Expr, Step};
use lp_model::{PgKind, PgPin};
use lp_table::Table;
use lp_text::{NameId, Names, NoMemory, Word};
use std::alloc::Global;

/// The most power and ground pins of a default function.
const MOST: usize = 8;

/// The constant 0.
fn nothing(alloc: Global) -> Result<Expr, NoMemory>
    ensures { IfOk result (λ e. e ≡ record { variables = []; steps = steps.Constant false ∷ [] }) }
{
    let mut steps = Vec::new(alloc);
    steps.push(Step::Constant(false))?;
    Expr::new(alloc, Vec::new(alloc), steps)
}

/// The expression of a text, the constant 0 where it does not read.
fn over_text(alloc: Global, names: &Names, stand: &Table, text: &str) -> Result<Expr, NoMemory>
    requires known { IsTrue (are_known names.now stand.now) }
    ensures same { IfOk result (λ e. expr_view names.now e ≡ over_if_any stand.now (Some text.now)) }
    ensures below { IfOk result (λ e. numbers_below (length names.now) (expr_numbers e) ≡ true) }
{
    match expression_over(alloc, names, stand, text)? {
        None => nothing(alloc),
        Some(e) => Ok(e),
    }
}

/// The expression of a value, the constant 0 where it is missing or does not read.
pub fn over_if_any(
    alloc: Global,
    names: &Names,
    stand: &Table,
    value: &Option<Word>,
) -> Result<Expr, NoMemory>
    requires known { IsTrue (are_known names.now stand.now) }
    ensures same { IfOk result (λ e. expr_view names.now e ≡ over_if_any stand.now value.now) }
    ensures below { IfOk result (λ e. numbers_below (length names.now) (expr_numbers e) ≡ true) }
{
    match value {
        None => nothing(alloc),
        Some(text) => over_text(alloc, names, stand, text.text()),
    }
}

/// The expression of a value, none where it is missing or does not read.
pub fn function_if_any(
    alloc: Global,
    names: &Names,
    stand: &Table,
    value: &Option<Word>,
) -> Result<Option<Expr>, NoMemory>
    requires known { IsTrue (are_known names.now stand.now) }
    ensures same { IfOk result (λ o. option_map (expr_view names.now) o ≡ function_if_any stand.now value.now) }
    ensures below { IfOk result (λ o. numbers_below (length names.now) (option_numbers expr_numbers o) ≡ true) }
{
    match value {
        None => Ok(None),
        Some(text) => expression_over(alloc, names, stand, text.text()),
    }
}

fn is_plain(kind: PgKind) -> bool
    ensures { result ≡ is_plain kind }
{
    is_power(kind) || is_ground(kind)
}

/// The names of the pins that are no bias pins.
fn plain_names(alloc: Global, pgs: &[PgPin]) -> Result<Vec<NameId>, NoMemory>
    ensures same { IfOk result (λ ids. ids.items ≡ map (λ p. p.name) (filter (λ p. is_plain p.kind) pgs.now)) }
    ensures few { IfOk result (λ ids. vec_len ids ≤ length pgs.now) }
{
    let mut ids = Vec::new(alloc);
    for pg in pgs {
        if is_plain(pg.kind) {
            ids.push(pg.name)?;
        }
    }
    Ok(ids)
}

/// Adds the operator that joins a pin to those before it.
fn push_joint(steps: &mut Vec<Step>, before: u8) -> Result<(), NoMemory>
    ensures { OnOk result (steps.new.items ≡ steps.old.items ++ joint before) }
{
    if before > 0 {
        steps.push(Step::Or)?;
    }
    Ok(())
}

/// Adds the steps of a pin, before which other pins came.
fn push_pin(steps: &mut Vec<Step>, before: u8, power: bool) -> Result<(), NoMemory>
    ensures { OnOk result (steps.new.items ≡ steps.old.items ++ literal power before) }
{
    steps.push(Step::Variable(before))?;
    if power {
        steps.push(Step::Not)?;
    }
    push_joint(steps, before)
}

/// The steps of the default function.
fn down_steps(alloc: Global, pgs: &[PgPin]) -> Result<Vec<Step>, NoMemory>
    requires few { length pgs.now ≤ 8 }
    ensures { IfOk result (λ s. s.items ≡ down_steps 0 (map (λ p. p.kind) pgs.now)) }
{
    let mut steps = Vec::new(alloc);
    let mut before: u8 = 0;
    for pg in pgs {
        if is_plain(pg.kind) {
            push_pin(&mut steps, before, is_power(pg.kind))?;
            before += 1;
        }
    }
    Ok(steps)
}

/// At most the first 8 pins.
fn first_eight(pgs: &[PgPin]) -> &[PgPin]
    ensures { result.now ≡ take 8 pgs.now }
{
    &pgs[..pgs.len().min(MOST)]
}

/// Some non-bias power pin is down or some non-bias ground pin is up.
fn down_by(alloc: Global, names: &Names, pgs: &[PgPin]) -> Result<Expr, NoMemory>
    requires few { length pgs.now ≤ 8 }
    requires below { IsTrue (numbers_below (length names.now) (flat_map pg_pin_numbers pgs.now)) }
    ensures same { IfOk result (λ e. expr_view names.now e ≡ down_by (map (pg_pin_view names.now) pgs.now)) }
    ensures below { IfOk result (λ e. numbers_below (length names.now) (expr_numbers e) ≡ true) }
{
    let _names = names;
    let ids = plain_names(alloc, pgs)?;
    let steps = down_steps(alloc, pgs)?;
    let e = Expr::new(alloc, ids, steps)?;
    Ok(e)
}

/// The default function, among the first 8 pins.
fn default_down(alloc: Global, names: &Names, pgs: &[PgPin]) -> Result<Expr, NoMemory>
    requires below { IsTrue (numbers_below (length names.now) (flat_map pg_pin_numbers pgs.now)) }
    ensures same { IfOk result (λ e. expr_view names.now e ≡ default_down (map (pg_pin_view names.now) pgs.now)) }
    ensures below { IfOk result (λ e. numbers_below (length names.now) (expr_numbers e) ≡ true) }
{
    down_by(alloc, names, first_eight(pgs))
}

/// A `power_down_function`, the default one where it is missing.
pub fn down_of(
    alloc: Global,
    names: &Names,
    stand: &Table,
    pgs: &[PgPin],
    value: &Option<Word>,
) -> Result<Expr, NoMemory>
    requires known { IsTrue (are_known names.now stand.now) }
    requires below { IsTrue (numbers_below (length names.now) (flat_map pg_pin_numbers pgs.now)) }
    ensures same { IfOk result (λ e. expr_view names.now e ≡ down_of (map (pg_pin_view names.now) pgs.now) stand.now value.now) }
    ensures below { IfOk result (λ e. numbers_below (length names.now) (expr_numbers e) ≡ true) }
{
    match value {
        None => default_down(alloc, names, pgs),
        Some(text) => over_text(alloc, names, stand, text.text()),
    }
}

/// The one variable that an expression is.
fn alone<'a>(names: &'a Names, e: &Expr) -> Option<&'a str>
    ensures { option_copied result ≡ alone (Some (expr_view names.now e.now)) }
{
    match (e.variables(), e.steps()) {
        ([name], [Step::Variable(0)]) => Some(text_of(names, *name)),
        _ => None,
    }
}

/// The place of the one pin that an expression over the names of power and ground pins is.
pub fn passed(
    alloc: Global,
    names: &Names,
    stand: &Table,
    text: &str,
) -> Result<Option<usize>, NoMemory>
    requires known { IsTrue (are_known names.now stand.now) }
    ensures { IfOk result (λ o. o ≡ passed stand.now text.now) }
{
    match expression_over(alloc, names, stand, text)? {
        None => Ok(None),
        Some(e) => match alone(names, &e) {
            None => Ok(None),
            Some(name) => Ok(stand.find(name.as_bytes())),
        },
    }
}

/// A place in 8 bits.
pub fn small(place: Option<usize>) -> u8
    ensures { result ≡ small place }
{
    match place {
        None => 0,
        Some(place) => place.min(255) as u8,
    }
}
