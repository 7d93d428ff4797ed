ghost use Rattle.std.specs.Prelude.{◌≡◌, [], length, true, IfOk, IsTrue, OnOk, map};
ghost use Rattle.std.specs.List.{flat_map};
ghost use Rattle.std.specs.Option.{option_map};
ghost use Rattle.lp_text.specs.Texts.{has_text};
ghost use Rattle.lp_model.specs.GroupsView.{group_view};
ghost use Rattle.lp_model.specs.Agreement.{numbers_below, option_numbers};
ghost use Rattle.lp_model.specs.LibraryView.{pg_pin_numbers, pg_pin_view, switched_numbers, switched_view};
ghost use Rattle.lp_attributes.specs.Expressions.{are_known};
ghost use Rattle.lp_parts.specs.Pins.{is_internal_power, kind_of, pg_of, pgs_at, pgs_of, switched_by, switched_of};
ghost use Rattle.lp_parts.specs.Views.{Adds};

use crate::function::{over_if_any, passed, small};
use crate::source::{arg_of, is_part};
use lp_attributes::{pg_kind, value};
use lp_model::{Group, PgKind, PgPin, Switched};
use lp_table::Table;
use lp_text::{Names, NoMemory, Word};
use sqlite_items::Items;
use std::alloc::Global;

/// The type of a power or ground pin, none where it is missing or unknown.
pub fn kind_of(alloc: Global, names: &Names, group: &Group) -> Result<Option<PgKind>, NoMemory>
    ensures { IfOk result (λ k. k ≡ kind_of (group_view names.now group.now)) }
{
    match value(alloc, names, group, "pg_type")? {
        None => Ok(None),
        Some(text) => Ok(pg_kind(text.text())),
    }
}

/// Whether a type is internal power.
pub fn is_internal_power(kind: Option<PgKind>) -> bool
    ensures { result ≡ is_internal_power kind }
{
    matches!(kind, Some(PgKind::InternalPower))
}

/// How a cell drives a pin that has both functions.
fn switched_by(
    alloc: Global,
    names: &Names,
    signals: &Table,
    pgs: &Table,
    off: Option<Word>,
    passes: Option<Word>,
) -> Result<Option<Switched>, NoMemory>
    requires signals { IsTrue (are_known names.now signals.now) }
    requires pgs { IsTrue (are_known names.now pgs.now) }
    ensures same { IfOk result (λ s. option_map (switched_view names.now) s ≡ switched_by signals.now pgs.now off passes) }
    ensures below { IfOk result (λ s. numbers_below (length names.now) (option_numbers switched_numbers s) ≡ true) }
{
    match (off, passes) {
        (Some(off), Some(passes)) => {
            let passes = small(passed(alloc, names, pgs, passes.text())?);
            let off = over_if_any(alloc, names, signals, &Some(off))?;
            Ok(Some(Switched { off, passes }))
        }
        _ => Ok(None),
    }
}

/// How a cell drives a power or ground pin, if it does.
fn switched_of(
    alloc: Global,
    names: &Names,
    signals: &Table,
    pgs: &Table,
    group: &Group,
) -> Result<Option<Switched>, NoMemory>
    requires signals { IsTrue (are_known names.now signals.now) }
    requires pgs { IsTrue (are_known names.now pgs.now) }
    ensures same { IfOk result (λ s. option_map (switched_view names.now) s ≡ switched_of signals.now pgs.now (group_view names.now group.now)) }
    ensures below { IfOk result (λ s. numbers_below (length names.now) (option_numbers switched_numbers s) ≡ true) }
{
    if !is_internal_power(kind_of(alloc, names, group)?) {
        return Ok(None);
    }
    let off = value(alloc, names, group, "switch_function")?;
    let passes = value(alloc, names, group, "pg_function")?;
    switched_by(alloc, names, signals, pgs, off, passes)
}

/// A power or ground pin.
#[tactic(auto, using(crate::proofs::Below::below_pg))]
fn pg_of(
    alloc: Global,
    names: &Names,
    signals: &Table,
    pgs: &Table,
    group: &Group,
) -> Result<PgPin, NoMemory>
    requires empty { IsTrue (has_text [] names.now) }
    requires signals { IsTrue (are_known names.now signals.now) }
    requires pgs { IsTrue (are_known names.now pgs.now) }
    ensures same { IfOk result (λ p. pg_pin_view names.now p ≡ pg_of signals.now pgs.now (group_view names.now group.now)) }
    ensures below { IfOk result (λ p. numbers_below (length names.now) (pg_pin_numbers p) ≡ true) }
{
    let name = arg_of(names, group, 0);
    let kind = kind_of(alloc, names, group)?.unwrap_or(PgKind::PrimaryPower);
    let switched = switched_of(alloc, names, signals, pgs, group)?;
    Ok(PgPin {
        name,
        kind,
        switched,
    })
}

/// Adds the pin of a group.
#[tactic(auto, using(lp_attributes::proofs::Below::below_more))]
fn push_pg(
    alloc: Global,
    names: &Names,
    place: usize,
    signals: &Table,
    pgs: &Table,
    out: &mut Items<PgPin>,
    group: &Group,
) -> Result<(), NoMemory>
    requires empty { IsTrue (has_text [] names.now) }
    requires signals { IsTrue (are_known names.now signals.now) }
    requires pgs { IsTrue (are_known names.now pgs.now) }
    requires below { numbers_below (length names.now) (flat_map pg_pin_numbers out.old) ≡ true }
    ensures same { OnOk result (Adds (pg_pin_view names.now) out.old out.new (pgs_at place signals.now pgs.now (group_view names.now group.now))) }
    ensures below { OnOk result (numbers_below (length names.now) (flat_map pg_pin_numbers out.new) ≡ true) }
{
    if is_part(names, place, group, "pg_pin") {
        out.push(pg_of(alloc, names, signals, pgs, group)?)?;
    }
    Ok(())
}

/// The power and ground pins of a cell, in the order of the text.
pub fn pgs_of(
    alloc: Global,
    names: &Names,
    place: usize,
    signals: &Table,
    pgs: &Table,
    groups: &[Group],
) -> Result<Items<PgPin>, NoMemory>
    requires empty { IsTrue (has_text [] names.now) }
    requires signals { IsTrue (are_known names.now signals.now) }
    requires pgs { IsTrue (are_known names.now pgs.now) }
    ensures same { IfOk result (λ out. map (pg_pin_view names.now) out ≡ pgs_of place signals.now pgs.now (map (group_view names.now) groups.now)) }
    ensures below { IfOk result (λ out. numbers_below (length names.now) (flat_map pg_pin_numbers out) ≡ true) }
{
    let mut out = Items::new(alloc);
    for group in groups {
        push_pg(alloc, names, place, signals, pgs, &mut out, group)?;
    }
    Ok(out)
}
