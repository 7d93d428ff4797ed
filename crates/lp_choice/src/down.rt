ghost use Rattle.std.specs.Prelude.{◌≡◌, ◌++◌, Some, length, map, IfOk, OnOk};
ghost use Rattle.lp_choice.specs.Rails.{down_agrees};
ghost use Rattle.lp_choice.specs.Wires.{number_wire};

use crate::functions::number_wire;
use crate::keys::once;
use crate::rails::{origins_of, rail_wires};
use crate::wires::{Wire, agree};
use lp_expr::Expr;
use lp_model::PgPin;
use lp_text::{Names, NoMemory};
use std::alloc::Global;

/// Whether a function of a cell's power and ground pins, if there is one, is a wanted one of the values of origins.
pub(crate) fn down_agrees(
    alloc: Global,
    names: &Names,
    pgs: &[PgPin],
    origins: &[Option<u64>],
    off: &[u64],
    wanted: &Expr,
    down: &Option<Expr>,
) -> Result<bool, NoMemory>
    requires origins { length origins.now ≡ length pgs.now }
    requires wanted { length off.now ≡ length wanted.now.variables }
    ensures { IfOk result (λ b. b ≡ down_agrees names.now pgs.now origins.now off.now wanted.now down.now) }
{
    match down {
        Some(e) => agrees(alloc, names, pgs, origins, off, wanted, e),
        None => Ok(false),
    }
}

/// Whether a function of a cell's power and ground pins is a wanted one of the values of origins.
fn agrees(
    alloc: Global,
    names: &Names,
    pgs: &[PgPin],
    origins: &[Option<u64>],
    off: &[u64],
    wanted: &Expr,
    e: &Expr,
) -> Result<bool, NoMemory>
    requires origins { length origins.now ≡ length pgs.now }
    requires wanted { length off.now ≡ length wanted.now.variables }
    ensures { IfOk result (λ b. b ≡ down_agrees names.now pgs.now origins.now off.now wanted.now (Some e.now)) }
{
    let mut keys = origins_of(alloc, names, pgs, origins, e.variables())?;
    add_all(&mut keys, off)?;
    let kept = once(alloc, keys.as_slice())?;
    let slots = kept.as_slice();
    let own = rail_wires(alloc, names, pgs, origins, slots, e.variables())?;
    let other = number_wires(alloc, slots, off)?;
    Ok(agree(e, own.as_slice(), wanted, other.as_slice(), slots.len()))
}

/// Numbers behind others.
fn add_all(keys: &mut Vec<u64>, more: &[u64]) -> Result<(), NoMemory>
    ensures { OnOk result (keys.new.items ≡ keys.old.items ++ more.now) }
{
    for key in more {
        keys.push(*key)?;
    }
    Ok(())
}

/// The wires of numbers.
fn number_wires(alloc: Global, keys: &[u64], list: &[u64]) -> Result<Vec<Wire>, NoMemory>
    ensures { IfOk result (λ wires. wires.items ≡ map (number_wire keys.now) list.now) }
{
    let mut wires = Vec::new(alloc);
    for key in list {
        wires.push(number_wire(keys, *key))?;
    }
    Ok(wires)
}
