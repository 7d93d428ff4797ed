ghost use Rattle.std.specs.Prelude.{◌≡◌, Some, length, map, IfOk};
ghost use Rattle.std.specs.Option.{option_map};
ghost use Rattle.lp_expr.specs.Formula.{truth};
ghost use Rattle.lp_model.specs.Agreement.{name_texts};
ghost use Rattle.lp_model.specs.LibraryView.{expr_view};
ghost use Rattle.lp_spec_fit.specs.Fits as fits;
ghost use Rattle.lp_choice.specs.Wires.{named_wire, number_wire};

use crate::keys::{add_keys, key_of, once, slot_of};
use crate::wires::{Wire, agree};
use lp_expr::Expr;
use lp_text::{NameId, Names, NoMemory};
use std::alloc::Global;

/// Whether the function of an output is a wanted one of the values of names.
pub(crate) fn has_function(
    alloc: Global,
    names: &Names,
    given: &[NameId],
    wanted: &Expr,
    function: &Option<Expr>,
) -> Result<bool, NoMemory>
    requires { length given.now ≡ length wanted.now.variables }
    ensures { let of = name_texts names.now given.now in
        IfOk result (λ b. b ≡ fits.has_function of (λ v. truth wanted.now.steps (map v of)) (option_map (expr_view names.now) function.now)) }
{
    match function {
        Some(e) => is_function(alloc, names, given, wanted, e),
        None => Ok(false),
    }
}

/// Whether a function is a wanted one of the values of names.
pub(crate) fn is_function(
    alloc: Global,
    names: &Names,
    given: &[NameId],
    wanted: &Expr,
    e: &Expr,
) -> Result<bool, NoMemory>
    requires { length given.now ≡ length wanted.now.variables }
    ensures { let of = name_texts names.now given.now in
        IfOk result (λ b. b ≡ fits.has_function of (λ v. truth wanted.now.steps (map v of)) (Some (expr_view names.now e.now))) }
{
    let mut keys = Vec::new(alloc);
    add_keys(&mut keys, names, e.variables())?;
    add_keys(&mut keys, names, given)?;
    let kept = once(alloc, keys.as_slice())?;
    let slots = kept.as_slice();
    let own = named_wires(alloc, names, slots, e.variables())?;
    let other = named_wires(alloc, names, slots, given)?;
    Ok(agree(e, own.as_slice(), wanted, other.as_slice(), slots.len()))
}

/// The wires of names.
fn named_wires(
    alloc: Global,
    names: &Names,
    keys: &[u64],
    list: &[NameId],
) -> Result<Vec<Wire>, NoMemory>
    ensures { IfOk result (λ wires. wires.items ≡ map (named_wire names.now keys.now) list.now) }
{
    let mut wires = Vec::new(alloc);
    for name in list {
        wires.push(named_wire(names, keys, *name))?;
    }
    Ok(wires)
}

/// The wire of a name.
fn named_wire(names: &Names, keys: &[u64], name: NameId) -> Wire
    ensures { result ≡ named_wire names.now keys.now name }
{
    number_wire(keys, key_of(names, name))
}

/// The wire of a number.
pub(crate) fn number_wire(keys: &[u64], key: u64) -> Wire
    ensures { result ≡ number_wire keys.now key }
{
    Wire {
        slot: slot_of(keys, key),
        negated: false,
    }
}
