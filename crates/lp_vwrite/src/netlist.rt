ghost use Rattle.std.specs.Prelude.{◌≡◌, ◌++◌, map, flat_map, OnOk, IfOk};
ghost use Rattle.lp_model.specs.NetlistView.{module_view, netlist_view};
ghost use Rattle.lp_vwrite.specs.Layout.{module_text, layout};
ghost use Rattle.lp_vwrite.specs.WellFormed.{ReadsBack};

use crate::module::put_module;
use lp_model::{Module, Netlist};
use lp_text::{Bytes, Names, NoMemory};
use std::alloc::Global;

fn put_modules(
    alloc: Global,
    out: &mut Vec<u8>,
    names: &Names,
    modules: &[Module],
) -> Result<(), NoMemory>
    ensures { OnOk result (out.new.items ≡ out.old.items ++ flat_map module_text (map (module_view names.now) modules.now)) }
{
    for source in modules {
        put_module(alloc, out, names, source)?;
    }
    Ok(())
}

/// The text of a netlist over the names of a table: one item a line, two blanks before each item (own rule).
///
/// A well-formed netlist is read back from it. A number that the table lacks gives an empty name.
///
/// # Errors
///
/// Only where memory is refused.
#[tactic(auto, unfolding(crate::specs::Layout::layout))]
pub fn write_netlist(alloc: Global, names: &Names, netlist: &Netlist) -> Result<Bytes, NoMemory>
    ensures laid_out { IfOk result (λ text. text ≡ layout (netlist_view names.now netlist.now)) }
    ensures reads { IfOk result (λ text. ReadsBack text (netlist_view names.now netlist.now)) }
{
    let mut out = Vec::new(alloc);
    put_modules(alloc, &mut out, names, netlist.modules.as_slice())?;
    Ok(Bytes::new(out))
}
