ghost use Rattle.std.specs.Prelude.{◌≡◌, ◌++◌, codes, decimal, IfOk, OnOk};
ghost use Rattle.lp_text.specs.Texts.{text_at};
ghost use Rattle.lp_fault_text.specs.Paths.{bit_name};
ghost use Rattle.lp_node_text.specs.Paths as paths;
ghost use Rattle.lp_node_text.specs.Numbered.{text_below, place_text};
ghost use Rattle.lp_node_text.specs.Ready.{OnModules, OnNetBit};

use crate::found::{Found, found_at};
use lp_model::{Module, Netlist, NodeId, NodeName};
use lp_targets::Hierarchy;
use lp_templates::Template;
use lp_text::{NameId, Names, NoMemory};
use std::alloc::Global;

/// How many instances stand in one another.
const DEPTH: u32 = 64;

/// Appends a name.
fn put_name(out: &mut Vec<u8>, names: &Names, name: NameId) -> Result<(), NoMemory>
    ensures { OnOk result (out.new.items ≡ out.old.items ++ text_at names.now name.0) }
{
    if name.0 < names.count() {
        out.extend_from_slice(names.text(name).as_bytes())?;
    }
    Ok(())
}

/// Appends an index between brackets.
fn put_index(out: &mut Vec<u8>, index: u32) -> Result<(), NoMemory>
    ensures { OnOk result (out.new.items ≡ out.old.items ++ (codes "[" ++ (decimal index ++ codes "]"))) }
{
    let text = index.to_string(*out.allocator())?;
    out.extend_from_slice(b"[")?;
    out.extend_from_slice(text.as_bytes())?;
    out.extend_from_slice(b"]")?;
    Ok(())
}

/// Appends the name of a net bit.
fn put_bit(out: &mut Vec<u8>, names: &Names, bit: NodeName) -> Result<(), NoMemory>
    ensures { OnOk result (out.new.items ≡ out.old.items ++ bit_name names.now bit) }
{
    match bit {
        NodeName::Scalar(name) => put_name(out, names, name),
        NodeName::Bit(name, index) => {
            put_name(out, names, name)?;
            put_index(out, index)
        }
        NodeName::Added(_) => Ok(()),
    }
}

/// Appends the text of the net bit at a place of a module, by the number of the module.
fn put_below(
    out: &mut Vec<u8>,
    names: &Names,
    modules: &[Module],
    templates: &[Template],
    depth: u32,
    of: usize,
    place: usize,
) -> Result<(), NoMemory>
    ensures { OnOk result (out.new.items ≡ out.old.items ++ text_below names.now modules.now templates.now depth of place) }
{
    if depth == 0 {
        return Ok(());
    }
    match found_at(modules, templates, of, place) {
        None => Ok(()),
        Some(Found::Bit(bit)) => put_bit(out, names, bit),
        Some(Found::Inside(inside)) => {
            put_name(out, names, inside.name)?;
            out.extend_from_slice(b"/")?;
            put_below(
                out,
                names,
                modules,
                templates,
                depth - 1,
                inside.of as usize,
                inside.place,
            )
        }
    }
}

/// The text of the net bit at a place of the top.
#[tactic(auto, unfolding(crate::specs::Numbered::place_text))]
fn place_text(
    alloc: Global,
    names: &Names,
    modules: &[Module],
    templates: &[Template],
    top: usize,
    place: usize,
) -> Result<Vec<u8>, NoMemory>
    ensures { IfOk result (λ text. text.items ≡ place_text names.now modules.now templates.now top place) }
{
    let mut out = Vec::new(alloc);
    put_below(&mut out, names, modules, templates, DEPTH, top, place)?;
    Ok(out)
}

/// The text of a net bit of an instance, by the number of its node: the names of the instances down to it, each with a
/// `/` behind it, and its own name, with the index of a vector's bit between brackets. Takes time in proportion to the
/// declarations and the statements of the modules on the way.
///
/// # Errors
///
/// Only where memory is refused.
pub fn node_text(
    alloc: Global,
    names: &Names,
    netlist: &Netlist,
    hierarchy: &Hierarchy,
    templates: &[Template],
    node: NodeId,
) -> Result<Vec<u8>, NoMemory>
    ensures { OnModules names.now netlist.now hierarchy.now templates.now (OnNetBit node (λ k. IfOk result (λ text. text.items ≡ paths.node_text k))) }
{
    place_text(
        alloc,
        names,
        netlist.modules.as_slice(),
        templates,
        hierarchy.top,
        node.0 as usize,
    )
}
