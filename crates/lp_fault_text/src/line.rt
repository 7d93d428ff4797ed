ghost use Rattle.std.specs.Prelude.{◌≡◌, ◌++◌, map, IfOk, OnOk};
ghost use Rattle.lp_fault_text.specs.Lines as lines;

use crate::item::{Item, Part, Which};
use crate::items::items_of;
use crate::known::{GraphTables, Known};
use crate::path::{
    put_bit, put_inst, put_leaf, put_node, put_number, put_pg_name, put_pin, put_port,
};
use crate::supply::{put_domain, put_origin, put_scoped, put_set, put_strategy, put_switch};
use lp_model::{Fault, write_line, write_line_with};
use lp_text::{Bytes, NoMemory};
use std::alloc::Global;

/// Appends a part of a netlist.
fn put_part(out: &mut Vec<u8>, known: &Known, g: &GraphTables, part: Part) -> Result<(), NoMemory>
    ensures { OnOk result (out.new.items ≡ out.old.items ++ lines.part_text known.now g.now part) }
{
    let names = known.names;
    match part {
        Part::Inst(inst) => put_inst(out, names, g, inst),
        Part::Leaf(leaf) => put_leaf(out, names, g, leaf),
        Part::Pin(leaf, place) => put_pin(out, names, known.cells, g, leaf, place),
        Part::PgName(leaf, place) => put_pg_name(out, names, known.cells, g, leaf, place),
        Part::Node(node) => put_node(out, names, g, node),
        Part::Bit(edge) => put_bit(out, names, g, edge),
        Part::Port(inst, place) => put_port(out, names, g, inst, place),
    }
}

/// Appends a part of one of two netlists.
fn put_part_of(out: &mut Vec<u8>, known: &Known, which: Which, part: Part) -> Result<(), NoMemory>
    ensures { OnOk result (out.new.items ≡ out.old.items ++ lines.part_text known.now (lines.graph_of known.now which) part) }
{
    match which {
        Which::Source => put_part(out, known, &known.graph, part),
        Which::Powered => put_part(out, known, &known.powered, part),
    }
}

/// Appends a field.
fn put_item(out: &mut Vec<u8>, known: &Known, item: Item) -> Result<(), NoMemory>
    ensures { OnOk result (out.new.items ≡ out.old.items ++ lines.item_text known.now item) }
{
    match item {
        Item::Number(number) => put_number(out, number)?,
        Item::Nothing => out.extend_from_slice(b"none")?,
        Item::Part(which, part) => put_part_of(out, known, which, part)?,
        Item::Supply(name) => put_scoped(out, known, name)?,
        Item::Domain(number) => put_domain(out, known, number)?,
        Item::Set(set) => put_set(out, known, set)?,
        Item::Switch(number) => put_switch(out, known, number)?,
        Item::Strategy(strategy) => put_strategy(out, known, strategy)?,
        Item::Origin(origin) => put_origin(out, known, origin)?,
    }
    Ok(())
}

/// The text of a field.
fn text_of(alloc: Global, known: &Known, item: Item) -> Result<Bytes, NoMemory>
    ensures { IfOk result (λ text. text ≡ lines.item_text known.now item) }
{
    let mut out = Vec::new(alloc);
    put_item(&mut out, known, item)?;
    Ok(Bytes::new(out))
}

/// The texts of fields.
fn texts_of(alloc: Global, known: &Known, items: &[Item]) -> Result<Vec<Bytes>, NoMemory>
    ensures { IfOk result (λ texts. texts.items ≡ map (lines.item_text known.now) items.now) }
{
    let mut texts = Vec::new(alloc);
    for item in items {
        texts.push(text_of(alloc, known, *item)?)?;
    }
    Ok(texts)
}

/// The line of a fault without a line feed, as `lpinsert: F51 Tied u/o PC.I1 PC.I2`.
///
/// A number that what is known lacks gives an empty text. What a line names of the design has the names of its
/// instances before it, from the top down, with a `/` behind each. F16 and F23 want the graph in which they were
/// found, P1 to P3 the graph of the simulated netlist as the one to which the intent belongs, and C1 to C6 the graph
/// of the netlist that is checked as the powered one.
///
/// # Errors
///
/// Only where memory is refused.
pub fn write_fault(alloc: Global, known: &Known, fault: &Fault) -> Result<Bytes, NoMemory>
    ensures { IfOk result (λ line. line ≡ lines.line_of known.now fault.now) }
{
    if fault.is_plain() {
        return write_line(alloc, known.names, fault);
    }
    let items = items_of(alloc, fault)?;
    let texts = texts_of(alloc, known, items.as_slice())?;
    write_line_with(alloc, fault, texts.as_slice())
}
