ghost use Rattle.std.specs.Prelude.{◌≡◌, ◌++◌, codes, decimal, OnOk};
ghost use Rattle.std.specs.Option.{option_copied};
ghost use Rattle.lp_text.specs.Texts.{text_at};
ghost use Rattle.lp_fault_text.specs.Paths as paths;

use crate::known::GraphTables;
use lp_model::{Cell, EdgeFrom, EdgeId, Inst, InstId, LeafId, Module, NodeId, NodeName};
use lp_text::{NameId, Names, NoMemory};

/// The greatest depth of an instance.
const DEPTH: u32 = 64;

/// Appends a name.
pub(crate) fn put_name(out: &mut Vec<u8>, names: &Names, name: NameId) -> Result<(), NoMemory>
    ensures { OnOk result (out.new.items ≡ out.old.items ++ text_at names.now name.0) }
{
    if name.0 < names.count() {
        out.extend_from_slice(names.text(name).as_bytes())?;
    }
    Ok(())
}

/// Appends a number.
pub(crate) fn put_number(out: &mut Vec<u8>, number: u32) -> Result<(), NoMemory>
    ensures { OnOk result (out.new.items ≡ out.old.items ++ decimal number) }
{
    let text = number.to_string(*out.allocator())?;
    out.extend_from_slice(text.as_bytes())?;
    Ok(())
}

/// The instance in which one stands, and its name there.
fn standing(instances: &[Inst], inst: InstId) -> Option<(InstId, NameId)>
    ensures { result ≡ paths.standing instances.now inst }
{
    let it = instances.get(inst.0 as usize)?;
    let parent = it.parent?;
    Some((parent, it.name))
}

/// Appends the names down to an instance, each with a slash behind it.
#[tactic(auto, using(crate::proofs::Rising::path_up))]
fn put_path_within(
    out: &mut Vec<u8>,
    names: &Names,
    instances: &[Inst],
    depth: u32,
    inst: InstId,
) -> Result<(), NoMemory>
    ensures { OnOk result (out.new.items ≡ out.old.items ++ paths.slashed (paths.path_within names.now instances.now depth inst)) }
{
    if depth == 0 {
        return Ok(());
    }
    if let Some((parent, name)) = standing(instances, inst) {
        put_path_within(out, names, instances, depth - 1, parent)?;
        put_name(out, names, name)?;
        out.extend_from_slice(b"/")?;
    }
    Ok(())
}

/// Appends the names down to an instance, each with a slash behind it.
#[tactic(auto, unfolding(crate::specs::Paths::path))]
pub(crate) fn put_path(
    out: &mut Vec<u8>,
    names: &Names,
    instances: &[Inst],
    inst: InstId,
) -> Result<(), NoMemory>
    ensures { OnOk result (out.new.items ≡ out.old.items ++ paths.slashed (paths.path names.now instances.now inst)) }
{
    put_path_within(out, names, instances, DEPTH, inst)
}

/// Appends an instance.
pub(crate) fn put_inst(
    out: &mut Vec<u8>,
    names: &Names,
    g: &GraphTables,
    inst: InstId,
) -> Result<(), NoMemory>
    ensures { OnOk result (out.new.items ≡ out.old.items ++ paths.inst_text names.now g.now inst) }
{
    if let Some(it) = g.instances.get(inst.0 as usize) {
        if let Some(parent) = it.parent {
            put_path(out, names, g.instances, parent)?;
        }
        put_name(out, names, it.name)?;
    }
    Ok(())
}

/// Appends a cell instance.
pub(crate) fn put_leaf(
    out: &mut Vec<u8>,
    names: &Names,
    g: &GraphTables,
    leaf: LeafId,
) -> Result<(), NoMemory>
    ensures { OnOk result (out.new.items ≡ out.old.items ++ paths.leaf_text names.now g.now leaf) }
{
    if let Some(it) = g.leaves.get(leaf.0 as usize) {
        put_path(out, names, g.instances, it.inst)?;
        put_name(out, names, it.name)?;
    }
    Ok(())
}

/// The cell of a cell instance.
fn cell_of<'a>(cells: &'a [Cell], g: &GraphTables, leaf: LeafId) -> Option<&'a Cell>
    ensures { option_copied result ≡ paths.cell_of cells.now g.now leaf }
{
    let it = g.leaves.get(leaf.0 as usize)?;
    cells.get(it.cell.0 as usize)
}

/// Appends the name of a signal pin.
fn put_pin_in(out: &mut Vec<u8>, names: &Names, cell: &Cell, place: u8) -> Result<(), NoMemory>
    ensures { OnOk result (out.new.items ≡ out.old.items ++ paths.pin_in names.now place cell.now) }
{
    if let Some(pin) = cell.pins.get(usize::from(place)) {
        put_name(out, names, pin.name)?;
    }
    Ok(())
}

/// Appends a signal pin of a cell instance.
pub(crate) fn put_pin(
    out: &mut Vec<u8>,
    names: &Names,
    cells: &[Cell],
    g: &GraphTables,
    leaf: LeafId,
    place: u8,
) -> Result<(), NoMemory>
    ensures { OnOk result (out.new.items ≡ out.old.items ++ paths.pin_text names.now cells.now g.now leaf place) }
{
    put_leaf(out, names, g, leaf)?;
    out.extend_from_slice(b"/")?;
    if let Some(cell) = cell_of(cells, g, leaf) {
        put_pin_in(out, names, cell, place)?;
    }
    Ok(())
}

/// Appends the name of a pg_pin.
fn put_pg_in(out: &mut Vec<u8>, names: &Names, cell: &Cell, place: u8) -> Result<(), NoMemory>
    ensures { OnOk result (out.new.items ≡ out.old.items ++ paths.pg_in names.now place cell.now) }
{
    if let Some(pg) = cell.pgs.get(usize::from(place)) {
        put_name(out, names, pg.name)?;
    }
    Ok(())
}

/// Appends the name of a pg_pin of a cell instance, alone.
pub(crate) fn put_pg_name(
    out: &mut Vec<u8>,
    names: &Names,
    cells: &[Cell],
    g: &GraphTables,
    leaf: LeafId,
    place: u8,
) -> Result<(), NoMemory>
    ensures { OnOk result (out.new.items ≡ out.old.items ++ paths.pg_name names.now cells.now g.now leaf place) }
{
    if let Some(cell) = cell_of(cells, g, leaf) {
        put_pg_in(out, names, cell, place)?;
    }
    Ok(())
}

/// Appends the name of a net bit in its instance.
fn put_bit_name(out: &mut Vec<u8>, names: &Names, name: NodeName) -> Result<(), NoMemory>
    ensures { OnOk result (out.new.items ≡ out.old.items ++ paths.bit_name names.now name) }
{
    match name {
        NodeName::Scalar(name) => put_name(out, names, name)?,
        NodeName::Bit(name, index) => {
            put_name(out, names, name)?;
            out.extend_from_slice(b"[")?;
            put_number(out, index)?;
            out.extend_from_slice(b"]")?;
        }
        NodeName::Added(_) => {}
    }
    Ok(())
}

/// Appends a net bit.
pub(crate) fn put_node(
    out: &mut Vec<u8>,
    names: &Names,
    g: &GraphTables,
    node: NodeId,
) -> Result<(), NoMemory>
    ensures { OnOk result (out.new.items ≡ out.old.items ++ paths.node_text names.now g.now node) }
{
    if let Some(it) = g.nodes.get(node.0 as usize) {
        put_path(out, names, g.instances, it.inst)?;
        put_bit_name(out, names, it.name)?;
    }
    Ok(())
}

/// The instance of a net bit.
fn inst_of(g: &GraphTables, node: NodeId) -> Option<InstId>
    ensures { result ≡ paths.inst_of g.now node }
{
    let it = g.nodes.get(node.0 as usize)?;
    Some(it.inst)
}

/// The instance in which one stands.
fn parent_of(g: &GraphTables, inst: InstId) -> Option<InstId>
    ensures { result ≡ paths.parent_of g.now inst }
{
    let it = g.instances.get(inst.0 as usize)?;
    it.parent
}

/// Whether a node is of an instance that stands in the instance of another node.
fn leads_up(g: &GraphTables, inner: NodeId, outer: NodeId) -> bool
    ensures { result ≡ paths.leads_up g.now inner outer }
{
    match (inst_of(g, inner), inst_of(g, outer)) {
        (Some(below), Some(above)) => match parent_of(g, below) {
            Some(parent) => parent.0 == above.0,
            None => false,
        },
        _ => false,
    }
}

/// The end of an edge that stands deeper.
fn inner_end(g: &GraphTables, from: EdgeFrom, to: NodeId) -> NodeId
    ensures { result ≡ paths.inner_end g.now from to }
{
    match from {
        EdgeFrom::Node(node) if leads_up(g, node, to) => node,
        _ => to,
    }
}

/// Appends a port bit.
pub(crate) fn put_bit(
    out: &mut Vec<u8>,
    names: &Names,
    g: &GraphTables,
    edge: EdgeId,
) -> Result<(), NoMemory>
    ensures { OnOk result (out.new.items ≡ out.old.items ++ paths.bit_text names.now g.now edge) }
{
    if let Some(it) = g.edges.get(edge.0 as usize) {
        put_node(out, names, g, inner_end(g, it.from, it.to))?;
    }
    Ok(())
}

/// The module of an instance.
fn module_of<'a>(g: &GraphTables<'a>, inst: InstId) -> Option<&'a Module>
    ensures { option_copied result ≡ paths.module_of g.now inst }
{
    let it = g.instances.get(inst.0 as usize)?;
    g.modules.get(it.module as usize)
}

/// Appends the name of a port of a module.
fn put_port_in(out: &mut Vec<u8>, names: &Names, it: &Module, place: u32) -> Result<(), NoMemory>
    ensures { OnOk result (out.new.items ≡ out.old.items ++ paths.port_in names.now place it.now) }
{
    if let Some(port) = it.ports.get(place as usize) {
        put_name(out, names, port.name)?;
    }
    Ok(())
}

/// Appends a port of an instance.
pub(crate) fn put_port(
    out: &mut Vec<u8>,
    names: &Names,
    g: &GraphTables,
    inst: InstId,
    place: u32,
) -> Result<(), NoMemory>
    ensures { OnOk result (out.new.items ≡ out.old.items ++ paths.port_text names.now g.now inst place) }
{
    put_path(out, names, g.instances, inst)?;
    if let Some(it) = module_of(g, inst) {
        put_port_in(out, names, it, place)?;
    }
    Ok(())
}
