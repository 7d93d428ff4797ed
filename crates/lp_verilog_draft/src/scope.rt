ghost use Rattle.std.specs.Prelude.{◌≡◌, ◌<◌, [], ◌++◌, Some, length, slice_get, OnOk, IfOk, nat_eq};
ghost use Rattle.std.specs.Map.{lookup};
ghost use Rattle.indexmap.specs.IndexMap.{insert_entry};
ghost use Rattle.lp_verilog_draft.specs.Scopes.{lacking_of, ports_of, nets_of, port_of, net_of, lacks_direction, with_some};

use indexmap::IndexMap;
use lp_model::{BitRange, Direction, NetDecl, Port};
use lp_text::{NameId, NoMemory};
use sqlite_items::Items;
use std::alloc::Global;
use std::marker::Model;

/// What a name of a module stands for.
#[derive(Clone, Copy)]
pub enum Kind {
    Port,
    Wire,
    Instance,
}

/// A declaration of a module.
#[derive(Clone, Copy)]
pub struct Entry {
    pub kind: Kind,
    /// The direction of a port, once it is given.
    pub direction: Option<Direction>,
    /// The range of a vector.
    pub range: Option<BitRange>,
    /// Whether a declaration or a use has settled the range.
    pub fixed: bool,
    /// Whether an item has declared it as a wire.
    pub wired: bool,
    /// The number of the byte at which its name stands first.
    pub at: usize,
}

/// The declarations of a module, in their order: contracts see the list of numbers of names and entries.
#[derive(Drop)]
pub struct Scope {
    entries: IndexMap<u32, Entry>,
}

impl Model for Scope {
    ghost use Rattle.std.specs.Prelude.{List, ℕ};
    ghost use Rattle.lp_verilog_draft.specs.declared.scope.Entry.{Entry};

    ghost Value = { List (ℕ × Entry) };

    ghost view = { λ s. s.entries.entries };
}

impl Scope {
    /// A scope without names.
    pub fn new(alloc: Global) -> Scope
        ensures { result ≡ [] }
    {
        Scope {
            entries: IndexMap::new(alloc),
        }
    }

    /// What a name stands for.
    pub fn find(&self, name: NameId) -> Option<Entry>
        ensures { result ≡ lookup (nat_eq name.0) self.now }
    {
        self.entries.get(&name.0).copied()
    }

    /// Makes this the entry of a name: a new one comes last.
    pub fn put(&mut self, name: NameId, entry: Entry) -> Result<(), NoMemory>
        ensures { OnOk result (self.new ≡ insert_entry nat_eq self.old name.0 entry) }
    {
        self.entries.insert(name.0, entry)?;
        Ok(())
    }

    fn entry_at(&self, i: usize) -> (u32, Entry)
        requires { i < length self.now }
        ensures { slice_get self.now i ≡ Some result }
    {
        let (name, entry) = self.entries.get_index(i).unwrap();
        (*name, *entry)
    }

    fn len(&self) -> usize
        ensures { result ≡ length self.now }
    {
        self.entries.len()
    }

    /// The place of the first port that has no direction.
    pub fn lacking(&self) -> Option<usize>
        ensures { result ≡ lacking_of self.now }
    {
        for i in 0..self.len() {
            let (_, entry) = self.entry_at(i);
            if lacks_direction(entry) {
                return Some(entry.at);
            }
        }
        None
    }

    /// The ports that have a direction, in the order of the header.
    pub fn ports(&self, alloc: Global) -> Result<Items<Port>, NoMemory>
        ensures { IfOk result (λ ports. ports ≡ ports_of self.now) }
    {
        let mut ports = Items::new(alloc);
        for i in 0..self.len() {
            let (name, entry) = self.entry_at(i);
            push_some(&mut ports, port_of(name, entry))?;
        }
        Ok(ports)
    }

    /// The wires that are no ports, in the order of their first declaration or use.
    pub fn nets(&self, alloc: Global) -> Result<Items<NetDecl>, NoMemory>
        ensures { IfOk result (λ nets. nets ≡ nets_of self.now) }
    {
        let mut nets = Items::new(alloc);
        for i in 0..self.len() {
            let (name, entry) = self.entry_at(i);
            push_some(&mut nets, net_of(name, entry))?;
        }
        Ok(nets)
    }
}

fn port_of(name: u32, entry: Entry) -> Option<Port>
    ensures { result ≡ port_of name entry }
{
    match (entry.kind, entry.direction) {
        (Kind::Port, Some(direction)) => Some(Port {
            name: NameId(name),
            range: entry.range,
            direction,
        }),
        _ => None,
    }
}

fn net_of(name: u32, entry: Entry) -> Option<NetDecl>
    ensures { result ≡ net_of name entry }
{
    match entry.kind {
        Kind::Wire => Some(NetDecl {
            name: NameId(name),
            range: entry.range,
        }),
        _ => None,
    }
}

fn lacks_direction(entry: Entry) -> bool
    ensures { result ≡ lacks_direction entry }
{
    matches!(entry.kind, Kind::Port) && entry.direction.is_none()
}

/// Puts a value behind others, if there is one.
fn push_some<T: Drop>(items: &mut Items<T>, item: Option<T>) -> Result<(), NoMemory>
    ensures { OnOk result (items.new ≡ items.old ++ with_some item []) }
{
    if let Some(item) = item {
        items.push(item)?;
    }
    Ok(())
}
