use crate::bits::Bits;
use lp_text::NameId;
use sqlite_items::Items;

/// The direction of a port or a pin.
#[derive(Clone, Copy, PartialEq)]
pub enum Direction {
    /// Driven from outside.
    Input,
    /// Driven from inside.
    Output,
}

/// The range of a vector, as in `[7:0]`: both indices belong to it (IEEE 1364-2005, vectors).
#[derive(Clone, Copy)]
pub struct BitRange {
    /// The left index, that of the most significant bit.
    pub left: u32,
    /// The right index; it may be above the left one.
    pub right: u32,
}

/// A port of a module (IEEE 1364-2005, port declarations).
#[derive(Clone, Copy)]
pub struct Port {
    /// The port's name, which is its net's too.
    pub name: NameId,
    /// The range of a vector; a scalar has none.
    pub range: Option<BitRange>,
    /// Its direction.
    pub direction: Direction,
}

/// A net of a module that is no port (IEEE 1364-2005, net declarations).
#[derive(Clone, Copy)]
pub struct NetDecl {
    /// The net's name.
    pub name: NameId,
    /// The range of a vector; a scalar has none.
    pub range: Option<BitRange>,
}

/// A named connection, as in `.A(n)`. It takes 24 bytes.
#[derive(Drop)]
pub struct Connection {
    /// What it is connected to; no bit where it is left open, as in `.A()`.
    pub bits: Bits,
    /// The port or pin.
    pub port: NameId,
}

/// The connections of an instance (IEEE 1364-2005, connecting module instance ports).
#[derive(Drop)]
pub enum Connections {
    /// By name, in the order of the text.
    Named(Items<Connection>),
    /// By position, the first port first.
    Ordered(Items<Bits>),
}

/// An instance of a cell or a module. It takes 40 bytes.
#[derive(Drop)]
pub struct Instance {
    /// The instance's name.
    pub name: NameId,
    /// The name of its module or cell.
    pub target: NameId,
    /// Its connections.
    pub connections: Connections,
}

/// A continuous assignment of nets (IEEE 1364-2005, `assign`).
#[derive(Drop)]
pub struct Assign {
    /// What is driven: it has no constants.
    pub left: Bits,
    /// What drives it.
    pub right: Bits,
}

/// A module of a structural netlist.
#[derive(Drop)]
pub struct Module {
    /// The module's name.
    pub name: NameId,
    /// The ports, in the order of the header.
    pub ports: Items<Port>,
    /// The nets that are no ports, in the order of their first declaration or use.
    pub nets: Items<NetDecl>,
    /// The instances, in order of statement.
    pub instances: Items<Instance>,
    /// The assigns, in order of statement.
    pub assigns: Items<Assign>,
}

/// A structural netlist (IEEE 1364-2005, the subset that is read).
#[derive(Drop)]
pub struct Netlist {
    /// The modules, in the order of the text.
    pub modules: Items<Module>,
}
