ghost use Rattle.std.specs.Prelude.{◌≡◌, [], ◌∷◌, ◌++◌, ◌+◌, ◌<◌, sum_by, IfOk, OnOk, IfSome};
ghost use Rattle.lp_spec_faults.specs.Modules.{bit_count};
ghost use Rattle.lp_templates.specs.Numbered.{spot_of, with_ports, with_nets, declared_in, port_width, net_width};

use crate::index::Index;
use crate::spot::Spot;
use lp_model::{BitRange, Module, NetDecl, Port};
use lp_text::{NameId, NoMemory};
use sqlite_items::at;
use std::alloc::Global;
use std::marker::Model;

/// The names that a module declares, with where their bits lie: contracts see both as lists.
#[derive(Drop)]
pub(crate) struct Scope {
    index: Index,
    spots: Vec<Spot>,
}

impl Model for Scope {
    ghost use Rattle.lp_templates.specs.Numbered.{Declared, AreWithin};

    ghost Value = { Declared };

    ghost view = { λ z. record { names = z.index; spots = z.spots.items } };

    ghost invariant = { λ z. AreWithin z.spots.items };
}

/// How many bits a port or net has.
pub(crate) fn bit_count(range: Option<BitRange>) -> u64
    ensures { result ≡ bit_count range }
{
    match range {
        Some(range) => {
            let left = range.left as u64;
            let right = range.right as u64;
            if left <= right {
                right + 1 - left
            } else {
                left + 1 - right
            }
        }
        None => 1,
    }
}

impl Scope {
    /// No name, with room for those below `count`.
    pub fn new(alloc: Global, count: u32) -> Result<Scope, NoMemory>
        ensures { IfOk result (λ z. z ≡ record { names = []; spots = [] }) }
    {
        Ok(Scope {
            index: Index::new(alloc, count)?,
            spots: Vec::new(alloc),
        })
    }

    fn clear(&mut self)
        ensures { self.new ≡ record { names = []; spots = [] } }
    {
        self.index.clear();
        self.spots.clear();
    }

    /// Where the bits of a name lie. Takes constant time.
    pub fn spot(&self, name: NameId) -> Option<Spot>
        ensures spot { result ≡ spot_of self.now name.0 }
        ensures within { IfSome result (λ x. x.start + bit_count x.range < 4294967296) }
    {
        let place = self.index.find(name.0)?;
        at(self.spots.as_slice(), place).copied()
    }

    /// Puts the bits of a name behind those before them, and gives the place behind.
    fn declare(
        &mut self,
        start: u32,
        name: NameId,
        range: Option<BitRange>,
    ) -> Result<u32, NoMemory>
        requires { start + bit_count range < 4294967296 }
        ensures next { IfOk result (λ next. next ≡ start + bit_count range) }
        ensures names { OnOk result (self.new.names ≡ self.old.names ++ name.0 ∷ []) }
        ensures spots { OnOk result (self.new.spots ≡ self.old.spots ++ record { start = start; range = range } ∷ []) }
    {
        self.index.push(name.0)?;
        self.spots.push(Spot { start, range })?;
        Ok(start + bit_count(range) as u32)
    }

    fn declare_ports(&mut self, ports: &[Port]) -> Result<u32, NoMemory>
        requires { sum_by port_width ports.now < 4294967296 }
        ensures next { IfOk result (λ next. next ≡ sum_by port_width ports.now) }
        ensures ports { OnOk result (self.new ≡ with_ports self.old 0 ports.now) }
    {
        let mut start = 0;
        for port in ports {
            start = self.declare(start, port.name, port.range)?;
        }
        Ok(start)
    }

    fn declare_nets(&mut self, first: u32, nets: &[NetDecl]) -> Result<u32, NoMemory>
        requires { first + sum_by net_width nets.now < 4294967296 }
        ensures next { IfOk result (λ next. next ≡ first + sum_by net_width nets.now) }
        ensures nets { OnOk result (self.new ≡ with_nets self.old first nets.now) }
    {
        let mut start = first;
        for net in nets {
            start = self.declare(start, net.name, net.range)?;
        }
        Ok(start)
    }

    /// Takes the names of a module in place of those before, and gives how many bits it has.
    pub fn enter(&mut self, source: &Module) -> Result<u32, NoMemory>
        requires { sum_by port_width source.now.ports + sum_by net_width source.now.nets < 4294967296 }
        ensures count { IfOk result (λ n. n ≡ sum_by port_width source.now.ports + sum_by net_width source.now.nets) }
        ensures names { OnOk result (self.new ≡ declared_in source.now) }
    {
        self.clear();
        let start = self.declare_ports(source.ports.as_slice())?;
        self.declare_nets(start, source.nets.as_slice())
    }
}
