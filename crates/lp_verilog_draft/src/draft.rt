ghost use Rattle.std.specs.Prelude.{◌≡◌, OnOk, IfOk};
ghost use Rattle.lp_verilog_draft.specs.Steps.{no_joint, joint_begun, joint_positional, joint_emptied, joint_named, joint_ordered, joint_instance, module_named, module_of, end_module, with_instance, with_assign};
ghost use Rattle.lp_verilog_draft.specs.Verdicts.{Makes};

use crate::scope::Scope;
use crate::stop::{Off, Stop};
use lp_model::{Assign, Bits, Connection, Connections, Instance, Module};
use lp_text::{NameId, NoMemory};
use sqlite_items::Items;
use std::alloc::Global;
use std::mem;

/// The instance that is read.
#[derive(Drop)]
pub struct Joint {
    pub target: NameId,
    pub name: NameId,
    /// The name of the connection that is read.
    pub port: NameId,
    /// Whether its connections are ordered.
    pub positional: bool,
    pub named: Items<Connection>,
    pub ordered: Items<Bits>,
}

impl Joint {
    /// No instance yet.
    pub fn new(alloc: Global) -> Joint
        ensures { result ≡ no_joint }
    {
        Joint {
            target: NameId(u32::MAX),
            name: NameId(u32::MAX),
            port: NameId(u32::MAX),
            positional: false,
            named: Items::new(alloc),
            ordered: Items::new(alloc),
        }
    }

    /// The instance of this name, of the target that stands, by name until a position is met.
    pub fn begin(&mut self, name: NameId)
        ensures { self.new ≡ joint_begun name self.old }
    {
        self.name = name;
        self.positional = false;
    }

    /// The connections of this instance go by position.
    pub fn set_positional(&mut self)
        ensures { self.new ≡ joint_positional self.old }
    {
        self.positional = true;
    }

    /// A named connection of these bits.
    pub fn push_named(&mut self, bits: Bits) -> Result<(), NoMemory>
        ensures { OnOk result (self.new ≡ joint_named bits self.old) }
    {
        self.named.push(Connection {
            bits,
            port: self.port,
        })?;
        Ok(())
    }

    /// An ordered connection of these bits.
    pub fn push_ordered(&mut self, bits: Bits) -> Result<(), NoMemory>
        ensures { OnOk result (self.new ≡ joint_ordered bits self.old) }
    {
        self.ordered.push(bits)?;
        Ok(())
    }

    /// The instance, whose connections are taken out.
    pub fn take(&mut self, alloc: Global) -> Instance
        ensures taken { result ≡ joint_instance self.old }
        ensures left { self.new ≡ joint_emptied self.old }
    {
        let named = mem::replace(&mut self.named, Items::new(alloc));
        let ordered = mem::replace(&mut self.ordered, Items::new(alloc));
        let connections = if self.positional {
            Connections::Ordered(ordered)
        } else {
            Connections::Named(named)
        };
        Instance {
            name: self.name,
            target: self.target,
            connections,
        }
    }
}

/// The module that is read.
#[derive(Drop)]
pub struct Draft {
    pub name: NameId,
    pub scope: Scope,
    pub instances: Items<Instance>,
    pub assigns: Items<Assign>,
}

impl Draft {
    /// A module of this name, with nothing in it.
    pub fn new(alloc: Global, name: NameId) -> Draft
        ensures { result ≡ module_named name }
    {
        Draft {
            name,
            scope: Scope::new(alloc),
            instances: Items::new(alloc),
            assigns: Items::new(alloc),
        }
    }

    /// Puts an instance behind the others, or there is no memory.
    pub fn push_instance(&mut self, instance: Instance) -> Result<(), NoMemory>
        ensures { OnOk result (self.new ≡ with_instance instance self.old) }
    {
        self.instances.push(instance)?;
        Ok(())
    }

    /// Puts an assign behind the others, or there is no memory.
    pub fn push_assign(&mut self, left: Bits, right: Bits) -> Result<(), NoMemory>
        ensures { OnOk result (self.new ≡ with_assign left right self.old) }
    {
        self.assigns.push(Assign { left, right })?;
        Ok(())
    }

    /// The module.
    fn into_module(self, alloc: Global) -> Result<Module, NoMemory>
        ensures { IfOk result (λ made. made ≡ module_of self) }
    {
        let ports = self.scope.ports(alloc)?;
        let nets = self.scope.nets(alloc)?;
        Ok(Module {
            name: self.name,
            ports,
            nets,
            instances: self.instances,
            assigns: self.assigns,
        })
    }

    /// The module, where each port has a direction; an empty one of its name is left.
    pub fn end(&mut self, alloc: Global) -> Result<Module, Stop>
        ensures module { Makes result (end_module self.old) }
        ensures left { OnOk result (self.new ≡ module_named self.old.name) }
    {
        if let Some(at) = self.scope.lacking() {
            return Err(Stop::Off(Off::Lacking(at)));
        }
        let empty = Draft::new(alloc, self.name);
        let draft = mem::replace(self, empty);
        Ok(draft.into_module(alloc)?)
    }
}
