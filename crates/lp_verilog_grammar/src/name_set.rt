ghost use Rattle.std.specs.Prelude.{◌≡◌, [], OnOk, nat_eq};
ghost use Rattle.std.specs.List.{list_any};
ghost use Rattle.indexmap.specs.IndexSet.{insert_key};

use indexmap::IndexSet;
use lp_text::{NameId, NoMemory};
use std::alloc::Global;
use std::marker::Model;

/// A set of names: contracts see the list of their numbers.
#[derive(Drop)]
pub struct NameSet {
    names: IndexSet<u32>,
}

impl Model for NameSet {
    ghost use Rattle.std.specs.Prelude.{List, ℕ};

    ghost Value = { List ℕ };

    ghost view = { λ s. s.names.keys };
}

impl NameSet {
    /// The empty set.
    pub fn new(alloc: Global) -> NameSet
        ensures { result ≡ [] }
    {
        NameSet {
            names: IndexSet::new(alloc),
        }
    }

    /// Whether a name is in the set.
    pub fn has(&self, name: NameId) -> bool
        ensures { result ≡ list_any (nat_eq name.0) self.now }
    {
        self.names.contains(&name.0)
    }

    /// Puts a name into the set, or there is no memory.
    pub fn add(&mut self, name: NameId) -> Result<(), NoMemory>
        ensures { OnOk result (self.new ≡ insert_key nat_eq self.old name.0) }
    {
        let _ = self.names.insert_full(name.0)?;
        Ok(())
    }
}
