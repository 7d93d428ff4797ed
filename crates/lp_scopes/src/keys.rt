ghost use Rattle.std.specs.Prelude.{◌≡◌, [], OnOk};
ghost use Rattle.std.specs.Map.{lookup};
ghost use Rattle.lp_scopes.specs.Numbered.{same_key, noted};

use indexmap::IndexMap;
use lp_text::NoMemory;
use std::alloc::Global;
use std::marker::Model;

/// What stands in instances: by the number of an instance and the number of a name the last that was noted there.
/// Contracts see the list of keys and numbers.
#[derive(Drop)]
pub(crate) struct Keys {
    places: IndexMap<(u32, u32), u32>,
}

impl Model for Keys {
    ghost use Rattle.lp_scopes.specs.Numbered.{Entries};

    ghost Value = { Entries };

    ghost view = { λ k. k.places.entries };
}

impl Keys {
    /// Nothing.
    pub(crate) fn new(alloc: Global) -> Keys
        ensures { result ≡ [] }
    {
        Keys {
            places: IndexMap::new(alloc),
        }
    }

    /// What stands there.
    pub(crate) fn find(&self, key: (u32, u32)) -> Option<u32>
        ensures { result ≡ lookup (same_key key) self.now }
    {
        self.places.get(&key).copied()
    }

    /// Notes what stands there, where the key is one.
    pub(crate) fn note(&mut self, key: Option<(u32, u32)>, place: u32) -> Result<(), NoMemory>
        ensures { OnOk result (self.new ≡ noted self.old key place) }
    {
        if let Some(key) = key {
            self.places.insert(key, place)?;
        }
        Ok(())
    }
}
