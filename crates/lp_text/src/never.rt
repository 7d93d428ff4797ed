ghost use Rattle.std.specs.Prelude.{◌≡◌, ◌≤◌, ◌++◌, [], IfOk, OnOk, OnErr, vec_len, Some, None};
ghost use Rattle.std.specs.Option.{option_copied};
ghost use Rattle.std.specs.FinMap as map;
ghost use Rattle.lp_text.specs.Shelf.{ReadFaults};
ghost use Rattle.lp_text.specs.Memory.{Never, never_faults, NeverReads, NeverGives};

use crate::counts::count_up;
use crate::memory::NoMemory;
use crate::shelf::{LIMIT, Shelf, ShelfFault};
use crate::store::Store;
use std::alloc::Global;
use std::marker::Model;

/// A shelf in memory whose calls never fail. A name that it lacks reads as empty.
#[derive(Drop)]
pub struct NeverFails {
    files: Store,
    said: Vec<u8>,
    long: u64,
}

impl Model for NeverFails {
    ghost use Rattle.lp_text.specs.Memory.{Never, never_code};

    ghost Value = { Never };

    ghost coded = { never_code };

    ghost view = { λ s. record { files = s.files; said = s.said.items; long = s.long } };
}

impl NeverFails {
    /// A shelf that holds no file and said nothing. It takes no memory yet.
    pub fn new(alloc: Global) -> Result<NeverFails, NoMemory>
        ensures { IfOk result (λ s. s ≡ record { files = map.empty; said = []; long = 0 }) }
    {
        Ok(NeverFails {
            files: Store::new(alloc),
            said: Vec::new(alloc),
            long: 0,
        })
    }

    /// Sets one name, and is no call of the shelf. After an error nothing changed.
    pub fn add_file(&mut self, name: &str, bytes: &[u8]) -> Result<(), NoMemory>
        ensures ok { OnOk result (self.new ≡ record self.old { files = map.insert self.old.files name.now bytes.now }) }
        ensures err { OnErr result (self.new ≡ self.old) }
    {
        self.files.set(name, bytes)
    }

    /// The bytes under a name. None where the name is not held.
    pub fn contents(&self, name: &str) -> Option<&[u8]>
        ensures { option_copied result ≡ map.get self.now.files name.now }
    {
        self.files.get(name)
    }

    /// All that was said.
    pub fn said_bytes(&self) -> &[u8]
        ensures { result.now ≡ self.now.said }
    {
        self.said.as_slice()
    }
}

impl Shelf for NeverFails {
    ghost held = { λ s. Some s.files };

    ghost said = { λ s. Some s.said };

    ghost calls = { λ _. None };

    ghost missed = { λ _. None };

    ghost faults = { never_faults };

    fn read(&mut self, alloc: Global, name: &str) -> Result<Vec<u8>, ShelfFault>
        ensures limit { IfOk result (λ v. vec_len v ≤ LIMIT) }
        ensures counts { ReadFaults result (never_faults self.old) (never_faults self.new) }
        ensures answers { NeverReads (λ v. v.items) self.old name.now result self.new }
    {
        let Some(bytes) = self.files.get(name) else {
            return Ok(Vec::new(alloc));
        };
        if bytes.len() > LIMIT {
            self.long = count_up(self.long);
            return Err(ShelfFault::TooLong);
        }
        Vec::from_slice(alloc, bytes).map_err(|_| ShelfFault::NoMemory)
    }

    fn write(&mut self, name: &str, bytes: &[u8]) -> Result<(), ShelfFault>
        ensures answers { NeverGives self.old (record self.old { files = map.insert self.old.files name.now bytes.now }) result self.new }
    {
        self.files
            .set(name, bytes)
            .map_err(|_| ShelfFault::NoMemory)
    }

    fn say(&mut self, bytes: &[u8]) -> Result<(), ShelfFault>
        ensures answers { NeverGives self.old (record self.old { said = self.old.said ++ bytes.now }) result self.new }
    {
        self.said
            .extend_from_slice(bytes)
            .map_err(|_| ShelfFault::NoMemory)
    }
}
