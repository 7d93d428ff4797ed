ghost use Rattle.std.specs.Prelude.{◌≡◌, ◌≤◌, IfOk, IfErr, OnOk, OnErr, vec_len, Some};
ghost use Rattle.std.specs.Option.{option_copied};
ghost use Rattle.std.specs.FinMap as map;
ghost use Rattle.lp_text.specs.Shelf.{ReadFaults, WriteFaults, SayFaults};
ghost use Rattle.lp_text.specs.Memory.{Mem, new_mem, counted, fails, MemReads, MemWrites, MemSays};

use crate::counts::{Counts, count_up};
use crate::memory::NoMemory;
use crate::shelf::{LIMIT, Shelf, ShelfFault};
use crate::store::Store;
use crate::word::Word;
use std::alloc::Global;
use std::marker::Model;

/// A shelf in memory, whose calls of chosen numbers fail.
#[derive(Drop)]
pub struct MemShelf {
    files: Store,
    said: Vec<u8>,
    calls: u64,
    missed: Option<Word>,
    counts: Counts,
    fail: Vec<u32>,
    alloc: Global,
}

impl Model for MemShelf {
    ghost use Rattle.lp_text.specs.Memory.{Mem, mem_code};

    ghost Value = { Mem };

    ghost coded = { mem_code };

    ghost view = { λ s. record {
      files = s.files;
      said = s.said.items;
      calls = s.calls;
      missed = s.missed;
      faults = record { read = s.counts.read; write = s.counts.write; say = s.counts.say; long = s.counts.long };
      fail = s.fail.items;
    } };
}

impl MemShelf {
    /// A shelf that holds no file. `fail` has the numbers of the calls that fail, counted from 1
    /// over all three methods.
    pub fn new(alloc: Global, fail: &[u32]) -> Result<MemShelf, NoMemory>
        ensures { IfOk result (λ s. s ≡ new_mem fail.now) }
    {
        let fail = Vec::from_slice(alloc, fail)?;
        Ok(MemShelf {
            files: Store::new(alloc),
            said: Vec::new(alloc),
            calls: 0,
            missed: None,
            counts: Counts::new(),
            fail,
            alloc,
        })
    }

    /// Sets one name, and is no call of the shelf. After an error nothing changed.
    pub fn add_file(&mut self, name: &str, bytes: &[u8]) -> Result<(), NoMemory>
        ensures ok { OnOk result (self.new ≡ record self.old { files = map.insert self.old.files name.now bytes.now }) }
        ensures err { OnErr result (self.new ≡ self.old) }
    {
        self.files.set(name, bytes)
    }

    /// The bytes under a name. None where the name is not held.
    pub fn contents(&self, name: &str) -> Option<&[u8]>
        ensures { option_copied result ≡ map.get self.now.files name.now }
    {
        self.files.get(name)
    }

    /// All that was said.
    pub fn said_bytes(&self) -> &[u8]
        ensures { result.now ≡ self.now.said }
    {
        self.said.as_slice()
    }

    /// How many calls of the shelf were made.
    pub fn calls(&self) -> u64
        ensures { result ≡ self.now.calls }
    {
        self.calls
    }

    /// Counts a call, and says whether it is one of those that fail.
    fn count_call(&mut self) -> bool
        ensures answer { result ≡ fails self.old }
        ensures counted { self.new ≡ counted self.old }
    {
        self.calls = count_up(self.calls);
        let call = self.calls;
        self.fail.iter().any(|n| u64::from(*n) == call)
    }

    /// Takes note of the name that a call missed. After an error nothing changed.
    fn miss(&mut self, name: &str) -> Result<(), ShelfFault>
        ensures ok { OnOk result (self.new ≡ record self.old { missed = Some name.now }) }
        ensures err { OnErr result (self.new ≡ self.old) }
        ensures memory { IfErr result (λ e. e ≡ ShelfFault.NoMemory) }
    {
        match String::from_str(self.alloc, name) {
            Ok(name) => self.missed = Some(Word::new(name)),
            Err(_) => return Err(ShelfFault::NoMemory),
        }
        Ok(())
    }
}

impl Shelf for MemShelf {
    ghost held = { λ s. Some s.files };

    ghost said = { λ s. Some s.said };

    ghost calls = { λ s. Some s.calls };

    ghost missed = { λ s. Some s.missed };

    ghost faults = { λ s. s.faults };

    fn read(&mut self, alloc: Global, name: &str) -> Result<Vec<u8>, ShelfFault>
        ensures limit { IfOk result (λ v. vec_len v ≤ LIMIT) }
        ensures counts { ReadFaults result self.old.faults self.new.faults }
        ensures answers { MemReads (λ v. v.items) self.old name.now result self.new }
    {
        let fails = self.count_call();
        match self.files.get(name) {
            Some(bytes) if !fails => {
                if bytes.len() > LIMIT {
                    self.counts.long = count_up(self.counts.long);
                    return Err(ShelfFault::TooLong);
                }
                Vec::from_slice(alloc, bytes).map_err(|_| ShelfFault::NoMemory)
            }
            _ => {
                self.miss(name)?;
                self.counts.read = count_up(self.counts.read);
                Err(ShelfFault::Failed)
            }
        }
    }

    fn write(&mut self, name: &str, bytes: &[u8]) -> Result<(), ShelfFault>
        ensures counts { WriteFaults result self.old.faults self.new.faults }
        ensures answers { MemWrites self.old name.now bytes.now result self.new }
    {
        if self.count_call() {
            self.miss(name)?;
            self.counts.write = count_up(self.counts.write);
            return Err(ShelfFault::Failed);
        }
        self.files
            .set(name, bytes)
            .map_err(|_| ShelfFault::NoMemory)
    }

    fn say(&mut self, bytes: &[u8]) -> Result<(), ShelfFault>
        ensures counts { SayFaults result self.old.faults self.new.faults }
        ensures answers { MemSays self.old bytes.now result self.new }
    {
        if self.count_call() {
            self.counts.say = count_up(self.counts.say);
            return Err(ShelfFault::Failed);
        }
        self.said
            .extend_from_slice(bytes)
            .map_err(|_| ShelfFault::NoMemory)
    }
}
