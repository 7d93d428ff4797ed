ghost use Rattle.std.specs.Prelude.{◌≡◌, OnOk, OnErr};
ghost use Rattle.std.specs.Option.{option_copied};
ghost use Rattle.std.specs.Ordering.{nat_cmp};
ghost use Rattle.std.specs.Cmp.Lexicographic.{slice_cmp};
ghost use Rattle.std.specs.FinMap as map;

use crate::bytes::Bytes;
use crate::memory::NoMemory;
use crate::word::Word;
use std::alloc::Global;
use std::collections::VecDeque;
use std::marker::Model;

/// Files in memory: what was put under each name, the newest first.
///
/// An older file under the same name stays behind the newer one, so a store suits few writes.
#[derive(Drop)]
pub(crate) struct Store {
    files: VecDeque<(Word, Bytes)>,
    alloc: Global,
}

impl Model for Store {
    ghost use Rattle.std.specs.Coded.{coded_ℕ, coded_list};
    ghost use Rattle.std.specs.FinMap as map;
    ghost use Rattle.lp_text.specs.Shelf.{Files};

    ghost Value = { Files };

    ghost coded = { map.code (coded_list coded_ℕ) (coded_list coded_ℕ) };

    ghost view = { λ s. map.from_entries s.files.items };
}

impl Store {
    pub(crate) fn new(alloc: Global) -> Store
        ensures { result ≡ map.empty }
    {
        Store {
            files: VecDeque::new(alloc),
            alloc,
        }
    }

    /// The bytes under a name. None where the name is not held.
    pub(crate) fn get(&self, name: &str) -> Option<&[u8]>
        ensures { option_copied result ≡ map.get self.now name.now }
    {
        for (held, bytes) in &self.files {
            if name == held.text() {
                return Some(bytes.all());
            }
        }
        None
    }

    /// Sets one name. After an error nothing changed.
    pub(crate) fn set(&mut self, name: &str, bytes: &[u8]) -> Result<(), NoMemory>
        ensures ok { OnOk result (self.new ≡ map.insert self.old name.now bytes.now) }
        ensures err { OnErr result (self.new ≡ self.old) }
    {
        let name = Word::new(String::from_str(self.alloc, name)?);
        let bytes = Bytes::copy(self.alloc, bytes)?;
        self.files.push_front((name, bytes))?;
        Ok(())
    }
}
