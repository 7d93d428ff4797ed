ghost use Rattle.std.specs.Prelude.{◌≡◌, ◌<◌, ◌≤◌, ◌↔◌, [], ◌∷◌, ◌++◌, length, false, IsErrOf, IsOkUnless, IsTrue, IfOk, OnOk, OnErr, slice_index_or};
ghost use Rattle.lp_text.specs.Limits.{most_names};
ghost use Rattle.lp_text.specs.Texts.{distinct, has_text, place_of, with_text};

use crate::memory::NoMemory;
use indexmap::IndexSet;
use std::alloc::{AllocError, AllocFailed, Global};
use std::marker::Model;
use thiserror::Error;

/// The number of a name in its table, from 0.
#[derive(Clone, Copy, Debug, PartialEq, Eq)]
pub struct NameId(pub u32);

/// Why a table takes no name.
#[derive(Clone, Copy, Debug, Error)]
pub enum NamesFault {
    /// The text is new, and 4,294,967,295 names are held.
    #[error("too many names")]
    Full,
    /// An allocation was refused.
    #[error("out of memory")]
    NoMemory,
}

impl From<AllocError> for NamesFault {
    ghost use Rattle.std.specs.Prelude.{◌≡◌};
    ghost use Rattle.lp_text.specs.declared.names.NamesFault.TheVariants as faults;

    ghost from_gives = { λ _ e. e ≡ faults.NoMemory };

    fn from(_error: AllocError) -> NamesFault {
        NamesFault::NoMemory
    }
}

impl<T: Drop> From<AllocFailed<T>> for NamesFault {
    ghost use Rattle.std.specs.Prelude.{◌≡◌};
    ghost use Rattle.lp_text.specs.declared.names.NamesFault.TheVariants as faults;

    ghost from_gives = { λ _ e. e ≡ faults.NoMemory };

    fn from(_error: AllocFailed<T>) -> NamesFault {
        NamesFault::NoMemory
    }
}

/// Distinct texts, numbered in the order in which they first came: contracts see their list.
#[derive(Drop)]
pub struct Names {
    texts: IndexSet<String>,
    alloc: Global,
}

impl Model for Names {
    ghost use Rattle.std.specs.Prelude.{List, ℕ, IsTrue, map, length, ◌≤◌};
    ghost use Rattle.std.specs.String.{string_bytes};
    ghost use Rattle.lp_text.specs.Texts.{distinct};

    ghost Value = { List (List ℕ) };

    ghost view = { λ n. map string_bytes n.texts.keys };

    ghost invariant = { λ n. IsTrue (distinct (map string_bytes n.texts.keys)) × (length n.texts.keys ≤ 4294967295) };
}

impl Names {
    ghost use Rattle.lp_text.specs.Numbers.{numbered};

    /// A table with no name.
    ///
    /// # Errors
    ///
    /// Only where memory is refused.
    pub fn new(alloc: Global) -> Result<Names, NoMemory>
        ensures { IfOk result (λ names. names ≡ []) }
    {
        Ok(Names {
            texts: IndexSet::new(alloc),
            alloc,
        })
    }

    /// The number of names.
    pub fn count(&self) -> u32
        ensures count { result ≡ length self.now }
        ensures distinct { IsTrue (distinct self.now) }
    {
        self.texts.len() as u32
    }

    /// The number of a text, none where it is not in the table.
    pub fn find(&self, text: &str) -> Option<NameId>
        ensures { result ≡ numbered (place_of text.now self.now) }
    {
        match self.place(text) {
            None => None,
            Some(place) => Some(NameId(place)),
        }
    }

    fn place(&self, text: &str) -> Option<u32>
        ensures { result ≡ place_of text.now self.now }
    {
        match self.texts.get_index_of(text) {
            None => None,
            Some(place) => Some(place as u32),
        }
    }

    /// The text of a number.
    pub fn text(&self, id: NameId) -> &str
        requires { id.0 < length self.now }
        ensures { result.now ≡ slice_index_or self.now id.0 [] }
    {
        let text = self.texts.get_index(id.0 as usize).unwrap();
        text.as_str()
    }

    /// The number of a text, which comes last where it is new. What is in the table keeps its number.
    ///
    /// # Errors
    ///
    /// `Full` exactly where the text is new and 4,294,967,295 names are held, and where memory is
    /// refused. After either the table is as before.
    pub fn intern(&mut self, text: &str) -> Result<NameId, NamesFault>
        ensures number { IfOk result (λ id. place_of text.now self.new ≡ Some id.0) }
        ensures ok { IfOk result (λ id. self.new ≡ with_text self.old text.now) }
        ensures full { IsErrOf result NamesFault.Full ↔ ((has_text text.now self.old ≡ false) × (length self.old ≡ most_names)) }
        ensures err { OnErr result (self.new ≡ self.old) }
    {
        match self.place(text) {
            Some(place) => Ok(NameId(place)),
            None => self.add(text),
        }
    }

    /// Numbers a new text.
    fn add(&mut self, text: &str) -> Result<NameId, NamesFault>
        requires { has_text text.now self.old ≡ false }
        ensures number { IfOk result (λ id. id.0 ≡ length self.old) }
        ensures ok { OnOk result (self.new ≡ self.old ++ text.now ∷ []) }
        ensures full { IsErrOf result NamesFault.Full ↔ (length self.old ≡ most_names) }
        ensures err { OnErr result (self.new ≡ self.old) }
    {
        let last = self.count();
        if last == u32::MAX {
            return Err(NamesFault::Full);
        }
        self.append(text)?;
        Ok(NameId(last))
    }

    /// Puts a new text behind the others.
    fn append(&mut self, text: &str) -> Result<(), NamesFault>
        requires absent { has_text text.now self.old ≡ false }
        requires room { length self.old < most_names }
        ensures ok { OnOk result (self.new ≡ self.old ++ text.now ∷ []) }
        ensures err { OnErr result (self.new ≡ self.old) }
        ensures memory { IsOkUnless result NamesFault.NoMemory }
    {
        let copy = String::from_str(self.alloc, text)?;
        self.texts.insert(copy)?;
        Ok(())
    }
}
