ghost use Rattle.std.specs.Prelude.{◌≡◌, ◌<◌, [], ◌∷◌, ◌++◌, length, not, false, ◌==◌, slice_index_or, IsTrue, IfOk, OnErr, if◌then◌else◌};
ghost use Rattle.lp_text.specs.Texts.{distinct, has_text, place_of};

use indexmap::IndexSet;
use lp_text::{Bytes, NoMemory};
use std::alloc::Global;
use std::marker::Model;

/// Distinct texts of bytes, in the order in which they first came: contracts see their list.
#[derive(Drop)]
pub struct Table {
    texts: IndexSet<Vec<u8>>,
    alloc: Global,
}

impl Model for Table {
    ghost use Rattle.std.specs.Prelude.{List, ℕ, IsTrue, map};
    ghost use Rattle.lp_text.specs.Texts.{distinct};

    ghost Value = { List (List ℕ) };

    ghost view = { λ t. map (λ text. text.items) t.texts.keys };

    ghost invariant = { λ t. IsTrue (distinct (map (λ text. text.items) t.texts.keys)) };
}

impl Table {
    /// A table with no text, which allocates nothing.
    pub fn new(alloc: Global) -> Table
        ensures { result ≡ [] }
    {
        Table {
            texts: IndexSet::new(alloc),
            alloc,
        }
    }

    /// The number of texts.
    pub fn len(&self) -> usize
        ensures len { result ≡ length self.now }
        ensures distinct { IsTrue (distinct self.now) }
    {
        self.texts.len()
    }

    /// Whether there is no text.
    pub fn is_empty(&self) -> bool
        ensures { result ≡ (length self.now == 0) }
    {
        self.len() == 0
    }

    /// The place of a text, if it is there. Allocates nothing.
    pub fn find(&self, text: &[u8]) -> Option<usize>
        ensures { result ≡ place_of text.now self.now }
    {
        self.texts.get_index_of(text)
    }

    /// The text at a place.
    pub fn text(&self, place: usize) -> &[u8]
        requires { place < length self.now }
        ensures { result.now ≡ slice_index_or self.now place [] }
    {
        let text = self.texts.get_index(place).unwrap();
        text.as_slice()
    }

    /// Adds a text behind the others, and says whether it was new: a text that is there stays where it is.
    ///
    /// # Errors
    ///
    /// Only where a new text is refused its memory: the table stays as it was.
    pub fn add(&mut self, text: &[u8]) -> Result<bool, NoMemory>
        ensures added { IfOk result (λ b. b ≡ not (has_text text.now self.old)) }
        ensures ok { IfOk result (λ b. self.new ≡ (if b then self.old ++ text.now ∷ [] else self.old)) }
        ensures err { OnErr result (self.new ≡ self.old) }
        ensures refused { OnErr result (has_text text.now self.old ≡ false) }
        ensures distinct { IsTrue (distinct self.new) }
    {
        if self.texts.contains(text) {
            return Ok(false);
        }
        let copy = Vec::from_slice(self.alloc, text)?;
        self.texts.insert(copy)?;
        Ok(true)
    }
}

/// Whether no text comes twice.
///
/// Takes time and memory in proportion to the texts.
///
/// # Errors
///
/// Only where memory is refused.
pub fn all_distinct(alloc: Global, texts: &[Bytes]) -> Result<bool, NoMemory>
    ensures { IfOk result (λ b. b ≡ distinct texts.now) }
{
    let mut table = Table::new(alloc);
    for text in texts {
        if !table.add(text.all())? {
            return Ok(false);
        }
    }
    Ok(true)
}
