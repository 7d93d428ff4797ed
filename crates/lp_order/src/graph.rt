ghost use Rattle.std.specs.Prelude.{◌≡◌, ◌<◌, [], ◌∷◌, ◌++◌, length, slice_index, slice_index_or, ◌==◌, All, IsTrue, OnOk, OnErr, ◌↔◌};
ghost use Rattle.lp_order.specs.Order.{ReadsBelow};

use lp_text::NoMemory;
use std::alloc::Global;
use std::marker::Model;

/// What each key reads, for keys that are the numbers from 0: contracts see the list of the rows.
///
/// The rows lie one behind another, so a row costs 8 bytes and a read 4.
#[derive(Drop)]
pub struct Graph {
    ends: Vec<usize>,
    flat: Vec<u32>,
}

impl Model for Graph {
    ghost use Rattle.std.specs.Prelude.{List, ℕ, length};
    ghost use Rattle.lp_order.specs.Rows.{rows_between, AreEnds};

    ghost Value = { List (List ℕ) };

    ghost view = { λ g. rows_between 0 g.ends.items g.flat.items };

    ghost invariant = { λ g. AreEnds 0 g.ends.items (length g.flat.items) };
}

impl Graph {
    /// A graph with no key.
    pub fn new(alloc: Global) -> Graph
        ensures { result ≡ [] }
    {
        Graph {
            ends: Vec::new(alloc),
            flat: Vec::new(alloc),
        }
    }

    /// The number of keys.
    pub fn len(&self) -> usize
        ensures { result ≡ length self.now }
    {
        self.ends.len()
    }

    /// Whether there is no key.
    pub fn is_empty(&self) -> bool
        ensures { result ≡ (length self.now == 0) }
    {
        self.ends.is_empty()
    }

    /// Adds the next key, which reads the keys of `row`.
    ///
    /// # Errors
    ///
    /// Where memory is refused, the graph stays as it was.
    pub fn push_row(&mut self, row: &[u32]) -> Result<(), NoMemory>
        ensures ok { OnOk result (self.new ≡ self.old ++ row.now ∷ []) }
        ensures err { OnErr result (self.new ≡ self.old) }
    {
        self.ends.reserve(1)?;
        self.flat.extend_from_slice(row)?;
        let end = self.flat.len();
        self.ends.push(end).unwrap();
        Ok(())
    }

    /// The keys that `key` reads.
    pub fn row(&self, key: usize) -> &[u32]
        requires { key < length self.now }
        ensures { result.now ≡ slice_index_or self.now key [] }
    {
        let start = start_of(self.ends.as_slice(), key);
        let end = self.ends[key];
        &self.flat[start..end]
    }

    /// Whether each key that is read has a row, as [`order_of`](crate::order_of) requires.
    pub fn is_closed(&self) -> bool
        ensures { IsTrue result ↔ ReadsBelow (length self.now) self.now }
    {
        let count = self.len();
        for key in 0..count {
            if !are_below(self.row(key), count) {
                return false;
            }
        }
        true
    }
}

/// Whether each of the keys is below the bound.
fn are_below(keys: &[u32], bound: usize) -> bool
    ensures { IsTrue result ↔ All (λ key. key < bound) keys.now }
{
    keys.iter().all(|key| (*key as usize) < bound)
}

/// Where the row of a key starts: at the end of the one before.
fn start_of(ends: &[usize], key: usize) -> usize
    requires { key < length ends.now }
    ensures { result ≡ slice_index (0 ∷ ends.now) key }
{
    if key == 0 { 0 } else { ends[key - 1] }
}
