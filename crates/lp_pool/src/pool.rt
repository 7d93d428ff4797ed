ghost use Rattle.std.specs.Prelude.{◌≡◌, ◌+◌, ◌-◌, ◌*◌, ◌^◌, ◌<◌, ◌≤◌, [], ◌∷◌, ◌++◌, length, take, slice_index_or, IfOk, OnOk, OnErr, IsOk};
ghost use Rattle.std.specs.Borrow.{sem};
ghost use Rattle.std.specs.Vec.Ownership.{FitsInBlock};
ghost use Rattle.lp_pool.specs.Places.{IsSpot, chunk};
ghost use Rattle.lp_pool.specs.Pool.{held, spare, with_record};

use crate::chunk::Chunk;
use crate::key::Key;
use crate::slots::{Base, CHUNK, Records};
use lp_text::NoMemory;
use std::alloc::Global;
use std::marker::Model;
use std_alloc::room::may_hold;

/// Records that keep their slots. A contract sees the list of the records and the number `spare`.
pub struct Pool<T> {
    chunks: Vec<Chunk<T>>,
    len: usize,
    records: Records<T>,
    alloc: Global,
}

impl<T> Model for Pool<T> {
    ghost use Rattle.lp_pool.specs.Pool.{Held, held, held_code, IsPool};

    ghost Value = { Held T };

    ghost coded = { held_code T.code };

    ghost view = { λ p. held p.records.items p.records.spots };

    ghost invariant = { λ p. IsPool p.chunks.items p.len p.records.items p.records.spots };
}

impl<T> Pool<T> {
    ghost use Rattle.lp_pool.specs.PoolLends.{lends_place};

    /// An empty pool, which has no slot. `NoMemory` where a chunk of such records is too large for any block.
    pub fn new(alloc: Global) -> Result<Pool<T>, NoMemory>
        ensures { IfOk result (λ p. p ≡ held [] []) }
    {
        if !may_hold::<T>(CHUNK) {
            return Err(NoMemory);
        }
        Ok(Pool {
            chunks: Vec::new(alloc),
            len: 0,
            records: Records::none(),
            alloc,
        })
    }

    /// How many records there are.
    pub fn len(&self) -> usize
        ensures { result ≡ length self.now.items }
    {
        self.len
    }

    /// How many more records the pool takes without memory.
    pub fn spare(&self) -> usize
        ensures { result ≡ spare self.now }
    {
        self.slots() - self.len
    }

    // How many slots there are.
    fn slots(&self) -> usize
        ensures count { result ≡ length self.now.spots }
        ensures enough { length self.now.items ≤ result }
    {
        self.chunks.len() * CHUNK
    }

    /// Makes room for `n` more records, so that `spare` is at least `n`. On an error nothing changed.
    /// `NoMemory` where the allocator refuses a chunk, or where there would be 2^64 slots.
    pub fn reserve(&mut self, n: usize) -> Result<(), NoMemory>
        ensures items { self.new.items ≡ self.old.items }
        ensures ok { OnOk result (n ≤ spare self.new) }
        ensures err { OnErr result (self.new ≡ self.old) }
        ensures had_room { n ≤ spare self.old → IsOk result × (self.new ≡ self.old) }
        ensures slots_stay { take (length self.old.spots) self.new.spots ≡ self.old.spots }
    {
        let spare = self.spare();
        if n <= spare {
            return Ok(());
        }
        let count = (n - spare - 1) / CHUNK + 1;
        if count > (usize::MAX - self.slots()) / CHUNK {
            return Err(NoMemory);
        }
        let mut added = 0;
        while added < count {
            if self.add_chunk().is_err() {
                self.remove_chunks(added);
                return Err(NoMemory);
            }
            added += 1;
        }
        Ok(())
    }

    fn add_chunk(&mut self) -> Result<(), NoMemory>
        requires { length self.old.spots + chunk < 2 ^ 64 }
        ensures items { self.new.items ≡ self.old.items }
        ensures ok { OnOk result (length self.new.spots ≡ length self.old.spots + chunk) }
        ensures slots_stay { take (length self.old.spots) self.new.spots ≡ self.old.spots }
        ensures err { OnErr result (self.new ≡ self.old) }
    {
        self.chunks.reserve(1)?;
        let (chunk, records) = Chunk::new(&self.alloc)?;
        self.chunks.push_reserved(chunk);
        self.records.join(records);
        Ok(())
    }

    // The last chunk is empty.
    fn remove_chunk(&mut self)
        requires { length self.old.items + chunk ≤ length self.old.spots }
        ensures { self.new ≡ held self.old.items (take (length self.old.spots - chunk) self.old.spots) }
    {
        let chunk = self.chunks.take_last();
        let records = self.records.cut(chunk.base, CHUNK);
        chunk.free(&self.alloc, records);
    }

    fn remove_chunks(&mut self, count: usize)
        requires { length self.old.items + count * chunk ≤ length self.old.spots }
        ensures { self.new ≡ held self.old.items (take (length self.old.spots - count * chunk) self.old.spots) }
    {
        let mut removed = 0;
        while removed < count {
            self.remove_chunk();
            removed += 1;
        }
    }

    pub(crate) fn base_at(&self, place: usize) -> Base<T>
        requires { place < length self.now.spots }
        ensures { IsSpot self.now.spots place result.ptr }
    {
        self.chunks[place / CHUNK].base
    }

    // The chunk of a live key.
    pub(crate) fn base_of(&self, key: Key<T>) -> Base<T>
        requires { key.place < length self.now.items }
        ensures { IsSpot self.now.spots key.place result.ptr }
    {
        // It tells the proof that a live place has a slot.
        let _len = self.len;
        self.base_at(key.place)
    }

    /// Appends a record and gives its key. It takes no memory, and refuses nothing.
    pub fn push(&mut self, value: T) -> Key<T>
        requires { 0 < spare self.old }
        ensures pool { self.new ≡ held (self.old.items ++ value ∷ []) self.old.spots }
        ensures spare { spare self.new + 1 ≡ spare self.old }
        ensures key { result.place ≡ length self.old.items }
    {
        let place = self.len;
        let base = self.base_at(place);
        self.records.write(base, place, value);
        self.len = place + 1;
        Key::at(place)
    }

    /// The record of a key.
    pub fn get(&self, key: Key<T>) -> &T
        requires { key.place < length self.now.items }
        ensures { result.now ≡ slice_index_or self.now.items key.place result.now }
    {
        self.records.get(self.base_of(key), key.place)
    }

    /// The record of a key, to write to.
    pub fn get_mut(&mut self, key: Key<T>) -> &mut T
        requires { key.place < length self.old.items }
        ensures* lends { sem 𝓛 (lends_place T.row self.entry key.place result) }
        ensures value { result.now ≡ slice_index_or self.old.items key.place result.now }
    {
        let base = self.base_of(key);
        self.records.get_mut(base, key.place)
    }

    // Takes the last record out.
    fn pop(&mut self) -> T
        requires { 0 < length self.old.items }
        ensures { (self.old.items ≡ self.new.items ++ result ∷ []) × (self.new.spots ≡ self.old.spots) }
    {
        let place = self.len - 1;
        let base = self.base_at(place);
        self.len = place;
        self.records.read(base, place)
    }
}

impl<T: Drop> Pool<T> {
    fn clear(&mut self)
        ensures { self.new ≡ held [] self.old.spots }
    {
        while self.len() > 0 {
            drop(self.pop());
        }
    }
}

/// Each record is dropped, the last one first. Empty slots hold nothing to drop.
impl<T: Drop> Drop for Pool<T> {
    fn drop(mut self) {
        self.clear();
        let count = self.chunks.len();
        self.remove_chunks(count);
        let Pool {
            chunks,
            len: _,
            records,
            alloc: _,
        } = self;
        chunks.destroy_empty();
        records.end();
    }
}
