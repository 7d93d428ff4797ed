ghost use Rattle.std.specs.Prelude.{◌≡◌, ◌<◌, List, ℕ, nat_lt, true, false, length, IfOk};
ghost use Rattle.std.specs.List.Sorted.{IsNonDecreasingBy, IsPartitionPoint};
ghost use Rattle.lp_places.specs.Places.{place_of_number};
ghost use Rattle.lp_connections.specs.Rows.{entries_from, entry_key, entry_name, IsRow};

use lp_text::NoMemory;
use sqlite_items::at;
use std::alloc::Global;
use std::marker::Model;

/// How many places there are.
const SPAN: u64 = 4_294_967_296;

/// A name by its number, with its place.
#[derive(Clone, Copy)]
pub(crate) struct Entry {
    name: u32,
    place: u32,
}

/// Names by their numbers, sorted for look-up: contracts see the numbers in their own order.
#[derive(Drop)]
pub(crate) struct NameRow {
    numbers: Vec<u32>,
    entries: Vec<Entry>,
}

impl Model for NameRow {
    ghost use Rattle.std.specs.Prelude.{List, ℕ};
    ghost use Rattle.lp_connections.specs.Rows.{IsRow};

    ghost Value = { List ℕ };

    ghost view = { λ r. r.numbers.items };

    ghost invariant = { λ r. IsRow r.entries.items r.numbers.items };
}

/// By this entries are sorted.
fn key(entry: &Entry) -> u64
    ensures { result ≡ entry_key entry.now }
{
    entry.name as u64 * SPAN + entry.place as u64
}

/// Each number with its place.
fn entries_of(alloc: Global, numbers: &[u32]) -> Result<Vec<Entry>, NoMemory>
    requires { length numbers.now < 4294967296 }
    ensures { IfOk result (λ es. es.items ≡ entries_from 0 numbers.now) }
{
    let mut entries = Vec::with_capacity(alloc, numbers.len())?;
    for (place, number) in numbers.iter().enumerate() {
        entries.push(Entry {
            name: *number,
            place: place as u32,
        })?;
    }
    Ok(entries)
}

/// Each number with its place, sorted.
fn sorted_entries(alloc: Global, numbers: &[u32]) -> Result<Vec<Entry>, NoMemory>
    requires { length numbers.now < 4294967296 }
    ensures { IfOk result (λ es. IsRow es.items numbers.now) }
{
    let mut entries = entries_of(alloc, numbers)?;
    entries.sort_unstable_by_key(|entry| key(entry));
    Ok(entries)
}

/// The place behind the entries of lesser names.
fn start_of(entries: &[Entry], number: u32) -> usize
    requires { IsNonDecreasingBy entry_name entries.now }
    ensures { IsPartitionPoint (λ e. nat_lt e.name number ≡ true) (λ e. nat_lt e.name number ≡ false) entries.now result }
{
    entries.partition_point(|entry| entry.name < number)
}

/// The place of a name.
fn place_in(entries: &[Entry], number: u32) -> Option<u32>
    requires { IsNonDecreasingBy entry_name entries.now }
    ensures { (numbers : List ℕ) → IsRow entries.now numbers → result ≡ place_of_number number numbers }
{
    let start = start_of(entries, number);
    match at(entries, start) {
        Some(entry) => {
            if entry.name == number {
                Some(entry.place)
            } else {
                None
            }
        }
        None => None,
    }
}

impl NameRow {
    /// A row of names. Takes n log n time.
    pub fn new(alloc: Global, numbers: Vec<u32>) -> Result<NameRow, NoMemory>
        requires { length numbers.items < 4294967296 }
        ensures { IfOk result (λ r. r ≡ numbers.items) }
    {
        let entries = sorted_entries(alloc, numbers.as_slice())?;
        Ok(NameRow { numbers, entries })
    }

    /// The first place of a name. Takes time by the logarithm of the names.
    pub fn find(&self, number: u32) -> Option<u32>
        ensures { result ≡ place_of_number number self.now }
    {
        place_in(self.entries.as_slice(), number)
    }
}
