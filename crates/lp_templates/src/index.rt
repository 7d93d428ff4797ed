ghost use Rattle.std.specs.Prelude.{◌≡◌, ℕ, ◌<◌, [], ◌∷◌, ◌++◌, IfOk, OnOk, slice_index_or, slice_set, vec_len};
ghost use Rattle.lp_places.specs.Places.{place_of_number};
ghost use Rattle.lp_templates.specs.Indexes.{IsIndex};

use lp_text::NoMemory;
use sqlite_items::at;
use std::alloc::Global;
use std::marker::Model;

/// Numbers with the first place of each, which are taken away without a look at each: contracts see the numbers.
#[derive(Drop)]
pub(crate) struct Index {
    numbers: Vec<u32>,
    /// By number; where it is no number of the list, any place stands.
    firsts: Vec<usize>,
}

impl Model for Index {
    ghost use Rattle.std.specs.Prelude.{List, ℕ};
    ghost use Rattle.lp_templates.specs.Indexes.{IsIndex};

    ghost Value = { List ℕ };

    ghost view = { λ x. x.numbers.items };

    ghost invariant = { λ x. IsIndex x.firsts.items x.numbers.items };
}

/// What is noted for a number.
fn noted(firsts: &[usize], number: u32) -> usize
    ensures { result ≡ slice_index_or firsts.now number 0 }
{
    match firsts.get(number as usize) {
        Some(place) => *place,
        None => 0,
    }
}

/// Makes room for a number.
fn cover(firsts: &mut Vec<usize>, number: u32) -> Result<(), NoMemory>
    ensures same { (n : ℕ) → slice_index_or firsts.new.items n 0 ≡ slice_index_or firsts.old.items n 0 }
    ensures room { OnOk result (number < vec_len firsts.new) }
{
    let least = number as usize + 1;
    if firsts.len() < least {
        firsts.resize(least, 0)?;
    }
    Ok(())
}

/// The place of a number, where it is the one that is noted.
fn found(numbers: &[u32], firsts: &[usize], number: u32) -> Option<usize>
    requires { IsIndex firsts.now numbers.now }
    ensures { result ≡ place_of_number number numbers.now }
{
    let place = noted(firsts, number);
    match at(numbers, place) {
        Some(other) => { if *other == number { Some(place) } else { None } }
        None => None,
    }
}

/// Puts a number behind the others, where it is another.
fn add(numbers: &mut Vec<u32>, firsts: &mut Vec<usize>, number: u32) -> Result<(), NoMemory>
    requires { IsIndex firsts.old.items numbers.old.items }
    ensures index { IsIndex firsts.new.items numbers.new.items }
    ensures ok { OnOk result (numbers.new.items ≡ numbers.old.items ++ number ∷ []) }
{
    let place = numbers.as_slice().len();
    let known = found(numbers.as_slice(), firsts.as_slice(), number).is_some();
    cover(firsts, number)?;
    numbers.push(number)?;
    if !known {
        firsts[number as usize] = place;
    }
    Ok(())
}

impl Index {
    /// No number, with room for those below `count`.
    pub fn new(alloc: Global, count: u32) -> Result<Index, NoMemory>
        ensures { IfOk result (λ x. x ≡ []) }
    {
        let firsts = vec![in alloc; 0; count as usize]?;
        Ok(Index {
            numbers: Vec::new(alloc),
            firsts,
        })
    }

    /// Takes all numbers away. Takes constant time.
    pub fn clear(&mut self)
        ensures { self.new ≡ [] }
    {
        self.numbers.clear();
    }

    /// Puts a number behind the others.
    pub fn push(&mut self, number: u32) -> Result<(), NoMemory>
        ensures { OnOk result (self.new ≡ self.old ++ number ∷ []) }
    {
        add(&mut self.numbers, &mut self.firsts, number)
    }

    /// The first place of a number. Takes constant time.
    pub fn find(&self, number: u32) -> Option<usize>
        ensures { result ≡ place_of_number number self.now }
    {
        found(self.numbers.as_slice(), self.firsts.as_slice(), number)
    }
}
