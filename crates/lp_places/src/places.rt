ghost use Rattle.std.specs.Prelude.{◌≡◌, ℕ, ◌+◌, ◌<◌, [], ◌∷◌, ◌++◌, length, IfOk, OnOk, OnErr, slice_index_or, vec_len};
ghost use Rattle.lp_places.specs.Places.{place_of_number, marked};

use lp_text::NoMemory;
use std::alloc::Global;
use std::marker::Model;

/// What stands for no place.
const NONE: u32 = u32::MAX;

/// Numbers with the first place of each: contracts see the numbers.
#[derive(Drop)]
pub struct Places {
    numbers: Vec<u32>,
    firsts: Vec<u32>,
}

impl Model for Places {
    ghost use Rattle.std.specs.Prelude.{List, ℕ};
    ghost use Rattle.lp_places.specs.Places.{IsPlaces};

    ghost Value = { List ℕ };

    ghost view = { λ p. p.numbers.items };

    ghost invariant = { λ p. IsPlaces p.firsts.items p.numbers.items };
}

/// What is noted for a number.
fn first(firsts: &[u32], number: u32) -> u32
    ensures { result ≡ slice_index_or firsts.now number 4294967295 }
{
    match firsts.get(number as usize) {
        Some(first) => *first,
        None => NONE,
    }
}

/// Makes room for a number.
fn cover(firsts: &mut Vec<u32>, number: u32) -> Result<(), NoMemory>
    ensures same { (n : ℕ) → slice_index_or firsts.new.items n 4294967295 ≡ slice_index_or firsts.old.items n 4294967295 }
    ensures room { OnOk result (number < vec_len firsts.new) }
{
    let least = number as usize + 1;
    if firsts.len() < least {
        firsts.resize(least, NONE)?;
    }
    Ok(())
}

/// Notes the place of a number that has none yet.
fn mark(firsts: &mut Vec<u32>, number: u32, place: u32)
    requires { number < vec_len firsts.old }
    ensures { firsts.new.items ≡ marked firsts.old.items number place }
{
    let number = number as usize;
    if firsts[number] == NONE {
        firsts[number] = place;
    }
}

impl Places {
    /// No number, with room for those below `count`.
    ///
    /// # Errors
    ///
    /// Only where memory is refused.
    pub fn new(alloc: Global, count: u32) -> Result<Places, NoMemory>
        ensures { IfOk result (λ p. p ≡ []) }
    {
        let firsts = vec![in alloc; NONE; count as usize]?;
        Ok(Places {
            numbers: Vec::new(alloc),
            firsts,
        })
    }

    /// Adds a number behind the others.
    ///
    /// # Errors
    ///
    /// Only where memory is refused: the numbers are as before.
    pub fn push(&mut self, number: u32) -> Result<(), NoMemory>
        requires { length self.old + 1 < 4294967295 }
        ensures ok { OnOk result (self.new ≡ self.old ++ number ∷ []) }
        ensures err { OnErr result (self.new ≡ self.old) }
    {
        let place = self.len() as u32;
        cover(&mut self.firsts, number)?;
        self.numbers.push(number)?;
        mark(&mut self.firsts, number, place);
        Ok(())
    }

    /// The first place of a number.
    pub fn find(&self, number: u32) -> Option<u32>
        ensures { result ≡ place_of_number number self.now }
    {
        let place = first(self.firsts.as_slice(), number);
        if place == NONE { None } else { Some(place) }
    }

    /// How many numbers there are.
    pub fn len(&self) -> usize
        ensures { result ≡ length self.now }
    {
        self.numbers.len()
    }
}
