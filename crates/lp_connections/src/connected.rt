ghost use Rattle.std.specs.Prelude.{◌≡◌, ℕ, ◌<◌, false, [], ◌∷◌, ◌++◌, IfOk, OnOk, slice_index_or, slice_set, vec_len};
ghost use Rattle.lp_places.specs.Places.{has_number};
ghost use Rattle.lp_connections.specs.Rows.{AreMarked};

use lp_text::NoMemory;
use std::alloc::Global;
use std::marker::Model;

/// The names that an instance connects, by their numbers: contracts see the numbers in the order of their coming.
#[derive(Drop)]
pub(crate) struct Connected {
    numbers: Vec<u32>,
    marks: Vec<bool>,
}

impl Model for Connected {
    ghost use Rattle.std.specs.Prelude.{List, ℕ};
    ghost use Rattle.lp_connections.specs.Rows.{AreMarked};

    ghost Value = { List ℕ };

    ghost view = { λ c. c.numbers.items };

    ghost invariant = { λ c. AreMarked c.marks.items c.numbers.items };
}

/// Whether a number is marked.
fn is_marked(marks: &[bool], number: u32) -> bool
    ensures { result ≡ slice_index_or marks.now number false }
{
    match marks.get(number as usize) {
        Some(marked) => *marked,
        None => false,
    }
}

/// Makes room for a number.
fn cover(marks: &mut Vec<bool>, number: u32) -> Result<(), NoMemory>
    ensures same { (n : ℕ) → slice_index_or marks.new.items n false ≡ slice_index_or marks.old.items n false }
    ensures room { OnOk result (number < vec_len marks.new) }
{
    let least = number as usize + 1;
    if marks.len() < least {
        marks.resize(least, false)?;
    }
    Ok(())
}

/// Takes the mark of a number away.
fn unmark(marks: &mut Vec<bool>, number: u32)
    ensures { marks.new.items ≡ slice_set marks.old.items number false }
{
    let number = number as usize;
    if number < marks.len() {
        marks[number] = false;
    }
}

/// Takes the marks of these numbers away.
fn unmark_all(marks: &mut Vec<bool>, numbers: &[u32])
    requires { AreMarked marks.old.items numbers.now }
    ensures { AreMarked marks.new.items [] }
{
    for number in numbers {
        unmark(marks, *number);
    }
}

impl Connected {
    /// No name, with room for the numbers below `count`.
    pub fn new(alloc: Global, count: u32) -> Result<Connected, NoMemory>
        ensures { IfOk result (λ c. c ≡ []) }
    {
        let marks = vec![in alloc; false; count as usize]?;
        Ok(Connected {
            numbers: Vec::new(alloc),
            marks,
        })
    }

    /// Whether a name is connected. Takes constant time.
    pub fn has(&self, number: u32) -> bool
        ensures { result ≡ has_number number self.now }
    {
        is_marked(self.marks.as_slice(), number)
    }

    /// Adds a name.
    pub fn add(&mut self, number: u32) -> Result<(), NoMemory>
        ensures { OnOk result (self.new ≡ self.old ++ number ∷ []) }
    {
        cover(&mut self.marks, number)?;
        self.numbers.push(number)?;
        self.marks[number as usize] = true;
        Ok(())
    }

    /// Takes all names away. Takes time in proportion to them.
    pub fn clear(&mut self)
        ensures { self.new ≡ [] }
    {
        unmark_all(&mut self.marks, self.numbers.as_slice());
        self.numbers.clear();
    }
}
