ghost use Rattle.std.specs.Prelude.{◌≡◌, [], ◌∷◌, ◌≤◌, ◌*◌, ◌^◌, IfOk, IfSome, length, flat_map};
ghost use Rattle.std.specs.List.{list_any};
ghost use Rattle.lp_model.specs.Bits.{run_bits, shown_bits, single_of, is_constant};

use crate::bit_walk::BitWalk;
use crate::run::Run;
use lp_text::{NameId, NoMemory};
use sqlite_items::{Boxed, Items};
use std::alloc::Global;
use std::marker::Model;

/// A bit of a value: a net bit or a constant (IEEE 1364-2005, concatenations, bit-selects and sized constants).
#[derive(Clone, Copy)]
pub enum Bit {
    /// A scalar net.
    Net(NameId),
    /// A bit of a vector net, by its index.
    Select(NameId, u32),
    /// 0 or 1.
    Const(bool),
}

/// Where bits stand.
#[derive(Drop)]
enum Held {
    /// No bit.
    Nothing,
    /// One bit, which takes no memory of its own.
    One(Bit),
    /// Runs of bits in memory of their own.
    Many(Boxed<Items<Run>>),
}

/// Bits as they are held.
#[derive(Clone, Copy)]
pub enum Shown<'a> {
    /// No bit.
    Nothing,
    /// One bit.
    One(Bit),
    /// Runs of bits, one behind another.
    Many(&'a [Run]),
}

/// The bits of a value, the most significant first: contracts see their list.
///
/// It takes 16 bytes. Up to one bit takes no memory of its own, and others take memory by the run and not by the bit.
#[derive(Drop)]
pub struct Bits {
    held: Held,
}

impl Model for Bits {
    ghost use Rattle.std.specs.Prelude.{List};
    ghost use Rattle.lp_model.specs.declared.bits.Bit.{Bit};

    ghost Value = { List Bit };

    ghost use Rattle.lp_model.specs.Bits.{held_bits};

    ghost view = { λ b. held_bits b.held };
}

/// The bit of runs that are one run of one bit.
fn only_bit(runs: &[Run]) -> Option<Bit>
    ensures { IfSome result (λ bit. flat_map run_bits runs.now ≡ bit ∷ []) }
{
    match runs {
        [run] => run.only_bit(),
        _ => None,
    }
}

/// How many bits runs have.
fn width_of(runs: &[Run]) -> u128
    ensures { result ≡ length (flat_map run_bits runs.now) }
{
    let mut width = 0;
    for run in runs {
        width += u128::from(run.width());
    }
    width
}

/// Whether a bit of runs is a constant.
fn have_constant(runs: &[Run]) -> bool
    ensures { result ≡ list_any (λ r. list_any is_constant (run_bits r)) runs.now }
{
    runs.iter().any(|run| run.has_constant())
}

impl Bits {
    /// No bit.
    pub fn new() -> Bits
        ensures { result ≡ [] }
    {
        Bits {
            held: Held::Nothing,
        }
    }

    /// One bit.
    pub fn one(bit: Bit) -> Bits
        ensures { result ≡ bit ∷ [] }
    {
        Bits {
            held: Held::One(bit),
        }
    }

    /// The bits of runs. Gives back the memory of no run, and of one run of one bit.
    ///
    /// # Errors
    ///
    /// Only where memory is refused.
    pub fn from_runs(alloc: Global, runs: Vec<Run>) -> Result<Bits, NoMemory>
        ensures { IfOk result (λ b. b ≡ flat_map run_bits runs.items) }
    {
        if runs.is_empty() {
            return Ok(Bits::new());
        }
        match only_bit(runs.as_slice()) {
            Some(bit) => Ok(Bits::one(bit)),
            None => Ok(Bits {
                held: Held::Many(Boxed::new(alloc, Items::from_vec(runs))?),
            }),
        }
    }

    /// The bits as they are held.
    pub fn shown(&self) -> Shown<'_>
        ensures { shown_bits result ≡ self.now }
    {
        match &self.held {
            Held::Nothing => Shown::Nothing,
            Held::One(bit) => Shown::One(*bit),
            Held::Many(runs) => Shown::Many(runs.get().as_slice()),
        }
    }

    /// A walk over the bits, the most significant first.
    pub fn walk(&self) -> BitWalk<'_>
        ensures { result ≡ self.now }
    {
        match self.shown() {
            Shown::Nothing => BitWalk::new(Run::Digits(0, 0), &[]),
            Shown::One(bit) => BitWalk::new(Run::One(bit), &[]),
            Shown::Many(runs) => BitWalk::new(Run::Digits(0, 0), runs),
        }
    }

    /// How many bits there are. Takes time in proportion to the runs.
    pub fn width(&self) -> u128
        ensures { result ≡ length self.now }
    {
        match self.shown() {
            Shown::Nothing => 0,
            Shown::One(_) => 1,
            Shown::Many(runs) => width_of(runs),
        }
    }

    /// The bit, where there is one and no other. Takes constant time where no run is empty.
    pub fn single(&self) -> Option<Bit>
        ensures { result ≡ single_of self.now }
    {
        let mut walk = self.walk();
        let first = walk.next();
        match walk.next() {
            None => first,
            Some(_) => None,
        }
    }

    /// Whether one of the bits is a constant. Takes time in proportion to the runs.
    pub fn has_constant(&self) -> bool
        ensures { result ≡ list_any is_constant self.now }
    {
        match self.shown() {
            Shown::Nothing => false,
            Shown::One(bit) => matches!(bit, Bit::Const(_)),
            Shown::Many(runs) => have_constant(runs),
        }
    }
}
