ghost use Rattle.std.specs.Prelude.{◌≡◌, [], ◌∷◌, ◌++◌, ◌/◌, ◌%◌, ◌^◌, OnOk, IfOk};
ghost use Rattle.lp_model.specs.Bits.{run_bits};
ghost use Rattle.lp_verilog_draft.specs.Values.{select, whole, constant_bits};

use lp_model::{Bit, BitRange, Bits, Run};
use lp_text::{NameId, NoMemory};
use std::alloc::Global;
use std::marker::Model;
use std::mem;

/// How many digits of a constant stand in one run.
const WORD: u8 = 32;

/// The bits of a value that is read, in runs: contracts see their list.
#[derive(Drop)]
pub struct BitList {
    runs: Vec<Run>,
}

impl Model for BitList {
    ghost use Rattle.std.specs.Prelude.{List};
    ghost use Rattle.std.specs.List.{flat_map};
    ghost use Rattle.lp_model.specs.declared.bits.Bit.{Bit};
    ghost use Rattle.lp_model.specs.Bits.{run_bits};

    ghost Value = { List Bit };

    ghost view = { λ b. flat_map run_bits b.runs.items };
}

/// The 32 binary digits of a number from a place on.
fn word(value: u128, place: u8) -> u32
    ensures { result ≡ value / 2 ^ place % 2 ^ 32 }
{
    if place < 128 {
        ((value >> u32::from(place)) % 4294967296) as u32
    } else {
        0
    }
}

impl BitList {
    /// No bits yet.
    pub fn new(alloc: Global) -> BitList
        ensures { result ≡ [] }
    {
        BitList {
            runs: Vec::new(alloc),
        }
    }

    /// Puts a run behind the others, or there is no memory.
    fn push_run(&mut self, run: Run) -> Result<(), NoMemory>
        ensures { OnOk result (self.new ≡ self.old ++ run_bits run) }
    {
        self.runs.push(run)?;
        Ok(())
    }

    /// Puts a bit behind the others, or there is no memory.
    pub fn push(&mut self, bit: Bit) -> Result<(), NoMemory>
        ensures { OnOk result (self.new ≡ self.old ++ bit ∷ []) }
    {
        self.push_run(Run::One(bit))
    }

    /// Takes all bits out.
    pub fn take(&mut self, alloc: Global) -> Result<Bits, NoMemory>
        ensures taken { IfOk result (λ bits. bits ≡ self.old) }
        ensures empty { self.new ≡ [] }
    {
        let runs = mem::replace(&mut self.runs, Vec::new(alloc));
        Bits::from_runs(alloc, runs)
    }

    /// The bits of a vector from one index to another.
    pub fn push_select(&mut self, name: NameId, i: u32, j: u32) -> Result<(), NoMemory>
        ensures { OnOk result (self.new ≡ self.old ++ select name i j) }
    {
        self.push_run(Run::Part(name, i, j))
    }

    /// All bits of a net.
    pub fn push_whole(&mut self, name: NameId, range: Option<BitRange>) -> Result<(), NoMemory>
        ensures { OnOk result (self.new ≡ self.old ++ whole name range) }
    {
        match range {
            None => self.push(Bit::Net(name)),
            Some(range) => self.push_select(name, range.left, range.right),
        }
    }

    /// The binary digits of a constant.
    pub fn push_constant(&mut self, size: u8, value: u128) -> Result<(), NoMemory>
        ensures { OnOk result (self.new ≡ self.old ++ constant_bits size value) }
    {
        let mut left = size;
        while left > 0 {
            let count = (left - 1) % WORD + 1;
            left -= count;
            self.push_run(Run::Digits(word(value, left), u32::from(count)))?;
        }
        Ok(())
    }
}
