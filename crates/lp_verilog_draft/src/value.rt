ghost use Rattle.std.specs.Prelude.{◌≡◌, OnOk, IfOk};
ghost use Rattle.lp_verilog_draft.specs.Values.{is_in, goes_along};
ghost use Rattle.lp_verilog_draft.specs.Steps.{value_side, value_subject, value_select, value_index, value_one, value_many, value_whole, value_constant, value_emptied, no_value};
ghost use Rattle.lp_verilog_draft.specs.Verdicts.{Gives, Goes};

use crate::bit_list::BitList;
use crate::stop::{Off, Stop};
use lp_model::{Bit, BitRange, Bits};
use lp_text::{NameId, NoMemory};
use std::alloc::Global;

/// Where a value stands.
#[derive(Clone, Copy)]
pub enum Side {
    /// On the left side of an assignment.
    Left,
    /// On the right side of an assignment.
    Right,
    /// In a connection.
    Connection,
}

/// The value that is read.
#[derive(Drop)]
pub struct Value {
    pub side: Side,
    /// The name that was read last.
    pub subject: NameId,
    /// Its range, none where it is a scalar.
    pub range: Option<BitRange>,
    /// The first index of a select.
    pub index: u32,
    /// The bits so far, the most significant first.
    pub bits: BitList,
}

fn is_in(range: BitRange, index: u32) -> bool
    ensures { result ≡ is_in range index }
{
    (range.left <= index && index <= range.right) || (range.right <= index && index <= range.left)
}

fn goes_along(range: BitRange, first: u32, second: u32) -> bool
    ensures { result ≡ goes_along range first second }
{
    if range.left <= range.right {
        first <= second
    } else {
        second <= first
    }
}

impl Value {
    /// No value yet.
    pub fn new(alloc: Global) -> Value
        ensures { result ≡ no_value }
    {
        Value {
            side: Side::Connection,
            subject: NameId(u32::MAX),
            range: None,
            index: 0,
            bits: BitList::new(alloc),
        }
    }

    /// Says where the values that follow stand.
    pub fn set_side(&mut self, side: Side)
        ensures { self.new ≡ value_side side self.old }
    {
        self.side = side;
    }

    /// The name that the value goes on with, and its range where it is a vector.
    pub fn set_subject(&mut self, name: NameId, range: Option<BitRange>)
        ensures { self.new ≡ value_subject name range self.old }
    {
        self.subject = name;
        self.range = range;
    }

    /// Takes all bits out.
    pub fn take(&mut self, alloc: Global) -> Result<Bits, NoMemory>
        ensures taken { IfOk result (λ bits. bits ≡ self.old.bits) }
        ensures empty { OnOk result (self.new ≡ value_emptied self.old) }
    {
        self.bits.take(alloc)
    }

    /// Whether the name may have a select.
    pub fn select(&mut self) -> Result<(), Stop>
        ensures { Gives result self.new (value_select self.old) }
    {
        match self.range {
            None => Err(Stop::Off(Off::Syntax)),
            Some(_) => Ok(()),
        }
    }

    /// The first index of a select.
    pub fn set_index(&mut self, index: u32) -> Result<(), Stop>
        ensures { Gives result self.new (value_index index self.old) }
    {
        match self.range {
            Some(range) if is_in(range, index) => {
                self.index = index;
                Ok(())
            }
            _ => Err(Stop::Off(Off::Syntax)),
        }
    }

    /// The bit at the index.
    pub fn one_bit(&mut self) -> Result<(), Stop>
        ensures { Gives result self.new (Goes (value_one self.old)) }
    {
        self.bits.push(Bit::Select(self.subject, self.index))?;
        Ok(())
    }

    /// The bits from the index to a second one.
    pub fn many_bits(&mut self, second: u32) -> Result<(), Stop>
        ensures { Gives result self.new (value_many second self.old) }
    {
        match self.range {
            Some(range) if is_in(range, second) && goes_along(range, self.index, second) => {
                self.bits.push_select(self.subject, self.index, second)?;
                Ok(())
            }
            _ => Err(Stop::Off(Off::Syntax)),
        }
    }

    /// All bits of the name.
    pub fn push_whole(&mut self) -> Result<(), NoMemory>
        ensures { OnOk result (self.new ≡ value_whole self.old) }
    {
        self.bits.push_whole(self.subject, self.range)
    }

    /// A constant.
    pub fn push_constant(&mut self, size: u8, value: u128) -> Result<(), Stop>
        ensures { Gives result self.new (value_constant size value self.old) }
    {
        if matches!(self.side, Side::Left) {
            return Err(Stop::Off(Off::Syntax));
        }
        self.bits.push_constant(size, value)?;
        Ok(())
    }
}
