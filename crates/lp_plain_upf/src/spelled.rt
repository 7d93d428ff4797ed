ghost use Rattle.std.specs.Prelude.{◌≡◌, IfOk};
ghost use Rattle.lp_plain_upf.specs.declared.spelled.Spelled.{Spelled};

use crate::plain::Intent;
use lp_text::{Bytes, NoMemory};
use std::alloc::Global;

/// An intent whose names still stand in its text.
#[derive(Clone, Copy)]
pub struct Spelled<'a> {
    pub power: &'a [u8],
    pub gnd: &'a [u8],
    pub set: &'a [u8],
    pub domain: &'a [u8],
    pub state: &'a [u8],
    /// In microvolts.
    pub voltage: u64,
}

impl Spelled<'_> {
    ghost use Rattle.lp_plain_upf.specs.Spelled.{denoted};

    /// The intent, with names of its own.
    pub fn copied(self, alloc: Global) -> Result<Intent, NoMemory>
        ensures { IfOk result (λ i. i ≡ denoted self.entry) }
    {
        Ok(Intent {
            power: Bytes::copy(alloc, self.power)?,
            gnd: Bytes::copy(alloc, self.gnd)?,
            set: Bytes::copy(alloc, self.set)?,
            domain: Bytes::copy(alloc, self.domain)?,
            state: Bytes::copy(alloc, self.state)?,
            voltage: self.voltage,
        })
    }
}
