ghost use Rattle.std.specs.Prelude.{◌≡◌, [], ◌∷◌, ◌++◌, flat_map, MatchOption};
ghost use Rattle.lp_model.specs.Bits.{run_bits, BeginsFilled};

use crate::bits::Bit;
use crate::run::Run;
use std::marker::Model;

/// A walk over bits, which takes no memory by the bit: contracts see the bits that are left.
#[derive(Drop)]
pub struct BitWalk<'a> {
    /// The run that the walk is in.
    run: Run,
    /// How many of its bits are behind.
    done: u64,
    /// The runs that follow.
    later: &'a [Run],
}

impl<'a> Model for BitWalk<'a> {
    ghost use Rattle.std.specs.Prelude.{List, ◌++◌, drop, flat_map};
    ghost use Rattle.lp_model.specs.declared.bits.Bit.{Bit};

    ghost Value = { List Bit };

    ghost use Rattle.lp_model.specs.Bits.{run_bits};

    ghost view = { λ w. drop w.done (run_bits w.run) ++ flat_map run_bits w.later.now };
}

/// The runs from the first one on that has a bit.
fn filled(runs: &[Run]) -> &[Run]
    ensures same { flat_map run_bits result.now ≡ flat_map run_bits runs.now }
    ensures first { BeginsFilled result.now }
{
    for k in 0..runs.len() {
        if runs[k].width() > 0 {
            return &runs[k..];
        }
    }
    &[]
}

impl<'a> BitWalk<'a> {
    /// A walk over the bits of a run and of those behind it.
    pub(crate) fn new(run: Run, later: &'a [Run]) -> BitWalk<'a>
        ensures { result ≡ run_bits run ++ flat_map run_bits later.now }
    {
        BitWalk {
            run,
            done: 0,
            later,
        }
    }

    /// The next bit, if there is one. Takes constant time where no run is empty.
    pub fn next(&mut self) -> Option<Bit>
        ensures { MatchOption result ((self.old ≡ []) × (self.new ≡ [])) (λ bit. self.old ≡ bit ∷ self.new) }
    {
        if self.done < self.run.width() {
            let bit = self.run.bit(self.done);
            self.done += 1;
            return Some(bit);
        }
        match filled(self.later) {
            [] => None,
            [run, later @ ..] => {
                self.run = *run;
                self.done = 1;
                self.later = later;
                Some(run.bit(0))
            }
        }
    }
}
