ghost use Rattle.std.specs.Prelude.{◌≡◌, ◌≤◌, length};
ghost use Rattle.lp_retention.specs.Best.{none_yet, offer, winning, tie_by, tie_of, tie_from};

use lp_model::{LeafId, Site, StrategyFault, StrategyId};

/// The strategies of the greatest rank that were met so far. It takes 20 bytes.
#[derive(Clone, Copy)]
pub(crate) struct Best {
    /// The greatest rank, 0 where no strategy was met.
    pub(crate) rank: u32,
    /// The first strategy of that rank, by number.
    pub(crate) first: Option<u32>,
    /// The one after it of that rank, if any.
    pub(crate) second: Option<u32>,
}

/// No strategy was met.
pub(crate) fn none_yet() -> Best
    ensures { result ≡ none_yet }
{
    Best {
        rank: 0,
        first: None,
        second: None,
    }
}

/// Takes one more strategy, which stands before all that were met; with rank 0 it is none.
pub(crate) fn offer(number: u32, rank: u32, best: Best) -> Best
    ensures { result ≡ offer number rank best }
{
    if rank == 0 {
        return best;
    }
    if best.rank < rank {
        return Best {
            rank,
            first: Some(number),
            second: None,
        };
    }
    if best.rank == rank {
        return Best {
            rank,
            first: Some(number),
            second: best.first,
        };
    }
    best
}

/// The strategy whose rank is above that of each other one.
pub(crate) fn winning(best: Best) -> Option<u32>
    ensures { result ≡ winning best }
{
    match best.second {
        Some(_) => None,
        None => best.first,
    }
}

/// Two strategies of the greatest rank at a register.
fn tie_of(register: u32, best: Best) -> Option<StrategyFault>
    ensures { result ≡ tie_of register best }
{
    match (best.first, best.second) {
        (Some(first), Some(second)) => Some(StrategyFault::Tied {
            site: Site::Register(LeafId(register)),
            first: StrategyId(first),
            second: StrategyId(second),
        }),
        _ => None,
    }
}

/// The first register at which two strategies share the greatest rank.
pub(crate) fn first_tie(bests: &[Best]) -> Option<StrategyFault>
    requires { length bests.now ≤ 4294967295 }
    ensures { result ≡ tie_from 0 bests.now }
{
    for (place, best) in bests.iter().enumerate() {
        if let Some(fault) = tie_of(place as u32, *best) {
            return Some(fault);
        }
    }
    None
}
