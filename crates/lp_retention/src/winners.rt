ghost use Rattle.std.specs.Prelude.{◌≡◌, ◌≤◌, length, map, IfOk, IfErr};
ghost use Rattle.lp_strategy.specs.Claims.{OnProject};
ghost use Rattle.lp_retention.specs.Best.{kept, won};
ghost use Rattle.lp_retention.specs.Claims.{number_in, HasRetention, IsRetentionFault};

use crate::best::{Best, first_tie, winning};
use crate::ranks::bests;
use lp_model::{DomainMap, Graph, Intent, Refusal, StrategyId, StrategySlot};
use lp_text::NoMemory;
use sqlite_items::Items;
use std::alloc::Global;

/// A strategy's number in 4 bytes.
fn slot_of(number: Option<u32>) -> StrategySlot
    ensures { number_in result ≡ kept number }
{
    match number {
        Some(number) if number < u32::MAX => StrategySlot::of(StrategyId(number)),
        _ => StrategySlot::NONE,
    }
}

/// The winner at each cell instance.
fn slots(alloc: Global, bests: &[Best]) -> Result<Items<StrategySlot>, NoMemory>
    ensures { IfOk result (λ slots. map number_in slots ≡ map won bests.now) }
{
    let mut slots = Items::new(alloc);
    for best in bests {
        slots.push(slot_of(winning(*best)))?;
    }
    Ok(slots)
}

/// For each cell instance the retention strategy that wins there, if it is a register and one does (own rule, after IEEE
/// 1801-2015 set_retention). Takes time in proportion to the instances and cell instances for each retention strategy,
/// and to the elements; 20 bytes a cell instance besides the answer.
///
/// # Errors
///
/// Two retention strategies share the greatest rank at a register: then the first such register, with the first two of
/// them in command order. Or memory is refused.
pub fn retention_winners(
    alloc: Global,
    intent: &Intent,
    graph: &Graph,
    domains: &DomainMap,
) -> Result<Items<StrategySlot>, Refusal>
    requires strategies { length intent.now.strategies ≤ 4294967295 }
    requires leaves { length graph.now.leaves ≤ 4294967295 }
    ensures ok { OnProject intent.now graph.now domains.now.domain_of (λ p. IfOk result (HasRetention p)) }
    ensures err { OnProject intent.now graph.now domains.now.domain_of (λ p. IfErr result (IsRetentionFault p)) }
{
    let strategies = intent.strategies.as_slice();
    let bests = bests(alloc, graph, domains.domain_of.as_slice(), strategies)?;
    if let Some(fault) = first_tie(bests.as_slice()) {
        return Err(Refusal::from(fault));
    }
    let slots = slots(alloc, bests.as_slice())?;
    Ok(slots)
}
