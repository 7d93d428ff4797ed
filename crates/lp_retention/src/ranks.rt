ghost use Rattle.std.specs.Prelude.{◌≡◌, ◌≤◌, length, IfOk, slice_index_or};
ghost use Rattle.lp_strategy.specs.Elements.{listed};
ghost use Rattle.lp_retention.specs.Best.{none_yet};
ghost use Rattle.lp_retention.specs.Ranks.{reached_by, cells_by, reach_of, level_of, rank_of, better_at, better, with_strategy, bests_from};

use crate::best::{Best, none_yet, offer};
use crate::marks::{is_marked, marked_cells, reached};
use lp_model::{Element, Graph, Leaf, LeafId, Strategy, StrategyKind};
use lp_strategy::is_register_of;
use lp_text::NoMemory;
use sqlite_items::{Items, at};
use std::alloc::Global;

/// What a retention strategy lists and what it excludes.
#[derive(Drop)]
pub(crate) struct Reach {
    /// The instances that it lists, and those below them.
    pub(crate) instances: Items<bool>,
    /// The cell instances that it lists.
    pub(crate) cells: Items<bool>,
    /// The instances that it excludes, and those below them.
    pub(crate) barred: Items<bool>,
    /// The cell instances that it excludes.
    pub(crate) barred_cells: Items<bool>,
    /// Its domain.
    pub(crate) domain: u32,
    /// Whether it lists no elements, so that it is for the whole domain.
    pub(crate) whole: bool,
}

/// What the strategy lists, as instances and those below them.
fn listed_instances(
    alloc: Global,
    graph: &Graph,
    strategy: &Strategy,
) -> Result<Items<bool>, NoMemory>
    ensures { IfOk result (λ it. it ≡ reached_by graph.now (listed strategy.now.elements)) }
{
    match &strategy.elements {
        Some(elements) => reached(alloc, elements.as_slice(), graph.instances.as_slice()),
        None => reached(alloc, &[], graph.instances.as_slice()),
    }
}

/// What the strategy lists, as cell instances.
fn listed_cells(alloc: Global, graph: &Graph, strategy: &Strategy) -> Result<Items<bool>, NoMemory>
    ensures { IfOk result (λ it. it ≡ cells_by graph.now (listed strategy.now.elements)) }
{
    match &strategy.elements {
        Some(elements) => marked_cells(alloc, graph.leaves.len(), elements.as_slice()),
        None => marked_cells(alloc, graph.leaves.len(), &[]),
    }
}

/// What a strategy lists and what it excludes.
fn reach_of(alloc: Global, graph: &Graph, strategy: &Strategy) -> Result<Reach, NoMemory>
    ensures { IfOk result (λ reach. reach ≡ reach_of graph.now strategy.now) }
{
    let instances = listed_instances(alloc, graph, strategy)?;
    let cells = listed_cells(alloc, graph, strategy)?;
    let excluded = strategy.excluded.as_slice();
    let barred = reached(alloc, excluded, graph.instances.as_slice())?;
    let barred_cells = marked_cells(alloc, graph.leaves.len(), excluded)?;
    Ok(Reach {
        instances,
        cells,
        barred,
        barred_cells,
        domain: strategy.domain,
        whole: strategy.elements.is_none(),
    })
}

/// The rank of what lists a register: 3 by its own name, 2 by an instance, 1 for the whole domain, 0 not at all.
fn level_of(whole: bool, cell: bool, inside: bool) -> u32
    ensures { result ≡ level_of whole cell inside }
{
    if whole {
        1
    } else if cell {
        3
    } else if inside {
        2
    } else {
        0
    }
}

/// The rank of a strategy at a cell instance, 0 where it does not apply.
fn rank_of(graph: &Graph, domains: &[u32], reach: &Reach, place: usize, leaf: Leaf) -> u32
    requires { place ≤ 4294967295 }
    ensures { result ≡ rank_of graph.now domains.now reach.now place leaf.inst.0 }
{
    if !is_register_of(graph, domains, reach.domain, LeafId(place as u32)) {
        return 0;
    }
    let inst = leaf.inst.0 as usize;
    if is_marked(reach.barred_cells.as_slice(), place) || is_marked(reach.barred.as_slice(), inst) {
        return 0;
    }
    let cell = is_marked(reach.cells.as_slice(), place);
    level_of(
        reach.whole,
        cell,
        is_marked(reach.instances.as_slice(), inst),
    )
}

/// What was met at a cell instance.
fn best_at(bests: &[Best], place: usize) -> Best
    ensures { result ≡ slice_index_or bests.now place none_yet }
{
    match at(bests, place) {
        Some(best) => *best,
        None => none_yet(),
    }
}

/// With one more strategy, which stands before all that were met.
fn better(
    alloc: Global,
    graph: &Graph,
    domains: &[u32],
    reach: &Reach,
    number: u32,
    bests: &[Best],
) -> Result<Items<Best>, NoMemory>
    requires { length graph.now.leaves ≤ 4294967295 }
    ensures { IfOk result (λ next. next ≡ better graph.now domains.now reach.now number bests.now) }
{
    let mut next = Items::new(alloc);
    for (place, leaf) in graph.leaves.as_slice().iter().enumerate() {
        let rank = rank_of(graph, domains, reach, place, *leaf);
        next.push(offer(number, rank, best_at(bests, place)))?;
    }
    Ok(next)
}

/// With one more strategy of any kind.
fn with_strategy(
    alloc: Global,
    graph: &Graph,
    domains: &[u32],
    strategy: &Strategy,
    number: u32,
    bests: Items<Best>,
) -> Result<Items<Best>, NoMemory>
    requires { length graph.now.leaves ≤ 4294967295 }
    ensures { IfOk result (λ next. next ≡ with_strategy graph.now domains.now strategy.now.kind strategy.now number bests) }
{
    match strategy.kind {
        StrategyKind::Retention => {
            let reach = reach_of(alloc, graph, strategy)?;
            let next = better(alloc, graph, domains, &reach, number, bests.as_slice());
            drop(reach);
            next
        }
        _ => Ok(bests),
    }
}

/// For each cell instance the strategies of the greatest rank.
pub(crate) fn bests(
    alloc: Global,
    graph: &Graph,
    domains: &[u32],
    strategies: &[Strategy],
) -> Result<Items<Best>, NoMemory>
    requires strategies { length strategies.now ≤ 4294967295 }
    requires leaves { length graph.now.leaves ≤ 4294967295 }
    ensures { IfOk result (λ bests. bests ≡ bests_from graph.now domains.now 0 strategies.now) }
{
    let mut bests = Items::from_vec(vec![in alloc; none_yet(); graph.leaves.len()]?);
    for number in (0..strategies.len()).rev() {
        bests = with_strategy(
            alloc,
            graph,
            domains,
            &strategies[number],
            number as u32,
            bests,
        )?;
    }
    Ok(bests)
}
