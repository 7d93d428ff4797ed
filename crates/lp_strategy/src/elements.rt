ghost use Rattle.std.specs.Prelude.{◌≡◌, ◌≤◌, length, IfOk, IfErr, None};
ghost use Rattle.lp_spec_faults.specs.Lines.{first_of};
ghost use Rattle.lp_spec_faults.specs.Strategies.{not_boundary};
ghost use Rattle.lp_strategy.specs.Elements.{misplaced_in, misplaced_from};
ghost use Rattle.lp_strategy.specs.Claims.{OnProject, IsMisplaced};

use crate::sides::is_placed;
use lp_model::{DomainMap, Element, Graph, Intent, Strategy, StrategyFault, StrategyId};

/// The first element of a strategy that names nothing on which the strategy can act.
fn misplaced_in(graph: &Graph, domains: &[u32], strategy: &Strategy) -> Option<Element>
    ensures { result ≡ misplaced_in graph.now domains.now strategy.now }
{
    let Some(elements) = &strategy.elements else {
        return None
    };
    for element in elements.as_slice() {
        if !is_placed(graph, domains, strategy.kind, strategy.domain, *element) {
            return Some(*element);
        }
    }
    None
}

/// The first such element of all strategies, as a fault.
fn first_misplaced(graph: &Graph, domains: &[u32], strategies: &[Strategy]) -> Option<StrategyFault>
    requires { length strategies.now ≤ 4294967295 }
    ensures { result ≡ misplaced_from graph.now domains.now 0 strategies.now }
{
    for (number, strategy) in strategies.iter().enumerate() {
        if let Some(element) = misplaced_in(graph, domains, strategy) {
            let strategy = StrategyId(number as u32);
            return Some(StrategyFault::NotBoundary { strategy, element });
        }
    }
    None
}

/// Tests that each element of a strategy names a boundary instance, port or bit with a side of the strategy's domain,
/// and of a retention strategy a register or a module instance of the domain (own rule, after IEEE 1801-2015
/// set_isolation, set_level_shifter and set_retention). Takes time in proportion to the elements, and no memory.
///
/// # Errors
///
/// The first element that does not, with its strategy, in command order.
pub fn check_elements(
    intent: &Intent,
    graph: &Graph,
    domains: &DomainMap,
) -> Result<(), StrategyFault>
    requires { length intent.now.strategies ≤ 4294967295 }
    ensures ok { OnProject intent.now graph.now domains.now.domain_of (λ p. IfOk result (λ u. first_of (not_boundary p) ≡ None)) }
    ensures err { OnProject intent.now graph.now domains.now.domain_of (λ p. IfErr result (IsMisplaced p)) }
{
    let strategies = intent.strategies.as_slice();
    match first_misplaced(graph, domains.domain_of.as_slice(), strategies) {
        Some(fault) => Err(fault),
        None => Ok(()),
    }
}
