ghost use Rattle.std.specs.Prelude.{◌≡◌, ◌<◌, ℕ, length, IfOk, MatchOption};
ghost use Rattle.lp_order.specs.Order.{ReadsBelow, Reaches, HasLoop};
ghost use Rattle.lp_loops.specs.Loops.{IsFirstLooped};

use crate::components::{components_of, never_rises, stays};
use crate::search::reads_itself;
use lp_order::Graph;
use lp_text::NoMemory;
use std::alloc::Global;

/// The first key that reads itself, by one read or more.
///
/// Takes time and memory in proportion to the number of keys and reads: strong components are numbered and the numbers
/// judged, and then one search is made from the first key that reads one of its own component.
///
/// # Errors
///
/// Only where memory is refused.
#[tactic(auto, using(crate::proofs::SearchLaws::looped_more, crate::proofs::SearchLaws::looped_none, crate::proofs::Rising::no_loop_below))]
pub fn first_looped(alloc: Global, graph: &Graph) -> Result<Option<usize>, NoMemory>
    requires { ReadsBelow (length graph.now) graph.now }
    ensures { IfOk result (λ o. MatchOption o (¬ HasLoop graph.now) (IsFirstLooped graph.now)) }
{
    let components = components_of(alloc, graph)?;
    let judged = never_rises(graph, components.as_slice());
    for root in 0..graph.len() {
        if judged && !stays(graph, components.as_slice(), root) {
            continue;
        }
        if reads_itself(alloc, graph, root)? {
            return Ok(Some(root));
        }
    }
    Ok(None)
}
