ghost use Rattle.std.specs.Prelude.{◌≡◌, ◌<◌, ◌≤◌, ℕ, length, slice_index_or, nat_le};
ghost use Rattle.std.specs.List.{list_all};
ghost use Rattle.std.specs.Bool.{OnTrue};
ghost use Rattle.lp_loops.specs.Loops.{component_of, NeverRises, stays};

use lp_order::Graph;
use lp_text::NoMemory;
use std::alloc::Global;

/// A walk along the reads of a graph, depth first, that numbers strong components as it leaves them. Nothing is claimed
/// of the numbers: whoever uses them judges them by [`never_rises`].
#[derive(Drop)]
struct Walk {
    /// When each key was reached, from 1; 0 for a key that was not.
    reached: Vec<usize>,
    /// The component of each key, from 1; 0 for a key whose component is open.
    components: Vec<usize>,
    /// How many reads of each key were followed.
    followed: Vec<usize>,
    /// The keys from a root to where the walk is.
    path: Vec<usize>,
    /// The keys of open components, in the order in which they were reached.
    open: Vec<usize>,
    /// When the first key of each open component was reached, as far as is known.
    firsts: Vec<usize>,
    /// How many keys were reached.
    keys: usize,
    /// How many components were left.
    closed: usize,
}

/// What a list has at a place: 0 past its end.
fn at(list: &[usize], place: usize) -> usize
    ensures { result ≡ slice_index_or list.now place 0 }
{
    match list.get(place) {
        Some(here) => *here,
        None => 0,
    }
}

/// Puts a value at a place, where the list has it.
fn put(list: &mut [usize], place: usize, value: usize) {
    if place < list.len() {
        list[place] = value;
    }
}

impl Walk {
    /// Takes a key that was not reached to the end of the path, as a component of its own.
    fn reach(&mut self, key: usize) -> Result<(), NoMemory> {
        self.keys = self.keys.saturating_add(1);
        put(self.reached.as_mut_slice(), key, self.keys);
        self.path.push(key)?;
        self.open.push(key)?;
        self.firsts.push(self.keys)?;
        Ok(())
    }

    /// Makes one component of all that were begun after a key that is read again was reached.
    fn join(&mut self, key: usize) {
        let when = at(self.reached.as_slice(), key);
        for _ in 0..self.firsts.len() {
            match self.firsts.last() {
                Some(first) if *first > when => {
                    let _ = self.firsts.pop();
                }
                _ => break,
            }
        }
    }

    /// Leaves the component that was begun with a key.
    fn close(&mut self, first: usize) {
        self.closed = self.closed.saturating_add(1);
        for _ in 0..self.open.len() {
            let Some(key) = self.open.pop() else { break };
            put(self.components.as_mut_slice(), key, self.closed);
            if key == first {
                break;
            }
        }
    }

    /// Leaves the last key of the path, all of whose reads were followed.
    fn leave(&mut self, key: usize) {
        let _ = self.path.pop();
        if self.firsts.last().copied() == Some(at(self.reached.as_slice(), key)) {
            let _ = self.firsts.pop();
            self.close(key);
        }
    }

    /// Takes one step from the last key of the path: false where there is none.
    fn step(&mut self, graph: &Graph) -> Result<bool, NoMemory> {
        let Some(last) = self.path.last().copied() else {
            return Ok(false)
        };
        if last >= graph.len() {
            return Ok(false);
        }
        let next = at(self.followed.as_slice(), last);
        let Some(read) = graph.row(last).get(next) else {
            self.leave(last);
            return Ok(true);
        };
        let read = *read as usize;
        put(self.followed.as_mut_slice(), last, next.saturating_add(1));
        if at(self.reached.as_slice(), read) == 0 {
            self.reach(read)?;
        } else if at(self.components.as_slice(), read) == 0 {
            self.join(read);
        }
        Ok(true)
    }

    /// Follows all that a root leads to.
    fn follow(&mut self, graph: &Graph, root: usize) -> Result<(), NoMemory> {
        if at(self.reached.as_slice(), root) != 0 {
            return Ok(());
        }
        self.reach(root)?;
        for _ in 0..usize::MAX {
            if !self.step(graph)? {
                break;
            }
        }
        Ok(())
    }
}

/// A number for each key, equal along loops, and never higher for a key that is read: strong components as they are
/// left. It is judged by [`never_rises`].
pub(crate) fn components_of(alloc: Global, graph: &Graph) -> Result<Vec<usize>, NoMemory> {
    let count = graph.len();
    let mut walk = Walk {
        reached: vec![in alloc; 0; count]?,
        components: vec![in alloc; 0; count]?,
        followed: vec![in alloc; 0; count]?,
        path: Vec::new(alloc),
        open: Vec::new(alloc),
        firsts: Vec::new(alloc),
        keys: 0,
        closed: 0,
    };
    for root in 0..count {
        walk.follow(graph, root)?;
    }
    Ok(walk.components)
}

/// Whether the keys of a row have no higher component than this one.
fn are_within(components: &[usize], row: &[u32], highest: usize) -> bool
    ensures { result ≡ list_all (λ b. nat_le (component_of components.now b) highest) row.now }
{
    for read in row {
        if at(components, *read as usize) > highest {
            return false;
        }
    }
    true
}

/// Whether no key reads one of a higher component.
#[tactic(auto, using(crate::proofs::Rising::one_more, crate::proofs::Rising::all_keys))]
pub(crate) fn never_rises(graph: &Graph, components: &[usize]) -> bool
    ensures { OnTrue result (NeverRises graph.now components.now) }
{
    for key in 0..graph.len() {
        if !are_within(components, graph.row(key), at(components, key)) {
            return false;
        }
    }
    true
}

/// Whether a key reads one of its own component.
pub(crate) fn stays(graph: &Graph, components: &[usize], key: usize) -> bool
    requires { key < length graph.now }
    ensures { result ≡ stays graph.now components.now key }
{
    let own = at(components, key);
    for read in graph.row(key) {
        if at(components, *read as usize) == own {
            return true;
        }
    }
    false
}
