ghost use Rattle.std.specs.Prelude.{◌≡◌, ◌<◌, [], ◌∷◌, ◌++◌, length, reverse, slice_set, vec_len, IfOk, MatchBool, MatchOption};
ghost use Rattle.std.specs.Bool.{OnTrue, OnFalse};
ghost use Rattle.lp_order.specs.Order.{ReadsBelow, IsOrder, HasOrder, HasLoop};
ghost use Rattle.lp_order.specs.Walk.{IsWalk, IsLast, Steps, Finishes};

use crate::graph::Graph;
use lp_text::NoMemory;
use std::alloc::Global;

/// How far a walk has come with a key.
#[derive(Clone, Copy, PartialEq)]
enum Mark {
    /// Not reached so far.
    New,
    /// On the path.
    Open,
    /// Left for good: it leads to no loop.
    Done,
}

/// A walk along the reads of a graph, depth first.
#[derive(Drop)]
struct Walk {
    /// How many reads of each key are still to be followed: those at the front of its row.
    unread: Vec<usize>,
    marks: Vec<Mark>,
    /// The keys that lead from a root to where the walk is, each of which reads the next.
    path: Vec<usize>,
    /// The keys that are done, in the order in which the walk left them.
    done: Vec<usize>,
}

impl Walk {
    /// A walk that has reached no key.
    fn new(alloc: Global, graph: &Graph) -> Result<Walk, NoMemory>
        ensures walk { IfOk result (λ w. IsWalk graph.now w) }
        ensures start { IfOk result (λ w. w.path.items ≡ []) }
    {
        let count = graph.len();
        let mut unread = Vec::with_capacity(alloc, count)?;
        for key in 0..count {
            unread.push(graph.row(key).len())?;
        }
        let marks = vec![in alloc; Mark::New; count]?;
        Ok(Walk {
            unread,
            marks,
            path: Vec::new(alloc),
            done: Vec::with_capacity(alloc, count)?,
        })
    }

    /// Puts a key that the last one reads at the end of the path.
    fn open(&mut self, key: usize) -> Result<(), NoMemory>
        requires { key < vec_len self.old.marks }
        ensures unread { IfOk result (λ _. self.new.unread.items ≡ self.old.unread.items) }
        ensures marks { IfOk result (λ _. self.new.marks.items ≡ slice_set self.old.marks.items key Mark.Open) }
        ensures path { IfOk result (λ _. self.new.path.items ≡ self.old.path.items ++ key ∷ []) }
        ensures done { IfOk result (λ _. self.new.done.items ≡ self.old.done.items) }
    {
        self.path.push(key)?;
        self.marks[key] = Mark::Open;
        Ok(())
    }

    /// Takes the last key, `top`, off the path, for good.
    fn close(&mut self, top: usize) -> Result<(), NoMemory>
        requires marked { top < vec_len self.old.marks }
        requires last { IsLast self.old.path.items top }
        ensures unread { IfOk result (λ _. self.new.unread.items ≡ self.old.unread.items) }
        ensures marks { IfOk result (λ _. self.new.marks.items ≡ slice_set self.old.marks.items top Mark.Done) }
        ensures path { IfOk result (λ _. self.old.path.items ≡ self.new.path.items ++ top ∷ []) }
        ensures done { IfOk result (λ _. self.new.done.items ≡ self.old.done.items ++ top ∷ []) }
    {
        self.done.push(top)?;
        self.marks[top] = Mark::Done;
        let _ = self.path.pop();
        Ok(())
    }

    /// Takes one step from the last key of the path, `top`: false where that closes a loop.
    fn step(&mut self, graph: &Graph, top: usize) -> Result<bool, NoMemory>
        requires below { ReadsBelow (length graph.now) graph.now }
        requires walk { IsWalk graph.now self.old }
        requires last { IsLast self.old.path.items top }
        ensures { IfOk result (λ b. MatchBool b (Steps graph.now self.old self.new) (HasLoop graph.now)) }
    {
        let left = self.unread[top];
        if left == 0 {
            self.close(top)?;
            return Ok(true);
        }
        let read = graph.row(top)[left - 1] as usize;
        match self.marks[read] {
            Mark::New => {
                self.open(read)?;
                Ok(true)
            }
            Mark::Open => Ok(false),
            Mark::Done => {
                self.unread[top] = left - 1;
                Ok(true)
            }
        }
    }

    /// Follows all that `root` leads to: false where there is a loop.
    fn finish(&mut self, graph: &Graph, root: usize) -> Result<bool, NoMemory>
        requires below { ReadsBelow (length graph.now) graph.now }
        requires walk { IsWalk graph.now self.old }
        requires start { self.old.path.items ≡ [] }
        requires root { root < length graph.now }
        ensures { IfOk result (λ b. MatchBool b (Finishes graph.now self.old self.new root) (HasLoop graph.now)) }
    {
        if self.marks[root] != Mark::New {
            return Ok(true);
        }
        self.open(root)?;
        while let Some(top) = self.path.last().copied() {
            if !self.step(graph, top)? {
                return Ok(false);
            }
        }
        Ok(true)
    }
}

/// The keys of the graph in an order in which each comes after all that it reads; none where some key reads
/// itself, by one read or more.
///
/// Takes time and memory in proportion to the number of keys and reads.
///
/// # Errors
///
/// Only where memory is refused.
pub fn order_of(alloc: Global, graph: &Graph) -> Result<Option<Vec<usize>>, NoMemory>
    requires { ReadsBelow (length graph.now) graph.now }
    ensures { IfOk result (λ o. MatchOption o (HasLoop graph.now) (λ keys. IsOrder graph.now (reverse keys.items))) }
{
    let mut walk = Walk::new(alloc, graph)?;
    for root in 0..graph.len() {
        if !walk.finish(graph, root)? {
            return Ok(None);
        }
    }
    Ok(Some(walk.done))
}

/// Whether the keys of the graph have an order in which each comes after all that it reads: if not, some
/// key reads itself, by one read or more.
///
/// Takes time and memory in proportion to the number of keys and reads.
///
/// # Errors
///
/// Only where memory is refused.
pub fn is_ordered(alloc: Global, graph: &Graph) -> Result<bool, NoMemory>
    requires { ReadsBelow (length graph.now) graph.now }
    ensures ordered { IfOk result (λ b. OnTrue b (HasOrder graph.now)) }
    ensures loop_free { IfOk result (λ b. OnTrue b (¬ HasLoop graph.now)) }
    ensures looped { IfOk result (λ b. OnFalse b (HasLoop graph.now)) }
{
    Ok(order_of(alloc, graph)?.is_some())
}
