ghost use Rattle.std.specs.Prelude.{◌≡◌, ◌<◌, ℕ, true, false, [], ◌∷◌, ◌++◌, length, replicate};
ghost use Rattle.std.specs.Prelude.{slice_set, vec_len, IfOk, MatchBool};
ghost use Rattle.lp_order.specs.Order.{ReadsBelow, Reaches};
ghost use Rattle.lp_loops.specs.Search.{is_met, IfNew, IsSearch, Follows};

use lp_order::Graph;
use lp_text::NoMemory;
use std::alloc::Global;

/// A search for a way from a key, the root, back to itself.
#[derive(Drop)]
struct Search {
    met: Vec<bool>,
    /// The keys that were met and are still to be followed.
    waiting: Vec<usize>,
}

/// Whether a key was met.
fn is_met(met: &[bool], key: usize) -> bool
    ensures { result ≡ is_met met.now key }
{
    match met.get(key) {
        Some(here) => *here,
        None => false,
    }
}

impl Search {
    /// A search that has met its root alone.
    fn new(alloc: Global, count: usize, root: usize) -> Result<Search, NoMemory>
        requires { root < count }
        ensures met { IfOk result (λ s. s.met.items ≡ slice_set (replicate count false) root true) }
        ensures waiting { IfOk result (λ s. s.waiting.items ≡ root ∷ []) }
    {
        let mut met = vec![in alloc; false; count]?;
        met[root] = true;
        let mut waiting = Vec::new(alloc);
        waiting.push(root)?;
        Ok(Search { met, waiting })
    }

    /// Meets a key.
    fn meet(&mut self, key: usize) -> Result<(), NoMemory>
        requires { key < vec_len self.old.met }
        ensures met { IfOk result (λ _. self.new.met.items ≡ slice_set self.old.met.items key true) }
        ensures waiting { IfOk result (λ _. self.new.waiting.items ≡ self.old.waiting.items ++ key ∷ []) }
    {
        self.waiting.push(key)?;
        self.met[key] = true;
        Ok(())
    }

    /// Meets a key that does not stand before the root and was not met.
    fn pass(&mut self, root: usize, key: usize) -> Result<(), NoMemory>
        requires { key < vec_len self.old.met }
        ensures before { IfOk result (λ _. key < root → self.new ≡ self.old) }
        ensures again { IfOk result (λ _. is_met self.old.met.items key ≡ true → self.new ≡ self.old) }
        ensures met { IfOk result (λ _. IfNew root self.old key (self.new.met.items ≡ slice_set self.old.met.items key true)) }
        ensures waiting { IfOk result (λ _. IfNew root self.old key (self.new.waiting.items ≡ self.old.waiting.items ++ key ∷ [])) }
    {
        if key < root {
            return Ok(());
        }
        if is_met(self.met.as_slice(), key) {
            return Ok(());
        }
        self.meet(key)
    }

    /// Meets what a key reads, but for what stands before the root: true where that is the root.
    fn follow(&mut self, graph: &Graph, root: usize, key: usize) -> Result<bool, NoMemory>
        requires below { ReadsBelow (length graph.now) graph.now }
        requires search { IsSearch graph.now root self.old.met.items (key ∷ self.old.waiting.items) }
        requires key { key < length graph.now }
        ensures { IfOk result (λ b. MatchBool b (Reaches graph.now root root) (Follows graph.now root self.old self.new)) }
    {
        for read in graph.row(key) {
            let next = *read as usize;
            if next == root {
                return Ok(true);
            }
            self.pass(root, next)?;
        }
        Ok(false)
    }
}

/// Whether a key reads itself, by one read or more, where none before it does.
pub(crate) fn reads_itself(alloc: Global, graph: &Graph, root: usize) -> Result<bool, NoMemory>
    requires below { ReadsBelow (length graph.now) graph.now }
    requires root { root < length graph.now }
    requires before { (b : ℕ) → b < root → Reaches graph.now b b → ⊥ }
    ensures { IfOk result (λ b. MatchBool b (Reaches graph.now root root) (¬ Reaches graph.now root root)) }
{
    let mut search = Search::new(alloc, graph.len(), root)?;
    while let Some(key) = search.waiting.pop() {
        if search.follow(graph, root, key)? {
            return Ok(true);
        }
    }
    Ok(false)
}
