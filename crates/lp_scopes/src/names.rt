ghost use Rattle.std.specs.Prelude.{◌≡◌, ◌<◌, ◌≤◌, length, IfOk, IfSome, option_map};
ghost use Rattle.lp_model.specs.declared.graph.Graph.{Graph};
ghost use Rattle.lp_spec_design.specs.Graph.{when};
ghost use Rattle.lp_spec_intent.specs.Names.{whole_name, instance_at, instance_of, is_cell_instance, is_any_instance, last_part};
ghost use Rattle.lp_scopes.specs.Spots.{IsIndex};
ghost use Rattle.lp_scopes.specs.Paths.{inst_path, scoped_at, leaf_placed, placed_at, OnScope, OnSpot};

use crate::scopes::{Scopes, inst_keys, leaf_keys, longest_of};
use crate::steps::{Spot, standing, stepped};
use crate::walk::{Ends, instance, last_part};
use lp_model::{Graph, InstId, LeafId};
use lp_text::{Names, NoMemory};
use std::alloc::Global;

impl Scopes {
    /// The index of an elaborated netlist. Takes time and memory in proportion to its instances and cell instances.
    ///
    /// # Errors
    ///
    /// Only where memory is refused.
    pub fn new(alloc: Global, names: &Names, graph: &Graph) -> Result<Scopes, NoMemory>
        requires instances { length graph.now.instances ≤ 4294967295 }
        requires leaves { length graph.now.leaves ≤ 4294967295 }
        ensures { IfOk result (IsIndex names.now graph.now.instances graph.now.leaves) }
    {
        let instances = graph.instances.as_slice();
        let longest = longest_of(names, instances);
        Ok(Scopes {
            instances: inst_keys(alloc, instances)?,
            leaves: leaf_keys(alloc, graph.leaves.as_slice())?,
            longest,
        })
    }

    /// The instance that a name gives in a scope, none where it names none: `/` alone is the top, `.` the scope and
    /// `..` its parent (IEEE 1801-2015, hierarchical names). Each step is one by the longest name that a slash follows; it
    /// looks at no more of the text than the longest name of an instance has bytes.
    pub fn instance(
        &self,
        names: &Names,
        graph: &Graph,
        scope: InstId,
        text: &str,
    ) -> Option<InstId>
        ensures path { OnScope names.now graph.now self.now scope (λ s p. option_map (inst_path s) result ≡ instance_of s p text.now) }
        ensures within { OnScope names.now graph.now self.now scope (λ s p. IfSome result (λ i. i.0 < length graph.now.instances)) }
    {
        instance(self, names, graph.instances.as_slice(), scope, text)
    }

    /// Where a name in a scope leads, which is the instance in which its last part is looked up, and that last part. What
    /// power intent makes is found so, since it lives in the scope in which it was made.
    pub fn place<'a>(&self, names: &Names, graph: &Graph, scope: InstId, text: &'a str) -> Spot<'a>
        ensures place { OnScope names.now graph.now self.now scope (λ s p. scoped_at s result ≡ whole_name s p text.now) }
        ensures within { OnScope names.now graph.now self.now scope (λ s p. result.inst.0 < length graph.now.instances) }
    {
        last_part(
            self,
            names,
            graph.instances.as_slice(),
            Ends::Nothing,
            scope,
            text,
        )
    }

    /// Where the name of an element leads: the steps end before what is as a whole the name of an instance or of a cell
    /// instance.
    pub fn part<'a>(&self, names: &Names, graph: &Graph, scope: InstId, text: &'a str) -> Spot<'a>
        ensures place { OnScope names.now graph.now self.now scope (λ s p. scoped_at s result ≡ last_part s (is_any_instance s) p text.now) }
        ensures within { OnScope names.now graph.now self.now scope (λ s p. result.inst.0 < length graph.now.instances) }
    {
        last_part(
            self,
            names,
            graph.instances.as_slice(),
            Ends::Part,
            scope,
            text,
        )
    }

    /// The instance that is named as a whole by what is left of a name: itself, its parent or one that stands in it.
    pub fn instance_at(&self, names: &Names, graph: &Graph, spot: Spot<'_>) -> Option<InstId>
        ensures { OnSpot names.now graph.now self.now spot.entry (λ s a. option_map (inst_path s) result ≡ instance_at s a) }
    {
        let instances = graph.instances.as_slice();
        match stepped(self, names, instances, spot.inst.0, spot.name) {
            Some(inst) => Some(InstId(inst)),
            None => None,
        }
    }

    /// The cell instance that is named as a whole by what is left of a name.
    pub fn cell_at(&self, names: &Names, spot: Spot<'_>) -> Option<LeafId>
        ensures { (g : Graph) → OnSpot names.now g self.now spot.entry (λ s a. option_map (leaf_placed s) result ≡ when (is_cell_instance s a) (placed_at a)) }
    {
        match standing(&self.leaves, names, spot.inst.0, spot.name) {
            Some(leaf) => Some(LeafId(leaf)),
            None => None,
        }
    }
}
