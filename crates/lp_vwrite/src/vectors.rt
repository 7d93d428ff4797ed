ghost use Rattle.std.specs.Prelude.{◌≡◌, [], ◌∷◌, ◌++◌, OnOk};
ghost use Rattle.lp_vwrite.specs.Layout.{SameRanges, range_in};

use indexmap::IndexMap;
use lp_model::BitRange;
use lp_text::NoMemory;
use std::alloc::Global;
use std::marker::Model;

/// The ranges of the vectors of a module, by the texts of their names: contracts see their list.
#[derive(Drop)]
pub(crate) struct Vectors {
    ranges: IndexMap<String, BitRange>,
    alloc: Global,
}

impl Model for Vectors {
    ghost use Rattle.std.specs.Prelude.{List, ℕ, map};
    ghost use Rattle.std.specs.String.{string_bytes};
    ghost use Rattle.lp_model.specs.declared.netlist.BitRange.{BitRange};

    ghost Value = { List (List ℕ × BitRange) };

    ghost view = { λ s. map (λ e. (string_bytes e.0, e.1)) s.ranges.entries };
}

impl Vectors {
    pub(crate) fn new(alloc: Global) -> Vectors
        ensures { result ≡ [] }
    {
        Vectors {
            ranges: IndexMap::new(alloc),
            alloc,
        }
    }

    /// The range of a name.
    pub(crate) fn find(&self, name: &str) -> Option<BitRange>
        ensures { result ≡ range_in self.now name.now }
    {
        self.ranges.get(name).copied()
    }

    /// Gives a name its range, where it has none yet.
    pub(crate) fn add(&mut self, name: &str, range: BitRange) -> Result<(), NoMemory>
        ensures { OnOk result (SameRanges self.new (self.old ++ (name.now, range) ∷ [])) }
    {
        if self.find(name).is_none() {
            let copy = String::from_str(self.alloc, name)?;
            self.ranges.insert(copy, range)?;
        }
        Ok(())
    }
}
