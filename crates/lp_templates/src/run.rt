ghost use Rattle.std.specs.Prelude.{◌≡◌, [], ◌∷◌, ◌++◌, flat_map, OnOk, OnErr};
ghost use Rattle.lp_templates.specs.Runs.{run_joints};

use lp_model::EdgeFrom;
use lp_text::NoMemory;
use std::alloc::Global;
use std::marker::Model;

/// Places that are driven one after another. It takes 16 bytes.
#[derive(Clone, Copy)]
pub struct Run {
    /// The first place.
    pub to: u32,
    /// How many places there are.
    pub count: u32,
    /// What they are driven from: each from the next place, from this one on, or all from one constant.
    pub from: EdgeFrom,
}

/// Places that are driven, with what each comes from: contracts see them one by one.
#[derive(Drop)]
pub struct Joints {
    runs: Vec<Run>,
}

impl Model for Joints {
    ghost use Rattle.std.specs.Prelude.{List, flat_map};
    ghost use Rattle.lp_spec_layout.specs.Parts.{Joint};
    ghost use Rattle.lp_templates.specs.Runs.{run_joints};

    ghost Value = { List Joint };

    ghost view = { λ j. flat_map run_joints j.runs.items };
}

impl Joints {
    /// No place.
    pub fn new(alloc: Global) -> Joints
        ensures { result ≡ [] }
    {
        Joints {
            runs: Vec::new(alloc),
        }
    }

    /// Puts a run behind the others.
    ///
    /// # Errors
    ///
    /// Only where memory is refused: the places are as before.
    pub fn push(&mut self, run: Run) -> Result<(), NoMemory>
        ensures ok { OnOk result (self.new ≡ self.old ++ run_joints run) }
        ensures err { OnErr result (self.new ≡ self.old) }
    {
        self.runs.push(run)?;
        Ok(())
    }

    /// The runs, one behind another.
    pub fn runs(&self) -> &[Run]
        ensures { flat_map run_joints result.now ≡ self.now }
    {
        self.runs.as_slice()
    }
}
