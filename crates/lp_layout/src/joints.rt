ghost use Rattle.std.specs.Prelude.{◌≡◌, OnOk};
ghost use Rattle.lp_templates.specs.Runs.{run_joints};
ghost use Rattle.lp_layout.specs.Wires.{fed};
ghost use Rattle.lp_layout.specs.Fed.{joint_feeds};

use crate::number::{from_at, place};
use crate::wires::Wires;
use lp_model::EdgeKind;
use lp_templates::{Joints, Run};
use lp_text::NoMemory;

/// Leads edges to the places of a run.
fn lead_run(
    wires: &mut Wires,
    to: usize,
    from: usize,
    kind: EdgeKind,
    run: Run,
) -> Result<(), NoMemory>
    ensures { OnOk result (wires.new ≡ fed wires.old (joint_feeds to from kind (run_joints run))) }
{
    for k in 0..run.count {
        let node = place(to, k as usize + run.to as usize);
        let source = from_at(from, k, run.from);
        wires.lead(node, source, kind)?;
    }
    Ok(())
}

/// Leads edges to the places that are driven in an instance that begins at a node, from those of another.
pub(crate) fn lead_all(
    wires: &mut Wires,
    to: usize,
    from: usize,
    kind: EdgeKind,
    joints: &Joints,
) -> Result<(), NoMemory>
    ensures { OnOk result (wires.new ≡ fed wires.old (joint_feeds to from kind joints.now)) }
{
    for run in joints.runs() {
        lead_run(wires, to, from, kind, *run)?;
    }
    Ok(())
}
