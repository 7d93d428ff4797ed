ghost use Rattle.std.specs.Prelude.{◌≡◌, ◌++◌, OnOk};
ghost use Rattle.lp_templates.specs.Connected.{assign_joints};
ghost use Rattle.lp_templates.specs.Pieces.{joints_of};
ghost use Rattle.lp_templates.specs.Values.{places_of};

use crate::join::join;
use crate::piece::Piece;
use crate::run::Joints;
use crate::scope::Scope;
use crate::value::fill;
use lp_model::Assign;
use lp_text::NoMemory;

/// Two lists of pieces, which are filled again and again.
#[derive(Drop)]
pub(crate) struct Sides {
    pub left: Vec<Piece>,
    pub right: Vec<Piece>,
}

/// Puts what an assign drives behind the others.
fn join_assign(
    joints: &mut Joints,
    sides: &mut Sides,
    scope: &Scope,
    assign: &Assign,
) -> Result<(), NoMemory>
    ensures { OnOk result (joints.new ≡ joints.old ++ joints_of (places_of scope.now assign.now.left) (places_of scope.now assign.now.right)) }
{
    fill(&mut sides.left, scope, &assign.left)?;
    fill(&mut sides.right, scope, &assign.right)?;
    join(joints, sides.left.as_slice(), sides.right.as_slice())
}

/// Puts what the assigns of a module drive behind the others.
pub(crate) fn join_assigns(
    joints: &mut Joints,
    sides: &mut Sides,
    scope: &Scope,
    assigns: &[Assign],
) -> Result<(), NoMemory>
    ensures { OnOk result (joints.new ≡ joints.old ++ assign_joints scope.now assigns.now) }
{
    for assign in assigns {
        join_assign(joints, sides, scope, assign)?;
    }
    Ok(())
}
