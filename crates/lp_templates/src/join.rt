ghost use Rattle.std.specs.Prelude.{◌≡◌, ◌<◌, ◌++◌, OnOk};
ghost use Rattle.lp_templates.specs.Ends.{end_of};
ghost use Rattle.lp_templates.specs.Pieces.{places_from, places_in, joints_of};

use crate::cursor::Cursor;
use crate::piece::Piece;
use crate::run::{Joints, Run};
use lp_model::EdgeFrom;
use lp_text::NoMemory;

/// Puts as many joints behind the others, where places are driven and no constant.
fn put(joints: &mut Joints, to: EdgeFrom, from: EdgeFrom, count: u32) -> Result<(), NoMemory>
    ensures { OnOk result (joints.new ≡ joints.old ++ joints_of (places_from to count) (places_from from count)) }
{
    match to {
        EdgeFrom::Node(place) => {
            let to = place.0;
            joints.push(Run { to, count, from })
        }
        EdgeFrom::Const(_) => Ok(()),
    }
}

/// Puts behind the others that each place of some pieces is driven from the place beside it. Takes time in proportion
/// to the pieces.
pub(crate) fn join(joints: &mut Joints, to: &[Piece], from: &[Piece]) -> Result<(), NoMemory>
    ensures { OnOk result (joints.new ≡ joints.old ++ joints_of (places_in to.now) (places_in from.now)) }
{
    let mut driven = Cursor::new(to);
    let mut drivers = Cursor::new(from);
    while let Some(left) = driven.front() {
        let Some(right) = drivers.front() else {
            return Ok(());
        };
        let count = left.count.min(right.count);
        put(joints, left.from, right.from, count)?;
        driven.skip(count);
        drivers.skip(count);
    }
    Ok(())
}
