ghost use Rattle.std.specs.Prelude.{◌≡◌, ◌<◌, length};
ghost use Rattle.lp_connections.specs.Numbered.{found_at, uneven_assign, assign_fault};

use lp_model::{Assign, JoinRef, NetlistFault};
use lp_text::NameId;

/// The number of the first assign whose sides have different numbers of bits.
fn first_uneven(assigns: &[Assign]) -> Option<u32>
    requires { length assigns.now < 4294967295 }
    ensures { result ≡ found_at uneven_assign 0 assigns.now }
{
    for (at, assign) in assigns.iter().enumerate() {
        if assign.left.width() != assign.right.width() {
            return Some(at as u32);
        }
    }
    None
}

/// The sides of an assign have different numbers of bits.
pub(crate) fn assign_fault(parent: NameId, assigns: &[Assign]) -> Option<NetlistFault>
    requires { length assigns.now < 4294967295 }
    ensures { result ≡ assign_fault parent assigns.now }
{
    match first_uneven(assigns) {
        Some(number) => {
            let join = JoinRef::Assign(number);
            Some(NetlistFault::Width { parent, join })
        }
        None => None,
    }
}
