ghost use Rattle.std.specs.Prelude.{◌≡◌, ◌+◌};
ghost use Rattle.lp_spec_bridge.specs.Templates.{at_start};
ghost use Rattle.lp_layout.specs.Held.{word, byte, held_from};

use lp_model::{EdgeFrom, NodeId};

/// The most that 32 bits hold.
const MOST: usize = 4_294_967_295;

/// A number, up to what 32 bits hold.
pub(crate) fn word(number: usize) -> u32
    ensures { result ≡ word number }
{
    number.min(MOST) as u32
}

/// The number of a pin, up to what 8 bits hold.
pub(crate) fn byte(number: usize) -> u8
    ensures { result ≡ byte number }
{
    number.min(255) as u8
}

/// What comes so many places behind a first one.
pub(crate) fn place(start: usize, steps: usize) -> u32
    ensures { result ≡ word (start + steps) }
{
    word(start.saturating_add(steps))
}

/// What comes so many places behind a place of an instance that begins at a node; a constant stays.
pub(crate) fn from_at(start: usize, steps: u32, from: EdgeFrom) -> EdgeFrom
    ensures { result ≡ held_from (at_start start (at_start steps from)) }
{
    match from {
        EdgeFrom::Node(node) => {
            EdgeFrom::Node(NodeId(place(start, steps as usize + node.0 as usize)))
        }
        EdgeFrom::Const(value) => EdgeFrom::Const(value),
    }
}
