ghost use Rattle.std.specs.Prelude.{◌≡◌, ◌+◌, ◌<◌, Some, IfSome};
ghost use Rattle.lp_spec_faults.specs.Modules.{bit_count};
ghost use Rattle.lp_templates.specs.Ends.{end_of};
ghost use Rattle.lp_templates.specs.Numbered.{offset_in, offset_of, place_at, from_place, place_named, place_of};

use crate::scope::Scope;
use crate::spot::Spot;
use lp_model::{Bit, BitRange, EdgeFrom, NodeId};
use lp_text::NameId;

/// How far an index is behind the left one of a range, where it belongs to the range.
fn offset_in(range: BitRange, index: u32) -> Option<u32>
    ensures offset { result ≡ offset_in range index }
    ensures within { IfSome result (λ k. k < bit_count (Some range)) }
{
    if range.left <= range.right {
        if range.left <= index && index <= range.right {
            Some(index - range.left)
        } else {
            None
        }
    } else if range.right <= index && index <= range.left {
        Some(range.left - index)
    } else {
        None
    }
}

/// How far a bit is behind the first one of its port or net, where it is one of its bits.
fn offset_of(range: Option<BitRange>, index: Option<u32>) -> Option<u32>
    ensures offset { result ≡ offset_of range index }
    ensures within { IfSome result (λ k. k < bit_count range) }
{
    match range {
        Some(range) => offset_in(range, index?),
        None => match index {
            Some(_) => None,
            None => Some(0),
        },
    }
}

/// The place of a bit of a port or net.
fn place_at(index: Option<u32>, spot: Spot) -> Option<u32>
    requires { spot.start + bit_count spot.range < 4294967296 }
    ensures place { result ≡ place_at index spot }
    ensures within { IfSome result (λ k. k + 1 < 4294967296) }
{
    let offset = offset_of(spot.range, index)?;
    Some(offset + spot.start)
}

/// A place, where there is one.
fn from_place(place: Option<u32>) -> EdgeFrom
    requires { IfSome place (λ k. k + 1 < 4294967296) }
    ensures from { result ≡ from_place place }
    ensures fits { end_of result 1 < 4294967296 }
{
    match place {
        Some(place) => EdgeFrom::Node(NodeId(place)),
        None => EdgeFrom::Const(true),
    }
}

/// The place of a bit that a name and an index mean.
fn place_named(scope: &Scope, name: NameId, index: Option<u32>) -> EdgeFrom
    ensures from { result ≡ place_named scope.now name.0 index }
    ensures fits { end_of result 1 < 4294967296 }
{
    match scope.spot(name) {
        Some(spot) => from_place(place_at(index, spot)),
        None => EdgeFrom::Const(true),
    }
}

/// The place of a bit, or its constant.
pub(crate) fn place_of(scope: &Scope, bit: Bit) -> EdgeFrom
    ensures from { result ≡ place_of scope.now bit }
    ensures fits { end_of result 1 < 4294967296 }
{
    match bit {
        Bit::Net(name) => place_named(scope, name, None),
        Bit::Select(name, index) => place_named(scope, name, Some(index)),
        Bit::Const(value) => EdgeFrom::Const(value),
    }
}
