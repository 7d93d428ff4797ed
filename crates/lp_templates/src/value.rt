ghost use Rattle.std.specs.Prelude.{◌≡◌, ◌+◌, ◌≤◌, ◌<◌, ◌++◌, [], ◌∷◌, flat_map, IfSome, OnOk};
ghost use Rattle.lp_model.specs.Bits.{run_bits};
ghost use Rattle.lp_spec_faults.specs.Modules.{bit_count};
ghost use Rattle.lp_templates.specs.Ends.{end_of};
ghost use Rattle.lp_templates.specs.Pieces.{piece_places, places_in};
ghost use Rattle.lp_templates.specs.Values.{places_of, part_places};

use crate::piece::Piece;
use crate::place::place_of;
use crate::scope::Scope;
use crate::spot::Spot;
use lp_model::{BitRange, Bits, EdgeFrom, NodeId, Run, Shown};
use lp_text::NoMemory;

/// The piece of a part that goes up, as its range does.
fn upward_part(start: u32, range: BitRange, first: u32, last: u32) -> Piece
    requires order { range.left ≤ range.right }
    requires left { range.left ≤ first }
    requires parts { first ≤ last }
    requires right { last ≤ range.right }
    requires room { start + bit_count (Some range) < 4294967296 }
    ensures { piece_places result ≡ part_places (record { start = start; range = Some range }) first last }
{
    Piece {
        count: last - first + 1,
        from: EdgeFrom::Node(NodeId(start + (first - range.left))),
    }
}

/// The piece of a part that goes down, as its range does.
fn downward_part(start: u32, range: BitRange, first: u32, last: u32) -> Piece
    requires order { range.right < range.left }
    requires left { first ≤ range.left }
    requires parts { last < first }
    requires right { range.right ≤ last }
    requires room { start + bit_count (Some range) < 4294967296 }
    ensures { piece_places result ≡ part_places (record { start = start; range = Some range }) first last }
{
    Piece {
        count: first - last + 1,
        from: EdgeFrom::Node(NodeId(start + (range.left - first))),
    }
}

/// The piece of a part that goes the way of its range.
fn part(spot: Spot, first: u32, last: u32) -> Option<Piece>
    requires { spot.start + bit_count spot.range < 4294967296 }
    ensures { IfSome result (λ p. piece_places p ≡ part_places spot first last) }
{
    let range = spot.range?;
    if range.left <= range.right {
        if range.left <= first && first <= last && last <= range.right {
            return Some(upward_part(spot.start, range, first, last));
        }
        return None;
    }
    if first <= range.left && last < first && range.right <= last {
        return Some(downward_part(spot.start, range, first, last));
    }
    None
}

/// The piece of a run that is a part and goes the way of its range.
fn whole(scope: &Scope, run: Run) -> Option<Piece>
    ensures { IfSome result (λ p. piece_places p ≡ places_of scope.now (run_bits run)) }
{
    match run {
        Run::Part(name, first, last) => part(scope.spot(name)?, first, last),
        Run::One(_) => None,
        Run::Digits(_, _) => None,
    }
}

/// The piece of one place.
fn single(from: EdgeFrom) -> Piece
    requires { end_of from 1 < 4294967296 }
    ensures { piece_places result ≡ from ∷ [] }
{
    Piece { count: 1, from }
}

/// Puts the places of a run's bits behind the others, one by one.
fn push_each(pieces: &mut Vec<Piece>, scope: &Scope, run: Run) -> Result<(), NoMemory>
    ensures { OnOk result (places_in pieces.new.items ≡ places_in pieces.old.items ++ places_of scope.now (run_bits run)) }
{
    for at in 0..run.width() {
        let from = place_of(scope, run.bit(at));
        pieces.push(single(from))?;
    }
    Ok(())
}

/// Puts the places of a run's bits behind the others.
fn push_run(pieces: &mut Vec<Piece>, scope: &Scope, run: Run) -> Result<(), NoMemory>
    ensures { OnOk result (places_in pieces.new.items ≡ places_in pieces.old.items ++ places_of scope.now (run_bits run)) }
{
    match whole(scope, run) {
        Some(piece) => {
            pieces.push(piece)?;
            Ok(())
        }
        None => push_each(pieces, scope, run),
    }
}

/// Puts the places of the bits of runs behind the others.
fn push_runs(pieces: &mut Vec<Piece>, scope: &Scope, runs: &[Run]) -> Result<(), NoMemory>
    ensures { OnOk result (places_in pieces.new.items ≡ places_in pieces.old.items ++ places_of scope.now (flat_map run_bits runs.now)) }
{
    for run in runs {
        push_run(pieces, scope, *run)?;
    }
    Ok(())
}

/// Takes the places of a value's bits in place of those before. Takes time and memory in proportion to its runs, but for
/// constants and parts that go against the way of their range.
pub(crate) fn fill(pieces: &mut Vec<Piece>, scope: &Scope, bits: &Bits) -> Result<(), NoMemory>
    ensures { OnOk result (places_in pieces.new.items ≡ places_of scope.now bits.now) }
{
    pieces.clear();
    match bits.shown() {
        Shown::Nothing => Ok(()),
        Shown::One(bit) => push_run(pieces, scope, Run::One(bit)),
        Shown::Many(runs) => push_runs(pieces, scope, runs),
    }
}
