ghost use Rattle.std.specs.Prelude.{◌≡◌, [], ◌∷◌, ◌++◌, ◌+◌, ◌<◌, ◌≤◌, ◌↔◌, length, drop, slice_index, flat_map, IsTrue, OnOk};
ghost use Rattle.lp_text.specs.Texts.{text_at};
ghost use Rattle.lp_model.specs.Bits.{run_bits, single_of};
ghost use Rattle.lp_model.specs.NetlistView.{bit_view, bits_view};
ghost use Rattle.lp_verilog_draft.specs.Values.{between, select};
ghost use Rattle.lp_vwrite.specs.Layout.{more_listed, bit_text, bits_text, is_bit_of, are_bits, range_in, whole_of, whole_vector, value_text};
ghost use Rattle.lp_vwrite.specs.Views.{name_at};
ghost use Rattle.lp_vwrite.specs.Whole.{StandsAt, GoesOn};

use crate::name::{is_same, put_name, text_of};
use crate::vectors::Vectors;
use lp_model::{Bit, BitRange, BitWalk, Bits, Run, Shown};
use lp_text::{NameId, Names, NoMemory};
use std::slice;

/// Writes one bit.
fn put_bit(out: &mut Vec<u8>, names: &Names, bit: Bit) -> Result<(), NoMemory>
    ensures { OnOk result (out.new.items ≡ out.old.items ++ bit_text (bit_view names.now bit)) }
{
    match bit {
        Bit::Net(name) => put_name(out, names, name)?,
        Bit::Select(name, index) => {
            let number = index.to_string(*out.allocator())?;
            put_name(out, names, name)?;
            out.extend_from_slice(b"[")?;
            out.extend_from_slice(number.as_bytes())?;
            out.extend_from_slice(b"]")?;
        }
        Bit::Const(true) => out.extend_from_slice(b"1'b1")?,
        Bit::Const(false) => out.extend_from_slice(b"1'b0")?,
    }
    Ok(())
}

/// Whether a bit is that of a net with an index.
fn is_bit_of(names: &Names, name: NameId, index: u32, bit: Bit) -> bool
    ensures { result ≡ is_bit_of (text_at names.now name.0) index (bit_view names.now bit) }
{
    match bit {
        Bit::Select(other, i) => is_same(names, name, other) && index == i,
        _ => false,
    }
}

/// How many indices a range has.
fn size(range: BitRange) -> u64
    ensures { result ≡ length (between range.left range.right) }
{
    u64::from(range.left.max(range.right) - range.left.min(range.right)) + 1
}

/// The index that comes so many steps behind the left one.
fn index_at(range: BitRange, steps: u64) -> u32
    requires { steps < length (between range.left range.right) }
    ensures { result ≡ slice_index (between range.left range.right) steps }
{
    if range.left <= range.right {
        range.left + steps as u32
    } else {
        range.left - steps as u32
    }
}

/// How much further one bit goes on in a vector, so many of whose bits are behind: none where the bit is another one.
fn bit_steps(names: &Names, name: NameId, range: BitRange, done: u64, bit: Bit) -> Option<u64>
    ensures { GoesOn (text_at names.now name.0) (drop done (between range.left range.right)) (bit_view names.now bit ∷ []) result }
{
    if done < size(range) && is_bit_of(names, name, index_at(range, done), bit) {
        Some(1)
    } else {
        None
    }
}

/// Whether the indices from one to another are those of a vector, so many of whose indices are behind.
fn is_along(range: BitRange, done: u64, first: u32, last: u32) -> bool
    requires { done + length (between first last) ≤ length (between range.left range.right) }
    ensures { IsTrue result ↔ StandsAt (between first last) done (between range.left range.right) }
{
    if index_at(range, done) != first {
        false
    } else if first == last {
        true
    } else if first < last {
        range.left <= range.right
    } else {
        range.left > range.right
    }
}

/// How much further the bits of a part go on in a vector.
fn part_steps(
    names: &Names,
    name: NameId,
    range: BitRange,
    done: u64,
    part: (NameId, u32, u32),
) -> Option<u64>
    requires { done ≤ length (between range.left range.right) }
    ensures { GoesOn (text_at names.now name.0) (drop done (between range.left range.right)) (bits_view names.now (select part.0 part.1 part.2)) result }
{
    let (other, first, last) = part;
    let count = Run::Part(other, first, last).width();
    if size(range) - done < count {
        None
    } else if !is_same(names, name, other) {
        None
    } else if !is_along(range, done, first, last) {
        None
    } else {
        Some(count)
    }
}

/// How much further the bits of a run go on in a vector.
fn run_steps(names: &Names, name: NameId, range: BitRange, done: u64, run: Run) -> Option<u64>
    requires { done ≤ length (between range.left range.right) }
    ensures { GoesOn (text_at names.now name.0) (drop done (between range.left range.right)) (bits_view names.now (run_bits run)) result }
{
    match run {
        Run::One(bit) => bit_steps(names, name, range, done, bit),
        Run::Part(other, first, last) => {
            part_steps(names, name, range, done, (other, first, last))
        }
        Run::Digits(_, 0) => Some(0),
        Run::Digits(_, _) => None,
    }
}

/// Whether the bits of runs are all those of a vector, from its left index to its right one.
fn are_bits(names: &Names, name: NameId, range: BitRange, runs: &[Run]) -> bool
    ensures { result ≡ are_bits (text_at names.now name.0) (between range.left range.right) (bits_view names.now (flat_map run_bits runs.now)) }
{
    let all = size(range);
    let mut done = 0;
    for run in runs {
        match run_steps(names, name, range, done, *run) {
            None => return false,
            Some(steps) => done += steps,
        }
    }
    done == all
}

/// Whether these are all bits of a vector, from its left index to its right one. Takes time in proportion to the runs.
fn has_all(names: &Names, name: NameId, range: BitRange, bits: &Bits) -> bool
    ensures { result ≡ are_bits (text_at names.now name.0) (between range.left range.right) (bits_view names.now bits.now) }
{
    match bits.shown() {
        Shown::Nothing => false,
        Shown::One(bit) => are_bits(names, name, range, slice::from_ref(&Run::One(bit))),
        Shown::Many(runs) => are_bits(names, name, range, runs),
    }
}

/// The vector of this name, where these are all its bits.
fn whole_of(names: &Names, vectors: &Vectors, name: NameId, bits: &Bits) -> Option<NameId>
    ensures { name_at names.now result ≡ whole_of (range_in vectors.now) (text_at names.now name.0) (bits_view names.now bits.now) }
{
    match vectors.find(text_of(names, name)) {
        None => None,
        Some(range) => {
            if has_all(names, name, range, bits) {
                Some(name)
            } else {
                None
            }
        }
    }
}

/// The vector of which these are all bits.
fn whole_vector(names: &Names, vectors: &Vectors, bits: &Bits) -> Option<NameId>
    ensures { name_at names.now result ≡ whole_vector (range_in vectors.now) (bits_view names.now bits.now) }
{
    let mut walk = bits.walk();
    match walk.next() {
        Some(Bit::Select(name, _)) => whole_of(names, vectors, name, bits),
        _ => None,
    }
}

fn put_more_bits(out: &mut Vec<u8>, names: &Names, walk: &mut BitWalk<'_>) -> Result<(), NoMemory>
    ensures { OnOk result (out.new.items ≡ out.old.items ++ more_listed bit_text (bits_view names.now walk.old)) }
{
    while let Some(bit) = walk.next() {
        out.extend_from_slice(b", ")?;
        put_bit(out, names, bit)?;
    }
    Ok(())
}

/// Writes bits one by one, of which there is not just one.
fn put_many_bits(out: &mut Vec<u8>, names: &Names, bits: &Bits) -> Result<(), NoMemory>
    requires { single_of bits.now ≡ None }
    ensures { OnOk result (out.new.items ≡ out.old.items ++ bits_text (bits_view names.now bits.now)) }
{
    let mut walk = bits.walk();
    match walk.next() {
        None => Ok(()),
        Some(first) => {
            out.extend_from_slice(b"{")?;
            put_bit(out, names, first)?;
            put_more_bits(out, names, &mut walk)?;
            out.extend_from_slice(b"}")?;
            Ok(())
        }
    }
}

/// Writes bits one by one.
fn put_bits(out: &mut Vec<u8>, names: &Names, bits: &Bits) -> Result<(), NoMemory>
    ensures { OnOk result (out.new.items ≡ out.old.items ++ bits_text (bits_view names.now bits.now)) }
{
    match bits.single() {
        Some(bit) => put_bit(out, names, bit),
        None => put_many_bits(out, names, bits),
    }
}

/// Writes a value: a whole vector by its name.
pub(crate) fn put_value(
    out: &mut Vec<u8>,
    names: &Names,
    vectors: &Vectors,
    bits: &Bits,
) -> Result<(), NoMemory>
    ensures { OnOk result (out.new.items ≡ out.old.items ++ value_text (range_in vectors.now) (bits_view names.now bits.now)) }
{
    match whole_vector(names, vectors, bits) {
        Some(name) => put_name(out, names, name),
        None => put_bits(out, names, bits),
    }
}
