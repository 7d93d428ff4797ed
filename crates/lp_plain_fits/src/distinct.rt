ghost use Rattle.std.specs.Prelude.{◌≡◌, ℕ, ◌==◌, ◌||◌, false, IfOk, slice_index_or};
ghost use Rattle.lp_plain_fits.specs.Numbered.{are_distinct};

use lp_text::NoMemory;
use std::alloc::Global;

/// Whether a number is marked.
fn is_marked(marks: &[bool], number: u32) -> bool
    ensures { result ≡ slice_index_or marks.now number false }
{
    match marks.get(number as usize) {
        Some(marked) => *marked,
        None => false,
    }
}

/// Marks a number.
fn mark(marks: &mut Vec<bool>, number: u32) -> Result<(), NoMemory>
    ensures { IfOk result (λ _. (n : ℕ) → slice_index_or marks.new.items n false ≡ (slice_index_or marks.old.items n false || (n == number))) }
{
    let least = number as usize + 1;
    if marks.len() < least {
        marks.resize(least, false)?;
    }
    marks[number as usize] = true;
    Ok(())
}

/// Whether no number comes twice.
///
/// Takes time in proportion to the numbers, where those are below `count`.
///
/// # Errors
///
/// Only where memory is refused.
pub(crate) fn are_distinct(alloc: Global, count: u32, numbers: &[u32]) -> Result<bool, NoMemory>
    ensures { IfOk result (λ b. b ≡ are_distinct numbers.now) }
{
    let mut marks = vec![in alloc; false; count as usize]?;
    for number in numbers {
        if is_marked(marks.as_slice(), *number) {
            return Ok(false);
        }
        mark(&mut marks, *number)?;
    }
    Ok(true)
}
