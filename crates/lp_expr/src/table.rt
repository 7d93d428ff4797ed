ghost use Rattle.std.specs.Prelude.{◌≡◌, ◌≤◌, ◌<◌, ◌+◌, ◌*◌, ◌^◌, ℕ, false, ◌∷◌, length, slice_index_or, IfOk, OnOk};
ghost use Rattle.lp_expr.specs.Formula.{after, truth, digits, top, below};
ghost use Rattle.lp_expr.specs.Table.{is_bit, lane, IsTable};

use crate::step::Step;
use lp_stack::Stack;
use lp_text::NoMemory;
use std::alloc::Global;

/// A word for each of the first 6 variables: bit k is the variable's digit in k.
const PATTERNS: [u64; 6] = [
    0xAAAA_AAAA_AAAA_AAAA,
    0xCCCC_CCCC_CCCC_CCCC,
    0xF0F0_F0F0_F0F0_F0F0,
    0xFF00_FF00_FF00_FF00,
    0xFFFF_0000_FFFF_0000,
    0xFFFF_FFFF_0000_0000,
];

/// The values of the steps for each choice of 0 or 1 for `count` variables, 64 to a word.
///
/// # Errors
///
/// Only where memory is refused.
pub fn table_of(alloc: Global, steps: &[Step], count: usize) -> Result<Vec<u64>, NoMemory>
    requires { count ≤ 12 }
    ensures { IfOk result (λ table. IsTable table.items count steps.now) }
{
    let mut table = Vec::new(alloc);
    for number in 0..words_for(count) {
        table.push(word_at(alloc, steps, count, number)?)?;
    }
    Ok(table)
}

/// The number of words of a table.
fn words_for(count: usize) -> usize
    requires { count ≤ 12 }
    ensures { 2 ^ count ≤ 64 * result }
{
    if count < 6 { 1 } else { 1 << (count - 6) }
}

/// A word of the table, by its number.
fn word_at(alloc: Global, steps: &[Step], count: usize, number: usize) -> Result<u64, NoMemory>
    requires { count ≤ 12 }
    ensures { IfOk result (λ word. (place : ℕ) → place < 64 → is_bit word place ≡ truth steps.now (digits count (number * 64 + place))) }
{
    let mut stack = Stack::new(alloc);
    for step in steps {
        take_step(&mut stack, *step, count, number)?;
    }
    Ok(pop_word(&mut stack))
}

/// Takes a step for the 64 choices of a word at once: a bit of each word on the stack is a value for one choice.
fn take_step(
    stack: &mut Stack<u64>,
    step: Step,
    count: usize,
    number: usize,
) -> Result<(), NoMemory>
    requires { count ≤ 12 }
    ensures { OnOk result ((place : ℕ) → place < 64 → lane place stack.new ≡ after (digits count (number * 64 + place)) step (lane place stack.old)) }
{
    let word = pop_operands(stack, step, count, number);
    stack.push(word)
}

/// Takes the operands of a step off the stack, and gives its value.
fn pop_operands(stack: &mut Stack<u64>, step: Step, count: usize, number: usize) -> u64
    requires { count ≤ 12 }
    ensures { (place : ℕ) → place < 64 → (is_bit result place ∷ lane place stack.new) ≡ after (digits count (number * 64 + place)) step (lane place stack.old) }
{
    match step {
        Step::Variable(variable) => word_of(variable as usize, count, number),
        Step::Constant(true) => u64::MAX,
        Step::Constant(false) => 0,
        Step::Not => !pop_word(stack),
        Step::And => {
            let right = pop_word(stack);
            pop_word(stack) & right
        }
        Step::Or => {
            let right = pop_word(stack);
            pop_word(stack) | right
        }
        Step::Xor => {
            let right = pop_word(stack);
            pop_word(stack) ^ right
        }
    }
}

/// Takes the top off the stack, 0 where it is empty.
fn pop_word(stack: &mut Stack<u64>) -> u64
    ensures top { (place : ℕ) → is_bit result place ≡ top (lane place stack.old) }
    ensures below { (place : ℕ) → lane place stack.new ≡ below (lane place stack.old) }
{
    match stack.pop() {
        Some(word) => word,
        None => 0,
    }
}

/// The values of a variable in a word of the table: 0 where there is no such variable.
fn word_of(variable: usize, count: usize, number: usize) -> u64
    requires { count ≤ 12 }
    ensures { (place : ℕ) → place < 64 → is_bit result place ≡ slice_index_or (digits count (number * 64 + place)) variable false }
{
    if variable >= count {
        return 0;
    }
    if variable < 6 {
        return PATTERNS[variable];
    }
    if (number >> (variable - 6)) & 1 == 1 {
        u64::MAX
    } else {
        0
    }
}
