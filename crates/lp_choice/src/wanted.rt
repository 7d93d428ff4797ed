ghost use Rattle.std.specs.Prelude.{◌≡◌, IfOk};
ghost use Rattle.lp_choice.specs.Wanted.{clamp_steps, either_off_steps, off_steps, of_four, of_two};

use lp_expr::{Expr, Step};
use lp_text::{NameId, NoMemory};
use std::alloc::Global;

/// What a clamp gives, of its data and its enable.
pub(crate) fn clamp_function(alloc: Global, clamp: bool, high: bool) -> Result<Expr, NoMemory>
    ensures { IfOk result (λ e. e ≡ of_two (clamp_steps clamp high)) }
{
    let (data, enable) = (Step::Variable(0), Step::Variable(1));
    match (clamp, high) {
        (true, true) => of_two(alloc, &[data, enable, Step::Or]),
        (true, false) => of_two(alloc, &[data, enable, Step::Not, Step::Or]),
        (false, true) => of_two(alloc, &[data, enable, Step::Not, Step::And]),
        (false, false) => of_two(alloc, &[data, enable, Step::And]),
    }
}

/// Whether a power or its ground is not on.
pub(crate) fn off_function(alloc: Global) -> Result<Expr, NoMemory>
    ensures { IfOk result (λ e. e ≡ of_two off_steps) }
{
    of_two(
        alloc,
        &[Step::Variable(0), Step::Variable(1), Step::And, Step::Not],
    )
}

/// The function with these steps of two things.
fn of_two(alloc: Global, steps: &[Step]) -> Result<Expr, NoMemory>
    ensures { IfOk result (λ e. e ≡ of_two steps.now) }
{
    let variables = Vec::from_slice(alloc, &[NameId(0), NameId(0)])?;
    let steps = Vec::from_slice(alloc, steps)?;
    Ok(Expr::new(alloc, variables, steps)?)
}

/// Whether a power or its ground, of two such pairs, is not on.
pub(crate) fn either_off_function(alloc: Global) -> Result<Expr, NoMemory>
    ensures { IfOk result (λ e. e ≡ of_four either_off_steps) }
{
    let (first, second) = (Step::Variable(0), Step::Variable(1));
    let (third, fourth) = (Step::Variable(2), Step::Variable(3));
    let steps = [
        first,
        second,
        Step::And,
        third,
        fourth,
        Step::And,
        Step::And,
        Step::Not,
    ];
    let variables = Vec::from_slice(alloc, &[NameId(0), NameId(0), NameId(0), NameId(0)])?;
    let steps = Vec::from_slice(alloc, &steps)?;
    Ok(Expr::new(alloc, variables, steps)?)
}
