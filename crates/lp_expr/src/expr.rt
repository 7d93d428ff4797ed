ghost use Rattle.std.specs.Prelude.{◌≡◌, ◌<◌, ◌≤◌, ◌^◌, [], ◌∷◌, length, vec_len, IfOk};

use crate::step::Step;
use crate::table::table_of;
use lp_text::{NameId, NoMemory};
use std::alloc::Global;
use std::marker::Model;

/// A Boolean expression over at most 12 variables: contracts see its variables and its steps.
#[derive(Drop)]
pub struct Expr {
    /// A bit for each choice of 0 or 1 for the variables, 64 to a word: the first variable is the
    /// least binary digit of the bit's number.
    table: Vec<u64>,
    steps: Vec<Step>,
    variables: Vec<NameId>,
}

impl Model for Expr {
    ghost use Rattle.std.specs.Prelude.{length};
    ghost use Rattle.lp_expr.specs.Formula.{Formula};
    ghost use Rattle.lp_expr.specs.Table.{IsTable};

    ghost Value = { Formula };

    ghost view = { λ e. record { variables = e.variables.items; steps = e.steps.items } };

    ghost invariant = { λ e. IsTable e.table.items (length e.variables.items) e.steps.items };
}

impl Expr {
    ghost use Rattle.lp_tern.specs.declared.tern.Tern.{Tern};
    ghost use Rattle.lp_tern.specs.Values.{negate_of};
    ghost use Rattle.lp_expr.specs.declared.step.Step.TheVariants.{Variable, Not};
    ghost use Rattle.lp_expr.specs.Formula.{truth, digits, value_of};

    /// The expression with these steps over these variables, which the steps name by their places: a
    /// variable that is not among them is 0, and so is an operand that is missing.
    ///
    /// Takes a pass over the steps for each 64 choices of 0 or 1 for the variables.
    ///
    /// # Errors
    ///
    /// Only where memory is refused.
    pub fn new(alloc: Global, variables: Vec<NameId>, steps: Vec<Step>) -> Result<Expr, NoMemory>
        requires { vec_len variables ≤ 12 }
        ensures { IfOk result (λ e. e ≡ record { variables = variables.items; steps = steps.items }) }
    {
        let table = table_of(alloc, steps.as_slice(), variables.len())?;
        Ok(Expr {
            table,
            steps,
            variables,
        })
    }

    /// The expression that is one variable.
    ///
    /// # Errors
    ///
    /// Only where memory is refused.
    pub fn variable(alloc: Global, name: NameId) -> Result<Expr, NoMemory>
        ensures is { IfOk result (λ e. e ≡ record { variables = name ∷ []; steps = Variable 0 ∷ [] }) }
        ensures value { IfOk result (λ e. (t : Tern) → value_of e (t ∷ []) ≡ t) }
    {
        of_steps(alloc, name, &[Step::Variable(0)])
    }

    /// The expression that is the complement of one variable.
    ///
    /// # Errors
    ///
    /// Only where memory is refused.
    pub fn complement(alloc: Global, name: NameId) -> Result<Expr, NoMemory>
        ensures is { IfOk result (λ e. e ≡ record { variables = name ∷ []; steps = Variable 0 ∷ Not ∷ [] }) }
        ensures value { IfOk result (λ e. (t : Tern) → value_of e (t ∷ []) ≡ negate_of t) }
    {
        of_steps(alloc, name, &[Step::Variable(0), Step::Not])
    }

    /// The variables, at most 12, in the order in which they first occur.
    pub fn variables(&self) -> &[NameId]
        ensures is { result.now ≡ self.now.variables }
        ensures few { length self.now.variables ≤ 12 }
    {
        self.variables.as_slice()
    }

    /// The steps, in postfix order.
    pub fn steps(&self) -> &[Step]
        ensures { result.now ≡ self.now.steps }
    {
        self.steps.as_slice()
    }

    /// The number of variables.
    pub(crate) fn count(&self) -> usize
        ensures count { result ≡ length self.now.variables }
        ensures few { result ≤ 12 }
    {
        self.variables.len()
    }

    /// The value where the variables have the binary digits of `place`, the first the least.
    pub(crate) fn bit(&self, place: usize) -> bool
        requires { place < 2 ^ length self.now.variables }
        ensures { result ≡ truth self.now.steps (digits (length self.now.variables) place) }
    {
        (self.table[place / 64] >> (place % 64)) & 1 == 1
    }
}

/// The expression with these steps over one variable.
fn of_steps(alloc: Global, name: NameId, steps: &[Step]) -> Result<Expr, NoMemory>
    ensures { IfOk result (λ e. e ≡ record { variables = name ∷ []; steps = steps.now }) }
{
    let variables = Vec::from_slice(alloc, &[name])?;
    let steps = Vec::from_slice(alloc, steps)?;
    Expr::new(alloc, variables, steps)
}
