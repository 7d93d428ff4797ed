//! Boolean expressions of Liberty and UPF texts, and their values where signals may be unknown.
#![tactic(auto)]

mod bytes;
mod compare;
mod dialect;
mod evaluate;
mod expr;
mod laws;
mod number;
mod parts;
mod read;
mod reader;
mod step;
mod table;

pub use compare::same;
pub use dialect::Dialect;
pub use evaluate::value;
pub use expr::Expr;
pub use laws::{always_one, always_zero, one_expression, one_place, postfix_computes};
pub use read::{ExprFault, read_control, read_liberty};
pub use step::Step;
