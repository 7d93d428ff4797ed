//! What the attributes of Liberty groups say: texts, words, numbers and expressions.
#![tactic(auto)]

mod attribute;
mod expression;
mod laws;
mod names;
mod words;

pub use attribute::{has, says, value, values};
pub use expression::expression_over;
pub use laws::expressions_are_read;
pub use names::{known, text_of};
pub use words::{action, area, class, direction, pg_kind, range, shifter_kind};
