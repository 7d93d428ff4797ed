//! Three-valued signals and the states of supplies, with the operations that both simulators share.
#![tactic(auto)]

mod supply;
mod tern;

pub use supply::{Rail, SupplyState, choose_supply, level};
pub use tern::{Tern, choose, negate, rise};
