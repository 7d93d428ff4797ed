//! The grammar of structural Verilog (IEEE 1364-2005, the subset that is read), and what each token does to the netlist.
#![tactic(auto)]

mod grammar;
mod name_set;
mod reader;
mod stepping;
mod symbol;

pub use name_set::NameSet;
pub use reader::Reader;
pub use symbol::{Action, Symbol};
