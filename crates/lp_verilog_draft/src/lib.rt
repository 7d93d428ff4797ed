//! A module of structural Verilog while it is read: what its names stand for, the value and the instance that are read,
//! and what declarations and uses of a name change.
#![tactic(auto)]

mod bit_list;
mod declaring;
mod draft;
mod scope;
mod stop;
mod value;

pub use bit_list::BitList;
pub use declaring::{Declaring, Form};
pub use draft::{Draft, Joint};
pub use scope::{Entry, Kind, Scope};
pub use stop::{Off, Stop};
pub use value::{Side, Value};
