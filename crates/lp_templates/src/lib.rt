//! The bits of each module of a netlist, resolved once: what each port, pin and assign joins, as runs of places.
#![tactic(auto)]

mod assigns;
mod connected;
mod cursor;
mod design;
mod index;
mod join;
mod module;
mod piece;
mod place;
mod ports;
mod row;
mod run;
mod scope;
mod spot;
mod template;
mod templates;
mod value;

pub use run::{Joints, Run};
pub use template::{Child, Shown, Template};
pub use templates::templates_of;
