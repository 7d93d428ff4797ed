//! The tables of an elaborated netlist, made in one pass over its module instances.
#![tactic(auto)]

mod bits;
mod feeds;
mod graph;
mod inputs;
mod insts;
mod joints;
mod nodes;
mod number;
mod pins;
mod rows;
mod shapes;
mod site;
mod wires;

pub use graph::laid_out;
