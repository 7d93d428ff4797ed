//! Which wires are there in the netlist that is written, and what it is that all of them stand.
#![tactic(auto)]
