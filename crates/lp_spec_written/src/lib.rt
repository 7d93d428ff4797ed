//! Which netlist an insertion writes: its modules, their ports, wires, instances and assigns in their orders, the names
//! of what is added, and the wires by which supplies and controls go.
#![tactic(auto)]
