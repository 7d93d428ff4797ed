//! Equations that settle: where what reads what has an order, exactly one assignment gives each key
//! the value of its equation. Definitions in `specs/` and laws in `proofs/`, over any keys and values, and no code.
#![tactic(auto)]
