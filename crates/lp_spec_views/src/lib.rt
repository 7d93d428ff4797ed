//! Power intent by the numbers of a graph as that over paths: definitions.
#![tactic(auto)]
