//! The cases of all crates: tables of inputs, and what each gives. Expected values come from the standards and from the
//! rules in docs/, never from the program.
#![tactic(auto)]

#[cfg(test)]
mod cells;
#[cfg(test)]
mod commands;
#[cfg(test)]
mod expressions;
#[cfg(test)]
mod groups;
#[cfg(test)]
mod libraries;
#[cfg(test)]
mod netlists;
#[cfg(test)]
mod pools;
#[cfg(test)]
mod registers;
#[cfg(test)]
mod shelves;
#[cfg(test)]
mod sizes;
