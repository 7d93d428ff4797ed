//! Where a text leaves a language: the place of its first token that no text of the language has
//! after the same ones before it. Definitions and laws in `specs/`, and no code.
#![tactic(auto)]
