//! Tokens: how the bytes of a text are words, marks and quoted strings.
#![tactic(auto)]

mod class;
mod reading;
mod token;

pub use reading::{any_quoted, any_word, expect_mark, expect_word, next_token, only_blanks};
pub use token::{Language, Token};
