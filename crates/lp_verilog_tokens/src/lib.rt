//! The tokens of structural Verilog (IEEE 1364-2005, lexical conventions).
#![tactic(auto)]

mod ascii;
mod bytes;
mod constant;
mod front;
mod gap;
mod reserved;
mod token;

pub use ascii::text_of;
pub use bytes::{is_inner, is_lead, is_visible};
pub use front::piece_of;
pub use gap::{GapMode, Inside};
pub use reserved::is_reserved;
pub use token::{Keyword, Lexeme, Mark, Piece, Token};
