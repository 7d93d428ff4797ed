//! Texts, bytes and the outside: what every crate of the tool reads from and writes to.
#![tactic(auto)]

mod bytes;
mod counts;
mod decimal;
mod file;
mod laws;
mod mem;
mod memory;
mod names;
mod never;
mod place;
mod shelf;
mod store;
mod stream;
mod word;

pub use bytes::Bytes;
pub use decimal::{micros, micros_bytes};
pub use file::FileShelf;
pub use laws::grown_names_keep_numbers;
pub use mem::MemShelf;
pub use memory::NoMemory;
pub use names::{NameId, Names, NamesFault};
pub use never::NeverFails;
pub use place::Place;
pub use shelf::{LIMIT, Shelf, ShelfFault};
pub use word::Word;
