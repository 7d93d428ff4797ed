//! Reads a UPF text as the words of its commands, up to the place at which it leaves the form of words.
#![tactic(auto)]

mod answer;
mod decide;
mod elements;
mod kind;
mod laws;
mod mode;
mod read;
mod reader;

pub use answer::WordsRead;
pub use elements::{Elements, read_elements};
pub use laws::{
    one_list_of_elements, one_list_of_words, words_are_found, words_leave_at_their_place,
};
pub use mode::Stop;
pub use read::read_words;
