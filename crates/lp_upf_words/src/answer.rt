use lp_model::{IntentFault, UpfWord, WordList};
use lp_text::Place;
use sqlite_items::Items;

/// The words of a UPF text, as far as it keeps their form.
#[derive(Drop)]
pub struct WordsRead {
    /// The words of each command that ends. There is at least one.
    pub list: WordList,
    /// The place at which each of these commands ends: of its line feed or semicolon, or one past the last byte.
    pub ends: Items<Place>,
    /// The whole words of the command that does not end; none where there is no fault.
    pub unfinished: Items<UpfWord>,
    /// Where and why the text leaves the form of words, if it does. What stands before is judged first.
    pub fault: Option<IntentFault>,
}
