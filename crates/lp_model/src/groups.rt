use lp_text::NameId;
use sqlite_items::Items;

/// A simple or complex attribute of a group (Liberty syntax).
#[derive(Drop)]
pub struct Attr {
    /// Its items: words and strings, without their quotes.
    pub items: Items<NameId>,
    /// The word before the colon or the parenthesis.
    pub word: NameId,
    /// Whether it is complex, as in `word (items);`, else simple, as in `word : items;`.
    pub complex: bool,
}

/// A group (Liberty syntax), as in `word (args) { .. }`.
#[derive(Drop)]
pub struct Group {
    /// The word before the parenthesis.
    pub word: NameId,
    /// The words and strings in the parentheses.
    pub args: Items<NameId>,
    /// The group in which it stands, by its place in the list; none at the top of the file.
    pub parent: Option<u32>,
    /// Its attributes, in the order of the text.
    pub attrs: Items<Attr>,
}

/// A Liberty text as groups.
#[derive(Drop)]
pub struct Groups {
    /// The number of bytes of the text, at most 67,108,864.
    pub size: u64,
    /// The groups, in the order of the text.
    pub groups: Items<Group>,
    /// The number of the file, 10 for the first library.
    pub file: u32,
}
