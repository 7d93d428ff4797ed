/// The languages that are read by tokens.
#[derive(Clone, Copy)]
pub enum Language {
    /// Liberty: words are runs of ASCII characters, and strings stand in double quotes.
    Liberty,
    /// Structural Verilog: words are runs of letters, digits and `_`.
    Verilog,
}

/// A token of a text.
#[derive(Clone, Copy)]
pub enum Token<'a> {
    /// A word: the longest run of bytes that words have.
    Word(&'a [u8]),
    /// A byte that is a token of its own.
    Mark(u8),
    /// A string, without its quotes.
    Quoted(&'a [u8]),
}
