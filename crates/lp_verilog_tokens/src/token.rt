use lp_text::NameId;

/// A token of one byte.
#[derive(Clone, Copy, PartialEq, Eq)]
pub enum Mark {
    /// `(`
    Open,
    /// `)`
    Close,
    /// `[`
    OpenBracket,
    /// `]`
    CloseBracket,
    /// `{`
    OpenBrace,
    /// `}`
    CloseBrace,
    /// `,`
    Comma,
    /// `;`
    Semicolon,
    /// `:`
    Colon,
    /// `.`
    Dot,
    /// `=`
    Equals,
}

/// A reserved word that is read.
#[derive(Clone, Copy)]
pub enum Keyword {
    Module,
    EndModule,
    Input,
    Output,
    Wire,
    Assign,
}

/// A token of a netlist text.
#[derive(Clone, Copy)]
pub enum Token {
    /// A token of one byte.
    Mark(Mark),
    /// A reserved word that is read.
    Keyword(Keyword),
    /// A name.
    Name(NameId),
    /// A run of digits, with its value where that is a range bound.
    Number(Option<u32>),
    /// A sized constant: its bits and its value.
    Constant(u8, u128),
    /// A constant that is not read: without a size, with unknown digits, or with a value that does not fit.
    Unread,
    /// A reserved word or a directive that is not read.
    Foreign,
    /// No token of the language.
    Broken,
}

/// A token whose name, if it is one, has no number yet.
#[derive(Clone, Copy)]
pub enum Lexeme<'a> {
    /// A name.
    Named(&'a str),
    /// Another token.
    Plain(Token),
}

/// The token that a text begins with.
#[derive(Clone, Copy)]
pub struct Piece<'a> {
    /// How many bytes stand before it.
    pub gap: usize,
    /// How many bytes it has.
    pub size: usize,
    pub lexeme: Lexeme<'a>,
}

/// The token at the very front of a text.
#[derive(Clone, Copy)]
pub(crate) enum Front<'a> {
    /// A token, and how many bytes it has.
    Whole(usize, Lexeme<'a>),
    /// The text ends inside it.
    Cut,
}
