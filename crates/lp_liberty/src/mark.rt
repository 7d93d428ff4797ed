ghost use Rattle.std.specs.Prelude.{◌≡◌};
ghost use Rattle.lp_liberty.specs.Machine.{context_of, is_deep_by};

/// A token that is no name.
#[derive(Clone, Copy)]
pub(crate) enum Mark {
    /// `(`
    ParenOpen,
    /// `)`
    ParenClose,
    /// `{`
    BraceOpen,
    /// `}`
    BraceClose,
    /// `:`
    Colon,
    /// `;`
    Semicolon,
    /// `,`
    Comma,
    /// The end of a line in the items of a simple attribute.
    LineEnd,
    /// What no text has: a byte above 127, a name right behind another, the end within a comment.
    Broken,
}

/// What a token is.
#[derive(Clone, Copy)]
pub(crate) enum Sort {
    /// A word.
    Word,
    /// A string, which the text's end may cut off.
    Quoted,
    /// Another token.
    Mark(Mark),
    /// No token: the text ends.
    End,
}

/// Where a token stands, as far as its form depends on it.
#[derive(Clone, Copy)]
pub(crate) enum Context {
    /// Outside arguments and items.
    Statement,
    /// Among arguments.
    Args,
    /// Behind an argument.
    BehindArg,
    /// Among the items of a simple attribute.
    Items,
}

/// Where a byte between tokens stands.
#[derive(Clone, Copy)]
pub(crate) enum Gap {
    /// Outside comments: whether something was met that separates names.
    Plain(bool),
    /// Right behind a backslash that joins lines.
    Joined(bool),
    /// Right behind the slash that opens a comment.
    Opening,
    /// In a comment.
    Comment,
    /// Right behind the star that closes a comment.
    Closing,
}

/// What was read last among arguments.
#[derive(Clone, Copy)]
pub(crate) enum Last {
    /// The opening parenthesis.
    Nothing,
    /// An argument.
    Name,
    /// A comma.
    Comma,
}

/// What a reader has read of the current statement.
#[derive(Clone, Copy)]
pub(crate) enum Mode {
    /// Nothing: whether a semicolon may stand here.
    Begin(bool),
    /// Its word.
    Named,
    /// Arguments.
    Args(Last),
    /// All arguments, with the closing parenthesis.
    Behind,
    /// Items of a simple attribute.
    Items,
}

impl Mode {
    /// The form of the next token.
    pub(crate) fn context(self) -> Context
        ensures { result ≡ context_of self }
    {
        match self {
            Mode::Args(Last::Name) => Context::BehindArg,
            Mode::Args(_) => Context::Args,
            Mode::Items => Context::Items,
            Mode::Begin(_) | Mode::Named | Mode::Behind => Context::Statement,
        }
    }

    /// Whether a mark is the opening brace of a group.
    pub(crate) fn is_deep(self, mark: Mark) -> bool
        ensures { result ≡ is_deep_by self mark }
    {
        match (self, mark) {
            (Mode::Behind, Mark::BraceOpen) => true,
            _ => false,
        }
    }
}
