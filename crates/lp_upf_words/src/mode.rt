use lp_model::WordForm;
use lp_text::Place;

/// What stands before a byte.
#[derive(Clone, Copy)]
pub(crate) enum Mode {
    /// A blank, the end of a command, or nothing: whether a command may begin here.
    Gap(bool),
    /// A backslash there.
    Slash(bool),
    /// A part of a comment.
    Comment,
    /// A part of a bare word.
    Bare,
    /// A backslash there.
    Escape,
    /// `[` in a bare word or, where the first says so, in quotes: whether digits follow it, and its place.
    Index(bool, bool, Place),
    /// A part of a word in braces: how many braces are open in it.
    Braces(u32),
    /// A part of a word in quotes.
    Quotes,
    /// A word in braces or in quotes.
    Behind,
    /// A backslash there, and its place.
    BehindSlash(Place),
}

/// Why a text leaves the form of words.
#[derive(Clone, Copy)]
pub enum Stop {
    /// A byte that cannot stand there, or the text's end.
    Syntax(Place),
    /// `$`, which would stand for a variable.
    Dollar(Place),
    /// `[` that begins no index, and would stand for a command.
    Bracket(Place),
}

/// What a byte does.
#[derive(Clone, Copy)]
pub(crate) enum Action {
    /// Nothing but that another mode follows.
    Turn(Mode),
    /// The word goes on with it.
    Say(Mode),
    /// A word begins with it, which does not say it.
    Open(Mode),
    /// A word begins with it.
    Begin(Mode),
    /// The word ends.
    Close(WordForm, Mode),
    /// The command ends.
    End,
    /// A bare word ends, and the command with it.
    CloseEnd,
    /// The text leaves the form.
    Stop(Stop),
}
