ghost use Rattle.std.specs.Prelude.{◌≡◌, ◌+◌, ◌-◌, ◌<◌, ◌≤◌, ◌^◌};
ghost use Rattle.lp_upf_words.specs.Reading.{decide, in_bare, in_behind, in_behind_slash, in_braces, in_comment, in_escape, in_gap, in_index, in_quotes, in_slash, inside, last, size_of, weight};

use crate::kind::Kind;
use crate::mode::{Action, Mode, Stop};
use lp_model::WordForm;
use lp_text::Place;

fn in_gap(fresh: bool, here: Place, kind: Kind) -> Action
    ensures value { result ≡ in_gap fresh here kind }
    ensures weight { weight result ≤ 1 }
{
    match kind {
        Kind::Blank | Kind::Feed => Action::Turn(Mode::Gap(fresh)),
        Kind::LineEnd | Kind::Semicolon => {
            if fresh {
                Action::Turn(Mode::Gap(true))
            } else {
                Action::End
            }
        }
        Kind::Hash => {
            if fresh {
                Action::Turn(Mode::Comment)
            } else {
                Action::Begin(Mode::Bare)
            }
        }
        Kind::Backslash => Action::Open(Mode::Slash(fresh)),
        Kind::OpenBrace => Action::Open(Mode::Braces(0)),
        Kind::Quote => Action::Open(Mode::Quotes),
        Kind::Dollar => Action::Stop(Stop::Dollar(here)),
        Kind::OpenBracket => Action::Begin(Mode::Index(false, false, here)),
        Kind::CloseBrace | Kind::CloseBracket | Kind::Digit | Kind::Other => {
            Action::Begin(Mode::Bare)
        }
    }
}

fn in_slash(fresh: bool, kind: Kind) -> Action
    ensures value { result ≡ in_slash fresh kind }
    ensures weight { weight result ≤ 1 }
{
    match kind {
        Kind::LineEnd | Kind::Feed => Action::Turn(Mode::Gap(fresh)),
        _ => Action::Say(Mode::Bare),
    }
}

fn in_comment(kind: Kind) -> Action
    ensures value { result ≡ in_comment kind }
    ensures weight { weight result ≤ 1 }
{
    match kind {
        Kind::LineEnd | Kind::Feed => Action::Turn(Mode::Gap(true)),
        _ => Action::Turn(Mode::Comment),
    }
}

fn in_bare(here: Place, kind: Kind) -> Action
    ensures value { result ≡ in_bare here kind }
    ensures weight { weight result ≤ 2 }
{
    match kind {
        Kind::Blank | Kind::Feed => Action::Close(WordForm::Bare, Mode::Gap(false)),
        Kind::LineEnd | Kind::Semicolon => Action::CloseEnd,
        Kind::Backslash => Action::Turn(Mode::Escape),
        Kind::Dollar => Action::Stop(Stop::Dollar(here)),
        Kind::OpenBracket => Action::Say(Mode::Index(false, false, here)),
        _ => Action::Say(Mode::Bare),
    }
}

fn in_escape(kind: Kind) -> Action
    ensures value { result ≡ in_escape kind }
    ensures weight { weight result ≤ 2 }
{
    match kind {
        Kind::LineEnd | Kind::Feed => Action::Close(WordForm::Bare, Mode::Gap(false)),
        _ => Action::Say(Mode::Bare),
    }
}

/// The mode inside a word of this form.
fn inside(quoted: bool) -> Mode
    ensures value { result ≡ inside quoted }
    ensures size { size_of result ≡ 1 }
{
    if quoted { Mode::Quotes } else { Mode::Bare }
}

fn in_index(quoted: bool, some: bool, at: Place, kind: Kind) -> Action
    ensures value { result ≡ in_index quoted some at kind }
    ensures weight { weight result ≤ 2 }
{
    match kind {
        Kind::Digit => Action::Say(Mode::Index(quoted, true, at)),
        Kind::CloseBracket => {
            if some {
                Action::Say(inside(quoted))
            } else {
                Action::Stop(Stop::Bracket(at))
            }
        }
        _ => Action::Stop(Stop::Bracket(at)),
    }
}

fn in_braces(depth: u32, kind: Kind) -> Action
    requires { depth + 1 < 2 ^ 32 }
    ensures value { result ≡ in_braces depth kind }
    ensures weight { weight result ≤ depth + 2 }
{
    match kind {
        Kind::OpenBrace => Action::Say(Mode::Braces(depth + 1)),
        Kind::CloseBrace => match depth {
            0 => Action::Close(WordForm::Braces, Mode::Behind),
            _ => Action::Say(Mode::Braces(depth - 1)),
        },
        _ => Action::Say(Mode::Braces(depth)),
    }
}

fn in_quotes(here: Place, kind: Kind) -> Action
    ensures value { result ≡ in_quotes here kind }
    ensures weight { weight result ≤ 2 }
{
    match kind {
        Kind::Quote => Action::Close(WordForm::Quotes, Mode::Behind),
        Kind::Dollar => Action::Stop(Stop::Dollar(here)),
        Kind::OpenBracket => Action::Say(Mode::Index(true, false, here)),
        _ => Action::Say(Mode::Quotes),
    }
}

fn in_behind(here: Place, kind: Kind) -> Action
    ensures value { result ≡ in_behind here kind }
    ensures weight { weight result ≤ 1 }
{
    match kind {
        Kind::Blank | Kind::Feed => Action::Turn(Mode::Gap(false)),
        Kind::LineEnd | Kind::Semicolon => Action::End,
        Kind::Backslash => Action::Turn(Mode::BehindSlash(here)),
        _ => Action::Stop(Stop::Syntax(here)),
    }
}

fn in_behind_slash(at: Place, kind: Kind) -> Action
    ensures value { result ≡ in_behind_slash at kind }
    ensures weight { weight result ≤ 1 }
{
    match kind {
        Kind::LineEnd | Kind::Feed => Action::Turn(Mode::Gap(false)),
        _ => Action::Stop(Stop::Syntax(at)),
    }
}

/// What a byte of this kind does.
pub(crate) fn decide(mode: Mode, here: Place, kind: Kind) -> Action
    requires { size_of mode < 2 ^ 32 - 1 }
    ensures value { result ≡ decide mode here kind }
    ensures weight { weight result ≤ size_of mode + 1 }
{
    match mode {
        Mode::Gap(fresh) => in_gap(fresh, here, kind),
        Mode::Slash(fresh) => in_slash(fresh, kind),
        Mode::Comment => in_comment(kind),
        Mode::Bare => in_bare(here, kind),
        Mode::Escape => in_escape(kind),
        Mode::Index(quoted, some, at) => in_index(quoted, some, at, kind),
        Mode::Braces(depth) => in_braces(depth, kind),
        Mode::Quotes => in_quotes(here, kind),
        Mode::Behind => in_behind(here, kind),
        Mode::BehindSlash(at) => in_behind_slash(at, kind),
    }
}

/// What the end of the text does.
pub(crate) fn last(mode: Mode, here: Place) -> Action
    ensures value { result ≡ last mode here }
    ensures weight { weight result ≤ size_of mode }
{
    match mode {
        Mode::Gap(true) | Mode::Comment => Action::Turn(Mode::Gap(true)),
        Mode::Gap(false) | Mode::Behind => Action::End,
        Mode::Bare => Action::CloseEnd,
        Mode::Index(_, _, at) => Action::Stop(Stop::Bracket(at)),
        Mode::Slash(_) | Mode::Escape | Mode::Braces(_) | Mode::Quotes | Mode::BehindSlash(_) => {
            Action::Stop(Stop::Syntax(here))
        }
    }
}
