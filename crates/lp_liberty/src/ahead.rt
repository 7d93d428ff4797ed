ghost use Rattle.std.specs.Prelude.{◌≡◌, ℕ, ◌≤◌, List, length};
ghost use Rattle.lp_text.specs.declared.shelf.TheConstants.{LIMIT};
ghost use Rattle.std.specs.Option.{option_and_then};
ghost use Rattle.lp_liberty.specs.declared.lexed.Lexed.{Lexed};
ghost use Rattle.lp_liberty.specs.Tokens.{bare, token_of, tokens_from};
ghost use Rattle.lp_liberty.specs.Machine.{args_head_mark, context_of, head_mode, is_deep_if_any, opens_group};

use crate::lexed::lexed_at;
use crate::mark::{Last, Mark, Mode, Sort};

/// Whether a token is the opening brace of a group.
fn is_brace(mode: Mode, sort: Sort) -> bool
    ensures { (text : List ℕ) (l : Lexed) → result ≡ is_deep_if_any mode (token_of text l sort) }
{
    match sort {
        Sort::Mark(mark) => mode.is_deep(mark),
        Sort::Word | Sort::Quoted | Sort::End => false,
    }
}

fn args_head_mark(last: Last, mark: Mark) -> Option<Mode>
    ensures { result ≡ args_head_mark last mark }
{
    match (last, mark) {
        (Last::Name, Mark::Comma) => Some(Mode::Args(Last::Comma)),
        (Last::Name | Last::Nothing, Mark::ParenClose) => Some(Mode::Behind),
        _ => None,
    }
}

/// What is read behind a token of the head of a group, none where it is none.
fn head_mode(mode: Mode, sort: Sort) -> Option<Mode>
    ensures { (text : List ℕ) (l : Lexed) → result ≡ option_and_then (head_mode mode) (token_of text l sort) }
{
    match (mode, sort) {
        (Mode::Named, Sort::Mark(Mark::ParenOpen)) => Some(Mode::Args(Last::Nothing)),
        (Mode::Args(_), Sort::Word | Sort::Quoted) => Some(Mode::Args(Last::Name)),
        (Mode::Args(last), Sort::Mark(mark)) => args_head_mark(last, mark),
        _ => None,
    }
}

/// Whether the statement that a text goes on with turns out to be a group, by at most this many tokens.
pub(crate) fn opens_group(start: Mode, text: &[u8], most: usize) -> bool
    requires { length text.now ≤ LIMIT }
    ensures { result ≡ opens_group start (bare (tokens_from most (context_of start) 0 text.now)) }
{
    let mut mode = start;
    let mut at = 0;
    for round in 0..most {
        let token = lexed_at(mode.context(), &text[at..]);
        if is_brace(mode, token.sort) {
            return true;
        }
        let Some(next) = head_mode(mode, token.sort) else {
            return false;
        };
        mode = next;
        at += token.start + token.size;
    }
    false
}
