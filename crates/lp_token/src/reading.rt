ghost use Rattle.std.specs.Prelude.{◌≡◌, None};
ghost use Rattle.std.specs.List.{list_all};
ghost use Rattle.std.specs.Option.{option_map};
ghost use Rattle.lp_token.specs.Tokens.{is_blank};
ghost use Rattle.lp_token.specs.Reading.{string_at, front_token, token_at, word_is, mark_is, word_at, quoted_at, is_blank_text};
ghost use Rattle.lp_token.specs.View.{view};

use crate::class::{INNER, QUOTE, SINGLE, class, is_blank, skip_blanks, split_string, split_word};
use crate::token::{Language, Token};

// The string whose opening quote stands before the bytes.
fn string_from<'a>(bytes: &'a [u8]) -> Option<(Token<'a>, &'a [u8])>
    ensures { option_map (λ x. (view x.0, x.1.now)) result ≡ string_at bytes.now }
{
    let (inside, behind) = split_string(bytes);
    match behind {
        [b'"', rest @ ..] => Some((Token::Quoted(inside), rest)),
        _ => None,
    }
}

// The token at the very front.
fn front<'a>(language: Language, bytes: &'a [u8]) -> Option<(Token<'a>, &'a [u8])>
    ensures { option_map (λ x. (view x.0, x.1.now)) result ≡ front_token language bytes.now }
{
    match bytes {
        [] => None,
        [first, rest @ ..] => match class(language, *first) {
            INNER => {
                let (word, rest) = split_word(language, bytes);
                Some((Token::Word(word), rest))
            }
            SINGLE => Some((Token::Mark(*first), rest)),
            QUOTE => string_from(rest),
            _ => None,
        },
    }
}

/// The first token, and what stands behind it. There is none where a byte that is foreign to the
/// language comes first, or a string that has a backslash or no end.
#[tactic(auto, unfolding(crate::specs::Reading::token_at))]
pub fn next_token<'a>(language: Language, bytes: &'a [u8]) -> Option<(Token<'a>, &'a [u8])>
    ensures { option_map (λ x. (view x.0, x.1.now)) result ≡ token_at language bytes.now }
{
    front(language, skip_blanks(language, bytes))
}

/// What stands behind the first token, where that is this word.
#[tactic(auto, unfolding(crate::specs::Reading::word_is))]
pub fn expect_word<'a>(language: Language, bytes: &'a [u8], word: &[u8]) -> Option<&'a [u8]>
    ensures { option_map (λ x. x.now) result ≡ word_is language word.now bytes.now }
{
    match next_token(language, bytes) {
        Some((Token::Word(found), rest)) if found == word => Some(rest),
        _ => None,
    }
}

/// What stands behind the first token, where that is this mark.
#[tactic(auto, unfolding(crate::specs::Reading::mark_is))]
pub fn expect_mark<'a>(language: Language, bytes: &'a [u8], mark: u8) -> Option<&'a [u8]>
    ensures { option_map (λ x. x.now) result ≡ mark_is language mark bytes.now }
{
    match next_token(language, bytes) {
        Some((Token::Mark(found), rest)) if found == mark => Some(rest),
        _ => None,
    }
}

/// The first token and what stands behind it, where that is a word.
#[tactic(auto, unfolding(crate::specs::Reading::word_at))]
pub fn any_word<'a>(language: Language, bytes: &'a [u8]) -> Option<(&'a [u8], &'a [u8])>
    ensures { option_map (λ x. (x.0.now, x.1.now)) result ≡ word_at language bytes.now }
{
    match next_token(language, bytes) {
        Some((Token::Word(word), rest)) => Some((word, rest)),
        _ => None,
    }
}

/// The first token and what stands behind it, where that is a string.
#[tactic(auto, unfolding(crate::specs::Reading::quoted_at))]
pub fn any_quoted<'a>(language: Language, bytes: &'a [u8]) -> Option<(&'a [u8], &'a [u8])>
    ensures { option_map (λ x. (x.0.now, x.1.now)) result ≡ quoted_at language bytes.now }
{
    match next_token(language, bytes) {
        Some((Token::Quoted(inside), rest)) => Some((inside, rest)),
        _ => None,
    }
}

/// Whether no token stands in the bytes, and no byte that is foreign to the language.
pub fn only_blanks(language: Language, bytes: &[u8]) -> bool
    ensures { result ≡ is_blank_text language bytes.now }
{
    bytes.iter().all(|b| is_blank(language, *b))
}
