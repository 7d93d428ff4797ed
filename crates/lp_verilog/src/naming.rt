ghost use Rattle.std.specs.Prelude.{◌≡◌, ◌+◌, ◌<◌, ◌≤◌, length, IfOk, OnOk};
ghost use Rattle.lp_text.specs.Texts.{Grown, with_text};
ghost use Rattle.lp_text.specs.Limits.{most_names};
ghost use Rattle.lp_verilog.specs.Reading.{number_in, token_in, names_with, unnamed};
ghost use Rattle.lp_verilog_tokens.specs.View.{lexeme_view};

use lp_text::{NameId, Names, NamesFault, NoMemory};
use lp_verilog_tokens::{Lexeme, Token};

/// The number of a name, where the table has room for one more.
pub(crate) fn intern(names: &mut Names, name: &str) -> Result<NameId, NoMemory>
    requires { length names.old < most_names }
    ensures number { IfOk result (λ id. id.0 ≡ number_in names.old name.now) }
    ensures ok { OnOk result (names.new ≡ with_text names.old name.now) }
    ensures grown { Grown names.old names.new }
    ensures few { length names.new ≤ length names.old + 1 }
{
    match names.intern(name) {
        Ok(id) => Ok(id),
        Err(NamesFault::NoMemory) => Err(NoMemory),
        Err(NamesFault::Full) => unreachable!(),
    }
}

/// A token that is no name.
fn unnamed(token: Token) -> Token
    ensures { result ≡ unnamed token }
{
    match token {
        Token::Name(_) => Token::Broken,
        _ => token,
    }
}

/// The token of a lexeme.
pub(crate) fn token_of(names: &mut Names, lexeme: Lexeme<'_>) -> Result<Token, NoMemory>
    requires { length names.old < most_names }
    ensures token { IfOk result (λ token. token ≡ token_in names.old (lexeme_view lexeme.entry)) }
    ensures ok { OnOk result (names.new ≡ names_with names.old (lexeme_view lexeme.entry)) }
    ensures grown { Grown names.old names.new }
    ensures few { length names.new ≤ length names.old + 1 }
{
    match lexeme {
        Lexeme::Named(name) => Ok(Token::Name(intern(names, name)?)),
        Lexeme::Plain(token) => Ok(unnamed(token)),
    }
}
