//! How deep a list of tokens nests, before it is read.

ghost use Rattle.std.specs.Prelude.{◌≡◌, false, IsTrue};
ghost use Rattle.sj_path_grammar.specs.Depth as depth;

use sj_base::MAX_OPEN;
use sj_path_token::Token;

/// Operators, accessors and commas of a path.
const MAX_COUNTED: usize = 256;

fn is_opening(token: &Token) -> bool
    ensures { result ≡ depth.is_opening token.now }
{
    matches!(token, Token::Open | Token::OpenBracket)
}

fn is_closing(token: &Token) -> bool
    ensures { result ≡ depth.is_closing token.now }
{
    matches!(token, Token::Close | Token::CloseBracket)
}

fn is_counted(token: &Token) -> bool
    ensures { result ≡ depth.is_counted token.now }
{
    matches!(
        token,
        Token::Plus
            | Token::Minus
            | Token::Star
            | Token::Slash
            | Token::Percent
            | Token::And
            | Token::Or
            | Token::Not
            | Token::Dot
            | Token::OpenBracket
            | Token::Question
            | Token::Comma
    )
}

/// Whether more stay open somewhere than may.
fn opens_too_many(tokens: &[Token]) -> bool
    ensures yes { IsTrue result → depth.OpensTooMany tokens.now }
    ensures no { result ≡ false → depth.OpensTooMany tokens.now → ⊥ }
{
    let mut opened = 0usize;
    let mut closed = 0usize;
    for token in tokens {
        if is_opening(token) {
            opened += 1;
        }
        if is_closing(token) {
            closed += 1;
        }
        if opened > closed + MAX_OPEN {
            return true;
        }
    }
    false
}

pub fn is_too_deep(tokens: &[Token]) -> bool
    ensures yes { IsTrue result → depth.IsTooDeep tokens.now }
    ensures no { result ≡ false → depth.IsTooDeep tokens.now → ⊥ }
{
    opens_too_many(tokens) || tokens.iter().filter(|token| is_counted(token)).count() > MAX_COUNTED
}
