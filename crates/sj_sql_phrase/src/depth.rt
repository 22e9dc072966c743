//! How many parentheses a list of tokens leaves open, before it is read.

ghost use Rattle.std.specs.Prelude.{◌≡◌, false, IsTrue};
ghost use Rattle.sj_sql_grammar.specs.Grammar as grammar;

use crate::single::Tokens;
use sj_base::MAX_OPEN;
use sj_sql_token::Token;

fn is_open(token: &Token<'_>) -> bool
    ensures { result ≡ grammar.is_open token.now }
{
    matches!(token, Token::Open)
}

fn is_close(token: &Token<'_>) -> bool
    ensures { result ≡ grammar.is_close token.now }
{
    matches!(token, Token::Close)
}

/// Whether more parentheses stay open somewhere than may.
pub fn too_deep(tokens: Tokens<'_>) -> bool
    ensures yes { IsTrue result → grammar.IsTooDeep tokens.now }
    ensures no { result ≡ false → grammar.IsTooDeep tokens.now → ⊥ }
{
    let mut opened = 0usize;
    let mut closed = 0usize;
    for token in tokens {
        if is_open(token) {
            opened += 1;
        }
        if is_close(token) {
            closed += 1;
        }
        if opened > closed + MAX_OPEN {
            return true;
        }
    }
    false
}
