//! Breaks a text into tokens.

ghost use Rattle.std.specs.Prelude.{◌≡◌, ◌∷◌, ◌++◌, [], List, Err, IfOk, OnOk};
ghost use Rattle.sj_base.specs.declared.refusal.ParseRefusal.TheVariants as refusal;
ghost use Rattle.sj_base.specs.Gives.{Gives};
ghost use Rattle.sj_path_token.specs.Reading as reading;
ghost use Rattle.sj_path_token.specs.Tokens.{HasTokens};
ghost use Rattle.sj_path_token.specs.declared.token.Token.{Token};

use crate::number::number;
use crate::sign::sign;
use crate::string::string;
use crate::token::Token;
use crate::word::{dollar, word};
use sj_base::{Memory, ParseRefusal, is_blank, is_letter};
use std::alloc::Global;

/// The longest token at the front of a text, of which `first` is the first byte and `after` the rest, and how many
/// bytes it has.
#[tactic(auto, unfolding(crate::specs::Reading::form_from, crate::specs::Reading::string_at))]
fn token(alloc: Global, text: &str, first: u8, after: &[u8]) -> Result<(Token, usize), ParseRefusal>
    requires { text.now ≡ first ∷ after.now }
    ensures { Gives (λ x. x) result (reading.exactly (reading.form_from first after.now)) }
{
    if is_letter(first) {
        word(alloc, text)
    } else if first.is_ascii_digit() {
        number(text.as_bytes())
    } else if first == b'"' {
        let Some((string, len)) = string(alloc, &text[1..])? else {
            return Err(ParseRefusal::Syntax);
        };
        Ok((Token::Quoted(string), len + 1))
    } else if first == b'$' {
        dollar(alloc, &text[1..])
    } else {
        sign(first, after).ok_or(ParseRefusal::Syntax)
    }
}

fn put(tokens: &mut Vec<Token>, token: Token) -> Result<(), Memory>
    ensures { OnOk result (tokens.new.items ≡ tokens.old.items ++ token ∷ []) }
{
    tokens.push(token)?;
    Ok(())
}

/// The tokens of a text, from left to right, each the longest that fits. It takes time linear in the text.
pub fn tokens_of(alloc: Global, text: &str) -> Result<Vec<Token>, ParseRefusal>
    ensures tokens { IfOk result (λ v. HasTokens text.now v.items) }
    ensures lex { result ≡ Err refusal.Syntax → (ts : List Token) → HasTokens text.now ts → ⊥ }
{
    let mut tokens = Vec::new(alloc);
    let mut rest = text;
    for _turn in 0..text.len() {
        let bytes = rest.as_bytes();
        let Some((first, after)) = bytes.split_first() else {
            return Ok(tokens);
        };
        if is_blank(*first) {
            rest = &rest[1..];
            continue;
        }
        let (token, len) = token(alloc, rest, *first, after)?;
        put(&mut tokens, token)?;
        rest = &rest[len..];
    }
    Ok(tokens)
}
