//! What the grammar has and this implementation has not.

ghost use Rattle.std.specs.Prelude.{◌≡◌};
ghost use Rattle.sj_path_grammar.specs.Unsupported as spec;

use sj_path_grammar::Name;
use sj_path_token::{Keyword, Token};

/// The first part in the text that is not supported.
pub fn unsupported(tokens: &[Token]) -> Option<Name>
    ensures { result ≡ spec.unsupported tokens.now }
{
    let mut rest = tokens;
    loop {
        match rest {
            [] => return None,
            [Token::Dot, Token::Word(Keyword::Double, _), Token::Open, ..] => {
                return Some(Name::Double);
            }
            [
                Token::Dot,
                Token::Word(Keyword::Datetime, _),
                Token::Open,
                ..
            ] => {
                return Some(Name::Datetime);
            }
            [Token::Dot, _, after @ ..] => rest = after,
            [Token::Word(Keyword::LikeRegex, _), ..] => return Some(Name::LikeRegex),
            [_, after @ ..] => rest = after,
        }
    }
}
