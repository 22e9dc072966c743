//! The values of a SELECT list.

ghost use Rattle.std.specs.Prelude.{◌≡◌, length};
ghost use Rattle.sj_base.specs.Gives.{Gives};
ghost use Rattle.sj_sql_grammar.specs.Faults.{parsing};
ghost use Rattle.sj_sql_grammar.specs.Reading as reading;
ghost use Rattle.sj_sql_grammar.specs.Tree as t;
ghost use Rattle.sj_sql.specs.Nests.{Nests};
ghost use Rattle.sj_sql.specs.Noted.{faults_of};
ghost use Rattle.sj_sql.specs.Sources.{source_of};
ghost use Rattle.sj_sql_tree.specs.View.{value_of, values_of, member_of, members_of};

use crate::asking::{Source, asking};
use crate::faults::Faults;
use sj_base::ParseRefusal;
use sj_sql_phrase::literal::literal;
use sj_sql_phrase::passing::put;
use sj_sql_phrase::phrase::{nulls_clause, unique_clause};
use sj_sql_phrase::single::{Rest, Tokens, close, colon, comma, open, word};
use sj_sql_token::Keyword;
use sj_sql_tree::{Member, Seq, Value};
use sj_value::Nulls;
use std::alloc::Global;

/// JSON_OBJECT, as the definitions have it.
fn object_of(members: Vec<Member>, nulls: Nulls, unique: bool) -> Value
    ensures { value_of result ≡ t.Object (members_of members.items) nulls unique }
{
    Value::Object(members, nulls, unique)
}

/// JSON_ARRAY, as the definitions have it.
fn array_of(values: Vec<Value>, nulls: Nulls) -> Value
    ensures { value_of result ≡ t.Array (values_of values.items) nulls }
{
    Value::Array(values, nulls)
}

/// What may stand at one level of constructors, with a function that reads the values inside them.
#[derive(Clone, Copy)]
pub struct Level<F> {
    pub alloc: Global,
    pub source: Source,
    /// How deep constructors may still nest.
    pub depth: usize,
    pub inner: F,
}

impl<
    F: Fn(
        Global,
        Source,
        usize,
        Faults,
        Tokens<'_>,
    ) -> Result<(Value, Faults, Tokens<'_>), ParseRefusal>,
> Level<F> {
    fn inner<'a>(
        &self,
        faults: Faults,
        tokens: Tokens<'a>,
    ) -> Result<(Value, Faults, Tokens<'a>), ParseRefusal>
        requires { Nests self.now.source self.now.depth (F.pre self.now.inner) (F.post self.now.inner) }
        ensures { Gives (λ x. (value_of x.0, faults_of x.1, x.2.now)) result (reading.value_at parsing (source_of self.now.source) self.now.depth (faults_of faults) tokens.now) }
    {
        (self.inner)(self.alloc, self.source, self.depth, faults, tokens)
    }

    /// Values with commas between them.
    #[tactic(auto, unfolding(sj_sql_grammar::specs::Reading::values_from))]
    fn values<'a>(
        &self,
        faults: Faults,
        tokens: Tokens<'a>,
    ) -> Result<(Vec<Value>, Faults, Tokens<'a>), ParseRefusal>
        requires { Nests self.now.source self.now.depth (F.pre self.now.inner) (F.post self.now.inner) }
        ensures { Gives (λ x. (values_of x.0.items, faults_of x.1, x.2.now)) result
            (reading.values_from parsing (reading.value_at parsing (source_of self.now.source) self.now.depth) (length tokens.now) (faults_of faults) tokens.now) }
    {
        let mut values = Seq::new(self.alloc);
        let mut so_far = faults;
        let mut left = Rest { tokens };
        for _turn in 0..tokens.len() {
            let (value, noted, after) = self.inner(so_far, left.tokens)?;
            put(&mut values, value)?;
            let Some(next) = comma(after) else {
                return Ok((values.into_vec(), noted, after));
            };
            so_far = noted;
            left = Rest { tokens: next };
        }
        Err(ParseRefusal::Syntax)
    }

    /// The value of a member, behind its key.
    #[tactic(auto, unfolding(sj_sql_grammar::specs::Reading::member_value_at))]
    fn member_value<'a>(
        &self,
        key: Value,
        faults: Faults,
        tokens: Tokens<'a>,
    ) -> Result<(Member, Faults, Tokens<'a>), ParseRefusal>
        requires { Nests self.now.source self.now.depth (F.pre self.now.inner) (F.post self.now.inner) }
        ensures { Gives (λ x. (member_of x.0, faults_of x.1, x.2.now)) result
            (reading.member_value_at parsing (reading.value_at parsing (source_of self.now.source) self.now.depth) (value_of key) (faults_of faults) tokens.now) }
    {
        let (value, faults, rest) = self.inner(faults, tokens)?;
        Ok((Member { key, value }, faults, rest))
    }

    /// A member behind KEY.
    #[tactic(auto, unfolding(sj_sql_grammar::specs::Reading::keyed_at))]
    fn keyed<'a>(
        &self,
        faults: Faults,
        tokens: Tokens<'a>,
    ) -> Result<(Member, Faults, Tokens<'a>), ParseRefusal>
        requires { Nests self.now.source self.now.depth (F.pre self.now.inner) (F.post self.now.inner) }
        ensures { Gives (λ x. (member_of x.0, faults_of x.1, x.2.now)) result
            (reading.keyed_at parsing (reading.value_at parsing (source_of self.now.source) self.now.depth) (faults_of faults) tokens.now) }
    {
        let (key, faults, rest) = self.inner(faults, tokens)?;
        let Some(rest) = word(Keyword::Value, rest) else {
            return Err(ParseRefusal::Syntax);
        };
        self.member_value(key, faults, rest)
    }

    /// A member, of a key and a value.
    #[tactic(auto, unfolding(sj_sql_grammar::specs::Reading::member_at, sj_sql_grammar::specs::Reading::valued_at))]
    pub fn member<'a>(
        &self,
        faults: Faults,
        tokens: Tokens<'a>,
    ) -> Result<(Member, Faults, Tokens<'a>), ParseRefusal>
        requires { Nests self.now.source self.now.depth (F.pre self.now.inner) (F.post self.now.inner) }
        ensures { Gives (λ x. (member_of x.0, faults_of x.1, x.2.now)) result
            (reading.member_at parsing (reading.value_at parsing (source_of self.now.source) self.now.depth) (faults_of faults) tokens.now) }
    {
        if let Some(rest) = word(Keyword::Key, tokens) {
            return self.keyed(faults, rest);
        }
        let (key, faults, rest) = self.inner(faults, tokens)?;
        if let Some(rest) = word(Keyword::Value, rest) {
            return self.member_value(key, faults, rest);
        }
        let Some(rest) = colon(rest) else {
            return Err(ParseRefusal::Syntax);
        };
        self.member_value(key, faults, rest)
    }

    /// Members with commas between them.
    #[tactic(auto, unfolding(sj_sql_grammar::specs::Reading::members_from))]
    fn members<'a>(
        &self,
        faults: Faults,
        tokens: Tokens<'a>,
    ) -> Result<(Vec<Member>, Faults, Tokens<'a>), ParseRefusal>
        requires { Nests self.now.source self.now.depth (F.pre self.now.inner) (F.post self.now.inner) }
        ensures { Gives (λ x. (members_of x.0.items, faults_of x.1, x.2.now)) result
            (reading.members_from parsing (reading.value_at parsing (source_of self.now.source) self.now.depth) (length tokens.now) (faults_of faults) tokens.now) }
    {
        let mut members = Seq::new(self.alloc);
        let mut so_far = faults;
        let mut left = Rest { tokens };
        for _turn in 0..tokens.len() {
            let (member, noted, after) = self.member(so_far, left.tokens)?;
            put(&mut members, member)?;
            let Some(next) = comma(after) else {
                return Ok((members.into_vec(), noted, after));
            };
            so_far = noted;
            left = Rest { tokens: next };
        }
        Err(ParseRefusal::Syntax)
    }

    /// JSON_OBJECT, behind its word.
    #[tactic(auto, unfolding(sj_sql_grammar::specs::Reading::object_from, sj_sql_grammar::specs::Reading::members_to_end))]
    fn object<'a>(
        &self,
        faults: Faults,
        tokens: Tokens<'a>,
    ) -> Result<(Value, Faults, Tokens<'a>), ParseRefusal>
        requires { Nests self.now.source self.now.depth (F.pre self.now.inner) (F.post self.now.inner) }
        ensures { Gives (λ x. (value_of x.0, faults_of x.1, x.2.now)) result
            (reading.object_from parsing (reading.value_at parsing (source_of self.now.source) self.now.depth) (faults_of faults) tokens.now) }
    {
        let Some(rest) = open(tokens) else {
            return Err(ParseRefusal::Syntax);
        };
        if let Some(rest) = close(rest) {
            let none = object_of(Vec::new(self.alloc), Nulls::Null, false);
            return Ok((none, faults, rest));
        }
        let (members, faults, rest) = self.members(faults, rest)?;
        let (nulls, rest) = nulls_clause(rest).unwrap_or((Nulls::Null, rest));
        let (unique, rest) = unique_clause(rest).unwrap_or((false, rest));
        let Some(rest) = close(rest) else {
            return Err(ParseRefusal::Syntax);
        };
        Ok((object_of(members, nulls, unique), faults, rest))
    }

    /// JSON_ARRAY, behind its word.
    #[tactic(auto, unfolding(sj_sql_grammar::specs::Reading::array_from, sj_sql_grammar::specs::Reading::values_to_end))]
    fn array<'a>(
        &self,
        faults: Faults,
        tokens: Tokens<'a>,
    ) -> Result<(Value, Faults, Tokens<'a>), ParseRefusal>
        requires { Nests self.now.source self.now.depth (F.pre self.now.inner) (F.post self.now.inner) }
        ensures { Gives (λ x. (value_of x.0, faults_of x.1, x.2.now)) result
            (reading.array_from parsing (reading.value_at parsing (source_of self.now.source) self.now.depth) (faults_of faults) tokens.now) }
    {
        let Some(rest) = open(tokens) else {
            return Err(ParseRefusal::Syntax);
        };
        if let Some(rest) = close(rest) {
            let none = array_of(Vec::new(self.alloc), Nulls::Absent);
            return Ok((none, faults, rest));
        }
        let (values, faults, rest) = self.values(faults, rest)?;
        let (nulls, rest) = nulls_clause(rest).unwrap_or((Nulls::Absent, rest));
        let Some(rest) = close(rest) else {
            return Err(ParseRefusal::Syntax);
        };
        Ok((array_of(values, nulls), faults, rest))
    }

    /// A value, with the values of a constructor by the function inside.
    #[tactic(auto, unfolding(sj_sql_grammar::specs::Reading::value_over))]
    pub fn over<'a>(
        &self,
        faults: Faults,
        tokens: Tokens<'a>,
    ) -> Result<(Value, Faults, Tokens<'a>), ParseRefusal>
        requires { Nests self.now.source self.now.depth (F.pre self.now.inner) (F.post self.now.inner) }
        ensures { Gives (λ x. (value_of x.0, faults_of x.1, x.2.now)) result
            (reading.value_over parsing (source_of self.now.source) (reading.value_at parsing (source_of self.now.source) self.now.depth) (faults_of faults) tokens.now) }
    {
        match literal(self.alloc, tokens) {
            Ok(read) => {
                let (literal, rest) = read;
                Ok((Value::Lit(literal), faults, rest))
            }
            Err(ParseRefusal::Memory) => Err(ParseRefusal::Memory),
            Err(ParseRefusal::Syntax) => {
                if let Some(rest) = word(Keyword::JsonObject, tokens) {
                    return self.object(faults, rest);
                }
                if let Some(rest) = word(Keyword::JsonArray, tokens) {
                    return self.array(faults, rest);
                }
                asking(self.alloc, self.source, faults, tokens)
            }
        }
    }
}

/// A value, with constructors inside one another at most `depth` deep.
pub fn list_value(
    alloc: Global,
    source: Source,
    depth: usize,
    faults: Faults,
    tokens: Tokens<'_>,
) -> Result<(Value, Faults, Tokens<'_>), ParseRefusal>
    ensures { Gives (λ x. (value_of x.0, faults_of x.1, x.2.now)) result (reading.value_at parsing (source_of source) depth (faults_of faults) tokens.now) }
{
    if depth == 0 {
        return Err(ParseRefusal::Syntax);
    }
    Level {
        alloc,
        source,
        depth: depth - 1,
        inner: list_value,
    }
    .over(faults, tokens)
}
