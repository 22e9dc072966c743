//! A whole file of statements as trees.

ghost use Rattle.std.specs.Prelude.{◌≡◌, suc, ◌<◌, ◌≤◌, ◌∷◌, ◌++◌, [], length, map, IfOk, OnOk, MatchOption, slice_get};
ghost use Rattle.std.specs.Option.{option_copied};
ghost use Rattle.sj_sql_token.specs.Tokens.{lexed};
ghost use Rattle.sj_sql_grammar.specs.Answers.{IsFile, max_file};
ghost use Rattle.sj_sql.specs.Script.{fault_of};
ghost use Rattle.sj_sql_tree.specs.Sequences.{most_values};
ghost use Rattle.sj_sql_tree.specs.View.{statement_of};

use crate::answer::Refused;
use crate::file::{NextStatement, next_statement};
use sj_base::Memory;
use sj_sql_grammar::FileKind;
use sj_sql_tree::Statement;
use std::alloc::Global;
use std::collections::VecDeque;
use std::marker::Model;

/// The statements of a file in their order, seen as a list.
#[derive(Drop)]
pub struct Statements {
    items: VecDeque<Statement>,
}

impl Model for Statements {
    ghost use Rattle.std.specs.Prelude.{List, length, ◌≤◌};
    ghost use Rattle.sj_sql_tree.specs.Sequences.{most_values};
    ghost use Rattle.std.specs.Coded.{codes};
    ghost use Rattle.sj_sql_tree.specs.declared.tree.Statement.{Statement};
    ghost use Rattle.sj_sql_tree.specs.contracts.tree.Statement as statement;

    ghost Value = { List Statement };

    ghost coded = { Prim.hlevel (codes, statement.the_row.coded) };

    ghost view = { λ s. s.items.items };

    ghost invariant = { λ s. length s.items.items ≤ most_values };
}

impl Statements {
    fn new(alloc: Global) -> Statements
        ensures { result ≡ [] }
    {
        Statements {
            items: VecDeque::new(alloc),
        }
    }

    fn push(&mut self, statement: Statement) -> Result<(), Memory>
        requires { length self.old < most_values }
        ensures { OnOk result (self.new ≡ self.old ++ statement ∷ []) }
    {
        self.items.push_back(statement)?;
        Ok(())
    }

    /// How many statements there are.
    pub fn len(&self) -> u32
        ensures { result ≡ length self.now }
    {
        self.items.len() as u32
    }

    /// The statement of this number, counted from 0, or nothing past the end.
    ///
    /// The program does not call this; its tests do, and a host may.
    pub fn get(&self, i: u32) -> Option<&Statement>
        ensures { option_copied result ≡ slice_get self.now i }
    {
        self.items.get(i as usize)
    }

    /// Takes the first statement out, or nothing where none is left. It takes the same time whatever is left.
    ///
    /// The program does not call this; its tests do, and a host may.
    pub fn take_first(&mut self) -> Option<Statement>
        ensures { MatchOption result ((self.old ≡ []) × (self.new ≡ [])) (λ x. self.old ≡ x ∷ self.new) }
    {
        self.items.pop_front()
    }
}

/// Why a statement of a file is refused.
#[derive(Clone, Copy, Debug, PartialEq, Eq)]
pub struct FileFault {
    /// Which statement it is, counted from 1.
    pub statement: u32,
    pub kind: FileKind,
}

/// What a file is read as.
///
/// Its `drop` is written out, so that whoever holds one gives it up by one call, and not part by part at each place
/// where the holder may return early.
pub struct Script {
    /// All statements, or those before the first that is refused.
    pub statements: Statements,
    /// Why that one is refused.
    pub fault: Option<FileFault>,
}

impl Drop for Script {
    fn drop(self) {
        let Script {
            statements: _statements,
            fault: _fault,
        } = self;
    }
}

/// The statements before the one that is refused for this reason.
fn refused(statements: Statements, kind: FileKind) -> Script
    requires { length statements < most_values }
    ensures statements { result.statements ≡ statements }
    ensures fault { fault_of result.fault ≡ Some (suc (length statements), kind) }
{
    let statement = statements.len() + 1;
    Script {
        statements,
        fault: Some(FileFault { statement, kind }),
    }
}

/// The trees of all statements of a file, or of those before the first that is refused, and why that one is refused. It takes
/// time linear in the file, of at most 1,048,576 bytes.
///
/// It is for who wants the trees of a whole file at once, such as a printer or a checker of another kind. The program itself
/// takes one statement after the other by [`next_statement`], and holds one tree at a time.
///
/// # Errors
/// Memory ran out, which says nothing of the file.
pub fn parse_file(alloc: Global, bytes: &[u8]) -> Result<Script, Memory>
    requires { length bytes.now ≤ max_file }
    ensures { IfOk result (λ s. IsFile (lexed bytes.now) (map statement_of s.statements) (fault_of s.fault)) }
{
    let mut statements = Statements::new(alloc);
    let mut rest = bytes;
    loop {
        match next_statement(alloc, rest) {
            Ok(NextStatement::Statement(statement, behind)) => {
                statements.push(statement)?;
                rest = behind;
            }
            Ok(NextStatement::End) => {
                return Ok(Script {
                    statements,
                    fault: None,
                });
            }
            Err(Refused::For(kind)) => return Ok(refused(statements, kind)),
            Err(Refused::Memory) => return Err(Memory),
        }
    }
}
