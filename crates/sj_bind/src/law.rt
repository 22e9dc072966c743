//! The laws of binding, over its definitions alone.

ghost use Rattle.std.specs.Prelude.{ℕ, List, Option};
ghost use Rattle.std.specs.List.{All as Each};
ghost use Rattle.sj_path_tree.specs.Tree.{Path};
ghost use Rattle.sj_sql_token.specs.Tokens.{Lexed};
ghost use Rattle.sj_sql_grammar.specs.declared.refusal.FileKind.{FileKind};
ghost use Rattle.sj_sql_grammar.specs.Tree.{Statement};
ghost use Rattle.sj_sql_grammar.specs.Phrases.{Tokens};
ghost use Rattle.sj_sql_grammar.specs.Answers.{Accepted, IsFile};
ghost use Rattle.sj_bind.specs.Bindable.{IsBindable};

/// A statement that is accepted has no type and no encoding that cannot be bound.
pub fn accepted_statements_are_bindable()
    ensures statement { (ts : Tokens) (s : Statement Path) → Accepted ts s → IsBindable s }
    ensures file { (file : Lexed) (ss : List (Statement Path)) (refusal : Option (ℕ × FileKind)) → IsFile file ss refusal → Each IsBindable ss }
{}
