//! What is next in a list of statements, and where its tokens are.

ghost use Rattle.std.specs.Prelude.{◌≡◌, ◌+◌, ◌<◌, ◌≤◌, ◌++◌, IfOk, IfErr, OnOk, OnErr, length, List};
ghost use Rattle.tla_tree.specs.Lexical.{Token};
ghost use Rattle.tla_tree.specs.Reader as reader;
ghost use Rattle.expr_nodes.specs.ViewSeen.{mark_seen};
ghost use Rattle.expr_nodes.specs.Ahead.{ahead};
ghost use Rattle.syntax_reading.specs.TokenReaders.{first};
ghost use Rattle.expr_nodes.specs.declared.cursor.Halt.TheVariants as halt;
ghost use Rattle.tla_token.specs.declared.rule.Rule.TheVariants as rule;
ghost use Rattle.tla_token.specs.Limits.{deepest_statement};
ghost use Rattle.pcal_tree.specs.InMemory.{span_of};
ghost use Rattle.pcal_tree.specs.GrammarParts.{span as span_of_tokens};
ghost use Rattle.syntax_reading.specs.StatementsRead.{is_label};

use crate::token_step::{behind, is_next_name, next_token, refused_there};
use expr_nodes::cursor::{Halt, is_mark};
use expr_nodes::view::Mark;
use pcal_tree::algorithm::Span;
use tla_token::{Rule, Tokens};

/// Whether this mark is next.
pub fn is_next_mark(tokens: &Tokens, at: usize, mark: Mark) -> bool
    requires { at ≤ length tokens.now.items.items }
    ensures { result ≡ reader.is_mark (mark_seen mark) (first (ahead tokens.now at)).kind }
{
    is_mark(mark, next_token(tokens, at).view)
}

/// Whether a name with a colon behind it is next.
pub fn is_next_label(tokens: &Tokens, at: usize) -> bool
    requires { at ≤ length tokens.now.items.items }
    ensures { result ≡ is_label (ahead tokens.now at) }
{
    is_next_name(tokens, at) && is_mark(Mark::Colon, next_token(tokens, behind(tokens, at)).view)
}

/// How many forms are open where one more opens at this token, so many being open around it.
///
/// # Errors
///
/// Where that is too many.
pub fn one_deeper(tokens: &Tokens, at: usize, depth: usize) -> Result<usize, Halt>
    requires { at ≤ length tokens.now.items.items }
    ensures deeper { IfOk result (λ d. d ≡ depth + 1) }
    ensures few { OnOk result (depth < deepest_statement) }
    ensures many { OnErr result (deepest_statement ≤ depth) }
    ensures refused { IfErr result (λ e. e ≡ halt.Refused rule.TooDeep (length (ahead tokens.now at))) }
{
    if depth < 100 {
        Ok(depth + 1)
    } else {
        Err(refused_there(tokens, at, Rule::TooDeep))
    }
}

/// Where the tokens from one to another are: their first and their last.
pub fn span_between(tokens: &Tokens, from: usize, end: usize) -> Span
    requires some { from < end }
    requires inside { end ≤ length tokens.now.items.items }
    ensures { (xs : List Token) → ahead tokens.now from ≡ xs ++ ahead tokens.now end → span_of result ≡ span_of_tokens xs }
{
    Span {
        first: next_token(tokens, from).place,
        last: next_token(tokens, end - 1).place,
    }
}
