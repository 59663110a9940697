//! Statements that stood open and are closed.

ghost use Rattle.std.specs.Prelude.{◌≡◌, IfOk, max, [], ◌∷◌, ◌++◌, List, map};
ghost use Rattle.tla_tree.specs.Tree.{Tree};
ghost use Rattle.tla_tree.specs.Nesting.{greatest};
ghost use Rattle.pcal_tree.specs.Algorithm.{Statements};
ghost use Rattle.pcal_tree.specs.InMemory.{stmt_at, statements_at, past_stmt, past_statements};
ghost use Rattle.p_syntax.specs.StatesRead.{nested, before_rest, past_test};

use crate::open::Test;
use pcal_tree::algorithm::{Span, Stmt};
use std::alloc::{AllocError, Global};
use tla_token::Place;

// The `if` of one test, that ends there.
fn one_if(test: Test, otherwise: Vec<Stmt>, last: Place) -> Stmt
    ensures tree { (ts : List Tree) (rest : Statements) → stmt_at ts result rest ≡ before_rest (nested ts (test ∷ []) last (statements_at ts otherwise.items)) rest }
    ensures below { past_stmt result ≡ max (past_test test) (past_statements otherwise.items) }
{
    let span = Span {
        first: test.place,
        last,
    };
    Stmt::If(span, test.test, test.then, otherwise)
}

/// The `if` of these tests and of one more behind them, with its last list, that ends there.
///
/// # Errors
///
/// For want of memory.
pub fn closed_if(
    alloc: Global,
    tests: Vec<Test>,
    test: Test,
    otherwise: Vec<Stmt>,
    last: Place,
) -> Result<Stmt, AllocError>
    ensures tree { IfOk result (λ s. (ts : List Tree) (rest : Statements) → stmt_at ts s rest ≡ before_rest (nested ts (tests.items ++ test ∷ []) last (statements_at ts otherwise.items)) rest) }
    ensures below { IfOk result (λ s. past_stmt s ≡ max (greatest (map past_test (tests.items ++ test ∷ []))) (past_statements otherwise.items)) }
{
    let mut tests = tests;
    let mut statement = one_if(test, otherwise, last);
    while let Some(test) = tests.pop() {
        let mut otherwise = Vec::new(alloc);
        otherwise.push(statement)?;
        statement = one_if(test, otherwise, last);
    }
    Ok(statement)
}
