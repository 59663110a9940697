//! Chains of macros, of which each calls the one before it.

ghost use Rattle.std.specs.Prelude.{◌≡◌, ◌+◌, max, List, [], map, IfOk};
ghost use Rattle.tla_token.specs.declared.rule.Rule.TheVariants.{TooMany};
ghost use Rattle.tla_tree.specs.Tree.{Tree};
ghost use Rattle.pcal_tree.specs.Algorithm.{Statements};
ghost use Rattle.pcal_tree.specs.InMemory.{simple_at, stmt_at, statements_at, branches_at, macro_at};
ghost use Rattle.pcal_tree.specs.Offences.{first};
ghost use Rattle.pcal_tree.specs.OffencesCounts.{calls_in, calls_of, calls_of_some, long_chains};
ghost use Rattle.algorithm_limits.specs.ChainsIn.{longest_in};

use crate::order::or_offence;
use crate::table::Table;
use pcal_tree::algorithm::{Macro, Simple, Stmt};
use std::alloc::{AllocError, Global};
use tla_token::{Refusal, Rule};

/// How many macros a chain may have.
pub const LONGEST_CHAIN: usize = 100;

// The greater of a length and that of the chain that ends with the macro that a statement calls, if it calls one.
fn longest_in_simple(chains: &Table, so_far: usize, simple: &Simple) -> usize
    ensures { (ts : List Tree) → result ≡ max so_far (longest_in chains.now (calls_in (simple_at ts simple.now))) }
{
    match simple {
        Simple::Macro(name, _) => so_far.max(chains.get(name)),
        _ => so_far,
    }
}

// The same of all macro calls in a statement.
#[cycle(calls)]
fn longest_in_stmt(chains: &Table, so_far: usize, stmt: &Stmt) -> usize
    ensures { (ts : List Tree) (rest : Statements) → max result (longest_in chains.now (calls_of rest)) ≡ max so_far (longest_in chains.now (calls_of (stmt_at ts stmt.now rest))) }
{
    match stmt {
        Stmt::Label(_, _) => so_far,
        Stmt::Simple(_, simple) => longest_in_simple(chains, so_far, simple),
        Stmt::If(_, _, then, otherwise) => {
            let first = longest_in_statements(chains, so_far, then);
            longest_in_statements(chains, first, otherwise)
        }
        Stmt::Either(_, list) => longest_in_branches(chains, so_far, list),
        Stmt::With(_, _, body) => longest_in_statements(chains, so_far, body),
        Stmt::While(_, _, body) => longest_in_statements(chains, so_far, body),
    }
}

// The same of those in branches.
#[cycle(calls)]
fn longest_in_branches(chains: &Table, so_far: usize, list: &[Vec<Stmt>]) -> usize
    ensures { (ts : List Tree) → result ≡ max so_far (longest_in chains.now (calls_of_some (branches_at ts list.now))) }
{
    let mut longest = so_far;
    for i in 0..list.len() {
        longest = longest_in_statements(chains, longest, &list[i]);
    }
    longest
}

// The same of those in a list of statements. It calls itself as deep as statements are in statements.
#[cycle(calls)]
fn longest_in_statements(chains: &Table, so_far: usize, stmts: &[Stmt]) -> usize
    ensures { (ts : List Tree) → result ≡ max so_far (longest_in chains.now (calls_of (statements_at ts stmts.now))) }
{
    let mut longest = so_far;
    for stmt in stmts {
        longest = longest_in_stmt(chains, longest, stmt);
    }
    longest
}

// One more. One past the largest number is more macros than memory has.
fn one_more(n: usize) -> Result<usize, AllocError>
    ensures { IfOk result (λ m. m ≡ n + 1) }
{
    n.checked_add(1).ok_or(AllocError)
}

/// The first macro with which a chain of macros is too long.
///
/// # Errors
///
/// Only for want of memory.
pub fn long_chain(alloc: Global, macros: &[Macro]) -> Result<Option<Refusal>, AllocError>
    ensures { IfOk result (λ r. (ts : List Tree) → r ≡ first (long_chains [] (map (macro_at ts) macros.now))) }
{
    let mut chains = Table::new(alloc);
    let mut found = None;
    for one in macros {
        let longest = longest_in_statements(&chains, 0, &one.body);
        let length = one_more(longest)?;
        found = or_offence(found, length > LONGEST_CHAIN, Rule::TooMany, one.name.place);
        chains.set(one.name.name.copied()?, length)?;
    }
    Ok(found)
}
