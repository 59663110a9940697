//! Printed lists of statements.

ghost use Rattle.std.specs.Prelude.{◌≡◌, ◌<◌, ◌≤◌, ◌+◌, ◌++◌, length, [], cond, codes, OnOk, IfOk};
ghost use Rattle.tla_tree.specs.Pool.{at};
ghost use Rattle.tla_tree.specs.Written.{written};
ghost use Rattle.pcal_tree.specs.Printed.{simple_line, statements, branches, otherwise, line, head, opening, middle, closing, listed, binds_texts};
ghost use Rattle.pcal_tree.specs.InMemory.{simple_at, binds_at, stmt_at, statements_at, branches_at, past_simple, past_binds, past_stmt, past_statements, past_branches};
ghost use Rattle.pcal_tree.specs.Syntaxes.{syntax_of};
ghost use Rattle.syntax_print.specs.Adding.{labels_after, Adds, AddsFirst};

use crate::syntax::{write_closing, write_head_end, write_head_start, write_middle, write_opening};
use crate::write_part::{begin_line, write_arguments, write_assignments, write_binds, write_name};
use pcal_tree::Syntax;
use pcal_tree::algorithm::{Bind, Simple, Stmt};
use pcal_tree::mark::mark_text;
use std::alloc::{AllocError, Global};
use tla_pool::Pool;
use tla_tree::{NodeId, Text};
use tla_write::write_expr;

// The indentation of what is in a statement. One past the largest number is more blanks than memory has.
fn deeper(k: usize) -> Result<usize, AllocError>
    ensures { IfOk result (λ n. n ≡ k + 2) }
{
    k.checked_add(2).ok_or(AllocError)
}

// `word e;`
fn write_of_expression(
    alloc: Global,
    pool: &Pool,
    word: &[u8],
    e: NodeId,
    into: &mut Text,
) -> Result<(), AllocError>
    requires { e < length pool.now }
    ensures { OnOk result (into.new ≡ into.old ++ word.now ++ written (at pool.now e) ++ codes ";") }
{
    into.extend(word)?;
    write_expr(alloc, pool, e, into)?;
    into.push(b';')
}

// A statement with no statements in it, behind its labels.
fn write_simple(
    alloc: Global,
    pool: &Pool,
    simple: &Simple,
    into: &mut Text,
) -> Result<(), AllocError>
    requires { past_simple simple.now ≤ length pool.now }
    ensures { OnOk result (into.new ≡ simple_line into.old (simple_at pool.now simple.now)) }
{
    match simple {
        Simple::Assign(assignments) => {
            write_assignments(alloc, pool, assignments, into)?;
            into.push(b';')
        }
        Simple::Await(e) => write_of_expression(alloc, pool, b"await ", *e, into),
        Simple::Print(e) => write_of_expression(alloc, pool, b"print ", *e, into),
        Simple::Assert(e) => write_of_expression(alloc, pool, b"assert ", *e, into),
        Simple::Skip => into.extend(b"skip;"),
        Simple::Goto(label) => {
            into.extend(b"goto ")?;
            into.extend(label.bytes())?;
            into.push(b';')
        }
        Simple::Macro(name, arguments) => {
            into.extend(name.bytes())?;
            write_arguments(alloc, pool, arguments, into)?;
            into.push(b';')
        }
        Simple::Call(name, arguments) => {
            into.extend(b"call ")?;
            write_name(name, into)?;
            write_arguments(alloc, pool, arguments, into)?;
            into.push(b';')
        }
        Simple::Return => into.extend(b"return;"),
    }
}

// A line with the end of a statement.
fn write_end(syntax: Syntax, k: usize, word: &[u8], into: &mut Text) -> Result<(), AllocError>
    ensures { OnOk result (Adds into.old into.new (line k (closing (syntax_of syntax) word.now))) }
{
    begin_line(k, b"", into)?;
    write_closing(syntax, word, into)
}

// A line with what is between two parts of a statement.
fn write_middle_line(
    syntax: Syntax,
    k: usize,
    word: &[u8],
    into: &mut Text,
) -> Result<(), AllocError>
    ensures { OnOk result (Adds into.old into.new (line k (middle (syntax_of syntax) word.now))) }
{
    begin_line(k, b"", into)?;
    write_middle(syntax, word, into)
}

// `if e then`, on the line that its labels began; so of `while`.
fn write_tested(
    alloc: Global,
    pool: &Pool,
    syntax: Syntax,
    word: &[u8],
    e: NodeId,
    last: &[u8],
    into: &mut Text,
) -> Result<(), AllocError>
    requires { e < length pool.now }
    ensures { OnOk result (into.new ≡ into.old ++ head (syntax_of syntax) word.now (written (at pool.now e)) last.now) }
{
    write_head_start(syntax, word, into)?;
    write_expr(alloc, pool, e, into)?;
    write_head_end(syntax, last, into)
}

// `with x \in S do`
fn write_with(
    alloc: Global,
    pool: &Pool,
    syntax: Syntax,
    binds: &[Bind],
    into: &mut Text,
) -> Result<(), AllocError>
    requires { past_binds binds.now ≤ length pool.now }
    ensures { OnOk result (into.new ≡ into.old ++ head (syntax_of syntax) (codes "with") (listed (binds_texts (binds_at pool.now binds.now))) (codes "do")) }
{
    write_head_start(syntax, b"with", into)?;
    write_binds(alloc, pool, binds, into)?;
    write_head_end(syntax, b"do", into)
}

// The line before a branch: the first is after the text of the labels.
fn write_branch_line(
    syntax: Syntax,
    k: usize,
    labels: &[u8],
    first: bool,
    into: &mut Text,
) -> Result<(), AllocError>
    ensures { OnOk result (Adds into.old into.new (line k (cond first (labels.now ++ opening (syntax_of syntax) (codes "either")) (middle (syntax_of syntax) (codes "or"))))) }
{
    if first {
        begin_line(k, labels, into)?;
        write_opening(syntax, b"either", into)
    } else {
        write_middle_line(syntax, k, b"or", into)
    }
}

// The text of the labels after one more, or after a statement.
fn more_labels(alloc: Global, labels: Text, stmt: &Stmt) -> Result<Text, AllocError>
    ensures { IfOk result (λ w. w ≡ labels_after stmt.now labels) }
{
    let mut labels = labels;
    match stmt {
        Stmt::Label(name, mark) => {
            write_name(name, &mut labels)?;
            labels.extend(mark_text(*mark).as_bytes())?;
            labels.push(b' ')?;
            Ok(labels)
        }
        _ => Ok(Text::new(Vec::new(alloc))),
    }
}

// A statement at this indentation, after the text of its labels; nothing, where it is a label.
#[cycle(write)]
fn write_stmt(
    alloc: Global,
    pool: &Pool,
    syntax: Syntax,
    k: usize,
    labels: &[u8],
    stmt: &Stmt,
    into: &mut Text,
) -> Result<(), AllocError>
    requires { past_stmt stmt.now ≤ length pool.now }
    ensures { OnOk result (AddsFirst into.old into.new (syntax_of syntax) k labels.now (labels_after stmt.now labels.now) (stmt_at pool.now stmt.now)) }
{
    match stmt {
        Stmt::Label(_, _) => Ok(()),
        Stmt::Simple(_, simple) => {
            begin_line(k, labels, into)?;
            write_simple(alloc, pool, simple, into)
        }
        Stmt::If(_, e, then, otherwise) => {
            begin_line(k, labels, into)?;
            write_tested(alloc, pool, syntax, b"if", *e, b"then", into)?;
            write_statements(alloc, pool, syntax, deeper(k)?, then, into)?;
            write_otherwise(alloc, pool, syntax, k, otherwise, into)?;
            write_end(syntax, k, b"if", into)
        }
        Stmt::Either(_, list) => {
            write_branches(alloc, pool, syntax, k, labels, list, into)?;
            write_end(syntax, k, b"either", into)
        }
        Stmt::With(_, binds, body) => {
            begin_line(k, labels, into)?;
            write_with(alloc, pool, syntax, binds, into)?;
            write_statements(alloc, pool, syntax, deeper(k)?, body, into)?;
            write_end(syntax, k, b"with", into)
        }
        Stmt::While(_, e, body) => {
            begin_line(k, labels, into)?;
            write_tested(alloc, pool, syntax, b"while", *e, b"do", into)?;
            write_statements(alloc, pool, syntax, deeper(k)?, body, into)?;
            write_end(syntax, k, b"while", into)
        }
    }
}

// The `else`, where it has statements.
#[cycle(write)]
fn write_otherwise(
    alloc: Global,
    pool: &Pool,
    syntax: Syntax,
    k: usize,
    stmts: &[Stmt],
    into: &mut Text,
) -> Result<(), AllocError>
    requires { past_statements stmts.now ≤ length pool.now }
    ensures { OnOk result (Adds into.old into.new (otherwise (syntax_of syntax) k (statements_at pool.now stmts.now))) }
{
    if stmts.is_empty() {
        return Ok(());
    }
    write_middle_line(syntax, k, b"else", into)?;
    write_statements(alloc, pool, syntax, deeper(k)?, stmts, into)
}

// Each branch after its line, the first after the text of the labels.
#[cycle(write)]
fn write_branches(
    alloc: Global,
    pool: &Pool,
    syntax: Syntax,
    k: usize,
    labels: &[u8],
    list: &[Vec<Stmt>],
    into: &mut Text,
) -> Result<(), AllocError>
    requires { past_branches list.now ≤ length pool.now }
    ensures { OnOk result (Adds into.old into.new (branches (syntax_of syntax) k (labels.now ++ opening (syntax_of syntax) (codes "either")) (branches_at pool.now list.now))) }
{
    for i in 0..list.len() {
        write_branch_line(syntax, k, labels, i == 0, into)?;
        write_statements(alloc, pool, syntax, deeper(k)?, &list[i], into)?;
    }
    Ok(())
}

/// Appends a list of statements, a line or more for each, indented by `k`. The labels before a statement are on its first line.
/// The writer calls itself as deep as statements are in statements.
///
/// # Errors
///
/// Only for want of memory.
#[cycle(write)]
pub fn write_statements(
    alloc: Global,
    pool: &Pool,
    syntax: Syntax,
    k: usize,
    stmts: &[Stmt],
    into: &mut Text,
) -> Result<(), AllocError>
    requires { past_statements stmts.now ≤ length pool.now }
    ensures { OnOk result (Adds into.old into.new (statements (syntax_of syntax) k [] (statements_at pool.now stmts.now))) }
{
    let mut labels = Text::new(Vec::new(alloc));
    for stmt in stmts {
        write_stmt(alloc, pool, syntax, k, labels.bytes(), stmt, into)?;
        labels = more_labels(alloc, labels, stmt)?;
    }
    Ok(())
}
