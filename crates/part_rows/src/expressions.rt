//! Expressions that are read of a text, and how they are written.

ghost use Rattle.std.specs.Prelude.{◌<◌, length, IfOk};
ghost use Rattle.tla_token.specs.Limits.{past_text};

use crate::scanning::{put_stop, put_text};
use expr_nodes::quote::unquoted;
use module_write::ways::sets;
use std::alloc::{AllocError, Global};
use tla_expr::laws::given_numbers_fit;
use tla_expr::read_expr;
use tla_pool::Pool;
use tla_token::{Stop, tokens};
use tla_tree::{NodeId, Text};
use tla_write::{write_expr, write_operand};

/// What is told of an expression.
#[derive(Clone, Copy)]
pub enum Told {
    /// How many tokens it has, and how it is written.
    Written,
    /// How many tokens it has.
    Length,
    /// How it is written as an operand.
    Operand,
}

// The expression from a token of a text on, by its number, and how many tokens it has.
fn read(alloc: Global, text: &[u8], at: usize, pool: &mut Pool) -> Result<(NodeId, usize), Stop>
    requires { length text.now < past_text }
    ensures { IfOk result (λ x. x.0 < length pool.new) }
{
    let tokens = tokens(alloc, text, 0, text.len())?;
    given_numbers_fit();
    if tokens.items.len() < at {
        return Err(Stop::Memory);
    }
    read_expr(alloc, &tokens, at, pool)
}

/// Appends what is read from a token of a text on, or the refusal.
pub fn put_expression(
    alloc: Global,
    told: &mut Vec<u8>,
    text: &[u8],
    at: usize,
    what: Told,
) -> Result<(), AllocError>
    requires { length text.now < past_text }
{
    let mut pool = Pool::new(alloc);
    match read(alloc, text, at, &mut pool) {
        Ok((e, n)) => put_read(alloc, told, &pool, e, n, what),
        Err(stop) => put_stop(alloc, told, stop),
    }
}

// Appends what is asked of an expression of so many tokens.
fn put_read(
    alloc: Global,
    told: &mut Vec<u8>,
    pool: &Pool,
    e: NodeId,
    n: usize,
    what: Told,
) -> Result<(), AllocError>
    requires { e < length pool.now }
{
    let mut text = Text::new(Vec::new(alloc));
    match what {
        Told::Length => return put_text(told, format!(in alloc; "{n}")?),
        Told::Operand => write_operand(alloc, pool, e, &mut text)?,
        Told::Written => {
            put_text(told, format!(in alloc; "{n} ")?)?;
            write_expr(alloc, pool, e, &mut text)?;
        }
    }
    told.extend_from_slice(text.bytes())
}

/// Appends how many sets an expression has for so many processes.
pub fn put_sets(
    alloc: Global,
    told: &mut Vec<u8>,
    text: &[u8],
    processes: usize,
) -> Result<(), AllocError>
    requires { length text.now < past_text }
{
    let mut pool = Pool::new(alloc);
    match read(alloc, text, 0, &mut pool) {
        Ok((e, _)) => {
            let found = sets(alloc, &pool, processes, e)?.len();
            put_text(told, format!(in alloc; "{found}")?)
        }
        Err(stop) => put_stop(alloc, told, stop),
    }
}

/// Appends the text that bytes between quotes stand for.
pub fn put_unquoted(alloc: Global, told: &mut Vec<u8>, text: &[u8]) -> Result<(), AllocError> {
    told.extend_from_slice(unquoted(alloc, text)?.bytes())
}
