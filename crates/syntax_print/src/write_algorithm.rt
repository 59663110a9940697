//! The printed text of an algorithm, in either syntax.

ghost use Rattle.std.specs.Prelude.{◌≡◌, ◌≤◌, ◌++◌, length, OnOk, IfOk};
ghost use Rattle.pcal_tree.specs.Printed.{opening, algorithm_word, printed, PText, CText};
ghost use Rattle.pcal_tree.specs.InMemory.{algorithm_at, past_algorithm};
ghost use Rattle.pcal_tree.specs.Syntaxes.{syntax_of};
ghost use Rattle.syntax_print.specs.Adding.{behind, lines_behind};

use crate::syntax::{last_line_text, write_opening};
use crate::write_part::begin_line;
use crate::write_unit::{
    write_define, write_macros, write_main, write_procedures, write_variables,
};
use pcal_tree::Syntax;
use pcal_tree::algorithm::Algorithm;
use std::alloc::{AllocError, Global};
use tla_pool::Pool;
use tla_tree::Text;

fn first_word(fair: bool) -> &'static str
    ensures { result.now ≡ algorithm_word fair }
{
    if fair {
        "--fair algorithm "
    } else {
        "--algorithm "
    }
}

fn write_first_line(
    syntax: Syntax,
    algorithm: &Algorithm,
    into: &mut Text,
) -> Result<(), AllocError>
    ensures { OnOk result (into.new ≡ into.old ++ (algorithm_word algorithm.now.fair ++ opening (syntax_of syntax) algorithm.now.name.word)) }
{
    into.extend(first_word(algorithm.fair).as_bytes())?;
    write_opening(syntax, algorithm.name.name.bytes(), into)
}

// The lines behind the first.
fn write_rest(
    alloc: Global,
    pool: &Pool,
    syntax: Syntax,
    algorithm: &Algorithm,
    into: &mut Text,
) -> Result<(), AllocError>
    requires { past_algorithm algorithm.now ≤ length pool.now }
    ensures { OnOk result (into.new ≡ into.old ++ behind (lines_behind (syntax_of syntax) (algorithm_at pool.now algorithm.now))) }
{
    write_variables(alloc, pool, &algorithm.globals, into)?;
    write_define(alloc, pool, syntax, &algorithm.definitions, into)?;
    write_macros(alloc, pool, syntax, &algorithm.macros, into)?;
    write_procedures(alloc, pool, syntax, &algorithm.procedures, into)?;
    write_main(alloc, pool, syntax, &algorithm.main, into)?;
    begin_line(0, last_line_text(syntax).as_bytes(), into)
}

/// The printed text of an algorithm in a syntax ("A PlusCal User's Manual", section 3 and appendix A).
///
/// # Errors
///
/// Only for want of memory.
pub fn write_in(
    alloc: Global,
    pool: &Pool,
    syntax: Syntax,
    algorithm: &Algorithm,
) -> Result<Vec<u8>, AllocError>
    requires { past_algorithm algorithm.now ≤ length pool.now }
    ensures { IfOk result (λ w. w.items ≡ printed (syntax_of syntax) (algorithm_at pool.now algorithm.now)) }
{
    let mut text = Text::new(Vec::new(alloc));
    write_first_line(syntax, algorithm, &mut text)?;
    write_rest(alloc, pool, syntax, algorithm, &mut text)?;
    Ok(text.into_bytes())
}

/// The printed text of an algorithm in P-syntax.
///
/// # Errors
///
/// Only for want of memory.
pub fn write_p(alloc: Global, pool: &Pool, algorithm: &Algorithm) -> Result<Vec<u8>, AllocError>
    requires { past_algorithm algorithm.now ≤ length pool.now }
    ensures { IfOk result (λ w. w.items ≡ PText (algorithm_at pool.now algorithm.now)) }
{
    write_in(alloc, pool, Syntax::P, algorithm)
}

/// The printed text of an algorithm in C-syntax.
///
/// # Errors
///
/// Only for want of memory.
pub fn write_c(alloc: Global, pool: &Pool, algorithm: &Algorithm) -> Result<Vec<u8>, AllocError>
    requires { past_algorithm algorithm.now ≤ length pool.now }
    ensures { IfOk result (λ w. w.items ≡ CText (algorithm_at pool.now algorithm.now)) }
{
    write_in(alloc, pool, Syntax::C, algorithm)
}
