//! A file with its algorithm printed in the place where it is.

ghost use Rattle.std.specs.Prelude.{◌≤◌, ◌≡◌, ◌++◌, length, IfOk, OnOk};
ghost use Rattle.tla_tree.specs.laws.InText.{ends_word};
ghost use Rattle.pcal_tree.specs.InMemory.{algorithm_at, past_algorithm};
ghost use Rattle.module_split.specs.Splitting.{Splits};
ghost use Rattle.pcal_tree.specs.Syntaxes.{syntax_of};
ghost use Rattle.printed_text.specs.Rewritten.{gap, Rewritten};
ghost use Rattle.file_answer.specs.Holds.{HoldsTree};

use module_tree::Parts;
use pcal_tree::Syntax;
use pcal_tree::algorithm::Algorithm;
use std::alloc::{AllocError, Global};
use syntax_print::write_in;
use tla_pool::Pool;
use tla_token::bytes::is_word;
use tla_token::token::{head, tail};

/// Whether a text ends or goes on with a byte of no word.
fn ends_word(text: &[u8]) -> bool
    ensures { result ≡ ends_word text.now }
{
    match text {
        [] => true,
        [byte, ..] => !is_word(*byte),
    }
}

/// Appends the blank that parts the last word of an algorithm from what is behind it, where one is needed.
fn write_gap(to: Syntax, behind: &[u8], out: &mut Vec<u8>) -> Result<(), AllocError>
    ensures { OnOk result (out.new.items ≡ out.old.items ++ gap (syntax_of to) behind.now) }
{
    match to {
        Syntax::P => {
            if !ends_word(behind) {
                out.push(b' ')?;
            }
        }
        Syntax::C => {}
    }
    Ok(())
}

/// The file with its algorithm printed in this syntax; all other bytes are as they were ("A PlusCal User's Manual", section 2.1 and appendix A).
///
/// # Errors
///
/// Only for want of memory.
pub fn rewritten(
    alloc: Global,
    parts: &Parts<'_>,
    algorithm: &Algorithm,
    pool: &Pool,
    to: Syntax,
) -> Result<Vec<u8>, AllocError>
    requires numbers { past_algorithm algorithm.now ≤ length pool.now }
    requires parts { Splits parts.now.text.now parts.now }
    requires spelled { HoldsTree parts.now.text.now (algorithm_at pool.now algorithm.now) }
    ensures { IfOk result (λ w. Rewritten (syntax_of to) parts.now.text.now w.items) }
{
    let behind = tail(parts.text, parts.algorithm.to);
    let printed = write_in(alloc, pool, to, algorithm)?;
    let mut out = Vec::new(alloc);
    out.extend_from_slice(head(parts.text, parts.algorithm.from))?;
    out.extend_from_slice(&printed)?;
    write_gap(to, behind, &mut out)?;
    out.extend_from_slice(behind)?;
    Ok(out)
}
