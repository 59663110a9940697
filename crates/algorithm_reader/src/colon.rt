//! Reading what stands between parts: a colon with its mark, `;`, and `,`.

ghost use Rattle.std.specs.Prelude.{◌≡◌, ◌≤◌, IfOk, Ok, length, is_some};
ghost use Rattle.expr_nodes.specs.ReadIn.{Reads};
ghost use Rattle.expr_nodes.specs.Ahead.{ahead};
ghost use Rattle.syntax_reading.specs.ReadParts.{read_colon as colon_reader, read_semicolon as semicolon_reader, read_separator as separator_reader};
ghost use Rattle.syntax_reading.specs.TokenReaders.{first};
ghost use Rattle.algorithm_reader.specs.PartsRead.{ReadsWords, mark_of, itself, is_another};

use crate::token_step::{after_mark, behind, is_next_name, next_token, past_mark};
use expr_nodes::cursor::{Halt, is_sign};
use expr_nodes::view::Mark;
use pcal_tree::mark;
use tla_token::{Place, Tokens};
use tla_tree::Op;

/// Past a colon with the `+` or `-` behind it: the mark of the label.
///
/// # Errors
///
/// Where another token is next.
pub fn read_colon(tokens: &Tokens, at: usize) -> Result<(mark::Mark, usize), Halt>
    requires { at ≤ length tokens.now.items.items }
    ensures read { ReadsWords itself mark_of tokens.now result (colon_reader (ahead tokens.now at)) }
    ensures inside { IfOk result (λ x. x.1 ≤ length tokens.now.items.items) }
    ensures further { IfOk result (λ x. at ≤ x.1) }
{
    let (_, at) = past_mark(tokens, at, Mark::Colon)?;
    let view = next_token(tokens, at).view;
    if is_sign(Op::Plus, view) {
        Ok((mark::Mark::Strong, behind(tokens, at)))
    } else if is_sign(Op::Minus, view) {
        Ok((mark::Mark::LeftOut, behind(tokens, at)))
    } else {
        Ok((mark::Mark::Plain, at))
    }
}

/// Past a `;`, if it is next: its place.
pub fn past_semicolon(tokens: &Tokens, at: usize) -> (Option<Place>, usize)
    requires { at ≤ length tokens.now.items.items }
    ensures read { semicolon_reader (ahead tokens.now at) ≡ Ok (result.0, ahead tokens.now result.1) }
    ensures inside { result.1 ≤ length tokens.now.items.items }
    ensures no_less { at ≤ result.1 }
{
    match after_mark(tokens, at, Mark::Semicolon) {
        Some(next) => (Some(next_token(tokens, at).place), next),
        None => (None, at),
    }
}

/// Past a `;` or `,`, if it is next: whether it was.
pub fn past_separator(tokens: &Tokens, at: usize) -> (bool, usize)
    requires { at ≤ length tokens.now.items.items }
    ensures read { Reads (λ s. is_some s ≡ result.0) (ahead tokens.now result.1) (separator_reader (ahead tokens.now at)) }
    ensures inside { result.1 ≤ length tokens.now.items.items }
    ensures no_less { at ≤ result.1 }
{
    if let Some(next) = after_mark(tokens, at, Mark::Semicolon) {
        (true, next)
    } else if let Some(next) = after_mark(tokens, at, Mark::Comma) {
        (true, next)
    } else {
        (false, at)
    }
}

/// Past a `;` or `,`, if it is next: whether it was, and a name is behind it.
pub fn past_separator_to_name(tokens: &Tokens, at: usize) -> (bool, usize)
    requires { at ≤ length tokens.now.items.items }
    ensures read { Reads (λ s. is_another s (first (ahead tokens.now result.1)) ≡ result.0) (ahead tokens.now result.1) (separator_reader (ahead tokens.now at)) }
    ensures inside { result.1 ≤ length tokens.now.items.items }
    ensures no_less { at ≤ result.1 }
{
    let (separated, next) = past_separator(tokens, at);
    (separated && is_next_name(tokens, next), next)
}
