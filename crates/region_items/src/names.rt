//! Names with commas between them.

ghost use Rattle.std.specs.Prelude.{◌≡◌, ◌<◌, ◌≤◌, IfOk, length};
ghost use Rattle.tla_tree.specs.Reader as reader;
ghost use Rattle.expr_nodes.specs.Ahead.{ahead};
ghost use Rattle.expr_nodes.specs.ReadIn.{Gives, Told};
ghost use Rattle.module_tree.specs.Grammar.{words_of};
ghost use Rattle.region_reading.specs.NameReader.{names_in};

use expr_nodes::cursor::Halt;
use expr_nodes::make::name_of;
use expr_nodes::spot::{Spot, after_mark, refused};
use expr_nodes::view::Mark;
use expr_rows::on_next::after_word;
use std::alloc::Global;
use tla_token::{Place, Rule, Tokens};
use tla_tree::{Name, NameList};

/// Past a name: its place, and the name.
///
/// # Errors
///
/// Refused at the next token, by the rule of syntax, where it is another; or for want of memory.
pub fn past_name(alloc: Global, tokens: &Tokens, s: Spot) -> Result<((Place, Name), usize), Halt>
    requires { s.at ≤ length tokens.now.items.items }
    ensures value { Gives (λ x. (x.0, ahead tokens.now x.1)) result (reader.a_word s.edge (ahead tokens.now s.at)) }
    ensures inside { IfOk result (λ x. x.1 ≤ length tokens.now.items.items) }
    ensures further { IfOk result (λ x. s.at < x.1) }
{
    match after_word(tokens, s) {
        Some((word, at)) => {
            let name = name_of(alloc, tokens, word.span)?;
            Ok(((word.place, name), at))
        }
        None => Err(refused(tokens, s, Rule::Syntax)),
    }
}

/// `x, y`: at least one name, and the number of the next token.
///
/// # Errors
///
/// Refused at the first token that is none of a list of names, by the rule of syntax; or for want of memory.
pub fn past_names(alloc: Global, tokens: &Tokens, s: Spot) -> Result<(NameList, usize), Halt>
    requires { s.at ≤ length tokens.now.items.items }
    ensures read { Told (λ x ns. x.0 ≡ words_of ns) (λ x. ahead tokens.now x.1) result (names_in s.edge (ahead tokens.now s.at)) }
    ensures inside { IfOk result (λ x. x.1 ≤ length tokens.now.items.items) }
    ensures further { IfOk result (λ x. s.at < x.1) }
{
    let mut names = NameList::new(alloc);
    let mut at = s.at;
    loop {
        let ((_, name), next) = past_name(alloc, tokens, Spot { at, ..s })?;
        names.push(name)?;
        match after_mark(tokens, Spot { at: next, ..s }, Mark::Comma) {
            Some(behind) => at = behind,
            None => return Ok((names, next)),
        }
    }
}
