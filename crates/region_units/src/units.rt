//! The units of a translation, by their first tokens.

ghost use Rattle.std.specs.Prelude.{◌≡◌, ◌≤◌, IfErr, IfOk, List, Some, length};
ghost use Rattle.tla_token.specs.declared.place.Place.{Place};
ghost use Rattle.tla_token.specs.TokensSeen.{span_bytes};
ghost use Rattle.tla_tree.specs.Tree.{Tree};
ghost use Rattle.tla_tree.specs.Pool.{Keeps};
ghost use Rattle.tla_tree.specs.Lexical as tk;
ghost use Rattle.tla_tree.specs.Nesting.{deepest_in_module};
ghost use Rattle.tla_expr.specs.Numbers.{NumbersFit};
ghost use Rattle.expr_nodes.specs.Ahead.{ahead};
ghost use Rattle.expr_nodes.specs.ReadIn.{Told};
ghost use Rattle.expr_nodes.specs.ViewSeen.{view_seen};
ghost use Rattle.region_reading.specs.UnitReader.{declared_from, unit_by, unit_within};
ghost use Rattle.region_items.specs.Begins.{MayBegin, bound};
ghost use Rattle.region_made.specs.UnitsAt.{unit_at, UnitIn};
ghost use Rattle.region_units.specs.Stands.{IsUnitOf};
ghost use Rattle.region_units.specs.NoUnit.{NoUnit};

use crate::defined::defined;
use crate::own::own;
use crate::words::{EDGE, is_word};
use expr_nodes::cursor::{Halt, Next, Word};
use expr_nodes::spot::{Spot, refused};
use expr_nodes::view::View;
use module_outside::front::token_at;
use region_items::names::past_names;
use region_made::unit::Unit;
use std::alloc::Global;
use tla_pool::Pool;
use tla_token::own::is_own;
use tla_token::{Rule, Span, Tokens};

// The names that are declared behind this word.
fn declared(alloc: Global, tokens: &Tokens, s: Spot, word: Span) -> Result<(Unit, usize), Halt>
    requires { s.at ≤ length tokens.now.items.items }
    ensures read { (p : Place) (ts : List Tree) → Told (λ x f. IsUnitOf ts x.0 f) (λ x. ahead tokens.now x.1) result (declared_from p (span_bytes tokens.now.bytes.items word) (ahead tokens.now s.at)) }
    ensures inside { IfOk result (λ x. x.1 ≤ length tokens.now.items.items) }
{
    let s = Spot { edge: EDGE, ..s };
    if is_word(tokens, word, b"CONSTANT") {
        let (names, at) = past_names(alloc, tokens, s)?;
        return Ok((Unit::Constant(names), at));
    }
    if is_word(tokens, word, b"VARIABLES") {
        let (names, at) = past_names(alloc, tokens, s)?;
        return Ok((Unit::Variables(names), at));
    }
    Err(refused(tokens, s, Rule::Syntax))
}

// A unit with this title, behind it.
fn titled(
    alloc: Global,
    tokens: &Tokens,
    pool: &mut Pool,
    s: Spot,
    title: Word,
) -> Result<(Unit, usize), Halt>
    requires given { MayBegin tokens.now s }
    ensures read { Told (λ x f. IsUnitOf pool.new x.0 f) (λ x. ahead tokens.now x.1) result (unit_by (bound s.left) title.place (tk.word (span_bytes tokens.now.bytes.items title.span)) (ahead tokens.now s.at)) }
    ensures kept { Keeps pool.old pool.new }
    ensures inside { IfOk result (λ x. x.1 ≤ length tokens.now.items.items) }
{
    if is_own(tokens.word(title.span)) {
        own(alloc, tokens, pool, s, title.span)
    } else {
        defined(alloc, tokens, pool, s, title)
    }
}

// A unit, behind its first token.
fn begun(
    alloc: Global,
    tokens: &Tokens,
    pool: &mut Pool,
    s: Spot,
    first: Next,
) -> Result<(Unit, usize), Halt>
    requires given { MayBegin tokens.now s }
    ensures read { Told (λ x f. IsUnitOf pool.new x.0 f) (λ x. ahead tokens.now x.1) result (unit_by (bound s.left) first.place (view_seen tokens.now.bytes.items first.view) (ahead tokens.now s.at)) }
    ensures kept { Keeps pool.old pool.new }
    ensures inside { IfOk result (λ x. x.1 ≤ length tokens.now.items.items) }
{
    match first.view {
        View::Other(word) => declared(alloc, tokens, s, word),
        View::Word(span) => {
            let title = Word {
                place: first.place,
                span,
            };
            titled(alloc, tokens, pool, s, title)
        }
        _ => Err(refused(tokens, s, Rule::Syntax)),
    }
}

/// The unit of a translation that tokens are, all of them.
/// So many forms may be open at one of them.
///
/// # Errors
///
/// By the rule of syntax where they are no unit; by that on how many forms may be open where they are none that opens so few;
/// or for want of memory.
pub fn unit(alloc: Global, tokens: &Tokens, pool: &mut Pool, left: u32) -> Result<Unit, Halt>
    requires numbers { NumbersFit tokens.now }
    requires limited { left ≤ deepest_in_module }
    ensures read { IfOk result (λ u. unit_within (bound left) (ahead tokens.now 0) ≡ Some (unit_at pool.new u)) }
    ensures within { IfOk result (λ u. UnitIn (length pool.new) u) }
    ensures none { IfErr result (λ e. NoUnit left (ahead tokens.now 0) e) }
    ensures kept { Keeps pool.old pool.new }
{
    if tokens.items.is_empty() {
        return Err(Halt::Refused(Rule::Syntax, 0));
    }
    let first = token_at(tokens, 0);
    let s = Spot {
        at: 1,
        edge: EDGE,
        left,
        linked: false,
    };
    let (unit, at) = begun(alloc, tokens, pool, s, first)?;
    if at < tokens.items.len() {
        return Err(refused(tokens, Spot { at, ..s }, Rule::Syntax));
    }
    Ok(unit)
}
