//! Definitions and actions of a translation, each behind its title.

ghost use Rattle.std.specs.Prelude.{◌≡◌, ◌≤◌, IfOk, Option, length};
ghost use Rattle.tla_token.specs.declared.place.Place.{Place};
ghost use Rattle.tla_token.specs.TokensSeen.{span_bytes};
ghost use Rattle.tla_tree.specs.Pool.{Keeps};
ghost use Rattle.expr_nodes.specs.Ahead.{ahead};
ghost use Rattle.expr_nodes.specs.ReadIn.{Told};
ghost use Rattle.module_tree.specs.Units.{ParameterForm, begins_list as begins_list_of};
ghost use Rattle.region_reading.specs.NameReader.{parameters_from, parameters_in};
ghost use Rattle.region_reading.specs.UnitReader.{body_in, action_from, definition_from, defined_from};
ghost use Rattle.region_items.specs.Begins.{MayBegin, bound};
ghost use Rattle.region_units.specs.Stands.{IsUnitOf, IsBody, parameter_names, at_most_one as at_most_one_of};

use crate::words::EDGE;
use expr_nodes::cursor::{Halt, Word, is_mark, is_sign};
use expr_nodes::make::name_of;
use expr_nodes::spot::{Spot, next_at, past_mark, refused};
use expr_nodes::view::Mark;
use module_outside::front::token_at;
use module_write::module::{Action, Body};
use region_calls::bulleted::ways;
use region_items::items::list;
use region_items::names::past_names;
use region_items::opening::inside;
use region_items::operands::expression;
use region_made::unit::Unit;
use std::alloc::{AllocError, Global};
use tla_pool::Pool;
use tla_token::{Place, Rule, Tokens};
use tla_tree::{Name, NameList, Op};
use tla_value::names::Definition;

// `x, y)` behind `(`.
fn named(alloc: Global, tokens: &Tokens, s: Spot) -> Result<(Option<NameList>, usize), Halt>
    requires { s.at ≤ length tokens.now.items.items }
    ensures read { (p : Place) → Told (λ x (f : Option ParameterForm). x.0 ≡ parameter_names f) (λ x. ahead tokens.now x.1) result (parameters_from p (ahead tokens.now s.at)) }
    ensures inside { IfOk result (λ x. x.1 ≤ length tokens.now.items.items) }
{
    let s = Spot { edge: EDGE, ..s };
    let (names, at) = past_names(alloc, tokens, s)?;
    let (_, at) = past_mark(tokens, Spot { at, ..s }, Mark::CloseBracket)?;
    Ok((Some(names), at))
}

// The names in brackets, if there are brackets.
fn parameters(alloc: Global, tokens: &Tokens, s: Spot) -> Result<(Option<NameList>, usize), Halt>
    requires { s.at ≤ length tokens.now.items.items }
    ensures read { Told (λ x (f : Option ParameterForm). x.0 ≡ parameter_names f) (λ x. ahead tokens.now x.1) result (parameters_in (bound s.left) (ahead tokens.now s.at)) }
    ensures inside { IfOk result (λ x. x.1 ≤ length tokens.now.items.items) }
{
    let s = Spot { edge: EDGE, ..s };
    if is_mark(Mark::OpenBracket, next_at(tokens, s).view) {
        named(alloc, tokens, inside(tokens, s)?)
    } else {
        Ok((None, s.at))
    }
}

// The name in brackets, if there are brackets; and nothing where they have more names.
fn at_most_one(names: &Option<NameList>) -> Result<Option<Option<Name>>, AllocError>
    ensures { IfOk result (λ r. r ≡ at_most_one_of names.now) }
{
    let Some(list) = names else {
        return Ok(Some(None));
    };
    match list.as_slice() {
        [one] => Ok(Some(Some(one.copied()?))),
        _ => Ok(None),
    }
}

// Whether the next token, in any column, is a bullet.
fn begins_list(tokens: &Tokens, at: usize) -> bool
    requires { at ≤ length tokens.now.items.items }
    ensures { result ≡ begins_list_of (ahead tokens.now at) }
{
    if at >= tokens.items.len() {
        return false;
    }
    let view = token_at(tokens, at).view;
    is_sign(Op::And, view) || is_sign(Op::Or, view)
}

// The body of an action: items behind `/\`, or ways behind `\/`.
#[tactic(auto, using(crate::proofs::UnitsStand::ways_stand))]
fn body(alloc: Global, tokens: &Tokens, pool: &mut Pool, s: Spot) -> Result<(Body, usize), Halt>
    requires given { MayBegin tokens.now s }
    ensures read { Told (λ x f. IsBody pool.new x.0 f) (λ x. ahead tokens.now x.1) result (body_in (bound s.left) (ahead tokens.now s.at)) }
    ensures kept { Keeps pool.old pool.new }
    ensures inside { IfOk result (λ x. x.1 ≤ length tokens.now.items.items) }
{
    let s = Spot { edge: EDGE, ..s };
    let view = next_at(tokens, s).view;
    if is_sign(Op::And, view) {
        let (items, at) = list(alloc, tokens, pool, s)?;
        return Ok((Body::All(items), at));
    }
    if is_sign(Op::Or, view) {
        let (calls, at) = ways(alloc, tokens, pool, s)?;
        return Ok((Body::Any(calls), at));
    }
    Err(refused(tokens, s, Rule::Syntax))
}

// An action, behind `==`.
fn action(
    alloc: Global,
    tokens: &Tokens,
    pool: &mut Pool,
    s: Spot,
    title: Name,
    names: Option<NameList>,
) -> Result<(Unit, usize), Halt>
    requires given { MayBegin tokens.now s }
    ensures read { (p q : Place) (f : Option ParameterForm) → names ≡ parameter_names f → Told (λ x u. IsUnitOf pool.new x.0 u) (λ x. ahead tokens.now x.1) result (action_from (bound s.left) p title f q (ahead tokens.now s.at)) }
    ensures kept { Keeps pool.old pool.new }
    ensures inside { IfOk result (λ x. x.1 ≤ length tokens.now.items.items) }
{
    let found = at_most_one(&names)?;
    let (body, at) = body(alloc, tokens, pool, s)?;
    let Some(parameter) = found else {
        return Err(refused(tokens, Spot { at, ..s }, Rule::Syntax));
    };
    let action = Action {
        title,
        parameter,
        body,
    };
    Ok((Unit::Action(action), at))
}

// A definition, behind `==`.
fn definition(
    alloc: Global,
    tokens: &Tokens,
    pool: &mut Pool,
    s: Spot,
    place: Place,
    name: Name,
    names: Option<NameList>,
) -> Result<(Unit, usize), Halt>
    requires given { MayBegin tokens.now s }
    ensures read { (p q : Place) (f : Option ParameterForm) → names ≡ parameter_names f → Told (λ x u. IsUnitOf pool.new x.0 u) (λ x. ahead tokens.now x.1) result (definition_from (bound s.left) p name f q (ahead tokens.now s.at)) }
    ensures kept { Keeps pool.old pool.new }
    ensures inside { IfOk result (λ x. x.1 ≤ length tokens.now.items.items) }
{
    let (body, at) = expression(alloc, tokens, pool, Spot { edge: EDGE, ..s })?;
    let params = names.unwrap_or(NameList::new(alloc));
    let definition = Definition {
        name,
        params,
        body,
        outside: false,
        place,
    };
    Ok((Unit::Definition(definition), at))
}

/// A definition or an action, behind its title.
///
/// # Errors
///
/// The rule by which it is refused, and how many tokens are left from there on; or want of memory.
pub fn defined(
    alloc: Global,
    tokens: &Tokens,
    pool: &mut Pool,
    s: Spot,
    title: Word,
) -> Result<(Unit, usize), Halt>
    requires given { MayBegin tokens.now s }
    ensures read { Told (λ x u. IsUnitOf pool.new x.0 u) (λ x. ahead tokens.now x.1) result (defined_from (bound s.left) title.place (span_bytes tokens.now.bytes.items title.span) (ahead tokens.now s.at)) }
    ensures kept { Keeps pool.old pool.new }
    ensures inside { IfOk result (λ x. x.1 ≤ length tokens.now.items.items) }
{
    let (names, at) = parameters(alloc, tokens, s)?;
    let margin = Spot {
        at,
        edge: EDGE,
        ..s
    };
    let (_, at) = past_mark(tokens, margin, Mark::Defines)?;
    let name = name_of(alloc, tokens, title.span)?;
    let s = Spot { at, ..s };
    if begins_list(tokens, at) {
        action(alloc, tokens, pool, s, name, names)
    } else {
        definition(alloc, tokens, pool, s, title.place, name, names)
    }
}
