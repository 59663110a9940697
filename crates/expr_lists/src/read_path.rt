//! Reading the path of a setting: `[a, b].c`.

ghost use Rattle.std.specs.Prelude.{◌≡◌, ◌<◌, ◌≤◌, ◌+◌, ◌++◌, ◌∷◌, [], max, suc, length, IfOk, OnOk, Some};
ghost use Rattle.tla_tree.specs.Nesting.{deepest_in_module};
ghost use Rattle.tla_token.specs.TokensSeen.{span_bytes};
ghost use Rattle.tla_tree.specs.Pool.{Keeps};
ghost use Rattle.tla_tree.specs.Tree.{index, field};
ghost use Rattle.tla_tree.specs.Whole.{whole_in};
ghost use Rattle.tla_pool.specs.FormOf.{steps_of};
ghost use Rattle.expr_nodes.specs.Ahead.{ahead};
ghost use Rattle.expr_nodes.specs.ReadIn.{Told};
ghost use Rattle.expr_rows.specs.MayRead.{MayRead};
ghost use Rattle.expr_lists.specs.Routed.{indexed, IsSubscript, IsPath};

use expr_nodes::cursor::{FieldName, Halt};
use expr_nodes::make::{Read, name_of, subscript};
use expr_nodes::shape::{Context, larger};
use expr_nodes::spot::{Spot, after_mark, deeper, past_field, past_mark};
use expr_nodes::view::Mark;
use expr_rows::read_row::phrases;
use std::alloc::{AllocError, Global};
use tla_pool::Pool;
use tla_pool::form::Step;
use tla_token::Tokens;
use tla_tree::NodeId;

/// A path that was read: its steps, the numbers of its subscripts, and what they open.
#[derive(Drop)]
pub struct Route {
    pub steps: Vec<Step>,
    pub ids: Vec<NodeId>,
    pub nesting: u32,
}

/// `a, b]` behind `[` in a path: the number of the subscript, and what is open in it.
///
/// # Errors
///
/// The rule by which it is refused, and how many tokens are left from there on; or want of memory.
#[tactic(auto, using(expr_nodes::proofs::MakeLemmas::subscript_in))]
pub fn subscript_in<F: Fn(&mut Pool, Context, Spot) -> Result<(Read, usize), Halt>>(
    alloc: Global,
    tokens: &Tokens,
    inner: &F,
    pool: &mut Pool,
    s: Spot,
) -> Result<(NodeId, u32, usize), Halt>
    requires given { MayRead tokens.now s (suc s.left) (F.pre inner.now) (F.post inner.now) }
    ensures read { Told (λ x a. IsSubscript s.linked pool.new x.0 x.1 a.0) (λ x. ahead tokens.now x.2) result (indexed (whole_in s.linked (Some s.left)) s.edge (ahead tokens.now s.at)) }
    ensures kept { Keeps pool.old pool.new }
    ensures small { IfOk result (λ x. x.1 ≤ s.left) }
    ensures inside { IfOk result (λ x. x.2 ≤ length tokens.now.items.items) }
    ensures further { IfOk result (λ x. s.at ≤ x.2) }
{
    let (many, at) = phrases(alloc, tokens, inner, pool, s)?;
    let (_, at) = past_mark(tokens, Spot { at, ..s }, Mark::CloseSquare)?;
    let nesting = many.row.nesting;
    let id = subscript(pool, many.ids, many.row.first)?;
    Ok((id, nesting, at))
}

// One more subscript, in which so many forms are open.
fn indexed_by(route: &mut Route, id: NodeId, opened: u32) -> Result<(), AllocError>
    requires { opened < deepest_in_module }
    ensures steps { OnOk result (steps_of route.new.steps.items ≡ steps_of route.old.steps.items ++ index ∷ []) }
    ensures ids { OnOk result (route.new.ids.items ≡ route.old.ids.items ++ id ∷ []) }
    ensures nesting { OnOk result (route.new.nesting ≡ max route.old.nesting (1 + opened)) }
{
    route.steps.push(Step::Index)?;
    route.ids.push(id)?;
    route.nesting = larger(route.nesting, 1 + opened);
    Ok(())
}

// One more field.
fn at_field(
    alloc: Global,
    tokens: &Tokens,
    route: &mut Route,
    name: FieldName,
) -> Result<(), AllocError>
    ensures steps { OnOk result (steps_of route.new.steps.items ≡ steps_of route.old.steps.items ++ field (span_bytes tokens.now.bytes.items name.span) ∷ []) }
    ensures ids { OnOk result (route.new.ids.items ≡ route.old.ids.items) }
    ensures nesting { OnOk result (route.new.nesting ≡ route.old.nesting) }
{
    let step = Step::Field(name_of(alloc, tokens, name.span)?);
    route.steps.push(step)?;
    Ok(())
}

/// `[a, b].c`, which may be empty.
///
/// # Errors
///
/// The rule by which it is refused, and how many tokens are left from there on; or want of memory.
pub fn path<F: Fn(&mut Pool, Context, Spot) -> Result<(Read, usize), Halt>>(
    alloc: Global,
    tokens: &Tokens,
    inner: &F,
    pool: &mut Pool,
    s: Spot,
) -> Result<(Route, usize), Halt>
    requires given { MayRead tokens.now s s.left (F.pre inner.now) (F.post inner.now) }
    ensures read { Told (λ x p. IsPath s.linked pool.new (steps_of x.0.steps.items) x.0.ids.items x.0.nesting p) (λ x. ahead tokens.now x.1) result ((whole_in s.linked (Some s.left)).path s.edge (ahead tokens.now s.at)) }
    ensures kept { Keeps pool.old pool.new }
    ensures small { IfOk result (λ x. x.0.nesting ≤ s.left) }
    ensures inside { IfOk result (λ x. x.1 ≤ length tokens.now.items.items) }
    ensures further { IfOk result (λ x. s.at ≤ x.1) }
{
    let mut route = Route {
        steps: Vec::new(alloc),
        ids: Vec::new(alloc),
        nesting: 0,
    };
    let mut at = s.at;
    loop {
        if let Some(from) = after_mark(tokens, Spot { at, ..s }, Mark::OpenSquare) {
            let d = deeper(tokens, Spot { at, ..s }, 0)?;
            let d = Spot {
                at: from,
                left: d.left,
                ..s
            };
            let (id, opened, next) = subscript_in(alloc, tokens, inner, pool, d)?;
            indexed_by(&mut route, id, opened)?;
            at = next;
            continue;
        }
        let Some(from) = after_mark(tokens, Spot { at, ..s }, Mark::Dot) else {
            return Ok((route, at));
        };
        let (field, next) = past_field(tokens, Spot { at: from, ..s })?;
        at_field(alloc, tokens, &mut route, field)?;
        at = next;
    }
}
