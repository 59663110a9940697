//! Reading the settings of an `EXCEPT`: `![a].b = e, !.c = f`.

ghost use Rattle.std.specs.Prelude.{◌≡◌, ◌<◌, ◌≤◌, ◌++◌, ◌∷◌, [], max, suc, length, IfOk, OnOk, Some};
ghost use Rattle.tla_tree.specs.Pool.{AllBelow, Keeps};
ghost use Rattle.tla_tree.specs.Shapes.{HavePaths, settings as settings_of};
ghost use Rattle.tla_tree.specs.Whole.{whole_in};
ghost use Rattle.tla_pool.specs.FormOf.{slots_of, steps_of};
ghost use Rattle.expr_nodes.specs.Ahead.{ahead};
ghost use Rattle.expr_nodes.specs.ReadIn.{AreSettings, Told};
ghost use Rattle.expr_rows.specs.MayRead.{MayRead};

use crate::read_path::{Route, path};
use expr_nodes::cursor::Halt;
use expr_nodes::make::Read;
use expr_nodes::shape::{Context, larger};
use expr_nodes::spot::{Spot, after_mark, past_mark, past_sign, refused};
use expr_nodes::view::Mark;
use std::alloc::{AllocError, Global};
use tla_pool::Pool;
use tla_pool::form::Slot;
use tla_token::{Place, Rule, Tokens};
use tla_tree::{NodeId, Op};

/// Settings that were read: their paths, the numbers of their subscripts and right sides, and what they open.
#[derive(Drop)]
pub struct Settled {
    pub slots: Vec<Slot>,
    pub ids: Vec<NodeId>,
    pub nesting: u32,
}

// One more setting, which faults at a place.
fn keep(all: &mut Settled, place: Place, route: Route, a: Read) -> Result<(), AllocError>
    ensures slots { OnOk result (slots_of all.new.slots.items ≡ slots_of all.old.slots.items ++ record { path = steps_of route.steps.items; place = place } ∷ []) }
    ensures ids { OnOk result (all.new.ids.items ≡ all.old.ids.items ++ (route.ids.items ++ a.id ∷ [])) }
    ensures nesting { OnOk result (all.new.nesting ≡ max all.old.nesting (max route.nesting a.shape.nesting)) }
{
    all.nesting = larger(all.nesting, larger(route.nesting, a.shape.nesting));
    all.ids.extend_from_slice(&route.ids)?;
    all.ids.push(a.id)?;
    let slot = Slot {
        path: route.steps,
        place,
    };
    all.slots.push(slot)?;
    Ok(())
}

/// `![a].b = e, !.c = f`, each of which faults at a place.
///
/// # Errors
///
/// The rule by which it is refused, and how many tokens are left from there on; or want of memory.
pub fn settings<F: Fn(&mut Pool, Context, Spot) -> Result<(Read, usize), Halt>>(
    alloc: Global,
    tokens: &Tokens,
    inner: &F,
    pool: &mut Pool,
    s: Spot,
    place: Place,
) -> Result<(Settled, usize), Halt>
    requires given { MayRead tokens.now s (suc s.left) (F.pre inner.now) (F.post inner.now) }
    ensures read { Told (λ x ss. AreSettings s.linked pool.new place (slots_of x.0.slots.items) x.0.ids.items x.0.nesting ss) (λ x. ahead tokens.now x.1) result ((whole_in s.linked (Some s.left)).settings s.edge (ahead tokens.now s.at)) }
    ensures kept { Keeps pool.old pool.new }
    ensures below { IfOk result (λ x. AllBelow (length pool.new) x.0.ids.items) }
    ensures as_many { IfOk result (λ x. length x.0.ids.items ≡ settings_of (slots_of x.0.slots.items)) }
    ensures paths { IfOk result (λ x. HavePaths (slots_of x.0.slots.items)) }
    ensures small { IfOk result (λ x. x.0.nesting ≤ s.left) }
    ensures inside { IfOk result (λ x. x.1 ≤ length tokens.now.items.items) }
    ensures further { IfOk result (λ x. s.at ≤ x.1) }
{
    let mut all = Settled {
        slots: Vec::new(alloc),
        ids: Vec::new(alloc),
        nesting: 0,
    };
    let mut at = s.at;
    loop {
        let (_, from) = past_mark(tokens, Spot { at, ..s }, Mark::Bang)?;
        let (route, past) = path(alloc, tokens, inner, pool, Spot { at: from, ..s })?;
        if route.steps.is_empty() {
            return Err(refused(tokens, Spot { at: past, ..s }, Rule::Syntax));
        }
        let (_, from) = past_sign(tokens, Spot { at: past, ..s }, Op::Equal)?;
        let (a, next) = inner(pool, Context::Free, Spot { at: from, ..s })?;
        keep(&mut all, place, route, a)?;
        let Some(from) = after_mark(tokens, Spot { at: next, ..s }, Mark::Comma) else {
            return Ok((all, next));
        };
        at = from;
    }
}
