//! Reading the arms of `CASE`, over a reader of the expressions in them.

ghost use Rattle.std.specs.Prelude.{◌<◌, ◌≤◌, suc, length, IfOk, Some};
ghost use Rattle.tla_tree.specs.Pool.{AllBelow, Keeps};
ghost use Rattle.tla_tree.specs.Shapes.{CaseShaped};
ghost use Rattle.tla_tree.specs.Spelling.{Phrase};
ghost use Rattle.tla_tree.specs.Whole.{whole_in};
ghost use Rattle.expr_nodes.specs.Ahead.{ahead};
ghost use Rattle.expr_nodes.specs.ReadIn.{AreArms, IsIn, Told};
ghost use Rattle.expr_rows.specs.HasRead.{one_arm};
ghost use Rattle.expr_rows.specs.MayRead.{MayRead};

use crate::read_behind::behind;
use expr_nodes::cursor::Halt;
use expr_nodes::make::Read;
use expr_nodes::shape::{Context, larger};
use expr_nodes::spot::Spot;
use expr_nodes::view::{Key, Mark};
use expr_rows::on_next::{after_box, after_key};
use std::alloc::Global;
use tla_pool::Pool;
use tla_token::{Place, Tokens};
use tla_tree::NodeId;

/// A test, and the value where it holds.
#[derive(Clone, Copy)]
pub struct Arm {
    pub test: Read,
    pub value: Read,
}

/// Arms that were read: whether `OTHER` is the last, the numbers of tests and values, and what they open.
#[derive(Drop)]
pub struct ManyArms {
    pub other: bool,
    pub ids: Vec<NodeId>,
    pub nesting: u32,
}

// `p -> e`
fn next_arm<F: Fn(&mut Pool, Context, Spot) -> Result<(Read, usize), Halt>>(
    tokens: &Tokens,
    inner: &F,
    pool: &mut Pool,
    s: Spot,
) -> Result<(Arm, usize), Halt>
    requires given { MayRead tokens.now s (suc s.left) (F.pre inner.now) (F.post inner.now) }
    ensures read { Told (λ x (y : Phrase × Place × Phrase). IsIn s.linked pool.new x.0.test y.0 × IsIn s.linked pool.new x.0.value y.2) (λ x. ahead tokens.now x.1) result (one_arm (whole_in s.linked (Some s.left)) s.edge (ahead tokens.now s.at)) }
    ensures kept { Keeps pool.old pool.new }
    ensures test_small { IfOk result (λ x. x.0.test.shape.nesting ≤ s.left) }
    ensures value_small { IfOk result (λ x. x.0.value.shape.nesting ≤ s.left) }
    ensures inside { IfOk result (λ x. x.1 ≤ length tokens.now.items.items) }
    ensures further { IfOk result (λ x. s.at ≤ x.1) }
{
    let (test, at) = inner(pool, Context::Free, s)?;
    let (value, at) = behind(tokens, inner, pool, Spot { at, ..s }, Mark::Arrow)?;
    Ok((Arm { test, value }, at))
}

/// `p -> e [] q -> f [] OTHER -> g`
///
/// # Errors
///
/// The rule by which it is refused, and how many tokens are left from there on; or want of memory.
#[tactic(auto, using(crate::proofs::ReadArms::first_fails))]
pub fn arms<F: Fn(&mut Pool, Context, Spot) -> Result<(Read, usize), Halt>>(
    alloc: Global,
    tokens: &Tokens,
    inner: &F,
    pool: &mut Pool,
    s: Spot,
) -> Result<(ManyArms, usize), Halt>
    requires given { MayRead tokens.now s (suc s.left) (F.pre inner.now) (F.post inner.now) }
    ensures read { Told (λ x xs. AreArms s.linked pool.new x.0.other x.0.ids.items x.0.nesting xs) (λ x. ahead tokens.now x.1) result ((whole_in s.linked (Some s.left)).arms s.edge (ahead tokens.now s.at)) }
    ensures kept { Keeps pool.old pool.new }
    ensures shaped { IfOk result (λ x. CaseShaped x.0.other (length x.0.ids.items)) }
    ensures below { IfOk result (λ x. AllBelow (length pool.new) x.0.ids.items) }
    ensures small { IfOk result (λ x. x.0.nesting ≤ s.left) }
    ensures inside { IfOk result (λ x. x.1 ≤ length tokens.now.items.items) }
    ensures further { IfOk result (λ x. s.at ≤ x.1) }
{
    let (first, next) = next_arm(tokens, inner, pool, s)?;
    let mut at = next;
    let mut last = first.value.shape;
    let mut nesting = larger(first.test.shape.nesting, last.nesting);
    let mut ids = Vec::from_array(alloc, [first.test.id, first.value.id])?;
    while let Some(from) = after_box(tokens, Spot { at, ..s }, last) {
        if let Some(from) = after_key(tokens, Spot { at: from, ..s }, Key::Other) {
            let (c, at) = behind(tokens, inner, pool, Spot { at: from, ..s }, Mark::Arrow)?;
            ids.push(c.id)?;
            let nesting = larger(nesting, c.shape.nesting);
            let other = true;
            return Ok((
                ManyArms {
                    other,
                    ids,
                    nesting,
                },
                at,
            ));
        }
        let (a, next) = next_arm(tokens, inner, pool, Spot { at: from, ..s })?;
        at = next;
        last = a.value.shape;
        ids.extend_from_slice(&[a.test.id, a.value.id])?;
        nesting = larger(nesting, larger(a.test.shape.nesting, last.nesting));
    }
    let other = false;
    Ok((
        ManyArms {
            other,
            ids,
            nesting,
        },
        at,
    ))
}
