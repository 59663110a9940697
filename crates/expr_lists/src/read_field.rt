//! Reading fields: `a |-> e, b |-> f`, and `a : S, b : T`.

ghost use Rattle.std.specs.Prelude.{◌≡◌, ◌<◌, ◌≤◌, ◌++◌, ◌∷◌, [], max, suc, length, IfOk, OnOk, Some};
ghost use Rattle.tla_token.specs.TokensSeen.{span_bytes};
ghost use Rattle.tla_tree.specs.Pool.{AllBelow, Keeps};
ghost use Rattle.tla_tree.specs.Whole.{whole_in};
ghost use Rattle.expr_nodes.specs.Ahead.{ahead};
ghost use Rattle.expr_nodes.specs.ReadIn.{AreFields, Told, field_seen};
ghost use Rattle.expr_nodes.specs.ViewSeen.{mark_seen};
ghost use Rattle.expr_rows.specs.MayRead.{MayRead};

use crate::read_behind::behind;
use expr_nodes::cursor::{FieldName, Halt};
use expr_nodes::make::{Read, name_of};
use expr_nodes::shape::{Context, larger};
use expr_nodes::spot::{Spot, after_mark, past_field};
use expr_nodes::view::Mark;
use std::alloc::{AllocError, Global};
use tla_pool::Pool;
use tla_token::Tokens;
use tla_tree::{NameList, NodeId};

/// Fields that were read: their names, the numbers of what is in them, and what they open.
#[derive(Drop)]
pub struct Labelled {
    pub labels: NameList,
    pub ids: Vec<NodeId>,
    pub nesting: u32,
}

// One more field.
fn keep(
    alloc: Global,
    tokens: &Tokens,
    all: &mut Labelled,
    field: FieldName,
    a: Read,
) -> Result<(), AllocError>
    ensures labels { OnOk result (all.new.labels ≡ all.old.labels ++ span_bytes tokens.now.bytes.items field.span ∷ []) }
    ensures ids { OnOk result (all.new.ids.items ≡ all.old.ids.items ++ a.id ∷ []) }
    ensures nesting { OnOk result (all.new.nesting ≡ max all.old.nesting a.shape.nesting) }
{
    all.labels.push(name_of(alloc, tokens, field.span)?)?;
    all.ids.push(a.id)?;
    all.nesting = larger(all.nesting, a.shape.nesting);
    Ok(())
}

/// `|-> e, b |-> f` behind the name of a field, or with colons: by the mark.
///
/// # Errors
///
/// The rule by which it is refused, and how many tokens are left from there on; or want of memory.
pub fn fields<F: Fn(&mut Pool, Context, Spot) -> Result<(Read, usize), Halt>>(
    alloc: Global,
    tokens: &Tokens,
    inner: &F,
    pool: &mut Pool,
    s: Spot,
    mark: Mark,
    first: FieldName,
) -> Result<(Labelled, usize), Halt>
    requires given { MayRead tokens.now s (suc s.left) (F.pre inner.now) (F.post inner.now) }
    ensures read { Told (λ x fs. AreFields s.linked pool.new x.0.labels x.0.ids.items x.0.nesting fs) (λ x. ahead tokens.now x.1) result ((whole_in s.linked (Some s.left)).fields s.edge (mark_seen mark) (field_seen tokens.now.bytes.items first) (ahead tokens.now s.at)) }
    ensures kept { Keeps pool.old pool.new }
    ensures below { IfOk result (λ x. AllBelow (length pool.new) x.0.ids.items) }
    ensures some { IfOk result (λ x. 1 ≤ length x.0.ids.items) }
    ensures as_many { IfOk result (λ x. length x.0.ids.items ≡ length x.0.labels) }
    ensures small { IfOk result (λ x. x.0.nesting ≤ s.left) }
    ensures inside { IfOk result (λ x. x.1 ≤ length tokens.now.items.items) }
    ensures further { IfOk result (λ x. s.at ≤ x.1) }
{
    let mut all = Labelled {
        labels: NameList::new(alloc),
        ids: Vec::new(alloc),
        nesting: 0,
    };
    let mut field = first;
    let mut at = s.at;
    loop {
        let (a, next) = behind(tokens, inner, pool, Spot { at, ..s }, mark)?;
        keep(alloc, tokens, &mut all, field, a)?;
        let Some(from) = after_mark(tokens, Spot { at: next, ..s }, Mark::Comma) else {
            return Ok((all, next));
        };
        let (other, past) = past_field(tokens, Spot { at: from, ..s })?;
        field = other;
        at = past;
    }
}
