//! Reading the definitions of `LET`, over a reader of their right sides.

ghost use Rattle.std.specs.Prelude.{◌≡◌, ◌<◌, ◌≤◌, ◌++◌, ◌∷◌, [], max, suc, length, IfOk, OnOk, Some};
ghost use Rattle.tla_token.specs.TokensSeen.{span_bytes};
ghost use Rattle.tla_tree.specs.Pool.{AllBelow, Keeps};
ghost use Rattle.tla_tree.specs.Spelling.{named};
ghost use Rattle.tla_tree.specs.Whole.{whole_in};
ghost use Rattle.expr_nodes.specs.Ahead.{ahead};
ghost use Rattle.expr_nodes.specs.ReadIn.{AreLocals, Told};
ghost use Rattle.expr_rows.specs.MayRead.{MayRead};

use crate::read_behind::behind;
use expr_nodes::cursor::{Halt, Word};
use expr_nodes::gather::placed;
use expr_nodes::make::Read;
use expr_nodes::shape::{Context, larger};
use expr_nodes::spot::{Spot, past_word};
use expr_nodes::view::Mark;
use expr_rows::on_next::after_word;
use std::alloc::{AllocError, Global};
use tla_pool::Pool;
use tla_token::Tokens;
use tla_tree::{NodeId, PlacedName};

/// Definitions that were read: their names, the numbers of their right sides, and what they open.
#[derive(Drop)]
pub struct ManyLocals {
    pub names: Vec<PlacedName>,
    pub ids: Vec<NodeId>,
    pub nesting: u32,
}

// One more definition.
fn keep(
    alloc: Global,
    tokens: &Tokens,
    many: &mut ManyLocals,
    word: Word,
    a: Read,
) -> Result<(), AllocError>
    ensures names { OnOk result (many.new.names.items ≡ many.old.names.items ++ named word.place (span_bytes tokens.now.bytes.items word.span) ∷ []) }
    ensures ids { OnOk result (many.new.ids.items ≡ many.old.ids.items ++ a.id ∷ []) }
    ensures nesting { OnOk result (many.new.nesting ≡ max many.old.nesting a.shape.nesting) }
{
    many.names.push(placed(alloc, tokens, word)?)?;
    many.ids.push(a.id)?;
    many.nesting = larger(many.nesting, a.shape.nesting);
    Ok(())
}

/// `x == e y == f`
///
/// # Errors
///
/// The rule by which it is refused, and how many tokens are left from there on; or want of memory.
#[tactic(auto, using(crate::proofs::ReadLocals::name_fails))]
pub fn locals<F: Fn(&mut Pool, Context, Spot) -> Result<(Read, usize), Halt>>(
    alloc: Global,
    tokens: &Tokens,
    inner: &F,
    pool: &mut Pool,
    s: Spot,
) -> Result<(ManyLocals, usize), Halt>
    requires given { MayRead tokens.now s (suc s.left) (F.pre inner.now) (F.post inner.now) }
    ensures read { Told (λ x ls. AreLocals s.linked pool.new x.0.names.items x.0.ids.items x.0.nesting ls) (λ x. ahead tokens.now x.1) result ((whole_in s.linked (Some s.left)).locals s.edge (ahead tokens.now s.at)) }
    ensures kept { Keeps pool.old pool.new }
    ensures some { IfOk result (λ x. 1 ≤ length x.0.names.items) }
    ensures as_many { IfOk result (λ x. length x.0.ids.items ≡ length x.0.names.items) }
    ensures below { IfOk result (λ x. AllBelow (length pool.new) x.0.ids.items) }
    ensures small { IfOk result (λ x. x.0.nesting ≤ s.left) }
    ensures inside { IfOk result (λ x. x.1 ≤ length tokens.now.items.items) }
    ensures further { IfOk result (λ x. s.at ≤ x.1) }
{
    let (word, from) = past_word(tokens, s)?;
    let (a, next) = behind(tokens, inner, pool, Spot { at: from, ..s }, Mark::Defines)?;
    let mut many = ManyLocals {
        names: Vec::new(alloc),
        ids: Vec::new(alloc),
        nesting: 0,
    };
    keep(alloc, tokens, &mut many, word, a)?;
    let mut at = next;
    while let Some((word, from)) = after_word(tokens, Spot { at, ..s }) {
        let (a, next) = behind(tokens, inner, pool, Spot { at: from, ..s }, Mark::Defines)?;
        keep(alloc, tokens, &mut many, word, a)?;
        at = next;
    }
    Ok((many, at))
}
