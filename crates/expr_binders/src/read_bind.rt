//! Reading binds: `x, y \in S, z \in T`.

ghost use Rattle.std.specs.Prelude.{◌≡◌, ◌<◌, ◌≤◌, ◌++◌, ◌∷◌, [], max, suc, length, IfOk, OnOk, Some};
ghost use Rattle.tla_token.specs.TokensSeen.{span_bytes};
ghost use Rattle.tla_token.specs.declared.place.Place.{Place};
ghost use Rattle.tla_tree.specs.Pool.{AllBelow, Keeps};
ghost use Rattle.tla_tree.specs.Shapes.{HaveNames};
ghost use Rattle.tla_tree.specs.Reader as reader;
ghost use Rattle.tla_tree.specs.Spelling as spelled;
ghost use Rattle.tla_tree.specs.Spelling.{Phrase};
ghost use Rattle.tla_tree.specs.Whole.{whole_in};
ghost use Rattle.tla_pool.specs.FormOf.{groups_of};
ghost use Rattle.expr_nodes.specs.Ahead.{ahead};
ghost use Rattle.expr_nodes.specs.ReadIn.{AreBound, IsIn, Told};
ghost use Rattle.expr_rows.specs.MayRead.{MayRead};
ghost use Rattle.expr_binders.specs.Grouped.{GroupRead};

use expr_nodes::cursor::{Halt, Word};
use expr_nodes::gather::placed;
use expr_nodes::make::Read;
use expr_nodes::shape::{Context, larger};
use expr_nodes::spot::{Spot, after_mark, past_sign, past_word};
use expr_nodes::view::Mark;
use std::alloc::{AllocError, Global};
use tla_pool::Pool;
use tla_token::Tokens;
use tla_tree::{NodeId, Op, PlacedName};

/// Binds that were read: the names in groups that share a set, the numbers of the sets, and what they open.
#[derive(Drop)]
pub struct Bound {
    pub groups: Vec<Vec<PlacedName>>,
    pub sets: Vec<NodeId>,
    pub nesting: u32,
}

// One more name.
fn keep_name(
    alloc: Global,
    tokens: &Tokens,
    names: &mut Vec<PlacedName>,
    word: Word,
) -> Result<(), AllocError>
    ensures { OnOk result (names.new.items ≡ names.old.items ++ spelled.named word.place (span_bytes tokens.now.bytes.items word.span) ∷ []) }
{
    names.push(placed(alloc, tokens, word)?)?;
    Ok(())
}

// One more group with its set.
fn keep(all: &mut Bound, names: Vec<PlacedName>, set: Read) -> Result<(), AllocError>
    ensures groups { OnOk result (groups_of all.new.groups.items ≡ groups_of all.old.groups.items ++ names.items ∷ []) }
    ensures sets { OnOk result (all.new.sets.items ≡ all.old.sets.items ++ set.id ∷ []) }
    ensures nesting { OnOk result (all.new.nesting ≡ max all.old.nesting set.shape.nesting) }
{
    all.groups.push(names)?;
    all.sets.push(set.id)?;
    all.nesting = larger(all.nesting, set.shape.nesting);
    Ok(())
}

// One name with its set, and nothing else.
fn alone(alloc: Global, tokens: &Tokens, word: Word, set: Read) -> Result<Bound, AllocError>
    ensures groups { IfOk result (λ x. groups_of x.groups.items ≡ (spelled.named word.place (span_bytes tokens.now.bytes.items word.span) ∷ []) ∷ []) }
    ensures sets { IfOk result (λ x. x.sets.items ≡ set.id ∷ []) }
    ensures nesting { IfOk result (λ x. x.nesting ≡ set.shape.nesting) }
{
    let sets = Vec::from_array(alloc, [set.id])?;
    let names = Vec::from_array(alloc, [placed(alloc, tokens, word)?])?;
    let groups = Vec::from_array(alloc, [names])?;
    let all = Bound {
        groups,
        sets,
        nesting: set.shape.nesting,
    };
    Ok(all)
}

// One name with its set, before others.
fn before(
    alloc: Global,
    tokens: &Tokens,
    word: Word,
    set: Read,
    rest: Bound,
) -> Result<Bound, AllocError>
    ensures groups { IfOk result (λ x. groups_of x.groups.items ≡ (spelled.named word.place (span_bytes tokens.now.bytes.items word.span) ∷ []) ∷ groups_of rest.groups.items) }
    ensures sets { IfOk result (λ x. x.sets.items ≡ set.id ∷ rest.sets.items) }
    ensures nesting { IfOk result (λ x. x.nesting ≡ max set.shape.nesting rest.nesting) }
{
    let mut all = alone(alloc, tokens, word, set)?;
    let mut others = rest.groups;
    all.groups.append(&mut others)?;
    all.sets.extend_from_slice(&rest.sets)?;
    all.nesting = larger(all.nesting, rest.nesting);
    Ok(all)
}

/// `, y \in S` behind the first name of a group: its names, and their set.
///
/// # Errors
///
/// The rule by which it is refused, and how many tokens are left from there on; or want of memory.
pub fn group<F: Fn(&mut Pool, Context, Spot) -> Result<(Read, usize), Halt>>(
    alloc: Global,
    tokens: &Tokens,
    inner: &F,
    pool: &mut Pool,
    s: Spot,
    first: Word,
) -> Result<(Vec<PlacedName>, Read, usize), Halt>
    requires given { MayRead tokens.now s (suc s.left) (F.pre inner.now) (F.post inner.now) }
    ensures read { GroupRead s.linked tokens.now pool.new (whole_in s.linked (Some s.left)) s.edge result ((whole_in s.linked (Some s.left)).binds s.edge first.place (span_bytes tokens.now.bytes.items first.span) (ahead tokens.now s.at)) }
    ensures kept { Keeps pool.old pool.new }
    ensures small { IfOk result (λ x. x.1.shape.nesting ≤ s.left) }
    ensures inside { IfOk result (λ x. x.2 ≤ length tokens.now.items.items) }
    ensures further { IfOk result (λ x. s.at ≤ x.2) }
{
    let mut names = Vec::new(alloc);
    keep_name(alloc, tokens, &mut names, first)?;
    let mut at = s.at;
    while let Some(from) = after_mark(tokens, Spot { at, ..s }, Mark::Comma) {
        let (word, past) = past_word(tokens, Spot { at: from, ..s })?;
        keep_name(alloc, tokens, &mut names, word)?;
        at = past;
    }
    let (_, from) = past_sign(tokens, Spot { at, ..s }, Op::In)?;
    let (set, next) = inner(pool, Context::Free, Spot { at: from, ..s })?;
    Ok((names, set, next))
}

/// `x, y \in S, z \in T`, behind its first name.
///
/// # Errors
///
/// The rule by which it is refused, and how many tokens are left from there on; or want of memory.
pub fn binds<F: Fn(&mut Pool, Context, Spot) -> Result<(Read, usize), Halt>>(
    alloc: Global,
    tokens: &Tokens,
    inner: &F,
    pool: &mut Pool,
    s: Spot,
    first: Word,
) -> Result<(Bound, usize), Halt>
    requires given { MayRead tokens.now s (suc s.left) (F.pre inner.now) (F.post inner.now) }
    ensures read { Told (λ x bs. AreBound s.linked pool.new (groups_of x.0.groups.items) x.0.sets.items x.0.nesting bs) (λ x. ahead tokens.now x.1) result ((whole_in s.linked (Some s.left)).binds s.edge first.place (span_bytes tokens.now.bytes.items first.span) (ahead tokens.now s.at)) }
    ensures kept { Keeps pool.old pool.new }
    ensures below { IfOk result (λ x. AllBelow (length pool.new) x.0.sets.items) }
    ensures named { IfOk result (λ x. HaveNames (groups_of x.0.groups.items)) }
    ensures as_many { IfOk result (λ x. length x.0.sets.items ≡ length (groups_of x.0.groups.items)) }
    ensures small { IfOk result (λ x. x.0.nesting ≤ s.left) }
    ensures inside { IfOk result (λ x. x.1 ≤ length tokens.now.items.items) }
    ensures further { IfOk result (λ x. s.at ≤ x.1) }
{
    let mut all = Bound {
        groups: Vec::new(alloc),
        sets: Vec::new(alloc),
        nesting: 0,
    };
    let mut word = first;
    let mut at = s.at;
    loop {
        let (names, set, next) = group(alloc, tokens, inner, pool, Spot { at, ..s }, word)?;
        keep(&mut all, names, set)?;
        let Some(from) = after_mark(tokens, Spot { at: next, ..s }, Mark::Comma) else {
            return Ok((all, next));
        };
        let (other, past) = past_word(tokens, Spot { at: from, ..s })?;
        word = other;
        at = past;
    }
}

/// What comes behind `x \in S`: `, y \in T`, or nothing; all of the binds, the set of x being in the pool.
///
/// # Errors
///
/// The rule by which it is refused, and how many tokens are left from there on; or want of memory.
pub fn binds_on<F: Fn(&mut Pool, Context, Spot) -> Result<(Read, usize), Halt>>(
    alloc: Global,
    tokens: &Tokens,
    inner: &F,
    pool: &mut Pool,
    s: Spot,
    word: Word,
    set: Read,
) -> Result<(Bound, usize), Halt>
    requires given { MayRead tokens.now s (suc s.left) (F.pre inner.now) (F.post inner.now) }
    requires set_in { set.id < length pool.old }
    requires set_small { set.shape.nesting ≤ s.left }
    ensures read { (i : Phrase) (q : Place) → IsIn s.linked pool.old set i → Told (λ x bs. AreBound s.linked pool.new (groups_of x.0.groups.items) x.0.sets.items x.0.nesting bs) (λ x. ahead tokens.now x.1) result (reader.peek s.edge (reader.bind_rest (whole_in s.linked (Some s.left)) s.edge word.place (span_bytes tokens.now.bytes.items word.span) q i) (ahead tokens.now s.at)) }
    ensures kept { Keeps pool.old pool.new }
    ensures below { IfOk result (λ x. AllBelow (length pool.new) x.0.sets.items) }
    ensures named { IfOk result (λ x. HaveNames (groups_of x.0.groups.items)) }
    ensures as_many { IfOk result (λ x. length x.0.sets.items ≡ length (groups_of x.0.groups.items)) }
    ensures small { IfOk result (λ x. x.0.nesting ≤ s.left) }
    ensures inside { IfOk result (λ x. x.1 ≤ length tokens.now.items.items) }
    ensures further { IfOk result (λ x. s.at ≤ x.1) }
{
    let Some(from) = after_mark(tokens, s, Mark::Comma) else {
        let all = alone(alloc, tokens, word, set)?;
        return Ok((all, s.at));
    };
    let (other, past) = past_word(tokens, Spot { at: from, ..s })?;
    let (rest, at) = binds(alloc, tokens, inner, pool, Spot { at: past, ..s }, other)?;
    let all = before(alloc, tokens, word, set, rest)?;
    Ok((all, at))
}
