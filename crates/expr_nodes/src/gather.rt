//! Forms over lists that were read: binders, fields, settings, arms, definitions, items by columns.

ghost use Rattle.std.specs.Prelude.{◌≡◌, ◌<◌, ◌≤◌, ◌+◌, ◌^◌, ◌++◌, ◌∷◌, IfOk, Bool, true, false, [], suc, max, length, List, ℕ};
ghost use Rattle.tla_token.specs.TokensSeen.{span_bytes};
ghost use Rattle.tla_tree.specs.Pool.{at, trees_at, AllBelow, Keeps};
ghost use Rattle.tla_tree.specs.Tree.{node, binding as binding_of};
ghost use Rattle.tla_pool.specs.FormOf.{groups_of, slots_of};
ghost use Rattle.tla_tree.specs.Shapes.{BinderShaped, CaseShaped, HavePaths, settings as settings_of};
ghost use Rattle.tla_tree.specs.Rank.{is_prefix as is_prefix_of};
ghost use Rattle.tla_tree.specs.Spelling as spelled;
ghost use Rattle.tla_tree.specs.Spelling.{Phrase, Binds, Fields, Settings, Arms, Locals, operation as operation_of, two};
ghost use Rattle.expr_nodes.specs.ShapeOf.{primary_shape as primary_shape_of, open_shape as open_shape_of};
ghost use Rattle.expr_nodes.specs.ReadIn.{IsIn, AreBound, AreFields, AreSettings, AreArms, AreLocals};
ghost use Rattle.tla_tree.specs.declared.op.Binder.TheVariants as binder;
ghost use Rattle.expr_nodes.specs.declared.shape.Boxes.TheVariants as boxes;

use crate::cursor::Word;
use crate::make::{Read, name_of, operation, put};
use crate::shape::{Boxes, Shape, larger, open_shape, primary_shape};
use std::alloc::{AllocError, Global};
use tla_pool::Pool;
use tla_pool::form::{Form, Slot, Strict};
use tla_token::{Place, Tokens};
use tla_tree::{Binder, NameList, NodeId, Op, PlacedName};

/// A name at its place.
///
/// # Errors
///
/// Only for want of memory.
pub fn placed(alloc: Global, tokens: &Tokens, word: Word) -> Result<PlacedName, AllocError>
    ensures { IfOk result (λ n. n ≡ spelled.named word.place (span_bytes tokens.now.bytes.items word.span)) }
{
    Ok(PlacedName {
        name: name_of(alloc, tokens, word.span)?,
        place: word.place,
    })
}

// ---- binders

// A binder over its sets and its body.
fn binding(
    pool: &mut Pool,
    place: Place,
    binder: Binder,
    groups: Vec<Vec<PlacedName>>,
    sets: Vec<NodeId>,
    body: Read,
    shape: Shape,
) -> Result<Read, AllocError>
    requires below { AllBelow (length pool.old) sets.items }
    requires body_in { body.id < length pool.old }
    requires shaped { BinderShaped binder (groups_of groups.items) (suc (length sets.items)) }
    ensures tree { IfOk result (λ x. at pool.new x.id ≡ node (binding_of binder (groups_of groups.items)) place (trees_at pool.old (sets.items ++ body.id ∷ []))) }
    ensures within { IfOk result (λ x. x.id < length pool.new) }
    ensures shape { IfOk result (λ x. x.shape ≡ shape) }
    ensures kept { Keeps pool.old pool.new }
{
    let mut parts = sets;
    parts.push(body.id)?;
    put(pool, Form::Binding(binder, groups), place, parts, shape)
}

/// `{x \in S : p}`
///
/// # Errors
///
/// Only for want of memory.
pub fn filter(
    alloc: Global,
    pool: &mut Pool,
    tokens: &Tokens,
    place: Place,
    word: Word,
    set: Read,
    test: Read,
) -> Result<Read, AllocError>
    requires set_in { set.id < length pool.old }
    requires test_in { test.id < length pool.old }
    requires set_small { 1 + set.shape.nesting < 2 ^ 32 }
    requires test_small { 1 + test.shape.nesting < 2 ^ 32 }
    ensures read { IfOk result (λ x. (w : Bool) (i j : Phrase) (r t u : Place) → IsIn w pool.old set i → IsIn w pool.old test j → IsIn w pool.new x (spelled.filter place word.place (span_bytes tokens.now.bytes.items word.span) r i t j u)) }
    ensures shape { IfOk result (λ x. x.shape ≡ primary_shape_of place (1 + max set.shape.nesting test.shape.nesting)) }
    ensures within { IfOk result (λ x. x.id < length pool.new) }
    ensures kept { Keeps pool.old pool.new }
{
    let group = Vec::from_array(alloc, [placed(alloc, tokens, word)?])?;
    let groups = Vec::from_array(alloc, [group])?;
    let mut sets = Vec::new(alloc);
    sets.push(set.id)?;
    let nesting = larger(set.shape.nesting, test.shape.nesting);
    let shape = primary_shape(place, 1 + nesting);
    binding(pool, place, Binder::Filter, groups, sets, test, shape)
}

/// `{e : x \in S}`, the groups and sets having so many forms open in them.
///
/// # Errors
///
/// Only for want of memory.
pub fn image(
    pool: &mut Pool,
    place: Place,
    body: Read,
    groups: Vec<Vec<PlacedName>>,
    sets: Vec<NodeId>,
    nesting: u32,
) -> Result<Read, AllocError>
    requires below { AllBelow (length pool.old) sets.items }
    requires body_in { body.id < length pool.old }
    requires shaped { BinderShaped binder.Image (groups_of groups.items) (suc (length sets.items)) }
    requires body_small { 1 + body.shape.nesting < 2 ^ 32 }
    requires small { 1 + nesting < 2 ^ 32 }
    ensures read { IfOk result (λ x. (w : Bool) (i : Phrase) (bs : Binds) (q r : Place) → IsIn w pool.old body i → AreBound w pool.old (groups_of groups.items) sets.items nesting bs → IsIn w pool.new x (spelled.image place i q bs r)) }
    ensures shape { IfOk result (λ x. x.shape ≡ primary_shape_of place (1 + max body.shape.nesting nesting)) }
    ensures within { IfOk result (λ x. x.id < length pool.new) }
    ensures kept { Keeps pool.old pool.new }
{
    let shape = primary_shape(place, 1 + larger(body.shape.nesting, nesting));
    binding(pool, place, Binder::Image, groups, sets, body, shape)
}

/// `[x \in S |-> e]`, the groups and sets having so many forms open in them.
///
/// # Errors
///
/// Only for want of memory.
pub fn function(
    pool: &mut Pool,
    place: Place,
    groups: Vec<Vec<PlacedName>>,
    sets: Vec<NodeId>,
    nesting: u32,
    body: Read,
) -> Result<Read, AllocError>
    requires below { AllBelow (length pool.old) sets.items }
    requires body_in { body.id < length pool.old }
    requires shaped { BinderShaped binder.Function (groups_of groups.items) (suc (length sets.items)) }
    requires body_small { 1 + body.shape.nesting < 2 ^ 32 }
    requires small { 1 + nesting < 2 ^ 32 }
    ensures read { IfOk result (λ x. (w : Bool) (i : Phrase) (bs : Binds) (q r : Place) → IsIn w pool.old body i → AreBound w pool.old (groups_of groups.items) sets.items nesting bs → IsIn w pool.new x (spelled.function place bs q i r)) }
    ensures shape { IfOk result (λ x. x.shape ≡ primary_shape_of place (1 + max nesting body.shape.nesting)) }
    ensures within { IfOk result (λ x. x.id < length pool.new) }
    ensures kept { Keeps pool.old pool.new }
{
    let shape = primary_shape(place, 1 + larger(nesting, body.shape.nesting));
    binding(pool, place, Binder::Function, groups, sets, body, shape)
}

/// `\A x \in S : p`, the groups and sets having so many forms open in them.
///
/// # Errors
///
/// Only for want of memory.
pub fn for_all(
    pool: &mut Pool,
    place: Place,
    groups: Vec<Vec<PlacedName>>,
    sets: Vec<NodeId>,
    nesting: u32,
    body: Read,
) -> Result<Read, AllocError>
    requires below { AllBelow (length pool.old) sets.items }
    requires body_in { body.id < length pool.old }
    requires shaped { BinderShaped binder.ForAll (groups_of groups.items) (suc (length sets.items)) }
    requires body_small { 1 + body.shape.nesting < 2 ^ 32 }
    requires small { 1 + nesting < 2 ^ 32 }
    ensures read { IfOk result (λ x. (w : Bool) (i : Phrase) (bs : Binds) (q : Place) → IsIn w pool.old body i → AreBound w pool.old (groups_of groups.items) sets.items nesting bs → IsIn w pool.new x (spelled.quantified true place bs q i)) }
    ensures shape { IfOk result (λ x. x.shape ≡ open_shape_of place body.shape.boxes (1 + max nesting body.shape.nesting)) }
    ensures within { IfOk result (λ x. x.id < length pool.new) }
    ensures kept { Keeps pool.old pool.new }
{
    let nesting = 1 + larger(nesting, body.shape.nesting);
    let shape = open_shape(place, body.shape.boxes, nesting);
    binding(pool, place, Binder::ForAll, groups, sets, body, shape)
}

/// `\E x \in S : p`, the groups and sets having so many forms open in them.
///
/// # Errors
///
/// Only for want of memory.
pub fn exists(
    pool: &mut Pool,
    place: Place,
    groups: Vec<Vec<PlacedName>>,
    sets: Vec<NodeId>,
    nesting: u32,
    body: Read,
) -> Result<Read, AllocError>
    requires below { AllBelow (length pool.old) sets.items }
    requires body_in { body.id < length pool.old }
    requires shaped { BinderShaped binder.Exists (groups_of groups.items) (suc (length sets.items)) }
    requires body_small { 1 + body.shape.nesting < 2 ^ 32 }
    requires small { 1 + nesting < 2 ^ 32 }
    ensures read { IfOk result (λ x. (w : Bool) (i : Phrase) (bs : Binds) (q : Place) → IsIn w pool.old body i → AreBound w pool.old (groups_of groups.items) sets.items nesting bs → IsIn w pool.new x (spelled.quantified false place bs q i)) }
    ensures shape { IfOk result (λ x. x.shape ≡ open_shape_of place body.shape.boxes (1 + max nesting body.shape.nesting)) }
    ensures within { IfOk result (λ x. x.id < length pool.new) }
    ensures kept { Keeps pool.old pool.new }
{
    let nesting = 1 + larger(nesting, body.shape.nesting);
    let shape = open_shape(place, body.shape.boxes, nesting);
    binding(pool, place, Binder::Exists, groups, sets, body, shape)
}

/// `LET x == a y == b IN c`, the right sides having so many forms open in them.
///
/// # Errors
///
/// Only for want of memory.
pub fn local(
    pool: &mut Pool,
    place: Place,
    names: Vec<PlacedName>,
    right_sides: Vec<NodeId>,
    nesting: u32,
    body: Read,
) -> Result<Read, AllocError>
    requires below { AllBelow (length pool.old) right_sides.items }
    requires body_in { body.id < length pool.old }
    requires some { 1 ≤ length names.items }
    requires as_many { length right_sides.items ≡ length names.items }
    requires body_small { 1 + body.shape.nesting < 2 ^ 32 }
    requires small { 1 + nesting < 2 ^ 32 }
    ensures read { IfOk result (λ x. (w : Bool) (i : Phrase) (ls : Locals) (q : Place) → IsIn w pool.old body i → AreLocals w pool.old names.items right_sides.items nesting ls → IsIn w pool.new x (spelled.local place ls q i)) }
    ensures shape { IfOk result (λ x. x.shape ≡ open_shape_of place body.shape.boxes (1 + max nesting body.shape.nesting)) }
    ensures within { IfOk result (λ x. x.id < length pool.new) }
    ensures kept { Keeps pool.old pool.new }
{
    let mut parts = right_sides;
    parts.push(body.id)?;
    let nesting = 1 + larger(nesting, body.shape.nesting);
    let shape = open_shape(place, body.shape.boxes, nesting);
    put(pool, Form::Local(names), place, parts, shape)
}

// ---- fields and settings

/// `[a |-> e, b |-> f]`, with so many forms open in the fields.
///
/// # Errors
///
/// Only for want of memory.
pub fn fields(
    pool: &mut Pool,
    place: Place,
    labels: NameList,
    ids: Vec<NodeId>,
    nesting: u32,
) -> Result<Read, AllocError>
    requires below { AllBelow (length pool.old) ids.items }
    requires some { 1 ≤ length ids.items }
    requires as_many { length ids.items ≡ length labels }
    requires small { 1 + nesting < 2 ^ 32 }
    ensures read { IfOk result (λ x. (w : Bool) (fs : Fields) (q : Place) → AreFields w pool.old labels ids.items nesting fs → IsIn w pool.new x (spelled.fields place fs q)) }
    ensures shape { IfOk result (λ x. x.shape ≡ primary_shape_of place (1 + nesting)) }
    ensures within { IfOk result (λ x. x.id < length pool.new) }
    ensures kept { Keeps pool.old pool.new }
{
    let shape = primary_shape(place, 1 + nesting);
    put(
        pool,
        Form::Strict(Strict::Fields(labels)),
        place,
        ids,
        shape,
    )
}

/// `[a : S, b : T]`, with so many forms open in the fields.
///
/// # Errors
///
/// Only for want of memory.
pub fn records(
    pool: &mut Pool,
    place: Place,
    labels: NameList,
    ids: Vec<NodeId>,
    nesting: u32,
) -> Result<Read, AllocError>
    requires below { AllBelow (length pool.old) ids.items }
    requires some { 1 ≤ length ids.items }
    requires as_many { length ids.items ≡ length labels }
    requires small { 1 + nesting < 2 ^ 32 }
    ensures read { IfOk result (λ x. (w : Bool) (fs : Fields) (q : Place) → AreFields w pool.old labels ids.items nesting fs → IsIn w pool.new x (spelled.records place fs q)) }
    ensures shape { IfOk result (λ x. x.shape ≡ primary_shape_of place (1 + nesting)) }
    ensures within { IfOk result (λ x. x.id < length pool.new) }
    ensures kept { Keeps pool.old pool.new }
{
    let shape = primary_shape(place, 1 + nesting);
    put(
        pool,
        Form::Strict(Strict::Records(labels)),
        place,
        ids,
        shape,
    )
}

/// `[f EXCEPT ![a].b = e, ..]`, with so many forms open in the settings; f is the first of the parts, and the subscripts and right
/// sides come after it.
///
/// # Errors
///
/// Only for want of memory.
pub fn except(
    pool: &mut Pool,
    place: Place,
    f: Read,
    slots: Vec<Slot>,
    parts: Vec<NodeId>,
    nesting: u32,
) -> Result<Read, AllocError>
    requires below { AllBelow (length pool.old) parts.items }
    requires paths { HavePaths (slots_of slots.items) }
    requires as_many { length parts.items ≡ suc (settings_of (slots_of slots.items)) }
    requires f_small { 1 + f.shape.nesting < 2 ^ 32 }
    requires small { 1 + nesting < 2 ^ 32 }
    ensures read { IfOk result (λ x. (w : Bool) (i : Phrase) (ss : Settings) (is : List ℕ) (q r : Place) → parts.items ≡ f.id ∷ is → IsIn w pool.old f i → AreSettings w pool.old place (slots_of slots.items) is nesting ss → IsIn w pool.new x (spelled.except place i q ss r)) }
    ensures shape { IfOk result (λ x. x.shape ≡ primary_shape_of place (1 + max f.shape.nesting nesting)) }
    ensures within { IfOk result (λ x. x.id < length pool.new) }
    ensures kept { Keeps pool.old pool.new }
{
    let shape = primary_shape(place, 1 + larger(f.shape.nesting, nesting));
    put(
        pool,
        Form::Strict(Strict::Except(slots)),
        place,
        parts,
        shape,
    )
}

// ---- arms and items

/// `CASE a -> b [] c -> d`, with so many forms open in the arms.
///
/// # Errors
///
/// Only for want of memory.
pub fn cases(
    pool: &mut Pool,
    place: Place,
    other: bool,
    ids: Vec<NodeId>,
    nesting: u32,
) -> Result<Read, AllocError>
    requires below { AllBelow (length pool.old) ids.items }
    requires shaped { CaseShaped other (length ids.items) }
    requires small { 1 + nesting < 2 ^ 32 }
    ensures read { IfOk result (λ x. (w : Bool) (xs : Arms) → AreArms w pool.old other ids.items nesting xs → IsIn w pool.new x (spelled.cases place xs)) }
    ensures shape { IfOk result (λ x. x.shape ≡ open_shape_of place boxes.Always (1 + nesting)) }
    ensures within { IfOk result (λ x. x.id < length pool.new) }
    ensures kept { Keeps pool.old pool.new }
{
    let shape = open_shape(place, Boxes::Always, 1 + nesting);
    put(pool, Form::Cases(other), place, ids, shape)
}

/// The items so far of a list by columns, and one more.
///
/// # Errors
///
/// Only for want of memory.
#[tactic(auto, using(crate::proofs::MakeLemmas::infix_shaped))]
pub fn joined(
    alloc: Global,
    pool: &mut Pool,
    first: Place,
    op: Op,
    so_far: NodeId,
    item: NodeId,
) -> Result<NodeId, AllocError>
    requires between { is_prefix_of op ≡ false }
    requires so_far_in { so_far < length pool.old }
    requires item_in { item < length pool.old }
    ensures tree { IfOk result (λ i. at pool.new i ≡ node (operation_of op) first (two (at pool.old so_far) (at pool.old item))) }
    ensures within { IfOk result (λ i. i < length pool.new) }
    ensures kept { Keeps pool.old pool.new }
{
    let parts = Vec::from_array(alloc, [so_far, item])?;
    pool.put(operation(op), first, parts)
}
