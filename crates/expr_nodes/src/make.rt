//! Expressions that are put into a pool as they are read: a node for each form, and its shape.

ghost use Rattle.std.specs.Prelude.{◌≡◌, ◌<◌, ◌≤◌, ◌+◌, ◌^◌, IfOk, unwrap_or, Bool, true, false, [], length, max, List};
ghost use Rattle.tla_token.specs.Limits.{past_numbers};
ghost use Rattle.tla_token.specs.TokensSeen.{span_bytes};
ghost use Rattle.tla_token.specs.Lexemes.{unquoted as unquoted_of};
ghost use Rattle.tla_tree.specs.Pool.{at, trees_at, AllBelow, Keeps};
ghost use Rattle.tla_tree.specs.Tree.{Tree, node};
ghost use Rattle.tla_pool.specs.FormOf.{form_of};
ghost use Rattle.tla_tree.specs.Shapes.{Shaped};
ghost use Rattle.tla_tree.specs.Rank.{is_prefix as is_prefix_of};
ghost use Rattle.tla_tree.specs.Spelling as spelled;
ghost use Rattle.tla_tree.specs.Spelling.{Phrase, Phrases, operation as operation_of};
ghost use Rattle.expr_nodes.specs.ShapeOf.{primary_shape as primary_shape_of, links_before as links_before_of, apply_shape as apply_shape_of, select_shape as select_shape_of, open_shape as open_shape_of, infix_shape as infix_shape_of, prefix_shape as prefix_shape_of};
ghost use Rattle.expr_nodes.specs.ViewSeen.{constant_seen};
ghost use Rattle.expr_nodes.specs.ReadIn.{IsIn, AreIn, field_seen};
ghost use Rattle.expr_nodes.specs.Subscripts.{subscript_tree};

use crate::cursor::{FieldName, Word};
use crate::quote::unquoted;
use crate::shape::{
    Shape, apply_shape, infix_shape, larger, open_shape, prefix_shape, primary_shape, select_shape,
};
use crate::view::Constant;
use std::alloc::{AllocError, Global};
use tla_pool::Pool;
use tla_pool::form::{Form, Strict};
use tla_token::{Place, Span, Tokens};
use tla_tree::{Name, NodeId, Op};

/// An expression that was read: its number in the pool, and its shape.
#[derive(Clone, Copy)]
pub struct Read {
    pub id: NodeId,
    pub shape: Shape,
}

/// Expressions in a row that were read: where the first one begins, and the most forms that are open in them.
#[derive(Clone, Copy)]
pub struct Row {
    pub first: Place,
    pub nesting: u32,
}

/// The node of this form, with this shape.
///
/// # Errors
///
/// Only for want of memory.
pub fn put(
    pool: &mut Pool,
    form: Form,
    place: Place,
    parts: Vec<NodeId>,
    shape: Shape,
) -> Result<Read, AllocError>
    requires below { AllBelow (length pool.old) parts.items }
    requires shaped { Shaped (form_of form) (length parts.items) }
    ensures tree { IfOk result (λ x. at pool.new x.id ≡ node (form_of form) place (trees_at pool.old parts.items)) }
    ensures within { IfOk result (λ x. x.id < length pool.new) }
    ensures shape { IfOk result (λ x. x.shape ≡ shape) }
    ensures kept { Keeps pool.old pool.new }
{
    let id = pool.put(form, place, parts)?;
    Ok(Read { id, shape })
}

/// The bytes of a word, as a name.
///
/// # Errors
///
/// Only for want of memory.
pub fn name_of(alloc: Global, tokens: &Tokens, span: Span) -> Result<Name, AllocError>
    ensures { IfOk result (λ n. n ≡ span_bytes tokens.now.bytes.items span) }
{
    let mut bytes = Vec::new(alloc);
    bytes.extend_from_slice(tokens.word(span))?;
    Ok(Name::new(bytes))
}

/// The form of an operator with its operands.
pub fn operation(op: Op) -> Form
    ensures { form_of result ≡ operation_of op }
{
    match op {
        Op::And => Form::Conjunction,
        Op::Or => Form::Disjunction,
        Op::Implies => Form::Implication,
        Op::In => Form::Member(true),
        Op::NotIn => Form::Member(false),
        _ => Form::Strict(Strict::Operator(op)),
    }
}

// ---- primaries

/// A number.
///
/// # Errors
///
/// Only for want of memory.
#[tactic(auto, using(crate::proofs::MakeLemmas::number_in))]
pub fn number(alloc: Global, pool: &mut Pool, place: Place, n: u128) -> Result<Read, AllocError>
    requires { n < past_numbers }
    ensures read { IfOk result (λ x. (w : Bool) → IsIn w pool.new x (spelled.number place n)) }
    ensures shape { IfOk result (λ x. x.shape ≡ primary_shape_of place 0) }
    ensures within { IfOk result (λ x. x.id < length pool.new) }
    ensures kept { Keeps pool.old pool.new }
{
    put(
        pool,
        Form::Number(n),
        place,
        Vec::new(alloc),
        primary_shape(place, 0),
    )
}

/// A string, by what is between its quotes.
///
/// # Errors
///
/// Only for want of memory.
#[tactic(auto, using(crate::proofs::MakeLemmas::string_in))]
pub fn string(
    alloc: Global,
    pool: &mut Pool,
    tokens: &Tokens,
    place: Place,
    span: Span,
) -> Result<Read, AllocError>
    ensures read { IfOk result (λ x. (w : Bool) → IsIn w pool.new x (spelled.string place (unwrap_or (unquoted_of (span_bytes tokens.now.bytes.items span)) []))) }
    ensures shape { IfOk result (λ x. x.shape ≡ primary_shape_of place 0) }
    ensures within { IfOk result (λ x. x.id < length pool.new) }
    ensures kept { Keeps pool.old pool.new }
{
    let form = Form::String(unquoted(alloc, tokens.word(span))?);
    put(pool, form, place, Vec::new(alloc), primary_shape(place, 0))
}

/// `TRUE`, `FALSE`, `BOOLEAN` or `STRING`.
///
/// # Errors
///
/// Only for want of memory.
#[tactic(auto, using(crate::proofs::MakeLemmas::constant_in))]
pub fn constant(
    alloc: Global,
    pool: &mut Pool,
    place: Place,
    c: Constant,
) -> Result<Read, AllocError>
    ensures read { IfOk result (λ x. (w : Bool) → IsIn w pool.new x (spelled.constant place (constant_seen c))) }
    ensures shape { IfOk result (λ x. x.shape ≡ primary_shape_of place 0) }
    ensures within { IfOk result (λ x. x.id < length pool.new) }
    ensures kept { Keeps pool.old pool.new }
{
    let form = match c {
        Constant::Truth(sense) => Form::Truth(sense),
        Constant::Booleans => Form::Booleans,
        Constant::Strings => Form::Strings,
    };
    put(pool, form, place, Vec::new(alloc), primary_shape(place, 0))
}

/// A name.
///
/// # Errors
///
/// Only for want of memory.
#[tactic(auto, using(crate::proofs::MakeLemmas::name_in))]
pub fn name(alloc: Global, pool: &mut Pool, tokens: &Tokens, word: Word) -> Result<Read, AllocError>
    ensures read { IfOk result (λ x. (w : Bool) → IsIn w pool.new x (spelled.name word.place (span_bytes tokens.now.bytes.items word.span))) }
    ensures shape { IfOk result (λ x. x.shape ≡ primary_shape_of word.place 0) }
    ensures within { IfOk result (λ x. x.id < length pool.new) }
    ensures kept { Keeps pool.old pool.new }
{
    let form = Form::Name(name_of(alloc, tokens, word.span)?);
    let shape = primary_shape(word.place, 0);
    put(pool, form, word.place, Vec::new(alloc), shape)
}

/// A primed name.
///
/// # Errors
///
/// Only for want of memory.
#[tactic(auto, using(crate::proofs::MakeLemmas::primed_in))]
pub fn primed(
    alloc: Global,
    pool: &mut Pool,
    tokens: &Tokens,
    word: Word,
) -> Result<Read, AllocError>
    ensures read { IfOk result (λ x. (w : Bool) (q : Place) → IsIn w pool.new x (spelled.primed word.place (span_bytes tokens.now.bytes.items word.span) q)) }
    ensures shape { IfOk result (λ x. x.shape ≡ primary_shape_of word.place 0) }
    ensures within { IfOk result (λ x. x.id < length pool.new) }
    ensures kept { Keeps pool.old pool.new }
{
    let form = Form::Next(name_of(alloc, tokens, word.span)?);
    let shape = primary_shape(word.place, 0);
    put(pool, form, word.place, Vec::new(alloc), shape)
}

/// An expression in brackets, of which the first is at a place.
#[tactic(auto, using(crate::proofs::MakeLemmas::brackets_in))]
pub fn brackets(place: Place, a: Read) -> Read
    requires { 1 + a.shape.nesting < 2 ^ 32 }
    ensures read { (w : Bool) (ts : List Tree) (i : Phrase) (q : Place) → IsIn w ts a i → IsIn w ts result (spelled.brackets place i q) }
    ensures shape { result.shape ≡ primary_shape_of place (1 + a.shape.nesting) }
{
    Read {
        id: a.id,
        shape: primary_shape(place, 1 + a.shape.nesting),
    }
}

/// `{}`
///
/// # Errors
///
/// Only for want of memory.
#[tactic(auto, using(crate::proofs::MakeLemmas::no_set_in))]
pub fn empty_set(alloc: Global, pool: &mut Pool, place: Place) -> Result<Read, AllocError>
    ensures read { IfOk result (λ x. (w : Bool) (q : Place) → IsIn w pool.new x (spelled.no_set place q)) }
    ensures shape { IfOk result (λ x. x.shape ≡ primary_shape_of place 1) }
    ensures within { IfOk result (λ x. x.id < length pool.new) }
    ensures kept { Keeps pool.old pool.new }
{
    let form = Form::Strict(Strict::SetOf);
    put(pool, form, place, Vec::new(alloc), primary_shape(place, 1))
}

/// `<<>>`
///
/// # Errors
///
/// Only for want of memory.
#[tactic(auto, using(crate::proofs::MakeLemmas::no_tuple_in))]
pub fn empty_tuple(alloc: Global, pool: &mut Pool, place: Place) -> Result<Read, AllocError>
    ensures read { IfOk result (λ x. (w : Bool) (q : Place) → IsIn w pool.new x (spelled.no_tuple place q)) }
    ensures shape { IfOk result (λ x. x.shape ≡ primary_shape_of place 1) }
    ensures within { IfOk result (λ x. x.id < length pool.new) }
    ensures kept { Keeps pool.old pool.new }
{
    let form = Form::Strict(Strict::Tuple);
    put(pool, form, place, Vec::new(alloc), primary_shape(place, 1))
}

/// `[S -> T]`
///
/// # Errors
///
/// Only for want of memory.
#[tactic(auto, using(crate::proofs::MakeLemmas::functions_in))]
pub fn functions(
    alloc: Global,
    pool: &mut Pool,
    place: Place,
    a: Read,
    b: Read,
) -> Result<Read, AllocError>
    requires a_in { a.id < length pool.old }
    requires b_in { b.id < length pool.old }
    requires a_small { 1 + a.shape.nesting < 2 ^ 32 }
    requires b_small { 1 + b.shape.nesting < 2 ^ 32 }
    ensures read { IfOk result (λ x. (w : Bool) (i j : Phrase) (q s : Place) → IsIn w pool.old a i → IsIn w pool.old b j → IsIn w pool.new x (spelled.functions place i q j s)) }
    ensures shape { IfOk result (λ x. x.shape ≡ primary_shape_of place (1 + max a.shape.nesting b.shape.nesting)) }
    ensures within { IfOk result (λ x. x.id < length pool.new) }
    ensures kept { Keeps pool.old pool.new }
{
    let nesting = larger(a.shape.nesting, b.shape.nesting);
    let parts = Vec::from_array(alloc, [a.id, b.id])?;
    let form = Form::Strict(Strict::Functions);
    put(pool, form, place, parts, primary_shape(place, 1 + nesting))
}

// ---- rows

/// `{a, b}`
///
/// # Errors
///
/// Only for want of memory.
#[tactic(auto, using(crate::proofs::MakeLemmas::set_in))]
pub fn set_of(pool: &mut Pool, place: Place, ids: Vec<NodeId>, row: Row) -> Result<Read, AllocError>
    requires below { AllBelow (length pool.old) ids.items }
    requires small { 1 + row.nesting < 2 ^ 32 }
    ensures read { IfOk result (λ x. (w : Bool) (xs : Phrases) (q : Place) → AreIn w pool.old ids.items row xs → IsIn w pool.new x (spelled.set_of place xs q)) }
    ensures shape { IfOk result (λ x. x.shape ≡ primary_shape_of place (1 + row.nesting)) }
    ensures within { IfOk result (λ x. x.id < length pool.new) }
    ensures kept { Keeps pool.old pool.new }
{
    let form = Form::Strict(Strict::SetOf);
    let shape = primary_shape(place, 1 + row.nesting);
    put(pool, form, place, ids, shape)
}

/// `<<a, b>>`
///
/// # Errors
///
/// Only for want of memory.
#[tactic(auto, using(crate::proofs::MakeLemmas::tuple_in))]
pub fn tuple(pool: &mut Pool, place: Place, ids: Vec<NodeId>, row: Row) -> Result<Read, AllocError>
    requires below { AllBelow (length pool.old) ids.items }
    requires small { 1 + row.nesting < 2 ^ 32 }
    ensures read { IfOk result (λ x. (w : Bool) (xs : Phrases) (q : Place) → AreIn w pool.old ids.items row xs → IsIn w pool.new x (spelled.tuple place xs q)) }
    ensures shape { IfOk result (λ x. x.shape ≡ primary_shape_of place (1 + row.nesting)) }
    ensures within { IfOk result (λ x. x.id < length pool.new) }
    ensures kept { Keeps pool.old pool.new }
{
    let form = Form::Strict(Strict::Tuple);
    let shape = primary_shape(place, 1 + row.nesting);
    put(pool, form, place, ids, shape)
}

/// `Op(a, b)`
///
/// # Errors
///
/// Only for want of memory.
#[tactic(auto, using(crate::proofs::MakeLemmas::call_in))]
pub fn call(
    alloc: Global,
    pool: &mut Pool,
    tokens: &Tokens,
    word: Word,
    ids: Vec<NodeId>,
    row: Row,
) -> Result<Read, AllocError>
    requires below { AllBelow (length pool.old) ids.items }
    requires some { 1 ≤ length ids.items }
    requires small { 1 + row.nesting < 2 ^ 32 }
    ensures read { IfOk result (λ x. (w : Bool) (xs : Phrases) (q s : Place) → AreIn w pool.old ids.items row xs → IsIn w pool.new x (spelled.call word.place (span_bytes tokens.now.bytes.items word.span) q xs s)) }
    ensures shape { IfOk result (λ x. x.shape ≡ primary_shape_of word.place (1 + row.nesting)) }
    ensures within { IfOk result (λ x. x.id < length pool.new) }
    ensures kept { Keeps pool.old pool.new }
{
    let form = Form::Call(name_of(alloc, tokens, word.span)?);
    let shape = primary_shape(word.place, 1 + row.nesting);
    put(pool, form, word.place, ids, shape)
}

/// `a` in `f[a]`, and `<<a, b>>` in `f[a, b]`, which begins at the place.
///
/// # Errors
///
/// Only for want of memory.
#[tactic(auto, using(crate::proofs::MakeLemmas::one_subscript, crate::proofs::MakeLemmas::more_subscripts))]
pub fn subscript(pool: &mut Pool, ids: Vec<NodeId>, first: Place) -> Result<NodeId, AllocError>
    requires below { AllBelow (length pool.old) ids.items }
    requires some { 1 ≤ length ids.items }
    ensures tree { IfOk result (λ i. at pool.new i ≡ subscript_tree first (trees_at pool.old ids.items)) }
    ensures within { IfOk result (λ i. i < length pool.new) }
    ensures kept { Keeps pool.old pool.new }
{
    if ids.len() == 1 {
        return Ok(ids[0]);
    }
    pool.put(Form::Strict(Strict::Tuple), first, ids)
}

/// `f[a, b]`; linked tells whether closed applications and fields count.
///
/// # Errors
///
/// Only for want of memory.
#[tactic(auto, using(crate::proofs::MakeLemmas::apply_in))]
pub fn apply(
    alloc: Global,
    pool: &mut Pool,
    f: Read,
    ids: Vec<NodeId>,
    row: Row,
    linked: bool,
) -> Result<Read, AllocError>
    requires f_in { f.id < length pool.old }
    requires below { AllBelow (length pool.old) ids.items }
    requires some { 1 ≤ length ids.items }
    requires small { links_before_of linked f.shape.links + 1 + row.nesting < 2 ^ 32 }
    ensures read { IfOk result (λ x. (a : Phrase) (xs : Phrases) (p q : Place) → IsIn linked pool.old f a → AreIn linked pool.old ids.items row xs → IsIn linked pool.new x (spelled.apply a p xs q)) }
    ensures shape { IfOk result (λ x. x.shape ≡ apply_shape_of linked f.shape row.nesting) }
    ensures within { IfOk result (λ x. x.id < length pool.new) }
    ensures kept { Keeps pool.old pool.new }
{
    let index = subscript(pool, ids, row.first)?;
    let parts = Vec::from_array(alloc, [f.id, index])?;
    let form = Form::Strict(Strict::Apply);
    let shape = apply_shape(linked, f.shape, row.nesting);
    put(pool, form, f.shape.start, parts, shape)
}

/// `r.a`; linked tells whether closed applications and fields count.
///
/// # Errors
///
/// Only for want of memory.
#[tactic(auto, using(crate::proofs::MakeLemmas::select_in))]
pub fn select(
    alloc: Global,
    pool: &mut Pool,
    tokens: &Tokens,
    r: Read,
    field: FieldName,
    linked: bool,
) -> Result<Read, AllocError>
    requires r_in { r.id < length pool.old }
    requires small { links_before_of linked r.shape.links + 1 < 2 ^ 32 }
    ensures read { IfOk result (λ x. (a : Phrase) (p : Place) → IsIn linked pool.old r a → IsIn linked pool.new x (spelled.select a p (field_seen tokens.now.bytes.items field))) }
    ensures shape { IfOk result (λ x. x.shape ≡ select_shape_of linked r.shape) }
    ensures within { IfOk result (λ x. x.id < length pool.new) }
    ensures kept { Keeps pool.old pool.new }
{
    let form = Form::Strict(Strict::Select(name_of(alloc, tokens, field.span)?));
    let parts = Vec::from_array(alloc, [r.id])?;
    let shape = select_shape(linked, r.shape);
    put(pool, form, r.shape.start, parts, shape)
}

// ---- operators

/// An infix operator with its operands.
///
/// # Errors
///
/// Only for want of memory.
#[tactic(auto, using(crate::proofs::MakeLemmas::infix_in, crate::proofs::MakeLemmas::infix_shaped))]
pub fn infix(alloc: Global, pool: &mut Pool, a: Read, op: Op, b: Read) -> Result<Read, AllocError>
    requires between { is_prefix_of op ≡ false }
    requires a_in { a.id < length pool.old }
    requires b_in { b.id < length pool.old }
    requires small { a.shape.chain + 1 + b.shape.nesting < 2 ^ 32 }
    ensures read { IfOk result (λ x. (w : Bool) (i j : Phrase) (p : Place) → IsIn w pool.old a i → IsIn w pool.old b j → IsIn w pool.new x (spelled.infix_of i p op j)) }
    ensures shape { IfOk result (λ x. x.shape ≡ infix_shape_of a.shape op b.shape) }
    ensures within { IfOk result (λ x. x.id < length pool.new) }
    ensures kept { Keeps pool.old pool.new }
{
    let parts = Vec::from_array(alloc, [a.id, b.id])?;
    let shape = infix_shape(a.shape, op, b.shape);
    put(pool, operation(op), a.shape.start, parts, shape)
}

/// A prefix operator at a place with its operand.
///
/// # Errors
///
/// Only for want of memory.
#[tactic(auto, using(crate::proofs::MakeLemmas::prefix_in, crate::proofs::MakeLemmas::prefix_shaped))]
pub fn prefix(
    alloc: Global,
    pool: &mut Pool,
    place: Place,
    op: Op,
    a: Read,
) -> Result<Read, AllocError>
    requires before { is_prefix_of op ≡ true }
    requires a_in { a.id < length pool.old }
    requires small { 1 + a.shape.nesting < 2 ^ 32 }
    ensures read { IfOk result (λ x. (w : Bool) (i : Phrase) → IsIn w pool.old a i → IsIn w pool.new x (spelled.prefix_of place op i)) }
    ensures shape { IfOk result (λ x. x.shape ≡ prefix_shape_of place op a.shape) }
    ensures within { IfOk result (λ x. x.id < length pool.new) }
    ensures kept { Keeps pool.old pool.new }
{
    let parts = Vec::from_array(alloc, [a.id])?;
    let shape = prefix_shape(place, op, a.shape);
    put(pool, operation(op), place, parts, shape)
}

/// `IF a THEN b ELSE c`, at a place.
///
/// # Errors
///
/// Only for want of memory.
#[tactic(auto, using(crate::proofs::MakeLemmas::choice_in))]
pub fn choice(
    alloc: Global,
    pool: &mut Pool,
    place: Place,
    a: Read,
    b: Read,
    c: Read,
) -> Result<Read, AllocError>
    requires a_in { a.id < length pool.old }
    requires b_in { b.id < length pool.old }
    requires c_in { c.id < length pool.old }
    requires a_small { 1 + a.shape.nesting < 2 ^ 32 }
    requires b_small { 1 + b.shape.nesting < 2 ^ 32 }
    requires c_small { 1 + c.shape.nesting < 2 ^ 32 }
    ensures read { IfOk result (λ x. (w : Bool) (i j k : Phrase) (q r : Place) → IsIn w pool.old a i → IsIn w pool.old b j → IsIn w pool.old c k → IsIn w pool.new x (spelled.if_then_else place i q j r k)) }
    ensures shape { IfOk result (λ x. x.shape ≡ open_shape_of place c.shape.boxes (1 + max (max a.shape.nesting b.shape.nesting) c.shape.nesting)) }
    ensures within { IfOk result (λ x. x.id < length pool.new) }
    ensures kept { Keeps pool.old pool.new }
{
    let nesting = larger(larger(a.shape.nesting, b.shape.nesting), c.shape.nesting);
    let parts = Vec::from_array(alloc, [a.id, b.id, c.id])?;
    let shape = open_shape(place, c.shape.boxes, 1 + nesting);
    put(pool, Form::IfThenElse, place, parts, shape)
}
