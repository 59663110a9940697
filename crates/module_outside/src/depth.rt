//! How deep a definition nests, if it is read.

ghost use Rattle.std.specs.Prelude.{◌≡◌, ◌+◌, ◌<◌, ◌≤◌, ◌^◌, ◌&&◌, nat_eq, [], length, take, List, IfOk, OnOk, IfSome, true, false};
ghost use Rattle.tla_token.specs.Signs.{is_among};
ghost use Rattle.tla_tree.specs.Tree.{Word, words};
ghost use Rattle.tla_tree.specs.Shapes.{Shaped};
ghost use Rattle.tla_tree.specs.Pool.{at, trees_at, AllBelow};
ghost use Rattle.tla_tree.specs.Tree as tree;
ghost use Rattle.tla_pool.specs.FormOf.{form_of};
ghost use Rattle.tla_value.specs.DefinitionNesting.{depths};
ghost use Rattle.tla_value.specs.StandardModules.{is_member as is_member_of};
ghost use Rattle.module_tree.specs.Outside as pure;
ghost use Rattle.outside_reading.specs.TreeDepth as reading;
ghost use Rattle.module_outside.specs.SightIn.{Sees, Binds, name_reads_in, call_reads_in};

use crate::fresh::{groups_fresh, names_fresh};
use crate::sight::Sight;
use algorithm_limits::bound::Bound;
use std::alloc::{AllocError, Global};
use tla_pool::Pool;
use tla_pool::form::{Form, Strict};
use tla_tree::{Name, NodeId, PlacedName};

// Numbers are less than this.
const PAST_NUMBERS: u128 = 1 << 127;

/// How deep a definition may nest.
const DEEPEST: usize = 500;

// ---- forms

// Whether a name may stand where these are bound.
fn name_reads(sight: &Sight, bound: &Bound, infinite: bool, name: &Name) -> bool
    ensures { result ≡ name_reads_in sight.now bound.now infinite name.now }
{
    bound.has(name)
        || (sight.constants.has(name)
            || (sight.arities.get(name) == 1 || sight.modules.has_name(infinite, name.bytes(), 0)))
}

// Whether a name with so many arguments may stand.
fn call_reads(sight: &Sight, infinite: bool, name: &Name, arguments: usize) -> bool
    requires { arguments < 2 ^ 63 }
    ensures { result ≡ call_reads_in sight.now infinite name.now arguments }
{
    sight.arities.get(name) == arguments + 1
        || sight.modules.has_name(infinite, name.bytes(), arguments)
}

// Whether a form may stand where these are bound, its parts aside.
fn form_reads(
    sight: &Sight,
    bound: &mut Bound,
    infinite: bool,
    form: &Form,
    parts: usize,
) -> Result<bool, AllocError>
    requires counted { parts < 2 ^ 63 }
    ensures value { IfOk result (λ r. (v : pure.Sight) (bs : List Word) → Sees sight.now v → Binds bound.old bs → r ≡ pure.form_reads v bs infinite (form_of form.now) parts) }
    ensures kept { OnOk result (take (length bound.old) bound.new ≡ bound.old) }
{
    match form {
        Form::Number(n) => Ok(*n < PAST_NUMBERS),
        Form::Strings => Ok(infinite),
        Form::Name(name) => Ok(name_reads(sight, bound, infinite, name)),
        Form::Next(_) => Ok(false),
        Form::Call(name) => Ok(call_reads(sight, infinite, name, parts)),
        Form::Strict(Strict::Operator(op)) => Ok(sight.modules.has_operator(*op)),
        Form::Binding(_, groups) => groups_fresh(sight, bound, groups),
        Form::Local(names) => names_fresh(sight, bound, names),
        _ => Ok(true),
    }
}

/// Whether it is `\in` or `\notin`.
pub fn is_member(form: &Form) -> bool
    ensures { result ≡ is_member_of (form_of form.now) }
{
    matches!(form, Form::Member(_))
}

/// Whether the part of this number is the last one of `\in` or `\notin`.
pub fn is_last_of_member(form: &Form, part: usize, parts: usize) -> bool
    requires { part < parts }
    ensures { result ≡ (is_member_of (form_of form.now) && nat_eq (part + 1) parts) }
{
    is_member(form) && part + 1 == parts
}

// ---- depths

// A use, and the parts.
fn with_parts(own: usize, parts: Option<usize>) -> Option<usize>
    ensures value { result ≡ reading.with_parts own parts }
    ensures small { IfSome result (λ n. n ≤ 500) }
{
    match parts {
        Some(deepest) => {
            let depth = own.max(deepest);
            if depth <= DEEPEST { Some(depth) } else { None }
        }
        None => None,
    }
}

// How deep an expression nests, if it may stand where these are bound.
#[cycle(tree_depth)]
fn tree_depth(
    pool: &Pool,
    sight: &Sight,
    bound: &mut Bound,
    infinite: bool,
    e: NodeId,
) -> Result<Option<usize>, AllocError>
    requires there { e < length pool.now }
    ensures depth { IfOk result (λ r. (v : pure.Sight) (bs : List Word) → Sees sight.now v → Binds bound.old bs → r ≡ reading.tree_depth v (depths [] v.earlier) bs infinite (at pool.now e)) }
    ensures small { IfOk result (λ r. IfSome r (λ n. n ≤ 500)) }
    ensures kept { OnOk result (bound.new ≡ bound.old) }
{
    let node = pool.node(e);
    let parts: &[NodeId] = &node.parts;
    let around = bound.len();
    let reads = form_reads(sight, bound, infinite, &node.form, parts.len())?;
    bound.truncate(around);
    if !reads {
        return Ok(None);
    }
    let deepest = parts_depth(pool, sight, bound, &node.form, parts, e)?;
    bound.truncate(around);
    Ok(with_parts(sight.use_depth(&node.form), deepest))
}

// The same of the parts of a form, which have smaller numbers than this, and one more; the names of the form are bound then.
#[cycle(tree_depth)]
fn parts_depth(
    pool: &Pool,
    sight: &Sight,
    bound: &mut Bound,
    form: &Form,
    parts: &[NodeId],
    past: NodeId,
) -> Result<Option<usize>, AllocError>
    requires there { AllBelow past parts.now }
    requires inside { past ≤ length pool.now }
    requires shaped { Shaped (form_of form.now) (length parts.now) }
    ensures depth { IfOk result (λ r. (v : pure.Sight) (bs : List Word) → Sees sight.now v → Binds bound.old bs → r ≡ reading.trees_depth v (depths [] v.earlier) bs (tree.seen_names (form_of form.now)) (is_member_of (form_of form.now)) (trees_at pool.now parts.now)) }
    ensures kept { OnOk result (take (length bound.old) bound.new ≡ bound.old) }
{
    let mut deepest = 0;
    for i in 0..parts.len() {
        let infinite = is_last_of_member(form, i, parts.len());
        match tree_depth(pool, sight, bound, infinite, parts[i])? {
            Some(depth) => {
                deepest = deepest.max(depth + 1);
            }
            None => {
                return Ok(None);
            }
        }
        bound.add_next(form, i)?;
    }
    Ok(Some(deepest))
}

// How deep a definition nests of what is no constant, if it is read, where no name is bound.
fn depth_within(
    pool: &Pool,
    sight: &Sight,
    bound: &mut Bound,
    params: &[PlacedName],
    body: NodeId,
) -> Result<Option<usize>, AllocError>
    requires there { body < length pool.now }
    ensures depth { IfOk result (λ r. (v : pure.Sight) (x : Word) → Sees sight.now v → is_among v.constants x ≡ false → bound.old ≡ [] → r ≡ reading.definition_depth v (depths [] v.earlier) (record { title = x; params = words params.now; body = at pool.now body; outside = true })) }
    ensures small { IfOk result (λ r. IfSome r (λ n. n ≤ 500)) }
{
    if !names_fresh(sight, bound, params)? {
        return Ok(None);
    }
    tree_depth(pool, sight, bound, false, body)
}

/// How deep a definition nests, if it is read.
///
/// # Errors
///
/// Only for want of memory.
pub fn definition_depth(
    alloc: Global,
    pool: &Pool,
    sight: &Sight,
    title: &Name,
    params: &[PlacedName],
    body: NodeId,
) -> Result<Option<usize>, AllocError>
    requires there { body < length pool.now }
    ensures depth { IfOk result (λ r. (v : pure.Sight) → Sees sight.now v → r ≡ reading.definition_depth v (depths [] v.earlier) (record { title = title.now; params = words params.now; body = at pool.now body; outside = true })) }
    ensures small { IfOk result (λ r. IfSome r (λ n. n ≤ 500)) }
{
    if sight.constants.has(title) {
        return Ok(None);
    }
    let mut bound = Bound::new(alloc);
    let depth = depth_within(pool, sight, &mut bound, params, body);
    drop(bound);
    depth
}
