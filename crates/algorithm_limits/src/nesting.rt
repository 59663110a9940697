//! How deep definitions nest, with the bodies of earlier ones in place of their names.

ghost use Rattle.std.specs.Prelude.{◌≡◌, ◌+◌, ◌<◌, ◌≤◌, [], length, take, min, IfOk, OnOk};
ghost use Rattle.tla_tree.specs.Pool.{at, trees_at, AllBelow};
ghost use Rattle.tla_pool.specs.FormOf.{form_of};
ghost use Rattle.tla_value.specs.DefinitionNesting.{Depths, nests as nests_of, definition_nests as nests_with};
ghost use Rattle.pcal_tree.specs.InMemory.{definition_at, definitions_at, past_definitions};
ghost use Rattle.pcal_tree.specs.Program.{inner};
ghost use Rattle.pcal_tree.specs.Offences.{first};
ghost use Rattle.pcal_tree.specs.OffencesCounts.{deep_definitions};
ghost use Rattle.algorithm_limits.specs.DepthsIn.{depth_in, used_in, AreDepths, nest_from};

use crate::bound::Bound;
use crate::order::or_offence;
use crate::table::Table;
use pcal_tree::algorithm::Definition;
use std::alloc::{AllocError, Global};
use tla_pool::Pool;
use tla_pool::form::Form;
use tla_token::{Refusal, Rule};
use tla_tree::{Name, NodeId};

/// How deep a definition may nest.
pub const DEEPEST_DEFINITION: usize = 500;

// Past this depth it doesn't matter how deep it is.
const DEEP: usize = 501;

// How deep a use of a name nests, if it is one of a definition.
fn name_depth(depths: &Table, bound: &Bound, name: &Name) -> usize
    ensures { result ≡ depth_in depths.now bound.now name.now }
{
    if bound.has(name) { 0 } else { depths.get(name) }
}

// The same of what a form names.
fn form_depth(depths: &Table, bound: &Bound, form: &Form) -> usize
    ensures { result ≡ used_in depths.now bound.now (form_of form.now) }
{
    match form {
        Form::Name(name) => name_depth(depths, bound, name),
        Form::Call(name) => name_depth(depths, bound, name),
        _ => 0,
    }
}

// How deep an expression nests, up to a depth: it calls itself no deeper than that.
#[cycle(nests)]
fn nests(
    pool: &Pool,
    depths: &Table,
    bound: &mut Bound,
    e: NodeId,
    most: usize,
) -> Result<usize, AllocError>
    requires there { e < length pool.now }
    requires within { most ≤ 501 }
    ensures depth { IfOk result (λ n. (ds : Depths) → AreDepths 501 depths.now bound.old ds → n ≡ min most (nests_of (at pool.now e) ds)) }
    ensures small { IfOk result (λ n. n ≤ most) }
    ensures kept { OnOk result (bound.new ≡ bound.old) }
{
    if most == 0 {
        return Ok(0);
    }
    let node = pool.node(e);
    let own = form_depth(depths, bound, &node.form);
    let around = bound.len();
    let parts = parts_nest(pool, depths, bound, &node.form, &node.parts, most - 1)?;
    bound.truncate(around);
    Ok(own.max(parts).min(most))
}

// The same of the parts of a form, and one more; the names of the form are bound then.
#[cycle(nests)]
fn parts_nest(
    pool: &Pool,
    depths: &Table,
    bound: &mut Bound,
    form: &Form,
    parts: &[NodeId],
    most: usize,
) -> Result<usize, AllocError>
    requires there { AllBelow (length pool.now) parts.now }
    requires within { most < 501 }
    ensures depth { IfOk result (λ n. (ds : Depths) → AreDepths 501 depths.now bound.old ds → min (most + 1) n ≡ min (most + 1) (nest_from (form_of form.now) 0 (trees_at pool.now parts.now) ds)) }
    ensures kept { OnOk result (take (length bound.old) bound.new ≡ bound.old) }
{
    let mut deepest = 0;
    for i in 0..parts.len() {
        let part = nests(pool, depths, bound, parts[i], most)?;
        deepest = deepest.max(part + 1);
        bound.add_next(form, i)?;
    }
    Ok(deepest)
}

// How deep a definition nests, up to a depth.
fn definition_nests(
    pool: &Pool,
    depths: &Table,
    bound: &mut Bound,
    definition: &Definition,
) -> Result<usize, AllocError>
    requires there { definition.now.body < length pool.now }
    requires none { bound.old ≡ [] }
    ensures depth { IfOk result (λ n. (ds : Depths) → AreDepths 501 depths.now [] ds → n ≡ min 501 (nests_with ds (inner (definition_at pool.now definition.now)))) }
    ensures small { IfOk result (λ n. n ≤ 501) }
    ensures kept { OnOk result (bound.new ≡ []) }
{
    bound.add_all(&definition.params)?;
    let depth = nests(pool, depths, bound, definition.body, DEEP)?;
    bound.truncate(0);
    Ok(depth)
}

/// The first definition that nests too deep.
///
/// # Errors
///
/// Only for want of memory.
pub fn deep_definition(
    alloc: Global,
    pool: &Pool,
    definitions: &[Definition],
) -> Result<Option<Refusal>, AllocError>
    requires { past_definitions definitions.now ≤ length pool.now }
    ensures { IfOk result (λ r. r ≡ first (deep_definitions [] (definitions_at pool.now definitions.now))) }
{
    let mut depths = Table::new(alloc);
    let mut bound = Bound::new(alloc);
    let mut found = None;
    for definition in definitions {
        let depth = definition_nests(pool, &depths, &mut bound, definition)?;
        found = or_offence(
            found,
            depth > DEEPEST_DEFINITION,
            Rule::TooMany,
            definition.name.place,
        );
        depths.set(definition.name.name.copied()?, depth + 1)?;
    }
    Ok(found)
}
