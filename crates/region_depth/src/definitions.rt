//! How deep definitions nest, with the bodies of those before in place of their names.

ghost use Rattle.std.specs.Prelude.{◌≡◌, ◌+◌, ◌<◌, ◌≤◌, [], length, take, min, IfOk, OnOk};
ghost use Rattle.tla_tree.specs.Pool.{at, trees_at, AllBelow};
ghost use Rattle.tla_pool.specs.FormOf.{form_of};
ghost use Rattle.tla_value.specs.DefinitionNesting.{Depths, nests as nests_of, definition_nests as nests_with};
ghost use Rattle.tla_value.specs.Defs.{definition_at, definitions_at, DefinitionsIn};
ghost use Rattle.algorithm_limits.specs.DepthsIn.{depth_in, used_in, AreDepths, Hides, nest_from};
ghost use Rattle.region_reading.specs.Nests.{definitions_nest};
ghost use Rattle.region_depth.specs.Room.{has_room};

use crate::expression::DEEPEST;
use algorithm_limits::bound::Bound;
use algorithm_limits::table::Table;
use std::alloc::{AllocError, Global};
use tla_pool::Pool;
use tla_pool::form::Form;
use tla_tree::{Name, NodeId};
use tla_value::names::Definition;

// Past this depth it doesn't matter how deep it is.
const DEEP: usize = 1201;

// How deep a use of a name nests, if it is one of a definition.
fn name_depth(depths: &Table, bound: &Bound, name: &Name) -> usize
    ensures { result ≡ depth_in depths.now bound.now name.now }
{
    if bound.has(name) { 0 } else { depths.get(name) }
}

// The same of what a form names.
fn form_depth(depths: &Table, bound: &Bound, form: &Form) -> usize
    ensures { result ≡ used_in depths.now bound.now (form_of form.now) }
{
    match form {
        Form::Name(name) => name_depth(depths, bound, name),
        Form::Call(name) => name_depth(depths, bound, name),
        _ => 0,
    }
}

// How deep an expression nests, up to a depth: it calls itself no deeper than that.
#[cycle(nests)]
fn nests(
    pool: &Pool,
    depths: &Table,
    bound: &mut Bound,
    e: NodeId,
    most: usize,
) -> Result<usize, AllocError>
    requires there { e < length pool.now }
    requires within { most ≤ 1201 }
    ensures depth { IfOk result (λ n. (ds : Depths) → AreDepths 1201 depths.now bound.old ds → n ≡ min most (nests_of (at pool.now e) ds)) }
    ensures small { IfOk result (λ n. n ≤ most) }
    ensures kept { OnOk result (bound.new ≡ bound.old) }
{
    if most == 0 {
        return Ok(0);
    }
    let node = pool.node(e);
    let own = form_depth(depths, bound, &node.form);
    let around = bound.len();
    let parts = parts_nest(pool, depths, bound, &node.form, &node.parts, most - 1)?;
    bound.truncate(around);
    Ok(own.max(parts).min(most))
}

// The same of the parts of a form, and one more; the names of the form are bound then.
#[cycle(nests)]
fn parts_nest(
    pool: &Pool,
    depths: &Table,
    bound: &mut Bound,
    form: &Form,
    parts: &[NodeId],
    most: usize,
) -> Result<usize, AllocError>
    requires there { AllBelow (length pool.now) parts.now }
    requires within { most < 1201 }
    ensures depth { IfOk result (λ n. (ds : Depths) → AreDepths 1201 depths.now bound.old ds → min (most + 1) n ≡ min (most + 1) (nest_from (form_of form.now) 0 (trees_at pool.now parts.now) ds)) }
    ensures kept { OnOk result (take (length bound.old) bound.new ≡ bound.old) }
{
    let mut deepest = 0;
    for i in 0..parts.len() {
        let part = nests(pool, depths, bound, parts[i], most)?;
        deepest = deepest.max(part + 1);
        bound.add_next(form, i)?;
    }
    Ok(deepest)
}

// Binds these names too.
fn bind(bound: &mut Bound, names: &[Name]) -> Result<(), AllocError>
    ensures { OnOk result (Hides bound.old bound.new names.now) }
{
    for name in names {
        bound.add(name)?;
    }
    Ok(())
}

// How deep a definition nests, up to a depth.
fn definition_nests(
    pool: &Pool,
    depths: &Table,
    bound: &mut Bound,
    definition: &Definition,
) -> Result<usize, AllocError>
    requires there { definition.now.body < length pool.now }
    requires none { bound.old ≡ [] }
    ensures depth { IfOk result (λ n. (ds : Depths) → AreDepths 1201 depths.now [] ds → n ≡ min 1201 (nests_with ds (definition_at pool.now definition.now))) }
    ensures small { IfOk result (λ n. n ≤ 1201) }
    ensures kept { OnOk result (bound.new ≡ []) }
{
    bind(bound, definition.params.as_slice())?;
    let depth = nests(pool, depths, bound, definition.body, DEEP)?;
    bound.truncate(0);
    Ok(depth)
}

/// Whether each definition nests no deeper than a module may, with the bodies of those before it in place of their names.
///
/// # Errors
///
/// Only for want of memory.
pub fn definitions_fit(
    alloc: Global,
    pool: &Pool,
    definitions: &[Definition],
) -> Result<bool, AllocError>
    requires { DefinitionsIn (length pool.now) definitions.now }
    ensures { IfOk result (λ b. b ≡ has_room 0 (definitions_nest [] (definitions_at pool.now definitions.now))) }
{
    let mut depths = Table::new(alloc);
    let mut bound = Bound::new(alloc);
    for definition in definitions {
        let depth = definition_nests(pool, &depths, &mut bound, definition)?;
        if depth > DEEPEST {
            return Ok(false);
        }
        depths.set(definition.name.copied()?, depth + 1)?;
    }
    Ok(true)
}
