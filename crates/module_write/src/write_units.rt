//! The written text of a translation.

ghost use Rattle.std.specs.Prelude.{◌≡◌, ◌<◌, ◌++◌, [], ◌∷◌, codes, map, length, OnOk, OnErr};
ghost use Rattle.std.specs.Option.{option_map};
ghost use Rattle.tla_tree.specs.Pool.{at, AllBelow};
ghost use Rattle.tla_tree.specs.Written.{written};
ghost use Rattle.tla_value.specs.Defs.{definition_at, definitions_at, DefinitionsIn};
ghost use Rattle.module_tree.specs.Module.{variables_unit, definition_unit, vars_unit, init_unit, action_unit, next_unit, spec_unit, process_set_of, model_value_units};
ghost use Rattle.module_tree.specs.Layout.{conjuncts_text, over_text, guard_text, fairness_text, parameters_text, union_text, sets_text, unit_text, layout};
ghost use Rattle.module_write.specs.InMemory.{over_at, fairness_at, region_at, ways_at, actions_at, OverIn, FairnessIn, AllFairnessIn, ActionsIn, WaysIn, RegionIn};
ghost use Rattle.module_lines.specs.Apart.{ahead, behind};
ghost use Rattle.module_lines.specs.Maybe.{MaybeIn};

use crate::module::{Action, Fairness, Region, Way};
use crate::ways::{processes, sets};
use crate::write_action::{write_action, write_call, write_ways};
use module_lines::ended::{write_terminating, write_termination};
use module_lines::line::{begin_line, write_joined, write_tuple, write_where};
use std::alloc::{AllocError, Global};
use tla_pool::Pool;
use tla_tree::{Name, NameList, NodeId, Text};
use tla_value::names::Definition;
use tla_write::{append_expr, append_operand};

// ---- names

fn write_constants(constants: &NameList, into: &mut Text) -> Result<(), AllocError>
    ensures { OnOk result (into.new ≡ into.old ++ ahead 0 (model_value_units constants.now)) }
{
    if constants.len() > 0 {
        into.extend(b"CONSTANT ")?;
        write_joined(constants.as_slice(), into)?;
        into.extend(b"\n\n")?;
    }
    Ok(())
}

fn write_variables(names: &NameList, into: &mut Text) -> Result<(), AllocError>
    ensures { OnOk result (into.new ≡ into.old ++ unit_text 0 (variables_unit names.now)) }
{
    into.extend(b"VARIABLES ")?;
    write_joined(names.as_slice(), into)?;
    into.push(b'\n')
}

fn write_vars(names: &NameList, into: &mut Text) -> Result<(), AllocError>
    ensures { OnOk result (into.new ≡ into.old ++ behind 0 (vars_unit names.now ∷ [])) }
{
    into.extend(b"\nvars == ")?;
    write_tuple(names.as_slice(), into)?;
    into.push(b'\n')
}

// ---- definitions

fn write_parameters(names: &NameList, into: &mut Text) -> Result<(), AllocError>
    ensures { OnOk result (into.new ≡ into.old ++ parameters_text names.now) }
{
    if names.len() > 0 {
        into.push(b'(')?;
        write_joined(names.as_slice(), into)?;
        into.push(b')')?;
    }
    Ok(())
}

fn write_definition(
    alloc: Global,
    pool: &Pool,
    definition: &Definition,
    into: &mut Text,
) -> Result<(), AllocError>
    requires { definition.now.body < length pool.now }
    ensures { OnOk result (into.new ≡ into.old ++ unit_text 0 (definition_unit (definition_at pool.now definition.now))) }
{
    into.extend(definition.name.bytes())?;
    write_parameters(&definition.params, into)?;
    into.extend(b" == ")?;
    append_expr(alloc, pool, definition.body, into)?;
    into.push(b'\n')
}

fn write_definitions(
    alloc: Global,
    pool: &Pool,
    definitions: &[Definition],
    into: &mut Text,
) -> Result<(), AllocError>
    requires { DefinitionsIn (length pool.now) definitions.now }
    ensures { OnOk result (into.new ≡ into.old ++ behind 0 (map definition_unit (definitions_at pool.now definitions.now))) }
{
    for definition in definitions {
        into.push(b'\n')?;
        write_definition(alloc, pool, definition, into)?;
    }
    Ok(())
}

// ---- the sets of the processes

fn write_union(
    alloc: Global,
    pool: &Pool,
    sets: &[NodeId],
    into: &mut Text,
) -> Result<(), AllocError>
    requires { AllBelow (length pool.now) sets.now }
    ensures { OnOk result (into.new ≡ into.old ++ union_text (map (at pool.now) sets.now)) }
{
    for i in 0..sets.len() {
        write_where(i > 0, b" \\cup ", into)?;
        append_operand(alloc, pool, sets[i], into)?;
    }
    Ok(())
}

fn write_sets(
    alloc: Global,
    pool: &Pool,
    sets: &[NodeId],
    into: &mut Text,
) -> Result<(), AllocError>
    requires { AllBelow (length pool.now) sets.now }
    ensures { OnOk result (into.new ≡ into.old ++ sets_text (map (at pool.now) sets.now)) }
{
    if sets.len() == 1 {
        append_expr(alloc, pool, sets[0], into)
    } else {
        write_union(alloc, pool, sets, into)
    }
}

// `n` is how many processes there are.
fn write_process_set(
    alloc: Global,
    pool: &Pool,
    n: usize,
    set: Option<NodeId>,
    into: &mut Text,
) -> Result<(), AllocError>
    requires { MaybeIn (length pool.now) set }
    ensures { OnOk result (into.new ≡ into.old ++ behind n (process_set_of (option_map (at pool.now) set))) }
{
    if let Some(e) = set {
        into.extend(b"\nProcSet == ")?;
        let parts = sets(alloc, pool, n, e)?;
        write_sets(alloc, pool, parts.as_slice(), into)?;
        into.push(b'\n')?;
    }
    Ok(())
}

// ---- Init, actions, Next

fn write_conjuncts(
    alloc: Global,
    pool: &Pool,
    conjuncts: &[NodeId],
    into: &mut Text,
) -> Result<(), AllocError>
    requires { AllBelow (length pool.now) conjuncts.now }
    ensures { OnOk result (into.new ≡ into.old ++ conjuncts_text (map written (map (at pool.now) conjuncts.now))) }
{
    for e in conjuncts {
        begin_line(2, b"/\\ ", into)?;
        append_expr(alloc, pool, *e, into)?;
        into.push(b'\n')?;
    }
    Ok(())
}

fn write_init(
    alloc: Global,
    pool: &Pool,
    conjuncts: &[NodeId],
    into: &mut Text,
) -> Result<(), AllocError>
    requires { AllBelow (length pool.now) conjuncts.now }
    ensures { OnOk result (into.new ≡ into.old ++ behind 0 (init_unit (map (at pool.now) conjuncts.now) ∷ [])) }
{
    into.extend(b"\nInit ==\n")?;
    write_conjuncts(alloc, pool, conjuncts, into)
}

fn write_actions(
    alloc: Global,
    pool: &Pool,
    actions: &[Action],
    into: &mut Text,
) -> Result<(), AllocError>
    requires { ActionsIn (length pool.now) actions.now }
    ensures { OnOk result (into.new ≡ into.old ++ behind 0 (map action_unit (actions_at pool.now actions.now))) }
{
    for action in actions {
        into.push(b'\n')?;
        write_action(alloc, pool, action, into)?;
    }
    Ok(())
}

fn write_next(alloc: Global, pool: &Pool, ways: &[Way], into: &mut Text) -> Result<(), AllocError>
    requires { WaysIn (length pool.now) ways.now }
    ensures { OnOk result (into.new ≡ into.old ++ behind 0 (next_unit (ways_at pool.now ways.now) ∷ [])) }
{
    into.extend(b"\nNext ==\n")?;
    write_ways(alloc, pool, ways, into)
}

// ---- Spec

fn write_over(
    alloc: Global,
    pool: &Pool,
    over: &Option<(Name, NodeId)>,
    into: &mut Text,
) -> Result<(), AllocError>
    requires { OverIn (length pool.now) over.now }
    ensures { OnOk result (into.new ≡ into.old ++ over_text (over_at pool.now over.now)) }
{
    if let Some((x, set)) = over {
        into.extend(b"\\A ")?;
        into.extend(x.bytes())?;
        into.extend(b" \\in ")?;
        append_operand(alloc, pool, *set, into)?;
        into.extend(b" : ")?;
    }
    Ok(())
}

fn write_guard(
    alloc: Global,
    pool: &Pool,
    guard: Option<NodeId>,
    into: &mut Text,
) -> Result<(), AllocError>
    requires { MaybeIn (length pool.now) guard }
    ensures { OnOk result (into.new ≡ into.old ++ guard_text (option_map (at pool.now) guard)) }
{
    if let Some(e) = guard {
        into.push(b'(')?;
        append_expr(alloc, pool, e, into)?;
        into.extend(b") /\\ ")?;
    }
    Ok(())
}

fn write_fairness(
    alloc: Global,
    pool: &Pool,
    fairness: &Fairness,
    into: &mut Text,
) -> Result<(), AllocError>
    requires { FairnessIn (length pool.now) fairness.now }
    ensures { OnOk result (into.new ≡ into.old ++ fairness_text (fairness_at pool.now fairness.now)) }
{
    write_over(alloc, pool, &fairness.over, into)?;
    into.extend(if fairness.strong {
        b"SF_vars("
    } else {
        b"WF_vars("
    })?;
    write_guard(alloc, pool, fairness.guard, into)?;
    write_call(alloc, pool, &fairness.action, into)?;
    into.push(b')')
}

fn write_fairness_lines(
    alloc: Global,
    pool: &Pool,
    lines: &[Fairness],
    into: &mut Text,
) -> Result<(), AllocError>
    requires { AllFairnessIn (length pool.now) lines.now }
    ensures { OnOk result (into.new ≡ into.old ++ conjuncts_text (map fairness_text (map (fairness_at pool.now) lines.now))) }
{
    for fairness in lines {
        begin_line(2, b"/\\ ", into)?;
        write_fairness(alloc, pool, fairness, into)?;
        into.push(b'\n')?;
    }
    Ok(())
}

fn write_spec(
    alloc: Global,
    pool: &Pool,
    lines: &[Fairness],
    into: &mut Text,
) -> Result<(), AllocError>
    requires { AllFairnessIn (length pool.now) lines.now }
    ensures { OnOk result (into.new ≡ into.old ++ behind 0 (spec_unit (map (fairness_at pool.now) lines.now) ∷ [])) }
{
    into.extend(b"\nSpec ==\n  /\\ Init\n  /\\ [][Next]_vars\n")?;
    write_fairness_lines(alloc, pool, lines, into)
}

// ---- all of them

fn write_units(
    alloc: Global,
    pool: &Pool,
    region: &Region,
    into: &mut Text,
) -> Result<(), AllocError>
    requires { RegionIn (length pool.now) region.now }
    ensures { OnOk result (into.new ≡ into.old ++ layout (region_at pool.now region.now)) }
{
    write_constants(&region.model_values, into)?;
    write_variables(&region.variables, into)?;
    write_definitions(alloc, pool, region.definitions.as_slice(), into)?;
    write_vars(&region.vars, into)?;
    let n = processes(pool, &region.next);
    write_process_set(alloc, pool, n, region.process_set, into)?;
    write_init(alloc, pool, &region.init, into)?;
    write_actions(alloc, pool, &region.actions, into)?;
    write_terminating(alloc, pool, region.ended, into)?;
    write_next(alloc, pool, &region.next, into)?;
    write_spec(alloc, pool, &region.fairness, into)?;
    write_termination(alloc, pool, region.termination, into)
}

/// Appends the text of a translation, as it stands between its two lines. Calls itself as deep as the items of its actions are in items.
///
/// # Errors
///
/// Only for want of memory; the text is then as before.
pub fn write_region(
    alloc: Global,
    pool: &Pool,
    region: &Region,
    into: &mut Text,
) -> Result<(), AllocError>
    requires { RegionIn (length pool.now) region.now }
    ensures ok { OnOk result (into.new ≡ into.old ++ layout (region_at pool.now region.now)) }
    ensures err { OnErr result (into.new ≡ into.old) }
{
    let mut made = Text::new(Vec::new(alloc));
    write_units(alloc, pool, region, &mut made)?;
    into.extend(made.bytes())
}
