//! The written text of an action.

ghost use Rattle.std.specs.Prelude.{◌≡◌, ◌≤◌, ◌<◌, ◌++◌, codes, length, OnOk};
ghost use Rattle.tla_tree.specs.Pool.{at};
ghost use Rattle.tla_tree.specs.Written.{written};
ghost use Rattle.module_tree.specs.Module.{test, setting, unchanged, exists, local, no_items, action_unit};
ghost use Rattle.module_tree.specs.Layout.{line, item_text, items_text, branches_text, call_text, way_text, ways_text, body_text, parameter_text, unit_text};
ghost use Rattle.module_write.specs.InMemory.{item_at, items_at, branches_at, call_at, way_at, ways_at, body_at, action_at, past_item, past_items, past_branches, CallIn, WayIn, WaysIn, BodyIn};

use crate::module::{Action, Body, Call, Item, Way};
use module_lines::line::{begin_line, deeper, write_line, write_tuple};
use std::alloc::{AllocError, Global};
use tla_pool::Pool;
use tla_tree::{Name, NameList, NodeId, Text};
use tla_write::{append_expr, append_operand};

// ---- lines of items. Those before a list are of the item with nothing in it.

fn write_test(
    alloc: Global,
    pool: &Pool,
    k: usize,
    e: NodeId,
    into: &mut Text,
) -> Result<(), AllocError>
    requires { e < length pool.now }
    ensures { OnOk result (into.new ≡ into.old ++ item_text k (test (at pool.now e))) }
{
    begin_line(k, b"/\\ (", into)?;
    append_expr(alloc, pool, e, into)?;
    into.extend(b")\n")
}

fn write_setting(
    alloc: Global,
    pool: &Pool,
    k: usize,
    x: &Name,
    e: NodeId,
    into: &mut Text,
) -> Result<(), AllocError>
    requires { e < length pool.now }
    ensures { OnOk result (into.new ≡ into.old ++ item_text k (setting x.now (at pool.now e))) }
{
    begin_line(k, b"/\\ ", into)?;
    into.extend(x.bytes())?;
    into.extend(b"' = ")?;
    append_operand(alloc, pool, e, into)?;
    into.push(b'\n')
}

fn write_unchanged(k: usize, names: &NameList, into: &mut Text) -> Result<(), AllocError>
    ensures { OnOk result (into.new ≡ into.old ++ item_text k (unchanged names.now)) }
{
    begin_line(k, b"/\\ UNCHANGED ", into)?;
    write_tuple(names.as_slice(), into)?;
    into.push(b'\n')
}

fn write_exists(
    alloc: Global,
    pool: &Pool,
    k: usize,
    x: &Name,
    set: NodeId,
    into: &mut Text,
) -> Result<(), AllocError>
    requires { set < length pool.now }
    ensures { OnOk result (into.new ≡ into.old ++ item_text k (exists x.now (at pool.now set) no_items)) }
{
    begin_line(k, b"/\\ \\E ", into)?;
    into.extend(x.bytes())?;
    into.extend(b" \\in ")?;
    append_operand(alloc, pool, set, into)?;
    into.extend(b" :\n")
}

fn write_local(
    alloc: Global,
    pool: &Pool,
    k: usize,
    x: &Name,
    e: NodeId,
    into: &mut Text,
) -> Result<(), AllocError>
    requires { e < length pool.now }
    ensures { OnOk result (into.new ≡ into.old ++ item_text k (local x.now (at pool.now e) no_items)) }
{
    begin_line(k, b"/\\ LET ", into)?;
    into.extend(x.bytes())?;
    into.extend(b" == ")?;
    append_expr(alloc, pool, e, into)?;
    into.extend(b" IN\n")
}

fn write_if(
    alloc: Global,
    pool: &Pool,
    k: usize,
    p: NodeId,
    into: &mut Text,
) -> Result<(), AllocError>
    requires { p < length pool.now }
    ensures { OnOk result (into.new ≡ into.old ++ line k (codes "/\\ IF " ++ written (at pool.now p))) }
{
    begin_line(k, b"/\\ IF ", into)?;
    append_expr(alloc, pool, p, into)?;
    into.push(b'\n')
}

// ---- items

// Calls itself as deep as items are in items.
#[cycle(write)]
fn write_item(
    alloc: Global,
    pool: &Pool,
    k: usize,
    item: &Item,
    into: &mut Text,
) -> Result<(), AllocError>
    requires { past_item item.now ≤ length pool.now }
    ensures { OnOk result (into.new ≡ into.old ++ item_text k (item_at pool.now item.now)) }
{
    match item {
        Item::Test(e) => write_test(alloc, pool, k, *e, into)?,
        Item::Setting(x, e) => write_setting(alloc, pool, k, x, *e, into)?,
        Item::Unchanged(names) => write_unchanged(k, names, into)?,
        Item::Exists(x, set, items) => {
            write_exists(alloc, pool, k, x, *set, into)?;
            write_items(alloc, pool, deeper(k, 5)?, items, into)?;
        }
        Item::Local(x, e, items) => {
            write_local(alloc, pool, k, x, *e, into)?;
            write_items(alloc, pool, deeper(k, 5)?, items, into)?;
        }
        Item::Choice(p, yes, no) => {
            write_if(alloc, pool, k, *p, into)?;
            write_line(deeper(k, 3)?, b"THEN", into)?;
            write_items(alloc, pool, deeper(k, 5)?, yes, into)?;
            write_line(deeper(k, 3)?, b"ELSE", into)?;
            write_items(alloc, pool, deeper(k, 5)?, no, into)?;
        }
        Item::Either(branches) => {
            write_line(k, b"/\\", into)?;
            write_branches(alloc, pool, k, branches, into)?;
        }
    }
    Ok(())
}

#[cycle(write)]
fn write_items(
    alloc: Global,
    pool: &Pool,
    k: usize,
    items: &[Item],
    into: &mut Text,
) -> Result<(), AllocError>
    requires { past_items items.now ≤ length pool.now }
    ensures { OnOk result (into.new ≡ into.old ++ items_text k (items_at pool.now items.now)) }
{
    for item in items {
        write_item(alloc, pool, k, item, into)?;
    }
    Ok(())
}

#[cycle(write)]
fn write_branches(
    alloc: Global,
    pool: &Pool,
    k: usize,
    branches: &[Vec<Item>],
    into: &mut Text,
) -> Result<(), AllocError>
    requires { past_branches branches.now ≤ length pool.now }
    ensures { OnOk result (into.new ≡ into.old ++ branches_text k (branches_at pool.now branches.now)) }
{
    for branch in branches {
        write_line(deeper(k, 5)?, b"\\/", into)?;
        write_items(alloc, pool, deeper(k, 10)?, branch, into)?;
    }
    Ok(())
}

// ---- calls

/// Appends the call of an action.
///
/// # Errors
///
/// Only for want of memory.
pub fn write_call(
    alloc: Global,
    pool: &Pool,
    call: &Call,
    into: &mut Text,
) -> Result<(), AllocError>
    requires { CallIn (length pool.now) call.now }
    ensures { OnOk result (into.new ≡ into.old ++ call_text (call_at pool.now call.now)) }
{
    match call {
        Call::Bare(title) => into.extend(title.bytes())?,
        Call::With(title, e) => {
            into.extend(title.bytes())?;
            into.push(b'(')?;
            append_expr(alloc, pool, *e, into)?;
            into.push(b')')?;
        }
    }
    Ok(())
}

fn write_way(alloc: Global, pool: &Pool, way: &Way, into: &mut Text) -> Result<(), AllocError>
    requires { WayIn (length pool.now) way.now }
    ensures { OnOk result (into.new ≡ into.old ++ way_text (way_at pool.now way.now)) }
{
    match way {
        Way::One(call) => write_call(alloc, pool, call, into)?,
        Way::Among(x, set, call) => {
            into.extend(b"\\E ")?;
            into.extend(x.bytes())?;
            into.extend(b" \\in ")?;
            append_operand(alloc, pool, *set, into)?;
            into.extend(b" : ")?;
            write_call(alloc, pool, call, into)?;
        }
    }
    Ok(())
}

/// Appends a disjunction of calls, a line for each.
///
/// # Errors
///
/// Only for want of memory.
pub fn write_ways(
    alloc: Global,
    pool: &Pool,
    ways: &[Way],
    into: &mut Text,
) -> Result<(), AllocError>
    requires { WaysIn (length pool.now) ways.now }
    ensures { OnOk result (into.new ≡ into.old ++ ways_text (ways_at pool.now ways.now)) }
{
    for way in ways {
        begin_line(2, b"\\/ ", into)?;
        write_way(alloc, pool, way, into)?;
        into.push(b'\n')?;
    }
    Ok(())
}

// ---- actions

fn write_body(alloc: Global, pool: &Pool, body: &Body, into: &mut Text) -> Result<(), AllocError>
    requires { BodyIn (length pool.now) body.now }
    ensures { OnOk result (into.new ≡ into.old ++ body_text (body_at pool.now body.now)) }
{
    match body {
        Body::All(items) => write_items(alloc, pool, 2, items, into),
        Body::Any(ways) => write_ways(alloc, pool, ways, into),
    }
}

fn write_parameter(parameter: &Option<Name>, into: &mut Text) -> Result<(), AllocError>
    ensures { OnOk result (into.new ≡ into.old ++ parameter_text parameter.now) }
{
    if let Some(x) = parameter {
        into.push(b'(')?;
        into.extend(x.bytes())?;
        into.push(b')')?;
    }
    Ok(())
}

/// Appends an action. The writer calls itself as deep as its items are in items.
///
/// # Errors
///
/// Only for want of memory.
pub fn write_action(
    alloc: Global,
    pool: &Pool,
    action: &Action,
    into: &mut Text,
) -> Result<(), AllocError>
    requires { BodyIn (length pool.now) action.now.body }
    ensures { OnOk result (into.new ≡ into.old ++ unit_text 0 (action_unit (action_at pool.now action.now))) }
{
    into.extend(action.title.bytes())?;
    write_parameter(&action.parameter, into)?;
    into.extend(b" ==\n")?;
    write_body(alloc, pool, &action.body, into)
}
