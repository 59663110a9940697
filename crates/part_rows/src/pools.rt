//! Names, nodes of a pool and grafts in memory.

ghost use Rattle.std.specs.Prelude.{◌<◌, length, IfOk};

use crate::scanning::put_text;
use std::alloc::{AllocError, Global};
use tla_pool::form::{Form, Strict};
use tla_pool::graft::{Grafting, grafted};
use tla_pool::{Pool, Seen};
use tla_token::Place;
use tla_tree::{Binder, Name, NameList, NodeId, Op, PlacedName, Text, rank};
use tla_write::write_expr;

/// Appends the least and the greatest rank of some operators.
pub fn put_ranks(alloc: Global, told: &mut Vec<u8>) -> Result<(), AllocError> {
    for (shown, op) in [("+", Op::Plus), ("%", Op::Modulo), ("-.", Op::Negate)] {
        let (least, greatest) = rank(op);
        put_text(told, format!(in alloc; "{shown} {least} {greatest}|")?)?;
    }
    Ok(())
}

fn name(alloc: Global, letter: u8) -> Result<Name, AllocError> {
    Ok(Name::new(Vec::from_array(alloc, [letter])?))
}

/// A name of a list is found there, another isn't, and a copy has as many.
pub fn names_are_kept(alloc: Global) -> Result<bool, AllocError> {
    let mut names = NameList::new(alloc);
    names.push(name(alloc, 120)?)?;
    let other = name(alloc, 121)?;
    if names.contains(&other) {
        return Ok(false);
    }
    names.push(other.copied()?)?;
    Ok(names.contains(&other) && names.copied(alloc)?.len() == 2)
}

/// A copy of a text has its bytes.
pub fn texts_are_kept(alloc: Global) -> Result<bool, AllocError> {
    let text = Text::new(Vec::from_array(alloc, [120, 121])?);
    Ok(text.copied()?.bytes().len() == 2)
}

// `x, y` of one set.
fn group(alloc: Global) -> Result<Vec<PlacedName>, AllocError> {
    let mut group = Vec::new(alloc);
    for (letter, col) in [(120, 4), (121, 7)] {
        group.push(PlacedName {
            name: name(alloc, letter)?,
            place: Place { line: 1, col },
        })?;
    }
    Ok(group)
}

fn binds_two_names(form: &Form) -> bool {
    match form {
        Form::Binding(Binder::Exists, groups) => groups.len() == 1 && groups[0].len() == 2,
        _ => false,
    }
}

/// A copy of a form has the same names in groups.
pub fn a_copy_of_a_form_has_the_same_groups(alloc: Global) -> Result<bool, AllocError> {
    let mut groups = Vec::new(alloc);
    groups.push(group(alloc)?)?;
    let form = Form::Binding(Binder::Exists, groups);
    Ok(binds_two_names(&form.copied(alloc)?))
}

const HERE: Place = Place { line: 1, col: 1 };

const THERE: Place = Place { line: 1, col: 2 };

fn one(alloc: Global, pool: &mut Pool, place: Place) -> Result<NodeId, AllocError>
    ensures { IfOk result (λ e. e < length pool.new) }
{
    pool.put(Form::Number(1), place, Vec::new(alloc))
}

/// A tree that is put again has its number, and one at another place has another.
pub fn equal_trees_have_one_number(alloc: Global) -> Result<bool, AllocError> {
    let mut pool = Pool::new(alloc);
    let first = one(alloc, &mut pool, HERE)?;
    let again = one(alloc, &mut pool, HERE)?;
    let elsewhere = one(alloc, &mut pool, THERE)?;
    Ok(first == again && first != elsewhere && pool.len() == 2)
}

/// The parts of a node are seen in order.
pub fn parts_are_seen(alloc: Global) -> Result<bool, AllocError> {
    let mut pool = Pool::new(alloc);
    let first = one(alloc, &mut pool, HERE)?;
    let other = one(alloc, &mut pool, THERE)?;
    if first >= pool.len() {
        return Ok(false);
    }
    let both = pool.put(
        Form::Conjunction,
        HERE,
        Vec::from_array(alloc, [first, other])?,
    )?;
    let seen = Seen::new(&pool, both);
    Ok(matches!(seen.form(), Form::Conjunction) && seen.len() == 2 && seen.part(1).place().col == 2)
}

// One number of the pool for each name.
#[derive(Drop)]
struct Each {
    by: NodeId,
}

impl Grafting for Each {
    ghost use Rattle.std.specs.Prelude.{◌<◌, length, Some};
    ghost use Rattle.std.proofs.Common.{arith};
    ghost use Rattle.tla_tree.specs.Pool.{at as tree_at};

    ghost graft = { λ g ts x at. Some (tree_at ts g.by) };

    ghost fits = { λ g ts. g.by < length ts };

    fn put(
        &self,
        _alloc: Global,
        _pool: &mut Pool,
        _x: &Name,
        _place: Place,
    ) -> Result<Option<NodeId>, AllocError> {
        Ok(Some(self.by))
    }

    ghost stays = { λ g old new h k. (Prim.omega (arith, h, k.longer), λ j x at. Some (k.same g.by h j)) };
}

// As a tree it has 2^100,000 names.
fn doubled_names(alloc: Global, pool: &mut Pool) -> Result<NodeId, AllocError> {
    let mut last = pool.put(Form::Name(name(alloc, 120)?), HERE, Vec::new(alloc))?;
    for _ in 0..100_000 {
        if last >= pool.len() {
            break;
        }
        last = pool.put(
            Form::Conjunction,
            HERE,
            Vec::from_array(alloc, [last, last])?,
        )?;
    }
    Ok(last)
}

/// A graft on a tree that is shared 100,000 times makes each node once, and one that changes nothing makes none.
pub fn a_graft_goes_to_each_number_once(alloc: Global) -> Result<bool, AllocError> {
    let mut pool = Pool::new(alloc);
    let by = Each {
        by: one(alloc, &mut pool, HERE)?,
    };
    let names = doubled_names(alloc, &mut pool)?;
    if by.by >= pool.len() || names >= pool.len() {
        return Ok(false);
    }
    let ones = grafted(alloc, &mut pool, names, &by)?;
    if pool.len() != 200_002 || by.by >= pool.len() {
        return Ok(false);
    }
    Ok(grafted(alloc, &mut pool, ones, &by)? == ones && pool.len() == 200_002)
}

// A number in 100,000 sets in one another.
fn nested_sets(alloc: Global, pool: &mut Pool) -> Result<NodeId, AllocError> {
    let mut last = pool.put(Form::Number(1), HERE, Vec::new(alloc))?;
    for _ in 0..100_000 {
        if last >= pool.len() {
            break;
        }
        last = pool.put(
            Form::Strict(Strict::SetOf),
            HERE,
            Vec::from_array(alloc, [last])?,
        )?;
    }
    Ok(last)
}

fn count(bytes: &[u8], wanted: u8) -> usize {
    bytes.iter().filter(|b| **b == wanted).count()
}

/// 100,000 sets in one another are written.
pub fn deep_expressions_are_written(alloc: Global) -> Result<bool, AllocError> {
    let mut pool = Pool::new(alloc);
    let sets = nested_sets(alloc, &mut pool)?;
    if sets >= pool.len() {
        return Ok(false);
    }
    let mut text = Text::new(Vec::new(alloc));
    write_expr(alloc, &pool, sets, &mut text)?;
    let bytes = text.bytes();
    Ok(bytes.len() == 200_001 && count(bytes, b'{') == 100_000 && count(bytes, b'}') == 100_000)
}
