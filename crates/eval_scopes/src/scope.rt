//! What bound names stand for, the innermost first.

ghost use Rattle.std.specs.Prelude.{◌≡◌, ◌++◌, [], IfOk, OnOk, cond, bytes_eq, Some, None};
ghost use Rattle.std.specs.Option.{option_copied};
ghost use Rattle.eval_scopes.specs.Scopes.{bound_in, seen_of, word_at, local_at, choice_at, rather as rather_of};
ghost use Rattle.eval_scopes.specs.Choices.{picked_at, members_of_choice, with_option};

use function_forms::functions::add_found;
use std::alloc::{AllocError, Global};
use std::marker::Model;
use tla_tree::{Name, PlacedName};
use tla_value::value::{Value, Values};

/// A name of a binder, with the members that it goes over.
#[derive(Drop)]
pub struct OverName {
    pub name: Name,
    pub members: Vec<Value>,
}

impl Model for OverName {
    ghost use Rattle.std.specs.Prelude.{List};
    ghost use Rattle.tla_tree.specs.Tree.{Word};
    ghost use Rattle.tla_value.specs.Value as pure;
    ghost use Rattle.eval_scopes.specs.Choices.{over_code};

    ghost Value = { Word × List pure.Value };

    ghost coded = { over_code };

    ghost view = { λ o. (o.name, o.members.items) };
}

/// Where names are bound, the innermost first; outside, the first so many definitions are seen.
#[derive(Clone, Copy)]
pub enum Scope<'a> {
    /// No name is bound.
    Top(usize),
    /// Parameters of a definition, as many as have values.
    Params(&'a [Name], &'a [Value], usize),
    /// Names of a `LET`, as many as have values.
    Local(&'a [PlacedName], &'a [Value], &'a Scope<'a>),
    /// Names of a binder, each at the member before the one that comes next.
    Choice(&'a [OverName], &'a [usize], &'a Scope<'a>),
}

impl<'a> Scope<'a> {
    /// How many definitions are seen.
    pub fn seen(&self) -> usize
        ensures { result ≡ seen_of self.now }
    {
        match self {
            Scope::Top(n) => *n,
            Scope::Params(_, _, n) => *n,
            Scope::Local(_, _, outer) => outer.seen(),
            Scope::Choice(_, _, outer) => outer.seen(),
        }
    }

    /// The value of a name, if it is bound.
    pub fn find(&self, name: &Name) -> Option<&'a Value>
        ensures { option_copied result ≡ bound_in self.now name.now }
    {
        match self {
            Scope::Top(_) => None,
            Scope::Params(names, values, _) => in_params(*names, *values, name),
            Scope::Local(names, values, outer) => match in_locals(*names, *values, name) {
                Some(v) => Some(v),
                None => outer.find(name),
            },
            Scope::Choice(names, left, outer) => match in_choice(*names, *left, name) {
                Some(v) => Some(v),
                None => outer.find(name),
            },
        }
    }
}

// The later of two.
fn rather<'a>(later: Option<&'a Value>, earlier: Option<&'a Value>) -> Option<&'a Value>
    ensures { option_copied result ≡ rather_of (option_copied later.entry) (option_copied earlier.entry) }
{
    match later {
        Some(v) => Some(v),
        None => earlier,
    }
}

fn if_named<'a>(x: &Name, v: &'a Value, name: &Name) -> Option<&'a Value>
    ensures { option_copied result ≡ cond (bytes_eq x.now name.now) (Some v.now) None }
{
    if x.is(name) {
        return Some(v);
    }
    None
}

fn if_local<'a>(x: &PlacedName, v: &'a Value, name: &Name) -> Option<&'a Value>
    ensures { option_copied result ≡ cond (bytes_eq x.now.word name.now) (Some v.now) None }
{
    if x.name.is(name) {
        return Some(v);
    }
    None
}

// The value of the last parameter that has a name.
fn in_params<'a>(names: &'a [Name], values: &'a [Value], name: &Name) -> Option<&'a Value>
    ensures { option_copied result ≡ word_at names.now values.now name.now }
{
    let mut found = None;
    for i in 0..names.len() {
        if i >= values.len() {
            return found;
        }
        let here = if_named(&names[i], &values[i], name);
        found = rather(here, found);
    }
    found
}

// The value of the last local name that is this one.
fn in_locals<'a>(names: &'a [PlacedName], values: &'a [Value], name: &Name) -> Option<&'a Value>
    ensures { option_copied result ≡ local_at names.now values.now name.now }
{
    let mut found = None;
    for i in 0..names.len() {
        if i >= values.len() {
            return found;
        }
        let here = if_local(&names[i], &values[i], name);
        found = rather(here, found);
    }
    found
}

// The member that the last of the names that is this one stands for.
fn in_choice<'a>(names: &'a [OverName], left: &'a [usize], name: &Name) -> Option<&'a Value>
    ensures { option_copied result ≡ choice_at names.now left.now name.now }
{
    let mut found = None;
    for i in 0..names.len() {
        if i >= left.len() {
            return found;
        }
        let here = if_over(&names[i], left[i], name);
        found = rather(here, found);
    }
    found
}

fn if_over<'a>(over: &'a OverName, next: usize, name: &Name) -> Option<&'a Value>
    ensures { option_copied result ≡ cond (bytes_eq over.now.0 name.now) (picked_at over.now.1 next) None }
{
    if over.name.is(name) {
        return picked(over.members.as_slice(), next);
    }
    None
}

fn picked<'a>(members: &'a [Value], next: usize) -> Option<&'a Value>
    ensures { option_copied result ≡ picked_at members.now next }
{
    if next == 0 {
        return None;
    }
    if next > members.len() {
        return None;
    }
    Some(&members[next - 1])
}

// Adds the member that a name stands for, if there is one.
fn add_picked(
    alloc: Global,
    row: &mut Vec<Value>,
    over: &OverName,
    next: usize,
) -> Result<(), AllocError>
    ensures { OnOk result (row.new.items ≡ row.old.items ++ with_option (picked_at over.now.1 next) []) }
{
    add_found(alloc, row, picked(over.members.as_slice(), next))
}

/// The members to which the names of a binder are bound, in the order of the names.
///
/// # Errors
///
/// Only for want of memory.
pub fn row_of(alloc: Global, names: &[OverName], left: &[usize]) -> Result<Values, AllocError>
    ensures { IfOk result (λ r. r ≡ members_of_choice names.now left.now) }
{
    let mut items = Vec::new(alloc);
    for i in 0..names.len() {
        if i >= left.len() {
            return Ok(Values { items });
        }
        add_picked(alloc, &mut items, &names[i], left[i])?;
    }
    Ok(Values { items })
}
