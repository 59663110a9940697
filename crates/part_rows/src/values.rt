//! Values, names that are in scope, and states, made in memory.

use std::alloc::{AllocError, Global};
use std::cmp::Ordering;
use tla_token::Place;
use tla_tree::{Name, NameList};
use tla_value::build::{at, depth_of, has, seq_of, set_of};
use tla_value::compare::{compare, put};
use tla_value::names::{Definition, Defs, Instance};
use tla_value::state::State;
use tla_value::stop::EvalStop;
use tla_value::value::{Kind, Value, Values, all_copied, copied};

const HERE: Place = Place { line: 1, col: 1 };

fn numbers(alloc: Global, items: &[i128]) -> Result<Vec<Value>, AllocError> {
    let mut values = Vec::new(alloc);
    for n in items {
        values.push(Value::int(*n))?;
    }
    Ok(values)
}

fn name(alloc: Global, byte: u8) -> Result<Name, AllocError> {
    Ok(Name::new(Vec::from_array(alloc, [byte])?))
}

fn is_same(a: &Value, b: &Value) -> bool {
    compare(a, b) == Ordering::Equal
}

fn members_count_once(alloc: Global) -> Result<bool, EvalStop> {
    let set = set_of(HERE, numbers(alloc, &[2, 1, 2, 1])?)?;
    let ordered = set_of(HERE, numbers(alloc, &[1, 2])?)?;
    Ok(is_same(&set, &ordered))
}

fn sets_are_before_tuples(alloc: Global) -> Result<bool, EvalStop> {
    let set = set_of(HERE, numbers(alloc, &[2])?)?;
    let tuple = seq_of(alloc, HERE, Vec::new(alloc))?;
    Ok(compare(&set, &tuple) == Ordering::Less)
}

fn has_three_alone(set: &Value) -> bool {
    match &set.kind {
        Kind::Set(vs) => has(&vs.items, &Value::int(3)) && !has(&vs.items, &Value::int(4)),
        _ => false,
    }
}

fn a_set_is_searched(alloc: Global) -> Result<bool, EvalStop> {
    let set = set_of(HERE, numbers(alloc, &[5, 3, 7])?)?;
    Ok(has_three_alone(&set))
}

fn is_at(tuple: &Value, index: i128, wanted: i128) -> bool {
    match &tuple.kind {
        Kind::Fun(ds, vs) => match at(&ds.items, &vs.items, &Value::int(index)) {
            Some(v) => is_same(v, &Value::int(wanted)),
            None => false,
        },
        _ => false,
    }
}

fn a_tuple_gives_its_elements(alloc: Global) -> Result<bool, EvalStop> {
    let tuple = seq_of(alloc, HERE, numbers(alloc, &[5, 3])?)?;
    Ok(is_at(&tuple, 1, 5) && is_at(&tuple, 2, 3) && !is_at(&tuple, 0, 5))
}

fn a_value_is_put_in_its_place(alloc: Global) -> Result<bool, EvalStop> {
    let mut values = numbers(alloc, &[1, 3])?;
    for n in [2, 4, 2] {
        put(&mut values, Value::int(n))?;
    }
    let wanted = numbers(alloc, &[1, 2, 3, 4])?;
    let tuple = seq_of(alloc, HERE, values)?;
    Ok(is_same(&tuple, &seq_of(alloc, HERE, wanted)?))
}

// A truth value, a string, a model value and a set.
fn one_of_each(alloc: Global) -> Result<Vec<Value>, EvalStop> {
    let mut values = Vec::new(alloc);
    values.push(Value::truth(true))?;
    values.push(Value::text(name(alloc, 97)?))?;
    values.push(Value::model(name(alloc, 98)?))?;
    values.push(set_of(HERE, numbers(alloc, &[1, 2])?)?)?;
    Ok(values)
}

fn values_are_copied(alloc: Global) -> Result<bool, EvalStop> {
    let values = Values {
        items: one_of_each(alloc)?,
    };
    let copy = all_copied(alloc, &values)?;
    let tuple = seq_of(alloc, HERE, copy.items)?;
    let other = seq_of(alloc, HERE, values.items)?;
    Ok(is_same(&copied(alloc, &tuple)?, &other) && depth_of(&tuple) == 2)
}

fn nests_too_deep_at_last(alloc: Global) -> Result<bool, EvalStop> {
    let mut value = Value::int(1);
    for _ in 0..200 {
        value = seq_of(alloc, HERE, Vec::from_array(alloc, [value])?)?;
    }
    let last = set_of(HERE, Vec::from_array(alloc, [value])?);
    Ok(matches!(last, Err(EvalStop::Limit(_))))
}

fn a_state_keeps_the_last_value(alloc: Global) -> Result<bool, EvalStop> {
    let mut state = State::new(alloc);
    for (byte, n) in [(120, 1), (121, 1), (120, 2), (121, 2)] {
        state.set(name(alloc, byte)?, Value::int(n))?;
    }
    let y = name(alloc, 121)?;
    let found = match state.get(&y) {
        Some(v) => is_same(v, &Value::int(2)),
        None => false,
    };
    Ok(found && state.len() == 2)
}

fn definition(alloc: Global, byte: u8, body: usize) -> Result<Definition, AllocError> {
    Ok(Definition {
        name: name(alloc, byte)?,
        params: NameList::new(alloc),
        body,
        outside: true,
        place: HERE,
    })
}

fn the_last_definition_is_found(alloc: Global) -> Result<bool, EvalStop> {
    let mut defs = Defs::new(alloc);
    for (byte, body) in [(120, 5), (121, 6), (120, 7)] {
        defs.push(definition(alloc, byte, body)?)?;
    }
    let instance = Instance {
        constants: State::new(alloc),
        defs,
    };
    if instance.defs.as_slice().len() != 3 {
        return Ok(false);
    }
    let x = name(alloc, 120)?;
    let all = instance.defs.latest(&x, 3);
    let two = instance.defs.latest(&x, 2);
    Ok(all == Some(2) && two == Some(0) && instance.constants.len() == 0)
}

/// Whether what a case of values says is so; not, where there is no such case.
pub fn is_so(alloc: Global, case: &str) -> bool {
    let found = match case {
        "members" => members_count_once(alloc),
        "order" => sets_are_before_tuples(alloc),
        "search" => a_set_is_searched(alloc),
        "elements" => a_tuple_gives_its_elements(alloc),
        "place" => a_value_is_put_in_its_place(alloc),
        "copies" => values_are_copied(alloc),
        "nesting" => nests_too_deep_at_last(alloc),
        "state" => a_state_keeps_the_last_value(alloc),
        "definitions" => the_last_definition_is_found(alloc),
        _ => Ok(false),
    };
    found.unwrap_or(false)
}
