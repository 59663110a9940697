//! The canonical order of values, and the place of a value in it.

ghost use Rattle.std.specs.Prelude.{◌≡◌, ◌≢◌, OnOk, OnErr};
ghost use Rattle.tla_value.specs.Value.{values_in};
ghost use Rattle.tla_value.specs.Order.{kind_of, order, orders, sized, inserted};

use crate::value::{Kind, Value, Values};
use std::alloc::AllocError;
use std::cmp::Ordering;

impl PartialEq for Value {
    ghost use Rattle.tla_value.specs.Order.{same};
    ghost use Rattle.tla_value.specs.OrderLaws.{same_partial};

    ghost eq = { same };

    ghost laws = { same_partial };

    fn eq(&self, other: &Value) -> bool {
        compare(self, other).is_eq()
    }
}

impl Eq for Value {
    ghost use Rattle.tla_value.specs.OrderLaws.{same_equivalence};

    ghost laws = { same_equivalence };
}

impl Ord for Value {
    ghost use Rattle.std.proofs.Common.{refl};
    ghost use Rattle.tla_value.specs.Order.{order};
    ghost use Rattle.tla_value.specs.OrderLaws.{order_total};

    ghost cmp = { order };

    ghost total = { order_total };

    ghost matches_partial_cmp = { λ x y. refl };

    ghost matches_eq = { λ x y. refl };

    fn cmp(&self, other: &Value) -> Ordering {
        compare(self, other)
    }
}

impl PartialOrd for Value {
    ghost use Rattle.std.specs.Ordering.{as_partial_cmp};
    ghost use Rattle.std.specs.Cmp.{partial_order_from_total};
    ghost use Rattle.tla_value.specs.Order.{order};
    ghost use Rattle.tla_value.specs.OrderLaws.{order_total};

    ghost partial_cmp = { as_partial_cmp order };

    ghost laws = { partial_order_from_total order_total };

    fn partial_cmp(&self, other: &Value) -> Option<Ordering> {
        Some(compare(self, other))
    }
}

/// How two values stand in the canonical order: by kind, then by what they are made of.
#[cycle(compare)]
pub fn compare(a: &Value, b: &Value) -> Ordering
    ensures { result ≡ order a.now b.now }
{
    match &a.kind {
        Kind::Bool(x) => match &b.kind {
            Kind::Bool(y) => x.cmp(y),
            _ => compare_kinds(a, b),
        },
        Kind::Int(x) => match &b.kind {
            Kind::Int(y) => x.cmp(y),
            _ => compare_kinds(a, b),
        },
        Kind::Text(x) => match &b.kind {
            Kind::Text(y) => x.bytes().cmp(y.bytes()),
            _ => compare_kinds(a, b),
        },
        Kind::Model(x) => match &b.kind {
            Kind::Model(y) => x.bytes().cmp(y.bytes()),
            _ => compare_kinds(a, b),
        },
        Kind::Set(x) => match &b.kind {
            Kind::Set(y) => compare_sized(x, y),
            _ => compare_kinds(a, b),
        },
        Kind::Fun(d, x) => match &b.kind {
            Kind::Fun(e, y) => {
                let first = compare_sized(d, e);
                match first {
                    Ordering::Equal => compare_all(&x.items, &y.items),
                    _ => first,
                }
            }
            _ => compare_kinds(a, b),
        },
    }
}

// Where a value's kind is in the order of kinds.
fn rank(v: &Value) -> u8
    ensures { result ≡ kind_of v.now }
{
    match &v.kind {
        Kind::Bool(_) => 0,
        Kind::Int(_) => 1,
        Kind::Text(_) => 2,
        Kind::Model(_) => 3,
        Kind::Set(_) => 4,
        Kind::Fun(_, _) => 5,
    }
}

// How values of unlike kinds stand.
fn compare_kinds(a: &Value, b: &Value) -> Ordering
    requires { kind_of a.now ≢ kind_of b.now }
    ensures { result ≡ order a.now b.now }
{
    rank(a).cmp(&rank(b))
}

// Fewer members first, then member by member.
#[cycle(compare)]
fn compare_sized(a: &Values, b: &Values) -> Ordering
    ensures { result ≡ sized (values_in a.now) (values_in b.now) }
{
    let first = a.items.len().cmp(&b.items.len());
    match first {
        Ordering::Equal => compare_all(&a.items, &b.items),
        _ => first,
    }
}

// Value by value; a shorter list comes before its continuation.
#[cycle(compare)]
fn compare_all(a: &[Value], b: &[Value]) -> Ordering
    ensures { result ≡ orders (values_in a.now) (values_in b.now) }
{
    for i in 0..a.len() {
        if i >= b.len() {
            return Ordering::Greater;
        }
        let here = compare(&a[i], &b[i]);
        match here {
            Ordering::Equal => {}
            _ => return here,
        }
    }
    if a.len() < b.len() {
        Ordering::Less
    } else {
        Ordering::Equal
    }
}

/// Puts a value into its canonical place in a list, if it isn't there.
///
/// # Errors
///
/// Only for want of memory; the list is then as before.
pub fn put(values: &mut Vec<Value>, v: Value) -> Result<(), AllocError>
    ensures ok { OnOk result (values_in values.new.items ≡ inserted v (values_in values.old.items)) }
    ensures err { OnErr result (values.new.items ≡ values.old.items) }
{
    for i in 0..values.len() {
        match compare(&v, &values[i]) {
            Ordering::Less => {
                values.insert(i, v)?;
                return Ok(());
            }
            Ordering::Equal => return Ok(()),
            Ordering::Greater => {}
        }
    }
    values.push(v)?;
    Ok(())
}
