//! Values in memory, seen as the values that they stand for.

ghost use Rattle.std.specs.Prelude.{◌≡◌, IfOk};

use std::alloc::{AllocError, Global};
use std::marker::Model;
use tla_tree::Name;

/// A value of TLA+ ("Specifying Systems", section 16.1), canonical and within the limits of a run.
#[derive(Drop)]
#[cycle(value)]
pub struct Value {
    pub kind: Kind,
}

/// The kinds of values, in the canonical order.
#[derive(Drop)]
#[cycle(value)]
pub enum Kind {
    /// `TRUE` or `FALSE`.
    Bool(bool),
    /// An integer from `-2^127` to `2^127 - 1`.
    Int(i128),
    /// A string, as its bytes.
    Text(Name),
    /// A model value, by its name.
    Model(Name),
    /// A set: its members in canonical order, each once.
    Set(Values),
    /// A function: its domain in canonical order, each member once, and the value at each of these.
    Fun(Values, Values),
}

/// Values in a row.
#[derive(Drop)]
#[cycle(value)]
pub struct Values {
    pub items: Vec<Value>,
}

impl Model for Values {
    ghost use Rattle.std.specs.Prelude.{List};
    ghost use Rattle.std.specs.Coded.{coded_list};
    ghost use Rattle.std.proofs.Common.{arith};
    ghost use Rattle.tla_value.specs.Value as pure;
    ghost use Rattle.tla_value.specs.Code.{value_code, row_height, most_heights};

    ghost Value = { List pure.Value };

    ghost coded = { coded_list value_code };

    ghost view = { λ a. a.items.items };

    ghost size = { row_height };

    ghost size_decreases = { λ a h. Prim.omega (arith, most_heights a.items.items) };
}

impl Model for Value {
    ghost use Rattle.tla_value.specs.Value as pure;
    ghost use Rattle.tla_value.specs.Code.{value_code, height};

    ghost Value = { pure.Value };

    ghost coded = { value_code };

    ghost use Rattle.tla_value.specs.ValueOf.{view_of, IsStoredInside};

    ghost view = { view_of };

    ghost invariant = { IsStoredInside };

    ghost size = { height };

    ghost use Rattle.tla_value.specs.Falls.{parts_fall};

    ghost size_decreases = { λ a h. parts_fall a.kind };
}

impl Value {
    ghost use Rattle.tla_value.specs.Value as pure;

    /// A truth value.
    pub fn truth(b: bool) -> Value
        ensures { result ≡ pure.truth b }
    {
        Value {
            kind: Kind::Bool(b),
        }
    }

    /// An integer.
    pub fn int(n: i128) -> Value
        ensures { result ≡ pure.int n }
    {
        Value { kind: Kind::Int(n) }
    }

    /// A string.
    pub fn text(w: Name) -> Value
        ensures { result ≡ pure.text w }
    {
        Value {
            kind: Kind::Text(w),
        }
    }

    /// A model value, by its name.
    pub fn model(name: Name) -> Value
        ensures { result ≡ pure.model name }
    {
        Value {
            kind: Kind::Model(name),
        }
    }
}

/// The same value once more.
///
/// # Errors
///
/// Only for want of memory.
#[cycle(copied)]
pub fn copied(alloc: Global, v: &Value) -> Result<Value, AllocError>
    ensures { IfOk result (λ r. r ≡ v.now) }
{
    match &v.kind {
        Kind::Bool(b) => Ok(Value {
            kind: Kind::Bool(*b),
        }),
        Kind::Int(z) => Ok(Value {
            kind: Kind::Int(*z),
        }),
        Kind::Text(w) => {
            let w = w.copied()?;
            Ok(Value {
                kind: Kind::Text(w),
            })
        }
        Kind::Model(w) => {
            let w = w.copied()?;
            Ok(Value {
                kind: Kind::Model(w),
            })
        }
        Kind::Set(vs) => {
            let vs = all_copied(alloc, vs)?;
            Ok(Value {
                kind: Kind::Set(vs),
            })
        }
        Kind::Fun(ds, vs) => {
            let ds = all_copied(alloc, ds)?;
            let vs = all_copied(alloc, vs)?;
            Ok(Value {
                kind: Kind::Fun(ds, vs),
            })
        }
    }
}

/// The same values once more.
///
/// # Errors
///
/// Only for want of memory.
#[cycle(copied)]
pub fn all_copied(alloc: Global, vs: &Values) -> Result<Values, AllocError>
    ensures { IfOk result (λ r. r ≡ vs.now) }
{
    let mut items = Vec::new(alloc);
    for v in &vs.items {
        items.push(copied(alloc, v)?)?;
    }
    Ok(Values { items })
}
