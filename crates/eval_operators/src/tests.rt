//! Whether a value is a member of a set that isn't listed.

ghost use Rattle.std.specs.Prelude.{◌≡◌, length};
ghost use Rattle.tla_tree.specs.Rank.{is_prefix};
ghost use Rattle.tla_tree.specs.Shapes.{operands, StrictShaped};
ghost use Rattle.tla_pool.specs.FormOf.{strict_of};
ghost use Rattle.tla_tree.specs.declared.op.Op.TheVariants as op;
ghost use Rattle.tla_tree.specs.Tree.{operator, functions, records};
ghost use Rattle.tla_value.specs.Limits.{bounded};
ghost use Rattle.tla_value.specs.Meaning.{is_text as is_string};
ghost use Rattle.tla_value.specs.Standard as standard;
ghost use Rattle.tla_value.specs.Standard.{standard_name, standard_sense};
ghost use Rattle.tla_value.specs.Stops.{misshapen as no_parts};
ghost use Rattle.tla_value.specs.Strict.{strict_test};
ghost use Rattle.value_forms.specs.Gives.{Tells};

use crate::operands::{Operands, by_count};
use crate::strict::{make, operated};
use eval_scopes::got::{Got, all_taken};
use function_forms::sequences::member_of_sequences;
use space_forms::members::member_of_functions;
use space_forms::record_sets::member_of_records;
use std::alloc::Global;
use tla_pool::form::Strict;
use tla_token::Place;
use tla_tree::{Name, NameList, Op};
use tla_value::fault::FaultKind;
use tla_value::stop::EvalStop;
use tla_value::value::{Kind, Value};
use value_forms::sets::{member, member_of_subsets};

/// Whether a value is a string.
pub fn is_text(v: &Value) -> bool
    ensures { result ≡ is_string v.now }
{
    match &v.kind {
        Kind::Text(_) => true,
        Kind::Bool(_) => false,
        Kind::Int(_) => false,
        Kind::Model(_) => false,
        Kind::Set(_) => false,
        Kind::Fun(_, _) => false,
    }
}

fn is_integer(v: &Value) -> bool
    ensures { result ≡ standard.is_int v.now }
{
    match &v.kind {
        Kind::Int(_) => true,
        Kind::Bool(_) => false,
        Kind::Text(_) => false,
        Kind::Model(_) => false,
        Kind::Set(_) => false,
        Kind::Fun(_, _) => false,
    }
}

fn is_natural(v: &Value) -> bool
    ensures { result ≡ standard.is_natural v.now }
{
    match &v.kind {
        Kind::Int(n) => *n >= 0,
        Kind::Bool(_) => false,
        Kind::Text(_) => false,
        Kind::Model(_) => false,
        Kind::Set(_) => false,
        Kind::Fun(_, _) => false,
    }
}

/// Whether a value is in the set that a name stands for which has no value.
///
/// # Errors
///
/// Where the name is neither `Nat` nor `Int`.
pub fn in_standard(at: Place, p: Place, x: &Name, v: &Value) -> Result<bool, EvalStop>
    ensures { Tells result ((standard_name x.now at).test p v.now) }
{
    if x.bytes() == b"Nat".as_slice() {
        return Ok(is_natural(v));
    }
    if x.bytes() == b"Int".as_slice() {
        return Ok(is_integer(v));
    }
    Err(EvalStop::Fault(FaultKind::NotFunction, at))
}

fn wrong_parts(at: Place) -> Result<bool, EvalStop>
    ensures { Tells result (no_parts at) }
{
    Err(EvalStop::Fault(FaultKind::NotFunction, at))
}

/// Whether a value is in `Seq` of these values.
///
/// # Errors
///
/// Where there is another number of values than one, or it isn't a set.
pub fn in_sequences<'x>(
    at: Place,
    p: Place,
    v: &Value,
    values: Vec<Got<'x>>,
) -> Result<bool, EvalStop>
    ensures { Tells result ((standard_sense bounded standard.sequences at values.entry.items).test p v.now) }
{
    match by_count(values) {
        Operands::One(s) => member_of_sequences(at, v, s.get()),
        _ => wrong_parts(at),
    }
}

fn in_subsets<'x>(at: Place, p: Place, v: &Value, values: Vec<Got<'x>>) -> Result<bool, EvalStop>
    ensures { Tells result (strict_test bounded (operator op.Subset) at p v.now values.entry.items) }
{
    match by_count(values) {
        Operands::One(s) => member_of_subsets(at, v, s.get()),
        _ => wrong_parts(at),
    }
}

fn in_functions<'x>(at: Place, p: Place, v: &Value, values: Vec<Got<'x>>) -> Result<bool, EvalStop>
    ensures { Tells result (strict_test bounded functions at p v.now values.entry.items) }
{
    match by_count(values) {
        Operands::Two(a, b) => member_of_functions(at, v, a.get(), b.get()),
        _ => wrong_parts(at),
    }
}

fn in_records<'x>(
    alloc: Global,
    at: Place,
    p: Place,
    v: &Value,
    names: &NameList,
    values: Vec<Got<'x>>,
) -> Result<bool, EvalStop>
    ensures { Tells result (strict_test bounded (records names.now) at p v.now values.entry.items) }
{
    let sets = all_taken(alloc, values)?;
    member_of_records(alloc, at, v, names.as_slice(), sets.as_slice())
}

// Whether a value is in the set that an operator makes.
fn in_operated<'x>(
    alloc: Global,
    o: Op,
    at: Place,
    p: Place,
    v: &Value,
    values: Vec<Got<'x>>,
) -> Result<bool, EvalStop>
    requires { length values.items ≡ operands (is_prefix o) }
    ensures { Tells result (strict_test bounded (operator o) at p v.now values.entry.items) }
{
    match o {
        Op::Subset => in_subsets(at, p, v, values),
        _ => {
            let s = operated(alloc, o, at, values)?;
            member(p, v, s.get())
        }
    }
}

/// Whether a value is in the set that a strict form makes of these values.
///
/// # Errors
///
/// For want of memory, and exactly where it can't be told.
pub fn in_strict<'x>(
    alloc: Global,
    o: &Strict,
    at: Place,
    p: Place,
    v: &Value,
    values: Vec<Got<'x>>,
) -> Result<bool, EvalStop>
    requires { StrictShaped (strict_of o.now) (length values.items) }
    ensures { Tells result (strict_test bounded (strict_of o.now) at p v.now values.entry.items) }
{
    match o {
        Strict::Operator(o) => in_operated(alloc, *o, at, p, v, values),
        Strict::Functions => in_functions(at, p, v, values),
        Strict::Records(names) => in_records(alloc, at, p, v, names, values),
        _ => {
            let s = make(alloc, o, at, values)?;
            member(p, v, s.get())
        }
    }
}
