//! What strict forms make of the values of their parts.

ghost use Rattle.std.specs.Prelude.{◌≡◌, ◌∷◌, [], length};
ghost use Rattle.tla_tree.specs.declared.op.Op.TheVariants as op;
ghost use Rattle.tla_tree.specs.Rank.{is_prefix};
ghost use Rattle.tla_tree.specs.Shapes.{operands, StrictShaped};
ghost use Rattle.tla_tree.specs.Tree.{operator, fields, apply, select, set_of as listed_set, tuple as listed_tuple, functions as listed_functions, records as listed_records, except};
ghost use Rattle.tla_pool.specs.FormOf.{strict_of, slots_of};
ghost use Rattle.tla_value.specs.Limits.{bounded};
ghost use Rattle.tla_value.specs.Stops.{misshapen as no_parts};
ghost use Rattle.tla_value.specs.Strict.{strict_value};
ghost use Rattle.value_forms.specs.Gives.{Tells};

use crate::operands::{Operands, by_count};
use eval_scopes::got::{Got, all_taken};
use eval_steps::forms::misshapen;
use except_forms::slots::excepted;
use function_forms::functions;
use function_forms::joining::extended;
use function_forms::records::record;
use override_forms::overridden;
use space_forms::record_sets::records;
use space_forms::spaces::functions as functions_of;
use space_forms::subsets::subsets;
use std::alloc::Global;
use tla_pool::form::{Slot, Strict};
use tla_token::Place;
use tla_tree::{Name, NameList, Op};
use tla_value::fault::FaultKind;
use tla_value::stop::EvalStop;
use tla_value::value::{Value, copied};
use value_forms::ranges::range;
use value_forms::unions::union_of_members;
use value_forms::{made, numbers, sets, truths};

fn no_value(at: Place) -> Result<Value, EvalStop>
    ensures { Tells result (no_parts at) }
{
    Err(EvalStop::Fault(FaultKind::NotFunction, at))
}

// What an operator makes of one value.
fn of_one(alloc: Global, o: Op, at: Place, a: &Value) -> Result<Value, EvalStop>
    ensures { Tells result (strict_value bounded (operator o) at (a.now ∷ [])) }
{
    match o {
        Op::Not => truths::negation(at, a),
        Op::Negate => numbers::negated(at, a),
        Op::Subset => subsets(alloc, at, a),
        Op::Union => union_of_members(alloc, at, a),
        Op::Domain => functions::domain(alloc, at, a),
        _ => no_value(at),
    }
}

// What an operator on numbers or truth values makes of two values.
fn of_two(alloc: Global, o: Op, at: Place, a: &Value, b: &Value) -> Result<Value, EvalStop>
    ensures { Tells result (strict_value bounded (operator o) at (a.now ∷ b.now ∷ [])) }
{
    match o {
        Op::Equal => truths::equal(at, a, b),
        Op::NotEqual => truths::unequal(at, a, b),
        Op::Equivalent => truths::equivalent(at, a, b),
        Op::Plus => numbers::sum(at, a, b),
        Op::Minus => numbers::difference(at, a, b),
        Op::Times => numbers::product(at, a, b),
        Op::Divide => numbers::quotient(at, a, b),
        Op::Modulo => numbers::remainder(at, a, b),
        Op::Less => numbers::less(at, a, b),
        Op::Greater => numbers::greater(at, a, b),
        Op::AtMost => numbers::at_most(at, a, b),
        Op::AtLeast => numbers::at_least(at, a, b),
        Op::Range => range(alloc, at, a, b),
        Op::Cup => sets::union(alloc, at, a, b),
        Op::Cap => sets::intersection(alloc, at, a, b),
        Op::Without => sets::without(alloc, at, a, b),
        Op::SubsetEq => sets::subset_of(at, a, b),
        Op::Concat => extended(alloc, at, copied(alloc, a)?, b),
        Op::MapsTo => functions::maps_to(alloc, at, a, b),
        Op::Override => overridden(alloc, at, a, b),
        _ => no_value(at),
    }
}

// `s \o t`, in place where `s` is one's own.
fn concatenated<'x>(alloc: Global, at: Place, s: Got<'x>, t: &Value) -> Result<Got<'x>, EvalStop>
    ensures { Tells result (strict_value bounded (operator op.Concat) at (s.entry ∷ t.now ∷ [])) }
{
    let s = s.taken(alloc)?;
    let v = extended(alloc, at, s, t)?;
    Ok(Got::own(v))
}

/// What an operator makes of values.
///
/// # Errors
///
/// For want of memory, and exactly where it makes none.
pub fn operated<'x>(
    alloc: Global,
    o: Op,
    at: Place,
    values: Vec<Got<'x>>,
) -> Result<Got<'x>, EvalStop>
    requires { length values.items ≡ operands (is_prefix o) }
    ensures { Tells result (strict_value bounded (operator o) at values.entry.items) }
{
    match by_count(values) {
        Operands::One(a) => {
            let v = of_one(alloc, o, at, a.get())?;
            Ok(Got::own(v))
        }
        Operands::Two(a, b) => match o {
            Op::Concat => concatenated(alloc, at, a, b.get()),
            _ => {
                let v = of_two(alloc, o, at, a.get(), b.get())?;
                Ok(Got::own(v))
            }
        },
        Operands::Three(_a, _b, _d) => misshapen(at),
        Operands::Other => misshapen(at),
    }
}

// `f[a]`
fn applied<'x>(alloc: Global, at: Place, values: Vec<Got<'x>>) -> Result<Got<'x>, EvalStop>
    ensures { Tells result (strict_value bounded apply at values.entry.items) }
{
    match by_count(values) {
        Operands::Two(f, a) => f.at(alloc, at, a.get()),
        _ => misshapen(at),
    }
}

// `f.x`
fn selected<'x>(
    alloc: Global,
    at: Place,
    x: &Name,
    values: Vec<Got<'x>>,
) -> Result<Got<'x>, EvalStop>
    ensures { Tells result (strict_value bounded (select x.now) at values.entry.items) }
{
    match by_count(values) {
        Operands::One(f) => f.field(alloc, at, x),
        _ => misshapen(at),
    }
}

// `{a, b}`
fn set_of<'x>(alloc: Global, at: Place, values: Vec<Got<'x>>) -> Result<Got<'x>, EvalStop>
    ensures { Tells result (strict_value bounded listed_set at values.entry.items) }
{
    let values = all_taken(alloc, values)?;
    let v = made::set(at, values)?;
    Ok(Got::own(v))
}

// `<<a, b>>`
fn tuple_of<'x>(alloc: Global, at: Place, values: Vec<Got<'x>>) -> Result<Got<'x>, EvalStop>
    ensures { Tells result (strict_value bounded listed_tuple at values.entry.items) }
{
    let values = all_taken(alloc, values)?;
    let v = made::tuple(alloc, at, values)?;
    Ok(Got::own(v))
}

// `[x |-> a, y |-> b]`
fn record_of<'x>(
    alloc: Global,
    at: Place,
    names: &NameList,
    values: Vec<Got<'x>>,
) -> Result<Got<'x>, EvalStop>
    ensures { Tells result (strict_value bounded (fields names.now) at values.entry.items) }
{
    let values = all_taken(alloc, values)?;
    let v = record(alloc, at, names.as_slice(), values.as_slice())?;
    Ok(Got::own(v))
}

// `[a -> b]`
fn function_space<'x>(alloc: Global, at: Place, values: Vec<Got<'x>>) -> Result<Got<'x>, EvalStop>
    ensures { Tells result (strict_value bounded listed_functions at values.entry.items) }
{
    match by_count(values) {
        Operands::Two(a, b) => {
            let v = functions_of(alloc, at, a.get(), b.get())?;
            Ok(Got::own(v))
        }
        _ => misshapen(at),
    }
}

// `[x : a, y : b]`
fn record_space<'x>(
    alloc: Global,
    at: Place,
    names: &NameList,
    values: Vec<Got<'x>>,
) -> Result<Got<'x>, EvalStop>
    ensures { Tells result (strict_value bounded (listed_records names.now) at values.entry.items) }
{
    let sets = all_taken(alloc, values)?;
    let v = records(alloc, at, names.as_slice(), sets.as_slice())?;
    Ok(Got::own(v))
}

// `[f EXCEPT ..]`
fn excepted_of<'x>(
    alloc: Global,
    at: Place,
    slots: &[Slot],
    values: Vec<Got<'x>>,
) -> Result<Got<'x>, EvalStop>
    ensures { Tells result (strict_value bounded (except (slots_of slots.now)) at values.entry.items) }
{
    let values = all_taken(alloc, values)?;
    let v = excepted(alloc, at, slots, values)?;
    Ok(Got::own(v))
}

/// The value of a strict form over these values.
///
/// # Errors
///
/// For want of memory, and exactly where it has no value.
pub fn make<'x>(
    alloc: Global,
    o: &Strict,
    at: Place,
    values: Vec<Got<'x>>,
) -> Result<Got<'x>, EvalStop>
    requires { StrictShaped (strict_of o.now) (length values.items) }
    ensures { Tells result (strict_value bounded (strict_of o.now) at values.entry.items) }
{
    match o {
        Strict::Operator(o) => operated(alloc, *o, at, values),
        Strict::SetOf => set_of(alloc, at, values),
        Strict::Tuple => tuple_of(alloc, at, values),
        Strict::Fields(names) => record_of(alloc, at, names, values),
        Strict::Apply => applied(alloc, at, values),
        Strict::Select(x) => selected(alloc, at, x, values),
        Strict::Functions => function_space(alloc, at, values),
        Strict::Records(names) => record_space(alloc, at, names, values),
        Strict::Except(slots) => excepted_of(alloc, at, slots.as_slice(), values),
    }
}
