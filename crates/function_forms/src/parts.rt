//! `SubSeq`, with all that is reached in it.

ghost use Rattle.std.specs.Prelude.{◌≡◌, ◌∷◌, [], ◌+ℤ◌, ◌-ℤ◌, IfOk, FitsSigned};
ghost use Rattle.std.specs.Int.{w128};
ghost use Rattle.tla_value.specs.Value as pure;
ghost use Rattle.tla_value.specs.Value.{in_order};
ghost use Rattle.tla_value.specs.Limits.{bounded};
ghost use Rattle.tla_value.specs.Standard as standard;
ghost use Rattle.tla_value.specs.Standard.{element as element_at, part_between, standard_value};
ghost use Rattle.function_forms.specs.SubSequences.{part_over, part_counted, part_after};
ghost use Rattle.value_forms.specs.Gives.{Tells, Gives};

use crate::functions::applied;
use crate::sequences::elements_of;
use std::alloc::Global;
use tla_token::Place;
use tla_value::stop::EvalStop;
use tla_value::value::{Value, copied};
use value_forms::kinds::{int_of, members_of};
use value_forms::made::{copies, function};
use value_forms::ranges::range_between;

// `m + n`, if it is an integer of a run.
fn sum_within(at: Place, m: i128, n: i128) -> Result<i128, EvalStop>
    ensures value { Gives pure.int result (bounded at (pure.int (m +ℤ n))) }
    ensures same { IfOk result (λ k. k ≡ m +ℤ n) }
{
    match m.checked_add(n) {
        Some(sum) => Ok(sum),
        None => Err(EvalStop::Limit(at)),
    }
}

// `m - n`, if it is an integer of a run.
fn difference_within(at: Place, m: i128, n: i128) -> Result<i128, EvalStop>
    ensures value { Gives pure.int result (bounded at (pure.int (m -ℤ n))) }
    ensures same { IfOk result (λ k. k ≡ m -ℤ n) }
    ensures small { IfOk result (λ k. FitsSigned w128 k) }
{
    match m.checked_sub(n) {
        Some(difference) => Ok(difference),
        None => Err(EvalStop::Limit(at)),
    }
}

// The element of a part that begins at `m`, by its place in the part.
fn element<'x>(at: Place, s: &'x Value, m: i128, i: &Value) -> Result<&'x Value, EvalStop>
    ensures { Gives (λ r. r.now) result (element_at bounded at s.now m i.now) }
{
    let n = int_of(at, i)?;
    let before = difference_within(at, m, 1)?;
    let k = sum_within(at, n, before)?;
    let key = Value::int(k);
    applied(at, s, &key)
}

// The elements of a part that begins at `m`, by their places in it.
fn elements(
    alloc: Global,
    at: Place,
    s: &Value,
    m: i128,
    places: &[Value],
) -> Result<Vec<Value>, EvalStop>
    ensures { Gives (λ r. r.items) result (in_order (element_at bounded at s.now m) places.now) }
{
    let mut all = Vec::new(alloc);
    for i in places {
        let v = element(at, s, m, i)?;
        all.push(copied(alloc, v)?)?;
    }
    Ok(all)
}

// The part of a sequence that begins at `m`, with this domain.
fn part_on(alloc: Global, at: Place, s: &Value, m: i128, domain: &Value) -> Result<Value, EvalStop>
    ensures { Tells result (part_over at s.now m domain.now) }
{
    let places = members_of(at, domain)?;
    let values = elements(alloc, at, s, m, places)?;
    let keys = copies(alloc, places)?;
    function(at, keys, values)
}

// The part of a sequence that begins at `m` and is so long.
fn part_of_length(
    alloc: Global,
    at: Place,
    s: &Value,
    m: i128,
    many: i128,
) -> Result<Value, EvalStop>
    ensures { Tells result (part_counted at s.now m many) }
{
    let domain = range_between(alloc, at, 1, many)?;
    part_on(alloc, at, s, m, &domain)
}

// The part of a sequence that begins at `m` and is longer than so much by one.
fn part_longer(alloc: Global, at: Place, s: &Value, m: i128, less: i128) -> Result<Value, EvalStop>
    ensures { Tells result (part_after at s.now m less) }
{
    let many = sum_within(at, less, 1)?;
    part_of_length(alloc, at, s, m, many)
}

// The part of a sequence from `m` to `n`.
fn part(alloc: Global, at: Place, s: &Value, m: i128, n: i128) -> Result<Value, EvalStop>
    ensures { Tells result (part_between bounded at s.now m n) }
{
    let less = difference_within(at, n, m)?;
    part_longer(alloc, at, s, m, less)
}

/// `SubSeq(s, a, b)`.
///
/// # Errors
///
/// For want of memory, where `s` isn't a sequence, where `a` or `b` isn't an integer, where the part
/// isn't within the sequence, and where something is past the limits.
pub fn sub_sequence(
    alloc: Global,
    at: Place,
    s: &Value,
    a: &Value,
    b: &Value,
) -> Result<Value, EvalStop>
    ensures { Tells result (standard_value bounded standard.part_of at (s.now ∷ a.now ∷ b.now ∷ [])) }
{
    let _elements = elements_of(at, s)?;
    let m = int_of(at, a)?;
    let n = int_of(at, b)?;
    part(alloc, at, s, m, n)
}
