//! The operators of the standard modules, by their names.

ghost use Rattle.std.specs.Prelude.{◌≡◌, ◌∷◌, [], Some, cond, bytes_eq};
ghost use Rattle.std.specs.Option.{option_map};
ghost use Rattle.tla_value.specs.Limits.{bounded};
ghost use Rattle.tla_value.specs.Meaning.{called};
ghost use Rattle.tla_value.specs.Standard as pure;
ghost use Rattle.tla_value.specs.Standard.{standard_of, standard_value, standard_sense, standard_called};
ghost use Rattle.eval_operators.specs.Standards.{standard_in};
ghost use Rattle.eval_operators.specs.Operands.{AreOther};
ghost use Rattle.value_forms.specs.Gives.{Tells};

use crate::operands::{Operands, by_count};
use eval_scopes::got::Got;
use eval_steps::forms::misshapen;
use function_forms::joining::pushed;
use function_forms::parts::sub_sequence;
use function_forms::sequences;
use std::alloc::Global;
use tla_token::Place;
use tla_tree::Name;
use tla_value::fault::FaultKind;
use tla_value::stop::EvalStop;
use tla_value::value::{Value, copied};

/// An operator of a standard module.
#[derive(Clone, Copy)]
pub enum Standard {
    Length,
    Append,
    Head,
    Tail,
    SubSequence,
    /// `Seq`, which can only be tested.
    Sequences,
    Cardinality,
    IsFinite,
    Print,
    Assert,
}

// An operator, if a name is this word, else another one.
fn if_named(name: &Name, word: &[u8], o: Standard, other: Option<Standard>) -> Option<Standard>
    ensures { option_map standard_in result ≡ cond (bytes_eq word.now name.now) (Some (standard_in o)) (option_map standard_in other) }
{
    if name.bytes() == word {
        return Some(o);
    }
    other
}

/// The operator that has a name.
pub fn standard_named(name: &Name) -> Option<Standard>
    ensures { option_map standard_in result ≡ standard_of name.now }
{
    let o = if_named(name, b"Assert".as_slice(), Standard::Assert, None);
    let o = if_named(name, b"PrintT".as_slice(), Standard::Print, o);
    let o = if_named(name, b"IsFiniteSet".as_slice(), Standard::IsFinite, o);
    let o = if_named(name, b"Cardinality".as_slice(), Standard::Cardinality, o);
    let o = if_named(name, b"Seq".as_slice(), Standard::Sequences, o);
    let o = if_named(name, b"SubSeq".as_slice(), Standard::SubSequence, o);
    let o = if_named(name, b"Tail".as_slice(), Standard::Tail, o);
    let o = if_named(name, b"Head".as_slice(), Standard::Head, o);
    let o = if_named(name, b"Append".as_slice(), Standard::Append, o);
    if_named(name, b"Len".as_slice(), Standard::Length, o)
}

fn of_one<'x>(alloc: Global, o: Standard, at: Place, a: Got<'x>) -> Result<Got<'x>, EvalStop>
    ensures { Tells result (standard_sense bounded (standard_in o) at (a.entry ∷ [])).value }
{
    match o {
        Standard::Length => Ok(Got::own(sequences::length(at, a.get())?)),
        Standard::Head => a.first(alloc, at),
        Standard::Tail => Ok(Got::own(sequences::tail(alloc, at, a.get())?)),
        Standard::Cardinality => Ok(Got::own(sequences::cardinality(at, a.get())?)),
        Standard::IsFinite => Ok(Got::own(sequences::finite(at, a.get())?)),
        Standard::Print => Ok(Got::own(sequences::printed(at, a.get())?)),
        Standard::Sequences => Err(EvalStop::Fault(FaultKind::NotSet, at)),
        Standard::Append => misshapen(at),
        Standard::SubSequence => misshapen(at),
        Standard::Assert => misshapen(at),
    }
}

fn of_two<'x>(
    alloc: Global,
    o: Standard,
    at: Place,
    a: &Value,
    b: &Value,
) -> Result<Got<'x>, EvalStop>
    ensures { Tells result (standard_sense bounded (standard_in o) at (a.now ∷ b.now ∷ [])).value }
{
    match o {
        Standard::Append => {
            let v = pushed(alloc, at, copied(alloc, a)?, copied(alloc, b)?)?;
            Ok(Got::own(v))
        }
        Standard::Assert => Ok(Got::own(sequences::asserted(at, a, b)?)),
        Standard::Sequences => Err(EvalStop::Fault(FaultKind::NotSet, at)),
        Standard::Length => misshapen(at),
        Standard::Head => misshapen(at),
        Standard::Tail => misshapen(at),
        Standard::SubSequence => misshapen(at),
        Standard::Cardinality => misshapen(at),
        Standard::IsFinite => misshapen(at),
        Standard::Print => misshapen(at),
    }
}

fn of_three<'x>(
    alloc: Global,
    o: Standard,
    at: Place,
    a: &Value,
    b: &Value,
    d: &Value,
) -> Result<Got<'x>, EvalStop>
    ensures { Tells result (standard_sense bounded (standard_in o) at (a.now ∷ b.now ∷ d.now ∷ [])).value }
{
    match o {
        Standard::SubSequence => Ok(Got::own(sub_sequence(alloc, at, a, b, d)?)),
        Standard::Sequences => Err(EvalStop::Fault(FaultKind::NotSet, at)),
        Standard::Length => misshapen(at),
        Standard::Append => misshapen(at),
        Standard::Head => misshapen(at),
        Standard::Tail => misshapen(at),
        Standard::Cardinality => misshapen(at),
        Standard::IsFinite => misshapen(at),
        Standard::Print => misshapen(at),
        Standard::Assert => misshapen(at),
    }
}

// Of any other number of values.
fn of_others<'x>(o: Standard, at: Place) -> Result<Got<'x>, EvalStop>
    ensures { (vs : _) → AreOther vs → Tells result (standard_sense bounded (standard_in o) at vs).value }
{
    match o {
        Standard::Sequences => Err(EvalStop::Fault(FaultKind::NotSet, at)),
        Standard::Length => misshapen(at),
        Standard::Append => misshapen(at),
        Standard::Head => misshapen(at),
        Standard::Tail => misshapen(at),
        Standard::SubSequence => misshapen(at),
        Standard::Cardinality => misshapen(at),
        Standard::IsFinite => misshapen(at),
        Standard::Print => misshapen(at),
        Standard::Assert => misshapen(at),
    }
}

// `Append(s, e)`, in place where `s` is one's own.
fn appended<'x>(alloc: Global, at: Place, s: Got<'x>, e: Got<'x>) -> Result<Got<'x>, EvalStop>
    ensures { Tells result (standard_value bounded pure.appended at (s.entry ∷ e.entry ∷ [])) }
{
    let s = s.taken(alloc)?;
    let e = e.taken(alloc)?;
    let v = pushed(alloc, at, s, e)?;
    Ok(Got::own(v))
}

/// What a standard operator gives.
///
/// # Errors
///
/// For want of memory, and exactly where it gives no value.
pub fn given<'x>(
    alloc: Global,
    o: Standard,
    at: Place,
    values: Vec<Got<'x>>,
) -> Result<Got<'x>, EvalStop>
    ensures { Tells result (standard_sense bounded (standard_in o) at values.entry.items).value }
{
    match by_count(values) {
        Operands::One(a) => of_one(alloc, o, at, a),
        Operands::Two(a, b) => match o {
            Standard::Append => appended(alloc, at, a, b),
            _ => of_two(alloc, o, at, a.get(), b.get()),
        },
        Operands::Three(a, b, d) => of_three(alloc, o, at, a.get(), b.get(), d.get()),
        Operands::Other => of_others(o, at),
    }
}

/// What an operator gives that isn't defined.
///
/// # Errors
///
/// For want of memory, and exactly where it gives no value.
pub fn undefined<'x>(
    alloc: Global,
    name: &Name,
    at: Place,
    values: Vec<Got<'x>>,
) -> Result<Got<'x>, EvalStop>
    ensures { Tells result (called at (standard_called bounded (standard_of name.now)) values.entry.items).value }
{
    match standard_named(name) {
        Some(o) => given(alloc, o, at, values),
        None => misshapen(at),
    }
}
