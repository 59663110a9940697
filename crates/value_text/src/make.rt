//! Values by what stands in their brackets.

ghost use Rattle.std.specs.Prelude.{◌≡◌, length, IfOk};
ghost use Rattle.tla_value.specs.Value.{values_in};
ghost use Rattle.tla_value.specs.Order.{fun_from, IsAscending};
ghost use Rattle.value_text.specs.EntryOrder.{entry_pairs, entry_keys};
ghost use Rattle.value_text.specs.Items.{opening_of, close_of, between_of, may_be_empty, paired, made, KeptAs, Makes, IsPaired};

use crate::token::{Punct, punct_of};
use std::alloc::{AllocError, AllocFailed, Global};
use std::cmp::Ordering;
use tla_token::{Place, Sign};
use tla_value::build::{DEEPEST, MOST_MEMBERS, depth_in, seq_of, set_of};
use tla_value::compare::compare;
use tla_value::stop::EvalStop;
use tla_value::value::{Kind, Value, Values};

/// Why there is no value.
#[derive(Clone, Copy)]
pub enum Halt {
    /// There was no memory.
    Memory,
    /// No value is spelled, or one past the limits.
    NoValue,
}

impl From<AllocError> for Halt {
    ghost use Rattle.value_text.specs.declared.make.Halt.TheVariants as halt;
    ghost use Rattle.std.specs.Prelude.{◌≡◌};

    ghost from_gives = { λ _ e. e ≡ halt.Memory };

    fn from(_: AllocError) -> Self {
        Halt::Memory
    }
}

impl<T: Drop> From<AllocFailed<T>> for Halt {
    ghost use Rattle.value_text.specs.declared.make.Halt.TheVariants as halt;
    ghost use Rattle.std.specs.Prelude.{◌≡◌};

    ghost from_gives = { λ _ e. e ≡ halt.Memory };

    fn from(_: AllocFailed<T>) -> Self {
        Halt::Memory
    }
}

/// The brackets of a value.
#[derive(Clone, Copy)]
pub enum Form {
    /// `{1, 2}`
    Set,
    /// `<<1, 2>>`
    Tuple,
    /// `[f |-> 1]`
    Record,
    /// `(7 :> 2 @@ "a b" :> 1)`
    Pairs,
}

/// What a value begins with that begins with a sign.
#[derive(Clone, Copy)]
pub enum Opening {
    /// The minus of a number.
    Minus,
    /// Brackets.
    Brackets(Form),
}

/// What a value begins with, by its first sign.
pub fn opening_of(sign: Sign) -> Option<Opening>
    ensures { result ≡ opening_of sign }
{
    match punct_of(sign) {
        Some(Punct::Minus) => Some(Opening::Minus),
        Some(Punct::OpenSet) => Some(Opening::Brackets(Form::Set)),
        Some(Punct::OpenTuple) => Some(Opening::Brackets(Form::Tuple)),
        Some(Punct::OpenRecord) => Some(Opening::Brackets(Form::Record)),
        Some(Punct::OpenPairs) => Some(Opening::Brackets(Form::Pairs)),
        _ => None,
    }
}

/// What closes it.
pub fn close_of(form: Form) -> Punct
    ensures { result ≡ close_of form }
{
    match form {
        Form::Set => Punct::CloseSet,
        Form::Tuple => Punct::CloseTuple,
        Form::Record => Punct::CloseRecord,
        Form::Pairs => Punct::ClosePairs,
    }
}

/// What stands between two items.
pub fn between_of(form: Form) -> Punct
    ensures { result ≡ between_of form }
{
    match form {
        Form::Set | Form::Tuple | Form::Record => Punct::Comma,
        Form::Pairs => Punct::Override,
    }
}

/// Whether nothing may stand in it.
pub fn may_be_empty(form: Form) -> bool
    ensures { result ≡ may_be_empty form }
{
    match form {
        Form::Set | Form::Tuple => true,
        Form::Record | Form::Pairs => false,
    }
}

// A value that is made, or why there is none.
fn kept(made: Result<Value, EvalStop>) -> Result<Value, Halt>
    ensures { KeptAs made result }
{
    match made {
        Ok(v) => Ok(v),
        Err(EvalStop::Memory) => Err(Halt::Memory),
        Err(_) => Err(Halt::NoValue),
    }
}

/// The value of a form, by its keys and its values.
///
/// # Errors
///
/// For want of memory, and exactly where it is past the limits of a run.
pub fn made_of(
    alloc: Global,
    form: Form,
    keys: Vec<Value>,
    values: Vec<Value>,
) -> Result<Value, Halt>
    requires { IsPaired form keys.items values.items }
    ensures { Makes (made form keys.items values.items) result }
{
    let nowhere = Place { line: 0, col: 0 };
    match form {
        Form::Set => kept(set_of(nowhere, values)),
        Form::Tuple => kept(seq_of(alloc, nowhere, values)),
        Form::Record | Form::Pairs => function_of(alloc, keys, values),
    }
}

/// An argument of a function with its value. Entries are compared by their arguments alone.
#[derive(Drop)]
pub struct Entry {
    pub key: Value,
    pub value: Value,
}

impl PartialEq for Entry {
    ghost use Rattle.value_text.specs.EntryOrder.{same_keys, same_keys_partial};

    ghost eq = { same_keys };

    ghost laws = { same_keys_partial };

    fn eq(&self, other: &Entry) -> bool {
        compare(&self.key, &other.key).is_eq()
    }
}

impl Eq for Entry {
    ghost use Rattle.value_text.specs.EntryOrder.{same_keys_equivalence};

    ghost laws = { same_keys_equivalence };
}

impl Ord for Entry {
    ghost use Rattle.std.proofs.Common.{refl};
    ghost use Rattle.value_text.specs.EntryOrder.{by_key, by_key_total};

    ghost cmp = { by_key };

    ghost total = { by_key_total };

    ghost matches_partial_cmp = { λ x y. refl };

    ghost matches_eq = { λ x y. refl };

    fn cmp(&self, other: &Entry) -> Ordering {
        compare(&self.key, &other.key)
    }
}

impl PartialOrd for Entry {
    ghost use Rattle.std.specs.Ordering.{as_partial_cmp};
    ghost use Rattle.std.specs.Cmp.{partial_order_from_total};
    ghost use Rattle.value_text.specs.EntryOrder.{by_key, by_key_total};

    ghost partial_cmp = { as_partial_cmp by_key };

    ghost laws = { partial_order_from_total by_key_total };

    fn partial_cmp(&self, other: &Entry) -> Option<Ordering> {
        Some(compare(&self.key, &other.key))
    }
}

// The arguments with their values.
fn entries_of(
    alloc: Global,
    mut keys: Vec<Value>,
    mut values: Vec<Value>,
) -> Result<Vec<Entry>, AllocError>
    requires { length keys.items ≡ length values.items }
    ensures { IfOk result (λ es. entry_pairs es.items ≡ paired keys.items values.items) }
{
    let mut entries = Vec::new(alloc);
    while let Some(key) = keys.pop() {
        if let Some(value) = values.pop() {
            entries.push(Entry { key, value })?;
        }
    }
    entries.reverse();
    Ok(entries)
}

// The first entry of each argument, in the order of the arguments.
fn in_order(mut entries: Vec<Entry>) -> Result<Vec<Entry>, AllocError>
    ensures ascending { IfOk result (λ es. IsAscending (values_in (entry_keys es.items))) }
    ensures pairs { IfOk result (λ es. fun_from (entry_pairs es.items) ≡ fun_from (entry_pairs entries.items)) }
{
    entries.sort()?;
    entries.dedup();
    Ok(entries)
}

// The function of these arguments, each with its value; of a repeated argument the first counts.
fn function_of(alloc: Global, keys: Vec<Value>, values: Vec<Value>) -> Result<Value, Halt>
    requires { length keys.items ≡ length values.items }
    ensures { Makes (fun_from (paired keys.items values.items)) result }
{
    let mut entries = in_order(entries_of(alloc, keys, values)?)?;
    if entries.len() > MOST_MEMBERS {
        return Err(Halt::NoValue);
    }
    let mut domain = Vec::new(alloc);
    let mut values = Vec::new(alloc);
    while let Some(entry) = entries.pop() {
        domain.push(entry.key)?;
        values.push(entry.value)?;
    }
    domain.reverse();
    values.reverse();
    if depth_in(&domain) >= DEEPEST {
        return Err(Halt::NoValue);
    }
    if depth_in(&values) >= DEEPEST {
        return Err(Halt::NoValue);
    }
    Ok(Value {
        kind: Kind::Fun(Values { items: domain }, Values { items: values }),
    })
}
