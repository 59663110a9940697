//! What a binder gathers of the answers of its body.

ghost use Rattle.std.specs.Prelude.{◌≡◌, ◌∷◌, [], IfOk};
ghost use Rattle.tla_tree.specs.declared.op.Binder.TheVariants as binder;
ghost use Rattle.tla_value.specs.Value.{truth};
ghost use Rattle.tla_value.specs.Meaning.{is_true, suited as suited_value};
ghost use Rattle.value_forms.specs.Gives.{Gives, Tells};
ghost use Rattle.eval_scopes.specs.Choices.{members_of_choice};
ghost use Rattle.eval_visits.specs.Gathered.{start, added, kept, row_added};
ghost use Rattle.eval_visits.specs.GatheredOf.{gathered_of};

use eval_scopes::got::Got;
use eval_scopes::scope::{OverName, row_of};
use std::alloc::{AllocError, Global};
use tla_token::Place;
use tla_tree::Binder;
use tla_value::stop::EvalStop;
use tla_value::value::{Kind, Value, Values};
use value_forms::kinds::truth_of;

/// What a binder has gathered.
#[derive(Drop)]
pub enum Gathered {
    /// Of `\A`, whether all were true.
    All(bool),
    /// Of `\E`, whether one was true.
    Some(bool),
    /// Of a filter, the members for which the body was true.
    Rows(Vec<Values>),
    /// Of `{e : x \in S}`, the values.
    Picked(Vec<Value>),
    /// Of a function, the members of each choice, and the value there.
    Table(Vec<Values>, Vec<Value>),
}

/// Nothing is gathered yet.
pub fn begun(alloc: Global, binder: Binder) -> Gathered
    ensures { gathered_of result ≡ start binder }
{
    match binder {
        Binder::ForAll => Gathered::All(true),
        Binder::Exists => Gathered::Some(false),
        Binder::Filter => Gathered::Rows(Vec::new(alloc)),
        Binder::Image => Gathered::Picked(Vec::new(alloc)),
        Binder::Function => Gathered::Table(Vec::new(alloc), Vec::new(alloc)),
    }
}

fn truth_in(v: &Value) -> bool
    ensures { result ≡ is_true v.now }
{
    match &v.kind {
        Kind::Bool(b) => *b,
        Kind::Int(_) => false,
        Kind::Text(_) => false,
        Kind::Model(_) => false,
        Kind::Set(_) => false,
        Kind::Fun(_, _) => false,
    }
}

fn as_truth<'x>(place: Place, v: &Value) -> Result<Got<'x>, EvalStop>
    ensures { Tells result (suited_value binder.ForAll place v.now) }
{
    let b = truth_of(place, v)?;
    Ok(Got::own(Value::truth(b)))
}

// What a body gives; quantifiers and filters need truth values.
fn suited<'x>(binder: Binder, place: Place, v: Got<'x>) -> Result<Got<'x>, EvalStop>
    ensures { Tells result (suited_value binder place v.entry) }
{
    match binder {
        Binder::Image => Ok(v),
        Binder::Function => Ok(v),
        Binder::ForAll => as_truth(place, v.get()),
        Binder::Exists => as_truth(place, v.get()),
        Binder::Filter => as_truth(place, v.get()),
    }
}

// With the members of a choice, if the body is true there.
fn with_members(
    alloc: Global,
    rows: Vec<Values>,
    names: &[OverName],
    left: &[usize],
    holds: bool,
) -> Result<Vec<Values>, AllocError>
    ensures { IfOk result (λ r. kept r.items ≡ added (kept rows.items) ((members_of_choice names.now left.now, truth holds) ∷ [])) }
{
    let mut rows = rows;
    if holds {
        rows.push(row_of(alloc, names, left)?)?;
    }
    Ok(rows)
}

/// One row more, where names are bound to these members, with what the body gives there.
///
/// # Errors
///
/// For want of memory, and where a truth value is needed and there is another.
pub fn with_row<'x>(
    alloc: Global,
    binder: Binder,
    place: Place,
    gathered: Gathered,
    names: &[OverName],
    left: &[usize],
    v: Got<'x>,
) -> Result<Gathered, EvalStop>
    ensures { Gives gathered_of result (row_added binder place (gathered_of gathered) (members_of_choice names.now left.now) v.entry) }
{
    let w = suited(binder, place, v)?;
    match gathered {
        Gathered::All(b) => Ok(Gathered::All(b && truth_in(w.get()))),
        Gathered::Some(b) => Ok(Gathered::Some(b || truth_in(w.get()))),
        Gathered::Rows(rows) => {
            let holds = truth_in(w.get());
            Ok(Gathered::Rows(with_members(alloc, rows, names, left, holds)?))
        }
        Gathered::Picked(values) => {
            let mut values = values;
            values.push(w.taken(alloc)?)?;
            Ok(Gathered::Picked(values))
        }
        Gathered::Table(rows, values) => {
            let mut rows = rows;
            let mut values = values;
            rows.push(row_of(alloc, names, left)?)?;
            values.push(w.taken(alloc)?)?;
            Ok(Gathered::Table(rows, values))
        }
    }
}
