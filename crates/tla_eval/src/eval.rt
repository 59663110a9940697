//! The evaluator: values of expressions of a pool, in the order of the definition.

ghost use Rattle.std.specs.Prelude.{◌≡◌, ◌≤◌, ◌<◌, [], length, suc};
ghost use Rattle.tla_tree.specs.Pool.{AllBelow};
ghost use Rattle.tla_tree.specs.Shapes.{Shaped};
ghost use Rattle.tla_tree.specs.Tree.{if_then_else, operator_call, member as is_member};
ghost use Rattle.tla_pool.specs.FormOf.{form_of, groups_of};
ghost use Rattle.tla_value.specs.Limits.{bounded};
ghost use Rattle.tla_value.specs.Definitions.{scope_of, no_state, with_definitions};
ghost use Rattle.tla_value.specs.Defs.{definitions_at, DefinitionsIn};
ghost use Rattle.tla_value.specs.Meaning.{part_values, meaning_of, value_of, bound_value, local_value, first_arm, test as is_true};
ghost use Rattle.eval_scopes.specs.Scopes.{seen_of, with_words, with_locals};
ghost use Rattle.eval_scopes.specs.Contexts.{env_of, outside, use_of, IsWithin};
ghost use Rattle.tla_eval.specs.Parts.{den, dens, value_at};
ghost use Rattle.eval_steps.specs.Forms.{connective_form};
ghost use Rattle.eval_visits.specs.Visits.{visited, body_at};
ghost use Rattle.eval_scopes.specs.Choices.{chosen, unbound};
ghost use Rattle.eval_visits.specs.GatheredOf.{gathered_of};
ghost use Rattle.value_forms.specs.Gives.{Gives, Tells};

use eval_operators::member::{TestBy, test_of};
use eval_operators::standard::undefined;
use eval_operators::strict::make;
use eval_operators::tests::{in_sequences, in_standard, in_strict, is_text};
use eval_scopes::context::{Context, next_named, outer_named, seen_latest, stopped};
use eval_scopes::got::{Got, all_taken};
use eval_scopes::scope::{OverName, Scope};
use eval_steps::answers::with_answer;
use eval_steps::forms::{
    Connective, left_alone, misshapen, no_arm, number, pair, text, triple, truth_values,
};
use eval_visits::gathered::{Gathered, begun};
use eval_visits::visits::{over_sets, whole};
use eval_visits::walk::{first_choice, next_choice};
use std::alloc::Global;
use tla_pool::Pool;
use tla_pool::form::Form;
use tla_token::Place;
use tla_tree::{Binder, Name, NodeId, PlacedName};
use tla_value::fault::FaultKind;
use tla_value::names::{Defs, Names};
use tla_value::stop::EvalStop;
use tla_value::value::Value;
use value_forms::kinds::truth_of;

// The value of an expression.
#[cycle(eval)]
fn valued<'x, N: Names>(
    alloc: Global,
    cx: &'x Context<'x, N>,
    e: NodeId,
    scope: &'x Scope<'x>,
) -> Result<Got<'x>, EvalStop>
    requires below { e < length cx.now.pool.now }
    requires within { IsWithin cx.now (seen_of scope.now) }
    ensures { Tells result (value_at cx.now.pool.now e (env_of N.look cx.now scope.now)) }
{
    let node = cx.pool.node(e);
    of_form(alloc, &*cx, &node.form, node.place, &node.parts, &*scope)
}

// The value of a node by its form.
#[cycle(eval)]
fn of_form<'x, N: Names>(
    alloc: Global,
    cx: &'x Context<'x, N>,
    form: &'x Form,
    place: Place,
    parts: &'x [NodeId],
    scope: &'x Scope<'x>,
) -> Result<Got<'x>, EvalStop>
    requires below { AllBelow (length cx.now.pool.now) parts.now }
    requires shaped { Shaped (form_of form.now) (length parts.now) }
    requires within { IsWithin cx.now (seen_of scope.now) }
    ensures { Tells result (meaning_of bounded (form_of form.now) place (dens cx.now.pool.now parts.now) (env_of N.look cx.now scope.now)).value }
{
    match form {
        Form::Number(n) => number(place, *n),
        Form::String(w) => Ok(Got::own(text(w)?)),
        Form::Truth(b) => Ok(Got::own(Value::truth(*b))),
        Form::Booleans => truth_values(alloc, place),
        Form::Strings => Err(EvalStop::Fault(FaultKind::NotSet, place)),
        Form::Name(x) => named(alloc, &*cx, place, x, &*scope),
        Form::Next(x) => next_named(&*cx, place, x),
        Form::Strict(o) => {
            let values = values(alloc, &*cx, &*parts, &*scope)?;
            make(alloc, o, place, values)
        }
        Form::Call(f) => called(alloc, &*cx, place, f, &*parts, &*scope),
        Form::Conjunction => connective(alloc, &*cx, Connective::And, place, &*parts, &*scope),
        Form::Disjunction => connective(alloc, &*cx, Connective::Or, place, &*parts, &*scope),
        Form::Implication => connective(alloc, &*cx, Connective::Implies, place, &*parts, &*scope),
        Form::Member(sense) => membership(alloc, &*cx, *sense, place, &*parts, &*scope),
        Form::IfThenElse => choice(alloc, &*cx, place, &*parts, &*scope),
        Form::Cases(other) => cases(alloc, &*cx, *other, place, &*parts, &*scope),
        Form::Binding(binder, groups) => bound(
            alloc, &*cx, *binder, &*groups, place, &*parts, &*scope,
        ),
        Form::Local(names) => locals(alloc, &*cx, place, &*names, &*parts, &*scope),
    }
}

// The values of all parts, in order.
#[cycle(eval)]
fn values<'x, N: Names>(
    alloc: Global,
    cx: &'x Context<'x, N>,
    parts: &'x [NodeId],
    scope: &'x Scope<'x>,
) -> Result<Vec<Got<'x>>, EvalStop>
    requires below { AllBelow (length cx.now.pool.now) parts.now }
    requires within { IsWithin cx.now (seen_of scope.now) }
    ensures { Gives (λ v. v.items) result (part_values (dens cx.now.pool.now parts.now) (env_of N.look cx.now scope.now)) }
{
    let mut values = Vec::new(alloc);
    for part in parts {
        let v = valued(alloc, &*cx, *part, &*scope)?;
        values.push(v)?;
    }
    Ok(values)
}

// Whether an expression is true.
#[cycle(eval)]
fn test<'x, N: Names>(
    alloc: Global,
    cx: &'x Context<'x, N>,
    place: Place,
    e: NodeId,
    scope: &'x Scope<'x>,
) -> Result<bool, EvalStop>
    requires below { e < length cx.now.pool.now }
    requires within { IsWithin cx.now (seen_of scope.now) }
    ensures { Tells result (is_true place (den cx.now.pool.now e) (env_of N.look cx.now scope.now)) }
{
    let v = valued(alloc, &*cx, e, &*scope)?;
    truth_of(place, v.get())
}

// `a /\ b`, `a \/ b`, `a => b`.
#[cycle(eval)]
fn connective<'x, N: Names>(
    alloc: Global,
    cx: &'x Context<'x, N>,
    kind: Connective,
    place: Place,
    parts: &'x [NodeId],
    scope: &'x Scope<'x>,
) -> Result<Got<'x>, EvalStop>
    requires below { AllBelow (length cx.now.pool.now) parts.now }
    requires within { IsWithin cx.now (seen_of scope.now) }
    ensures { Tells result (value_of bounded (connective_form kind) place (dens cx.now.pool.now parts.now) (env_of N.look cx.now scope.now)) }
{
    let Some((a, b)) = pair(parts) else {
        return misshapen(place);
    };
    let p = test(alloc, &*cx, place, a, &*scope)?;
    if let Some(holds) = left_alone(kind, p) {
        return Ok(Got::own(Value::truth(holds)));
    }
    let q = test(alloc, &*cx, place, b, &*scope)?;
    Ok(Got::own(Value::truth(q)))
}

// `IF p THEN a ELSE b`.
#[cycle(eval)]
fn choice<'x, N: Names>(
    alloc: Global,
    cx: &'x Context<'x, N>,
    place: Place,
    parts: &'x [NodeId],
    scope: &'x Scope<'x>,
) -> Result<Got<'x>, EvalStop>
    requires below { AllBelow (length cx.now.pool.now) parts.now }
    requires within { IsWithin cx.now (seen_of scope.now) }
    ensures { Tells result (value_of bounded if_then_else place (dens cx.now.pool.now parts.now) (env_of N.look cx.now scope.now)) }
{
    let Some((p, a, b)) = triple(parts) else {
        return misshapen(place);
    };
    let first = test(alloc, &*cx, place, p, &*scope)?;
    if first {
        valued(alloc, &*cx, a, &*scope)
    } else {
        valued(alloc, &*cx, b, &*scope)
    }
}

// `CASE`: the arm after the first true test.
#[cycle(eval)]
fn cases<'x, N: Names>(
    alloc: Global,
    cx: &'x Context<'x, N>,
    other: bool,
    place: Place,
    parts: &'x [NodeId],
    scope: &'x Scope<'x>,
) -> Result<Got<'x>, EvalStop>
    requires below { AllBelow (length cx.now.pool.now) parts.now }
    requires within { IsWithin cx.now (seen_of scope.now) }
    ensures { Tells result (first_arm other place (dens cx.now.pool.now parts.now) (env_of N.look cx.now scope.now)) }
{
    let mut i = 0;
    while i + 1 < parts.len() {
        let holds = test(alloc, &*cx, place, parts[i], &*scope)?;
        if holds {
            return valued(alloc, &*cx, parts[i + 1], &*scope);
        }
        i += 2;
    }
    if i < parts.len() {
        if other {
            return valued(alloc, &*cx, parts[i], &*scope);
        }
        return misshapen(place);
    }
    no_arm(other, place)
}

// `a \in b`, and without `sense` `a \notin b`.
#[cycle(eval)]
fn membership<'x, N: Names>(
    alloc: Global,
    cx: &'x Context<'x, N>,
    sense: bool,
    place: Place,
    parts: &'x [NodeId],
    scope: &'x Scope<'x>,
) -> Result<Got<'x>, EvalStop>
    requires below { AllBelow (length cx.now.pool.now) parts.now }
    requires within { IsWithin cx.now (seen_of scope.now) }
    ensures { Tells result (value_of bounded (is_member sense) place (dens cx.now.pool.now parts.now) (env_of N.look cx.now scope.now)) }
{
    let Some((a, b)) = pair(parts) else {
        return misshapen(place);
    };
    let v = valued(alloc, &*cx, a, &*scope)?;
    let is_in = member(alloc, &*cx, place, v.get(), b, &*scope)?;
    Ok(Got::own(Value::truth(sense == is_in)))
}

/// Whether a value is a member of an expression's set, asked at a place. Some sets are not listed for that.
///
/// # Errors
///
/// For want of memory, and exactly where the set has no value, or is none, or a value is past the limits.
#[cycle(eval)]
pub fn member<'x, N: Names>(
    alloc: Global,
    cx: &'x Context<'x, N>,
    place: Place,
    v: &Value,
    e: NodeId,
    scope: &'x Scope<'x>,
) -> Result<bool, EvalStop>
    requires below { e < length cx.now.pool.now }
    requires within { IsWithin cx.now (seen_of scope.now) }
    ensures { Tells result ((den cx.now.pool.now e (env_of N.look cx.now scope.now)).test place v.now) }
{
    let node = cx.pool.node(e);
    in_form(
        alloc,
        &*cx,
        place,
        &*v,
        &node.form,
        node.place,
        &node.parts,
        &*scope,
    )
}

// The same by the form of the expression.
#[cycle(eval)]
fn in_form<'x, N: Names>(
    alloc: Global,
    cx: &'x Context<'x, N>,
    place: Place,
    v: &Value,
    form: &'x Form,
    at: Place,
    parts: &'x [NodeId],
    scope: &'x Scope<'x>,
) -> Result<bool, EvalStop>
    requires below { AllBelow (length cx.now.pool.now) parts.now }
    requires shaped { Shaped (form_of form.now) (length parts.now) }
    requires within { IsWithin cx.now (seen_of scope.now) }
    ensures { Tells result ((meaning_of bounded (form_of form.now) at (dens cx.now.pool.now parts.now) (env_of N.look cx.now scope.now)).test place v.now) }
{
    match test_of(&*cx, form, &*scope) {
        TestBy::Text => Ok(is_text(v)),
        TestBy::Standard(x) => in_standard(at, place, x, v),
        TestBy::Parts(o) => {
            let values = values(alloc, &*cx, &*parts, &*scope)?;
            in_strict(alloc, o, at, place, v, values)
        }
        TestBy::Sequences => {
            let values = values(alloc, &*cx, &*parts, &*scope)?;
            in_sequences(at, place, v, values)
        }
        TestBy::Listed => {
            let s = of_form(alloc, &*cx, &*form, at, &*parts, &*scope)?;
            value_forms::sets::member(place, v, s.get())
        }
    }
}

// The value of a form that binds names over sets.
#[cycle(eval)]
fn bound<'x, N: Names>(
    alloc: Global,
    cx: &'x Context<'x, N>,
    binder: Binder,
    groups: &'x [Vec<PlacedName>],
    place: Place,
    parts: &'x [NodeId],
    scope: &'x Scope<'x>,
) -> Result<Got<'x>, EvalStop>
    requires below { AllBelow (length cx.now.pool.now) parts.now }
    requires shaped { length parts.now ≡ suc (length (groups_of groups.now)) }
    requires within { IsWithin cx.now (seen_of scope.now) }
    ensures { Tells result (bound_value bounded binder (groups_of groups.now) place (dens cx.now.pool.now parts.now) (env_of N.look cx.now scope.now)) }
{
    let last = parts.len() - 1;
    let body = parts[last];
    let sets = values(alloc, &*cx, &parts[..last], &*scope)?;
    let names = over_sets(alloc, place, groups, sets.as_slice())?;
    let gathered = begun(alloc, binder);
    let gathered = visit(
        alloc,
        &*cx,
        binder,
        place,
        body,
        names.as_slice(),
        &*scope,
        gathered,
    )?;
    whole(alloc, place, gathered)
}

// What a binder gathers at each choice of members of its names.
#[cycle(eval)]
fn visit<'x, N: Names>(
    alloc: Global,
    cx: &'x Context<'x, N>,
    binder: Binder,
    place: Place,
    body: NodeId,
    names: &'x [OverName],
    scope: &'x Scope<'x>,
    gathered: Gathered,
) -> Result<Gathered, EvalStop>
    requires below { body < length cx.now.pool.now }
    requires within { IsWithin cx.now (seen_of scope.now) }
    ensures { Gives gathered_of result (visited (gathered_of gathered) names.now (body_at binder place (den cx.now.pool.now body)) (unbound (env_of N.look cx.now scope.now))) }
{
    let mut gathered = gathered;
    let mut left = Vec::new(alloc);
    let mut more = first_choice(names, &mut left)?;
    while more {
        gathered = at_choice(
            alloc,
            &*cx,
            binder,
            place,
            body,
            &*names,
            left.as_slice(),
            &*scope,
            gathered,
        )?;
        more = next_choice(names, &mut left)?;
    }
    Ok(gathered)
}

// What it gathers at one choice.
#[cycle(eval)]
fn at_choice<'x, N: Names>(
    alloc: Global,
    cx: &'x Context<'x, N>,
    binder: Binder,
    place: Place,
    body: NodeId,
    names: &'x [OverName],
    left: &'x [usize],
    scope: &'x Scope<'x>,
    gathered: Gathered,
) -> Result<Gathered, EvalStop>
    requires below { body < length cx.now.pool.now }
    requires within { IsWithin cx.now (seen_of scope.now) }
    ensures { Gives gathered_of result (visited (gathered_of gathered) [] (body_at binder place (den cx.now.pool.now body)) (chosen names.now left.now (unbound (env_of N.look cx.now scope.now)))) }
{
    let inner = Scope::Choice(&*names, &*left, &*scope);
    let answer = valued(alloc, &*cx, body, &inner);
    with_answer(alloc, binder, place, gathered, &*names, &*left, answer)
}

// The value of a `LET`: its right sides in order, each seen by those behind it, and then its body.
#[cycle(eval)]
fn locals<'x, N: Names>(
    alloc: Global,
    cx: &'x Context<'x, N>,
    place: Place,
    names: &'x [PlacedName],
    parts: &'x [NodeId],
    scope: &'x Scope<'x>,
) -> Result<Got<'x>, EvalStop>
    requires below { AllBelow (length cx.now.pool.now) parts.now }
    requires shaped { length parts.now ≡ suc (length names.now) }
    requires within { IsWithin cx.now (seen_of scope.now) }
    ensures { Tells result (local_value place names.now (dens cx.now.pool.now parts.now) (env_of N.look cx.now scope.now)) }
{
    let mut values = Vec::new(alloc);
    for i in 0..names.len() {
        let v = in_local(alloc, &*cx, parts[i], &*names, values.as_slice(), &*scope)?;
        values.push(v)?;
    }
    let v = in_local(
        alloc,
        &*cx,
        parts[names.len()],
        &*names,
        values.as_slice(),
        &*scope,
    )?;
    Ok(Got::own(v))
}

// The value of an expression where names of a `LET` have values.
#[cycle(eval)]
fn in_local<'x, N: Names>(
    alloc: Global,
    cx: &'x Context<'x, N>,
    e: NodeId,
    names: &'x [PlacedName],
    values: &'x [Value],
    scope: &'x Scope<'x>,
) -> Result<Value, EvalStop>
    requires below { e < length cx.now.pool.now }
    requires within { IsWithin cx.now (seen_of scope.now) }
    ensures { Tells result (value_at cx.now.pool.now e (with_locals names.now values.now (env_of N.look cx.now scope.now))) }
{
    let inner = Scope::Local(&*names, &*values, &*scope);
    let v = valued(alloc, &*cx, e, &inner)?;
    let v = v.taken(alloc)?;
    Ok(v)
}

// What a name stands for.
#[cycle(eval)]
fn named<'x, N: Names>(
    alloc: Global,
    cx: &'x Context<'x, N>,
    place: Place,
    x: &Name,
    scope: &'x Scope<'x>,
) -> Result<Got<'x>, EvalStop>
    requires within { IsWithin cx.now (seen_of scope.now) }
    ensures { Tells result ((env_of N.look cx.now scope.now).now x.now place).value }
{
    if let Some(v) = scope.find(x) {
        return Ok(Got::there(v));
    }
    match seen_latest(&*cx, true, x, &*scope) {
        Some(k) => {
            let none = Vec::new(alloc);
            let v = used(alloc, &*cx, place, k, none.as_slice())?;
            Ok(Got::own(v))
        }
        None => outer_named(&*cx, place, x),
    }
}

// What an operator gives that is called.
#[cycle(eval)]
fn called<'x, N: Names>(
    alloc: Global,
    cx: &'x Context<'x, N>,
    place: Place,
    f: &Name,
    parts: &'x [NodeId],
    scope: &'x Scope<'x>,
) -> Result<Got<'x>, EvalStop>
    requires below { AllBelow (length cx.now.pool.now) parts.now }
    requires within { IsWithin cx.now (seen_of scope.now) }
    ensures { Tells result (meaning_of bounded (operator_call f.now) place (dens cx.now.pool.now parts.now) (env_of N.look cx.now scope.now)).value }
{
    let values = values(alloc, &*cx, &*parts, &*scope)?;
    match seen_latest(&*cx, false, f, &*scope) {
        Some(k) => {
            let arguments = all_taken(alloc, values)?;
            let v = used(alloc, &*cx, place, k, arguments.as_slice())?;
            Ok(Got::own(v))
        }
        None => undefined(alloc, f, place, values),
    }
}

// The value of a definition's body, where its parameters stand for arguments; it sees the definitions before it alone.
#[cycle(eval)]
fn used<'x, N: Names>(
    alloc: Global,
    cx: &'x Context<'x, N>,
    place: Place,
    k: usize,
    arguments: &'x [Value],
) -> Result<Value, EvalStop>
    requires seen { k < length cx.now.defs.now }
    requires within { DefinitionsIn (length cx.now.pool.now) cx.now.defs.now }
    ensures { Tells result (use_of cx.now.pool.now cx.now.defs.now k (outside N.look cx.now) place arguments.now).value }
{
    let defs = cx.defs.as_slice();
    let definition = &defs[k];
    if definition.params.len() != arguments.len() {
        return Err(EvalStop::Fault(FaultKind::NotFunction, place));
    }
    let inner = Scope::Params(definition.params.as_slice(), &*arguments, k);
    match valued(alloc, &*cx, definition.body, &inner) {
        Ok(v) => Ok(v.taken(alloc)?),
        Err(stop) => Err(stopped(definition.outside, place, stop)),
    }
}

/// The value of an expression, where names stand for values and definitions.
///
/// # Errors
///
/// For want of memory, and exactly where the expression has no value within the limits of a run: the kind and place of the first fault, or the place of the first value past the limits.
pub fn eval<'x, N: Names>(
    alloc: Global,
    pool: &'x Pool,
    e: NodeId,
    names: &'x N,
    defs: &'x Defs,
) -> Result<Value, EvalStop>
    requires below { e < length pool.now }
    requires defined { DefinitionsIn (length pool.now) defs.now }
    ensures { Tells result (value_at pool.now e (scope_of bounded (N.look names.now) (definitions_at pool.now defs.now) no_state no_state)) }
{
    let cx = Context {
        pool,
        names,
        next: None,
        defs,
    };
    outermost(alloc, &cx, e)
}

/// The value of an expression in a pair of states: primed names stand for values of the next one.
///
/// # Errors
///
/// As those of `eval`.
pub fn eval_between<'x, N: Names>(
    alloc: Global,
    pool: &'x Pool,
    e: NodeId,
    names: &'x N,
    next: &'x N,
    defs: &'x Defs,
) -> Result<Value, EvalStop>
    requires below { e < length pool.now }
    requires defined { DefinitionsIn (length pool.now) defs.now }
    ensures { Tells result (value_at pool.now e (scope_of bounded no_state (definitions_at pool.now defs.now) (N.look names.now) (N.look next.now))) }
{
    let cx = Context {
        pool,
        names,
        next: Some(next),
        defs,
    };
    outermost(alloc, &cx, e)
}

/// The value of an expression where these names are bound to values, and others stand for values and definitions; of two
/// that are alike the later one counts.
///
/// # Errors
///
/// As those of `eval`.
pub fn eval_where<'x, N: Names>(
    alloc: Global,
    pool: &'x Pool,
    e: NodeId,
    names: &'x N,
    defs: &'x Defs,
    bound: &'x [Name],
    values: &'x [Value],
) -> Result<Value, EvalStop>
    requires below { e < length pool.now }
    requires defined { DefinitionsIn (length pool.now) defs.now }
    ensures { Tells result (value_at pool.now e (with_words bound.now values.now (scope_of bounded (N.look names.now) (definitions_at pool.now defs.now) no_state no_state))) }
{
    let cx = Context {
        pool,
        names,
        next: None,
        defs,
    };
    eval_bound(alloc, &cx, e, bound, values)
}

/// The value of an expression where these names are bound to values, and what is outside is given; all definitions are
/// seen. Of two names that are alike the later one counts.
///
/// # Errors
///
/// As those of `eval`.
pub fn eval_bound<'x, N: Names>(
    alloc: Global,
    cx: &'x Context<'x, N>,
    e: NodeId,
    bound: &'x [Name],
    values: &'x [Value],
) -> Result<Value, EvalStop>
    requires below { e < length cx.now.pool.now }
    requires within { DefinitionsIn (length cx.now.pool.now) cx.now.defs.now }
    ensures { Tells result (value_at cx.now.pool.now e (with_words bound.now values.now (with_definitions bounded (definitions_at cx.now.pool.now cx.now.defs.now) (outside N.look cx.now)))) }
{
    let scope = Scope::Params(&*bound, &*values, cx.defs.as_slice().len());
    let v = valued(alloc, &*cx, e, &scope)?;
    let v = v.taken(alloc)?;
    Ok(v)
}

// The value of an expression in which all definitions are seen.
fn outermost<'x, N: Names>(
    alloc: Global,
    cx: &'x Context<'x, N>,
    e: NodeId,
) -> Result<Value, EvalStop>
    requires below { e < length cx.now.pool.now }
    requires within { DefinitionsIn (length cx.now.pool.now) cx.now.defs.now }
    ensures { Tells result (value_at cx.now.pool.now e (with_definitions bounded (definitions_at cx.now.pool.now cx.now.defs.now) (outside N.look cx.now))) }
{
    let scope = Scope::Top(cx.defs.as_slice().len());
    let v = valued(alloc, &*cx, e, &scope)?;
    let v = v.taken(alloc)?;
    Ok(v)
}
