//! Forms of expressions: all of an expression but its place and its parts.

ghost use Rattle.std.specs.Prelude.{◌≡◌, IfOk, IsTrue, ◌↔◌};
ghost use Rattle.tla_pool.specs.FormOf.{step_of, steps_of, slot_of, slots_of, strict_of, groups_of, form_of};
ghost use Rattle.tla_tree.specs.PoolEquality.{word_of};

use std::alloc::{AllocError, Global};
use tla_token::Place;
use tla_tree::{Binder, Name, NameList, Op, PlacedName, Text};

/// A step of a path after `!` in an `EXCEPT`.
#[derive(Drop)]
pub enum Step {
    /// `[e]`, the expression being a part of the `EXCEPT`.
    Index,
    /// `.a`
    Field(Name),
}

/// One setting of an `EXCEPT`: its path, and the place at which it faults.
#[derive(Drop)]
pub struct Slot {
    pub path: Vec<Step>,
    pub place: Place,
}

/// A form whose parts are all evaluated first, from left to right.
#[derive(Drop)]
pub enum Strict {
    /// Every operator but `/\`, `\/`, `=>`, `\in` and `\notin`.
    Operator(Op),
    /// `{a, b}`
    SetOf,
    /// `<<a, b>>`
    Tuple,
    /// `[a |-> e, b |-> f]`
    Fields(NameList),
    /// `[a : S, b : T]`
    Records(NameList),
    /// `[S -> T]`
    Functions,
    /// `f[a]`
    Apply,
    /// `r.a`
    Select(Name),
    /// `[f EXCEPT ![a].b = e, ..]`: f, then for each slot its subscripts and its right side.
    Except(Vec<Slot>),
}

/// What an expression is, its place and its parts aside.
#[derive(Drop)]
pub enum Form {
    Number(u128),
    /// A string, without quotes and escapes.
    String(Text),
    Truth(bool),
    /// `BOOLEAN`
    Booleans,
    /// `STRING`
    Strings,
    /// A variable, constant, parameter, bound name, or definition without parameters.
    Name(Name),
    /// A primed variable.
    Next(Name),
    Strict(Strict),
    /// `Op(a, b)`: a definition or a standard operator.
    Call(Name),
    /// `a /\ b`
    Conjunction,
    /// `a \/ b`
    Disjunction,
    /// `a => b`
    Implication,
    /// `a \in b`, and with false `a \notin b`.
    Member(bool),
    /// `IF a THEN b ELSE c`
    IfThenElse,
    /// `CASE a -> b [] c -> d`, and with true an `OTHER` at the end.
    Cases(bool),
    /// `x, y \in S, z \in T`: a set for each group of names, and the body.
    Binding(Binder, Vec<Vec<PlacedName>>),
    /// `LET x == a y == b IN c`: a right side for each name, and the body.
    Local(Vec<PlacedName>),
}

impl Step {
    /// The same step once more.
    ///
    /// # Errors
    ///
    /// Only for want of memory.
    pub fn copied(&self) -> Result<Step, AllocError>
        ensures { IfOk result (λ s. step_of s ≡ step_of self.now) }
    {
        match self {
            Step::Index => Ok(Step::Index),
            Step::Field(a) => Ok(Step::Field(a.copied()?)),
        }
    }

    /// Whether the two are the same step.
    pub fn is(&self, other: &Step) -> bool
        ensures { IsTrue result ↔ (step_of self.now ≡ step_of other.now) }
    {
        match self {
            Step::Index => matches!(other, Step::Index),
            Step::Field(a) => match other {
                Step::Field(b) => a.is(b),
                _ => false,
            },
        }
    }
}

#[tactic(auto, using(crate::proofs::SameLists::same_at))]
fn same_steps(xs: &[Step], ys: &[Step]) -> bool
    ensures { IsTrue result ↔ (steps_of xs.now ≡ steps_of ys.now) }
{
    if xs.len() != ys.len() {
        return false;
    }
    for i in 0..xs.len() {
        if !xs[i].is(&ys[i]) {
            return false;
        }
    }
    true
}

fn copied_steps(alloc: Global, steps: &[Step]) -> Result<Vec<Step>, AllocError>
    ensures { IfOk result (λ v. steps_of v.items ≡ steps_of steps.now) }
{
    let mut copies = Vec::new(alloc);
    for step in steps {
        copies.push(step.copied()?)?;
    }
    Ok(copies)
}

impl Slot {
    /// The same setting once more.
    ///
    /// # Errors
    ///
    /// Only for want of memory.
    pub fn copied(&self, alloc: Global) -> Result<Slot, AllocError>
        ensures { IfOk result (λ s. slot_of s ≡ slot_of self.now) }
    {
        let path = copied_steps(alloc, &self.path)?;
        Ok(Slot {
            path,
            place: self.place,
        })
    }

    /// Whether the two are the same setting.
    pub fn is(&self, other: &Slot) -> bool
        ensures { IsTrue result ↔ (slot_of self.now ≡ slot_of other.now) }
    {
        same_steps(&self.path, &other.path) && self.place == other.place
    }
}

#[tactic(auto, using(crate::proofs::SameLists::same_at))]
fn same_slots(xs: &[Slot], ys: &[Slot]) -> bool
    ensures { IsTrue result ↔ (slots_of xs.now ≡ slots_of ys.now) }
{
    if xs.len() != ys.len() {
        return false;
    }
    for i in 0..xs.len() {
        if !xs[i].is(&ys[i]) {
            return false;
        }
    }
    true
}

fn copied_slots(alloc: Global, slots: &[Slot]) -> Result<Vec<Slot>, AllocError>
    ensures { IfOk result (λ v. slots_of v.items ≡ slots_of slots.now) }
{
    let mut copies = Vec::new(alloc);
    for slot in slots {
        copies.push(slot.copied(alloc)?)?;
    }
    Ok(copies)
}

impl Strict {
    /// The same form once more.
    ///
    /// # Errors
    ///
    /// Only for want of memory.
    pub fn copied(&self, alloc: Global) -> Result<Strict, AllocError>
        ensures { IfOk result (λ s. strict_of s ≡ strict_of self.now) }
    {
        match self {
            Strict::Operator(op) => Ok(Strict::Operator(*op)),
            Strict::SetOf => Ok(Strict::SetOf),
            Strict::Tuple => Ok(Strict::Tuple),
            Strict::Fields(names) => Ok(Strict::Fields(names.copied(alloc)?)),
            Strict::Records(names) => Ok(Strict::Records(names.copied(alloc)?)),
            Strict::Functions => Ok(Strict::Functions),
            Strict::Apply => Ok(Strict::Apply),
            Strict::Select(a) => Ok(Strict::Select(a.copied()?)),
            Strict::Except(slots) => Ok(Strict::Except(copied_slots(alloc, slots)?)),
        }
    }

    /// Whether the two are the same form.
    pub fn is(&self, other: &Strict) -> bool
        ensures { IsTrue result ↔ (strict_of self.now ≡ strict_of other.now) }
    {
        match self {
            Strict::Operator(a) => match other {
                Strict::Operator(b) => *a == *b,
                _ => false,
            },
            Strict::SetOf => matches!(other, Strict::SetOf),
            Strict::Tuple => matches!(other, Strict::Tuple),
            Strict::Fields(a) => match other {
                Strict::Fields(b) => a.is(b),
                _ => false,
            },
            Strict::Records(a) => match other {
                Strict::Records(b) => a.is(b),
                _ => false,
            },
            Strict::Functions => matches!(other, Strict::Functions),
            Strict::Apply => matches!(other, Strict::Apply),
            Strict::Select(a) => match other {
                Strict::Select(b) => a.is(b),
                _ => false,
            },
            Strict::Except(a) => match other {
                Strict::Except(b) => same_slots(a, b),
                _ => false,
            },
        }
    }
}

fn same_names(xs: &[PlacedName], ys: &[PlacedName]) -> bool
    ensures { IsTrue result ↔ (xs.now ≡ ys.now) }
{
    if xs.len() != ys.len() {
        return false;
    }
    for i in 0..xs.len() {
        if !xs[i].is(&ys[i]) {
            return false;
        }
    }
    true
}

#[tactic(auto, using(crate::proofs::SameLists::same_at))]
fn same_groups(xs: &[Vec<PlacedName>], ys: &[Vec<PlacedName>]) -> bool
    ensures { IsTrue result ↔ (groups_of xs.now ≡ groups_of ys.now) }
{
    if xs.len() != ys.len() {
        return false;
    }
    for i in 0..xs.len() {
        if !same_names(&xs[i], &ys[i]) {
            return false;
        }
    }
    true
}

fn copied_names(alloc: Global, names: &[PlacedName]) -> Result<Vec<PlacedName>, AllocError>
    ensures { IfOk result (λ v. v.items ≡ names.now) }
{
    let mut copies = Vec::new(alloc);
    for name in names {
        copies.push(name.copied()?)?;
    }
    Ok(copies)
}

fn copied_groups(
    alloc: Global,
    groups: &[Vec<PlacedName>],
) -> Result<Vec<Vec<PlacedName>>, AllocError>
    ensures { IfOk result (λ v. groups_of v.items ≡ groups_of groups.now) }
{
    let mut copies = Vec::new(alloc);
    for group in groups {
        copies.push(copied_names(alloc, group)?)?;
    }
    Ok(copies)
}

impl Form {
    /// The word of a name, a primed name or a string; for any other form no bytes.
    pub fn word(&self) -> &[u8]
        ensures { result.now ≡ word_of (form_of self.now) }
    {
        match self {
            Form::String(text) => text.bytes(),
            Form::Name(name) | Form::Next(name) => name.bytes(),
            _ => b"".as_slice(),
        }
    }

    /// The same form once more.
    ///
    /// # Errors
    ///
    /// Only for want of memory.
    pub fn copied(&self, alloc: Global) -> Result<Form, AllocError>
        ensures { IfOk result (λ f. form_of f ≡ form_of self.now) }
    {
        match self {
            Form::Number(n) => Ok(Form::Number(*n)),
            Form::String(t) => Ok(Form::String(t.copied()?)),
            Form::Truth(b) => Ok(Form::Truth(*b)),
            Form::Booleans => Ok(Form::Booleans),
            Form::Strings => Ok(Form::Strings),
            Form::Name(x) => Ok(Form::Name(x.copied()?)),
            Form::Next(x) => Ok(Form::Next(x.copied()?)),
            Form::Strict(s) => Ok(Form::Strict(s.copied(alloc)?)),
            Form::Call(f) => Ok(Form::Call(f.copied()?)),
            Form::Conjunction => Ok(Form::Conjunction),
            Form::Disjunction => Ok(Form::Disjunction),
            Form::Implication => Ok(Form::Implication),
            Form::Member(sense) => Ok(Form::Member(*sense)),
            Form::IfThenElse => Ok(Form::IfThenElse),
            Form::Cases(other) => Ok(Form::Cases(*other)),
            Form::Binding(binder, groups) => Ok(Form::Binding(
                *binder,
                copied_groups(alloc, groups)?,
            )),
            Form::Local(names) => Ok(Form::Local(copied_names(alloc, names)?)),
        }
    }

    /// Whether the two are the same form.
    pub fn is(&self, other: &Form) -> bool
        ensures { IsTrue result ↔ (form_of self.now ≡ form_of other.now) }
    {
        match self {
            Form::Number(a) => match other {
                Form::Number(b) => *a == *b,
                _ => false,
            },
            Form::String(a) => match other {
                Form::String(b) => a.is(b),
                _ => false,
            },
            Form::Truth(a) => match other {
                Form::Truth(b) => *a == *b,
                _ => false,
            },
            Form::Booleans => matches!(other, Form::Booleans),
            Form::Strings => matches!(other, Form::Strings),
            Form::Name(a) => match other {
                Form::Name(b) => a.is(b),
                _ => false,
            },
            Form::Next(a) => match other {
                Form::Next(b) => a.is(b),
                _ => false,
            },
            Form::Strict(a) => match other {
                Form::Strict(b) => a.is(b),
                _ => false,
            },
            Form::Call(a) => match other {
                Form::Call(b) => a.is(b),
                _ => false,
            },
            Form::Conjunction => matches!(other, Form::Conjunction),
            Form::Disjunction => matches!(other, Form::Disjunction),
            Form::Implication => matches!(other, Form::Implication),
            Form::Member(a) => match other {
                Form::Member(b) => *a == *b,
                _ => false,
            },
            Form::IfThenElse => matches!(other, Form::IfThenElse),
            Form::Cases(a) => match other {
                Form::Cases(b) => *a == *b,
                _ => false,
            },
            Form::Binding(a, groups) => match other {
                Form::Binding(b, others) => *a == *b && same_groups(groups, others),
                _ => false,
            },
            Form::Local(a) => match other {
                Form::Local(b) => same_names(a, b),
                _ => false,
            },
        }
    }
}
