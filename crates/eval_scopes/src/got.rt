//! A value that is at hand: one's own, or one that stands elsewhere.

ghost use Rattle.std.specs.Prelude.{◌≡◌, ◌∷◌, [], IfOk};
ghost use Rattle.tla_tree.specs.Tree.{apply, select};
ghost use Rattle.tla_value.specs.Limits.{bounded};
ghost use Rattle.tla_value.specs.Strict.{strict_value};
ghost use Rattle.tla_value.specs.Standard as pure;
ghost use Rattle.tla_value.specs.Standard.{standard_value};
ghost use Rattle.value_forms.specs.Gives.{Tells};

use function_forms::functions::{applied, selected};
use function_forms::sequences::head;
use std::alloc::{AllocError, Global};
use std::marker::Model;
use tla_token::Place;
use tla_tree::Name;
use tla_value::stop::EvalStop;
use tla_value::value::{Value, copied};

/// A value, or a reference to one.
#[derive(Drop)]
pub enum Held<'v> {
    Own(Value),
    There(&'v Value),
}

/// A value that an evaluation gives. Contracts see the value.
#[derive(Drop)]
pub struct Got<'v> {
    held: Held<'v>,
}

impl<'v> Model for Got<'v> {
    ghost use Rattle.tla_value.specs.Value as pure;
    ghost use Rattle.tla_value.specs.Code.{value_code};
    ghost use Rattle.eval_scopes.specs.HeldOf.{held_value};

    ghost Value = { pure.Value };

    ghost coded = { value_code };

    ghost view = { λ g. held_value g.held };
}

impl<'v> Got<'v> {
    /// A value of one's own.
    pub fn own(v: Value) -> Got<'v>
        ensures { result ≡ v }
    {
        Got { held: Held::Own(v) }
    }

    /// A value that stands elsewhere.
    pub fn there(v: &'v Value) -> Got<'v>
        ensures { result ≡ v.now }
    {
        Got {
            held: Held::There(v),
        }
    }

    /// The value.
    pub fn get(&self) -> &Value
        ensures { result.now ≡ self.now }
    {
        match &self.held {
            Held::Own(v) => v,
            Held::There(v) => *v,
        }
    }

    /// The value as one's own.
    ///
    /// # Errors
    ///
    /// Only for want of memory.
    pub fn taken(self, alloc: Global) -> Result<Value, AllocError>
        ensures { IfOk result (λ v. v ≡ self.entry) }
    {
        match self.held {
            Held::Own(v) => Ok(v),
            Held::There(v) => copied(alloc, v),
        }
    }

    /// `f[a]`, for this function.
    ///
    /// # Errors
    ///
    /// For want of memory, where this isn't a function, and where `a` is outside its domain.
    pub fn at(self, alloc: Global, place: Place, a: &Value) -> Result<Got<'v>, EvalStop>
        ensures { Tells result (strict_value bounded apply place (self.entry ∷ a.now ∷ [])) }
    {
        match self.held {
            Held::Own(f) => {
                let v = copied(alloc, applied(place, &f, a)?)?;
                Ok(Got::own(v))
            }
            Held::There(f) => {
                let v = applied(place, f, a)?;
                Ok(Got::there(v))
            }
        }
    }

    /// `f.x`, for this function.
    ///
    /// # Errors
    ///
    /// For want of memory, where this isn't a function, and where the string is outside its domain.
    pub fn field(self, alloc: Global, place: Place, x: &Name) -> Result<Got<'v>, EvalStop>
        ensures { Tells result (strict_value bounded (select x.now) place (self.entry ∷ [])) }
    {
        match self.held {
            Held::Own(f) => {
                let v = copied(alloc, selected(place, &f, x)?)?;
                Ok(Got::own(v))
            }
            Held::There(f) => {
                let v = selected(place, f, x)?;
                Ok(Got::there(v))
            }
        }
    }

    /// `Head(s)`, for this sequence.
    ///
    /// # Errors
    ///
    /// For want of memory, and where this isn't a sequence or is empty.
    pub fn first(self, alloc: Global, place: Place) -> Result<Got<'v>, EvalStop>
        ensures { Tells result (standard_value bounded pure.first_of place (self.entry ∷ [])) }
    {
        match self.held {
            Held::Own(s) => first_copied(alloc, place, &s),
            Held::There(s) => first_there(place, s),
        }
    }
}

fn first_copied<'v>(alloc: Global, place: Place, s: &Value) -> Result<Got<'v>, EvalStop>
    ensures { Tells result (standard_value bounded pure.first_of place (s.now ∷ [])) }
{
    let v = copied(alloc, head(place, s)?)?;
    Ok(Got::own(v))
}

fn first_there<'v>(place: Place, s: &'v Value) -> Result<Got<'v>, EvalStop>
    ensures { Tells result (standard_value bounded pure.first_of place (s.now ∷ [])) }
{
    let v = head(place, s)?;
    Ok(Got::there(v))
}

/// The values as one's own.
///
/// # Errors
///
/// Only for want of memory.
pub fn all_taken<'x>(alloc: Global, mut values: Vec<Got<'x>>) -> Result<Vec<Value>, AllocError>
    ensures { IfOk result (λ r. r.items ≡ values.entry.items) }
{
    let mut all = Vec::new(alloc);
    while let Some(v) = values.pop() {
        all.push(v.taken(alloc)?)?;
    }
    all.reverse();
    Ok(all)
}
