//! What was found in a text that was gone through: the first offence, and what may offend where the text is put in.

ghost use Rattle.std.specs.Prelude.{IsTrue, ℕ, ◌<◌, ◌∷◌, [], Bool, map, length, slice_index_or, cond, OnOk};
ghost use Rattle.std.specs.List.{flat_map};
ghost use Rattle.tla_token.specs.declared.rule.Rule.TheVariants as rule;
ghost use Rattle.tla_tree.specs.Tree.{Word};
ghost use Rattle.pcal_tree.specs.Offences.{offence_if};
ghost use Rattle.pcal_tree.specs.OffencesRebind.{naming, brought, rebound, rebound_all};
ghost use Rattle.pcal_tree.specs.laws.MacroBindings.{beneath, offences_where};
ghost use Rattle.declared_rules.specs.declared.binding.Binding.{Binding as PureBinding};
ghost use Rattle.declared_rules.specs.Telling.{binding_of, IsEarlier, IsNew, Gains, Adds};

use crate::binding::Binding;
use crate::sight::Sight;
use algorithm_limits::bound::Bound;
use algorithm_limits::order::or_offence;
use indexmap::IndexSet;
use std::alloc::{AllocError, Global};
use tla_token::{Place, Refusal, Rule};
use tla_tree::{Name, PlacedName};

// Among how many of what is kept a name is looked for that tells another.
const MANY: usize = 16;

/// The names that are bound around what is met next; the first offence that was found, which rests on nothing around the text; and
/// what may offend in a scope, each once.
#[derive(Drop)]
pub struct Walk {
    pub bound: Bound,
    pub first: Option<Refusal>,
    pub free: IndexSet<Binding>,
}

impl Walk {
    /// Nothing was found, and no name is bound.
    pub fn new(alloc: Global) -> Walk
        ensures { IsNew result }
    {
        Walk {
            bound: Bound::new(alloc),
            first: None,
            free: IndexSet::new(alloc),
        }
    }

    /// An offence at a place, if it is one.
    pub fn offence(&mut self, is_offence: bool, place: Place)
        ensures { Gains self.old self.new (λ ms s. offence_if is_offence rule.Rebind place) }
    {
        self.first = or_offence(self.first, is_offence, Rule::Rebind, place);
    }

    // What may offend.
    fn keep(&mut self, binding: Binding) -> Result<(), AllocError>
        ensures { OnOk result (Gains self.old self.new (λ ms s. offences_where ms s (binding_of binding))) }
    {
        self.free.insert(binding)?;
        Ok(())
    }

    // Whether one of the first names that are kept is the same, bound no later: where this one offends, that one does.
    fn is_told(&self, name: &PlacedName) -> bool
        ensures tells { IsTrue result → Gains self.now self.now (λ ms s. rebound ms s name.now) }
        ensures looks { (k : ℕ) (d : PureBinding) → k < 16 → k < length self.now.free.keys → IsEarlier (slice_index_or self.now.free.keys k d) name.now → IsTrue result }
    {
        let list = self.free.as_slice();
        for i in 0..list.len() {
            if i == MANY {
                return false;
            }
            if list[i].is_earlier(name) {
                return true;
            }
        }
        false
    }

    /// A name that is bound.
    ///
    /// # Errors
    ///
    /// Only for want of memory.
    pub fn name(&mut self, sight: &Sight, name: &PlacedName) -> Result<(), AllocError>
        ensures { OnOk result ((K : Word → Bool) → Adds sight.now K self.old self.new (λ ms r. rebound ms r name.now)) }
    {
        let bound = self.bound.has(&name.name);
        self.offence(sight.rebinds(bound, &name.name), name.place);
        if self.is_told(name) {
            return Ok(());
        }
        self.keep(Binding::Bound(name.copied()?))
    }

    // A name under each of those that are bound.
    fn under_bound(&mut self, name: &Name) -> Result<(), AllocError>
        ensures { OnOk result (Gains self.old self.new (λ ms s. flat_map (offences_where ms s) (map (beneath name.now) self.old.bound))) }
    {
        let count = self.bound.len();
        for i in 0..count {
            let under = self.bound.at(i).copied()?;
            self.keep(Binding::Beneath(name.copied()?, under))?;
        }
        Ok(())
    }

    /// A name that is used, for which other text may be put in.
    ///
    /// # Errors
    ///
    /// Only for want of memory.
    #[tactic(auto, using(crate::proofs::LeafLaws::closed_standing))]
    pub fn standing(&mut self, sight: &Sight, name: &Name) -> Result<(), AllocError>
        ensures { OnOk result ((K : Word → Bool) → Adds sight.now K self.old self.new (λ ms r. rebound_all ms r (cond (K name.now) (brought r name.now) []))) }
    {
        let lets = sight.lets(&self.bound, name);
        if lets {
            self.keep(Binding::Standing(name.copied()?))?;
            self.under_bound(name)?;
        }
        Ok(())
    }

    /// The same where this name is bound besides, and no other matters.
    ///
    /// # Errors
    ///
    /// Only for want of memory.
    pub fn beneath(&mut self, sight: &Sight, name: &Name, under: &Name) -> Result<(), AllocError>
        ensures { OnOk result ((K : Word → Bool) → Adds sight.now K self.old self.new (λ ms r. rebound_all ms (naming (under.now ∷ []) []) (cond (K name.now) (brought r name.now) []))) }
    {
        let lets = sight.lets(&self.bound, name);
        if lets {
            self.keep(Binding::Beneath(name.copied()?, under.copied()?))?;
        }
        Ok(())
    }

    /// Names that are bound.
    ///
    /// # Errors
    ///
    /// Only for want of memory.
    pub fn names(&mut self, sight: &Sight, names: &[PlacedName]) -> Result<(), AllocError>
        ensures { OnOk result ((K : Word → Bool) → Adds sight.now K self.old self.new (λ ms r. rebound_all ms r names.now)) }
    {
        for name in names {
            self.name(sight, name)?;
        }
        Ok(())
    }
}
