//! Names that expressions bind, and names for which other text may be put in.

ghost use Rattle.std.specs.Prelude.{Bool, length, OnOk};
ghost use Rattle.tla_tree.specs.Tree.{Word, seen_names};
ghost use Rattle.tla_tree.specs.Shapes.{Shaped};
ghost use Rattle.tla_tree.specs.Pool.{at, trees_at, AllBelow};
ghost use Rattle.tla_pool.specs.FormOf.{groups_of, form_of};
ghost use Rattle.pcal_tree.specs.BoundNames.{all_of};
ghost use Rattle.pcal_tree.specs.OffencesRebind.{rebound_all, form_rebinds, tree_rebinds, parts_rebind, any_name, each_rebinds};
ghost use Rattle.declared_rules.specs.Telling.{Adds, AddsParts};

use crate::bind_walk::Walk;
use crate::sight::Sight;
use algorithm_limits::literal::ends_in_literal;
use std::alloc::AllocError;
use tla_pool::Pool;
use tla_pool::form::Form;
use tla_tree::{NodeId, PlacedName};

impl Walk {
    // Names of groups, which are bound.
    fn groups(&mut self, sight: &Sight, groups: &[Vec<PlacedName>]) -> Result<(), AllocError>
        ensures { OnOk result ((K : Word → Bool) → Adds sight.now K self.old self.new (λ ms r. rebound_all ms r (all_of (groups_of groups.now)))) }
    {
        for i in 0..groups.len() {
            self.names(sight, &groups[i])?;
        }
        Ok(())
    }

    // A form, without its parts.
    #[tactic(auto, using(crate::proofs::TellLaws::adds_none))]
    fn form(&mut self, sight: &Sight, form: &Form) -> Result<(), AllocError>
        ensures { OnOk result ((K : Word → Bool) → Adds sight.now K self.old self.new (λ ms r. form_rebinds ms K r (form_of form.now))) }
    {
        match form {
            Form::Binding(_, groups) => self.groups(sight, groups),
            Form::Local(names) => self.names(sight, names),
            Form::Name(name) => self.standing(sight, name),
            _ => Ok(()),
        }
    }

    /// An expression. It calls itself as deep as forms are in forms.
    ///
    /// # Errors
    ///
    /// Only for want of memory.
    #[cycle(exprs)]
    pub fn expr(&mut self, sight: &Sight, pool: &Pool, e: NodeId) -> Result<(), AllocError>
        ensures { OnOk result ((K : Word → Bool) → Adds sight.now K self.old self.new (λ ms r. tree_rebinds ms K (at pool.now e) r)) }
    {
        let Some(node) = pool.get(e) else {
            return Ok(());
        };
        self.form(sight, &node.form)?;
        let around = self.bound.len();
        self.parts(sight, pool, &node.form, &node.parts, e)?;
        self.bound.truncate(around);
        Ok(())
    }

    // The parts of a form, which have smaller numbers than this; what it binds is bound then, unless just a literal is left.
    #[cycle(exprs)]
    fn parts(
        &mut self,
        sight: &Sight,
        pool: &Pool,
        form: &Form,
        parts: &[NodeId],
        past: NodeId,
    ) -> Result<(), AllocError>
        requires there { AllBelow past parts.now }
        requires shaped { Shaped (form_of form.now) (length parts.now) }
        ensures { OnOk result ((K : Word → Bool) → AddsParts sight.now K self.old self.new (λ ms r. parts_rebind ms K (seen_names (form_of form.now)) (trees_at pool.now parts.now) r)) }
    {
        for i in 0..parts.len() {
            self.expr(sight, pool, parts[i])?;
            if ends_in_literal(pool, parts, i) {
                return Ok(());
            }
            self.bound.add_next(form, i)?;
        }
        Ok(())
    }

    /// Expressions.
    ///
    /// # Errors
    ///
    /// Only for want of memory.
    pub fn exprs(&mut self, sight: &Sight, pool: &Pool, es: &[NodeId]) -> Result<(), AllocError>
        ensures { OnOk result (Adds sight.now any_name self.old self.new (λ ms r. each_rebinds ms (trees_at pool.now es.now) r)) }
    {
        for i in 0..es.len() {
            self.expr(sight, pool, es[i])?;
        }
        Ok(())
    }
}
