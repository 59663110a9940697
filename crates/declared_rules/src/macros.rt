//! What is kept of macros and procedures, and macros' own texts.

ghost use Rattle.std.specs.Prelude.{◌≡◌, ◌++◌, [], List, map, reverse, OnOk};
ghost use Rattle.tla_token.specs.Signs.{is_among};
ghost use Rattle.tla_tree.specs.Tree.{Word, words};
ghost use Rattle.pcal_tree.specs.Algorithm.{Procedure as PureProcedure};
ghost use Rattle.pcal_tree.specs.InMemory.{statements_at, macro_at, procedure_at};
ghost use Rattle.pcal_tree.specs.OffencesRebind.{any_name, naming, rebound_all, self_alone, Calls as PureCalls, body_rebinds, call_rebinds, macro_rebinds};
ghost use Rattle.declared_rules.specs.Telling.{told, Adds};
ghost use Rattle.declared_rules.specs.Keeping.{Means, KnowsCalls};
ghost use Rattle.declared_rules.specs.Macros.{macro_names, Ready, MacrosAt, MacroKept, ProcedureKept};

use crate::bind_walk::Walk;
use crate::kept::{Calls, Keeps, Kept};
use crate::sight::Sight;
use pcal_tree::algorithm::{Macro, Procedure};
use std::alloc::{AllocError, Global};
use tla_pool::Pool;
use tla_tree::PlacedName;

/// The same names once more, in a list with none.
///
/// # Errors
///
/// Only for want of memory.
pub fn add_copies(list: &mut Vec<PlacedName>, names: &[PlacedName]) -> Result<(), AllocError>
    ensures { OnOk result (list.old.items ≡ [] → list.new.items ≡ names.now) }
{
    for name in names {
        list.push(name.copied()?)?;
    }
    Ok(())
}

impl Walk {
    // A macro's own text, with its parameters in scope.
    fn text(&mut self, sight: &Sight, kept: &Kept) -> Result<(), AllocError>
        ensures { OnOk result (Adds sight.now any_name self.old self.new (λ ms r. rebound_all ms r kept.now.params.items ++ told ms kept.now.found (naming (words kept.now.params.items) r))) }
    {
        self.names(sight, &kept.params)?;
        let around = self.bound.len();
        self.bound.add_all(&kept.params)?;
        self.put(sight, &kept.params, &kept.found, &[])?;
        self.bound.truncate(around);
        Ok(())
    }

    // What is kept of a macro, where nothing is yet, and its own text.
    fn gone_through(
        &mut self,
        near: &Sight,
        far: &Sight,
        calls: &Calls,
        pool: &Pool,
        one: &Macro,
        kept: &mut Kept,
    ) -> Result<(), AllocError>
        ensures params { OnOk result (kept.old.params.items ≡ [] → kept.new.params.items ≡ one.now.params.items) }
        ensures found { OnOk result ((C : List Word → PureCalls) (ps : List PureProcedure) → KnowsCalls far.now calls.now C ps → Adds far.now any_name kept.old.found kept.new.found (λ ms r. body_rebinds ms ps (C ms) (statements_at pool.now one.now.body.items) r)) }
        ensures text { OnOk result (Adds near.now any_name self.old self.new (λ ms r. rebound_all ms r kept.new.params.items ++ told ms kept.new.found (naming (words kept.new.params.items) r))) }
    {
        add_copies(&mut kept.params, &one.params)?;
        kept.found.body(far, calls, pool, &one.body)?;
        self.text(near, kept)
    }

    // A macro: its own text, and what is kept of it for those after it.
    fn one_macro(
        &mut self,
        near: &Sight,
        far: &Sight,
        calls: &mut Calls,
        pool: &Pool,
        one: &Macro,
    ) -> Result<(), AllocError>
        ensures { OnOk result (MacroKept near.now far.now pool.now one.now self.old self.new calls.old calls.new) }
    {
        let mut kept = Kept::new(calls.alloc);
        match self.gone_through(near, far, calls, pool, one, &mut kept) {
            Ok(()) => calls.macros.add(&one.name.name, kept),
            Err(error) => {
                drop(kept);
                Err(error)
            }
        }
    }

    /// Macros: what is kept of each for those after it, and their own texts.
    ///
    /// # Errors
    ///
    /// Only for want of memory.
    pub fn macros(
        &mut self,
        near: &Sight,
        far: &Sight,
        calls: &mut Calls,
        pool: &Pool,
        list: &[Macro],
    ) -> Result<(), AllocError>
        ensures { OnOk result ((ps : List PureProcedure) → Ready near.now far.now calls.old ps (macro_names list.now) → Means far.now far.now.stands calls.old.macros (λ ms. macro_rebinds ms ps []) → MacrosAt near.now far.now ps self.old self.new calls.old calls.new (reverse (map (macro_at pool.now) list.now))) }
    {
        for i in 0..list.len() {
            self.one_macro(near, far, calls, pool, &list[i])?;
        }
        Ok(())
    }
}

impl Keeps {
    // What is kept of a procedure.
    fn procedure(
        &mut self,
        alloc: Global,
        sight: &Sight,
        pool: &Pool,
        procedure: &Procedure,
    ) -> Result<(), AllocError>
        ensures { OnOk result (ProcedureKept sight.now pool.now procedure.now self.old self.new) }
    {
        let mut kept = Kept::new(alloc);
        match kept.found.starts(sight, pool, &procedure.variables) {
            Ok(()) => self.add(&procedure.name.name, kept),
            Err(error) => {
                drop(kept);
                Err(error)
            }
        }
    }

    /// What is kept of procedures: of the initial values of their variables, in which text is put in for `self` alone.
    ///
    /// # Errors
    ///
    /// Only for want of memory.
    pub fn procedures(
        &mut self,
        alloc: Global,
        sight: &Sight,
        pool: &Pool,
        list: &[Procedure],
    ) -> Result<(), AllocError>
        ensures { OnOk result ((P : List Word) → self.old.kept.entries ≡ [] → ((x : Word) → is_among sight.now.stands x ≡ self_alone x) → Means sight.now P self.new (λ ms s x ts. call_rebinds ms (map (procedure_at pool.now) list.now) x s)) }
    {
        let count = list.len();
        for i in 0..count {
            self.procedure(alloc, sight, pool, &list[count - 1 - i])?;
        }
        Ok(())
    }
}
