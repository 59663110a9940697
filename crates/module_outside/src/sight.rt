//! What a unit outside may use: modules and constants of the whole file, and the definitions that were read before it.

ghost use Rattle.std.specs.Prelude.{◌≡◌, ◌+◌, ◌++◌, ◌∷◌, [], ◌<◌, ◌≤◌, ◌^◌, length, OnOk, IfOk};
ghost use Rattle.tla_tree.specs.Tree.{words};
ghost use Rattle.tla_value.specs.Definitions as pure;
ghost use Rattle.tla_value.specs.DefinitionNesting.{depths, definition_nests};
ghost use Rattle.module_tree.specs.Outside as pure_sight;
ghost use Rattle.module_outside.specs.SightIn.{Sees, used_depth};
ghost use Rattle.tla_pool.specs.FormOf.{form_of};

use crate::modules::{Modules, modules_among};
use algorithm_limits::bound::Bound;
use algorithm_limits::table::Table;
use std::alloc::{AllocError, Global};
use tla_pool::form::Form;
use tla_tree::{Name, PlacedName};

/// What a unit outside may use.
#[derive(Drop)]
pub struct Sight {
    /// The standard modules that are extended.
    pub modules: Modules,
    /// The names of the constants.
    pub constants: Bound,
    /// How many parameters each definition has, and one more.
    pub arities: Table,
    /// How deep a use of each definition nests.
    pub depths: Table,
}

impl Sight {
    /// These modules and constants are seen, and no definition.
    ///
    /// # Errors
    ///
    /// Only for want of memory.
    pub fn new(
        alloc: Global,
        extended: &[PlacedName],
        constants: &[PlacedName],
    ) -> Result<Sight, AllocError>
        ensures { IfOk result (λ s. Sees s (record { modules = words extended.now; constants = words constants.now; earlier = [] })) }
    {
        let mut names = Bound::new(alloc);
        names.add_all(constants)?;
        Ok(Sight {
            modules: modules_among(extended),
            constants: names,
            arities: Table::new(alloc),
            depths: Table::new(alloc),
        })
    }

    /// One more definition is seen: with so many parameters, and nesting so deep.
    ///
    /// # Errors
    ///
    /// Only for want of memory.
    pub fn define(&mut self, title: &Name, params: usize, depth: usize) -> Result<(), AllocError>
        requires small { depth ≤ 500 }
        requires params { params < 2 ^ 63 }
        ensures { OnOk result ((v : pure_sight.Sight) (d : pure.Definition) → Sees self.old v → d.title ≡ title.now → length d.params ≡ params → definition_nests (depths [] v.earlier) d ≡ depth → Sees self.new (record { modules = v.modules; constants = v.constants; earlier = v.earlier ++ d ∷ [] })) }
    {
        self.arities.set(title.copied()?, params + 1)?;
        self.depths.set(title.copied()?, depth + 1)?;
        Ok(())
    }

    // How deep what a form names nests.
    pub fn use_depth(&self, form: &Form) -> usize
        ensures { result ≡ used_depth self.now.depths (form_of form.now) }
    {
        match form {
            Form::Name(name) => self.depths.get(name),
            Form::Call(name) => self.depths.get(name),
            _ => 0,
        }
    }
}
