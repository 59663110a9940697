//! What is the same wherever it is looked: which names may not be bound again, and for which names other text may be put in.

ghost use Rattle.std.specs.Prelude.{◌≡◌, ◌==◌, ◌&&◌, not, List};
ghost use Rattle.std.specs.List.{list_any};
ghost use Rattle.std.specs.Cmp.Lexicographic.{pointwise};
ghost use Rattle.tla_tree.specs.Tree.{Word};
ghost use Rattle.module_outside.specs.ModulesIn.{AreModules};
ghost use Rattle.pcal_tree.specs.OffencesRebind.{may_rebind};

use algorithm_limits::bound::Bound;
use module_outside::modules::Modules;
use tla_token::word::is_among;
use tla_tree::Name;

/// The names that the translation defines itself.
static OWN: [&str; 11] = [
    "vars",
    "pc",
    "stack",
    "self",
    "Init",
    "Next",
    "Spec",
    "Terminating",
    "Termination",
    "ProcSet",
    "defaultInitValue",
];

/// The standard modules that are extended, and the names for which other text may be put in.
#[derive(Drop)]
pub struct Sight {
    pub modules: Modules,
    pub stands: Bound,
}

impl Sight {
    /// Whether a name that is bound offends, where it is in scope or isn't; own and standard names are another rule's.
    #[tactic(auto, using(crate::proofs::ScopeLaws::rebinds_in, crate::proofs::ScopeLaws::not_rebinds))]
    pub fn rebinds(&self, in_scope: bool, name: &Name) -> bool
        ensures { (ms : List Word) → AreModules self.now.modules ms → result ≡ (in_scope && may_rebind ms name.now) }
    {
        if !in_scope {
            return false;
        }
        !(is_among(&OWN, name.bytes()) || self.modules.is_standard(name.bytes()))
    }

    /// Whether other text may be put in for a name, where these are bound.
    pub fn lets(&self, bound: &Bound, name: &Name) -> bool
        ensures { result ≡ (list_any (pointwise ◌==◌ name.now) self.now.stands && not (list_any (pointwise ◌==◌ name.now) bound.now)) }
    {
        let stands = self.stands.has(name);
        let is_bound = bound.has(name);
        stands && !is_bound
    }
}
