//! Laws of the promise, stated as what functions without a body ensure.

ghost use Rattle.std.specs.Prelude.{◌≡◌, ℕ, Bool, List};
ghost use Rattle.tla_tree.specs.Tree.{Word, Each};
ghost use Rattle.tla_value.specs.Order.{IsCanonical};
ghost use Rattle.tla_value.specs.Definitions.{Valuation};
ghost use Rattle.pcal_tree.specs.Algorithm.{Algorithm};
ghost use Rattle.pcal_tree.specs.Variables.{vars};
ghost use Rattle.module_tree.specs.Module.{Module};
ghost use Rattle.promise.specs.ConstantsAndStates.{program, variables_of};
ghost use Rattle.promise.specs.Translates.{Translates};

/// A text translates any algorithm, with any options, into one module at most.
pub fn a_translation_is_one_module()
    ensures { (n o : Bool) (x w : List ℕ) (g h : Algorithm) (a : Translates n x g w) (b : Translates o x h w) → a.module_of ≡ b.module_of }
{}

/// The names of the module's variables don't depend on the constants.
pub fn variables_are_of_no_constants()
    ensures { (g : Algorithm) (m : Module) (values : Valuation) → vars (program g m values) ≡ variables_of g m }
{}
