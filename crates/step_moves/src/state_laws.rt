//! What a state in memory stands for, stated as what functions without a body ensure.

ghost use Rattle.std.specs.Prelude.{◌≡◌, List};
ghost use Rattle.tla_tree.specs.Tree.{Word};
ghost use Rattle.tla_value.specs.States.{Entries, value_of};
ghost use Rattle.action_builder.specs.laws.Ready.{values_of};
ghost use Rattle.step_moves.specs.StatesOf.{state_of, HasJust};

/// Where just some names have values in memory, these are their values in the state that it stands for.
pub fn values_in_memory_are_those_of_the_state()
    ensures { (xs : List Word) (m : Entries) → HasJust xs m → value_of m ≡ values_of xs (state_of m) }
{}
