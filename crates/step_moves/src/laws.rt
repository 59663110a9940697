//! Scopes of the written names, stated as what functions without a body ensure.

ghost use Rattle.std.specs.Prelude.{◌≡◌, ◌∷◌, ◌++◌, [], List, length, Some, None};
ghost use Rattle.tla_tree.specs.Tree.{Word};
ghost use Rattle.tla_value.specs.Value.{Value};
ghost use Rattle.module_tree.specs.Formulas.{self};
ghost use Rattle.pcal_tree.specs.Scope.{bound};
ghost use Rattle.pcal_tree.specs.Program.{Program, Actor, common_env};
ghost use Rattle.action_builder.specs.laws.WrittenScope.{written_scope};
ghost use Rattle.step_moves.specs.ScopeIn.{scope_in};
ghost use Rattle.tla_value.specs.States.{value_of};
ghost use Rattle.tla_value.specs.Definitions.{no_state, scope_of};
ghost use Rattle.tla_value.specs.Defs.{definitions_at};
ghost use Rattle.tla_value.specs.Limits.{bounded};
ghost use Rattle.step_moves.specs.declared.program.Program as code;
ghost use Rattle.step_moves.specs.declared.sight.Sight.{Sight};
ghost use Rattle.step_moves.specs.Programs.{program_at, IsWhole};
ghost use Rattle.step_moves.specs.Sights.{seen_value};

/// The scope of the written names binds `self` where a process has an identifier, and a `with` binds one name more.
pub fn names_are_bound_one_after_another()
    ensures alone { (P : Program) (v : Actor) → v.self ≡ None → written_scope P [] v ≡ scope_in P [] [] }
    ensures process { (P : Program) (v : Actor) (w : Value) → v.self ≡ Some w → written_scope P [] v ≡ scope_in P (self ∷ []) (w ∷ []) }
    ensures more { (P : Program) (xs : List Word) (vs : List Value) (x : Word) (v : Value) → length xs ≡ length vs → bound x v (scope_in P xs vs) ≡ scope_in P (xs ++ x ∷ []) (vs ++ v ∷ []) }
{}

/// Where an expression of an algorithm is evaluated with all definitions, and with constants for names, it is as before the first state; with the
/// values of variables before those of constants, it is as in the state that they are.
pub fn expressions_are_seen_alike()
    ensures before { (p : code.Program) → IsWhole p → scope_of bounded (value_of p.constants.now) (definitions_at p.pool.now p.defs.now) no_state no_state ≡ common_env (program_at p) no_state }
    ensures state { (p : code.Program) (g : Sight) → IsWhole p → g.constants.now ≡ p.constants.now → scope_of bounded (seen_value g) (definitions_at p.pool.now p.defs.now) no_state no_state ≡ common_env (program_at p) (value_of g.variables.now) }
{}
