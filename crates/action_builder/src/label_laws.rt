//! What the written action of a label says, in the scope of the written names, as what functions without a body ensure.
//!
//! In that scope every variable of the translation stands for itself, as in the written module. With written names put in, and the
//! variables of a process at its identifier, each routine's names mean in it what they mean in the routine.

ghost use Rattle.std.specs.Prelude.{◌↔◌, ◌≡◌, List, Bool, Some, Ok, Err};
ghost use Rattle.tla_tree.specs.Tree.{Word};
ghost use Rattle.tla_value.specs.Value.{Value, Trouble, Outcome, TrueExactly};
ghost use Rattle.tla_value.specs.Stops.{plain};
ghost use Rattle.tla_value.specs.Definitions.{Valuation, Definition};
ghost use Rattle.tla_value.specs.Outside.{Outside};
ghost use Rattle.module_tree.specs.ActionTruth.{items_hold};
ghost use Rattle.pcal_tree.specs.Algorithm.{Algorithm};
ghost use Rattle.pcal_tree.specs.Scope.{State};
ghost use Rattle.pcal_tree.specs.Run.{Has};
ghost use Rattle.pcal_tree.specs.Program.{Program, Actor};
ghost use Rattle.pcal_tree.specs.Programs.{program_in};
ghost use Rattle.pcal_tree.specs.Processes.{OneOf};
ghost use Rattle.pcal_tree.specs.StepStart.{at_label};
ghost use Rattle.pcal_tree.specs.Step.{Stand, pc_of, routines_of, StandsAt, StepFrom, course_of};
ghost use Rattle.pcal_tree.specs.Variables.{vars};
ghost use Rattle.action_builder.specs.LabelActions.{items_from};
ghost use Rattle.action_builder.specs.Prepared.{none};
ghost use Rattle.action_builder.specs.laws.Settling.{Callable};
ghost use Rattle.action_builder.specs.laws.Ready.{Readable, values_of};
ghost use Rattle.action_builder.specs.laws.LabelSteps.{IsPrepared, IsReady, HasOutcome};
ghost use Rattle.action_builder.specs.laws.WrittenScope.{NamesApart};
ghost use Rattle.action_builder.specs.laws.StepsOfLabels.{step_of, pair_env, NamesGiven, PcStands};

/// The step from a label with written names, in their scope, has the outcomes that the process's step from there has: where
/// written names are apart from one another and from what has a name already, macro calls capture nothing, and what is read is seen.
pub fn steps_with_written_names_are_the_steps()
    ensures { (P : Program) (extra : List Definition) (v : Actor) (d : Stand) (names : Word → Bool) (callable : Callable) → P.check ≡ plain → NamesApart P extra v d.routine → NamesGiven P extra d
        → (s : State) (r : Outcome State) → (HasOutcome none (step_of P extra v d names callable) s s r ↔ Has (course_of P v d s) r) }
{}

/// The action of a label, with its test of pc, is true of a pair of states exactly where the process steps from that label from
/// the first to the second, else false: where pc can be read, the step can be written, and nothing that it reaches is in trouble.
pub fn actions_of_labels_are_true_of_their_steps()
    ensures { (o : Outside) (g : Algorithm) (values : Valuation) (extra : List Definition) (v : Actor) (d : Stand) → NamesApart (program_in plain o g values) extra v d.routine → PcStands (program_in plain o g values) v
        → (t s : State) (w : Value) → pc_of v s ≡ Ok w → OneOf d.routine (routines_of (program_in plain o g values) v) → at_label d.routine d.label ≡ Some d.begins → NamesGiven (program_in plain o g values) extra d
        → (binds : Word → Bool) (callable : Callable) → IsPrepared (step_of (program_in plain o g values) extra v d binds callable)
        → (U : Readable) → IsReady U (vars (program_in plain o g values)) (pair_env (program_in plain o g values) extra v) none (step_of (program_in plain o g values) extra v d binds callable)
        → ((q : Trouble) → StandsAt (program_in plain o g values) s v d → Has (course_of (program_in plain o g values) v d s) (Err q) → ⊥)
        → TrueExactly (items_hold plain (values_of (vars (program_in plain o g values)) s) (values_of (vars (program_in plain o g values)) t) (pair_env (program_in plain o g values) extra v s t) (items_from (program_in plain o g values) d.routine d.label (Some d.begins)))
        (StepFrom (program_in plain o g values) v d s t) }
{}
