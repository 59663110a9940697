//! Laws of steps as code makes them in one walk, as what functions without a body ensure.

ghost use Rattle.std.specs.Prelude.{◌≡◌, List, ◌++◌, map, reverse, Bool, false, cond, Some};
ghost use Rattle.std.specs.List.{AllByRecursion};
ghost use Rattle.tla_tree.specs.Tree.{Word};
ghost use Rattle.pcal_tree.specs.Algorithm.{Span, Statement, Statements, then, Routine, Algorithm};
ghost use Rattle.pcal_tree.specs.Expand.{followed_by, expanded};
ghost use Rattle.pcal_tree.specs.OffencesLabels.{label_words};
ghost use Rattle.pcal_tree.specs.Program.{Program};
ghost use Rattle.pcal_tree.specs.Run.{unlabelled};
ghost use Rattle.pcal_tree.specs.StepStart.{at_label};
ghost use Rattle.pcal_tree.specs.Variables.{vars};
ghost use Rattle.action_builder.specs.Assigned.{Names, more, assigned_in};
ghost use Rattle.action_builder.specs.InitialFormulas.{init};
ghost use Rattle.action_builder.specs.LabelActions.{actions};
ghost use Rattle.action_builder.specs.NextFormula.{next};
ghost use Rattle.action_builder.specs.OwnVariables.{is_own_variable};
ghost use Rattle.action_builder.specs.Settled.{WrittenJumps, jumps_one, jumps, settled};
ghost use Rattle.action_builder.specs.Written.{onto, write};
ghost use Rattle.action_builder.specs.laws.Jumps.{AllUnlike};
ghost use Rattle.step_forms.specs.LeftOver.{left_over};
ghost use Rattle.step_forms.specs.Opened.{opened_program, IsOpenable};
ghost use Rattle.step_forms.specs.Steps.{Step, steps, actions_by_steps};

/// A settled list is what is left of it, and behind that, where it does not jump itself, the jump to what follows it. A
/// statement that does not jump stays before what is left of the rest. Items of two lists without jumps in the first are those of the
/// first and then those of the second, with what the first assigns.
pub fn lists_are_settled_and_written_in_order()
    ensures settled { (W : WrittenJumps) (here l : Word) (ss : Statements) → settled W here l ss ≡ cond (jumps ss) (left_over W here l ss) (followed_by (left_over W here l ss) (W.goto l)) }
    ensures past { (W : WrittenJumps) (here l : Word) (at : Span) (st : Statement) (rest : Statements) → jumps_one st ≡ false → left_over W here l (then at st rest) ≡ then at st (left_over W unlabelled l rest) }
    ensures assigned { (a b : Statements) → jumps a ≡ false → assigned_in (followed_by a b) ≡ assigned_in a ++ assigned_in b }
    ensures written { (vs : List Word) (A : Names) (a b : Statements) → jumps a ≡ false → write vs A (followed_by a b) ≡ onto (write vs A a) (write vs (more A (assigned_in a)) b) }
{}

/// The steps of a body, in one walk, have its labels in the order of the text; and where no two labels are the same, each begins with
/// what the step from its label begins with.
pub fn steps_are_walked_once()
    ensures labels { (here : Word) (ss : Statements) (x : Word) → map (λ (s : Step). s.label) (steps here ss x) ≡ label_words ss }
    ensures begins { (u : Routine) → AllUnlike (label_words u.body) → AllByRecursion (λ (s : Step). at_label u s.label ≡ Some s.begins) (steps unlabelled u.body u.exit) }
{}

/// Macro calls are written out once: what is written out has none. Where no rule on labels is broken and each macro has a statement, all is written of the
/// algorithm with its macro calls written out that is written of the algorithm as it is: the variables, the actions, which are those of steps in one walk, Init and Next.
pub fn macro_calls_are_written_out_once()
    ensures again { (a : Algorithm) (ss : Statements) → expanded (reverse a.macros) (expanded (reverse a.macros) ss) ≡ expanded (reverse a.macros) ss }
    ensures variables { (P : Program) → vars (opened_program P) ≡ vars P }
    ensures own { (P : Program) → is_own_variable (opened_program P) ≡ is_own_variable P }
    ensures actions { (P : Program) → IsOpenable P.algorithm → actions (opened_program P) ≡ actions P }
    ensures steps { (P : Program) → IsOpenable P.algorithm → actions_by_steps (opened_program P) ≡ actions P }
    ensures init { (P : Program) → IsOpenable P.algorithm → init (opened_program P) ≡ init P }
    ensures next { (b : Bool) (P : Program) → IsOpenable P.algorithm → next b (opened_program P) ≡ next b P }
{}
