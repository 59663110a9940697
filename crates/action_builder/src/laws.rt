//! What the written actions say, as what functions without a body ensure.
//!
//! The passes are, in this order: macro calls are written out, names are given, jumps are settled, the variables of a
//! process are put at its identifier, and then items are written, with assigned variables primed. The first is the law
//! `written_out_macros_run_the_same` of pcal_tree, with `written_out_steps_begin_alike` here for where a step begins; all
//! other laws here are of statements with written names and without macro calls, as expansion and naming leave them.

ghost use Rattle.std.specs.Prelude.{◌≡◌, ◌↔◌, List, Bool, true};
ghost use Rattle.tla_token.specs.declared.place.Place.{Place};
ghost use Rattle.tla_tree.specs.Tree.{Word, Tree};
ghost use Rattle.tla_value.specs.Value.{Value, NotFalse, IsBad, TrueExactly};
ghost use Rattle.tla_value.specs.Stops.{Check, plain};
ghost use Rattle.tla_value.specs.Meaning.{Env, just, bind, eval};
ghost use Rattle.tla_value.specs.laws.CanonicalNames.{Keeping, Sound, MeansAlike, TestsByValue};
ghost use Rattle.tla_value.specs.laws.Grafting.{In};
ghost use Rattle.tla_value.specs.Grafts.{owned};
ghost use Rattle.tla_value.specs.Definitions.{Valuation};
ghost use Rattle.module_tree.specs.Module.{Items};
ghost use Rattle.module_tree.specs.ActionTruth.{items_hold};
ghost use Rattle.pcal_tree.specs.Algorithm.{Statements, Macro, Assignments, Routine};
ghost use Rattle.pcal_tree.specs.Scope.{State, Scope};
ghost use Rattle.pcal_tree.specs.Run.{Rules, Follow, run, exit_to, unlabelled};
ghost use Rattle.pcal_tree.specs.StepStart.{begin};
ghost use Rattle.pcal_tree.specs.Expand.{graft_all, expanded, written_out, expand_begin};
ghost use Rattle.pcal_tree.specs.laws.Expansion.{Calls, Clean, FineCall, BareBodies, AnyPlace};
ghost use Rattle.pcal_tree.specs.Program.{Program, Actor};
ghost use Rattle.pcal_tree.specs.Calls.{rules_without_macros};
ghost use Rattle.action_builder.specs.Assigned.{Names, more, assigned_in};
ghost use Rattle.action_builder.specs.laws.States.{value_after, SameOn, BadSomewhere};
ghost use Rattle.action_builder.specs.laws.Ready.{LeftSides, Readable, holds_on};
ghost use Rattle.action_builder.specs.laws.Scopes.{IsPlain as Plain, Inner, StandsAtPath, own_scope, own_path, Whole};
ghost use Rattle.action_builder.specs.laws.Settling.{to_end, Callable, Tidy, CloseCourses, DoesAsRules};
ghost use Rattle.action_builder.specs.Jumps.{InitialValues, JumpPlaces, written_jumps};
ghost use Rattle.action_builder.specs.laws.Jumps.{callable, callable_in_pairs, RoutinesStandWithin, PairsStand};
ghost use Rattle.action_builder.specs.Settled.{WrittenJumps, settled};
ghost use Rattle.action_builder.specs.laws.LabelSteps.{LabelStep, prepared_of, items_of, action_of, IsPrepared, IsReady, EndsIn, IsTroubled, StepsTo, MeetsTrouble};
ghost use Rattle.action_builder.specs.Prepared.{none};
ghost use Rattle.action_builder.specs.Written.{except_of, old_stack};
ghost use Rattle.action_builder.specs.SingleProcess.{in_place_of, graft_items};
ghost use Rattle.action_builder.specs.laws.Grafts.{ClearItems, IsListed};
ghost use Rattle.tla_value.specs.laws.Places.{AgreeButPlaces, ChecksButPlaces, EnvsButPlaces};
ghost use Rattle.module_tree.specs.laws.ItemPlaces.{ItemsButPlaces};
ghost use Rattle.action_builder.specs.laws.Sample as sample;

/// The items that are written for a step where the variables of A are assigned already, on a pair of states. Where no
/// outcome of the step is trouble, they are true exactly if it ends in a state that agrees with the second on what is
/// assigned, else false. Whether or not it meets trouble: where they are true, it ends so, and where it ends so, they are
/// true or fault. They fault for some second state with the values that are new already exactly if it meets trouble, and
/// read of the second state only what is assigned.
pub fn items_are_true_of_the_ends_of_a_step()
    ensures exactly { (d : LabelStep) → IsPrepared d → (U : Readable) (vs : List Word) (env : State → State → Env) (A : Names) → IsReady U vs env A d → (s t : State)
        → (IsTroubled A d s t → ⊥) → TrueExactly (holds_on vs env (items_of vs A d) s t) (EndsIn A d s t) }
    ensures ends { (d : LabelStep) → IsPrepared d → (U : Readable) (vs : List Word) (env : State → State → Env) (A : Names) → IsReady U vs env A d → (s t : State)
        → holds_on vs env (items_of vs A d) s t ≡ Ok true → EndsIn A d s t }
    ensures holds { (d : LabelStep) → IsPrepared d → (U : Readable) (vs : List Word) (env : State → State → Env) (A : Names) → IsReady U vs env A d → (s t : State)
        → EndsIn A d s t → NotFalse (holds_on vs env (items_of vs A d) s t) }
    ensures faults { (d : LabelStep) → IsPrepared d → (U : Readable) (vs : List Word) (env : State → State → Env) (A : Names) → IsReady U vs env A d → (s t : State)
        → (BadSomewhere A t (holds_on vs env (items_of vs A d) s) ↔ IsTroubled A d s t) }
    ensures reads { (d : LabelStep) (U : Readable) (vs : List Word) (env : State → State → Env) (A : Names) → IsReady U vs env A d → (s t u : State)
        → SameOn (more A (assigned_in (prepared_of d))) t u → (b : Bool) → holds_on vs env (items_of vs A d) s t ≡ Ok b → holds_on vs env (items_of vs A d) s u ≡ Ok b }
{}

/// The action of a step, which ends with UNCHANGED, on a pair of states. Where no outcome of the step is trouble, it is
/// true exactly if the step leads from the first to the second, else false. Whether or not the step meets trouble: where
/// the action is true, the step leads there, and where it leads there, the action is true or faults. The action faults for
/// some second state exactly if the step meets trouble.
pub fn actions_are_true_of_steps()
    ensures exactly { (d : LabelStep) → IsPrepared d → (U : Readable) (vs : List Word) (env : State → State → Env) → IsReady U vs env none d → (s t : State)
        → (MeetsTrouble d s → ⊥) → TrueExactly (holds_on vs env (action_of vs d) s t) (StepsTo vs d s t) }
    ensures leads { (d : LabelStep) → IsPrepared d → (U : Readable) (vs : List Word) (env : State → State → Env) → IsReady U vs env none d → (s t : State)
        → holds_on vs env (action_of vs d) s t ≡ Ok true → StepsTo vs d s t }
    ensures holds { (d : LabelStep) → IsPrepared d → (U : Readable) (vs : List Word) (env : State → State → Env) → IsReady U vs env none d → (s t : State)
        → StepsTo vs d s t → NotFalse (holds_on vs env (action_of vs d) s t) }
    ensures faults { (d : LabelStep) → IsPrepared d → (U : Readable) (vs : List Word) (env : State → State → Env) → IsReady U vs env none d → (s : State)
        → (((u : State) × IsBad (holds_on vs env (action_of vs d) s u)) ↔ MeetsTrouble d s) }
{}

/// Statements whose jumps, loops, calls and returns are written as assignments have the ends of the statements
/// as they are, and trouble where these have trouble.
pub fn settled_statements_have_the_same_ends()
    ensures { (M : Rules) (W : WrittenJumps) (f : Word → Bool) (g : Callable) (sc : Scope) → DoesAsRules M W (Inner f sc) (In f) g → (here l : Word) (ss : Statements) → Tidy (In f) g ss
        → CloseCourses (run M unlabelled (settled W here l ss) sc to_end) (run M here ss sc (exit_to M l)) }
{}

/// The assignments written for the jumps, calls and returns of a routine, at any places, which are the same for all
/// processes, do what the rules of a step say; so do those for a call that is one statement with a `return`, where
/// written names are apart, the initial values of a procedure's variables rest on nothing that is set later, and a
/// `with` may bind the name of the old stack.
pub fn written_jumps_do_what_the_rules_say()
    ensures calls { (P : Program) (v : Actor) (u : Routine) (I : InitialValues) (places : JumpPlaces) (f : Word → Bool) (sc : Scope) → P.check ≡ plain → RoutinesStandWithin P v u I f sc
        → DoesAsRules (rules_without_macros P v u) (written_jumps P u I places) (Inner f sc) (In f) (callable P) }
    ensures pairs { (P : Program) (v : Actor) (u : Routine) (I : InitialValues) (places : JumpPlaces) (f : Word → Bool) (sc : Scope) → P.check ≡ plain → RoutinesStandWithin P v u I f sc
        → f old_stack ≡ true → PairsStand P v u → DoesAsRules (rules_without_macros P v u) (written_jumps P u I places) (Inner f sc) (In f) (callable_in_pairs P) }
{}

/// With the variables of a process written as functions of its identifier, statements take the courses that they
/// take where these variables are at the identifier; and there they are, read and assigned.
pub fn own_variables_stand_at_the_identifier()
    ensures courses { (M : Rules) (self : Word) (own : Word → Bool) (here : Word) (ss : Statements) (sc : Scope) → AnyPlace sc → Clean M.check (owned self own) ss → (K : Follow)
        → run M here (graft_all (owned self own) ss) sc K ≡ run M here ss (own_scope M.check self own sc) K }
    ensures there { (c : Check) (V : Word → Bool) (self : Word) (v : Value) (own : Word → Bool) (sc : Scope) → Whole V self v own sc → (x : Word) → V x ≡ true
        → ((at : Place) (s : State) → (sc.env s).now x at ≡ just (s x)) → StandsAtPath (own_scope c self own sc) (own_path (own x) v) x }
{}

/// The written right side of a variable has the value that the assignments to its parts give it, within any limits.
pub fn except_makes_the_changes_of_its_parts()
    ensures { (V : Names) (c : Check) (at : Place) (y : Word) (ms : Assignments) → LeftSides V ms → (sc : Scope) → Plain V sc → (s : State) → (sc.env s).now y at ≡ just (s y)
        → (eval c (except_of at y ms) (sc.env s)).value ≡ value_after c ms sc s (s y) }
{}

/// With the expression of a single process put in for `self`, which captures nothing, items have on every pair of states
/// the truth that they have where `self` is the value of the expression, or trouble of the same kind: where names stand for
/// canonical values, and the expression has that value, and tests canonical values for being its members as the value does.
/// It does so without limits wherever it has a value, if the names do. A value out of order it may test in another way; where
/// it doesn't, as a form that lists its members, nothing is asked of names.
pub fn single_processes_have_their_expression_for_self()
    ensures truth { (c : Check) → Keeping c → (self : Word) (e : Tree) (v : Value) (items : Items) → ClearItems c (in_place_of self e) items → (s t : Valuation) (env : Env)
        → Sound env → MeansAlike (eval c e env) (just v) → AgreeButPlaces (items_hold c s t env (graft_items (in_place_of self e) items)) (items_hold c s t (bind self v env) items) }
    ensures value { (e : Tree) (env : Env) → Sound env → TestsByValue env → (v : Value) → (eval plain e env).value ≡ Ok v → MeansAlike (eval plain e env) (just v) }
    ensures equal { (c : Check) (self : Word) (e : Tree) (v : Value) (items : Items) → ClearItems c (in_place_of self e) items → (s t : Valuation) (env : Env) → eval c e env ≡ just v
        → AgreeButPlaces (items_hold c s t env (graft_items (in_place_of self e) items)) (items_hold c s t (bind self v env) items) }
    ensures listed { (c : Check) (e : Tree) → IsListed e → (env : Env) (v : Value) → (eval c e env).value ≡ Ok v → eval c e env ≡ just v }
{}

/// Places in items matter to nothing but where a fault is: items that are equal, places aside, have on every pair of
/// states the same truth, or troubles of one kind.
pub fn places_in_items_matter_to_faults_alone()
    ensures { (c k : Check) → ChecksButPlaces c k → (s t : Valuation) (items others : Items) → ItemsButPlaces items others → (e f : Env) → EnvsButPlaces e f
        → AgreeButPlaces (items_hold c s t e items) (items_hold k s t f others) }
{}

/// A step from a label of the statements with macro calls written out begins with what the step from this label
/// begins with, written out.
pub fn written_out_steps_begin_alike()
    ensures { (ms : List Macro) → BareBodies ms → (l here : Word) (ss : Statements) → Calls (FineCall ms) ss → (x : Word)
        → begin l here (expanded ms ss) x ≡ expand_begin (written_out ms) (begin l here ss x) }
{}

/// The sample step meets all that these laws ask. It has a macro call, an assignment to a variable of its process, a
/// definition beside variables of its parameters' names, an `await` with a bound name, a jump and a call; and its procedure
/// may call itself in one statement with a return.
pub fn the_sample_step_meets_all_that_is_asked()
    ensures expanded { Calls (FineCall sample.macros) sample.unexpanded × BareBodies sample.macros }
    ensures jumps { RoutinesStandWithin sample.program sample.actor sample.routine sample.initials sample.step.names (own_scope plain sample.self sample.own sample.scope) }
    ensures pairs { PairsStand sample.program sample.actor sample.called }
    ensures prepared { IsPrepared sample.step }
    ensures ready { IsReady sample.any_name sample.variables sample.env none sample.step }
{}
