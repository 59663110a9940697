//! Laws of runs of whole files, stated as what functions without a body ensure.

ghost use Rattle.std.specs.Prelude.{◌≡◌, ◌⊎◌, ◌<◌, Bool, List, Option, None, length, ℕ};
ghost use Rattle.tla_token.specs.Limits.{past_text};
ghost use Rattle.tla_token.specs.declared.rule.Refusal.{Refusal};
ghost use Rattle.module_tree.specs.TextFront.{Text};
ghost use Rattle.step_runner.specs.Followed.{Stop, followed};
ghost use Rattle.translation.specs.laws.AcceptedAlgorithm.{IsAcceptedInFile};
ghost use Rattle.run_answer.specs.Chosen.{Files, Which, Right, algorithm_in, Refuses, Chosen, IsRun};
ghost use Rattle.run_answer.specs.Promised.{KeepsRun};
ghost use Rattle.tla_value.specs.Limits.{bounded};
ghost use Rattle.tla_value.specs.Stops.{plain};
ghost use Rattle.tla_value.specs.Value.{Value};
ghost use Rattle.tla_value.specs.laws.UnderLimits.{Below};
ghost use Rattle.pcal_tree.specs.Scope.{State};
ghost use Rattle.pcal_tree.specs.Program.{Program, Actor};
ghost use Rattle.pcal_tree.specs.Processes.{actors, IsActor};
ghost use Rattle.pcal_tree.specs.Script.{RunOf};
ghost use Rattle.pcal_tree.specs.StepAnswers.{stepped, start_by};
ghost use Rattle.pcal_tree.specs.Variables.{vars};
ghost use Rattle.pcal_tree.specs.laws.Steps.{StandsOnce, ReturnsInProcedures, AgreeAll};
ghost use Rattle.step_runner.specs.Script.{Script};
ghost use Rattle.run_answer.specs.LimitedRuns.{under, ReplyBelow, FollowedBelow};

/// The algorithm of a module with which nothing is wrong is accepted, and there is one such module at most.
pub fn sound_modules_are_accepted()
    ensures accepted { (forced : Bool) (x : Text) (m : Right forced x) → length x < past_text → IsAcceptedInFile m.outside (algorithm_in m) }
    ensures one { (forced : Bool) (x : Text) (m n : Right forced x) → (m.typed ≡ n.typed) × (m.outside ≡ n.outside) }
{}

/// Of three files one is refused, once, or they choose a run; and never both.
pub fn files_are_refused_or_choose_a_run()
    ensures some { (forced : Bool) (f : Files) → ((w : Which) × (r : Refusal) × Refuses forced f w r) ⊎ Chosen forced f }
    ensures not_both { (forced : Bool) (f : Files) (w : Which) (r : Refusal) → Refuses forced f w r → Chosen forced f → ⊥ }
    ensures once { (forced : Bool) (f : Files) (w v : Which) (r q : Refusal) → Refuses forced f w r → Refuses forced f v q → (w ≡ v) × (r ≡ q) }
{}

/// Files that aren't refused have one run: one text, and one stop.
pub fn files_have_one_run()
    ensures some { (forced : Bool) (f : Files) → Chosen forced f → (w : Text) × (s : Option Stop) × IsRun forced f w s }
    ensures one { (forced : Bool) (f : Files) (w v : Text) (s t : Option Stop) → IsRun forced f w s → IsRun forced f v t → (w ≡ v) × (s ≡ t) }
{}

/// A script that is followed to its end keeps the promise of a run.
pub fn runs_to_the_end_keep_the_promise()
    ensures { (forced : Bool) (f : Files) (w : Text) → length f.source < past_text → IsRun forced f w None → KeepsRun forced f w }
{}

/// Under the limits of a run the processes, a start and a step are what they are without limits, or a limit was passed.
pub fn limits_change_nothing_but_where_one_is_passed()
    ensures processes { (P : Program) → Below (actors (under bounded P)) (actors (under plain P)) }
    ensures start { (P : Program) (choices : List ℕ) → ReplyBelow (start_by (under bounded P) choices) (start_by (under plain P) choices) }
    ensures step { (P : Program) (s : State) (who : Option Value) (choices : List ℕ) → ReplyBelow (stepped (under bounded P) s who choices) (stepped (under plain P) s who choices) }
{}

/// A script that is followed within the limits is followed so without them; where it stops past one, its states are the first
/// of those without.
pub fn a_run_within_limits_is_one_without()
    ensures { (P : Program) (c : Script) → FollowedBelow (followed (under bounded P) c) (followed (under plain P) c) }
{}

/// Each run by a script is followed to its end, through states with the same values of the variables: where each `return` is in a
/// procedure and each process is at one label at most, as the rules on `return` and on reserved names ask.
pub fn each_run_by_a_script_is_followed()
    ensures { (P : Program) → ReturnsInProcedures P.algorithm → ((s : State) (v : Actor) → IsActor P v → StandsOnce P s v) → (c : Script) (ss : List State)
        → RunOf P c.choices c.turns ss → ((followed P c).stop ≡ None) × AgreeAll (vars P) (followed P c).states ss }
{}
