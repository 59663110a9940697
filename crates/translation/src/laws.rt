//! Laws of the written module, stated as what functions without a body ensure.

ghost use Rattle.std.specs.Prelude.{◌≡◌, ℕ, List, [], Bool, true, false, not, Some, None, map, reverse, length, ◌<◌};
ghost use Rattle.tla_tree.specs.Tree.{Word};
ghost use Rattle.tla_value.specs.Outside.{Outside};
ghost use Rattle.module_tree.specs.Module.{test, item, Module};
ghost use Rattle.module_tree.specs.Reading.{Reads};
ghost use Rattle.pcal_tree.specs.Algorithm.{Statements, Routine, locals, procedure_routines, main_routines, routines, Definition, Algorithm};
ghost use Rattle.pcal_tree.specs.OffencesNames.{repeated_names};
ghost use Rattle.pcal_tree.specs.OffencesReserved.{reserved_declared};
ghost use Rattle.pcal_tree.specs.OffencesLabels.{label_words, label_offences};
ghost use Rattle.pcal_tree.specs.OffencesSteps.{call_effect, effects_in};
ghost use Rattle.pcal_tree.specs.laws.Apart.{FewNames, AreNames};
ghost use Rattle.pcal_tree.specs.Processes.{OneOf, IsActor};
ghost use Rattle.std.specs.Bool.{IsTrue};
ghost use Rattle.std.specs.List.{AllByRecursion};
ghost use Rattle.tla_token.specs.Words.{is_own};
ghost use Rattle.action_builder.specs.laws.Jumps.{AllUnlike};
ghost use Rattle.pcal_tree.specs.Scope.{Scope};
ghost use Rattle.pcal_tree.specs.Run.{Rules};
ghost use Rattle.pcal_tree.specs.StepStart.{Begin};
ghost use Rattle.pcal_tree.specs.Program.{Program, Actor};
ghost use Rattle.pcal_tree.specs.Placeless.{placeless};
ghost use Rattle.pcal_tree.specs.Names.{naming};
ghost use Rattle.pcal_tree.specs.Programs.{program_in};
ghost use Rattle.action_builder.specs.laws.Ready.{};
ghost use Rattle.tla_value.specs.Stops.{plain};
ghost use Rattle.tla_value.specs.Definitions.{Valuation};
ghost use Rattle.promise.specs.ConstantsAndStates.{program};
ghost use Rattle.translation.specs.laws.AcceptedLaws.{extra_of, Stance, may_bind, callable_for, NamesApartLaw, NamesGivenLaw, PreparedLaw, PairsLaw, ReadyLaw, ActionLaw, NextOfRegionLaw, InitOfRegionLaw, RegionPlaced, PromiseKept, FaultsAgree, FaultsKept, SetFaults, CanonicalStepLaw};
ghost use Rattle.promise.specs.NextAndInit.{InitIs};
ghost use Rattle.pcal_tree.specs.Variables.{declared, vars};
ghost use Rattle.pcal_tree.specs.Labelled.{labelled};
ghost use Rattle.promise.specs.Headline.{Stands, Headline};
ghost use Rattle.promise.specs.Options.{Options};
ghost use Rattle.file_answer.specs.Checking.{AnswersChecking};
ghost use Rattle.translation.specs.PromiseWhole.{WrittenWhole};
ghost use Rattle.translation.specs.Worked.{MeetsPremises, HasFairness};
ghost use Rattle.translation.specs.WorkedFiles.{adding_file, adding, counting_file, counting, picking_file, picking, marking_file, marking};
ghost use Rattle.action_builder.specs.WrittenNames.{with_names};
ghost use Rattle.action_builder.specs.LabelActions.{at_test, items_from};
ghost use Rattle.action_builder.specs.laws.Settling.{Callable};
ghost use Rattle.action_builder.specs.laws.LabelSteps.{IsReady, action_of};
ghost use Rattle.action_builder.specs.laws.StepsOfLabels.{step_of, pair_env, PcStands};
ghost use Rattle.translation.specs.laws.ActionNames.{action_names};
ghost use Rattle.translation.specs.laws.ActionLaws.{FairnessLaw, ProcessSetLaw, TerminationLaw, AgainLaw, FileAgainLaw};
ghost use Rattle.translation.specs.laws.Steps.{written_step};
ghost use Rattle.module_tree.specs.laws.Kept.{IsFine};
ghost use Rattle.module_tree.specs.laws.Outsides.{HasOutside, SameOutside};
ghost use Rattle.module_tree.specs.laws.WritableRegion.{IsRegion, IsWritten};
ghost use Rattle.module_tree.specs.Layout.{layout};
ghost use Rattle.module_tree.specs.TextFront.{Text};
ghost use Rattle.module_tree.specs.Walk.{walk};
ghost use Rattle.module_tree.specs.WithTranslation.{WithTranslation};
ghost use Rattle.tla_token.specs.Limits.{past_text};
ghost use Rattle.tla_token.specs.Tokens as text;
ghost use Rattle.tla_token.specs.Tokens.{TokAlgorithm};
ghost use Rattle.tla_tree.specs.laws.Writable.{AreSmall};
ghost use Rattle.pcal_tree.specs.Grammar.{Syntax, Spells};
ghost use Rattle.pcal_tree.specs.OffencesOfNames.{name_offences};
ghost use Rattle.pcal_tree.specs.Expand.{expanded};
ghost use Rattle.action_builder.specs.Assigned.{Names};
ghost use Rattle.action_builder.specs.laws.Ready.{Once};
ghost use Rattle.action_builder.specs.Prepared.{none};
ghost use Rattle.pcal_tree.specs.Step.{Stand};
ghost use Rattle.translation.specs.laws.FreshReads.{readable};
ghost use Rattle.translation.specs.laws.NothingPrimed.{NothingPrimed};
ghost use Rattle.translation.specs.laws.PlacedStatements.{Placed};
ghost use Rattle.translation.specs.laws.StepsOnce.{none_set, SetsOnce, JumpsOnce};
ghost use Rattle.translation.specs.laws.JumpsEnd.{JumpsEnd};
ghost use Rattle.translation.specs.laws.TypedAlgorithm.{IsTypedAlgorithm};
ghost use Rattle.translation.specs.laws.AcceptedAlgorithm.{IsAccepted, IsAcceptedInFile, EachAssignsOnce};
ghost use Rattle.translation.specs.laws.WritableAlgorithm.{IsStarted, IsLabelled, AreWritableStatements, IsWritableAlgorithm};
ghost use Rattle.translation.specs.Region.{written_region, written_module};

/// The written module of an algorithm and of the same one with other places are the same.
pub fn no_place_matters_to_the_written_module()
    ensures { (no_terminating : Bool) (title : Word) (o : Outside) (g h : Algorithm) → placeless g ≡ placeless h
        → written_module no_terminating title o g ≡ written_module no_terminating title o h }
{}

/// The written names of an algorithm don't depend on its places; so the variables of the written module are the algorithm's
/// variables under their written names, in their order, also in its tuple `vars`.
pub fn the_variables_are_the_written_names()
    ensures names { (o : Outside) (g : Algorithm) → naming (placeless g) o ≡ naming g o }
    ensures variables { (no_terminating : Bool) (o : Outside) (g : Algorithm) → (written_region no_terminating o g).variables ≡ vars (with_names o g) }
    ensures vars { (no_terminating : Bool) (o : Outside) (g : Algorithm) → (written_region no_terminating o g).vars ≡ vars (with_names o g) }
{}

/// The written module has an action for each label under its written name, and one for each procedure and process under its
/// own, in the order of the text; and none else.
pub fn the_actions_have_the_written_names()
    ensures { (no_terminating : Bool) (o : Outside) (g : Algorithm) → map (λ a. a.title) (written_region no_terminating o g).actions ≡ action_names (with_names o g) }
{}

/// What the action of a label has after its test of pc is the action of a step, of which the laws of written actions speak.
pub fn the_actions_of_labels_are_those_of_steps()
    ensures { (P : Program) (u : Routine) (l : Word) (b : Begin) (rules : Rules) (names : Word → Bool) (callable : Callable) (scope : Scope)
        → items_from P u l (Some b) ≡ item (test (at_test P u l)) (action_of (vars P) (written_step P u l b rules names callable scope)) }
{}

/// What is written of an algorithm that can be written is a translation that can be written and read back: all its names are
/// names and no reserved words, its expressions can be written, no list is empty, and Terminating stands where Next has it.
/// So a file that is not refused is one module with it, around that file, with what the file has outside.
pub fn written_modules_are_regions()
    ensures regions { (no_terminating : Bool) (o : Outside) (g : Algorithm) → IsWritableAlgorithm o g → IsRegion (written_region no_terminating o g) }
    ensures files { (no_terminating : Bool) (x w : Text) (o : Outside) (g : Algorithm) → IsWritableAlgorithm o g → IsFine x → HasOutside (walk x) o
        → WithTranslation x (layout (written_region no_terminating o g)) w → IsWritten x w o (written_region no_terminating o g) }
{}

/// What rules say of an algorithm gives some of what is asked for its translation to be written: where no name is declared twice,
/// each name of a routine is there once; where none is reserved, no definition has a name of the translation; and where no label is
/// missing, each body that isn't empty has one.
pub fn rules_help_to_write()
    ensures once { (a : Algorithm) (o : Outside) → repeated_names a o ≡ [] → (u : Routine) → OneOf u (routines a) → AllUnlike (declared (locals u)) }
    ensures free { (a : Algorithm) (o : Outside) → reserved_declared a o ≡ [] → AllByRecursion (λ (d : Definition). IsTrue (not (is_own d.name.word))) a.definitions }
    ensures labelled { (a : Algorithm) → label_offences a ≡ [] → (u : Routine) → OneOf u (routines a) → IsStarted u.body → IsLabelled (label_words u.body) }
{}

/// Of an algorithm that is spelled by the tokens of a text, in one syntax or the other, all names are identifiers and all expressions can be
/// written, each left side begins with a name, no body is empty, and there is one body or a process. This stays so with labels added.
/// None of its names that want a written one begins with WF or SF and an underscore.
pub fn spelled_algorithms_are_typed()
    ensures typed { (s : Syntax) (w : List ℕ) (from to : ℕ) (ts : List text.Token) (a : Algorithm) → TokAlgorithm w from to ts → AreSmall ts → Spells s ts a → IsTypedAlgorithm a }
    ensures labelled { (forced : Bool) (a : Algorithm) → IsTypedAlgorithm a → IsTypedAlgorithm (labelled forced a) }
    ensures names { (a : Algorithm) → IsTypedAlgorithm a → AreNames a }
{}

/// An algorithm that has what its text gives, and breaks no rule on names and on labels, can be written where it has few names. Where no rule on
/// labels is broken, no statement of a body, its macro calls written out, assigns a variable beside a part of it.
pub fn accepted_algorithms_can_be_written()
    ensures written { (o : Outside) (a : Algorithm) → IsTypedAlgorithm a → FewNames a o → name_offences a o ≡ [] → label_offences a ≡ [] → IsWritableAlgorithm o a }
    ensures once { (a : Algorithm) → label_offences a ≡ [] → EachAssignsOnce a }
{}

/// What is written of an algorithm that the tokens of a text spell, with labels added, and that breaks no rule on tokens, names and labels, is a translation that can
/// be written and read back: a file within the limits that is not refused is one module with it, around that file, with what the file has outside. Its names
/// are few.
pub fn accepted_modules_read_back()
    ensures few { (x : Text) (o : Outside) (a : Algorithm) → IsAccepted o a → length x < past_text → HasOutside (walk x) o → FewNames a o }
    ensures regions { (no_terminating : Bool) (x : Text) (o : Outside) (a : Algorithm) → IsAccepted o a → length x < past_text → HasOutside (walk x) o
        → IsRegion (written_region no_terminating o a) }
    ensures files { (no_terminating : Bool) (x w : Text) (o : Outside) (a : Algorithm) → IsAccepted o a → length x < past_text → IsFine x → HasOutside (walk x) o
        → WithTranslation x (layout (written_region no_terminating o a)) w → IsWritten x w o (written_region no_terminating o a) }
{}

/// Where no rule on labels is broken, each statement that jumps, or in which a label is, ends its list or is followed by a label, with macro calls written out, as the
/// laws of written actions ask.
pub fn jumps_end_their_lists()
    ensures { (a : Algorithm) → label_offences a ≡ [] → (u : Routine) → OneOf u (routines a) → JumpsEnd (expanded (reverse a.macros) u.body) }
{}

/// Where no rule on labels is broken, no variable is assigned again before the next label, with macro calls written out: from each label on, and in each loop from its
/// beginning on. It is asked that an algorithm has what its text gives, so that no `either` is empty. Of statements that can be written this is what the laws of
/// written actions ask of a step's statements. Nor was a variable of a procedure assigned before where its `return`, or a call of itself, assigns it.
pub fn steps_assign_once()
    ensures once { (a : Algorithm) → IsTypedAlgorithm a → label_offences a ≡ [] → (u : Routine) → OneOf u (routines a) → SetsOnce none_set (expanded (reverse a.macros) u.body) }
    ensures jumps { (a : Algorithm) → IsTypedAlgorithm a → label_offences a ≡ [] → (u : Routine) → OneOf u (procedure_routines a)
        → JumpsOnce (effects_in (call_effect (reverse a.macros)) (Some u.name) (declared (locals u))) none_set (expanded (reverse a.macros) u.body) }
    ensures ready { (C V : Word → Bool) (A : Names) (b : Statements) → AreWritableStatements C V b → SetsOnce A b → Once A b }
{}

/// A module that is read back has the outside that the file has, in other lines; so the algorithm has the same written names beside both, and the promise speaks
/// of one program.
pub fn other_lines_outside_change_no_program()
    ensures names { (o q : Outside) (g : Algorithm) → SameOutside o q → naming g o ≡ naming g q }
    ensures program { (o : Outside) (g : Algorithm) (m : Module) → SameOutside o m.outside → (values : Valuation) → program_in plain o g values ≡ program g m values }
{}

/// What is written for an algorithm without its places, as it always is, is but for places what is written for the algorithm with its own.
pub fn places_may_be_forgotten_before_all_else()
    ensures { RegionPlaced }
{}

/// Where Next and Init of the region of each accepted algorithm, with its own places, say just what the algorithm does, each module with the written region, in which the
/// file's outside is in other lines, has a Next and an Init that say so too.
pub fn the_promise_rests_on_regions()
    ensures { NextOfRegionLaw IsAcceptedInFile → InitOfRegionLaw IsAcceptedInFile → PromiseKept IsAcceptedInFile }
{}

/// From each label of a routine of an accepted algorithm on, the assignments that are written for jumps, calls and returns, also for a call that is one statement with a
/// `return`, do what these do, wherever a `with` binds names; what jumps ends its list, each call is of a procedure with as many parameters as it has arguments, and no
/// name that is bound is `self` or a variable of the process. Written names of routines are apart, and no initial value rests on what is set later. And pc is where each process has it.
pub fn jumps_of_accepted_algorithms_can_be_written()
    ensures prepared { PreparedLaw IsAcceptedInFile }
    ensures pairs { PairsLaw IsAcceptedInFile }
    ensures pc { (o : Outside) (g : Algorithm) → IsAcceptedInFile o g → (values : Valuation) (v : Actor) → IsActor (program_in plain o g values) v → PcStands (program_in plain o g values) v }
{}

/// The written names of an accepted algorithm, in the module that it stands in, are apart from each other and from all that has a name there, and definitions, also
/// those outside, read none of them but globals: so what is written has one scope, that of the module, for the routines of each process. And from each label of a routine on,
/// its macro calls capture nothing, no name that is bound is the routine's own or a written one, and only what is seen in the routine is read.
pub fn written_names_stand_for_the_names_of_routines()
    ensures apart { NamesApartLaw IsAcceptedInFile }
    ensures given { NamesGivenLaw IsAcceptedInFile }
{}

/// Init of what is written of an accepted algorithm is true exactly of its initial states: for all constants that give the processes different identifiers, and all
/// states from which no initial value is a fault. Else it is false, and never a fault. That is so of the region that has the algorithm's own places, and of each module
/// that the translated file is read as.
pub fn init_is_true_of_the_initial_states()
    ensures region { InitOfRegionLaw IsAcceptedInFile }
    ensures files { (no_terminating : Bool) (x w : Text) (o : Outside) (a : Algorithm) → IsAccepted o a → length x < past_text → IsFine x → HasOutside (walk x) o
        → WithTranslation x (layout (written_region no_terminating o a)) w → (m : Module) → Reads w m → InitIs a m }
{}

/// Next of what is written of an accepted algorithm, with the algorithm's own places, is true of two states exactly where some process steps from the
/// first to the second, or all are done and nothing changes: for all constants, and all first states from which nothing is in trouble. Else it is false, and never a fault.
/// Where the constants give the processes different identifiers, something is in trouble in a first state exactly if Next is a fault for some second state. So each module that
/// a translated file is read as keeps the promise, of Init too, and its Next is a fault where something is in trouble. All states here have values in canonical order, and steps
/// lead from such states to such states; but where all processes are of sets, something is in trouble if Next is a fault for any second state.
pub fn next_is_true_of_the_steps()
    ensures region { NextOfRegionLaw IsAcceptedInFile }
    ensures kept { PromiseKept IsAcceptedInFile }
    ensures faults { FaultsAgree IsAcceptedInFile }
    ensures faults_kept { FaultsKept IsAcceptedInFile }
    ensures set_faults { SetFaults IsAcceptedInFile }
    ensures canonical { CanonicalStepLaw IsAcceptedInFile }
{}

/// Where no rule on labels is broken, each loop is right after a label, a `return` is in a procedure, and no label is in a `with`, with macro calls written out.
pub fn loops_follow_labels()
    ensures procedures { (a : Algorithm) → label_offences a ≡ [] → (u : Routine) → OneOf u (procedure_routines a) → Placed true false false (expanded (reverse a.macros) u.body) }
    ensures bodies { (a : Algorithm) → label_offences a ≡ [] → (u : Routine) → OneOf u (main_routines a a.main) → Placed false false false (expanded (reverse a.macros) u.body) }
{}

/// For each step of an accepted algorithm items can be written, also for calls and returns: nothing is assigned twice, left sides are variables, and what is read may be read
/// there. A name may be read where variables are assigned if it is no definition, or one that reads, itself or through others, none of them. And no name is primed: in no
/// step, in no initial value of a procedure, and in no definition in sight.
pub fn items_can_be_written_for_steps()
    ensures ready { ReadyLaw IsAcceptedInFile readable }
    ensures unprimed { (o : Outside) (g : Algorithm) → IsAcceptedInFile o g → (values : Valuation) → NothingPrimed (program_in plain o g values) (extra_of g) }
{}

/// For every text with which nothing is wrong there is one text that is written: it with the translation of its one algorithm, labels added where they are forced or there
/// are none. That algorithm is accepted in the file. And what is written keeps the promise, with both options: it reads as one module, with the algorithm's variables and
/// definitions, whose Next and Init are true just of the steps and the initial states.
pub fn every_accepted_text_keeps_the_promise()
    ensures accepted { (forced : Bool) (x : Text) → AnswersChecking forced x None → length x < past_text → (a : Algorithm) (o : Outside) → Stands x a → HasOutside (walk x) o → IsAcceptedInFile o (labelled forced a) }
    ensures some { (options : Options) (x : Text) → AnswersChecking options.label x None → (w : Text) × WrittenWhole options x w }
    ensures one { (options : Options) (x v w : Text) → WrittenWhole options x v → WrittenWhole options x w → v ≡ w }
    ensures promise { (options : Options) (x w : Text) → AnswersChecking options.label x None → length x < past_text → WrittenWhole options x w → Headline options x w }
{}

/// The action of each label of an accepted algorithm, called by a process that may run its routine, is true of two states exactly where
/// the process steps from that label to the second, from sound states; so an action that stands in a formula of fairness is the step that it is to be. And of each formula of fairness
/// of a process the test and then the action are true exactly of the process's steps from the labels of the formula's obligation.
pub fn actions_are_true_of_the_steps_from_their_labels()
    ensures actions { ActionLaw IsAcceptedInFile }
    ensures fairness { FairnessLaw IsAcceptedInFile }
{}

/// In the module of an accepted algorithm ProcSet has just the identifiers of the processes, and the test of Termination is true of a sound state exactly where
/// all processes are done; else it is false, and never a fault.
pub fn process_set_and_termination_are_of_all_processes()
    ensures set { ProcessSetLaw IsAcceptedInFile }
    ensures ended { TerminationLaw IsAcceptedInFile }
{}

/// Translating again changes nothing: of an algorithm that is the accepted one but for places, as that in the translated file is, beside what that file has outside, the same
/// is written, and where it is put in again, the file stays as it is. So a translated file is translated to itself, labels added too. And where nothing is wrong with a file,
/// nothing is wrong with it once it is translated, so it isn't refused, and it itself is what is written for it, and nothing else.
pub fn translating_again_changes_nothing()
    ensures alike { AgainLaw }
    ensures files { FileAgainLaw }
    ensures accepted { (options : Options) (x w : Text) → AnswersChecking options.label x None → length x < past_text → WrittenWhole options x w → AnswersChecking options.label w None }
    ensures some { (options : Options) (x w : Text) → AnswersChecking options.label x None → length x < past_text → WrittenWhole options x w → WrittenWhole options w w }
    ensures one { (options : Options) (x w : Text) → AnswersChecking options.label x None → length x < past_text → WrittenWhole options x w → (u : Text) → WrittenWhole options w u → u ≡ w }
{}

/// The premises of the promise are met together, and neither side of it is empty. With each of these files nothing is wrong, and what is written for it, with the end that
/// stutters and without, reads as a module. There is a run from an initial state through sound states: its steps are steps of the algorithm, and Next is true of them. Init is
/// true of the first state, and false of another that isn't initial and to which the first doesn't step, so Next is false of these two. Where all are done, Next is true of
/// staying there, but with `--no-terminating` false.
/// The first file has processes, a procedure that calls itself by one statement with a `return`, and marks of labels: of its four formulas of fairness each is true of one step
/// of the run, and false of another. The second has one body to which labels are added, a macro, a definition and a constant; the third a single process that asks what is in
/// its identifier, a set; and to the fourth a label is added where labels are forced.
pub fn the_premises_are_met()
    ensures processes { (forced : Bool) → MeetsPremises forced adding_file adding }
    ensures fairness { (forced : Bool) → HasFairness forced adding_file adding 4 }
    ensures one_body { (forced : Bool) → MeetsPremises forced counting_file counting }
    ensures set { (forced : Bool) → MeetsPremises forced picking_file picking }
    ensures option { MeetsPremises true marking_file marking }
{}
