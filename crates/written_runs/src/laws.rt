//! Laws of runs by some ways of taking a step and of starting, stated as what functions without a body ensure.

ghost use Rattle.std.specs.Prelude.{◌≡◌, ℕ, List, Option, Ok, ◌≤◌, ◌<◌, ◌++◌, suc, [], ◌∷◌, Some};
ghost use Rattle.std.specs.Option.{option_map, option_or};
ghost use Rattle.tla_tree.specs.Tree.{Word};
ghost use Rattle.tla_value.specs.Definitions.{Valuation};
ghost use Rattle.tla_value.specs.Outside.{Outside};
ghost use Rattle.tla_value.specs.Stops.{Check};
ghost use Rattle.tla_value.specs.Value.{Value};
ghost use Rattle.pcal_tree.specs.Algorithm.{Routine, Algorithm};
ghost use Rattle.pcal_tree.specs.Scope.{State};
ghost use Rattle.pcal_tree.specs.OffencesLabels.{label_words};
ghost use Rattle.pcal_tree.specs.Program.{Program, Actor};
ghost use Rattle.pcal_tree.specs.Programs.{program_in};
ghost use Rattle.pcal_tree.specs.Processes.{actors};
ghost use Rattle.pcal_tree.specs.FirstTrouble.{label_named, stand_named, trouble_of_all};
ghost use Rattle.pcal_tree.specs.Script.{Turn};
ghost use Rattle.pcal_tree.specs.StepAnswers.{stepped, start_by, label_place};
ghost use Rattle.step_forms.specs.Opened.{IsOpenable};
ghost use Rattle.step_runner.specs.Script.{Script};
ghost use Rattle.step_runner.specs.Followed.{followed};
ghost use Rattle.step_spots.specs.Spots.{Spot, routine_spots, spot_named};
ghost use Rattle.translation.specs.laws.AcceptedAlgorithm.{IsAcceptedInFile};
ghost use Rattle.written_runs.specs.Ways.{Ways, by_meaning, by_written_names, stepped_by, begun_by, turns_followed_by, followed_by, turns_followed_in};
ghost use Rattle.written_runs.specs.WrittenRuns.{begun_in, followed_once};
ghost use Rattle.written_runs.specs.Stands.{stand_in, stand_by_spots};
ghost use Rattle.written_runs.specs.OwnSpots.{HasOwnStatements, prepared_spot, prepared_spots, prepared_stand};
ghost use Rattle.tla_token.specs.declared.place.Place.{Place};
ghost use Rattle.pcal_tree.specs.Choices.{wanting, count_courses, walk, first_trouble, first_trouble_of};
ghost use Rattle.pcal_tree.specs.Run.{Course, chooses, Courses, no_courses};
ghost use Rattle.pcal_tree.specs.Step.{Stand};
ghost use Rattle.written_runs.specs.Searches.{rest_after, rest_among, courses_past, weight, found};
ghost use Rattle.written_runs.specs.WrittenTroubles.{written_course, written_trouble_of_all, searched_of_all};

/// A step and a start of an accepted algorithm by the written names, and what follows a script by them, are what they are by the
/// meaning: in each state, by each list of choices and under any limits. So it is where the processes are looked for once.
pub fn runs_go_by_the_written_names()
    ensures step { (c : Check) (o : Outside) (g : Algorithm) → IsAcceptedInFile o g → (values : Valuation) (s : State) (who : Option Value) (choices : List ℕ) → stepped_by by_written_names (program_in c o g values) s who choices ≡ stepped (program_in c o g values) s who choices }
    ensures start { (c : Check) (o : Outside) (g : Algorithm) → IsAcceptedInFile o g → (values : Valuation) (choices : List ℕ) → begun_by by_written_names (program_in c o g values) choices ≡ start_by (program_in c o g values) choices }
    ensures script { (c : Check) (o : Outside) (g : Algorithm) → IsAcceptedInFile o g → (values : Valuation) (script : Script) → followed_by by_written_names (program_in c o g values) script ≡ followed (program_in c o g values) script }
    ensures once { (c : Check) (o : Outside) (g : Algorithm) → IsAcceptedInFile o g → (values : Valuation) (script : Script) → followed_once (program_in c o g values) script ≡ followed (program_in c o g values) script }
{}

/// Along the courses they are the meaning, of every program.
pub fn runs_by_the_meaning_are_followed()
    ensures step { (P : Program) (s : State) (who : Option Value) (choices : List ℕ) → stepped_by by_meaning P s who choices ≡ stepped P s who choices }
    ensures start { (P : Program) (choices : List ℕ) → begun_by by_meaning P choices ≡ start_by P choices }
    ensures script { (P : Program) (script : Script) → followed_by by_meaning P script ≡ followed P script }
{}

/// The processes are the same at each step, and at the start.
pub fn processes_are_looked_for_once()
    ensures turns { (W : Ways) (P : Program) (vs : List Actor) → actors P ≡ Ok vs → (ns : List Turn) (k : ℕ) (s : State) → turns_followed_by W P ns k s ≡ turns_followed_in W P vs ns k s }
    ensures start { (P : Program) (vs : List Actor) → actors P ≡ Ok vs → (choices : List ℕ) → begun_by by_written_names P choices ≡ begun_in P choices vs }
    ensures script { (P : Program) (script : Script) → followed_once P script ≡ followed_by by_written_names P script }
{}

/// The label that a value of pc names is the first that it names among the labels of a routine, and of routines in turn.
pub fn stands_are_found_among_spots()
    ensures routine { (P : Program) (w : Value) (u : Routine) → stand_in P w u ≡ label_named P w u (label_words u.body) }
    ensures routines { (P : Program) (w : Value) (us : List Routine) → stand_by_spots P w us ≡ stand_named P w us }
{}

/// With its statements prepared a routine has the labels that it has, each at its place, and steps from them begin with prepared
/// statements: where macros have statements and no labels, as those of accepted algorithms.
pub fn prepared_routines_have_the_same_labels()
    ensures accepted { (o : Outside) (g : Algorithm) → IsAcceptedInFile o g → IsOpenable g }
    ensures spots { (P : Program) → IsOpenable P.algorithm → (u v : Routine) → HasOwnStatements P u v → routine_spots v ≡ prepared_spots P u (routine_spots u) }
    ensures labels { (P : Program) → IsOpenable P.algorithm → (u v : Routine) → HasOwnStatements P u v → label_words v.body ≡ label_words u.body }
    ensures place { (P : Program) → IsOpenable P.algorithm → (u v : Routine) → HasOwnStatements P u v → (l : Word) → label_place v l ≡ label_place u l }
    ensures stand { (P : Program) → IsOpenable P.algorithm → (u v : Routine) → HasOwnStatements P u v → (w : Value) → stand_in P w v ≡ option_map (prepared_stand P u v) (stand_in P w u) }
    ensures named { (P : Program) (u : Routine) (ss : List Spot) (l : Word) → spot_named (prepared_spots P u ss) l ≡ option_map (prepared_spot P u) (spot_named ss l) }
{}

/// The first trouble of a course is what a search finds that goes deep enough and looks at nothing but what lists of choices come to.
/// So courses that come to the same by each list of choices have the same first trouble.
pub fn the_first_trouble_is_found_by_a_search()
    ensures found { (c : Course) (n : ℕ) → weight c ≤ n → found n (walk c) ≡ first_trouble c }
    ensures same { (b c : Course) → ((ns : List ℕ) → walk b ns ≡ walk c ns) → first_trouble b ≡ first_trouble c }
{}

/// Choices that are wanted leave a course that does what they lead to. Where one of so many is wanted then, each of these leaves less,
/// and the first trouble is the first of theirs in turn.
pub fn each_wanted_choice_leaves_less()
    ensures walks { (c r : Course) (ns : List ℕ) → rest_after c ns ≡ Some r → walk c ns ≡ walk r [] }
    ensures wants { (r : Course) (n : ℕ) (at : Place) → walk r [] ≡ wanting n at → (cs : Courses) × (r ≡ chooses at cs) × (count_courses cs ≡ n) }
    ensures longer { (c : Course) (ns : List ℕ) (at : Place) (cs : Courses) (n : ℕ) → rest_after c ns ≡ Some (chooses at cs) → rest_after c (ns ++ n ∷ []) ≡ rest_among cs n [] }
    ensures less { (at : Place) (cs : Courses) (n : ℕ) (r : Course) → rest_among cs n [] ≡ Some r → weight r < weight (chooses at cs) }
    ensures next { (cs : Courses) (n : ℕ) → n < count_courses cs → (c : Course) × (rest_among cs (suc n) [] ≡ Some c) × (first_trouble_of (courses_past cs n) ≡ option_or (first_trouble c) (first_trouble_of (courses_past cs (suc n)))) }
    ensures all { (cs : Courses) → courses_past cs (count_courses cs) ≡ no_courses }
{}

/// A step by the written names has courses: each list of choices comes to what it comes to along them.
pub fn steps_by_the_written_names_have_courses()
    ensures { (P : Program) (v : Actor) (d : Stand) (s : State) (ns : List ℕ) → walk (written_course P v d s) ns ≡ by_written_names.step P v d s ns }
{}

/// The first trouble of an accepted algorithm is the first along the courses by the written names, and is what a search over steps by the
/// written names finds that goes deep enough: in each state, and under any limits.
pub fn first_troubles_go_by_the_written_names()
    ensures courses { (c : Check) (o : Outside) (g : Algorithm) → IsAcceptedInFile o g → (values : Valuation) (s : State) (vs : List Actor) → actors (program_in c o g values) ≡ Ok vs → written_trouble_of_all (program_in c o g values) s vs ≡ trouble_of_all (program_in c o g values) s vs }
    ensures search { (c : Check) (o : Outside) (g : Algorithm) → IsAcceptedInFile o g → (values : Valuation) (s : State) (vs : List Actor) → actors (program_in c o g values) ≡ Ok vs → (least : ℕ) × ((n : ℕ) → least ≤ n → searched_of_all by_written_names (program_in c o g values) s n vs ≡ trouble_of_all (program_in c o g values) s vs) }
{}
