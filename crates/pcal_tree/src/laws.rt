//! Laws of what algorithms mean, stated as what functions without a body ensure.

ghost use Rattle.std.specs.Prelude.{◌≡◌, ℕ, suc, List, [], ◌∷◌, Bool, false, IsTrue, map, Some, None, ◌++◌, ◌+◌, ◌≤◌, length, get_or, reverse, Contains, ◌↔◌};
ghost use Rattle.std.specs.List.{AllByRecursion};
ghost use Rattle.tla_token.specs.Signs.{is_among};
ghost use Rattle.tla_tree.specs.Tree.{Word, Trees};
ghost use Rattle.pcal_tree.specs.Algorithm.{Statements, Macro, Algorithm};
ghost use Rattle.pcal_tree.specs.Expand.{expanded};
ghost use Rattle.pcal_tree.specs.Scope.{State, Scope};
ghost use Rattle.pcal_tree.specs.Run.{Course, Has, Rules, Follow, run, with_macros};
ghost use Rattle.pcal_tree.specs.Choices.{walk, first_trouble};
ghost use Rattle.pcal_tree.specs.Program.{Program, Actor};
ghost use Rattle.tla_value.specs.Outside.{Outside};
ghost use Rattle.pcal_tree.specs.OffencesReserved.{reserved_declared};
ghost use Rattle.pcal_tree.specs.OffencesRebind.{rebind_offences_by, rebind_offences_of};
ghost use Rattle.pcal_tree.specs.laws.MacroBindings.{macro_bindings, rebinds_by};
ghost use Rattle.pcal_tree.specs.OffencesSteps.{call_effect};
ghost use Rattle.pcal_tree.specs.OffencesLabels.{label_offences, label_offences_by};
ghost use Rattle.pcal_tree.specs.laws.MacroSummaries.{summaries, summary_effect};
ghost use Rattle.tla_token.specs.declared.rule.Refusal.{Refusal};
ghost use Rattle.pcal_tree.specs.Offences.{first};
ghost use Rattle.pcal_tree.specs.OffencesNames.{process_names, use_offences_by, use_offences_of};
ghost use Rattle.pcal_tree.specs.laws.MacroUses.{macro_uses, offences_by_uses};
ghost use Rattle.pcal_tree.specs.OffencesSelf.{self_offences};
ghost use Rattle.pcal_tree.specs.OffencesStale.{stale_offences, stale_offences_by};
ghost use Rattle.pcal_tree.specs.laws.MacroSpots.{spots_by_macros};
ghost use Rattle.pcal_tree.specs.laws.BoundDefinitions.{rebinds_definitions, binds_definitions};
ghost use Rattle.pcal_tree.specs.OffencesOfNames.{name_offences_by, name_offences};
ghost use Rattle.pcal_tree.specs.laws.OffencesOnce.{once_for_each_macro};
ghost use Rattle.pcal_tree.specs.laws.MacroSelves.{self_offences_by_calls};
ghost use Rattle.tla_tree.specs.Lexical.{Token};
ghost use Rattle.tla_tree.specs.FirstStop.{Look, looks, Open, Begins, Passes};
ghost use Rattle.pcal_tree.specs.laws.DeepForms.{bracket, assigned, head_word, Head, FineHead, heads, is_before};
ghost use Rattle.pcal_tree.specs.Grammar.{Syntax, Text, Good, spell};
ghost use Rattle.pcal_tree.specs.OpenForms.{opens};
ghost use Rattle.pcal_tree.specs.OffencesSyntax.{algorithms, PassesTokens, RefusesTokens};
ghost use Rattle.tla_token.specs.Tokens as text;
ghost use Rattle.tla_token.specs.Limits.{most_variables, most_processes, most_procedures, most_labels, deepest_expression, deepest_statement};
ghost use Rattle.pcal_tree.specs.OffencesCounts.{variable_names, procedure_names, all_label_names, count_offences};
ghost use Rattle.pcal_tree.specs.laws.Lines.{text_lineless};
ghost use Rattle.pcal_tree.specs.Labelled.{labelled, labelled_by};
ghost use Rattle.pcal_tree.specs.Names.{wanted, given, naming};
ghost use Rattle.pcal_tree.specs.laws.Apart.{FewNames, Apart, New, Untaken, AreNames, NoEndLabels};
ghost use Rattle.tla_value.specs.Value.{Trouble, Outcome};
ghost use Rattle.pcal_tree.specs.laws.Expansion.{Calls, FineCall, AnyPlace};
ghost use Rattle.pcal_tree.specs.laws.Choosing.{told, landing};
ghost use Rattle.pcal_tree.specs.Processes.{Proper, IsActor};
ghost use Rattle.pcal_tree.specs.Faults.{Sound, Faulty};
ghost use Rattle.pcal_tree.specs.laws.Steps.{StandsOnce, ReturnsInProcedures, AgreeAll};
ghost use Rattle.tla_token.specs.declared.place.Place.{Place};
ghost use Rattle.tla_value.specs.declared.fault.FaultKind.{FaultKind};
ghost use Rattle.pcal_tree.specs.Variables.{vars, Agree};
ghost use Rattle.pcal_tree.specs.Step.{Step, Stutters};
ghost use Rattle.pcal_tree.specs.InitialStates.{Initial, InitTrouble};
ghost use Rattle.pcal_tree.specs.Script.{Turn, Reaches, StepBy, RunOf};
ghost use Rattle.pcal_tree.specs.StepAnswers.{reached, stepped, start_by};
ghost use Rattle.pcal_tree.specs.InitialChoice.{started};
ghost use Rattle.pcal_tree.specs.FirstTrouble.{FirstTrouble};

/// What a list of choices leads to is an outcome of the course, and each outcome has a list of choices that
/// leads to it, all of them used.
pub fn choices_reach_the_outcomes()
    ensures outcome { (c : Course) (choices : List ℕ) (r : Outcome State) → told (walk c choices) ≡ Some r → Has c r }
    ensures reached { (c : Course) (r : Outcome State) → Has c r → (choices : List ℕ) × (walk c choices ≡ landing r) }
{}

/// The first trouble of a course is one of its outcomes, and where it has none no outcome is a trouble.
pub fn first_trouble_is_met()
    ensures met { (c : Course) (k : Trouble) → first_trouble c ≡ Some k → Has c (Err k) }
    ensures none { (c : Course) (k : Trouble) → first_trouble c ≡ None → Has c (Err k) → ⊥ }
{}

/// A state is sound, that is, no step from it can meet trouble, exactly where it has no first trouble, if the
/// identifiers are proper and each process is at one label at most.
pub fn sound_states_have_no_first_trouble()
    ensures sound { (P : Program) (s : State) (k : Trouble) → Sound P s → FirstTrouble P s k → ⊥ }
    ensures quiet { (P : Program) (s : State) → Proper P → ((v : Actor) → IsActor P v → StandsOnce P s v) → ((k : Trouble) → FirstTrouble P s k → ⊥) → Sound P s }
{}

/// What an algorithm does depends on the variables of its translation alone: two pairs of states that agree on them are
/// steps alike, and two states that agree on them are sound, initial and in trouble alike. Each `return` must be in a
/// procedure, since without procedures no variable holds records that it could take off. The rule on `return` asks for that,
/// so every algorithm without offences is one.
pub fn runs_depend_on_the_variables()
    ensures steps { (P : Program) → ReturnsInProcedures P.algorithm → (s t u w : State) → Agree (vars P) s u → Agree (vars P) t w → Step P s t → Step P u w }
    ensures stutters { (P : Program) (s t u w : State) → Agree (vars P) s u → Agree (vars P) t w → Stutters P s t → Stutters P u w }
    ensures sound { (P : Program) → ReturnsInProcedures P.algorithm → (s u : State) → Agree (vars P) s u → Sound P s → Sound P u }
    ensures faults { (P : Program) → ReturnsInProcedures P.algorithm → (s u : State) → Agree (vars P) s u → (v : Actor) → IsActor P v
        → (kind : FaultKind) (at : Place) → Faulty P s v kind at → Faulty P u v kind at }
    ensures first { (P : Program) → ReturnsInProcedures P.algorithm → (s u : State) → Agree (vars P) s u → (k : Trouble) → FirstTrouble P s k → FirstTrouble P u k }
    ensures scripts { (P : Program) → ReturnsInProcedures P.algorithm → (choices : List ℕ) (turns : List Turn) (ss us : List State) → AgreeAll (vars P) ss us
        → RunOf P choices turns ss → RunOf P choices turns us }
    ensures initial { (P : Program) (s u : State) → Agree (vars P) s u → Initial P s → Initial P u }
    ensures starts { (P : Program) (s u : State) → Agree (vars P) s u → (k : Trouble) → InitTrouble P s k → InitTrouble P u k }
    ensures rule { (a : Algorithm) → label_offences a ≡ [] → ReturnsInProcedures a }
{}

/// Statements with their macro calls written out take the courses that they take with the calls, in every scope and
/// with anything after them, kinds and places of faults included. The calls capture nothing: no name that
/// a macro's body binds is a parameter or free in an argument. And each macro's body
/// begins with a statement, and no statement of its list is a call, a `goto` or a `return`.
pub fn written_out_macros_run_the_same()
    ensures { (M : Rules) (ms : List Macro) (here : Word) (ss : Statements) → Calls (FineCall ms) ss → (sc : Scope) → AnyPlace sc → (K : Follow)
        → run (with_macros M ms) here ss sc K ≡ run (with_macros M []) here (expanded ms ss) sc K }
{}

/// The written names of an algorithm in a module are all different, and none is a name that is taken from the start. Where those that
/// are wanted don't begin with WF_ or SF_, as no name does, none is reserved, the translation's own or standard.
pub fn written_names_are_apart()
    ensures apart { (a : Algorithm) (o : Outside) → FewNames a o → Apart (given a o) }
    ensures new { (a : Algorithm) (o : Outside) → FewNames a o → New a o }
    ensures untaken { (a : Algorithm) (o : Outside) → FewNames a o → AreNames a → Untaken a o }
{}

/// Where no label is called Done or Error, each process is at one label at most. The rule on reserved names asks for that,
/// and added labels are no such ones.
pub fn processes_stand_at_one_label()
    ensures once { (P : Program) (o : Outside) → P.naming ≡ naming P.algorithm o → FewNames P.algorithm o → NoEndLabels P.algorithm
        → (s : State) (v : Actor) → IsActor P v → StandsOnce P s v }
    ensures clear { (a : Algorithm) (o : Outside) → reserved_declared a o ≡ [] → NoEndLabels a }
    ensures added { (forced : Bool) (a : Algorithm) → NoEndLabels a → NoEndLabels (labelled forced a) }
{}

/// What is computed once for each macro, from its text and from what was computed for older ones, says of each call what it assigns and
/// whether it assigns a variable twice, as the macro's body does with the arguments in place of the parameters, and in place of its other
/// names with what stands for them where the call is. So it gives the same offences against the rules on labels, and the same labels are
/// added, in every algorithm.
pub fn macros_are_looked_at_once()
    ensures assigns { (ms : List Macro) (m : Word) (ts : Trees) (x : Word)
        → is_among (call_effect ms m ts).variables x ≡ is_among (summary_effect (summaries ms) m ts).variables x }
    ensures twice { (ms : List Macro) (m : Word) (ts : Trees) → (call_effect ms m ts).twice ≡ (summary_effect (summaries ms) m ts).twice }
    ensures offences { (a : Algorithm) → label_offences a ≡ label_offences_by (summary_effect (summaries (reverse a.macros))) a }
    ensures labels { (forced : Bool) (a : Algorithm) → labelled forced a ≡ labelled_by (λ ms. summary_effect (summaries ms)) forced a }
{}

/// What is computed once for each macro, from its text and from what was computed for older ones, says of each call which names would be bound
/// that are in scope already, with the arguments in place of the parameters. So it gives the same offences of names bound again, if not as often
/// nor in the same order, in every algorithm and whatever is outside of it, and the same one comes first, also among others.
pub fn bound_names_in_macros_are_looked_at_once()
    ensures offences { (a : Algorithm) (o : Outside) (r : Refusal)
        → Contains (rebind_offences_of a o) r ↔ Contains (rebind_offences_by (λ ms. rebinds_by o.extended (macro_bindings o.extended a.procedures ms)) a o) r }
    ensures first { (a : Algorithm) (o : Outside) (others : List Refusal)
        → first (rebind_offences_of a o ++ others) ≡ first (rebind_offences_by (λ ms. rebinds_by o.extended (macro_bindings o.extended a.procedures ms)) a o ++ others) }
{}

/// What is computed once for each macro, from its text and from what was computed for older ones, says of each call what is wrong with the
/// names that the macro's body uses, and with the arguments that it assigns: those that it doesn't bind are looked up where the call is. So it
/// gives the same offences of uses of names, if not as often nor in the same order, in every algorithm and whatever is outside of it, and the same one comes first, also among others.
pub fn uses_in_macros_are_looked_at_once()
    ensures offences { (a : Algorithm) (o : Outside) (r : Refusal)
        → Contains (use_offences_of a o) r ↔ Contains (use_offences_by (offences_by_uses (macro_uses (reverse a.macros) a.procedures)) a o) r }
    ensures first { (a : Algorithm) (o : Outside) (others : List Refusal)
        → first (use_offences_of a o ++ others) ≡ first (use_offences_by (offences_by_uses (macro_uses (reverse a.macros) a.procedures)) a o ++ others) }
{}

/// The macros that calls reach are walked through once each, from their texts alone. That gives the same offences of `self` where no process is as
/// looking through the macro at each call, if not as often nor in the same order, in every algorithm, and the same one comes first, also among others.
pub fn self_in_macros_is_looked_for_once()
    ensures offences { (a : Algorithm) (r : Refusal) → Contains (self_offences a) r ↔ Contains (self_offences_by_calls a) r }
    ensures first { (a : Algorithm) (others : List Refusal) → first (self_offences a ++ others) ≡ first (self_offences_by_calls a ++ others) }
{}

/// What is computed once for each macro, from its text and from what was computed for older ones, says of each call which names its body uses, and after
/// which assignments. So it gives the same offences of definitions that are used after an assignment to what they read, if not as often nor in the same
/// order, and the same one comes first, also among others. No body may bind or declare the name of a definition, or `self`, its macro calls written out, and
/// none does where no text does.
pub fn definitions_in_macros_are_looked_at_once()
    ensures offences { (a : Algorithm) → rebinds_definitions a ≡ false
        → (r : Refusal) → Contains (stale_offences a) r ↔ Contains (stale_offences_by (spots_by_macros a) a) r }
    ensures first { (a : Algorithm) → rebinds_definitions a ≡ false
        → (others : List Refusal) → first (stale_offences a ++ others) ≡ first (stale_offences_by (spots_by_macros a) a ++ others) }
    ensures text { (a : Algorithm) → binds_definitions a ≡ false → rebinds_definitions a ≡ false }
{}

/// Where no name is bound again and none that is declared or bound is reserved, no text binds the name of a definition, or `self`, whatever is outside of the
/// algorithm; and what is computed once for each macro gives the same offences of definitions that are used after an assignment. Where there is an offence against
/// one of these two rules, it comes before any of those. So beside their offences the first one is the same in every algorithm, also among others.
pub fn names_of_definitions_are_not_bound_again()
    ensures unbound { (a : Algorithm) (o : Outside) → rebind_offences_of a o ≡ [] → reserved_declared a o ≡ [] → binds_definitions a ≡ false }
    ensures offences { (a : Algorithm) (o : Outside) → rebind_offences_of a o ≡ [] → reserved_declared a o ≡ []
        → (r : Refusal) → Contains (stale_offences a) r ↔ Contains (stale_offences_by (spots_by_macros a) a) r }
    ensures first { (a : Algorithm) (o : Outside) (others : List Refusal)
        → first (rebind_offences_of a o ++ (reserved_declared a o ++ (stale_offences a ++ others)))
        ≡ first (rebind_offences_of a o ++ (reserved_declared a o ++ (stale_offences_by (spots_by_macros a) a ++ others))) }
{}

/// What is computed once for each macro refuses every algorithm, whatever is outside of it, as looking through macros at each call does: of all offences against the
/// rules on names, and of these with those against the rules on labels, the same one comes first, also among others.
pub fn macros_looked_at_once_refuse_alike()
    ensures names { (a : Algorithm) (o : Outside) (others : List Refusal)
        → first (name_offences a o ++ others) ≡ first (name_offences_by (once_for_each_macro a o) a o ++ others) }
    ensures labels { (a : Algorithm) (o : Outside) (others : List Refusal)
        → first (name_offences a o ++ (label_offences a ++ others))
        ≡ first (name_offences_by (once_for_each_macro a o) a o ++ (label_offences_by (summary_effect (summaries (reverse a.macros))) a ++ others)) }
{}

/// Whether tokens spell an algorithm rests on their kinds and columns alone: tokens of other lines spell the same text in other lines.
/// And what may begin a spelled list of tokens is a matter of kinds and columns.
pub fn lines_of_algorithms_do_not_matter()
    ensures spelled { (s : Syntax) (ts us : List Token) → looks ts ≡ looks us → (x : Text) → Good s x → ts ≡ spell x []
        → (y : Text) × Good s y × (us ≡ spell y []) × (text_lineless y ≡ text_lineless x) }
    ensures begins { (s : Syntax) (ts more : List Token) (x : Text) → Good s x → spell x [] ≡ ts ++ more → Begins (algorithms s) (map Some (looks ts)) }
    ensures begun { (s : Syntax) (ts : List Token) → Begins (algorithms s) (map Some (looks ts)) → (x : Text) × (more : List Token) × Good s x × (spell x [] ≡ ts ++ more) }
{}

/// An algorithm that offends against no limit of counts has so many names at most: variables, processes, procedures, labels, and so all those that want
/// a written name.
pub fn counts_are_within_the_limits()
    ensures variables { (a : Algorithm) → count_offences a ≡ [] → length (variable_names a) ≤ most_variables }
    ensures processes { (a : Algorithm) → count_offences a ≡ [] → length (process_names a.main) ≤ most_processes }
    ensures procedures { (a : Algorithm) → count_offences a ≡ [] → length (procedure_names a) ≤ most_procedures }
    ensures labels { (a : Algorithm) → count_offences a ≡ [] → length (all_label_names a) ≤ most_labels }
    ensures names { (a : Algorithm) → count_offences a ≡ [] → length (wanted a) ≤ most_procedures + most_processes + most_variables + most_labels }
{}

/// Each token of an algorithm has one count of the forms that are open at it.
pub fn each_token_has_its_count()
    ensures { (x : Text) → length (opens x) ≡ length (spell x []) }
{}

/// In each algorithm, of round brackets that are right behind one another, the first right behind `:=`, the one behind k others has k + 1 forms of expressions
/// open at least; and of words `if` and `while` with nothing but heads of names, numbers, signs and brackets between them, the one behind k others has
/// k + 1 forms of statements open at least. So where there are too many of them no algorithm within the limits begins so.
pub fn forms_open_in_one_another()
    ensures brackets { (x : Text) (before after : List Look) (i c : ℕ) (cs : List ℕ) (o : Open) → looks (spell x []) ≡ before ++ assigned i cs ++ (bracket c ∷ after) → suc (length cs) ≤ (get_or (opens x) (length (before ++ assigned i cs)) o).expressions }
    ensures heads { (x : Text) (before after : List Look) (l : Look) (hs : List Head) (b : Bool) (c : ℕ) (o : Open) → IsTrue (is_before l.0) → AllByRecursion FineHead hs → looks (spell x []) ≡ before ++ (l ∷ heads hs (head_word b c ∷ after)) → suc (length hs) ≤ (get_or (opens x) (length (before ++ (l ∷ heads hs []))) o).statements }
    ensures few_brackets { (s : Syntax) (before : List Look) (i c : ℕ) (cs : List ℕ) → deepest_expression ≤ length cs → Passes (algorithms s) (map Some (before ++ assigned i cs ++ (bracket c ∷ []))) → ⊥ }
    ensures few_heads { (s : Syntax) (before : List Look) (l : Look) (hs : List Head) (b : Bool) (c : ℕ) → IsTrue (is_before l.0) → AllByRecursion FineHead hs → deepest_statement ≤ length hs → Passes (algorithms s) (map Some (before ++ (l ∷ heads hs (head_word b c ∷ [])))) → ⊥ }
{}

/// The tokens of an algorithm are refused at one place at most, by one rule, and then they don't pass.
pub fn tokens_are_refused_once()
    ensures once { (s : Syntax) (ts : List text.Token) (end : Place) (r q : Refusal) → RefusesTokens s ts end r → RefusesTokens s ts end q → r ≡ q }
    ensures not_both { (s : Syntax) (ts : List text.Token) (end : Place) (r : Refusal) → PassesTokens s ts → RefusesTokens s ts end r → ⊥ }
{}

/// Each state of a run by a script after the first is one that a step leads to: that of the process which the script names,
/// by its choices.
pub fn scripts_make_steps()
    ensures { (P : Program) (n : Turn) (s t : State) → StepBy P n s t → Step P s t }
{}

/// A state that comes of a step by choices, or of a start, is one to which just these choices lead in a run by a script;
/// and where a script's step leads to a state, it is replied to with that state, if each process is at one label at most.
pub fn replies_are_of_scripts()
    ensures step { (P : Program) (n : Turn) (s t : State) (l : Word) → stepped P s n.who n.choices ≡ reached (t, l) → StepBy P n s t }
    ensures taken { (P : Program) (n : Turn) (s t : State) → ((v : Actor) → IsActor P v → StandsOnce P s v) → StepBy P n s t
        → (u : State) × (l : Word) × (stepped P s n.who n.choices ≡ reached (u, l)) × Agree (vars P) u t }
    ensures start { (P : Program) (choices : List ℕ) (s : State) → start_by P choices ≡ reached s → Reaches P (walk (started P) choices) s }
{}

ghost use Rattle.std.specs.Prelude.{◌*◌};
ghost use Rattle.pcal_tree.specs.Grammar.{algorithm_of};
ghost use Rattle.pcal_tree.specs.Names.{kept};

/// The names that are taken from the start for an algorithm, without those outside of it, and those that want a written name, are together no more than the tokens that spell
/// it; and no more than twice as many with labels added. So a text has few names.
pub fn names_are_no_more_than_tokens()
    ensures typed { (x : Text) → length (kept (algorithm_of x)) + length (wanted (algorithm_of x)) ≤ length (spell x []) }
    ensures labelled { (forced : Bool) (x : Text) → length (kept (labelled forced (algorithm_of x))) + length (wanted (labelled forced (algorithm_of x))) ≤ 2 * length (spell x []) }
{}

ghost use Rattle.pcal_tree.specs.Algorithm.{Macro, done};
ghost use Rattle.pcal_tree.specs.laws.Expansion.{BeginsUnlabelled, Stays, BareBodies};
ghost use Rattle.pcal_tree.specs.Processes.{OneOf};

/// Where no rule on labels is broken, no macro's body has a label, and no statement of its list is a `goto`, a `call` or a `return`; so it begins with a statement if it
/// has one. This is what is asked of macros for their calls to be written out, but for names that are captured.
pub fn macros_have_no_labels_and_jumps()
    ensures bare { (a : Algorithm) → label_offences a ≡ [] → BareBodies (reverse a.macros) }
    ensures stays { (a : Algorithm) → label_offences a ≡ [] → (d : Macro) → OneOf d a.macros → Stays d.body }
    ensures begins { (a : Algorithm) → label_offences a ≡ [] → (d : Macro) → OneOf d a.macros → (d.body ≡ done → ⊥) → BeginsUnlabelled d.body }
{}
