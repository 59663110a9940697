//! Laws of reading algorithms in P-syntax, stated as what functions without a body ensure.

ghost use Rattle.std.specs.Prelude.{◌≡◌, ◌⊎◌, ℕ, suc, ◌+◌, ◌*◌, ◌≤◌, codes, IsTrue, true, false, ◌++◌, List, [], ◌∷◌, length, take, map, get_or, Some, Ok, Err};
ghost use Rattle.std.specs.List.{list_all};
ghost use Rattle.tla_tree.specs.Lexical.{Token};
ghost use Rattle.tla_token.specs.Tokens as text;
ghost use Rattle.tla_token.specs.declared.rule.Rule.{Rule};
ghost use Rattle.tla_token.specs.declared.rule.Rule.TheVariants.{Syntax};
ghost use Rattle.pcal_tree.specs.Algorithm.{Algorithm};
ghost use Rattle.tla_token.specs.declared.rule.Refusal.{Refusal};
ghost use Rattle.tla_token.specs.declared.place.Place.{Place};
ghost use Rattle.tla_tree.specs.FirstStop.{looks, to_end, is_within, Begins, Passes, StopRule};
ghost use Rattle.pcal_tree.specs.AlgorithmTokens.{views};
ghost use Rattle.pcal_tree.specs.Grammar.{p_syntax, Text, Good, spell, algorithm_of, SpellsP};
ghost use Rattle.pcal_tree.specs.OpenForms.{opens};
ghost use Rattle.pcal_tree.specs.OffencesSyntax.{algorithms, PassesTokens, RefusesTokens};
ghost use Rattle.pcal_tree.specs.GrammarParts.{key};
ghost use Rattle.pcal_tree.specs.GrammarP.{Sequence};
ghost use Rattle.syntax_reading.specs.TokenReaders.{Parts};
ghost use Rattle.tla_tree.specs.Tree.{Name};
ghost use Rattle.pcal_tree.specs.GrammarParts.{name, no_labels, Section, MacroParameters, ProcedureParameters};
ghost use Rattle.pcal_tree.specs.Grammar.{Macro, Procedure, Fair, fair, Identity, Process};
ghost use Rattle.syntax_reading.specs.ReadParts.{read_section, read_macro_parameters, read_procedure_parameters};
ghost use Rattle.syntax_reading.specs.Completes.{Completes};
ghost use Rattle.syntax_reading.specs.Owners.{Owner, in_macro, in_procedure, in_process, in_main};
ghost use Rattle.p_reading.specs.ReadStatements.{State, begin, none, bottom, on, step, run, rest, open_in};
ghost use Rattle.p_reading.specs.ReadAlgorithm.{read_identity, read_text, read_algorithm, read_limited_algorithm};
ghost use Rattle.p_reading.specs.MissingAlgorithm.{completion};
ghost use Rattle.p_reading.specs.Resume.{Front, main_from, processes_from, procedures_from, macros_from, text_from, resume, main_rest, end_rest, rest_of_all};

/// What is read is an algorithm that may be spelled, and all the tokens are its tokens.
pub fn what_is_read_is_spelled()
    ensures { (ts : List Token) (x : Text) (rest : List Token) → read_algorithm ts ≡ Ok (x, rest) → Good p_syntax x × (ts ≡ spell x []) × (rest ≡ []) }
{}

/// What may be spelled is read from its tokens, all of it.
pub fn what_is_spelled_is_read()
    ensures { (x : Text) → Good p_syntax x → read_algorithm (spell x []) ≡ Ok (x, []) }
{}

/// Tokens spell one algorithm in P-syntax at most, in one way.
pub fn tokens_spell_one_algorithm()
    ensures phrase { (x y : Text) → Good p_syntax x → Good p_syntax y → spell x [] ≡ spell y [] → x ≡ y }
    ensures tree { (ts : List text.Token) (a b : Algorithm) → SpellsP ts a → SpellsP ts b → a ≡ b }
{}

/// Each refusal is by the rule of syntax: forms may be open in one another to any depth.
pub fn refusals_are_by_the_rule_of_syntax()
    ensures { (ts rest : List Token) (r : Rule) → read_algorithm ts ≡ Err (r, rest) → r ≡ Syntax }
{}

/// A refusal is not early: no algorithm begins with the tokens through the refused one, whatever comes after them; and what is
/// refused, at a token or at the end, is no algorithm.
pub fn nothing_passes_where_reading_stops()
    ensures refused { (ts : List Token) (t : Token) (rest : List Token) (r : Rule) → read_algorithm ts ≡ Err (r, t ∷ rest) → (passed : List Token) → ts ≡ passed ++ t ∷ rest → (x : Text) → Good p_syntax x → (more : List Token) → spell x [] ≡ passed ++ t ∷ more → ⊥ }
    ensures unspelled { (ts rest : List Token) (r : Rule) → read_algorithm ts ≡ Err (r, rest) → (x : Text) → Good p_syntax x → ts ≡ spell x [] → ⊥ }
{}

/// And a refusal is not late: what was passed before the refused token, or before the end, can be gone on with to a whole algorithm.
pub fn refusals_are_at_the_earliest_place()
    ensures { (ts passed rest : List Token) (r : Rule) → read_algorithm ts ≡ Err (r, rest) → ts ≡ passed ++ rest → (fix : List Token) × (x : Text) × Good p_syntax x × (spell x [] ≡ passed ++ fix) }
{}

/// What completes it is told by a function of the tokens that were passed: behind whatever begins an algorithm, and so behind what was
/// passed before a refused token, in a text too, the tokens that are missing of all that is open there make it a whole algorithm. They are
/// at most 16 for each form that is open at the first of them, and 16.
pub fn what_is_missing_completes()
    ensures begun { (passed more : List Token) (x : Text) → Good p_syntax x → spell x [] ≡ passed ++ more → Completes p_syntax passed (completion passed) }
    ensures refused { (ts passed rest : List Token) (r : Rule) → read_algorithm ts ≡ Err (r, rest) → ts ≡ passed ++ rest → Completes p_syntax passed (completion passed) }
    ensures within { (ts passed rest : List Token) (r : Rule) → read_limited_algorithm ts ≡ Err (r, rest) → ts ≡ passed ++ rest → Completes p_syntax passed (completion passed) }
    ensures tokens { (ts : List text.Token) (end : Place) (r : Refusal) → (a : RefusesTokens p_syntax ts end r) → Completes p_syntax (take a.passed (views ts)) (completion (take a.passed (views ts))) }
{}

/// The tokens of a text pass just where they are read as an algorithm in which nowhere too many forms are open; and it is theirs.
pub fn what_passes_is_read()
    ensures read { (ts : List text.Token) (x : Text) (rest : List Token) → read_algorithm (views ts) ≡ Ok (x, rest) → IsTrue (list_all is_within (opens x)) → PassesTokens p_syntax ts × SpellsP ts (algorithm_of x) }
    ensures passes { (ts : List text.Token) → PassesTokens p_syntax ts → (x : Text) × (read_algorithm (views ts) ≡ Ok (x, [])) × IsTrue (list_all is_within (opens x)) }
{}

/// Reading is refused at the first token that no algorithm has there, or at the end where none ends, as far as kinds and columns tell: so the
/// tokens of a text are refused there, as long as those before it pass. And where they are refused by the rule of syntax, reading is refused there.
pub fn tokens_are_refused_where_reading_stops()
    ensures first { (ts passed rest : List Token) (r : Rule) → read_algorithm ts ≡ Err (r, rest) → ts ≡ passed ++ rest
        → Begins (algorithms p_syntax) (take (length passed) (to_end ts)) × (Begins (algorithms p_syntax) (take (suc (length passed)) (to_end ts)) → ⊥) }
    ensures refused { (ts : List text.Token) (passed rest : List Token) (end : Place) (r : Rule) → read_algorithm (views ts) ≡ Err (r, rest) → views ts ≡ passed ++ rest → Passes (algorithms p_syntax) (map Some (looks passed))
        → RefusesTokens p_syntax ts end (record { rule = r; place = get_or (map (λ (t : text.Token). t.place) ts) (length passed) end }) }
    ensures syntax { (ts : List text.Token) (end at : Place) → RefusesTokens p_syntax ts end (record { rule = Syntax; place = at })
        → (passed rest : List Token) × (read_algorithm (views ts) ≡ Err (Syntax, rest)) × (views ts ≡ passed ++ rest) × (at ≡ get_or (map (λ (t : text.Token). t.place) ts) (length passed) end) }
{}

/// The limits of open forms only refuse: what is read within them is read without, and nowhere in it too many forms are open; and what is read
/// without them and has nowhere too many open is read within.
pub fn the_limits_only_refuse()
    ensures within { (ts : List Token) (x : Text) (rest : List Token) → read_limited_algorithm ts ≡ Ok (x, rest) → (read_algorithm ts ≡ Ok (x, rest)) × IsTrue (list_all is_within (opens x)) }
    ensures fits { (ts : List Token) (x : Text) (rest : List Token) → read_algorithm ts ≡ Ok (x, rest) → IsTrue (list_all is_within (opens x)) → read_limited_algorithm ts ≡ Ok (x, rest) }
{}

/// So the tokens of a text pass just where they are read within the limits, and what is read is their algorithm.
pub fn tokens_pass_where_they_are_read()
    ensures read { (ts : List text.Token) (x : Text) (rest : List Token) → read_limited_algorithm (views ts) ≡ Ok (x, rest) → PassesTokens p_syntax ts × SpellsP ts (algorithm_of x) }
    ensures passes { (ts : List text.Token) → PassesTokens p_syntax ts → (x : Text) × (read_limited_algorithm (views ts) ≡ Ok (x, [])) }
{}

/// A refusal within the limits is not early, and it is by the rule of the grammar: the tokens through the refused one, or with the end after them,
/// don't pass, since too many forms are open in each algorithm that begins so, or since none does. Nor is it late: what was passed before passes.
pub fn limited_refusals_are_at_the_earliest_place()
    ensures through { (ts passed rest : List Token) (r : Rule) → read_limited_algorithm ts ≡ Err (r, rest) → ts ≡ passed ++ rest
        → (Passes (algorithms p_syntax) (take (suc (length passed)) (to_end ts)) → ⊥) × StopRule (algorithms p_syntax) (take (suc (length passed)) (to_end ts)) r }
    ensures passed { (ts passed rest : List Token) (r : Rule) → read_limited_algorithm ts ≡ Err (r, rest) → ts ≡ passed ++ rest → Passes (algorithms p_syntax) (map Some (looks passed)) }
{}

/// So the tokens of a text, whatever they are, pass with an algorithm or are refused, just as reading within the limits does it: what is refused is
/// refused at that token, or at the end, by the rule of the refusal.
pub fn tokens_are_read_or_refused()
    ensures one { (ts : List text.Token) (end : Place) → ((a : Algorithm) × PassesTokens p_syntax ts × SpellsP ts a) ⊎ ((r : Refusal) × RefusesTokens p_syntax ts end r) }
    ensures refused { (ts : List text.Token) (passed rest : List Token) (end : Place) (r : Rule) → read_limited_algorithm (views ts) ≡ Err (r, rest) → views ts ≡ passed ++ rest
        → RefusesTokens p_syntax ts end (record { rule = r; place = get_or (map (λ (t : text.Token). t.place) ts) (length passed) end }) }
{}

/// What stands open in a list of statements is closed by `rest`, whatever it is: with these words after it the list is read up to the
/// `end` that comes then. They are at most four for each form that is open, and one.
pub fn what_stands_open_is_closed()
    ensures closed { (m : Parts) (n : ℕ) (s : State) (p : Place) (ts : List Token) → suc (length (rest s)) ≤ n → (ss : Sequence) × (run m n s (rest s ++ key p (codes "end") ts) ≡ Ok (ss, key p (codes "end") ts)) }
    ensures few { (s : State) → length (rest s) ≤ 4 * open_in s + 1 }
{}

/// What stands open in the lists of statements of a whole algorithm, in the body of a macro, a procedure or a process or in its main part, is closed
/// by `rest_of_all`, up to the end of the algorithm: with these tokens behind it reading goes on to a whole algorithm and to the last token. They
/// are at most four for each form that is open there, and seven. Between the parts it is the shortest main part, or the end of the algorithm.
pub fn what_stands_open_in_an_algorithm_is_closed()
    ensures closed { (m : Parts) (k j n : ℕ) (f : Front) (o : Owner) (s : State) → 3 ≤ k → 1 ≤ j → suc (length (rest s)) ≤ n → (x : Text) × (resume m k j n f o s (rest_of_all o s) ≡ Ok (x, [])) }
    ensures macros { (m : Parts) (k j : ℕ) (f : Front) (ns : List Macro) → 3 ≤ k → 1 ≤ j → (x : Text) × (macros_from m k j f ns main_rest ≡ Ok (x, [])) }
    ensures procedures { (m : Parts) (j k : ℕ) (f : Front) (ms : List Macro) (qs : List Procedure) → 3 ≤ k → 1 ≤ j → (x : Text) × (procedures_from m j k f ms qs main_rest ≡ Ok (x, [])) }
    ensures processes { (m : Parts) (j : ℕ) (f : Front) (ms : List Macro) (ps : List Procedure) (ys : List Process) (y : Process) → 1 ≤ j → (x : Text) × (processes_from m j f ms ps ys y end_rest ≡ Ok (x, [])) }
    ensures few { (o : Owner) (s : State) → length (rest_of_all o s) ≤ 4 * open_in s + 7 }
{}

/// Reading an algorithm goes through the lists of statements in it, whatever comes: from the first token to the macros; where the body of a macro, a
/// procedure or a process or the main part begins, to the first state of its list, with what was read before it; and from state to state. After
/// the list it goes on as `resume` says, to what comes after this macro, procedure or process.
pub fn reading_goes_through_the_lists()
    ensures text { (m : Parts) (n : ℕ) (ts : List Token) → read_text m n ts ≡ text_from m n ts }
    ensures macros { (m : Parts) (k j : ℕ) (f : Front) (ns : List Macro) (p : Place) (x : Name) (xs : MacroParameters) (a : Place) (ts us : List Token) → read_macro_parameters j ts ≡ Ok (xs, key a (codes "begin") us)
        → macros_from m k (suc j) f ns (key p (codes "macro") (name x ts)) ≡ resume m k j j f (in_macro ns p x xs a) (begin none no_labels bottom) us }
    ensures procedures { (m : Parts) (k j : ℕ) (f : Front) (ms : List Macro) (qs : List Procedure) (p : Place) (x : Name) (xs : ProcedureParameters) (vs : Section) (a : Place) (ts us ws : List Token)
        → read_procedure_parameters m j ts ≡ Ok (xs, us) → read_section false m j us ≡ Ok (vs, key a (codes "begin") ws)
        → procedures_from m (suc j) k f ms qs (key p (codes "procedure") (name x ts)) ≡ resume m k j j f (in_procedure ms qs p x xs vs a) (begin none no_labels bottom) ws }
    ensures first_process { (m : Parts) (k j : ℕ) (f : Front) (ms : List Macro) (ps : List Procedure) (q : Fair) (p : Place) (i : Identity) (vs : Section) (a : Place) (ts us ws : List Token)
        → read_identity m ts ≡ Ok (i, us) → read_section true m j us ≡ Ok (vs, key a (codes "begin") ws)
        → main_from m j f ms ps (fair q (key p (codes "process") ts)) ≡ resume m k j j f (in_process ms ps [] q p i vs a) (begin none no_labels bottom) ws }
    ensures next_process { (m : Parts) (k j : ℕ) (f : Front) (ms : List Macro) (ps : List Procedure) (ys : List Process) (x : Process) (q : Fair) (p : Place) (i : Identity) (vs : Section) (a : Place) (ts us ws : List Token)
        → read_identity m ts ≡ Ok (i, us) → read_section true m j us ≡ Ok (vs, key a (codes "begin") ws)
        → processes_from m (suc j) f ms ps ys x (fair q (key p (codes "process") ts)) ≡ resume m k j j f (in_process ms ps (ys ++ x ∷ []) q p i vs a) (begin none no_labels bottom) ws }
    ensures steps { (m : Parts) (k j n : ℕ) (f : Front) (o : Owner) (s : State) (ts : List Token) (t : State) (us : List Token) → step m n s ts ≡ Ok (on t, us) → resume m k j (suc n) f o s ts ≡ resume m k j n f o t us }
    ensures main { (m : Parts) (j k : ℕ) (f : Front) (ms : List Macro) (ps : List Procedure) (a : Place) (us : List Token) → main_from m k f ms ps (key a (codes "begin") us) ≡ resume m k j k f (in_main ms ps a) (begin none no_labels bottom) us }
{}
