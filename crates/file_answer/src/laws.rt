//! Laws of what rewritings are answered, stated as what functions without a body ensure.

ghost use Rattle.std.specs.Prelude.{◌≡◌, ◌++◌, ℕ, Bool, List, [], true, Option, Some, None};
ghost use Rattle.tla_token.specs.Tokens.{stretch};
ghost use Rattle.tla_token.specs.declared.rule.Refusal.{Refusal};
ghost use Rattle.tla_token.specs.AlgorithmOffences.{algorithm_offences};
ghost use Rattle.tla_value.specs.Outside.{Outside};
ghost use Rattle.pcal_tree.specs.Algorithm.{Algorithm};
ghost use Rattle.pcal_tree.specs.Labelled.{labelled};
ghost use Rattle.pcal_tree.specs.OffencesLabels.{label_offences};
ghost use Rattle.pcal_tree.specs.OffencesOfNames.{name_offences};
ghost use Rattle.pcal_tree.specs.Offences.{first};
ghost use Rattle.pcal_tree.specs.Grammar.{Syntax};
ghost use Rattle.pcal_tree.specs.Printed.{printed};
ghost use Rattle.module_tree.specs.Beginnings.{is_options, all_at};
ghost use Rattle.module_tree.specs.AlgorithmText.{AlgorithmText, algorithm_in, algorithm_tokens};
ghost use Rattle.module_tree.specs.FileOffences.{splitting_offences, RefusesSplit};
ghost use Rattle.module_tree.specs.Walk.{walk};
ghost use Rattle.module_tree.specs.laws.Kept.{IsFine};
ghost use Rattle.module_tree.specs.laws.Outsides.{HasOutside};
ghost use Rattle.macro_expand.specs.TooLarge.{too_large};
ghost use Rattle.module_tree.specs.laws.Swaps.{is_paired};
ghost use Rattle.printed_text.specs.Rewritten.{Rewritten};
ghost use Rattle.printed_text.specs.Rewrites.{Rewrites};
ghost use Rattle.algorithm_answer.specs.Answered.{or_counts};
ghost use Rattle.algorithm_answer.specs.TokensRefused.{placed};
ghost use Rattle.file_answer.specs.Mapped.{IsMapped};
ghost use Rattle.file_answer.specs.Refusals.{or_else};
ghost use Rattle.file_answer.specs.Spelling.{AreRead, AreCounted, AnswersRewriting};
ghost use Rattle.file_answer.specs.Checking.{AnswersChecking};
ghost use Rattle.file_answer.specs.Holds.{HoldsTree};
ghost use Rattle.file_answer.specs.laws.FewRules.{is_too_much, is_options_or_too_much};

/// Each file has just one answer to a rewriting.
pub fn files_have_one_answer()
    ensures some { (x : List ℕ) → (r : Option Refusal) × AnswersRewriting x r }
    ensures one { (x : List ℕ) (r q : Option Refusal) → AnswersRewriting x r → AnswersRewriting x q → r ≡ q }
{}

/// A file that is refused before its algorithm is read, by the least of the rules 1 to 10 that it breaks, is answered so.
pub fn files_are_answered_as_they_are_split()
    ensures { (x : List ℕ) (r : Refusal) → RefusesSplit x r → AnswersRewriting x (Some r) }
{}

/// Where a file breaks none of the rules 1 to 10, its algorithm decides the answer: it is the first of what is wrong with the tokens, one by one, and,
/// where these stop, the refusal there, and else what is past a limit in what they spell.
pub fn the_algorithm_decides()
    ensures { (x : List ℕ) (a : AlgorithmText) (s : Option Refusal) (cs : List Refusal) → splitting_offences x ≡ [] → algorithm_in x ≡ Some a → AreRead x a s → AreCounted x a s cs → AnswersRewriting x (first (placed x (algorithm_offences (algorithm_tokens x a)) ++ or_counts s cs)) }
{}

/// A file that is not refused breaks none of the rules 1 to 10 and 12, and its algorithm's tokens spell a tree.
pub fn files_that_are_not_refused_hold_a_tree()
    ensures fine { (x : List ℕ) → AnswersRewriting x None → IsFine x }
    ensures held { (x : List ℕ) → AnswersRewriting x None → (g : Algorithm) × HoldsTree x g }
{}

/// With a file that a rewriting doesn't refuse nothing is wrong for a check either, where its algorithm, with labels added, breaks no rule on names
/// and on labels, and isn't too large.
pub fn files_that_break_no_later_rule_have_nothing_wrong()
    ensures { (forced : Bool) (x : List ℕ) → AnswersRewriting x None → ((g : Algorithm) (o : Outside) → HoldsTree x g → HasOutside (walk x) o → (name_offences (labelled forced g) o ≡ []) × (label_offences (labelled forced g) ≡ []) × (too_large (labelled forced g) ≡ []))
        → AnswersChecking forced x None }
{}

/// Each file has just one answer to a check.
pub fn files_have_one_answer_to_a_check()
    ensures some { (forced : Bool) (x : List ℕ) → (r : Option Refusal) × AnswersChecking forced x r }
    ensures one { (forced : Bool) (x : List ℕ) (r q : Option Refusal) → AnswersChecking forced x r → AnswersChecking forced x q → r ≡ q }
{}

/// What refuses a rewriting of a file refuses a check of it.
pub fn what_refuses_a_rewriting_refuses_a_check()
    ensures { (forced : Bool) (x : List ℕ) (r : Refusal) → AnswersRewriting x (Some r) → AnswersChecking forced x (Some r) }
{}

/// Where a rewriting isn't refused, a check is answered by what is wrong with the names of the algorithm with labels added, and, where nothing is, with its
/// labels and its size.
pub fn names_and_then_labels_decide_a_check()
    ensures { (forced : Bool) (x : List ℕ) (g : Algorithm) (o : Outside) → AnswersRewriting x None → HoldsTree x g → HasOutside (walk x) o
        → AnswersChecking forced x (first (or_else (name_offences (labelled forced g) o) (label_offences (labelled forced g) ++ too_large (labelled forced g)))) }
{}

/// A file that a check doesn't refuse is not refused by a rewriting.
pub fn what_a_check_accepts_is_rewritten()
    ensures { (forced : Bool) (x : List ℕ) → AnswersChecking forced x None → AnswersRewriting x None }
{}

/// A file that a check doesn't refuse has just one list of its labels' places.
pub fn files_that_are_not_refused_have_one_map()
    ensures some { (forced : Bool) (x : List ℕ) → AnswersChecking forced x None → (w : List ℕ) × IsMapped forced x w }
    ensures one { (forced : Bool) (x w v : List ℕ) → IsMapped forced x w → IsMapped forced x v → w ≡ v }
{}

/// In each syntax there is one file with the algorithm of a file that is not refused printed in its place, and it keeps the promise of a rewriting.
pub fn files_that_are_not_refused_are_rewritten()
    ensures { (s : Syntax) (x : List ℕ) → AnswersRewriting x None → (w : List ℕ) × Rewrites s x w × ((v : List ℕ) → Rewritten s x v → v ≡ w) }
{}

/// Where the algorithm of a file opens and closes comments only within itself, the rewritten file can be refused by three rules alone: that on
/// options (10) and those on too much (13 and 14). And where no options begin in the printed text, by the two on too much.
pub fn rewritten_files_are_refused_by_few_rules()
    ensures few { (s : Syntax) (x w : List ℕ) → AnswersRewriting x None → (r : Rewritten s x w) → is_paired 0 (stretch x r.old.from r.old.rest.to) ≡ true → (q : Refusal) → AnswersRewriting w (Some q) → is_options_or_too_much q.rule ≡ true }
    ensures size { (s : Syntax) (x w : List ℕ) → AnswersRewriting x None → (r : Rewritten s x w) → is_paired 0 (stretch x r.old.from r.old.rest.to) ≡ true → all_at is_options 0 (printed s r.tree) ≡ [] → (q : Refusal) → AnswersRewriting w (Some q) → is_too_much q.rule ≡ true }
{}
