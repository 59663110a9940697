//! Laws of printed algorithms, stated as what functions without a body ensure.

ghost use Rattle.std.specs.Prelude.{◌≡◌, ℕ, List, [], true, false, length, drop, Some, Ok};
ghost use Rattle.tla_token.specs.Tokens as text;
ghost use Rattle.tla_token.specs.Tokens.{TokAlgorithm, holds_mark, stretch};
ghost use Rattle.tla_token.specs.declared.place.Place.{Place};
ghost use Rattle.tla_token.specs.declared.rule.Refusal.{Refusal};
ghost use Rattle.tla_token.specs.declared.rule.Rule.TheVariants.{TooDeep};
ghost use Rattle.pcal_tree.specs.OffencesSyntax.{RefusesTokens};
ghost use Rattle.pcal_tree.specs.Algorithm.{Algorithm};
ghost use Rattle.pcal_tree.specs.AlgorithmTokens.{views};
ghost use Rattle.pcal_tree.specs.Placeless.{placeless};
ghost use Rattle.pcal_tree.specs.Grammar.{Syntax, Text, algorithm_of, Spells, SpellsP, SpellsC};
ghost use Rattle.pcal_tree.specs.Printed.{PText, CText, printed};
ghost use Rattle.p_reading.specs.ReadAlgorithm as p;
ghost use Rattle.c_reading.specs.ReadAlgorithm as c;
ghost use Rattle.tla_tree.specs.laws.InText.{ends_word};
ghost use Rattle.tla_tree.specs.laws.Writable.{AreSmall};
ghost use Rattle.module_tree.specs.Beginnings.{is_options, all_at};
ghost use Rattle.module_tree.specs.Walk.{walk};
ghost use Rattle.module_tree.specs.FileOffences.{offences_of, algorithm_offences};
ghost use Rattle.module_tree.specs.AlgorithmText.{AlgorithmText, algorithm_in, algorithm_tokens};
ghost use Rattle.module_tree.specs.laws.Kept.{IsFine, only_large};
ghost use Rattle.module_tree.specs.laws.Swaps.{is_paired};
ghost use Rattle.printed_text.specs.Rewritten.{gap, Rewritten};
ghost use Rattle.printed_text.specs.Rewrites.{Rewrites};
ghost use Rattle.printed_text.specs.laws.BreaksFew.{BreaksFew};
ghost use Rattle.printed_text.specs.laws.HoldsPrinted.{past_stage, HoldsPrinted};
ghost use Rattle.printed_text.specs.laws.Printable.{IsPrintable};

/// The text that is printed of an algorithm is cut into the tokens of an algorithm, and these spell it in the syntax, places aside.
pub fn printed_algorithms_are_spelled()
    ensures p { (a : Algorithm) → IsPrintable a → (ts : List text.Token) × (b : Algorithm) × TokAlgorithm (PText a) 0 (length (PText a)) ts × SpellsP ts b × (placeless b ≡ placeless a) }
    ensures c { (a : Algorithm) → IsPrintable a → (ts : List text.Token) × (b : Algorithm) × TokAlgorithm (CText a) 0 (length (CText a)) ts × SpellsC ts b × (placeless b ≡ placeless a) }
{}

/// The tokens of the text spell no other algorithm, places aside, in either syntax, and it is read of them; so algorithms with one text differ in places alone.
pub fn printed_algorithms_are_read_back()
    ensures only { (s t : Syntax) (a b : Algorithm) (ts : List text.Token) → IsPrintable a → TokAlgorithm (printed s a) 0 (length (printed s a)) ts → Spells t ts b → (t ≡ s) × (placeless b ≡ placeless a) }
    ensures p { (a : Algorithm) (ts : List text.Token) → IsPrintable a → TokAlgorithm (PText a) 0 (length (PText a)) ts → (x : Text) × (p.read_algorithm (views ts) ≡ Ok (x, [])) × (placeless (algorithm_of x) ≡ placeless a) }
    ensures c { (a : Algorithm) (ts : List text.Token) → IsPrintable a → TokAlgorithm (CText a) 0 (length (CText a)) ts → (x : Text) × (c.read_algorithm (views ts) ≡ Ok (x, [])) × (placeless (algorithm_of x) ≡ placeless a) }
    ensures one { (s t : Syntax) (a b : Algorithm) → IsPrintable a → IsPrintable b → printed s a ≡ printed t b → (t ≡ s) × (placeless a ≡ placeless b) }
{}

/// An algorithm that is printed in a syntax, read, printed in the same or the other one and read again is the same, places aside, and its text
/// in the first syntax is the first text, to the byte.
pub fn printing_goes_back()
    ensures some { (s t : Syntax) (a b : Algorithm) (ts : List text.Token) → IsPrintable a → TokAlgorithm (printed s a) 0 (length (printed s a)) ts → Spells s ts b
        → (us : List text.Token) × (c : Algorithm) × TokAlgorithm (printed t b) 0 (length (printed t b)) us × Spells t us c }
    ensures same { (s t : Syntax) (a b c : Algorithm) (ts us : List text.Token) → IsPrintable a → TokAlgorithm (printed s a) 0 (length (printed s a)) ts → Spells s ts b
        → TokAlgorithm (printed t b) 0 (length (printed t b)) us → Spells t us c → (placeless c ≡ placeless a) × (printed s c ≡ printed s a) }
{}

/// A printed text holds no mark of a comment, so it opens and closes comments only within itself.
pub fn printed_algorithms_hold_no_comments()
    ensures unmarked { (s : Syntax) (a : Algorithm) → IsPrintable a → holds_mark (printed s a) ≡ false }
    ensures paired { (s : Syntax) (a : Algorithm) → IsPrintable a → is_paired 0 (printed s a) ≡ true }
{}

/// What is spelled in a text, in either syntax, can be printed, but for numbers that are too large.
pub fn spelled_algorithms_can_be_printed()
    ensures { (s : Syntax) (w : List ℕ) (from to : ℕ) (ts : List text.Token) (a : Algorithm) → TokAlgorithm w from to ts → AreSmall ts → Spells s ts a → IsPrintable a }
{}

/// What is printed of an algorithm rests on no place.
pub fn printing_rests_on_no_place()
    ensures { (s : Syntax) (a b : Algorithm) → placeless a ≡ placeless b → printed s a ≡ printed s b }
{}

/// Each file whose algorithm is spelled by its tokens has, in each syntax, one file with the algorithm printed in its place and all other bytes as they were. If the file breaks
/// none of the rules 1 to 10 and 12, and its algorithm opens and closes comments only within itself, the printed text is just the algorithm that is
/// there then: it begins where the old one did, ends as one in that syntax does, and its tokens spell the same algorithm in it, places aside.
pub fn rewritten_files_hold_the_algorithm()
    ensures some { (s t : Syntax) (x : List ℕ) (a : AlgorithmText) (g : Algorithm) → algorithm_in x ≡ Some a → Spells t (algorithm_tokens x a) g → (w : List ℕ) × Rewritten s x w }
    ensures one { (s : Syntax) (x w v : List ℕ) → Rewritten s x w → Rewritten s x v → w ≡ v }
    ensures holds { (s : Syntax) (x w : List ℕ) → IsFine x → (r : Rewritten s x w) → is_paired 0 (stretch x r.old.from r.old.rest.to) ≡ true → HoldsPrinted s r.tree r.old.from w }
{}

/// Where a file's segments break no rule, nor the parts of its algorithm one but that on numbers (12), an algorithm that its tokens spell has its end in the file, as
/// algorithms of its syntax have; so the syntax in which it is looked at, which goes by a brace behind its name, is the one in which it is spelled.
pub fn spelled_algorithms_have_an_end()
    ensures { (s : Syntax) (x : List ℕ) (a : AlgorithmText) (g : Algorithm) → offences_of (walk x) ≡ [] → algorithm_in x ≡ Some a → only_large (algorithm_offences (Some a)) ≡ true → Spells s (algorithm_tokens x a) g → a.rest.stage ≡ past_stage s }
{}

/// And the tokens of the algorithm that is there are never refused by the rule of syntax (15), but at most since too many forms are open in one another (14).
pub fn spelled_tokens_are_refused_for_depth_alone()
    ensures { (s : Syntax) (ts : List text.Token) (a : Algorithm) (end : Place) (r : Refusal) → Spells s ts a → RefusesTokens s ts end r → r.rule ≡ TooDeep }
{}

/// So where a file that breaks none of the rules 1 to 10 and 12 has an algorithm that opens and closes comments only within itself, the file with the
/// algorithm printed in its place can break, of the rules 1 to 15, only that on options (10) and those on too much: too many tokens (13), and too many forms
/// open in one another (14). The algorithm that stands in it is the same, places aside. And where no options begin in the printed text, that file breaks none of the rules 1 to 10 and 12.
pub fn rewritten_files_break_few_rules()
    ensures few { (s : Syntax) (x w : List ℕ) → IsFine x → (r : Rewritten s x w) → is_paired 0 (stretch x r.old.from r.old.rest.to) ≡ true → (h : HoldsPrinted s r.tree r.old.from w) × BreaksFew s w h.text }
    ensures fine { (s : Syntax) (x w : List ℕ) → IsFine x → (r : Rewritten s x w) → is_paired 0 (stretch x r.old.from r.old.rest.to) ≡ true → all_at is_options 0 (printed s r.tree) ≡ [] → IsFine w }
{}

/// Rewritten once more, in the same or the other syntax, as long as it breaks none of these rules then, it holds the first file's algorithm, printed in that syntax.
/// So a file with a printed algorithm, behind which no word goes on, is rewritten in the other syntax and back to just itself; and in its own syntax
/// it is itself.
pub fn files_are_rewritten_again()
    ensures holds { (s t : Syntax) (x w v : List ℕ) → IsFine x → (r : Rewritten s x w) → is_paired 0 (stretch x r.old.from r.old.rest.to) ≡ true → IsFine w → Rewritten t w v → HoldsPrinted t r.tree r.old.from v }
    ensures back { (s t : Syntax) (x w v : List ℕ) → IsFine x → (r : Rewritten s x w) → stretch x r.old.from r.old.rest.to ≡ printed t r.tree → ends_word (drop r.old.rest.to x) ≡ true → IsFine w → Rewritten t w v → v ≡ x }
    ensures same { (s : Syntax) (x w : List ℕ) → IsFine x → (r : Rewritten s x w) → stretch x r.old.from r.old.rest.to ≡ printed s r.tree → gap s (drop r.old.rest.to x) ≡ [] → w ≡ x }
{}

/// So a file that breaks none of the rules 1 to 10 and 12, with its algorithm printed in its place, keeps the promise of a rewriting.
pub fn printing_an_algorithm_in_its_file_rewrites_it()
    ensures { (s : Syntax) (x w : List ℕ) → IsFine x → Rewritten s x w → Rewrites s x w }
{}
