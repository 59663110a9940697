//! Laws of the algorithm that is in a text, stated as what functions without a body ensure.

ghost use Rattle.std.specs.Prelude.{◌≡◌, ℕ, List, Some};
ghost use Rattle.pcal_tree.specs.Algorithm.{Algorithm};
ghost use Rattle.pcal_tree.specs.Grammar.{Syntax, Spells};
ghost use Rattle.pcal_tree.specs.Placeless.{placeless};
ghost use Rattle.module_tree.specs.AlgorithmText.{AlgorithmText, algorithm_in, algorithm_tokens};
ghost use Rattle.module_tree.specs.WithTranslation.{WithTranslation};
ghost use Rattle.module_tree.specs.laws.Kept.{IsFine};
ghost use Rattle.module_tree.specs.laws.Walks.{IsInside};
ghost use Rattle.promise.specs.Headline.{Stands};
ghost use Rattle.file_answer.specs.Holds.{HoldsTree};

/// A text has one algorithm at most, whichever syntax it is in: its place, its tokens, and the tree that these spell are one.
pub fn texts_have_one_algorithm()
    ensures held { (x : List ℕ) (g h : Algorithm) → HoldsTree x g → HoldsTree x h → g ≡ h }
    ensures stands { (x : List ℕ) (a b : Algorithm) → Stands x a → Stands x b → a ≡ b }
{}

/// In a file that breaks none of the rules 1 to 10 and 12 the algorithm that its tokens spell is in it. With a translation that is put into the file it
/// is in it too, places aside.
pub fn translations_keep_algorithms()
    ensures spelled { (x : List ℕ) (a : AlgorithmText) (s : Syntax) (g : Algorithm) → IsFine x → algorithm_in x ≡ Some a → Spells s (algorithm_tokens x a) g → Stands x g }
    ensures kept { (x t w : List ℕ) (g : Algorithm) → IsFine x → IsInside t → WithTranslation x t w → Stands x g → (h : Algorithm) × Stands w h × (placeless h ≡ placeless g) }
{}
