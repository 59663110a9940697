//! The rules on labels in two parts, stated as what a function without a body ensures.

ghost use Rattle.std.specs.Prelude.{◌≡◌};
ghost use Rattle.tla_tree.specs.Tree.{Word, Trees};
ghost use Rattle.pcal_tree.specs.Algorithm.{Algorithm};
ghost use Rattle.pcal_tree.specs.Offences.{first};
ghost use Rattle.pcal_tree.specs.OffencesLabels.{label_offences_by};
ghost use Rattle.pcal_tree.specs.Paths.{Effect};
ghost use Rattle.algorithm_answer.specs.Joined.{joined};
ghost use Rattle.label_jumps.specs.Parted.{missing_in, misplaced_in};

/// The first offence against the rules on labels is the sooner one of the first label that is missing or variable that is assigned
/// twice, and of the first of what is misplaced.
pub fn label_rules_are_two_parts()
    ensures { (C : Word → Trees → Effect) (a : Algorithm) → first (label_offences_by C a) ≡ joined (first (missing_in C a)) (first (misplaced_in a)) }
{}
