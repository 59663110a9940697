//! Laws of fairness, stated as what functions without a body ensure.

ghost use Rattle.pcal_tree.specs.Program.{Program};
ghost use Rattle.fairness.specs.Obligations.{obligations};
ghost use Rattle.fairness.specs.FairnessLines.{fairness_lines};
ghost use Rattle.fairness.specs.laws.LinesOfObligations.{AreOf};

/// Spec has one formula of fairness for each obligation, in their order: weak or strong as the obligation is, of its process's steps, and from its labels. Its action steps
/// from these and others, and the test before it is true exactly where the process is at none of the others.
pub fn each_obligation_has_its_line()
    ensures { (P : Program) → AreOf P (obligations P) (fairness_lines P) }
{}
