//! That the translation is made step by step where macro calls are written out first, as what functions without a body ensure.

ghost use Rattle.std.specs.Prelude.{◌≡◌, Bool};
ghost use Rattle.tla_value.specs.Outside.{Outside};
ghost use Rattle.pcal_tree.specs.Algorithm.{Algorithm};
ghost use Rattle.pcal_tree.specs.Program.{Program};
ghost use Rattle.action_builder.specs.WrittenNames.{with_names};
ghost use Rattle.fairness.specs.FairnessLines.{fairness_lines};
ghost use Rattle.step_forms.specs.Opened.{opened_program, IsOpenable};
ghost use Rattle.translation.specs.Region.{region_of};
ghost use Rattle.translation.specs.laws.AcceptedAlgorithm.{IsAcceptedInFile};
ghost use Rattle.region_forms.specs.RegionBySteps.{region_by_steps};

/// Where no rule on labels is broken and each macro has a statement, as in each accepted algorithm, the translation is that of the algorithm
/// with its macro calls written out, its formulas of fairness too, and its actions are those of the steps in one walk over each body.
pub fn translations_are_written_step_by_step()
    ensures openable { (o : Outside) (g : Algorithm) → IsAcceptedInFile o g → IsOpenable g }
    ensures fairness { (P : Program) → IsOpenable P.algorithm → fairness_lines (opened_program P) ≡ fairness_lines P }
    ensures opened { (b : Bool) (P : Program) → IsOpenable P.algorithm → region_of b (opened_program P) ≡ region_of b P }
    ensures steps { (b : Bool) (P : Program) → IsOpenable P.algorithm → region_by_steps b (opened_program P) ≡ region_of b P }
    ensures accepted { (b : Bool) (o : Outside) (g : Algorithm) → IsAcceptedInFile o g → region_by_steps b (opened_program (with_names o g)) ≡ region_of b (with_names o g) }
{}
