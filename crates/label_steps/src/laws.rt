//! The rules on steps in two parts, stated as what a function without a body ensures.

ghost use Rattle.std.specs.Prelude.{◌≡◌, [], false, Some, None};
ghost use Rattle.std.specs.Option.{option_or};
ghost use Rattle.tla_tree.specs.Tree.{Word, Trees};
ghost use Rattle.pcal_tree.specs.Algorithm.{Statement, Statements, Algorithm};
ghost use Rattle.pcal_tree.specs.Offences.{first};
ghost use Rattle.pcal_tree.specs.Paths.{Effect};
ghost use Rattle.pcal_tree.specs.laws.MacroSummaries.{Found, found};
ghost use Rattle.label_jumps.specs.Parted.{missing_in};
ghost use Rattle.label_steps.specs.AssignedTwice.{assigned_twice};
ghost use Rattle.label_steps.specs.Gathered.{gathered, FoundAlike};
ghost use Rattle.label_steps.specs.MissingLabels.{due_in, missing_labels};
ghost use Rattle.label_steps.specs.StraightPaths.{straight_offences};

/// What is assigned twice counts only where no label is missing.
pub fn missing_labels_come_first()
    ensures { (C : Word → Trees → Effect) (a : Algorithm) → first (missing_in C a) ≡ option_or (first (missing_labels a)) (first (assigned_twice C a)) }
{}

/// Where no label is missing, paths needn't be followed round loops or behind jumps.
pub fn paths_are_straight_where_no_label_is_missing()
    ensures { (C : Word → Trees → Effect) (a : Algorithm) → missing_labels a ≡ [] → assigned_twice C a ≡ straight_offences C a }
{}

/// What is found in a macro's body where no label is missing is gathered along straight paths.
pub fn macros_are_gathered_along_straight_paths()
    ensures { (S : Statement → Found) (b : Statements) → due_in false None b ≡ [] → FoundAlike (gathered S (Some []) b) (found S false (Some []) b) }
{}
