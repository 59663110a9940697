//! Laws of accepted algorithms, stated as what functions without a body ensure.

ghost use Rattle.std.specs.Prelude.{◌≡◌, ◌≤◌, length, List, [], Bool, map, reverse, Some, None};
ghost use Rattle.tla_token.specs.Limits.{most_variables};
ghost use Rattle.tla_tree.specs.Tree.{Word};
ghost use Rattle.tla_value.specs.Outside.{Outside};
ghost use Rattle.pcal_tree.specs.Algorithm.{Statements, locals, Procedure, Routine, procedure_routines, routines, Algorithm};
ghost use Rattle.pcal_tree.specs.Expand.{graft_all, expanded};
ghost use Rattle.pcal_tree.specs.Labelled.{labelled};
ghost use Rattle.pcal_tree.specs.OffencesCounts.{variable_names, count_offences};
ghost use Rattle.pcal_tree.specs.OffencesLabels.{label_offences};
ghost use Rattle.pcal_tree.specs.OffencesOfNames.{name_offences};
ghost use Rattle.pcal_tree.specs.Processes.{OneOf};
ghost use Rattle.pcal_tree.specs.Program.{Program};
ghost use Rattle.pcal_tree.specs.Run.{unlabelled};
ghost use Rattle.pcal_tree.specs.StepStart.{Begin, begin, at_label};
ghost use Rattle.pcal_tree.specs.Variables.{declared, vars};
ghost use Rattle.module_tree.specs.TextFront.{Text};
ghost use Rattle.action_builder.specs.WrittenNames.{with_names, renames, written_statements};
ghost use Rattle.name_bits.specs.NamesIn.{most, AllApart};
ghost use Rattle.step_forms.specs.Opened.{opened, opened_program, IsOpenable};
ghost use Rattle.step_forms.specs.Steps.{Step, steps};
ghost use Rattle.promise.specs.Headline.{Stands};
ghost use Rattle.file_answer.specs.Checking.{AnswersChecking};
ghost use Rattle.translation.specs.laws.AcceptedAlgorithm.{IsAcceptedInFile};
ghost use Rattle.translation.specs.laws.WritableAlgorithm.{IsWritableAlgorithm};
ghost use Rattle.step_forms.specs.OldNames.{NoOld};
ghost use Rattle.build_premises.specs.Buildable.{CallsNamed, Buildable, SettledFor, InPartsFor, StepFits};

/// An accepted algorithm can be written, and breaks no rule on names and labels.
pub fn accepted_algorithms_break_no_rule()
    ensures writable { (o : Outside) (g : Algorithm) → IsAcceptedInFile o g → IsWritableAlgorithm o g }
    ensures names { (o : Outside) (g : Algorithm) → IsAcceptedInFile o g → name_offences g o ≡ [] }
    ensures labels { (o : Outside) (g : Algorithm) → IsAcceptedInFile o g → label_offences g ≡ [] }
{}

/// In each routine of an algorithm that can be written and breaks no rule on labels, with macro calls written out and in its written names, each left side begins with
/// a variable of the translation, no name of a `with` is that of the old stack, each call is of a procedure, and a `return` is only where there are procedures: in the whole
/// body, from each label on, and in each step as these are listed.
pub fn steps_can_be_built()
    ensures bodies { (o : Outside) (g : Algorithm) → IsWritableAlgorithm o g → label_offences g ≡ [] → (u : Routine) → OneOf u (routines g) → Buildable (with_names o g) (written_statements (with_names o g) u u.body) }
    ensures labels { (o : Outside) (g : Algorithm) → IsWritableAlgorithm o g → label_offences g ≡ [] → (u : Routine) → OneOf u (routines g) → (l : Word) (b : Begin) → at_label u l ≡ Some b
        → Buildable (with_names o g) (written_statements (with_names o g) u b.items) }
    ensures begins { (o : Outside) (g : Algorithm) → IsWritableAlgorithm o g → label_offences g ≡ [] → (u : Routine) → OneOf u (routines g) → (l : Word) (b : Begin) → begin l unlabelled (expanded (reverse g.macros) u.body) u.exit ≡ Some b
        → Buildable (with_names o g) (graft_all (renames (with_names o g) u) b.items) }
    ensures steps { (o : Outside) (g : Algorithm) → IsWritableAlgorithm o g → label_offences g ≡ [] → (u : Routine) → OneOf u (routines g) → (s : Step) → OneOf s (steps unlabelled (expanded (reverse g.macros) u.body) u.exit)
        → Buildable (with_names o g) (graft_all (renames (with_names o g) u) s.begins.items) }
{}

/// Such statements, wherever a step of the routine begins and ends, are settled with jumps, loops, calls and returns written as assignments, and the variables of the
/// process at its identifier. No process need be known that runs the routine. So it is with what each label begins.
pub fn what_can_be_built_is_settled()
    ensures settled { (P : Program) (u : Routine) → OneOf u (routines P.algorithm) → (here l : Word) (ss : Statements) → Buildable P ss → SettledFor P u here l ss }
    ensures old { (P : Program) (ss : Statements) → Buildable P ss → NoOld ss }
    ensures calls { (P : Program) (ss : Statements) → Buildable P ss → CallsNamed (procedure_routines P.algorithm) ss }
    ensures labels { (o : Outside) (g : Algorithm) → IsWritableAlgorithm o g → label_offences g ≡ [] → (u : Routine) → OneOf u (routines g) → (l : Word) (b : Begin) → at_label u l ≡ Some b
        → SettledFor (with_names o g) u l b.exit (written_statements (with_names o g) u b.items) }
    ensures begins { (o : Outside) (g : Algorithm) → IsWritableAlgorithm o g → label_offences g ≡ [] → (u : Routine) → OneOf u (routines g) → (l : Word) (b : Begin) → begin l unlabelled (expanded (reverse g.macros) u.body) u.exit ≡ Some b
        → SettledFor (with_names o g) u l b.exit (graft_all (renames (with_names o g) u) b.items) }
    ensures steps { (o : Outside) (g : Algorithm) → IsWritableAlgorithm o g → label_offences g ≡ [] → (u : Routine) → OneOf u (routines g) → (s : Step) → OneOf s (steps unlabelled (expanded (reverse g.macros) u.body) u.exit)
        → SettledFor (with_names o g) u s.label s.begins.exit (graft_all (renames (with_names o g) u) s.begins.items) }
{}

/// Such statements of an algorithm that can be written assign a variable several times in one statement only where each assignment is to a part of it, also once names are
/// written and jumps, loops, calls and returns are assignments.
pub fn whole_variables_are_assigned_once()
    ensures labels { (o : Outside) (g : Algorithm) → IsWritableAlgorithm o g → (u : Routine) → OneOf u (routines g) → (l : Word) (b : Begin) → at_label u l ≡ Some b
        → InPartsFor (with_names o g) u l b.exit (written_statements (with_names o g) u b.items) }
    ensures begins { (o : Outside) (g : Algorithm) → IsWritableAlgorithm o g → (u : Routine) → OneOf u (routines g) → (l : Word) (b : Begin) → begin l unlabelled (expanded (reverse g.macros) u.body) u.exit ≡ Some b
        → InPartsFor (with_names o g) u l b.exit (graft_all (renames (with_names o g) u) b.items) }
    ensures steps { (o : Outside) (g : Algorithm) → IsWritableAlgorithm o g → (u : Routine) → OneOf u (routines g) → (s : Step) → OneOf s (steps unlabelled (expanded (reverse g.macros) u.body) u.exit)
        → InPartsFor (with_names o g) u s.label s.begins.exit (graft_all (renames (with_names o g) u) s.begins.items) }
    ensures opened { (o : Outside) (g : Algorithm) → IsWritableAlgorithm o g → IsOpenable g → (u : Routine) → OneOf u (routines (opened g)) → (s : Step) → OneOf s (steps unlabelled u.body u.exit)
        → InPartsFor (opened_program (with_names o g)) u s.label s.begins.exit (graft_all (renames (opened_program (with_names o g)) u) s.begins.items) }
{}

/// Each step of an accepted algorithm with its macro calls written out has all that is wanted of it: its statements are settled, assign whole variables once, and keep no
/// old stack of their own.
pub fn accepted_steps_fit()
    ensures fit { (o : Outside) (g : Algorithm) → IsAcceptedInFile o g → (u : Routine) → OneOf u (routines (opened g)) → (s : Step) → OneOf s (steps unlabelled u.body u.exit)
        → StepFits (opened_program (with_names o g)) u s }
{}

/// The variables of the translation have different names, those that a routine declares have, and so have procedures.
pub fn names_are_apart()
    ensures variables { (o : Outside) (g : Algorithm) → IsWritableAlgorithm o g → name_offences g o ≡ [] → AllApart (vars (with_names o g)) }
    ensures locals { (o : Outside) (g : Algorithm) → IsWritableAlgorithm o g → (u : Routine) → OneOf u (routines g) → AllApart (declared (locals u)) }
    ensures procedures { (o : Outside) (g : Algorithm) → name_offences g o ≡ [] → AllApart (map (λ (p : Procedure). p.name.word) g.procedures) }
    ensures routines { (o : Outside) (g : Algorithm) → name_offences g o ≡ [] → AllApart (map (λ (u : Routine). u.name.word) (procedure_routines g)) }
{}

/// Where an algorithm declares no more variables than the limits allow, those of the translation are few enough to be numbered. Labels that are added change none of
/// them. So it is where nothing is wrong with a file.
pub fn variables_are_few()
    ensures few { (P : Program) → length (variable_names P.algorithm) ≤ most_variables → length (vars P) ≤ most }
    ensures labelled { (forced : Bool) (a : Algorithm) → count_offences a ≡ [] → length (variable_names (labelled forced a)) ≤ most_variables }
    ensures checked { (forced : Bool) (x : Text) → AnswersChecking forced x None → (a : Algorithm) → Stands x a → (o : Outside) → length (vars (with_names o (labelled forced a))) ≤ most }
{}

/// All this holds too of an algorithm with its macro calls written out, whose macros stay in it.
pub fn so_it_is_with_macro_calls_written_out()
    ensures statements { (P : Program) (ss : Statements) → Buildable P ss → Buildable (opened_program P) ss }
    ensures steps { (o : Outside) (g : Algorithm) → IsWritableAlgorithm o g → label_offences g ≡ [] → (u : Routine) → OneOf u (routines (opened g)) → (s : Step) → OneOf s (steps unlabelled u.body u.exit)
        → Buildable (opened_program (with_names o g)) (graft_all (renames (opened_program (with_names o g)) u) s.begins.items) }
    ensures settled { (o : Outside) (g : Algorithm) → IsWritableAlgorithm o g → label_offences g ≡ [] → (u : Routine) → OneOf u (routines (opened g)) → (s : Step) → OneOf s (steps unlabelled u.body u.exit)
        → SettledFor (opened_program (with_names o g)) u s.label s.begins.exit (graft_all (renames (opened_program (with_names o g)) u) s.begins.items) }
    ensures variables { (o : Outside) (g : Algorithm) → IsWritableAlgorithm o g → name_offences g o ≡ [] → AllApart (vars (opened_program (with_names o g))) }
    ensures few { (P : Program) → length (vars P) ≤ most → length (vars (opened_program P)) ≤ most }
    ensures locals { (o : Outside) (g : Algorithm) → IsWritableAlgorithm o g → (u : Routine) → OneOf u (routines (opened g)) → AllApart (declared (locals u)) }
    ensures procedures { (o : Outside) (g : Algorithm) → name_offences g o ≡ [] → AllApart (map (λ (p : Procedure). p.name.word) (opened g).procedures) }
{}
