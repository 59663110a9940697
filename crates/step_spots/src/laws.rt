//! What a list of labels tells, stated as what a function without a body ensures.

ghost use Rattle.std.specs.Prelude.{◌≡◌, map};
ghost use Rattle.std.specs.Option.{option_map};
ghost use Rattle.tla_tree.specs.Tree.{Word};
ghost use Rattle.pcal_tree.specs.Algorithm.{Routine};
ghost use Rattle.pcal_tree.specs.OffencesLabels.{label_words};
ghost use Rattle.pcal_tree.specs.StepStart.{at_label};
ghost use Rattle.pcal_tree.specs.StepAnswers.{label_place};
ghost use Rattle.step_spots.specs.Spots.{Spot, routine_spots, spot_named, place_of};

/// The list of a routine's labels has them all, in the order of the text. A step at a label begins after the first of that name, and that
/// is where the label is.
pub fn labels_are_listed_once()
    ensures labels { (u : Routine) → label_words u.body ≡ map (λ (s : Spot). s.name.word) (routine_spots u) }
    ensures begins { (u : Routine) (l : Word) → at_label u l ≡ option_map (λ (s : Spot). s.begins) (spot_named (routine_spots u) l) }
    ensures place { (u : Routine) (l : Word) → label_place u l ≡ place_of (spot_named (routine_spots u) l) }
{}
