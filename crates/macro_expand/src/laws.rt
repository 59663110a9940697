//! Laws of expansions, stated as what functions without a body ensure.

ghost use Rattle.std.specs.Prelude.{◌≡◌, ◌≤◌, []};
ghost use Rattle.tla_token.specs.Limits.{most_nodes, most_labels, deepest_expression, deepest_statement};
ghost use Rattle.pcal_tree.specs.Algorithm.{Algorithm};
ghost use Rattle.macro_expand.specs.Size.{expanded_size};
ghost use Rattle.macro_expand.specs.laws.MacroSizes.{size_by_macros};
ghost use Rattle.macro_expand.specs.TooLarge.{too_large, size_of_expansion};

/// What is counted once for each macro, from its text and from what was counted for older ones, gives the size that an algorithm has with all its
/// macro calls written out.
pub fn macros_are_counted_once()
    ensures { (a : Algorithm) → size_by_macros a ≡ expanded_size a }
{}

/// An algorithm that isn't too large has so many nodes and labels at most with its macro calls written out, and nests so deep at most.
pub fn expansions_are_within_the_limits()
    ensures nodes { (a : Algorithm) → too_large a ≡ [] → (expanded_size a).nodes ≤ most_nodes }
    ensures expressions { (a : Algorithm) → too_large a ≡ [] → (expanded_size a).expressions ≤ deepest_expression }
    ensures statements { (a : Algorithm) → too_large a ≡ [] → (expanded_size a).statements ≤ deepest_statement }
    ensures labels { (a : Algorithm) → too_large a ≡ [] → (expanded_size a).labels ≤ most_labels }
    ensures counted { (a : Algorithm) → too_large a ≡ [] → size_of_expansion a ≡ (expanded_size a).nodes }
{}
