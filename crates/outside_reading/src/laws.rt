//! Laws of reading what is outside, stated as what functions without a body ensure.

ghost use Rattle.std.specs.Prelude.{◌≡◌, ℕ, false, List, [], None};
ghost use Rattle.tla_token.specs.declared.place.Place.{Place};
ghost use Rattle.tla_tree.specs.Tree.{Name};
ghost use Rattle.tla_tree.specs.Lexical.{TokenView, Token};
ghost use Rattle.tla_value.specs.Definitions.{Definition};
ghost use Rattle.tla_value.specs.DefinitionNesting.{depths, definition_nests};
ghost use Rattle.module_tree.specs.Walk.{Located};
ghost use Rattle.module_tree.specs.FileParts.{before_spot, after_spot};
ghost use Rattle.module_tree.specs.FileUnits as file;
ghost use Rattle.module_tree.specs.Outside.{Sight, definition_reads};
ghost use Rattle.module_tree.specs.laws.Outsides.{HasOutside};
ghost use Rattle.outside_reading.specs.PlainUnits.{body_in, with_body, defined_if, outside_in};
ghost use Rattle.outside_reading.specs.TreeDepth.{definition_depth, if_so};
ghost use Rattle.outside_reading.specs.SmallNumbers.{all_small};

/// What is read of the units of a file, without the places of commas and brackets, is what the file has outside.
pub fn what_is_read_is_outside()
    ensures { (ds : List Located) → HasOutside ds (outside_in (file.units_in (before_spot ds)).units (file.units_in (after_spot ds)).units) }
{}

/// One walk over the body of a definition tells whether it is read, and how deep it nests.
pub fn one_walk_tells_definitions()
    ensures { (v : Sight) (d : Definition) → definition_depth v (depths [] v.earlier) d ≡ if_so (definition_reads v d) (definition_nests (depths [] v.earlier) d) }
{}

/// Where a number among the tokens of a body is too large, no definition is read.
pub fn large_numbers_are_not_read()
    ensures { (v : Sight) (p : Place) (k : TokenView) (ns : List Name) (ts : List Token) → all_small ts ≡ false → defined_if v p k (with_body ns (body_in ts)) ≡ None }
{}
