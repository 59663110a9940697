//! Laws of variables that are read too early, stated as what functions without a body ensure.

ghost use Rattle.std.specs.Prelude.{◌≡◌, ℕ, nat_lt, not, ◌&&◌, bytes_eq, List, []};
ghost use Rattle.std.specs.List.{list_any};
ghost use Rattle.tla_token.specs.Signs.{is_among};
ghost use Rattle.tla_tree.specs.Tree.{Word};
ghost use Rattle.pcal_tree.specs.Algorithm.{Algorithm, Definition, Macro, Statements};
ghost use Rattle.pcal_tree.specs.OffencesSelf.{without, reached};
ghost use Rattle.pcal_tree.specs.Offences.{first};
ghost use Rattle.pcal_tree.specs.OffencesReads.{process_offences, order_offences};
ghost use Rattle.pcal_tree.specs.Reads.{readings, through};
ghost use Rattle.pcal_tree.specs.Spots.{used_in_body};
ghost use Rattle.read_rules.specs.Levels.{levels, level_of, number_among};
ghost use Rattle.read_rules.specs.EarlyReads.{process_offences_by, order_offences_by};
ghost use Rattle.read_rules.specs.BodyNames.{names_in};

/// A definition reads a variable past a number, itself or through others, exactly where its level is past the number.
pub fn levels_tell_what_is_read()
    ensures { (gs : List Word) (newest_first : List Definition) (x : Word) (i : ℕ) → list_any (λ y. nat_lt i (number_among gs y)) (through (readings gs newest_first) x) ≡ nat_lt i (level_of (levels gs newest_first) x) }
{}

/// By the levels of definitions the same identifiers of processes read variables.
pub fn levels_tell_constant_identifiers()
    ensures same { (a : Algorithm) → process_offences a ≡ process_offences_by a }
    ensures first { (a : Algorithm) → first (process_offences a) ≡ first (process_offences_by a) }
{}

/// By the levels of definitions the same initial values read variables that are declared later.
pub fn levels_tell_early_reads()
    ensures same { (a : Algorithm) → order_offences a ≡ order_offences_by a }
    ensures first { (a : Algorithm) → first (order_offences a) ≡ first (order_offences_by a) }
{}

/// The names that a body uses are found without the paths to them.
pub fn paths_do_not_matter_to_names()
    ensures { (b : Statements) → used_in_body b ≡ names_in b [] }
{}

/// Which macros calls reach depends on nothing but which macros they call; and a macro that is reached is called no more, but for the calls in its body.
pub fn calls_are_a_set()
    ensures reached { (xs ys : List Word) → ((w : Word) → is_among xs w ≡ is_among ys w) → (newest_first : List Macro) → reached xs newest_first ≡ reached ys newest_first }
    ensures without { (x : Word) (ms : List Word) (y : Word) → is_among (without x ms) y ≡ (not (bytes_eq x y) && is_among ms y) }
{}
