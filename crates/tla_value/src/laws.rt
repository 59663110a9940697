//! Laws of the canonical order, stated as what functions without a body ensure.

ghost use Rattle.std.specs.Prelude.{◌≡◌, ◌⊎◌, ◌++◌, ℕ, ◌+◌, List, [], length, true};
ghost use Rattle.std.specs.Cmp.{IsTotalOrder};
ghost use Rattle.std.specs.declared.cmp.Ordering.TheVariants.{Equal};
ghost use Rattle.tla_tree.specs.laws.InText.{ends_word};
ghost use Rattle.tla_value.specs.Value as pure;
ghost use Rattle.tla_value.specs.Value.{values_in};
ghost use Rattle.tla_value.specs.Limits.{fits};
ghost use Rattle.tla_value.specs.ValueText.{Mark, HasModelNames, Spells, marks, shown, value_text};
ghost use Rattle.tla_value.specs.ValueSeen.{SpellsFrom};
ghost use Rattle.tla_value.specs.laws.WrittenStrings.{HasStrings};
ghost use Rattle.tla_value.specs.laws.InOrder.{holds_in_order, found_in_order};
ghost use Rattle.tla_value.specs.Order.{order, holds, set_from, fun_from, found_at, values_at, arguments, first_at, IsAscending, IsCanonical, ArePairsCanonical};

/// The canonical order is total, and values that are equal in it are one.
pub fn order_is_total()
    ensures total { IsTotalOrder order }
    ensures equal { (v w : pure.Value) → order v w ≡ Equal → v ≡ w }
{}

/// Two sets are one if they have the same members. The set of some values has just these as its
/// members, so it depends neither on the order in which they came nor on repetitions.
pub fn sets_are_their_members()
    ensures same { (vs ws : pure.Values) → IsAscending vs → IsAscending ws → ((u : pure.Value) → holds u vs ≡ holds u ws) → vs ≡ ws }
    ensures members { (u : pure.Value) (vs : List pure.Value) → holds u (set_from vs) ≡ holds u (values_in vs) }
    ensures canonical { (vs : List pure.Value) → IsAscending (set_from vs) }
{}

/// The function of some pairs gives at each argument the value of the first pair that has it.
pub fn functions_are_their_pairs()
    ensures value { (ps : List (pure.Value × pure.Value)) (v : pure.Value) → found_at (set_from (arguments ps)) (values_at ps (set_from (arguments ps))) v ≡ first_at ps v }
    ensures canonical { (ps : List (pure.Value × pure.Value)) → ArePairsCanonical ps → IsCanonical (fun_from ps) }
{}

/// The tokens that are chosen for a canonical value within the limits, whose model values have names of model values, spell that value.
pub fn written_values_are_spelled()
    ensures { (v : pure.Value) → IsCanonical v → HasModelNames v → fits v ≡ true → Spells (marks (shown v) []) v }
{}

/// What tokens spell is a canonical value within the limits of a run.
pub fn spelled_values_are_canonical()
    ensures canonical { (ts : List Mark) (v : pure.Value) → Spells ts v → IsCanonical v }
    ensures within { (ts : List Mark) (v : pure.Value) → Spells ts v → fits v ≡ true }
{}

/// What is written for a canonical value within the limits, whose model values have names of model values and whose strings are of characters that a string may hold, spells that
/// value wherever it is before what begins with no byte of a word. No other value is there, and none that ends elsewhere; so different values have different texts.
pub fn written_texts_are_values()
    ensures spelled { (v : pure.Value) (before after : List ℕ) → IsCanonical v → HasModelNames v → HasStrings v → fits v ≡ true → ends_word after ≡ true → SpellsFrom (before ++ (value_text v ++ after)) (length before) (length before + length (value_text v)) v }
    ensures only { (v w : pure.Value) (before after : List ℕ) (end : ℕ) → IsCanonical v → HasModelNames v → HasStrings v → fits v ≡ true → ends_word after ≡ true → SpellsFrom (before ++ (value_text v ++ after)) (length before) end w → (end ≡ length before + length (value_text v)) × (w ≡ v) }
    ensures apart { (v w : pure.Value) → IsCanonical v → HasModelNames v → HasStrings v → fits v ≡ true → IsCanonical w → HasModelNames w → HasStrings w → fits w ≡ true → value_text v ≡ value_text w → v ≡ w }
{}

/// At a place of a text there is one value at most, with one end. So a value has no farther end than the one that is found.
pub fn a_spelled_value_ends_once()
    ensures end { (bytes : List ℕ) (at to end : ℕ) (v w : pure.Value) → SpellsFrom bytes at to v → SpellsFrom bytes at end w → to ≡ end }
    ensures value { (bytes : List ℕ) (at to end : ℕ) (v w : pure.Value) → SpellsFrom bytes at to v → SpellsFrom bytes at end w → v ≡ w }
    ensures tokens { (ts : List Mark) (v w : pure.Value) → Spells ts v → Spells ts w → v ≡ w }
{}

/// At each place of a text there is a value, or none.
pub fn whether_a_value_is_spelled_can_be_told()
    ensures { (bytes : List ℕ) (at : ℕ) → ((to : ℕ) × (v : pure.Value) × SpellsFrom bytes at to v) ⊎ (((to : ℕ) × (v : pure.Value) × SpellsFrom bytes at to v) → ⊥) }
{}

/// In an ascending list a look-up that goes by comparison, and no further than the place of the
/// value, finds what one through the whole list finds.
pub fn ascending_lists_are_searched_in_order()
    ensures member { (v : pure.Value) (vs : pure.Values) → IsAscending vs → holds_in_order v vs ≡ holds v vs }
    ensures value { (ds vs : pure.Values) (v : pure.Value) → IsAscending ds → found_in_order ds vs v ≡ found_at ds vs v }
{}
