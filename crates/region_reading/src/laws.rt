//! Laws of reading a translation, stated as what functions without a body ensure.

ghost use Rattle.std.specs.Prelude.{◌≡◌, ◌⊎◌, ℕ, ◌≤◌, false, List, [], Some};
ghost use Rattle.tla_token.specs.declared.place.Place.{Place};
ghost use Rattle.tla_token.specs.declared.rule.Refusal.{Refusal};
ghost use Rattle.tla_tree.specs.declared.op.Op.TheVariants as op;
ghost use Rattle.tla_tree.specs.Lexical.{TokenView, Token};
ghost use Rattle.tla_tree.specs.Spelling.{Phrase};
ghost use Rattle.tla_tree.specs.Reader.{Reader};
ghost use Rattle.tla_tree.specs.Nesting.{nesting_in};
ghost use Rattle.tla_tree.specs.Whole.{read_bounded};
ghost use Rattle.module_tree.specs.Module.{RegionUnit, Region, units_of, Module};
ghost use Rattle.module_tree.specs.TextFront.{Text};
ghost use Rattle.module_tree.specs.Units.{UnitForm, spell_unit, GoodUnit, IsUnit};
ghost use Rattle.module_tree.specs.Reading.{Reads};
ghost use Rattle.region_reading.specs.Bound.{Bound, unbounded, bounded, a_phrase, OnlyRefuses, ReadsWithin, Shortens};
ghost use Rattle.region_reading.specs.Opens.{unit_opens, TextOpens};
ghost use Rattle.region_reading.specs.NameReader.{names_step, names_in, bulleted_step, bulleted_from};
ghost use Rattle.region_reading.specs.ItemReader.{item_step, whole_items};
ghost use Rattle.region_reading.specs.CallReader.{way_in, spec_in};
ghost use Rattle.region_reading.specs.UnitReader.{unit_by, form_within, form_in, unit_in};
ghost use Rattle.region_reading.specs.RegionReader.{region_in};
ghost use Rattle.region_reading.specs.ReadAnswer.{ReadsModule, RefusesModule};
ghost use Rattle.region_reading.specs.ModuleReader.{module_within, module_in};

/// The unit that is read of tokens is one that may be spelled, and spelled just so; and each unit that may be spelled is read of its tokens.
/// So what is read of tokens is the unit of a translation that they are, and where none is read they are no unit.
pub fn units_are_read_exactly()
    ensures sound { (ts : List Token) (f : UnitForm) → form_in ts ≡ Some f → GoodUnit f × (ts ≡ spell_unit f []) }
    ensures complete { (f : UnitForm) → GoodUnit f → form_in (spell_unit f []) ≡ Some f }
    ensures unit { (ts : List Token) (u : RegionUnit) → unit_in ts ≡ Some u → IsUnit ts u }
    ensures every { (ts : List Token) (u : RegionUnit) → IsUnit ts u → unit_in ts ≡ Some u }
{}

/// The translation that is read of a list of units has just these units, and each translation is read of its units.
pub fn regions_are_read_exactly()
    ensures sound { (us : List RegionUnit) (r : Region) → region_in us ≡ Some r → units_of r ≡ us }
    ensures complete { (r : Region) → region_in (units_of r) ≡ Some r }
{}

/// The module that is read of a text is the module that it is, and where none is read it is no module.
pub fn modules_are_read_exactly()
    ensures sound { (w : Text) (m : Module) → module_in w ≡ Some m → Reads w m }
    ensures complete { (w : Text) (m : Module) → Reads w m → module_in w ≡ Some m }
{}

/// The readers of lists have as many steps as they need, so each of them is one step over itself, however many tokens there are: names with commas, the forms behind
/// the bullets of Init, Next and Spec, and items, lists of them and branches.
/// That is so within each bound whose readers of expressions leave no more tokens than they were given, as those without a bound do.
pub fn enough_steps_are_enough()
    ensures names { (edge : ℕ) (ts : List Token) → names_in edge ts ≡ names_step edge (names_in edge) ts }
    ensures init { (m : Bound) → Shortens m → (c : ℕ) (ts : List Token) → bulleted_from op.And (a_phrase m) c ts ≡ bulleted_step op.And (a_phrase m) c (bulleted_from op.And (a_phrase m) c) ts }
    ensures next { (m : Bound) → Shortens m → (c : ℕ) (ts : List Token) → bulleted_from op.Or (way_in m) c ts ≡ bulleted_step op.Or (way_in m) c (bulleted_from op.Or (way_in m) c) ts }
    ensures spec { (m : Bound) → Shortens m → (c : ℕ) (ts : List Token) → bulleted_from op.And (spec_in m) c ts ≡ bulleted_step op.And (spec_in m) c (bulleted_from op.And (spec_in m) c) ts }
    ensures item { (m : Bound) → Shortens m → (ts : List Token) (edge : ℕ) → whole_items.item m edge ts ≡ (item_step whole_items).item m edge ts }
    ensures list { (m : Bound) → Shortens m → (ts : List Token) (edge : ℕ) → whole_items.list m edge ts ≡ (item_step whole_items).list m edge ts }
    ensures items { (m : Bound) → Shortens m → (ts : List Token) (edge c : ℕ) → whole_items.items m edge c ts ≡ (item_step whole_items).items m edge c ts }
    ensures branches { (m : Bound) → Shortens m → (ts : List Token) (edge c : ℕ) → whole_items.branches m edge c ts ≡ (item_step whole_items).branches m edge c ts }
    ensures any { Shortens unbounded }
{}

/// A bound only refuses, where expressions are read so that theirs does: what is read of a unit is what is read without a bound, and opens no more forms than may be
/// open; it is refused by `Syntax` only where it is refused without a bound, and by `TooDeep` only where that is so or what is read opens more.
/// So each unit that opens no more forms is read, and a text is read as a module within the bound exactly if it is one and no unit of its translation opens more.
pub fn bounds_only_refuse()
    ensures unit { (x : ℕ → ℕ → Reader Phrase) (bare : Phrase → ℕ) → ReadsWithin x bare → (l : ℕ) (p : Place) (k : TokenView) (ts : List Token) →
        OnlyRefuses l (unit_opens bare) (unit_by (bounded x l) p k ts) (unit_by unbounded p k ts) }
    ensures same { (x : ℕ → ℕ → Reader Phrase) (bare : Phrase → ℕ) → ReadsWithin x bare → (l : ℕ) (ts : List Token) (f : UnitForm) → form_within (bounded x l) ts ≡ Some f →
        (form_in ts ≡ Some f) × (unit_opens bare f ≤ l) }
    ensures fits { (x : ℕ → ℕ → Reader Phrase) (bare : Phrase → ℕ) → ReadsWithin x bare → (l : ℕ) (ts : List Token) (f : UnitForm) → form_in ts ≡ Some f → unit_opens bare f ≤ l →
        form_within (bounded x l) ts ≡ Some f }
    ensures sound { (x : ℕ → ℕ → Reader Phrase) (bare : Phrase → ℕ) → ReadsWithin x bare → (l : ℕ) (w : Text) (m : Module) → module_within (bounded x l) w ≡ Some m →
        (module_in w ≡ Some m) × TextOpens bare l w }
    ensures complete { (x : ℕ → ℕ → Reader Phrase) (bare : Phrase → ℕ) → ReadsWithin x bare → (l : ℕ) (w : Text) → TextOpens bare l w → (m : Module) → module_in w ≡ Some m →
        module_within (bounded x l) w ≡ Some m }
{}

/// There are such readers: those that read an expression of a module within a bound, fields and closed applications not counted, and none of them leaves more tokens than it was given.
pub fn the_bound_of_expressions_will_do()
    ensures within { ReadsWithin read_bounded (nesting_in false) }
    ensures shortens { (l : ℕ) → Shortens (bounded read_bounded l) }
{}

/// Each text is read as a module or refused, and never both: it is read as the module that it is where that nests no deeper than 1,200 forms, in the text of its translation, fields and
/// closed applications not counted, and on its tree; else it is refused at its beginning, since it is no module or nests deeper.
pub fn each_text_is_read_or_refused()
    ensures one { (w : Text) → ((m : Module) × ReadsModule w m) ⊎ ((r : Refusal) × RefusesModule w r) }
    ensures same { (w : Text) (m n : Module) → ReadsModule w m → ReadsModule w n → m ≡ n }
    ensures apart { (w : Text) (m : Module) (r : Refusal) → ReadsModule w m → RefusesModule w r → ⊥ }
{}
