//! Laws of modules, stated as what functions without a body ensure.

ghost use Rattle.std.specs.Prelude.{◌≡◌, ◌+◌, ◌≤◌, nat_eq, ◌++◌, ◌∷◌, [], length, ℕ, List, Some, is_some, true, false};
ghost use Rattle.std.specs.List.{flat_map, list_any};
ghost use Rattle.tla_token.specs.Tokens.{EndsLine, Closes, stretch, TokAlgorithm};
ghost use Rattle.tla_token.specs.declared.rule.Refusal.{Refusal};
ghost use Rattle.module_tree.specs.Module.{Region, RegionUnit, units_of, Module};
ghost use Rattle.tla_tree.specs.Lexical.{Token};
ghost use Rattle.module_tree.specs.Units.{IsUnit};
ghost use Rattle.tla_value.specs.Outside.{Outside};
ghost use Rattle.module_tree.specs.Reading.{Reads, ReadsRegion};
ghost use Rattle.module_tree.specs.Ways.{is_terminating};
ghost use Rattle.module_tree.specs.Around.{Around, Swapped};
ghost use Rattle.module_tree.specs.FileOffences.{RefusesSplit, offences_of, algorithm_offences, outside_region, options_in};
ghost use Rattle.module_tree.specs.TextFront.{Text};
ghost use Rattle.module_tree.specs.Walk.{State, Located, region, walk, walk_from, at_start, after_segment};
ghost use Rattle.module_tree.specs.Beginnings.{begins_algorithm};
ghost use Rattle.module_tree.specs.FileParts.{before_spot};
ghost use Rattle.module_tree.specs.WithTranslation.{begin_line, end_line, WithTranslation};
ghost use Rattle.module_tree.specs.laws.Kept.{IsFine, only_large, KeepsFile, SameAlgorithm, AlgorithmMoved, IsPut};
ghost use Rattle.module_tree.specs.laws.Swaps.{is_paired, segments, AddsNoOptions, SwapsComment, BeginsThere};
ghost use Rattle.module_tree.specs.laws.WritableRegion.{IsRegion, IsReadBack, IsWritten};
ghost use Rattle.module_tree.specs.Layout.{layout};
ghost use Rattle.module_tree.specs.laws.PlacelessRegion.{region_placeless};
ghost use Rattle.module_tree.specs.laws.Outsides.{HasOutside, AllAlike, IsModuleOf, SameOutside};
ghost use Rattle.module_tree.specs.ModuleTruth.{next_holds, init_holds};
ghost use Rattle.tla_value.specs.Stops.{plain};
ghost use Rattle.tla_value.specs.Definitions.{Valuation};
ghost use Rattle.tla_value.specs.laws.Places.{AgreeButPlaces};
ghost use Rattle.module_tree.specs.AlgorithmText.{past_p, past_c, AlgorithmText, algorithm_in, algorithm_tokens};
ghost use Rattle.module_tree.specs.laws.AlgorithmEnd.{from_name, EndsWithWords, behind_name, EndsWithBrace};
ghost use Rattle.tla_token.specs.AlgorithmOffences.{algorithm_offences as token_offences};
ghost use Rattle.module_tree.specs.laws.Walks.{text_of, is_lined, are_calm, after_all, after_text, IsOpen, IsInside, made, located, Near, Fit, Moved, are_common, Put};

/// A list of units is that of one translation at most.
pub fn units_are_of_one_region()
    ensures { (r q : Region) → units_of r ≡ units_of q → r ≡ q }
{}

/// Tokens are one unit of a translation at most.
pub fn tokens_are_one_unit()
    ensures { (ts : List Token) (u v : RegionUnit) → IsUnit ts u → IsUnit ts v → u ≡ v }
{}

/// A text is one module at most.
pub fn a_text_is_one_module()
    ensures { (w : List ℕ) (m n : Module) → Reads w m → Reads w n → m ≡ n }
{}

/// A file with another translation, or with another algorithm in place of its own, is one text at most.
pub fn files_have_one_place()
    ensures around { (x : List ℕ) (m : Module) (w v : List ℕ) → Around x m w → Around x m v → w ≡ v }
    ensures swapped { (x u w v : List ℕ) → Swapped x u w → Swapped x u v → w ≡ v }
{}

/// A file that is refused before its algorithm is read, by the rules 1 to 10, is refused in one way.
pub fn a_file_is_refused_in_one_way()
    ensures { (x : List ℕ) (r s : Refusal) → RefusesSplit x r → RefusesSplit x s → r ≡ s }
{}

/// The segments of a file make it up.
pub fn walks_are_whole()
    ensures { (x : Text) → text_of (walk x) ≡ x }
{}

/// A text of whole lines that is calm (no comment of it is open at its end, no line of a translation is alone in it, and the
/// module doesn't end in it) is walked alike whatever follows, and what follows is walked from where it ends.
pub fn walks_are_resumed()
    ensures { (st : State) (t r : Text) → is_lined t ≡ true → are_calm (walk_from st 0 t) ≡ true → walk_from st 0 (t ++ r) ≡ walk_from st 0 t ++ walk_from (after_all st (walk_from st 0 t)) 0 r }
{}

/// A file with a translation is walked as the text before it, one region, and the text after it.
pub fn translations_are_regions()
    ensures { (a t c : Text) → is_lined a ≡ true → are_calm (walk a) ≡ true → IsOpen (after_text a) → IsInside t → EndsLine c → walk (a ++ (begin_line ++ (t ++ (end_line ++ c)))) ≡ walk a ++ located (after_text a) (made t) ∷ walk_from (after_segment (after_text a) (made t)) 0 c }
{}

/// The text after a translation is walked alike wherever it is: its segments are moved by bytes and lines.
pub fn walks_are_moved()
    ensures { (i j m n : ℕ) (st nd : State) (t : Text) → st.headed ≡ true → nd.headed ≡ true → Near i j m n st.at st.place nd.at nd.place → Fit st.marked nd.marked (walk_from st 0 t) → Moved i j m n (walk_from st 0 t) (walk_from nd 0 t) }
{}

/// Where a walk is cut after a newline, its beginning is the walk of the bytes so far.
pub fn walks_are_parted()
    ensures { (ds es : List Located) (st : State) (a r : Text) → is_lined a ≡ true → are_calm ds ≡ true → walk_from st 0 (a ++ r) ≡ ds ++ es → text_of ds ≡ a → walk_from st 0 a ≡ ds }
{}

/// A file in which a translation is put after whole lines is walked as before, but for the region and its newline.
pub fn insertions_are_regions()
    ensures { (x t : Text) (ds es : List Located) → walk x ≡ ds ++ es → is_lined (text_of ds) ≡ true → are_calm ds ≡ true → IsOpen (after_all at_start ds) → IsInside t → are_common es ≡ true → (c : Text) × (x ≡ text_of ds ++ c) × Put ds es t (10 ∷ c) }
{}

/// A file in which a translation is put in the place of another is walked as before, but for the region.
pub fn replacements_are_regions()
    ensures { (x t v w : Text) (ds es : List Located) (old here : Located) → walk x ≡ ds ++ old ∷ here ∷ es → old.is ≡ region v w → is_lined (text_of ds) ≡ true → are_calm ds ≡ true → IsOpen (after_all at_start ds) → IsInside t → (c : Text) × (x ≡ text_of ds ++ ((v ++ w) ++ 10 ∷ c)) × Put ds es t (10 ∷ c) }
{}

/// In a written file the translation is found again: another one takes exactly its place, and the same one changes nothing.
pub fn translations_are_found_again()
    ensures { (a t c v u : Text) (ds more : List Located) → walk (a ++ (begin_line ++ (t ++ (end_line ++ c)))) ≡ ds ++ located (after_all at_start ds) (made t) ∷ more → text_of ds ≡ a → (after_all at_start ds).marked ≡ false → WithTranslation (a ++ (begin_line ++ (t ++ (end_line ++ c)))) v u → u ≡ a ++ (begin_line ++ (v ++ (end_line ++ c))) }
{}

/// A translation that is put into a fine file, which breaks none of the rules 1 to 10 and 12, is one segment after the file's own, and what is after it is
/// moved. The file keeps its title, its units and its algorithm, no segment of it breaks a rule, and another translation of
/// it is one of the file that was read. The algorithm's tokens are moved by bytes and lines; the file breaks no rule
/// then either, and these tokens none that they didn't break.
pub fn translations_keep_files()
    ensures place { (x t w : Text) → IsFine x → IsInside t → WithTranslation x t w → IsPut x t w }
    ensures kept { (x t w : Text) → IsFine x → IsInside t → WithTranslation x t w → KeepsFile x t w }
    ensures algorithm { (x t w : Text) (a : AlgorithmText) → IsFine x → IsInside t → WithTranslation x t w → algorithm_in x ≡ Some a → (b : AlgorithmText) × (algorithm_in w ≡ Some b) × SameAlgorithm a b }
    ensures tokens { (x t w : Text) (a b : AlgorithmText) → IsFine x → IsInside t → WithTranslation x t w → algorithm_in x ≡ Some a → algorithm_in w ≡ Some b → AlgorithmMoved x w a b }
    ensures fine { (x t w : Text) → IsFine x → IsInside t → WithTranslation x t w → IsFine w }
    ensures tokens_fine { (x t w : Text) (a b : AlgorithmText) → IsFine x → IsInside t → WithTranslation x t w → algorithm_in x ≡ Some a → algorithm_in w ≡ Some b → token_offences (algorithm_tokens x a) ≡ [] → token_offences (algorithm_tokens w b) ≡ [] }
    ensures again { (x t w v u : Text) → IsFine x → IsInside t → IsInside v → WithTranslation x t w → WithTranslation w v u → WithTranslation x v u }
{}

/// An algorithm that has an end ends where it first can: in P-syntax with the first `end algorithm` from its name on, in
/// C-syntax with the brace that closes the first one, which follows its name.
pub fn algorithms_end_where_they_can()
    ensures words { (x : Text) (a : AlgorithmText) → algorithm_in x ≡ Some a → a.rest.stage ≡ past_p → EndsWithWords (from_name a) }
    ensures braces { (x : Text) (a : AlgorithmText) → algorithm_in x ≡ Some a → a.rest.stage ≡ past_c → EndsWithBrace (behind_name a) }
{}

/// Where no segment of a file breaks a rule (1 to 4 on its bytes, 8 as a line of a translation, 9 as a second header) and no
/// part of its algorithm one but that on numbers (12), the algorithm's stretch has just the tokens that the walk gives.
pub fn algorithms_have_tokens()
    ensures { (x : Text) (a : AlgorithmText) → offences_of (walk x) ≡ [] → algorithm_in x ≡ Some a → only_large (algorithm_offences (Some a)) ≡ true → TokAlgorithm x a.from a.rest.to (algorithm_tokens x a) }
{}

/// Each file has one outside: its units before the place of the translation and after it, each read or passed on, where the
/// modules and constants of all of them are seen.
pub fn outsides_are_read()
    ensures some { (ds : List Located) → (o : Outside) × HasOutside ds o }
    ensures one { (ds : List Located) (o q : Outside) → HasOutside ds o → HasOutside ds q → o ≡ q }
{}

/// A fine file is a module with each translation whose own units are read and in which the unit Terminating and a disjunct of
/// Next that calls it stand both or neither: it has the file's title, and outside the translation what the file has. The units before it are the same, and those after it are alike in other lines.
pub fn files_with_translations_are_modules()
    ensures outside { (x t w : Text) (o : Outside) → KeepsFile x t w → (h : HasOutside (walk x) o) → (q : Outside) × (there : HasOutside (walk w) q) × (there.before ≡ h.before) × AllAlike h.after there.after }
    ensures reads { (x t w : Text) (o : Outside) (n : Module) → IsFine x → KeepsFile x t w → HasOutside (walk x) o → ReadsRegion (located (after_all at_start (before_spot (walk x))) (made t)) n → is_some n.region.ended ≡ list_any is_terminating n.region.next → IsModuleOf x w o n.region }
{}

/// A comment in which a text that opens and closes comments only within itself takes the place of another such text ends where
/// it did. Both begin with a dash, as algorithms do.
pub fn comments_stay_closed()
    ensures { (p a u q : Text) → is_paired 0 (45 ∷ a) ≡ true → is_paired 0 (45 ∷ u) ≡ true → Closes 1 (p ++ 45 ∷ (a ++ q)) → Closes 1 (p ++ 45 ∷ (u ++ q)) }
{}

/// A text is walked alike from two states in a module of which both begin a line or neither.
pub fn walks_are_alike()
    ensures { (st nd : State) (t : Text) → st.headed ≡ true → nd.headed ≡ true → 1 ≤ st.place.col → 1 ≤ nd.place.col → nat_eq st.place.col 1 ≡ nat_eq nd.place.col 1 → Fit st.marked nd.marked (walk_from st 0 t) → segments (walk_from st 0 t) ≡ segments (walk_from nd 0 t) }
{}

/// What is before a comment is walked alike, whatever is in the comment and after it.
pub fn walks_stop_at_comments()
    ensures { (ds es : List Located) (st : State) (r z : Text) → walk_from st 0 (text_of ds ++ 40 ∷ 42 ∷ r) ≡ ds ++ es → are_calm ds ≡ true → offences_of ds ≡ [] → walk_from st 0 (text_of ds ++ 40 ∷ 42 ∷ z) ≡ ds ++ walk_from (after_all st ds) 0 (40 ∷ 42 ∷ z) }
{}

/// A fine file, with another algorithm, is walked as before but for the algorithm's comment, and no segment of it
/// breaks a rule, where both algorithms open and close comments only within themselves. Its algorithm begins where the old one
/// did, with the first word that was put there; no other begins but within the text that was put there, nor do options, and there
/// is still a place for a translation.
pub fn swaps_keep_the_rest()
    ensures begins { (x u w : Text) (a : AlgorithmText) → IsFine x → Swapped x (45 ∷ 45 ∷ u) w → algorithm_in x ≡ Some a → is_paired 0 (stretch x a.from a.rest.to) ≡ true → is_paired 0 (45 ∷ 45 ∷ u) ≡ true → begins_algorithm (45 ∷ 45 ∷ u) ≡ true → BeginsThere (45 ∷ 45 ∷ u) w a }
    ensures walked { (x u w : Text) (a : AlgorithmText) → IsFine x → Swapped x (45 ∷ u) w → algorithm_in x ≡ Some a → is_paired 0 (stretch x a.from a.rest.to) ≡ true → is_paired 0 (45 ∷ u) ≡ true → SwapsComment x (45 ∷ u) w a }
    ensures options { (x u w : Text) (a : AlgorithmText) → IsFine x → Swapped x (45 ∷ u) w → algorithm_in x ≡ Some a → is_paired 0 (stretch x a.from a.rest.to) ≡ true → is_paired 0 (45 ∷ u) ≡ true → AddsNoOptions (45 ∷ u) → flat_map (options_in w) (outside_region w (walk w)) ≡ [] }
{}

/// The algorithm that was replaced, put in the place of the one that replaced it, gives the file that was read.
pub fn swaps_go_back()
    ensures { (x u w : Text) (a b : AlgorithmText) → IsFine x → Swapped x u w → algorithm_in x ≡ Some a → algorithm_in w ≡ Some b → b.from ≡ a.from → b.rest.to ≡ a.from + length u → Swapped w (stretch x a.from a.rest.to) x }
{}

/// What is laid out of a translation that can be written is whole lines, none of them an END line; and where it is put in a
/// file it is read back: cut into just its units, each is spelled as the translation has it, but for the places of its trees.
pub fn layouts_are_regions()
    ensures inside { (r : Region) → IsRegion r → IsInside (layout r) }
    ensures reads { (st : State) (r : Region) → IsRegion r → IsReadBack st r }
{}

/// What is laid out of a translation rests on no place of its trees.
pub fn layouts_rest_on_no_place()
    ensures { (q r : Region) → region_placeless q ≡ region_placeless r → layout q ≡ layout r }
{}

/// A fine file is one module with what is laid out of each translation that can be written: it is around that
/// file, and has that translation, but for the places of its trees, the file's title, and outside what the file has.
pub fn written_files_are_modules()
    ensures { (x w : Text) (o : Outside) (r : Region) → IsRegion r → IsFine x → HasOutside (walk x) o → WithTranslation x (layout r) w → IsWritten x w o r }
{}

/// Places of a translation, and of what is passed on outside it, matter to nothing but where a trouble is: modules that are the same but for these have
/// on every pair of states the same truth of Next, and on every state that of Init, or troubles of one kind.
pub fn places_in_modules_matter_to_troubles_alone()
    ensures { (m n : Module) → region_placeless m.region ≡ region_placeless n.region → SameOutside m.outside n.outside → (values s t : Valuation)
        → AgreeButPlaces (next_holds plain m values s t) (next_holds plain n values s t) × AgreeButPlaces (init_holds plain m values s) (init_holds plain n values s) }
{}
