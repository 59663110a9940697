//! Laws of expressions, stated as what functions without a body ensure.

ghost use Rattle.std.specs.Prelude.{◌≡◌, ◌⊎◌, ◌++◌, ℕ, ◌+◌, ◌*◌, ◌≤◌, Bool, true, false, List, [], ◌∷◌, length, map, get_or, Some, None, Ok, Err};
ghost use Rattle.tla_tree.specs.Tree.{Word, Tree, Graft, graft};
ghost use Rattle.tla_tree.specs.Lexical.{Token};
ghost use Rattle.tla_tree.specs.Spelling.{Phrase, spell, tree_of, Good, IsGood, Spells, head, primary, end_list};
ghost use Rattle.tla_tree.specs.Reader.{read, read_limited};
ghost use Rattle.tla_token.specs.declared.place.Place.{Place};
ghost use Rattle.tla_token.specs.declared.rule.Refusal.{Refusal};
ghost use Rattle.tla_token.specs.declared.rule.Rule.{Rule};
ghost use Rattle.tla_token.specs.Limits.{deepest_expression};
ghost use Rattle.tla_tree.specs.Nesting.{counts, nesting_in, text_nesting};
ghost use Rattle.tla_tree.specs.Whole.{read_bounded};
ghost use Rattle.tla_tree.specs.laws.Bounded.{BoundedRefuses};
ghost use Rattle.tla_tree.specs.FirstStop.{looks, Begins, phrases, Completes, ReadsExpression, RefusesExpression};
ghost use Rattle.tla_tree.specs.laws.Columns.{lineless};
ghost use Rattle.tla_tree.specs.Written.{pieces, written};
ghost use Rattle.tla_token.specs.Tokens as text;
ghost use Rattle.tla_token.specs.Tokens.{Tok};
ghost use Rattle.tla_tree.specs.TokenViews.{views};
ghost use Rattle.tla_tree.specs.laws.InText.{IsSpelling, IsCut};
ghost use Rattle.tla_tree.specs.laws.Following.{Calm, NoTail};
ghost use Rattle.tla_tree.specs.laws.Writable.{IsWritable, AreSpelled, AreOfText, AreSmall};
ghost use Rattle.tla_tree.specs.laws.Placeless.{tree_placeless};
ghost use Rattle.tla_tree.specs.laws.Bracketed.{as_operand, part, phrase_of, kinds, tokens_of};

/// Tokens spell one expression at most, in one way.
pub fn expressions_are_spelled_in_one_way()
    ensures phrase { (a b : Phrase) → IsGood a → IsGood b → spell a [] ≡ spell b [] → a ≡ b }
    ensures tree { (ts : List Token) (t u : Tree) → Spells ts t → Spells ts u → t ≡ u }
{}

/// Reading from left to right gives what is spelled: what is read is a phrase that may be spelled, and the tokens that were
/// passed are its tokens; and a phrase that may be spelled is read from its tokens, all of it.
pub fn reading_is_exact()
    ensures sound { (edge : ℕ) (ts rest : List Token) (a : Phrase) → read edge ts ≡ Ok (a, rest) → Good edge a × (ts ≡ spell a rest) }
    ensures complete { (edge : ℕ) (a : Phrase) → Good edge a → read edge (spell a []) ≡ Ok (a, []) }
{}

/// What is read is the farthest, and a refusal is not early: no spelled expression begins with the tokens through the one at which
/// reading stops, whatever comes after them; and what is refused, at a token or at the end, is no expression.
pub fn nothing_passes_where_reading_stops()
    ensures read { (edge : ℕ) (ts : List Token) (a : Phrase) (t : Token) (rest : List Token) → read edge ts ≡ Ok (a, t ∷ rest) → (passed : List Token) → ts ≡ passed ++ t ∷ rest → Begins (phrases edge) (map Some (looks (passed ++ t ∷ []))) → ⊥ }
    ensures refused { (edge : ℕ) (ts : List Token) (t : Token) (rest : List Token) (r : Rule) → read edge ts ≡ Err (r, t ∷ rest) → (passed : List Token) → ts ≡ passed ++ t ∷ rest → Begins (phrases edge) (map Some (looks (passed ++ t ∷ []))) → ⊥ }
    ensures unspelled { (edge : ℕ) (ts rest : List Token) (r : Rule) → read edge ts ≡ Err (r, rest) → (a : Phrase) → Good edge a → ts ≡ spell a [] → ⊥ }
{}

/// And a refusal is not late: what was passed before the refused token, or before the end, can be gone on with to a whole
/// expression, with those tokens in their columns, by at most 16 tokens for each form that is open at the first of them, and one; and with the limit, to one that is no deeper.
pub fn refusals_are_at_the_earliest_place()
    ensures whole { (edge : ℕ) (ts passed rest : List Token) (r : Rule) → read edge ts ≡ Err (r, rest) → ts ≡ passed ++ rest → (fix : List Token) × (a : Phrase) × Good edge a × (spell a [] ≡ passed ++ fix) × (length fix ≤ 16 * get_or (counts 0 a []) (length passed) 0 + 1) }
    ensures within { (ts passed rest : List Token) (r : Rule) → read_limited ts ≡ Err (r, rest) → ts ≡ passed ++ rest → (fix : List Token) × (a : Phrase) × IsGood a × (spell a [] ≡ passed ++ fix) × (text_nesting a ≤ deepest_expression) × (length fix ≤ 16 * get_or (counts 0 a []) (length passed) 0 + 1) }
{}

/// What completes it is told by a function of the tokens that were passed: behind whatever begins an expression, and so behind what was passed before a refused token, the
/// tokens that each form and list that is open there still wants, the innermost first, make it a whole expression.
pub fn what_is_wanted_completes()
    ensures begun { (edge : ℕ) (passed more : List Token) (a : Phrase) → Good edge a → spell a [] ≡ passed ++ more → Completes edge passed }
    ensures refused { (edge : ℕ) (ts passed rest : List Token) (r : Rule) → read edge ts ≡ Err (r, rest) → ts ≡ passed ++ rest → Completes edge passed }
    ensures within { (ts passed rest : List Token) (r : Rule) → read_limited ts ≡ Err (r, rest) → ts ≡ passed ++ rest → Completes 0 passed }
{}

/// The limit of open forms only refuses: what is read within it is read without, and is no deeper; and what is read without it and is no deeper is read within it.
pub fn the_limit_only_refuses()
    ensures within { (ts rest : List Token) (a : Phrase) → read_limited ts ≡ Ok (a, rest) → (read 0 ts ≡ Ok (a, rest)) × (text_nesting a ≤ deepest_expression) }
    ensures fits { (ts rest : List Token) (a : Phrase) → read 0 ts ≡ Ok (a, rest) → text_nesting a ≤ deepest_expression → read_limited ts ≡ Ok (a, rest) }
{}

/// The bound of a module's expressions only refuses too: what is read within it is read without, and opens no more forms, fields and closed applications not counted; and what is
/// refused within it is refused without, at the same token, or opens more.
pub fn the_bound_of_a_module_only_refuses()
    ensures within { (l edge : ℕ) (ts rest : List Token) (a : Phrase) → read_bounded l edge ts ≡ Ok (a, rest) → (read edge ts ≡ Ok (a, rest)) × (nesting_in false a ≤ l) }
    ensures refuses { (l edge : ℕ) (ts rest : List Token) (r : Rule) → read_bounded l edge ts ≡ Err (r, rest) → BoundedRefuses l (read edge ts) r rest }
{}

/// So with the limit of open forms every list of tokens is read or refused just where the grammar says: what is read is the expression there, and goes up
/// to the first token that doesn't pass; and what is refused is refused at that token, or at the end, by the rule of that token.
pub fn tokens_are_read_or_refused()
    ensures one { (ts : List Token) (end : Place) → ((n : ℕ) × (t : Tree) × ReadsExpression ts n t) ⊎ ((r : Refusal) × RefusesExpression ts end r) }
    ensures read { (ts rest : List Token) (a : Phrase) → read_limited ts ≡ Ok (a, rest) → ReadsExpression ts (length (spell a [])) (tree_of a) }
    ensures refused { (ts passed rest : List Token) (end : Place) (r : Rule) → read_limited ts ≡ Err (r, rest) → ts ≡ passed ++ rest → RefusesExpression ts end (record { rule = r; place = get_or (map (λ (t : Token). t.place) ts) (length passed) end }) }
{}

/// Whether tokens spell an expression, and which, rests on their kinds and columns alone: tokens of other lines spell the same
/// phrase in other lines, and it is read of them; and what may begin a phrase is a matter of kinds and columns.
pub fn lines_do_not_matter()
    ensures good { (edge : ℕ) (a b : Phrase) → lineless a ≡ lineless b → Good edge a → Good edge b }
    ensures spelled { (edge : ℕ) (ts us : List Token) → looks ts ≡ looks us → (a : Phrase) → Good edge a → ts ≡ spell a [] → (b : Phrase) × Good edge b × (us ≡ spell b []) × (lineless b ≡ lineless a) }
    ensures read { (edge : ℕ) (ts us : List Token) → looks ts ≡ looks us → (a : Phrase) → read edge ts ≡ Ok (a, []) → (b : Phrase) × (read edge us ≡ Ok (b, [])) × (lineless b ≡ lineless a) }
    ensures begins { (edge : ℕ) (ts more : List Token) (a : Phrase) → Good edge a → spell a [] ≡ ts ++ more → Begins (phrases edge) (map Some (looks ts)) }
    ensures begun { (edge : ℕ) (ts : List Token) → Begins (phrases edge) (map Some (looks ts)) → (a : Phrase) × (more : List Token) × Good edge a × (spell a [] ≡ ts ++ more) }
{}

/// Each token of a phrase has one count of the forms that are open at it.
pub fn each_token_of_a_phrase_has_its_count()
    ensures { (n : ℕ) (a : Phrase) → length (counts n a []) ≡ length (spell a []) }
{}

/// An expression is refused at one place at most, by one rule.
pub fn expressions_are_refused_once()
    ensures { (ts : List Token) (end : Place) (r q : Refusal) → RefusesExpression ts end r → RefusesExpression ts end q → r ≡ q }
{}

/// What is written of a tree whose names, fields, strings and numbers a text can have are texts of tokens, each seen as the token
/// that was meant; and these are the tokens of its phrase, with brackets where they are written, which has that tree,
/// places aside. As an operand each tree is a primary, so how it is read rests on no rank.
pub fn trees_are_written_in_tokens()
    ensures tokens { (t : Tree) → IsWritable t → AreSpelled (pieces t) }
    ensures phrase { (t : Tree) → IsWritable t → kinds (spell (phrase_of t) []) ≡ tokens_of (pieces t) }
    ensures tree { (t : Tree) → IsWritable t → tree_placeless (tree_of (phrase_of t)) ≡ tree_placeless t }
    ensures operand { (t : Tree) → head (as_operand (part t)) ≡ primary }
{}

/// What is written of a tree, as an operand or not, is cut into just its tokens wherever it is before what begins with no byte of a word; and these tokens,
/// in whatever place they begin and right of whatever edge, spell that tree, places aside; as an operand they spell a primary.
pub fn written_trees_are_spelled()
    ensures { (t : Tree) (is_operand : Bool) → IsWritable t → IsCut is_operand t }
{}

/// The text of a tree has tokens that spell that tree, places aside; what they spell is no other tree, and it is read of them.
pub fn written_trees_are_read_back()
    ensures tokens { (t : Tree) → IsWritable t → (ts : List text.Token) × Tok (written t) 0 (length (written t)) ts × IsSpelling 0 false t ts }
    ensures only { (t u : Tree) (ts : List text.Token) → IsWritable t → Tok (written t) 0 (length (written t)) ts → Spells (views ts) u → tree_placeless u ≡ tree_placeless t }
    ensures read { (t : Tree) (ts : List text.Token) → IsWritable t → Tok (written t) 0 (length (written t)) ts → (a : Phrase) × (read 0 (views ts) ≡ Ok (a, [])) × (tree_placeless (tree_of a) ≡ tree_placeless t) }
{}

/// Where the tokens that spell a tree are before tokens that go on with no expression, no other expression is there; and where those of an operand are before
/// tokens that go on with no primary, as operators are, no other primary is there that is no list by columns.
pub fn written_trees_end_where_they_do()
    ensures whole { (edge : ℕ) (is_operand : Bool) (t : Tree) (ts : List text.Token) → IsSpelling edge is_operand t ts → (b : Phrase) (r s : List Token) → Good edge b → Calm edge r → Calm edge s → views ts ++ r ≡ spell b s → (tree_placeless (tree_of b) ≡ tree_placeless t) × (r ≡ s) }
    ensures operand { (edge : ℕ) (t : Tree) (ts : List text.Token) → IsSpelling edge true t ts → (b : Phrase) (r s : List Token) → Good edge b → head b ≡ primary → end_list b ≡ None → NoTail edge r → NoTail edge s → views ts ++ r ≡ spell b s → (tree_placeless (tree_of b) ≡ tree_placeless t) × (r ≡ s) }
{}

/// What is written of a tree rests on no place.
pub fn writing_rests_on_no_place()
    ensures { (t u : Tree) → tree_placeless t ≡ tree_placeless u → written t ≡ written u }
{}

/// What is spelled in a text can be written: the tokens of a text, but for numbers that are too large, have no other words,
/// strings and numbers than a writer may be given, and what such tokens spell has the right shape. With trees that can be
/// written in place of names it can be written too.
pub fn spelled_trees_can_be_written()
    ensures tokens { (w : List ℕ) (from to : ℕ) (ts : List text.Token) → Tok w from to ts → AreSmall ts → AreOfText (views ts) }
    ensures trees { (edge : ℕ) (a : Phrase) → Good edge a → AreOfText (spell a []) → IsWritable (tree_of a) }
    ensures grafts { (g : Graft) → ((x : Word) (at : Place) (u : Tree) → g x at ≡ Some u → IsWritable u) → (t : Tree) → IsWritable t → IsWritable (graft g t) }
{}
