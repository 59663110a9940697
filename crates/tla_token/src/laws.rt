//! Laws of tokens, stated as what functions without a body ensure.

ghost use Rattle.std.specs.Prelude.{◌≡◌, ℕ, Bool, List, [], ◌∷◌, ◌++◌, map, Some, ◌⊎◌, false, true};
ghost use Rattle.std.specs.List.{concat, flat_map};
ghost use Rattle.tla_token.specs.declared.rule.Refusal as code;
ghost use Rattle.tla_token.specs.declared.rule.Rule.TheVariants.{NumberTooBig};
ghost use Rattle.tla_token.specs.declared.token.Kind.TheVariants.{BigNumber};
ghost use Rattle.tla_token.specs.declared.token.Span as span;
ghost use Rattle.tla_token.specs.Places.{place_at};
ghost use Rattle.tla_token.specs.Tokens as pure;
ghost use Rattle.tla_token.specs.Tokens.{Tok, TokAlgorithm, stretch, tokens_of};
ghost use Rattle.tla_token.specs.Offences.{Part, sound, parts_text, PartsFit, Offends, kind_offences, offences, least};
ghost use Rattle.tla_token.specs.Cut.{parts};
ghost use Rattle.tla_token.specs.TokensSeen.{kind_seen, IsCanonical};
ghost use Rattle.tla_token.specs.laws.Machine.{outlines, only, fresh, run_on, run_all};
ghost use Rattle.tla_token.specs.Feeding.{fed, finish, decided, undecided, IsKept};

/// A stretch of a text has at most one list of tokens, and so has the stretch of an algorithm.
pub fn tokens_are_unique()
    ensures tokens { (text : List ℕ) (from to : ℕ) (ts us : List pure.Token) → Tok text from to ts → Tok text from to us → ts ≡ us }
    ensures algorithm { (text : List ℕ) (from to : ℕ) (ts us : List pure.Token) → TokAlgorithm text from to ts → TokAlgorithm text from to us → ts ≡ us }
{}

/// A stretch of a text is refused by at most one rule, at one place.
pub fn refusals_are_unique()
    ensures { (in_algorithm : Bool) (text : List ℕ) (from to : ℕ) (r q : code.Refusal) → Offends in_algorithm text from to r → Offends in_algorithm text from to q → r ≡ q }
{}

/// Each text is cut into parts that fit, and no other parts that fit make it up.
pub fn cutting_is_exact()
    ensures fits { (text : List ℕ) → (parts_text (parts text) ≡ text) × PartsFit (parts text) }
    ensures only { (ps : List Part) → PartsFit ps → parts (parts_text ps) ≡ ps }
{}

/// The tokens of a stretch are those that cutting gives, where it gives no faulty part.
pub fn tokens_are_cut()
    ensures found { (text : List ℕ) (from to : ℕ) (ts : List pure.Token) → Tok text from to ts → (ps : List pure.Piece) × (parts (stretch text from to) ≡ map sound ps) × (ts ≡ tokens_of (place_at text from) from ps) }
    ensures given { (text : List ℕ) (from to : ℕ) (ps : List pure.Piece) → parts (stretch text from to) ≡ map sound ps → Tok text from to (tokens_of (place_at text from) from ps) }
{}

/// The refusal of a stretch is the least offence of the parts that cutting gives. Where they are
/// tokens, their offences are those of the tokens: in an algorithm numbers that are too big and
/// strings that hold a mark of a comment.
pub fn refusals_are_cut()
    ensures found { (in_algorithm : Bool) (text : List ℕ) (from to : ℕ) (r : code.Refusal) → Offends in_algorithm text from to r → (at : ℕ) × (least (offences in_algorithm from (parts (stretch text from to))) ≡ Some (r.rule, at)) × (r.place ≡ place_at text at) }
    ensures given { (in_algorithm : Bool) (text : List ℕ) (from to : ℕ) (r : code.Refusal) (at : ℕ) → least (offences in_algorithm from (parts (stretch text from to))) ≡ Some (r.rule, at) → r.place ≡ place_at text at → Offends in_algorithm text from to r }
    ensures of_tokens { (in_algorithm : Bool) (text : List ℕ) (from to : ℕ) (ts : List pure.Token) → Tok text from to ts → offences in_algorithm from (parts (stretch text from to)) ≡ flat_map (λ t. kind_offences in_algorithm t.at t.kind) ts }
{}

/// A stretch has a list of tokens or a refusal. Outside algorithms, where numbers aren't looked at, it never has both.
pub fn tokens_or_refusal()
    ensures either { (in_algorithm : Bool) (text : List ℕ) (from to : ℕ) → ((ts : List pure.Token) × Tok text from to ts) ⊎ ((r : code.Refusal) × Offends in_algorithm text from to r) }
    ensures not_both { (text : List ℕ) (from to : ℕ) (ts : List pure.Token) (r : code.Refusal) → Tok text from to ts → Offends false text from to r → ⊥ }
{}

/// A number that is kept by its digits is too big for an algorithm: so among tokens whose numbers are within the limit there is none.
pub fn digits_are_too_big()
    ensures { (bytes : List ℕ) (at : ℕ) (s : span.Span) → IsCanonical bytes (BigNumber s) → kind_offences true at (kind_seen bytes (BigNumber s)) ≡ (NumberTooBig, at) ∷ [] }
{}

/// A text that comes in pieces, of whatever length, has the parts of the whole text. What is decided
/// stays, whatever comes next; what is kept until more comes is a comment, string or word that is
/// still open, or fewer than three bytes.
pub fn pieces_are_cut_as_one_text()
    ensures whole { (pieces : List (List ℕ)) → finish (fed pieces) ≡ parts (concat pieces) }
    ensures decided { (text more : List ℕ) → parts (text ++ more) ≡ decided (parts text) ++ parts (undecided (parts text) ++ more) }
    ensures kept { (pieces : List (List ℕ)) → IsKept (fed pieces).rest }
{}

/// A machine that takes one byte after another gives the class and the length of each part of the
/// text, whatever pieces this comes in. What it has given stays; the bytes that are in none of these
/// parts yet are fewer than three, or a word, comment or string that is still open.
pub fn a_machine_cuts_texts()
    ensures whole { (pieces : List (List ℕ)) → run_all (only fresh) pieces ≡ outlines (concat pieces) }
    ensures kept { (text : List ℕ) → (pending : List ℕ) × IsKept pending × ((more : List ℕ) → outlines (text ++ more) ≡ (run_on (only fresh) text).0 ++ outlines (pending ++ more)) }
{}
