//! Reserved words.

ghost use Rattle.std.specs.Prelude.{◌≡◌, map, find};
ghost use Rattle.std.specs.List.{filter};
ghost use Rattle.std.specs.Str.{bytes_eq};
ghost use Rattle.tla_token.specs.Offences.{begins_with};
ghost use Rattle.tla_token.specs.Signs.{is_among as is_among_of};
ghost use Rattle.tla_token.specs.Words as words;
ghost use Rattle.tla_token.specs.ReservedWords.{pluscal_spelling, tla_spelling, all_pluscal_words, all_tla_words, pluscal_word_of, tla_word_of};

/// A reserved word of PlusCal.
#[derive(Clone, Copy)]
pub enum PluscalWord {
    /// `algorithm`
    Algorithm,
    /// `assert`
    Assert,
    /// `await`
    Await,
    /// `begin`
    Begin,
    /// `call`
    Call,
    /// `define`
    Define,
    /// `do`
    Do,
    /// `either`
    Either,
    /// `else`
    Else,
    /// `elsif`
    Elsif,
    /// `end`
    End,
    /// `fair`
    Fair,
    /// `goto`
    Goto,
    /// `if`
    If,
    /// `macro`
    Macro,
    /// `or`
    Or,
    /// `print`
    Print,
    /// `procedure`
    Procedure,
    /// `process`
    Process,
    /// `return`
    Return,
    /// `skip`
    Skip,
    /// `then`
    Then,
    /// `variable`
    Variable,
    /// `variables`
    Variables,
    /// `when`
    When,
    /// `while`
    While,
    /// `with`
    With,
}

/// A reserved word of TLA+.
#[derive(Clone, Copy)]
pub enum TlaWord {
    /// `ASSUME`
    Assume,
    /// `ASSUMPTION`
    Assumption,
    /// `AXIOM`
    Axiom,
    /// `BOOLEAN`
    Boolean,
    /// `CASE`
    Case,
    /// `CHOOSE`
    Choose,
    /// `CONSTANT`
    Constant,
    /// `CONSTANTS`
    Constants,
    /// `DOMAIN`
    Domain,
    /// `ELSE`
    Else,
    /// `ENABLED`
    Enabled,
    /// `EXCEPT`
    Except,
    /// `EXTENDS`
    Extends,
    /// `FALSE`
    False,
    /// `IF`
    If,
    /// `IN`
    In,
    /// `INSTANCE`
    Instance,
    /// `LAMBDA`
    Lambda,
    /// `LET`
    Let,
    /// `LOCAL`
    Local,
    /// `MODULE`
    Module,
    /// `OTHER`
    Other,
    /// `RECURSIVE`
    Recursive,
    /// `STRING`
    String,
    /// `SUBSET`
    Subset,
    /// `THEN`
    Then,
    /// `THEOREM`
    Theorem,
    /// `TRUE`
    True,
    /// `UNCHANGED`
    Unchanged,
    /// `UNION`
    Union,
    /// `VARIABLE`
    Variable,
    /// `VARIABLES`
    Variables,
    /// `WITH`
    With,
}

// How a word is spelled.
fn pluscal_spelling(word: PluscalWord) -> &'static str
    ensures { result.now ≡ pluscal_spelling word }
{
    match word {
        PluscalWord::Algorithm => "algorithm",
        PluscalWord::Assert => "assert",
        PluscalWord::Await => "await",
        PluscalWord::Begin => "begin",
        PluscalWord::Call => "call",
        PluscalWord::Define => "define",
        PluscalWord::Do => "do",
        PluscalWord::Either => "either",
        PluscalWord::Else => "else",
        PluscalWord::Elsif => "elsif",
        PluscalWord::End => "end",
        PluscalWord::Fair => "fair",
        PluscalWord::Goto => "goto",
        PluscalWord::If => "if",
        PluscalWord::Macro => "macro",
        PluscalWord::Or => "or",
        PluscalWord::Print => "print",
        PluscalWord::Procedure => "procedure",
        PluscalWord::Process => "process",
        PluscalWord::Return => "return",
        PluscalWord::Skip => "skip",
        PluscalWord::Then => "then",
        PluscalWord::Variable => "variable",
        PluscalWord::Variables => "variables",
        PluscalWord::When => "when",
        PluscalWord::While => "while",
        PluscalWord::With => "with",
    }
}

// How a word is spelled.
fn tla_spelling(word: TlaWord) -> &'static str
    ensures { result.now ≡ tla_spelling word }
{
    match word {
        TlaWord::Assume => "ASSUME",
        TlaWord::Assumption => "ASSUMPTION",
        TlaWord::Axiom => "AXIOM",
        TlaWord::Boolean => "BOOLEAN",
        TlaWord::Case => "CASE",
        TlaWord::Choose => "CHOOSE",
        TlaWord::Constant => "CONSTANT",
        TlaWord::Constants => "CONSTANTS",
        TlaWord::Domain => "DOMAIN",
        TlaWord::Else => "ELSE",
        TlaWord::Enabled => "ENABLED",
        TlaWord::Except => "EXCEPT",
        TlaWord::Extends => "EXTENDS",
        TlaWord::False => "FALSE",
        TlaWord::If => "IF",
        TlaWord::In => "IN",
        TlaWord::Instance => "INSTANCE",
        TlaWord::Lambda => "LAMBDA",
        TlaWord::Let => "LET",
        TlaWord::Local => "LOCAL",
        TlaWord::Module => "MODULE",
        TlaWord::Other => "OTHER",
        TlaWord::Recursive => "RECURSIVE",
        TlaWord::String => "STRING",
        TlaWord::Subset => "SUBSET",
        TlaWord::Then => "THEN",
        TlaWord::Theorem => "THEOREM",
        TlaWord::True => "TRUE",
        TlaWord::Unchanged => "UNCHANGED",
        TlaWord::Union => "UNION",
        TlaWord::Variable => "VARIABLE",
        TlaWord::Variables => "VARIABLES",
        TlaWord::With => "WITH",
    }
}

// The words of PlusCal that begin with this byte.
fn pluscal_words_from(first: u8) -> &'static [PluscalWord]
    ensures { result.now ≡ filter (λ w. begins_with first (pluscal_spelling w)) all_pluscal_words }
{
    match first {
        b'a' => &[
            PluscalWord::Algorithm,
            PluscalWord::Assert,
            PluscalWord::Await,
        ],
        b'b' => &[PluscalWord::Begin],
        b'c' => &[PluscalWord::Call],
        b'd' => &[PluscalWord::Define, PluscalWord::Do],
        b'e' => &[
            PluscalWord::Either,
            PluscalWord::Else,
            PluscalWord::Elsif,
            PluscalWord::End,
        ],
        b'f' => &[PluscalWord::Fair],
        b'g' => &[PluscalWord::Goto],
        b'i' => &[PluscalWord::If],
        b'm' => &[PluscalWord::Macro],
        b'o' => &[PluscalWord::Or],
        b'p' => &[
            PluscalWord::Print,
            PluscalWord::Procedure,
            PluscalWord::Process,
        ],
        b'r' => &[PluscalWord::Return],
        b's' => &[PluscalWord::Skip],
        b't' => &[PluscalWord::Then],
        b'v' => &[PluscalWord::Variable, PluscalWord::Variables],
        b'w' => &[PluscalWord::When, PluscalWord::While, PluscalWord::With],
        _ => &[],
    }
}

// The words of TLA+ that begin with this byte.
fn tla_words_from(first: u8) -> &'static [TlaWord]
    ensures { result.now ≡ filter (λ w. begins_with first (tla_spelling w)) all_tla_words }
{
    match first {
        b'A' => &[TlaWord::Assume, TlaWord::Assumption, TlaWord::Axiom],
        b'B' => &[TlaWord::Boolean],
        b'C' => &[
            TlaWord::Case,
            TlaWord::Choose,
            TlaWord::Constant,
            TlaWord::Constants,
        ],
        b'D' => &[TlaWord::Domain],
        b'E' => &[
            TlaWord::Else,
            TlaWord::Enabled,
            TlaWord::Except,
            TlaWord::Extends,
        ],
        b'F' => &[TlaWord::False],
        b'I' => &[TlaWord::If, TlaWord::In, TlaWord::Instance],
        b'L' => &[TlaWord::Lambda, TlaWord::Let, TlaWord::Local],
        b'M' => &[TlaWord::Module],
        b'O' => &[TlaWord::Other],
        b'R' => &[TlaWord::Recursive],
        b'S' => &[TlaWord::String, TlaWord::Subset],
        b'T' => &[TlaWord::Then, TlaWord::Theorem, TlaWord::True],
        b'U' => &[TlaWord::Unchanged, TlaWord::Union],
        b'V' => &[TlaWord::Variable, TlaWord::Variables],
        b'W' => &[TlaWord::With],
        _ => &[],
    }
}

fn is_pluscal_spelled(other: PluscalWord, word: &[u8]) -> bool
    ensures { result ≡ bytes_eq (pluscal_spelling other) word.now }
{
    pluscal_spelling(other).as_bytes() == word
}

// The first of some words that is spelled so.
fn first_pluscal(words: &[PluscalWord], word: &[u8]) -> Option<PluscalWord>
    ensures { result ≡ find (λ w. bytes_eq (pluscal_spelling w) word.now) words.now }
{
    words.iter().copied().find(|w| is_pluscal_spelled(*w, word))
}

/// Which reserved word of PlusCal a word is, if it is one.
pub fn pluscal_word_of(word: &[u8]) -> Option<PluscalWord>
    ensures { result ≡ pluscal_word_of word.now }
{
    if word.is_empty() {
        None
    } else {
        first_pluscal(pluscal_words_from(word[0]), word)
    }
}

fn is_tla_spelled(other: TlaWord, word: &[u8]) -> bool
    ensures { result ≡ bytes_eq (tla_spelling other) word.now }
{
    tla_spelling(other).as_bytes() == word
}

// The first of some words that is spelled so.
fn first_tla(words: &[TlaWord], word: &[u8]) -> Option<TlaWord>
    ensures { result ≡ find (λ w. bytes_eq (tla_spelling w) word.now) words.now }
{
    words.iter().copied().find(|w| is_tla_spelled(*w, word))
}

/// Which reserved word of TLA+ a word is, if it is one; none that begins a fairness formula.
pub fn tla_word_of(word: &[u8]) -> Option<TlaWord>
    ensures { result ≡ tla_word_of word.now }
{
    if word.is_empty() {
        None
    } else {
        first_tla(tla_words_from(word[0]), word)
    }
}

/// Whether a word begins a fairness formula.
pub fn begins_fairness(word: &[u8]) -> bool
    ensures { result ≡ words.begins_fairness word.now }
{
    word.starts_with(b"WF_") || word.starts_with(b"SF_")
}

/// Whether a word is one of some.
pub fn is_among(words: &[&str], word: &[u8]) -> bool
    ensures { result ≡ is_among_of (map (λ w. w.now) words.now) word.now }
{
    for other in words {
        if other.as_bytes() == word {
            return true;
        }
    }
    false
}

/// Whether a word is reserved in PlusCal.
#[tactic(auto, using(crate::proofs::ReservedFound::pluscal_found))]
pub fn is_pluscal_word(word: &[u8]) -> bool
    ensures { result ≡ words.is_pluscal_word word.now }
{
    pluscal_word_of(word).is_some()
}

/// Whether a word is reserved in TLA+, or begins a fairness formula.
#[tactic(auto, using(crate::proofs::ReservedFound::tla_yes, crate::proofs::ReservedFound::tla_no))]
pub fn is_tla_word(word: &[u8]) -> bool
    ensures { result ≡ words.is_tla_word word.now }
{
    tla_word_of(word).is_some() || begins_fairness(word)
}
