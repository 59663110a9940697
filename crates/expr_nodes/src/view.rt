//! What the grammars see of a token in memory.

ghost use Rattle.std.specs.Prelude.{◌≡◌, true, List, ℕ};
ghost use Rattle.tla_token.specs.TokensSeen.{kind_seen, span_bytes};
ghost use Rattle.tla_token.specs.ReservedWords.{tla_spelling};
ghost use Rattle.tla_token.specs.KeptWords.{is_kept};
ghost use Rattle.std.specs.Str.{bytes_eq};
ghost use Rattle.tla_tree.specs.TokenViews.{sign_kind, kind_of, word_kind};
ghost use Rattle.expr_nodes.specs.ViewSeen.{view_seen};

use tla_token::{Kind, Sign, Span, TlaWord, Token, Tokens};
use tla_tree::Op;

/// A mark of the grammars.
#[derive(Clone, Copy)]
pub enum Mark {
    /// `(`
    OpenBracket,
    /// `)`
    CloseBracket,
    /// `[`
    OpenSquare,
    /// `]`
    CloseSquare,
    /// `{`
    OpenBrace,
    /// `}`
    CloseBrace,
    /// `<<`
    OpenTuple,
    /// `>>`
    CloseTuple,
    Comma,
    Colon,
    Dot,
    Bang,
    /// `->`
    Arrow,
    /// `|->`
    Maps,
    /// `==`
    Defines,
    /// `[]`
    Box,
    /// `'`
    Prime,
    /// `:=`
    Assigns,
    /// `||`
    Beside,
    Semicolon,
}

/// A reserved word or sign that begins or divides a form.
#[derive(Clone, Copy)]
pub enum Key {
    If,
    Then,
    Else,
    Case,
    Other,
    Let,
    In,
    Except,
    /// `\A`
    ForAll,
    /// `\E`
    Exists,
}

/// A reserved word that is an expression.
#[derive(Clone, Copy)]
pub enum Constant {
    Truth(bool),
    /// `BOOLEAN`
    Booleans,
    /// `STRING`
    Strings,
}

/// What a token is to the grammars. Its words are bytes of the tokens' stretch.
#[derive(Clone, Copy)]
pub enum View {
    /// A sign or word of an operator; `-` is that of subtraction, also as a prefix.
    Sign(Op),
    /// An identifier that is not reserved.
    Word(Span),
    /// A reserved word of PlusCal.
    Reserved(Span),
    Number(u128),
    /// A number that does not fit in 128 bits.
    BigNumber(Span),
    /// A string, by what is between its quotes.
    Quote(Span),
    Constant(Constant),
    Mark(Mark),
    Key(Key),
    /// A reserved word of TLA+ or a sign that stands in no expression.
    Other(Span),
}

// What a sign is.
fn sign_view(sign: Sign) -> View
    ensures { (bytes : List ℕ) → view_seen bytes result ≡ sign_kind sign }
{
    match sign {
        Sign::MapsTo => View::Mark(Mark::Maps),
        Sign::Equivalent => View::Sign(Op::Equivalent),
        Sign::Pair => View::Sign(Op::MapsTo),
        Sign::Override => View::Sign(Op::Override),
        Sign::Range => View::Sign(Op::Range),
        Sign::And => View::Sign(Op::And),
        Sign::Or => View::Sign(Op::Or),
        Sign::Implies => View::Sign(Op::Implies),
        Sign::Arrow => View::Mark(Mark::Arrow),
        Sign::Defined => View::Mark(Mark::Defines),
        Sign::OpenTuple => View::Mark(Mark::OpenTuple),
        Sign::CloseTuple => View::Mark(Mark::CloseTuple),
        Sign::AtMost => View::Sign(Op::AtMost),
        Sign::AtLeast => View::Sign(Op::AtLeast),
        Sign::NotEqual => View::Sign(Op::NotEqual),
        Sign::Box => View::Mark(Mark::Box),
        Sign::Colon => View::Mark(Mark::Colon),
        Sign::Comma => View::Mark(Mark::Comma),
        Sign::Dot => View::Mark(Mark::Dot),
        Sign::OpenRound => View::Mark(Mark::OpenBracket),
        Sign::CloseRound => View::Mark(Mark::CloseBracket),
        Sign::OpenSquare => View::Mark(Mark::OpenSquare),
        Sign::CloseSquare => View::Mark(Mark::CloseSquare),
        Sign::OpenCurly => View::Mark(Mark::OpenBrace),
        Sign::CloseCurly => View::Mark(Mark::CloseBrace),
        Sign::Equal => View::Sign(Op::Equal),
        Sign::Less => View::Sign(Op::Less),
        Sign::Greater => View::Sign(Op::Greater),
        Sign::Plus => View::Sign(Op::Plus),
        Sign::Minus => View::Sign(Op::Minus),
        Sign::Times => View::Sign(Op::Times),
        Sign::Percent => View::Sign(Op::Modulo),
        Sign::Not => View::Sign(Op::Not),
        Sign::Bang => View::Mark(Mark::Bang),
        Sign::Without => View::Sign(Op::Without),
        Sign::In => View::Sign(Op::In),
        Sign::NotIn => View::Sign(Op::NotIn),
        Sign::SubsetEq => View::Sign(Op::SubsetEq),
        Sign::Cup => View::Sign(Op::Cup),
        Sign::Cap => View::Sign(Op::Cap),
        Sign::Divide => View::Sign(Op::Divide),
        Sign::Concat => View::Sign(Op::Concat),
        Sign::ForAll => View::Key(Key::ForAll),
        Sign::Exists => View::Key(Key::Exists),
        Sign::Assign => View::Mark(Mark::Assigns),
        Sign::Parallel => View::Mark(Mark::Beside),
        Sign::Semicolon => View::Mark(Mark::Semicolon),
    }
}

fn is(word: &[u8], other: &[u8]) -> bool
    ensures { result ≡ bytes_eq other.now word.now }
{
    other == word
}

// What a reserved word of TLA+ is.
#[tactic(auto, using(crate::proofs::ViewLemmas::other_view))]
fn tla_view(word: TlaWord, span: Span) -> View
    ensures { (bytes : List ℕ) → span_bytes bytes span ≡ tla_spelling word → view_seen bytes result ≡ word_kind (tla_spelling word) }
{
    match word {
        TlaWord::If => View::Key(Key::If),
        TlaWord::Then => View::Key(Key::Then),
        TlaWord::Else => View::Key(Key::Else),
        TlaWord::Case => View::Key(Key::Case),
        TlaWord::Other => View::Key(Key::Other),
        TlaWord::Let => View::Key(Key::Let),
        TlaWord::In => View::Key(Key::In),
        TlaWord::Except => View::Key(Key::Except),
        TlaWord::True => View::Constant(Constant::Truth(true)),
        TlaWord::False => View::Constant(Constant::Truth(false)),
        TlaWord::Boolean => View::Constant(Constant::Booleans),
        TlaWord::String => View::Constant(Constant::Strings),
        TlaWord::Subset => View::Sign(Op::Subset),
        TlaWord::Union => View::Sign(Op::Union),
        TlaWord::Domain => View::Sign(Op::Domain),
        _ => View::Other(span),
    }
}

/// What a token is to the grammars, whose word is kept as its bytes say.
#[tactic(auto, using(crate::proofs::ViewLemmas::name_view, crate::proofs::ViewLemmas::reserved_view, crate::proofs::ViewLemmas::fairness_view, crate::proofs::ViewLemmas::tla_word_view, tla_token::proofs::KeptLemmas::kept_tla))]
pub fn view_of(tokens: &Tokens, token: Token) -> View
    requires { is_kept tokens.now.bytes.items token.kind ≡ true }
    ensures { view_seen tokens.now.bytes.items result ≡ kind_of (kind_seen tokens.now.bytes.items token.kind) }
{
    match token.kind {
        Kind::Name(span) => View::Word(span),
        Kind::PluscalWord(span, _) => View::Reserved(span),
        Kind::TlaWord(span, word) => tla_view(word, span),
        Kind::Fairness(span) => View::Other(span),
        Kind::Number(n) => View::Number(n),
        Kind::BigNumber(span) => View::BigNumber(span),
        Kind::Text(span) => View::Quote(span),
        Kind::Sign(sign) => sign_view(sign),
        Kind::Other(span) => {
            if is(tokens.word(span), b"'") {
                View::Mark(Mark::Prime)
            } else {
                View::Other(span)
            }
        }
    }
}
