//! Which tokens begin a unit of a module.

ghost use Rattle.std.specs.Prelude.{◌≡◌, ◌&&◌, ◌||◌, ℕ, nat_eq, map, Some};
ghost use Rattle.tla_token.specs.Lexemes.{Kind};
ghost use Rattle.tla_token.specs.Scan.{part_of};
ghost use Rattle.tla_token.specs.Signs.{is_among as is_among_of};
ghost use Rattle.tla_tree.specs.TokenViews.{view, word_kind, word_kinds};
ghost use Rattle.module_tree.specs.Beginnings.{is_rule};
ghost use Rattle.module_tree.specs.ModuleParts.{kind_in};
ghost use Rattle.module_tree.specs.FileUnits as pure;

use crate::bars::is_rule;
use tla_token::word::{is_among, is_pluscal_word, is_tla_word};
use tla_token::{Class, Place};

// The reserved words of TLA+ that are in expressions.
static EXPRESSION_WORDS: [&str; 15] = [
    "IF", "THEN", "ELSE", "CASE", "OTHER", "LET", "IN", "EXCEPT", "TRUE", "FALSE", "BOOLEAN",
    "STRING", "SUBSET", "UNION", "DOMAIN",
];

// The reserved words of TLA+ with which a unit begins.
static UNIT_WORDS: [&str; 12] = [
    "ASSUME",
    "ASSUMPTION",
    "AXIOM",
    "CONSTANT",
    "CONSTANTS",
    "EXTENDS",
    "INSTANCE",
    "LOCAL",
    "RECURSIVE",
    "THEOREM",
    "VARIABLE",
    "VARIABLES",
];

/// Whether a word is a reserved one of TLA+ that stands in expressions.
pub fn is_expression_word(word: &[u8]) -> bool
    ensures { result ≡ is_among_of (map (λ p. p.0) word_kinds) word.now }
{
    is_among(&EXPRESSION_WORDS, word)
}

/// Whether a unit begins with a reserved word of TLA+ in column 1.
pub fn is_unit_word(word: &[u8]) -> bool
    ensures { result ≡ is_among_of pure.unit_words word.now }
{
    is_among(&UNIT_WORDS, word)
}

// Whether a word in column 1 begins a unit.
#[tactic(auto, using(crate::proofs::UnitStarts::starts_pluscal, crate::proofs::UnitStarts::starts_expression, crate::proofs::UnitStarts::starts_name, crate::proofs::UnitStarts::starts_unit))]
fn is_starter(word: &[u8]) -> bool
    ensures { result ≡ pure.is_starter (word_kind word.now) }
{
    if is_pluscal_word(word) {
        return true;
    }
    if is_expression_word(word) {
        return false;
    }
    if is_tla_word(word) {
        is_unit_word(word)
    } else {
        true
    }
}

/// Whether a unit begins in a column with a word that is no identifier, or a sign.
pub fn begins_at(col: u32, word: &[u8]) -> bool
    ensures { result ≡ ((nat_eq col 1 && is_among_of pure.unit_words word.now) || is_rule word.now) }
{
    (col == 1 && is_unit_word(word)) || is_rule(word)
}

/// Whether the token of these bytes begins a unit, at a place.
#[tactic(auto, using(crate::proofs::UnitStarts::none_begins))]
pub fn begins_unit(class: Class, bytes: &[u8], place: Place) -> bool
    ensures { (k : Kind) (at : ℕ) → kind_in (part_of class bytes.now) ≡ Some k → result ≡ pure.begins_unit (view (record { kind = k; at = at; place = place })) }
{
    match class {
        Class::Name => place.col == 1 && is_starter(bytes),
        Class::Other => begins_at(place.col, bytes),
        _ => false,
    }
}
