//! What is kept of a unit that is passed on unread.

ghost use Rattle.std.specs.Prelude.{◌≡◌, ◌<◌, ◌≤◌, length, IfOk};
ghost use Rattle.module_tree.specs.Outside.{identifiers as identifiers_of, first_one, title_at, names_by, opaque_of};
ghost use Rattle.tla_tree.specs.Reader.{tail};
ghost use Rattle.expr_nodes.specs.Ahead.{ahead};
ghost use Rattle.module_outside.specs.Passing.{front_identifier, front_word, passed_names, passed_seen, with_one};

use crate::front::{is_mark_at, token_at};
use expr_nodes::make::name_of;
use expr_nodes::view::{Mark, View};
use std::alloc::{AllocError, Global};
use tla_token::word::is_among;
use tla_token::{Place, Tokens};
use tla_tree::Name;

/// The words after which a unit may have a name.
static TITLED: [&str; 4] = ["ASSUME", "ASSUMPTION", "AXIOM", "THEOREM"];

/// The words after which a unit declares all its names.
static LISTED: [&str; 3] = ["CONSTANT", "CONSTANTS", "RECURSIVE"];

/// A unit that is passed on unread: its keyword, which a definition hasn't, its names and its place.
#[derive(Drop)]
pub struct Passed {
    pub keyword: Name,
    pub names: Vec<Name>,
    pub place: Place,
}

// The identifier that a token is, if it is one; it may be a reserved word of PlusCal.
fn identifier_at(alloc: Global, tokens: &Tokens, at: usize) -> Result<Option<Name>, AllocError>
    requires { at < length tokens.now.items.items }
    ensures { IfOk result (λ r. r ≡ front_identifier (ahead tokens.now at)) }
{
    match token_at(tokens, at).view {
        View::Word(span) => Ok(Some(name_of(alloc, tokens, span)?)),
        View::Reserved(span) => Ok(Some(name_of(alloc, tokens, span)?)),
        _ => Ok(None),
    }
}

// The word with which a unit begins that is no definition; else an empty one.
fn keyword(alloc: Global, unit: &Tokens) -> Result<Name, AllocError>
    requires { 0 < length unit.now.items.items }
    ensures { IfOk result (λ w. w ≡ front_word (ahead unit.now 0)) }
{
    match token_at(unit, 0).view {
        View::Other(span) => name_of(alloc, unit, span),
        _ => Ok(Name::new(Vec::new(alloc))),
    }
}

// With one more, if it is one.
fn with_identifier(names: &mut Vec<Name>, name: Option<Name>) -> Result<(), AllocError>
    ensures { IfOk result (λ u. names.new.items ≡ with_one names.old.items name) }
{
    if let Some(one) = name {
        names.push(one)?;
    }
    Ok(())
}

// All identifiers from a token on.
#[tactic(auto, using(crate::proofs::PassedLaws::identifiers_more, crate::proofs::PassedLaws::identifiers_end))]
fn identifiers(alloc: Global, tokens: &Tokens, from: usize) -> Result<Vec<Name>, AllocError>
    requires { from ≤ length tokens.now.items.items }
    ensures { IfOk result (λ ns. ns.items ≡ identifiers_of (ahead tokens.now from)) }
{
    let mut names = Vec::new(alloc);
    for at in from..tokens.items.len() {
        with_identifier(&mut names, identifier_at(alloc, tokens, at)?)?;
    }
    Ok(names)
}

// The first identifier, if there is one.
#[tactic(auto, using(crate::proofs::PassedLaws::first_here, crate::proofs::PassedLaws::first_further, crate::proofs::PassedLaws::first_none))]
fn first_identifier(alloc: Global, tokens: &Tokens) -> Result<Vec<Name>, AllocError>
    ensures { IfOk result (λ ns. ns.items ≡ first_one (identifiers_of (ahead tokens.now 0))) }
{
    let mut names = Vec::new(alloc);
    for at in 0..tokens.items.len() {
        if let Some(one) = identifier_at(alloc, tokens, at)? {
            names.push(one)?;
            return Ok(names);
        }
    }
    Ok(names)
}

// The name before `==`, behind the first token.
#[tactic(auto, using(crate::proofs::PassedLaws::has_title, crate::proofs::PassedLaws::has_none))]
fn title(alloc: Global, unit: &Tokens) -> Result<Vec<Name>, AllocError>
    ensures { IfOk result (λ ns. ns.items ≡ title_at (tail (ahead unit.now 0))) }
{
    let mut names = Vec::new(alloc);
    if is_mark_at(unit, 2, Mark::Defines) {
        with_identifier(&mut names, identifier_at(alloc, unit, 1)?)?;
    }
    Ok(names)
}

// The names of a unit that begins with this word.
#[tactic(auto, using(crate::proofs::PassedLaws::names_listed))]
fn names(alloc: Global, unit: &Tokens, word: &[u8]) -> Result<Vec<Name>, AllocError>
    requires { 0 < length unit.now.items.items }
    ensures { IfOk result (λ ns. ns.items ≡ passed_names word.now (ahead unit.now 0)) }
{
    if is_among(&TITLED, word) {
        title(alloc, unit)
    } else if is_among(&LISTED, word) {
        identifiers(alloc, unit, 1)
    } else {
        first_identifier(alloc, unit)
    }
}

/// What is kept of a unit that is passed on unread.
///
/// # Errors
///
/// Only for want of memory.
pub fn passed_on(alloc: Global, unit: &Tokens) -> Result<Passed, AllocError>
    requires { 0 < length unit.now.items.items }
    ensures { IfOk result (λ p. passed_seen p ≡ opaque_of (ahead unit.now 0)) }
{
    let place = token_at(unit, 0).place;
    let word = keyword(alloc, unit)?;
    let declared = names(alloc, unit, word.bytes())?;
    Ok(Passed {
        keyword: word,
        names: declared,
        place,
    })
}
