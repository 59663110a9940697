//! Items that give names their values, one after the other: `x = v`, or `/\ x = v`.

ghost use Rattle.std.specs.Prelude.{◌≡◌, ◌<◌, ◌≤◌, length, IfSome, IfOk};
ghost use Rattle.tla_token.specs.Limits.{past_text};
ghost use Rattle.tla_token.specs.Signs.{is_among};
ghost use Rattle.tla_tree.specs.Tree.{words};
ghost use Rattle.step_runner.specs.Items.{named_at, item_begins, is_new, are_all, names_of};
ghost use Rattle.run_files.specs.SoFar.{behind, ItemAnswer, ItemsAnswer};

use crate::scan::{name_end, next_at, past};
use algorithm_limits::bound::Bound;
use std::alloc::{AllocError, AllocFailed, Global};
use tla_token::Stop;
use tla_tree::{Name, PlacedName};
use tla_value::state::State;
use value_text::read_value;

/// Why nothing more is read.
#[derive(Clone, Copy)]
pub enum Halt {
    /// There was no memory.
    Memory,
    /// The text offends at this index.
    At(usize),
}

impl From<AllocError> for Halt {
    ghost use Rattle.run_files.specs.declared.items.Halt.TheVariants as halt;
    ghost use Rattle.std.specs.Prelude.{◌≡◌};

    ghost from_gives = { λ _ e. e ≡ halt.Memory };

    fn from(_: AllocError) -> Self {
        Halt::Memory
    }
}

impl<T: Drop> From<AllocFailed<T>> for Halt {
    ghost use Rattle.run_files.specs.declared.items.Halt.TheVariants as halt;
    ghost use Rattle.std.specs.Prelude.{◌≡◌};

    ghost from_gives = { λ _ e. e ≡ halt.Memory };

    fn from(_: AllocFailed<T>) -> Self {
        Halt::Memory
    }
}

// Where the value begins behind a name that ends at a place.
#[tactic(auto, using(crate::proofs::ItemLaws::no_equals, crate::proofs::ItemLaws::behind_equals))]
fn value_from(text: &[u8], at: usize) -> Option<usize>
    requires within { at ≤ length text.now }
    requires small { length text.now < past_text }
    ensures value { result ≡ behind text.now at }
    ensures inside { IfSome result (λ to. (at ≤ to) × (to ≤ length text.now)) }
{
    match past(b"=".as_slice(), text, next_at(text, at)) {
        Some(to) => Some(next_at(text, to)),
        None => None,
    }
}

fn name_of(alloc: Global, bytes: &[u8]) -> Result<Name, AllocError>
    ensures { IfOk result (λ n. n ≡ bytes.now) }
{
    Ok(Name::new(Vec::from_slice(alloc, bytes)?))
}

// The name of an item without a bullet, and where its value begins.
#[tactic(auto, using(crate::proofs::ItemLaws::no_name))]
fn named(alloc: Global, text: &[u8], at: usize) -> Result<Option<(Name, usize)>, AllocError>
    requires within { at ≤ length text.now }
    requires small { length text.now < past_text }
    ensures value { IfOk result (λ o. o ≡ named_at text.now at) }
    ensures inside { IfOk result (λ o. IfSome o (λ n. (at ≤ n.1) × (n.1 ≤ length text.now))) }
{
    match name_end(text, at) {
        Some(to) => match value_from(text, to) {
            Some(value) => Ok(Some((name_of(alloc, &text[at..to])?, value))),
            None => Ok(None),
        },
        None => Ok(None),
    }
}

// The name of an item, and where its value begins.
#[tactic(auto, using(crate::proofs::ItemLaws::no_bullet, crate::proofs::ItemLaws::behind_bullet, crate::proofs::ItemLaws::without_bullet))]
fn front(
    alloc: Global,
    text: &[u8],
    at: usize,
    bullet: bool,
) -> Result<Option<(Name, usize)>, AllocError>
    requires within { at ≤ length text.now }
    requires small { length text.now < past_text }
    ensures value { IfOk result (λ o. o ≡ item_begins bullet text.now at) }
    ensures inside { IfOk result (λ o. IfSome o (λ n. (at ≤ n.1) × (n.1 ≤ length text.now))) }
{
    if !bullet {
        return named(alloc, text, at);
    }
    match past(b"/\\".as_slice(), text, at) {
        Some(to) => named(alloc, text, next_at(text, to)),
        None => Ok(None),
    }
}

/// Whether a name has a value.
#[tactic(auto, using(crate::proofs::ItemLaws::has_one, crate::proofs::ItemLaws::has_none))]
pub fn is_given(state: &State, name: &Name) -> bool
    ensures { result ≡ is_among (names_of state.now) name.now }
{
    match state.get(name) {
        Some(_) => true,
        None => false,
    }
}

// Whether a name is known and has no value.
fn is_new(known: &Bound, state: &State, name: &Name) -> bool
    ensures { result ≡ is_new known.now (names_of state.now) name.now }
{
    if !known.has(name) {
        return false;
    }
    !is_given(state, name)
}

// Reads an item with a new name; where it ends.
fn read_item(
    alloc: Global,
    text: &[u8],
    at: usize,
    bullet: bool,
    known: &Bound,
    state: &mut State,
) -> Result<usize, Halt>
    requires within { at < length text.now }
    requires small { length text.now < past_text }
    ensures { ItemAnswer bullet known.now text.now at state.old state.new result }
{
    match front(alloc, text, at, bullet) {
        Ok(Some((name, from))) => {
            if !is_new(known, state, &name) {
                return Err(Halt::At(at));
            }
            match read_value(alloc, text, from) {
                Ok((value, to)) => {
                    state.set(name, value)?;
                    Ok(to)
                }
                Err(Stop::Memory) => Err(Halt::Memory),
                Err(Stop::Refused(_)) => Err(Halt::At(at)),
            }
        }
        Ok(None) => Err(Halt::At(at)),
        Err(_) => Err(Halt::Memory),
    }
}

/// The values of the items of a whole text, which have names that are known, each once.
///
/// # Errors
///
/// For want of memory, and where no such item is and the text doesn't end.
pub fn read_items(alloc: Global, text: &[u8], bullet: bool, known: &Bound) -> Result<State, Halt>
    requires { length text.now < past_text }
    ensures { ItemsAnswer bullet known.now text.now result }
{
    let mut state = State::new(alloc);
    let mut at = next_at(text, 0);
    while at < text.len() {
        match read_item(alloc, text, at, bullet, known, &mut state) {
            Ok(to) => at = next_at(text, to),
            Err(halt) => return Err(halt),
        }
    }
    Ok(state)
}

/// Whether each of these names has a value.
pub fn are_given(names: &[PlacedName], state: &State) -> bool
    ensures { result ≡ are_all (words names.now) (names_of state.now) }
{
    for one in names {
        if !is_given(state, &one.name) {
            return false;
        }
    }
    true
}
