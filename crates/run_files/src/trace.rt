//! Traces: lines that begin states, each with an item for each variable behind it.

ghost use Rattle.std.specs.Prelude.{◌≡◌, ◌<◌, ◌≤◌, [], length, Err, IfOk};
ghost use Rattle.tla_token.specs.declared.rule.Refusal as code;
ghost use Rattle.tla_token.specs.Limits.{past_text};
ghost use Rattle.algorithm_limits.specs.DepthsIn.{Hides};
ghost use Rattle.step_runner.specs.Items.{are_all, names_of};
ghost use Rattle.step_runner.specs.Trace.{SpellsTrace, TraceOffends};
ghost use Rattle.run_files.specs.Headings.{Heads, StateAnswer, StatesAnswer};

use crate::config::refused;
use crate::items::{Halt, is_given, read_items};
use crate::lines::line_end;
use crate::scan::next_at;
use algorithm_limits::bound::Bound;
use std::alloc::{AllocError, Global};
use tla_token::Stop;
use tla_tree::{Name, NameList};
use tla_value::state::State;

/// A line that begins a state; at the text's end, and empty, where there is none.
#[derive(Clone, Copy)]
pub struct Heading {
    /// Where it begins.
    pub from: usize,
    /// Where it ends, with the byte that ends it.
    pub to: usize,
}

// The first line from a place on that begins a state.
#[tactic(auto, using(crate::proofs::TraceLaws::passes_none, crate::proofs::TraceLaws::passes_more, crate::proofs::TraceLaws::heads_found, crate::proofs::TraceLaws::heads_none))]
fn heading_from(text: &[u8], start: usize) -> Heading
    requires within { start ≤ length text.now }
    requires small { length text.now < past_text }
    ensures { Heads text.now start result }
{
    let mut from = start;
    while from < text.len() {
        let to = line_end(text, from);
        if text[from..to].starts_with(b"State ".as_slice()) {
            return Heading { from, to };
        }
        from = to;
    }
    Heading { from, to: from }
}

// The names, to be looked up.
#[tactic(auto, using(crate::proofs::TraceLaws::known_none, crate::proofs::TraceLaws::known_more, crate::proofs::TraceLaws::known_all))]
fn known_of(alloc: Global, names: &[Name]) -> Result<Bound, AllocError>
    ensures { IfOk result (λ b. Hides [] b names.now) }
{
    let mut known = Bound::new(alloc);
    for name in names {
        known.add(name)?;
    }
    Ok(known)
}

// Whether each of these names has a value.
fn all_given(names: &[Name], state: &State) -> bool
    ensures { result ≡ are_all names.now (names_of state.now) }
{
    for name in names {
        if !is_given(state, name) {
            return false;
        }
    }
    true
}

// Reads the values of a state.
fn read_state(
    alloc: Global,
    text: &[u8],
    known: &Bound,
    vars: &[Name],
    states: &mut Vec<State>,
) -> Result<(), Halt>
    requires small { length text.now < past_text }
    requires names { Hides [] known.now vars.now }
    ensures { StateAnswer vars.now text.now states.old.items states.new.items result }
{
    match read_items(alloc, text, true, known) {
        Ok(state) => {
            if !all_given(vars, &state) {
                return Err(Halt::At(text.len()));
            }
            states.push(state)?;
            Ok(())
        }
        Err(halt) => Err(halt),
    }
}

// The values of the states from a place on, of which the first begins there.
fn read_states(
    alloc: Global,
    text: &[u8],
    from: usize,
    known: &Bound,
    vars: &[Name],
) -> Result<Vec<State>, Halt>
    requires within { from ≤ length text.now }
    requires small { length text.now < past_text }
    requires names { Hides [] known.now vars.now }
    ensures { StatesAnswer vars.now text.now from result }
{
    let mut states = Vec::new(alloc);
    let mut at = from;
    loop {
        let next = heading_from(text, at);
        match read_state(alloc, &text[at..next.from], known, vars, &mut states) {
            Ok(()) => {}
            Err(Halt::Memory) => return Err(Halt::Memory),
            Err(Halt::At(n)) => return Err(Halt::At(at + n)),
        }
        if next.from == next.to {
            return Ok(states);
        }
        at = next.to;
    }
}

/// The states of a trace, each with a value for each of these variables.
///
/// # Errors
///
/// For want of memory, and by the rule for lines exactly where the text is no trace.
pub fn read_trace(alloc: Global, text: &[u8], vars: &NameList) -> Result<Vec<State>, Stop>
    requires { length text.now < past_text }
    ensures read { IfOk result (λ v. SpellsTrace vars.now text.now v.items) }
    ensures refused { (r : code.Refusal) → result ≡ Err (Stop.Refused r) → TraceOffends vars.now text.now r }
{
    let first = heading_from(text, 0);
    let begin = next_at(&text[..first.from], 0);
    if begin < first.from {
        return Err(Stop::Refused(refused(text, begin)));
    }
    if first.from == first.to {
        return Err(Stop::Refused(refused(text, text.len())));
    }
    let known = known_of(alloc, vars.as_slice())?;
    match read_states(alloc, text, first.to, &known, vars.as_slice()) {
        Ok(states) => Ok(states),
        Err(Halt::Memory) => Err(Stop::Memory),
        Err(Halt::At(at)) => Err(Stop::Refused(refused(text, at))),
    }
}
