//! Expressions of rows, with the names and definitions that they may use.

ghost use Rattle.std.specs.Prelude.{◌<◌, ◌≤◌, length, IfOk, OnOk};
ghost use Rattle.tla_token.specs.Limits.{past_text};
ghost use Rattle.tla_tree.specs.Pool.{Keeps};
ghost use Rattle.tla_value.specs.Defs.{DefinitionsIn};

use std::alloc::{AllocError, Global};
use tla_eval::eval::eval;
use tla_expr::laws::given_numbers_fit;
use tla_expr::read_expr;
use tla_pool::Pool;
use tla_token::{Place, Stop, tokens};
use tla_tree::{Name, NameList, NodeId};
use tla_value::names::{Definition, Defs};
use tla_value::state::State;
use tla_value::stop::EvalStop;
use tla_value::value::Value;
use value_text::read_value;

const HERE: Place = Place { line: 1, col: 1 };

// A text of a row is shorter; so it can be looked at.
const MOST: usize = 1_000_000;

/// Why an expression of a row has no value.
#[derive(Drop)]
pub enum Why {
    /// It is none, or memory ran out.
    Refused(Stop),
    /// It has none.
    Stopped(EvalStop),
}

impl From<AllocError> for Why {
    fn from(_e: AllocError) -> Why {
        Why::Refused(Stop::Memory)
    }
}

// The expression that a short text is, by its number.
fn read(alloc: Global, text: &[u8], pool: &mut Pool) -> Result<NodeId, Stop>
    requires { length text.now < past_text }
    ensures within { IfOk result (λ e. e < length pool.new) }
    ensures kept { Keeps pool.old pool.new }
{
    let tokens = tokens(alloc, text, 0, text.len())?;
    given_numbers_fit();
    let (e, _) = read_expr(alloc, &tokens, 0, pool)?;
    Ok(e)
}

// The expression that a text is, by its number.
fn expression(alloc: Global, text: &[u8], pool: &mut Pool) -> Result<NodeId, Why>
    ensures within { IfOk result (λ e. e < length pool.new) }
    ensures kept { Keeps pool.old pool.new }
{
    if text.len() >= MOST {
        return Err(Why::Refused(Stop::Memory));
    }
    match read(alloc, text, pool) {
        Ok(e) => Ok(e),
        Err(stop) => Err(Why::Refused(stop)),
    }
}

fn name(alloc: Global, word: &str) -> Result<Name, AllocError> {
    Ok(Name::new(Vec::from_slice(alloc, word.as_bytes())?))
}

/// The state of lines `x = v`; lines that are none are passed over.
pub fn state(alloc: Global, lines: &str) -> Result<State, AllocError> {
    let mut state = State::new(alloc);
    for line in lines.split('\n') {
        let (word, spelled) = line.split_once(" = ").unwrap_or((line, ""));
        if let Some(value) = value_of(alloc, spelled.as_bytes()) {
            state.set(name(alloc, word)?, value)?;
        }
    }
    Ok(state)
}

// The value that a text spells, if any.
fn value_of(alloc: Global, text: &[u8]) -> Option<Value> {
    if text.len() >= MOST {
        return None;
    }
    match read_value(alloc, text, 0) {
        Ok((value, _)) => Some(value),
        Err(_) => None,
    }
}

// The names of a list with commas.
fn params(alloc: Global, list: &str) -> Result<NameList, AllocError> {
    let mut params = NameList::new(alloc);
    for param in list.split(", ") {
        if !param.is_empty() {
            params.push(name(alloc, param)?)?;
        }
    }
    Ok(params)
}

// Adds the definition of a line `N == e`, `N(a, b) == e`, or one of these behind `outside`.
fn add_definition(alloc: Global, pool: &mut Pool, defs: &mut Defs, line: &str) -> Result<(), Why>
    requires { DefinitionsIn (length pool.old) defs.old }
    ensures { OnOk result (DefinitionsIn (length pool.new) defs.new) }
{
    let inner = line.strip_prefix("outside ");
    let (head, body) = inner
        .unwrap_or(line)
        .split_once(" == ")
        .unwrap_or((line, ""));
    let (title, rest) = head.split_once('(').unwrap_or((head, ""));
    let params = params(alloc, rest.strip_suffix(')').unwrap_or(rest))?;
    let body = expression(alloc, body.as_bytes(), pool)?;
    defs.push(Definition {
        name: name(alloc, title)?,
        params,
        body,
        outside: inner.is_some(),
        place: HERE,
    })?;
    Ok(())
}

/// The value of the expression that a line is, with these names and definitions.
pub fn value(alloc: Global, state: &State, definitions: &str, line: &str) -> Result<Value, Why> {
    let mut pool = Pool::new(alloc);
    let mut defs = Defs::new(alloc);
    for one in definitions.split('\n') {
        if !one.is_empty() {
            add_definition(alloc, &mut pool, &mut defs, one)?;
        }
    }
    let e = expression(alloc, line.as_bytes(), &mut pool)?;
    match eval(alloc, &pool, e, state, &defs) {
        Ok(value) => Ok(value),
        Err(stop) => Err(Why::Stopped(stop)),
    }
}
