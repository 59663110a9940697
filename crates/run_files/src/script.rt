//! Scripts: the choices of the start, and then whose step comes next, with its choices.

ghost use Rattle.std.specs.Prelude.{◌≡◌, ◌<◌, ◌≤◌, length, Err, IfOk};
ghost use Rattle.tla_token.specs.declared.rule.Refusal as code;
ghost use Rattle.tla_token.specs.Limits.{past_text};
ghost use Rattle.step_runner.specs.Script.{SpellsScript, ScriptOffends};
ghost use Rattle.run_files.specs.Turns.{script_of, WhoAnswer, TurnAnswer, TurnsAnswer};

use crate::config::refused;
use crate::items::Halt;
use crate::lines::{choices_behind, told_line};
use crate::scan::{next_at, past};
use std::alloc::{AllocError, Global};
use std::marker::Model;
use tla_token::Stop;
use tla_value::value::Value;
use value_text::read_value;

/// A step of a script: whose it is, where there are processes, and its choices.
#[derive(Drop)]
pub struct Turn {
    /// The identifier of the process.
    pub who: Option<Value>,
    /// Its choices.
    pub choices: Vec<u32>,
}

impl Model for Turn {
    ghost use Rattle.pcal_tree.specs.Script as pure;
    ghost use Rattle.run_files.specs.TurnCode.{turn_code};

    ghost Value = { pure.Turn };

    ghost coded = { turn_code };

    ghost view = { λ n. record { who = n.who; choices = n.choices.items } };
}

/// A script.
#[derive(Drop)]
pub struct Script {
    /// The choices of the start.
    pub choices: Vec<u32>,
    /// Its steps.
    pub turns: Vec<Turn>,
}

// Whose step it is behind a place, and where that ends; none where it isn't said.
fn who(
    alloc: Global,
    line: &[u8],
    at: usize,
    multi: bool,
) -> Result<Option<(Option<Value>, usize)>, AllocError>
    requires within { at ≤ length line.now }
    requires small { length line.now < past_text }
    ensures { IfOk result (WhoAnswer multi line.now at) }
{
    if !multi {
        return Ok(Some((None, at)));
    }
    match read_value(alloc, line, next_at(line, at)) {
        Ok((value, to)) => Ok(Some((Some(value), to))),
        Err(Stop::Memory) => Err(AllocError),
        Err(Stop::Refused(_)) => Ok(None),
    }
}

// The step that a line is; none where it is none.
fn read_turn(alloc: Global, line: &[u8], multi: bool) -> Result<Option<Turn>, AllocError>
    requires { length line.now < past_text }
    ensures { IfOk result (TurnAnswer multi line.now) }
{
    let from = match past(b"step".as_slice(), line, next_at(line, 0)) {
        Some(from) => from,
        None => return Ok(None),
    };
    let (who, to) = match who(alloc, line, from, multi)? {
        Some(found) => found,
        None => return Ok(None),
    };
    match choices_behind(alloc, line, to, b":".as_slice())? {
        Some(choices) => Ok(Some(Turn { who, choices })),
        None => Ok(None),
    }
}

// The steps that the lines from a place on are.
fn turns(alloc: Global, text: &[u8], from: usize, multi: bool) -> Result<Vec<Turn>, Halt>
    requires within { from ≤ length text.now }
    requires small { length text.now < past_text }
    ensures { TurnsAnswer multi text.now from result }
{
    let mut turns = Vec::new(alloc);
    let mut at = from;
    while at < text.len() {
        match told_line(text, at) {
            Some(line) => {
                match read_turn(alloc, &text[line.from..line.to], multi) {
                    Ok(Some(turn)) => turns.push(turn)?,
                    Ok(None) => return Err(Halt::At(line.from + line.begin)),
                    Err(_) => return Err(Halt::Memory),
                }
                at = line.to;
            }
            None => return Ok(turns),
        }
    }
    Ok(turns)
}

/// The script that a text is; with identifiers where there are processes.
///
/// # Errors
///
/// For want of memory, and by the rule for lines exactly where the text is no script.
pub fn read_script(alloc: Global, text: &[u8], multi: bool) -> Result<Script, Stop>
    requires { length text.now < past_text }
    ensures read { IfOk result (λ s. SpellsScript multi text.now (script_of s)) }
    ensures refused { (r : code.Refusal) → result ≡ Err (Stop.Refused r) → ScriptOffends multi text.now r }
{
    let line = match told_line(text, 0) {
        Some(line) => line,
        None => return Err(Stop::Refused(refused(text, text.len()))),
    };
    match choices_behind(alloc, &text[line.from..line.to], 0, b"init".as_slice())? {
        Some(choices) => match turns(alloc, text, line.to, multi) {
            Ok(turns) => Ok(Script { choices, turns }),
            Err(Halt::Memory) => Err(Stop::Memory),
            Err(Halt::At(at)) => Err(Stop::Refused(refused(text, at))),
        },
        None => Err(Stop::Refused(refused(text, line.from + line.begin))),
    }
}
