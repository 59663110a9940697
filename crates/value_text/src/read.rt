//! The value that is in a text at a place.

ghost use Rattle.std.specs.Prelude.{◌≡◌, ◌<◌, ◌≤◌, ◌∷◌, [], ℕ, length, unwrap_or, Err, IfOk};
ghost use Rattle.tla_token.specs.declared.rule.Refusal as code;
ghost use Rattle.tla_token.specs.Limits.{past_text};
ghost use Rattle.tla_value.specs.ValueSeen.{SpellsFrom};
ghost use Rattle.value_text.specs.Answers.{IsNoValue};
ghost use Rattle.tla_token.specs.Lexemes.{number_of, unquoted as unquoted_of};
ghost use Rattle.tla_token.specs.Tokens.{stretch};
ghost use Rattle.tla_token.specs.Scan.{inner};
ghost use Rattle.tla_value.specs.Value.{text as pure_text};
ghost use Rattle.tla_value.specs.ValueText.{Mark, spelled};
ghost use Rattle.value_text.specs.declared.make.Form.TheVariants as form;
ghost use Rattle.value_text.specs.InSight.{ahead, IsToken, Moves};
ghost use Rattle.value_text.specs.Items.{begin_of, punct_mark, sign_mark, signed_number, word_read, NameAnswer, IntegerAnswer, Answer, KeyAnswer, ItemAnswer, BodyAnswer};

use crate::make::{Form, Halt, Opening, between_of, close_of, made_of, may_be_empty, opening_of};
use crate::token::{Punct, Token, next_token, passes};
use expr_nodes::quote::unquoted;
use std::alloc::{AllocError, Global};
use tla_token::bytes::number_value;
use tla_token::{Class, Refusal, Rule, Sign, Stop, place_of};
use tla_tree::Name;
use tla_value::build::DEEPEST;
use tla_value::value::Value;

// The least number that is past the limits.
const PAST_NUMBERS: u128 = 170_141_183_460_469_231_731_687_303_715_884_105_728;

// Reads what an item has in front of its value.
#[tactic(auto, using(crate::proofs::Tokens::moves_none, crate::proofs::Tokens::moves_same, crate::proofs::Tokens::moves_then))]
#[cycle(read)]
fn key(
    alloc: Global,
    text: &[u8],
    at: &mut usize,
    form: Form,
    deep: usize,
    keys: &mut Vec<Value>,
) -> Result<(), Halt>
    requires within { at.old ≤ length text.now }
    requires small { length text.now < past_text }
    ensures read { KeyAnswer form deep (ahead text.now at.old) (ahead text.now at.new) keys.old.items keys.new.items result }
    ensures moved { IfOk result (λ u. (at.old ≤ at.new) × (at.new ≤ length text.now)) }
    ensures way { IfOk result (λ u. Moves text.now at.old at.new) }
{
    match form {
        Form::Set | Form::Tuple => Ok(()),
        Form::Record => field(alloc, text, at, keys),
        Form::Pairs => argument(alloc, text, at, deep, keys),
    }
}

// Reads an item.
#[tactic(auto, using(crate::proofs::Tokens::moves_none, crate::proofs::Tokens::moves_same, crate::proofs::Tokens::moves_then))]
#[cycle(read)]
fn item(
    alloc: Global,
    text: &[u8],
    at: &mut usize,
    form: Form,
    deep: usize,
    keys: &mut Vec<Value>,
    values: &mut Vec<Value>,
) -> Result<(), Halt>
    requires within { at.old ≤ length text.now }
    requires small { length text.now < past_text }
    ensures read { ItemAnswer form deep (ahead text.now at.old) (ahead text.now at.new) keys.old.items keys.new.items values.old.items values.new.items result }
    ensures moved { IfOk result (λ u. (at.old < at.new) × (at.new ≤ length text.now)) }
    ensures way { IfOk result (λ u. Moves text.now at.old at.new) }
{
    match key(alloc, text, at, form, deep, keys) {
        Ok(()) => match value(alloc, text, at, deep) {
            Ok(v) => {
                values.push(v)?;
                Ok(())
            }
            Err(halt) => Err(halt),
        },
        Err(halt) => Err(halt),
    }
}

// Reads the field of a record and the sign behind it.
#[tactic(auto, using(crate::proofs::Tokens::moves_none, crate::proofs::Tokens::moves_same, crate::proofs::Tokens::moves_then))]
fn field(alloc: Global, text: &[u8], at: &mut usize, keys: &mut Vec<Value>) -> Result<(), Halt>
    requires within { at.old ≤ length text.now }
    requires small { length text.now < past_text }
    ensures read { (d : ℕ) → KeyAnswer form.Record d (ahead text.now at.old) (ahead text.now at.new) keys.old.items keys.new.items result }
    ensures moved { IfOk result (λ u. (at.old ≤ at.new) × (at.new ≤ length text.now)) }
    ensures way { IfOk result (λ u. Moves text.now at.old at.new) }
{
    match next_name(text, at) {
        None => Err(Halt::NoValue),
        Some(token) => {
            if passes(text, at, Punct::Maps) {
                let name = name_of(alloc, &text[token.from..token.to])?;
                keys.push(Value::text(name))?;
                Ok(())
            } else {
                Err(Halt::NoValue)
            }
        }
    }
}

// The first token in sight, if it is a name; then it is passed.
fn next_name(text: &[u8], at: &mut usize) -> Option<Token>
    requires within { at.old ≤ length text.now }
    requires small { length text.now < past_text }
    ensures { NameAnswer text.now at.old at.new result }
{
    match next_token(text, *at) {
        None => None,
        Some(token) => match token.class {
            Class::Name => {
                *at = token.to;
                Some(token)
            }
            _ => None,
        },
    }
}

fn name_of(alloc: Global, bytes: &[u8]) -> Result<Name, AllocError>
    ensures { IfOk result (λ n. n ≡ bytes.now) }
{
    Ok(Name::new(Vec::from_slice(alloc, bytes)?))
}

// Reads an argument of a function and the sign behind it.
#[tactic(auto, using(crate::proofs::Tokens::moves_none, crate::proofs::Tokens::moves_same, crate::proofs::Tokens::moves_then))]
#[cycle(read)]
fn argument(
    alloc: Global,
    text: &[u8],
    at: &mut usize,
    deep: usize,
    keys: &mut Vec<Value>,
) -> Result<(), Halt>
    requires within { at.old ≤ length text.now }
    requires small { length text.now < past_text }
    ensures read { KeyAnswer form.Pairs deep (ahead text.now at.old) (ahead text.now at.new) keys.old.items keys.new.items result }
    ensures moved { IfOk result (λ u. (at.old ≤ at.new) × (at.new ≤ length text.now)) }
    ensures way { IfOk result (λ u. Moves text.now at.old at.new) }
{
    match value(alloc, text, at, deep) {
        Ok(k) => {
            if passes(text, at, Punct::Pair) {
                keys.push(k)?;
                Ok(())
            } else {
                Err(Halt::NoValue)
            }
        }
        Err(halt) => Err(halt),
    }
}

// Reads the items of brackets that are open, and what closes them.
#[tactic(auto, using(crate::proofs::Tokens::moves_none, crate::proofs::Tokens::moves_same, crate::proofs::Tokens::moves_then))]
#[cycle(read)]
fn items(
    alloc: Global,
    text: &[u8],
    at: &mut usize,
    form: Form,
    deep: usize,
    keys: &mut Vec<Value>,
    values: &mut Vec<Value>,
) -> Result<(), Halt>
    requires within { at.old ≤ length text.now }
    requires small { length text.now < past_text }
    ensures read { BodyAnswer form deep (ahead text.now at.old) (ahead text.now at.new) keys.old.items keys.new.items values.old.items values.new.items result }
    ensures moved { IfOk result (λ u. (at.old < at.new) × (at.new ≤ length text.now)) }
    ensures way { IfOk result (λ u. Moves text.now at.old at.new) }
{
    if may_be_empty(form) {
        if passes(text, at, close_of(form)) {
            return Ok(());
        }
    }
    loop {
        match item(alloc, text, at, form, deep, keys, values) {
            Ok(()) => {}
            Err(halt) => return Err(halt),
        }
        if passes(text, at, close_of(form)) {
            return Ok(());
        }
        if !passes(text, at, between_of(form)) {
            return Err(Halt::NoValue);
        }
    }
}

// Reads what stands in brackets that are open.
#[tactic(auto, using(crate::proofs::Tokens::moves_none, crate::proofs::Tokens::moves_same, crate::proofs::Tokens::moves_then))]
#[cycle(read)]
fn brackets(
    alloc: Global,
    text: &[u8],
    at: &mut usize,
    form: Form,
    deep: usize,
) -> Result<Value, Halt>
    requires within { at.old ≤ length text.now }
    requires small { length text.now < past_text }
    ensures read { Answer deep (punct_mark (begin_of form) ∷ ahead text.now at.old) (ahead text.now at.new) result }
    ensures moved { IfOk result (λ v. (at.old ≤ at.new) × (at.new ≤ length text.now)) }
    ensures way { IfOk result (λ u. Moves text.now at.old at.new) }
{
    if deep == 0 {
        return Err(Halt::NoValue);
    }
    let mut keys = Vec::new(alloc);
    let mut values = Vec::new(alloc);
    match items(alloc, text, at, form, deep - 1, &mut keys, &mut values) {
        Ok(()) => made_of(alloc, form, keys, values),
        Err(halt) => Err(halt),
    }
}

// Reads a value that begins with a sign.
#[tactic(auto, using(crate::proofs::Tokens::moves_none, crate::proofs::Tokens::moves_same, crate::proofs::Tokens::moves_then))]
#[cycle(read)]
fn signed(
    alloc: Global,
    text: &[u8],
    at: &mut usize,
    sign: Sign,
    deep: usize,
) -> Result<Value, Halt>
    requires within { at.old ≤ length text.now }
    requires small { length text.now < past_text }
    ensures read { Answer deep (sign_mark sign ∷ ahead text.now at.old) (ahead text.now at.new) result }
    ensures moved { IfOk result (λ v. (at.old ≤ at.new) × (at.new ≤ length text.now)) }
    ensures way { IfOk result (λ u. Moves text.now at.old at.new) }
{
    match opening_of(sign) {
        Some(Opening::Minus) => negative(text, at),
        Some(Opening::Brackets(form)) => brackets(alloc, text, at, form, deep),
        None => Err(Halt::NoValue),
    }
}

// The number behind a minus.
#[tactic(auto, using(crate::proofs::Tokens::moves_none, crate::proofs::Tokens::moves_same, crate::proofs::Tokens::moves_then))]
fn negative(text: &[u8], at: &mut usize) -> Result<Value, Halt>
    requires within { at.old ≤ length text.now }
    requires small { length text.now < past_text }
    ensures read { (d : ℕ) → Answer d (punct_mark Punct.Minus ∷ ahead text.now at.old) (ahead text.now at.new) result }
    ensures moved { IfOk result (λ v. (at.old ≤ at.new) × (at.new ≤ length text.now)) }
    ensures way { IfOk result (λ u. Moves text.now at.old at.new) }
{
    match next_token(text, *at) {
        None => Err(Halt::NoValue),
        Some(token) => match token.class {
            Class::Number => {
                *at = token.to;
                integer(&text[token.from..token.to], true)
            }
            _ => Err(Halt::NoValue),
        },
    }
}

// The integer of these digits, within the limits.
fn integer(digits: &[u8], negative: bool) -> Result<Value, Halt>
    ensures { IntegerAnswer (signed_number negative (number_of digits.now)) result }
{
    match number_value(digits) {
        None => Err(Halt::NoValue),
        Some(n) => {
            if n < PAST_NUMBERS {
                let n = n as i128;
                Ok(Value::int(if negative { -n } else { n }))
            } else if negative && n == PAST_NUMBERS {
                Ok(Value::int(i128::MIN))
            } else {
                Err(Halt::NoValue)
            }
        }
    }
}

// A truth value, or a model value.
#[tactic(auto, using(crate::proofs::ReadLemmas::other_word))]
fn word(alloc: Global, bytes: &[u8]) -> Result<Value, AllocError>
    ensures { IfOk result (λ v. v ≡ spelled (word_read bytes.now)) }
{
    if bytes == b"TRUE".as_slice() {
        Ok(Value::truth(true))
    } else if bytes == b"FALSE".as_slice() {
        Ok(Value::truth(false))
    } else {
        Ok(Value::model(name_of(alloc, bytes)?))
    }
}

// A string, by its bytes with their quotes.
fn string(alloc: Global, bytes: &[u8]) -> Result<Value, AllocError>
    requires { 2 ≤ length bytes.now }
    ensures { IfOk result (λ v. v ≡ pure_text (unwrap_or (unquoted_of (inner bytes.now)) [])) }
{
    let text = unquoted(alloc, &bytes[1..bytes.len() - 1])?;
    Ok(Value::text(Name::new(text.into_bytes())))
}

// Reads a value whose first token is passed.
#[tactic(auto, using(crate::proofs::Tokens::moves_none, crate::proofs::Tokens::moves_same, crate::proofs::Tokens::moves_then))]
#[cycle(read)]
fn behind(
    alloc: Global,
    text: &[u8],
    at: &mut usize,
    token: Token,
    deep: usize,
) -> Result<Value, Halt>
    requires within { at.old ≤ length text.now }
    requires small { length text.now < past_text }
    requires token { (m : Mark) × IsToken token.class (stretch text.now token.from token.to) m }
    requires low { token.from ≤ token.to }
    requires high { token.to ≤ length text.now }
    ensures read { (m : Mark) → IsToken token.class (stretch text.now token.from token.to) m → Answer deep (m ∷ ahead text.now at.old) (ahead text.now at.new) result }
    ensures moved { IfOk result (λ v. (at.old ≤ at.new) × (at.new ≤ length text.now)) }
    ensures way { IfOk result (λ u. Moves text.now at.old at.new) }
{
    match token.class {
        Class::Name => Ok(word(alloc, &text[token.from..token.to])?),
        Class::Number => integer(&text[token.from..token.to], false),
        Class::Text => Ok(string(alloc, &text[token.from..token.to])?),
        Class::Sign(sign) => signed(alloc, text, at, sign, deep),
        _ => Err(Halt::NoValue),
    }
}

// Reads a value that lies in so many more brackets at most.
#[tactic(auto, using(crate::proofs::Tokens::moves_none, crate::proofs::Tokens::moves_same, crate::proofs::Tokens::moves_then))]
#[cycle(read)]
fn value(alloc: Global, text: &[u8], at: &mut usize, deep: usize) -> Result<Value, Halt>
    requires within { at.old ≤ length text.now }
    requires small { length text.now < past_text }
    ensures read { Answer deep (ahead text.now at.old) (ahead text.now at.new) result }
    ensures moved { IfOk result (λ v. (at.old < at.new) × (at.new ≤ length text.now)) }
    ensures way { IfOk result (λ u. Moves text.now at.old at.new) }
{
    match next_token(text, *at) {
        None => Err(Halt::NoValue),
        Some(token) => {
            *at = token.to;
            behind(alloc, text, at, token, deep)
        }
    }
}

/// The value that is in a text at a place, and where it ends.
///
/// # Errors
///
/// For want of memory, and by the rule for lines exactly where no value is spelled there.
pub fn read_value(alloc: Global, text: &[u8], at: usize) -> Result<(Value, usize), Stop>
    requires within { at ≤ length text.now }
    requires small { length text.now < past_text }
    ensures read { IfOk result (λ p. SpellsFrom text.now at p.1 p.0) }
    ensures refused { (r : code.Refusal) → result ≡ Err (Stop.Refused r) → IsNoValue text.now at r }
{
    let mut end = at;
    match value(alloc, text, &mut end, DEEPEST) {
        Ok(v) => Ok((v, end)),
        Err(Halt::Memory) => Err(Stop::Memory),
        Err(Halt::NoValue) => Err(Stop::Refused(Refusal {
            rule: Rule::BadLine,
            place: place_of(text, at),
        })),
    }
}
