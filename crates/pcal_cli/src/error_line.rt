//! The line that an answer has on the error output. It is put together in memory that is taken before its file is read, and
//! goes out at once.

ghost use Rattle.std.specs.Prelude.{◌≡◌, ◌+◌, ◌≤◌, ◌++◌, [], drop, length, decimal, codes, IfOk, vec_len, vec_capacity};
ghost use Rattle.tla_token.specs.Rules.{rule_text};
ghost use Rattle.pcal_cli.specs.Answers.{refused_line, line_of};
ghost use Rattle.pcal_cli.specs.Told.{Told};

use crate::status::{Answer, Status};
use outer_io::{Sink, put_all};
use std::alloc::{AllocError, Global};
use tla_token::rule::{name, number};
use tla_token::{Place, Refusal, Rule};

/// The most bytes of a line but for the name of its file.
const MOST_BESIDE: usize = 80;

/// The digits of a number: these bytes, from an index on.
#[derive(Clone, Copy)]
struct Digits {
    bytes: [u8; 10],
    from: usize,
}

/// The digits of a number in decimal.
fn digits_of(number: u32) -> Digits
    ensures value { drop result.from result.bytes ≡ decimal number }
    ensures within { result.from ≤ 10 }
{
    let mut bytes = [b'0'; 10];
    bytes[9] = b'0' + (number % 10) as u8;
    let mut from = 9;
    let mut rest = number / 10;
    while rest > 0 {
        from -= 1;
        bytes[from] = b'0' + (rest % 10) as u8;
        rest /= 10;
    }
    Digits { bytes, from }
}

/// The bytes of digits.
fn bytes_of(digits: &Digits) -> &[u8]
    requires { digits.now.from ≤ 10 }
    ensures value { result.now ≡ drop digits.now.from digits.now.bytes }
    ensures few { length result.now ≤ 10 }
{
    &digits.bytes[digits.from..]
}

/// Memory for the line of any answer about a file.
///
/// # Errors
///
/// Want of memory.
pub fn line_room(alloc: Global, file: &str) -> Result<Vec<u8>, AllocError>
    ensures empty { IfOk result (λ v. v.items ≡ []) }
    ensures room { IfOk result (λ v. length file.now + 80 ≤ vec_capacity v) }
{
    Vec::with_capacity(alloc, file.len() + MOST_BESIDE)
}

/// Adds bytes to a line that has room for them.
fn add(line: &mut Vec<u8>, bytes: &[u8])
    requires { vec_len line.old + length bytes.now ≤ vec_capacity line.old }
    ensures items { line.new.items ≡ line.old.items ++ bytes.now }
    ensures len { vec_len line.new ≡ vec_len line.old + length bytes.now }
    ensures room { vec_capacity line.old ≤ vec_capacity line.new }
{
    line.extend_from_slice(bytes).unwrap();
}

/// Adds a number.
fn add_number(line: &mut Vec<u8>, number: u32)
    requires { vec_len line.old + 10 ≤ vec_capacity line.old }
    ensures items { line.new.items ≡ line.old.items ++ decimal number }
    ensures len { vec_len line.new ≤ vec_len line.old + 10 }
    ensures room { vec_capacity line.old ≤ vec_capacity line.new }
{
    let digits = digits_of(number);
    add(line, bytes_of(&digits));
}

/// Adds a place: its line and its column.
fn add_place(line: &mut Vec<u8>, place: Place)
    requires { vec_len line.old + 21 ≤ vec_capacity line.old }
    ensures items { line.new.items ≡ line.old.items ++ (decimal place.line ++ (codes ":" ++ decimal place.col)) }
    ensures len { vec_len line.new ≤ vec_len line.old + 21 }
    ensures room { vec_capacity line.old ≤ vec_capacity line.new }
{
    add_number(line, place.line);
    add(line, b":");
    add_number(line, place.col);
}

/// Adds a rule: its number and its name.
#[tactic(auto, using(crate::proofs::ErrorLine::short_name))]
fn add_rule(line: &mut Vec<u8>, rule: Rule)
    requires { vec_len line.old + 30 ≤ vec_capacity line.old }
    ensures items { line.new.items ≡ line.old.items ++ rule_text rule }
    ensures len { vec_len line.new ≤ vec_len line.old + 30 }
    ensures room { vec_capacity line.old ≤ vec_capacity line.new }
{
    add_number(line, number(rule) as u32);
    add(line, b" ");
    add(line, name(rule).as_bytes());
}

/// Adds the line of a refusal.
fn add_refused(line: &mut Vec<u8>, refusal: Refusal, file: &[u8])
    requires { vec_len line.old + length file.now + 61 ≤ vec_capacity line.old }
    ensures items { line.new.items ≡ line.old.items ++ refused_line file.now refusal }
{
    add_three(line, b"pcal: ", file, b":");
    add_place(line, refusal.place);
    add(line, b": ");
    add_rule(line, refusal.rule);
    add(line, b"\n");
}

/// Adds three texts, one after the other.
fn add_three(line: &mut Vec<u8>, first: &[u8], second: &[u8], third: &[u8])
    requires { vec_len line.old + (length first.now + (length second.now + length third.now)) ≤ vec_capacity line.old }
    ensures items { line.new.items ≡ line.old.items ++ (first.now ++ (second.now ++ third.now)) }
    ensures len { vec_len line.new ≡ vec_len line.old + (length first.now + (length second.now + length third.now)) }
    ensures room { vec_capacity line.old ≤ vec_capacity line.new }
{
    add(line, first);
    add(line, second);
    add(line, third);
}

/// Puts the line of an answer about a file into the room for it.
fn fill(line: &mut Vec<u8>, answer: Answer, file: &[u8])
    requires empty { line.old.items ≡ [] }
    requires room { length file.now + 80 ≤ vec_capacity line.old }
    ensures { line.new.items ≡ line_of answer file.now }
{
    match answer {
        Answer::Fine => {}
        Answer::Memory => add(line, b"pcal: out of memory\n"),
        Answer::Usage => add(line, b"pcal: usage\n"),
        Answer::ReadFault => add_three(line, b"pcal: cannot read ", file, b"\n"),
        Answer::WriteFault => add(line, b"pcal: cannot write\n"),
        Answer::Refused(refusal) => add_refused(line, refusal, file),
        Answer::TooLong => add_three(line, b"pcal: ", file, b" is too long\n"),
    }
}

/// Writes a line, or as much of it as goes out.
pub fn say<E: Sink>(err: &mut E, line: &[u8])
    ensures told { Told (E.wrote err.old) (E.wrote err.new) (E.faults err.old) (E.faults err.new) line.now }
    ensures faults_grow { E.faults err.old ≤ E.faults err.new }
    ensures once { E.faults err.new ≤ E.faults err.old + 1 }
{
    let _ = put_all(err, line);
}

/// Writes the line of an answer about a file, of which room is the memory.
pub fn tell<E: Sink>(err: &mut E, room: Vec<u8>, answer: Answer, file: &[u8])
    requires empty { room.items ≡ [] }
    requires roomy { length file.now + 80 ≤ vec_capacity room }
    ensures told { Told (E.wrote err.old) (E.wrote err.new) (E.faults err.old) (E.faults err.new) (line_of answer file.now) }
    ensures faults_grow { E.faults err.old ≤ E.faults err.new }
    ensures once { E.faults err.new ≤ E.faults err.old + 1 }
{
    let mut line = room;
    fill(&mut line, answer, file);
    say(err, &line);
}

/// Says that there is no memory.
pub fn out_of_memory<E: Sink>(err: &mut E) -> Status
    ensures memory { result ≡ Status.Memory }
    ensures told { Told (E.wrote err.old) (E.wrote err.new) (E.faults err.old) (E.faults err.new) (line_of Answer.Memory []) }
    ensures error_faults_grow { E.faults err.old ≤ E.faults err.new }
    ensures one_error_fault { E.faults err.new ≤ E.faults err.old + 1 }
{
    say(err, b"pcal: out of memory\n");
    Status::Memory
}
