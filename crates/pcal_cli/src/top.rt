//! The top call: from the words of a command line to an answer.

ghost use Rattle.std.specs.Prelude.{◌≡◌, ◌+◌, ◌≤◌, ◌<◌, ◌^◌, length, Some};
ghost use Rattle.make_module.specs.Big.{big};
ghost use Rattle.outer_io.specs.Outer.{Tells};
ghost use Rattle.pcal_cli.specs.Words.{command_in, from_file, this_text, input_of};
ghost use Rattle.pcal_cli.specs.Tasks.{as_command, IsSmall};
ghost use Rattle.pcal_cli.specs.Answers.{status_of};
ghost use Rattle.pcal_cli.specs.Asked.{Refuses};
ghost use Rattle.pcal_cli.specs.Causes.{OfInput, IsCause, IsRefusal, KeepsPromise, Promised, Explains};
ghost use Rattle.pcal_cli.specs.Put.{Put};
ghost use Rattle.pcal_cli.specs.Answered.{Answered, AnsweredFrom};

use crate::error_line::{line_room, out_of_memory, say, tell};
use crate::job::{Job, job_of};
use crate::status::{Answer, Status, as_status};
use crate::task::{Source, Task, file, source_of, written};
use crate::three::run_three;
use crate::traced::trace_three;
use made_module::make_module;
use outer_io::{LoadFault, Shelf, Sink, load, put_all};
use std::alloc::{AllocError, Global};
use tla_token::Stop;

/// A file has at most so many bytes.
const MOST_BYTES: u64 = 1_048_576;

/// Writes what is to be written for the text of a task. All memory is taken before the first byte goes out.
fn put_written<K: Sink>(alloc: Global, task: Task<'_>, text: &[u8], out: &mut K) -> Answer
    requires { length text.now < 2 ^ 29 }
    ensures put { Put K.wrote K.faults (as_command task.entry) text.now (status_of result) out.old out.new }
    ensures refused { IsRefusal (Refuses (as_command task.entry) text.now) result }
    ensures headline { status_of result ≡ Status.Fine → KeepsPromise (K.wrote out.old) (K.wrote out.new) (as_command task.entry) text.now }
{
    match written(alloc, task, text) {
        Ok(bytes) => match put_all(out, &bytes) {
            Ok(()) => Answer::Fine,
            Err(_) => Answer::WriteFault,
        },
        Err(Stop::Refused(refusal)) => Answer::Refused(refusal),
        Err(Stop::Memory) => Answer::Memory,
    }
}

/// Reads the file of a task, and writes what is to be written for its text.
fn read_out<H: Shelf, K: Sink>(
    alloc: Global,
    name: &str,
    task: Task<'_>,
    shelf: &mut H,
    out: &mut K,
) -> Answer
    ensures answered { AnsweredFrom H.texts H.given H.faults K.wrote K.faults (Some (from_file name.now)) (Some (as_command task.entry)) (status_of result) shelf.old shelf.new out.old out.new }
    ensures refused { IsCause (H.texts shelf.old) (from_file name.now) (Refuses (as_command task.entry)) result }
    ensures headline { status_of result ≡ Status.Fine → Tells (H.texts shelf.old) name.now (KeepsPromise (K.wrote out.old) (K.wrote out.new) (as_command task.entry)) }
{
    let text = match load(alloc, shelf, name, MOST_BYTES) {
        Ok(text) => text,
        Err(LoadFault::Memory) => return Answer::Memory,
        Err(LoadFault::Failed) => return Answer::ReadFault,
        Err(LoadFault::TooLong) => return Answer::TooLong,
    };
    put_written(alloc, task, &text, out)
}

/// Makes a module of a seed and a count, and writes what is to be written for it.
fn made_out<K: Sink>(alloc: Global, seed: u32, count: u32, task: Task<'_>, out: &mut K) -> Answer
    requires { count ≤ 2000 }
    ensures put { Put K.wrote K.faults (as_command task.entry) (big seed count) (status_of result) out.old out.new }
    ensures refused { IsRefusal (Refuses (as_command task.entry) (big seed count)) result }
    ensures headline { status_of result ≡ Status.Fine → KeepsPromise (K.wrote out.old) (K.wrote out.new) (as_command task.entry) (big seed count) }
{
    match make_module(alloc, seed, count) {
        Ok(text) => put_written(alloc, task, &text, out),
        Err(AllocError) => Answer::Memory,
    }
}

/// Writes what is to be written for the text of a task.
fn carry_out<H: Shelf, K: Sink>(alloc: Global, task: Task<'_>, shelf: &mut H, out: &mut K) -> Answer
    requires { IsSmall task }
    ensures answered { AnsweredFrom H.texts H.given H.faults K.wrote K.faults (Some (input_of (as_command task.entry))) (Some (as_command task.entry)) (status_of result) shelf.old shelf.new out.old out.new }
    ensures refused { IsCause (H.texts shelf.old) (input_of (as_command task.entry)) (Refuses (as_command task.entry)) result }
    ensures headline { status_of result ≡ Status.Fine → OfInput (H.texts shelf.old) (input_of (as_command task.entry)) (KeepsPromise (K.wrote out.old) (K.wrote out.new) (as_command task.entry)) }
{
    match source_of(task) {
        Source::File(name) => read_out(alloc, name, task, shelf, out),
        Source::Made(seed, count) => made_out(alloc, seed, count, task, out),
    }
}

/// Does a task, and says how it ended. The memory for the line is taken before its file is read.
#[tactic(auto, using(crate::proofs::Tasks::promised_task))]
fn do_task<H: Shelf, K: Sink, E: Sink>(
    alloc: Global,
    task: Task<'_>,
    shelf: &mut H,
    out: &mut K,
    err: &mut E,
) -> Status
    requires { IsSmall task }
    ensures answered { Answered H.texts H.given H.faults K.wrote K.faults (Some (as_command task.entry)) result shelf.old shelf.new out.old out.new }
    ensures headline { result ≡ Status.Fine → Promised (H.texts shelf.old) (Some (as_command task.entry)) (K.wrote out.old) (K.wrote out.new) }
    ensures told { Explains (H.texts shelf.old) (H.faults shelf.old) (H.faults shelf.new) (Some (as_command task.entry)) result (E.wrote err.old) (E.wrote err.new) (E.faults err.old) (E.faults err.new) }
    ensures error_faults_grow { E.faults err.old ≤ E.faults err.new }
    ensures one_error_fault { E.faults err.new ≤ E.faults err.old + 1 }
{
    match line_room(alloc, file(task)) {
        Ok(room) => {
            let answer = carry_out(alloc, task, shelf, out);
            tell(err, room, answer, file(task).as_bytes());
            as_status(answer)
        }
        Err(AllocError) => out_of_memory(err),
    }
}

/// Does what the words of a command line mean, the first of them being the program's name.
pub fn pcal<H: Shelf, K: Sink, E: Sink>(
    alloc: Global,
    words: &[String],
    shelf: &mut H,
    out: &mut K,
    err: &mut E,
) -> Status
    ensures answered { Answered H.texts H.given H.faults K.wrote K.faults (command_in words.now) result shelf.old shelf.new out.old out.new }

    // The promise is a part of what is written on Fine; it is said once more by itself.
    ensures headline { result ≡ Status.Fine → Promised (H.texts shelf.old) (command_in words.now) (K.wrote out.old) (K.wrote out.new) }

    // What goes to the error output.
    ensures told { Explains (H.texts shelf.old) (H.faults shelf.old) (H.faults shelf.new) (command_in words.now) result (E.wrote err.old) (E.wrote err.new) (E.faults err.old) (E.faults err.new) }
    ensures error_faults_grow { E.faults err.old ≤ E.faults err.new }
    ensures one_error_fault { E.faults err.new ≤ E.faults err.old + 1 }
{
    match job_of(alloc, words) {
        Ok(Some(Job::Text(task))) => do_task(alloc, task, shelf, out, err),
        Ok(Some(Job::Run(names, options))) => {
            run_three(alloc, &names, options.forced, shelf, out, err)
        }
        Ok(Some(Job::Trace(names, options))) => {
            trace_three(alloc, &names, options, shelf, out, err)
        }
        Ok(None) => {
            say(err, b"pcal: usage\n");
            Status::Usage
        }
        Err(AllocError) => out_of_memory(err),
    }
}
