//! What `main` does: from the words as the system hands them over to the exit status.

ghost use Rattle.std.specs.Prelude.{◌≡◌, ◌+◌, ◌≤◌, IfOk};
ghost use Rattle.pcal_cli.specs.Words.{words_given, command_in};
ghost use Rattle.pcal_cli.specs.Causes.{Promised, Explains, Ended, EndedIn};
ghost use Rattle.pcal_cli.specs.Answered.{Answered};

use crate::error_line::out_of_memory;
use crate::status::{Status, number};
use crate::top::pcal;
use outer_io::{Shelf, Sink};
use std::alloc::{AllocError, Global};
use std::env::Args;
use std::io;
use std::process::ExitCode;

/// The words of the command line, the program's name first; none, where one of them isn't UTF-8.
fn words_of(alloc: Global, given: io::Result<Args>) -> Result<Vec<String>, AllocError>
    ensures { IfOk result (λ words. words.items ≡ words_given given) }
{
    let mut words = Vec::new(alloc);
    match given {
        Ok(args) => for word in args {
            words.push(word)?;
        },
        Err(error) if error.kind() == io::ErrorKind::OutOfMemory => return Err(AllocError),
        Err(_) => {}
    }
    Ok(words)
}

/// Does what the words of a command line mean, and ends with the number of the answer, of which the clauses of `pcal` hold.
#[tactic(auto, using(crate::proofs::Numbers::number_is))]
pub fn run<H: Shelf, K: Sink, E: Sink>(
    alloc: Global,
    given: io::Result<Args>,
    shelf: &mut H,
    out: &mut K,
    err: &mut E,
) -> ExitCode
    ensures answered { EndedIn result (λ s. Answered H.texts H.given H.faults K.wrote K.faults (command_in (words_given given)) s shelf.old shelf.new out.old out.new) }
    ensures headline { Ended result Status.Fine → Promised (H.texts shelf.old) (command_in (words_given given)) (K.wrote out.old) (K.wrote out.new) }
    ensures told { EndedIn result (λ s. Explains (H.texts shelf.old) (H.faults shelf.old) (H.faults shelf.new) (command_in (words_given given)) s (E.wrote err.old) (E.wrote err.new) (E.faults err.old) (E.faults err.new)) }
    ensures error_faults_grow { E.faults err.old ≤ E.faults err.new }
    ensures one_error_fault { E.faults err.new ≤ E.faults err.old + 1 }
{
    let status = match words_of(alloc, given) {
        Ok(words) => pcal(alloc, &words, shelf, out, err),
        Err(_) => out_of_memory(err),
    };
    ExitCode::from(number(status))
}
