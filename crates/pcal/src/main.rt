//! `pcal`: reads a module with a PlusCal algorithm, and writes it with the algorithm's translation or with the algorithm in the other syntax.
#![tactic(auto)]

#[cfg(test)]
mod tests;

use outer_io::{DiskShelf, StdSink};
use pcal_cli::run;
use std::env;
use std::process::ExitCode;

/// Hands the words, the files and the two streams of the system to the program, which says how it ended.
fn main(rt: HostRuntime) -> ExitCode {
    let (mut out, mut err) = (StdSink::new(rt.stdout()), StdSink::new(rt.stderr()));
    run(
        rt.alloc(),
        env::args(&rt),
        &mut DiskShelf::new(&rt),
        &mut out,
        &mut err,
    )
}
