//! `command_rows`: reads rows of words and files from `rows.txt`, and prints what the commands of `pcal` answer to each.
#![tactic(auto)]

mod rows;

use rows::put_row;
use std::io::Write;
use std::{fs, io};

/// The rows of the file, and what each is answered.
fn main(rt: HostRuntime) -> io::Result<()> {
    let alloc = rt.alloc();
    let text = fs::read_to_string(&rt, "rows.txt")?;
    let mut told = Vec::new(alloc);
    let lines = text.as_str();
    let rows = lines.strip_suffix('\n').unwrap_or(lines);
    for row in rows.split("\n=== ").skip(1) {
        put_row(alloc, &mut told, row)?;
    }
    rt.stdout().write_all(&told)
}
