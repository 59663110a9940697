//! `value_rows`: reads rows of expressions from `rows.txt`, and prints the value of each, its fault, or where it is past the limits.
#![tactic(auto)]

mod answers;
mod reading;

use answers::put_rows;
use std::io::Write;
use std::{fs, io};

/// The rows of the file, and what is told of each.
fn main(rt: HostRuntime) -> io::Result<()> {
    let alloc = rt.alloc();
    let text = fs::read_to_string(&rt, "rows.txt")?;
    let mut told = Vec::new(alloc);
    put_rows(alloc, &mut told, text.as_str())?;
    rt.stdout().write_all(&told)
}
