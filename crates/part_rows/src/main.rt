//! `part_rows`: reads rows of texts from `rows.txt`, and prints what the calls that no command reaches answer to each.
#![tactic(auto)]

mod algorithms;
mod answers;
mod expressions;
mod formulas;
mod kinds;
mod made;
mod modules;
mod pools;
mod reads;
mod scanning;
mod values;
mod wording;

use answers::put_rows;
use std::io::Write;
use std::{fs, io};

/// The rows of the file, and what each is answered.
fn main(rt: HostRuntime) -> io::Result<()> {
    let alloc = rt.alloc();
    let text = fs::read_to_string(&rt, "rows.txt")?;
    let mut told = Vec::new(alloc);
    put_rows(alloc, &mut told, text.as_str())?;
    rt.stdout().write_all(&told)
}
