//! What is reached from some numbers, where each leads to others.

ghost use Rattle.std.specs.Prelude.{◌≡◌, ◌<◌, ℕ, [], length, get_or, map, Vec, IfOk, OnOk};
ghost use Rattle.fairness_lines.specs.WorkLists.{put, put_all, IsLeastOf};

use std::alloc::{AllocError, Global};

// Marks a number, and lists it if it had no mark. A number past the marks is left alone.
fn mark(marks: &mut Vec<bool>, work: &mut Vec<usize>, number: usize) -> Result<(), AllocError>
    ensures { OnOk result (record { marks = marks.new.items; work = work.new.items } ≡ put (record { marks = marks.old.items; work = work.old.items }) number) }
{
    if number >= marks.len() {
        return Ok(());
    }
    if marks[number] {
        return Ok(());
    }
    marks[number] = true;
    work.push(number)?;
    Ok(())
}

// The same of some numbers.
fn mark_all(
    marks: &mut Vec<bool>,
    work: &mut Vec<usize>,
    numbers: &[usize],
) -> Result<(), AllocError>
    ensures { OnOk result (record { marks = marks.new.items; work = work.new.items } ≡ put_all (record { marks = marks.old.items; work = work.old.items }) numbers.now) }
{
    for number in numbers {
        mark(marks, work, *number)?;
    }
    Ok(())
}

// The same of the row of a number.
fn follow(
    marks: &mut Vec<bool>,
    work: &mut Vec<usize>,
    rows: &[Vec<usize>],
    number: usize,
) -> Result<(), AllocError>
    requires { number < length rows.now }
    ensures { OnOk result (record { marks = marks.new.items; work = work.new.items } ≡ put_all (record { marks = marks.old.items; work = work.old.items }) (get_or (map (λ row. row.items) rows.now) number [])) }
{
    mark_all(marks, work, &rows[number])
}

/// Which numbers are reached from these: each leads to those of its row. It takes the time of the rows that are looked at, each
/// once; what has no row is left out.
///
/// # Errors
///
/// Only for want of memory.
pub fn reach(alloc: Global, rows: &[Vec<usize>], start: &[usize]) -> Result<Vec<bool>, AllocError>
    ensures { IfOk result (λ marks. IsLeastOf (map (λ row. row.items) rows.now) start.now marks.items) }
{
    let mut marks = vec![in alloc; false; rows.len()]?;
    let mut work = Vec::new(alloc);
    mark_all(&mut marks, &mut work, start)?;
    let mut at = 0;
    while at < work.len() {
        let number = work[at];
        follow(&mut marks, &mut work, rows, number)?;
        at += 1;
    }
    Ok(marks)
}
