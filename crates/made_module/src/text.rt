//! The text of the module that is made of two numbers.

ghost use Rattle.std.specs.Prelude.{◌≡◌, ◌++◌, ◌^◌, ◌<◌, ◌≤◌, length, IfOk, OnOk};
ghost use Rattle.std.specs.String.{string_bytes};
ghost use Rattle.make_module.specs.Big.{next_number, kind_of, line_text, big};

use std::alloc::{AllocError, Global};

// What stands before the labels.
const FRONT: &str =
    "---- MODULE Big ----\nEXTENDS Integers\n(*\n--algorithm Big\nvariables x = 0, y = 0, z = 0;\nbegin\n";

// What stands behind them.
const BACK: &str = "end algorithm\n*)\n====\n";

// The number that the generator gives after this one.
fn next_number(number: u32) -> u32
    ensures { result ≡ next_number number }
{
    ((u64::from(number) * 1_103_515_245 + 12_345) % 2_147_483_648) as u32
}

// Appends the line of a label; of which kind it is, the generator's number tells.
fn add_line(text: &mut String, label: u32, number: u32) -> Result<(), AllocError>
    ensures { OnOk result (string_bytes text.new ≡ string_bytes text.old ++ line_text label number) }
{
    match number / 65_536 % 4 {
        0 => writeln!(text, "  L{label}: x := y + {label};"),
        1 => writeln!(
            text,
            "  L{label}: await x >= 0 - {label}; y := x - {label};"
        ),
        2 => writeln!(
            text,
            "  L{label}: if x > y then z := {label}; else y := {label}; end if;"
        ),
        _ => writeln!(text, "  L{label}: x := z || z := x;"),
    }
}

/// The module of a seed, with so many labels ("A PlusCal User's Manual", section 3).
///
/// # Errors
///
/// Only for want of memory.
pub fn make_module(alloc: Global, seed: u32, count: u32) -> Result<Vec<u8>, AllocError>
    ensures made { IfOk result (λ w. w.items ≡ big seed count) }
    ensures short { IfOk result (λ w. count ≤ 2000 → length w.items < 2 ^ 17) }
{
    let mut text = String::from_str(alloc, FRONT)?;
    let mut number = seed;
    for i in 0..count {
        number = next_number(number);
        add_line(&mut text, i + 1, number)?;
    }
    text.push_str(BACK)?;
    Ok(text.into_bytes())
}
