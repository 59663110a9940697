//! Bars, and the first part of a module's text.

ghost use Rattle.std.specs.Prelude.{◌≡◌, ◌^◌, ◌<◌, length, drop};
ghost use Rattle.tla_token.specs.Scan.{front_by, IsWordless};
ghost use Rattle.module_tree.specs.Beginnings.{is_rule, ends_module, begins_bar};
ghost use Rattle.module_tree.specs.ModuleParts.{barred, module_part};

use crate::line::dash_len;
use tla_token::{Class, Part, lexeme_at, outer_at};

/// Whether a bar of dashes is in front.
pub fn is_rule(text: &[u8]) -> bool
    ensures { result ≡ is_rule text.now }
{
    text.starts_with(b"----")
}

/// Whether the module's end is in front.
pub fn ends_module(text: &[u8]) -> bool
    ensures { result ≡ ends_module text.now }
{
    text.starts_with(b"====")
}

fn begins_bar(text: &[u8]) -> bool
    ensures { result ≡ begins_bar text.now }
{
    is_rule(text) || ends_module(text)
}

// Whether a bar begins after the first byte.
fn is_before_bar(text: &[u8]) -> bool
    ensures { result ≡ begins_bar (drop 1 text.now) }
{
    match text {
        [_, rest @ ..] => begins_bar(rest),
        [] => false,
    }
}

/// The first part of a module's text, if there is one; what is known of words as for `tla_token::part_at`.
pub fn module_part(text: &[u8], wordless: &mut usize) -> Option<Part>
    requires small { length text.now < 2 ^ 29 }
    requires known { IsWordless wordless.old text.now }
    ensures part { result ≡ front_by module_part text.now }
    ensures known { IsWordless wordless.new text.now }
{
    match outer_at(text) {
        Some(part) => Some(part),
        None => barred(text, wordless),
    }
}

// A bar of dashes, or the lexeme in front, of which no byte after the first is a bar's.
fn barred(text: &[u8], wordless: &mut usize) -> Option<Part>
    requires small { length text.now < 2 ^ 29 }
    requires known { IsWordless wordless.old text.now }
    ensures part { result ≡ front_by barred text.now }
    ensures known { IsWordless wordless.new text.now }
{
    if is_rule(text) {
        Some(Part {
            class: Class::Other,
            len: dash_len(text),
        })
    } else if is_before_bar(text) {
        lexeme_at(&text[..1], &mut 0)
    } else {
        lexeme_at(text, wordless)
    }
}
