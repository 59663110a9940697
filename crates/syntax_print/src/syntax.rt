//! The words that each syntax has round the parts of an algorithm.

ghost use Rattle.std.specs.Prelude.{◌≡◌, ◌++◌, OnOk};
ghost use Rattle.pcal_tree.specs.Printed.{opening, middle, closing, define_end, last_line};
ghost use Rattle.pcal_tree.specs.Syntaxes.{syntax_of};
ghost use Rattle.syntax_print.specs.Adding.{head_start, head_end};

use pcal_tree::Syntax;
use std::alloc::AllocError;
use tla_tree::Text;

/// Appends `word`, or `word {`, which opens a part.
///
/// # Errors
///
/// Only for want of memory.
pub fn write_opening(syntax: Syntax, word: &[u8], into: &mut Text) -> Result<(), AllocError>
    ensures { OnOk result (into.new ≡ into.old ++ opening (syntax_of syntax) word.now) }
{
    into.extend(word)?;
    match syntax {
        Syntax::P => Ok(()),
        Syntax::C => into.extend(b" {"),
    }
}

/// Appends `word`, or `} word {`, between two parts.
///
/// # Errors
///
/// Only for want of memory.
pub fn write_middle(syntax: Syntax, word: &[u8], into: &mut Text) -> Result<(), AllocError>
    ensures { OnOk result (into.new ≡ into.old ++ middle (syntax_of syntax) word.now) }
{
    match syntax {
        Syntax::P => into.extend(word),
        Syntax::C => {
            into.extend(b"} ")?;
            into.extend(word)?;
            into.extend(b" {")
        }
    }
}

/// Appends `end word;`, or `};`, which closes a statement.
///
/// # Errors
///
/// Only for want of memory.
pub fn write_closing(syntax: Syntax, word: &[u8], into: &mut Text) -> Result<(), AllocError>
    ensures { OnOk result (into.new ≡ into.old ++ closing (syntax_of syntax) word.now) }
{
    match syntax {
        Syntax::P => {
            into.extend(b"end ")?;
            into.extend(word)?;
            into.push(b';')
        }
        Syntax::C => into.extend(b"};"),
    }
}

/// Appends `word `, or `word (`, before the test of a statement.
///
/// # Errors
///
/// Only for want of memory.
pub fn write_head_start(syntax: Syntax, word: &[u8], into: &mut Text) -> Result<(), AllocError>
    ensures { OnOk result (into.new ≡ into.old ++ head_start (syntax_of syntax) word.now) }
{
    into.extend(word)?;
    match syntax {
        Syntax::P => into.push(b' '),
        Syntax::C => into.extend(b" ("),
    }
}

/// Appends ` word`, or `) {`, behind the test of a statement.
///
/// # Errors
///
/// Only for want of memory.
pub fn write_head_end(syntax: Syntax, word: &[u8], into: &mut Text) -> Result<(), AllocError>
    ensures { OnOk result (into.new ≡ into.old ++ head_end (syntax_of syntax) word.now) }
{
    match syntax {
        Syntax::P => {
            into.push(b' ')?;
            into.extend(word)
        }
        Syntax::C => into.extend(b") {"),
    }
}

/// The last line of a `define` block.
pub fn define_end_text(syntax: Syntax) -> &'static str
    ensures { result.now ≡ define_end (syntax_of syntax) }
{
    match syntax {
        Syntax::P => "end define;",
        Syntax::C => "}",
    }
}

/// The last line of an algorithm.
pub fn last_line_text(syntax: Syntax) -> &'static str
    ensures { result.now ≡ last_line (syntax_of syntax) }
{
    match syntax {
        Syntax::P => "end algorithm",
        Syntax::C => "}",
    }
}
