//! The two lines round a translation.

ghost use Rattle.std.specs.Prelude.{◌≡◌};
ghost use Rattle.module_tree.specs.Around.{begin_line, end_line};

/// The line before a translation, with its line end.
pub fn begin_text() -> &'static str
    ensures { result.now ≡ begin_line }
{
    "\\* BEGIN TRANSLATION\n"
}

/// The line after a translation, without a line end: in its place is what was after an old one.
pub fn end_text() -> &'static str
    ensures { result.now ≡ end_line }
{
    "\\* END TRANSLATION"
}
