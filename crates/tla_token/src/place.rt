//! Places in a text.

ghost use Rattle.std.specs.Prelude.{◌≡◌, ◌+◌, ◌*◌, ◌^◌, ◌<◌, ◌≤◌, length};
ghost use Rattle.tla_token.specs.Limits.{past_text};
ghost use Rattle.tla_token.specs.Places.{step, after, place_at};

/// A place in a text: line and column, both from 1. A column counts bytes; a tab goes to the next
/// column of form 8n + 1.
#[derive(Clone, Copy, PartialEq, Eq, Debug)]
pub struct Place {
    /// The line, from 1.
    pub line: u32,
    /// The column, from 1.
    pub col: u32,
}

/// The place of a byte of a text, or of the text's end.
pub fn place_of(text: &[u8], at: usize) -> Place
    requires within { at ≤ length text.now }
    requires small { length text.now < past_text }
    ensures value { result ≡ place_at text.now at }
    ensures line { result.line ≤ 1 + at }
    ensures col { result.col ≤ 1 + 8 * at }
{
    place_after(Place { line: 1, col: 1 }, &text[..at])
}

/// Where the byte after these bytes is, of which the first is at this place.
pub fn place_after(place: Place, bytes: &[u8]) -> Place
    requires line { place.line + length bytes.now < 2 ^ 32 }
    requires col { place.col + 8 * length bytes.now < 2 ^ 32 }
    ensures value { result ≡ after place bytes.now }
    ensures line { result.line ≤ place.line + length bytes.now }
    ensures col { result.col ≤ place.col + 8 * length bytes.now }
{
    let mut now = place;
    for b in bytes {
        now = place_next(now, *b);
    }
    now
}

/// Where the byte after this one is.
fn place_next(place: Place, b: u8) -> Place
    requires line { place.line + 1 < 2 ^ 32 }
    requires col { place.col + 8 < 2 ^ 32 }
    ensures value { result ≡ step place b }
    ensures line { result.line ≤ place.line + 1 }
    ensures col { result.col ≤ place.col + 8 }
{
    match b {
        b'\n' => Place {
            line: place.line + 1,
            col: 1,
        },
        b'\t' => Place {
            line: place.line,
            col: 8 * ((place.col + 7) / 8) + 1,
        },
        _ => Place {
            line: place.line,
            col: place.col + 1,
        },
    }
}
