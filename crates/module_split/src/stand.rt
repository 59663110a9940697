//! The segments of a file, each by where it stands in it.

use tla_token::{Class, Place};

/// What a segment is.
#[derive(Clone, Copy)]
pub enum Shape {
    /// A line before the header, with its end.
    Free,
    /// The header, with its line's end.
    Header,
    /// In the module, outside the region.
    Part(Class),
    /// The old translation, from its BEGIN line to the end of its END line. So many bytes are before that line.
    Region(usize),
    /// A BEGIN or END line that is none of the region's, without its end.
    Mark,
    /// A second header, without its line's end.
    Inner,
    /// The module's end, and what is after it.
    Tail,
}

/// A segment, by its bytes in the file.
#[derive(Clone, Copy)]
pub struct Stand {
    /// The index of its first byte.
    pub at: usize,
    /// How many bytes it has.
    pub len: usize,
    /// The place of its first byte.
    pub place: Place,
    /// What it is.
    pub shape: Shape,
}
