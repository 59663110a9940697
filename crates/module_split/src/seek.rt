//! What is where among the segments of a file: comments with algorithms, header, region and the module's end.

ghost use Rattle.std.specs.Prelude.{◌≡◌, ◌+◌, take, drop, IfOk, All, find};
ghost use Rattle.std.specs.List.{position_or_len};
ghost use Rattle.module_split.specs.StandsSeen.{located_seen, stands_seen, IsSolid};
ghost use Rattle.module_tree.specs.FileParts as pure;
ghost use Rattle.module_tree.specs.FileParts.{beginnings_in, first_of, holds_algorithm};
ghost use Rattle.module_split.specs.SplitSeen.{is_header_stand, is_region_stand, is_tail_stand, IsInner};

use crate::beginning::{add_beginnings, first_beginning};
use crate::offence::is_newline;
use crate::stand::{Shape, Stand};
use crate::walk::{is_header_line, is_region_shape};
use std::alloc::{AllocError, Global};
use tla_token::{Class, Span};

// ---- comments

/// What is within a comment.
pub fn within(text: &[u8], stand: Stand) -> Option<Span>
    requires { IsSolid text.now stand }
    ensures { IsInner text.now stand result }
{
    match stand.shape {
        Shape::Part(class) => match class {
            Class::Block => {
                if stand.len < 4 {
                    None
                } else {
                    Some(Span {
                        from: stand.at + 2,
                        to: stand.at + stand.len - 2,
                    })
                }
            }
            Class::OpenBlock => {
                if stand.len < 2 {
                    None
                } else {
                    Some(Span {
                        from: stand.at + 2,
                        to: stand.at + stand.len,
                    })
                }
            }
            _ => None,
        },
        _ => None,
    }
}

/// Where algorithms begin in the comments of a file.
pub fn beginnings(alloc: Global, text: &[u8], stands: &[Stand]) -> Result<Vec<usize>, AllocError>
    requires { All (IsSolid text.now) stands.now }
    ensures { IfOk result (λ v. v.items ≡ pure.beginnings (stands_seen text.now stands.now)) }
{
    let mut starts = Vec::new(alloc);
    'stands: for stand in stands {
        if let Some(span) = within(text, *stand) {
            add_beginnings(text, span.from, span.to, &mut starts)?;
        }
    }
    Ok(starts)
}

/// Where the first algorithm begins in a comment.
pub fn beginning_in(text: &[u8], stand: Stand) -> Option<usize>
    requires { IsSolid text.now stand }
    ensures { result ≡ first_of (beginnings_in (located_seen text.now stand)) }
{
    match within(text, stand) {
        Some(span) => first_beginning(text, span.from, span.to),
        None => None,
    }
}

/// The first comment in which an algorithm begins, or the number of segments.
pub fn holder(text: &[u8], stands: &[Stand]) -> usize
    requires { All (IsSolid text.now) stands.now }
    ensures { result ≡ position_or_len holds_algorithm (stands_seen text.now stands.now) }
{
    for (i, stand) in stands.iter().enumerate() {
        if beginning_in(text, *stand).is_some() {
            return i;
        }
    }
    stands.len()
}

// ---- header, region and the module's end

/// Whether it is the header.
pub fn is_header(stand: Stand) -> bool
    ensures { result ≡ is_header_stand stand }
{
    is_header_line(stand.shape)
}

/// Whether it is the old translation.
pub fn is_region(stand: Stand) -> bool
    ensures { result ≡ is_region_stand stand }
{
    is_region_shape(stand.shape)
}

/// Whether it is the module's end.
pub fn is_tail(stand: Stand) -> bool
    ensures { result ≡ is_tail_stand stand }
{
    match stand.shape {
        Shape::Tail => true,
        _ => false,
    }
}

/// The header.
pub fn header(stands: &[Stand]) -> Option<Stand>
    ensures { result ≡ find is_header_stand stands.now }
{
    stands.iter().copied().find(|stand| is_header(*stand))
}

/// The old translation.
pub fn region(stands: &[Stand]) -> Option<Stand>
    ensures { result ≡ find is_region_stand stands.now }
{
    stands.iter().copied().find(|stand| is_region(*stand))
}

/// The module's end.
pub fn tail(stands: &[Stand]) -> Option<Stand>
    ensures { result ≡ find is_tail_stand stands.now }
{
    stands.iter().copied().find(|stand| is_tail(*stand))
}

/// How many segments are before the region, or in all.
pub fn region_index(stands: &[Stand]) -> usize
    ensures { result ≡ position_or_len is_region_stand stands.now }
{
    for (i, stand) in stands.iter().enumerate() {
        if is_region(*stand) {
            return i;
        }
    }
    stands.len()
}

/// How many segments are before the first newline, or in all.
pub fn newline_index(text: &[u8], stands: &[Stand]) -> usize
    requires { All (IsSolid text.now) stands.now }
    ensures { result ≡ position_or_len pure.is_newline (stands_seen text.now stands.now) }
{
    for (i, stand) in stands.iter().enumerate() {
        if is_newline(text, *stand) {
            return i;
        }
    }
    stands.len()
}

/// The segments up to one of them, or all.
pub fn up_to(stands: &[Stand], index: usize) -> &[Stand]
    ensures { result.now ≡ take (1 + index) stands.now }
{
    if index < stands.len() {
        &stands[..index + 1]
    } else {
        stands
    }
}

/// The segments behind one of them.
pub fn behind(stands: &[Stand], index: usize) -> &[Stand]
    ensures { result.now ≡ drop (1 + index) stands.now }
{
    if index < stands.len() {
        &stands[index + 1..]
    } else {
        &[]
    }
}
