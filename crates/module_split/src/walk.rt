//! The walk over a file: its segments from left to right.

ghost use Rattle.std.specs.Prelude.{◌≡◌, ℕ, ◌+◌, ◌^◌, ◌<◌, ◌≤◌, length, take, drop, Bool, true, false, None, Some, IfOk, IfSome, MatchOption, All, if◌then◌else◌, ◌||◌};
ghost use Rattle.tla_token.specs.Scan.{IsWordless};
ghost use Rattle.module_tree.specs.TextFront.{Text};
ghost use Rattle.module_tree.specs.HeaderAndRegion.{is_begin};
ghost use Rattle.module_tree.specs.Walk.{walk, walk_from, State, in_module, segment_at, is_header_line, is_region};
ghost use Rattle.module_split.specs.StandsSeen.{segment_of, stands_seen, IsSolid};
ghost use Rattle.module_split.specs.Walking.{end_at, front_of, IsKnown, state_of, IsAt, GoesOn};

use crate::bars::{ends_module, module_part};
use crate::line::{before_end, is_begin, is_end, is_header, whole_len};
use crate::stand::{Shape, Stand};
use std::alloc::{AllocError, Global};
use tla_token::bytes::line_len;
use tla_token::place::{Place, place_after};

/// What a segment is, and how many bytes it has.
#[derive(Clone, Copy)]
pub struct Front {
    /// What it is.
    pub shape: Shape,
    /// How many bytes it has.
    pub len: usize,
}

/// What is known of the bytes from here on, so that none is looked at again for it.
#[derive(Clone, Copy)]
pub struct Known {
    /// No END line begins after the line that is here.
    pub endless: bool,
    /// So many bytes are in a word without a letter.
    pub wordless: usize,
}

/// Where a walk is in a file, and what it knows.
#[derive(Clone, Copy)]
pub struct Walker {
    /// The index of the next byte.
    pub at: usize,
    /// The place of that byte.
    pub place: Place,
    /// After the header.
    pub headed: bool,
    /// After the region.
    pub marked: bool,
    /// What it knows of the bytes from there on.
    pub known: Known,
}

/// The segments of a file, from left to right.
///
/// # Errors
///
/// Want of memory.
pub fn walk(alloc: Global, text: &[u8]) -> Result<Vec<Stand>, AllocError>
    requires small { length text.now < 2 ^ 29 }
    ensures walked { IfOk result (λ v. stands_seen text.now v.items ≡ walk text.now) }
    ensures solid { IfOk result (λ v. All (IsSolid text.now) v.items) }
{
    let start = Walker {
        at: 0,
        place: Place { line: 1, col: 1 },
        headed: false,
        marked: false,
        known: Known {
            endless: false,
            wordless: 0,
        },
    };
    walk_on(alloc, text, start)
}

/// The segments of a text from where a walk is, from left to right.
///
/// # Errors
///
/// Want of memory.
pub fn walk_on(alloc: Global, text: &[u8], from: Walker) -> Result<Vec<Stand>, AllocError>
    requires small { length text.now < 2 ^ 29 }
    requires at { IsAt text.now from }
    ensures walked { IfOk result (λ v. stands_seen text.now v.items ≡ walk_from (state_of from) 0 (drop from.at text.now)) }
    ensures solid { IfOk result (λ v. All (IsSolid text.now) v.items) }
{
    let mut stands = Vec::new(alloc);
    let mut walker = from;
    'segments: while let Some((stand, after)) = step(text, walker) {
        stands.push(stand)?;
        walker = after;
    }
    Ok(stands)
}

// The next segment, and where the walk is after it; nothing at the end.
fn step(text: &[u8], walker: Walker) -> Option<(Stand, Walker)>
    requires small { length text.now < 2 ^ 29 }
    requires at { IsAt text.now walker }
    ensures { MatchOption result (length text.now ≤ walker.at) (λ r. GoesOn text.now walker r.0 r.1) }
{
    let mut known = walker.known;
    let front = front_at(&text[walker.at..], walker, &mut known)?;
    let stand = Stand {
        at: walker.at,
        len: front.len,
        place: walker.place,
        shape: front.shape,
    };
    Some((stand, past(text, walker, front, known)))
}

// After the segment that is next.
fn past(text: &[u8], walker: Walker, front: Front, known: Known) -> Walker
    requires small { length text.now < 2 ^ 29 }
    requires at { IsAt text.now walker }
    requires front { Some front ≡ front_of (segment_at (state_of walker)) (drop walker.at text.now) }
    requires known { IsKnown known (drop walker.at text.now) }
    ensures { GoesOn text.now walker (record { at = walker.at; len = front.len; place = walker.place; shape = front.shape }) result }
{
    let piece = piece_of(&text[walker.at..], walker, front);
    Walker {
        at: walker.at + front.len,
        place: place_after(walker.place, piece),
        headed: is_headed_after(walker, front.shape),
        marked: is_marked_after(walker, front.shape),
        known: Known {
            endless: known.endless,
            wordless: known.wordless.saturating_sub(front.len),
        },
    }
}

// The bytes of the segment in front.
fn piece_of(rest: &[u8], walker: Walker, front: Front) -> &[u8]
    requires { Some front ≡ front_of (segment_at (state_of walker)) rest.now }
    ensures value { result.now ≡ take front.len rest.now }
    ensures within { front.len ≤ length rest.now }
{
    &rest[..front.len]
}

// Whether the header was passed with a segment of this shape.
fn is_headed_after(walker: Walker, shape: Shape) -> bool
    ensures { (w : Text) → result ≡ (walker.headed || is_header_line (segment_of shape w)) }
{
    walker.headed || is_header_line(shape)
}

// Whether the region was passed with a segment of this shape.
fn is_marked_after(walker: Walker, shape: Shape) -> bool
    ensures { (w : Text) → result ≡ (walker.marked || is_region (segment_of shape w)) }
{
    walker.marked || is_region_shape(shape)
}

/// Whether a segment of this shape is the header.
pub fn is_header_line(shape: Shape) -> bool
    ensures { (w : Text) → result ≡ is_header_line (segment_of shape w) }
{
    match shape {
        Shape::Header => true,
        _ => false,
    }
}

/// Whether a segment of this shape is the old translation.
pub fn is_region_shape(shape: Shape) -> bool
    ensures { (w : Text) → result ≡ is_region (segment_of shape w) }
{
    match shape {
        Shape::Region(_) => true,
        _ => false,
    }
}

// ---- the segment in front

#[tactic(auto, using(crate::proofs::SegmentFronts::headed_front))]
fn front_at(text: &[u8], walker: Walker, known: &mut Known) -> Option<Front>
    requires small { length text.now < 2 ^ 29 }
    requires known { IsKnown known.old text.now }
    ensures front { result ≡ front_of (segment_at (state_of walker)) text.now }
    ensures known { IsKnown known.new text.now }
{
    if walker.headed {
        module_front(text, walker.place.col == 1, walker.marked, known)
    } else {
        free_front(text)
    }
}

// Before or at the header.
#[tactic(auto, using(crate::proofs::SegmentFronts::nothing_front, crate::proofs::SegmentFronts::header_front, crate::proofs::SegmentFronts::free_front))]
fn free_front(text: &[u8]) -> Option<Front>
    ensures { (st : State) → st.headed ≡ false → result ≡ front_of (segment_at st) text.now }
{
    if text.is_empty() {
        None
    } else if is_header(text) {
        Some(Front {
            shape: Shape::Header,
            len: whole_len(text),
        })
    } else {
        Some(Front {
            shape: Shape::Free,
            len: whole_len(text),
        })
    }
}

// In the module, where a line may begin and the region may have been.
fn module_front(text: &[u8], first: bool, marked: bool, known: &mut Known) -> Option<Front>
    requires small { length text.now < 2 ^ 29 }
    requires known { IsKnown known.old text.now }
    ensures front { result ≡ front_of (in_module marked first) text.now }
    ensures known { IsKnown known.new text.now }
{
    match line_front(text, first, marked, &mut known.endless) {
        Some(front) => Some(front),
        None => part_front(text, &mut known.wordless),
    }
}

// The line in front, where one begins, and is one of a translation's or a header.
#[tactic(auto, using(crate::proofs::SegmentFronts::end_front, crate::proofs::SegmentFronts::inner_front, crate::proofs::SegmentFronts::unlined_front))]
fn line_front(text: &[u8], first: bool, marked: bool, endless: &mut bool) -> Option<Front>
    requires { endless.old ≡ true → end_at false text.now ≡ None }
    ensures found { IfSome result (λ f. front_of (in_module marked first) text.now ≡ Some f) }
    ensures none { result ≡ None → front_of (in_module marked first) text.now ≡ front_of (in_module marked false) text.now }
    ensures known { endless.new ≡ true → end_at false text.now ≡ None }
{
    if !first {
        None
    } else if is_begin(text) {
        Some(begin_front(text, marked, endless))
    } else if is_end(text) {
        Some(Front {
            shape: Shape::Mark,
            len: line_len(text),
        })
    } else if is_header(text) {
        Some(Front {
            shape: Shape::Inner,
            len: line_len(text),
        })
    } else {
        None
    }
}

// A BEGIN line: the region, where it opens it.
#[tactic(auto, using(crate::proofs::SegmentFronts::region_front, crate::proofs::SegmentFronts::begin_front, crate::proofs::SegmentFronts::region_within))]
fn begin_front(text: &[u8], marked: bool, endless: &mut bool) -> Front
    requires begins { is_begin text.now ≡ true }
    requires known { endless.old ≡ true → end_at false text.now ≡ None }
    ensures front { front_of (in_module marked true) text.now ≡ Some result }
    ensures known { endless.new ≡ true → end_at false text.now ≡ None }
{
    match region_len(text, marked, endless) {
        Some(n) => Front {
            shape: Shape::Region(n),
            len: n + line_len(&text[n..]),
        },
        None => Front {
            shape: Shape::Mark,
            len: line_len(text),
        },
    }
}

// How many bytes the region has before its END line that a BEGIN line in front opens.
#[tactic(auto, using(crate::proofs::SegmentFronts::not_sought))]
fn region_len(text: &[u8], marked: bool, endless: &mut bool) -> Option<usize>
    requires { endless.old ≡ true → end_at false text.now ≡ None }
    ensures found { result ≡ (if marked then None else end_at false text.now) }
    ensures known { endless.new ≡ true → end_at false text.now ≡ None }
    ensures learned { marked ≡ false → end_at false text.now ≡ None → endless.new ≡ true }
{
    if marked || *endless {
        return None;
    }
    let n = before_end(text);
    *endless = n.is_none();
    n
}

// The module's end, or a part.
#[tactic(auto, using(crate::proofs::SegmentFronts::tail_front, crate::proofs::SegmentFronts::part_front, crate::proofs::SegmentFronts::no_part))]
fn part_front(text: &[u8], wordless: &mut usize) -> Option<Front>
    requires small { length text.now < 2 ^ 29 }
    requires known { IsWordless wordless.old text.now }
    ensures front { (marked : Bool) → result ≡ front_of (in_module marked false) text.now }
    ensures known { IsWordless wordless.new text.now }
{
    if ends_module(text) {
        return Some(Front {
            shape: Shape::Tail,
            len: text.len(),
        });
    }
    let part = module_part(text, wordless)?;
    Some(Front {
        shape: Shape::Part(part.class),
        len: part.len,
    })
}
