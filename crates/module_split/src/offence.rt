//! What is wrong with a file before its algorithm is read.

ghost use Rattle.std.specs.Prelude.{◌≡◌, ℕ, List, [], ◌∷◌, ◌+◌, ◌≤◌, ◌<◌, ◌^◌, length, not, Bool, Some, option_map, filter, All, slice_index_or, false, true};
ghost use Rattle.std.specs.List.{position_or_len};
ghost use Rattle.tla_token.specs.Tokens.{stretch};
ghost use Rattle.tla_token.specs.Offences.{part_offences, least};
ghost use Rattle.tla_token.specs.Scan.{is_quoted, part_of};
ghost use Rattle.tla_tree.specs.TokenViews.{view};
ghost use Rattle.module_tree.specs.Walk.{is_region, is_header_line, is_tail};
ghost use Rattle.module_split.specs.StandsSeen.{segment_seen, located_seen, stands_seen, IsSolid};
ghost use Rattle.module_tree.specs.FileParts as pure;
ghost use Rattle.module_tree.specs.FileUnits.{token_in, begins_unit as begins_unit_of};
ghost use Rattle.module_tree.specs.FileOffences.{offences_at, segment_offences, offences_of, no_module, no_algorithm, rest_of_line, no_unit, is_splitting};
ghost use Rattle.module_split.specs.SplitSeen.{is_blank_stand};

use crate::algorithm::is_token;
use crate::stand::{Shape, Stand};
use crate::unit_start::begins_unit;
use tla_token::fault::{part_fault, sooner};
use tla_token::{Class, Reading, Rule};

// ---- segments

/// The bytes of a segment.
pub fn bytes_of(text: &[u8], stand: Stand) -> &[u8]
    requires { IsSolid text.now stand }
    ensures value { result.now ≡ stretch text.now stand.at (stand.at + stand.len) }
    ensures size { length result.now ≡ stand.len }
{
    &text[stand.at..stand.at + stand.len]
}

// What is wrong with a part of a module.
#[tactic(auto, using(crate::proofs::SplitFaults::plain_part_fault, crate::proofs::SplitFaults::plain_text_fault))]
fn plain_fault(class: Class, bytes: &[u8], at: usize) -> Option<(Rule, usize)>
    requires some { 0 < length bytes.now }
    requires small { at + length bytes.now < 2 ^ 32 }
    requires quoted { is_quoted class ≡ true → 2 ≤ length bytes.now }
    ensures { result ≡ least (filter is_splitting (part_offences false at (part_of class bytes.now))) }
{
    match class {
        Class::Text => None,
        _ => part_fault(class, bytes, at, Reading::Unread),
    }
}

// What is wrong with a segment.
fn stand_fault(text: &[u8], stand: Stand) -> Option<(Rule, usize)>
    requires solid { IsSolid text.now stand }
    requires small { length text.now < 2 ^ 29 }
    ensures { result ≡ least (filter is_splitting (segment_offences stand.at (segment_seen text.now stand))) }
{
    match stand.shape {
        Shape::Part(class) => plain_fault(class, bytes_of(text, stand), stand.at),
        Shape::Mark => Some((Rule::BadRegion, stand.at)),
        Shape::Inner => Some((Rule::Placement, stand.at)),
        _ => None,
    }
}

/// What is wrong with the segments of a file.
#[tactic(auto, using(crate::proofs::StandSteps::fault_more, crate::proofs::StandSteps::fault_done))]
pub fn stands_fault(text: &[u8], stands: &[Stand]) -> Option<(Rule, usize)>
    requires solid { All (IsSolid text.now) stands.now }
    requires small { length text.now < 2 ^ 29 }
    ensures { result ≡ least (filter is_splitting (offences_of (stands_seen text.now stands.now))) }
{
    let mut fault = None;
    'stands: for stand in stands {
        fault = sooner(fault, stand_fault(text, *stand));
    }
    fault
}

// ---- module and algorithm

/// Whether the module has no end; the text has so many bytes.
pub fn module_fault(len: usize, end: Option<usize>) -> Option<(Rule, usize)>
    ensures { (x : List ℕ) → length x ≡ len → result ≡ least (no_module x end) }
{
    match end {
        Some(_) => None,
        None => Some((Rule::NoModule, len)),
    }
}

/// Whether the module has no algorithm, which begin here.
pub fn missing_fault(end: Option<usize>, starts: &[usize]) -> Option<(Rule, usize)>
    ensures { result ≡ least (no_algorithm end starts.now) }
{
    match end {
        Some(at) => {
            if starts.is_empty() {
                Some((Rule::NoAlgorithm, at))
            } else {
                None
            }
        }
        None => None,
    }
}

/// The first of these beginnings that is no byte of a token; the bytes of tokens are marked.
#[tactic(auto, using(crate::proofs::StandSteps::start_more, crate::proofs::StandSteps::start_done))]
pub fn second_fault(starts: &[usize], marks: &[bool]) -> Option<(Rule, usize)>
    ensures { result ≡ least (offences_at Rule.TwoAlgorithms (filter (λ k. not (slice_index_or marks.now k false)) starts.now)) }
{
    let mut fault = None;
    'starts: for start in starts {
        fault = sooner(fault, start_fault(*start, marks));
    }
    fault
}

// A beginning that is no byte of a token.
#[tactic(auto, using(crate::proofs::StandSteps::start_marked, crate::proofs::StandSteps::start_unmarked))]
fn start_fault(start: usize, marks: &[bool]) -> Option<(Rule, usize)>
    ensures { result ≡ least (offences_at Rule.TwoAlgorithms (filter (λ k. not (slice_index_or marks.now k false)) (start ∷ []))) }
{
    if is_marked(marks, start) {
        None
    } else {
        Some((Rule::TwoAlgorithms, start))
    }
}

fn is_marked(marks: &[bool], at: usize) -> bool
    ensures { result ≡ slice_index_or marks.now at false }
{
    at < marks.len() && marks[at]
}

// ---- the place of a translation

/// Whether a segment is a newline of the module.
pub fn is_newline(text: &[u8], stand: Stand) -> bool
    requires { IsSolid text.now stand }
    ensures { result ≡ pure.is_newline (located_seen text.now stand) }
{
    match stand.shape {
        Shape::Part(Class::Blank) => text[stand.at] == b'\n',
        _ => false,
    }
}

fn is_blank(stand: Stand) -> bool
    ensures { result ≡ is_blank_stand stand }
{
    match stand.shape {
        Shape::Part(Class::Blank) => true,
        _ => false,
    }
}

/// What is on the line after the algorithm's comment but blanks.
pub fn line_fault(text: &[u8], stands: &[Stand]) -> Option<(Rule, usize)>
    requires { All (IsSolid text.now) stands.now }
    ensures { result ≡ least (rest_of_line (stands_seen text.now stands.now)) }
{
    'stands: for stand in stands {
        if is_newline(text, *stand) {
            return None;
        }
        if !is_blank(*stand) {
            return Some((Rule::Placement, stand.at));
        }
    }
    None
}

// Whether the token that a segment is begins a unit.
fn begins_here(text: &[u8], stand: Stand) -> Option<bool>
    requires { IsSolid text.now stand }
    ensures { result ≡ option_map (λ t. begins_unit_of (view t)) (token_in (located_seen text.now stand)) }
{
    match stand.shape {
        Shape::Part(class) => {
            if is_token(class) {
                Some(begins_unit(class, bytes_of(text, stand), stand.place))
            } else {
                None
            }
        }
        Shape::Inner => Some(true),
        _ => None,
    }
}

/// The first token, if it begins no unit.
pub fn unit_fault(text: &[u8], stands: &[Stand]) -> Option<(Rule, usize)>
    requires { All (IsSolid text.now) stands.now }
    ensures { result ≡ least (no_unit (stands_seen text.now stands.now)) }
{
    'stands: for stand in stands {
        match begins_here(text, *stand) {
            Some(true) => return None,
            Some(false) => return Some((Rule::Placement, stand.at)),
            None => {}
        }
    }
    None
}
