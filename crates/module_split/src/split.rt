//! A module's text in its parts, or the rule that counts of those that it breaks.

ghost use Rattle.std.specs.Prelude.{◌≡◌, ℕ, Bool, List, ◌+◌, ◌≤◌, ◌<◌, ◌^◌, ◌++◌, [], length, map, Some, Err, IfOk, IfSome, All, filter, option_map, is_some, true, slice_index_or, slice_get, unwrap_or, false};
ghost use Rattle.std.specs.List.{position_or_len, flat_map};
ghost use Rattle.tla_token.specs.declared.rule.Refusal as refusals;
ghost use Rattle.tla_token.specs.Places.{place_at};
ghost use Rattle.tla_token.specs.Tokens.{stretch};
ghost use Rattle.tla_token.specs.Offences.{least};
ghost use Rattle.tla_token.specs.KeptWords.{is_kept, are_kept};
ghost use Rattle.tla_token.specs.TokensSeen.{token_seen, tokens_seen};
ghost use Rattle.module_tree.specs.Walk.{Located, walk};
ghost use Rattle.module_split.specs.StandsSeen.{located_seen, stands_seen, IsSolid};
ghost use Rattle.module_tree.specs.HeaderAndRegion.{header_title};
ghost use Rattle.module_tree.specs.FileParts as pure;
ghost use Rattle.module_tree.specs.FileParts.{holds_algorithm};
ghost use Rattle.module_tree.specs.AlgorithmText.{algorithm_of};
ghost use Rattle.module_tree.specs.FileOffences.{algorithm_offences, placements, outside_region, options_in, second_algorithms, is_splitting, splitting_offences, RefusesSplit};
ghost use Rattle.module_split.specs.Splitting.{Splits};
ghost use Rattle.module_split.specs.SplitSeen.{plain_token, plain_tokens, after_newline, IsAlgorithm, IsGap};

use crate::algorithm::{Inside, algorithm_at, is_c};
use crate::beginning::{first_beginning, options_fault};
use crate::line::title_span;
use crate::offence::{
    bytes_of, line_fault, missing_fault, module_fault, second_fault, stands_fault, unit_fault,
};
use crate::seek::{
    beginnings, behind, header, holder, newline_index, region, region_index, tail, up_to, within,
};
use crate::stand::{Shape, Stand};
use crate::walk::walk;
use module_tree::Parts;
use std::alloc::{AllocError, Global};
use tla_token::fault::sooner;
use tla_token::{Part, Place, Refusal, Rule, Span, Stop, Token, Tokens, kind_at, place_of};

// ---- the place of a translation

// The place of a translation: what it takes the place of, and the segments round it.
#[derive(Clone, Copy)]
struct Gap<'a> {
    before: &'a [Stand],
    // On the line of the algorithm's comment, where no region is there.
    line: &'a [Stand],
    after: &'a [Stand],
    spot: Option<Span>,
    is_new: bool,
}

// The algorithm's comment has this index.
fn gap_of<'a>(text: &[u8], stands: &'a [Stand], comment: usize) -> Gap<'a>
    requires solid { All (IsSolid text.now) stands.now }
    requires small { length text.now < 2 ^ 29 }
    requires comment { comment ≡ position_or_len holds_algorithm (stands_seen text.now stands.now) }
    ensures { IsGap text.now stands.now result }
{
    let index = region_index(stands);
    if index < stands.len() {
        let old = stands[index];
        return Gap {
            before: &stands[..index],
            line: &[],
            after: behind(stands, index),
            spot: Some(Span {
                from: old.at,
                to: old.at + old.len,
            }),
            is_new: false,
        };
    }
    let rest = behind(stands, comment);
    let end = newline_index(text, rest);
    Gap {
        before: up_to(stands, comment),
        line: up_to(rest, end),
        after: behind(rest, end),
        spot: insertion(text, rest, end),
        is_new: true,
    }
}

// Behind the newline of this index.
fn insertion(text: &[u8], rest: &[Stand], end: usize) -> Option<Span>
    requires solid { All (IsSolid text.now) rest.now }
    requires small { length text.now < 2 ^ 29 }
    ensures { result ≡ option_map after_newline (slice_get rest.now end) }
{
    if end < rest.len() {
        let at = rest[end].at + 1;
        Some(Span { from: at, to: at })
    } else {
        None
    }
}

// ---- the tokens outside

// Adds the tokens among segments.
fn add_tokens(text: &[u8], stands: &[Stand], items: &mut Vec<Token>) -> Result<(), AllocError>
    requires solid { All (IsSolid text.now) stands.now }
    requires kept { are_kept text.now items.old.items ≡ true }
    ensures added { IfOk result (λ u. map (token_seen text.now) items.new.items ≡ map (token_seen text.now) items.old.items ++ plain_tokens (stands_seen text.now stands.now)) }
    ensures kept { IfOk result (λ u. are_kept text.now items.new.items ≡ true) }
{
    'stands: for stand in stands {
        if let Some(token) = token_of(text, *stand) {
            items.push(token)?;
        }
    }
    Ok(())
}

// The token that a segment is.
fn token_of(text: &[u8], stand: Stand) -> Option<Token>
    requires { IsSolid text.now stand }
    ensures seen { option_map (token_seen text.now) result ≡ plain_token (located_seen text.now stand) }
    ensures kept { IfSome result (λ t. is_kept text.now t.kind ≡ true) }
{
    match stand.shape {
        Shape::Part(class) => {
            let part = Part {
                class,
                len: stand.len,
            };
            match kind_at(text, stand.at, part) {
                Some(kind) => Some(Token {
                    kind,
                    at: stand.at,
                    place: stand.place,
                }),
                None => None,
            }
        }
        _ => None,
    }
}

/// The tokens among some segments, and then others, with the place of their end.
///
/// # Errors
///
/// Want of memory.
pub fn tokens_among(
    alloc: Global,
    text: &[u8],
    stands: &[Stand],
    more: &[Stand],
    end: Place,
) -> Result<Tokens, AllocError>
    requires stands { All (IsSolid text.now) stands.now }
    requires more { All (IsSolid text.now) more.now }
    ensures tokens { IfOk result (λ v. tokens_seen v ≡ plain_tokens (stands_seen text.now stands.now) ++ plain_tokens (stands_seen text.now more.now)) }
    ensures ends { IfOk result (λ v. v.end ≡ end) }
{
    let mut items = Vec::new(alloc);
    add_tokens(text, stands, &mut items)?;
    add_tokens(text, more, &mut items)?;
    Ok(Tokens {
        bytes: Vec::from_slice(alloc, text)?,
        items,
        end,
    })
}

// ---- the algorithm

// The algorithm of a file: where it begins, and the walk over it.
#[derive(Clone, Copy)]
struct Algorithm {
    from: usize,
    inside: Inside,
}

// The algorithm whose comment has this index. The bytes of its tokens are marked.
fn find_algorithm(
    text: &[u8],
    stands: &[Stand],
    comment: usize,
    marks: &mut [bool],
) -> Option<Algorithm>
    requires solid { All (IsSolid text.now) stands.now }
    requires small { length text.now < 2 ^ 29 }
    requires comment { comment ≡ position_or_len holds_algorithm (stands_seen text.now stands.now) }
    requires marks { length marks.old ≡ length text.now }
    requires unmarked { (k : ℕ) → slice_index_or marks.old k false ≡ false }
    ensures { IsAlgorithm text.now (stands_seen text.now stands.now) marks.new result }
{
    if comment >= stands.len() {
        return None;
    }
    let Some(span) = within(text, stands[comment]) else {
        unreachable!()
    };
    let Some(from) = first_beginning(text, span.from, span.to) else {
        unreachable!()
    };
    let inside = algorithm_at(text, from, span.to, marks);
    Some(Algorithm { from, inside })
}

// ---- offences

// Beginnings of further algorithms.
fn further_fault(
    found: Option<Algorithm>,
    starts: &[usize],
    marks: &[bool],
) -> Option<(Rule, usize)>
    ensures { (x : List ℕ) (ds : List Located) → IsAlgorithm x ds marks.now found → result ≡ least (second_algorithms (algorithm_of x ds) starts.now) }
{
    match found {
        Some(_) => {
            if starts.is_empty() {
                None
            } else {
                second_fault(&starts[1..], marks)
            }
        }
        None => None,
    }
}

// What leaves no room for a translation; the algorithm's comment has this index.
fn placement_fault(text: &[u8], stands: &[Stand], comment: usize, gap: Gap) -> Option<(Rule, usize)>
    requires solid { All (IsSolid text.now) stands.now }
    requires comment { comment ≡ position_or_len holds_algorithm (stands_seen text.now stands.now) }
    requires gap { IsGap text.now stands.now gap }
    ensures { result ≡ least (placements (stands_seen text.now stands.now)) }
{
    let unit = unit_fault(text, gap.after);
    if gap.is_new {
        sooner(line_fault(text, behind(stands, comment)), unit)
    } else {
        unit
    }
}

// Where the module ends, or the text.
fn end_index(text: &[u8], stands: &[Stand]) -> usize
    requires { All (IsSolid text.now) stands.now }
    ensures value { result ≡ unwrap_or (pure.module_end (stands_seen text.now stands.now)) (length text.now) }
    ensures within { result ≤ length text.now }
{
    match tail(stands) {
        Some(last) => last.at,
        None => text.len(),
    }
}

// Lines of options in the module outside its region.
fn options_outside(text: &[u8], stands: &[Stand]) -> Option<(Rule, usize)>
    requires solid { All (IsSolid text.now) stands.now }
    requires small { length text.now < 2 ^ 29 }
    ensures { result ≡ least (flat_map (options_in text.now) (outside_region text.now (stands_seen text.now stands.now))) }
{
    let end = end_index(text, stands);
    match header(stands) {
        None => None,
        Some(first) => match region(stands) {
            None => options_fault(text, first.at, end),
            Some(old) => sooner(
                options_fault(text, first.at, old.at),
                options_fault(text, old.at + old.len, end),
            ),
        },
    }
}

// Where the module ends.
fn module_end(stands: &[Stand]) -> Option<usize>
    ensures { (x : List ℕ) → result ≡ pure.module_end (stands_seen x stands.now) }
{
    match tail(stands) {
        Some(last) => Some(last.at),
        None => None,
    }
}

// The least rule of 1 to 10 that a file breaks, where it breaks it first.
fn file_fault(
    text: &[u8],
    stands: &[Stand],
    comment: usize,
    gap: Gap,
    found: Option<Algorithm>,
    starts: &[usize],
    marks: &[bool],
) -> Option<(Rule, usize)>
    requires solid { All (IsSolid text.now) stands.now }
    requires small { length text.now < 2 ^ 29 }
    requires walk { stands_seen text.now stands.now ≡ walk text.now }
    requires comment { comment ≡ position_or_len holds_algorithm (stands_seen text.now stands.now) }
    requires gap { IsGap text.now stands.now gap }
    requires found { IsAlgorithm text.now (stands_seen text.now stands.now) marks.now found }
    requires starts { starts.now ≡ pure.beginnings (stands_seen text.now stands.now) }
    ensures { result ≡ least (splitting_offences text.now) }
{
    let end = module_end(stands);
    let options = options_outside(text, stands);
    let place = sooner(placement_fault(text, stands, comment, gap), options);
    let further = sooner(further_fault(found, starts, marks), place);
    let missing = sooner(missing_fault(end, starts), further);
    let ended = sooner(module_fault(text.len(), end), missing);
    let inside = sooner(inside_fault(found), ended);
    sooner(stands_fault(text, stands), inside)
}

// What is wrong in the algorithm.
fn inside_fault(found: Option<Algorithm>) -> Option<(Rule, usize)>
    ensures { (x : List ℕ) (ds : List Located) (marks : List Bool) → IsAlgorithm x ds marks found → result ≡ least (filter is_splitting (algorithm_offences (algorithm_of x ds))) }
{
    match found {
        Some(algorithm) => algorithm.inside.fault,
        None => None,
    }
}

// ---- the parts

/// The module's name, which its header has.
pub fn title_of(text: &[u8], stands: &[Stand]) -> Span
    requires solid { All (IsSolid text.now) stands.now }
    requires titled { is_some (pure.title (stands_seen text.now stands.now)) ≡ true }
    ensures { pure.title (stands_seen text.now stands.now) ≡ Some (stretch text.now result.from result.to) }
{
    match header(stands) {
        Some(line) => name_in(text, line),
        None => unreachable!(),
    }
}

// The name in a header.
fn name_in(text: &[u8], line: Stand) -> Span
    requires solid { IsSolid text.now line }
    requires named { is_some (header_title (stretch text.now line.at (line.at + line.len))) ≡ true }
    ensures { header_title (stretch text.now line.at (line.at + line.len)) ≡ Some (stretch text.now result.from result.to) }
{
    match title_span(bytes_of(text, line)) {
        Some(name) => Span {
            from: line.at + name.from,
            to: line.at + name.to,
        },
        None => unreachable!(),
    }
}

// The parts of a file that breaks none of the rules.
fn parts_of<'a>(
    alloc: Global,
    text: &'a [u8],
    stands: &[Stand],
    gap: Gap,
    found: Option<Algorithm>,
) -> Result<Parts<'a>, AllocError>
    requires solid { All (IsSolid text.now) stands.now }
    requires small { length text.now < 2 ^ 29 }
    requires walk { stands_seen text.now stands.now ≡ walk text.now }
    requires fine { splitting_offences text.now ≡ [] }
    requires gap { IsGap text.now stands.now gap }
    requires found { (marks : List Bool) × IsAlgorithm text.now (stands_seen text.now stands.now) marks found }
    ensures { IfOk result (λ p. Splits text.now p) }
{
    let Some(spot) = gap.spot else { unreachable!() };
    let Some(algorithm) = found else {
        unreachable!()
    };
    let spot_place = place_near(text, spot.from);
    let end_place = place_near(text, end_index(text, stands));
    Ok(Parts {
        text,
        title: title_of(text, stands),
        spot,
        is_new: gap.is_new,
        algorithm: Span {
            from: algorithm.from,
            to: algorithm.inside.at,
        },
        is_c: is_c(algorithm.inside.stage),
        before: tokens_among(alloc, text, gap.before, gap.line, spot_place)?,
        after: tokens_among(alloc, text, gap.after, &[], end_place)?,
    })
}

// The place of a byte, or of the text's end for all behind it.
#[tactic(auto, using(tla_token::proofs::Scans::place_beyond))]
fn place_near(text: &[u8], at: usize) -> Place
    requires { length text.now < 2 ^ 29 }
    ensures { result ≡ place_at text.now at }
{
    if at < text.len() {
        place_of(text, at)
    } else {
        place_of(text, text.len())
    }
}

/// A module's text in its parts.
///
/// # Errors
///
/// The least of the rules 1 to 10 that the file breaks, at its first place; or want of memory.
pub fn split(alloc: Global, text: &[u8]) -> Result<Parts<'_>, Stop>
    requires small { length text.now < 2 ^ 29 }
    ensures parts { IfOk result (λ p. Splits text.now p) }
    ensures fine { IfOk result (λ p. splitting_offences text.now ≡ []) }
    ensures refused { (r : refusals.Refusal) → result ≡ Err (Stop.Refused r) → RefusesSplit text.now r }
{
    let stands = walk(alloc, text)?;
    let comment = holder(text, &stands);
    let gap = gap_of(text, &stands, comment);
    let starts = beginnings(alloc, text, &stands)?;
    let mut marks = vec![in alloc; false; text.len()]?;
    let found = find_algorithm(text, &stands, comment, &mut marks);
    match file_fault(text, &stands, comment, gap, found, &starts, &marks) {
        Some((rule, at)) => Err(Stop::Refused(Refusal {
            rule,
            place: place_near(text, at),
        })),
        None => Ok(parts_of(alloc, text, &stands, gap, found)?),
    }
}
