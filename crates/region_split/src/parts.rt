//! A module's text in its parts.

ghost use Rattle.std.specs.Prelude.{◌≡◌, ◌^◌, ◌<◌, [], length, true, Some, IfOk, All, MatchOption, find, is_some};
ghost use Rattle.module_tree.specs.Walk.{walk};
ghost use Rattle.module_tree.specs.FileParts.{module_end, inside_region};
ghost use Rattle.module_tree.specs.FileOffences.{offences_of};
ghost use Rattle.module_split.specs.StandsSeen.{located_seen, stands_seen, IsSolid};
ghost use Rattle.module_split.specs.SplitSeen.{is_region_stand};
ghost use Rattle.region_split.specs.Parted.{IsParted, IsNoModule};

use crate::inside::inside;
use module_split::offence::stands_fault;
use module_split::seek::{behind, region, region_index, tail};
use module_split::split::{title_of, tokens_among};
use module_split::stand::Stand;
use module_split::walk::walk;
use std::alloc::{AllocError, Global};
use tla_token::{Span, Tokens};

/// The parts of a module's text.
#[derive(Drop)]
pub struct RegionParts {
    /// The module's name, by its bytes in the text.
    pub title: Span,
    /// The tokens before the translation.
    pub before: Tokens,
    /// The tokens between the lines of the translation.
    pub inside: Tokens,
    /// The tokens after the translation.
    pub after: Tokens,
}

/// The parts of a module's text, if nothing is wrong with its segments, it has an end, and a translation that has none.
///
/// # Errors
///
/// Want of memory.
pub fn parts_of_module(alloc: Global, text: &[u8]) -> Result<Option<RegionParts>, AllocError>
    requires small { length text.now < 2 ^ 29 }
    ensures parts { IfOk result (λ o. MatchOption o (IsNoModule text.now) (IsParted text.now)) }
{
    let stands = walk(alloc, text)?;
    parts_among(alloc, text, &stands)
}

// The parts of a text with these segments.
fn parts_among(
    alloc: Global,
    text: &[u8],
    stands: &[Stand],
) -> Result<Option<RegionParts>, AllocError>
    requires small { length text.now < 2 ^ 29 }
    requires walk { stands_seen text.now stands.now ≡ walk text.now }
    requires solid { All (IsSolid text.now) stands.now }
    ensures { IfOk result (λ o. MatchOption o (IsNoModule text.now) (IsParted text.now)) }
{
    if !is_sound(text, stands) {
        return Ok(None);
    }
    if tail(stands).is_none() {
        return Ok(None);
    }
    match region(stands) {
        Some(old) => {
            let within = inside(alloc, text, old)?;
            parts_around(alloc, text, stands, old, &within)
        }
        None => Ok(None),
    }
}

// Whether nothing is wrong with these segments.
#[tactic(auto, using(crate::proofs::PartsFound::sound_is, crate::proofs::PartsFound::sound_seen))]
fn is_sound(text: &[u8], stands: &[Stand]) -> bool
    requires solid { All (IsSolid text.now) stands.now }
    requires small { length text.now < 2 ^ 29 }
    ensures yes { result ≡ true → offences_of (stands_seen text.now stands.now) ≡ [] }
    ensures no { offences_of (stands_seen text.now stands.now) ≡ [] → result ≡ true }
{
    stands_fault(text, stands).is_none()
}

// The parts of a text with this translation, with these segments between its lines.
fn parts_around(
    alloc: Global,
    text: &[u8],
    stands: &[Stand],
    old: Stand,
    within: &[Stand],
) -> Result<Option<RegionParts>, AllocError>
    requires small { length text.now < 2 ^ 29 }
    requires walk { stands_seen text.now stands.now ≡ walk text.now }
    requires solid { All (IsSolid text.now) stands.now }
    requires sound { offences_of (walk text.now) ≡ [] }
    requires ended { is_some (module_end (walk text.now)) ≡ true }
    requires old { find is_region_stand stands.now ≡ Some old }
    requires inside { stands_seen text.now within.now ≡ inside_region (located_seen text.now old) }
    requires solid_inside { All (IsSolid text.now) within.now }
    ensures { IfOk result (λ o. MatchOption o (IsNoModule text.now) (IsParted text.now)) }
{
    if !is_sound(text, within) {
        return Ok(None);
    }
    if tail(within).is_some() {
        return Ok(None);
    }
    let index = region_index(stands);
    Ok(Some(RegionParts {
        title: title_of(text, stands),
        before: tokens_among(alloc, text, &stands[..index], &[], old.place)?,
        inside: tokens_among(alloc, text, within, &[], old.place)?,
        after: tokens_among(alloc, text, behind(stands, index), &[], old.place)?,
    }))
}
