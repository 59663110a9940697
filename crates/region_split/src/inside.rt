//! What is between the two lines of a translation.

ghost use Rattle.std.specs.Prelude.{◌≡◌, ℕ, true, ◌+◌, ◌^◌, ◌<◌, ◌≤◌, length, drop, IfOk, All};
ghost use Rattle.tla_token.specs.Places.{place_at};
ghost use Rattle.module_tree.specs.TextFront.{whole_line};
ghost use Rattle.module_tree.specs.FileParts.{inside_region};
ghost use Rattle.module_split.specs.StandsSeen.{located_seen, stands_seen, IsSolid};
ghost use Rattle.module_split.specs.Walking.{state_of, IsAt};
ghost use Rattle.region_split.specs.Parted.{IsPlaced};

use module_split::line::whole_len;
use module_split::stand::{Shape, Stand};
use module_split::walk::{Known, Walker, walk_on};
use std::alloc::{AllocError, Global};
use tla_token::place_of;

// Where a walk in a module begins behind the line that is at this byte.
fn behind_line(text: &[u8], at: usize) -> Walker
    requires small { length text.now < 2 ^ 29 }
    requires within { at ≤ length text.now }
    ensures at { IsAt text.now result }
    ensures state { (n : ℕ) → n ≡ at + length (whole_line (drop at text.now)) → state_of result ≡ record { at = n; place = place_at text.now n; headed = true; marked = true } }
{
    let from = at + whole_len(&text[at..]);
    Walker {
        at: from,
        place: place_of(text, from),
        headed: true,
        marked: true,
        known: Known {
            endless: false,
            wordless: 0,
        },
    }
}

/// The segments between the lines of a translation.
///
/// # Errors
///
/// Want of memory.
pub fn inside(alloc: Global, text: &[u8], old: Stand) -> Result<Vec<Stand>, AllocError>
    requires small { length text.now < 2 ^ 29 }
    requires solid { IsSolid text.now old }
    requires placed { IsPlaced text.now old }
    ensures walked { IfOk result (λ v. stands_seen text.now v.items ≡ inside_region (located_seen text.now old)) }
    ensures solid { IfOk result (λ v. All (IsSolid text.now) v.items) }
{
    match old.shape {
        Shape::Region(len) => {
            let front = &text[..old.at + len];
            walk_on(alloc, front, behind_line(front, old.at))
        }
        _ => Ok(Vec::new(alloc)),
    }
}
