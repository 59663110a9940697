//! The first use of a definition after what it reads was assigned.

ghost use Rattle.std.specs.Prelude.{◌≡◌, List, [], bytes_eq, codes, map, IfOk};
ghost use Rattle.std.specs.List.{flat_map};
ghost use Rattle.pcal_tree.specs.Algorithm as tree;
ghost use Rattle.pcal_tree.specs.InMemory.{statements_at};
ghost use Rattle.pcal_tree.specs.Offences.{first};
ghost use Rattle.pcal_tree.specs.OffencesStale.{stands_for, stale_at};
ghost use Rattle.pcal_tree.specs.Reads.{Reading};
ghost use Rattle.pcal_tree.specs.laws.MacroSpots.{MacroSeen, spot_of};
ghost use Rattle.algorithm_answer.specs.Joined.{joined};
ghost use Rattle.read_rules.specs.KnownIn.{Knows};
ghost use Rattle.read_rules.specs.ReadsIn.{AreReads};
ghost use Rattle.read_rules.specs.RefusalsIn.{name_offence, use_offences, looking};
ghost use Rattle.read_rules.specs.SeenIn.{seen_of};

use crate::assigned::Assigned;
use crate::definitions::Reads;
use crate::known::Known;
use crate::names::Names;
use crate::walk::{Group, Walk, Ways};
use algorithm_limits::order::or_offence;
use pcal_tree::algorithm::Stmt;
use std::alloc::{AllocError, Global};
use tla_pool::Pool;
use tla_token::{Refusal, Rule};
use tla_tree::{Name, PlacedName};

// The first of what was found and of the offence of a name after these were assigned.
fn with_name(
    reads: &Reads,
    so_far: Option<Refusal>,
    after: &Names,
    one: &PlacedName,
) -> Option<Refusal>
    ensures { (ds : List Reading) → AreReads reads.now ds → result ≡ joined so_far (first (name_offence ds after.now one.now)) }
{
    let meets = reads.meets(after, &one.name);
    or_offence(so_far, meets, Rule::DefinedStale, one.place)
}

// The same of several names.
fn with_names(
    reads: &Reads,
    so_far: Option<Refusal>,
    after: &Names,
    names: &[PlacedName],
) -> Option<Refusal>
    ensures { (ds : List Reading) → AreReads reads.now ds → result ≡ joined so_far (first (flat_map (name_offence ds after.now) names.now)) }
{
    let mut found = so_far;
    for one in names {
        found = with_name(reads, found, after, one);
    }
    found
}

/// Whether a name is `self`.
pub fn is_self(name: &Name) -> bool
    ensures { result ≡ bytes_eq (codes "self") name.now }
{
    name.bytes() == b"self".as_slice()
}

// The same of a use of a name, where `self` stands for these names.
fn with_use(
    reads: &Reads,
    so_far: Option<Refusal>,
    identity: &[PlacedName],
    after: &Names,
    one: &PlacedName,
) -> Option<Refusal>
    ensures { (ds : List Reading) → AreReads reads.now ds → result ≡ joined so_far (first (flat_map (name_offence ds after.now) (stands_for identity.now one.now))) }
{
    let found = with_name(reads, so_far, after, one);
    if is_self(&one.name) {
        with_names(reads, found, after, identity)
    } else {
        found
    }
}

// The same of all uses on one path.
fn with_group(
    reads: &Reads,
    so_far: Option<Refusal>,
    identity: &[PlacedName],
    group: &Group,
) -> Option<Refusal>
    ensures { (ds : List Reading) → AreReads reads.now ds → result ≡ joined so_far (first (flat_map (use_offences ds identity.now group.now.after.names) group.now.uses.items)) }
{
    let mut found = so_far;
    for one in &group.uses {
        found = with_use(reads, found, identity, &group.after.names, &one.name);
    }
    found
}

// The same of all that is seen.
fn with_seen(
    reads: &Reads,
    so_far: Option<Refusal>,
    identity: &[PlacedName],
    groups: &[Group],
) -> Option<Refusal>
    ensures { (ds : List Reading) → AreReads reads.now ds → result ≡ joined so_far (first (flat_map (stale_at ds identity.now) (map spot_of (seen_of groups.now)))) }
{
    let mut found = so_far;
    for group in groups {
        found = with_group(reads, found, identity, group);
    }
    found
}

/// The first of what was found and of the offences of a body, where `self` stands for these names.
///
/// # Errors
///
/// Only for want of memory.
pub fn with_body(
    alloc: Global,
    pool: &Pool,
    known: &Known,
    reads: &Reads,
    so_far: Option<Refusal>,
    identity: &[PlacedName],
    body: &[Stmt],
) -> Result<Option<Refusal>, AllocError>
    ensures { IfOk result (λ r. (ms : List MacroSeen) (ps : List tree.Procedure) (ds : List Reading) → Knows known.now ms ps → AreReads reads.now ds → r ≡ joined so_far (first (flat_map (stale_at ds identity.now) (looking ms ps [] (statements_at pool.now body.now))))) }
{
    let mut ways = Ways {
        unreached: Walk::new(alloc, false, None),
        reached: Walk::new(alloc, false, Some(Assigned::new(alloc, false))),
    };
    match known.body(alloc, pool, &mut ways, body) {
        Ok(()) => {
            let found = with_seen(reads, so_far, identity, &ways.reached.seen);
            drop(ways);
            Ok(found)
        }
        Err(error) => {
            drop(ways);
            Err(error)
        }
    }
}
