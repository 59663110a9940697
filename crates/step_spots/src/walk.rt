//! The labels of a routine, in the order of the text.

ghost use Rattle.std.specs.Prelude.{◌≡◌, ◌<◌, ◌≤◌, max, List, length, drop, map, bytes_eq, Contains, IfOk, IfSome, OnOk};
ghost use Rattle.std.specs.Option.{option_map};
ghost use Rattle.tla_tree.specs.Tree.{Tree};
ghost use Rattle.pcal_tree.specs.InMemory.{statements_at, branches_at, past_statements, past_branches};
ghost use Rattle.pcal_tree.specs.Run.{unlabelled};
ghost use Rattle.step_spots.specs.Targets.{target_word};
ghost use Rattle.step_spots.specs.Spots.{spots as spots_of, spots_some, first_spots, spot_named};
ghost use Rattle.step_spots.specs.InMemory.{spot_at, past_spot, past_spots, here_at, AddsSpots};

use crate::target::{Target, next_target};
use pcal_tree::algorithm::Stmt;
use std::alloc::{AllocError, Global};
use tla_tree::{Name, PlacedName};

/// A label, with what a step from it begins with.
#[derive(Clone, Copy)]
pub struct Spot<'a> {
    /// The label.
    pub label: &'a PlacedName,
    /// The statements after it, up to the end of its list.
    pub items: &'a [Stmt],
    /// The label to which that end goes.
    pub exit: Target<'a>,
}

// The label at which the statement of this number is: that before it, or of the first the label at which its list is.
fn target_at<'a>(stmts: &'a [Stmt], number: usize, here: Target<'a>, exit: Target<'a>) -> Target<'a>
    requires { number < length stmts.now }
    ensures { (ts : List Tree) → target_word result ≡ here_at ts (target_word here.entry) (target_word exit.entry) stmts.now number }
{
    if number == 0 {
        here
    } else {
        next_target(&stmts[number - 1..], exit)
    }
}

// Adds those of the label or the statement of this number; `here` is the label at which it is.
#[cycle(spots)]
fn add_stmt<'a>(
    here: Target<'a>,
    exit: Target<'a>,
    stmts: &'a [Stmt],
    number: usize,
    out: &mut Vec<Spot<'a>>,
) -> Result<(), AllocError>
    requires { number < length stmts.now }
    ensures adds { OnOk result ((ts : List Tree) → AddsSpots ts out.old.items out.new.items (first_spots (target_word here.entry) (statements_at ts (drop number stmts.now)) (target_word exit.entry))) }
    ensures within { OnOk result (past_spots out.new.items ≤ max (past_spots out.old.items) (past_statements stmts.now)) }
{
    let rest = &stmts[number + 1..];
    let next = next_target(rest, exit);
    match &stmts[number] {
        Stmt::Label(label, _) => {
            out.push(Spot {
                label,
                items: rest,
                exit,
            })?;
            Ok(())
        }
        Stmt::Simple(_, _) => Ok(()),
        Stmt::If(_, _, then, otherwise) => {
            add_stmts(Target::Nowhere, next, then, out)?;
            add_stmts(Target::Nowhere, next, otherwise, out)
        }
        Stmt::Either(_, list) => add_branches(next, list, out),
        Stmt::With(_, _, body) => add_stmts(Target::Nowhere, next, body, out),
        Stmt::While(_, _, body) => add_stmts(Target::Nowhere, here, body, out),
    }
}

// Adds those of branches.
#[cycle(spots)]
fn add_branches<'a>(
    exit: Target<'a>,
    list: &'a [Vec<Stmt>],
    out: &mut Vec<Spot<'a>>,
) -> Result<(), AllocError>
    ensures adds { OnOk result ((ts : List Tree) → AddsSpots ts out.old.items out.new.items (spots_some (branches_at ts list.now) (target_word exit.entry))) }
    ensures within { OnOk result (past_spots out.new.items ≤ max (past_spots out.old.items) (past_branches list.now)) }
{
    for i in 0..list.len() {
        add_stmts(Target::Nowhere, exit, &list[i], out)?;
    }
    Ok(())
}

// Adds those of a list of statements, whose end goes to `exit`; `here` is the label at which it is. It calls itself as deep as
// statements are in statements.
#[cycle(spots)]
fn add_stmts<'a>(
    here: Target<'a>,
    exit: Target<'a>,
    stmts: &'a [Stmt],
    out: &mut Vec<Spot<'a>>,
) -> Result<(), AllocError>
    ensures adds { OnOk result ((ts : List Tree) → AddsSpots ts out.old.items out.new.items (spots_of (target_word here.entry) (statements_at ts stmts.now) (target_word exit.entry))) }
    ensures within { OnOk result (past_spots out.new.items ≤ max (past_spots out.old.items) (past_statements stmts.now)) }
{
    for i in 0..stmts.len() {
        let label = target_at(stmts, i, here, exit);
        add_stmt(label, exit, stmts, i, out)?;
    }
    Ok(())
}

/// The labels of a body whose end goes to `exit`, each with what a step from it begins with ("A PlusCal User's Manual", section 3.7,
/// labels).
///
/// # Errors
///
/// Only for want of memory.
pub fn spots<'a>(
    alloc: Global,
    body: &'a [Stmt],
    exit: Target<'a>,
) -> Result<Vec<Spot<'a>>, AllocError>
    ensures list { IfOk result (λ r. (ts : List Tree) → map (spot_at ts) r.items ≡ spots_of unlabelled (statements_at ts body.now) (target_word exit.entry)) }
    ensures within { IfOk result (λ r. past_spots r.items ≤ past_statements body.now) }
{
    let mut all = Vec::new(alloc);
    add_stmts(Target::Nowhere, exit, body, &mut all)?;
    Ok(all)
}

// Whether a label has this name.
fn has_name(spot: Spot<'_>, name: &Name) -> bool
    ensures { result ≡ bytes_eq name.now spot.entry.label.now.word }
{
    let label = spot.label;
    name.is(&label.name)
}

/// The first of some labels that has a name.
pub fn spot_of<'a>(spots: &[Spot<'a>], name: &Name) -> Option<Spot<'a>>
    ensures first { (ts : List Tree) → option_map (spot_at ts) result ≡ spot_named (map (spot_at ts) spots.now) name.now }
    ensures among { IfSome result (λ s. Contains spots.now s) }
    ensures named { IfSome result (λ s. s.label.now.word ≡ name.now) }
    ensures within { IfSome result (λ s. past_spot s ≤ past_spots spots.now) }
{
    for i in 0..spots.len() {
        let spot = spots[i];
        if has_name(spot, name) {
            return Some(spot);
        }
    }
    None
}
