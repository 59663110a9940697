//! The items of statements that have no statements in them.

ghost use Rattle.std.specs.Prelude.{◌≡◌, ◌<◌, ◌≤◌, codes, false, length, map, List, Option, IfOk, OnOk};
ghost use Rattle.tla_tree.specs.Tree.{Tree, Graft, grafts};
ghost use Rattle.tla_tree.specs.Nesting.{greatest};
ghost use Rattle.tla_tree.specs.Pool.{at, trees_at, Keeps};
ghost use Rattle.pcal_tree.specs.Run.{label_of, partner_of};
ghost use Rattle.name_bits.specs.declared.bits.Bits.{Bits};
ghost use Rattle.pcal_tree.specs.Algorithm as pure;
ghost use Rattle.pcal_tree.specs.Algorithm.{Routine};
ghost use Rattle.pcal_tree.specs.Expand.{graft_one, graft_all};
ghost use Rattle.pcal_tree.specs.InMemory.{assignments_at, span_of, simple_at, statements_at, past_assignment, past_numbers, past_simple};
ghost use Rattle.pcal_tree.specs.Program.{Program};
ghost use Rattle.tla_tree.specs.Tree.{string, node, no_trees};
ghost use Rattle.module_tree.specs.Formulas.{self};
ghost use Rattle.action_builder.specs.Written.{print_of, assert_of};
ghost use Rattle.module_write.specs.InMemory.{past_items};
ghost use Rattle.action_builder.specs.Settled.{jumps_one};
ghost use Rattle.action_builder.specs.WrittenNames.{renames};
ghost use Rattle.right_sides.specs.After.{put_items};
ghost use Rattle.step_items.specs.Desks.{DeskIn, IsDesk};
ghost use Rattle.step_items.specs.Writing.{alone, first_alone, jumps_of, own_of, to_write_first, Fits, Plain, Writes};

use crate::desk::{Around, Desk, Reach};
use crate::expressions::{expression, named_assignments};
use crate::moves::{call, jump, leave, only_self, set};
use crate::partner::{follow, partner_in};
use module_write::module::Item;
use name_bits::Bits;
use pcal_tree::algorithm::{Assignment, Simple, Span, Stmt};
use std::alloc::{AllocError, Global};
use tla_pool::Pool;
use tla_pool::form::Form;
use tla_token::Place;
use tla_tree::{Name, NodeId, PlacedName, Text};

// The test of an expression of the text.
fn test(
    alloc: Global,
    pool: &mut Pool,
    desk: &Desk<'_>,
    before: &Bits,
    e: NodeId,
    out: &mut Vec<Item>,
) -> Result<Bits, AllocError>
    requires desk { DeskIn (length pool.old) desk.now }
    requires below { e < length pool.old }
    requires items { past_items out.old.items ≤ length pool.old }
    ensures made { (P : Program) (u : Routine) (x : Option Tree) → IsDesk pool.old desk.now P u x → (s : pure.Span) → IfOk result (λ r. Writes P (put_items self x) pool.old pool.new out.old.items out.new.items before.now r (alone P u s (pure.await (at pool.old e)))) }
    ensures within { OnOk result (past_items out.new.items ≤ length pool.new) }
    ensures kept { Keeps pool.old pool.new }
{
    let made = expression(alloc, pool, desk, before, e)?;
    out.push(Item::Test(made))?;
    Ok(Bits::empty())
}

// Makes `PrintT(e)`.
fn printing(alloc: Global, pool: &mut Pool, place: Place, e: NodeId) -> Result<NodeId, AllocError>
    requires { e < length pool.old }
    ensures tree { IfOk result (λ r. at pool.new r ≡ print_of place (at pool.old e)) }
    ensures within { IfOk result (λ r. r < length pool.new) }
    ensures kept { Keeps pool.old pool.new }
{
    let name = Name::new(Vec::from_slice(alloc, b"PrintT")?);
    let parts = Vec::from_array(alloc, [e])?;
    pool.put(Form::Call(name), place, parts)
}

// The test `PrintT(e)`.
fn print(
    alloc: Global,
    pool: &mut Pool,
    desk: &Desk<'_>,
    before: &Bits,
    place: Place,
    e: NodeId,
    out: &mut Vec<Item>,
) -> Result<Bits, AllocError>
    requires desk { DeskIn (length pool.old) desk.now }
    requires below { e < length pool.old }
    requires items { past_items out.old.items ≤ length pool.old }
    ensures made { (P : Program) (u : Routine) (x : Option Tree) → IsDesk pool.old desk.now P u x → (s : pure.Span) → s.first ≡ place → IfOk result (λ r. Writes P (put_items self x) pool.old pool.new out.old.items out.new.items before.now r (alone P u s (pure.print (at pool.old e)))) }
    ensures within { OnOk result (past_items out.new.items ≤ length pool.new) }
    ensures kept { Keeps pool.old pool.new }
{
    let made = expression(alloc, pool, desk, before, e)?;
    let printed = printing(alloc, pool, place, made)?;
    out.push(Item::Test(printed))?;
    Ok(Bits::empty())
}

// The text of a failed assertion.
fn failure(alloc: Global, pool: &mut Pool, place: Place) -> Result<NodeId, AllocError>
    ensures tree { IfOk result (λ r. at pool.new r ≡ node (string (codes "Failure of assertion.")) place no_trees) }
    ensures within { IfOk result (λ r. r < length pool.new) }
    ensures kept { Keeps pool.old pool.new }
{
    let text = Text::new(Vec::from_slice(alloc, b"Failure of assertion.")?);
    pool.put(Form::String(text), place, Vec::new(alloc))
}

// Makes `Assert(e, "Failure of assertion.")`.
fn assertion(alloc: Global, pool: &mut Pool, place: Place, e: NodeId) -> Result<NodeId, AllocError>
    requires { e < length pool.old }
    ensures tree { IfOk result (λ r. at pool.new r ≡ assert_of place (at pool.old e)) }
    ensures within { IfOk result (λ r. r < length pool.new) }
    ensures kept { Keeps pool.old pool.new }
{
    let text = failure(alloc, pool, place)?;
    let name = Name::new(Vec::from_slice(alloc, b"Assert")?);
    let parts = Vec::from_array(alloc, [e, text])?;
    pool.put(Form::Call(name), place, parts)
}

// The test `Assert(e, "Failure of assertion.")`.
fn assert(
    alloc: Global,
    pool: &mut Pool,
    desk: &Desk<'_>,
    before: &Bits,
    place: Place,
    e: NodeId,
    out: &mut Vec<Item>,
) -> Result<Bits, AllocError>
    requires desk { DeskIn (length pool.old) desk.now }
    requires below { e < length pool.old }
    requires items { past_items out.old.items ≤ length pool.old }
    ensures made { (P : Program) (u : Routine) (x : Option Tree) → IsDesk pool.old desk.now P u x → (s : pure.Span) → s.first ≡ place → IfOk result (λ r. Writes P (put_items self x) pool.old pool.new out.old.items out.new.items before.now r (alone P u s (pure.assert (at pool.old e)))) }
    ensures within { OnOk result (past_items out.new.items ≤ length pool.new) }
    ensures kept { Keeps pool.old pool.new }
{
    let made = expression(alloc, pool, desk, before, e)?;
    let asserted = assertion(alloc, pool, place, made)?;
    out.push(Item::Test(asserted))?;
    Ok(Bits::empty())
}

// The test `(TRUE)`.
fn skip(
    alloc: Global,
    pool: &mut Pool,
    place: Place,
    out: &mut Vec<Item>,
) -> Result<Bits, AllocError>
    requires { past_items out.old.items ≤ length pool.old }
    ensures made { (P : Program) (u : Routine) (x : Option Tree) (before : Bits) (s : pure.Span) → s.first ≡ place → IfOk result (λ r. Writes P (put_items self x) pool.old pool.new out.old.items out.new.items before r (alone P u s pure.skip)) }
    ensures within { OnOk result (past_items out.new.items ≤ length pool.new) }
    ensures kept { Keeps pool.old pool.new }
{
    let made = pool.put(Form::Truth(true), place, Vec::new(alloc))?;
    out.push(Item::Test(made))?;
    Ok(Bits::empty())
}

// The settings of assignments of the text.
fn assign(
    alloc: Global,
    pool: &mut Pool,
    desk: &Desk<'_>,
    before: &Bits,
    list: &[Assignment],
    out: &mut Vec<Item>,
) -> Result<Bits, AllocError>
    requires desk { DeskIn (length pool.old) desk.now }
    requires below { greatest (map past_assignment list.now) ≤ length pool.old }
    requires items { past_items out.old.items ≤ length pool.old }
    ensures made { (P : Program) (u : Routine) (x : Option Tree) → IsDesk pool.old desk.now P u x → (s : pure.Span) → Plain P (alone P u s (pure.assign (assignments_at pool.old list.now))) → IfOk result (λ r. Writes P (put_items self x) pool.old pool.new out.old.items out.new.items before.now r (alone P u s (pure.assign (assignments_at pool.old list.now)))) }
    ensures within { OnOk result (past_items out.new.items ≤ length pool.new) }
    ensures kept { Keeps pool.old pool.new }
{
    let named = named_assignments(alloc, pool, desk, list)?;
    set(alloc, pool, desk, before, &only_self(desk), &named, out)
}

// A call, whose return goes to what follows it, with what it is one statement with.
fn called(
    alloc: Global,
    pool: &mut Pool,
    desk: &Desk<'_>,
    around: &Around<'_>,
    name: &PlacedName,
    arguments: &[NodeId],
    rest: &[Stmt],
    out: &mut Vec<Item>,
) -> Result<Bits, AllocError>
    requires desk { DeskIn (length pool.old) desk.now }
    requires arguments { past_numbers arguments.now ≤ length pool.old }
    requires items { past_items out.old.items ≤ length pool.old }
    ensures made { (P : Program) (u : Routine) (x : Option Tree) → IsDesk pool.old desk.now P u x → (s : pure.Span) → (let S = graft_all (own_of P) ((jumps_of P u).call s name.now (grafts (renames P u) (trees_at pool.old arguments.now)) (label_of (statements_at pool.old rest.now) around.now.exit.now) (partner_of (statements_at pool.old rest.now))) in Plain P S → IfOk result (λ r. Writes P (put_items self x) pool.old pool.new out.old.items out.new.items around.now.before.now r S)) }
    ensures within { OnOk result (past_items out.new.items ≤ length pool.new) }
    ensures kept { Keeps pool.old pool.new }
{
    let label = follow(rest, around.exit, desk.unlabelled);
    let with = partner_in(rest);
    call(
        alloc,
        pool,
        desk,
        around.before,
        name,
        arguments,
        label,
        &with,
        out,
    )
}

// The items of a statement before these, and what it assigns.
fn written_one(
    alloc: Global,
    pool: &mut Pool,
    desk: &Desk<'_>,
    around: &Around<'_>,
    place: Place,
    one: &Simple,
    rest: &[Stmt],
    out: &mut Vec<Item>,
) -> Result<Bits, AllocError>
    requires desk { DeskIn (length pool.old) desk.now }
    requires simple { past_simple one.now ≤ length pool.old }
    requires items { past_items out.old.items ≤ length pool.old }
    ensures made { (P : Program) (u : Routine) (x : Option Tree) → IsDesk pool.old desk.now P u x → (s : pure.Span) → s.first ≡ place → Plain P (first_alone P u around.now.here.now around.now.exit.now s (simple_at pool.old one.now) (statements_at pool.old rest.now)) → IfOk result (λ r. Writes P (put_items self x) pool.old pool.new out.old.items out.new.items around.now.before.now r (first_alone P u around.now.here.now around.now.exit.now s (simple_at pool.old one.now) (statements_at pool.old rest.now))) }
    ensures within { OnOk result (past_items out.new.items ≤ length pool.new) }
    ensures kept { Keeps pool.old pool.new }
{
    let before = around.before;
    match one {
        Simple::Assign(list) => assign(alloc, pool, desk, before, list, out),
        Simple::Await(e) => test(alloc, pool, desk, before, *e, out),
        Simple::Print(e) => print(alloc, pool, desk, before, place, *e, out),
        Simple::Assert(e) => assert(alloc, pool, desk, before, place, *e, out),
        Simple::Skip => skip(alloc, pool, place, out),
        Simple::Goto(label) => jump(alloc, pool, desk, before, label, out),
        Simple::Macro(_, _) => Ok(Bits::empty()),
        Simple::Call(name, list) => called(alloc, pool, desk, around, name, list, rest, out),
        Simple::Return => leave(alloc, pool, desk, before, out),
    }
}

// Whether a statement ends its step.
fn ends_step(one: &Simple) -> bool
    ensures { (ts : List Tree) (g : Graft) → result ≡ jumps_one (graft_one g (simple_at ts one.now)) }
{
    match one {
        Simple::Assign(_) => false,
        Simple::Await(_) => false,
        Simple::Print(_) => false,
        Simple::Assert(_) => false,
        Simple::Skip => false,
        Simple::Goto(_) => true,
        Simple::Macro(_, _) => true,
        Simple::Call(_, _) => true,
        Simple::Return => true,
    }
}

/// The items of a statement before these.
///
/// # Errors
///
/// Only for want of memory; the pool may then have more nodes than before.
pub fn simple(
    alloc: Global,
    pool: &mut Pool,
    desk: &Desk<'_>,
    around: &Around<'_>,
    span: &Span,
    one: &Simple,
    rest: &[Stmt],
    out: &mut Vec<Item>,
) -> Result<Reach, AllocError>
    requires simple { past_simple one.now ≤ length pool.old }
    requires desk { DeskIn (length pool.old) desk.now }
    requires items { past_items out.old.items ≤ length pool.old }
    ensures made { (P : Program) (u : Routine) (x : Option Tree) → IsDesk pool.old desk.now P u x → (let ss = graft_all (renames P u) (pure.then (span_of span.now) (simple_at pool.old one.now) (statements_at pool.old rest.now)) in Fits P (to_write_first P u around.now.here.now around.now.exit.now ss) ss → IfOk result (λ r. Writes P (put_items self x) pool.old pool.new out.old.items out.new.items around.now.before.now r.assigned (to_write_first P u around.now.here.now around.now.exit.now ss) × (r.ends ≡ jumps_one (graft_one (renames P u) (simple_at pool.old one.now))))) }
    ensures within { OnOk result (past_items out.new.items ≤ length pool.new) }
    ensures kept { Keeps pool.old pool.new }
{
    let assigned = written_one(alloc, pool, desk, around, span.first, one, rest, out)?;
    Ok(Reach {
        assigned,
        ends: ends_step(one),
    })
}
