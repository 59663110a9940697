//! Jumps, calls and returns, as settings of the variables that they assign.

ghost use Rattle.std.specs.Prelude.{◌≡◌, ◌<◌, ◌≤◌, length, map, List, Option, Some, None, IfOk, OnOk, MatchOption};
ghost use Rattle.tla_token.specs.Signs.{is_among};
ghost use Rattle.tla_token.specs.Places.{nowhere};
ghost use Rattle.tla_tree.specs.Tree.{Tree, graft, grafts};
ghost use Rattle.tla_tree.specs.Nesting.{greatest};
ghost use Rattle.tla_tree.specs.Pool.{at, trees_at, Keeps};
ghost use Rattle.pcal_tree.specs.Algorithm as pure;
ghost use Rattle.pcal_tree.specs.Algorithm.{Span, Routine, procedure_routine, procedure_routines};
ghost use Rattle.pcal_tree.specs.Expand.{graft_assignments, graft_all};
ghost use Rattle.pcal_tree.specs.InMemory.{assignments_at, procedure_at, past_assignment, past_algorithm, past_numbers, past_procedure};
ghost use Rattle.pcal_tree.specs.Calls.{routine_named};
ghost use Rattle.pcal_tree.specs.Processes.{OneOf};
ghost use Rattle.pcal_tree.specs.Program.{Program};
ghost use Rattle.pcal_tree.specs.Run.{Partner as partner_tree};
ghost use Rattle.pcal_tree.specs.Variables.{stack, vars};
ghost use Rattle.module_tree.specs.Formulas.{self};
ghost use Rattle.module_write.specs.InMemory.{past_items};
ghost use Rattle.name_bits.specs.NamesIn.{names_in};
ghost use Rattle.action_builder.specs.Jumps.{call_with, name_at};
ghost use Rattle.action_builder.specs.LabelActions.{no_jump_places, written_initials};
ghost use Rattle.action_builder.specs.Written.{primed};
ghost use Rattle.action_builder.specs.WrittenNames.{renames};
ghost use Rattle.action_builder.specs.laws.Ready.{LeftSides};
ghost use Rattle.action_builder.specs.laws.InParts.{InParts};
ghost use Rattle.proc_stack.specs.Moves.{in_order, moves_at, past_moves};
ghost use Rattle.right_sides.specs.After.{AfterIn, after_items, put_items};
ghost use Rattle.step_items.specs.Desks.{DeskIn, IsDesk};
ghost use Rattle.step_items.specs.Partners.{IsPartner};
ghost use Rattle.step_items.specs.Writing.{call_of, jumps_of, own_of, pair_of, Plain, Writes};

use crate::desk::Desk;
use crate::expressions::{by_written_names, own_assignments, own_part};
use crate::partner::Partner;
use module_write::formulas::named;
use module_write::module::Item;
use name_bits::Bits;
use pcal_tree::algorithm::Assignment;
use proc_stack::{Callee, call_moves, call_return_moves, jump_move, return_moves};
use right_sides::{After, settings, written};
use std::alloc::{AllocError, Global};
use tla_pool::Pool;
use tla_tree::{Name, NodeId, PlacedName};

/// What stands for `self`, where no step reads the old stack.
pub fn only_self(desk: &Desk<'_>) -> After
    ensures old { result.old ≡ None }
    ensures single { result.single ≡ desk.now.single }
{
    After {
        old: None,
        single: desk.single,
    }
}

/// Settings for assignments by their written names, where these variables are assigned before.
///
/// # Errors
///
/// Only for want of memory; the pool may then have more nodes than before.
pub fn set(
    alloc: Global,
    pool: &mut Pool,
    desk: &Desk<'_>,
    before: &Bits,
    after: &After,
    assignments: &[Assignment],
    out: &mut Vec<Item>,
) -> Result<Bits, AllocError>
    requires below { greatest (map past_assignment assignments.now) ≤ length pool.old }
    requires after { AfterIn (length pool.old) after.now }
    requires items { past_items out.old.items ≤ length pool.old }
    ensures made { (P : Program) (u : Routine) (x : Option Tree) → IsDesk pool.old desk.now P u x → (s : Span) → LeftSides (is_among (vars P)) (graft_assignments (own_of P) (assignments_at pool.old assignments.now)) → InParts (graft_assignments (own_of P) (assignments_at pool.old assignments.now)) → IfOk result (λ r. Writes P (after_items pool.old after.now) pool.old pool.new out.old.items out.new.items before.now r (pure.then s (pure.assign (graft_assignments (own_of P) (assignments_at pool.old assignments.now))) pure.done)) }
    ensures within { OnOk result (past_items out.new.items ≤ length pool.new) }
    ensures kept { Keeps pool.old pool.new }
{
    let own = own_assignments(alloc, pool, desk, assignments)?;
    settings(alloc, pool, desk.draft.order, before, after, &own, out)
}

// Settings for assignments one after another.
fn set_all(
    alloc: Global,
    pool: &mut Pool,
    desk: &Desk<'_>,
    before: &Bits,
    after: &After,
    rows: &[Vec<Assignment>],
    out: &mut Vec<Item>,
) -> Result<Bits, AllocError>
    requires below { past_moves rows.now ≤ length pool.old }
    requires after { AfterIn (length pool.old) after.now }
    requires items { past_items out.old.items ≤ length pool.old }
    ensures made { (P : Program) (u : Routine) (x : Option Tree) → IsDesk pool.old desk.now P u x → Plain P (graft_all (own_of P) (in_order (moves_at pool.old rows.now))) → IfOk result (λ r. Writes P (after_items pool.old after.now) pool.old pool.new out.old.items out.new.items before.now r (graft_all (own_of P) (in_order (moves_at pool.old rows.now)))) }
    ensures within { OnOk result (past_items out.new.items ≤ length pool.new) }
    ensures kept { Keeps pool.old pool.new }
{
    desk.draft.order.apart();
    let mut assigned = Bits::empty();
    for row in rows {
        let so_far = before.union(&assigned);
        let more = set(alloc, pool, desk, &so_far, after, row, out)?;
        assigned = assigned.union(&more);
    }
    Ok(assigned)
}

/// A jump to a label.
///
/// # Errors
///
/// Only for want of memory; the pool may then have more nodes than before.
pub fn jump(
    alloc: Global,
    pool: &mut Pool,
    desk: &Desk<'_>,
    before: &Bits,
    label: &Name,
    out: &mut Vec<Item>,
) -> Result<Bits, AllocError>
    requires desk { DeskIn (length pool.old) desk.now }
    requires items { past_items out.old.items ≤ length pool.old }
    ensures made { (P : Program) (u : Routine) (x : Option Tree) → IsDesk pool.old desk.now P u x → Plain P (graft_all (own_of P) ((jumps_of P u).goto label.now)) → IfOk result (λ r. Writes P (put_items self x) pool.old pool.new out.old.items out.new.items before.now r (graft_all (own_of P) ((jumps_of P u).goto label.now))) }
    ensures within { OnOk result (past_items out.new.items ≤ length pool.new) }
    ensures kept { Keeps pool.old pool.new }
{
    let assignments = jump_move(alloc, pool, desk.draft, desk.unit, label)?;
    set(
        alloc,
        pool,
        desk,
        before,
        &only_self(desk),
        &assignments,
        out,
    )
}

/// A return from the procedure.
///
/// # Errors
///
/// Only for want of memory; the pool may then have more nodes than before.
pub fn leave(
    alloc: Global,
    pool: &mut Pool,
    desk: &Desk<'_>,
    before: &Bits,
    out: &mut Vec<Item>,
) -> Result<Bits, AllocError>
    requires desk { DeskIn (length pool.old) desk.now }
    requires items { past_items out.old.items ≤ length pool.old }
    ensures made { (P : Program) (u : Routine) (x : Option Tree) → IsDesk pool.old desk.now P u x → (s : Span) → Plain P (graft_all (own_of P) ((jumps_of P u).return s)) → IfOk result (λ r. Writes P (put_items self x) pool.old pool.new out.old.items out.new.items before.now r (graft_all (own_of P) ((jumps_of P u).return s))) }
    ensures within { OnOk result (past_items out.new.items ≤ length pool.new) }
    ensures kept { Keeps pool.old pool.new }
{
    let assignments = return_moves(alloc, pool, desk.draft, desk.unit, desk.names)?;
    set(
        alloc,
        pool,
        desk,
        before,
        &only_self(desk),
        &assignments,
        out,
    )
}

// A call whose return goes to a label.
fn enter(
    alloc: Global,
    pool: &mut Pool,
    desk: &Desk<'_>,
    before: &Bits,
    callee: &Callee<'_>,
    arguments: &[NodeId],
    back: &Name,
    out: &mut Vec<Item>,
) -> Result<Bits, AllocError>
    requires desk { DeskIn (length pool.old) desk.now }
    requires arguments { past_numbers arguments.now ≤ length pool.old }
    requires procedure { past_procedure callee.now.procedure.now ≤ length pool.old }
    requires items { past_items out.old.items ≤ length pool.old }
    ensures made { (P : Program) (u : Routine) (x : Option Tree) → IsDesk pool.old desk.now P u x → Plain P (graft_all (own_of P) (call_of P u (procedure_routine callee.now.number (procedure_at pool.old callee.now.procedure.now)) (trees_at pool.old arguments.now) back.now)) → IfOk result (λ r. Writes P (put_items self x) pool.old pool.new out.old.items out.new.items before.now r (graft_all (own_of P) (call_of P u (procedure_routine callee.now.number (procedure_at pool.old callee.now.procedure.now)) (trees_at pool.old arguments.now) back.now))) }
    ensures within { OnOk result (past_items out.new.items ≤ length pool.new) }
    ensures kept { Keeps pool.old pool.new }
{
    let label = desk.draft.label_name(desk.unit, back);
    let rows = call_moves(alloc, pool, desk.draft, callee, arguments, label)?;
    set_all(alloc, pool, desk, before, &only_self(desk), &rows, out)
}

// The stack where these variables are assigned before.
fn stack_before(
    alloc: Global,
    pool: &mut Pool,
    desk: &Desk<'_>,
    before: &Bits,
) -> Result<NodeId, AllocError>
    ensures tree { (P : Program) (u : Routine) (x : Option Tree) → IsDesk pool.old desk.now P u x → IfOk result (λ r. at pool.new r ≡ primed (is_among (names_in (vars P) before.now)) (graft (own_of P) (name_at nowhere stack))) }
    ensures within { IfOk result (λ r. r < length pool.new) }
    ensures kept { Keeps pool.old pool.new }
{
    let name = Name::new(Vec::from_slice(alloc, b"stack")?);
    let stack = named(alloc, pool, name)?;
    let own = own_part(alloc, pool, desk, stack)?;
    let after = After {
        old: None,
        single: None,
    };
    written(alloc, pool, desk.draft.order, before, &after, own)
}

// A call that is one statement with a return.
fn enter_and_leave(
    alloc: Global,
    pool: &mut Pool,
    desk: &Desk<'_>,
    before: &Bits,
    callee: &Callee<'_>,
    arguments: &[NodeId],
    out: &mut Vec<Item>,
) -> Result<Bits, AllocError>
    requires desk { DeskIn (length pool.old) desk.now }
    requires arguments { past_numbers arguments.now ≤ length pool.old }
    requires procedure { past_procedure callee.now.procedure.now ≤ length pool.old }
    requires items { past_items out.old.items ≤ length pool.old }
    ensures made { (P : Program) (u : Routine) (x : Option Tree) → IsDesk pool.old desk.now P u x → OneOf (procedure_routine callee.now.number (procedure_at pool.old callee.now.procedure.now)) (procedure_routines P.algorithm) → Plain P (graft_all (own_of P) (pair_of P u (procedure_routine callee.now.number (procedure_at pool.old callee.now.procedure.now)) (trees_at pool.old arguments.now))) → IfOk result (λ r. Writes P (put_items self x) pool.old pool.new out.old.items out.new.items before.now r (graft_all (own_of P) (pair_of P u (procedure_routine callee.now.number (procedure_at pool.old callee.now.procedure.now)) (trees_at pool.old arguments.now)))) }
    ensures within { OnOk result (past_items out.new.items ≤ length pool.new) }
    ensures kept { Keeps pool.old pool.new }
{
    let old = stack_before(alloc, pool, desk, before)?;
    let after = After {
        old: Some(old),
        single: desk.single,
    };
    let rows = call_return_moves(
        alloc, pool, desk.draft, desk.unit, desk.names, callee, arguments,
    )?;
    set_all(alloc, pool, desk, before, &after, &rows, out)
}

// Arguments by their written names.
fn named_numbers(
    alloc: Global,
    pool: &mut Pool,
    desk: &Desk<'_>,
    arguments: &[NodeId],
) -> Result<Vec<NodeId>, AllocError>
    requires { past_numbers arguments.now ≤ length pool.old }
    ensures tree { (P : Program) (u : Routine) (x : Option Tree) → IsDesk pool.old desk.now P u x → IfOk result (λ r. trees_at pool.new r.items ≡ grafts (renames P u) (trees_at pool.old arguments.now)) }
    ensures within { IfOk result (λ r. past_numbers r.items ≤ length pool.new) }
    ensures kept { Keeps pool.old pool.new }
{
    let mut made = Vec::new(alloc);
    for argument in arguments {
        made.push(by_written_names(alloc, pool, desk, *argument)?)?;
    }
    Ok(made)
}

// The procedure of a name; none where no procedure has it.
fn procedure_named<'a>(desk: &Desk<'a>, name: &Name) -> Option<Callee<'a>>
    ensures named { MatchOption result ((ts : List Tree) (P : Program) (u : Routine) (x : Option Tree) → IsDesk ts desk.now P u x → routine_named name.now (procedure_routines P.algorithm) ≡ None) (λ c. (ts : List Tree) (P : Program) (u : Routine) (x : Option Tree) → IsDesk ts desk.now P u x → routine_named name.now (procedure_routines P.algorithm) ≡ Some (procedure_routine c.number (procedure_at ts c.procedure.now))) }
    ensures within { MatchOption result (Unit {0}) (λ c. past_procedure c.procedure.now ≤ past_algorithm desk.now.draft.now.algorithm.now) }
{
    let algorithm = desk.draft.algorithm;
    let number = desk.procedures.number(name)?;
    if number >= algorithm.procedures.len() {
        return None;
    }
    Some(Callee {
        number: algorithm.macros.len() + number,
        procedure: &algorithm.procedures[number],
    })
}

// A call of a procedure, and what it is one statement with.
fn enter_with(
    alloc: Global,
    pool: &mut Pool,
    desk: &Desk<'_>,
    before: &Bits,
    callee: &Callee<'_>,
    arguments: &[NodeId],
    follow: &Name,
    partner: &Partner<'_>,
    out: &mut Vec<Item>,
) -> Result<Bits, AllocError>
    requires desk { DeskIn (length pool.old) desk.now }
    requires arguments { past_numbers arguments.now ≤ length pool.old }
    requires procedure { past_procedure callee.now.procedure.now ≤ length pool.old }
    requires items { past_items out.old.items ≤ length pool.old }
    ensures made { (P : Program) (u : Routine) (x : Option Tree) → IsDesk pool.old desk.now P u x → OneOf (procedure_routine callee.now.number (procedure_at pool.old callee.now.procedure.now)) (procedure_routines P.algorithm) → (s : Span) (j : partner_tree) → IsPartner partner.now j → Plain P (graft_all (own_of P) (call_with P u (written_initials P) no_jump_places s (trees_at pool.old arguments.now) follow.now j (procedure_routine callee.now.number (procedure_at pool.old callee.now.procedure.now)))) → IfOk result (λ r. Writes P (put_items self x) pool.old pool.new out.old.items out.new.items before.now r (graft_all (own_of P) (call_with P u (written_initials P) no_jump_places s (trees_at pool.old arguments.now) follow.now j (procedure_routine callee.now.number (procedure_at pool.old callee.now.procedure.now))))) }
    ensures within { OnOk result (past_items out.new.items ≤ length pool.new) }
    ensures kept { Keeps pool.old pool.new }
{
    match partner {
        Partner::None => enter(alloc, pool, desk, before, callee, arguments, follow, out),
        Partner::Goto(label) => enter(alloc, pool, desk, before, callee, arguments, label, out),
        Partner::Return => enter_and_leave(alloc, pool, desk, before, callee, arguments, out),
    }
}

/// A call of a procedure; of none it can't be taken.
///
/// # Errors
///
/// Only for want of memory; the pool may then have more nodes than before.
pub fn call(
    alloc: Global,
    pool: &mut Pool,
    desk: &Desk<'_>,
    before: &Bits,
    name: &PlacedName,
    arguments: &[NodeId],
    follow: &Name,
    partner: &Partner<'_>,
    out: &mut Vec<Item>,
) -> Result<Bits, AllocError>
    requires desk { DeskIn (length pool.old) desk.now }
    requires arguments { past_numbers arguments.now ≤ length pool.old }
    requires items { past_items out.old.items ≤ length pool.old }
    ensures made { (P : Program) (u : Routine) (x : Option Tree) → IsDesk pool.old desk.now P u x → (s : Span) (j : partner_tree) → IsPartner partner.now j → Plain P (graft_all (own_of P) ((jumps_of P u).call s name.now (grafts (renames P u) (trees_at pool.old arguments.now)) follow.now j)) → IfOk result (λ r. Writes P (put_items self x) pool.old pool.new out.old.items out.new.items before.now r (graft_all (own_of P) ((jumps_of P u).call s name.now (grafts (renames P u) (trees_at pool.old arguments.now)) follow.now j))) }
    ensures within { OnOk result (past_items out.new.items ≤ length pool.new) }
    ensures kept { Keeps pool.old pool.new }
{
    let named = named_numbers(alloc, pool, desk, arguments)?;
    match procedure_named(desk, &name.name) {
        Some(callee) => {
            enter_with(
                alloc, pool, desk, before, &callee, &named, follow, partner, out,
            )
        }
        None => {
            out.push(Item::Either(Vec::new(alloc)))?;
            Ok(Bits::empty())
        }
    }
}
