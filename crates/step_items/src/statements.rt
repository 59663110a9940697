//! The items of statements in one another. More of their step may follow each list.

ghost use Rattle.std.specs.Prelude.{◌≡◌, ◌||◌, ◌∷◌, [], true, ◌<◌, ◌≤◌, List, length, Option, IfOk, OnOk};
ghost use Rattle.tla_token.specs.Signs.{is_among};
ghost use Rattle.tla_tree.specs.Tree.{Word, Tree, graft};
ghost use Rattle.tla_tree.specs.Pool.{at, Keeps};
ghost use Rattle.pcal_tree.specs.Algorithm as pure;
ghost use Rattle.pcal_tree.specs.Algorithm.{Routine};
ghost use Rattle.pcal_tree.specs.Expand.{graft_binds, graft_some, graft_all};
ghost use Rattle.pcal_tree.specs.InMemory.{binds_at, branches_at, past_bind, past_binds, past_branches, past_statements};
ghost use Rattle.pcal_tree.specs.Program.{Program};
ghost use Rattle.pcal_tree.specs.Run.{unlabelled};
ghost use Rattle.pcal_tree.specs.Variables.{vars};
ghost use Rattle.module_tree.specs.Formulas.{self};
ghost use Rattle.module_tree.specs.Module.{Items, item as one_item, no_items};
ghost use Rattle.module_write.specs.InMemory.{item_at, items_at, branches_at as lists_at, past_item, past_items, past_branches as past_lists};
ghost use Rattle.name_bits.specs.NamesIn.{names_in};
ghost use Rattle.action_builder.specs.Settled.{jumps, jumps_some};
ghost use Rattle.action_builder.specs.Written.{branch_items, nested_items};
ghost use Rattle.action_builder.specs.WrittenNames.{renames};
ghost use Rattle.right_sides.specs.After.{put_items};
ghost use Rattle.step_items.specs.Branching.{to_end, own_binds, with_items, Side, Rows, rows_end, rows_assign, past_row, past_rows, PlainBranches, FitBranches, closed_lists};
ghost use Rattle.step_items.specs.Desks.{DeskIn, IsDesk};
ghost use Rattle.step_items.specs.Writing.{jumps_of, own_of, named, ends_first, branch_part, either_part, with_part, to_write, to_write_first, to_finish, Fits, Plain, Writes};

use crate::desk::{Around, Desk, Reach};
use crate::expressions::expression;
use crate::moves::jump;
use crate::partner::follow;
use crate::simple::simple;
use module_write::module::Item;
use name_bits::{Bits, Order};
use pcal_tree::algorithm::{Bind, Stmt};
use right_sides::items::{close, fill};
use std::alloc::{AllocError, Global};
use tla_pool::Pool;
use tla_token::Place;
use tla_tree::NodeId;

// ---- lists

/// The items of a list. It calls itself as deep as statements are in statements.
///
/// # Errors
///
/// Only for want of memory; the pool may then have more nodes than before.
#[cycle(statements)]
pub fn list(
    alloc: Global,
    pool: &mut Pool,
    desk: &Desk<'_>,
    around: &Around<'_>,
    stmts: &[Stmt],
    out: &mut Vec<Item>,
) -> Result<Reach, AllocError>
    requires there { past_statements stmts.now ≤ length pool.old }
    requires desk { DeskIn (length pool.old) desk.now }
    requires items { past_items out.old.items ≤ length pool.old }
    ensures made { (P : Program) (u : Routine) (x : Option Tree) → IsDesk pool.old desk.now P u x → Fits P (to_write P u around.now.here.now around.now.exit.now (named P u pool.old stmts.now)) (named P u pool.old stmts.now) → IfOk result (λ r. Writes P (put_items self x) pool.old pool.new out.old.items out.new.items around.now.before.now r.assigned (to_write P u around.now.here.now around.now.exit.now (named P u pool.old stmts.now)) × (r.ends ≡ jumps (named P u pool.old stmts.now))) }
    ensures within { OnOk result (past_items out.new.items ≤ length pool.new) }
    ensures kept { Keeps pool.old pool.new }
{
    let mut here = around.here;
    let mut assigned = Bits::empty();
    for i in 0..stmts.len() {
        let before = around.before.union(&assigned);
        let place = Around {
            here,
            exit: around.exit,
            before: &before,
        };
        let reach = stmt(alloc, pool, desk, &place, &stmts[i], &stmts[i + 1..], out)?;
        assigned = assigned.union(&reach.assigned);
        if reach.ends {
            return Ok(Reach {
                assigned,
                ends: true,
            });
        }
        here = desk.unlabelled;
    }
    Ok(Reach {
        assigned,
        ends: false,
    })
}

// Behind a list that doesn't end its step: the jump to the exit. What both assign.
fn finish(
    alloc: Global,
    pool: &mut Pool,
    desk: &Desk<'_>,
    around: &Around<'_>,
    reach: &Reach,
    out: &mut Vec<Item>,
) -> Result<Bits, AllocError>
    requires desk { DeskIn (length pool.old) desk.now }
    requires items { past_items out.old.items ≤ length pool.old }
    ensures made { (P : Program) (u : Routine) (x : Option Tree) → IsDesk pool.old desk.now P u x → (ts : List Tree) (start : List Item) (ss : pure.Statements) → Writes P (put_items self x) ts pool.old start out.old.items around.now.before.now reach.now.assigned (to_write P u around.now.here.now around.now.exit.now ss) → reach.now.ends ≡ jumps ss → Plain P (to_finish P u around.now.here.now around.now.exit.now ss) → IfOk result (λ r. Writes P (put_items self x) ts pool.new start out.new.items around.now.before.now r (to_finish P u around.now.here.now around.now.exit.now ss)) }
    ensures within { OnOk result (past_items out.new.items ≤ length pool.new) }
    ensures kept { Keeps pool.old pool.new }
{
    if reach.ends {
        return Ok(reach.assigned);
    }
    let before = around.before.union(&reach.assigned);
    let more = jump(alloc, pool, desk, &before, around.exit, out)?;
    Ok(reach.assigned.union(&more))
}

/// The items of a list behind which the step goes on at the exit, and what it assigns.
///
/// # Errors
///
/// Only for want of memory; the pool may then have more nodes than before.
#[cycle(statements)]
pub fn finished(
    alloc: Global,
    pool: &mut Pool,
    desk: &Desk<'_>,
    around: &Around<'_>,
    stmts: &[Stmt],
    out: &mut Vec<Item>,
) -> Result<Bits, AllocError>
    requires there { past_statements stmts.now ≤ length pool.old }
    requires desk { DeskIn (length pool.old) desk.now }
    requires items { past_items out.old.items ≤ length pool.old }
    ensures made { (P : Program) (u : Routine) (x : Option Tree) → IsDesk pool.old desk.now P u x → Fits P (to_finish P u around.now.here.now around.now.exit.now (named P u pool.old stmts.now)) (named P u pool.old stmts.now) → IfOk result (λ r. Writes P (put_items self x) pool.old pool.new out.old.items out.new.items around.now.before.now r (to_finish P u around.now.here.now around.now.exit.now (named P u pool.old stmts.now))) }
    ensures within { OnOk result (past_items out.new.items ≤ length pool.new) }
    ensures kept { Keeps pool.old pool.new }
{
    let reach = list(alloc, pool, desk, around, stmts, out)?;
    finish(alloc, pool, desk, around, &reach, out)
}

// ---- statements

// The items of a statement or label before these.
#[cycle(statements)]
fn stmt(
    alloc: Global,
    pool: &mut Pool,
    desk: &Desk<'_>,
    around: &Around<'_>,
    one: &Stmt,
    rest: &[Stmt],
    out: &mut Vec<Item>,
) -> Result<Reach, AllocError>
    requires there { past_statements (one.now ∷ rest.now) ≤ length pool.old }
    requires desk { DeskIn (length pool.old) desk.now }
    requires items { past_items out.old.items ≤ length pool.old }
    ensures made { (P : Program) (u : Routine) (x : Option Tree) → IsDesk pool.old desk.now P u x → Fits P (to_write_first P u around.now.here.now around.now.exit.now (named P u pool.old (one.now ∷ rest.now))) (named P u pool.old (one.now ∷ rest.now)) → IfOk result (λ r. Writes P (put_items self x) pool.old pool.new out.old.items out.new.items around.now.before.now r.assigned (to_write_first P u around.now.here.now around.now.exit.now (named P u pool.old (one.now ∷ rest.now))) × (r.ends ≡ ends_first (named P u pool.old (one.now ∷ rest.now)))) }
    ensures within { OnOk result (past_items out.new.items ≤ length pool.new) }
    ensures kept { Keeps pool.old pool.new }
{
    let inner = Around {
        here: desk.unlabelled,
        exit: follow(rest, around.exit, desk.unlabelled),
        before: around.before,
    };
    match one {
        Stmt::Label(label, _) => {
            let assigned = jump(alloc, pool, desk, around.before, &label.name, out)?;
            Ok(Reach {
                assigned,
                ends: true,
            })
        }
        Stmt::Simple(span, one) => simple(alloc, pool, desk, around, span, one, rest, out),
        Stmt::If(span, e, then, otherwise) => {
            choice(
                alloc, pool, desk, &inner, span.first, *e, then, otherwise, out,
            )
        }
        Stmt::Either(span, branches) => either(
            alloc, pool, desk, &inner, span.first, branches, out,
        ),
        Stmt::With(span, binds, body) => with(
            alloc, pool, desk, &inner, span.first, binds, body, out,
        ),
        Stmt::While(span, e, body) => turn(
            alloc, pool, desk, around, span.first, *e, body, rest, out,
        ),
    }
}

// ---- if

// Two lists of which one is taken: how far they got.
#[derive(Clone, Copy)]
struct Sides {
    first: Reach,
    second: Reach,
}

// The items of both branches.
#[cycle(statements)]
fn open_sides(
    alloc: Global,
    pool: &mut Pool,
    desk: &Desk<'_>,
    inner: &Around<'_>,
    then: &[Stmt],
    otherwise: &[Stmt],
    yes: &mut Vec<Item>,
    no: &mut Vec<Item>,
) -> Result<Sides, AllocError>
    requires then { past_statements then.now ≤ length pool.old }
    requires otherwise { past_statements otherwise.now ≤ length pool.old }
    requires desk { DeskIn (length pool.old) desk.now }
    requires yes { yes.old.items ≡ [] }
    requires no { no.old.items ≡ [] }
    ensures first { (P : Program) (u : Routine) (x : Option Tree) → IsDesk pool.old desk.now P u x → Fits P (to_write P u inner.now.here.now inner.now.exit.now (named P u pool.old then.now)) (named P u pool.old then.now) → IfOk result (λ r. Side P x pool.new yes.new.items inner.now.before.now r.first (to_write P u inner.now.here.now inner.now.exit.now (named P u pool.old then.now)) (jumps (named P u pool.old then.now))) }
    ensures second { (P : Program) (u : Routine) (x : Option Tree) → IsDesk pool.old desk.now P u x → Fits P (to_write P u inner.now.here.now inner.now.exit.now (named P u pool.old otherwise.now)) (named P u pool.old otherwise.now) → IfOk result (λ r. Side P x pool.new no.new.items inner.now.before.now r.second (to_write P u inner.now.here.now inner.now.exit.now (named P u pool.old otherwise.now)) (jumps (named P u pool.old otherwise.now))) }
    ensures yes { OnOk result (past_items yes.new.items ≤ length pool.new) }
    ensures no { OnOk result (past_items no.new.items ≤ length pool.new) }
    ensures kept { Keeps pool.old pool.new }
{
    let first = list(alloc, pool, desk, inner, then, yes)?;
    let second = list(alloc, pool, desk, inner, otherwise, no)?;
    Ok(Sides { first, second })
}

// If one branch ends its step, so does the other.
fn finish_sides(
    alloc: Global,
    pool: &mut Pool,
    desk: &Desk<'_>,
    inner: &Around<'_>,
    sides: &Sides,
    yes: &mut Vec<Item>,
    no: &mut Vec<Item>,
) -> Result<Sides, AllocError>
    requires desk { DeskIn (length pool.old) desk.now }
    requires yes { past_items yes.old.items ≤ length pool.old }
    requires no { past_items no.old.items ≤ length pool.old }
    ensures made { (P : Program) (u : Routine) (x : Option Tree) → IsDesk pool.old desk.now P u x → (a b : pure.Statements) → Side P x pool.old yes.old.items inner.now.before.now sides.now.first (to_write P u inner.now.here.now inner.now.exit.now a) (jumps a) → Side P x pool.old no.old.items inner.now.before.now sides.now.second (to_write P u inner.now.here.now inner.now.exit.now b) (jumps b) → Plain P (to_end P u (jumps a || jumps b) inner.now.here.now inner.now.exit.now a) → Plain P (to_end P u (jumps a || jumps b) inner.now.here.now inner.now.exit.now b) → IfOk result (λ r. Side P x pool.new yes.new.items inner.now.before.now r.first (to_end P u (jumps a || jumps b) inner.now.here.now inner.now.exit.now a) (jumps a || jumps b) × Side P x pool.new no.new.items inner.now.before.now r.second (to_end P u (jumps a || jumps b) inner.now.here.now inner.now.exit.now b) (jumps a || jumps b)) }
    ensures yes { OnOk result (past_items yes.new.items ≤ length pool.new) }
    ensures no { OnOk result (past_items no.new.items ≤ length pool.new) }
    ensures kept { Keeps pool.old pool.new }
{
    let ends = sides.first.ends || sides.second.ends;
    if !ends {
        return Ok(*sides);
    }
    let first = finish(alloc, pool, desk, inner, &sides.first, yes)?;
    let second = finish(alloc, pool, desk, inner, &sides.second, no)?;
    Ok(Sides {
        first: Reach {
            assigned: first,
            ends,
        },
        second: Reach {
            assigned: second,
            ends,
        },
    })
}

// Each branch leaves unchanged what the other assigns.
fn close_sides(
    alloc: Global,
    pool: &mut Pool,
    desk: &Desk<'_>,
    place: Place,
    sides: &Sides,
    yes: &mut Vec<Item>,
    no: &mut Vec<Item>,
) -> Result<(), AllocError>
    requires yes { past_items yes.old.items ≤ length pool.old }
    requires no { past_items no.old.items ≤ length pool.old }
    ensures first { OnOk result (items_at pool.new yes.new.items ≡ branch_items desk.now.draft.now.order.now place (items_at pool.old yes.old.items) (names_in desk.now.draft.now.order.now sides.now.second.assigned) (names_in desk.now.draft.now.order.now sides.now.first.assigned)) }
    ensures second { OnOk result (items_at pool.new no.new.items ≡ branch_items desk.now.draft.now.order.now place (items_at pool.old no.old.items) (names_in desk.now.draft.now.order.now sides.now.first.assigned) (names_in desk.now.draft.now.order.now sides.now.second.assigned)) }
    ensures yes { OnOk result (past_items yes.new.items ≤ length pool.new) }
    ensures no { OnOk result (past_items no.new.items ≤ length pool.new) }
    ensures kept { Keeps pool.old pool.new }
{
    let order = desk.draft.order;
    let first = &sides.first.assigned;
    let second = &sides.second.assigned;
    close(alloc, pool, order, place, second, first, yes)?;
    close(alloc, pool, order, place, first, second, no)
}

// The item of an `if`.
#[cycle(statements)]
fn choice(
    alloc: Global,
    pool: &mut Pool,
    desk: &Desk<'_>,
    inner: &Around<'_>,
    place: Place,
    e: NodeId,
    then: &[Stmt],
    otherwise: &[Stmt],
    out: &mut Vec<Item>,
) -> Result<Reach, AllocError>
    requires below { e < length pool.old }
    requires then { past_statements then.now ≤ length pool.old }
    requires otherwise { past_statements otherwise.now ≤ length pool.old }
    requires desk { DeskIn (length pool.old) desk.now }
    requires items { past_items out.old.items ≤ length pool.old }
    ensures made { (P : Program) (u : Routine) (x : Option Tree) → IsDesk pool.old desk.now P u x → inner.now.here.now ≡ unlabelled → (s : pure.Span) → s.first ≡ place → (let t = graft (renames P u) (at pool.old e) in let a = named P u pool.old then.now in let b = named P u pool.old otherwise.now in let S = graft_all (own_of P) (branch_part (jumps_of P u) inner.now.exit.now s t a b) in Fits P S (pure.then s (pure.branch t a b) pure.done) → IfOk result (λ r. Writes P (put_items self x) pool.old pool.new out.old.items out.new.items inner.now.before.now r.assigned S × (r.ends ≡ (jumps a || jumps b)))) }
    ensures within { OnOk result (past_items out.new.items ≤ length pool.new) }
    ensures kept { Keeps pool.old pool.new }
{
    let test = expression(alloc, pool, desk, inner.before, e)?;
    let mut yes = Vec::new(alloc);
    let mut no = Vec::new(alloc);
    let open = open_sides(alloc, pool, desk, inner, then, otherwise, &mut yes, &mut no)?;
    let both = finish_sides(alloc, pool, desk, inner, &open, &mut yes, &mut no)?;
    close_sides(alloc, pool, desk, place, &both, &mut yes, &mut no)?;
    out.push(Item::Choice(test, yes, no))?;
    Ok(Reach {
        assigned: both.first.assigned.union(&both.second.assigned),
        ends: both.first.ends,
    })
}

// ---- while

// The items of a loop's body and of what follows it.
#[cycle(statements)]
fn turn_sides(
    alloc: Global,
    pool: &mut Pool,
    desk: &Desk<'_>,
    around: &Around<'_>,
    body: &[Stmt],
    rest: &[Stmt],
    yes: &mut Vec<Item>,
    no: &mut Vec<Item>,
) -> Result<Sides, AllocError>
    requires body { past_statements body.now ≤ length pool.old }
    requires rest { past_statements rest.now ≤ length pool.old }
    requires desk { DeskIn (length pool.old) desk.now }
    requires yes { yes.old.items ≡ [] }
    requires no { no.old.items ≡ [] }
    ensures first { (P : Program) (u : Routine) (x : Option Tree) → IsDesk pool.old desk.now P u x → Fits P (to_finish P u unlabelled around.now.here.now (named P u pool.old body.now)) (named P u pool.old body.now) → IfOk result (λ r. Side P x pool.new yes.new.items around.now.before.now r.first (to_finish P u unlabelled around.now.here.now (named P u pool.old body.now)) true) }
    ensures second { (P : Program) (u : Routine) (x : Option Tree) → IsDesk pool.old desk.now P u x → Fits P (to_finish P u unlabelled around.now.exit.now (named P u pool.old rest.now)) (named P u pool.old rest.now) → IfOk result (λ r. Side P x pool.new no.new.items around.now.before.now r.second (to_finish P u unlabelled around.now.exit.now (named P u pool.old rest.now)) true) }
    ensures yes { OnOk result (past_items yes.new.items ≤ length pool.new) }
    ensures no { OnOk result (past_items no.new.items ≤ length pool.new) }
    ensures kept { Keeps pool.old pool.new }
{
    let again = Around {
        here: desk.unlabelled,
        exit: around.here,
        before: around.before,
    };
    let after = Around {
        here: desk.unlabelled,
        exit: around.exit,
        before: around.before,
    };
    let first = finished(alloc, pool, desk, &again, body, yes)?;
    let second = finished(alloc, pool, desk, &after, rest, no)?;
    Ok(Sides {
        first: Reach {
            assigned: first,
            ends: true,
        },
        second: Reach {
            assigned: second,
            ends: true,
        },
    })
}

// The item of a loop: another turn, or what follows it.
#[cycle(statements)]
fn turn(
    alloc: Global,
    pool: &mut Pool,
    desk: &Desk<'_>,
    around: &Around<'_>,
    place: Place,
    e: NodeId,
    body: &[Stmt],
    rest: &[Stmt],
    out: &mut Vec<Item>,
) -> Result<Reach, AllocError>
    requires below { e < length pool.old }
    requires body { past_statements body.now ≤ length pool.old }
    requires rest { past_statements rest.now ≤ length pool.old }
    requires desk { DeskIn (length pool.old) desk.now }
    requires items { past_items out.old.items ≤ length pool.old }
    ensures made { (P : Program) (u : Routine) (x : Option Tree) → IsDesk pool.old desk.now P u x → (s : pure.Span) → s.first ≡ place → (let ss = pure.then s (pure.while (graft (renames P u) (at pool.old e)) (named P u pool.old body.now)) (named P u pool.old rest.now) in let S = to_write_first P u around.now.here.now around.now.exit.now ss in Fits P S ss → IfOk result (λ r. Writes P (put_items self x) pool.old pool.new out.old.items out.new.items around.now.before.now r.assigned S × (r.ends ≡ true))) }
    ensures within { OnOk result (past_items out.new.items ≤ length pool.new) }
    ensures kept { Keeps pool.old pool.new }
{
    let test = expression(alloc, pool, desk, around.before, e)?;
    let mut yes = Vec::new(alloc);
    let mut no = Vec::new(alloc);
    let both = turn_sides(alloc, pool, desk, around, body, rest, &mut yes, &mut no)?;
    close_sides(alloc, pool, desk, place, &both, &mut yes, &mut no)?;
    out.push(Item::Choice(test, yes, no))?;
    Ok(Reach {
        assigned: both.first.assigned.union(&both.second.assigned),
        ends: true,
    })
}

// ---- either

// A branch: its items, and how far they got.
#[derive(Drop)]
struct Row {
    items: Vec<Item>,
    reach: Reach,
}

// The items of each branch.
#[cycle(statements)]
fn open_rows(
    alloc: Global,
    pool: &mut Pool,
    desk: &Desk<'_>,
    inner: &Around<'_>,
    branches: &[Vec<Stmt>],
) -> Result<Vec<Row>, AllocError>
    requires there { past_branches branches.now ≤ length pool.old }
    requires desk { DeskIn (length pool.old) desk.now }
    ensures made { (P : Program) (u : Routine) (x : Option Tree) → IsDesk pool.old desk.now P u x → (let bs = graft_some (renames P u) (branches_at pool.old branches.now) in FitBranches P (to_write P u inner.now.here.now inner.now.exit.now) bs → IfOk result (λ r. Rows P x pool.new inner.now.before.now (to_write P u inner.now.here.now inner.now.exit.now) jumps r.items bs)) }
    ensures within { IfOk result (λ r. past_rows r.items ≤ length pool.new) }
    ensures kept { Keeps pool.old pool.new }
{
    let mut rows = Vec::new(alloc);
    for i in 0..branches.len() {
        let mut items = Vec::new(alloc);
        let reach = list(alloc, pool, desk, inner, &branches[i], &mut items)?;
        rows.push(Row { items, reach })?;
    }
    Ok(rows)
}

// Whether a branch ends its step.
fn some_end(rows: &[Row]) -> bool
    ensures { result ≡ rows_end rows.now }
{
    rows.iter().any(|row| row.reach.ends)
}

// Where it or another ends its step: this one too.
fn finish_row(
    alloc: Global,
    pool: &mut Pool,
    desk: &Desk<'_>,
    inner: &Around<'_>,
    ends: bool,
    row: Row,
) -> Result<Row, AllocError>
    requires desk { DeskIn (length pool.old) desk.now }
    requires row { past_row row ≤ length pool.old }
    ensures made { (P : Program) (u : Routine) (x : Option Tree) → IsDesk pool.old desk.now P u x → (b : pure.Statements) → Side P x pool.old row.items.items inner.now.before.now row.reach (to_write P u inner.now.here.now inner.now.exit.now b) (jumps b) → (jumps b ≡ true → ends ≡ true) → Plain P (to_end P u ends inner.now.here.now inner.now.exit.now b) → IfOk result (λ r. Side P x pool.new r.items.items inner.now.before.now r.reach (to_end P u ends inner.now.here.now inner.now.exit.now b) ends) }
    ensures within { IfOk result (λ r. past_row r ≤ length pool.new) }
    ensures kept { Keeps pool.old pool.new }
{
    let Row { items, reach } = row;
    if !ends {
        return Ok(Row { items, reach });
    }
    let mut list = items;
    let assigned = finish(alloc, pool, desk, inner, &reach, &mut list)?;
    Ok(Row {
        items: list,
        reach: Reach { assigned, ends },
    })
}

// Where one ends its step, all do.
fn finish_rows(
    alloc: Global,
    pool: &mut Pool,
    desk: &Desk<'_>,
    inner: &Around<'_>,
    ends: bool,
    rows: Vec<Row>,
) -> Result<Vec<Row>, AllocError>
    requires desk { DeskIn (length pool.old) desk.now }
    requires rows { past_rows rows.items ≤ length pool.old }
    ensures made { (P : Program) (u : Routine) (x : Option Tree) → IsDesk pool.old desk.now P u x → (bs : pure.Branches) → Rows P x pool.old inner.now.before.now (to_write P u inner.now.here.now inner.now.exit.now) jumps rows.items bs → ends ≡ jumps_some bs → PlainBranches P (to_end P u ends inner.now.here.now inner.now.exit.now) bs → IfOk result (λ r. Rows P x pool.new inner.now.before.now (to_end P u ends inner.now.here.now inner.now.exit.now) (λ b. ends) r.items bs) }
    ensures within { IfOk result (λ r. past_rows r.items ≤ length pool.new) }
    ensures kept { Keeps pool.old pool.new }
{
    let mut done = Vec::new(alloc);
    for row in rows {
        done.push(finish_row(alloc, pool, desk, inner, ends, row)?)?;
    }
    Ok(done)
}

// What all of them assign.
fn all_assigned(rows: &[Row]) -> Bits
    ensures { (vs : List Word) (y : Word) → is_among (names_in vs result) y ≡ rows_assign vs rows.now y }
{
    let mut all = Bits::empty();
    for row in rows {
        all = all.union(&row.reach.assigned);
    }
    all
}

// Each branch leaves unchanged what others assign.
fn close_rows(
    alloc: Global,
    pool: &mut Pool,
    order: &Order,
    place: Place,
    all: &Bits,
    rows: Vec<Row>,
) -> Result<Vec<Vec<Item>>, AllocError>
    requires rows { past_rows rows.items ≤ length pool.old }
    ensures made { IfOk result (λ r. lists_at pool.new r.items ≡ closed_lists order.now place (names_in order.now all.now) pool.old rows.items) }
    ensures within { IfOk result (λ r. past_lists r.items ≤ length pool.new) }
    ensures kept { Keeps pool.old pool.new }
{
    let mut branches = Vec::new(alloc);
    for row in rows {
        let Row { items, reach } = row;
        let mut list = items;
        close(alloc, pool, order, place, all, &reach.assigned, &mut list)?;
        branches.push(list)?;
    }
    Ok(branches)
}

// The item of an `either`.
#[cycle(statements)]
fn either(
    alloc: Global,
    pool: &mut Pool,
    desk: &Desk<'_>,
    inner: &Around<'_>,
    place: Place,
    branches: &[Vec<Stmt>],
    out: &mut Vec<Item>,
) -> Result<Reach, AllocError>
    requires there { past_branches branches.now ≤ length pool.old }
    requires desk { DeskIn (length pool.old) desk.now }
    requires items { past_items out.old.items ≤ length pool.old }
    ensures made { (P : Program) (u : Routine) (x : Option Tree) → IsDesk pool.old desk.now P u x → inner.now.here.now ≡ unlabelled → (s : pure.Span) → s.first ≡ place → (let bs = graft_some (renames P u) (branches_at pool.old branches.now) in let S = graft_all (own_of P) (either_part (jumps_of P u) inner.now.exit.now s bs) in Fits P S (pure.then s (pure.either bs) pure.done) → IfOk result (λ r. Writes P (put_items self x) pool.old pool.new out.old.items out.new.items inner.now.before.now r.assigned S × (r.ends ≡ jumps_some bs))) }
    ensures within { OnOk result (past_items out.new.items ≤ length pool.new) }
    ensures kept { Keeps pool.old pool.new }
{
    let open = open_rows(alloc, pool, desk, inner, branches)?;
    let ends = some_end(&open);
    let done = finish_rows(alloc, pool, desk, inner, ends, open)?;
    let assigned = all_assigned(&done);
    let lists = close_rows(alloc, pool, desk.draft.order, place, &assigned, done)?;
    out.push(Item::Either(lists))?;
    Ok(Reach { assigned, ends })
}

// ---- with

// The item of a bind round the items of what follows it.
fn bound(
    alloc: Global,
    pool: &mut Pool,
    desk: &Desk<'_>,
    before: &Bits,
    bind: &Bind,
    items: Vec<Item>,
) -> Result<Item, AllocError>
    requires bind { past_bind bind.now ≤ length pool.old }
    requires desk { DeskIn (length pool.old) desk.now }
    requires items { past_items items.items ≤ length pool.old }
    ensures made { (P : Program) (u : Routine) (x : Option Tree) → IsDesk pool.old desk.now P u x → (b : Items) → items_at pool.old items.items ≡ put_items self x b → IfOk result (λ r. one_item (item_at pool.new r) no_items ≡ put_items self x (nested_items (is_among (names_in (vars P) before.now)) (own_binds P u pool.old (bind.now ∷ [])) b)) }
    ensures within { IfOk result (λ r. past_item r ≤ length pool.new) }
    ensures kept { Keeps pool.old pool.new }
{
    match bind {
        Bind::Among(name, e) => {
            let set = expression(alloc, pool, desk, before, *e)?;
            Ok(Item::Exists(name.name.copied()?, set, items))
        }
        Bind::Is(name, e) => {
            let value = expression(alloc, pool, desk, before, *e)?;
            Ok(Item::Local(name.name.copied()?, value, items))
        }
    }
}

// The items of binds, each round those after it. It calls itself once for each bind.
fn nested(
    alloc: Global,
    pool: &mut Pool,
    desk: &Desk<'_>,
    before: &Bits,
    binds: &[Bind],
    items: Vec<Item>,
) -> Result<Vec<Item>, AllocError>
    requires binds { past_binds binds.now ≤ length pool.old }
    requires desk { DeskIn (length pool.old) desk.now }
    requires items { past_items items.items ≤ length pool.old }
    ensures made { (P : Program) (u : Routine) (x : Option Tree) → IsDesk pool.old desk.now P u x → (b : Items) → items_at pool.old items.items ≡ put_items self x b → IfOk result (λ r. items_at pool.new r.items ≡ put_items self x (nested_items (is_among (names_in (vars P) before.now)) (own_binds P u pool.old binds.now) b)) }
    ensures within { IfOk result (λ r. past_items r.items ≤ length pool.new) }
    ensures kept { Keeps pool.old pool.new }
{
    if binds.len() == 0 {
        return Ok(items);
    }
    let inner = nested(alloc, pool, desk, before, &binds[1..], items)?;
    let one = bound(alloc, pool, desk, before, &binds[0], inner)?;
    let mut made = Vec::new(alloc);
    made.push(one)?;
    Ok(made)
}

// The item of binds round these items; without one, of a single branch.
fn around_all(
    alloc: Global,
    pool: &mut Pool,
    desk: &Desk<'_>,
    before: &Bits,
    binds: &[Bind],
    items: Vec<Item>,
) -> Result<Item, AllocError>
    requires binds { past_binds binds.now ≤ length pool.old }
    requires desk { DeskIn (length pool.old) desk.now }
    requires items { past_items items.items ≤ length pool.old }
    ensures made { (P : Program) (u : Routine) (x : Option Tree) → IsDesk pool.old desk.now P u x → (b : Items) → items_at pool.old items.items ≡ put_items self x b → IfOk result (λ r. one_item (item_at pool.new r) no_items ≡ put_items self x (with_items (is_among (names_in (vars P) before.now)) (own_binds P u pool.old binds.now) b)) }
    ensures within { IfOk result (λ r. past_item r ≤ length pool.new) }
    ensures kept { Keeps pool.old pool.new }
{
    if binds.len() == 0 {
        let mut lists = Vec::new(alloc);
        lists.push(items)?;
        return Ok(Item::Either(lists));
    }
    let inner = nested(alloc, pool, desk, before, &binds[1..], items)?;
    bound(alloc, pool, desk, before, &binds[0], inner)
}

// The item of a `with`.
#[cycle(statements)]
fn with(
    alloc: Global,
    pool: &mut Pool,
    desk: &Desk<'_>,
    inner: &Around<'_>,
    place: Place,
    binds: &[Bind],
    body: &[Stmt],
    out: &mut Vec<Item>,
) -> Result<Reach, AllocError>
    requires binds { past_binds binds.now ≤ length pool.old }
    requires body { past_statements body.now ≤ length pool.old }
    requires desk { DeskIn (length pool.old) desk.now }
    requires items { past_items out.old.items ≤ length pool.old }
    ensures made { (P : Program) (u : Routine) (x : Option Tree) → IsDesk pool.old desk.now P u x → inner.now.here.now ≡ unlabelled → (s : pure.Span) → s.first ≡ place → (let bs = graft_binds (renames P u) (binds_at pool.old binds.now) in let b = named P u pool.old body.now in let S = graft_all (own_of P) (with_part (jumps_of P u) inner.now.exit.now s bs b) in Fits P S (pure.then s (pure.with bs b) pure.done) → IfOk result (λ r. Writes P (put_items self x) pool.old pool.new out.old.items out.new.items inner.now.before.now r.assigned S × (r.ends ≡ jumps b))) }
    ensures within { OnOk result (past_items out.new.items ≤ length pool.new) }
    ensures kept { Keeps pool.old pool.new }
{
    let mut items = Vec::new(alloc);
    let reach = list(alloc, pool, desk, inner, body, &mut items)?;
    fill(alloc, pool, place, &mut items)?;
    out.push(around_all(alloc, pool, desk, inner.before, binds, items)?)?;
    Ok(reach)
}
