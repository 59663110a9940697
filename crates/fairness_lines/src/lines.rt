//! The formulas of fairness in Spec ("Specifying Systems", section 8.9; "A PlusCal User's Manual", section 3.7).

ghost use Rattle.std.specs.Prelude.{◌≡◌, ◌∷◌, ◌++◌, ◌<◌, ◌≤◌, ℕ, [], List, length, map, codes, cond, nat_eq, Option, Some, None, IfOk, OnOk};
ghost use Rattle.std.specs.Option.{option_map};
ghost use Rattle.tla_tree.specs.Tree.{Word, Tree};
ghost use Rattle.tla_tree.specs.Pool.{at as tree_at, AllBelow, Keeps};
ghost use Rattle.module_tree.specs.Module as pure;
ghost use Rattle.module_tree.specs.Formulas.{self as self_word, named as named_tree, quoted as quoted_tree};
ghost use Rattle.pcal_tree.specs.InMemory.{statements_at, past_algorithm};
ghost use Rattle.pcal_tree.specs.Program.{Program};
ghost use Rattle.written_names.specs.Units.{naming_of};
ghost use Rattle.module_write.specs.InMemory.{call_at, over_at, fairness_at, CallIn, OverIn, MaybeIn, FairnessIn, AllFairnessIn};
ghost use Rattle.fairness.specs.FairnessLines.{identifier_of, over_of, guard_of, fairness_lines};
ghost use Rattle.draft.specs.Drafts.{IsDraft};
ghost use Rattle.marked_labels.specs.declared.labels.Wanted.TheVariants.{LeftOut};
ghost use Rattle.marked_labels.specs.Wanted.{labels_of};
ghost use Rattle.fairness_lines.specs.DemandsAt.{takers_at, asked_at, all_asked, DemandIn, AllDemandsIn};
ghost use Rattle.fairness_lines.specs.LinesOf.{call_of, position_of, routine_line as routine_line_of, label_line as label_line_of, next_line as next_line_of, line_for};

use crate::demands::{Demand, Owner, add_demands};
use draft::Draft;
use marked_labels::labels::{Wanted, statements};
use module_write::formulas::{at, is_in, named, quoted, set};
use module_write::module::{Call, Fairness};
use pcal_tree::algorithm::Stmt;
use std::alloc::{AllocError, Global};
use tla_pool::Pool;
use tla_tree::{Name, NameList, NodeId, Text};

// The name of these bytes.
fn word(alloc: Global, bytes: &[u8]) -> Result<Name, AllocError>
    ensures { IfOk result (λ x. x ≡ bytes.now) }
{
    Ok(Name::new(Vec::from_slice(alloc, bytes)?))
}

// `self`, or the expression of a single process.
fn identifier(alloc: Global, pool: &mut Pool, owner: Owner) -> Result<NodeId, AllocError>
    requires { owner.identity < length pool.old }
    ensures tree { IfOk result (λ id. tree_at pool.new id ≡ identifier_of (takers_at pool.old owner)) }
    ensures within { IfOk result (λ id. id < length pool.new) }
    ensures kept { Keeps pool.old pool.new }
{
    if owner.several {
        named(alloc, pool, word(alloc, b"self")?)
    } else {
        Ok(owner.identity)
    }
}

// What is before a formula, for a process set.
fn over(alloc: Global, owner: Owner) -> Result<Option<(Name, NodeId)>, AllocError>
    ensures over { IfOk result (λ r. (ts : List Tree) → over_at ts r ≡ over_of (takers_at ts owner)) }
    ensures within { IfOk result (λ r. (m : ℕ) → owner.identity < m → OverIn m r) }
{
    if owner.several {
        Ok(Some((word(alloc, b"self")?, owner.identity)))
    } else {
        Ok(None)
    }
}

// The call of the action of this name, of the process's own routine or of a procedure with this number.
fn call(
    alloc: Global,
    pool: &mut Pool,
    owner: Owner,
    unit: usize,
    name: Name,
) -> Result<Call, AllocError>
    requires { owner.identity < length pool.old }
    ensures call { IfOk result (λ r. call_at pool.new r ≡ call_of (takers_at pool.old owner) owner.number unit name) }
    ensures within { IfOk result (λ r. CallIn (length pool.new) r) }
    ensures kept { Keeps pool.old pool.new }
{
    if owner.number == unit && !owner.several {
        return Ok(Call::Bare(name));
    }
    let who = identifier(alloc, pool, owner)?;
    Ok(Call::With(name, who))
}

// A word as a string.
fn quoted_name(alloc: Global, pool: &mut Pool, name: &Name) -> Result<NodeId, AllocError>
    ensures tree { IfOk result (λ id. tree_at pool.new id ≡ quoted_tree name.now) }
    ensures within { IfOk result (λ id. id < length pool.new) }
    ensures kept { Keeps pool.old pool.new }
{
    let text = Text::new(Vec::from_slice(alloc, name.bytes())?);
    quoted(alloc, pool, text)
}

// Words as strings.
fn quoted_names(alloc: Global, pool: &mut Pool, names: &[Name]) -> Result<Vec<NodeId>, AllocError>
    ensures trees { IfOk result (λ r. map (tree_at pool.new) r.items ≡ map quoted_tree names.now) }
    ensures below { IfOk result (λ r. AllBelow (length pool.new) r.items) }
    ensures kept { Keeps pool.old pool.new }
{
    let mut strings = Vec::new(alloc);
    for name in names {
        strings.push(quoted_name(alloc, pool, name)?)?;
    }
    Ok(strings)
}

// `pc` of a process.
fn position(alloc: Global, pool: &mut Pool, owner: Owner) -> Result<NodeId, AllocError>
    requires { owner.identity < length pool.old }
    ensures tree { IfOk result (λ id. tree_at pool.new id ≡ position_of (takers_at pool.old owner)) }
    ensures within { IfOk result (λ id. id < length pool.new) }
    ensures kept { Keeps pool.old pool.new }
{
    let who = identifier(alloc, pool, owner)?;
    let pc = named(alloc, pool, word(alloc, b"pc")?)?;
    at(alloc, pool, pc, who)
}

// The test before an action that leaves these labels out, if there are some.
fn guard(
    alloc: Global,
    pool: &mut Pool,
    owner: Owner,
    names: &[Name],
) -> Result<Option<NodeId>, AllocError>
    requires { owner.identity < length pool.old }
    ensures guard { IfOk result (λ r. option_map (tree_at pool.new) r ≡ guard_of (takers_at pool.old owner) names.now) }
    ensures within { IfOk result (λ r. MaybeIn (length pool.new) r) }
    ensures kept { Keeps pool.old pool.new }
{
    if names.is_empty() {
        return Ok(None);
    }
    let place = position(alloc, pool, owner)?;
    let strings = quoted_names(alloc, pool, names)?;
    let all = set(pool, strings)?;
    Ok(Some(is_in(alloc, pool, false, place, all)?))
}

// The same of the labels of a routine that are left out by their marks.
fn left_out(
    alloc: Global,
    pool: &mut Pool,
    draft: &Draft<'_>,
    owner: Owner,
    unit: usize,
    body: &[Stmt],
) -> Result<Option<NodeId>, AllocError>
    requires { owner.identity < length pool.old }
    ensures guard { IfOk result (λ r. (ts : List Tree) → option_map (tree_at pool.new) r ≡ guard_of (takers_at pool.old owner) (labels_of (naming_of draft.now.naming.now) unit LeftOut (statements_at ts body.now))) }
    ensures within { IfOk result (λ r. MaybeIn (length pool.new) r) }
    ensures kept { Keeps pool.old pool.new }
{
    let mut names = NameList::new(alloc);
    statements(draft, unit, Wanted::LeftOut, &mut names, body)?;
    guard(alloc, pool, owner, names.as_slice())
}

// The call of the action of all steps of a routine.
fn routine_call(
    alloc: Global,
    pool: &mut Pool,
    draft: &Draft<'_>,
    owner: Owner,
    unit: usize,
) -> Result<Call, AllocError>
    requires { owner.identity < length pool.old }
    ensures call { IfOk result (λ r. call_at pool.new r ≡ call_of (takers_at pool.old owner) owner.number unit ((naming_of draft.now.naming.now).title unit)) }
    ensures within { IfOk result (λ r. CallIn (length pool.new) r) }
    ensures kept { Keeps pool.old pool.new }
{
    let title = word(alloc, draft.naming.title(unit))?;
    call(alloc, pool, owner, unit, title)
}

// The formula for the steps of a routine.
fn routine_line(
    alloc: Global,
    pool: &mut Pool,
    draft: &Draft<'_>,
    owner: Owner,
    unit: usize,
    body: &[Stmt],
) -> Result<Fairness, AllocError>
    requires { owner.identity < length pool.old }
    ensures line { IfOk result (λ r. (ts : List Tree) → fairness_at pool.new r ≡ routine_line_of (naming_of draft.now.naming.now) (takers_at pool.old owner) owner.number owner.strong unit (statements_at ts body.now)) }
    ensures within { IfOk result (λ r. FairnessIn (length pool.new) r) }
    ensures kept { Keeps pool.old pool.new }
{
    let test = left_out(alloc, pool, draft, owner, unit, body)?;
    let action = routine_call(alloc, pool, draft, owner, unit)?;
    Ok(Fairness {
        over: over(alloc, owner)?,
        strong: owner.strong,
        guard: test,
        action,
    })
}

// The formula for the steps from one label.
fn label_line(
    alloc: Global,
    pool: &mut Pool,
    owner: Owner,
    unit: usize,
    label: &Name,
) -> Result<Fairness, AllocError>
    requires { owner.identity < length pool.old }
    ensures line { IfOk result (λ r. fairness_at pool.new r ≡ label_line_of (takers_at pool.old owner) owner.number unit label.now) }
    ensures within { IfOk result (λ r. FairnessIn (length pool.new) r) }
    ensures kept { Keeps pool.old pool.new }
{
    let action = call(alloc, pool, owner, unit, label.copied()?)?;
    Ok(Fairness {
        over: over(alloc, owner)?,
        strong: true,
        guard: None,
        action,
    })
}

// The formula for all steps.
fn next_line(alloc: Global) -> Result<Fairness, AllocError>
    ensures line { IfOk result (λ r. (ts : List Tree) → fairness_at ts r ≡ next_line_of) }
    ensures within { IfOk result (λ r. (m : ℕ) → FairnessIn m r) }
{
    Ok(Fairness {
        over: None,
        strong: false,
        guard: None,
        action: Call::Bare(word(alloc, b"Next")?),
    })
}

// The formula of a demand.
fn line(
    alloc: Global,
    pool: &mut Pool,
    draft: &Draft<'_>,
    demand: &Demand<'_>,
) -> Result<Fairness, AllocError>
    requires { DemandIn (length pool.old) demand.now }
    ensures line { IfOk result (λ r. (ts : List Tree) → Keeps ts pool.old → DemandIn (length ts) demand.now → fairness_at pool.new r ≡ line_for (naming_of draft.now.naming.now) (asked_at ts demand.now)) }
    ensures within { IfOk result (λ r. FairnessIn (length pool.new) r) }
    ensures kept { Keeps pool.old pool.new }
{
    match demand {
        Demand::All => next_line(alloc),
        Demand::Routine(owner, unit, body) => {
            routine_line(alloc, pool, draft, *owner, *unit, body)
        }
        Demand::Label(owner, unit, name) => label_line(alloc, pool, *owner, *unit, name),
    }
}

// Those of demands, in their order.
fn lines(
    alloc: Global,
    pool: &mut Pool,
    draft: &Draft<'_>,
    demands: &[Demand<'_>],
) -> Result<Vec<Fairness>, AllocError>
    requires { AllDemandsIn (length pool.old) demands.now }
    ensures lines { IfOk result (λ r. map (fairness_at pool.new) r.items ≡ map (line_for (naming_of draft.now.naming.now)) (all_asked pool.old demands.now)) }
    ensures within { IfOk result (λ r. AllFairnessIn (length pool.new) r.items) }
    ensures kept { Keeps pool.old pool.new }
{
    let mut made = Vec::new(alloc);
    for demand in demands {
        made.push(line(alloc, pool, draft, demand)?)?;
    }
    Ok(made)
}

/// What follows `Init` and `[][Next]_vars` in Spec: a formula for each demand of fairness, in their order.
///
/// # Errors
///
/// Only for want of memory; the pool may then have more nodes than before.
pub fn spec_of(
    alloc: Global,
    pool: &mut Pool,
    draft: &Draft<'_>,
) -> Result<Vec<Fairness>, AllocError>
    requires { past_algorithm draft.now.algorithm.now ≤ length pool.old }
    ensures lines { (P : Program) → IsDraft pool.old draft.now P → IfOk result (λ r. map (fairness_at pool.new) r.items ≡ fairness_lines P) }
    ensures within { IfOk result (λ r. AllFairnessIn (length pool.new) r.items) }
    ensures kept { Keeps pool.old pool.new }
{
    let mut demands = Vec::new(alloc);
    add_demands(alloc, draft, &mut demands)?;
    lines(alloc, pool, draft, &demands)
}
