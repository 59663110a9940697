//! The conjuncts of Init for the variables and parameters of routines.

ghost use Rattle.std.specs.Prelude.{◌≡◌, ◌<◌, ◌≤◌, ◌++◌, List, length, IfOk, OnOk};
ghost use Rattle.std.specs.Prelude as prelude;
ghost use Rattle.std.specs.List.{flat_map};
ghost use Rattle.tla_token.specs.Signs.{is_among};
ghost use Rattle.tla_tree.specs.Tree.{Word, Tree};
ghost use Rattle.tla_tree.specs.Pool.{at, AllBelow, Keeps};
ghost use Rattle.tla_tree.specs.Nesting.{greatest};
ghost use Rattle.module_tree.specs.Formulas.{self};
ghost use Rattle.pcal_tree.specs.Algorithm.{Routine, numbered};
ghost use Rattle.pcal_tree.specs.InMemory.{start_at, declarations_at, procedure_at, process_at, past_start, past_declaration, past_declarations, past_procedure, past_process};
ghost use Rattle.pcal_tree.specs.InMemory as in_memory;
ghost use Rattle.pcal_tree.specs.Takers.{taken_process};
ghost use Rattle.pcal_tree.specs.Program.{Program};
ghost use Rattle.action_builder.specs.InitialFormulas.{locals_start};
ghost use Rattle.draft.specs.Drafts.{IsDraft};
ghost use Rattle.draft.specs.RoutineNames.{words_of};
ghost use Rattle.module_formulas.specs.TakersIn.{taker_at, TakerIn, taken, taken_procedure};
ghost use Rattle.module_formulas.specs.Added.{Adds};
ghost use Rattle.module_formulas.specs.Starts.{formula as formula_tree, spread_by, is_choice as is_choice_of, first_value as first_value_of, for_takers, started_in, set_in, local_start as local_start_of, IsLocal};

use crate::names::name_of;
use crate::numbers::after;
use crate::takers::{Taker, taker_of};
use draft::Draft;
use module_write::formulas::{binds_self, equal, functions_from, is_in, named};
use name_bits::Order;
use pcal_tree::algorithm::{Declaration, Procedure, Process, Start};
use prime_subst::localising::{Local, Own, localise};
use std::alloc::{AllocError, Global};
use tla_pool::Pool;
use tla_pool::graft::{Grafting, grafted};
use tla_token::Place;
use tla_tree::{Binder, Name, NameList, NodeId};

// ---- a variable

// An expression in place of a name.
#[derive(Drop)]
struct InPlace<'a> {
    name: &'a Name,
    tree: NodeId,
}

impl<'a> Grafting for InPlace<'a> {
    ghost use Rattle.std.specs.Prelude.{◌<◌, length};
    ghost use Rattle.tla_tree.specs.Pool.{at};
    ghost use Rattle.action_builder.specs.SingleProcess.{in_place_of};
    ghost use Rattle.module_formulas.specs.PlaceStays.{place_stays};

    ghost graft = { λ s ts. in_place_of s.name.now (at ts s.tree) };

    ghost fits = { λ s ts. s.tree < length ts };

    fn put(
        &self,
        _alloc: Global,
        _pool: &mut Pool,
        x: &Name,
        _place: Place,
    ) -> Result<Option<NodeId>, AllocError> {
        if self.name.bytes() == x.bytes() {
            Ok(Some(self.tree))
        } else {
            Ok(None)
        }
    }

    ghost stays = { λ s old new h k. place_stays s.name.now s.tree old new h k };
}

// A single process's expression in place of `self`; others have none.
fn for_taker(
    alloc: Global,
    pool: &mut Pool,
    draft: &Draft<'_>,
    taker: Taker,
    e: NodeId,
) -> Result<NodeId, AllocError>
    requires there { e < length pool.old }
    requires within { TakerIn (length pool.old) taker }
    ensures tree { IfOk result (λ r. draft.now.this.now ≡ self → at pool.new r ≡ for_takers (taker_at pool.old taker) (at pool.old e)) }
    ensures within { IfOk result (λ r. r < length pool.new) }
    ensures kept { Keeps pool.old pool.new }
{
    match taker {
        Taker::Each(_) => Ok(e),
        Taker::Single(tree) => {
            let name = draft.this;
            grafted(alloc, pool, e, &InPlace { name, tree })
        }
        Taker::Lone => Ok(e),
    }
}

// An expression of a routine as Init has it.
fn expression(
    alloc: Global,
    pool: &mut Pool,
    draft: &Draft<'_>,
    local: &Local<'_>,
    taker: Taker,
    e: NodeId,
) -> Result<NodeId, AllocError>
    requires there { e < length pool.old }
    requires within { TakerIn (length pool.old) taker }
    ensures tree { IfOk result (λ r. (P : Program) (u : Routine) → IsDraft pool.old draft.now P → IsLocal local.now P u → at pool.new r ≡ started_in P u (taker_at pool.old taker) (at pool.old e)) }
    ensures within { IfOk result (λ r. r < length pool.new) }
    ensures kept { Keeps pool.old pool.new }
{
    let own = Own {
        own: draft.own,
        order: draft.order,
        this: draft.this,
    };
    let written = localise(alloc, pool, e, local, &own)?;
    for_taker(alloc, pool, draft, taker, written)
}

// A set of first values. Where there is one value for each member of a set, it is outside of all processes.
fn choice_set(
    alloc: Global,
    pool: &mut Pool,
    draft: &Draft<'_>,
    local: &Local<'_>,
    taker: Taker,
    e: NodeId,
) -> Result<NodeId, AllocError>
    requires there { e < length pool.old }
    requires within { TakerIn (length pool.old) taker }
    ensures tree { IfOk result (λ r. (P : Program) (u : Routine) → IsDraft pool.old draft.now P → IsLocal local.now P u → at pool.new r ≡ set_in P u (taker_at pool.old taker) (at pool.old e)) }
    ensures within { IfOk result (λ r. r < length pool.new) }
    ensures kept { Keeps pool.old pool.new }
{
    match taker {
        Taker::Each(_) => Ok(e),
        Taker::Single(_) => expression(alloc, pool, draft, local, taker, e),
        Taker::Lone => expression(alloc, pool, draft, local, taker, e),
    }
}

/// Whether a first value is one of a set.
pub fn is_choice(start: &Start) -> bool
    ensures { (ts : List Tree) → result ≡ is_choice_of (start_at ts start.now) }
{
    match start {
        Start::Unset => false,
        Start::Equals(_) => false,
        Start::Among(_) => true,
    }
}

// The first value of a variable, or the set of which it is one.
fn first_value(
    alloc: Global,
    pool: &mut Pool,
    draft: &Draft<'_>,
    local: &Local<'_>,
    taker: Taker,
    start: &Start,
) -> Result<NodeId, AllocError>
    requires there { past_start start.now ≤ length pool.old }
    requires within { TakerIn (length pool.old) taker }
    ensures tree { IfOk result (λ r. (P : Program) (u : Routine) → IsDraft pool.old draft.now P → IsLocal local.now P u → at pool.new r ≡ first_value_of (started_in P u (taker_at pool.old taker)) (set_in P u (taker_at pool.old taker)) (start_at pool.old start.now)) }
    ensures within { IfOk result (λ r. r < length pool.new) }
    ensures kept { Keeps pool.old pool.new }
{
    match start {
        Start::Unset => name_of(alloc, pool, b"defaultInitValue"),
        Start::Equals(e) => expression(alloc, pool, draft, local, taker, *e),
        Start::Among(e) => choice_set(alloc, pool, draft, local, taker, *e),
    }
}

// The value or set for each member of a set, if each member takes the steps.
fn spread(
    alloc: Global,
    pool: &mut Pool,
    taker: Taker,
    is_set: bool,
    value: NodeId,
) -> Result<NodeId, AllocError>
    requires there { value < length pool.old }
    requires within { TakerIn (length pool.old) taker }
    ensures tree { IfOk result (λ r. at pool.new r ≡ spread_by (taker_at pool.old taker) is_set (at pool.old value)) }
    ensures within { IfOk result (λ r. r < length pool.new) }
    ensures kept { Keeps pool.old pool.new }
{
    match taker {
        Taker::Each(set) => {
            if is_set {
                functions_from(alloc, pool, set, value)
            } else {
                binds_self(alloc, pool, Binder::Function, set, value)
            }
        }
        Taker::Single(_) => Ok(value),
        Taker::Lone => Ok(value),
    }
}

/// `x = v`, or `x \in v`
///
/// # Errors
///
/// Only for want of memory.
pub fn formula(
    alloc: Global,
    pool: &mut Pool,
    x: &Name,
    is_set: bool,
    value: NodeId,
) -> Result<NodeId, AllocError>
    requires { value < length pool.old }
    ensures tree { IfOk result (λ r. at pool.new r ≡ formula_tree is_set x.now (at pool.old value)) }
    ensures within { IfOk result (λ r. r < length pool.new) }
    ensures kept { Keeps pool.old pool.new }
{
    let name = named(alloc, pool, x.copied()?)?;
    if is_set {
        is_in(alloc, pool, true, name, value)
    } else {
        equal(alloc, pool, name, value)
    }
}

// The conjunct of a variable or parameter.
fn local_start(
    alloc: Global,
    pool: &mut Pool,
    draft: &Draft<'_>,
    local: &Local<'_>,
    taker: Taker,
    one: &Declaration,
) -> Result<NodeId, AllocError>
    requires there { past_declaration one.now ≤ length pool.old }
    requires within { TakerIn (length pool.old) taker }
    ensures tree { IfOk result (λ r. (P : Program) (u : Routine) → IsDraft pool.old draft.now P → IsLocal local.now P u → at pool.new r ≡ local_start_of P u (taker_at pool.old taker) (in_memory.declaration_at pool.old one.now)) }
    ensures within { IfOk result (λ r. r < length pool.new) }
    ensures kept { Keeps pool.old pool.new }
{
    let is_set = is_choice(&one.start);
    let first = first_value(alloc, pool, draft, local, taker, &one.start)?;
    let value = spread(alloc, pool, taker, is_set, first)?;
    let written = local.naming.local(local.unit, &one.name.name);
    formula(alloc, pool, written, is_set, value)
}

// ---- those of a routine

// Adds the conjuncts of variables or parameters.
fn add_starts(
    alloc: Global,
    pool: &mut Pool,
    draft: &Draft<'_>,
    local: &Local<'_>,
    taker: Taker,
    list: &[Declaration],
    out: &mut Vec<NodeId>,
) -> Result<(), AllocError>
    requires there { past_declarations list.now ≤ length pool.old }
    requires within { TakerIn (length pool.old) taker }
    requires below { AllBelow (length pool.old) out.old.items }
    ensures made { OnOk result ((P : Program) (u : Routine) → IsDraft pool.old draft.now P → IsLocal local.now P u → Adds pool.old pool.new out.old.items out.new.items (prelude.map (local_start_of P u (taker_at pool.old taker)) (declarations_at pool.old list.now))) }
    ensures below { OnOk result (AllBelow (length pool.new) out.new.items) }
    ensures kept { Keeps pool.old pool.new }
{
    for one in list {
        let made = local_start(alloc, pool, draft, local, taker, one)?;
        out.push(made)?;
    }
    Ok(())
}

// Adds the names of declarations.
fn add_names(list: &[Declaration], into: &mut NameList) -> Result<(), AllocError>
    ensures { OnOk result (into.new ≡ into.old ++ words_of list.now) }
{
    for one in list {
        into.push(one.name.name.copied()?)?;
    }
    Ok(())
}

/// The names of the parameters and variables of a routine, as they stand in the text.
///
/// # Errors
///
/// Only for want of memory.
pub fn local_names(
    alloc: Global,
    params: &[Declaration],
    variables: &[Declaration],
) -> Result<Order, AllocError>
    ensures { IfOk result (λ r. (x : Word) → is_among r x ≡ is_among (words_of params.now ++ words_of variables.now) x) }
{
    let mut names = NameList::new(alloc);
    add_names(params, &mut names)?;
    add_names(variables, &mut names)?;
    Order::new(alloc, names.as_slice())
}

// Adds those of a routine with this number.
fn add_routine(
    alloc: Global,
    pool: &mut Pool,
    draft: &Draft<'_>,
    taker: Taker,
    unit: usize,
    params: &[Declaration],
    variables: &[Declaration],
    out: &mut Vec<NodeId>,
) -> Result<(), AllocError>
    requires first { past_declarations params.now ≤ length pool.old }
    requires then { past_declarations variables.now ≤ length pool.old }
    requires within { TakerIn (length pool.old) taker }
    requires below { AllBelow (length pool.old) out.old.items }
    ensures made { OnOk result ((P : Program) (u : Routine) → IsDraft pool.old draft.now P → u.number ≡ unit → u.params ≡ declarations_at pool.old params.now → u.variables ≡ declarations_at pool.old variables.now → Adds pool.old pool.new out.old.items out.new.items (locals_start P (taken (taker_at pool.old taker) u))) }
    ensures below { OnOk result (AllBelow (length pool.new) out.new.items) }
    ensures kept { Keeps pool.old pool.new }
{
    let locals = local_names(alloc, params, variables)?;
    let local = Local {
        unit,
        locals: &locals,
        naming: draft.naming,
    };
    add_starts(alloc, pool, draft, &local, taker, params, out)?;
    add_starts(alloc, pool, draft, &local, taker, variables, out)
}

// ---- those of all routines

/// Adds the conjuncts of the variables of procedures, of which the first has this number.
///
/// # Errors
///
/// Only for want of memory.
pub fn add_procedures(
    alloc: Global,
    pool: &mut Pool,
    draft: &Draft<'_>,
    taker: Taker,
    first: usize,
    list: &[Procedure],
    out: &mut Vec<NodeId>,
) -> Result<(), AllocError>
    requires there { greatest (prelude.map past_procedure list.now) ≤ length pool.old }
    requires within { TakerIn (length pool.old) taker }
    requires below { AllBelow (length pool.old) out.old.items }
    ensures made { OnOk result ((P : Program) → IsDraft pool.old draft.now P → Adds pool.old pool.new out.old.items out.new.items (flat_map (locals_start P) (numbered (taken_procedure (taker_at pool.old taker)) first (prelude.map (procedure_at pool.old) list.now)))) }
    ensures below { OnOk result (AllBelow (length pool.new) out.new.items) }
    ensures kept { Keeps pool.old pool.new }
{
    let mut number = first;
    for one in list {
        add_routine(
            alloc,
            pool,
            draft,
            taker,
            number,
            &one.params,
            &one.variables,
            out,
        )?;
        number = after(number)?;
    }
    Ok(())
}

/// Adds the conjuncts of the variables of processes, of which the first has this number.
///
/// # Errors
///
/// Only for want of memory.
pub fn add_processes(
    alloc: Global,
    pool: &mut Pool,
    draft: &Draft<'_>,
    first: usize,
    list: &[Process],
    out: &mut Vec<NodeId>,
) -> Result<(), AllocError>
    requires there { greatest (prelude.map past_process list.now) ≤ length pool.old }
    requires below { AllBelow (length pool.old) out.old.items }
    ensures made { OnOk result ((P : Program) → IsDraft pool.old draft.now P → Adds pool.old pool.new out.old.items out.new.items (flat_map (locals_start P) (numbered taken_process first (prelude.map (process_at pool.old) list.now)))) }
    ensures below { OnOk result (AllBelow (length pool.new) out.new.items) }
    ensures kept { Keeps pool.old pool.new }
{
    let mut number = first;
    for one in list {
        add_routine(
            alloc,
            pool,
            draft,
            taker_of(one),
            number,
            &[],
            &one.variables,
            out,
        )?;
        number = after(number)?;
    }
    Ok(())
}
