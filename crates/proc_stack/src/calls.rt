//! The assignments of calls, and of calls that are one statement with a return.

ghost use Rattle.std.specs.Prelude.{◌≡◌, ◌<◌, ◌≤◌, ◌∷◌, ◌++◌, [], List, length, map, option_map, IfOk, OnOk, cond};
ghost use Rattle.tla_tree.specs.Tree.{Tree};
ghost use Rattle.tla_tree.specs.Pool.{at, trees_at, Keeps};
ghost use Rattle.pcal_tree.specs.Algorithm.{nowhere, Routine, locals as locals_of, no_assignments, assignment, procedure_routine};
ghost use Rattle.pcal_tree.specs.InMemory.{assignments_at, start_at, declaration_at, procedure_at, past_numbers, past_start, past_declaration, past_declarations, past_procedure};
ghost use Rattle.pcal_tree.specs.Program.{Program};
ghost use Rattle.pcal_tree.specs.Calls.{label_name, first_label as first_label_of};
ghost use Rattle.pcal_tree.specs.Variables.{pc, stack, declared};
ghost use Rattle.written_names.specs.Units.{naming_of};
ghost use Rattle.action_builder.specs.Jumps.{name_at, text_at, one_assignment, call_written, pair_body};
ghost use Rattle.action_builder.specs.Written.{old_stack};
ghost use Rattle.action_builder.specs.LabelActions.{initial_tree};
ghost use Rattle.draft.specs.Drafts.{IsDraft};
ghost use Rattle.draft.specs.RoutineNames.{words_of};
ghost use Rattle.proc_stack.specs.Moves.{in_order, moves_at, past_sides, past_moves};
ghost use Rattle.proc_stack.specs.Made.{AddsSides, AddsMoves};
ghost use Rattle.proc_stack.specs.Pieces.{first_of, pushed as pushed_tree, frame_for, joined, field_sides, argument_sides, arguments_sides, entry as entry_of, initial_for, variable_move, entered};
ghost use Rattle.proc_stack.specs.Saving.{SavedIn};

use crate::callee::{Callee, Locals, local_names};
use crate::frame::frame_from;
use crate::moves::{add_fields, to_label};
use crate::pieces::{first_record, pushed, variable};
use crate::saving::{Saved, saved_by_call, saved_by_return};
use draft::Draft;
use module_write::formulas::named;
use name_bits::Order;
use pcal_tree::algorithm::{Assignment, Declaration, Start};
use prime_subst::Local;
use std::alloc::{AllocError, Global};
use tla_pool::Pool;
use tla_pool::form::Form;
use tla_pool::graft::grafted;
use tla_tree::{Name, NodeId};

// ---- parameters and variables

// Adds `x := e` for a parameter x, at the place of e.
fn add_argument(
    alloc: Global,
    pool: &mut Pool,
    locals: &Locals<'_>,
    parameter: &Declaration,
    argument: NodeId,
    out: &mut Vec<Assignment>,
) -> Result<(), AllocError>
    requires { argument < length pool.old }
    ensures made { OnOk result (AddsSides pool.new out.old.items out.new.items (argument_sides ((naming_of locals.now.naming.now).local locals.now.unit) parameter.now.name.word (at pool.old argument) ∷ [])) }
    ensures kept { Keeps pool.old pool.new }
{
    let place = pool.node(argument).place;
    let written = locals.naming.local(locals.unit, &parameter.name.name);
    let left = pool.put(Form::Name(written.copied()?), place, Vec::new(alloc))?;
    out.push(Assignment {
        left,
        right: argument,
    })?;
    Ok(())
}

// Adds `x := e` for each parameter and its argument.
fn add_arguments(
    alloc: Global,
    pool: &mut Pool,
    locals: &Locals<'_>,
    params: &[Declaration],
    arguments: &[NodeId],
    out: &mut Vec<Assignment>,
) -> Result<(), AllocError>
    requires { past_numbers arguments.now ≤ length pool.old }
    ensures made { OnOk result (AddsSides pool.new out.old.items out.new.items (arguments_sides ((naming_of locals.now.naming.now).local locals.now.unit) (words_of params.now) (map (at pool.old) arguments.now))) }
    ensures kept { Keeps pool.old pool.new }
{
    let count = params.len().min(arguments.len());
    for i in 0..count {
        add_argument(alloc, pool, locals, &params[i], arguments[i], out)?;
    }
    Ok(())
}

// The initial value of a procedure's variable.
fn initial(
    alloc: Global,
    pool: &mut Pool,
    local: &Local<'_>,
    start: &Start,
) -> Result<NodeId, AllocError>
    requires { past_start start.now ≤ length pool.old }
    ensures tree { IfOk result (λ r. at pool.new r ≡ initial_for ((naming_of local.now.naming.now).local local.now.unit) local.now.locals.now (start_at pool.old start.now)) }
    ensures within { IfOk result (λ r. r < length pool.new) }
    ensures kept { Keeps pool.old pool.new }
{
    match start {
        Start::Equals(e) => grafted(alloc, pool, *e, local),
        Start::Unset => variable(alloc, pool, b"defaultInitValue"),
        Start::Among(_) => variable(alloc, pool, b"defaultInitValue"),
    }
}

// Adds an assignment of its own.
fn add_alone(
    alloc: Global,
    left: NodeId,
    right: NodeId,
    out: &mut Vec<Vec<Assignment>>,
) -> Result<(), AllocError>
    ensures { (ts : List Tree) → left < length ts → right < length ts → OnOk result (AddsMoves ts out.old.items out.new.items (one_assignment (at ts left) (at ts right) ∷ [])) }
{
    let sides = vec![in alloc; Assignment { left, right }]?;
    out.push(sides)?;
    Ok(())
}

// Adds `x := e` for a variable and its initial value.
fn add_variable(
    alloc: Global,
    pool: &mut Pool,
    local: &Local<'_>,
    one: &Declaration,
    out: &mut Vec<Vec<Assignment>>,
) -> Result<(), AllocError>
    requires { past_declaration one.now ≤ length pool.old }
    ensures made { OnOk result (AddsMoves pool.new out.old.items out.new.items (variable_move ((naming_of local.now.naming.now).local local.now.unit) local.now.locals.now (declaration_at pool.old one.now) ∷ [])) }
    ensures kept { Keeps pool.old pool.new }
{
    let right = initial(alloc, pool, local, &one.start)?;
    let name = local.naming.local(local.unit, &one.name.name);
    let left = named(alloc, pool, name.copied()?)?;
    add_alone(alloc, left, right, out)
}

// The same for each of these variables.
fn add_variables(
    alloc: Global,
    pool: &mut Pool,
    local: &Local<'_>,
    variables: &[Declaration],
    out: &mut Vec<Vec<Assignment>>,
) -> Result<(), AllocError>
    requires { past_declarations variables.now ≤ length pool.old }
    ensures made { OnOk result (AddsMoves pool.new out.old.items out.new.items (map (λ d. variable_move ((naming_of local.now.naming.now).local local.now.unit) local.now.locals.now (declaration_at pool.old d)) variables.now)) }
    ensures kept { Keeps pool.old pool.new }
{
    for one in variables {
        add_variable(alloc, pool, local, one, out)?;
    }
    Ok(())
}

// ---- the entry of a procedure

// Adds the stack with one record more.
fn add_pushed(
    alloc: Global,
    pool: &mut Pool,
    locals: &Locals<'_>,
    saved: Saved,
    out: &mut Vec<Assignment>,
) -> Result<(), AllocError>
    requires { SavedIn (length pool.old) saved }
    ensures made { OnOk result (AddsSides pool.new out.old.items out.new.items (assignment (name_at nowhere stack) (pushed_tree (frame_for (naming_of locals.now.naming.now) locals.now.unit locals.now.names.now (at pool.old saved.back) (option_map (at pool.old) saved.from)) (at pool.old saved.rest)) ∷ [])) }
    ensures kept { Keeps pool.old pool.new }
{
    let left = variable(alloc, pool, b"stack")?;
    let front = frame_from(alloc, pool, locals, saved.back, saved.from)?;
    let right = pushed(alloc, pool, front, saved.rest)?;
    out.push(Assignment { left, right })?;
    Ok(())
}

// The stack with one record more, and the parameters.
fn entry(
    alloc: Global,
    pool: &mut Pool,
    locals: &Locals<'_>,
    saved: Saved,
    params: &[Declaration],
    arguments: &[NodeId],
) -> Result<Vec<Assignment>, AllocError>
    requires saved { SavedIn (length pool.old) saved }
    requires below { past_numbers arguments.now ≤ length pool.old }
    ensures made { IfOk result (λ r. assignments_at pool.new r.items ≡ entry_of (naming_of locals.now.naming.now) locals.now.unit locals.now.names.now (words_of params.now) (at pool.old saved.back) (option_map (at pool.old) saved.from) (at pool.old saved.rest) (map (at pool.old) arguments.now)) }
    ensures within { IfOk result (λ r. past_sides r.items ≤ length pool.new) }
    ensures kept { Keeps pool.old pool.new }
{
    let mut sides = Vec::new(alloc);
    add_pushed(alloc, pool, locals, saved, &mut sides)?;
    add_arguments(alloc, pool, locals, params, arguments, &mut sides)?;
    Ok(sides)
}

// Adds the initial values of a procedure's variables, of which all names are these.
fn add_starts(
    alloc: Global,
    pool: &mut Pool,
    locals: &Locals<'_>,
    variables: &[Declaration],
    out: &mut Vec<Vec<Assignment>>,
) -> Result<(), AllocError>
    requires { past_declarations variables.now ≤ length pool.old }
    ensures made { OnOk result (AddsMoves pool.new out.old.items out.new.items (map (λ d. variable_move ((naming_of locals.now.naming.now).local locals.now.unit) locals.now.names.now (declaration_at pool.old d)) variables.now)) }
    ensures kept { Keeps pool.old pool.new }
{
    let order = Order::new(alloc, locals.names)?;
    let local = Local {
        unit: locals.unit,
        locals: &order,
        naming: locals.naming,
    };
    add_variables(alloc, pool, &local, variables, out)
}

// Adds the stack and the parameters, and then the variables.
fn add_entry(
    alloc: Global,
    pool: &mut Pool,
    draft: &Draft<'_>,
    callee: &Callee<'_>,
    saved: Saved,
    arguments: &[NodeId],
    out: &mut Vec<Vec<Assignment>>,
) -> Result<(), AllocError>
    requires saved { SavedIn (length pool.old) saved }
    requires below { past_numbers arguments.now ≤ length pool.old }
    requires procedure { past_procedure callee.now.procedure.now ≤ length pool.old }
    ensures made { OnOk result (AddsMoves pool.new out.old.items out.new.items (entered (naming_of draft.now.naming.now) callee.now.number pool.old callee.now.procedure.now (at pool.old saved.back) (option_map (at pool.old) saved.from) (at pool.old saved.rest) (map (at pool.old) arguments.now))) }
    ensures kept { Keeps pool.old pool.new }
{
    let names = local_names(alloc, callee.procedure)?;
    let locals = Locals {
        unit: callee.number,
        names: names.as_slice(),
        naming: draft.naming,
    };
    let first = entry(
        alloc,
        pool,
        &locals,
        saved,
        &callee.procedure.params,
        arguments,
    )?;
    out.push(first)?;
    add_starts(alloc, pool, &locals, &callee.procedure.variables, out)
}

// ---- what comes after

// The written name of a procedure's first label.
fn first_label(alloc: Global, draft: &Draft<'_>, callee: &Callee<'_>) -> Result<Name, AllocError>
    ensures { IfOk result (λ r. (P : Program) (ts : List Tree) → naming_of draft.now.naming.now ≡ P.naming → let p = procedure_routine callee.now.number (procedure_at ts callee.now.procedure.now) in r ≡ label_name P p (first_label_of p)) }
{
    draft.first_label(alloc, callee.number, &callee.procedure.body, b"Error")
}

// Adds the jump to the label of this written name.
fn add_jump(
    alloc: Global,
    pool: &mut Pool,
    label: &Name,
    out: &mut Vec<Vec<Assignment>>,
) -> Result<(), AllocError>
    ensures made { OnOk result (AddsMoves pool.new out.old.items out.new.items (one_assignment (name_at nowhere pc) (text_at nowhere label.now) ∷ [])) }
    ensures kept { Keeps pool.old pool.new }
{
    let jump = to_label(alloc, pool, label)?;
    out.push(jump)?;
    Ok(())
}

// What a return restores where another procedure is called: `x := Head(st).x`, st being the stack as it was; else nothing.
fn others(
    alloc: Global,
    pool: &mut Pool,
    locals: &Locals<'_>,
    itself: bool,
) -> Result<Vec<Assignment>, AllocError>
    ensures made { IfOk result (λ r. assignments_at pool.new r.items ≡ cond itself no_assignments (joined (map (field_sides ((naming_of locals.now.naming.now).local locals.now.unit) (first_of old_stack)) locals.now.names.now) no_assignments)) }
    ensures within { IfOk result (λ r. past_sides r.items ≤ length pool.new) }
    ensures kept { Keeps pool.old pool.new }
{
    let mut sides = Vec::new(alloc);
    if itself {
        return Ok(sides);
    }
    let frame = first_record(alloc, pool, b"old stack")?;
    add_fields(alloc, pool, locals, frame, &mut sides)?;
    Ok(sides)
}

// Adds that as an assignment of its own.
fn add_others(
    alloc: Global,
    pool: &mut Pool,
    locals: &Locals<'_>,
    itself: bool,
    out: &mut Vec<Vec<Assignment>>,
) -> Result<(), AllocError>
    ensures made { OnOk result (AddsMoves pool.new out.old.items out.new.items (cond itself no_assignments (joined (map (field_sides ((naming_of locals.now.naming.now).local locals.now.unit) (first_of old_stack)) locals.now.names.now) no_assignments) ∷ [])) }
    ensures kept { Keeps pool.old pool.new }
{
    let sides = others(alloc, pool, locals, itself)?;
    out.push(sides)?;
    Ok(())
}

// ---- calls

/// The assignments of a call of a procedure with these arguments, which goes back to the label of this written name: the stack and the
/// parameters, then each variable, then `pc`.
///
/// # Errors
///
/// Only for want of memory; the pool may then have more nodes than before.
pub fn call_moves(
    alloc: Global,
    pool: &mut Pool,
    draft: &Draft<'_>,
    callee: &Callee<'_>,
    arguments: &[NodeId],
    back: &Name,
) -> Result<Vec<Vec<Assignment>>, AllocError>
    requires below { past_numbers arguments.now ≤ length pool.old }
    requires procedure { past_procedure callee.now.procedure.now ≤ length pool.old }
    ensures tree { (P : Program) → IsDraft pool.old draft.now P → IfOk result (λ r. let p = procedure_routine callee.now.number (procedure_at pool.old callee.now.procedure.now) in in_order (moves_at pool.new r.items) ≡ call_written P p nowhere (trees_at pool.old arguments.now) back.now (λ d. nowhere) (λ d. initial_tree P p d.start)) }
    ensures within { IfOk result (λ r. past_moves r.items ≤ length pool.new) }
    ensures kept { Keeps pool.old pool.new }
{
    let mut moves = Vec::new(alloc);
    let saved = saved_by_call(alloc, pool, back)?;
    add_entry(alloc, pool, draft, callee, saved, arguments, &mut moves)?;
    let label = first_label(alloc, draft, callee)?;
    add_jump(alloc, pool, &label, &mut moves)?;
    Ok(moves)
}

/// The assignments of a call of a procedure with these arguments that is one statement with a return from the routine of this number,
/// which has these parameters and variables: the stack and the parameters, then each variable, then what the return restores, then `pc`.
/// Where the procedure is that routine itself, its parameters and variables are to be given.
///
/// # Errors
///
/// Only for want of memory; the pool may then have more nodes than before.
pub fn call_return_moves(
    alloc: Global,
    pool: &mut Pool,
    draft: &Draft<'_>,
    unit: usize,
    locals: &[Name],
    callee: &Callee<'_>,
    arguments: &[NodeId],
) -> Result<Vec<Vec<Assignment>>, AllocError>
    requires below { past_numbers arguments.now ≤ length pool.old }
    requires procedure { past_procedure callee.now.procedure.now ≤ length pool.old }
    ensures tree { (P : Program) (u : Routine) → IsDraft pool.old draft.now P → u.number ≡ unit → declared (locals_of u) ≡ locals.now → (unit ≡ callee.now.number → locals.now ≡ words_of callee.now.procedure.now.params.items ++ words_of callee.now.procedure.now.variables.items) → IfOk result (λ r. let p = procedure_routine callee.now.number (procedure_at pool.old callee.now.procedure.now) in in_order (moves_at pool.new r.items) ≡ pair_body P u p nowhere nowhere (trees_at pool.old arguments.now) (λ d. nowhere) (λ d. initial_tree P p d.start)) }
    ensures within { IfOk result (λ r. past_moves r.items ≤ length pool.new) }
    ensures kept { Keeps pool.old pool.new }
{
    let mut moves = Vec::new(alloc);
    let itself = unit == callee.number;
    let saved = saved_by_return(alloc, pool, itself)?;
    add_entry(alloc, pool, draft, callee, saved, arguments, &mut moves)?;
    let names = Locals {
        unit,
        names: locals,
        naming: draft.naming,
    };
    add_others(alloc, pool, &names, itself, &mut moves)?;
    let label = first_label(alloc, draft, callee)?;
    add_jump(alloc, pool, &label, &mut moves)?;
    Ok(moves)
}
