//! Parts of a printed line: names, declarations, expressions with commas between them.

ghost use Rattle.std.specs.Prelude.{◌∷◌, ◌≡◌, ◌≤◌, ◌++◌, length, map, cond, nat_lt, [], codes, OnOk};
ghost use Rattle.pcal_tree.specs.Printed.{blanks, start_text, declaration_text, declarations_text, names_text, listed, separated, trees_texts, arguments_text, assignments_texts, binds_texts, parameters_text};
ghost use Rattle.pcal_tree.specs.InMemory.{start_at, declaration_at, declarations_at, assignments_at, binds_at, past_start, past_declaration, past_declarations, past_assignment, past_bind, past_binds, past_numbers};
ghost use Rattle.tla_tree.specs.Pool.{at, trees_at};
ghost use Rattle.tla_tree.specs.Written.{written};
ghost use Rattle.tla_tree.specs.Nesting.{greatest};

use pcal_tree::algorithm::{Assignment, Bind, Declaration, Start};
use std::alloc::{AllocError, Global};
use tla_pool::Pool;
use tla_tree::{NodeId, PlacedName, Text};
use tla_write::write_expr;

fn write_blanks(k: usize, into: &mut Text) -> Result<(), AllocError>
    ensures { OnOk result (into.new ≡ into.old ++ blanks k) }
{
    for _i in 0..k {
        into.push(b' ')?;
    }
    Ok(())
}

/// Appends LF and a line's blanks and first text.
///
/// # Errors
///
/// Only for want of memory.
pub fn begin_line(k: usize, text: &[u8], into: &mut Text) -> Result<(), AllocError>
    ensures { OnOk result (into.new ≡ into.old ++ (codes "\n" ++ (blanks k ++ text.now))) }
{
    into.push(b'\n')?;
    write_blanks(k, into)?;
    into.extend(text)
}

/// Appends this sign, but not before the first.
///
/// # Errors
///
/// Only for want of memory.
fn write_between(i: usize, sign: &[u8], into: &mut Text) -> Result<(), AllocError>
    ensures { OnOk result (into.new ≡ into.old ++ cond (nat_lt 0 i) sign.now []) }
{
    if i > 0 {
        into.extend(sign)?;
    }
    Ok(())
}

/// Appends a name.
///
/// # Errors
///
/// Only for want of memory.
pub fn write_name(name: &PlacedName, into: &mut Text) -> Result<(), AllocError>
    ensures { OnOk result (into.new ≡ into.old ++ name.now.word) }
{
    into.extend(name.name.bytes())
}

/// Appends names with commas between them.
///
/// # Errors
///
/// Only for want of memory.
pub fn write_names(names: &[PlacedName], into: &mut Text) -> Result<(), AllocError>
    ensures { OnOk result (into.new ≡ into.old ++ names_text names.now) }
{
    for i in 0..names.len() {
        write_between(i, b", ", into)?;
        write_name(&names[i], into)?;
    }
    Ok(())
}

/// Appends `(a, b)`, where there are names.
///
/// # Errors
///
/// Only for want of memory.
pub fn write_parameters(names: &[PlacedName], into: &mut Text) -> Result<(), AllocError>
    ensures { OnOk result (into.new ≡ into.old ++ parameters_text names.now) }
{
    if names.is_empty() {
        return Ok(());
    }
    into.push(b'(')?;
    write_names(names, into)?;
    into.push(b')')
}

/// Appends `(a, b)`, the arguments of a call.
///
/// # Errors
///
/// Only for want of memory.
pub fn write_arguments(
    alloc: Global,
    pool: &Pool,
    arguments: &[NodeId],
    into: &mut Text,
) -> Result<(), AllocError>
    requires { past_numbers arguments.now ≤ length pool.now }
    ensures { OnOk result (into.new ≡ into.old ++ arguments_text (trees_at pool.now arguments.now)) }
{
    into.push(b'(')?;
    write_expressions(alloc, pool, arguments, into)?;
    into.push(b')')
}

fn write_expressions(
    alloc: Global,
    pool: &Pool,
    es: &[NodeId],
    into: &mut Text,
) -> Result<(), AllocError>
    requires { past_numbers es.now ≤ length pool.now }
    ensures { OnOk result (into.new ≡ into.old ++ listed (trees_texts (trees_at pool.now es.now))) }
{
    for i in 0..es.len() {
        write_between(i, b", ", into)?;
        let e = es[i];
        write_expr(alloc, pool, e, into)?;
    }
    Ok(())
}

fn write_start(alloc: Global, pool: &Pool, start: &Start, into: &mut Text) -> Result<(), AllocError>
    requires { past_start start.now ≤ length pool.now }
    ensures { OnOk result (into.new ≡ into.old ++ start_text (start_at pool.now start.now)) }
{
    match start {
        Start::Unset => Ok(()),
        Start::Equals(e) => {
            into.extend(b" = ")?;
            write_expr(alloc, pool, *e, into)
        }
        Start::Among(set) => {
            into.extend(b" \\in ")?;
            write_expr(alloc, pool, *set, into)
        }
    }
}

fn write_declaration(
    alloc: Global,
    pool: &Pool,
    declaration: &Declaration,
    into: &mut Text,
) -> Result<(), AllocError>
    requires { past_declaration declaration.now ≤ length pool.now }
    ensures { OnOk result (into.new ≡ into.old ++ declaration_text (declaration_at pool.now declaration.now)) }
{
    write_name(&declaration.name, into)?;
    write_start(alloc, pool, &declaration.start, into)
}

/// Appends declarations with commas between them.
///
/// # Errors
///
/// Only for want of memory.
pub fn write_declarations(
    alloc: Global,
    pool: &Pool,
    declarations: &[Declaration],
    into: &mut Text,
) -> Result<(), AllocError>
    requires { past_declarations declarations.now ≤ length pool.now }
    ensures { OnOk result (into.new ≡ into.old ++ declarations_text (declarations_at pool.now declarations.now)) }
{
    for i in 0..declarations.len() {
        write_between(i, b", ", into)?;
        write_declaration(alloc, pool, &declarations[i], into)?;
    }
    Ok(())
}

fn write_assignment(
    alloc: Global,
    pool: &Pool,
    assignment: &Assignment,
    into: &mut Text,
) -> Result<(), AllocError>
    requires { past_assignment assignment.now ≤ length pool.now }
    ensures { OnOk result (into.new ≡ into.old ++ (written (at pool.now assignment.now.left) ++ codes " := " ++ written (at pool.now assignment.now.right))) }
{
    write_expr(alloc, pool, assignment.left, into)?;
    into.extend(b" := ")?;
    write_expr(alloc, pool, assignment.right, into)
}

/// Appends `l := e || m := f`.
///
/// # Errors
///
/// Only for want of memory.
pub fn write_assignments(
    alloc: Global,
    pool: &Pool,
    assignments: &[Assignment],
    into: &mut Text,
) -> Result<(), AllocError>
    requires { greatest (map past_assignment assignments.now) ≤ length pool.now }
    ensures { OnOk result (into.new ≡ into.old ++ separated (codes " || ") (assignments_texts (assignments_at pool.now assignments.now))) }
{
    for i in 0..assignments.len() {
        write_between(i, b" || ", into)?;
        let assignment = &assignments[i];
        write_assignment(alloc, pool, assignment, into)?;
    }
    Ok(())
}

fn write_bind(alloc: Global, pool: &Pool, bind: &Bind, into: &mut Text) -> Result<(), AllocError>
    requires { past_bind bind.now ≤ length pool.now }
    ensures { OnOk result (into.new ≡ into.old ++ listed (binds_texts (binds_at pool.now (bind.now ∷ [])))) }
{
    match bind {
        Bind::Among(x, set) => {
            write_name(x, into)?;
            into.extend(b" \\in ")?;
            write_expr(alloc, pool, *set, into)
        }
        Bind::Is(x, e) => {
            write_name(x, into)?;
            into.extend(b" = ")?;
            write_expr(alloc, pool, *e, into)
        }
    }
}

/// Appends `x \in S, y = e`, what a `with` names.
///
/// # Errors
///
/// Only for want of memory.
pub fn write_binds(
    alloc: Global,
    pool: &Pool,
    binds: &[Bind],
    into: &mut Text,
) -> Result<(), AllocError>
    requires { past_binds binds.now ≤ length pool.now }
    ensures { OnOk result (into.new ≡ into.old ++ listed (binds_texts (binds_at pool.now binds.now))) }
{
    for i in 0..binds.len() {
        write_between(i, b", ", into)?;
        write_bind(alloc, pool, &binds[i], into)?;
    }
    Ok(())
}
