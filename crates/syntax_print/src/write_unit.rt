//! Printed parts of an algorithm: variables, definitions, macros, procedures, processes, and what runs.

ghost use Rattle.std.specs.Prelude.{◌≡◌, ◌≤◌, ◌++◌, ◌∷◌, length, map, [], OnOk};
ghost use Rattle.tla_tree.specs.Pool.{at};
ghost use Rattle.tla_tree.specs.Written.{written};
ghost use Rattle.tla_tree.specs.Nesting.{greatest};
ghost use Rattle.pcal_tree.specs.Algorithm.{alone};
ghost use Rattle.pcal_tree.specs.Printed.{variables, define, definitions, body, macros, procedures, sign_text, identity_text, process_lines, main};
ghost use Rattle.pcal_tree.specs.InMemory.{declarations_at, definition_at, definitions_at, statements_at, macro_at, procedure_at, process_at, main_at, past_declarations, past_definition, past_definitions, past_statements, past_macro, past_procedure, past_process, past_main};
ghost use Rattle.pcal_tree.specs.Syntaxes.{syntax_of};
ghost use Rattle.syntax_print.specs.Adding.{Adds};

use crate::syntax::{define_end_text, write_closing, write_opening};
use crate::write_part::{
    begin_line, write_declarations, write_name, write_names, write_parameters,
};
use crate::write_statement::write_statements;
use pcal_tree::Syntax;
use pcal_tree::algorithm::{Declaration, Definition, Macro, Main, Procedure, Process, Stmt};
use pcal_tree::mark::fairness_text;
use std::alloc::{AllocError, Global};
use tla_pool::Pool;
use tla_tree::Text;
use tla_write::write_expr;

/// Appends the line of the variables, where there are some.
///
/// # Errors
///
/// Only for want of memory.
pub fn write_variables(
    alloc: Global,
    pool: &Pool,
    declarations: &[Declaration],
    into: &mut Text,
) -> Result<(), AllocError>
    requires { past_declarations declarations.now ≤ length pool.now }
    ensures { OnOk result (Adds into.old into.new (variables (declarations_at pool.now declarations.now))) }
{
    if declarations.is_empty() {
        return Ok(());
    }
    begin_line(0, b"variables ", into)?;
    write_declarations(alloc, pool, declarations, into)?;
    into.push(b';')
}

// ---- definitions

fn write_definition(
    alloc: Global,
    pool: &Pool,
    definition: &Definition,
    into: &mut Text,
) -> Result<(), AllocError>
    requires { past_definition definition.now ≤ length pool.now }
    ensures { OnOk result (Adds into.old into.new (definitions (definition_at pool.now definition.now ∷ []))) }
{
    begin_line(2, definition.name.name.bytes(), into)?;
    write_parameters(&definition.params, into)?;
    into.extend(b" == ")?;
    write_expr(alloc, pool, definition.body, into)
}

fn write_definitions(
    alloc: Global,
    pool: &Pool,
    list: &[Definition],
    into: &mut Text,
) -> Result<(), AllocError>
    requires { past_definitions list.now ≤ length pool.now }
    ensures { OnOk result (Adds into.old into.new (definitions (definitions_at pool.now list.now))) }
{
    for definition in list {
        write_definition(alloc, pool, definition, into)?;
    }
    Ok(())
}

/// Appends the `define` block, where there are definitions.
///
/// # Errors
///
/// Only for want of memory.
pub fn write_define(
    alloc: Global,
    pool: &Pool,
    syntax: Syntax,
    list: &[Definition],
    into: &mut Text,
) -> Result<(), AllocError>
    requires { past_definitions list.now ≤ length pool.now }
    ensures { OnOk result (Adds into.old into.new (define (syntax_of syntax) (definitions_at pool.now list.now))) }
{
    if list.is_empty() {
        return Ok(());
    }
    begin_line(0, b"", into)?;
    write_opening(syntax, b"define", into)?;
    write_definitions(alloc, pool, list, into)?;
    begin_line(0, define_end_text(syntax).as_bytes(), into)
}

// ---- bodies

// `begin`, statements and `end word;`, or these between `{` and `}`.
fn write_body(
    alloc: Global,
    pool: &Pool,
    syntax: Syntax,
    word: &[u8],
    stmts: &[Stmt],
    into: &mut Text,
) -> Result<(), AllocError>
    requires { past_statements stmts.now ≤ length pool.now }
    ensures { OnOk result (Adds into.old into.new (body (syntax_of syntax) word.now (statements_at pool.now stmts.now))) }
{
    match syntax {
        Syntax::P => {
            begin_line(0, b"begin", into)?;
            write_statements(alloc, pool, syntax, 2, stmts, into)?;
            begin_line(0, b"", into)?;
            write_closing(syntax, word, into)
        }
        Syntax::C => {
            begin_line(0, b"{", into)?;
            write_statements(alloc, pool, syntax, 2, stmts, into)?;
            begin_line(0, b"}", into)
        }
    }
}

// ---- macros, procedures, processes

fn write_macro(
    alloc: Global,
    pool: &Pool,
    syntax: Syntax,
    unit: &Macro,
    into: &mut Text,
) -> Result<(), AllocError>
    requires { past_macro unit.now ≤ length pool.now }
    ensures { OnOk result (Adds into.old into.new (macros (syntax_of syntax) (macro_at pool.now unit.now ∷ []))) }
{
    begin_line(0, b"macro ", into)?;
    write_name(&unit.name, into)?;
    into.push(b'(')?;
    write_names(&unit.params, into)?;
    into.push(b')')?;
    write_body(alloc, pool, syntax, b"macro", &unit.body, into)
}

/// Appends the macros.
///
/// # Errors
///
/// Only for want of memory.
pub fn write_macros(
    alloc: Global,
    pool: &Pool,
    syntax: Syntax,
    list: &[Macro],
    into: &mut Text,
) -> Result<(), AllocError>
    requires { greatest (map past_macro list.now) ≤ length pool.now }
    ensures { OnOk result (Adds into.old into.new (macros (syntax_of syntax) (map (macro_at pool.now) list.now))) }
{
    for unit in list {
        write_macro(alloc, pool, syntax, unit, into)?;
    }
    Ok(())
}

fn write_procedure(
    alloc: Global,
    pool: &Pool,
    syntax: Syntax,
    unit: &Procedure,
    into: &mut Text,
) -> Result<(), AllocError>
    requires { past_procedure unit.now ≤ length pool.now }
    ensures { OnOk result (Adds into.old into.new (procedures (syntax_of syntax) (procedure_at pool.now unit.now ∷ []))) }
{
    begin_line(0, b"procedure ", into)?;
    write_name(&unit.name, into)?;
    into.push(b'(')?;
    write_declarations(alloc, pool, &unit.params, into)?;
    into.push(b')')?;
    write_variables(alloc, pool, &unit.variables, into)?;
    write_body(alloc, pool, syntax, b"procedure", &unit.body, into)
}

/// Appends the procedures.
///
/// # Errors
///
/// Only for want of memory.
pub fn write_procedures(
    alloc: Global,
    pool: &Pool,
    syntax: Syntax,
    list: &[Procedure],
    into: &mut Text,
) -> Result<(), AllocError>
    requires { greatest (map past_procedure list.now) ≤ length pool.now }
    ensures { OnOk result (Adds into.old into.new (procedures (syntax_of syntax) (map (procedure_at pool.now) list.now))) }
{
    for unit in list {
        write_procedure(alloc, pool, syntax, unit, into)?;
    }
    Ok(())
}

// `P \in S` or `P = e`
fn write_name_and_identity(
    alloc: Global,
    pool: &Pool,
    unit: &Process,
    into: &mut Text,
) -> Result<(), AllocError>
    requires { past_process unit.now ≤ length pool.now }
    ensures { OnOk result (into.new ≡ into.old ++ (unit.now.name.word ++ (sign_text unit.now.several ++ written (at pool.now unit.now.identity)))) }
{
    write_name(&unit.name, into)?;
    into.extend(sign_of(unit.several).as_bytes())?;
    write_expr(alloc, pool, unit.identity, into)
}

fn sign_of(several: bool) -> &'static str
    ensures { result.now ≡ sign_text several }
{
    if several { " \\in " } else { " = " }
}

// `P = e`, in C-syntax in brackets.
fn write_identity(
    alloc: Global,
    pool: &Pool,
    syntax: Syntax,
    unit: &Process,
    into: &mut Text,
) -> Result<(), AllocError>
    requires { past_process unit.now ≤ length pool.now }
    ensures { OnOk result (into.new ≡ into.old ++ identity_text (syntax_of syntax) (unit.now.name.word ++ (sign_text unit.now.several ++ written (at pool.now unit.now.identity)))) }
{
    match syntax {
        Syntax::P => write_name_and_identity(alloc, pool, unit, into),
        Syntax::C => {
            into.push(b'(')?;
            write_name_and_identity(alloc, pool, unit, into)?;
            into.push(b')')
        }
    }
}

fn write_process(
    alloc: Global,
    pool: &Pool,
    syntax: Syntax,
    unit: &Process,
    into: &mut Text,
) -> Result<(), AllocError>
    requires { past_process unit.now ≤ length pool.now }
    ensures { OnOk result (Adds into.old into.new (process_lines (syntax_of syntax) (process_at pool.now unit.now ∷ []))) }
{
    begin_line(0, fairness_text(unit.fairness).as_bytes(), into)?;
    into.extend(b"process ")?;
    write_identity(alloc, pool, syntax, unit, into)?;
    write_variables(alloc, pool, &unit.variables, into)?;
    write_body(alloc, pool, syntax, b"process", &unit.body, into)
}

fn write_processes(
    alloc: Global,
    pool: &Pool,
    syntax: Syntax,
    list: &[Process],
    into: &mut Text,
) -> Result<(), AllocError>
    requires { greatest (map past_process list.now) ≤ length pool.now }
    ensures { OnOk result (Adds into.old into.new (process_lines (syntax_of syntax) (map (process_at pool.now) list.now))) }
{
    for unit in list {
        write_process(alloc, pool, syntax, unit, into)?;
    }
    Ok(())
}

// ---- what runs

fn write_alone(
    alloc: Global,
    pool: &Pool,
    syntax: Syntax,
    stmts: &[Stmt],
    into: &mut Text,
) -> Result<(), AllocError>
    requires { past_statements stmts.now ≤ length pool.now }
    ensures { OnOk result (Adds into.old into.new (main (syntax_of syntax) (alone (statements_at pool.now stmts.now)))) }
{
    match syntax {
        Syntax::P => {
            begin_line(0, b"begin", into)?;
            write_statements(alloc, pool, syntax, 2, stmts, into)
        }
        Syntax::C => {
            begin_line(0, b"{", into)?;
            write_statements(alloc, pool, syntax, 2, stmts, into)?;
            begin_line(0, b"}", into)
        }
    }
}

/// Appends the one body, or the processes.
///
/// # Errors
///
/// Only for want of memory.
pub fn write_main(
    alloc: Global,
    pool: &Pool,
    syntax: Syntax,
    runs: &Main,
    into: &mut Text,
) -> Result<(), AllocError>
    requires { past_main runs.now ≤ length pool.now }
    ensures { OnOk result (Adds into.old into.new (main (syntax_of syntax) (main_at pool.now runs.now))) }
{
    match runs {
        Main::Alone(stmts) => write_alone(alloc, pool, syntax, stmts, into),
        Main::Processes(list) => write_processes(alloc, pool, syntax, list, into),
    }
}
