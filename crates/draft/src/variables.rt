//! The variables of a translation, and those of them that each process has for itself, by their written names.

ghost use Rattle.std.specs.Prelude.{◌≡◌, ◌≤◌, ◌∷◌, ◌++◌, ◌&&◌, ◌||◌, ℕ, [], List, Bool, true, bytes_eq, length, filter, IfOk, OnOk};
ghost use Rattle.std.specs.Prelude as prelude;
ghost use Rattle.tla_token.specs.Signs.{is_among};
ghost use Rattle.tla_tree.specs.Tree.{Word, Tree};
ghost use Rattle.pcal_tree.specs.Algorithm.{numbered, procedure_routine, process_routine, procedure_routines, main_routines};
ghost use Rattle.pcal_tree.specs.InMemory.{procedure_at, process_at, algorithm_at};
ghost use Rattle.pcal_tree.specs.Program.{Program};
ghost use Rattle.pcal_tree.specs.Variables.{pc, stack_for, declared, written_by_all, vars};
ghost use Rattle.name_bits.specs.NamesIn.{most, names_in};
ghost use Rattle.written_names.specs.Units.{naming_of};
ghost use Rattle.action_builder.specs.OwnVariables.{own_variables as own_variables_of};
ghost use Rattle.draft.specs.RoutineNames.{words_of, all_names_where, main_names_where};

use name_bits::{Bits, Order};
use pcal_tree::algorithm::{Algorithm, Declaration, Main, Procedure, Process};
use std::alloc::{AllocError, Global};
use tla_tree::{Name, NameList};
use written_names::naming::Naming;

// The sum of two numbers. One past the largest number is more routines than memory has.
fn sum(m: usize, n: usize) -> Result<usize, AllocError>
    ensures { IfOk result (λ s. s ≡ prelude.◌+◌ m n) }
{
    m.checked_add(n).ok_or(AllocError)
}

// Adds a word.
fn add_word(alloc: Global, word: &[u8], into: &mut NameList) -> Result<(), AllocError>
    ensures { OnOk result (into.new ≡ into.old ++ word.now ∷ []) }
{
    into.push(Name::new(Vec::from_slice(alloc, word)?))
}

// Adds the names of global variables, which keep them.
fn add_globals(globals: &[Declaration], into: &mut NameList) -> Result<(), AllocError>
    ensures { OnOk result (into.new ≡ into.old ++ words_of globals.now) }
{
    for declaration in globals {
        into.push(declaration.name.name.copied()?)?;
    }
    Ok(())
}

// Adds `pc`, and the stack where there are procedures.
fn add_control(
    alloc: Global,
    procedures: &[Procedure],
    into: &mut NameList,
) -> Result<(), AllocError>
    ensures { OnOk result ((ts : List Tree) (n : ℕ) → into.new ≡ into.old ++ (pc ∷ stack_for (numbered procedure_routine n (prelude.map (procedure_at ts) procedures.now)))) }
{
    add_word(alloc, b"pc", into)?;
    if procedures.is_empty() {
        Ok(())
    } else {
        add_word(alloc, b"stack", into)
    }
}

// Adds the written names of variables or parameters of a routine.
fn add_locals(
    naming: &Naming,
    unit: usize,
    declarations: &[Declaration],
    into: &mut NameList,
) -> Result<(), AllocError>
    ensures { OnOk result (into.new ≡ into.old ++ prelude.map ((naming_of naming.now).local unit) (words_of declarations.now)) }
{
    for declaration in declarations {
        let written = naming.local(unit, &declaration.name.name);
        into.push(written.copied()?)?;
    }
    Ok(())
}

// Adds those of procedures, of which the first has this number.
fn add_procedures(
    naming: &Naming,
    first: usize,
    list: &[Procedure],
    into: &mut NameList,
) -> Result<(), AllocError>
    ensures { OnOk result ((ts : List Tree) → into.new ≡ into.old ++ all_names_where (naming_of naming.now) true (numbered procedure_routine first (prelude.map (procedure_at ts) list.now))) }
{
    let mut number = first;
    for procedure in list {
        add_locals(naming, number, &procedure.params, into)?;
        add_locals(naming, number, &procedure.variables, into)?;
        number = sum(number, 1)?;
    }
    Ok(())
}

// Adds those of a process; nothing where only process sets are wanted and it is a single one.
fn add_process(
    naming: &Naming,
    number: usize,
    every: bool,
    process: &Process,
    into: &mut NameList,
) -> Result<(), AllocError>
    ensures { OnOk result ((ts : List Tree) → into.new ≡ into.old ++ all_names_where (naming_of naming.now) every (process_routine number (process_at ts process.now) ∷ [])) }
{
    if every || process.several {
        add_locals(naming, number, &process.variables, into)
    } else {
        Ok(())
    }
}

// Adds those of processes, of which the first has this number.
fn add_processes(
    naming: &Naming,
    first: usize,
    every: bool,
    list: &[Process],
    into: &mut NameList,
) -> Result<(), AllocError>
    ensures { OnOk result ((ts : List Tree) → into.new ≡ into.old ++ all_names_where (naming_of naming.now) every (numbered process_routine first (prelude.map (process_at ts) list.now))) }
{
    let mut number = first;
    for process in list {
        add_process(naming, number, every, process, into)?;
        number = sum(number, 1)?;
    }
    Ok(())
}

// Adds those of what runs, of which the first has this number. The one body has none.
fn add_main(
    naming: &Naming,
    first: usize,
    every: bool,
    main: &Main,
    into: &mut NameList,
) -> Result<(), AllocError>
    ensures { OnOk result ((ts : List Tree) → into.new ≡ into.old ++ main_names_where (naming_of naming.now) every first ts main.now) }
{
    match main {
        Main::Alone(_) => Ok(()),
        Main::Processes(list) => add_processes(naming, first, every, list, into),
    }
}

// Adds all names but those of globals; those of processes, all or only those of process sets.
fn add_all(
    alloc: Global,
    algorithm: &Algorithm,
    naming: &Naming,
    every: bool,
    into: &mut NameList,
) -> Result<(), AllocError>
    ensures { OnOk result ((ts : List Tree) (P : Program) → algorithm_at ts algorithm.now ≡ P.algorithm → naming_of naming.now ≡ P.naming → into.new ≡ into.old ++ (pc ∷ stack_for (procedure_routines P.algorithm)) ++ written_by_all P (procedure_routines P.algorithm) ++ written_by_all P (filter (λ u. every || u.spread) (main_routines P.algorithm P.algorithm.main))) }
{
    add_control(alloc, &algorithm.procedures, into)?;
    let first = algorithm.macros.len();
    add_procedures(naming, first, &algorithm.procedures, into)?;
    let number = sum(first, algorithm.procedures.len())?;
    add_main(naming, number, every, &algorithm.main, into)
}

/// The variables of the translation of an algorithm, in their order.
///
/// # Errors
///
/// Only for want of memory.
pub fn variables(
    alloc: Global,
    algorithm: &Algorithm,
    naming: &Naming,
) -> Result<NameList, AllocError>
    ensures { IfOk result (λ r. (ts : List Tree) (P : Program) → algorithm_at ts algorithm.now ≡ P.algorithm → naming_of naming.now ≡ P.naming → r ≡ vars P) }
{
    let mut names = NameList::new(alloc);
    add_globals(&algorithm.globals, &mut names)?;
    add_all(alloc, algorithm, naming, true, &mut names)?;
    Ok(names)
}

/// Those of them that each process has for itself; none where there is one body.
///
/// # Errors
///
/// Only for want of memory.
pub fn own_variables(
    alloc: Global,
    algorithm: &Algorithm,
    naming: &Naming,
) -> Result<NameList, AllocError>
    ensures { IfOk result (λ r. (ts : List Tree) (P : Program) → algorithm_at ts algorithm.now ≡ P.algorithm → naming_of naming.now ≡ P.naming → r ≡ own_variables_of P) }
{
    let mut names = NameList::new(alloc);
    match &algorithm.main {
        Main::Alone(_) => Ok(names),
        Main::Processes(_) => {
            add_all(alloc, algorithm, naming, false, &mut names)?;
            Ok(names)
        }
    }
}

// A set with a name of an order too, if the order has it.
fn with_known(bits: Bits, order: &Order, name: &Name) -> Bits
    ensures { length order.now ≤ most → (x : Word) → is_among (names_in order.now result) x ≡ (is_among (names_in order.now bits) x || (bytes_eq name.now x && is_among order.now x)) }
{
    if order.has(name) {
        bits.with_name(order, name)
    } else {
        bits
    }
}

/// Which of the names of an order are among these.
pub fn own_bits(order: &Order, names: &[Name]) -> Bits
    ensures { length order.now ≤ most → (x : Word) → is_among (names_in order.now result) x ≡ (is_among names.now x && is_among order.now x) }
{
    let mut bits = Bits::empty();
    for name in names {
        bits = with_known(bits, order, name);
    }
    bits
}
