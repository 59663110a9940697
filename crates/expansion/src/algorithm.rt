//! Algorithms with their macro calls written out.

ghost use Rattle.std.specs.Prelude.{◌≡◌, ◌≤◌, ◌↔◌, List, [], length, map, reverse, Some, None, Err, IfOk};
ghost use Rattle.tla_token.specs.declared.rule.Refusal as code_refusal;
ghost use Rattle.tla_token.specs.declared.rule.Stop.TheVariants as stop;
ghost use Rattle.tla_tree.specs.Tree.{Tree};
ghost use Rattle.tla_tree.specs.Pool.{Keeps};
ghost use Rattle.tla_tree.specs.Nesting.{greatest};
ghost use Rattle.pcal_tree.specs.Expand.{expanded};
ghost use Rattle.pcal_tree.specs.InMemory.{definition_at, definitions_at, procedure_at, process_at, main_at, algorithm_at, past_definition, past_definitions, past_macro, past_procedure, past_process, past_main, past_algorithm};
ghost use Rattle.pcal_tree.specs.Offences.{first};
ghost use Rattle.macro_expand.specs.Size.{expanded_main, expansion};
ghost use Rattle.macro_expand.specs.TooLarge.{too_large as too_large_by_trees};
ghost use Rattle.expansion_size.specs.FramesIn.{newest_first};
ghost use Rattle.expansion.specs.Expanded.{expanded_procedure, expanded_process};

use crate::bodies::body;
use expansion_size::frames::Frames;
use expansion_size::too_large;
use pcal_tree::algorithm::{
    Algorithm, Declaration, Definition, Macro, Main, Procedure, Process, Start,
};
use std::alloc::{AllocError, Global};
use tla_pool::Pool;
use tla_token::Stop;
use tla_tree::PlacedName;

// ---- what is as it was

// The same names once more.
fn names(alloc: Global, list: &[PlacedName]) -> Result<Vec<PlacedName>, AllocError>
    ensures { IfOk result (λ r. r.items ≡ list.now) }
{
    let mut copies = Vec::new(alloc);
    for name in list {
        copies.push(name.copied()?)?;
    }
    Ok(copies)
}

// The same first value once more.
fn start(start: &Start) -> Start
    ensures { result ≡ start.now }
{
    match start {
        Start::Unset => Start::Unset,
        Start::Equals(e) => Start::Equals(*e),
        Start::Among(e) => Start::Among(*e),
    }
}

// The same declaration once more.
fn declaration(one: &Declaration) -> Result<Declaration, AllocError>
    ensures { IfOk result (λ r. r ≡ one.now) }
{
    let name = one.name.copied()?;
    Ok(Declaration {
        name,
        start: start(&one.start),
    })
}

// The same declarations once more.
fn declarations(alloc: Global, list: &[Declaration]) -> Result<Vec<Declaration>, AllocError>
    ensures { IfOk result (λ r. r.items ≡ list.now) }
{
    let mut copies = Vec::new(alloc);
    for one in list {
        copies.push(declaration(one)?)?;
    }
    Ok(copies)
}

// The same definition once more.
fn definition(alloc: Global, one: &Definition) -> Result<Definition, AllocError>
    ensures same { (ts : List Tree) → IfOk result (λ r. definition_at ts r ≡ definition_at ts one.now) }
    ensures past { IfOk result (λ r. past_definition r ≡ past_definition one.now) }
{
    let params = names(alloc, &one.params)?;
    Ok(Definition {
        name: one.name.copied()?,
        params,
        body: one.body,
    })
}

// The same definitions once more.
fn definitions(alloc: Global, list: &[Definition]) -> Result<Vec<Definition>, AllocError>
    ensures same { (ts : List Tree) → IfOk result (λ r. definitions_at ts r.items ≡ definitions_at ts list.now) }
    ensures past { IfOk result (λ r. past_definitions r.items ≡ past_definitions list.now) }
{
    let mut copies = Vec::new(alloc);
    for one in list {
        copies.push(definition(alloc, one)?)?;
    }
    Ok(copies)
}

// ---- bodies

// A procedure.
fn procedure(
    alloc: Global,
    pool: &mut Pool,
    macros: &[Macro],
    one: &Procedure,
) -> Result<Procedure, AllocError>
    requires there { past_procedure one.now ≤ length pool.old }
    requires called { greatest (map past_macro macros.now) ≤ length pool.old }
    ensures made { IfOk result (λ r. procedure_at pool.new r ≡ expanded_procedure (newest_first pool.old macros.now) (procedure_at pool.old one.now)) }
    ensures within { IfOk result (λ r. past_procedure r ≤ length pool.new) }
    ensures kept { Keeps pool.old pool.new }
{
    let body = body(alloc, pool, macros, &Frames::Outside, &one.body)?;
    let params = declarations(alloc, &one.params)?;
    let variables = declarations(alloc, &one.variables)?;
    Ok(Procedure {
        name: one.name.copied()?,
        params,
        variables,
        body,
    })
}

// Procedures.
fn procedures(
    alloc: Global,
    pool: &mut Pool,
    macros: &[Macro],
    list: &[Procedure],
) -> Result<Vec<Procedure>, AllocError>
    requires there { greatest (map past_procedure list.now) ≤ length pool.old }
    requires called { greatest (map past_macro macros.now) ≤ length pool.old }
    ensures made { IfOk result (λ r. map (procedure_at pool.new) r.items ≡ map (expanded_procedure (newest_first pool.old macros.now)) (map (procedure_at pool.old) list.now)) }
    ensures within { IfOk result (λ r. greatest (map past_procedure r.items) ≤ length pool.new) }
    ensures kept { Keeps pool.old pool.new }
{
    let mut made = Vec::new(alloc);
    for one in list {
        made.push(procedure(alloc, pool, macros, one)?)?;
    }
    Ok(made)
}

// A process.
fn process(
    alloc: Global,
    pool: &mut Pool,
    macros: &[Macro],
    one: &Process,
) -> Result<Process, AllocError>
    requires there { past_process one.now ≤ length pool.old }
    requires called { greatest (map past_macro macros.now) ≤ length pool.old }
    ensures made { IfOk result (λ r. process_at pool.new r ≡ expanded_process (newest_first pool.old macros.now) (process_at pool.old one.now)) }
    ensures within { IfOk result (λ r. past_process r ≤ length pool.new) }
    ensures kept { Keeps pool.old pool.new }
{
    let body = body(alloc, pool, macros, &Frames::Outside, &one.body)?;
    let variables = declarations(alloc, &one.variables)?;
    Ok(Process {
        name: one.name.copied()?,
        fairness: one.fairness,
        several: one.several,
        identity: one.identity,
        variables,
        body,
    })
}

// Processes.
fn processes(
    alloc: Global,
    pool: &mut Pool,
    macros: &[Macro],
    list: &[Process],
) -> Result<Vec<Process>, AllocError>
    requires there { greatest (map past_process list.now) ≤ length pool.old }
    requires called { greatest (map past_macro macros.now) ≤ length pool.old }
    ensures made { IfOk result (λ r. map (process_at pool.new) r.items ≡ map (expanded_process (newest_first pool.old macros.now)) (map (process_at pool.old) list.now)) }
    ensures within { IfOk result (λ r. greatest (map past_process r.items) ≤ length pool.new) }
    ensures kept { Keeps pool.old pool.new }
{
    let mut made = Vec::new(alloc);
    for one in list {
        made.push(process(alloc, pool, macros, one)?)?;
    }
    Ok(made)
}

// What runs.
fn main_part(
    alloc: Global,
    pool: &mut Pool,
    macros: &[Macro],
    main: &Main,
) -> Result<Main, AllocError>
    requires there { past_main main.now ≤ length pool.old }
    requires called { greatest (map past_macro macros.now) ≤ length pool.old }
    ensures made { IfOk result (λ r. main_at pool.new r ≡ expanded_main (expanded (newest_first pool.old macros.now)) (main_at pool.old main.now)) }
    ensures within { IfOk result (λ r. past_main r ≤ length pool.new) }
    ensures kept { Keeps pool.old pool.new }
{
    match main {
        Main::Alone(stmts) => {
            let alone = body(alloc, pool, macros, &Frames::Outside, stmts)?;
            Ok(Main::Alone(alone))
        }
        Main::Processes(list) => Ok(Main::Processes(processes(alloc, pool, macros, list)?)),
    }
}

// ---- the algorithm

// What has bodies.
#[derive(Drop)]
struct Bodies {
    procedures: Vec<Procedure>,
    main: Main,
}

// What has bodies, written out.
fn written_bodies(
    alloc: Global,
    pool: &mut Pool,
    algorithm: &Algorithm,
) -> Result<Bodies, AllocError>
    requires { past_algorithm algorithm.now ≤ length pool.old }
    ensures procedures { IfOk result (λ r. map (procedure_at pool.new) r.procedures.items ≡ (expansion (algorithm_at pool.old algorithm.now)).procedures) }
    ensures main { IfOk result (λ r. main_at pool.new r.main ≡ (expansion (algorithm_at pool.old algorithm.now)).main) }
    ensures all_within { IfOk result (λ r. greatest (map past_procedure r.procedures.items) ≤ length pool.new) }
    ensures main_within { IfOk result (λ r. past_main r.main ≤ length pool.new) }
    ensures kept { Keeps pool.old pool.new }
{
    let procedures = procedures(alloc, pool, &algorithm.macros, &algorithm.procedures)?;
    let main = main_part(alloc, pool, &algorithm.macros, &algorithm.main)?;
    Ok(Bodies { procedures, main })
}

// The algorithm with its macro calls written out, without its macros.
fn written(alloc: Global, pool: &mut Pool, algorithm: &Algorithm) -> Result<Algorithm, AllocError>
    requires { past_algorithm algorithm.now ≤ length pool.old }
    ensures made { IfOk result (λ r. algorithm_at pool.new r ≡ expansion (algorithm_at pool.old algorithm.now)) }
    ensures within { IfOk result (λ r. past_algorithm r ≤ length pool.new) }
    ensures kept { Keeps pool.old pool.new }
{
    let made = written_bodies(alloc, pool, algorithm)?;
    let globals = declarations(alloc, &algorithm.globals)?;
    let definitions = definitions(alloc, &algorithm.definitions)?;
    Ok(Algorithm {
        name: algorithm.name.copied()?,
        fair: algorithm.fair,
        globals,
        definitions,
        macros: Vec::new(alloc),
        procedures: made.procedures,
        main: made.main,
    })
}

/// The algorithm with its macro calls written out, without its macros. Its expressions are in the same pool, where those that were
/// there keep their numbers.
///
/// # Errors
///
/// Rule 49 at the algorithm's name, exactly where it is too large with its macro calls written out, and then nothing was written; else
/// only for want of memory, and then the pool may have more nodes than before.
pub fn expand(alloc: Global, pool: &mut Pool, algorithm: &Algorithm) -> Result<Algorithm, Stop>
    requires { past_algorithm algorithm.now ≤ length pool.old }
    ensures made { IfOk result (λ r. algorithm_at pool.new r ≡ expansion (algorithm_at pool.old algorithm.now)) }
    ensures within { IfOk result (λ r. past_algorithm r ≤ length pool.new) }
    ensures kept { Keeps pool.old pool.new }
    ensures fine { IfOk result (λ r. first (too_large_by_trees (algorithm_at pool.old algorithm.now)) ≡ None) }
    ensures same { (r : code_refusal.Refusal) → result ≡ Err (stop.Refused r) → pool.new ≡ pool.old }
    ensures refused { (r : code_refusal.Refusal) → (result ≡ Err (stop.Refused r)) ↔ (first (too_large_by_trees (algorithm_at pool.old algorithm.now)) ≡ Some r) }
{
    match too_large(pool, algorithm) {
        Some(refusal) => Err(Stop::Refused(refusal)),
        None => Ok(written(alloc, pool, algorithm)?),
    }
}
