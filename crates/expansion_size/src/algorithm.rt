//! How large an algorithm is with its macro calls written out.

ghost use Rattle.std.specs.Prelude.{◌≡◌, ◌<◌, ◌≤◌, ℕ, length, map};
ghost use Rattle.tla_token.specs.Limits.{deepest_statement};
ghost use Rattle.tla_tree.specs.Nesting.{greatest};
ghost use Rattle.pcal_tree.specs.Algorithm as pure;
ghost use Rattle.pcal_tree.specs.InMemory.{start_at, declarations_at, definitions_at, procedure_at, process_at, main_at, algorithm_at, past_start, past_declarations, past_definitions, past_macro, past_procedure, past_process, past_main, past_algorithm, past_statements, statements_at};
ghost use Rattle.pcal_tree.specs.Offences.{first};
ghost use Rattle.macro_expand.specs.Measured.{of_each, of_start, of_declared, of_procedure, of_process, of_main};
ghost use Rattle.macro_expand.specs.Size.{expanded_size};
ghost use Rattle.macro_expand.specs.TooLarge.{size_of_expansion as size_by_trees, too_large as too_large_by_trees};
ghost use Rattle.expansion_size.specs.Spent.{all_left, spent};
ghost use Rattle.expansion_size.specs.Budget.{budget, calls};
ghost use Rattle.expansion_size.specs.FramesIn.{put_by, past_frames, newest_first, after_all};

use crate::bodies::{DEEPEST_STATEMENT, statements};
use crate::expressions::whole;
use crate::frames::Frames;
use crate::left::{Left, MOST_NODES};
use pcal_tree::algorithm::{
    Algorithm, Declaration, Definition, Macro, Main, Procedure, Process, Start, Stmt,
};
use tla_pool::Pool;
use tla_token::{Refusal, Rule};

// A first value.
fn start(pool: &Pool, frames: &Frames<'_>, start: &Start, left: Left) -> Left
    requires there { past_start start.now ≤ length pool.now }
    requires inner { past_frames frames.now ≤ length pool.now }
    ensures { (d : ℕ) → result ≡ of_start (budget (put_by pool.now frames.now)) (start_at pool.now start.now) d left }
{
    match start {
        Start::Unset => left,
        Start::Equals(e) => whole(pool, frames, *e, left),
        Start::Among(e) => whole(pool, frames, *e, left),
    }
}

// First values.
fn declared(pool: &Pool, frames: &Frames<'_>, list: &[Declaration], left: Left) -> Left
    requires there { past_declarations list.now ≤ length pool.now }
    requires inner { past_frames frames.now ≤ length pool.now }
    ensures { (d : ℕ) → result ≡ of_declared (budget (put_by pool.now frames.now)) (declarations_at pool.now list.now) d left }
{
    let mut so_far = left;
    for one in list {
        so_far = start(pool, frames, &one.start, so_far);
    }
    so_far
}

// Definitions.
fn defined(pool: &Pool, frames: &Frames<'_>, list: &[Definition], left: Left) -> Left
    requires there { past_definitions list.now ≤ length pool.now }
    requires inner { past_frames frames.now ≤ length pool.now }
    ensures { (d : ℕ) → result ≡ of_each (budget (put_by pool.now frames.now)) (λ (o : pure.Definition). (budget (put_by pool.now frames.now)).expression o.body) (definitions_at pool.now list.now) d left }
{
    let mut so_far = left;
    for one in list {
        so_far = whole(pool, frames, one.body, so_far);
    }
    so_far
}

// A body with the variables of its routine.
fn routine(
    pool: &Pool,
    macros: &[Macro],
    frames: &Frames<'_>,
    variables: &[Declaration],
    body: &[Stmt],
    left: Left,
) -> Left
    requires variables { past_declarations variables.now ≤ length pool.now }
    requires body { past_statements body.now ≤ length pool.now }
    requires called { greatest (map past_macro macros.now) ≤ length pool.now }
    requires inner { past_frames frames.now ≤ length pool.now }
    ensures { result ≡ after_all pool.now macros.now frames.now (statements_at pool.now body.now) deepest_statement (of_declared (budget (put_by pool.now frames.now)) (declarations_at pool.now variables.now) deepest_statement left) }
{
    let so_far = declared(pool, frames, variables, left);
    statements(pool, macros, frames, body, DEEPEST_STATEMENT, so_far)
}

// Procedures.
fn procedures(
    pool: &Pool,
    macros: &[Macro],
    frames: &Frames<'_>,
    list: &[Procedure],
    left: Left,
) -> Left
    requires there { greatest (map past_procedure list.now) ≤ length pool.now }
    requires called { greatest (map past_macro macros.now) ≤ length pool.now }
    requires inner { past_frames frames.now ≤ length pool.now }
    ensures { result ≡ of_each (budget (put_by pool.now frames.now)) (of_procedure (budget (put_by pool.now frames.now)) (calls (newest_first pool.now macros.now) (put_by pool.now frames.now))) (map (procedure_at pool.now) list.now) deepest_statement left }
{
    let mut so_far = left;
    for one in list {
        let params = declared(pool, frames, &one.params, so_far);
        so_far = routine(pool, macros, frames, &one.variables, &one.body, params);
    }
    so_far
}

// Processes.
fn processes(
    pool: &Pool,
    macros: &[Macro],
    frames: &Frames<'_>,
    list: &[Process],
    left: Left,
) -> Left
    requires there { greatest (map past_process list.now) ≤ length pool.now }
    requires called { greatest (map past_macro macros.now) ≤ length pool.now }
    requires inner { past_frames frames.now ≤ length pool.now }
    ensures { result ≡ of_each (budget (put_by pool.now frames.now)) (of_process (budget (put_by pool.now frames.now)) (calls (newest_first pool.now macros.now) (put_by pool.now frames.now))) (map (process_at pool.now) list.now) deepest_statement left }
{
    let mut so_far = left;
    for one in list {
        let identity = whole(pool, frames, one.identity, so_far);
        so_far = routine(pool, macros, frames, &one.variables, &one.body, identity);
    }
    so_far
}

// What runs.
fn main(pool: &Pool, macros: &[Macro], frames: &Frames<'_>, main: &Main, left: Left) -> Left
    requires there { past_main main.now ≤ length pool.now }
    requires called { greatest (map past_macro macros.now) ≤ length pool.now }
    requires inner { past_frames frames.now ≤ length pool.now }
    ensures { result ≡ of_main (budget (put_by pool.now frames.now)) (calls (newest_first pool.now macros.now) (put_by pool.now frames.now)) (main_at pool.now main.now) deepest_statement left }
{
    match main {
        Main::Alone(body) => statements(pool, macros, frames, body, DEEPEST_STATEMENT, left),
        Main::Processes(list) => processes(pool, macros, frames, list, left),
    }
}

// What is left after the whole algorithm.
fn measured(pool: &Pool, algorithm: &Algorithm) -> Left
    requires { past_algorithm algorithm.now ≤ length pool.now }
    ensures { result ≡ spent (expanded_size (algorithm_at pool.now algorithm.now)) deepest_statement all_left }
{
    let frames = Frames::Outside;
    let globals = declared(pool, &frames, &algorithm.globals, Left::all());
    let definitions = defined(pool, &frames, &algorithm.definitions, globals);
    let bodies = procedures(
        pool,
        &algorithm.macros,
        &frames,
        &algorithm.procedures,
        definitions,
    );
    main(pool, &algorithm.macros, &frames, &algorithm.main, bodies)
}

/// How many nodes an algorithm has with its macro calls written out: statements, left sides and expressions. One more than the limit
/// stands for all that are past it, and for what nests too deep. Nothing is written out, and no memory is needed.
pub fn size_of_expansion(pool: &Pool, algorithm: &Algorithm) -> u64
    requires { past_algorithm algorithm.now ≤ length pool.now }
    ensures { result ≡ size_by_trees (algorithm_at pool.now algorithm.now) }
{
    let left = measured(pool, algorithm);
    MOST_NODES + 1 - left.nodes
}

/// The refusal of an algorithm that has too many nodes or labels or nests too deep with its macro calls written out, at its name.
/// Nothing is written out, and no memory is needed.
pub fn too_large(pool: &Pool, algorithm: &Algorithm) -> Option<Refusal>
    requires { past_algorithm algorithm.now ≤ length pool.now }
    ensures { result ≡ first (too_large_by_trees (algorithm_at pool.now algorithm.now)) }
{
    let left = measured(pool, algorithm);
    if left.nodes > 0 && left.labels > 0 {
        None
    } else {
        Some(Refusal {
            rule: Rule::TooLarge,
            place: algorithm.name.place,
        })
    }
}
