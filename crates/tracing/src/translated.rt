//! The translation of a module's algorithm, in memory.

ghost use Rattle.std.specs.Prelude.{◌≡◌, ◌<◌, ◌^◌, ◌++◌, ℕ, List, length, Some, IfOk, IfErr, OnOk};
ghost use Rattle.std.specs.Option.{option_map};
ghost use Rattle.tla_tree.specs.Tree.{Tree};
ghost use Rattle.tla_tree.specs.Pool.{at};
ghost use Rattle.tla_value.specs.Defs.{definitions_at, DefinitionsIn};
ghost use Rattle.pcal_tree.specs.InMemory.{algorithm_at};
ghost use Rattle.pcal_tree.specs.Offences.{first};
ghost use Rattle.macro_expand.specs.TooLarge.{too_large};
ghost use Rattle.module_tree.specs.ModuleTruth.{process_set_defined};
ghost use Rattle.module_write.specs.InMemory.{MaybeIn};
ghost use Rattle.file_answer.specs.Checking.{AnswersChecking};
ghost use Rattle.file_answer.specs.Refusals.{IsStop};
ghost use Rattle.module_outside.specs.WholeAt.{outside_at};
ghost use Rattle.run_answer.specs.Chosen.{Right, algorithm_in};
ghost use Rattle.running.specs.Ready.{CanRun};
ghost use Rattle.tracing.specs.Translated.{IsTranslation};

use checking::check::Checked;
use module_builder::built_region;
use module_write::module::Region;
use running::run_definitions;
use running::source::checked_source;
use running::words::word;
use std::alloc::{AllocError, Global};
use tla_pool::Pool;
use tla_token::{Place, Stop};
use tla_tree::{NameList, NodeId};
use tla_value::names::{Definition, Defs};

/// The translation of a module's algorithm, in memory.
#[derive(Drop)]
pub struct Translation {
    /// The expressions.
    pub pool: Pool,
    /// The units.
    pub region: Region,
    /// All definitions that its formulas see, in their order.
    pub defs: Defs,
}

// Adds `ProcSet`, of an algorithm with processes.
fn add_process_set(alloc: Global, set: Option<NodeId>, defs: &mut Defs) -> Result<(), AllocError>
    ensures added { OnOk result ((ts : List Tree) → definitions_at ts defs.new ≡ definitions_at ts defs.old ++ process_set_defined (option_map (at ts) set)) }
    ensures within { OnOk result ((m : ℕ) → DefinitionsIn m defs.old → MaybeIn m set → DefinitionsIn m defs.new) }
{
    let body = match set {
        Some(body) => body,
        None => return Ok(()),
    };
    let name = word(alloc, b"ProcSet")?;
    let params = NameList::new(alloc);
    let place = Place { line: 0, col: 0 };
    defs.push(Definition {
        name,
        params,
        body,
        outside: false,
        place,
    })?;
    Ok(())
}

// The translation of a checked algorithm.
fn translation_of(
    alloc: Global,
    mut pool: Pool,
    checked: Checked,
    no_terminating: bool,
) -> Result<Translation, Stop>
    requires { CanRun pool checked }
    ensures made { IfOk result (IsTranslation no_terminating (outside_at pool checked.outside) (algorithm_at pool checked.algorithm)) }
    ensures stopped { IfErr result (IsStop (λ r. first (too_large (algorithm_at pool checked.algorithm)) ≡ Some r)) }
{
    let Checked {
        algorithm,
        naming,
        outside,
    } = checked;
    let mut defs = run_definitions(alloc, outside.definitions.as_slice(), &algorithm)?;
    let region = match built_region(alloc, &mut pool, algorithm, &naming, no_terminating) {
        Ok(region) => region,
        Err(stop) => return Err(stop),
    };
    add_process_set(alloc, region.process_set, &mut defs)?;
    Ok(Translation { pool, region, defs })
}

/// The translation of the algorithm of a text with which nothing is wrong.
///
/// # Errors
///
/// The least of the rules 1 to 49 that the text breaks, at its first place; or want of memory.
pub fn translated(
    alloc: Global,
    source: &[u8],
    forced: bool,
    no_terminating: bool,
) -> Result<Translation, Stop>
    requires { length source.now < 2 ^ 29 }
    ensures made { IfOk result (λ t. (m : Right forced source.now) → IsTranslation no_terminating m.outside (algorithm_in m) t) }
    ensures stopped { IfErr result (IsStop (λ r. AnswersChecking forced source.now (Some r))) }
{
    let mut pool = Pool::new(alloc);
    let checked = match checked_source(alloc, source, forced, &mut pool) {
        Ok(checked) => checked,
        Err(stop) => return Err(stop),
    };
    translation_of(alloc, pool, checked, no_terminating)
}
