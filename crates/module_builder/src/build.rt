//! The translation of an accepted algorithm, and the module that has it.

ghost use Rattle.std.specs.Prelude.{◌≡◌, ◌≤◌, ◌↔◌, ◌&&◌, List, length, Some, Err, IfOk};
ghost use Rattle.tla_token.specs.Signs.{is_among};
ghost use Rattle.tla_token.specs.declared.rule.Refusal as code_refusal;
ghost use Rattle.tla_token.specs.declared.rule.Stop.TheVariants as stop;
ghost use Rattle.tla_tree.specs.Tree.{Tree, Word};
ghost use Rattle.tla_tree.specs.Pool.{Keeps};
ghost use Rattle.tla_value.specs.Outside.{Outside as Around};
ghost use Rattle.tla_value.specs.Defs.{DefinitionsIn};
ghost use Rattle.pcal_tree.specs.InMemory.{algorithm_at, past_algorithm};
ghost use Rattle.pcal_tree.specs.Names as names;
ghost use Rattle.pcal_tree.specs.Offences.{first};
ghost use Rattle.pcal_tree.specs.Program.{Program};
ghost use Rattle.pcal_tree.specs.Variables.{vars};
ghost use Rattle.macro_expand.specs.TooLarge.{too_large};
ghost use Rattle.module_write.specs.InMemory.{region_at, outside_at, module_at, RegionIn};
ghost use Rattle.name_bits.specs.NamesIn.{most, names_in, AllApart};
ghost use Rattle.written_names.specs.Units.{naming_of};
ghost use Rattle.action_builder.specs.OwnVariables as pure;
ghost use Rattle.action_builder.specs.WrittenNames.{with_names};
ghost use Rattle.translation.specs.Region.{region_of};
ghost use Rattle.translation.specs.laws.AcceptedAlgorithm.{IsAcceptedInFile};
ghost use Rattle.region_forms.specs.RegionBySteps.{region_by_steps};
ghost use Rattle.module_formulas.specs.TakersIn.{Runs};
ghost use Rattle.label_actions.specs.Fitting.{IsActable};

use crate::open::opened;
use crate::region::region;
use draft::Draft;
use draft::variables::{own_bits, own_variables, variables};
use module_formulas::names::word;
use module_write::module::{Module, Outside, Region};
use name_bits::{Bits, Order};
use pcal_tree::algorithm::Algorithm;
use std::alloc::{AllocError, Global};
use tla_pool::Pool;
use tla_token::Stop;
use tla_tree::Name;
use written_names::naming::Naming;

// The variables of the translation, numbered.
fn order(alloc: Global, algorithm: &Algorithm, naming: &Naming) -> Result<Order, AllocError>
    ensures { IfOk result (λ r. (ts : List Tree) (P : Program) → algorithm_at ts algorithm.now ≡ P.algorithm → naming_of naming.now ≡ P.naming → AllApart (vars P) → r ≡ vars P) }
{
    let names = variables(alloc, algorithm, naming)?;
    Order::new(alloc, names.as_slice())
}

// Which of them each process has for itself.
fn own(
    alloc: Global,
    algorithm: &Algorithm,
    naming: &Naming,
    order: &Order,
) -> Result<Bits, AllocError>
    ensures { IfOk result (λ r. (ts : List Tree) (P : Program) → algorithm_at ts algorithm.now ≡ P.algorithm → naming_of naming.now ≡ P.naming → order.now ≡ vars P → length (vars P) ≤ most → (x : Word) → is_among (names_in order.now r) x ≡ pure.is_own_variable P x) }
{
    let names = own_variables(alloc, algorithm, naming)?;
    Ok(own_bits(order, names.as_slice()))
}

// The translation of an algorithm whose macro calls are written out.
fn opened_region(
    alloc: Global,
    pool: &mut Pool,
    algorithm: &Algorithm,
    naming: &Naming,
    no_terminating: bool,
) -> Result<Region, AllocError>
    requires { past_algorithm algorithm.now ≤ length pool.old }
    ensures made { (P : Program) → algorithm_at pool.old algorithm.now ≡ P.algorithm → naming_of naming.now ≡ P.naming → AllApart (vars P) → Runs P.algorithm.main → IsActable P → IfOk result (λ r. region_at pool.new r ≡ region_by_steps no_terminating P) }
    ensures within { IfOk result (RegionIn (length pool.new)) }
    ensures kept { Keeps pool.old pool.new }
{
    let order = order(alloc, algorithm, naming)?;
    let own = own(alloc, algorithm, naming, &order)?;
    let this = word(alloc, b"self")?;
    let draft = Draft {
        algorithm,
        naming,
        order: &order,
        own: &own,
        this: &this,
    };
    region(alloc, pool, &draft, no_terminating)
}

/// The translation of an algorithm with these written names.
///
/// # Errors
///
/// Rule 49 at the algorithm's name, exactly where it is too large with its macro calls written out; else only for want of memory, and
/// then the pool may have more nodes than before.
pub fn built_region(
    alloc: Global,
    pool: &mut Pool,
    algorithm: Algorithm,
    naming: &Naming,
    no_terminating: bool,
) -> Result<Region, Stop>
    requires { past_algorithm algorithm ≤ length pool.old }
    ensures built { (o : Around) → IsAcceptedInFile o (algorithm_at pool.old algorithm) → naming_of naming.now ≡ names.naming (algorithm_at pool.old algorithm) o → length (vars (with_names o (algorithm_at pool.old algorithm))) ≤ most → IfOk result (λ r. region_at pool.new r ≡ region_of no_terminating (with_names o (algorithm_at pool.old algorithm))) }
    ensures within { IfOk result (RegionIn (length pool.new)) }
    ensures kept { Keeps pool.old pool.new }
    ensures refused { (r : code_refusal.Refusal) → (result ≡ Err (stop.Refused r)) ↔ (first (too_large (algorithm_at pool.old algorithm)) ≡ Some r) }
{
    let made = opened(alloc, pool, algorithm)?;
    let region = opened_region(alloc, pool, &made, naming, no_terminating)?;
    Ok(region)
}

/// The module of this name, with this outside and the translation of an algorithm with these written names.
///
/// # Errors
///
/// Rule 49 at the algorithm's name, exactly where it is too large with its macro calls written out; else only for want of memory, and
/// then the pool may have more nodes than before.
pub fn built_module(
    alloc: Global,
    pool: &mut Pool,
    title: Name,
    outside: Outside,
    algorithm: Algorithm,
    naming: &Naming,
    no_terminating: bool,
) -> Result<Module, Stop>
    requires algorithm { past_algorithm algorithm ≤ length pool.old }
    requires outside { DefinitionsIn (length pool.old) outside.definitions }
    ensures built { (o : Around) → IsAcceptedInFile o (algorithm_at pool.old algorithm) → naming_of naming.now ≡ names.naming (algorithm_at pool.old algorithm) o → length (vars (with_names o (algorithm_at pool.old algorithm))) ≤ most → IfOk result (λ m. module_at pool.new m ≡ record { title = title; outside = outside_at pool.old outside; region = region_of no_terminating (with_names o (algorithm_at pool.old algorithm)) }) }
    ensures region { IfOk result (λ m. RegionIn (length pool.new) m.region) }
    ensures definitions { IfOk result (λ m. DefinitionsIn (length pool.new) m.outside.definitions) }
    ensures kept { Keeps pool.old pool.new }
    ensures refused { (r : code_refusal.Refusal) → (result ≡ Err (stop.Refused r)) ↔ (first (too_large (algorithm_at pool.old algorithm)) ≡ Some r) }
{
    let region = built_region(alloc, pool, algorithm, naming, no_terminating)?;
    Ok(Module {
        title,
        outside,
        region,
    })
}
