//! Whether anything is wrong with a module and its algorithm.

ghost use Rattle.std.specs.Prelude.{◌≡◌, ◌<◌, ◌≤◌, ◌^◌, ◌++◌, [], length, codes, Err, None, Some, IfOk, IfErr, OnOk};
ghost use Rattle.tla_token.specs.declared.rule.Refusal as refusals;
ghost use Rattle.tla_token.specs.declared.rule.Stop.TheVariants as stop;
ghost use Rattle.pcal_tree.specs.InMemory.{algorithm_at, past_algorithm};
ghost use Rattle.pcal_tree.specs.Offences.{first};
ghost use Rattle.pcal_tree.specs.OffencesLabels.{label_offences};
ghost use Rattle.macro_expand.specs.TooLarge.{too_large};
ghost use Rattle.module_tree.specs.FileOffences.{splitting_offences};
ghost use Rattle.module_split.specs.Splitting.{Splits};
ghost use Rattle.file_answer.specs.Checking.{AnswersChecking};
ghost use Rattle.file_answer.specs.Refusals.{IsStop};
ghost use Rattle.pcal_tree.specs.Labelled.{labelled};
ghost use Rattle.pcal_tree.specs.Names.{naming};
ghost use Rattle.module_tree.specs.Walk.{walk};
ghost use Rattle.module_tree.specs.laws.Outsides.{HasOutside};
ghost use Rattle.module_outside.specs.FoundAt.{AreHeld};
ghost use Rattle.module_outside.specs.WholeAt.{outside_at};
ghost use Rattle.written_names.specs.Units.{naming_of};
ghost use Rattle.checking.specs.CheckedIn.{wrong_with, IsLabelled};

use crate::labels::labels_and_size;
use added_labels::add::add_labels;
use module_outside::outside::{Outside, read_outside};
use module_split::split::split;
use module_tree::Parts;
use name_rules::name_all;
use pcal_tree::algorithm::Algorithm;
use rewriting::read_parts;
use std::alloc::{AllocError, Global};
use tla_pool::Pool;
use tla_token::Stop;
use written_names::naming::Naming;

/// The algorithm of a module with which nothing is wrong: with its labels added, with the names that it is written with, and with what
/// the module has outside.
#[derive(Drop)]
pub struct Checked {
    /// The algorithm, whose expressions are numbers of a pool.
    pub algorithm: Algorithm,
    /// Its written names.
    pub naming: Naming,
    /// What the module has outside.
    pub outside: Outside,
}

// Whether the labels of an algorithm are right, and it isn't too large.
#[tactic(auto, using(file_answer::proofs::Unrefused::none_first))]
fn check_labels(alloc: Global, pool: &Pool, algorithm: &Algorithm) -> Result<(), Stop>
    requires { past_algorithm algorithm.now ≤ length pool.now }
    ensures clean { OnOk result (label_offences (algorithm_at pool.now algorithm.now) ++ too_large (algorithm_at pool.now algorithm.now) ≡ []) }
    ensures refused { (r : refusals.Refusal) → result ≡ Err (stop.Refused r) → first (label_offences (algorithm_at pool.now algorithm.now) ++ too_large (algorithm_at pool.now algorithm.now)) ≡ Some r }
{
    match labels_and_size(alloc, pool, algorithm)? {
        Some(refusal) => Err(Stop::Refused(refusal)),
        None => Ok(()),
    }
}

// An algorithm with labels added, and what its module has outside.
#[derive(Drop)]
struct Beside {
    algorithm: Algorithm,
    outside: Outside,
}

// An algorithm with labels added, and its written names, if it breaks no rule on names, labels and sizes.
fn rules_kept(alloc: Global, pool: &Pool, beside: Beside) -> Result<Checked, Stop>
    requires { past_algorithm beside.algorithm ≤ length pool.now }
    ensures algorithm { IfOk result (λ c. c.algorithm ≡ beside.algorithm) }
    ensures outside { IfOk result (λ c. c.outside ≡ beside.outside) }
    ensures names { IfOk result (λ c. naming_of c.naming ≡ naming (algorithm_at pool.now beside.algorithm) (outside_at pool.now beside.outside)) }
    ensures clean { OnOk result (wrong_with pool.now beside.algorithm beside.outside ≡ []) }
    ensures refused { (r : refusals.Refusal) → result ≡ Err (stop.Refused r) → first (wrong_with pool.now beside.algorithm beside.outside) ≡ Some r }
{
    let naming = match name_all(alloc, pool, &beside.algorithm, &beside.outside) {
        Ok(naming) => naming,
        Err(stop) => return Err(stop),
    };
    match check_labels(alloc, pool, &beside.algorithm) {
        Ok(()) => {
            let Beside { algorithm, outside } = beside;
            Ok(Checked {
                algorithm,
                naming,
                outside,
            })
        }
        Err(stop) => Err(stop),
    }
}

// The algorithm of a module with these parts with labels added, beside what the module has outside.
fn with_labels(
    alloc: Global,
    parts: &Parts<'_>,
    forced: bool,
    pool: &mut Pool,
    read: Algorithm,
) -> Result<Beside, AllocError>
    requires parts { Splits parts.now.text.now parts.now }
    requires past { past_algorithm read ≤ length pool.old }
    ensures algorithm { IfOk result (λ p. algorithm_at pool.new p.algorithm ≡ labelled forced (algorithm_at pool.old read)) }
    ensures past { IfOk result (λ p. past_algorithm p.algorithm ≤ length pool.new) }
    ensures outside { IfOk result (λ p. HasOutside (walk parts.now.text.now) (outside_at pool.new p.outside)) }
    ensures held { IfOk result (λ p. AreHeld (length pool.new) p.outside.definitions.items) }
{
    let outside = read_outside(alloc, pool, &parts.before, &parts.after)?;
    let algorithm = add_labels(alloc, pool, read, forced)?;
    Ok(Beside { algorithm, outside })
}

/// The algorithm of a module with these parts, with which nothing is wrong.
///
/// # Errors
///
/// The least of the rules 11 to 49 that the algorithm breaks, at its first place; or want of memory.
pub fn checked_parts(
    alloc: Global,
    parts: &Parts<'_>,
    forced: bool,
    pool: &mut Pool,
) -> Result<Checked, Stop>
    requires small { length parts.now.text.now < 2 ^ 29 }
    requires parts { Splits parts.now.text.now parts.now }
    requires fine { splitting_offences parts.now.text.now ≡ [] }
    ensures labelled { IfOk result (λ c. IsLabelled forced parts.now.text.now pool.new c) }
    ensures clean { IfOk result (λ c. AnswersChecking forced parts.now.text.now None) }
    ensures stopped { IfErr result (λ e. IsStop (λ r. AnswersChecking forced parts.now.text.now (Some r)) e) }
{
    let read = match read_parts(alloc, parts, pool) {
        Ok(read) => read,
        Err(stop) => return Err(stop),
    };
    match with_labels(alloc, parts, forced, pool, read) {
        Ok(beside) => rules_kept(alloc, pool, beside),
        Err(AllocError) => Err(Stop::Memory),
    }
}

/// What is written of a module with which nothing is wrong ("A PlusCal User's Manual", section 3).
///
/// # Errors
///
/// The least of the rules 1 to 49 that the text breaks, at its first place; or want of memory.
pub fn check_text(alloc: Global, text: &[u8], forced: bool) -> Result<Vec<u8>, Stop>
    requires { length text.now < 2 ^ 29 }
    ensures ok { IfOk result (λ w. w.items ≡ codes "ok\n") }
    ensures clean { IfOk result (λ w. AnswersChecking forced text.now None) }
    ensures stopped { IfErr result (λ e. IsStop (λ r. AnswersChecking forced text.now (Some r)) e) }
{
    let parts = match split(alloc, text) {
        Ok(parts) => parts,
        Err(stop) => return Err(stop),
    };
    let mut pool = Pool::new(alloc);
    match checked_parts(alloc, &parts, forced, &mut pool) {
        Ok(_) => match Vec::from_slice(alloc, b"ok\n") {
            Ok(line) => Ok(line),
            Err(AllocError) => Err(Stop::Memory),
        },
        Err(stop) => Err(stop),
    }
}
