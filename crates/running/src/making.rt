//! What a run stands on, made of an algorithm and its written names.

ghost use Rattle.std.specs.Prelude.{◌≡◌, ◌≤◌, List, length, map, IfOk};
ghost use Rattle.tla_token.specs.Signs.{is_among};
ghost use Rattle.tla_tree.specs.Tree.{Word, Tree};
ghost use Rattle.tla_tree.specs.Pool.{Keeps};
ghost use Rattle.tla_tree.specs.Nesting.{greatest};
ghost use Rattle.pcal_tree.specs.InMemory.{algorithm_at, past_procedure, past_main, past_algorithm};
ghost use Rattle.pcal_tree.specs.Program.{Program};
ghost use Rattle.pcal_tree.specs.Variables.{vars};
ghost use Rattle.name_bits.specs.NamesIn.{most, names_in, AllApart};
ghost use Rattle.written_names.specs.Units.{naming_of};
ghost use Rattle.action_builder.specs.OwnVariables.{is_own_variable};
ghost use Rattle.running.specs.GroundsOf.{AreGrounds};

use crate::made::Grounds;
use crate::program::prepared;
use crate::words::word;
use draft::Draft;
use draft::variables::{own_bits, own_variables, variables};
use name_bits::{Bits, Order};
use pcal_tree::algorithm::Algorithm;
use std::alloc::{AllocError, Global};
use tla_pool::Pool;
use written_names::naming::Naming;

// Which of the variables each process has for itself.
fn own(
    alloc: Global,
    algorithm: &Algorithm,
    naming: &Naming,
    order: &Order,
) -> Result<Bits, AllocError>
    ensures { IfOk result (λ r. (ts : List Tree) (P : Program) → algorithm_at ts algorithm.now ≡ P.algorithm → naming_of naming.now ≡ P.naming → order.now ≡ vars P → length (vars P) ≤ most → (x : Word) → is_among (names_in order.now r) x ≡ is_own_variable P x) }
{
    let names = own_variables(alloc, algorithm, naming)?;
    Ok(own_bits(order, names.as_slice()))
}

/// What a run of an algorithm with these written names stands on ("A PlusCal User's Manual", section 4, on names in the translation).
/// What stands in the pool stays.
///
/// # Errors
///
/// Only for want of memory; the pool may then have more nodes than before.
pub fn grounds(
    alloc: Global,
    pool: &mut Pool,
    algorithm: &Algorithm,
    naming: &Naming,
) -> Result<Grounds, AllocError>
    requires { past_algorithm algorithm.now ≤ length pool.old }
    ensures made { IfOk result (λ r. (P : Program) → algorithm_at pool.old algorithm.now ≡ P.algorithm → naming_of naming.now ≡ P.naming → AllApart (vars P) → length (vars P) ≤ most → AreGrounds pool.new r P) }
    ensures variables { IfOk result (λ r. (P : Program) → algorithm_at pool.old algorithm.now ≡ P.algorithm → naming_of naming.now ≡ P.naming → r.variables ≡ vars P) }
    ensures within { IfOk result (λ r. (greatest (map past_procedure r.procedures.items) ≤ length pool.new) × (past_main r.main ≤ length pool.new)) }
    ensures kept { Keeps pool.old pool.new }
{
    let names = variables(alloc, algorithm, naming)?;
    let order = Order::new(alloc, names.as_slice())?;
    let own = own(alloc, algorithm, naming, &order)?;
    let this = word(alloc, b"self")?;
    let draft = Draft {
        algorithm,
        naming,
        order: &order,
        own: &own,
        this: &this,
    };
    let made = prepared(alloc, pool, &draft)?;
    let pc = word(alloc, b"pc")?;
    let stack = word(alloc, b"stack")?;
    Ok(Grounds {
        procedures: made.procedures,
        main: made.main,
        variables: names,
        pc,
        stack,
        this,
    })
}
