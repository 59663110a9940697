//! What calls of procedures use: the names of the initial values of their variables.

ghost use Rattle.std.specs.Prelude.{◌≡◌, [], ◌++◌, false, map, IfOk, OnOk};
ghost use Rattle.pcal_tree.specs.InMemory.{start_at, declarations_at, procedure_at};
ghost use Rattle.pcal_tree.specs.OffencesStale.{used_by_variables};
ghost use Rattle.read_rules.specs.Using.{Adds};
ghost use Rattle.read_rules.specs.JumpsIn.{used_by_start, used_by_starts};
ghost use Rattle.read_rules.specs.StepsIn.{AreJumps};

use crate::declared::add_declared;
use crate::steps::Jump;
use crate::used::Used;
use algorithm_limits::bound::Bound;
use pcal_tree::algorithm::{Declaration, Procedure, Start};
use std::alloc::{AllocError, Global};
use tla_pool::Pool;

// The names of an initial value.
fn add_start(used: &mut Used, pool: &Pool, start: &Start) -> Result<(), AllocError>
    ensures { OnOk result (Adds used.old used.new (used_by_start (start_at pool.now start.now))) }
{
    match start {
        Start::Unset => Ok(()),
        Start::Equals(e) => used.expr(pool, *e),
        Start::Among(e) => used.expr(pool, *e),
    }
}

// Those of declarations.
fn add_starts(used: &mut Used, pool: &Pool, list: &[Declaration]) -> Result<(), AllocError>
    ensures { OnOk result (Adds used.old used.new (used_by_starts (declarations_at pool.now list.now))) }
{
    for i in 0..list.len() {
        let declaration = &list[i];
        add_start(used, pool, &declaration.start)?;
    }
    Ok(())
}

// The names of a procedure's initial values, where its parameters and variables are bound and no other name is.
fn add_values(used: &mut Used, pool: &Pool, one: &Procedure) -> Result<(), AllocError>
    ensures { OnOk result (used.old.only_self ≡ false → used.old.bound ≡ [] → used.new.names.items ≡ used.old.names.items ++ used_by_variables (procedure_at pool.now one.now)) }
{
    add_declared(&mut used.bound, &one.params)?;
    add_declared(&mut used.bound, &one.variables)?;
    add_starts(used, pool, &one.variables)
}

// What a call of a procedure uses.
fn jump(alloc: Global, pool: &Pool, one: &Procedure) -> Result<Jump, AllocError>
    ensures name { IfOk result (λ r. r.name ≡ one.now.name.word) }
    ensures uses { IfOk result (λ r. r.uses.items ≡ used_by_variables (procedure_at pool.now one.now)) }
{
    let name = one.name.name.copied()?;
    let mut used = Used {
        only_self: false,
        names: Vec::new(alloc),
        bound: Bound::new(alloc),
    };
    match add_values(&mut used, pool, one) {
        Ok(()) => Ok(Jump {
            name,
            uses: used.met(),
        }),
        Err(error) => {
            drop(used);
            Err(error)
        }
    }
}

/// What calls of these procedures use.
///
/// # Errors
///
/// Only for want of memory.
pub fn jumps(alloc: Global, pool: &Pool, procedures: &[Procedure]) -> Result<Vec<Jump>, AllocError>
    ensures { IfOk result (λ r. AreJumps r.items (map (procedure_at pool.now) procedures.now)) }
{
    let mut list = Vec::new(alloc);
    for one in procedures {
        list.push(jump(alloc, pool, one)?)?;
    }
    Ok(list)
}
