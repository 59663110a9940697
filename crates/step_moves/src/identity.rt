//! The identifiers of a process of the text.

ghost use Rattle.std.specs.Prelude.{◌≡◌, ◌≤◌, length};
ghost use Rattle.tla_value.specs.Value.{values_in};
ghost use Rattle.pcal_tree.specs.InMemory.{process_at, past_process};
ghost use Rattle.pcal_tree.specs.Processes.{one_value as pure_one, identifiers_of as pure_identifiers};
ghost use Rattle.value_forms.specs.Gives.{Gives};
ghost use Rattle.step_moves.specs.Programs.{program_at, IsWhole};

use crate::Program;
use pcal_tree::algorithm::Process;
use std::alloc::Global;
use tla_eval::eval::eval;
use tla_token::Place;
use tla_value::fault::FaultKind;
use tla_value::stop::EvalStop;
use tla_value::value::{Kind, Value};

// The members of a set, or the one value.
fn one_value(alloc: Global, several: bool, at: Place, v: Value) -> Result<Vec<Value>, EvalStop>
    ensures { Gives (λ r. values_in r.items) result (pure_one several at v) }
{
    if !several {
        let mut one = Vec::new(alloc);
        one.push(v)?;
        return Ok(one);
    }
    match v.kind {
        Kind::Set(members) => Ok(members.items),
        Kind::Bool(_) => Err(EvalStop::Fault(FaultKind::NotSet, at)),
        Kind::Int(_) => Err(EvalStop::Fault(FaultKind::NotSet, at)),
        Kind::Text(_) => Err(EvalStop::Fault(FaultKind::NotSet, at)),
        Kind::Model(_) => Err(EvalStop::Fault(FaultKind::NotSet, at)),
        Kind::Fun(_, _) => Err(EvalStop::Fault(FaultKind::NotSet, at)),
    }
}

/// The identifiers of a process of the text: the members of its set, or its one identifier ("A PlusCal User's Manual", section 3.3,
/// processes).
///
/// # Errors
///
/// For want of memory, and exactly where there are none: what the expression stops by, or that it is no set.
pub fn identifiers_of(
    alloc: Global,
    program: &Program<'_>,
    process: &Process,
) -> Result<Vec<Value>, EvalStop>
    requires within { past_process process.now ≤ length program.now.pool.now }
    requires whole { IsWhole program.now }
    ensures { Gives (λ r. values_in r.items) result (pure_identifiers (program_at program.now) (process_at program.now.pool.now process.now)) }
{
    let pool = program.pool;
    let v = eval(
        alloc,
        pool,
        process.identity,
        program.constants,
        program.defs,
    )?;
    let node = pool.node(process.identity);
    one_value(alloc, process.several, node.place, v)
}
