//! The expressions that jumps, calls and returns are written with. None has a place.

ghost use Rattle.std.specs.Prelude.{◌≡◌, ◌<◌, codes, length, IfOk};
ghost use Rattle.tla_tree.specs.Pool.{at, Keeps};
ghost use Rattle.pcal_tree.specs.Algorithm.{nowhere};
ghost use Rattle.pcal_tree.specs.Variables.{stack};
ghost use Rattle.action_builder.specs.Jumps.{name_at, text_at, stack_rest};
ghost use Rattle.proc_stack.specs.Pieces.{applied as applied_tree, first_of, selected, pushed as pushed_tree};

use module_write::formulas::{named, quoted};
use std::alloc::{AllocError, Global};
use tla_pool::Pool;
use tla_pool::form::{Form, Strict};
use tla_token::Place;
use tla_tree::{Name, NodeId, Op, Text};

/// No place.
pub const NOWHERE: Place = Place { line: 0, col: 0 };

/// The name of these bytes.
///
/// # Errors
///
/// Only for want of memory.
pub fn word(alloc: Global, bytes: &[u8]) -> Result<Name, AllocError>
    ensures { IfOk result (λ w. w ≡ bytes.now) }
{
    Ok(Name::new(Vec::from_slice(alloc, bytes)?))
}

/// A variable by its bytes.
///
/// # Errors
///
/// Only for want of memory; the pool may then have more nodes than before.
pub fn variable(alloc: Global, pool: &mut Pool, bytes: &[u8]) -> Result<NodeId, AllocError>
    ensures tree { IfOk result (λ r. at pool.new r ≡ name_at nowhere bytes.now) }
    ensures within { IfOk result (λ r. r < length pool.new) }
    ensures kept { Keeps pool.old pool.new }
{
    let name = word(alloc, bytes)?;
    named(alloc, pool, name)
}

/// A string by its bytes.
///
/// # Errors
///
/// Only for want of memory; the pool may then have more nodes than before.
pub fn text(alloc: Global, pool: &mut Pool, bytes: &[u8]) -> Result<NodeId, AllocError>
    ensures tree { IfOk result (λ r. at pool.new r ≡ text_at nowhere bytes.now) }
    ensures within { IfOk result (λ r. r < length pool.new) }
    ensures kept { Keeps pool.old pool.new }
{
    let text = Text::new(Vec::from_slice(alloc, bytes)?);
    quoted(alloc, pool, text)
}

// `F(e)`, by the bytes of F.
fn applied(
    alloc: Global,
    pool: &mut Pool,
    operator: &[u8],
    argument: NodeId,
) -> Result<NodeId, AllocError>
    requires { argument < length pool.old }
    ensures tree { IfOk result (λ r. at pool.new r ≡ applied_tree operator.now (at pool.old argument)) }
    ensures within { IfOk result (λ r. r < length pool.new) }
    ensures kept { Keeps pool.old pool.new }
{
    let operator = word(alloc, operator)?;
    let parts = vec![in alloc; argument]?;
    pool.put(Form::Call(operator), NOWHERE, parts)
}

/// `Head(st)`, by the bytes of st.
///
/// # Errors
///
/// Only for want of memory; the pool may then have more nodes than before.
pub fn first_record(alloc: Global, pool: &mut Pool, bytes: &[u8]) -> Result<NodeId, AllocError>
    ensures tree { IfOk result (λ r. at pool.new r ≡ first_of bytes.now) }
    ensures within { IfOk result (λ r. r < length pool.new) }
    ensures kept { Keeps pool.old pool.new }
{
    let records = variable(alloc, pool, bytes)?;
    applied(alloc, pool, b"Head", records)
}

/// `Tail(stack)`
///
/// # Errors
///
/// Only for want of memory; the pool may then have more nodes than before.
pub fn other_records(alloc: Global, pool: &mut Pool) -> Result<NodeId, AllocError>
    ensures tree { IfOk result (λ r. at pool.new r ≡ stack_rest nowhere) }
    ensures within { IfOk result (λ r. r < length pool.new) }
    ensures kept { Keeps pool.old pool.new }
{
    let records = variable(alloc, pool, b"stack")?;
    applied(alloc, pool, b"Tail", records)
}

/// `r.x`
///
/// # Errors
///
/// Only for want of memory; the pool may then have more nodes than before.
pub fn field(
    alloc: Global,
    pool: &mut Pool,
    frame: NodeId,
    name: &Name,
) -> Result<NodeId, AllocError>
    requires { frame < length pool.old }
    ensures tree { IfOk result (λ r. at pool.new r ≡ selected (at pool.old frame) name.now) }
    ensures within { IfOk result (λ r. r < length pool.new) }
    ensures kept { Keeps pool.old pool.new }
{
    let form = Form::Strict(Strict::Select(name.copied()?));
    let parts = vec![in alloc; frame]?;
    pool.put(form, NOWHERE, parts)
}

/// `<<r>> \o rest`
///
/// # Errors
///
/// Only for want of memory; the pool may then have more nodes than before.
pub fn pushed(
    alloc: Global,
    pool: &mut Pool,
    frame: NodeId,
    rest: NodeId,
) -> Result<NodeId, AllocError>
    requires below { (frame < length pool.old) × (rest < length pool.old) }
    ensures tree { IfOk result (λ r. at pool.new r ≡ pushed_tree (at pool.old frame) (at pool.old rest)) }
    ensures within { IfOk result (λ r. r < length pool.new) }
    ensures kept { Keeps pool.old pool.new }
{
    let records = vec![in alloc; frame]?;
    let first = pool.put(Form::Strict(Strict::Tuple), NOWHERE, records)?;
    let sides = vec![in alloc; first, rest]?;
    pool.put(Form::Strict(Strict::Operator(Op::Concat)), NOWHERE, sides)
}
