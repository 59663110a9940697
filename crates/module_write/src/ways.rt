//! What Next's disjuncts call, and the sets of ProcSet, one for each process.

ghost use Rattle.std.specs.Prelude.{◌≡◌, ◌<◌, ◌∷◌, ℕ, suc, List, length, map, IfOk, MatchOption};
ghost use Rattle.tla_tree.specs.Tree.{Tree};
ghost use Rattle.tla_tree.specs.Pool.{at, AllBelow};
ghost use Rattle.module_tree.specs.Ways as pure;
ghost use Rattle.module_write.specs.InMemory.{call_at, way_at, ways_at, WayIn, WaysIn};

use crate::module::{Call, Way};
use std::alloc::{AllocError, Global};
use tla_pool::Pool;
use tla_pool::form::{Form, Strict};
use tla_tree::{Name, NodeId, Op};

impl Call {
    /// The name of the called action.
    pub fn title(&self) -> &Name
        ensures { (ts : List Tree) → result.now ≡ pure.title_of (call_at ts self.now) }
    {
        match self {
            Call::Bare(title) => title,
            Call::With(title, _) => title,
        }
    }
}

impl Way {
    /// The call in a disjunct.
    pub fn call(&self) -> &Call
        ensures { (ts : List Tree) → call_at ts result.now ≡ pure.call_of (way_at ts self.now) }
    {
        match self {
            Way::One(call) => call,
            Way::Among(_, _, call) => call,
        }
    }

    /// Whether it is `Terminating`.
    pub fn is_terminating(&self) -> bool
        ensures { (ts : List Tree) → result ≡ pure.is_terminating (way_at ts self.now) }
    {
        self.call().title().bytes() == b"Terminating".as_slice()
    }

    /// Whether it is a procedure's: `\E self \in ProcSet : P(self)`.
    pub fn is_procedure(&self, pool: &Pool) -> bool
        requires { WayIn (length pool.now) self.now }
        ensures { result ≡ pure.is_procedure (way_at pool.now self.now) }
    {
        match self {
            Way::One(_) => false,
            Way::Among(_, set, _) => is_process_set(pool, *set),
        }
    }
}

// Whether an expression is the name `ProcSet`.
fn is_process_set(pool: &Pool, e: NodeId) -> bool
    requires { e < length pool.now }
    ensures { result ≡ pure.is_process_set (at pool.now e) }
{
    let node = pool.node(e);
    match &node.form {
        Form::Name(x) => x.bytes() == b"ProcSet".as_slice(),
        _ => false,
    }
}

/// How many processes these disjuncts of Next are of.
pub fn processes(pool: &Pool, ways: &[Way]) -> usize
    requires { WaysIn (length pool.now) ways.now }
    ensures { result ≡ pure.processes_in (ways_at pool.now ways.now) }
{
    let mut count = 0;
    for way in ways {
        if !way.is_terminating() && !way.is_procedure(pool) {
            count += 1;
        }
    }
    count
}

// The two sides of a union.
fn cup_sides(pool: &Pool, e: NodeId) -> Option<(NodeId, NodeId)>
    requires { e < length pool.now }
    ensures { MatchOption result ((n : ℕ) (es : List Tree) → pure.split_cup n (at pool.now e) es ≡ at pool.now e ∷ es) (λ s. (s.0 < length pool.now) × (s.1 < length pool.now) × ((n : ℕ) (es : List Tree) → pure.split_cup (suc n) (at pool.now e) es ≡ pure.split_cup n (at pool.now s.0) (at pool.now s.1 ∷ es))) }
{
    let node = pool.node(e);
    match &node.form {
        Form::Strict(Strict::Operator(Op::Cup)) => Some((node.parts[0], node.parts[1])),
        _ => None,
    }
}

/// The sets of `ProcSet`, one for each of `n` processes.
///
/// # Errors
///
/// Only for want of memory.
pub fn sets(alloc: Global, pool: &Pool, n: usize, e: NodeId) -> Result<Vec<NodeId>, AllocError>
    requires { e < length pool.now }
    ensures below { IfOk result (λ ids. AllBelow (length pool.now) ids.items) }
    ensures sets { IfOk result (λ ids. map (at pool.now) ids.items ≡ pure.sets_in n (at pool.now e)) }
{
    let mut found = Vec::new(alloc);
    let mut rest = e;
    let mut left = n;
    while left > 1 {
        left -= 1;
        match cup_sides(pool, rest) {
            Some((front, last)) => {
                found.push(last)?;
                rest = front;
            }
            None => left = 1,
        }
    }
    found.push(rest)?;
    found.reverse();
    Ok(found)
}
