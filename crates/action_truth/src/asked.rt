//! A module in memory that is asked what it says of states, and its actions by their names.

ghost use Rattle.std.specs.Prelude.{◌≡◌, ◌≤◌, length, bytes_eq, IfOk};
ghost use Rattle.tla_tree.specs.Tree.{Word};
ghost use Rattle.algorithm_limits.specs.Numbers.{number_of};
ghost use Rattle.action_truth.specs.AskedOf.{last_titled, IsReady, all_actions};

use algorithm_limits::table::Table;
use module_write::module::{Action, Region};
use std::alloc::{AllocError, Global};
use tla_pool::Pool;
use tla_tree::Name;
use tla_value::names::Defs;
use tla_value::state::State;

/// A module in memory that is asked what it says of states.
#[derive(Clone, Copy)]
pub struct Asked<'a> {
    /// The expressions.
    pub pool: &'a Pool,
    /// Its translation.
    pub region: &'a Region,
    /// All definitions that its formulas see, in their order.
    pub defs: &'a Defs,
    /// The values of its constants.
    pub constants: &'a State,
    /// For the name of an action the number after that of the last action that has it.
    pub titles: &'a Table,
    /// No values.
    pub nothing: &'a State,
}

/// For the name of each action the number after that of the last one that has it.
///
/// # Errors
///
/// Only for want of memory.
pub fn titles(alloc: Global, actions: &[Action]) -> Result<Table, AllocError>
    ensures { IfOk result (λ r. (x : Word) → number_of r x ≡ last_titled actions.now x (length actions.now)) }
{
    let mut table = Table::new(alloc);
    for i in 0..actions.len() {
        let title = actions[i].title.copied()?;
        table.set(title, i + 1)?;
    }
    Ok(table)
}

/// How many actions there are, with `Terminating`.
pub fn count(asked: &Asked<'_>) -> usize
    ensures { result ≡ length (all_actions asked.now) }
{
    let actions = asked.region.actions.len();
    match asked.region.ended {
        Some(_) => actions + 1,
        None => actions,
    }
}

// Whether an action has a name.
fn is_named(action: &Action, title: &Name) -> bool
    ensures { result ≡ bytes_eq action.now.title title.now }
{
    action.title.bytes() == title.bytes()
}

// The number after that of the last of the first actions that has a name; 0 where none has it.
fn scanned(actions: &[Action], title: &Name, before: usize) -> usize
    requires { before ≤ length actions.now }
    ensures last { result ≡ last_titled actions.now title.now before }
    ensures within { result ≤ before }
{
    let mut n = before;
    while n > 0 {
        n -= 1;
        if is_named(&actions[n], title) {
            return n + 1;
        }
    }
    0
}

/// The number after that of the last of the first actions, but for `Terminating`, that has a name; 0 where none has it. The table tells it, if
/// no name is there twice.
pub fn found(asked: &Asked<'_>, title: &Name, before: usize) -> usize
    requires ready { IsReady asked.now }
    requires before { before ≤ length asked.now.region.now.actions.items }
    ensures last { result ≡ last_titled asked.now.region.now.actions.items title.now before }
    ensures within { result ≤ before }
{
    let last = asked.titles.get(title);
    if last <= before {
        return last;
    }
    scanned(&asked.region.actions, title, before)
}
