//! The units of a translation in memory: expressions are numbers of a pool.

use module_write::module::{Action, Fairness, Way};
use tla_tree::{NameList, NodeId};
use tla_value::names::Definition;

/// A unit of a translation ("A PlusCal User's Manual", chapter 3).
#[derive(Drop)]
pub enum Unit {
    /// `CONSTANT x, y`
    Constant(NameList),
    /// `VARIABLES x, y`
    Variables(NameList),
    /// `N == e`, or `N(a, b) == e`
    Definition(Definition),
    /// `vars == <<x, y>>`
    Vars(NameList),
    /// `ProcSet == e`
    ProcessSet(NodeId),
    /// The conjuncts of `Init`.
    Init(Vec<NodeId>),
    /// An action of a label, a procedure or a process.
    Action(Action),
    /// The test in `Terminating`, beside `UNCHANGED vars`.
    Terminating(NodeId),
    /// The disjuncts of `Next`.
    Next(Vec<Way>),
    /// The conjuncts of `Spec` after `Init` and `[][Next]_vars`.
    Spec(Vec<Fairness>),
    /// `Termination == <>(e)`
    Termination(NodeId),
}
