//! Modules in memory: expressions are numbers of a pool.

ghost use Rattle.std.specs.Prelude.{◌≡◌, List, []};
ghost use Rattle.tla_tree.specs.Tree.{Tree};
ghost use Rattle.module_write.specs.InMemory.{outside_at};

use std::alloc::Global;
use tla_token::Place;
use tla_tree::{Name, NameList, NodeId, PlacedName};
use tla_value::names::Defs;

// ---- actions

/// A conjunct of an action ("Specifying Systems", chapter 2). Conjuncts of one list stand in a `Vec`.
#[derive(Drop)]
pub enum Item {
    /// `(e)`
    Test(NodeId),
    /// `x' = e`
    Setting(Name, NodeId),
    /// `UNCHANGED <<x, y>>`
    Unchanged(NameList),
    /// `\E x \in S :` over a list
    Exists(Name, NodeId, Vec<Item>),
    /// `LET x == e IN` before a list
    Local(Name, NodeId, Vec<Item>),
    /// `IF e THEN list ELSE list`
    Choice(NodeId, Vec<Item>, Vec<Item>),
    /// A disjunction: a list in each branch.
    Either(Vec<Vec<Item>>),
}

/// The call of an action.
#[derive(Drop)]
pub enum Call {
    /// `A`
    Bare(Name),
    /// `A(e)`
    With(Name, NodeId),
}

/// A disjunct that calls an action.
#[derive(Drop)]
pub enum Way {
    /// `A(e)`
    One(Call),
    /// `\E x \in S : A(x)`
    Among(Name, NodeId, Call),
}

/// What an action is.
#[derive(Drop)]
pub enum Body {
    /// A conjunction.
    All(Vec<Item>),
    /// A disjunction of calls.
    Any(Vec<Way>),
}

/// `A == body`, or `A(self) == body`.
#[derive(Drop)]
pub struct Action {
    /// The action's name.
    pub title: Name,
    /// The name in brackets after it.
    pub parameter: Option<Name>,
    /// What stands after `==`.
    pub body: Body,
}

// ---- the translation

/// A conjunct of Spec: `WF_vars(action)`.
#[derive(Drop)]
pub struct Fairness {
    /// The name and the set of `\A self \in S :` before it.
    pub over: Option<(Name, NodeId)>,
    /// `SF_vars`
    pub strong: bool,
    /// A test before the action.
    pub guard: Option<NodeId>,
    /// The action that is asked for.
    pub action: Call,
}

/// A translation: its units, in their order ("A PlusCal User's Manual", chapter 3).
#[derive(Drop)]
pub struct Region {
    /// `CONSTANT`; none is no unit.
    pub model_values: NameList,
    /// `VARIABLES x, y`
    pub variables: NameList,
    /// Those of the algorithm's `define` block.
    pub definitions: Defs,
    /// `vars == <<x, y>>`
    pub vars: NameList,
    /// `ProcSet`, of an algorithm with processes.
    pub process_set: Option<NodeId>,
    /// The conjuncts of `Init`.
    pub init: Vec<NodeId>,
    /// Those of each procedure and process: its labels' actions, and then its own.
    pub actions: Vec<Action>,
    /// The test in `Terminating`; none where there is no `Terminating`.
    pub ended: Option<NodeId>,
    /// The disjuncts of `Next`.
    pub next: Vec<Way>,
    /// The conjuncts of `Spec` after `Init` and `[][Next]_vars`.
    pub fairness: Vec<Fairness>,
    /// `Termination == <>(e)`
    pub termination: NodeId,
}

// ---- the module

/// A unit that was passed on unread.
#[derive(Drop)]
pub struct Opaque {
    /// The word with which it begins: of a bar its dashes, and of a definition nothing.
    pub keyword: Name,
    /// The names that it has.
    pub names: NameList,
    /// Where its first token stands.
    pub place: Place,
}

/// What a module has outside its algorithm and the translation, each kind in the order of the text.
#[derive(Drop)]
pub struct Outside {
    /// The modules of `EXTENDS`.
    pub extended: NameList,
    /// The names of `CONSTANT` and `CONSTANTS`.
    pub constants: Vec<PlacedName>,
    /// Those that were read.
    pub definitions: Defs,
    /// The units that were passed on unread.
    pub opaque: Vec<Opaque>,
}

impl Outside {
    /// Nothing.
    pub fn new(alloc: Global) -> Outside
        ensures stands { (ts : List Tree) → outside_at ts result ≡ record { extended = []; constants = []; definitions = []; opaque = [] } }
        ensures definitions { result.definitions ≡ [] }
    {
        Outside {
            extended: NameList::new(alloc),
            constants: Vec::new(alloc),
            definitions: Defs::new(alloc),
            opaque: Vec::new(alloc),
        }
    }
}

/// A module with its translation.
#[derive(Drop)]
pub struct Module {
    /// The module's name.
    pub title: Name,
    /// What stands outside its algorithm and the translation.
    pub outside: Outside,
    /// The translation.
    pub region: Region,
}
