//! What is made of an algorithm and its written names before a run.

use pcal_tree::algorithm::{Main, Procedure};
use tla_tree::{Name, NameList};

/// What steps are taken from, but for the program: all of it is owned, so that a stage can lend it.
#[derive(Drop)]
pub struct Grounds {
    /// The procedures, prepared: statements and first values by their written names.
    pub procedures: Vec<Procedure>,
    /// The one body or the processes, prepared.
    pub main: Main,
    /// The variables of the translation, in their order.
    pub variables: NameList,
    /// The name `pc`.
    pub pc: Name,
    /// The name `stack`.
    pub stack: Name,
    /// The name `self`.
    pub this: Name,
}
