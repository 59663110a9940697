//! What is made of an algorithm before a run.

use pcal_tree::algorithm::{Main, Procedure};

/// What has statements, by its written names.
#[derive(Drop)]
pub struct Prepared {
    /// The procedures, in the order of the text.
    pub procedures: Vec<Procedure>,
    /// What runs.
    pub main: Main,
}
