//! Labels to which steps go.

ghost use Rattle.std.specs.Prelude.{◌≡◌, List};
ghost use Rattle.tla_tree.specs.Tree.{Tree};
ghost use Rattle.pcal_tree.specs.InMemory.{statements_at};
ghost use Rattle.pcal_tree.specs.Run.{label_of};
ghost use Rattle.step_spots.specs.Targets.{target_word};

use pcal_tree::algorithm::Stmt;
use tla_tree::Name;

/// A label to which a step goes, or at which a statement is.
#[derive(Clone, Copy)]
pub enum Target<'a> {
    /// There is none.
    Nowhere,
    /// One of the text, or one that a `goto` names.
    Label(&'a Name),
    /// The end of a process.
    Done,
    /// The end of a procedure's body.
    Error,
}

/// The label at which the first of these statements is; where there is none, the exit.
pub fn next_target<'a>(rest: &'a [Stmt], exit: Target<'a>) -> Target<'a>
    ensures { (ts : List Tree) → target_word result ≡ label_of (statements_at ts rest.now) (target_word exit.entry) }
{
    match rest.first() {
        None => exit,
        Some(Stmt::Label(label, _)) => Target::Label(&label.name),
        Some(_) => Target::Nowhere,
    }
}
