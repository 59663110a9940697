//! What is before a statement, and what was seen of those before it.

ghost use Rattle.std.specs.Prelude.{◌≡◌, ◌≤◌, ◌||◌, ◌&&◌, ◌<◌, ◌+◌, not, false, true, length, drop, List, IfOk};
ghost use Rattle.tla_tree.specs.Tree.{Tree};
ghost use Rattle.pcal_tree.specs.InMemory.{simple_at, past_simple, statements_at};
ghost use Rattle.pcal_tree.specs.OffencesSteps.{effect_with};
ghost use Rattle.pcal_tree.specs.Run.{Partner, is_pair, is_return, partner_of};
ghost use Rattle.pcal_tree.specs.laws.MacroSummaries.{Summary as Found};
ghost use Rattle.label_steps.specs.KnownIn.{Assigns, AreMacros};
ghost use Rattle.added_labels.specs.Sight.{IsNext, effects_of};

use label_steps::around::Around;
use label_steps::sides::Step;
use pcal_tree::algorithm::{Simple, Stmt};
use std::alloc::{AllocError, Global};
use tla_pool::Pool;

/// What was seen of statements, and what is before the next one.
#[derive(Clone, Copy)]
pub struct Seen {
    /// Inside a `with` a label is missing, or a variable is assigned twice.
    pub missing: bool,
    /// There was a label or a jump.
    pub held: bool,
    /// A label is before the next statement.
    pub labelled: bool,
    /// None is, and one must be, whatever the statement is.
    pub due: bool,
}

/// What comes behind a statement.
#[derive(Clone, Copy)]
pub struct Next {
    /// What can be one statement with a call.
    pub pairs: bool,
    /// A `return`.
    pub returns: bool,
}

/// Where statements stand.
#[derive(Drop)]
pub struct Where {
    /// What is assigned there.
    pub around: Around,
    /// It is a macro: what is assigned is not looked at.
    pub silent: bool,
}

/// Whether one of the two holds.
pub fn one_of(a: bool, b: bool) -> bool
    ensures { result ≡ (a || b) }
{
    a || b
}

impl Seen {
    /// Into the statements inside another; true where that is a loop.
    pub fn into(self, loops: bool) -> Seen
        ensures { result ≡ record { missing = self.missing || (self.due || (loops && not self.labelled)); held = false; labelled = false; due = false } }
    {
        let bare = loops && !self.labelled;
        Seen {
            missing: one_of(self.missing, one_of(self.due, bare)),
            held: false,
            labelled: false,
            due: false,
        }
    }

    /// Behind a statement with others inside it, of which this was seen; true where a label must come behind it if there was
    /// a label or a jump among these.
    pub fn out(self, inner: Seen, branches: bool) -> Seen
        ensures { result ≡ record { missing = inner.missing; held = self.held || inner.held; labelled = false; due = branches && inner.held } }
    {
        Seen {
            missing: inner.missing,
            held: one_of(self.held, inner.held),
            labelled: false,
            due: branches && inner.held,
        }
    }

    /// Behind a label.
    pub fn label(self) -> Seen
        ensures { result ≡ record { missing = self.missing; held = true; labelled = true; due = false } }
    {
        Seen {
            missing: self.missing,
            held: true,
            labelled: true,
            due: false,
        }
    }

    /// At the end of a list.
    pub fn end(self) -> Seen
        ensures { result ≡ record { missing = self.missing; held = self.held; labelled = false; due = false } }
    {
        Seen {
            missing: self.missing,
            held: self.held,
            labelled: false,
            due: false,
        }
    }
}

/// What comes behind the statement of this number.
pub fn next_of(stmts: &[Stmt], i: usize) -> Next
    requires { i < length stmts.now }
    ensures { (ts : List Tree) → IsNext result (partner_of (statements_at ts (drop (i + 1) stmts.now))) }
{
    if i + 1 >= stmts.len() {
        return Next {
            pairs: false,
            returns: false,
        };
    }
    match &stmts[i + 1] {
        Stmt::Simple(_, simple) => Next {
            pairs: matches!(simple, Simple::Goto(_) | Simple::Return),
            returns: matches!(simple, Simple::Return),
        },
        _ => Next {
            pairs: false,
            returns: false,
        },
    }
}

impl Where {
    /// What a statement with none in it assigns there.
    ///
    /// # Errors
    ///
    /// Only for want of memory.
    pub fn step(
        &self,
        alloc: Global,
        pool: &Pool,
        next: Next,
        simple: &Simple,
    ) -> Result<Step, AllocError>
        requires { past_simple simple.now ≤ length pool.now }
        ensures { IfOk result (λ r. (ms : List Found) → AreMacros self.now.around.known ms → (j : Partner) → IsNext next j → Assigns r (effect_with (effects_of self.now ms) (simple_at pool.now simple.now) j)) }
    {
        if self.silent {
            return Ok(Step {
                names: Vec::new(alloc),
                twice: false,
            });
        }
        let step = self.around.step(alloc, pool, next.returns, simple)?;
        Ok(step)
    }
}
