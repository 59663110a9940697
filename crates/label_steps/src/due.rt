//! Labels that are missing.

ghost use Rattle.std.specs.Prelude.{◌≡◌, List, ◌||◌, Some, None, false, map, cond};
ghost use Rattle.std.specs.List.{flat_map};
ghost use Rattle.tla_token.specs.declared.rule.Rule.TheVariants.{AfterBranch};
ghost use Rattle.tla_tree.specs.Tree.{Tree};
ghost use Rattle.pcal_tree.specs.Algorithm.{Span as PureSpan, Statements, then};
ghost use Rattle.pcal_tree.specs.InMemory.{simple_at, stmt_at, statements_at, branches_at, macro_at, procedure_at, process_at, main_at, algorithm_at};
ghost use Rattle.pcal_tree.specs.Offences.{first};
ghost use Rattle.pcal_tree.specs.OffencesSteps.{holds_one, holds, holds_some, due_after, due_offence};
ghost use Rattle.pcal_tree.specs.Run.{Partner, is_pair, partner_of};
ghost use Rattle.algorithm_answer.specs.Joined.{joined};
ghost use Rattle.label_steps.specs.MissingLabels.{due_in, due_in_some, due_in_body, due_in_main, missing_labels};
ghost use Rattle.label_steps.specs.Walking.{is_labelled, rule_due, due_next, IsBehind, Passes};
ghost use Rattle.label_steps.specs.declared.due.Before.TheVariants as before;

use crate::truths::either;
use algorithm_limits::order::{least, or_offence};
use pcal_tree::algorithm::{Algorithm, Macro, Main, Procedure, Process, Simple, Stmt};
use tla_token::{Place, Refusal, Rule};

/// What is before a statement.
#[derive(Clone, Copy)]
pub enum Before {
    /// A label.
    Label,
    /// Nothing by which a label must be there.
    Nothing,
    /// A label must be there by this rule.
    Due(Rule),
    /// A call: a label must be there, but before its partner.
    Call,
}

/// How far a list of statements was gone through.
#[derive(Clone, Copy)]
pub struct Walk {
    /// The first label that is missing.
    pub first: Option<Refusal>,
    /// There was a label or a jump.
    pub holds: bool,
    /// What is before the next statement.
    pub before: Before,
}

impl Before {
    // Whether a label is there.
    fn is_label(self) -> bool
        ensures { result ≡ is_labelled self }
    {
        matches!(self, Before::Label)
    }

    // The rule by which a label must be there; true before what may be a call's partner.
    fn rule(self, pairs: bool) -> Option<Rule>
        ensures { result ≡ rule_due self pairs }
    {
        match self {
            Before::Due(rule) => Some(rule),
            Before::Call => { if pairs { None } else { Some(Rule::AfterJump) } }
            _ => None,
        }
    }
}

// Whether a statement may be the partner of a call.
fn pairs(simple: &Simple) -> bool
    ensures { (ts : List Tree) (s : PureSpan) (rest : Statements) → result ≡ is_pair (partner_of (then s (simple_at ts simple.now) rest)) }
{
    matches!(simple, Simple::Goto(_) | Simple::Return)
}

/// Whether a statement with none in it is a jump.
pub fn jumps(simple: &Simple) -> bool
    ensures { (ts : List Tree) → result ≡ holds_one (simple_at ts simple.now) }
{
    matches!(
        simple,
        Simple::Goto(_) | Simple::Call(_, _) | Simple::Return
    )
}

// What is behind a statement with none in it.
fn behind(simple: &Simple) -> Before
    ensures { (ts : List Tree) (p : Partner) → IsBehind result p (due_after (simple_at ts simple.now) p) }
{
    match simple {
        Simple::Goto(_) => Before::Due(Rule::AfterJump),
        Simple::Return => Before::Due(Rule::AfterJump),
        Simple::Call(_, _) => Before::Call,
        _ => Before::Nothing,
    }
}

// What is behind a statement with others in it; true where there is a label or a jump among these.
fn behind_branch(holds: bool) -> Before
    ensures { (p : Partner) → IsBehind result p (cond holds (Some AfterBranch) None) }
{
    if holds {
        Before::Due(Rule::AfterBranch)
    } else {
        Before::Nothing
    }
}

impl Walk {
    // The first label that is missing, with that before a statement at this place; true where it may be a call's partner.
    fn due(self, pairs: bool, place: Place) -> Option<Refusal>
        ensures { result ≡ joined self.first (first (due_offence (rule_due self.before pairs) place)) }
    {
        match self.before.rule(pairs) {
            None => self.first,
            Some(rule) => least(self.first, Some(Refusal { rule, place })),
        }
    }

    // Into a list of statements, where this was found.
    fn into(found: Option<Refusal>, holds: bool) -> Walk
        ensures { result ≡ record { first = found; holds = holds; before = before.Nothing } }
    {
        Walk {
            first: found,
            holds,
            before: Before::Nothing,
        }
    }

    // Out of a statement with others in it, where what is behind it was found there.
    fn out(self, inner: Walk, behind: Before) -> Walk
        ensures { result ≡ record { first = inner.first; holds = self.holds || inner.holds; before = behind } }
    {
        Walk {
            first: inner.first,
            holds: either(self.holds, inner.holds),
            before: behind,
        }
    }
}

// Past a statement with none in it.
fn past_simple(walk: Walk, place: Place, simple: &Simple) -> Walk
    ensures { (ts : List Tree) (s : PureSpan) → place ≡ s.first → Passes walk result (then s (simple_at ts simple.now)) }
{
    let first = walk.due(pairs(simple), place);
    let inner = Walk::into(first, jumps(simple));
    walk.out(inner, behind(simple))
}

// Past a label or a statement.
#[cycle(due)]
fn past_stmt(walk: Walk, stmt: &Stmt) -> Walk
    ensures { (ts : List Tree) → Passes walk result (stmt_at ts stmt.now) }
{
    match stmt {
        Stmt::Label(_, _) => Walk {
            first: walk.first,
            holds: true,
            before: Before::Label,
        },
        Stmt::Simple(span, simple) => past_simple(walk, span.first, simple),
        Stmt::If(span, _, then, otherwise) => {
            let found = walk.due(false, span.first);
            let first = past_body(Walk::into(found, false), then);
            let second = past_body(Walk::into(first.first, first.holds), otherwise);
            walk.out(second, behind_branch(second.holds))
        }
        Stmt::Either(span, list) => {
            let found = walk.due(false, span.first);
            let inner = past_branches(Walk::into(found, false), list);
            walk.out(inner, behind_branch(inner.holds))
        }
        Stmt::With(span, _, body) => {
            let found = walk.due(false, span.first);
            let inner = past_body(Walk::into(found, false), body);
            walk.out(inner, behind_branch(inner.holds))
        }
        Stmt::While(span, _, body) => {
            let found = walk.due(false, span.first);
            let bare = !walk.before.is_label();
            let here = or_offence(found, bare, Rule::WhileLabel, span.first);
            let inner = past_body(Walk::into(here, false), body);
            walk.out(inner, Before::Nothing)
        }
    }
}

// Past branches.
#[cycle(due)]
fn past_branches(walk: Walk, list: &[Vec<Stmt>]) -> Walk
    ensures first { (ts : List Tree) → result.first ≡ joined walk.first (first (due_in_some (branches_at ts list.now))) }
    ensures holds { (ts : List Tree) → result.holds ≡ (walk.holds || holds_some (branches_at ts list.now)) }
{
    let mut so_far = walk;
    for i in 0..list.len() {
        so_far = past_body(Walk::into(so_far.first, so_far.holds), &list[i]);
    }
    so_far
}

// Past a list of statements. It calls itself as deep as statements are in statements.
#[cycle(due)]
fn past_body(walk: Walk, stmts: &[Stmt]) -> Walk
    ensures first { (ts : List Tree) → result.first ≡ joined walk.first (first (due_next walk.before (statements_at ts stmts.now))) }
    ensures holds { (ts : List Tree) → result.holds ≡ (walk.holds || holds (statements_at ts stmts.now)) }
{
    let mut so_far = walk;
    for stmt in stmts {
        so_far = past_stmt(so_far, stmt);
    }
    so_far
}

// The first of what was found and of the labels that are missing in a body, where this is before it.
fn with_body(found: Option<Refusal>, before: Before, stmts: &[Stmt]) -> Option<Refusal>
    ensures { (ts : List Tree) → result ≡ joined found (first (due_next before (statements_at ts stmts.now))) }
{
    let walk = Walk {
        first: found,
        holds: false,
        before,
    };
    past_body(walk, stmts).first
}

/// The first label that is missing in a macro's body.
pub fn due_in_macro(stmts: &[Stmt]) -> Option<Refusal>
    ensures { (ts : List Tree) → result ≡ first (due_in false None (statements_at ts stmts.now)) }
{
    with_body(None, Before::Nothing, stmts)
}

// The same of macros.
fn with_macros(found: Option<Refusal>, list: &[Macro]) -> Option<Refusal>
    ensures { (ts : List Tree) → result ≡ joined found (first (flat_map (λ d. due_in false None d.body) (map (macro_at ts) list.now))) }
{
    let mut so_far = found;
    for one in list {
        so_far = with_body(so_far, Before::Nothing, &one.body);
    }
    so_far
}

// The same of procedures.
fn with_procedures(found: Option<Refusal>, list: &[Procedure]) -> Option<Refusal>
    ensures { (ts : List Tree) → result ≡ joined found (first (flat_map (λ p. due_in_body p.body) (map (procedure_at ts) list.now))) }
{
    let mut so_far = found;
    for one in list {
        so_far = with_body(so_far, Before::Due(Rule::FirstLabel), &one.body);
    }
    so_far
}

// The same of processes.
fn with_processes(found: Option<Refusal>, list: &[Process]) -> Option<Refusal>
    ensures { (ts : List Tree) → result ≡ joined found (first (flat_map (λ p. due_in_body p.body) (map (process_at ts) list.now))) }
{
    let mut so_far = found;
    for one in list {
        so_far = with_body(so_far, Before::Due(Rule::FirstLabel), &one.body);
    }
    so_far
}

// The same of what runs.
fn with_main(found: Option<Refusal>, main: &Main) -> Option<Refusal>
    ensures { (ts : List Tree) → result ≡ joined found (first (due_in_main (main_at ts main.now))) }
{
    match main {
        Main::Alone(body) => with_body(found, Before::Due(Rule::FirstLabel), body),
        Main::Processes(list) => with_processes(found, list),
    }
}

/// The first label that is missing in an algorithm: before the first statement of a body, before a loop, after a jump, and after a
/// statement that has a label or a jump in it.
pub fn due_refusal(algorithm: &Algorithm) -> Option<Refusal>
    ensures { (ts : List Tree) → result ≡ first (missing_labels (algorithm_at ts algorithm.now)) }
{
    let macros = with_macros(None, &algorithm.macros);
    let procedures = with_procedures(macros, &algorithm.procedures);
    with_main(procedures, &algorithm.main)
}
