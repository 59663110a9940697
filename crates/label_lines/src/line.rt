//! The line of a label, and the end of what is done from it.

ghost use Rattle.std.specs.Prelude.{◌≡◌, List, drop};
ghost use Rattle.tla_tree.specs.Tree.{Tree};
ghost use Rattle.pcal_tree.specs.InMemory.{statements_at};
ghost use Rattle.source_map.specs.Lines.{last_token};
ghost use Rattle.label_lines.specs.Ends.{EndsAt};

use pcal_tree::algorithm::Stmt;
use tla_token::Place;
use tla_tree::Name;

/// Where a label is ("A PlusCal User's Manual", section 3.7, labels).
#[derive(Drop)]
pub struct Line {
    /// The label's written name.
    pub label: Name,
    /// The written name of its procedure or process, or the algorithm's name where there is one body.
    pub unit: Name,
    /// The place of the label; of a label that was added, that of its statement.
    pub first: Place,
    /// Where the last token of the last statement stands that is before the next label of its list.
    pub last: Place,
}

// Where the last token of a statement stands. A label has none.
fn end_of(stmt: &Stmt) -> Option<Place>
    ensures { (ts : List Tree) → EndsAt ts stmt.now result }
{
    match stmt {
        Stmt::Label(_, _) => None,
        Stmt::Simple(span, _) => Some(span.last),
        Stmt::If(span, _, _, _) => Some(span.last),
        Stmt::Either(span, _) => Some(span.last),
        Stmt::With(span, _, _) => Some(span.last),
        Stmt::While(span, _, _) => Some(span.last),
    }
}

/// Where the last token of the statements of this number and behind it stands that are before the next label, if there are some;
/// else the place before them.
pub fn last_token(place: Place, stmts: &[Stmt], from: usize) -> Place
    ensures { (ts : List Tree) → result ≡ last_token place (statements_at ts (drop from stmts.now)) }
{
    let mut last = place;
    for i in from..stmts.len() {
        match end_of(&stmts[i]) {
            None => return last,
            Some(end) => last = end,
        }
    }
    last
}
