//! Whether a key, a `[]`, a name or a bullet is next, and the number of the token after it.

ghost use Rattle.std.specs.Prelude.{◌≡◌, ◌<◌, ◌≤◌, ◌&&◌, nat_eq, IfOk, IfSome, IfNone, Some, None, true, false, length};
ghost use Rattle.tla_tree.specs.Spelling.{Phrase};
ghost use Rattle.tla_tree.specs.Reader as reader;
ghost use Rattle.expr_nodes.specs.ViewSeen.{key_seen};
ghost use Rattle.expr_nodes.specs.ShapeOf.{shape_of};
ghost use Rattle.expr_nodes.specs.ReadIn.{Gives, word_seen};
ghost use Rattle.expr_nodes.specs.Ahead.{ahead};
ghost use Rattle.expr_rows.specs.HasRead.{is_arm_next};

use expr_nodes::cursor::{Halt, Word, is_key, is_sign};
use expr_nodes::shape::{Shape, takes_box};
use expr_nodes::spot::{Spot, after, after_mark, next_at, refused};
use expr_nodes::view::{Key, Mark, View};
use tla_token::{Place, Rule, Tokens};
use tla_tree::Op;

/// The number of the token after this key, where it is next.
pub fn after_key(tokens: &Tokens, s: Spot, key: Key) -> Option<usize>
    requires { s.at ≤ length tokens.now.items.items }
    ensures there { IfSome result (λ i. reader.is_key (key_seen key) (reader.next s.edge (ahead tokens.now s.at)).kind ≡ true) }
    ensures rest { IfSome result (λ i. ahead tokens.now i ≡ reader.tail (ahead tokens.now s.at)) }
    ensures inside { IfSome result (λ i. i ≤ length tokens.now.items.items) }
    ensures further { IfSome result (λ i. s.at ≤ i) }
    ensures none { IfNone result (reader.is_key (key_seen key) (reader.next s.edge (ahead tokens.now s.at)).kind ≡ false) }
{
    if is_key(key, next_at(tokens, s).view) {
        Some(after(tokens, s))
    } else {
        None
    }
}

/// The number of the token after a `[]`, where it is next and no `CASE` takes it in an expression of this shape.
pub fn after_box(tokens: &Tokens, s: Spot, shape: Shape) -> Option<usize>
    requires { s.at ≤ length tokens.now.items.items }
    ensures there { IfSome result (λ i. (a : Phrase) → shape_of s.linked a ≡ shape → is_arm_next s.edge a (ahead tokens.now s.at) ≡ true) }
    ensures rest { IfSome result (λ i. ahead tokens.now i ≡ reader.tail (ahead tokens.now s.at)) }
    ensures inside { IfSome result (λ i. i ≤ length tokens.now.items.items) }
    ensures further { IfSome result (λ i. s.at < i) }
    ensures none { IfNone result ((a : Phrase) → shape_of s.linked a ≡ shape → is_arm_next s.edge a (ahead tokens.now s.at) ≡ false) }
{
    if takes_box(next_at(tokens, s).place.col, shape) {
        return None;
    }
    after_mark(tokens, s, Mark::Box)
}

/// A name, and the number of the token after it, where one is next.
#[tactic(auto, using(expr_nodes::proofs::AheadLemmas::ahead_tail))]
pub fn after_word(tokens: &Tokens, s: Spot) -> Option<(Word, usize)>
    requires { s.at ≤ length tokens.now.items.items }
    ensures there { IfSome result (λ x. reader.word_of (reader.next s.edge (ahead tokens.now s.at)).place (reader.next s.edge (ahead tokens.now s.at)).kind ≡ Some (word_seen tokens.now.bytes.items x.0)) }
    ensures rest { IfSome result (λ x. ahead tokens.now x.1 ≡ reader.tail (ahead tokens.now s.at)) }
    ensures inside { IfSome result (λ x. x.1 ≤ length tokens.now.items.items) }
    ensures further { IfSome result (λ x. s.at < x.1) }
    ensures none { IfNone result (reader.word_of (reader.next s.edge (ahead tokens.now s.at)).place (reader.next s.edge (ahead tokens.now s.at)).kind ≡ None) }
{
    if s.at == tokens.items.len() {
        return None;
    }
    let t = next_at(tokens, s);
    match t.view {
        View::Word(span) => {
            let word = Word {
                place: t.place,
                span,
            };
            Some((word, s.at + 1))
        }
        _ => None,
    }
}

/// Whether a sign of this operator is next, in this column.
pub fn is_bullet_next(tokens: &Tokens, s: Spot, op: Op, col: u32) -> bool
    requires { s.at ≤ length tokens.now.items.items }
    ensures { result ≡ (reader.is_sign op (reader.next s.edge (ahead tokens.now s.at)).kind && nat_eq col (reader.next s.edge (ahead tokens.now s.at)).place.col) }
{
    let t = next_at(tokens, s);
    is_sign(op, t.view) && col == t.place.col
}

/// Past a sign of this operator in this column: its place.
///
/// # Errors
///
/// The rule by which it is refused, and how many tokens are left from there on; or want of memory.
pub fn past_bullet(tokens: &Tokens, s: Spot, op: Op, col: u32) -> Result<(Place, usize), Halt>
    requires { s.at ≤ length tokens.now.items.items }
    ensures value { Gives (λ x. (x.0, ahead tokens.now x.1)) result (reader.take s.edge (reader.bullet_of op col) (ahead tokens.now s.at)) }
    ensures inside { IfOk result (λ x. x.1 ≤ length tokens.now.items.items) }
    ensures further { IfOk result (λ x. s.at ≤ x.1) }
{
    let t = next_at(tokens, s);
    if is_sign(op, t.view) && col == t.place.col {
        Ok((t.place, after(tokens, s)))
    } else {
        Err(refused(tokens, s, Rule::Syntax))
    }
}
