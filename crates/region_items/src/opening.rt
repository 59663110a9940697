//! Past a token that opens a form: where reading goes on in the form.

ghost use Rattle.std.specs.Prelude.{◌≡◌, ◌≤◌, suc, IfOk, IfErr, OnErr, length};
ghost use Rattle.tla_token.specs.declared.rule.Rule.TheVariants as rule;
ghost use Rattle.tla_tree.specs.Reader as reader;
ghost use Rattle.expr_nodes.specs.declared.cursor.Halt.TheVariants as halt;
ghost use Rattle.expr_nodes.specs.Ahead.{ahead};
ghost use Rattle.expr_nodes.specs.ReadIn.{Gives};
ghost use Rattle.expr_nodes.specs.ViewSeen.{mark_seen};
ghost use Rattle.region_reading.specs.Bound.{opening};
ghost use Rattle.region_items.specs.Begins.{bound};

use expr_nodes::cursor::Halt;
use expr_nodes::spot::{Spot, after, deeper, past_mark, past_sign};
use expr_nodes::view::Mark;
use tla_token::{Place, Tokens};
use tla_tree::Op;

/// Behind the next token, where it opens a form.
///
/// # Errors
///
/// Refused at that token, where too many forms would be open.
pub fn inside(tokens: &Tokens, s: Spot) -> Result<Spot, Halt>
    requires { s.at ≤ length tokens.now.items.items }
    ensures left { IfOk result (λ d. suc d.left ≡ s.left) }
    ensures edge { IfOk result (λ d. d.edge ≡ s.edge) }
    ensures rest { IfOk result (λ d. ahead tokens.now d.at ≡ reader.tail (ahead tokens.now s.at)) }
    ensures inside { IfOk result (λ d. d.at ≤ length tokens.now.items.items) }
    ensures further { IfOk result (λ d. s.at ≤ d.at) }
    ensures deep { OnErr result (s.left ≤ 0) }
    ensures refused { IfErr result (λ e. e ≡ halt.Refused rule.TooDeep (length (ahead tokens.now s.at))) }
{
    let d = deeper(tokens, s, 0)?;
    let at = after(tokens, s);
    Ok(Spot { at, ..d })
}

/// Past a mark that opens a form: its place, and where reading goes on.
///
/// # Errors
///
/// Refused at the next token, where it is another, or where too many forms would be open.
pub fn past_opening_mark(tokens: &Tokens, s: Spot, mark: Mark) -> Result<(Place, Spot), Halt>
    requires { s.at ≤ length tokens.now.items.items }
    ensures value { Gives (λ x. (x.0, ahead tokens.now x.1.at)) result (opening (bound s.left) (reader.a_mark s.edge (mark_seen mark)) (ahead tokens.now s.at)) }
    ensures left { IfOk result (λ x. suc x.1.left ≡ s.left) }
    ensures edge { IfOk result (λ x. x.1.edge ≡ s.edge) }
    ensures inside { IfOk result (λ x. x.1.at ≤ length tokens.now.items.items) }
    ensures further { IfOk result (λ x. s.at ≤ x.1.at) }
{
    let (place, at) = past_mark(tokens, s, mark)?;
    let d = deeper(tokens, s, 0)?;
    Ok((place, Spot { at, ..d }))
}

/// Past a sign that opens a form: its place, and where reading goes on.
///
/// # Errors
///
/// As of `past_opening_mark`.
pub fn past_opening_sign(tokens: &Tokens, s: Spot, op: Op) -> Result<(Place, Spot), Halt>
    requires { s.at ≤ length tokens.now.items.items }
    ensures value { Gives (λ x. (x.0, ahead tokens.now x.1.at)) result (opening (bound s.left) (reader.a_sign s.edge op) (ahead tokens.now s.at)) }
    ensures left { IfOk result (λ x. suc x.1.left ≡ s.left) }
    ensures edge { IfOk result (λ x. x.1.edge ≡ s.edge) }
    ensures inside { IfOk result (λ x. x.1.at ≤ length tokens.now.items.items) }
    ensures further { IfOk result (λ x. s.at ≤ x.1.at) }
{
    let (place, at) = past_sign(tokens, s, op)?;
    let d = deeper(tokens, s, 0)?;
    Ok((place, Spot { at, ..d }))
}
