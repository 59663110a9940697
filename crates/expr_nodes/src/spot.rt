//! Where reading goes on, by the number of the next token: what is there, and what comes after it.

ghost use Rattle.std.specs.Prelude.{◌≡◌, ◌<◌, ◌≤◌, ◌+◌, suc, IfOk, IfErr, OnErr, IfSome, true, false, IfNone, length};
ghost use Rattle.tla_tree.specs.Lexical.{token};
ghost use Rattle.tla_tree.specs.Reader as reader;
ghost use Rattle.expr_nodes.specs.ViewSeen.{mark_seen, key_seen, view_seen};
ghost use Rattle.expr_nodes.specs.ReadIn.{Gives, word_seen, field_seen};
ghost use Rattle.expr_nodes.specs.Ahead.{ahead, place_before};
ghost use Rattle.expr_nodes.specs.declared.cursor.Halt.TheVariants as halt;
ghost use Rattle.tla_token.specs.declared.rule.Rule.TheVariants as rule;

use crate::cursor::{FieldName, Halt, Next, Word, at_end, is_key, is_mark, is_sign};
use crate::view::{Key, Mark, View, view_of};
use tla_token::{Place, Rule, Tokens};
use tla_tree::Op;

/// Where reading goes on: at this token, with all that is read to the right of the edge, and so many forms that may open;
/// linked tells whether fields and closed applications count as open forms.
#[derive(Clone, Copy)]
pub struct Spot {
    pub at: usize,
    pub edge: u32,
    pub left: u32,
    pub linked: bool,
}

/// The next token, if it is to the right of the edge, and else one that goes with nothing.
#[tactic(auto, using(tla_token::proofs::KeptLemmas::kept_there))]
pub fn next_at(tokens: &Tokens, s: Spot) -> Next
    requires { s.at ≤ length tokens.now.items.items }
    ensures { token result.place (view_seen tokens.now.bytes.items result.view) ≡ reader.next s.edge (ahead tokens.now s.at) }
{
    if s.at < tokens.items.len() {
        let t = tokens.items[s.at];
        if s.edge < t.place.col {
            return Next {
                place: t.place,
                view: view_of(tokens, t),
            };
        }
    }
    at_end()
}

/// Refused at this token, by this rule.
pub fn refused(tokens: &Tokens, s: Spot, rule: Rule) -> Halt
    requires { s.at ≤ length tokens.now.items.items }
    ensures { result ≡ halt.Refused rule (length (ahead tokens.now s.at)) }
{
    Halt::Refused(rule, tokens.items.len() - s.at)
}

/// The place of the token from which on so many are left, or of the end.
#[tactic(auto, using(crate::proofs::PlaceLemmas::place_there, crate::proofs::PlaceLemmas::place_behind))]
pub fn place_before(tokens: &Tokens, left: usize) -> Place
    ensures { result ≡ place_before tokens.now left }
{
    let at = tokens.items.len().saturating_sub(left);
    if at < tokens.items.len() {
        tokens.items[at].place
    } else {
        tokens.end
    }
}

/// The number of the token after that, if there is one.
#[tactic(auto, using(crate::proofs::AheadLemmas::ahead_tail))]
pub fn after(tokens: &Tokens, s: Spot) -> usize
    requires { s.at ≤ length tokens.now.items.items }
    ensures rest { ahead tokens.now result ≡ reader.tail (ahead tokens.now s.at) }
    ensures inside { result ≤ length tokens.now.items.items }
    ensures no_less { s.at ≤ result }
{
    if s.at < tokens.items.len() {
        s.at + 1
    } else {
        s.at
    }
}

/// The number of the token after this mark, where it is next.
#[tactic(auto, using(crate::proofs::AheadLemmas::mark_at_end, crate::proofs::AheadLemmas::ahead_tail))]
pub fn after_mark(tokens: &Tokens, s: Spot, mark: Mark) -> Option<usize>
    requires { s.at ≤ length tokens.now.items.items }
    ensures there { IfSome result (λ i. reader.is_mark (mark_seen mark) (reader.next s.edge (ahead tokens.now s.at)).kind ≡ true) }
    ensures rest { IfSome result (λ i. ahead tokens.now i ≡ reader.tail (ahead tokens.now s.at)) }
    ensures inside { IfSome result (λ i. i ≤ length tokens.now.items.items) }
    ensures further { IfSome result (λ i. s.at < i) }
    ensures none { IfNone result (reader.is_mark (mark_seen mark) (reader.next s.edge (ahead tokens.now s.at)).kind ≡ false) }
{
    if s.at < tokens.items.len() && is_mark(mark, next_at(tokens, s).view) {
        Some(s.at + 1)
    } else {
        None
    }
}

/// At this token where one form more is open, and so many besides; refused where too many would be.
///
/// # Errors
///
/// Refused at this token, by the rule on how many forms may be open.
pub fn deeper(tokens: &Tokens, s: Spot, besides: u32) -> Result<Spot, Halt>
    requires { s.at ≤ length tokens.now.items.items }
    ensures left { IfOk result (λ d. d.left + suc besides ≡ s.left) }
    ensures at { IfOk result (λ d. d.at ≡ s.at) }
    ensures edge { IfOk result (λ d. d.edge ≡ s.edge) }
    ensures linked { IfOk result (λ d. d.linked ≡ s.linked) }
    ensures deep { OnErr result (s.left ≤ besides) }
    ensures refused { IfErr result (λ e. e ≡ halt.Refused rule.TooDeep (length (ahead tokens.now s.at))) }
{
    if besides < s.left {
        Ok(Spot {
            left: s.left - besides - 1,
            ..s
        })
    } else {
        Err(refused(tokens, s, Rule::TooDeep))
    }
}

/// Past this mark: its place.
///
/// # Errors
///
/// Refused at the next token, by the rule of syntax, where it is another.
pub fn past_mark(tokens: &Tokens, s: Spot, mark: Mark) -> Result<(Place, usize), Halt>
    requires { s.at ≤ length tokens.now.items.items }
    ensures value { Gives (λ x. (x.0, ahead tokens.now x.1)) result (reader.a_mark s.edge (mark_seen mark) (ahead tokens.now s.at)) }
    ensures inside { IfOk result (λ x. x.1 ≤ length tokens.now.items.items) }
    ensures further { IfOk result (λ x. s.at ≤ x.1) }
{
    let t = next_at(tokens, s);
    if is_mark(mark, t.view) {
        Ok((t.place, after(tokens, s)))
    } else {
        Err(refused(tokens, s, Rule::Syntax))
    }
}

/// Past this key: its place.
///
/// # Errors
///
/// Refused at the next token, by the rule of syntax, where it is another.
pub fn past_key(tokens: &Tokens, s: Spot, key: Key) -> Result<(Place, usize), Halt>
    requires { s.at ≤ length tokens.now.items.items }
    ensures value { Gives (λ x. (x.0, ahead tokens.now x.1)) result (reader.a_key s.edge (key_seen key) (ahead tokens.now s.at)) }
    ensures inside { IfOk result (λ x. x.1 ≤ length tokens.now.items.items) }
    ensures further { IfOk result (λ x. s.at ≤ x.1) }
{
    let t = next_at(tokens, s);
    if is_key(key, t.view) {
        Ok((t.place, after(tokens, s)))
    } else {
        Err(refused(tokens, s, Rule::Syntax))
    }
}

/// Past this sign of an operator: its place.
///
/// # Errors
///
/// Refused at the next token, by the rule of syntax, where it is another.
pub fn past_sign(tokens: &Tokens, s: Spot, op: Op) -> Result<(Place, usize), Halt>
    requires { s.at ≤ length tokens.now.items.items }
    ensures value { Gives (λ x. (x.0, ahead tokens.now x.1)) result (reader.a_sign s.edge op (ahead tokens.now s.at)) }
    ensures inside { IfOk result (λ x. x.1 ≤ length tokens.now.items.items) }
    ensures further { IfOk result (λ x. s.at ≤ x.1) }
{
    let t = next_at(tokens, s);
    if is_sign(op, t.view) {
        Ok((t.place, after(tokens, s)))
    } else {
        Err(refused(tokens, s, Rule::Syntax))
    }
}

/// Past a name.
///
/// # Errors
///
/// Refused at the next token, by the rule of syntax, where it is another.
pub fn past_word(tokens: &Tokens, s: Spot) -> Result<(Word, usize), Halt>
    requires { s.at ≤ length tokens.now.items.items }
    ensures value { Gives (λ x. (word_seen tokens.now.bytes.items x.0, ahead tokens.now x.1)) result (reader.a_word s.edge (ahead tokens.now s.at)) }
    ensures inside { IfOk result (λ x. x.1 ≤ length tokens.now.items.items) }
    ensures further { IfOk result (λ x. s.at ≤ x.1) }
{
    let t = next_at(tokens, s);
    match t.view {
        View::Word(span) => {
            let word = Word {
                place: t.place,
                span,
            };
            Ok((word, after(tokens, s)))
        }
        _ => Err(refused(tokens, s, Rule::Syntax)),
    }
}

/// Past the name of a field.
///
/// # Errors
///
/// Refused at the next token, by the rule of syntax, where it is another.
pub fn past_field(tokens: &Tokens, s: Spot) -> Result<(FieldName, usize), Halt>
    requires { s.at ≤ length tokens.now.items.items }
    ensures value { Gives (λ x. (field_seen tokens.now.bytes.items x.0, ahead tokens.now x.1)) result (reader.a_field s.edge (ahead tokens.now s.at)) }
    ensures inside { IfOk result (λ x. x.1 ≤ length tokens.now.items.items) }
    ensures further { IfOk result (λ x. s.at ≤ x.1) }
{
    let t = next_at(tokens, s);
    let (reserved, span) = match t.view {
        View::Word(span) => (false, span),
        View::Reserved(span) => (true, span),
        _ => return Err(refused(tokens, s, Rule::Syntax)),
    };
    let field = FieldName {
        place: t.place,
        reserved,
        span,
    };
    Ok((field, after(tokens, s)))
}
