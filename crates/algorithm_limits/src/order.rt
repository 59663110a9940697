//! Of two refusals, the one that is answered.

ghost use Rattle.std.specs.Prelude.{◌≡◌, Some};
ghost use Rattle.pcal_tree.specs.Offences.{offence_if, is_before, is_sooner, first};
ghost use Rattle.algorithm_answer.specs.Joined.{joined};

use tla_token::rule::number;
use tla_token::{Place, Refusal, Rule};

/// Whether a place comes before another in the text.
pub fn is_before(a: Place, b: Place) -> bool
    ensures { result ≡ is_before a b }
{
    a.line < b.line || (a.line == b.line && a.col < b.col)
}

// Whether a refusal is of a lesser rule than another, or of the same rule at an earlier place.
fn is_sooner(a: Refusal, b: Refusal) -> bool
    ensures { result ≡ is_sooner a b }
{
    let m = number(a.rule);
    let n = number(b.rule);
    m < n || (m == n && is_before(a.place, b.place))
}

/// Of two refusals that may be the one by which an algorithm is refused, that which is: the one of the lesser rule; of one
/// rule, the one that comes first in the text.
pub fn least(first: Option<Refusal>, second: Option<Refusal>) -> Option<Refusal>
    ensures { result ≡ joined first second }
{
    match first {
        None => second,
        Some(a) => match second {
            None => Some(a),
            Some(b) => { if is_sooner(b, a) { Some(b) } else { Some(a) } }
        },
    }
}

/// The same where there is a second one.
pub fn lesser(first: Option<Refusal>, second: Refusal) -> Refusal
    ensures { Some result ≡ joined first (Some second) }
{
    match first {
        None => second,
        Some(a) => { if is_sooner(second, a) { second } else { a } }
    }
}

/// The same where the second one is an offence of this rule, at a place, if it is one.
#[tactic(auto, using(algorithm_answer::proofs::Joins::joined_none))]
pub fn or_offence(
    found: Option<Refusal>,
    is_offence: bool,
    rule: Rule,
    place: Place,
) -> Option<Refusal>
    ensures { result ≡ joined found (first (offence_if is_offence rule place)) }
{
    if is_offence {
        least(found, Some(Refusal { rule, place }))
    } else {
        found
    }
}
