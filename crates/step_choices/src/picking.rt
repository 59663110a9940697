//! What the next choice takes: a branch, or a member of a set.

ghost use Rattle.std.specs.Prelude.{◌≡◌, ◌<◌, ◌∷◌, suc, drop, IfOk, IfErr};
ghost use Rattle.step_choices.specs.Picks.{pause_unchosen, TakesNone};

use crate::pause::Pause;
use tla_token::Place;

/// The number, from 0, of what the next choice takes of so many; `used` counts the choices that are used.
///
/// # Errors
///
/// Exactly where there is nothing to choose, or no such choice.
pub fn picked(choices: &[u32], count: usize, at: Place, used: &mut usize) -> Result<usize, Pause>
    ensures taken { IfOk result (λ i. (i < count) × (drop used.old choices.now ≡ suc i ∷ drop used.new choices.now)) }
    ensures none { IfErr result (λ e. (e ≡ pause_unchosen count at) × TakesNone count (drop used.old choices.now)) }
{
    if count == 0 {
        return Err(Pause::Held(at));
    }
    if *used >= choices.len() {
        return Err(Pause::Wants(count, at));
    }
    let number = choices[*used] as usize;
    if number == 0 || number > count {
        return Err(Pause::Wants(count, at));
    }
    *used += 1;
    Ok(number - 1)
}
