//! The choices of members that a binder visits, one after the other, by an index for each name.

ghost use Rattle.std.specs.Prelude.{◌≡◌, ◌≤◌, [], IfOk, length};
ghost use Rattle.eval_visits.specs.Visits.{IsNextChoice, IsFirstChoice};

use eval_scopes::scope::OverName;
use std::alloc::AllocError;

/// Goes on to the next choice. It is false where there is none.
///
/// # Errors
///
/// Only for want of memory.
pub fn next_choice(names: &[OverName], left: &mut Vec<usize>) -> Result<bool, AllocError>
    requires { length left.old.items ≤ length names.now }
    ensures { IfOk result (λ at_choice. IsNextChoice at_choice names.now left.old.items left.new.items) }
{
    while let Some(next) = left.pop() {
        let here = left.len();
        let over = &names[here];
        if next >= over.members.len() {
            continue;
        }
        left.push(next + 1)?;
        if here + 1 == names.len() {
            return Ok(true);
        }
        left.push(0)?;
    }
    Ok(false)
}

/// Goes to the first choice, at which each name is bound to a member. It is false where there is none.
///
/// # Errors
///
/// Only for want of memory.
pub fn first_choice(names: &[OverName], left: &mut Vec<usize>) -> Result<bool, AllocError>
    requires { left.old.items ≡ [] }
    ensures { IfOk result (λ at_choice. IsFirstChoice at_choice names.now left.new.items) }
{
    if names.is_empty() {
        return Ok(true);
    }
    left.push(0)?;
    next_choice(names, left)
}
