//! Numbers of routines.

ghost use Rattle.std.specs.Prelude.{◌≡◌, ◌+◌, IfOk};

use std::alloc::AllocError;

/// The sum of two numbers.
///
/// # Errors
///
/// Past the largest number: that is more routines than memory has.
pub fn sum(m: usize, n: usize) -> Result<usize, AllocError>
    ensures { IfOk result (λ s. s ≡ m + n) }
{
    m.checked_add(n).ok_or(AllocError)
}
