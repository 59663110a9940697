//! Truth values that are known before they are joined.

ghost use Rattle.std.specs.Prelude.{◌≡◌, ◌||◌, ◌&&◌};

/// Whether one of the two holds.
pub fn either(a: bool, b: bool) -> bool
    ensures { result ≡ (a || b) }
{
    a || b
}

/// Whether both hold.
pub fn both(a: bool, b: bool) -> bool
    ensures { result ≡ (a && b) }
{
    a && b
}
