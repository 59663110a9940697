//! Laws of made modules, stated as what functions without a body ensure.

ghost use Rattle.std.specs.Prelude.{ℕ, ◌^◌, ◌<◌, ◌≤◌, length};
ghost use Rattle.make_module.specs.Big.{big};

/// A module of as many steps as may be asked for is short.
pub fn made_modules_are_short()
    ensures { (seed count : ℕ) → count ≤ 2000 → length (big seed count) < 2 ^ 17 }
{}
