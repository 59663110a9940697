//! What was written is read back, stated as what a function without a body ensures.

ghost use Rattle.std.specs.Prelude.{◌≡◌};
ghost use Rattle.tla_token.specs.declared.rule.Refusal.{Refusal};
ghost use Rattle.tla_value.specs.Outside.{Outside};
ghost use Rattle.module_tree.specs.Module.{Region, Module};
ghost use Rattle.module_tree.specs.TextFront.{Text};
ghost use Rattle.module_tree.specs.laws.WritableRegion.{IsWritten};
ghost use Rattle.region_reading.specs.ReadAnswer.{IsWithin, ReadsModule, RefusesModule};

/// A module that was written around its translation is read back as it was written, where it nests no deeper than is read: it is what its text is read as, its text is
/// read as no other module, and it is not refused.
pub fn written_modules_are_read_back()
    ensures read { (x w : Text) (o : Outside) (r : Region) (h : IsWritten x w o r) → IsWithin w h.is.written → ReadsModule w h.is.written }
    ensures only { (x w : Text) (o : Outside) (r : Region) (h : IsWritten x w o r) (n : Module) → ReadsModule w n → n ≡ h.is.written }
    ensures taken { (x w : Text) (o : Outside) (r : Region) (h : IsWritten x w o r) → IsWithin w h.is.written → (q : Refusal) → RefusesModule w q → ⊥ }
{}
