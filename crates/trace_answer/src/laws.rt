//! Laws of traces of whole files, stated as what functions without a body ensure.

ghost use Rattle.std.specs.Prelude.{◌≡◌, ◌⊎◌, ◌<◌, Bool, Option, None, length};
ghost use Rattle.tla_token.specs.Limits.{past_text};
ghost use Rattle.tla_token.specs.declared.rule.Refusal.{Refusal};
ghost use Rattle.module_tree.specs.TextFront.{Text};
ghost use Rattle.promise.specs.Options.{Options};
ghost use Rattle.step_runner.specs.Explained.{Halt};
ghost use Rattle.run_answer.specs.Chosen.{Files, Which};
ghost use Rattle.trace_answer.specs.Traced.{RefusesTrace, Given, IsTrace};
ghost use Rattle.trace_answer.specs.Promised.{KeepsTrace};

/// Of three files one is refused, once, or they give a trace; and never both.
pub fn files_are_refused_or_give_a_trace()
    ensures some { (forced : Bool) (f : Files) → ((w : Which) × (r : Refusal) × RefusesTrace forced f w r) ⊎ Given forced f }
    ensures not_both { (forced : Bool) (f : Files) (w : Which) (r : Refusal) → RefusesTrace forced f w r → Given forced f → ⊥ }
    ensures once { (forced : Bool) (f : Files) (w v : Which) (r q : Refusal) → RefusesTrace forced f w r → RefusesTrace forced f v q → (w ≡ v) × (r ≡ q) }
{}

/// Files that aren't refused are explained in one way: with one text, and one halt.
pub fn files_have_one_explanation()
    ensures some { (options : Options) (f : Files) → Given options.label f → (w : Text) × (h : Option Halt) × IsTrace options f w h }
    ensures one { (options : Options) (f : Files) (w v : Text) (h k : Option Halt) → IsTrace options f w h → IsTrace options f v k → (w ≡ v) × (h ≡ k) }
{}

/// A trace all of whose states are shown keeps the promise of a trace.
pub fn whole_traces_keep_the_promise()
    ensures { (options : Options) (f : Files) (w : Text) → length f.source < past_text → IsTrace options f w None → KeepsTrace options f w }
{}
