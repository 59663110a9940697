//! Laws of files of constants, scripts and traces, stated as what functions without a body ensure.

ghost use Rattle.std.specs.Prelude.{◌≡◌, ◌⊎◌, Bool, List, None};
ghost use Rattle.tla_token.specs.declared.rule.Refusal as code;
ghost use Rattle.tla_tree.specs.Tree.{Word};
ghost use Rattle.tla_value.specs.States.{Entries};
ghost use Rattle.tla_value.specs.Outside.{Outside};
ghost use Rattle.step_runner.specs.Fronts.{Text};
ghost use Rattle.step_runner.specs.Config.{SpellsConfig, ConfigOffends};
ghost use Rattle.step_runner.specs.Script.{Script, SpellsScript, ScriptOffends};
ghost use Rattle.pcal_tree.specs.Program.{Program};
ghost use Rattle.pcal_tree.specs.Script.{RunOf};
ghost use Rattle.step_runner.specs.Followed.{followed};
ghost use Rattle.step_runner.specs.Trace.{SpellsTrace, TraceOffends};

/// A file spells something, or has a refusal.
pub fn a_file_is_spelled_or_refused()
    ensures config { (o : Outside) (x : Text) → ((es : Entries) × SpellsConfig o x es) ⊎ ((r : code.Refusal) × ConfigOffends o x r) }
    ensures script { (multi : Bool) (x : Text) → ((s : Script) × SpellsScript multi x s) ⊎ ((r : code.Refusal) × ScriptOffends multi x r) }
    ensures trace { (vars : List Word) (x : Text) → ((a : List Entries) × SpellsTrace vars x a) ⊎ ((r : code.Refusal) × TraceOffends vars x r) }
{}

/// A file spells one thing at most.
pub fn a_file_spells_one_thing()
    ensures config { (o : Outside) (x : Text) (es fs : Entries) → SpellsConfig o x es → SpellsConfig o x fs → es ≡ fs }
    ensures script { (multi : Bool) (x : Text) (s t : Script) → SpellsScript multi x s → SpellsScript multi x t → s ≡ t }
    ensures trace { (vars : List Word) (x : Text) (a b : List Entries) → SpellsTrace vars x a → SpellsTrace vars x b → a ≡ b }
{}

/// A file that spells something has no refusal.
pub fn what_is_spelled_is_not_refused()
    ensures config { (o : Outside) (x : Text) (es : Entries) (r : code.Refusal) → SpellsConfig o x es → ConfigOffends o x r → ⊥ }
    ensures script { (multi : Bool) (x : Text) (s : Script) (r : code.Refusal) → SpellsScript multi x s → ScriptOffends multi x r → ⊥ }
    ensures trace { (vars : List Word) (x : Text) (a : List Entries) (r : code.Refusal) → SpellsTrace vars x a → TraceOffends vars x r → ⊥ }
{}

/// A file has one refusal at most.
pub fn a_file_is_refused_once()
    ensures config { (o : Outside) (x : Text) (r q : code.Refusal) → ConfigOffends o x r → ConfigOffends o x q → r ≡ q }
    ensures script { (multi : Bool) (x : Text) (r q : code.Refusal) → ScriptOffends multi x r → ScriptOffends multi x q → r ≡ q }
    ensures trace { (vars : List Word) (x : Text) (r q : code.Refusal) → TraceOffends vars x r → TraceOffends vars x q → r ≡ q }
{}

/// A script that is followed to its end is run, through the states that it leads to.
pub fn a_followed_script_is_run()
    ensures { (P : Program) (c : Script) → (followed P c).stop ≡ None → RunOf P c.choices c.turns (followed P c).states }
{}
