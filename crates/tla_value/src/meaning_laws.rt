//! Laws of the meaning of expressions, stated as what functions without a body ensure.

ghost use Rattle.std.specs.Prelude.{◌≡◌, ◌+◌, ◌<◌, ℕ, ℤ, pos, Bool, true, List};
ghost use Rattle.tla_token.specs.declared.place.Place.{Place};
ghost use Rattle.tla_tree.specs.declared.op.Binder.{Binder};
ghost use Rattle.tla_tree.specs.Tree.{Word, Name, binding, Tree, node, Trees, Graft, graft, Every};
ghost use Rattle.tla_value.specs.Value.{Value};
ghost use Rattle.tla_value.specs.Stops.{Check, plain};
ghost use Rattle.tla_value.specs.Limits.{bounded};
ghost use Rattle.tla_value.specs.Meaning.{Env, bind, eval};
ghost use Rattle.tla_value.specs.Grafts.{Arguments, arguments, primes, owned, through};
ghost use Rattle.tla_value.specs.Definitions.{Valuation, Definition, scope_of, mid};
ghost use Rattle.tla_value.specs.laws.Places.{SensesButPlaces, EnvsButPlaces, ChecksButPlaces, TreesButPlaces, DefinitionsButPlaces, GraftsButPlaces};
ghost use Rattle.tla_value.specs.laws.Groups.{ungrouped, sets_for_names, HaveSets};
ghost use Rattle.tla_value.specs.laws.FreeNames.{FreeNames, NotFree, AgreeOn};
ghost use Rattle.tla_value.specs.laws.UnderLimits.{EnvsBelow, SensesBelow};
ghost use Rattle.tla_value.specs.laws.Grafting.{In, ApartForm, NoArgument, NotOwned, BindsNone, AllSettled, Given};

/// What an expression means depends only on the names that it reads free, and on its operators. So a name
/// that isn't free in it may be bound around it.
pub fn meaning_is_of_what_is_read()
    ensures names { (c : Check) (u w : Word → Bool) (t : Tree) → FreeNames (In u) (In w) t → (e f : Env) → AgreeOn (In u) (In w) e f → eval c t e ≡ eval c t f }
    ensures others { (c : Check) (x : Word) (t : Tree) → NotFree x t → (v : Value) (e : Env) → eval c t e ≡ eval c t (bind x v e) }
{}

/// With trees put in for its names, an expression means what it means where the names stand for these
/// trees. No name that it binds may be put in for, or be free in a tree that is put in.
pub fn grafts_stand_for_names()
    ensures { (c : Check) (g : Graft) (t : Tree) → Every (ApartForm g) t → (e : Env) → eval c (graft g t) e ≡ eval c t (through c g e) }
{}

/// With arguments put in for its parameters, a macro's expression means what it means where each
/// parameter stands for its argument.
pub fn arguments_stand_for_parameters()
    ensures { (c : Check) (s : Arguments) (t : Tree) → Every (NoArgument s) t → (e : Env) → eval c (graft (arguments s) t) e ≡ eval c t (through c (arguments s) e) }
{}

/// With `x[self]` put in for the variables of a process, an expression means what it means where each of
/// these stands for the process's own part.
pub fn own_parts_stand_for_locals()
    ensures { (c : Check) (self : Word) (here : Word → Bool) (t : Tree) → Every (NotOwned self here) t → (e : Env) → eval c (graft (owned self here) t) e ≡ eval c t (through c (owned self here) e) }
{}

/// With the variables of a set primed, an expression means in a pair of states what it means in the state
/// half done, in which these variables have their next values. No name that it binds is of the set, and no
/// definition that it uses reads one, though parameters may share their names.
pub fn primes_read_the_mid_state()
    ensures { (c : Check) (assigned : Word → Bool) (u : Word → Bool) (constants : Valuation) (ds : List Definition) (s t : Valuation)
        → AllSettled assigned (In u) ds → ((x : Word) → assigned x ≡ true → Given (t x)) → (e : Tree) → Every (BindsNone assigned) e → FreeNames (In u) (In u) e
        → eval c (graft (primes assigned) e) (scope_of c constants ds s t) ≡ eval c e (scope_of c constants ds (mid assigned s t) t) }
{}

/// Under the limits of a run an expression has the outcome that it has without them, or passes one: in the
/// scope of an algorithm, with names bound, and with names that stand for trees.
pub fn limits_change_nothing_else()
    ensures scope { (constants : Valuation) (ds : List Definition) (s t : Valuation) → EnvsBelow (scope_of bounded constants ds s t) (scope_of plain constants ds s t) }
    ensures bound { (x : Word) (v : Value) (e f : Env) → EnvsBelow e f → EnvsBelow (bind x v e) (bind x v f) }
    ensures grafted { (g : Graft) (e f : Env) → EnvsBelow e f → EnvsBelow (through bounded g e) (through plain g f) }
    ensures outcome { (t : Tree) (e f : Env) → EnvsBelow e f → SensesBelow (eval bounded t e) (eval plain t f) }
{}

/// A group's set is evaluated once, and means what it means taken once for each name of the group.
pub fn a_set_serves_its_group()
    ensures { (c : Check) (b : Binder) (groups : List (List Name)) (at : Place) (ts : Trees) → HaveSets groups ts → (env : Env)
        → eval c (node (binding b groups) at ts) env ≡ eval c (node (binding b (ungrouped groups)) at (sets_for_names groups ts)) env }
{}

/// Places matter to a value but for where a trouble is: trees and definitions that are equal, places aside,
/// have one value, or faults of one kind, or values past the limits.
pub fn places_matter_to_troubles_alone()
    ensures outcome { (c k : Check) → ChecksButPlaces c k → (t u : Tree) → TreesButPlaces t u → (e f : Env) → EnvsButPlaces e f → SensesButPlaces (eval c t e) (eval k u f) }
    ensures plain { ChecksButPlaces plain plain }
    ensures bounded { ChecksButPlaces bounded bounded }
    ensures bound { (x : Word) (v : Value) (e f : Env) → EnvsButPlaces e f → EnvsButPlaces (bind x v e) (bind x v f) }
    ensures grafted { (c k : Check) → ChecksButPlaces c k → (g h : Graft) → GraftsButPlaces g h → (e f : Env) → EnvsButPlaces e f → EnvsButPlaces (through c g e) (through k h f) }
    ensures scope { (c k : Check) → ChecksButPlaces c k → (constants : Valuation) (ds es : List Definition) → DefinitionsButPlaces ds es → (s t : Valuation)
        → EnvsButPlaces (scope_of c constants ds s t) (scope_of k constants es s t) }
{}
