//! Laws of what runs of accepted algorithms stand on, stated as what functions without a body ensure.

ghost use Rattle.std.specs.Prelude.{◌≡◌, ◌≤◌, ℕ, List, length, map, []};
ghost use Rattle.std.specs.List.{AllByRecursion};
ghost use Rattle.tla_tree.specs.Tree.{Tree};
ghost use Rattle.tla_tree.specs.Pool.{Keeps};
ghost use Rattle.tla_value.specs.Definitions.{Valuation};
ghost use Rattle.tla_value.specs.Limits.{bounded};
ghost use Rattle.tla_value.specs.Outside.{Outside};
ghost use Rattle.tla_value.specs.States.{Entries};
ghost use Rattle.tla_value.specs.Stops.{Check};
ghost use Rattle.pcal_tree.specs.Algorithm.{Procedure, Algorithm};
ghost use Rattle.pcal_tree.specs.declared.algorithm.Algorithm as code_algorithm;
ghost use Rattle.pcal_tree.specs.InMemory.{algorithm_at, past_algorithm};
ghost use Rattle.pcal_tree.specs.Program.{Program};
ghost use Rattle.pcal_tree.specs.Programs.{program_in};
ghost use Rattle.pcal_tree.specs.Variables.{vars};
ghost use Rattle.name_bits.specs.NamesIn.{most, AllApart};
ghost use Rattle.written_names.specs.Units.{naming_of};
ghost use Rattle.action_builder.specs.WrittenNames.{with_names};
ghost use Rattle.step_forms.specs.Opened.{IsOpenable};
ghost use Rattle.step_moves.specs.Prepared.{IsLabelled};
ghost use Rattle.module_outside.specs.declared.definition.ReadDefinition.{ReadDefinition};
ghost use Rattle.module_outside.specs.OutsideAt.{definition_seen};
ghost use Rattle.module_outside.specs.FoundAt.{AreHeld};
ghost use Rattle.step_moves.specs.declared.program.Program as code;
ghost use Rattle.step_moves.specs.Programs.{program_at};
ghost use Rattle.step_runner.specs.Config.{constants_of};
ghost use Rattle.translation.specs.laws.AcceptedAlgorithm.{IsAcceptedInFile};
ghost use Rattle.running.specs.declared.made.Grounds.{Grounds};
ghost use Rattle.running.specs.GroundsOf.{AreGrounds};
ghost use Rattle.running.specs.ProgramsOf.{IsProgramOf};
ghost use Rattle.running.specs.ReadBefore.{WasRead, IsFilled};
ghost use Rattle.pcal_tree.specs.OffencesLabels.{label_offences};

/// What is asked of an algorithm before a run is had of an accepted one: no rule on labels is broken and each macro has a statement,
/// each procedure's body begins with a label, and no variable stands twice, under any limits and with any values of the constants.
pub fn accepted_algorithms_can_run()
    ensures openable { (o : Outside) (g : Algorithm) → IsAcceptedInFile o g → IsOpenable g }
    ensures labelled { (o : Outside) (g : Algorithm) → IsAcceptedInFile o g → AllByRecursion (λ (p : Procedure). IsLabelled p.body) g.procedures }
    ensures apart { (o : Outside) (g : Algorithm) → IsAcceptedInFile o g → (c : Check) (values : Valuation) → AllApart (vars (program_in c o g values)) }
{}

/// A program in memory that has the algorithm, its written names, what is outside and the constants of a run is the definition's; and
/// of an accepted algorithm it has what is asked before a run. If its variables are no more than numbers of a set, it stands on what `grounds`
/// made of it while the pool grew to what it is.
pub fn programs_are_those_of_the_definition()
    ensures program { (p : code.Program) (o : Outside) (g : Algorithm) (es : Entries) → IsProgramOf p o g es → program_at p ≡ program_in bounded o g (constants_of es) }
    ensures openable { (p : code.Program) (o : Outside) (g : Algorithm) (es : Entries) → IsProgramOf p o g es → IsAcceptedInFile o g → IsOpenable (program_at p).algorithm }
    ensures apart { (p : code.Program) (o : Outside) (g : Algorithm) (es : Entries) → IsProgramOf p o g es → IsAcceptedInFile o g → AllApart (vars (program_at p)) }
    ensures variables { (p : code.Program) (o : Outside) (g : Algorithm) (es : Entries) → IsProgramOf p o g es → vars (program_at p) ≡ vars (with_names o g) }
    ensures grounds { (p : code.Program) (o : Outside) (g : Algorithm) (es : Entries) (ts : List Tree) (k : Grounds) → IsProgramOf p o g es → IsAcceptedInFile o g → past_algorithm p.algorithm.now ≤ length ts → Keeps ts p.pool.now → length (vars (with_names o g)) ≤ most
        → ((P : Program) → algorithm_at ts p.algorithm.now ≡ P.algorithm → naming_of p.naming.now ≡ P.naming → AllApart (vars P) → length (vars P) ≤ most → AreGrounds p.pool.now k P)
        → AreGrounds p.pool.now k (program_at p) }
{}

/// What a run stands on stays so as the pool grows.
pub fn grounds_stay_as_the_pool_grows()
    ensures { (ts us : List Tree) (k : Grounds) (P : Program) → Keeps ts us → AreGrounds ts k P → AreGrounds us k P }
{}

/// What was read of a module stays so as the pool grows: the algorithm, and the definitions outside of it. So a program over the larger
/// pool is of what was read before.
pub fn what_was_read_stays_as_the_pool_grows()
    ensures algorithm { (ts us : List Tree) (a : code_algorithm.Algorithm) → Keeps ts us → past_algorithm a ≤ length ts → algorithm_at us a ≡ algorithm_at ts a }
    ensures outside { (ts us : List Tree) (ds : List ReadDefinition) → Keeps ts us → AreHeld (length ts) ds → map (definition_seen us) ds ≡ map (definition_seen ts) ds }
    ensures held { (m n : ℕ) (ds : List ReadDefinition) → m ≤ n → AreHeld m ds → AreHeld n ds }
    ensures program { (ts : List Tree) (ds : List ReadDefinition) (p : code.Program) (o : Outside) (g : Algorithm) (es : Entries) → WasRead ts ds p o g → IsFilled ds p es → IsProgramOf p o g es }
{}

/// Where no rule on labels is broken, no body of a procedure begins with a statement that has no label.
pub fn bodies_of_procedures_are_labelled()
    ensures { (a : Algorithm) → label_offences a ≡ [] → AllByRecursion (λ (p : Procedure). IsLabelled p.body) a.procedures }
{}
