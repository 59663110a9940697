//! Laws of initial states and of traces by the written names, stated as what functions without a body ensure.

ghost use Rattle.std.specs.Prelude.{◌≡◌, List, Ok};
ghost use Rattle.tla_value.specs.Definitions.{Valuation};
ghost use Rattle.tla_value.specs.Outside.{Outside};
ghost use Rattle.tla_value.specs.Stops.{Check};
ghost use Rattle.pcal_tree.specs.Algorithm.{Algorithm};
ghost use Rattle.pcal_tree.specs.InitialStates.{allowed};
ghost use Rattle.pcal_tree.specs.Processes.{actors};
ghost use Rattle.pcal_tree.specs.Program.{Program, Actor};
ghost use Rattle.pcal_tree.specs.Programs.{program_in};
ghost use Rattle.pcal_tree.specs.Scope.{State};
ghost use Rattle.module_tree.specs.Module.{Module};
ghost use Rattle.step_runner.specs.Explained.{explained};
ghost use Rattle.translation.specs.laws.AcceptedAlgorithm.{IsAcceptedInFile};
ghost use Rattle.written_traces.specs.AskedStarts.{as_declared, as_written, start_asked};
ghost use Rattle.written_traces.specs.WrittenTraces.{explained_once};

/// Whether a state is initial is asked as it is declared, of every program; and of an accepted algorithm it is asked by the written
/// names, with the same answer or the same trouble, in each state and under any limits.
pub fn starts_are_asked_by_the_written_names()
    ensures declared { (P : Program) (vs : List Actor) (s : State) → actors P ≡ Ok vs → start_asked (as_declared P) P vs s ≡ allowed P s }
    ensures written { (c : Check) (o : Outside) (g : Algorithm) → IsAcceptedInFile o g → (values : Valuation) (vs : List Actor) → actors (program_in c o g values) ≡ Ok vs → (s : State) → start_asked (as_written (program_in c o g values)) (program_in c o g values) vs s ≡ allowed (program_in c o g values) s }
{}

/// A trace of an accepted algorithm is explained by the written names as it is by the meaning: beside any module, under any limits.
pub fn traces_go_by_the_written_names()
    ensures { (c : Check) (o : Outside) (g : Algorithm) → IsAcceptedInFile o g → (values : Valuation) (m : Module) (constants : Valuation) (ss : List State) → explained_once (program_in c o g values) m constants ss ≡ explained (program_in c o g values) m constants ss }
{}
