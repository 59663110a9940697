//! Laws of steps and starts by lists of choices, stated as what functions without a body ensure.

ghost use Rattle.std.specs.Prelude.{◌≡◌, ℕ, List};
ghost use Rattle.tla_value.specs.Stops.{Check, plain};
ghost use Rattle.pcal_tree.specs.Choices.{walk, went};
ghost use Rattle.pcal_tree.specs.InitialChoice.{started};
ghost use Rattle.pcal_tree.specs.Program.{Program};
ghost use Rattle.step_walks.specs.Flows.{finish};
ghost use Rattle.step_walks.specs.StartFlows.{start_flow};
ghost use Rattle.accepted_steps.specs.AcceptedSteps.{StepsFlow, WrittenStepsFlow, WrittenStartsFlow, FirstValuesWritten};
ghost use Rattle.tla_value.specs.Limits.{bounded};
ghost use Rattle.accepted_steps.specs.StartedStates.{HandsOn, StartsInitial};

/// A step of an accepted algorithm from a label comes to what its statements come to one by one, with the written names and
/// with a process's own variables at its identifier; so it does whatever its state holds, and under any limits.
pub fn steps_go_by_the_written_names()
    ensures { (c : Check) → StepsFlow c }
{}

/// A start comes to what its declarations come to one by one.
pub fn starts_go_by_declarations()
    ensures { (P : Program) (ns : List ℕ) → walk (started P) ns ≡ finish (start_flow P ns) went }
{}

/// So it does where the first values of a called procedure's variables are evaluated by their written names too.
pub fn calls_go_by_the_written_names()
    ensures { (b c : Check) → WrittenStepsFlow b c }
{}

/// A start of an accepted algorithm comes to what its declarations come to one by one, with the written names and with a
/// process's own variables at its identifier, under any limits.
pub fn starts_go_by_the_written_names()
    ensures { (c : Check) → WrittenStartsFlow c }
{}

/// The first value of a routine's parameter or variable is for each process what its expression gives with the written
/// names and with the process's own variables at its identifier, in each state and under any limits.
pub fn first_values_go_by_the_written_names()
    ensures { (b c : Check) → FirstValuesWritten b c }
{}

/// A start of an accepted algorithm that goes through to its end, by whatever choices, ends in an initial state: for
/// all values of constants, and under any limits that change no value; so without limits, and within those of a run.
pub fn starts_are_initial()
    ensures any { (c : Check) → HandsOn c → StartsInitial c }
    ensures both { StartsInitial plain × StartsInitial bounded }
{}
