//! What steps of a run are taken from.

ghost use Rattle.std.specs.Prelude.{◌≡◌};
ghost use Rattle.step_forms.specs.Opened.{IsOpenable};
ghost use Rattle.step_moves.specs.Programs.{program_at, IsWhole};
ghost use Rattle.step_meaning.specs.Stages.{IsStage};
ghost use Rattle.running.specs.GroundsOf.{AreGrounds};

use crate::made::Grounds;
use step_meaning::Stage;
use step_moves::Program;

/// What steps of a program are taken from, where this is what it stands on.
pub fn stage<'a>(grounds: &'a Grounds, program: Program<'a>) -> Stage<'a>
    ensures stands { AreGrounds program.entry.pool.now grounds.now (program_at program.entry) → IsWhole program.entry → IsOpenable (program_at program.entry).algorithm → IsStage result }
    ensures program { result.program ≡ program.entry }
{
    Stage {
        program,
        procedures: &grounds.procedures,
        main: &grounds.main,
        pc: &grounds.pc,
        stack: &grounds.stack,
        this: &grounds.this,
    }
}
