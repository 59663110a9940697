//! What steps are taken from.

ghost use Rattle.std.specs.Prelude.{◌≡◌, ◌≤◌, length, IfOk};
ghost use Rattle.pcal_tree.specs.Algorithm.{Routine as PureRoutine, main_routines};
ghost use Rattle.pcal_tree.specs.InMemory.{past_statements};
ghost use Rattle.pcal_tree.specs.Processes.{OneOf};
ghost use Rattle.step_spots.specs.InMemory.{routine_at};
ghost use Rattle.step_moves.specs.Programs.{program_at};
ghost use Rattle.step_moves.specs.Prepared.{prepared_routine};
ghost use Rattle.step_moves.specs.Runners.{IsReady, IsRunner};
ghost use Rattle.step_moves.specs.InMemory.{actor_at};
ghost use Rattle.step_meaning.specs.Stages.{IsStage, IsPrepared};

use pcal_tree::algorithm::{Main, Procedure};
use std::alloc::AllocError;
use step_moves::{Actor, Program, Runner};
use step_spots::{Routine, Target};
use tla_tree::Name;

/// What steps are taken from: an algorithm in memory, and its procedures and main part, prepared: statements and first values by their
/// written names.
#[derive(Clone, Copy)]
pub struct Stage<'a> {
    /// The algorithm.
    pub program: Program<'a>,
    /// Its procedures, prepared.
    pub procedures: &'a [Procedure],
    /// Its one body or its processes, prepared.
    pub main: &'a Main,
    /// The name `pc`.
    pub pc: &'a Name,
    /// The name `stack`.
    pub stack: &'a Name,
    /// The name `self`.
    pub this: &'a Name,
}

impl<'a> Stage<'a> {
    /// A process in a routine that is prepared.
    pub fn runner(&self, actor: &'a Actor<'a>, routine: Routine<'a>) -> Runner<'a>
        requires stage { IsStage self.now }
        requires routine { (u : PureRoutine) × IsPrepared self.now routine u }
        ensures ready { IsReady result }
        ensures runs { (u : PureRoutine) → IsPrepared self.now routine.entry u → IsRunner result (actor_at self.now.program.pool.now actor.now) u }
        ensures program { result.program ≡ self.now.program }
    {
        let own = actor.own;
        let name = own.name;
        Runner {
            program: self.program,
            procedures: self.procedures,
            pc: self.pc,
            stack: self.stack,
            this: self.this,
            place: name.place,
            identifier: actor.identifier.as_ref(),
            routine,
        }
    }
}

/// What a process runs but for procedures, prepared.
///
/// # Errors
///
/// Only for want of memory.
pub fn own_routine<'a>(stage: &Stage<'a>, own: &Routine<'a>) -> Result<Routine<'a>, AllocError>
    requires stage { IsStage stage.now }
    requires own { OneOf (routine_at stage.now.program.pool.now own.now) (main_routines (program_at stage.now.program).algorithm (program_at stage.now.program).algorithm.main) }
    ensures within { IfOk result (λ r. past_statements r.body.now ≤ length stage.now.program.pool.now) }
    ensures prepared { IfOk result (λ r. routine_at stage.now.program.pool.now r ≡ prepared_routine (program_at stage.now.program) (routine_at stage.now.program.pool.now own.now)) }
{
    match stage.main {
        Main::Alone(body) => Ok(Routine {
            number: own.number,
            name: own.name,
            params: &[],
            variables: &[],
            spread: false,
            body,
            exit: Target::Done,
        }),
        Main::Processes(list) => {
            let first = stage.program.first_process()?;
            if own.number < first || own.number - first >= list.len() {
                return Err(AllocError);
            }
            let process = &list[own.number - first];
            Ok(Routine {
                number: own.number,
                name: &process.name,
                params: &[],
                variables: &process.variables,
                spread: process.several,
                body: &process.body,
                exit: Target::Done,
            })
        }
    }
}
