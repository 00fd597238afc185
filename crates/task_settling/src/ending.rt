// What an open task comes to, and what its steps are about.
ghost use Rattle.std.specs.Prelude.{◌≡◌};
ghost use Rattle.pool_model.specs.Tasks.{SettledState, ended_task, is_finish};
ghost use Rattle.task_settling.specs.Settling.{cleared_by};

use sd_names::{Id, TaskState};
use std::alloc::Global;
use task_store::{Steps, Task, Undo};

// The step finishes what its verb began; the others take it back.
fn is_finish(step: &Undo) -> bool
    ensures { result ≡ is_finish step.now }
{
    match step {
        Undo::FinishDelete { .. }
        | Undo::FinishRemove { .. }
        | Undo::FinishExtend { .. }
        | Undo::FinishDescribe { .. } => true,
        Undo::RemoveImage { .. }
        | Undo::RemoveVolume { .. }
        | Undo::SetLeaf { .. }
        | Undo::DropDomain { .. } => false,
    }
}

/// What becomes of a task with these steps once it is settled: it is done where all of them finish, else undone.
pub(crate) fn settled_state(steps: &[Undo]) -> TaskState
    ensures { SettledState steps.now result }
{
    if steps.iter().all(|step| is_finish(step)) {
        TaskState::Done
    } else {
        TaskState::Undone
    }
}

/// The task in this state, without a step. It takes no memory.
pub(crate) fn ended(alloc: Global, task: &Task, state: TaskState) -> Task
    ensures { result ≡ ended_task state task.now }
{
    Task {
        id: task.id,
        verb: task.verb,
        state,
        steps: Steps::new(alloc),
    }
}

/// The image that a step clears away, with its domain. The steps of verbs that aren't built clear none.
pub(crate) fn cleared_by(step: &Undo) -> Option<(Id, Id)>
    ensures { result ≡ cleared_by step.now }
{
    match step {
        Undo::RemoveImage { sd, image } | Undo::FinishRemove { sd, image } => Some((*sd, *image)),
        Undo::RemoveVolume { .. }
        | Undo::SetLeaf { .. }
        | Undo::DropDomain { .. }
        | Undo::FinishDelete { .. }
        | Undo::FinishExtend { .. }
        | Undo::FinishDescribe { .. } => None,
    }
}
