// A task.
ghost use Rattle.std.specs.Prelude.{◌≡◌, ◌++◌, [], ◌∷◌, IfErr, OnOk, OnErr};
ghost use Rattle.sd_names.specs.declared.refusal.Refusal.TheVariants as refusal;
ghost use Rattle.sd_names.specs.declared.task_state.TaskState.TheVariants as state;

use crate::steps::Steps;
use crate::undo::Undo;
use sd_names::{Id, NoMemory, Refusal, TaskState, VerbName};
use std::alloc::Global;

/// A task: the verb that runs under it, what has become of it, and its steps.
#[derive(Debug, Drop)]
pub struct Task {
    /// The task's identifier, which is its file's name.
    pub id: Id,
    pub verb: VerbName,
    pub state: TaskState,
    /// At most 16 where the task is open; none where it isn't.
    pub steps: Steps,
}

impl Task {
    ghost use Rattle.task_store.specs.TaskText.{with_step};

    /// An open task without steps. It takes no memory.
    pub fn new(alloc: Global, id: Id, verb: VerbName) -> Task
        ensures { result ≡ record { id = id; verb = verb; state = state.Open; steps = [] } }
    {
        Task {
            id,
            verb,
            state: TaskState::Open,
            steps: Steps::new(alloc),
        }
    }

    /// Puts a step behind the others; a text has room for 16. Refused for want of memory alone, and then the task
    /// is as before.
    pub fn push_step(&mut self, step: Undo) -> Result<(), Refusal>
        ensures ok { OnOk result (self.new ≡ with_step step self.old) }
        ensures err { OnErr result (self.new ≡ self.old) }
        ensures refused { IfErr result (λ e. e ≡ refusal.OutOfMemory) }
    {
        match self.steps.push(step) {
            Ok(()) => Ok(()),
            Err(NoMemory) => Err(Refusal::OutOfMemory),
        }
    }
}
