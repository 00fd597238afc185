// The task under which an image is removed.
ghost use Rattle.std.specs.Prelude.{◌≡◌, ◌≢◌};
ghost use Rattle.sd_names.specs.Id.{zero_id};
ghost use Rattle.image_deleting.specs.Texts.{done_task, open_task};

use sd_names::{Id, Refusal, TaskState, VerbName};
use std::alloc::Global;
use task_store::{Steps, Task, Undo};

/// A task that removes an image: the domain whose files of tasks have its text, the image, and the two texts that it gets.
#[derive(Debug, Drop)]
pub struct RemovalTask {
    pub(crate) master: Id,
    pub(crate) sd: Id,
    pub(crate) image: Id,
    /// While the image is removed: the task is open, and is finished by removing what is left.
    pub(crate) begun: Task,
    /// Once the image is gone.
    pub(crate) done: Task,
    ghost begun_is: { begun ≡ open_task begun.id sd image },
    ghost done_is: { done ≡ done_task begun.id },
    ghost set: { image ≢ zero_id },
}

impl RemovalTask {
    ghost use Rattle.std.specs.Prelude.{MatchResult};
    ghost use Rattle.sd_names.specs.declared.refusal.Refusal.TheVariants.{OutOfMemory};
    ghost use Rattle.image_deleting.specs.RemovalTask.{IsTaskOf};

    /// The task `task` of the pool whose master is `master`, for the image `image` of the domain `sd`. Refused for want of
    /// memory alone.
    pub(crate) fn new(
        alloc: Global,
        master: Id,
        task: Id,
        sd: Id,
        image: Id,
    ) -> Result<RemovalTask, Refusal>
        requires { image ≢ zero_id }
        ensures { MatchResult result (IsTaskOf master task sd image) (λ refusal. refusal ≡ OutOfMemory) }
    {
        let mut begun = Task::new(alloc, task, VerbName::DeleteImage);
        begun.push_step(Undo::FinishRemove { sd, image })?;
        let done = Task {
            id: task,
            verb: VerbName::DeleteImage,
            state: TaskState::Done,
            steps: Steps::new(alloc),
        };
        Ok(RemovalTask {
            master,
            sd,
            image,
            begun,
            done,
        })
    }
}
