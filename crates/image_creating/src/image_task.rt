// The task under which an image is made.
ghost use Rattle.std.specs.Prelude.{◌≡◌, ◌≢◌};
ghost use Rattle.sd_names.specs.Id.{zero_id};
ghost use Rattle.image_creating.specs.Texts.{done_task, open_task};

use sd_names::{Id, Refusal, TaskState, VerbName};
use std::alloc::Global;
use task_store::{Steps, Task, Undo};

/// A task that makes an image: the domain whose files of tasks have its text, the image, and the two texts that it gets.
#[derive(Debug, Drop)]
pub struct ImageTask {
    pub(crate) master: Id,
    pub(crate) sd: Id,
    pub(crate) image: Id,
    /// While the image is made: the task is open, and is taken back by removing the image.
    pub(crate) begun: Task,
    /// Once the image is there.
    pub(crate) done: Task,
    ghost begun_is: { begun ≡ open_task begun.id sd image },
    ghost done_is: { done ≡ done_task begun.id },
    ghost set: { image ≢ zero_id },
}

impl ImageTask {
    ghost use Rattle.std.specs.Prelude.{MatchResult};
    ghost use Rattle.sd_names.specs.declared.refusal.Refusal.TheVariants.{OutOfMemory};
    ghost use Rattle.image_creating.specs.ImageTask.{IsTaskOf};

    /// The task `task` of the pool whose master is `master`, for the image `image` of the domain `sd`. Refused for want of
    /// memory alone.
    pub(crate) fn new(
        alloc: Global,
        master: Id,
        task: Id,
        sd: Id,
        image: Id,
    ) -> Result<ImageTask, Refusal>
        requires { image ≢ zero_id }
        ensures { MatchResult result (IsTaskOf master task sd image) (λ refusal. refusal ≡ OutOfMemory) }
    {
        let mut begun = Task::new(alloc, task, VerbName::Create);
        begun.push_step(Undo::RemoveImage { sd, image })?;
        let done = Task {
            id: task,
            verb: VerbName::Create,
            state: TaskState::Done,
            steps: Steps::new(alloc),
        };
        Ok(ImageTask {
            master,
            sd,
            image,
            begun,
            done,
        })
    }
}
