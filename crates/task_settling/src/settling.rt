// The open task is settled: its steps, the last one first, and then its text.
ghost use Rattle.std.specs.Prelude.{◌≡◌, ◌<◌, ◌≤◌, ◌+◌, ◌-◌, ◌^◌, length, min};
ghost use Rattle.sd_names.specs.declared.place.Name.TheVariants.{Task as TaskFile};
ghost use Rattle.shared_disk.specs.Calls.{Told};
ghost use Rattle.shared_disk.specs.Step.{EndsOnlyBy, StepCounts};
ghost use Rattle.task_store.specs.TaskText.{text_of};
ghost use Rattle.pool_model.specs.Tasks.{SettledState, ended_task};
ghost use Rattle.task_settling.specs.Stage.{count_kept, length_kept, name_kept, some_kept};

use crate::ending::{cleared_by, ended, settled_state};
use image_clearing::ImageClearing;
use sd_names::{HostId, Id, Refusal, TaskState, Turn};
use shared_disk::SharedDisk;
use std::alloc::Global;
use task_files::TaskWrite;
use task_store::{Task, task_text_has_no_zero, task_text_is_short, task_text_reads_back};
use unsynced_laws::replacements_leave_only_theirs;

/// How far a settling is.
#[derive(Drop)]
pub enum Stage {
    /// Nothing is left to do of the task's steps behind the first so many, the last of which is settled: its image is cleared away.
    Clearing(usize, ImageClearing),
    /// Nothing is left to do of any step: the text of the task that is settled is written.
    Writing(TaskWrite),
}

/// An open task on its way to being settled, in steps of one disk call at most: for the manager of the pool. A settling that was
/// cut is begun again from its beginning, by whatever host is the manager then.
#[derive(Drop)]
pub struct TaskSettling {
    master: Id,
    task: Task,
    settled: Task,
    stage: Stage,
    ghost ended_is: { settled ≡ ended_task settled.state task },
    ghost state: { SettledState task.steps settled.state },
    ghost some: { 0 < some_kept stage },
    ghost few: { count_kept stage ≤ length task.steps },
    ghost named: { name_kept settled stage ≡ TaskFile settled.id },
    ghost length: { length_kept settled stage ≡ length (text_of settled) },
}

impl TaskSettling {
    ghost use Rattle.std.specs.Prelude.{ℕ, MatchResult};
    ghost use Rattle.task_files.specs.Write.{IsFor};
    ghost use Rattle.task_settling.specs.Falls.{Nears, NearsIn};
    ghost use Rattle.task_settling.specs.Inner.{ClearsImage, WritesText};
    ghost use Rattle.task_settling.specs.Settling.{CallsMade, IsAt, IsBehind, IsUnbuilt, MayRefuse, SettleTurn, settled_of, stage_of, task_of};
    ghost use Rattle.task_settling.specs.Steps.{SettlesTask};
    ghost use Rattle.task_settling.specs.declared.settling.Stage.TheVariants as stage;

    /// The settling of the task `task` of the pool whose master is the domain `master`. 14 where its last step is of a verb that
    /// isn't built. It takes no memory.
    pub fn begin(alloc: Global, master: Id, task: Task) -> Result<TaskSettling, Refusal>
        ensures { MatchResult result (IsBehind master task (length task.steps)) (IsUnbuilt task) }
    {
        let steps = task.steps.as_slice();
        let (count, state) = (steps.len(), settled_state(steps));
        let settled = ended(alloc, &task, state);
        TaskSettling::behind(master, task, settled, count)
    }

    /// Makes one call of the disk; a step that reads sectors makes one at most. The host is the manager of the pool, the same in
    /// each step. At `Done` the task isn't open any more: the state that it has, done or undone, is what is answered.
    ///
    /// 52 and 41 where somebody else has or had an image's sector, 14 where a step is of a verb that isn't built, 122 where a
    /// folder is gone: none of these comes on a disk that stands for a pool. After 120 the task is open, or it is settled where the
    /// fault came with the last call.
    pub fn step<D: SharedDisk>(
        self,
        host: HostId,
        disk: &mut D,
    ) -> Turn<TaskSettling, TaskState, ()>
        ensures counts { StepCounts (D.faults disk.old) (D.faults disk.new) (D.calls disk.old) (D.calls disk.new) result }
        ensures counted { CallsMade (stage_of self) (D.calls disk.old) (D.calls disk.new) }
        ensures refusals { EndsOnlyBy (MayRefuse (stage_of self)) result }
        ensures falls { Nears self result }
        ensures content { Told (D.content disk.old) (D.content disk.new) (SettlesTask self host (D.faults disk.new) result) }
    {
        task_text_has_no_zero();
        task_text_is_short();
        task_text_reads_back();
        replacements_leave_only_theirs();
        let TaskSettling {
            master,
            task,
            settled,
            stage,
        } = self;
        match stage {
            Stage::Clearing(count, clearing) => {
                TaskSettling::clear(master, task, settled, count, clearing, host, disk)
            }
            Stage::Writing(write) => TaskSettling::write(master, task, settled, write, host, disk),
        }
    }

    // What comes once nothing is left to do of the steps behind the first `count` ones.
    fn behind(master: Id, task: Task, settled: Task, count: usize) -> Result<TaskSettling, Refusal>
        requires ended_is { settled ≡ ended_task settled.state task }
        requires state { SettledState task.steps settled.state }
        requires few { count ≤ length task.steps }
        ensures next { MatchResult result (IsBehind master task count) (IsUnbuilt task) }
        ensures settled { MatchResult result (λ next. settled_of next ≡ settled) (λ _. Unit {0}) }
    {
        match task.steps.as_slice()[..count].split_last() {
            Some((step, _)) => match cleared_by(step) {
                Some((sd, image)) => Ok(TaskSettling {
                    master,
                    task,
                    settled,
                    stage: Stage::Clearing(count, ImageClearing::begin(sd, image)),
                }),
                None => Err(Refusal::NotBuilt),
            },
            None => {
                let write = TaskWrite::begin(master, &settled);
                Ok(TaskSettling {
                    master,
                    task,
                    settled,
                    stage: Stage::Writing(write),
                })
            }
        }
    }

    // A step of the clearing of the image of the last of so many steps.
    fn clear<D: SharedDisk>(
        master: Id,
        task: Task,
        settled: Task,
        count: usize,
        clearing: ImageClearing,
        host: HostId,
        disk: &mut D,
    ) -> Turn<TaskSettling, TaskState, ()>
        requires ended_is { settled ≡ ended_task settled.state task }
        requires state { SettledState task.steps settled.state }
        requires some { 0 < count }
        requires few { count ≤ length task.steps }
        ensures counts { StepCounts (D.faults disk.old) (D.faults disk.new) (D.calls disk.old) (D.calls disk.new) result }
        ensures counted { CallsMade (stage.Clearing count clearing) (D.calls disk.old) (D.calls disk.new) }
        ensures refusals { EndsOnlyBy (MayRefuse (stage.Clearing count clearing)) result }
        ensures falls { NearsIn (stage.Clearing count clearing) task settled result }
        ensures steps { Told (D.content disk.old) (D.content disk.new) (ClearsImage master task settled count clearing (D.faults disk.new) result) }
    {
        match clearing.step(host, disk) {
            Turn::More(next) => Turn::More(TaskSettling {
                master,
                task,
                settled,
                stage: Stage::Clearing(count, next),
            }),
            Turn::Done(()) => match TaskSettling::behind(master, task, settled, count - 1) {
                Ok(next) => Turn::More(next),
                Err(refusal) => Turn::Ended((), refusal),
            },
            Turn::Ended((), refusal) => Turn::Ended((), refusal),
        }
    }

    // A step of the write of the text of the task that is settled.
    fn write<D: SharedDisk>(
        master: Id,
        task: Task,
        settled: Task,
        write: TaskWrite,
        host: HostId,
        disk: &mut D,
    ) -> Turn<TaskSettling, TaskState, ()>
        requires ended_is { settled ≡ ended_task settled.state task }
        requires state { SettledState task.steps settled.state }
        requires text { IsFor settled write }
        ensures counts { StepCounts (D.faults disk.old) (D.faults disk.new) (D.calls disk.old) (D.calls disk.new) result }
        ensures counted { D.calls disk.new ≡ min (D.calls disk.old + 1) (2 ^ 64 - 1) }
        ensures refusals { EndsOnlyBy (MayRefuse (stage.Writing write)) result }
        ensures falls { NearsIn (stage.Writing write) task settled result }
        ensures steps { Told (D.content disk.old) (D.content disk.new) (WritesText master task settled write host (D.faults disk.new) result) }
    {
        match write.step(host, disk, &settled) {
            Turn::More(next) => Turn::More(TaskSettling {
                master,
                task,
                settled,
                stage: Stage::Writing(next),
            }),
            Turn::Done(()) => Turn::Done(settled.state),
            Turn::Ended((), refusal) => Turn::Ended((), refusal),
        }
    }
}
