// Listing the tasks of a pool: each name of their folder, and what the file of each task says.
ghost use Rattle.std.specs.Prelude.{◌≡◌, ◌+◌, ◌-◌, ◌^◌, min, Some};
ghost use Rattle.sd_names.specs.Turn.{MatchTurn};
ghost use Rattle.shared_disk.specs.Calls.{Told};
ghost use Rattle.shared_disk.specs.Step.{EndsOnlyBy, StepCounts};
ghost use Rattle.pool_model.specs.Pool.{Pool};
ghost use Rattle.task_listing.specs.Listing.{HasNoted, IsAt, IsBegun, KnowsListing, Lists, MayRefuse, Rises, noted, stage_for};

use sd_names::{Dir, HostId, Id, Name, NoMemory, Refusal, TaskState, Tasks, Turn};
use shared_disk::{SharedDisk, refusal_for};
use std::alloc::Global;
use task_files::read_task;
use task_store::Task;

/// How far a listing is.
#[derive(Clone, Copy, Debug)]
pub enum Stage {
    /// The next name above this one is asked for.
    Asking(Option<Name>),
    /// The file of this task is read.
    Reading(Id),
}

/// The tasks of a pool on their way into a list, in steps of one disk call: the names of the folder are asked for one by one, and
/// each task's file is read.
#[derive(Drop)]
pub struct TaskListing {
    sd: Id,
    stage: Stage,
    tasks: Tasks,
    open_task: Option<Task>,
}

/// What a listing has come to.
#[derive(Drop)]
pub struct ListedTasks {
    /// The tasks of the pool with their states, in order of their identifiers.
    pub tasks: Tasks,
    /// The one that is open, whole.
    pub open_task: Option<Task>,
}

impl TaskListing {
    /// A listing of the tasks of the pool whose master is the domain `sd`. It takes no memory.
    pub fn begin(alloc: Global, sd: Id) -> TaskListing
        ensures begun { IsBegun sd result }
        ensures knows { (p : Pool) → p.master ≡ Some sd → KnowsListing result p }
    {
        TaskListing {
            sd,
            stage: Stage::Asking(None),
            tasks: Tasks::new(alloc),
            open_task: None,
        }
    }

    /// Makes one call of the disk. `Done` comes where the folder shows no further name. 104 where a task's text is none; 130 in a
    /// step that reads a text; 122 where the folder is gone.
    pub fn step<D: SharedDisk>(
        self,
        alloc: Global,
        host: HostId,
        disk: &mut D,
    ) -> Turn<TaskListing, ListedTasks, ()>
        ensures counts { StepCounts (D.faults disk.old) (D.faults disk.new) (D.calls disk.old) (D.calls disk.new) result }
        ensures counted { D.calls disk.new ≡ min (D.calls disk.old + 1) (2 ^ 64 - 1) }
        ensures refusals { EndsOnlyBy (MayRefuse self.stage) result }
        ensures rises { Rises self.stage result }
        ensures content { Told (D.content disk.old) (D.content disk.new) (Lists self host (D.faults disk.new) result) }
    {
        match self.stage {
            Stage::Asking(after) => self.ask(after, host, disk),
            Stage::Reading(task) => self.read(task, alloc, host, disk),
        }
    }

    // The listing in another stage.
    fn at(self, stage: Stage) -> TaskListing
        ensures { IsAt self stage result }
    {
        let TaskListing {
            sd,
            stage: _,
            tasks,
            open_task,
        } = self;
        TaskListing {
            sd,
            stage,
            tasks,
            open_task,
        }
    }

    // The next name is asked for.
    fn ask<D: SharedDisk>(
        self,
        after: Option<Name>,
        host: HostId,
        disk: &mut D,
    ) -> Turn<TaskListing, ListedTasks, ()>
        requires stage { self.stage ≡ Stage.Asking after }
        ensures counts { StepCounts (D.faults disk.old) (D.faults disk.new) (D.calls disk.old) (D.calls disk.new) result }
        ensures counted { D.calls disk.new ≡ min (D.calls disk.old + 1) (2 ^ 64 - 1) }
        ensures refusals { EndsOnlyBy (MayRefuse (Stage.Asking after)) result }
        ensures rises { Rises (Stage.Asking after) result }
        ensures content { Told (D.content disk.old) (D.content disk.new) (Lists self host (D.faults disk.new) result) }
    {
        match disk.next_name(host, Dir::Tasks(self.sd), after) {
            Ok(Some(name)) => Turn::More(self.at(stage_for(name))),
            Ok(None) => {
                let TaskListing {
                    sd: _,
                    stage: _,
                    tasks,
                    open_task,
                } = self;
                Turn::Done(ListedTasks { tasks, open_task })
            }
            Err(answer) => Turn::Ended((), refusal_for(answer, disk)),
        }
    }

    // The file of a task is read. One that is gone is passed.
    fn read<D: SharedDisk>(
        self,
        task: Id,
        alloc: Global,
        host: HostId,
        disk: &mut D,
    ) -> Turn<TaskListing, ListedTasks, ()>
        requires stage { self.stage ≡ Stage.Reading task }
        ensures counts { StepCounts (D.faults disk.old) (D.faults disk.new) (D.calls disk.old) (D.calls disk.new) result }
        ensures counted { D.calls disk.new ≡ min (D.calls disk.old + 1) (2 ^ 64 - 1) }
        ensures refusals { EndsOnlyBy (MayRefuse (Stage.Reading task)) result }
        ensures rises { Rises (Stage.Reading task) result }
        ensures content { Told (D.content disk.old) (D.content disk.new) (Lists self host (D.faults disk.new) result) }
    {
        match read_task(alloc, host, disk, self.sd, task) {
            Ok(None) => Turn::More(self.at(Stage::Asking(Some(Name::Task(task))))),
            Ok(Some(found)) => self.note(task, found),
            Err(refusal) => Turn::Ended((), refusal),
        }
    }

    // The task that was found is put behind the others.
    fn note(self, task: Id, found: Task) -> Turn<TaskListing, ListedTasks, ()>
        ensures { HasNoted self task found result }
    {
        let TaskListing {
            sd,
            stage: _,
            mut tasks,
            open_task,
        } = self;
        match tasks.push(task, found.state) {
            Ok(()) => Turn::More(TaskListing {
                sd,
                stage: Stage::Asking(Some(Name::Task(task))),
                tasks,
                open_task: noted(found, open_task),
            }),
            Err(NoMemory) => Turn::Ended((), Refusal::OutOfMemory),
        }
    }
}

// A task's file is read behind its name; any other name is passed.
fn stage_for(name: Name) -> Stage
    ensures { result ≡ stage_for name }
{
    match name {
        Name::Task(task) => Stage::Reading(task),
        _ => Stage::Asking(Some(name)),
    }
}

// The open task, once this one was found.
fn noted(found: Task, kept: Option<Task>) -> Option<Task>
    ensures { result ≡ noted found kept }
{
    match found.state {
        TaskState::Open => Some(found),
        TaskState::Done | TaskState::Undone => kept,
    }
}
