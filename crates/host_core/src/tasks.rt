// The step of `tasks`.
ghost use Rattle.std.specs.Prelude.{◌≡◌, ◌++◌, Some, IfOk, OnOk};
ghost use Rattle.sd_names.specs.UpSet.{Hosts};
ghost use Rattle.shared_disk.specs.Calls.{Told};
ghost use Rattle.host_core.specs.Listed.{IsAnswered, entry_of, is_in, listed_with, part_of, state_found};
ghost use Rattle.host_core.specs.Steps.{CallsMade, HostSteps, Leaves, ProgressCounts, RefusesOnly, answer_of};

use crate::{Host, Progress, Reply, Work};
use sd_names::{Id, NoMemory, Payload, Refusal, TaskState, Tasks};
use shared_disk::SharedDisk;
use std::alloc::Global;
use task_files::read_task;
use task_store::Task;

// Some of the tasks of a list, by their identifiers.
#[derive(Clone, Copy, Debug)]
enum Part {
    All,
    Below(Id),
    Above(Id),
}

impl Host {
    // The step of `tasks`. The manager's list is the pool's, but for a task in doubt: that one's file is read.
    pub(crate) fn list<D: SharedDisk>(&mut self, disk: &mut D) -> Progress
        requires listing { self.old.work ≡ Some Work.Tasks }
        ensures counts { ProgressCounts (D.faults disk.old) (D.faults disk.new) (D.calls disk.old) (D.calls disk.new) (answer_of result self.new.bytes) }
        ensures counted { CallsMade (Some Work.Tasks) self.old.leading (D.calls disk.old) (D.calls disk.new) }
        ensures refusals { RefusesOnly (Some Work.Tasks) (answer_of result self.new.bytes) }
        ensures leaves { Leaves (Some Work.Tasks) self.old result self.new }
        ensures content { (up : Hosts) → Told (D.content disk.old) (D.content disk.new) (λ d e. HostSteps up self.old d (answer_of result self.new.bytes) self.new e) }
    {
        self.work = None;
        match &self.leading {
            Some(leading) => {
                let tasks = leading.spm.tasks.as_slice();
                match leading.begun {
                    None => answer(all_of(self.alloc, tasks)),
                    Some(task) => match read_task(
                        self.alloc,
                        self.id,
                        disk,
                        leading.spm.master(),
                        task,
                    ) {
                        Ok(found) => answer(with_task(self.alloc, tasks, task, state_in(found))),
                        Err(refusal) => Progress::Done(Reply::Refused(refusal)),
                    },
                }
            }
            None => Progress::Done(Reply::Refused(Refusal::NotSpm)),
        }
    }
}

// What `tasks` answers.
fn answer(listed: Result<Tasks, NoMemory>) -> Progress
    ensures { IsAnswered listed result }
{
    match listed {
        Ok(tasks) => Progress::Done(Reply::Ok(Payload::Tasks(tasks))),
        Err(NoMemory) => Progress::Done(Reply::Refused(Refusal::OutOfMemory)),
    }
}

// The state of a task that was found.
fn state_in(found: Option<Task>) -> Option<TaskState>
    ensures { result ≡ state_found found }
{
    match found {
        Some(task) => Some(task.state),
        None => None,
    }
}

// All tasks of a list.
fn all_of(alloc: Global, tasks: &[(Id, TaskState)]) -> Result<Tasks, NoMemory>
    ensures { IfOk result (λ all. all ≡ tasks.now) }
{
    let mut all = Tasks::new(alloc);
    match put(&mut all, tasks, Part::All) {
        Ok(()) => Ok(all),
        Err(NoMemory) => Err(NoMemory),
    }
}

// The tasks of a list, with this one in its place and state; without a state it isn't there.
fn with_task(
    alloc: Global,
    tasks: &[(Id, TaskState)],
    task: Id,
    state: Option<TaskState>,
) -> Result<Tasks, NoMemory>
    ensures { IfOk result (λ all. all ≡ listed_with task state tasks.now) }
{
    let mut all = Tasks::new(alloc);
    match put(&mut all, tasks, Part::Below(task)) {
        Ok(()) => match put_state(&mut all, task, state) {
            Ok(()) => match put(&mut all, tasks, Part::Above(task)) {
                Ok(()) => Ok(all),
                Err(NoMemory) => Err(NoMemory),
            },
            Err(NoMemory) => Err(NoMemory),
        },
        Err(NoMemory) => Err(NoMemory),
    }
}

// Puts a task behind those that are there, where it has a state.
fn put_state(all: &mut Tasks, task: Id, state: Option<TaskState>) -> Result<(), NoMemory>
    ensures { OnOk result (all.new ≡ all.old ++ entry_of task state) }
{
    match state {
        Some(state) => all.push(task, state),
        None => Ok(()),
    }
}

// Puts a part of the tasks behind those that are there.
fn put(all: &mut Tasks, tasks: &[(Id, TaskState)], part: Part) -> Result<(), NoMemory>
    ensures { OnOk result (all.new ≡ all.old ++ part_of part tasks.now) }
{
    for pair in tasks {
        if part.has(&pair.0) {
            match all.push(pair.0, pair.1) {
                Ok(()) => {}
                Err(NoMemory) => return Err(NoMemory),
            }
        }
    }
    Ok(())
}

impl Part {
    // Whether a task of this identifier is in the part.
    fn has(&self, id: &Id) -> bool
        ensures { result ≡ is_in self.now id.now }
    {
        match self {
            Part::All => true,
            Part::Below(task) => id.0.cmp(&task.0).is_lt(),
            Part::Above(task) => task.0.cmp(&id.0).is_lt(),
        }
    }
}
