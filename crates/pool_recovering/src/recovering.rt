// A pool is recovered: its tasks are listed, and the open one is settled.
ghost use Rattle.std.specs.Prelude.{◌≡◌, ◌+◌, ◌-◌, ◌^◌, min, ℕ, List};
ghost use Rattle.sd_names.specs.declared.id.Id.{Id as AnyId};
ghost use Rattle.sd_names.specs.declared.task_state.TaskState.{TaskState as AnyState};
ghost use Rattle.shared_disk.specs.Calls.{Told};
ghost use Rattle.shared_disk.specs.Content.{Content};
ghost use Rattle.shared_disk.specs.Step.{EndsOnlyBy, StepCounts};
ghost use Rattle.spm_role.specs.Spm.{master_of, tasks_of};
ghost use Rattle.pool_model.specs.Leases.{Leads};
ghost use Rattle.pool_model.specs.Pool.{Pool};
ghost use Rattle.pool_recovering.specs.Recovering.{Advances, CallsMade, HasListed, IsBegun, IsOnlyListed, KeepsList, MayRefuse};
ghost use Rattle.pool_recovering.specs.Knowing.{Knows};
ghost use Rattle.pool_recovering.specs.Steps.{RecoversPool};
ghost use Rattle.pool_recovering.specs.declared.recovering.PoolRecovery.TheVariants.{Listing, Settling};

use sd_names::{HostId, Id, Refusal, Turn};
use shared_disk::SharedDisk;
use spm_role::{Spm, TASKS};
use std::alloc::Global;
use task_listing::{ListedTasks, TaskListing};
use task_settling::TaskSettling;

/// How far the recovery of a pool is, in steps of one disk call at most: for the pool's manager. One that was cut is begun again
/// from its beginning, by whatever host is the manager then.
#[derive(Drop)]
pub enum PoolRecovery {
    /// The tasks are listed.
    Listing(TaskListing),
    /// The manager's list is that of the pool. This task, the open one, is settled.
    Settling(Id, TaskSettling),
}

impl PoolRecovery {
    /// The recovery of the pool whose master is the domain `sd`. It takes no memory.
    pub fn begin(alloc: Global, sd: Id) -> PoolRecovery
        ensures begun { IsBegun sd result }
        ensures knows { (h : ℕ) (tasks : List (AnyId × AnyState)) (d : Content) (p : Pool) → p.master ≡ Some sd → Leads p h → Knows h sd tasks result d p }
    {
        PoolRecovery::Listing(TaskListing::begin(alloc, sd))
    }

    /// Makes one call of the disk; a step that reads sectors makes one at most. The host is the manager, the same in each step, and
    /// `spm` is what it keeps of the pool: from the end of the listing on its tasks are the pool's, the open one as open. At `Done`
    /// no task is open, each has the state that the pool has, and the answer is how many were open when they were listed.
    ///
    /// 130 where there is no memory for a task's text, or no room for more than 128 tasks; 104 where a task's text is none; 14, 41,
    /// 52, 120 and 122 as `TaskSettling` has them. After a refusal the task is open still, but for a fault in the call that ends it.
    pub fn step<D: SharedDisk>(
        self,
        spm: &mut Spm,
        alloc: Global,
        host: HostId,
        disk: &mut D,
    ) -> Turn<PoolRecovery, u16, ()>
        ensures counts { StepCounts (D.faults disk.old) (D.faults disk.new) (D.calls disk.old) (D.calls disk.new) result }
        ensures counted { CallsMade self (D.calls disk.old) (D.calls disk.new) }
        ensures refusals { EndsOnlyBy (MayRefuse self) result }
        ensures advances { Advances self result }
        ensures manager { IsOnlyListed spm.old spm.new }
        ensures list { KeepsList self (tasks_of spm.old) result (tasks_of spm.new) }
        ensures content { Told (D.content disk.old) (D.content disk.new) (RecoversPool self host (master_of spm.old) (tasks_of spm.old) (D.faults disk.new) result (tasks_of spm.new)) }
    {
        match self {
            PoolRecovery::Listing(listing) => list_on(listing, spm, alloc, host, disk),
            PoolRecovery::Settling(task, settling) => settle_on(task, settling, spm, host, disk),
        }
    }
}

// One step of the listing.
fn list_on<D: SharedDisk>(
    listing: TaskListing,
    spm: &mut Spm,
    alloc: Global,
    host: HostId,
    disk: &mut D,
) -> Turn<PoolRecovery, u16, ()>
    ensures counts { StepCounts (D.faults disk.old) (D.faults disk.new) (D.calls disk.old) (D.calls disk.new) result }
    ensures counted { D.calls disk.new ≡ min (D.calls disk.old + 1) (2 ^ 64 - 1) }
    ensures refusals { EndsOnlyBy (MayRefuse (Listing listing)) result }
    ensures advances { Advances (Listing listing) result }
    ensures manager { IsOnlyListed spm.old spm.new }
    ensures list { KeepsList (Listing listing) (tasks_of spm.old) result (tasks_of spm.new) }
    ensures content { Told (D.content disk.old) (D.content disk.new) (RecoversPool (Listing listing) host (master_of spm.old) (tasks_of spm.old) (D.faults disk.new) result (tasks_of spm.new)) }
{
    match listing.step(alloc, host, disk) {
        Turn::More(next) => Turn::More(PoolRecovery::Listing(next)),
        Turn::Done(listed) => behind_list(listed, spm, alloc),
        Turn::Ended((), refusal) => Turn::Ended((), refusal),
    }
}

// What comes once the tasks are listed: the open one is settled, where one is open.
fn behind_list(listed: ListedTasks, spm: &mut Spm, alloc: Global) -> Turn<PoolRecovery, u16, ()>
    ensures manager { IsOnlyListed spm.old spm.new }
    ensures next { HasListed (master_of spm.old) listed.tasks listed.open_task (tasks_of spm.old) result (tasks_of spm.new) }
{
    let ListedTasks { tasks, open_task } = listed;
    if tasks.len() > TASKS {
        return Turn::Ended((), Refusal::OutOfMemory);
    }
    match open_task {
        None => {
            spm.tasks.fill(tasks.as_slice());
            behind_settling(0)
        }
        Some(task) => {
            let id = task.id;
            match TaskSettling::begin(alloc, spm.master(), task) {
                Ok(settling) => {
                    spm.tasks.fill(tasks.as_slice());
                    Turn::More(PoolRecovery::Settling(id, settling))
                }
                Err(refusal) => Turn::Ended((), refusal),
            }
        }
    }
}

// One step of the settling of the open task.
fn settle_on<D: SharedDisk>(
    task: Id,
    settling: TaskSettling,
    spm: &mut Spm,
    host: HostId,
    disk: &mut D,
) -> Turn<PoolRecovery, u16, ()>
    ensures counts { StepCounts (D.faults disk.old) (D.faults disk.new) (D.calls disk.old) (D.calls disk.new) result }
    ensures counted { CallsMade (Settling task settling) (D.calls disk.old) (D.calls disk.new) }
    ensures refusals { EndsOnlyBy (MayRefuse (Settling task settling)) result }
    ensures advances { Advances (Settling task settling) result }
    ensures manager { IsOnlyListed spm.old spm.new }
    ensures list { KeepsList (Settling task settling) (tasks_of spm.old) result (tasks_of spm.new) }
    ensures content { Told (D.content disk.old) (D.content disk.new) (RecoversPool (Settling task settling) host (master_of spm.old) (tasks_of spm.old) (D.faults disk.new) result (tasks_of spm.new)) }
{
    match settling.step(host, disk) {
        Turn::More(next) => Turn::More(PoolRecovery::Settling(task, next)),
        Turn::Done(state) => {
            spm.tasks.set(&task, state);
            behind_settling(1)
        }
        Turn::Ended((), refusal) => Turn::Ended((), refusal),
    }
}

// What comes once no task is open, of which so many were.
fn behind_settling(count: u16) -> Turn<PoolRecovery, u16, ()>
    ensures { result ≡ Turn.Done count }
{
    Turn::Done(count)
}
