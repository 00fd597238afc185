// The step of `clear-task`.
ghost use Rattle.std.specs.Prelude.{◌≡◌, ◌+◌, ◌-◌, ◌^◌, min, Some};
ghost use Rattle.sd_names.specs.UpSet.{Hosts};
ghost use Rattle.shared_disk.specs.Calls.{Told};
ghost use Rattle.host_core.specs.Memory.{leader_of};
ghost use Rattle.host_core.specs.Steps.{HostSteps, Leaves, ProgressCounts, RefusesOnly, answer_of, clear_progress, cleared};

use crate::{Host, Leading, Progress, Reply, Work};
use sd_names::{Id, Payload, Refusal};
use shared_disk::SharedDisk;
use task_files::remove_task;

impl Host {
    // One removal. Where it isn't answered ok, the manager is in doubt of the task.
    pub(crate) fn clear<D: SharedDisk>(&mut self, task: Id, disk: &mut D) -> Progress
        requires clearing { self.old.work ≡ Some (Work.Clear task) }
        ensures counts { ProgressCounts (D.faults disk.old) (D.faults disk.new) (D.calls disk.old) (D.calls disk.new) (answer_of result self.new.bytes) }
        ensures counted { D.calls disk.new ≡ min (D.calls disk.old + 1) (2 ^ 64 - 1) }
        ensures refusals { RefusesOnly (Some (Work.Clear task)) (answer_of result self.new.bytes) }
        ensures leaves { Leaves (Some (Work.Clear task)) self.old result self.new }
        ensures content { (up : Hosts) → Told (D.content disk.old) (D.content disk.new) (λ d e. HostSteps up self.old d (answer_of result self.new.bytes) self.new e) }
    {
        self.work = None;
        let id = self.id;
        match &mut self.leading {
            Some(leading) => {
                let removed = remove_task(id, disk, leading.spm.master(), task);
                leading.note_cleared(task, removed)
            }
            None => Progress::Done(Reply::Refused(Refusal::NotSpm)),
        }
    }
}

impl Leading {
    // What is answered once the disk has answered about the task's file. The list is without the task, or it is in doubt.
    fn note_cleared(&mut self, task: Id, removed: Result<(), Refusal>) -> Progress
        ensures answer { result ≡ clear_progress removed }
        ensures kept { leader_of self.new ≡ cleared task result (leader_of self.old) }
    {
        match removed {
            Ok(()) => {
                self.spm.tasks.remove(&task);
                Progress::Done(Reply::Ok(Payload::ClearTask))
            }
            Err(refusal) => {
                self.begun = Some(task);
                Progress::Done(Reply::Refused(refusal))
            }
        }
    }
}
