// The steps of a host.
ghost use Rattle.std.specs.Prelude.{◌≡◌, ◌+◌, ◌-◌, ◌^◌, min, true, Some, IsSome};
ghost use Rattle.sd_names.specs.UpSet.{is_up};
ghost use Rattle.shared_disk.specs.Calls.{Told};
ghost use Rattle.sd_names.specs.UpSet.{Hosts};
ghost use Rattle.host_core.specs.Steps.{CallsMade, HostSteps, Leaves, ProgressCounts, RefusesOnly, answer_of};

use crate::leading::Leading;
use crate::{Host, Progress, Reply, Work};
use sd_names::{Payload, Refusal, UpSet};
use shared_disk::SharedDisk;
use spm_role::spm_stop;

impl Host {
    /// Makes the next step of the verb that runs: one call of the disk, and none where the tasks of a manager without a task in
    /// doubt are listed. 120 comes only where the disk's count of faults rose
    /// or stands at its end, with the new count.
    pub fn step<D: SharedDisk>(&mut self, up: &UpSet, disk: &mut D) -> Progress
        requires running { IsSome self.old.work }
        requires up { is_up up.now self.old.id ≡ true }
        ensures counts { ProgressCounts (D.faults disk.old) (D.faults disk.new) (D.calls disk.old) (D.calls disk.new) (answer_of result self.new.bytes) }
        ensures counted { CallsMade self.old.work self.old.leading (D.calls disk.old) (D.calls disk.new) }
        ensures refusals { RefusesOnly self.old.work (answer_of result self.new.bytes) }
        ensures leaves { Leaves self.old.work self.old result self.new }
        ensures content { Told (D.content disk.old) (D.content disk.new) (λ d e. HostSteps up.now self.old d (answer_of result self.new.bytes) self.new e) }
    {
        match self.work {
            Some(Work::Stop) => self.stop(disk),
            Some(Work::Clear(task)) => self.clear(task, disk),
            Some(Work::Tasks) => self.list(disk),
            None => Progress::More,
        }
    }

    // The step of `spm-stop`.
    fn stop<D: SharedDisk>(&mut self, disk: &mut D) -> Progress
        requires stopping { self.old.work ≡ Some Work.Stop }
        ensures counts { ProgressCounts (D.faults disk.old) (D.faults disk.new) (D.calls disk.old) (D.calls disk.new) (answer_of result self.new.bytes) }
        ensures counted { D.calls disk.new ≡ min (D.calls disk.old + 1) (2 ^ 64 - 1) }
        ensures refusals { RefusesOnly (Some Work.Stop) (answer_of result self.new.bytes) }
        ensures leaves { Leaves (Some Work.Stop) self.old result self.new }
        ensures content { (up : Hosts) → Told (D.content disk.old) (D.content disk.new) (λ d e. HostSteps up self.old d (answer_of result self.new.bytes) self.new e) }
    {
        self.work = None;
        let id = self.id;
        match self.leading.take() {
            Some(Leading { spm, begun: _ }) => match spm_stop(spm, id, disk) {
                Ok(()) => Progress::Done(Reply::Ok(Payload::SpmStop)),
                Err(refusal) => Progress::Done(Reply::Refused(refusal)),
            },
            None => Progress::Done(Reply::Refused(Refusal::NotSpm)),
        }
    }
}
