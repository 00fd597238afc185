// Deleting an image: which one, and how far it is.
ghost use Rattle.std.specs.Prelude.{◌≡◌, ◌≢◌, ◌<◌, ◌≤◌, ◌+◌, ◌-◌, ◌^◌, min};
ghost use Rattle.sd_names.specs.declared.place.Name.TheVariants.{Task};
ghost use Rattle.shared_disk.specs.Calls.{Told};
ghost use Rattle.shared_disk.specs.Step.{EndsOnlyBy, StepCounts};
ghost use Rattle.lease_area.specs.declared.sector.Kind.TheVariants.{Task as ForTask};
ghost use Rattle.image_deleting.specs.Stage.{kind_kept, length_kept, length_wanted, name_kept, slot_kept};

use crate::RemovalTask;
use image_removing::ImageRemoving;
use lease_area::{Lease, LeaseRecord, Scan};
use sd_names::{HostId, Id, Refusal, Turn, UpSet};
use shared_disk::SharedDisk;
use std::alloc::Global;
use task_files::TaskWrite;

/// How far a deletion is.
pub enum Stage {
    /// The lease sectors are read.
    Scanning(Scan),
    /// This sector named the image, with this lease.
    Taking(u16, LeaseRecord),
    /// The image's sector is held for the task; the open task's text is written.
    Opening(Lease, TaskWrite),
    /// The task is open on the medium; the image's files are removed.
    Removing(Lease, ImageRemoving),
    /// The image has no folder, under either name.
    Clearing(Lease),
    /// No sector names the image; the text of the task that is done is written.
    Ending(TaskWrite),
}

/// An image is deleted, in steps of one disk call at most. It can't be dropped, since it may have the image's lease: it is spent
/// by its last step, or by `lost`.
pub struct DeleteImage {
    pub(crate) under: RemovalTask,
    pub(crate) stage: Stage,
    ghost low: { 0 < slot_kept stage },
    ghost high: { slot_kept stage < 1024 },
    ghost for_task: { kind_kept stage ≡ ForTask },
    ghost named: { name_kept under stage ≡ Task under.begun.id },
    ghost length: { length_kept under stage ≡ length_wanted under stage },
}

impl DeleteImage {
    ghost use Rattle.std.specs.Prelude.{ℕ, MatchResult};
    ghost use Rattle.sd_names.specs.Id.{zero_id};
    ghost use Rattle.sd_names.specs.declared.refusal.Refusal.TheVariants.{OutOfMemory};
    ghost use Rattle.image_deleting.specs.Deleting.{CallsMade, IsBegun, IsHeldBy, Keeps, MayRefuse, stage_of, under_of};
    ghost use Rattle.image_deleting.specs.Falls.{Nears, Rises};
    ghost use Rattle.image_deleting.specs.Knowing.{Knows};
    ghost use Rattle.image_deleting.specs.Calls.{CallOf};
    ghost use Rattle.image_deleting.specs.Steps.{DeleteSteps};

    /// The deletion of the image `image` of the domain `sd` under the task `task` of the pool whose master domain is `master`.
    /// The image isn't the one of zeros. Refused for want of memory alone.
    pub fn begin(
        alloc: Global,
        master: Id,
        task: Id,
        sd: Id,
        image: Id,
    ) -> Result<DeleteImage, Refusal>
        requires set { image ≢ zero_id }
        ensures { MatchResult result (IsBegun master task sd image) (λ refusal. refusal ≡ OutOfMemory) }
    {
        let under = RemovalTask::new(alloc, master, task, sd, image)?;
        Ok(DeleteImage {
            under,
            stage: Stage::Scanning(Scan::begin(sd, image)),
        })
    }

    /// Makes one call of the disk; a step that reads sectors makes one at most. The host is the manager of the pool, the same in
    /// each step. At `Done` the image has no folder and no sector, on the medium, and its task is done.
    ///
    /// 50 where no sector names the image; 52 with the owner where a task or a guest of another host that is up has it, and with
    /// the asking host's own number where the sector changed since it was read to one that it could take: its caller may begin
    /// again. 41 where the sector isn't the task's any more. After 120 and 122 behind the task's text, and 41, the task stays
    /// open, and what is left is its recovery's.
    pub fn step<D: SharedDisk>(
        self,
        host: HostId,
        up: &UpSet,
        disk: &mut D,
    ) -> Turn<DeleteImage, (), ()>
        requires own { IsHeldBy (stage_of self) host }
        ensures counts { StepCounts (D.faults disk.old) (D.faults disk.new) (D.calls disk.old) (D.calls disk.new) result }
        ensures counted { CallsMade (stage_of self) (D.calls disk.old) (D.calls disk.new) }
        ensures refusals { EndsOnlyBy (MayRefuse (stage_of self)) result }
        ensures keeps { Keeps (under_of self) host result }
        ensures rises { Rises (stage_of self) result }
        ensures falls { Nears (stage_of self) result }
        ensures call { Told (D.content disk.old) (D.content disk.new) (CallOf self host up.now (D.faults disk.new) result) }
        ensures content { Told (D.content disk.old) (D.content disk.new) (λ d e. Knows self host d → DeleteSteps self host up.now (D.faults disk.new) result d e) }
    {
        let DeleteImage { under, stage } = self;
        match stage {
            Stage::Scanning(scan) => under.scan(scan, host, disk),
            Stage::Taking(slot, found) => under.take(slot, found, host, up, disk),
            Stage::Opening(lease, write) => under.open(lease, write, host, disk),
            Stage::Removing(lease, removing) => under.remove(lease, removing, host, disk),
            Stage::Clearing(lease) => under.clear(lease, host, disk),
            Stage::Ending(write) => under.end(write, host, disk),
        }
    }

    /// Spends the deletion without a call of the disk, and leaves what stands: for a host that goes down.
    pub fn lost(self) {
        let DeleteImage { under: _, stage } = self;
        match stage {
            Stage::Scanning(_scan) => {}
            Stage::Taking(_slot, _found) => {}
            Stage::Opening(lease, _write) => lease.lost(),
            Stage::Removing(lease, _removing) => lease.lost(),
            Stage::Clearing(lease) => lease.lost(),
            Stage::Ending(_write) => {}
        }
    }
}
