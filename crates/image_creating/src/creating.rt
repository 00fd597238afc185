// Creating an image: what is made, and how far it is.
ghost use Rattle.std.specs.Prelude.{◌≡◌, ◌≢◌, ◌<◌, ◌≤◌, ◌+◌, ◌-◌, ◌^◌, min};
ghost use Rattle.sd_names.specs.declared.place.Name.TheVariants.{Task};
ghost use Rattle.shared_disk.specs.Calls.{Told};
ghost use Rattle.shared_disk.specs.Step.{EndsOnlyBy, NearsEnd, StepCounts};
ghost use Rattle.image_creating.specs.Stage.{length_kept, length_wanted, name_kept, slot_kept};

use crate::ImageTask;
use image_making::{ImageMaking, NewImage};
use lease_area::{Lease, Scan};
use sd_names::{HostId, Id, Refusal, Turn, UpSet};
use shared_disk::SharedDisk;
use std::alloc::Global;
use task_files::TaskWrite;

/// How far a creation is.
pub enum Stage {
    /// Whether the image has a folder isn't known.
    Asking(ImageMaking),
    /// The image has no folder; the lease sectors are read.
    Scanning(ImageMaking, Scan),
    /// No sector named the image, and this one was the least empty one; the open task's text is written.
    Opening(ImageMaking, u16, TaskWrite),
    /// The task is open on the medium.
    Taking(ImageMaking, u16),
    /// The image's sector is held for the task; its files are made.
    Making(ImageMaking, Lease),
    /// The image is there; the text of the task that is done is written.
    Ending(Lease, TaskWrite),
    /// The task is done.
    Releasing(Lease),
}

/// An image is created, in steps of one disk call at most. It can't be dropped, since it may have the lease of the image: it is
/// spent by its last step, or by `lost`.
pub struct CreateImage {
    pub(crate) under: ImageTask,
    pub(crate) stage: Stage,
    ghost low: { 0 < slot_kept stage },
    ghost high: { slot_kept stage < 1024 },
    ghost named: { name_kept under stage ≡ Task under.begun.id },
    ghost length: { length_kept under stage ≡ length_wanted under stage },
}

impl CreateImage {
    ghost use Rattle.std.specs.Prelude.{ℕ, MatchResult};
    ghost use Rattle.sd_names.specs.Id.{zero_id};
    ghost use Rattle.sd_names.specs.declared.refusal.Refusal.TheVariants.{OutOfMemory};
    ghost use Rattle.image_making.specs.Record.{IsBase};
    ghost use Rattle.image_making.specs.declared.making.NewImage.{NewImage as AnyImage};
    ghost use Rattle.image_creating.specs.Creating.{CallsMade, IsBegun, IsHeldBy, IsNext, MayRefuse, creation_left, stage_of};
    ghost use Rattle.image_creating.specs.Knowing.{Knows};
    ghost use Rattle.image_creating.specs.Calls.{CallOf};
    ghost use Rattle.image_creating.specs.Steps.{CreateSteps};

    /// The creation of an image under the task `task` of the pool whose master domain is `master`. The image isn't the one of
    /// zeros. Refused for want of memory alone.
    pub fn begin(
        alloc: Global,
        master: Id,
        task: Id,
        image: NewImage,
    ) -> Result<CreateImage, Refusal>
        requires base { IsBase image.says }
        requires set { image.says.image ≢ zero_id }
        ensures { MatchResult result (IsBegun master task image) (λ refusal. refusal ≡ OutOfMemory) }
    {
        let under = ImageTask::new(alloc, master, task, image.says.domain, image.says.image)?;
        Ok(CreateImage {
            under,
            stage: Stage::Asking(ImageMaking::begin(image)),
        })
    }

    /// Makes one call of the disk, of 33 steps at the most; a step that reads sectors makes one at most. The host is the
    /// manager of the pool, the same in each step. At `Done` the image is there whole, on the medium, and nobody holds it.
    ///
    /// 51 where the image has a folder, or a sector names it; 54 where no sector is empty. 52 and 50 come only where somebody
    /// else changed the sector since it was read, and 41 where it isn't the task's any more. After 120 and 122, 52, 50 and
    /// 41 behind the task's text, the task stays open, or is done, and what was made is its recovery's.
    pub fn step<D: SharedDisk>(
        self,
        host: HostId,
        up: &UpSet,
        disk: &mut D,
    ) -> Turn<CreateImage, (), ()>
        requires own { IsHeldBy (stage_of self) host }
        ensures counts { StepCounts (D.faults disk.old) (D.faults disk.new) (D.calls disk.old) (D.calls disk.new) result }
        ensures counted { CallsMade (stage_of self) (D.calls disk.old) (D.calls disk.new) }
        ensures refusals { EndsOnlyBy (MayRefuse (stage_of self)) result }
        ensures keeps { NearsEnd (IsNext self host) creation_left (creation_left self) result }
        ensures call { Told (D.content disk.old) (D.content disk.new) (CallOf self host up.now (D.faults disk.new) result) }
        ensures content { Told (D.content disk.old) (D.content disk.new) (λ d e. (x : AnyImage) → Knows self x host d → CreateSteps self x host (D.faults disk.new) result d e) }
    {
        let CreateImage { under, stage } = self;
        match stage {
            Stage::Asking(making) => under.ask(making, host, disk),
            Stage::Scanning(making, scan) => under.scan(making, scan, host, disk),
            Stage::Opening(making, slot, write) => under.open(making, slot, write, host, disk),
            Stage::Taking(making, slot) => under.take(making, slot, host, up, disk),
            Stage::Making(making, lease) => under.make(making, lease, host, disk),
            Stage::Ending(lease, write) => under.end(lease, write, host, disk),
            Stage::Releasing(lease) => under.release(lease, host, disk),
        }
    }

    /// Spends the creation without a call of the disk, and leaves what was made: for a host that goes down.
    pub fn lost(self) {
        let CreateImage { under: _, stage } = self;
        match stage {
            Stage::Asking(_making) => {}
            Stage::Scanning(_making, _scan) => {}
            Stage::Opening(_making, _slot, _write) => {}
            Stage::Taking(_making, _slot) => {}
            Stage::Making(_making, lease) => lease.lost(),
            Stage::Ending(lease, _write) => lease.lost(),
            Stage::Releasing(lease) => lease.lost(),
        }
    }
}
