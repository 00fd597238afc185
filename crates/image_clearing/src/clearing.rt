// An image is cleared away: which one, and how far that is.
ghost use Rattle.std.specs.Prelude.{◌≡◌, ◌<◌, ◌≤◌, ◌+◌, ◌-◌, ◌^◌, min};
ghost use Rattle.shared_disk.specs.Calls.{Told};
ghost use Rattle.shared_disk.specs.Step.{EndsOnlyBy, StepCounts};
ghost use Rattle.lease_area.specs.declared.sector.Kind.TheVariants.{Task};
ghost use Rattle.image_clearing.specs.Stage.{kind_kept, slot_kept};

use crate::stages::{empty_on, remove_on, scan_on};
use image_removing::ImageRemoving;
use lease_area::{LeaseRecord, Scan};
use sd_names::{HostId, Id, Turn};
use shared_disk::SharedDisk;

/// How far a clearing is.
#[derive(Drop)]
pub enum Stage {
    /// The lease sectors are read. Which of them names the image isn't known.
    Scanning(Scan),
    /// This sector is held for the image's task, with this lease; the image's files are removed.
    Removing(u16, LeaseRecord, ImageRemoving),
    /// The image has no folder. This sector is still held for its task.
    Emptying(u16, LeaseRecord),
}

/// An image is cleared away under its task, in steps of one disk call at most: for the manager of the pool. The files go
/// before the sector, so that a clearing that was cut is done again from its beginning.
#[derive(Drop)]
pub struct ImageClearing {
    pub(crate) sd: Id,
    pub(crate) image: Id,
    pub(crate) stage: Stage,
    ghost low: { 0 < slot_kept stage },
    ghost high: { slot_kept stage < 1024 },
    ghost held: { kind_kept stage ≡ Task },
}

impl ImageClearing {
    ghost use Rattle.std.specs.Prelude.{ℕ};
    ghost use Rattle.image_clearing.specs.Calls.{CallOf};
    ghost use Rattle.image_clearing.specs.Clearing.{CallsMade, IsBegun, MayRefuse, stage_of};
    ghost use Rattle.image_clearing.specs.Falls.{Nears};
    ghost use Rattle.image_clearing.specs.Knowing.{Knows};
    ghost use Rattle.image_clearing.specs.Steps.{ClearSteps};

    /// The clearing of the image `image` of the domain `sd`.
    pub fn begin(sd: Id, image: Id) -> ImageClearing
        ensures { IsBegun sd image result }
    {
        ImageClearing {
            sd,
            image,
            stage: Stage::Scanning(Scan::begin(sd, image)),
        }
    }

    /// Makes one call of the disk; a step that reads sectors makes one at most. At `Done` no sector of the domain names the
    /// image, and it has no files.
    ///
    /// 52 with the owner where the image's sector isn't held for a task; 41 with what stands in the sector where that was
    /// changed since it was read; 120 and 122 come from the disk. After a refusal the image is still under its sector, or it is
    /// gone and the sector empty: what is left is done by a clearing that begins anew.
    pub fn step<D: SharedDisk>(self, host: HostId, disk: &mut D) -> Turn<ImageClearing, (), ()>
        ensures counts { StepCounts (D.faults disk.old) (D.faults disk.new) (D.calls disk.old) (D.calls disk.new) result }
        ensures counted { CallsMade (stage_of self) (D.calls disk.old) (D.calls disk.new) }
        ensures refusals { EndsOnlyBy (MayRefuse (stage_of self)) result }
        ensures falls { Nears self result }
        ensures call { Told (D.content disk.old) (D.content disk.new) (CallOf self host (D.faults disk.new) result) }
        ensures content { Told (D.content disk.old) (D.content disk.new) (λ d e. Knows self d → ClearSteps self (D.faults disk.new) result d e) }
    {
        let ImageClearing { sd, image, stage } = self;
        match stage {
            Stage::Scanning(scan) => scan_on(sd, image, scan, host, disk),
            Stage::Removing(slot, lease, removing) => {
                remove_on(sd, image, slot, lease, removing, host, disk)
            }
            Stage::Emptying(slot, lease) => empty_on(sd, slot, lease, host, disk),
        }
    }
}
