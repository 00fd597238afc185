// The step of each stage: one call of the disk.
ghost use Rattle.std.specs.Prelude.{◌≡◌, ◌+◌, ◌-◌, ◌^◌, ℕ, List, min};
ghost use Rattle.shared_disk.specs.Calls.{Told};
ghost use Rattle.shared_disk.specs.Step.{EndsOnlyBy, IsDiskRefusal, StepCounts};
ghost use Rattle.lease_area.specs.Hold.{IsGivingRefusal};
ghost use Rattle.lease_area.specs.Record.{IsImageSlot};
ghost use Rattle.lease_area.specs.Scan.{steps_made};
ghost use Rattle.lease_area.specs.declared.sector.Kind.TheVariants.{Task};
ghost use Rattle.image_clearing.specs.Calls.{Empties, Removes};
ghost use Rattle.image_clearing.specs.Clearing.{ClearTurn, IsAt, MayBeHeld};
ghost use Rattle.image_clearing.specs.Falls.{NearsIn};
ghost use Rattle.image_clearing.specs.Inner.{EmptiesSector, FoundBy, IsUncounted, RemovesFiles, ScansOn, SeenBy};
ghost use Rattle.image_clearing.specs.Stage.{kind_kept, slot_kept};
ghost use Rattle.image_clearing.specs.declared.clearing.Stage.TheVariants as stage;

use crate::clearing::{ImageClearing, Stage};
use image_removing::ImageRemoving;
use lease_area::{Kind, LeaseRecord, Scan, Scanned, empty_task};
use sd_names::{HostId, Id, Refusal, Turn};
use shared_disk::SharedDisk;

/// How many bytes a step of a scan reads.
const PIECE: usize = 65536;

// The clearing of this image, in this stage.
fn at(sd: Id, image: Id, stage: Stage) -> ImageClearing
    requires slot { IsImageSlot (slot_kept stage) }
    requires held { kind_kept stage ≡ Task }
    ensures { IsAt sd image stage result }
{
    ImageClearing { sd, image, stage }
}

// The next sectors are read.
pub(crate) fn scan_on<D: SharedDisk>(
    sd: Id,
    image: Id,
    scan: Scan,
    host: HostId,
    disk: &mut D,
) -> Turn<ImageClearing, (), ()>
    ensures counts { StepCounts (D.faults disk.old) (D.faults disk.new) (D.calls disk.old) (D.calls disk.new) result }
    ensures refusals { EndsOnlyBy MayBeHeld result }
    ensures falls { NearsIn (stage.Scanning scan) sd image result }
    ensures steps { Told (D.content disk.old) (D.content disk.new) (ScansOn sd image scan host (D.faults disk.new) result) }
{
    let mut room = [0; PIECE];
    match scan.step(host, disk, &mut room) {
        Turn::More(next) => Turn::More(at(sd, image, Stage::Scanning(next))),
        Turn::Done(seen) => behind_scan(sd, image, seen),
        Turn::Ended((), refusal) => Turn::Ended((), refusal),
    }
}

// What follows from what the scan has seen.
fn behind_scan(sd: Id, image: Id, seen: Scanned) -> Turn<ImageClearing, (), ()>
    ensures seen { SeenBy sd image seen.found result }
    ensures refusals { EndsOnlyBy MayBeHeld result }
    ensures no_fault { (before after : ℕ) → after ≡ before → IsUncounted before after result }
    ensures falls { (scan : Scan) → steps_made scan ≡ 7 → NearsIn (stage.Scanning scan) sd image result }
{
    match seen.found {
        Some((slot, lease)) => found(sd, image, slot, lease),
        None => Turn::Done(()),
    }
}

// The image has this sector: its files are removed where that is held for a task.
fn found(sd: Id, image: Id, slot: u16, lease: LeaseRecord) -> Turn<ImageClearing, (), ()>
    requires slot { IsImageSlot slot }
    ensures found { FoundBy sd image slot lease result }
    ensures refusals { EndsOnlyBy MayBeHeld result }
    ensures no_fault { (before after : ℕ) → after ≡ before → IsUncounted before after result }
    ensures falls { (scan : Scan) → steps_made scan ≡ 7 → NearsIn (stage.Scanning scan) sd image result }
{
    match lease.kind {
        Kind::Task => {
            let removing = ImageRemoving::begin(sd, image);
            Turn::More(at(sd, image, Stage::Removing(slot, lease, removing)))
        }
        Kind::Free | Kind::Guest => Turn::Ended((), Refusal::ImageHeld(lease.owner)),
    }
}

// A step of the removal of the image's files.
pub(crate) fn remove_on<D: SharedDisk>(
    sd: Id,
    image: Id,
    slot: u16,
    lease: LeaseRecord,
    removing: ImageRemoving,
    host: HostId,
    disk: &mut D,
) -> Turn<ImageClearing, (), ()>
    requires slot { IsImageSlot slot }
    requires task { lease.kind ≡ Task }
    ensures counts { StepCounts (D.faults disk.old) (D.faults disk.new) (D.calls disk.old) (D.calls disk.new) result }
    ensures counted { D.calls disk.new ≡ min (D.calls disk.old + 1) (2 ^ 64 - 1) }
    ensures refusals { EndsOnlyBy IsDiskRefusal result }
    ensures falls { NearsIn (stage.Removing slot lease removing) sd image result }
    ensures call { Told (D.content disk.old) (D.content disk.new) (Removes sd image slot lease removing (D.faults disk.new) result) }
    ensures steps { Told (D.content disk.old) (D.content disk.new) (RemovesFiles sd image slot lease removing (D.faults disk.new) result) }
{
    match removing.step(host, disk) {
        Turn::More(next) => Turn::More(at(sd, image, Stage::Removing(slot, lease, next))),
        Turn::Done(()) => Turn::More(at(sd, image, Stage::Emptying(slot, lease))),
        Turn::Ended((), refusal) => Turn::Ended((), refusal),
    }
}

// The sector is emptied.
pub(crate) fn empty_on<D: SharedDisk>(
    sd: Id,
    slot: u16,
    lease: LeaseRecord,
    host: HostId,
    disk: &mut D,
) -> Turn<ImageClearing, (), ()>
    requires slot { IsImageSlot slot }
    requires task { lease.kind ≡ Task }
    ensures counts { StepCounts (D.faults disk.old) (D.faults disk.new) (D.calls disk.old) (D.calls disk.new) result }
    ensures counted { D.calls disk.new ≡ min (D.calls disk.old + 1) (2 ^ 64 - 1) }
    ensures refusals { EndsOnlyBy IsGivingRefusal result }
    ensures falls { (image : Id) → NearsIn (stage.Emptying slot lease) sd image result }
    ensures call { Told (D.content disk.old) (D.content disk.new) (Empties sd slot lease host (D.faults disk.new) result) }
    ensures steps { Told (D.content disk.old) (D.content disk.new) (EmptiesSector sd slot lease (D.faults disk.new) result) }
{
    match empty_task(host, sd, slot, lease, disk) {
        Ok(()) => Turn::Done(()),
        Err(refusal) => Turn::Ended((), refusal),
    }
}
