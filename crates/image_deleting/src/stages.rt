// The step of each stage: one call of the disk.
ghost use Rattle.std.specs.Prelude.{◌≡◌, ◌≢◌, ◌≤◌, ◌+◌, ◌-◌, ◌^◌, ℕ, List, min};
ghost use Rattle.shared_disk.specs.Calls.{Told};
ghost use Rattle.shared_disk.specs.Step.{EndsOnlyBy, IsDiskRefusal, StepCounts};
ghost use Rattle.lease_area.specs.Hold.{IsGivingRefusal, IsImageRefusal, record_of, slot_of};
ghost use Rattle.lease_area.specs.Record.{IsImageSlot};
ghost use Rattle.lease_area.specs.declared.sector.Kind.TheVariants.{Task as ForTask};
ghost use Rattle.task_files.specs.Write.{IsFor, Knows as KnowsWrite};
ghost use Rattle.image_deleting.specs.Calls.{Clears, Ends, IsAt, Opens, Removes, Scans, SeenBy, Takes};
ghost use Rattle.image_deleting.specs.Deleting.{Keeps, MayBeMissing};
ghost use Rattle.image_deleting.specs.Falls.{Nears, Rises};
ghost use Rattle.image_deleting.specs.Inner.{ClearsSector, EndsText, IsUncounted, OpensText, RemovesFiles, ScansOn};
ghost use Rattle.image_deleting.specs.Stage.{kind_kept, length_kept, length_wanted, name_kept, slot_kept};
ghost use Rattle.sd_names.specs.declared.place.Name.TheVariants.{Task as TaskFile};

use crate::RemovalTask;
use crate::deleting::{DeleteImage, Stage};
use image_removing::ImageRemoving;
use lease_area::{Kind, Lease, LeaseRecord, Scan, Scanned, Sector, take_image};
use sd_names::{HostId, Refusal, Turn, UpSet};
use shared_disk::SharedDisk;
use task_files::TaskWrite;

/// How many bytes a step of a scan reads.
const PIECE: usize = 65536;

impl RemovalTask {
    // The deletion under this task, in this stage.
    fn at(self, stage: Stage) -> DeleteImage
        requires slot { IsImageSlot (slot_kept stage) }
        requires for_task { kind_kept stage ≡ ForTask }
        requires named { name_kept self stage ≡ TaskFile self.begun.id }
        requires length { length_kept self stage ≡ length_wanted self stage }
        ensures { IsAt self stage result }
    {
        DeleteImage { under: self, stage }
    }

    // The next sectors are read.
    pub(crate) fn scan<D: SharedDisk>(
        self,
        scan: Scan,
        host: HostId,
        disk: &mut D,
    ) -> Turn<DeleteImage, (), ()>
        ensures counts { StepCounts (D.faults disk.old) (D.faults disk.new) (D.calls disk.old) (D.calls disk.new) result }
        ensures refusals { EndsOnlyBy MayBeMissing result }
        ensures keeps { Keeps self host result }
        ensures rises { Rises (Stage.Scanning scan) result }
        ensures falls { Nears (Stage.Scanning scan) result }
        ensures call { Told (D.content disk.old) (D.content disk.new) (Scans self scan host (D.faults disk.new) result) }
        ensures steps { Told (D.content disk.old) (D.content disk.new) (ScansOn self scan host (D.faults disk.new) result) }
    {
        let mut room = [0; PIECE];
        match scan.step(host, disk, &mut room) {
            Turn::More(next) => Turn::More(self.at(Stage::Scanning(next))),
            Turn::Done(seen) => self.behind_scan(seen),
            Turn::Ended((), refusal) => Turn::Ended((), refusal),
        }
    }

    // What follows from what the scan has seen.
    fn behind_scan(self, seen: Scanned) -> Turn<DeleteImage, (), ()>
        ensures seen { SeenBy self seen.found result }
        ensures refusals { EndsOnlyBy MayBeMissing result }
        ensures no_fault { (before after : ℕ) → after ≡ before → IsUncounted before after result }
    {
        match seen.found {
            Some((slot, found)) => Turn::More(self.at(Stage::Taking(slot, found))),
            None => Turn::Ended((), Refusal::NoImage),
        }
    }

    // The image's sector is taken for the task.
    pub(crate) fn take<D: SharedDisk>(
        self,
        slot: u16,
        found: LeaseRecord,
        host: HostId,
        up: &UpSet,
        disk: &mut D,
    ) -> Turn<DeleteImage, (), ()>
        requires slot { IsImageSlot slot }
        ensures counts { StepCounts (D.faults disk.old) (D.faults disk.new) (D.calls disk.old) (D.calls disk.new) result }
        ensures counted { D.calls disk.new ≡ min (D.calls disk.old + 1) (2 ^ 64 - 1) }
        ensures refusals { EndsOnlyBy IsImageRefusal result }
        ensures keeps { Keeps self host result }
        ensures rises { Rises (Stage.Taking slot found) result }
        ensures falls { Nears (Stage.Taking slot found) result }
        ensures call { Told (D.content disk.old) (D.content disk.new) (Takes self slot found host up.now (D.faults disk.new) result) }
    {
        let (sd, image) = (self.sd, self.image);
        match take_image(
            host,
            up,
            sd,
            slot,
            &Sector::Lease(found),
            Kind::Task,
            image,
            disk,
        ) {
            Ok(lease) => {
                let write = TaskWrite::begin(self.master, &self.begun);
                Turn::More(self.at(Stage::Opening(lease, write)))
            }
            Err(refusal) => Turn::Ended((), refusal),
        }
    }

    // A step of the write of the open task's text.
    pub(crate) fn open<D: SharedDisk>(
        self,
        lease: Lease,
        write: TaskWrite,
        host: HostId,
        disk: &mut D,
    ) -> Turn<DeleteImage, (), ()>
        requires own { (record_of lease).owner ≡ host }
        requires for_task { (record_of lease).kind ≡ ForTask }
        requires slot { IsImageSlot (slot_of lease) }
        requires text { IsFor self.begun write }
        ensures counts { StepCounts (D.faults disk.old) (D.faults disk.new) (D.calls disk.old) (D.calls disk.new) result }
        ensures counted { D.calls disk.new ≡ min (D.calls disk.old + 1) (2 ^ 64 - 1) }
        ensures refusals { EndsOnlyBy IsDiskRefusal result }
        ensures keeps { Keeps self host result }
        ensures rises { Rises (Stage.Opening lease write) result }
        ensures falls { Nears (Stage.Opening lease write) result }
        ensures call { Told (D.content disk.old) (D.content disk.new) (Opens self lease write host (D.faults disk.new) result) }
        ensures steps { Told (D.content disk.old) (D.content disk.new) (λ d e. KnowsWrite write host self.begun d → OpensText self lease write host (D.faults disk.new) result d e) }
    {
        match write.step(host, disk, &self.begun) {
            Turn::More(next) => Turn::More(self.at(Stage::Opening(lease, next))),
            Turn::Done(()) => {
                let removing = ImageRemoving::begin(self.sd, self.image);
                Turn::More(self.at(Stage::Removing(lease, removing)))
            }
            Turn::Ended((), refusal) => {
                lease.lost();
                Turn::Ended((), refusal)
            }
        }
    }

    // A step of the removal of the image's files.
    pub(crate) fn remove<D: SharedDisk>(
        self,
        lease: Lease,
        removing: ImageRemoving,
        host: HostId,
        disk: &mut D,
    ) -> Turn<DeleteImage, (), ()>
        requires own { (record_of lease).owner ≡ host }
        requires for_task { (record_of lease).kind ≡ ForTask }
        requires slot { IsImageSlot (slot_of lease) }
        ensures counts { StepCounts (D.faults disk.old) (D.faults disk.new) (D.calls disk.old) (D.calls disk.new) result }
        ensures counted { D.calls disk.new ≡ min (D.calls disk.old + 1) (2 ^ 64 - 1) }
        ensures refusals { EndsOnlyBy IsDiskRefusal result }
        ensures keeps { Keeps self host result }
        ensures rises { Rises (Stage.Removing lease removing) result }
        ensures falls { Nears (Stage.Removing lease removing) result }
        ensures call { Told (D.content disk.old) (D.content disk.new) (Removes self lease removing (D.faults disk.new) result) }
        ensures steps { Told (D.content disk.old) (D.content disk.new) (RemovesFiles self lease removing (D.faults disk.new) result) }
    {
        match removing.step(host, disk) {
            Turn::More(next) => Turn::More(self.at(Stage::Removing(lease, next))),
            Turn::Done(()) => Turn::More(self.at(Stage::Clearing(lease))),
            Turn::Ended((), refusal) => {
                lease.lost();
                Turn::Ended((), refusal)
            }
        }
    }

    // The sector is emptied.
    pub(crate) fn clear<D: SharedDisk>(
        self,
        lease: Lease,
        host: HostId,
        disk: &mut D,
    ) -> Turn<DeleteImage, (), ()>
        requires own { (record_of lease).owner ≡ host }
        requires for_task { (record_of lease).kind ≡ ForTask }
        requires slot { IsImageSlot (slot_of lease) }
        ensures counts { StepCounts (D.faults disk.old) (D.faults disk.new) (D.calls disk.old) (D.calls disk.new) result }
        ensures counted { D.calls disk.new ≡ min (D.calls disk.old + 1) (2 ^ 64 - 1) }
        ensures refusals { EndsOnlyBy IsGivingRefusal result }
        ensures keeps { Keeps self host result }
        ensures rises { Rises (Stage.Clearing lease) result }
        ensures falls { Nears (Stage.Clearing lease) result }
        ensures call { Told (D.content disk.old) (D.content disk.new) (Clears self lease host (D.faults disk.new) result) }
        ensures steps { Told (D.content disk.old) (D.content disk.new) (ClearsSector self lease (D.faults disk.new) result) }
    {
        match lease.clear(host, disk) {
            Ok(()) => {
                let write = TaskWrite::begin(self.master, &self.done);
                Turn::More(self.at(Stage::Ending(write)))
            }
            Err(refusal) => Turn::Ended((), refusal),
        }
    }

    // A step of the write of the text of the task that is done.
    pub(crate) fn end<D: SharedDisk>(
        self,
        write: TaskWrite,
        host: HostId,
        disk: &mut D,
    ) -> Turn<DeleteImage, (), ()>
        requires text { IsFor self.done write }
        ensures counts { StepCounts (D.faults disk.old) (D.faults disk.new) (D.calls disk.old) (D.calls disk.new) result }
        ensures counted { D.calls disk.new ≡ min (D.calls disk.old + 1) (2 ^ 64 - 1) }
        ensures refusals { EndsOnlyBy IsDiskRefusal result }
        ensures keeps { Keeps self host result }
        ensures rises { Rises (Stage.Ending write) result }
        ensures falls { Nears (Stage.Ending write) result }
        ensures call { Told (D.content disk.old) (D.content disk.new) (Ends self write host (D.faults disk.new) result) }
        ensures steps { Told (D.content disk.old) (D.content disk.new) (λ d e. KnowsWrite write host self.done d → EndsText self write host (D.faults disk.new) result d e) }
    {
        match write.step(host, disk, &self.done) {
            Turn::More(next) => Turn::More(self.at(Stage::Ending(next))),
            Turn::Done(()) => Turn::Done(()),
            Turn::Ended((), refusal) => Turn::Ended((), refusal),
        }
    }
}
