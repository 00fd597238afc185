// The step of each stage: one call of the disk.
ghost use Rattle.std.specs.Prelude.{◌≡◌, ◌≤◌, ◌+◌, ◌-◌, ◌^◌, ℕ, List, min};
ghost use Rattle.shared_disk.specs.Calls.{Told};
ghost use Rattle.shared_disk.specs.Step.{EndsOnlyBy, IsDiskRefusal, NearsEnd, StepCounts};
ghost use Rattle.lease_area.specs.Hold.{IsGivingRefusal, IsImageRefusal, record_of};
ghost use Rattle.lease_area.specs.Record.{IsImageSlot};
ghost use Rattle.lease_area.specs.Scan.{scan_left};
ghost use Rattle.task_files.specs.Write.{IsFor, Knows as KnowsWrite, write_left};
ghost use Rattle.image_making.specs.Making.{making_left};
ghost use Rattle.image_making.specs.Steps.{Knows as KnowsMaking};
ghost use Rattle.image_creating.specs.Calls.{Asks, Ends, IsAt, Makes, Opens, Releases, Scans, SeenBy, Takes};
ghost use Rattle.image_creating.specs.Creating.{IsNextOf, MayBeTaken, MayBeThere, creation_left};
ghost use Rattle.image_creating.specs.Inner.{EndsText, FreesSector, IsUncounted, MakesFiles, OpensText, ScansOn};
ghost use Rattle.image_creating.specs.Stage.{length_kept, length_wanted, name_kept, slot_kept};
ghost use Rattle.sd_names.specs.declared.place.Name.TheVariants.{Task as TaskFile};

use crate::ImageTask;
use crate::creating::{CreateImage, Stage};
use image_making::ImageMaking;
use lease_area::{Kind, Lease, Scan, Scanned, Sector, take_image};
use sd_names::{Dir, HostId, Refusal, Turn, UpSet};
use shared_disk::{DiskAnswer, SharedDisk, refusal_for};
use task_files::TaskWrite;

/// How many bytes a step of a scan reads.
const PIECE: usize = 65536;

impl ImageTask {
    // The creation under this task, in this stage.
    fn at(self, stage: Stage) -> CreateImage
        requires slot { IsImageSlot (slot_kept stage) }
        requires named { name_kept self stage ≡ TaskFile self.begun.id }
        requires length { length_kept self stage ≡ length_wanted self stage }
        ensures { IsAt self stage result }
    {
        CreateImage { under: self, stage }
    }

    // Whether the image has a folder.
    pub(crate) fn ask<D: SharedDisk>(
        self,
        making: ImageMaking,
        host: HostId,
        disk: &mut D,
    ) -> Turn<CreateImage, (), ()>
        ensures counts { StepCounts (D.faults disk.old) (D.faults disk.new) (D.calls disk.old) (D.calls disk.new) result }
        ensures counted { D.calls disk.new ≡ min (D.calls disk.old + 1) (2 ^ 64 - 1) }
        ensures refusals { EndsOnlyBy MayBeThere result }
        ensures keeps { NearsEnd (IsNextOf self host) creation_left (making_left making + 21) result }
        ensures call { Told (D.content disk.old) (D.content disk.new) (Asks self making (D.faults disk.new) result) }
    {
        let dir = Dir::Image(self.sd, self.image);
        match disk.next_name(host, dir, None) {
            Ok(_) => Turn::Ended((), Refusal::ImageExists),
            Err(answer) => match answer {
                DiskAnswer::NoFile => {
                    let scan = Scan::begin(self.sd, self.image);
                    Turn::More(self.at(Stage::Scanning(making, scan)))
                }
                _ => Turn::Ended((), refusal_for(answer, disk)),
            },
        }
    }

    // The next sectors are read.
    pub(crate) fn scan<D: SharedDisk>(
        self,
        making: ImageMaking,
        scan: Scan,
        host: HostId,
        disk: &mut D,
    ) -> Turn<CreateImage, (), ()>
        ensures counts { StepCounts (D.faults disk.old) (D.faults disk.new) (D.calls disk.old) (D.calls disk.new) result }
        ensures refusals { EndsOnlyBy MayBeTaken result }
        ensures keeps { NearsEnd (IsNextOf self host) creation_left (scan_left scan + making_left making + 12) result }
        ensures call { Told (D.content disk.old) (D.content disk.new) (Scans self making scan host (D.faults disk.new) result) }
        ensures steps { Told (D.content disk.old) (D.content disk.new) (ScansOn self making scan host (D.faults disk.new) result) }
    {
        let mut room = [0; PIECE];
        match scan.step(host, disk, &mut room) {
            Turn::More(next) => Turn::More(self.at(Stage::Scanning(making, next))),
            Turn::Done(seen) => self.behind_scan(making, seen, host),
            Turn::Ended((), refusal) => Turn::Ended((), refusal),
        }
    }

    // What follows from what the scan has seen.
    fn behind_scan(
        self,
        making: ImageMaking,
        seen: Scanned,
        host: HostId,
    ) -> Turn<CreateImage, (), ()>
        ensures seen { SeenBy self making seen.found seen.empty result }
        ensures refusals { EndsOnlyBy MayBeTaken result }
        ensures no_fault { (before after : ℕ) → after ≡ before → IsUncounted before after result }
        ensures keeps { NearsEnd (IsNextOf self host) creation_left (making_left making + 13) result }
    {
        match seen.found {
            Some(_) => Turn::Ended((), Refusal::ImageExists),
            None => match seen.empty {
                Some(slot) => {
                    let write = TaskWrite::begin(self.master, &self.begun);
                    Turn::More(self.at(Stage::Opening(making, slot, write)))
                }
                None => Turn::Ended((), Refusal::LeaseAreaFull),
            },
        }
    }

    // A step of the write of the open task's text.
    pub(crate) fn open<D: SharedDisk>(
        self,
        making: ImageMaking,
        slot: u16,
        write: TaskWrite,
        host: HostId,
        disk: &mut D,
    ) -> Turn<CreateImage, (), ()>
        requires slot { IsImageSlot slot }
        requires text { IsFor self.begun write }
        ensures counts { StepCounts (D.faults disk.old) (D.faults disk.new) (D.calls disk.old) (D.calls disk.new) result }
        ensures counted { D.calls disk.new ≡ min (D.calls disk.old + 1) (2 ^ 64 - 1) }
        ensures refusals { EndsOnlyBy IsDiskRefusal result }
        ensures keeps { NearsEnd (IsNextOf self host) creation_left (write_left write + making_left making + 7) result }
        ensures call { Told (D.content disk.old) (D.content disk.new) (Opens self making slot write host (D.faults disk.new) result) }
        ensures steps { Told (D.content disk.old) (D.content disk.new) (λ d e. KnowsWrite write host self.begun d → OpensText self making slot write host (D.faults disk.new) result d e) }
    {
        match write.step(host, disk, &self.begun) {
            Turn::More(next) => Turn::More(self.at(Stage::Opening(making, slot, next))),
            Turn::Done(()) => Turn::More(self.at(Stage::Taking(making, slot))),
            Turn::Ended((), refusal) => Turn::Ended((), refusal),
        }
    }

    // The empty sector is taken for the task.
    pub(crate) fn take<D: SharedDisk>(
        self,
        making: ImageMaking,
        slot: u16,
        host: HostId,
        up: &UpSet,
        disk: &mut D,
    ) -> Turn<CreateImage, (), ()>
        requires slot { IsImageSlot slot }
        ensures counts { StepCounts (D.faults disk.old) (D.faults disk.new) (D.calls disk.old) (D.calls disk.new) result }
        ensures counted { D.calls disk.new ≡ min (D.calls disk.old + 1) (2 ^ 64 - 1) }
        ensures refusals { EndsOnlyBy IsImageRefusal result }
        ensures keeps { NearsEnd (IsNextOf self host) creation_left (making_left making + 7) result }
        ensures call { Told (D.content disk.old) (D.content disk.new) (Takes self making slot host up.now (D.faults disk.new) result) }
    {
        let (sd, image) = (self.sd, self.image);
        match take_image(host, up, sd, slot, &Sector::Empty, Kind::Task, image, disk) {
            Ok(lease) => Turn::More(self.at(Stage::Making(making, lease))),
            Err(refusal) => Turn::Ended((), refusal),
        }
    }

    // A step of the making of the image's files.
    pub(crate) fn make<D: SharedDisk>(
        self,
        making: ImageMaking,
        lease: Lease,
        host: HostId,
        disk: &mut D,
    ) -> Turn<CreateImage, (), ()>
        requires own { (record_of lease).owner ≡ host }
        ensures counts { StepCounts (D.faults disk.old) (D.faults disk.new) (D.calls disk.old) (D.calls disk.new) result }
        ensures counted { D.calls disk.new ≡ min (D.calls disk.old + 1) (2 ^ 64 - 1) }
        ensures refusals { EndsOnlyBy IsDiskRefusal result }
        ensures keeps { NearsEnd (IsNextOf self host) creation_left (making_left making + 6) result }
        ensures call { Told (D.content disk.old) (D.content disk.new) (Makes self making lease host (D.faults disk.new) result) }
        ensures steps { Told (D.content disk.old) (D.content disk.new) (λ d e. KnowsMaking making host d → MakesFiles self making lease host (D.faults disk.new) result d e) }
    {
        match making.step(host, disk) {
            Turn::More(next) => Turn::More(self.at(Stage::Making(next, lease))),
            Turn::Done(()) => {
                let write = TaskWrite::begin(self.master, &self.done);
                Turn::More(self.at(Stage::Ending(lease, write)))
            }
            Turn::Ended((), refusal) => {
                lease.lost();
                Turn::Ended((), refusal)
            }
        }
    }

    // A step of the write of the text of the task that is done.
    pub(crate) fn end<D: SharedDisk>(
        self,
        lease: Lease,
        write: TaskWrite,
        host: HostId,
        disk: &mut D,
    ) -> Turn<CreateImage, (), ()>
        requires own { (record_of lease).owner ≡ host }
        requires text { IsFor self.done write }
        ensures counts { StepCounts (D.faults disk.old) (D.faults disk.new) (D.calls disk.old) (D.calls disk.new) result }
        ensures counted { D.calls disk.new ≡ min (D.calls disk.old + 1) (2 ^ 64 - 1) }
        ensures refusals { EndsOnlyBy IsDiskRefusal result }
        ensures keeps { NearsEnd (IsNextOf self host) creation_left (write_left write + 1) result }
        ensures call { Told (D.content disk.old) (D.content disk.new) (Ends self lease write host (D.faults disk.new) result) }
        ensures steps { Told (D.content disk.old) (D.content disk.new) (λ d e. KnowsWrite write host self.done d → EndsText self lease write host (D.faults disk.new) result d e) }
    {
        match write.step(host, disk, &self.done) {
            Turn::More(next) => Turn::More(self.at(Stage::Ending(lease, next))),
            Turn::Done(()) => Turn::More(self.at(Stage::Releasing(lease))),
            Turn::Ended((), refusal) => {
                lease.lost();
                Turn::Ended((), refusal)
            }
        }
    }

    // The sector is freed.
    pub(crate) fn release<D: SharedDisk>(
        self,
        lease: Lease,
        host: HostId,
        disk: &mut D,
    ) -> Turn<CreateImage, (), ()>
        requires own { (record_of lease).owner ≡ host }
        ensures counts { StepCounts (D.faults disk.old) (D.faults disk.new) (D.calls disk.old) (D.calls disk.new) result }
        ensures counted { D.calls disk.new ≡ min (D.calls disk.old + 1) (2 ^ 64 - 1) }
        ensures refusals { EndsOnlyBy IsGivingRefusal result }
        ensures keeps { NearsEnd (IsNextOf self host) creation_left 1 result }
        ensures call { Told (D.content disk.old) (D.content disk.new) (Releases lease host (D.faults disk.new) result) }
        ensures steps { Told (D.content disk.old) (D.content disk.new) (FreesSector lease (D.faults disk.new) result) }
    {
        match lease.release(host, disk) {
            Ok(()) => Turn::Done(()),
            Err(refusal) => Turn::Ended((), refusal),
        }
    }
}
