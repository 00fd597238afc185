// The step of each stage: one call of the disk.
ghost use Rattle.std.specs.Prelude.{◌≡◌, ◌<◌, ◌≤◌, ◌+◌, ◌-◌, ◌*◌, ◌/◌, ◌^◌, IfSome, min};
ghost use Rattle.shared_disk.specs.Calls.{Told};
ghost use Rattle.shared_disk.specs.Step.{EndsOnlyBy, IsDiskRefusal, StepCounts};
ghost use Rattle.lease_area.specs.Hold.{IsGivingRefusal, leases_of};
ghost use Rattle.lease_area.specs.Record.{IsImageSlot};
ghost use Rattle.lease_area.specs.declared.sector.Kind.TheVariants.{Task};
ghost use Rattle.sector_freeing.specs.Falls.{NearsIn};
ghost use Rattle.sector_freeing.specs.Finding.{IsTaskSlot};
ghost use Rattle.sector_freeing.specs.Freeing.{IsAt};
ghost use Rattle.sector_freeing.specs.Inner.{FoundBy, Frees, FreesOne, ListsName, LooksFrom, ReadsOn, SyncsOne};
ghost use Rattle.sector_freeing.specs.Stage.{kind_kept, slot_kept};
ghost use Rattle.sector_freeing.specs.declared.freeing.Stage.TheVariants as stage;

use crate::finding::{PIECE, least_task};
use crate::freeing::{SectorFreeing, Stage};
use lease_area::{LeaseRecord, free_task};
use sd_names::{Dir, HostId, Id, Name, Place, Turn};
use shared_disk::{DiskAnswer, SharedDisk, refusal_for};

/// How many sectors a step reads, and how many a leases file has.
const SECTORS: u16 = 128;

const ALL: u16 = 1024;

// The leases file of a domain.
fn leases_file(sd: Id) -> Place
    ensures { result ≡ leases_of sd }
{
    Place {
        dir: Dir::DomMd(sd),
        name: Name::Leases,
    }
}

// The freeing of this domain's sectors, in this stage.
fn at(sd: Id, stage: Stage) -> SectorFreeing
    requires slot { IsImageSlot (slot_kept stage) }
    requires held { kind_kept stage ≡ Task }
    ensures { IsAt sd stage result }
{
    SectorFreeing { sd, stage }
}

// No sector below this one is held for a task: those from it on are read, unless it is behind the last one.
fn look_from(sd: Id, from: u16) -> Turn<SectorFreeing, (), ()>
    requires some { 0 < from }
    ensures { LooksFrom sd from result }
{
    if from < ALL {
        return Turn::More(at(sd, Stage::Looking(from)));
    }
    Turn::Done(())
}

// What follows from what was found in the sectors of one step.
fn behind_read(sd: Id, from: u16, found: Option<(u16, LeaseRecord)>) -> Turn<SectorFreeing, (), ()>
    requires within { IsImageSlot from }
    requires fits { IfSome found (IsTaskSlot from) }
    ensures found { FoundBy sd from found result }
    ensures falls { NearsIn (stage.Looking from) sd result }
{
    match found {
        Some((slot, lease)) => Turn::More(at(sd, Stage::Listing(slot, lease, None))),
        None => look_from(sd, SECTORS * (from / SECTORS + 1)),
    }
}

// The sectors of the step that has this one are read.
pub(crate) fn look_on<D: SharedDisk>(
    sd: Id,
    from: u16,
    host: HostId,
    disk: &mut D,
) -> Turn<SectorFreeing, (), ()>
    requires slot { IsImageSlot from }
    ensures counts { StepCounts (D.faults disk.old) (D.faults disk.new) (D.calls disk.old) (D.calls disk.new) result }
    ensures counted { D.calls disk.new ≡ min (D.calls disk.old + 1) (2 ^ 64 - 1) }
    ensures refusals { EndsOnlyBy IsDiskRefusal result }
    ensures falls { NearsIn (stage.Looking from) sd result }
    ensures steps { Told (D.content disk.old) (D.content disk.new) (ReadsOn sd from host (D.faults disk.new) result) }
{
    let mut room = [0; PIECE];
    let base = SECTORS * (from / SECTORS);
    match disk.read_at(host, leases_file(sd), 512 * u64::from(base), &mut room) {
        Ok(count) => behind_read(sd, from, least_task(from, base, &room, count / 512)),
        Err(answer) => Turn::Ended((), refusal_for(answer, disk)),
    }
}

// The next name of the image's folder. Where the folder isn't there nothing is to be synced.
pub(crate) fn list_on<D: SharedDisk>(
    sd: Id,
    slot: u16,
    lease: LeaseRecord,
    after: Option<Name>,
    host: HostId,
    disk: &mut D,
) -> Turn<SectorFreeing, (), ()>
    requires slot { IsImageSlot slot }
    requires task { lease.kind ≡ Task }
    ensures counts { StepCounts (D.faults disk.old) (D.faults disk.new) (D.calls disk.old) (D.calls disk.new) result }
    ensures counted { D.calls disk.new ≡ min (D.calls disk.old + 1) (2 ^ 64 - 1) }
    ensures refusals { EndsOnlyBy IsDiskRefusal result }
    ensures falls { NearsIn (stage.Listing slot lease after) sd result }
    ensures steps { Told (D.content disk.old) (D.content disk.new) (ListsName sd slot lease after (D.faults disk.new) result) }
{
    match disk.next_name(host, Dir::Image(sd, lease.image), after) {
        Ok(Some(name)) => Turn::More(at(sd, Stage::Syncing(slot, lease, name))),
        Ok(None) | Err(DiskAnswer::NoFile) => Turn::More(at(sd, Stage::Freeing(slot, lease))),
        Err(answer) => Turn::Ended((), refusal_for(answer, disk)),
    }
}

// A file of the image is synced, unless it is gone.
pub(crate) fn sync_on<D: SharedDisk>(
    sd: Id,
    slot: u16,
    lease: LeaseRecord,
    name: Name,
    host: HostId,
    disk: &mut D,
) -> Turn<SectorFreeing, (), ()>
    requires slot { IsImageSlot slot }
    requires task { lease.kind ≡ Task }
    ensures counts { StepCounts (D.faults disk.old) (D.faults disk.new) (D.calls disk.old) (D.calls disk.new) result }
    ensures counted { D.calls disk.new ≡ min (D.calls disk.old + 1) (2 ^ 64 - 1) }
    ensures refusals { EndsOnlyBy IsDiskRefusal result }
    ensures falls { NearsIn (stage.Syncing slot lease name) sd result }
    ensures steps { Told (D.content disk.old) (D.content disk.new) (SyncsOne sd slot lease name host (D.faults disk.new) result) }
{
    let place = Place {
        dir: Dir::Image(sd, lease.image),
        name,
    };
    match disk.sync(host, place) {
        Ok(()) | Err(DiskAnswer::NoFile) => {
            Turn::More(at(sd, Stage::Listing(slot, lease, Some(name))))
        }
        Err(answer) => Turn::Ended((), refusal_for(answer, disk)),
    }
}

// The sector is freed.
pub(crate) fn free_on<D: SharedDisk>(
    sd: Id,
    slot: u16,
    lease: LeaseRecord,
    host: HostId,
    disk: &mut D,
) -> Turn<SectorFreeing, (), ()>
    requires slot { IsImageSlot slot }
    requires task { lease.kind ≡ Task }
    ensures counts { StepCounts (D.faults disk.old) (D.faults disk.new) (D.calls disk.old) (D.calls disk.new) result }
    ensures counted { D.calls disk.new ≡ min (D.calls disk.old + 1) (2 ^ 64 - 1) }
    ensures refusals { EndsOnlyBy IsGivingRefusal result }
    ensures falls { NearsIn (stage.Freeing slot lease) sd result }
    ensures call { Told (D.content disk.old) (D.content disk.new) (Frees sd slot lease host (D.faults disk.new) result) }
    ensures steps { Told (D.content disk.old) (D.content disk.new) (FreesOne sd slot lease (D.faults disk.new) result) }
{
    match free_task(host, sd, slot, lease, disk) {
        Ok(()) => look_from(sd, slot + 1),
        Err(refusal) => Turn::Ended((), refusal),
    }
}
