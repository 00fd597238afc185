// The sectors that are held for a task are freed, one after the other.
ghost use Rattle.std.specs.Prelude.{◌≡◌, ◌<◌, ◌+◌, ◌-◌, ◌^◌, min};
ghost use Rattle.shared_disk.specs.Calls.{Told};
ghost use Rattle.shared_disk.specs.Step.{EndsOnlyBy, StepCounts};
ghost use Rattle.lease_area.specs.declared.sector.Kind.TheVariants.{Task};
ghost use Rattle.sector_freeing.specs.Stage.{kind_kept, slot_kept};

use crate::stages::{free_on, list_on, look_on, sync_on};
use lease_area::LeaseRecord;
use sd_names::{HostId, Id, Name, Turn};
use shared_disk::SharedDisk;

/// How far a freeing is.
#[derive(Drop)]
pub enum Stage {
    /// No sector of images below this one, which is 1 to 1,023, is held for a task. The sectors from it on are read.
    Looking(u16),
    /// This sector is held for a task, with this lease, and none below it is. This host has nothing unsynced in the files of its
    /// image whose names are up to this one.
    Listing(u16, LeaseRecord, Option<Name>),
    /// The same, and the file with this name is synced next.
    Syncing(u16, LeaseRecord, Name),
    /// This host has nothing unsynced in any file of the image: its sector is freed.
    Freeing(u16, LeaseRecord),
}

/// The sectors of a domain that are held for a task are freed, in steps of one disk call: for the manager of the pool, where no
/// task is open. The image's files are synced before its sector is freed. A freeing that was cut is begun again from its
/// beginning: it finds what is left.
#[derive(Drop)]
pub struct SectorFreeing {
    pub(crate) sd: Id,
    pub(crate) stage: Stage,
    ghost low: { 0 < slot_kept stage },
    ghost high: { slot_kept stage < 1024 },
    ghost held: { kind_kept stage ≡ Task },
}

impl SectorFreeing {
    ghost use Rattle.sector_freeing.specs.Calls.{CallOf};
    ghost use Rattle.sector_freeing.specs.Falls.{Nears};
    ghost use Rattle.sector_freeing.specs.Freeing.{IsAt, MayRefuse, stage_of};
    ghost use Rattle.sector_freeing.specs.Stepped.{FreesInPool};
    ghost use Rattle.sector_freeing.specs.Steps.{FreesSectors};
    ghost use Rattle.sector_freeing.specs.declared.freeing.Stage.TheVariants.{Looking};

    /// The freeing of the sectors of the domain `sd`. It takes no memory.
    pub fn begin(sd: Id) -> SectorFreeing
        ensures { IsAt sd (Looking 1) result }
    {
        SectorFreeing {
            sd,
            stage: Stage::Looking(1),
        }
    }

    /// Makes one call of the disk. The host is the manager of the pool, the same in each step. At `Done` no sector of the domain's
    /// images is held for a task.
    ///
    /// 41 with what stands in a sector that was changed since it was read; 120 and 122 come from the disk. After a refusal each
    /// sector is held for its task still, or it is freed: what is left is done by a freeing that begins anew.
    pub fn step<D: SharedDisk>(self, host: HostId, disk: &mut D) -> Turn<SectorFreeing, (), ()>
        ensures counts { StepCounts (D.faults disk.old) (D.faults disk.new) (D.calls disk.old) (D.calls disk.new) result }
        ensures counted { D.calls disk.new ≡ min (D.calls disk.old + 1) (2 ^ 64 - 1) }
        ensures refusals { EndsOnlyBy (MayRefuse (stage_of self)) result }
        ensures falls { Nears self result }
        ensures call { Told (D.content disk.old) (D.content disk.new) (CallOf self host (D.faults disk.new) result) }
        ensures content { Told (D.content disk.old) (D.content disk.new) (FreesSectors self host (D.faults disk.new) result) }
        ensures pool { Told (D.content disk.old) (D.content disk.new) (FreesInPool self host (D.faults disk.new) result) }
    {
        self.advance(host, disk)
    }

    // The call of the stage.
    fn advance<D: SharedDisk>(self, host: HostId, disk: &mut D) -> Turn<SectorFreeing, (), ()>
        ensures counts { StepCounts (D.faults disk.old) (D.faults disk.new) (D.calls disk.old) (D.calls disk.new) result }
        ensures counted { D.calls disk.new ≡ min (D.calls disk.old + 1) (2 ^ 64 - 1) }
        ensures refusals { EndsOnlyBy (MayRefuse (stage_of self)) result }
        ensures falls { Nears self result }
        ensures call { Told (D.content disk.old) (D.content disk.new) (CallOf self host (D.faults disk.new) result) }
        ensures content { Told (D.content disk.old) (D.content disk.new) (FreesSectors self host (D.faults disk.new) result) }
    {
        let SectorFreeing { sd, stage } = self;
        match stage {
            Stage::Looking(from) => look_on(sd, from, host, disk),
            Stage::Listing(slot, lease, after) => list_on(sd, slot, lease, after, host, disk),
            Stage::Syncing(slot, lease, name) => sync_on(sd, slot, lease, name, host, disk),
            Stage::Freeing(slot, lease) => free_on(sd, slot, lease, host, disk),
        }
    }
}
