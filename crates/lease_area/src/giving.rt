// Giving a sector up, and ending the lease of a task.
ghost use Rattle.std.specs.Prelude.{◌≡◌, ◌≢◌, ◌<◌, ◌+◌, ◌-◌, ◌^◌, ℕ, List, min, true, IfErr};
ghost use Rattle.sd_names.specs.UpSet.{Hosts};
ghost use Rattle.shared_disk.specs.Calls.{Told};
ghost use Rattle.shared_disk.specs.Step.{ResultCounts};
ghost use Rattle.lease_area.specs.Hold.{ByOneExchange, GivesUp, IsGivingRefusal, Stands, giving_answer};
ghost use Rattle.lease_area.specs.Move.{LeaseMove, freed};
ghost use Rattle.lease_area.specs.declared.sector.Sector.TheVariants.{Empty, Lease as OfImage};

use crate::exchange::exchange_sector;
use crate::refusal::found_refusal;
use crate::{Kind, LeaseRecord, Sector};
use sd_names::{HostId, Id, Refusal};
use shared_disk::{Exchanged, SharedDisk, refusal_for};

/// Frees the sector of a lease that is held for a task, whoever held it: for the manager of the pool, when it recovers what
/// another one left. Version and image stay. 41 with what stands there where that isn't this lease. One call of the disk.
pub fn free_task<D: SharedDisk>(
    host: HostId,
    sd: Id,
    slot: u16,
    task: LeaseRecord,
    disk: &mut D,
) -> Result<(), Refusal>
    requires slot { slot < 1024 }
    requires image { slot ≢ 0 }
    requires task { task.kind ≡ Kind.Task }
    ensures counts { ResultCounts (D.faults disk.old) (D.faults disk.new) (D.calls disk.old) (D.calls disk.new) result }
    ensures counted { D.calls disk.new ≡ min (D.calls disk.old + 1) (2 ^ 64 - 1) }
    ensures refusals { IfErr result IsGivingRefusal }
    ensures content { Told (D.content disk.old) (D.content disk.new) (λ d e. (bytes : List ℕ) → Stands d sd slot bytes → GivesUp sd slot task (OfImage (freed task)) (D.faults disk.new) bytes result d e) }
    ensures exchange { Told (D.content disk.old) (D.content disk.new) (λ d e. ByOneExchange host sd slot (OfImage task) (OfImage (freed task)) (giving_answer (D.faults disk.new)) result d e) }
    ensures moves { (up : Hosts) → LeaseMove up host true slot (OfImage task) (OfImage (freed task)) }
{
    give_up(host, sd, slot, task, freed(task), disk)
}

/// Empties the sector of a lease that is held for a task, whoever held it, so that no image has it: for the manager of the
/// pool, when it recovers what another one left. 41 with what stands there where that isn't this lease. One call of the
/// disk.
pub fn empty_task<D: SharedDisk>(
    host: HostId,
    sd: Id,
    slot: u16,
    task: LeaseRecord,
    disk: &mut D,
) -> Result<(), Refusal>
    requires slot { slot < 1024 }
    requires image { slot ≢ 0 }
    requires task { task.kind ≡ Kind.Task }
    ensures counts { ResultCounts (D.faults disk.old) (D.faults disk.new) (D.calls disk.old) (D.calls disk.new) result }
    ensures counted { D.calls disk.new ≡ min (D.calls disk.old + 1) (2 ^ 64 - 1) }
    ensures refusals { IfErr result IsGivingRefusal }
    ensures content { Told (D.content disk.old) (D.content disk.new) (λ d e. (bytes : List ℕ) → Stands d sd slot bytes → GivesUp sd slot task Empty (D.faults disk.new) bytes result d e) }
    ensures exchange { Told (D.content disk.old) (D.content disk.new) (λ d e. ByOneExchange host sd slot (OfImage task) Empty (giving_answer (D.faults disk.new)) result d e) }
    ensures moves { (up : Hosts) → LeaseMove up host true slot (OfImage task) Empty }
{
    give_up(host, sd, slot, task, Sector::Empty, disk)
}

/// The sector of a lease that nobody holds any more.
pub(crate) fn freed(held: LeaseRecord) -> Sector
    ensures { result ≡ OfImage (freed held) }
{
    Sector::Lease(LeaseRecord {
        kind: Kind::Free,
        owner: 0,
        version: held.version,
        image: held.image,
    })
}

/// Exchanges the sector of a lease for the next one.
pub(crate) fn give_up<D: SharedDisk>(
    host: HostId,
    sd: Id,
    slot: u16,
    old: LeaseRecord,
    next: Sector,
    disk: &mut D,
) -> Result<(), Refusal>
    ensures counts { ResultCounts (D.faults disk.old) (D.faults disk.new) (D.calls disk.old) (D.calls disk.new) result }
    ensures counted { D.calls disk.new ≡ min (D.calls disk.old + 1) (2 ^ 64 - 1) }
    ensures refusals { IfErr result IsGivingRefusal }
    ensures content { Told (D.content disk.old) (D.content disk.new) (λ d e. (bytes : List ℕ) → Stands d sd slot bytes → GivesUp sd slot old next (D.faults disk.new) bytes result d e) }
    ensures exchange { Told (D.content disk.old) (D.content disk.new) (λ d e. ByOneExchange host sd slot (OfImage old) next (giving_answer (D.faults disk.new)) result d e) }
{
    match exchange_sector(host, sd, slot, &Sector::Lease(old), &next, disk) {
        Ok(exchanged) => match exchanged {
            Exchanged::Done => Ok(()),
            Exchanged::Found(found) => Err(found_refusal(&found)),
        },
        Err(answer) => Err(refusal_for(answer, disk)),
    }
}
