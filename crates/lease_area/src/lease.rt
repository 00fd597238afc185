// A lease that is held, and giving it up.
ghost use Rattle.std.specs.Prelude.{◌≡◌, ◌≢◌};
ghost use Rattle.lease_area.specs.declared.sector.Kind.TheVariants.{Free};
ghost use Rattle.shared_disk.specs.Calls.{Told};

use crate::giving::{freed, give_up};
use crate::{Kind, LeaseRecord, Sector};
use sd_names::{HostId, Id, Refusal};
use shared_disk::SharedDisk;

/// A lease that a host took. It can't be dropped: it is spent by `release`, by `clear`, or by `lost`.
#[derive(Debug)]
pub struct Lease {
    pub(crate) sd: Id,
    pub(crate) slot: u16,
    pub(crate) record: LeaseRecord,
    ghost held: { record.kind ≢ Free },
}

impl Lease {
    ghost use Rattle.std.specs.Prelude.{ℕ, ◌+◌, ◌-◌, ◌^◌, IfErr, List, min, true};
    ghost use Rattle.sd_names.specs.UpSet.{Hosts};
    ghost use Rattle.shared_disk.specs.Step.{ResultCounts};
    ghost use Rattle.lease_area.specs.Move.{LeaseMove, freed, is_task};
    ghost use Rattle.lease_area.specs.declared.sector.Sector.TheVariants.{Empty, Lease as OfImage};
    ghost use Rattle.lease_area.specs.Hold.{ByOneExchange, GivesUp, IsGivingRefusal, Stands, domain_of, giving_answer, record_of, slot_of};

    /// The sector's number.
    pub fn slot(&self) -> u16
        ensures { result ≡ slot_of self.now }
    {
        self.slot
    }

    /// What the sector holds.
    pub fn record(&self) -> LeaseRecord
        ensures { result ≡ record_of self.now }
    {
        self.record
    }

    /// Spends the lease without a call of the disk, and leaves its sector: for a caller that was told that the sector isn't
    /// its any more, as by another host, or because its host went down; or that doesn't know after a fault what stands there.
    pub fn lost(self) {
        let Lease {
            sd: _,
            slot: _,
            record: _,
        } = self;
    }

    /// Gives the lease up: the sector is free, with its version and its image. 41 with what stands there where that isn't
    /// the lease's own sector. The host is the one that took it. One call of the disk.
    pub fn release<D: SharedDisk>(self, host: HostId, disk: &mut D) -> Result<(), Refusal>
        requires own { (record_of self).owner ≡ host }
        ensures counts { ResultCounts (D.faults disk.old) (D.faults disk.new) (D.calls disk.old) (D.calls disk.new) result }
        ensures counted { D.calls disk.new ≡ min (D.calls disk.old + 1) (2 ^ 64 - 1) }
        ensures refusals { IfErr result IsGivingRefusal }
        ensures content { Told (D.content disk.old) (D.content disk.new) (λ d e. (bytes : List ℕ) → Stands d (domain_of self) (slot_of self) bytes → GivesUp (domain_of self) (slot_of self) (record_of self) (OfImage (freed (record_of self))) (D.faults disk.new) bytes result d e) }
        ensures exchange { Told (D.content disk.old) (D.content disk.new) (λ d e. ByOneExchange host (domain_of self) (slot_of self) (OfImage (record_of self)) (OfImage (freed (record_of self))) (giving_answer (D.faults disk.new)) result d e) }
        ensures moves { (up : Hosts) → LeaseMove up host (is_task (record_of self).kind) (slot_of self) (OfImage (record_of self)) (OfImage (freed (record_of self))) }
    {
        let (sd, slot, record) = self.parts();
        give_up(host, sd, slot, record, freed(record), disk)
    }

    /// Gives the lease of a task up and empties its sector, so that no image has it. 41 with what stands there where that
    /// isn't the lease's own sector. One call of the disk.
    pub fn clear<D: SharedDisk>(self, host: HostId, disk: &mut D) -> Result<(), Refusal>
        requires own { (record_of self).owner ≡ host }
        requires task { (record_of self).kind ≡ Kind.Task }
        requires image { slot_of self ≢ 0 }
        ensures counts { ResultCounts (D.faults disk.old) (D.faults disk.new) (D.calls disk.old) (D.calls disk.new) result }
        ensures counted { D.calls disk.new ≡ min (D.calls disk.old + 1) (2 ^ 64 - 1) }
        ensures refusals { IfErr result IsGivingRefusal }
        ensures content { Told (D.content disk.old) (D.content disk.new) (λ d e. (bytes : List ℕ) → Stands d (domain_of self) (slot_of self) bytes → GivesUp (domain_of self) (slot_of self) (record_of self) Empty (D.faults disk.new) bytes result d e) }
        ensures exchange { Told (D.content disk.old) (D.content disk.new) (λ d e. ByOneExchange host (domain_of self) (slot_of self) (OfImage (record_of self)) Empty (giving_answer (D.faults disk.new)) result d e) }
        ensures moves { (up : Hosts) → LeaseMove up host true (slot_of self) (OfImage (record_of self)) Empty }
    {
        let (sd, slot, record) = self.parts();
        give_up(host, sd, slot, record, Sector::Empty, disk)
    }

    // The domain, the sector's number, and what it holds.
    fn parts(self) -> (Id, u16, LeaseRecord)
        ensures domain { result.0 ≡ domain_of self }
        ensures slot { result.1 ≡ slot_of self }
        ensures holds { result.2 ≡ record_of self }
    {
        let Lease { sd, slot, record } = self;
        (sd, slot, record)
    }
}
