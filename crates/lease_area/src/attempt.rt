// One exchange that takes a sector, where it may be taken.
ghost use Rattle.std.specs.Prelude.{◌≡◌, ◌≢◌, ◌≤◌, ◌+◌, ◌-◌, ◌^◌, Some, min, MatchResult, IfOk, IfSome};
ghost use Rattle.shared_disk.specs.Calls.{Told};
ghost use Rattle.lease_area.specs.Attempt.{IsNotTaken, attempt_answer, attempted};
ghost use Rattle.lease_area.specs.Hold.{ByOneExchange, domain_of, record_of, slot_of};
ghost use Rattle.lease_area.specs.Move.{next_sector};
ghost use Rattle.lease_area.specs.declared.sector.Kind.TheVariants.{Free};

use crate::exchange::exchange_sector;
use crate::{Lease, LeaseRecord, Sector};
use sd_names::{HostId, Id, Refusal};
use shared_disk::{Exchanged, SharedDisk, refusal_for};

/// Why a sector wasn't taken.
#[derive(Clone, Copy, Debug)]
pub(crate) enum NotTaken {
    /// This stands there, where it is a sector.
    Found(Option<Sector>),
    /// The disk did nothing, or failed.
    Refused(Refusal),
}

/// Exchanges the expected sector for the new lease; for itself where there is none.
pub(crate) fn attempt<D: SharedDisk>(
    host: HostId,
    sd: Id,
    slot: u16,
    expect: &Sector,
    new: Option<LeaseRecord>,
    disk: &mut D,
) -> Result<Lease, NotTaken>
    requires { IfSome new (λ r. r.kind ≢ Free) }
    ensures no_less { D.faults disk.old ≤ D.faults disk.new }
    ensures counted { D.calls disk.new ≡ min (D.calls disk.old + 1) (2 ^ 64 - 1) }
    ensures cause { MatchResult result (λ _. D.faults disk.new ≡ D.faults disk.old) (IsNotTaken (D.faults disk.old) (D.faults disk.new)) }
    ensures lease { IfOk result (λ lease. (domain_of lease ≡ sd) × (slot_of lease ≡ slot) × (new ≡ Some (record_of lease))) }
    ensures exchange { Told (D.content disk.old) (D.content disk.new) (λ d e. ByOneExchange host sd slot expect.now (next_sector new expect.now) (attempt_answer new expect.now (D.faults disk.new)) (attempted result) d e) }
{
    let next = next_sector(new, expect);
    match exchange_sector(host, sd, slot, expect, &next, disk) {
        Ok(exchanged) => match exchanged {
            Exchanged::Done => match &new {
                Some(record) => Ok(Lease {
                    sd,
                    slot,
                    record: *record,
                }),
                None => Err(NotTaken::Found(Some(*expect))),
            },
            Exchanged::Found(found) => Err(NotTaken::Found(Sector::read(&found))),
        },
        Err(answer) => Err(NotTaken::Refused(refusal_for(answer, disk))),
    }
}

// What the exchange puts there: the new lease, or the expected sector for itself.
fn next_sector(new: Option<LeaseRecord>, expect: &Sector) -> Sector
    ensures { result ≡ next_sector new expect.now }
{
    match new {
        Some(record) => Sector::Lease(record),
        None => *expect,
    }
}
