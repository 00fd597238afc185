// The exchange of a sector of the leases file.
ghost use Rattle.std.specs.Prelude.{◌≡◌, ℕ, ◌+◌, ◌-◌, ◌^◌, min};
ghost use Rattle.shared_disk.specs.Calls.{HasCause, Told};
ghost use Rattle.shared_disk.specs.SectorCalls.{Exchanges};
ghost use Rattle.lease_area.specs.Hold.{leases_of};
ghost use Rattle.lease_area.specs.Sector.{sector_bytes};

use crate::Sector;
use sd_names::{Dir, HostId, Id, Name, Place};
use shared_disk::{DiskAnswer, Exchanged, SharedDisk};

/// The leases file of a domain.
pub(crate) fn leases_file(sd: Id) -> Place
    ensures { result ≡ leases_of sd }
{
    Place {
        dir: Dir::DomMd(sd),
        name: Name::Leases,
    }
}

/// Exchanges a sector of a domain's leases file for another one.
pub(crate) fn exchange_sector<D: SharedDisk>(
    host: HostId,
    sd: Id,
    slot: u16,
    expect: &Sector,
    next: &Sector,
    disk: &mut D,
) -> Result<Exchanged, DiskAnswer>
    ensures cause { HasCause (D.faults disk.old) (D.faults disk.new) result }
    ensures counted { D.calls disk.new ≡ min (D.calls disk.old + 1) (2 ^ 64 - 1) }
    ensures call { Told (D.content disk.old) (D.content disk.new) (λ d e. Exchanges d host (leases_of sd) slot (sector_bytes expect.now) (sector_bytes next.now) result e) }
{
    let (expect, next) = (expect.write(), next.write());
    disk.exchange(host, leases_file(sd), u64::from(slot), &expect, &next)
}
