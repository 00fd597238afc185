// What a sector becomes once a host took it.
ghost use Rattle.std.specs.Prelude.{◌≡◌, ◌≢◌, IfSome};
ghost use Rattle.lease_area.specs.Move.{image_taken, made_by, role_taken, taken_by};
ghost use Rattle.lease_area.specs.declared.sector.Kind.TheVariants.{Free, Guest};

use crate::rights::{is_open, may_take};
use crate::{Kind, LeaseRecord, Sector};
use sd_names::{HostId, Id, UpSet};

/// The last version of a lease, which stays.
const LAST_VERSION: u64 = (1 << 63) - 1;

// A lease once a host took it.
fn taken_by(host: HostId, kind: Kind, sector: &Sector) -> LeaseRecord
    requires { kind ≢ Free }
    ensures { result ≡ taken_by host kind sector.now }
{
    let owner = host.get();
    LeaseRecord {
        kind,
        owner,
        version: LAST_VERSION.min(sector.version() + 1),
        image: sector.image(),
    }
}

/// Sector 0 once the host took it, where it may.
pub(crate) fn role_taken(up: &UpSet, host: HostId, sector: &Sector) -> Option<LeaseRecord>
    ensures exact { result ≡ role_taken up.now host sector.now }
    ensures held { IfSome result (λ r. (r.owner ≡ host) × (r.kind ≡ Guest)) }
{
    if is_open(up, host, sector.owner()) {
        Some(taken_by(host, Kind::Guest, sector))
    } else {
        None
    }
}

/// An image's sector once the host took it, where it may.
pub(crate) fn image_taken(
    up: &UpSet,
    host: HostId,
    kind: Kind,
    image: Id,
    sector: &Sector,
) -> Option<LeaseRecord>
    requires { kind ≢ Free }
    ensures exact { result ≡ image_taken up.now host kind image sector.now }
    ensures held { IfSome result (λ r. (r.owner ≡ host) × (r.kind ≡ kind)) }
{
    match sector {
        Sector::Empty => match kind {
            Kind::Task => Some(made_by(host, image)),
            Kind::Free | Kind::Guest => None,
        },
        Sector::Lease(record) => {
            if record.image == image && may_take(up, host, record.kind, record.owner) {
                Some(taken_by(host, kind, sector))
            } else {
                None
            }
        }
    }
}

// The lease of a new image, held for a task.
fn made_by(host: HostId, image: Id) -> LeaseRecord
    ensures { result ≡ made_by host image }
{
    let owner = host.get();
    LeaseRecord {
        kind: Kind::Task,
        owner,
        version: 1,
        image,
    }
}
