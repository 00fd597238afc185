// Which hosts may take a lease over.
ghost use Rattle.std.specs.Prelude.{◌≡◌, ◌≤◌};
ghost use Rattle.lease_area.specs.Move.{is_open, may_take};

use crate::Kind;
use sd_names::{HostId, UpSet};

/// Whether a host may take over from an owner, 0 to 250: from nobody, which is 0, from itself, or from a host that isn't up.
pub fn is_open(up: &UpSet, host: HostId, owner: u8) -> bool
    requires { owner ≤ 250 }
    ensures { result ≡ is_open up.now host owner }
{
    match HostId::new(u64::from(owner)) {
        Some(other) => other.get() == host.get() || !up.has(other),
        None => true,
    }
}

/// Whether a host may take an image's lease of this kind and owner.
pub(crate) fn may_take(up: &UpSet, host: HostId, kind: Kind, owner: u8) -> bool
    requires { owner ≤ 250 }
    ensures { result ≡ may_take up.now host kind owner }
{
    match kind {
        Kind::Free => true,
        Kind::Guest => is_open(up, host, owner),
        Kind::Task => false,
    }
}
