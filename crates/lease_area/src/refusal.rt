// Why a sector isn't taken or given up.
ghost use Rattle.std.specs.Prelude.{◌≡◌, ℕ};
ghost use Rattle.lease_area.specs.Hold.{IsImageRefusal, IsRoleRefusal, found_refusal, image_refusal, role_refusal};
ghost use Rattle.shared_disk.specs.Refusal.{IsRisen};

use crate::Sector;
use crate::rights::{is_open, may_take};
use sd_names::{HostId, Id, Refusal, UpSet};

/// Why an image's sector isn't taken: by what stands in it.
pub(crate) fn image_refusal(up: &UpSet, host: HostId, image: Id, found: Option<Sector>) -> Refusal
    ensures exact { result ≡ image_refusal up.now host image found }
    ensures which { IsImageRefusal result }
    ensures no_fault { (before after : ℕ) → after ≡ before → IsRisen before after result }
{
    match &found {
        Some(Sector::Lease(record)) => {
            if record.image == image {
                if may_take(up, host, record.kind, record.owner) {
                    Refusal::ImageHeld(host.get())
                } else {
                    Refusal::ImageHeld(record.owner)
                }
            } else {
                Refusal::NoImage
            }
        }
        Some(Sector::Empty) | None => Refusal::NoImage,
    }
}

/// Why sector 0 isn't taken: by what stands in it, and what was expected there.
pub(crate) fn role_refusal(
    up: &UpSet,
    host: HostId,
    expect: &Sector,
    found: Option<Sector>,
) -> Refusal
    ensures exact { result ≡ role_refusal up.now host expect.now found }
    ensures which { IsRoleRefusal result }
    ensures no_fault { (before after : ℕ) → after ≡ before → IsRisen before after result }
{
    let found = match found {
        Some(found) => found,
        None => return Refusal::LeaseCorrupt(0),
    };
    let (owner, version) = (found.owner(), found.version());
    if !is_open(up, host, owner) {
        return Refusal::SpmHeld(owner, version);
    }
    if owner != expect.owner() {
        return Refusal::PrevMismatch(expect.owner(), owner);
    }
    if version != expect.version() {
        return Refusal::LverMismatch(expect.version(), version);
    }
    Refusal::SpmHeld(host.get(), version)
}

/// That another sector than a lease's own was found: its owner and version.
pub(crate) fn found_refusal(found: &[u8; 512]) -> Refusal
    ensures { result ≡ found_refusal found.now }
{
    match Sector::read(found) {
        Some(sector) => Refusal::SpmHeld(sector.owner(), sector.version()),
        None => Refusal::SpmHeld(0, 0),
    }
}
