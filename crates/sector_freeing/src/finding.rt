// The least sector that is held for a task, in what was read of the leases file.
ghost use Rattle.std.specs.Prelude.{◌≡◌, ◌<◌, ◌≤◌, ◌+◌, ℕ, IfSome, Some};
ghost use Rattle.shared_disk.specs.Content.{sector_of};
ghost use Rattle.lease_area.specs.Sector.{sector_in};
ghost use Rattle.sector_freeing.specs.Finding.{IsTaskSlot, least_task, task_at, task_lease};

use lease_area::{Kind, LeaseRecord, Sector};

/// How many bytes a step reads.
pub(crate) const PIECE: usize = 65536;

// A sector of what was read.
fn sector(room: &[u8; PIECE], k: usize) -> [u8; 512]
    requires { k < 128 }
    ensures { result ≡ sector_of room.now k }
{
    let mut sector = [0; 512];
    sector.copy_from_slice(&room[512 * k..512 * k + 512]);
    sector
}

// The lease of a sector that is held for a task.
fn task_of(sector: Sector) -> Option<LeaseRecord>
    ensures { result ≡ task_lease (Some sector) }
{
    match sector {
        Sector::Lease(lease) => match lease.kind {
            Kind::Task => Some(lease),
            Kind::Free | Kind::Guest => None,
        },
        Sector::Empty => None,
    }
}

// The same of a sector with these bytes.
fn task_lease(bytes: &[u8; 512]) -> Option<LeaseRecord>
    ensures { result ≡ task_lease (sector_in bytes.now) }
{
    match Sector::read(bytes) {
        Some(sector) => task_of(sector),
        None => None,
    }
}

// The same with the sector's number, from this one on.
fn task_at(from: u16, slot: u16, bytes: &[u8; 512]) -> Option<(u16, LeaseRecord)>
    ensures { result ≡ task_at from slot (sector_in bytes.now) }
{
    if slot < from {
        return None;
    }
    match task_lease(bytes) {
        Some(lease) => Some((slot, lease)),
        None => None,
    }
}

/// The least of the first `count` sectors of what was read from the sector `base` on that is held for a task, from the sector
/// `from` on.
pub(crate) fn least_task(
    from: u16,
    base: u16,
    room: &[u8; PIECE],
    count: usize,
) -> Option<(u16, LeaseRecord)>
    requires some { 0 < from }
    requires within { base + 128 ≤ 1024 }
    requires few { count ≤ 128 }
    ensures least { result ≡ least_task from base room.now count }
    ensures fits { IfSome result (IsTaskSlot from) }
{
    let mut found = None;
    for k in 0..count {
        let here = task_at(from, base + k as u16, &sector(room, k));
        found = found.or(here);
    }
    found
}
