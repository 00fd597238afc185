// The unsynced writes of a memory disk, the oldest first.
ghost use Rattle.std.specs.Prelude.{◌≡◌, ◌<◌, ◌≤◌, ◌+◌, ◌==◌, ◌&&◌, ℕ, Some, None, IsTrue, length, vec_len, vec_capacity, if◌then◌else◌};
ghost use Rattle.shared_disk.specs.Content.{own_of};
ghost use Rattle.memory_disk.specs.Sectors.{sector_at, kept_count, kept_room};
ghost use Rattle.memory_disk.specs.Cells.{key_eq};
ghost use Rattle.memory_disk.specs.Leaving.{is_leaving, key_of, left_of};
ghost use Rattle.memory_disk.specs.Store.{apart_of, is_at, is_by, loose_of, others_of, or_else};

use crate::entry::Write;
use crate::sector_map::{MEDIUM, Sectors};
use sd_names::HostId;

/// Whether a write is by a host in a file.
pub(crate) fn is_of(write: &Write, host: HostId, number: usize) -> bool
    ensures { result ≡ is_by host number write.now }
{
    write.host.get() == host.get() && write.file == number
}

// Puts a write onto the medium, where it is by a host in a file.
fn settle_write(write: &Write, stable: &mut Sectors, host: HostId, number: usize)
    requires { kept_count stable.old < kept_room stable.old }
    ensures at { (n k : ℕ) → sector_at stable.new 0 n k ≡ (if (is_by host number write.now && number == n) && write.now.sector == k then Some write.now.bytes else sector_at stable.old 0 n k) }
    ensures count { kept_count stable.new ≤ kept_count stable.old + (if is_by host number write.now then 1 else 0) }
    ensures room { kept_room stable.old ≤ kept_room stable.new }
{
    if is_of(write, host, number) {
        stable.put(MEDIUM, number, write.sector, &write.bytes);
    }
}

/// Puts the writes of a file by a host onto the medium.
pub(crate) fn settle(log: &[Write], stable: &mut Sectors, host: HostId, number: usize)
    requires { kept_count stable.old + length log.now ≤ kept_room stable.old }
    ensures at { (n k : ℕ) → sector_at stable.new 0 n k ≡ (if number == n then or_else (own_of host k (loose_of number log.now)) (sector_at stable.old 0 n k) else sector_at stable.old 0 n k) }
    ensures count { kept_count stable.new + length (others_of host number log.now) ≤ kept_count stable.old + length log.now }
    ensures room { kept_room stable.old ≤ kept_room stable.new }
{
    for write in log {
        settle_write(write, stable, host, number);
    }
}

// Whether a write is of a sector of a file.
fn is_at_sector(write: &Write, number: usize, sector: u64) -> bool
    ensures { result ≡ is_at number sector write.now }
{
    write.file == number && write.sector == sector
}

/// Whether a write of the sector waits.
pub(crate) fn is_waiting(log: &[Write], number: usize, sector: u64) -> bool
    ensures { IsTrue result → length (apart_of number sector log.now) < length log.now }
{
    for write in log {
        if is_at_sector(write, number, sector) {
            return true;
        }
    }
    false
}

/// Unsynced writes that leave the log together.
#[derive(Clone, Copy)]
pub(crate) enum Leaving {
    /// Those by a host in a file.
    ByHostInFile(HostId, usize),
    /// Those in a file.
    InFile(usize),
    /// Those of a sector of a file.
    OfSector(usize, u64),
    /// Those by a host.
    ByHost(HostId),
}

// Whether a write is one of those that leave.
fn leaves(write: &Write, leaving: &Leaving) -> bool
    ensures { result ≡ is_leaving leaving.now (key_of write.now) }
{
    match leaving {
        Leaving::ByHostInFile(host, number) => is_of(write, *host, *number),
        Leaving::InFile(number) => write.file == *number,
        Leaving::OfSector(number, sector) => is_at_sector(write, *number, *sector),
        Leaving::ByHost(host) => write.host.get() == host.get(),
    }
}

// Keeps a host's last write of a sector no more, where this is a write of that sector which leaves.
fn disown_write(write: &Write, own: &mut Sectors, leaving: &Leaving)
    ensures at { (h n k : ℕ) → sector_at own.new h n k ≡ (if is_leaving leaving.now (key_of write.now) && key_eq (key_of write.now) (h, n, k) then None else sector_at own.old h n k) }
    ensures room { kept_room own.new ≡ kept_room own.old }
{
    if leaves(write, leaving) {
        own.take(write.host.get(), write.file, write.sector);
    }
}

// Keeps the last writes of sectors no more that leave.
fn disown(log: &[Write], own: &mut Sectors, leaving: &Leaving)
    requires { (h n k : ℕ) → sector_at own.old h n k ≡ own_of h k (loose_of n log.now) }
    ensures at { (h n k : ℕ) → sector_at own.new h n k ≡ own_of h k (loose_of n (left_of leaving.now log.now)) }
    ensures count { kept_count own.new ≤ length (left_of leaving.now log.now) }
    ensures room { kept_room own.new ≡ kept_room own.old }
{
    for write in log {
        disown_write(write, own, leaving);
    }
}

/// Takes writes out of the log. `own` keeps the last write of each sector by each host, before and after.
pub(crate) fn forget(log: &mut Vec<Write>, own: &mut Sectors, leaving: Leaving)
    requires { (h n k : ℕ) → sector_at own.old h n k ≡ own_of h k (loose_of n log.old.items) }
    ensures items { log.new.items ≡ left_of leaving log.old.items }
    ensures capacity { vec_capacity log.new ≡ vec_capacity log.old }
    ensures at { (h n k : ℕ) → sector_at own.new h n k ≡ own_of h k (loose_of n log.new.items) }
    ensures count { kept_count own.new ≤ vec_len log.new }
    ensures room { kept_room own.new ≡ kept_room own.old }
{
    disown(log, own, &leaving);
    log.retain(|write| !leaves(write, &leaving));
}
