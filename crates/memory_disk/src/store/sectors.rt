// Calls of a store that change a file on the medium at once.
ghost use Rattle.std.specs.Prelude.{◌≡◌, ◌≢◌, ◌↔◌, ℕ, ◌+◌, ◌/◌, ◌^◌, ◌<◌, ◌≤◌, ◌==◌, ◌&&◌, max, Some, Err, IsTrue, IsFalse, IfOk, OnOk, OnErr, length, is_some, if◌then◌else◌};
ghost use Rattle.shared_disk.specs.Calls.{IsAligned};
ghost use Rattle.shared_disk.specs.SectorCalls.{Exchanges, Grows};
ghost use Rattle.memory_disk.specs.Sectors.{sector_at, kept_count};
ghost use Rattle.memory_disk.specs.Store.{apart_of, slot, slot_size};
ghost use Rattle.shared_disk.specs.declared.disk.Exchanged.TheVariants.{Found};

use super::Store;
use crate::entry::FileEntry;
use crate::log::{Leaving, forget, is_waiting};
use crate::sector_map::MEDIUM;
use sd_names::{HostId, Place};
use shared_disk::{DiskAnswer, Exchanged};

// A file's entry with at least so many sectors.
fn grown_entry(file: FileEntry, size: u64) -> FileEntry
    requires { size < 2 ^ 55 }
    ensures place { result.place ≡ file.place }
    ensures size { result.size ≡ max file.size size }
    ensures fresh { result.fresh ≡ file.fresh }
{
    FileEntry {
        place: file.place,
        size: if file.size < size { size } else { file.size },
        fresh: file.fresh,
    }
}

// Whether two sectors hold the same bytes.
fn is_same(one: &[u8; 512], other: &[u8; 512]) -> bool
    ensures { IsTrue result ↔ (one.now ≡ other.now) }
{
    one == other
}

impl Store {
    ghost use Rattle.memory_disk.specs.Held.{held, units};

    pub(crate) fn grow(&mut self, place: Place, length: u64) -> Result<(), DiskAnswer>
        requires { IsAligned length }
        ensures call { Grows (held self.old) place (length / 512) result (held self.new) }
        ensures failed { result ≢ Err DiskAnswer.Failed }
        ensures units { OnOk result (units self.new ≡ units self.old) }
        ensures kept { OnErr result (self.new ≡ self.old) }
        ensures room { self.new.room ≡ self.old.room }
    {
        match self.files.find(place) {
            Some((number, file)) => {
                self.files.put(number, grown_entry(file, length / 512));
                Ok(())
            }
            None => Err(DiskAnswer::NoFile),
        }
    }

    // Whether a sector may be put onto the medium once its unsynced writes are gone.
    fn has_sector_room(&self, number: usize, k: u64) -> bool
        ensures room { IsTrue result → kept_count self.now.stable + (if is_some (sector_at self.now.stable 0 number k) then 0 else 1) + length (apart_of number k self.now.log.items) + self.now.dirs.len + self.now.files.count ≤ self.now.room }
        ensures full { IsFalse result → self.now.room < units self.now + 1 }
    {
        self.has_room(1)
            || self.stable.get(MEDIUM, number, k).is_some()
            || is_waiting(&self.log, number, k)
    }

    // Puts a sector onto the medium, in place of its unsynced writes.
    fn put_stable(&mut self, number: usize, k: u64, bytes: &[u8; 512])
        requires there { k < slot_size (slot number self.old.files.slots.items) }
        requires room { kept_count self.old.stable + (if is_some (sector_at self.old.stable 0 number k) then 0 else 1) + length (apart_of number k self.old.log.items) + self.old.dirs.len + self.old.files.count ≤ self.old.room }
        ensures dirs { self.new.dirs ≡ self.old.dirs }
        ensures files { self.new.files ≡ self.old.files }
        ensures stable { (n j : ℕ) → sector_at self.new.stable 0 n j ≡ (if number == n && k == j then Some bytes.now else sector_at self.old.stable 0 n j) }
        ensures log { self.new.log.items ≡ apart_of number k self.old.log.items }
        ensures units { units self.new ≤ units self.old + 1 }
        ensures room { self.new.room ≡ self.old.room }
    {
        forget(&mut self.log, &mut self.own, Leaving::OfSector(number, k));
        self.stable.put(MEDIUM, number, k, bytes);
    }

    pub(crate) fn exchange(
        &mut self,
        host: HostId,
        place: Place,
        sector: u64,
        expect: &[u8; 512],
        next: &[u8; 512],
    ) -> Result<Exchanged, DiskAnswer>
        ensures call { Exchanges (held self.old) host place sector expect.now next.now result (held self.new) }
        ensures differs { IfOk result (λ answer. answer ≢ Found expect.now) }
        ensures failed { result ≡ Err DiskAnswer.Failed → self.old.room < units self.old + 1 }
        ensures units { OnOk result (units self.new ≤ units self.old + 1) }
        ensures kept { OnErr result (self.new ≡ self.old) }
        ensures room { self.new.room ≡ self.old.room }
    {
        let (number, file) = match self.files.find(place) {
            Some(found) => found,
            None => return Err(DiskAnswer::NoFile),
        };
        if file.size <= sector {
            return Err(DiskAnswer::OutOfFile);
        }
        let seen = self.seen(host, number, sector);
        if !is_same(&seen, expect) {
            return Ok(Exchanged::Found(seen));
        }
        if !self.has_sector_room(number, sector) {
            return Err(DiskAnswer::Failed);
        }
        self.put_stable(number, sector, next);
        Ok(Exchanged::Done)
    }
}
