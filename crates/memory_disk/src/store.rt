// The folders, files and sectors of a memory disk, in room that is taken at once.
ghost use Rattle.std.specs.Prelude.{◌≡◌, ◌≢◌, ℕ, ◌+◌, ◌-◌, ◌*◌, ◌/◌, ◌<◌, ◌≤◌, ◌↔◌, ◌++◌, ◌∷◌, ◌==◌, true, false, [], if◌then◌else◌, Some, None, Ok, Err, IsTrue, Bool, IfOk, IfErr, OnOk, OnErr, length, drop, unwrap_or, vec_len, vec_capacity};
ghost use Rattle.std.proofs.Props.{props};
ghost use Rattle.sd_names.specs.declared.place.Dir.TheVariants.{Root};
ghost use Rattle.shared_disk.specs.Content.{writes, own_of, sector_of, zero_sector};
ghost use Rattle.shared_disk.specs.Calls.{IsAligned, IsPiece, ReadAt, WriteAt, Syncs, Creates, HasLength, MakesDir};
ghost use Rattle.memory_disk.specs.Sectors.{sector_at, kept_count, kept_room};
ghost use Rattle.memory_disk.specs.Store.{AreHoused, IsLogWithin, IsStableWithin, has_dir, loose_of, others_of, or_else, slot, slot_size};

use crate::entry::{FileEntry, Write};
use crate::files::{Files, synced_entry};
use crate::log::{Leaving, forget, settle};
use crate::sector_map::{MEDIUM, Sectors};
use sd_names::{Dir, HostId, Place};
use shared_disk::DiskAnswer;
use std::alloc::{AllocError, Global};

mod down;
mod names;
mod placing;
mod sectors;

/// Folders, files, stable sectors and unsynced writes. Each of them is one unit, but for the root, and there is room
/// for a fixed count of units.
#[derive(Drop)]
pub(crate) struct Store {
    room: usize,
    dirs: Vec<Dir>,
    files: Files,
    // What is on the medium.
    stable: Sectors,
    // The last unsynced write of each sector by each host.
    own: Sectors,
    // The unsynced writes, the oldest first.
    log: Vec<Write>,
    ghost dirs_room: { room ≤ vec_capacity dirs },
    ghost files_room: { room ≤ vec_capacity files.slots },
    ghost log_room: { room ≤ vec_capacity log },
    ghost stable_room: { room ≤ kept_room stable },
    ghost own_room: { room ≤ kept_room own },
    ghost used: { vec_len dirs + files.count + kept_count stable + vec_len log ≤ room },
    ghost own_fits: { kept_count own ≤ vec_len log },
    ghost own_is: { (h n k : ℕ) → sector_at own h n k ≡ own_of h k (loose_of n log.items) } by { Prim.hlevel props },
    ghost stable_within: { IsStableWithin files.slots.items stable } by { Prim.hlevel props },
    ghost log_within: { IsLogWithin files.slots.items log.items } by { Prim.hlevel props },
    ghost housed: { AreHoused dirs.items files.slots.items } by { Prim.hlevel props },
}

// The folders that were made and the root.
fn is_dir(dirs: &[Dir], dir: Dir) -> bool
    ensures { result ≡ has_dir dirs.now dir }
{
    if dir.is(&Dir::Root) {
        return true;
    }
    for made in dirs {
        if made.is(&dir) {
            return true;
        }
    }
    false
}

// A sector of some bytes.
fn sector(bytes: &[u8], k: usize) -> [u8; 512]
    requires { 512 * (k + 1) ≤ length bytes.now }
    ensures { result ≡ sector_of bytes.now k }
{
    let mut sector = [0; 512];
    sector.copy_from_slice(&bytes[512 * k..512 * k + 512]);
    sector
}

// Puts a sector among some bytes.
fn put_sector(into: &mut [u8], k: usize, bytes: &[u8; 512])
    requires { 512 * (k + 1) ≤ length into.old }
    ensures here { sector_of into.new k ≡ bytes.now }
    ensures others { (i : ℕ) → i < k → sector_of into.new i ≡ sector_of into.old i }
    ensures rest { drop (512 * (k + 1)) into.new ≡ drop (512 * (k + 1)) into.old }
{
    into[512 * k..512 * k + 512].copy_from_slice(bytes);
}

impl Store {
    ghost use Rattle.memory_disk.specs.Held.{held, units};

    /// Nothing, with room for so many units.
    pub(crate) fn new(alloc: Global, room: usize) -> Result<Store, AllocError>
        ensures dirs { IfOk result (λ s. s.dirs.items ≡ []) }
        ensures files { IfOk result (λ s. s.files.slots.items ≡ []) }
        ensures room { IfOk result (λ s. s.room ≡ room) }
        ensures units { IfOk result (λ s. units s ≡ 0) }
    {
        Ok(Store {
            room,
            dirs: Vec::with_capacity(alloc, room)?,
            files: Files::new(alloc, room)?,
            stable: Sectors::new(alloc, room)?,
            own: Sectors::new(alloc, room)?,
            log: Vec::with_capacity(alloc, room)?,
        })
    }

    /// How many units are used.
    pub(crate) fn used(&self) -> usize
        ensures { result ≡ units self.now }
    {
        self.dirs.len() + self.files.len() + self.stable.len() + self.log.len()
    }

    // Whether there is room for so many more units.
    fn has_room(&self, more: usize) -> bool
        ensures { IsTrue result ↔ (units self.now + more ≤ self.now.room) }
    {
        more <= self.room - self.used()
    }

    pub(crate) fn make_dir(&mut self, dir: Dir) -> Result<(), DiskAnswer>
        requires { dir ≢ Root }
        ensures call { MakesDir (held self.old) dir result (held self.new) }
        ensures failed { result ≡ Err DiskAnswer.Failed → self.old.room < units self.old + 1 }
        ensures units { OnOk result (units self.new ≡ units self.old + 1) }
        ensures kept { OnErr result (self.new ≡ self.old) }
        ensures room { self.new.room ≡ self.old.room }
    {
        if !is_dir(&self.dirs, dir.parent()) {
            return Err(DiskAnswer::NoFile);
        }
        if is_dir(&self.dirs, dir) {
            return Err(DiskAnswer::Exists);
        }
        if !self.has_room(1) {
            return Err(DiskAnswer::Failed);
        }
        self.dirs.push_reserved(dir);
        Ok(())
    }

    pub(crate) fn length(&self, place: Place) -> Result<u64, DiskAnswer>
        ensures call { HasLength (held self.now) place result (held self.now) }
        ensures failed { result ≢ Err DiskAnswer.Failed }
    {
        match self.files.find(place) {
            Some((_, file)) => Ok(512 * file.size),
            None => Err(DiskAnswer::NoFile),
        }
    }

    pub(crate) fn create(
        &mut self,
        host: HostId,
        place: Place,
        length: u64,
    ) -> Result<(), DiskAnswer>
        requires { IsAligned length }
        ensures call { Creates (held self.old) host place (length / 512) result (held self.new) }
        ensures failed { result ≡ Err DiskAnswer.Failed → self.old.room < units self.old + 1 }
        ensures units { OnOk result (units self.new ≡ units self.old + 1) }
        ensures kept { OnErr result (self.new ≡ self.old) }
        ensures room { self.new.room ≡ self.old.room }
    {
        if !is_dir(&self.dirs, place.dir) {
            return Err(DiskAnswer::NoFile);
        }
        if self.files.find(place).is_some() {
            return Err(DiskAnswer::Exists);
        }
        if !self.has_room(1) {
            return Err(DiskAnswer::Failed);
        }
        self.files.add(FileEntry {
            place,
            size: length / 512,
            fresh: Some(host),
        });
        Ok(())
    }

    // The bytes of a sector as a host sees it.
    fn seen(&self, host: HostId, number: usize, k: u64) -> [u8; 512]
        ensures { result ≡ unwrap_or (own_of host k (loose_of number self.now.log.items)) (unwrap_or (sector_at self.now.stable 0 number k) zero_sector) }
    {
        if let Some(bytes) = self.own.get(host.get(), number, k) {
            return bytes;
        }
        self.stable.get(MEDIUM, number, k).unwrap_or([0; 512])
    }

    pub(crate) fn read_at(
        &self,
        host: HostId,
        place: Place,
        at: u64,
        into: &mut [u8],
    ) -> Result<usize, DiskAnswer>
        requires aligned { IsAligned at }
        requires piece { IsPiece (length into.old) }
        ensures call { ReadAt (held self.now) host place (at / 512) into.old into.new result (held self.now) }
        ensures bound { IfOk result (λ count. count ≤ length into.old) }
        ensures failed { result ≢ Err DiskAnswer.Failed }
        ensures kept { OnErr result (into.new ≡ into.old) }
    {
        let (number, file) = match self.files.find(place) {
            Some(found) => found,
            None => return Err(DiskAnswer::NoFile),
        };
        let first = at / 512;
        let left = file.size.saturating_sub(first);
        let room = into.len() / 512;
        let count = if left < room as u64 {
            left as usize
        } else {
            room
        };
        for i in 0..count {
            put_sector(into, i, &self.seen(host, number, first + i as u64));
        }
        Ok(512 * count)
    }

    // Adds an unsynced write of a sector.
    fn write_sector(&mut self, host: HostId, number: usize, k: u64, bytes: [u8; 512])
        requires room { units self.old < self.old.room }
        requires there { k < slot_size (slot number self.old.files.slots.items) }
        ensures dirs { self.new.dirs ≡ self.old.dirs }
        ensures files { self.new.files ≡ self.old.files }
        ensures stable { self.new.stable ≡ self.old.stable }
        ensures log { (first : Bool) × (self.new.log.items ≡ self.old.log.items ++ record { host = host; file = number; sector = k; bytes = bytes; first = first } ∷ []) }
        ensures room { self.new.room ≡ self.old.room }
    {
        let first = self.own.get(host.get(), number, k).is_none();
        self.own.put(host.get(), number, k, &bytes);
        self.log.push_reserved(Write {
            host,
            file: number,
            sector: k,
            bytes,
            first,
        });
    }

    pub(crate) fn write_at(
        &mut self,
        host: HostId,
        place: Place,
        at: u64,
        bytes: &[u8],
    ) -> Result<(), DiskAnswer>
        requires aligned { IsAligned at }
        requires piece { IsPiece (length bytes.now) }
        ensures call { WriteAt (held self.old) host place (at / 512) bytes.now result (held self.new) }
        ensures failed { result ≡ Err DiskAnswer.Failed → self.old.room < units self.old + length bytes.now / 512 }
        ensures units { OnOk result (units self.new ≡ units self.old + length bytes.now / 512) }
        ensures kept { OnErr result (self.new ≡ self.old) }
        ensures room { self.new.room ≡ self.old.room }
    {
        let (number, file) = match self.files.find(place) {
            Some(found) => found,
            None => return Err(DiskAnswer::NoFile),
        };
        let first = at / 512;
        let count = bytes.len() / 512;
        if file.size < first + count as u64 {
            return Err(DiskAnswer::OutOfFile);
        }
        if !self.has_room(count) {
            return Err(DiskAnswer::Failed);
        }
        for i in 0..count {
            self.write_sector(host, number, first + i as u64, sector(bytes, i));
        }
        Ok(())
    }

    // Puts the writes of a file by a host onto the medium.
    fn settle(&mut self, host: HostId, number: usize)
        ensures dirs { self.new.dirs ≡ self.old.dirs }
        ensures files { self.new.files ≡ self.old.files }
        ensures stable { (n k : ℕ) → sector_at self.new.stable 0 n k ≡ (if number == n then or_else (own_of host k (loose_of number self.old.log.items)) (sector_at self.old.stable 0 n k) else sector_at self.old.stable 0 n k) }
        ensures log { self.new.log.items ≡ others_of host number self.old.log.items }
        ensures units { units self.new ≤ units self.old }
        ensures room { self.new.room ≡ self.old.room }
    {
        settle(&self.log, &mut self.stable, host, number);
        let leaving = Leaving::ByHostInFile(host, number);
        forget(&mut self.log, &mut self.own, leaving);
    }

    pub(crate) fn sync(&mut self, host: HostId, place: Place) -> Result<(), DiskAnswer>
        ensures call { Syncs (held self.old) host place result (held self.new) }
        ensures failed { result ≢ Err DiskAnswer.Failed }
        ensures units { OnOk result (units self.new ≤ units self.old) }
        ensures kept { OnErr result (self.new ≡ self.old) }
        ensures room { self.new.room ≡ self.old.room }
    {
        let (number, file) = match self.files.find(place) {
            Some(found) => found,
            None => return Err(DiskAnswer::NoFile),
        };
        self.settle(host, number);
        self.files.put(number, synced_entry(file, host));
        Ok(())
    }
}
