// What a store puts onto the medium and tells of it, past all hosts.
ghost use Rattle.std.specs.Prelude.{◌≡◌, ◌≢◌, ℕ, ◌+◌, ◌-◌, ◌*◌, ◌/◌, ◌%◌, ◌^◌, ◌<◌, ◌≤◌, ◌==◌, ◌&&◌, true, [], Some, None, OnOk, OnErr, get_or, length, drop, unwrap_or, vec_capacity, if◌then◌else◌};
ghost use Rattle.shared_disk.specs.Calls.{IsAligned, IsDirPut, IsPut};
ghost use Rattle.shared_disk.specs.Content.{sector_of, zero_sector};
ghost use Rattle.memory_disk.specs.Placed.{IsPathMade, Places, Tells};
ghost use Rattle.memory_disk.specs.Sectors.{sector_at, kept_count, kept_room};
ghost use Rattle.memory_disk.specs.declared.entry.FileEntry.{FileEntry};
ghost use Rattle.memory_disk.specs.Store.{found, has_dir, loose_of, slot, slot_size};

use super::{Store, is_dir, sector};
use crate::entry::{FileEntry, Write};
use crate::files::Files;
use crate::sector_map::{MEDIUM, Sectors};
use sd_names::{Dir, Place};
use std::alloc::AllocError;

// Takes the memory for so many units.
fn reserve_units(
    room: usize,
    dirs: &mut Vec<Dir>,
    files: &mut Files,
    stable: &mut Sectors,
    own: &mut Sectors,
    log: &mut Vec<Write>,
) -> Result<(), AllocError>
    ensures dirs { dirs.new.items ≡ dirs.old.items }
    ensures slots { files.new.slots.items ≡ files.old.slots.items }
    ensures count { files.new.count ≡ files.old.count }
    ensures stable { (o f k : ℕ) → sector_at stable.new o f k ≡ sector_at stable.old o f k }
    ensures stable_count { kept_count stable.new ≡ kept_count stable.old }
    ensures own { (o f k : ℕ) → sector_at own.new o f k ≡ sector_at own.old o f k }
    ensures own_count { kept_count own.new ≡ kept_count own.old }
    ensures log { log.new.items ≡ log.old.items }
    ensures dirs_no_less { vec_capacity dirs.old ≤ vec_capacity dirs.new }
    ensures files_no_less { vec_capacity files.old.slots ≤ vec_capacity files.new.slots }
    ensures stable_no_less { kept_room stable.old ≤ kept_room stable.new }
    ensures own_no_less { kept_room own.old ≤ kept_room own.new }
    ensures log_no_less { vec_capacity log.old ≤ vec_capacity log.new }
    ensures dirs_room { OnOk result (room ≤ vec_capacity dirs.new) }
    ensures files_room { OnOk result (room ≤ vec_capacity files.new.slots) }
    ensures stable_room { OnOk result (room ≤ kept_room stable.new) }
    ensures own_room { OnOk result (room ≤ kept_room own.new) }
    ensures log_room { OnOk result (room ≤ vec_capacity log.new) }
{
    dirs.reserve(room)?;
    files.reserve(room)?;
    stable.reserve(room)?;
    own.reserve(room)?;
    log.reserve(room)
}

impl Store {
    ghost use Rattle.memory_disk.specs.Held.{held, units};

    // Takes room for so many more units.
    fn add_room(&mut self, more: usize) -> Result<(), AllocError>
        ensures content { held self.new ≡ held self.old }
        ensures units { units self.new ≡ units self.old }
        ensures room { OnOk result (self.new.room ≡ self.old.room + more) }
        ensures kept { OnErr result (self.new.room ≡ self.old.room) }
    {
        let room = match self.room.checked_add(more) {
            Some(room) => room,
            None => return Err(AllocError),
        };
        let answer = reserve_units(
            room,
            &mut self.dirs,
            &mut self.files,
            &mut self.stable,
            &mut self.own,
            &mut self.log,
        );
        let before = self.room;
        self.room = match answer {
            Ok(()) => room,
            Err(_) => before,
        };
        answer
    }

    // Gives room back that isn't used.
    fn fit(&mut self, room: usize)
        requires used { units self.old ≤ room }
        requires less { room ≤ self.old.room }
        ensures content { held self.new ≡ held self.old }
        ensures units { units self.new ≡ units self.old }
        ensures room { self.new.room ≡ room }
    {
        self.room = room;
    }

    // Makes a folder where it isn't there.
    fn add_dir(&mut self, dir: Dir)
        requires { units self.old < self.old.room }
        ensures put { IsDirPut (held self.old) dir true (held self.new) }
        ensures files { self.new.files ≡ self.old.files }
        ensures units { units self.new ≤ units self.old + 1 }
        ensures room { self.new.room ≡ self.old.room }
    {
        if !is_dir(&self.dirs, dir) {
            self.dirs.push_reserved(dir);
        }
    }

    // Makes a folder and those above it, where they aren't there.
    fn add_dirs(&mut self, dir: Dir)
        requires { units self.old + 3 ≤ self.old.room }
        ensures made { IsPathMade (held self.old) dir (held self.new) }
        ensures others { (q : Place) → (held self.new).file q ≡ (held self.old).file q }
        ensures files { self.new.files ≡ self.old.files }
        ensures units { units self.new ≤ units self.old + 3 }
        ensures room { self.new.room ≡ self.old.room }
        ensures folder { has_dir self.new.dirs.items dir ≡ true }
    {
        self.add_dir(dir.parent().parent());
        self.add_dir(dir.parent());
        self.add_dir(dir);
    }

    // Makes a file of zeros, with nothing unsynced, and answers its number.
    fn add_file(&mut self, place: Place, size: u64) -> usize
        requires folder { has_dir self.old.dirs.items place.dir ≡ true }
        requires free { found place 0 self.old.files.slots.items ≡ None }
        requires size { size < 2 ^ 55 }
        requires room { units self.old < self.old.room }
        ensures put { IsPut (held self.old) place (Some (record { size = size; stable = λ _. zero_sector; loose = []; fresh = None })) (held self.new) }
        ensures found { (f : FileEntry) × (found place 0 self.new.files.slots.items ≡ Some (result, f)) × (f.size ≡ size) × (f.fresh ≡ None) }
        ensures none { loose_of result self.new.log.items ≡ [] }
        ensures units { units self.new ≡ units self.old + 1 }
        ensures room { self.new.room ≡ self.old.room }
    {
        self.files.add(FileEntry {
            place,
            size,
            fresh: None,
        })
    }

    // Puts a sector of a file with no unsynced write of it onto the medium.
    pub(super) fn put_new(&mut self, number: usize, k: u64, bytes: &[u8; 512])
        requires there { k < slot_size (slot number self.old.files.slots.items) }
        requires room { units self.old < self.old.room }
        ensures dirs { self.new.dirs ≡ self.old.dirs }
        ensures files { self.new.files ≡ self.old.files }
        ensures log { self.new.log ≡ self.old.log }
        ensures stable { (n j : ℕ) → sector_at self.new.stable 0 n j ≡ (if number == n && k == j then Some bytes.now else sector_at self.old.stable 0 n j) }
        ensures units { units self.new ≤ units self.old + 1 }
        ensures room { self.new.room ≡ self.old.room }
    {
        self.stable.put(MEDIUM, number, k, bytes);
    }

    // Puts the sectors of a file onto the medium.
    fn put_sectors(&mut self, number: usize, bytes: &[u8])
        requires size { slot_size (slot number self.old.files.slots.items) ≡ length bytes.now / 512 }
        requires room { units self.old + length bytes.now / 512 ≤ self.old.room }
        ensures dirs { self.new.dirs ≡ self.old.dirs }
        ensures files { self.new.files ≡ self.old.files }
        ensures log { self.new.log ≡ self.old.log }
        ensures here { (k : ℕ) → k < length bytes.now / 512 → sector_at self.new.stable 0 number k ≡ Some (sector_of bytes.now k) }
        ensures others { (n k : ℕ) → n ≢ number → sector_at self.new.stable 0 n k ≡ sector_at self.old.stable 0 n k }
        ensures units { units self.new ≤ units self.old + length bytes.now / 512 }
        ensures room { self.new.room ≡ self.old.room }
    {
        for k in 0..bytes.len() / 512 {
            self.put_new(number, k as u64, &sector(bytes, k));
        }
    }

    pub(crate) fn put(&mut self, place: Place, bytes: &[u8]) -> Result<(), AllocError>
        requires { IsAligned (length bytes.now) }
        ensures call { Places (held self.old) place bytes.now result (held self.new) }
        ensures room { OnOk result (self.new.room ≡ self.old.room + (units self.new - units self.old)) }
        ensures kept { OnErr result (self.new.room ≡ self.old.room) }
        ensures units { OnErr result (units self.new ≡ units self.old) }
    {
        let sectors = bytes.len() / 512;
        let room = self.room;
        let used = self.used();
        self.add_room(sectors + 4)?;
        self.clear_place(place);
        self.add_dirs(place.dir);
        let number = self.add_file(place, sectors as u64);
        self.put_sectors(number, bytes);
        let more = self.used().saturating_sub(used);
        self.fit(room + more);
        Ok(())
    }

    // A byte of a file on the medium.
    fn byte(&self, number: usize, at: u64) -> u8
        ensures { result ≡ get_or (unwrap_or (sector_at self.now.stable 0 number (at / 512)) zero_sector) (at % 512) 0 }
    {
        self.stable.byte(number, at / 512, (at % 512) as usize)
    }

    pub(crate) fn bytes(&self, place: Place, at: u64, into: &mut [u8]) -> Option<usize>
        ensures { Tells (held self.now) place at into.old into.new result }
    {
        let (number, file) = match self.files.find(place) {
            Some(found) => found,
            None => return None,
        };
        let left = (512 * file.size).saturating_sub(at);
        let count = if left < into.len() as u64 {
            left as usize
        } else {
            into.len()
        };
        for i in 0..count {
            into[i] = self.byte(number, at + i as u64);
        }
        Some(count)
    }
}
