// A host's going down: its unsynced writes, and the files that it made and had not synced.
ghost use Rattle.std.specs.Prelude.{◌≡◌, ℕ, ◌+◌, ◌<◌, ◌≤◌, length, map, take};
ghost use Rattle.std.specs.Option.{option_map};
ghost use Rattle.shared_disk.specs.Content.{own_of};
ghost use Rattle.shared_disk.specs.Crash.{DownLeaves, IsSector};
ghost use Rattle.memory_disk.specs.Files.{entry_synced};
ghost use Rattle.memory_disk.specs.Sectors.{sector_at, kept_count, kept_room};
ghost use Rattle.memory_disk.specs.Settled.{IsFreshSlot, IsSettling};
ghost use Rattle.memory_disk.specs.Turns.{AreTaken, to_come};
ghost use Rattle.memory_disk.specs.Store.{IsLogWithin, loose_of, not_by, slot, slot_size};

use super::Store;
use crate::entry::Write;
use crate::files::Files;
use crate::log::{Leaving, forget};
use crate::picks::{Pick, Picks, filled, picked};
use crate::sector_map::{MEDIUM, Sectors};
use sd_names::HostId;

// Settles the sector of a write, where it is the host's first of that sector.
fn settle_first(
    log: &[Write],
    i: usize,
    own: &Sectors,
    files: &Files,
    stable: &mut Sectors,
    host: HostId,
    picks: &mut Picks,
)
    requires there { i < length log.now }
    requires own { (n k : ℕ) → sector_at own.now host n k ≡ own_of host k (loose_of n log.now) }
    requires within { IsLogWithin files.now.slots.items log.now }
    requires room { kept_count stable.old < kept_room stable.old }
    ensures at { IsSettling host files.now.slots.items log.now stable.old stable.new }
    ensures count { kept_count stable.new + length (not_by host (take (i + 1) log.now)) ≤ kept_count stable.old + length (not_by host (take i log.now)) + 1 }
    ensures room { kept_room stable.old ≤ kept_room stable.new }
    ensures picks { AreTaken (to_come picks.old) (to_come picks.new) }
{
    let write = &log[i];
    if write.host.get() != host.get() || !write.first {
        return;
    }
    if let Some(last) = own.get(host.get(), write.file, write.sector) {
        let fresh = files.is_fresh(write.file, host);
        if let Some(bytes) = picked(picks.next(), last, fresh) {
            stable.put(MEDIUM, write.file, write.sector, &bytes);
        }
    }
}

// Settles each sector that a host wrote and had not synced.
fn settle_writes(
    log: &[Write],
    own: &Sectors,
    files: &Files,
    stable: &mut Sectors,
    host: HostId,
    picks: &mut Picks,
)
    requires own { (n k : ℕ) → sector_at own.now host n k ≡ own_of host k (loose_of n log.now) }
    requires within { IsLogWithin files.now.slots.items log.now }
    requires room { kept_count stable.old + length log.now ≤ kept_room stable.old }
    ensures at { IsSettling host files.now.slots.items log.now stable.old stable.new }
    ensures count { kept_count stable.new + length (not_by host log.now) ≤ kept_count stable.old + length log.now }
    ensures room { kept_room stable.old ≤ kept_room stable.new }
    ensures picks { AreTaken (to_come picks.old) (to_come picks.new) }
{
    for i in 0..log.len() {
        settle_first(log, i, own, files, stable, host, picks);
    }
}

impl Store {
    ghost use Rattle.memory_disk.specs.Held.{held};

    // Puts a sector of a file that a host made onto the medium, and answers whether there was room for it.
    fn fill(&mut self, host: HostId, number: usize, k: u64, bytes: &[u8; 512]) -> bool
        requires there { k < slot_size (slot number self.old.files.slots.items) }
        requires fresh { IsFreshSlot host number self.old.files.slots.items }
        requires bytes { IsSector bytes.now }
        ensures dirs { self.new.dirs ≡ self.old.dirs }
        ensures files { self.new.files ≡ self.old.files }
        ensures log { self.new.log ≡ self.old.log }
        ensures room { self.new.room ≡ self.old.room }
        ensures at { IsSettling host self.old.files.slots.items self.old.log.items self.old.stable self.new.stable }
    {
        if self.stable.get(MEDIUM, number, k).is_none() && !self.has_room(1) {
            return false;
        }
        self.stable.put(MEDIUM, number, k, bytes);
        true
    }

    // Settles a sector that the host hadn't written, of a file that it made, and answers whether there was room.
    fn fill_picked(&mut self, host: HostId, number: usize, k: u64, picks: &mut Picks) -> bool
        requires there { k < slot_size (slot number self.old.files.slots.items) }
        requires fresh { IsFreshSlot host number self.old.files.slots.items }
        ensures dirs { self.new.dirs ≡ self.old.dirs }
        ensures files { self.new.files ≡ self.old.files }
        ensures log { self.new.log ≡ self.old.log }
        ensures room { self.new.room ≡ self.old.room }
        ensures at { IsSettling host self.old.files.slots.items self.old.log.items self.old.stable self.new.stable }
        ensures picks { AreTaken (to_come picks.old) (to_come picks.new) }
    {
        if self.own.get(host.get(), number, k).is_some() {
            return true;
        }
        match picks.next() {
            Pick::Byte(byte) => self.fill(host, number, k, &filled(byte)),
            Pick::Old | Pick::New => true,
        }
    }

    // Settles the sectors that the host hadn't written, of a file that it made.
    fn fill_file(&mut self, host: HostId, number: usize, size: u64, picks: &mut Picks)
        requires size { size ≡ slot_size (slot number self.old.files.slots.items) }
        requires fresh { IsFreshSlot host number self.old.files.slots.items }
        ensures dirs { self.new.dirs ≡ self.old.dirs }
        ensures files { self.new.files ≡ self.old.files }
        ensures log { self.new.log ≡ self.old.log }
        ensures room { self.new.room ≡ self.old.room }
        ensures at { IsSettling host self.old.files.slots.items self.old.log.items self.old.stable self.new.stable }
        ensures picks { AreTaken (to_come picks.old) (to_come picks.new) }
    {
        for k in 0..size {
            if !self.fill_picked(host, number, k, picks) {
                return;
            }
        }
    }

    // Settles the file of a number, where the host made it and had not synced it.
    fn fill_number(&mut self, host: HostId, number: usize, picks: &mut Picks)
        ensures dirs { self.new.dirs ≡ self.old.dirs }
        ensures files { self.new.files ≡ self.old.files }
        ensures log { self.new.log ≡ self.old.log }
        ensures room { self.new.room ≡ self.old.room }
        ensures at { IsSettling host self.old.files.slots.items self.old.log.items self.old.stable self.new.stable }
        ensures picks { AreTaken (to_come picks.old) (to_come picks.new) }
    {
        if self.files.is_fresh(number, host) {
            let size = self.files.size(number);
            self.fill_file(host, number, size, picks);
        }
    }

    // Settles the sectors that the host hadn't written, of the files that it made: only a byte changes any.
    fn fill_files(&mut self, host: HostId, picks: &mut Picks)
        ensures dirs { self.new.dirs ≡ self.old.dirs }
        ensures files { self.new.files ≡ self.old.files }
        ensures log { self.new.log ≡ self.old.log }
        ensures room { self.new.room ≡ self.old.room }
        ensures at { IsSettling host self.old.files.slots.items self.old.log.items self.old.stable self.new.stable }
        ensures picks { AreTaken (to_come picks.old) (to_come picks.new) }
    {
        if !picks.have_byte() {
            return;
        }
        for number in 0..self.files.numbers() {
            self.fill_number(host, number, picks);
        }
    }

    // Settles what the host wrote and had not synced, and forgets that it was unsynced.
    fn settle_host(&mut self, host: HostId, picks: &mut Picks)
        ensures dirs { self.new.dirs ≡ self.old.dirs }
        ensures slots { self.new.files.slots.items ≡ map (option_map (entry_synced host)) self.old.files.slots.items }
        ensures log { self.new.log.items ≡ not_by host self.old.log.items }
        ensures room { self.new.room ≡ self.old.room }
        ensures at { IsSettling host self.old.files.slots.items self.old.log.items self.old.stable self.new.stable }
        ensures picks { AreTaken (to_come picks.old) (to_come picks.new) }
    {
        settle_writes(
            &self.log,
            &self.own,
            &self.files,
            &mut self.stable,
            host,
            picks,
        );
        forget(&mut self.log, &mut self.own, Leaving::ByHost(host));
        self.files.sync(host);
    }

    pub(crate) fn down(&mut self, host: HostId, picks: &mut Picks)
        ensures call { DownLeaves (held self.old) host (held self.new) }
        ensures room { self.new.room ≡ self.old.room }
        ensures picks { AreTaken (to_come picks.old) (to_come picks.new) }
    {
        self.fill_files(host, picks);
        self.settle_host(host, picks);
    }
}
