// The files of a memory disk, by number.
ghost use Rattle.std.specs.Prelude.{◌≡◌, ◌≢◌, ◌+◌, ◌<◌, ◌≤◌, ◌==◌, ℕ, [], Some, None, IfOk, IsSome, OnOk, IsTrue, if◌then◌else◌, length, get_or, map, is_some, count_by, vec_len, vec_capacity};
ghost use Rattle.std.specs.Option.{option_map};
ghost use Rattle.std.proofs.Props.{props};
ghost use Rattle.memory_disk.specs.Files.{entry_moved, entry_synced};
ghost use Rattle.memory_disk.specs.Store.{AreApart, IsSlotPut, found, slot, slot_size};
ghost use Rattle.memory_disk.specs.Settled.{IsFreshSlot};
ghost use Rattle.memory_disk.specs.declared.entry.FileEntry.{FileEntry};

use crate::entry::FileEntry;
use sd_names::{Dir, HostId, Place};
use std::alloc::{AllocError, Global};

/// Files by number, in room that is taken at once. The number of a file that was removed is free for another.
#[derive(Drop)]
pub(crate) struct Files {
    pub(crate) slots: Vec<Option<FileEntry>>,
    pub(crate) count: usize,
    ghost counted: { count ≡ count_by is_some slots.items },
    ghost apart: { AreApart slots.items } by { Prim.hlevel props },
}

// The number of the file at a place, and its entry.
fn find(slots: &[Option<FileEntry>], place: Place) -> Option<(usize, FileEntry)>
    ensures { result ≡ found place 0 slots.now }
{
    for (i, slot) in slots.iter().enumerate() {
        if let Some(file) = slot {
            if file.place.is(&place) {
                return Some((i, *file));
            }
        }
    }
    None
}

// The least number that is free, or the next one.
fn free_number(slots: &[Option<FileEntry>]) -> usize
    ensures within { result ≤ length slots.now }
    ensures free { slot result slots.now ≡ None }
    ensures full { result ≡ length slots.now → count_by is_some slots.now ≡ length slots.now }
{
    for (i, slot) in slots.iter().enumerate() {
        if slot.is_none() {
            return i;
        }
    }
    slots.len()
}

// Puts a file at a number, the next one or one that was given.
fn put_slot(slots: &mut Vec<Option<FileEntry>>, number: usize, entry: FileEntry)
    requires within { number ≤ length slots.old.items }
    requires room { number ≡ length slots.old.items → number < vec_capacity slots.old }
    ensures put { IsSlotPut number (Some entry) slots.old.items slots.new.items }
    ensures count { slot number slots.old.items ≡ None → count_by is_some slots.new.items ≡ count_by is_some slots.old.items + 1 }
    ensures capacity { vec_capacity slots.new ≡ vec_capacity slots.old }
{
    if number == slots.len() {
        slots.push_reserved(Some(entry));
        return;
    }
    slots[number] = Some(entry);
}

// A file's entry once the files of a folder moved to another.
fn moved_entry(file: FileEntry, from: Dir, to: Dir) -> FileEntry
    ensures { result ≡ entry_moved from to file }
{
    if !file.place.dir.is(&from) {
        return file;
    }
    FileEntry {
        place: Place {
            dir: to,
            name: file.place.name,
        },
        size: file.size,
        fresh: file.fresh,
    }
}

/// A file's entry once a host synced it, or went down.
pub(crate) fn synced_entry(file: FileEntry, host: HostId) -> FileEntry
    ensures { result ≡ entry_synced host file }
{
    let fresh = match file.fresh {
        Some(maker) if maker.get() == host.get() => None,
        other => other,
    };
    FileEntry {
        place: file.place,
        size: file.size,
        fresh,
    }
}

// Whether a host has made a file and not synced it.
fn is_made_by(file: FileEntry, host: HostId) -> bool
    ensures { IsTrue result → file.fresh ≡ Some host }
{
    match file.fresh {
        Some(maker) => maker.get() == host.get(),
        None => false,
    }
}

fn moved_slot(slot: Option<FileEntry>, from: Dir, to: Dir) -> Option<FileEntry>
    ensures { result ≡ option_map (entry_moved from to) slot }
{
    match slot {
        Some(file) => Some(moved_entry(file, from, to)),
        None => None,
    }
}

fn synced_slot(slot: Option<FileEntry>, host: HostId) -> Option<FileEntry>
    ensures { result ≡ option_map (entry_synced host) slot }
{
    match slot {
        Some(file) => Some(synced_entry(file, host)),
        None => None,
    }
}

// Moves the files of a folder to another.
fn move_all(slots: &mut [Option<FileEntry>], from: Dir, to: Dir)
    ensures { slots.new ≡ map (option_map (entry_moved from to)) slots.old }
{
    for i in 0..slots.len() {
        slots[i] = moved_slot(slots[i], from, to);
    }
}

// Ends that a host has made files and not synced them.
fn sync_all(slots: &mut [Option<FileEntry>], host: HostId)
    ensures { slots.new ≡ map (option_map (entry_synced host)) slots.old }
{
    for i in 0..slots.len() {
        slots[i] = synced_slot(slots[i], host);
    }
}

impl Files {
    /// No files, with room for so many.
    pub(crate) fn new(alloc: Global, room: usize) -> Result<Files, AllocError>
        ensures empty { IfOk result (λ s. s.slots.items ≡ []) }
        ensures count { IfOk result (λ s. s.count ≡ 0) }
        ensures room { IfOk result (λ s. room ≤ vec_capacity s.slots) }
    {
        Ok(Files {
            slots: Vec::with_capacity(alloc, room)?,
            count: 0,
        })
    }

    /// Takes the memory for so many files.
    pub(crate) fn reserve(&mut self, room: usize) -> Result<(), AllocError>
        ensures slots { self.new.slots.items ≡ self.old.slots.items }
        ensures count { self.new.count ≡ self.old.count }
        ensures no_less { vec_capacity self.old.slots ≤ vec_capacity self.new.slots }
        ensures room { OnOk result (room ≤ vec_capacity self.new.slots) }
    {
        self.slots.reserve(room)
    }

    /// How many files there are.
    pub(crate) fn len(&self) -> usize
        ensures { result ≡ self.now.count }
    {
        self.count
    }

    /// The number of the file at a place, and its entry.
    pub(crate) fn find(&self, place: Place) -> Option<(usize, FileEntry)>
        ensures { result ≡ found place 0 self.now.slots.items }
    {
        find(&self.slots, place)
    }

    /// How many numbers were given: each file's is below it.
    pub(crate) fn numbers(&self) -> usize {
        self.slots.len()
    }

    // The file of a number.
    fn entry(&self, number: usize) -> Option<FileEntry>
        ensures { result ≡ slot number self.now.slots.items }
    {
        if number >= self.slots.len() {
            return None;
        }
        self.slots[number]
    }

    /// Whether a host has made the file of a number and not synced it.
    pub(crate) fn is_fresh(&self, number: usize, host: HostId) -> bool
        ensures { IsTrue result → IsFreshSlot host number self.now.slots.items }
    {
        match self.entry(number) {
            Some(file) => is_made_by(file, host),
            None => false,
        }
    }

    /// How many sectors the file of a number has.
    pub(crate) fn size(&self, number: usize) -> u64
        ensures { result ≡ slot_size (slot number self.now.slots.items) }
    {
        match self.entry(number) {
            Some(file) => file.size,
            None => 0,
        }
    }

    /// Adds a file, and answers its number.
    pub(crate) fn add(&mut self, entry: FileEntry) -> usize
        requires none { found entry.place 0 self.old.slots.items ≡ None }
        requires room { self.old.count < vec_capacity self.old.slots }
        ensures free { slot result self.old.slots.items ≡ None }
        ensures put { IsSlotPut result (Some entry) self.old.slots.items self.new.slots.items }
        ensures count { self.new.count ≡ self.old.count + 1 }
        ensures capacity { vec_capacity self.new.slots ≡ vec_capacity self.old.slots }
    {
        let number = free_number(&self.slots);
        put_slot(&mut self.slots, number, entry);
        self.count += 1;
        number
    }

    /// Changes a file's entry.
    pub(crate) fn put(&mut self, number: usize, entry: FileEntry)
        requires there { IsSome (slot number self.old.slots.items) }
        requires own { (i : ℕ) (f : FileEntry) → slot i self.old.slots.items ≡ Some f → f.place ≡ entry.place → i ≡ number }
        ensures put { IsSlotPut number (Some entry) self.old.slots.items self.new.slots.items }
        ensures count { self.new.count ≡ self.old.count }
        ensures capacity { vec_capacity self.new.slots ≡ vec_capacity self.old.slots }
    {
        self.slots[number] = Some(entry);
    }

    /// Removes a file.
    pub(crate) fn take(&mut self, number: usize)
        requires there { IsSome (slot number self.old.slots.items) }
        ensures put { IsSlotPut number None self.old.slots.items self.new.slots.items }
        ensures count { self.new.count + 1 ≡ self.old.count }
        ensures capacity { vec_capacity self.new.slots ≡ vec_capacity self.old.slots }
    {
        self.slots[number] = None;
        self.count -= 1;
    }

    /// Moves the files of a folder to another, which has none.
    pub(crate) fn move_dir(&mut self, from: Dir, to: Dir)
        requires none { (i : ℕ) (f : FileEntry) → slot i self.old.slots.items ≡ Some f → f.place.dir ≢ to }
        ensures slots { self.new.slots.items ≡ map (option_map (entry_moved from to)) self.old.slots.items }
        ensures count { self.new.count ≡ self.old.count }
        ensures capacity { vec_capacity self.new.slots ≡ vec_capacity self.old.slots }
    {
        move_all(&mut self.slots, from, to);
    }

    /// Ends that a host has made files and not synced them.
    pub(crate) fn sync(&mut self, host: HostId)
        ensures slots { self.new.slots.items ≡ map (option_map (entry_synced host)) self.old.slots.items }
        ensures count { self.new.count ≡ self.old.count }
        ensures capacity { vec_capacity self.new.slots ≡ vec_capacity self.old.slots }
    {
        sync_all(&mut self.slots, host);
    }
}
