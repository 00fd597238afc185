// Calls of a store that work on names and folders.
ghost use Rattle.std.specs.Prelude.{◌≡◌, ◌≢◌, ◌<◌, ◌≤◌, ℕ, Some, None, Err, IsSome, IfOk, OnOk, OnErr};
ghost use Rattle.sd_names.specs.declared.place.Dir.TheVariants.{Root};
ghost use Rattle.shared_disk.specs.NameCalls.{AnswersDirAbove, AnswersNameAbove, AreImageDirs, MovesDir, NextDir, NextName, Removes, RemovesDir, Renames};
ghost use Rattle.memory_disk.specs.Sectors.{sector_at};
ghost use Rattle.memory_disk.specs.Store.{IsCleared, IsSlotPut, found, loose_of, slot};

use super::{Store, is_dir};
use crate::entry::FileEntry;
use crate::listing::{forget_dir, least_dir, least_name, move_one};
use crate::log::{Leaving, forget};
use sd_names::{Dir, Name, Place};
use shared_disk::DiskAnswer;

impl Store {
    ghost use Rattle.memory_disk.specs.Held.{held, units};

    // Takes a file away, with its sectors and its unsynced writes.
    fn drop_file(&mut self, number: usize)
        requires { IsSome (slot number self.old.files.slots.items) }
        ensures dirs { self.new.dirs ≡ self.old.dirs }
        ensures slots { IsSlotPut number None self.old.files.slots.items self.new.files.slots.items }
        ensures stable { (n k : ℕ) → n ≢ number → sector_at self.new.stable 0 n k ≡ sector_at self.old.stable 0 n k }
        ensures loose { (n : ℕ) → n ≢ number → loose_of n self.new.log.items ≡ loose_of n self.old.log.items }
        ensures units { units self.new < units self.old }
        ensures room { self.new.room ≡ self.old.room }
    {
        let size = self.files.size(number);
        self.files.take(number);
        self.stable.take_file(number, size);
        forget(&mut self.log, &mut self.own, Leaving::InFile(number));
    }

    // Takes away the file at a place, if there is one.
    pub(super) fn clear_place(&mut self, place: Place)
        ensures dirs { self.new.dirs ≡ self.old.dirs }
        ensures cleared { IsCleared place self.old.files.slots.items self.old.stable self.old.log.items self.new.files.slots.items self.new.stable self.new.log.items }
        ensures units { units self.new ≤ units self.old }
        ensures fewer { IsSome (found place 0 self.old.files.slots.items) → units self.new < units self.old }
        ensures room { self.new.room ≡ self.old.room }
    {
        if let Some((number, _)) = self.files.find(place) {
            self.drop_file(number);
        }
    }

    pub(crate) fn rename(&mut self, from: Place, to: Name) -> Result<(), DiskAnswer>
        requires { from.name ≢ to }
        ensures call { Renames (held self.old) from to result (held self.new) }
        ensures failed { result ≢ Err DiskAnswer.Failed }
        ensures units { OnOk result (units self.new ≤ units self.old) }
        ensures kept { OnErr result (self.new ≡ self.old) }
        ensures room { self.new.room ≡ self.old.room }
    {
        let (number, file) = match self.files.find(from) {
            Some(found) => found,
            None => return Err(DiskAnswer::NoFile),
        };
        let place = Place {
            dir: from.dir,
            name: to,
        };
        self.clear_place(place);
        self.files.put(
            number,
            FileEntry {
                place,
                size: file.size,
                fresh: file.fresh,
            },
        );
        Ok(())
    }

    pub(crate) fn remove(&mut self, place: Place) -> Result<(), DiskAnswer>
        ensures call { Removes (held self.old) place result (held self.new) }
        ensures failed { result ≢ Err DiskAnswer.Failed }
        ensures units { OnOk result (units self.new < units self.old) }
        ensures kept { OnErr result (self.new ≡ self.old) }
        ensures room { self.new.room ≡ self.old.room }
    {
        match self.files.find(place) {
            Some(_) => {
                self.clear_place(place);
                Ok(())
            }
            None => Err(DiskAnswer::NoFile),
        }
    }

    pub(crate) fn remove_dir(&mut self, dir: Dir) -> Result<(), DiskAnswer>
        requires { dir ≢ Root }
        ensures call { RemovesDir (held self.old) dir result (held self.new) }
        ensures failed { result ≢ Err DiskAnswer.Failed }
        ensures units { OnOk result (units self.new < units self.old) }
        ensures kept { OnErr result (self.new ≡ self.old) }
        ensures room { self.new.room ≡ self.old.room }
    {
        if !is_dir(&self.dirs, dir) {
            return Err(DiskAnswer::NoFile);
        }
        if least_name(&self.files.slots, dir, None).is_some() {
            return Err(DiskAnswer::NotEmpty);
        }
        if least_dir(&self.dirs, dir, None).is_some() {
            return Err(DiskAnswer::NotEmpty);
        }
        forget_dir(&mut self.dirs, dir);
        Ok(())
    }

    pub(crate) fn move_dir(&mut self, from: Dir, to: Dir) -> Result<(), DiskAnswer>
        requires images { AreImageDirs from to }
        requires other { from ≢ to }
        ensures call { MovesDir (held self.old) from to result (held self.new) }
        ensures failed { result ≢ Err DiskAnswer.Failed }
        ensures units { OnOk result (units self.new ≡ units self.old) }
        ensures kept { OnErr result (self.new ≡ self.old) }
        ensures room { self.new.room ≡ self.old.room }
    {
        if !is_dir(&self.dirs, from) {
            return Err(DiskAnswer::NoFile);
        }
        if is_dir(&self.dirs, to) {
            return Err(DiskAnswer::Exists);
        }
        self.files.move_dir(from, to);
        move_one(&mut self.dirs, from, to);
        Ok(())
    }

    pub(crate) fn next_name(
        &self,
        dir: Dir,
        after: Option<Name>,
    ) -> Result<Option<Name>, DiskAnswer>
        ensures call { NextName (held self.now) dir after result (held self.now) }
        ensures above { IfOk result (AnswersNameAbove after) }
        ensures failed { result ≢ Err DiskAnswer.Failed }
    {
        if !is_dir(&self.dirs, dir) {
            return Err(DiskAnswer::NoFile);
        }
        Ok(least_name(&self.files.slots, dir, after))
    }

    pub(crate) fn next_dir(&self, dir: Dir, after: Option<Dir>) -> Result<Option<Dir>, DiskAnswer>
        ensures call { NextDir (held self.now) dir after result (held self.now) }
        ensures above { IfOk result (AnswersDirAbove after) }
        ensures failed { result ≢ Err DiskAnswer.Failed }
    {
        if !is_dir(&self.dirs, dir) {
            return Err(DiskAnswer::NoFile);
        }
        Ok(least_dir(&self.dirs, dir, after))
    }
}
