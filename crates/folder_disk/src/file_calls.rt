// The calls on the bytes of files, by their places.
ghost use Rattle.std.specs.Prelude.{◌≡◌, ◌≤◌, ℤ, length, IfOk, IfErr, OnOk};
ghost use Rattle.folder_disk.specs.Changed.{change_of};
ghost use Rattle.folder_disk.specs.declared.names.Change.{Change};
ghost use Rattle.kept_files.specs.Answers.{IsNoFile, IsNoFileOrExists, IsNoFileOrOutside};
ghost use Rattle.kept_files.specs.Flushed.{flushed_dir, flushed_place};
ghost use Rattle.kept_files.specs.Found.{found_stored};
ghost use Rattle.kept_files.specs.declared.node.Found.{Found};
ghost use Rattle.kept_files.specs.Grown.{IsGrown, IsMade};
ghost use Rattle.kept_files.specs.Kept.{kept_place};
ghost use Rattle.kept_files.specs.OpenFiles.{HasRoom};
ghost use Rattle.kept_files.specs.Opened.{written_at, written_bytes};
ghost use Rattle.kept_files.specs.Swapped.{IsSwapped};

use crate::folder::Folder;
use crate::names::{Changed, make_file};
use kept_files::{Flush, FlushedDir, FlushedFile, Found, Grown, Kept, Swapped, Written};
use sd_names::{Dir, Place};
use shared_disk::DiskAnswer;
use std::alloc::AllocError;
use std::fs::{File, Files};
use std::random::RandomSource;

impl<R: Files<File = File> + RandomSource> Folder<R> {
    // Takes the file that stands at a place out of those that are kept open, or opens it.
    fn reach(&mut self, place: &Place) -> Result<(Kept, Found), DiskAnswer>
        ensures place { IfOk result (λ reached. kept_place reached.0 ≡ place.now) }
        ensures room { OnOk result (HasRoom self.new.open) }
        ensures answers { IfErr result IsNoFile }
    {
        let found = self.look_at(place)?;
        self.open.make_room(&found.node())?;
        let kept = self.open.take(&self.rt, self.path.as_str(), place, &found)?;
        Ok((kept, found))
    }

    /// Reads from `at` on to the file's end or that of `into`.
    pub(crate) fn read(
        &mut self,
        place: &Place,
        at: u64,
        into: &mut [u8],
    ) -> Result<usize, DiskAnswer>
        ensures bound { IfOk result (λ count. count ≤ length into.old) }
        ensures answers { IfErr result IsNoFile }
    {
        let (kept, found) = self.reach(place)?;
        let answer = kept.read(found.stored(), at, into);
        self.open.put_back(kept);
        answer
    }

    /// Writes inside the file.
    pub(crate) fn write<'a>(
        &mut self,
        place: &Place,
        at: u64,
        bytes: &'a [u8],
    ) -> Result<Written<'a>, DiskAnswer>
        ensures at { IfOk result (λ written. written_at written ≡ at) }
        ensures bytes { IfOk result (λ written. written_bytes written ≡ bytes.now) }
        ensures answers { IfErr result IsNoFileOrOutside }
    {
        let (mut kept, found) = self.reach(place)?;
        let answer = kept.write(found.stored(), at, bytes);
        self.open.put_back(kept);
        answer
    }

    /// Flushes the file.
    pub(crate) fn sync(&mut self, place: &Place) -> Result<FlushedFile, DiskAnswer>
        ensures flushed { IfOk result (λ flushed. flushed_place flushed ≡ place.now) }
        ensures answers { IfErr result IsNoFile }
    {
        let (mut kept, _) = self.reach(place)?;
        let answer = kept.flush(Flush::Bytes);
        self.open.put_back(kept);
        answer
    }

    /// Raises the file's length, and flushes it.
    pub(crate) fn grow(&mut self, place: &Place, length: u64) -> Result<Grown, DiskAnswer>
        ensures grown { IfOk result (λ grown. (descriptor : ℤ) × (found : Found) × IsGrown descriptor place.now (found_stored found) length grown) }
        ensures answers { IfErr result IsNoFile }
    {
        let (mut kept, found) = self.reach(place)?;
        let answer = kept.grow(found.stored(), length);
        self.open.put_back(kept);
        match answer {
            Ok(grown) => Ok(grown),
            Err(answer) => Err(answer),
        }
    }

    /// Exchanges a sector of the file, under a lock on it.
    pub(crate) fn exchange<'a>(
        &mut self,
        place: &Place,
        sector: u64,
        expect: &[u8; 512],
        next: &'a [u8; 512],
    ) -> Result<Swapped<'a>, DiskAnswer>
        ensures swapped { IfOk result (λ swapped. (descriptor : ℤ) × IsSwapped descriptor place.now sector expect.now next.now swapped) }
        ensures answers { IfErr result IsNoFileOrOutside }
    {
        let (mut kept, found) = self.reach(place)?;
        let answer = kept.exchange(found.stored(), sector, expect, next);
        self.open.put_back(kept);
        answer
    }

    /// Makes the file, and flushes it and its folder.
    pub(crate) fn create(
        &mut self,
        place: &Place,
        length: u64,
    ) -> Result<(Grown, Changed, FlushedDir), DiskAnswer>
        ensures made { IfOk result (λ done. IsMade place.now length done.0) }
        ensures change { IfOk result (λ done. change_of done.1 ≡ Change.FileMade) }
        ensures flushed { IfOk result (λ done. flushed_dir done.2 ≡ place.now.dir) }
        ensures answers { IfErr result IsNoFileOrExists }
    {
        match self.look_at(place) {
            Ok(_) => return Err(DiskAnswer::Exists),
            Err(DiskAnswer::NoFile) => {}
            Err(answer) => return Err(answer),
        }
        self.go_to(&place.path())?;
        self.aim_at_new(&place.dir)?;
        let (new, path) = (self.target.as_str(), self.path.as_str());
        match make_file(&self.rt, new, path, place, length) {
            Ok((made, changed)) => {
                let (changed, flushed) = self.changed(&place.dir, Ok(changed))?;
                Ok((made, changed, flushed))
            }
            Err(answer) => {
                self.changed(&place.dir, Err(answer))?;
                Err(answer)
            }
        }
    }

    // Makes the second path one in a folder that nobody else uses and that isn't shown.
    fn aim_at_new(&mut self, dir: &Dir) -> Result<(), DiskAnswer>
        ensures path { self.new.path ≡ self.old.path }
        ensures root { self.new.root ≡ self.old.root }
        ensures owed { self.new.owed ≡ self.old.owed }
        ensures fault { IfErr result (λ answer. answer ≡ DiskAnswer.Failed) }
    {
        self.aim_at(&dir.path())?;
        let mut drawn = [0; 16];
        if self.rt.fill_bytes(&mut drawn).is_err() {
            return Err(DiskAnswer::Failed);
        }
        match push_new_name(&mut self.target, &drawn) {
            Ok(()) => Ok(()),
            Err(_) => Err(DiskAnswer::Failed),
        }
    }
}

// Puts behind the path of a folder the name of a file that is being made: a mark, and a letter for each drawn byte.
fn push_new_name(path: &mut String, drawn: &[u8; 16]) -> Result<(), AllocError> {
    path.push_str("/.new-")?;
    for byte in drawn {
        path.push(char::from(b'a' + *byte % 16))?;
    }
    Ok(())
}
