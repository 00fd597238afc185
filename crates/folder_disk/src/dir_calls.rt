// The calls that list folders and remove them.
ghost use Rattle.std.specs.Prelude.{◌≡◌, IfOk, IfErr, IfSome};
ghost use Rattle.folder_disk.specs.Changed.{change_of};
ghost use Rattle.folder_disk.specs.declared.names.Change.{Change};
ghost use Rattle.folder_layout.specs.Listing.{AnswersAbove};
ghost use Rattle.kept_files.specs.Answers.{IsNoFile, IsNoFileOrNotEmpty};
ghost use Rattle.kept_files.specs.Flushed.{flushed_dir};
ghost use Rattle.sd_names.specs.Place.{parent_of};

use crate::folder::Folder;
use crate::names;
use crate::names::Changed;
use folder_layout::{Entry, PIECE, is_below, least_above, read_dir, read_name};
use kept_files::{FlushedDir, answer_for};
use sd_names::{Dir, Name};
use shared_disk::DiskAnswer;
use std::fs::Files;
use std::io::{ErrorKind, Read};

impl<R: Files> Folder<R> {
    /// Removes the folder with what isn't shown of it, and flushes the one above it. What is shown is never taken away,
    /// also where another host makes it meanwhile.
    pub(crate) fn remove_dir(&mut self, dir: &Dir) -> Result<(Changed, FlushedDir), DiskAnswer>
        ensures change { IfOk result (λ done. change_of done.0 ≡ Change.DirRemoved) }
        ensures flushed { IfOk result (λ done. flushed_dir done.1 ≡ parent_of dir.now) }
        ensures answers { IfErr result IsNoFileOrNotEmpty }
    {
        self.settle()?;
        self.check_way(dir)?;
        let done = self.empty_and_remove(dir);
        self.changed(&dir.parent(), done)
    }

    // Removes a folder with what isn't shown of it.
    fn empty_and_remove(&mut self, dir: &Dir) -> Result<Changed, DiskAnswer>
        ensures change { IfOk result (λ changed. change_of changed ≡ Change.DirRemoved) }
        ensures answers { IfErr result IsNoFileOrNotEmpty }
    {
        if let Some(changed) = self.remove_empty(dir)? {
            return Ok(changed);
        }
        self.refuse_shown(dir)?;
        self.take_away_others(dir)?;
        if let Some(changed) = self.remove_empty(dir)? {
            return Ok(changed);
        }
        self.refuse_shown(dir)?;
        match *dir {
            // Nothing is made in the folder of an image that is being removed, so what is left has names that only the
            // system can read.
            Dir::Removed(_, _) => {
                self.go_to(&dir.path())?;
                names::remove_whole(&self.rt, self.alloc, self.path.as_str())
            }
            _ => Err(DiskAnswer::Failed),
        }
    }

    // Removes a folder where it is empty. `None` where it isn't.
    fn remove_empty(&mut self, dir: &Dir) -> Result<Option<Changed>, DiskAnswer>
        ensures change { IfOk result (λ removed. IfSome removed (λ changed. change_of changed ≡ Change.DirRemoved)) }
        ensures answers { IfErr result IsNoFile }
    {
        self.go_to(&dir.path())?;
        names::remove_empty(&self.rt, self.path.as_str())
    }

    // Answers `NotEmpty` where a folder shows a file or a folder.
    fn refuse_shown(&mut self, dir: &Dir) -> Result<(), DiskAnswer>
        ensures answers { IfErr result IsNoFileOrNotEmpty }
    {
        let name: Option<Name> = self.next(dir, None)?;
        let below: Option<Dir> = self.next(dir, None)?;
        match (name, below) {
            (None, None) => Ok(()),
            _ => Err(DiskAnswer::NotEmpty),
        }
    }

    // Takes away what stands in a folder and isn't shown.
    fn take_away_others(&mut self, dir: &Dir) -> Result<(), DiskAnswer>
        ensures answers { IfErr result IsNoFile }
    {
        let mut listed = self.open_dir(dir)?;
        let mut piece = [0; PIECE];
        for _ in 0..u64::MAX {
            match listed.read(&mut piece) {
                Ok(0) => return Ok(()),
                Ok(count) => self.take_away_piece(dir, &piece[..count])?,
                Err(_) => return Err(DiskAnswer::Failed),
            }
        }
        Err(DiskAnswer::Failed)
    }

    // Takes away what a piece of a folder's names has and isn't shown. A zero byte ends each name.
    fn take_away_piece(&mut self, dir: &Dir, piece: &[u8]) -> Result<(), DiskAnswer>
        ensures fault { IfErr result (λ answer. answer ≡ DiskAnswer.Failed) }
    {
        let mut start = 0;
        for end in 0..piece.len() {
            if piece[end] == 0 {
                self.take_away(dir, &piece[start..end])?;
                start = end + 1;
            }
        }
        Ok(())
    }

    // Takes away what stands in a folder under a text, unless it is shown.
    fn take_away(&mut self, dir: &Dir, text: &[u8]) -> Result<(), DiskAnswer>
        ensures fault { IfErr result (λ answer. answer ≡ DiskAnswer.Failed) }
    {
        if !is_below(text) {
            return Ok(());
        }
        let name = match str::from_utf8(text) {
            Ok(name) => name,
            // No path leads there.
            Err(_) => return Ok(()),
        };
        self.go_to(&dir.path())?;
        self.go_on("/")?;
        self.go_on(name)?;
        let keeps_file = read_name(dir, text).is_some();
        let keeps_dir = read_dir(dir, text).is_some();
        names::take_away(
            &self.rt,
            self.alloc,
            self.path.as_str(),
            keeps_file,
            keeps_dir,
        )
    }

    /// The least entry above `after` that the folder shows.
    pub(crate) fn next<E: Entry>(
        &mut self,
        dir: &Dir,
        after: Option<E>,
    ) -> Result<Option<E>, DiskAnswer>
        ensures above { IfOk result (AnswersAbove E.order after) }
        ensures answers { IfErr result IsNoFile }
    {
        self.settle()?;
        self.check_way(dir)?;
        let mut after = after;
        for _ in 0..u64::MAX {
            let entry = match self.least(dir, &after)? {
                Some(entry) => entry,
                None => return Ok(None),
            };
            if self.is_there(dir, &entry)? {
                return Ok(Some(entry));
            }
            after = Some(entry);
        }
        Err(DiskAnswer::Failed)
    }

    // The least entry above `after` whose name stands in a folder, whatever it is there.
    fn least<E: Entry>(&mut self, dir: &Dir, after: &Option<E>) -> Result<Option<E>, DiskAnswer>
        ensures above { IfOk result (AnswersAbove E.order after.now) }
        ensures answers { IfErr result IsNoFile }
    {
        let mut listed = self.open_dir(dir)?;
        least_above(&mut listed, dir, after)
    }

    // Whether a folder's entry is what it is listed as.
    fn is_there<E: Entry>(&mut self, dir: &Dir, entry: &E) -> Result<bool, DiskAnswer>
        ensures fault { IfErr result (λ answer. answer ≡ DiskAnswer.Failed) }
    {
        self.go_to(&entry.path_in(dir))?;
        match self.rt.symlink_metadata(self.path.as_str()) {
            Ok(metadata) => Ok(E::is_kind(&metadata)),
            Err(error) if error.kind() == ErrorKind::NotFound => Ok(false),
            Err(_) => Err(DiskAnswer::Failed),
        }
    }

    // Opens a folder to read its names. The slash makes the system follow a link to the shared folder.
    fn open_dir(&mut self, dir: &Dir) -> Result<R::Dir, DiskAnswer>
        ensures answers { IfErr result IsNoFile }
    {
        self.go_to(&dir.path())?;
        self.go_on("/")?;
        self.rt
            .open_dir(self.path.as_str())
            .map_err(|error| answer_for(error))
    }
}
