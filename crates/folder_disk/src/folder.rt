// The files and folders of a shared folder, by their places.
ghost use Rattle.std.specs.Prelude.{◌≡◌, ◌⊎◌, ◌++◌, string_bytes, None, Err, IfOk, IfErr, OnOk};
ghost use Rattle.sd_names.specs.Place.{parent_of};
ghost use Rattle.folder_disk.specs.Changed.{change_of};
ghost use Rattle.folder_disk.specs.Path.{folder_named, path_below};
ghost use Rattle.folder_disk.specs.declared.names.Change.{Change};
ghost use Rattle.kept_files.specs.Answers.{IsNoFile, IsNoFileOrExists};
ghost use Rattle.kept_files.specs.Flushed.{flushed_dir};

use crate::names;
use crate::names::Changed;
use kept_files::{FlushedDir, Found, OpenFiles, flush_dir, look, shown_length};
use sd_names::{Dir, Name, NoMemory, PathText, Place};
use shared_disk::DiskAnswer;
use std::alloc::{AllocError, Global};
use std::fs::Files;

/// The most bytes that stand behind the shared folder's path: a slash, the longest path of a folder, a slash, and the
/// longest name that the system may have in it.
const MOST_BELOW: usize = 1 + 88 + 1 + 255;

/// A folder of the file system that hosts share.
#[derive(Drop)]
pub(crate) struct Folder<R> {
    pub(crate) rt: R,
    pub(crate) alloc: Global,
    pub(crate) root: String,
    // The path of the last call, and the second one of a call that has two. Their room is taken at the start, so that
    // no path needs memory.
    pub(crate) path: String,
    pub(crate) target: String,
    pub(crate) open: OpenFiles,
    // A folder in which a name was changed, or may have been, and which wasn't flushed since.
    pub(crate) owed: Option<Dir>,
}

impl<R: Files + Drop> Folder<R> {
    /// The folder at the path `root`, or the current folder where that is empty. It is not looked at yet.
    pub(crate) fn new(rt: R, alloc: Global, root: &str) -> Result<Folder<R>, NoMemory>
        ensures root { IfOk result (λ folder. string_bytes folder.root ≡ folder_named root.now) }
    {
        let root = if root.is_empty() { "." } else { root };
        let room = root.len().saturating_add(MOST_BELOW);
        match (
            String::from_str(alloc, root),
            String::with_capacity(alloc, room),
            String::with_capacity(alloc, room),
            OpenFiles::new(alloc),
        ) {
            (Ok(root), Ok(path), Ok(target), Ok(open)) => Ok(Folder {
                rt,
                alloc,
                root,
                path,
                target,
                open,
                owed: None,
            }),
            _ => Err(NoMemory),
        }
    }
}

/// Puts the path of what stands below a folder in place of a text.
pub(crate) fn set_path(path: &mut String, root: &str, below: &str) -> Result<(), AllocError>
    ensures { OnOk result (string_bytes path.new ≡ path_below root.now below.now) }
{
    path.clear();
    path.push_str(root)?;
    if !below.is_empty() {
        path.push_str("/")?;
        path.push_str(below)?;
    }
    Ok(())
}

impl<R: Files> Folder<R> {
    /// Makes a path below the root the one that is worked on.
    pub(crate) fn go_to(&mut self, below: &PathText) -> Result<(), DiskAnswer>
        ensures path { OnOk result (string_bytes self.new.path ≡ path_below (string_bytes self.old.root) below.now.bytes) }
        ensures root { self.new.root ≡ self.old.root }
        ensures owed { self.new.owed ≡ self.old.owed }
        ensures fault { IfErr result (λ answer. answer ≡ DiskAnswer.Failed) }
    {
        match set_path(&mut self.path, self.root.as_str(), below.as_str()) {
            Ok(()) => Ok(()),
            Err(_) => Err(DiskAnswer::Failed),
        }
    }

    /// Makes a path below the root the second one of a call.
    pub(crate) fn aim_at(&mut self, below: &PathText) -> Result<(), DiskAnswer>
        ensures target { OnOk result (string_bytes self.new.target ≡ path_below (string_bytes self.old.root) below.now.bytes) }
        ensures path { self.new.path ≡ self.old.path }
        ensures root { self.new.root ≡ self.old.root }
        ensures owed { self.new.owed ≡ self.old.owed }
        ensures fault { IfErr result (λ answer. answer ≡ DiskAnswer.Failed) }
    {
        match set_path(&mut self.target, self.root.as_str(), below.as_str()) {
            Ok(()) => Ok(()),
            Err(_) => Err(DiskAnswer::Failed),
        }
    }

    /// Puts text behind the path that is worked on.
    pub(crate) fn go_on(&mut self, text: &str) -> Result<(), DiskAnswer>
        ensures path { OnOk result (string_bytes self.new.path ≡ string_bytes self.old.path ++ text.now) }
        ensures root { self.new.root ≡ self.old.root }
        ensures owed { self.new.owed ≡ self.old.owed }
        ensures fault { IfErr result (λ answer. answer ≡ DiskAnswer.Failed) }
    {
        match self.path.push_str(text) {
            Ok(()) => Ok(()),
            Err(_) => Err(DiskAnswer::Failed),
        }
    }

    /// Flushes the folder whose names were changed and not flushed, where there is one. One that is gone needs no flush.
    pub(crate) fn settle(&mut self) -> Result<(), DiskAnswer>
        ensures settled { OnOk result (self.new.owed ≡ None) }
        ensures fault { IfErr result (λ answer. answer ≡ DiskAnswer.Failed) }
    {
        let dir = match self.owed {
            Some(dir) => dir,
            None => return Ok(()),
        };
        self.go_to(&dir.path())?;
        match flush_dir(&self.rt, self.path.as_str(), &dir) {
            Ok(_) | Err(DiskAnswer::NoFile) => {
                self.owed = None;
                Ok(())
            }
            Err(_) => Err(DiskAnswer::Failed),
        }
    }

    /// Sees that a folder and those above it, up to the shared one, are folders, and no links.
    pub(crate) fn check_way(&mut self, dir: &Dir) -> Result<(), DiskAnswer>
        ensures owed { self.new.owed ≡ self.old.owed }
        ensures answers { IfErr result IsNoFile }
    {
        let above = dir.parent();
        self.check_dir(&above.parent())?;
        self.check_dir(&above)?;
        self.check_dir(dir)
    }

    // Sees that a folder is one, and no link. The shared one may be reached by a link.
    fn check_dir(&mut self, dir: &Dir) -> Result<(), DiskAnswer>
        ensures owed { self.new.owed ≡ self.old.owed }
        ensures answers { IfErr result IsNoFile }
    {
        if let Dir::Root = dir {
            return Ok(());
        }
        self.go_to(&dir.path())?;
        names::check_dir(&self.rt, self.path.as_str())
    }

    /// Looks for a file at its place. Where it is kept open, whatever way leads to it is right.
    pub(crate) fn look_at(&mut self, place: &Place) -> Result<Found, DiskAnswer>
        ensures settled { OnOk result (self.new.owed ≡ None) }
        ensures answers { IfErr result IsNoFile }
    {
        self.settle()?;
        self.go_to(&place.path())?;
        if let Ok(found) = look(&self.rt, self.path.as_str()) {
            if self.open.has(&found.node()) {
                return Ok(found);
            }
        }
        self.check_way(&place.dir)?;
        self.go_to(&place.path())?;
        look(&self.rt, self.path.as_str())
    }

    /// The answer of a call that changed names in a folder, once the folder is flushed. Where the system doesn't say whether
    /// it changed them, the folder is flushed before the next answer.
    pub(crate) fn changed(
        &mut self,
        dir: &Dir,
        answer: Result<Changed, DiskAnswer>,
    ) -> Result<(Changed, FlushedDir), DiskAnswer>
        ensures change { (change : Change) → IfOk answer (λ changed. change_of changed ≡ change) → IfOk result (λ done. change_of done.0 ≡ change) }
        ensures flushed { IfOk result (λ done. flushed_dir done.1 ≡ dir.now) }
        ensures answers { IfErr result (λ why. (why ≡ DiskAnswer.Failed) ⊎ (answer ≡ Err why)) }
    {
        let changed = match answer {
            Ok(changed) => changed,
            Err(DiskAnswer::Failed) => {
                self.owed = Some(*dir);
                return Err(DiskAnswer::Failed);
            }
            Err(answer) => return Err(answer),
        };
        self.owed = Some(*dir);
        self.go_to(&dir.path())?;
        match flush_dir(&self.rt, self.path.as_str(), dir) {
            Ok(flushed) => {
                self.owed = None;
                Ok((changed, flushed))
            }
            Err(_) => Err(DiskAnswer::Failed),
        }
    }

    /// The file's length.
    pub(crate) fn length(&mut self, place: &Place) -> Result<u64, DiskAnswer>
        ensures answers { IfErr result IsNoFile }
    {
        let found = self.look_at(place)?;
        shown_length(found.stored())
    }

    /// Gives the file another name in its folder, and flushes the folder.
    pub(crate) fn rename(
        &mut self,
        from: &Place,
        to: Name,
    ) -> Result<(Changed, FlushedDir), DiskAnswer>
        ensures change { IfOk result (λ done. change_of done.0 ≡ Change.FileRenamed) }
        ensures flushed { IfOk result (λ done. flushed_dir done.1 ≡ from.now.dir) }
        ensures answers { IfErr result IsNoFile }
    {
        let target = Place {
            dir: from.dir,
            name: to,
        };
        self.look_at(from)?;
        self.aim_at(&target.path())?;
        let replaced = look(&self.rt, self.target.as_str());
        let done = names::rename(&self.rt, self.path.as_str(), self.target.as_str());
        if let (Ok(_), Ok(replaced)) = (done, replaced) {
            self.open.forget(&replaced.node());
        }
        self.changed(&from.dir, done)
    }

    /// Removes the file, and flushes its folder.
    pub(crate) fn remove(&mut self, place: &Place) -> Result<(Changed, FlushedDir), DiskAnswer>
        ensures change { IfOk result (λ done. change_of done.0 ≡ Change.FileRemoved) }
        ensures flushed { IfOk result (λ done. flushed_dir done.1 ≡ place.now.dir) }
        ensures answers { IfErr result IsNoFile }
    {
        let found = self.look_at(place)?;
        let done = names::remove(&self.rt, self.path.as_str());
        if done.is_ok() {
            self.open.forget(&found.node());
        }
        self.changed(&place.dir, done)
    }

    /// Makes the folder, and flushes the one above it.
    pub(crate) fn make_dir(&mut self, dir: &Dir) -> Result<(Changed, FlushedDir), DiskAnswer>
        ensures change { IfOk result (λ done. change_of done.0 ≡ Change.DirMade) }
        ensures flushed { IfOk result (λ done. flushed_dir done.1 ≡ parent_of dir.now) }
        ensures answers { IfErr result IsNoFileOrExists }
    {
        let above = dir.parent();
        self.settle()?;
        self.check_way(&above)?;
        self.go_to(&dir.path())?;
        let done = names::make_dir(&self.rt, self.path.as_str());
        self.changed(&above, done)
    }

    /// Moves the folder, and flushes the one above it, which is the same before and after.
    pub(crate) fn move_dir(
        &mut self,
        from: &Dir,
        to: &Dir,
    ) -> Result<(Changed, FlushedDir), DiskAnswer>
        ensures change { IfOk result (λ done. change_of done.0 ≡ Change.DirMoved) }
        ensures flushed { IfOk result (λ done. flushed_dir done.1 ≡ parent_of from.now) }
        ensures answers { IfErr result IsNoFileOrExists }
    {
        self.settle()?;
        self.check_way(from)?;
        self.go_to(&from.path())?;
        self.aim_at(&to.path())?;
        let done = names::move_dir(&self.rt, self.path.as_str(), self.target.as_str());
        self.changed(&from.parent(), done)
    }
}
