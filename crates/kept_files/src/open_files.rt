// The files that a disk keeps open.
ghost use Rattle.std.specs.Prelude.{◌≡◌, ◌∷◌, ◌++◌, [], false, IfErr, IfNone, IfOk, IfSome, IsTrue, OnOk};
ghost use Rattle.kept_files.specs.Answers.{IsNoFile};
ghost use Rattle.kept_files.specs.Found.{found_node};
ghost use Rattle.kept_files.specs.Kept.{kept_node, kept_place};
ghost use Rattle.kept_files.specs.OpenFiles.{ClosesFlushed, HasNone, HasRoom, IsForgotten, IsInStateAt, IsKept, IsKeptAt, IsReady, IsTaken, KeepsSame, kept_files};

use crate::flushed::Flush;
use crate::kept::{Kept, State};
use crate::node::{Found, Node};
use sd_names::{NoMemory, Place};
use shared_disk::DiskAnswer;
use std::alloc::Global;
use std::fs::{File, Files};

/// How many files are kept open at once.
const MOST: usize = 32;

/// The files that a disk keeps open, the one that was used last at the end. A file that was written is kept until it is
/// flushed, and one whose flush failed until it is removed.
#[derive(Drop)]
pub struct OpenFiles {
    kept: Vec<Kept>,
}

impl OpenFiles {
    /// No file yet. The room for all of them is taken here.
    pub fn new(alloc: Global) -> Result<OpenFiles, NoMemory>
        ensures none { IfOk result (λ files. kept_files files ≡ []) }
    {
        match Vec::with_capacity(alloc, MOST) {
            Ok(kept) => Ok(OpenFiles { kept }),
            Err(_) => Err(NoMemory),
        }
    }

    // Where a file of the system stands among those that are kept.
    fn find(&self, node: &Node) -> Option<usize>
        ensures found { IfSome result (IsKeptAt node.now (kept_files self.now)) }
        ensures none { IfNone result (HasNone node.now (kept_files self.now)) }
    {
        for k in 0..self.kept.len() {
            if self.kept[k].node().is(node) {
                return Some(k);
            }
        }
        None
    }

    /// Whether a file of the system is kept.
    pub fn has(&self, node: &Node) -> bool
        ensures kept { IsTrue result → IsKept node.now (kept_files self.now) }
        ensures none { result ≡ false → HasNone node.now (kept_files self.now) }
    {
        matches!(self.find(node), Some(_))
    }

    // The file that wasn't used for longest, of those that stand so to their medium.
    fn least_recent(&self, state: State) -> Option<usize>
        ensures found { IfSome result (IsInStateAt state (kept_files self.now)) }
    {
        for k in 0..self.kept.len() {
            if self.kept[k].state() == state {
                return Some(k);
            }
        }
        None
    }

    // Whether a file can be taken: it is kept, or a place is free, or held by a file that is flushed.
    fn is_ready(&self, node: &Node) -> bool
        ensures { IsTrue result → IsReady node.now self.now }
    {
        if self.has(node) || self.kept.len() < self.kept.capacity() {
            return true;
        }
        matches!(self.least_recent(State::Flushed), Some(_))
    }

    /// Sees that a file can be taken. Where it isn't kept, all places are taken and no kept file is flushed, the one that
    /// wasn't used for longest is flushed. All of them stay.
    pub fn make_room(&mut self, node: &Node) -> Result<(), DiskAnswer>
        ensures stay { KeepsSame (kept_files self.old) (kept_files self.new) }
        ensures ready { OnOk result (IsReady node.now self.new) }
        ensures fault { IfErr result (λ answer. answer ≡ DiskAnswer.Failed) }
    {
        if self.is_ready(node) {
            return Ok(());
        }
        match self.least_recent(State::Unflushed) {
            Some(least) => {
                self.kept[least].flush(Flush::All)?;
                Ok(())
            }
            None => Err(DiskAnswer::Failed),
        }
    }

    // Where all places are taken, closes the file that wasn't used for longest, of those that are flushed.
    fn close_one(&mut self) -> Result<(), DiskAnswer>
        ensures room { OnOk result (HasRoom self.new) }
        ensures closed { ClosesFlushed (kept_files self.old) (kept_files self.new) }
        ensures fault { IfErr result (λ answer. answer ≡ DiskAnswer.Failed) }
    {
        if self.kept.len() < self.kept.capacity() {
            return Ok(());
        }
        match self.least_recent(State::Flushed) {
            Some(least) => {
                drop(self.kept.remove(least));
                Ok(())
            }
            None => Err(DiskAnswer::Failed),
        }
    }

    /// Takes the file that was found at a path out of those that are kept, or opens it where it isn't kept. Where all
    /// places are taken then, one that is flushed is closed.
    pub fn take<R: Files<File = File>>(
        &mut self,
        rt: &R,
        path: &str,
        place: &Place,
        found: &Found,
    ) -> Result<Kept, DiskAnswer>
        ensures taken { IfOk result (IsTaken (found_node found.now) (kept_files self.old) (kept_files self.new)) }
        ensures refused { IfErr result (λ _. ClosesFlushed (kept_files self.old) (kept_files self.new)) }
        ensures place { IfOk result (λ kept. kept_place kept ≡ place.now) }
        ensures node { IfOk result (λ kept. kept_node kept ≡ found_node found.now) }
        ensures room { OnOk result (HasRoom self.new) }
        ensures answers { IfErr result IsNoFile }
    {
        match self.find(&found.node) {
            Some(k) => Ok(self.kept.remove(k).found_at(place)),
            None => {
                self.close_one()?;
                Kept::open(rt, path, place, found)
            }
        }
    }

    /// Keeps a file that was taken out, as the one that was used last.
    pub fn put_back(&mut self, kept: Kept)
        requires room { HasRoom self.old }
        ensures kept { kept_files self.new ≡ kept_files self.old ++ kept ∷ [] }
    {
        let _ = self.kept.push(kept);
    }

    /// Closes a file that was removed, whether or not it was flushed.
    pub fn forget(&mut self, node: &Node)
        ensures { IsForgotten node.now (kept_files self.old) (kept_files self.new) }
    {
        if let Some(k) = self.find(node) {
            drop(self.kept.remove(k));
        }
    }
}
