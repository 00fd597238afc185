// A file that is kept open from its first call on, so that a flush goes through the descriptor that was written.
ghost use Rattle.std.specs.Prelude.{◌≡◌, ◌↔◌, ◌<◌, ◌≤◌, ◌+◌, ◌-◌, ◌*◌, length, min, Err, IfErr, IfOk, IsErr, IsTrue, OnOk};
ghost use Rattle.kept_files.specs.Length.{padded};
ghost use Rattle.kept_files.specs.Answers.{IsNoFile, IsNoFileOrOutside};
ghost use Rattle.kept_files.specs.Flushed.{flushed_descriptor, flushed_place};
ghost use Rattle.kept_files.specs.Found.{found_node};
ghost use Rattle.kept_files.specs.Kept.{IsSameFile, kept_descriptor, kept_node, kept_place, kept_state};
ghost use Rattle.kept_files.specs.Grown.{IsGrown};
ghost use Rattle.kept_files.specs.Opened.{written_at, written_bytes, written_descriptor};
ghost use Rattle.kept_files.specs.Swapped.{IsSwapped};

use crate::files::{answer_for, count_before, offset_inside, shown_length};
use crate::flushed::{Flush, FlushedFile, flush_file};
use crate::node::{Found, Node};
use crate::written::{Raised, Seen, Written, get, put, raise, see};
use sd_names::Place;
use shared_disk::DiskAnswer;
use std::fs::{File, Files, OpenOptions};

/// How a kept file stands to its medium.
#[derive(Clone, Copy, PartialEq, Eq)]
pub enum State {
    /// Nothing was given to it since it was flushed or opened.
    Flushed,
    /// Bytes or a length were given to it, and not flushed.
    Unflushed,
    /// A flush of it failed. What it was given may be lost, and the system would not tell so again.
    Failed,
}

/// A file that is kept open.
#[derive(Drop)]
pub struct Kept {
    file: File,
    node: Node,
    // The place under which it was last found.
    place: Place,
    state: State,
}

/// What an exchange of a sector came to.
#[derive(Clone, Copy)]
pub enum Swapped<'a> {
    /// The sector held what was expected, the next bytes were written, and the file was flushed.
    Done(Seen, Written<'a>, FlushedFile),
    /// The sector holds other bytes.
    Found(Seen),
}

/// What was done to a file that has so many bytes at least.
#[derive(Clone, Copy)]
pub struct Grown {
    /// The length that it was given, where it had fewer bytes.
    pub raised: Option<Raised>,
    pub flushed: FlushedFile,
}

impl Kept {
    /// Opens the file that was found at a path. Another one that stands there by now is a fault. Since it is opened for
    /// reading and writing, a pipe that took its place meanwhile doesn't hold the call up.
    pub fn open<R: Files<File = File>>(
        rt: &R,
        path: &str,
        place: &Place,
        found: &Found,
    ) -> Result<Kept, DiskAnswer>
        ensures place { IfOk result (λ kept. kept_place kept ≡ place.now) }
        ensures node { IfOk result (λ kept. kept_node kept ≡ found_node found.now) }
        ensures state { IfOk result (λ kept. kept_state kept ≡ State.Flushed) }
        ensures answers { IfErr result IsNoFile }
    {
        let file = OpenOptions::new()
            .read(true)
            .write(true)
            .open(rt, path)
            .map_err(answer_for)?;
        match file.metadata() {
            Ok(metadata) if metadata.is_file() && Node::of(&metadata).is(&found.node) => Ok(Kept {
                file,
                node: found.node,
                place: *place,
                state: State::Flushed,
            }),
            _ => Err(DiskAnswer::Failed),
        }
    }

    /// Which file of the system it is.
    pub fn node(&self) -> Node
        ensures { result ≡ kept_node self.now }
    {
        self.node
    }

    /// How it stands to its medium.
    pub fn state(&self) -> State
        ensures { result ≡ kept_state self.now }
    {
        self.state
    }

    /// Whether a flush of it failed.
    pub fn has_failed(&self) -> bool
        ensures { IsTrue result ↔ (kept_state self.now ≡ State.Failed) }
    {
        matches!(self.state, State::Failed)
    }

    /// The same file, found under a place.
    pub fn found_at(self, place: &Place) -> Kept
        ensures place { kept_place result ≡ place.now }
        ensures descriptor { kept_descriptor result ≡ kept_descriptor self }
        ensures node { kept_node result ≡ kept_node self }
        ensures state { kept_state result ≡ kept_state self }
    {
        Kept {
            file: self.file,
            node: self.node,
            place: *place,
            state: self.state,
        }
    }

    /// Reads from `at` on to the end that is shown of the file or of `into`. Past what the file has there are zeros.
    pub fn read(&self, stored: u64, at: u64, into: &mut [u8]) -> Result<usize, DiskAnswer>
        ensures count { IfOk result (λ count. count ≡ min (length into.old) (padded stored - at)) }
        ensures failed { kept_state self.now ≡ State.Failed → IsErr result }
        ensures fault { IfErr result (λ answer. answer ≡ DiskAnswer.Failed) }
    {
        // The system may have dropped what it couldn't write.
        if self.has_failed() {
            return Err(DiskAnswer::Failed);
        }
        let count = count_before(shown_length(stored)?, at, into.len());
        let kept = count_before(stored, at, count);
        get(&self.file, at, &mut into[..kept])?;
        into[kept..count].fill(0);
        Ok(count)
    }

    // Notes that the file is to be given something. One that failed stays so, and is given nothing more.
    fn begin_change(&mut self) -> Result<(), DiskAnswer>
        ensures failed { kept_state self.old ≡ State.Failed → IsErr result }
        ensures stays { kept_state self.old ≡ State.Failed → kept_state self.new ≡ State.Failed }
        ensures unflushed { OnOk result (kept_state self.new ≡ State.Unflushed) }
        ensures same { IsSameFile self.old self.new }
        ensures fault { IfErr result (λ answer. answer ≡ DiskAnswer.Failed) }
    {
        match self.state {
            State::Failed => Err(DiskAnswer::Failed),
            State::Flushed | State::Unflushed => {
                self.state = State::Unflushed;
                Ok(())
            }
        }
    }

    /// Writes from `at` on, inside the length that is shown of the file.
    pub fn write<'a>(
        &mut self,
        stored: u64,
        at: u64,
        bytes: &'a [u8],
    ) -> Result<Written<'a>, DiskAnswer>
        ensures descriptor { IfOk result (λ written. written_descriptor written ≡ kept_descriptor self.old) }
        ensures at { IfOk result (λ written. written_at written ≡ at) }
        ensures bytes { IfOk result (λ written. written_bytes written ≡ bytes.now) }
        ensures inside { OnOk result (length bytes.now ≤ padded stored - at) }
        ensures outside { result ≡ Err DiskAnswer.OutOfFile → padded stored - at < length bytes.now }
        ensures unflushed { OnOk result (kept_state self.new ≡ State.Unflushed) }
        ensures stays { kept_state self.old ≡ State.Failed → kept_state self.new ≡ State.Failed }
        ensures same { IsSameFile self.old self.new }
        ensures answers { IfErr result IsNoFileOrOutside }
    {
        if count_before(shown_length(stored)?, at, bytes.len()) < bytes.len() {
            return Err(DiskAnswer::OutOfFile);
        }
        self.begin_change()?;
        put(&self.file, at, bytes)
    }

    /// Flushes the file, through the descriptor by which it was written. Where that fails the file has failed for good.
    pub fn flush(&mut self, flush: Flush) -> Result<FlushedFile, DiskAnswer>
        ensures flushed { IfOk result (λ flushed. flushed_place flushed ≡ kept_place self.old) }
        ensures descriptor { IfOk result (λ flushed. flushed_descriptor flushed ≡ kept_descriptor self.old) }
        ensures failed { kept_state self.old ≡ State.Failed → IsErr result }
        ensures done { OnOk result (kept_state self.new ≡ State.Flushed) }
        ensures remembered { IfErr result (λ _. kept_state self.new ≡ State.Failed) }
        ensures same { IsSameFile self.old self.new }
        ensures fault { IfErr result (λ answer. answer ≡ DiskAnswer.Failed) }
    {
        if let State::Failed = self.state {
            return Err(DiskAnswer::Failed);
        }
        match flush_file(&self.file, &self.place, flush) {
            Ok(flushed) => {
                self.state = State::Flushed;
                Ok(flushed)
            }
            Err(answer) => {
                self.state = State::Failed;
                Err(answer)
            }
        }
    }

    /// Raises the file's length with zeros where it has fewer bytes, and flushes it.
    pub fn grow(&mut self, stored: u64, length: u64) -> Result<Grown, DiskAnswer>
        ensures grown { IfOk result (IsGrown (kept_descriptor self.old) (kept_place self.old) stored length) }
        ensures done { OnOk result (kept_state self.new ≡ State.Flushed) }
        ensures failed { kept_state self.old ≡ State.Failed → IsErr result }
        ensures stays { kept_state self.old ≡ State.Failed → kept_state self.new ≡ State.Failed }
        ensures same { IsSameFile self.old self.new }
        ensures fault { IfErr result (λ answer. answer ≡ DiskAnswer.Failed) }
    {
        self.begin_change()?;
        let raised = raise(&self.file, stored, length)?;
        // A call that failed may have raised the length and not flushed it.
        let flushed = self.flush(Flush::All)?;
        Ok(Grown { raised, flushed })
    }

    /// Puts `next` into a sector where it holds `expect`, and flushes the file; else answers what it holds. The file is
    /// locked meanwhile, and a lock that isn't to be had at once is a fault.
    pub fn exchange<'a>(
        &mut self,
        stored: u64,
        sector: u64,
        expect: &[u8; 512],
        next: &'a [u8; 512],
    ) -> Result<Swapped<'a>, DiskAnswer>
        ensures swapped { IfOk result (IsSwapped (kept_descriptor self.old) (kept_place self.old) sector expect.now next.now) }
        ensures inside { OnOk result (sector * 512 + 512 ≤ padded stored) }
        ensures outside { result ≡ Err DiskAnswer.OutOfFile → padded stored < sector * 512 + 512 }
        ensures failed { kept_state self.old ≡ State.Failed → IsErr result }
        ensures stays { kept_state self.old ≡ State.Failed → kept_state self.new ≡ State.Failed }
        ensures same { IsSameFile self.old self.new }
        ensures answers { IfErr result IsNoFileOrOutside }
    {
        if self.has_failed() || self.file.try_lock().is_err() {
            return Err(DiskAnswer::Failed);
        }
        let answer = self.exchange_locked(stored, sector, expect, next);
        match self.file.unlock() {
            Ok(()) => answer,
            Err(_) => Err(DiskAnswer::Failed),
        }
    }

    // Exchanges a sector of a file that is locked.
    fn exchange_locked<'a>(
        &mut self,
        stored: u64,
        sector: u64,
        expect: &[u8; 512],
        next: &'a [u8; 512],
    ) -> Result<Swapped<'a>, DiskAnswer>
        ensures swapped { IfOk result (IsSwapped (kept_descriptor self.old) (kept_place self.old) sector expect.now next.now) }
        ensures inside { OnOk result (sector * 512 + 512 ≤ padded stored) }
        ensures outside { result ≡ Err DiskAnswer.OutOfFile → padded stored < sector * 512 + 512 }
        ensures stays { kept_state self.old ≡ State.Failed → kept_state self.new ≡ State.Failed }
        ensures same { IsSameFile self.old self.new }
        ensures answers { IfErr result IsNoFileOrOutside }
    {
        let at = match offset_inside(shown_length(stored)?, sector) {
            Some(at) => at,
            None => return Err(DiskAnswer::OutOfFile),
        };
        let seen = see(&self.file, stored, at)?;
        if seen.bytes() != expect {
            return Ok(Swapped::Found(seen));
        }
        self.begin_change()?;
        let written = put(&self.file, at, next)?;
        let flushed = self.flush(Flush::Bytes)?;
        Ok(Swapped::Done(seen, written, flushed))
    }
}
