// The shared disk as a folder of the file system.
ghost use Rattle.std.proofs.Common.{rules};
ghost use Rattle.std.specs.Prelude.{◌≡◌, ◌≢◌, ◌+◌, ◌-◌, ◌^◌, ◌<◌, length, min, IfOk, OnOk, Err, Ok};
ghost use Rattle.sd_names.specs.Place.{parent_of};
ghost use Rattle.shared_disk.specs.declared.disk.Exchanged.{Exchanged};
ghost use Rattle.shared_disk.specs.Calls.{HasCause};
ghost use Rattle.folder_disk.specs.declared.names.Change.{Change};
ghost use Rattle.folder_disk.specs.Disk.{HasChanged, HasFlushedFile, HasWritten, disk_calls, disk_done, disk_faults, disk_root};
ghost use Rattle.folder_disk.specs.Path.{folder_named};

use crate::done::Done;
use crate::folder::Folder;
use kept_files::Swapped;
use sd_names::{Dir, HostId, Name, NoMemory, Place};
use shared_disk::{DiskAnswer, Exchanged, SharedDisk};
use std::alloc::Global;
use std::fs::{File, Files};
use std::random::RandomSource;

/// A folder of the file system as the shared disk. Every host writes to the same files at once, and `sync` flushes a
/// file to its medium. It tells no content: what the system does with files is not stated anywhere.
#[derive(Drop)]
pub struct FolderDisk<R> {
    folder: Folder<R>,
    calls: u64,
    faults: u64,
    // What the last call that changed something has done. It is kept for the contracts alone.
    done: Done,
}

impl<R: Files + Drop> FolderDisk<R> {
    /// The folder at the path `root`, or the current folder where that is empty. It is not looked at yet.
    pub fn new(rt: R, alloc: Global, root: &str) -> Result<FolderDisk<R>, NoMemory>
        ensures faults { IfOk result (λ disk. disk_faults disk ≡ 0) }
        ensures calls { IfOk result (λ disk. disk_calls disk ≡ 0) }
        ensures root { IfOk result (λ disk. disk_root disk ≡ folder_named root.now) }
    {
        match Folder::new(rt, alloc, root) {
            Ok(folder) => Ok(FolderDisk {
                folder,
                calls: 0,
                faults: 0,
                done: Done::Nothing,
            }),
            Err(NoMemory) => Err(NoMemory),
        }
    }
}

impl<R> FolderDisk<R> {
    // Counts a call with its answer, and a fault where it failed.
    fn counted<T>(&mut self, answer: Result<T, DiskAnswer>) -> Result<T, DiskAnswer>
        ensures same { result ≡ answer }
        ensures calls { disk_calls self.new ≡ min (disk_calls self.old + 1) (2 ^ 64 - 1) }
        ensures cause { HasCause (disk_faults self.old) (disk_faults self.new) result }
    {
        let _faults = self.faults;
        match answer {
            Ok(told) => {
                self.calls = self.calls.saturating_add(1);
                Ok(told)
            }
            Err(answer) => Err(self.count_answer(answer)),
        }
    }

    // Counts a call that has changed something, and keeps what says so.
    fn count_done(&mut self, done: Done)
        ensures done { disk_done self.new ≡ done }
        ensures calls { disk_calls self.new ≡ min (disk_calls self.old + 1) (2 ^ 64 - 1) }
        ensures faults { disk_faults self.new ≡ disk_faults self.old }
        ensures bound { disk_faults self.new < 2 ^ 64 }
    {
        let _faults = self.faults;
        self.calls = self.calls.saturating_add(1);
        self.done = done;
    }

    // Counts a call that gives an answer, and a fault where it failed.
    fn count_answer(&mut self, answer: DiskAnswer) -> DiskAnswer
        ensures same { result ≡ answer }
        ensures calls { disk_calls self.new ≡ min (disk_calls self.old + 1) (2 ^ 64 - 1) }
        ensures cause { HasCause {T = Unit {0}} (disk_faults self.old) (disk_faults self.new) (Err answer) }
    {
        let faults = self.faults;
        self.calls = self.calls.saturating_add(1);
        if let DiskAnswer::Failed = answer {
            self.faults = faults.saturating_add(1);
        }
        answer
    }
}

/// The lock that `exchange` takes is one of std's own files, so the system's files have to be those.
impl<R: Files<File = File> + RandomSource> SharedDisk for FolderDisk<R> {
    ghost use Rattle.std.specs.Prelude.{None};
    ghost use Rattle.folder_disk.specs.Disk.{disk_faults, disk_calls};

    ghost content = { λ disk. None };

    ghost faults = { disk_faults };

    ghost calls = { disk_calls };

    ghost limits = { λ disk. None };

    fn read_at(
        &mut self,
        _host: HostId,
        place: Place,
        at: u64,
        into: &mut [u8],
    ) -> Result<usize, DiskAnswer> {
        let answer = self.folder.read(&place, at, into);
        self.counted(answer)
    }

    fn write_at(
        &mut self,
        _host: HostId,
        place: Place,
        at: u64,
        bytes: &[u8],
    ) -> Result<(), DiskAnswer>
        ensures cause { HasCause (disk_faults self.old) (disk_faults self.new) result }
        ensures counted { disk_calls self.new ≡ min (disk_calls self.old + 1) (2 ^ 64 - 1) }
        ensures written { OnOk result (HasWritten at (length bytes.now) self.new) }
    {
        match self.folder.write(&place, at, bytes) {
            Ok(written) => {
                self.count_done(Done::Bytes(written.range()));
                Ok(())
            }
            Err(answer) => Err(self.count_answer(answer)),
        }
    }

    fn sync(&mut self, _host: HostId, place: Place) -> Result<(), DiskAnswer>
        ensures cause { HasCause (disk_faults self.old) (disk_faults self.new) result }
        ensures counted { disk_calls self.new ≡ min (disk_calls self.old + 1) (2 ^ 64 - 1) }
        ensures flushed { OnOk result (HasFlushedFile place self.new) }
    {
        match self.folder.sync(&place) {
            Ok(flushed) => {
                self.count_done(Done::File(flushed));
                Ok(())
            }
            Err(answer) => Err(self.count_answer(answer)),
        }
    }

    fn create(&mut self, _host: HostId, place: Place, length: u64) -> Result<(), DiskAnswer>
        ensures cause { HasCause (disk_faults self.old) (disk_faults self.new) result }
        ensures counted { disk_calls self.new ≡ min (disk_calls self.old + 1) (2 ^ 64 - 1) }
        ensures changed { OnOk result (HasChanged Change.FileMade place.dir self.new) }
    {
        match self.folder.create(&place, length) {
            Ok((_, changed, flushed)) => {
                self.count_done(Done::Names(changed, flushed));
                Ok(())
            }
            Err(answer) => Err(self.count_answer(answer)),
        }
    }

    fn length(&mut self, _host: HostId, place: Place) -> Result<u64, DiskAnswer> {
        let answer = self.folder.length(&place);
        self.counted(answer)
    }

    fn make_dir(&mut self, _host: HostId, dir: Dir) -> Result<(), DiskAnswer>
        ensures cause { HasCause (disk_faults self.old) (disk_faults self.new) result }
        ensures counted { disk_calls self.new ≡ min (disk_calls self.old + 1) (2 ^ 64 - 1) }
        ensures changed { OnOk result (HasChanged Change.DirMade (parent_of dir) self.new) }
    {
        match self.folder.make_dir(&dir) {
            Ok((changed, flushed)) => {
                self.count_done(Done::Names(changed, flushed));
                Ok(())
            }
            Err(answer) => Err(self.count_answer(answer)),
        }
    }

    fn grow(&mut self, _host: HostId, place: Place, length: u64) -> Result<(), DiskAnswer>
        ensures cause { HasCause (disk_faults self.old) (disk_faults self.new) result }
        ensures counted { disk_calls self.new ≡ min (disk_calls self.old + 1) (2 ^ 64 - 1) }
        ensures flushed { OnOk result (HasFlushedFile place self.new) }
    {
        match self.folder.grow(&place, length) {
            Ok(grown) => {
                self.count_done(Done::File(grown.flushed));
                Ok(())
            }
            Err(answer) => Err(self.count_answer(answer)),
        }
    }

    fn rename(&mut self, _host: HostId, from: Place, to: Name) -> Result<(), DiskAnswer>
        ensures cause { HasCause (disk_faults self.old) (disk_faults self.new) result }
        ensures counted { disk_calls self.new ≡ min (disk_calls self.old + 1) (2 ^ 64 - 1) }
        ensures changed { OnOk result (HasChanged Change.FileRenamed from.dir self.new) }
    {
        match self.folder.rename(&from, to) {
            Ok((changed, flushed)) => {
                self.count_done(Done::Names(changed, flushed));
                Ok(())
            }
            Err(answer) => Err(self.count_answer(answer)),
        }
    }

    fn remove(&mut self, _host: HostId, place: Place) -> Result<(), DiskAnswer>
        ensures cause { HasCause (disk_faults self.old) (disk_faults self.new) result }
        ensures counted { disk_calls self.new ≡ min (disk_calls self.old + 1) (2 ^ 64 - 1) }
        ensures changed { OnOk result (HasChanged Change.FileRemoved place.dir self.new) }
    {
        match self.folder.remove(&place) {
            Ok((changed, flushed)) => {
                self.count_done(Done::Names(changed, flushed));
                Ok(())
            }
            Err(answer) => Err(self.count_answer(answer)),
        }
    }

    fn remove_dir(&mut self, _host: HostId, dir: Dir) -> Result<(), DiskAnswer>
        ensures cause { HasCause (disk_faults self.old) (disk_faults self.new) result }
        ensures counted { disk_calls self.new ≡ min (disk_calls self.old + 1) (2 ^ 64 - 1) }
        ensures changed { OnOk result (HasChanged Change.DirRemoved (parent_of dir) self.new) }
    {
        match self.folder.remove_dir(&dir) {
            Ok((changed, flushed)) => {
                self.count_done(Done::Names(changed, flushed));
                Ok(())
            }
            Err(answer) => Err(self.count_answer(answer)),
        }
    }

    fn move_dir(&mut self, _host: HostId, from: Dir, to: Dir) -> Result<(), DiskAnswer>
        ensures cause { HasCause (disk_faults self.old) (disk_faults self.new) result }
        ensures counted { disk_calls self.new ≡ min (disk_calls self.old + 1) (2 ^ 64 - 1) }
        ensures changed { OnOk result (HasChanged Change.DirMoved (parent_of from) self.new) }
    {
        match self.folder.move_dir(&from, &to) {
            Ok((changed, flushed)) => {
                self.count_done(Done::Names(changed, flushed));
                Ok(())
            }
            Err(answer) => Err(self.count_answer(answer)),
        }
    }

    fn next_name(
        &mut self,
        _host: HostId,
        dir: Dir,
        after: Option<Name>,
    ) -> Result<Option<Name>, DiskAnswer> {
        let answer = self.folder.next(&dir, after);
        self.counted(answer)
    }

    fn next_dir(
        &mut self,
        _host: HostId,
        dir: Dir,
        after: Option<Dir>,
    ) -> Result<Option<Dir>, DiskAnswer> {
        let answer = self.folder.next(&dir, after);
        self.counted(answer)
    }

    fn exchange(
        &mut self,
        _host: HostId,
        place: Place,
        sector: u64,
        expect: &[u8; 512],
        next: &[u8; 512],
    ) -> Result<Exchanged, DiskAnswer>
        ensures cause { HasCause (disk_faults self.old) (disk_faults self.new) result }
        ensures counted { disk_calls self.new ≡ min (disk_calls self.old + 1) (2 ^ 64 - 1) }
        ensures differs { IfOk result (λ answer. answer ≢ Exchanged.Found expect.now) }
        ensures flushed { result ≡ Ok Exchanged.Done → HasFlushedFile place self.new }
    {
        match self.folder.exchange(&place, sector, expect, next) {
            Ok(Swapped::Done(_, _, flushed)) => {
                self.count_done(Done::File(flushed));
                Ok(Exchanged::Done)
            }
            Ok(Swapped::Found(seen)) => self.counted(Ok(Exchanged::Found(*seen.bytes()))),
            Err(answer) => Err(self.count_answer(answer)),
        }
    }

    /// It does nothing. The host of this process goes down when its machine does, and what it wrote and had not synced
    /// is then left to the system; every other host runs its own process.
    fn down(&mut self, _host: HostId) {}

    fn fault_count(&self) -> u64 {
        self.faults
    }

    ghost well_formed = { Prim.search rules };
}
