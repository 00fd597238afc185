// The trait of a shared folder: what its calls answer and leave.
ghost use Rattle.std.specs.Prelude.{◌≡◌, ◌≢◌, ℕ, ◌+◌, ◌-◌, ◌*◌, ◌/◌, ◌^◌, ◌≤◌, min, Option, Some, length, IfOk};
ghost use Rattle.sd_names.specs.declared.place.Dir.TheVariants.{Root};
ghost use Rattle.shared_disk.specs.Content.{Content};
ghost use Rattle.sd_names.specs.declared.place.Place.{Place};
ghost use Rattle.shared_disk.specs.declared.disk.Exchanged.TheVariants.{Found};
ghost use Rattle.shared_disk.specs.Crash.{DownLeaves};
ghost use Rattle.shared_disk.specs.NameCalls.{AnswersDirAbove, AnswersNameAbove, AreImageDirs, MovesDir, NextDir, NextName, Removes, RemovesDir, Renames};
ghost use Rattle.shared_disk.specs.SectorCalls.{Exchanges, Grows};
ghost use Rattle.shared_disk.specs.WellFormed.{IsWellFormed};
ghost use Rattle.shared_disk.specs.Limits.{IsSameRoom, KeepsLimits, Limits, adds, adds_at_most, frees};
ghost use Rattle.shared_disk.specs.Calls.{IsAligned, IsPiece, ReadAt, WriteAt, Syncs, Creates, HasLength, MakesDir, Told, HasCause};

use sd_names::{Dir, HostId, Name, Place};

/// Why a call of a disk did not do what it was asked. `Failed` comes before every other answer.
#[derive(Clone, Copy, Debug, PartialEq, Eq)]
pub enum DiskAnswer {
    /// The file or folder that the call works on isn't there.
    NoFile,
    /// What the call would make is there already.
    Exists,
    /// The range lies outside the file.
    OutOfFile,
    /// The folder has entries.
    NotEmpty,
    /// The disk failed. Its count of faults rose in this call, or stands at 2^64 - 1.
    Failed,
}

/// What an exchange of a sector came to.
#[derive(Clone, Copy, Debug, PartialEq, Eq)]
pub enum Exchanged {
    /// The sector was as expected, and the next bytes stand there.
    Done,
    /// The sector held these bytes, which differ from those that were expected, and holds them still.
    Found([u8; 512]),
}

/// A folder that several hosts share. Lengths and offsets are in bytes and multiples of 512; a sector of 512 bytes
/// is what a crash leaves whole. A host sees its own writes at once; until it has synced the file, its crash may
/// undo each of them.
pub trait SharedDisk {
    /// What the folder holds, where the disk tells it.
    ghost content: { Self → Option Content };

    /// How often a call has failed. It stands still at 2^64 - 1.
    ghost faults: { Self → ℕ };

    /// How many calls were made, `down` and `fault_count` not counted. It stands still at 2^64 - 1.
    ghost calls: { Self → ℕ };

    /// The units in use, the room for them and the numbers of the calls that fail, where the disk tells them. It fails in
    /// no other call then but one that would need more units than the room, and a call that fails changes nothing.
    ghost limits: { Self → Option Limits };

    /// Reads from `at` on to the end of the file or of `into`, and answers how many bytes were read, which stand at
    /// the front of `into`; the rest of it is as it was.
    fn read_at(
        &mut self,
        host: HostId,
        place: Place,
        at: u64,
        into: &mut [u8],
    ) -> Result<usize, DiskAnswer>
        requires aligned { IsAligned at }
        requires piece { IsPiece (length into.old) }
        ensures cause { HasCause (faults self.old) (faults self.new) result }
        ensures counted { calls self.new ≡ min (calls self.old + 1) (2 ^ 64 - 1) }
        ensures bound { IfOk result (λ count. count ≤ length into.old) }
        ensures call { Told (content self.old) (content self.new) (λ d e. ReadAt d host place (at / 512) into.old into.new result e) }
        ensures limits { Told (limits self.old) (limits self.new) (KeepsLimits (adds 0) (calls self.old) (faults self.old) (faults self.new) (content self.old) (content self.new) result) };

    /// Writes from `at` on, inside the file. Until this host has synced the file, its crash may leave each sector as it
    /// was or with any of the values written since.
    fn write_at(
        &mut self,
        host: HostId,
        place: Place,
        at: u64,
        bytes: &[u8],
    ) -> Result<(), DiskAnswer>
        requires aligned { IsAligned at }
        requires piece { IsPiece (length bytes.now) }
        ensures cause { HasCause (faults self.old) (faults self.new) result }
        ensures counted { calls self.new ≡ min (calls self.old + 1) (2 ^ 64 - 1) }
        ensures call { Told (content self.old) (content self.new) (λ d e. WriteAt d host place (at / 512) bytes.now result e) }
        ensures limits { Told (limits self.old) (limits self.new) (KeepsLimits (adds (length bytes.now / 512)) (calls self.old) (faults self.old) (faults self.new) (content self.old) (content self.new) result) };

    /// Puts this host's writes of the file onto the medium.
    fn sync(&mut self, host: HostId, place: Place) -> Result<(), DiskAnswer>
        ensures cause { HasCause (faults self.old) (faults self.new) result }
        ensures counted { calls self.new ≡ min (calls self.old + 1) (2 ^ 64 - 1) }
        ensures call { Told (content self.old) (content self.new) (λ d e. Syncs d host place result e) }
        ensures limits { Told (limits self.old) (limits self.new) (KeepsLimits (adds_at_most 0) (calls self.old) (faults self.old) (faults self.new) (content self.old) (content self.new) result) };

    /// Makes a file of zeros. Until this host has synced it, its crash may leave any bytes in it.
    fn create(&mut self, host: HostId, place: Place, length: u64) -> Result<(), DiskAnswer>
        requires aligned { IsAligned length }
        ensures cause { HasCause (faults self.old) (faults self.new) result }
        ensures counted { calls self.new ≡ min (calls self.old + 1) (2 ^ 64 - 1) }
        ensures call { Told (content self.old) (content self.new) (λ d e. Creates d host place (length / 512) result e) }
        ensures limits { Told (limits self.old) (limits self.new) (KeepsLimits (adds 1) (calls self.old) (faults self.old) (faults self.new) (content self.old) (content self.new) result) };

    /// The file's length.
    fn length(&mut self, host: HostId, place: Place) -> Result<u64, DiskAnswer>
        ensures cause { HasCause (faults self.old) (faults self.new) result }
        ensures counted { calls self.new ≡ min (calls self.old + 1) (2 ^ 64 - 1) }
        ensures call { Told (content self.old) (content self.new) (λ d e. HasLength d place result e) }
        ensures limits { Told (limits self.old) (limits self.new) (KeepsLimits (adds 0) (calls self.old) (faults self.old) (faults self.new) (content self.old) (content self.new) result) };

    /// Makes a folder.
    fn make_dir(&mut self, host: HostId, dir: Dir) -> Result<(), DiskAnswer>
        requires { dir ≢ Root }
        ensures cause { HasCause (faults self.old) (faults self.new) result }
        ensures counted { calls self.new ≡ min (calls self.old + 1) (2 ^ 64 - 1) }
        ensures call { Told (content self.old) (content self.new) (λ d e. MakesDir d dir result e) }
        ensures limits { Told (limits self.old) (limits self.new) (KeepsLimits (adds 1) (calls self.old) (faults self.old) (faults self.new) (content self.old) (content self.new) result) };

    /// Raises the file's length with zeros, and does nothing where it is that long. The length is on the medium then.
    fn grow(&mut self, host: HostId, place: Place, length: u64) -> Result<(), DiskAnswer>
        requires aligned { IsAligned length }
        ensures cause { HasCause (faults self.old) (faults self.new) result }
        ensures counted { calls self.new ≡ min (calls self.old + 1) (2 ^ 64 - 1) }
        ensures call { Told (content self.old) (content self.new) (λ d e. Grows d place (length / 512) result e) }
        ensures limits { Told (limits self.old) (limits self.new) (KeepsLimits (adds 0) (calls self.old) (faults self.old) (faults self.new) (content self.old) (content self.new) result) };

    /// Gives the file another name in its folder, in place of a file that has it. Its unsynced writes stay unsynced.
    fn rename(&mut self, host: HostId, from: Place, to: Name) -> Result<(), DiskAnswer>
        requires other { from.name ≢ to }
        ensures cause { HasCause (faults self.old) (faults self.new) result }
        ensures counted { calls self.new ≡ min (calls self.old + 1) (2 ^ 64 - 1) }
        ensures call { Told (content self.old) (content self.new) (λ d e. Renames d from to result e) }
        ensures limits { Told (limits self.old) (limits self.new) (KeepsLimits (adds_at_most 0) (calls self.old) (faults self.old) (faults self.new) (content self.old) (content self.new) result) };

    /// Removes the file, with all that is unsynced in it.
    fn remove(&mut self, host: HostId, place: Place) -> Result<(), DiskAnswer>
        ensures cause { HasCause (faults self.old) (faults self.new) result }
        ensures counted { calls self.new ≡ min (calls self.old + 1) (2 ^ 64 - 1) }
        ensures call { Told (content self.old) (content self.new) (λ d e. Removes d place result e) }
        ensures limits { Told (limits self.old) (limits self.new) (KeepsLimits frees (calls self.old) (faults self.old) (faults self.new) (content self.old) (content self.new) result) };

    /// Removes a folder that shows neither a name nor a folder.
    fn remove_dir(&mut self, host: HostId, dir: Dir) -> Result<(), DiskAnswer>
        requires { dir ≢ Root }
        ensures cause { HasCause (faults self.old) (faults self.new) result }
        ensures counted { calls self.new ≡ min (calls self.old + 1) (2 ^ 64 - 1) }
        ensures call { Told (content self.old) (content self.new) (λ d e. RemovesDir d dir result e) }
        ensures limits { Told (limits self.old) (limits self.new) (KeepsLimits frees (calls self.old) (faults self.old) (faults self.new) (content self.old) (content self.new) result) };

    /// Moves an image's folder, with its files, among the images of its domain. What is unsynced stays so.
    fn move_dir(&mut self, host: HostId, from: Dir, to: Dir) -> Result<(), DiskAnswer>
        requires images { AreImageDirs from to }
        requires other { from ≢ to }
        ensures cause { HasCause (faults self.old) (faults self.new) result }
        ensures counted { calls self.new ≡ min (calls self.old + 1) (2 ^ 64 - 1) }
        ensures call { Told (content self.old) (content self.new) (λ d e. MovesDir d from to result e) }
        ensures limits { Told (limits self.old) (limits self.new) (KeepsLimits (adds 0) (calls self.old) (faults self.old) (faults self.new) (content self.old) (content self.new) result) };

    /// The least name above `after` in a folder.
    fn next_name(
        &mut self,
        host: HostId,
        dir: Dir,
        after: Option<Name>,
    ) -> Result<Option<Name>, DiskAnswer>
        ensures cause { HasCause (faults self.old) (faults self.new) result }
        ensures counted { calls self.new ≡ min (calls self.old + 1) (2 ^ 64 - 1) }
        ensures above { IfOk result (AnswersNameAbove after) }
        ensures call { Told (content self.old) (content self.new) (λ d e. NextName d dir after result e) }
        ensures limits { Told (limits self.old) (limits self.new) (KeepsLimits (adds 0) (calls self.old) (faults self.old) (faults self.new) (content self.old) (content self.new) result) };

    /// The least folder above `after` in a folder.
    fn next_dir(
        &mut self,
        host: HostId,
        dir: Dir,
        after: Option<Dir>,
    ) -> Result<Option<Dir>, DiskAnswer>
        ensures cause { HasCause (faults self.old) (faults self.new) result }
        ensures counted { calls self.new ≡ min (calls self.old + 1) (2 ^ 64 - 1) }
        ensures above { IfOk result (AnswersDirAbove after) }
        ensures call { Told (content self.old) (content self.new) (λ d e. NextDir d dir after result e) }
        ensures limits { Told (limits self.old) (limits self.new) (KeepsLimits (adds 0) (calls self.old) (faults self.old) (faults self.new) (content self.old) (content self.new) result) };

    /// Puts `next` into a sector exactly where it holds `expect`, in one moment; else answers what it holds. The sector
    /// is on the medium then, and no unsynced write of it is left.
    fn exchange(
        &mut self,
        host: HostId,
        place: Place,
        sector: u64,
        expect: &[u8; 512],
        next: &[u8; 512],
    ) -> Result<Exchanged, DiskAnswer>
        ensures cause { HasCause (faults self.old) (faults self.new) result }
        ensures counted { calls self.new ≡ min (calls self.old + 1) (2 ^ 64 - 1) }
        ensures differs { IfOk result (λ answer. answer ≢ Found expect.now) }
        ensures call { Told (content self.old) (content self.new) (λ d e. Exchanges d host place sector expect.now next.now result e) }
        ensures limits { Told (limits self.old) (limits self.new) (KeepsLimits (adds_at_most 1) (calls self.old) (faults self.old) (faults self.new) (content self.old) (content self.new) result) };

    /// The host goes down: each sector that it wrote and had not synced is old or any of the values it wrote, and a file
    /// that it made and had not synced holds any bytes. It isn't counted as a call, and never fails.
    fn down(&mut self, host: HostId)
        ensures faults { faults self.new ≡ faults self.old }
        ensures counted { calls self.new ≡ calls self.old }
        ensures call { Told (content self.old) (content self.new) (λ d e. DownLeaves d host e) }
        ensures limits { Told (limits self.old) (limits self.new) IsSameRoom };

    /// The count of faults. It isn't a call of the disk and changes nothing.
    fn fault_count(&self) -> u64
        ensures { result ≡ faults self.now };

    /// What a disk tells of its content has the root, the folder of each folder and of each file, and in its files
    /// sectors of 512 bytes and unsynced writes of hosts that lie within the file.
    ghost well_formed: { (disk : Self) (d : Content) → content disk ≡ Some d → IsWellFormed d };
}
