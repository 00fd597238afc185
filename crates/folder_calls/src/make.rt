// Makes calls of the disk.
ghost use Rattle.std.specs.Prelude.{IsTrue};
ghost use Rattle.shared_disk.specs.Calls.{IsAligned};
ghost use Rattle.shared_disk.specs.NameCalls.{AreImageDirs};

use crate::call::{OnFile, OnFolder};
use folder_disk::FolderDisk;
use sd_names::{Dir, HostId, Place};
use shared_disk::{DiskAnswer, Exchanged, SharedDisk};

/// Bytes that a call may read.
pub(crate) const ROOM: usize = 2048;

/// Bytes of a piece of a filling.
const PIECE: usize = 65536;

/// What a call tells.
#[derive(Clone, Copy)]
pub(crate) enum Told {
    Nothing,
    /// A length or a count, in bytes.
    Number(u64),
    /// How many bytes were read.
    Read(usize),
    /// A sector holds these bytes.
    Found([u8; 512]),
}

/// Makes a call on a file. `None` where it may not be made.
pub(crate) fn on_file(
    disk: &mut FolderDisk<&HostRuntime>,
    host: HostId,
    place: Place,
    call: OnFile,
    room: &mut [u8; ROOM],
) -> Option<Result<Told, DiskAnswer>> {
    match call {
        OnFile::Create(sectors) => Some(done(disk.create(host, place, in_bytes(sectors)))),
        OnFile::Length => Some(number(disk.length(host, place))),
        OnFile::Grow(sectors) => Some(done(disk.grow(host, place, in_bytes(sectors)))),
        OnFile::Read(at) => Some(count(disk.read_at(host, place, in_bytes(at), room))),
        OnFile::Write(at, byte) => {
            Some(done(disk.write_at(host, place, in_bytes(at), &[byte; 512])))
        }
        OnFile::WriteTwo(at, byte) => {
            Some(done(disk.write_at(host, place, in_bytes(at), &[byte; 1024])))
        }
        OnFile::Fill(pieces) => Some(fill(disk, host, place, pieces)),
        OnFile::Sync => Some(done(disk.sync(host, place))),
        OnFile::Exchange(sector, expect, next) => {
            let answer = disk.exchange(host, place, sector, &[expect; 512], &[next; 512]);
            Some(exchanged(answer))
        }
        OnFile::Rename(to) => {
            if place.name.is(&to) {
                None
            } else {
                Some(done(disk.rename(host, place, to)))
            }
        }
        OnFile::Remove => Some(done(disk.remove(host, place))),
    }
}

/// Makes a call on a folder that tells nothing. `None` where it may not be made.
pub(crate) fn on_folder(
    disk: &mut FolderDisk<&HostRuntime>,
    host: HostId,
    dir: Dir,
    call: OnFolder,
) -> Option<Result<Told, DiskAnswer>> {
    if dir.is(&Dir::Root) {
        return None;
    }
    match call {
        OnFolder::Make => Some(done(disk.make_dir(host, dir))),
        OnFolder::Remove => Some(done(disk.remove_dir(host, dir))),
        OnFolder::Move(to) => {
            if dir.is(&to) || !are_images(&dir, &to) {
                None
            } else {
                Some(done(disk.move_dir(host, dir, to)))
            }
        }
        OnFolder::Names | OnFolder::Dirs => None,
    }
}

// Writes pieces of a file from its front on, and flushes it behind each.
fn fill(
    disk: &mut FolderDisk<&HostRuntime>,
    host: HostId,
    place: Place,
    pieces: u32,
) -> Result<Told, DiskAnswer> {
    let piece = [0x41; PIECE];
    for k in 0..pieces {
        disk.write_at(host, place, u64::from(k) * PIECE as u64, &piece)?;
        disk.sync(host, place)?;
    }
    Ok(Told::Nothing)
}

// How many bytes so many sectors have.
fn in_bytes(sectors: u32) -> u64
    ensures { IsAligned result }
{
    u64::from(sectors) * 512
}

// Whether the two are folders of images, of one domain.
fn are_images(from: &Dir, to: &Dir) -> bool
    ensures { IsTrue result → AreImageDirs from.now to.now }
{
    match (from, to) {
        (Dir::Image(sd, _), Dir::Image(other, _)) => sd == other,
        (Dir::Image(sd, _), Dir::Removed(other, _)) => sd == other,
        (Dir::Removed(sd, _), Dir::Image(other, _)) => sd == other,
        (Dir::Removed(sd, _), Dir::Removed(other, _)) => sd == other,
        _ => false,
    }
}

// The answer of a call that tells nothing.
fn done(answer: Result<(), DiskAnswer>) -> Result<Told, DiskAnswer> {
    match answer {
        Ok(()) => Ok(Told::Nothing),
        Err(answer) => Err(answer),
    }
}

// The answer of a call that tells a length.
fn number(answer: Result<u64, DiskAnswer>) -> Result<Told, DiskAnswer> {
    match answer {
        Ok(length) => Ok(Told::Number(length)),
        Err(answer) => Err(answer),
    }
}

// The answer of a read.
fn count(answer: Result<usize, DiskAnswer>) -> Result<Told, DiskAnswer> {
    match answer {
        Ok(count) => Ok(Told::Read(count)),
        Err(answer) => Err(answer),
    }
}

// The answer of an exchange.
fn exchanged(answer: Result<Exchanged, DiskAnswer>) -> Result<Told, DiskAnswer> {
    match answer {
        Ok(Exchanged::Done) => Ok(Told::Nothing),
        Ok(Exchanged::Found(bytes)) => Ok(Told::Found(bytes)),
        Err(answer) => Err(answer),
    }
}
