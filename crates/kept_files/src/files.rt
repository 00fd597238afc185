// What the calls of a folder's disk do with a file of the system.
ghost use Rattle.std.specs.Prelude.{true, false, ◌≡◌, ◌≢◌, ◌+◌, ◌-◌, ◌*◌, ◌^◌, ◌<◌, ◌≤◌, min, IfOk, IfErr, IsOk, IsSome, ◌↔◌, IfSome};
ghost use Rattle.std.specs.IoError.{error_kind};
ghost use Rattle.kept_files.specs.Answers.{IsNoFileOrExists};
ghost use Rattle.kept_files.specs.Length.{padded};
ghost use Rattle.kept_files.specs.Grown.{IsGrown, IsMade};
ghost use Rattle.std.specs.Fd.{file_raw_fd};

use crate::flushed::{Flush, flush_file};
use crate::kept::Grown;
use crate::node::{Node, look};
use crate::written::raise;
use sd_names::Place;
use shared_disk::DiskAnswer;
use std::fs::{File, Files, OpenOptions};
use std::io::{Error, ErrorKind};

/// Bytes in a sector: a file's length is shown as a multiple of it.
const SECTOR: u64 = 512;

/// The answer for an error of the system at a path: `NoFile` where nothing is there, and else a fault.
pub fn answer_for(error: Error) -> DiskAnswer
    ensures absent { error_kind error ≡ ErrorKind.NotFound → result ≡ DiskAnswer.NoFile }
    ensures fault { error_kind error ≢ ErrorKind.NotFound → result ≡ DiskAnswer.Failed }
{
    match error.kind() {
        ErrorKind::NotFound => DiskAnswer::NoFile,
        _ => DiskAnswer::Failed,
    }
}

/// The answer for an error of the system where something was to be made: `Exists` where it is there already.
pub fn answer_for_new(error: Error, is_there: bool) -> DiskAnswer
    ensures absent { error_kind error ≡ ErrorKind.NotFound → result ≡ DiskAnswer.NoFile }
    ensures exists { error_kind error ≡ ErrorKind.AlreadyExists → is_there ≡ true → result ≡ DiskAnswer.Exists }
    ensures other { error_kind error ≡ ErrorKind.AlreadyExists → is_there ≡ false → result ≡ DiskAnswer.Failed }
    ensures fault { error_kind error ≢ ErrorKind.NotFound → error_kind error ≢ ErrorKind.AlreadyExists → result ≡ DiskAnswer.Failed }
{
    match error.kind() {
        ErrorKind::NotFound => DiskAnswer::NoFile,
        ErrorKind::AlreadyExists if is_there => DiskAnswer::Exists,
        _ => DiskAnswer::Failed,
    }
}

/// The length that the disk shows of a file of so many bytes: padded with zeros to whole sectors.
pub fn shown_length(stored: u64) -> Result<u64, DiskAnswer>
    ensures shown { IfOk result (λ shown. shown ≡ padded stored) }
    ensures answered { padded stored < 2 ^ 64 → IsOk result }
    ensures fault { IfErr result (λ answer. answer ≡ DiskAnswer.Failed) }
{
    match stored.checked_next_multiple_of(SECTOR) {
        Some(shown) => Ok(shown),
        None => Err(DiskAnswer::Failed),
    }
}

/// How many of so many bytes from `at` on lie before an end.
pub(crate) fn count_before(end: u64, at: u64, most: usize) -> usize
    ensures { result ≡ min most (end - at) }
{
    (most as u64).min(end.saturating_sub(at)) as usize
}

/// Makes a sparse file of zeros, and flushes it, before it gets its name. It is made under another name in the same
/// folder, which shows no such name, and which it loses at the end. A file that has the name already keeps it.
pub fn create<R: Files<File = File>>(
    rt: &R,
    new: &str,
    path: &str,
    place: &Place,
    length: u64,
) -> Result<Grown, DiskAnswer>
    ensures made { IfOk result (IsMade place.now length) }
    ensures answers { IfErr result IsNoFileOrExists }
{
    let file = OpenOptions::new()
        .write(true)
        .create_new(true)
        .open(rt, new)
        .map_err(answer_for)?;
    let made = make(rt, &file, new, path, place, length);
    // Where this fails, the folder has a name more that it doesn't show.
    let _ = rt.remove_file(new);
    made
}

// Gives a new file its length, flushes it, and gives it its name.
fn make<R: Files>(
    rt: &R,
    file: &File,
    new: &str,
    path: &str,
    place: &Place,
    length: u64,
) -> Result<Grown, DiskAnswer>
    ensures made { IfOk result (IsMade place.now length) }
    ensures answers { IfErr result IsNoFileOrExists }
{
    let made = give_length(file, place, length)?;
    give_name(rt, file, new, path)?;
    Ok(made)
}

// Gives a new file its length, and flushes it.
fn give_length(file: &File, place: &Place, length: u64) -> Result<Grown, DiskAnswer>
    ensures grown { IfOk result (IsGrown (file_raw_fd file.now) place.now 0 length) }
    ensures fault { IfErr result (λ answer. answer ≡ DiskAnswer.Failed) }
{
    let raised = raise(file, 0, length)?;
    let flushed = flush_file(file, place, Flush::All)?;
    Ok(Grown { raised, flushed })
}

// Gives an open file a second name, which nothing may have. Where the system says that something has it, the file itself
// may: a call that a network file system sends twice is answered so.
fn give_name<R: Files>(rt: &R, file: &File, from: &str, to: &str) -> Result<(), DiskAnswer>
    ensures answers { IfErr result IsNoFileOrExists }
{
    let error = match rt.hard_link(from, to) {
        Ok(()) => return Ok(()),
        Err(error) => error,
    };
    match (look(rt, to), file.metadata()) {
        (Ok(found), Ok(own)) if found.node.is(&Node::of(&own)) => Ok(()),
        (there, _) => Err(answer_for_new(error, there.is_ok())),
    }
}

/// The offset of a sector that lies inside a length.
pub(crate) fn offset_inside(shown: u64, sector: u64) -> Option<u64>
    ensures inside { IsSome result ↔ (sector * 512 + 512 ≤ shown) }
    ensures offset { IfSome result (λ at. at ≡ sector * 512) }
{
    if sector < shown / SECTOR {
        Some(sector * SECTOR)
    } else {
        None
    }
}
