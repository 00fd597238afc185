// What the calls of a folder's disk do with the names of the system.
ghost use Rattle.std.specs.Prelude.{◌≡◌, IfErr, IfOk, IfSome};
ghost use Rattle.kept_files.specs.Answers.{IsNoFile, IsNoFileOrExists};
ghost use Rattle.kept_files.specs.Grown.{IsMade};
ghost use Rattle.folder_disk.specs.Changed.{change_of};

use kept_files::{Grown, answer_for, answer_for_new, create};
use sd_names::Place;
use shared_disk::DiskAnswer;
use std::alloc::Global;
use std::fs::{File, Files};
use std::io::ErrorKind;

/// What was done to the names in a folder.
#[derive(Clone, Copy)]
pub(crate) enum Change {
    FileMade,
    FileRenamed,
    FileRemoved,
    DirMade,
    DirRemoved,
    DirMoved,
}

/// Says what the system has done to names. Nothing but a call of the system makes one.
#[derive(Clone, Copy)]
pub(crate) struct Changed {
    change: Change,
}

/// Makes a file of zeros, by way of another name in the same folder.
pub(crate) fn make_file<R: Files<File = File>>(
    rt: &R,
    new: &str,
    path: &str,
    place: &Place,
    length: u64,
) -> Result<(Grown, Changed), DiskAnswer>
    ensures made { IfOk result (λ made. IsMade place.now length made.0) }
    ensures change { IfOk result (λ made. change_of made.1 ≡ Change.FileMade) }
    ensures answers { IfErr result IsNoFileOrExists }
{
    match create(rt, new, path, place, length) {
        Ok(made) => Ok((
            made,
            Changed {
                change: Change::FileMade,
            },
        )),
        Err(answer) => Err(answer),
    }
}

/// Makes a folder.
pub(crate) fn make_dir<R: Files>(rt: &R, path: &str) -> Result<Changed, DiskAnswer>
    ensures change { IfOk result (λ changed. change_of changed ≡ Change.DirMade) }
    ensures answers { IfErr result IsNoFileOrExists }
{
    match rt.create_dir(path) {
        Ok(()) => Ok(Changed {
            change: Change::DirMade,
        }),
        Err(error) => Err(answer_for_new(error, is_dir(rt, path))),
    }
}

/// Sees that a folder stands at a path, and no link to one.
pub(crate) fn check_dir<R: Files>(rt: &R, path: &str) -> Result<(), DiskAnswer>
    ensures answers { IfErr result IsNoFile }
{
    let metadata = rt
        .symlink_metadata(path)
        .map_err(|error| answer_for(error))?;
    if metadata.is_dir() {
        Ok(())
    } else {
        Err(DiskAnswer::Failed)
    }
}

// Whether a folder stands at the path, and no link to one.
fn is_dir<R: Files>(rt: &R, path: &str) -> bool {
    match rt.symlink_metadata(path) {
        Ok(metadata) => metadata.is_dir(),
        Err(_) => false,
    }
}

/// Gives a file another path on the same file system, in place of a file that stands there.
pub(crate) fn rename<R: Files>(rt: &R, from: &str, to: &str) -> Result<Changed, DiskAnswer>
    ensures change { IfOk result (λ changed. change_of changed ≡ Change.FileRenamed) }
    ensures answers { IfErr result IsNoFile }
{
    match rt.rename(from, to) {
        Ok(()) => Ok(Changed {
            change: Change::FileRenamed,
        }),
        Err(error) => Err(answer_for(error)),
    }
}

/// Removes a file.
pub(crate) fn remove<R: Files>(rt: &R, path: &str) -> Result<Changed, DiskAnswer>
    ensures change { IfOk result (λ changed. change_of changed ≡ Change.FileRemoved) }
    ensures answers { IfErr result IsNoFile }
{
    match rt.remove_file(path) {
        Ok(()) => Ok(Changed {
            change: Change::FileRemoved,
        }),
        Err(error) => Err(answer_for(error)),
    }
}

/// Removes a folder where it is empty. `None` where it isn't.
pub(crate) fn remove_empty<R: Files>(rt: &R, path: &str) -> Result<Option<Changed>, DiskAnswer>
    ensures change { IfOk result (λ removed. IfSome removed (λ changed. change_of changed ≡ Change.DirRemoved)) }
    ensures answers { IfErr result IsNoFile }
{
    match rt.remove_dir(path) {
        Ok(()) => Ok(Some(Changed {
            change: Change::DirRemoved,
        })),
        Err(error) => match error.kind() {
            ErrorKind::DirectoryNotEmpty | ErrorKind::AlreadyExists => Ok(None),
            _ => Err(answer_for(error)),
        },
    }
}

/// Moves a folder to a path on the same file system at which nothing is.
pub(crate) fn move_dir<R: Files>(rt: &R, from: &str, to: &str) -> Result<Changed, DiskAnswer>
    ensures change { IfOk result (λ changed. change_of changed ≡ Change.DirMoved) }
    ensures answers { IfErr result IsNoFileOrExists }
{
    check_dir(rt, from)?;
    // The system would put a folder in place of one that is empty.
    match check_dir(rt, to) {
        Ok(()) => return Err(DiskAnswer::Exists),
        Err(DiskAnswer::NoFile) => {}
        Err(answer) => return Err(answer),
    }
    match rt.rename(from, to) {
        Ok(()) => Ok(Changed {
            change: Change::DirMoved,
        }),
        Err(error) => match error.kind() {
            ErrorKind::DirectoryNotEmpty | ErrorKind::AlreadyExists => Err(DiskAnswer::Exists),
            _ => Err(answer_for(error)),
        },
    }
}

/// Takes away what stands at a path: a folder with all that it holds, or anything else. A file is left where
/// `keeps_file` is set, and a folder where `keeps_dir` is.
pub(crate) fn take_away<R: Files>(
    rt: &R,
    alloc: Global,
    path: &str,
    keeps_file: bool,
    keeps_dir: bool,
) -> Result<(), DiskAnswer>
    ensures fault { IfErr result (λ answer. answer ≡ DiskAnswer.Failed) }
{
    let taken = match rt.symlink_metadata(path) {
        Ok(found) if keeps_file && found.is_file() => return Ok(()),
        Ok(found) if keeps_dir && found.is_dir() => return Ok(()),
        Ok(found) if found.is_dir() => rt.remove_dir_all(alloc, path),
        Ok(_) => rt.remove_file(path),
        Err(error) => Err(error),
    };
    match taken {
        Ok(()) => Ok(()),
        Err(error) if error.kind() == ErrorKind::NotFound => Ok(()),
        Err(_) => Err(DiskAnswer::Failed),
    }
}

/// Removes a folder with all that stands in it.
pub(crate) fn remove_whole<R: Files>(
    rt: &R,
    alloc: Global,
    path: &str,
) -> Result<Changed, DiskAnswer>
    ensures change { IfOk result (λ changed. change_of changed ≡ Change.DirRemoved) }
    ensures answers { IfErr result IsNoFile }
{
    match rt.remove_dir_all(alloc, path) {
        Ok(()) => Ok(Changed {
            change: Change::DirRemoved,
        }),
        Err(error) => Err(answer_for(error)),
    }
}
