// Flushes to the medium.
ghost use Rattle.std.specs.Prelude.{◌≡◌, IfErr, IfOk};
ghost use Rattle.std.specs.Fd.{file_raw_fd};
ghost use Rattle.kept_files.specs.Answers.{IsNoFile};
ghost use Rattle.kept_files.specs.Flushed.{flushed_descriptor, flushed_dir, flushed_place};

use crate::files::answer_for;
use sd_names::{Dir, Place};
use shared_disk::DiskAnswer;
use std::fs::{File, Files, OpenFile};
use std::os::fd::AsRawFd;

/// Says that the names in a folder were flushed to the medium. Nothing but a flush makes one, so a function that gives
/// one has flushed.
#[derive(Clone, Copy)]
pub struct FlushedDir {
    dir: Dir,
}

/// Says that a file was flushed to the medium, and through which descriptor. Nothing but a flush makes one.
#[derive(Clone, Copy)]
pub struct FlushedFile {
    place: Place,
    descriptor: i32,
}

/// What is flushed of a file.
#[derive(Clone, Copy)]
pub enum Flush {
    /// Its bytes, and what it takes to find them again.
    Bytes,
    /// Its bytes, its length and all else that the system keeps of it.
    All,
}

/// Flushes what was changed of the open file of a place.
pub(crate) fn flush_file(
    file: &File,
    place: &Place,
    flush: Flush,
) -> Result<FlushedFile, DiskAnswer>
    ensures place { IfOk result (λ flushed. flushed_place flushed ≡ place.now) }
    ensures descriptor { IfOk result (λ flushed. flushed_descriptor flushed ≡ file_raw_fd file.now) }
    ensures fault { IfErr result (λ answer. answer ≡ DiskAnswer.Failed) }
{
    let done = match flush {
        Flush::Bytes => file.sync_data(),
        Flush::All => file.sync_all(),
    };
    match done {
        Ok(()) => Ok(FlushedFile {
            place: *place,
            descriptor: file.as_raw_fd(),
        }),
        Err(_) => Err(DiskAnswer::Failed),
    }
}

/// Flushes what was changed of the names in the folder that stands at a path.
pub fn flush_dir<R: Files>(rt: &R, path: &str, dir: &Dir) -> Result<FlushedDir, DiskAnswer>
    ensures dir { IfOk result (λ flushed. flushed_dir flushed ≡ dir.now) }
    ensures answers { IfErr result IsNoFile }
{
    let opened = File::open(rt, path).map_err(answer_for)?;
    match opened.sync_all() {
        Ok(()) => Ok(FlushedDir { dir: *dir }),
        Err(_) => Err(DiskAnswer::Failed),
    }
}
