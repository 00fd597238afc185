// Reads of open files, and what is given to them.
ghost use Rattle.std.specs.Prelude.{◌≡◌, length, IfErr, IfOk};
ghost use Rattle.std.specs.Fd.{file_raw_fd};
ghost use Rattle.kept_files.specs.Opened.{Raises, range_at, range_descriptor, range_length, seen_at, seen_bytes, seen_descriptor, written_at, written_bytes, written_descriptor};

use crate::files::count_before;
use shared_disk::DiskAnswer;
use std::fs::File;
use std::os::fd::AsRawFd;
use std::os::unix::fs::FileExt;

/// Says through which descriptor and from which offset on which bytes were written to a file. Nothing but a write makes
/// one, so a function that gives one has written.
#[derive(Clone, Copy)]
pub struct Written<'a> {
    descriptor: i32,
    at: u64,
    bytes: &'a [u8],
}

/// Says through which descriptor and from which offset on how many bytes were written to a file. Only what says that they
/// were written gives one.
#[derive(Clone, Copy)]
pub struct WrittenRange {
    descriptor: i32,
    at: u64,
    length: usize,
}

/// Says what a sector held when it was read, at which offset, and through which descriptor. Nothing but a read makes one.
#[derive(Clone, Copy)]
pub struct Seen {
    descriptor: i32,
    at: u64,
    bytes: [u8; 512],
}

/// Says which greater length a file was given, and through which descriptor. Nothing else makes one.
#[derive(Clone, Copy)]
pub struct Raised {
    descriptor: i32,
    length: u64,
}

impl<'a> Written<'a> {
    /// Where the bytes were written, and how many.
    pub fn range(&self) -> WrittenRange
        ensures descriptor { range_descriptor result ≡ written_descriptor self.now }
        ensures at { range_at result ≡ written_at self.now }
        ensures length { range_length result ≡ length (written_bytes self.now) }
    {
        WrittenRange {
            descriptor: self.descriptor,
            at: self.at,
            length: self.bytes.len(),
        }
    }
}

impl Seen {
    /// What the sector held.
    pub fn bytes(&self) -> &[u8; 512]
        ensures { result.now ≡ seen_bytes self.now }
    {
        &self.bytes
    }
}

/// Reads bytes that a file has. For none it asks nothing of the file.
pub(crate) fn get(file: &File, at: u64, into: &mut [u8]) -> Result<(), DiskAnswer>
    ensures fault { IfErr result (λ answer. answer ≡ DiskAnswer.Failed) }
{
    match file.read_exact_at(into, at) {
        Ok(()) => Ok(()),
        Err(_) => Err(DiskAnswer::Failed),
    }
}

/// Reads a sector of an open file that has so many bytes. Past what the file has there are zeros.
pub(crate) fn see(file: &File, stored: u64, at: u64) -> Result<Seen, DiskAnswer>
    ensures descriptor { IfOk result (λ seen. seen_descriptor seen ≡ file_raw_fd file.now) }
    ensures at { IfOk result (λ seen. seen_at seen ≡ at) }
    ensures fault { IfErr result (λ answer. answer ≡ DiskAnswer.Failed) }
{
    let mut bytes = [0; 512];
    let kept = count_before(stored, at, 512);
    get(file, at, &mut bytes[..kept])?;
    Ok(Seen {
        descriptor: file.as_raw_fd(),
        at,
        bytes,
    })
}

/// Writes bytes at an offset of an open file.
pub(crate) fn put<'a>(file: &File, at: u64, bytes: &'a [u8]) -> Result<Written<'a>, DiskAnswer>
    ensures descriptor { IfOk result (λ written. written_descriptor written ≡ file_raw_fd file.now) }
    ensures at { IfOk result (λ written. written_at written ≡ at) }
    ensures bytes { IfOk result (λ written. written_bytes written ≡ bytes.now) }
    ensures fault { IfErr result (λ answer. answer ≡ DiskAnswer.Failed) }
{
    match file.write_all_at(bytes, at) {
        Ok(()) => Ok(Written {
            descriptor: file.as_raw_fd(),
            at,
            bytes,
        }),
        Err(_) => Err(DiskAnswer::Failed),
    }
}

/// Raises the length of an open file that has so many bytes, where they are fewer. It is never made shorter.
pub(crate) fn raise(file: &File, stored: u64, length: u64) -> Result<Option<Raised>, DiskAnswer>
    ensures raised { IfOk result (Raises (file_raw_fd file.now) stored length) }
    ensures fault { IfErr result (λ answer. answer ≡ DiskAnswer.Failed) }
{
    if length <= stored {
        return Ok(None);
    }
    match file.set_len(length) {
        Ok(()) => Ok(Some(Raised {
            descriptor: file.as_raw_fd(),
            length,
        })),
        Err(_) => Err(DiskAnswer::Failed),
    }
}
