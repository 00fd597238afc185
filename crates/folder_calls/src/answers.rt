// Prints what the calls of a disk answer.
ghost use Rattle.std.specs.Prelude.{◌≤◌, length};

use crate::call::{Call, OnFolder, read_call};
use crate::make::{ROOM, Told, on_file, on_folder};
use folder_disk::FolderDisk;
use sd_names::{Dir, HostId};
use shared_disk::{DiskAnswer, SharedDisk};
use std::io;
use std::io::ErrorKind;

/// Makes the call that a line asks for, and prints its word and its answer. A line that begins with `#` is printed as it is,
/// and one that asks for no call, or for one that may not be made, ends the program.
pub(crate) fn answer_line(
    rt: &HostRuntime,
    disk: &mut FolderDisk<&HostRuntime>,
    host: HostId,
    line: &str,
) -> io::Result<()> {
    let word = match line.split_whitespace().next() {
        Some("#") | None => return println!(rt; "{line}"),
        Some(word) => word,
    };
    let call = read_call(word, line).ok_or(ErrorKind::InvalidInput)?;
    print!(rt; "{word}")?;
    match call {
        Call::Folder(dir, OnFolder::Names) => print_names(rt, disk, host, dir),
        Call::Folder(dir, OnFolder::Dirs) => print_dirs(rt, disk, host, dir),
        Call::Folder(dir, call) => {
            let answer = on_folder(disk, host, dir, call).ok_or(ErrorKind::InvalidInput)?;
            print_answer(rt, answer, &[])
        }
        Call::File(place, call) => {
            let mut room = [7; ROOM];
            let answer = on_file(disk, host, place, call, &mut room).ok_or(
                ErrorKind::InvalidInput,
            )?;
            print_answer(rt, answer, &room)
        }
        Call::Down => {
            disk.down(host);
            println!(rt; " ok")
        }
        Call::Faults => {
            let faults = disk.fault_count();
            println!(rt; " {faults}")
        }
    }
}

// Prints what a call answered, and behind a read all of the room that it was given.
fn print_answer(rt: &HostRuntime, answer: Result<Told, DiskAnswer>, room: &[u8]) -> io::Result<()> {
    match answer {
        Ok(Told::Nothing) => println!(rt; " ok"),
        Ok(Told::Number(number)) => println!(rt; " ok {number}"),
        Ok(Told::Read(count)) => {
            print!(rt; " ok {count}:")?;
            print_runs(rt, room)
        }
        Ok(Told::Found(bytes)) => {
            print!(rt; " found")?;
            print_runs(rt, &bytes)
        }
        Err(answer) => println!(rt; " {answer:?}"),
    }
}

// Ends a line with bytes, as runs of one byte: how many there are, a star, and the byte in hexadecimal digits.
fn print_runs(rt: &HostRuntime, bytes: &[u8]) -> io::Result<()> {
    let mut rest = bytes;
    for _ in 0..bytes.len() {
        let first = match rest.first() {
            Some(first) => *first,
            None => break,
        };
        let count = run_length(rest, first);
        print!(rt; " {count}*{first:02x}")?;
        rest = &rest[count..];
    }
    println!(rt)
}

// How many bytes at the front are this one.
fn run_length(bytes: &[u8], first: u8) -> usize
    ensures { result ≤ length bytes.now }
{
    for k in 0..bytes.len() {
        if bytes[k] != first {
            return k;
        }
    }
    bytes.len()
}

// Lists the files that a folder shows, one after the other.
fn print_names(
    rt: &HostRuntime,
    disk: &mut FolderDisk<&HostRuntime>,
    host: HostId,
    dir: Dir,
) -> io::Result<()> {
    let mut after = None;
    for _ in 0..u64::MAX {
        match disk.next_name(host, dir, after) {
            Ok(Some(name)) => {
                print!(rt; " {}", name.text().as_str())?;
                after = Some(name);
            }
            Ok(None) => break,
            Err(answer) => return println!(rt; " {answer:?}"),
        }
    }
    println!(rt; " ok")
}

// Lists the folders that a folder shows, one after the other.
fn print_dirs(
    rt: &HostRuntime,
    disk: &mut FolderDisk<&HostRuntime>,
    host: HostId,
    dir: Dir,
) -> io::Result<()> {
    let mut after = None;
    for _ in 0..u64::MAX {
        match disk.next_dir(host, dir, after) {
            Ok(Some(below)) => {
                print!(rt; " {}", below.path().as_str())?;
                after = Some(below);
            }
            Ok(None) => break,
            Err(answer) => return println!(rt; " {answer:?}"),
        }
    }
    println!(rt; " ok")
}
