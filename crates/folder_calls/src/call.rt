// A call of the disk, as a line asks for it: a word, the path of the file or folder, and what else the call takes.
use folder_layout::{read_dir, read_name};
use sd_names::{Dir, Name, Place};
use std::str::SplitWhitespace;

/// What is done with a file. Offsets, lengths and counts are in sectors but for the pieces of a filling, which have 65,536
/// bytes each.
#[derive(Clone, Copy)]
pub(crate) enum OnFile {
    Create(u32),
    Length,
    Grow(u32),
    /// Reads four sectors from an offset on.
    Read(u32),
    /// Writes one sector at an offset, of one byte all over.
    Write(u32, u8),
    /// Writes two sectors likewise.
    WriteTwo(u32, u8),
    /// Writes so many pieces from the front on, and flushes the file behind each.
    Fill(u32),
    Sync,
    /// Puts a sector of the second byte in place of one of the first.
    Exchange(u64, u8, u8),
    Rename(Name),
    Remove,
}

/// What is done with a folder.
#[derive(Clone, Copy)]
pub(crate) enum OnFolder {
    Make,
    Remove,
    Move(Dir),
    /// Lists the files.
    Names,
    /// Lists the folders.
    Dirs,
}

/// A call of the disk.
#[derive(Clone, Copy)]
pub(crate) enum Call {
    File(Place, OnFile),
    Folder(Dir, OnFolder),
    /// The host goes down.
    Down,
    /// Tells how many calls have failed.
    Faults,
}

/// The call that a line asks for, whose first word is given. `None` where it asks for none.
pub(crate) fn read_call(word: &str, line: &str) -> Option<Call> {
    let mut words = line.split_whitespace().skip(1);
    match word {
        "down" => return Some(Call::Down),
        "faults" => return Some(Call::Faults),
        _ => {}
    }
    let path = words.next()?;
    let (second, third, fourth) = (words.next(), words.next(), words.next());
    if let Some(call) = read_on_folder(word, second) {
        return Some(Call::Folder(dir_at(path)?, call));
    }
    let place = place_at(path)?;
    let call = match (word, second) {
        ("rename", Some(name)) => OnFile::Rename(read_name(&place.dir, name.as_bytes())?),
        _ => read_on_file(word, second, third, fourth)?,
    };
    Some(Call::File(place, call))
}

// What is done with a folder, by its word and what stands behind the folder's path.
fn read_on_folder(word: &str, second: Option<&str>) -> Option<OnFolder> {
    match word {
        "make-dir" => Some(OnFolder::Make),
        "remove-dir" => Some(OnFolder::Remove),
        "move-dir" => Some(OnFolder::Move(dir_at(second?)?)),
        "names" => Some(OnFolder::Names),
        "dirs" => Some(OnFolder::Dirs),
        _ => None,
    }
}

// What is done with a file, by its word and what stands behind the file's path.
fn read_on_file(
    word: &str,
    second: Option<&str>,
    third: Option<&str>,
    fourth: Option<&str>,
) -> Option<OnFile> {
    match word {
        "create" => Some(OnFile::Create(second?.parse().ok()?)),
        "length" => Some(OnFile::Length),
        "grow" => Some(OnFile::Grow(second?.parse().ok()?)),
        "read" => Some(OnFile::Read(second?.parse().ok()?)),
        "write" => Some(OnFile::Write(second?.parse().ok()?, third?.parse().ok()?)),
        "write-two" => Some(OnFile::WriteTwo(second?.parse().ok()?, third?.parse().ok()?)),
        "fill" => Some(OnFile::Fill(second?.parse().ok()?)),
        "sync" => Some(OnFile::Sync),
        "exchange" => Some(OnFile::Exchange(
            second?.parse().ok()?,
            third?.parse().ok()?,
            fourth?.parse().ok()?,
        )),
        "remove" => Some(OnFile::Remove),
        _ => None,
    }
}

// The folder at a path below the shared one, which is a dot.
fn dir_at(path: &str) -> Option<Dir> {
    let mut dir = Dir::Root;
    if path == "." {
        return Some(dir);
    }
    for text in path.split('/') {
        dir = read_dir(&dir, text.as_bytes())?;
    }
    Some(dir)
}

// The file at a path below the shared folder.
fn place_at(path: &str) -> Option<Place> {
    let (above, text) = path.rsplit_once('/')?;
    let dir = dir_at(above)?;
    let name = read_name(&dir, text.as_bytes())?;
    Some(Place { dir, name })
}
