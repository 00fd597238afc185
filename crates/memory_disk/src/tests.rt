// What no clause says: the memory disk's answers one after the other, its picks, its room and its speed.
use sd_names::{Dir, HostId, Id, Name, Place};
use shared_disk::{DiskAnswer, Exchanged, SharedDisk};

mod down;
mod honest;
mod medium;
mod names;
mod room;
mod scripts;

// A call: its sectors are numbered from the file's start.
#[derive(Clone, Copy, Debug)]
enum Call {
    MakeDomain,
    MakeTexts,
    Create(Name, u8),
    Grow(Name, u8),
    Remove(Name),
    // The file of the domain's text becomes that of its new one.
    Rename,
    RemoveTexts,
    RemoveDomain,
    MakeImages,
    MakeImage,
    MakeRemoved,
    RemoveRemoved,
    // The image's folder becomes that of an image that is removed.
    MoveImage,
    Length(Name),
    // One sector of the byte.
    Write(Name, u8, u8),
    // Two sectors of zeros.
    WriteTwo(Name, u8),
    // One sector of the first byte becomes the second, which gives 1000; else its last byte is given.
    Exchange(Name, u8, u8, u8),
    // How many bytes a read into four sectors gives.
    Count(Name, u8),
    // The last byte of a sector, or 255 where the read leaves it.
    Byte(Name, u8),
    Sync(Name),
    Down,
}

// A call, the host that makes it, and its answer.
type Row = (u64, Call, Result<u64, DiskAnswer>);

fn place(name: Name) -> Place {
    Place {
        dir: Dir::DomMd(Id::ZERO),
        name,
    }
}

fn read<D: SharedDisk>(
    disk: &mut D,
    host: HostId,
    name: Name,
    sector: u8,
) -> Result<u64, DiskAnswer> {
    let mut into = [255; 512];
    disk.read_at(host, place(name), 512 * sector as u64, &mut into)?;
    Ok(into[511] as u64)
}

fn count<D: SharedDisk>(
    disk: &mut D,
    host: HostId,
    name: Name,
    sector: u8,
) -> Result<u64, DiskAnswer> {
    let mut into = [255; 2048];
    Ok(disk.read_at(host, place(name), 512 * sector as u64, &mut into)? as u64)
}

fn write<D: SharedDisk>(
    disk: &mut D,
    host: HostId,
    name: Name,
    sector: u8,
    bytes: &[u8; 512],
) -> Result<u64, DiskAnswer> {
    disk.write_at(host, place(name), 512 * sector as u64, bytes)?;
    Ok(0)
}

fn exchange<D: SharedDisk>(
    disk: &mut D,
    host: HostId,
    name: Name,
    sector: u8,
    expect: u8,
    next: u8,
) -> Result<u64, DiskAnswer> {
    match disk.exchange(
        host,
        place(name),
        sector as u64,
        &[expect; 512],
        &[next; 512],
    )? {
        Exchanged::Done => Ok(1000),
        Exchanged::Found(bytes) => Ok(bytes[511] as u64),
    }
}

fn rename_text<D: SharedDisk>(disk: &mut D, host: HostId) -> Result<(), DiskAnswer> {
    let from = Place {
        dir: Dir::DomMd(Id::ZERO),
        name: Name::Metadata,
    };
    disk.rename(host, from, Name::MetadataNew)
}

fn move_image<D: SharedDisk>(disk: &mut D, host: HostId) -> Result<(), DiskAnswer> {
    disk.move_dir(
        host,
        Dir::Image(Id::ZERO, Id::ZERO),
        Dir::Removed(Id::ZERO, Id::ZERO),
    )
}

fn made<D: SharedDisk>(disk: &mut D, host: HostId, call: Call) -> Result<u64, DiskAnswer> {
    match call {
        Call::Grow(name, sectors) => disk.grow(host, place(name), 512 * sectors as u64)?,
        Call::Remove(name) => disk.remove(host, place(name))?,
        Call::Rename => rename_text(disk, host)?,
        Call::RemoveTexts => disk.remove_dir(host, Dir::DomMd(Id::ZERO))?,
        Call::RemoveDomain => disk.remove_dir(host, Dir::Domain(Id::ZERO))?,
        Call::MakeImages => disk.make_dir(host, Dir::Images(Id::ZERO))?,
        Call::MakeImage => disk.make_dir(host, Dir::Image(Id::ZERO, Id::ZERO))?,
        Call::MakeRemoved => disk.make_dir(host, Dir::Removed(Id::ZERO, Id::ZERO))?,
        Call::RemoveRemoved => disk.remove_dir(host, Dir::Removed(Id::ZERO, Id::ZERO))?,
        Call::MoveImage => move_image(disk, host)?,
        Call::Exchange(name, sector, expect, next) => {
            return exchange(disk, host, name, sector, expect, next);
        }
        Call::MakeDomain => disk.make_dir(host, Dir::Domain(Id::ZERO))?,
        Call::MakeTexts => disk.make_dir(host, Dir::DomMd(Id::ZERO))?,
        Call::Create(name, sectors) => disk.create(host, place(name), 512 * sectors as u64)?,
        Call::Length(name) => return disk.length(host, place(name)),
        Call::Write(name, sector, byte) => return write(disk, host, name, sector, &[byte; 512]),
        Call::WriteTwo(name, at) => disk.write_at(host, place(name), 512 * at as u64, &[0; 1024])?,
        Call::Count(name, sector) => return count(disk, host, name, sector),
        Call::Byte(name, sector) => return read(disk, host, name, sector),
        Call::Sync(name) => disk.sync(host, place(name))?,
        Call::Down => disk.down(host),
    }
    Ok(0)
}

// Makes the calls one after the other, and gives the number of the first that is answered otherwise.
fn first_wrong<D: SharedDisk>(disk: &mut D, rows: &[Row]) -> Option<usize> {
    for (i, (number, call, answer)) in rows.iter().enumerate() {
        let right = match HostId::new(*number) {
            Some(host) => made(disk, host, *call) == *answer,
            None => false,
        };
        if !right {
            return Some(i);
        }
    }
    None
}

const TEXT: Name = Name::Metadata;

const NEW: Name = Name::MetadataNew;

const NONE: Name = Name::Leases;
