// What no clause says: whole gatherings of folders in memory, a disk that fails in each of their calls, and files that
// weren't synced before.
use chain_gathering::{Found, Gathered, Gathering};
use memory_disk::{Memory, Pick};
use sd_names::{Dir, HostId, Id, Name, NoMemory, Place, Refusal, Turn};
use shared_disk::SharedDisk;
use std::alloc::Global;
use std::test::Fail;

const SD: Id = Id([0, 0, 0, 0, 0, 0, 0x40, 0, 0x80, 0, 0, 0, 0, 0, 0, 2]);

const IMAGE: Id = Id([0, 0, 0, 0, 0, 0, 0x40, 0, 0x80, 0, 0, 0, 0, 0, 0, 3]);

// A text of version 5 of a volume of this image, of 254 bytes.
const TEXT: &[u8; 254] =
    b"CAP=1073741824\nCTIME=1700000000\nDESCRIPTION=disk\nDISKTYPE=DATA\nDOMAIN=00000000-0000-4000-8000-000000000002\nFORMAT=RAW\nGEN=0\nIMAGE=00000000-0000-4000-8000-000000000003\nLEGALITY=LEGAL\nPUUID=00000000-0000-0000-0000-000000000000\nTYPE=SPARSE\nVOLTYPE=LEAF\nEOF\n";

// A file of the image's folder, that of the volume whose identifier has this byte sixteen times.
#[derive(Clone, Copy, Debug)]
enum ImageFile {
    // Its text.
    Text(u8),
    // A text without its last line.
    Cut(u8),
    // A text of more than 8,192 bytes.
    Long(u8),
    // Its own file.
    Data(u8),
    // What a replacement of its text left.
    New(u8),
    Volatile(u8),
    Lease(u8),
}

// How a gathering ended, after how many steps.
#[derive(Clone, Copy, Debug, PartialEq, Eq)]
enum End {
    Done(u16),
    // By a refusal with this number, and the volumes that it counts or the volume that it names.
    Refused(u16, u16, u64),
}

fn place(name: Name) -> Place {
    Place {
        dir: Dir::Image(SD, IMAGE),
        name,
    }
}

fn name(put: ImageFile) -> Name {
    match put {
        ImageFile::Text(v) | ImageFile::Cut(v) | ImageFile::Long(v) => Name::Meta(Id([v; 16])),
        ImageFile::Data(v) => Name::Volume(Id([v; 16])),
        ImageFile::New(v) => Name::MetaNew(Id([v; 16])),
        ImageFile::Volatile(v) => Name::MetaVolatile(Id([v; 16])),
        ImageFile::Lease(v) => Name::VolumeLease(Id([v; 16])),
    }
}

// The first sector of a text, which ends before its last bytes.
fn sector(cut: usize) -> [u8; 512] {
    let mut sector = [0; 512];
    for (to, from) in sector.iter_mut().zip(TEXT.iter().take(254 - cut.min(254))) {
        *to = *from;
    }
    sector
}

// Puts a file onto the medium.
fn put(disk: &mut Memory, file: ImageFile) -> Result<(), NoMemory> {
    match file {
        ImageFile::Cut(_) => disk.put(place(name(file)), &sector(4)),
        ImageFile::Long(_) => disk.put(place(name(file)), &[b'x'; 8704]),
        ImageFile::Data(_) => disk.put(place(name(file)), &[0x44; 512]),
        _ => disk.put(place(name(file)), &sector(0)),
    }
}

fn put_all(disk: &mut Memory, files: &[ImageFile]) -> Result<(), NoMemory> {
    for file in files {
        put(disk, *file)?;
    }
    Ok(())
}

// What the values of a refusal tell.
fn told(refusal: Refusal) -> u64 {
    match refusal {
        Refusal::ChainTooLong(count) | Refusal::DiskFault(count) => count,
        Refusal::MetaCorrupt(v, _) => u64::from(v.0[0]),
        _ => 0,
    }
}

// A whole gathering, and what it found.
fn gather(
    alloc: Global,
    disk: &mut Memory,
    host: HostId,
) -> Result<(End, Option<Gathered>), Refusal> {
    let mut work = Gathering::begin(alloc, SD, IMAGE, 5)?;
    for step in 1..500u16 {
        match work.step(host, disk) {
            Turn::More(next) => work = next,
            Turn::Done(gathered) => return Ok((End::Done(step), Some(gathered))),
            Turn::Ended((), refusal) => {
                return Ok((End::Refused(step, refusal.number(), told(refusal)), None));
            }
        }
    }
    Ok((End::Done(0), None))
}

// Whether these volumes were found, by their byte and whether the file is there, each with a record of 1 GiB.
fn has(gathered: &Option<Gathered>, volumes: &[(u8, bool)]) -> bool {
    let Some(gathered) = gathered else {
        return volumes.is_empty();
    };
    let found = gathered.found();
    let records = gathered.records();
    if found.len() != volumes.len() || records.len() != volumes.len() {
        return false;
    }
    for (found, (v, has_file)) in found.iter().zip(volumes) {
        if found.id != Id([*v; 16]) || found.has_file != *has_file {
            return false;
        }
    }
    for (volume, (v, has_file)) in records.iter().zip(volumes) {
        if volume.id != Id([*v; 16])
            || volume.has_file != *has_file
            || volume.meta.capacity != 1_073_741_824
        {
            return false;
        }
    }
    true
}

// Folders; how a gathering of each ends; and the volumes that it finds. Each name takes a step, and so do each volume
// file and each text that is synced, each text that is read, and the end of the names and of the texts.
const FOLDERS: [(&[ImageFile], End, &[(u8, bool)]); 12] = [
    (&[], End::Refused(1, 122, 0), &[]),
    (
        &[ImageFile::New(7), ImageFile::Volatile(7)],
        End::Done(4),
        &[],
    ),
    (&[ImageFile::Data(7)], End::Done(4), &[]),
    (&[ImageFile::Text(7)], End::Done(5), &[(7, false)]),
    (
        &[ImageFile::Text(7), ImageFile::Data(7)],
        End::Done(7),
        &[(7, true)],
    ),
    (
        &[
            ImageFile::Data(7),
            ImageFile::Text(8),
            ImageFile::Data(9),
            ImageFile::Text(9),
        ],
        End::Done(12),
        &[(8, false), (9, true)],
    ),
    // Letters stand behind digits, and the names of leftover files between those of volumes.
    (
        &[
            ImageFile::Text(0xa0),
            ImageFile::Data(0xa0),
            ImageFile::Volatile(0x9f),
            ImageFile::Text(0x9f),
            ImageFile::Lease(0x9f),
            ImageFile::Data(0x9f),
            ImageFile::New(0x09),
        ],
        End::Done(15),
        &[(0x9f, true), (0xa0, true)],
    ),
    (
        &[
            ImageFile::Text(7),
            ImageFile::Cut(8),
            ImageFile::Data(8),
            ImageFile::Long(9),
        ],
        End::Refused(11, 65, 8),
        &[],
    ),
    (
        &[ImageFile::Long(7), ImageFile::Cut(8)],
        End::Refused(6, 65, 7),
        &[],
    ),
    (&[ImageFile::Cut(7)], End::Refused(4, 65, 7), &[]),
    (
        &[ImageFile::Lease(1), ImageFile::Lease(2)],
        End::Done(4),
        &[],
    ),
    (
        &[ImageFile::Data(6), ImageFile::Text(7)],
        End::Done(7),
        &[(7, false)],
    ),
];

#[test]
fn folders_are_gathered(rt: HostRuntime) -> Result<(), Fail> {
    let host = HostId::new(1).ok_or("no host")?;
    for (files, end, volumes) in FOLDERS {
        let mut disk = Memory::new(rt.alloc(), Vec::new(rt.alloc()), Vec::new(rt.alloc()), 100)?;
        put_all(&mut disk, files)?;
        match gather(rt.alloc(), &mut disk, host) {
            Ok((got, gathered)) => {
                assert_eq!(rt; got, end, "{files:?}");
                assert!(rt; has(&gathered, volumes), "{files:?}");
            }
            Err(_) => return Err("no memory".into()),
        }
    }
    Ok(())
}

// So many volumes, each with its file: 1, 2, 3 and so on.
fn put_volumes(disk: &mut Memory, count: u8) -> Result<(), NoMemory> {
    for v in 1..=count {
        put(disk, ImageFile::Text(v))?;
        put(disk, ImageFile::Data(v))?;
    }
    Ok(())
}

// How many volumes, and how a gathering of them ends: five steps for each, and two more. Too many are refused after
// four for each, and one more.
const COUNTS: [(u8, End); 5] = [
    (1, End::Done(7)),
    (31, End::Done(157)),
    (32, End::Done(162)),
    (33, End::Refused(133, 68, 33)),
    (40, End::Refused(161, 68, 40)),
];

#[test]
fn too_many_volumes_are_counted(rt: HostRuntime) -> Result<(), Fail> {
    let host = HostId::new(1).ok_or("no host")?;
    for (count, end) in COUNTS {
        let mut disk = Memory::new(rt.alloc(), Vec::new(rt.alloc()), Vec::new(rt.alloc()), 200)?;
        put_volumes(&mut disk, count)?;
        match gather(rt.alloc(), &mut disk, host) {
            Ok((got, gathered)) => {
                assert_eq!(rt; got, end, "{count} volumes");
                if let Some(gathered) = gathered {
                    assert!(rt; gathered.found().len() == usize::from(count));
                    assert!(rt; gathered.missing().is_none());
                    assert!(rt; gathered.into_records().as_slice().len() == usize::from(count));
                }
            }
            Err(_) => return Err("no memory".into()),
        }
    }
    Ok(())
}

// How a gathering of a volume ends whose disk fails in the call with this number: the six calls list the file, sync it,
// list the text, sync it, list no more and read the text.
const FAULTS: [(u64, End); 7] = [
    (0, End::Refused(1, 120, 1)),
    (1, End::Refused(2, 120, 1)),
    (2, End::Refused(3, 120, 1)),
    (3, End::Refused(4, 120, 1)),
    (4, End::Refused(5, 120, 1)),
    (5, End::Refused(6, 120, 1)),
    (6, End::Done(7)),
];

#[test]
fn faults_are_told(rt: HostRuntime) -> Result<(), Fail> {
    let host = HostId::new(1).ok_or("no host")?;
    for (failing, end) in FAULTS {
        let mut list = Vec::new(rt.alloc());
        list.push(failing)?;
        let mut disk = Memory::new(rt.alloc(), Vec::new(rt.alloc()), list, 100)?;
        put_volumes(&mut disk, 1)?;
        match gather(rt.alloc(), &mut disk, host) {
            Ok((got, _)) => assert_eq!(rt; got, end, "call {failing}"),
            Err(_) => return Err("no memory".into()),
        }
    }
    Ok(())
}

// Whether the first sector of a file on the medium is this.
fn stands(disk: &Memory, file: ImageFile, want: &[u8; 512]) -> bool {
    let mut bytes = [7; 512];
    disk.bytes(place(name(file)), 0, &mut bytes) == Some(512) && bytes == *want
}

// Writes a sector into each text and file of so many volumes, and into a file without a text, and syncs none. The texts
// have this sector before.
fn write_volumes(
    disk: &mut Memory,
    host: HostId,
    count: u8,
    old: &[u8; 512],
    new: &[u8; 512],
) -> Result<(), NoMemory> {
    put_volumes(disk, count)?;
    put(disk, ImageFile::Data(200))?;
    for v in 1..=count {
        disk.put(place(name(ImageFile::Text(v))), old)?;
        let _ = disk.write_at(host, place(name(ImageFile::Text(v))), 0, new);
        let _ = disk.write_at(host, place(name(ImageFile::Data(v))), 0, new);
    }
    let _ = disk.write_at(host, place(name(ImageFile::Data(200))), 0, new);
    Ok(())
}

// Whether a gathering ends so, and each file has what was written in it once the host went down, whose unsynced writes
// are lost then. What is written are texts, or texts without their last line.
fn is_synced(alloc: Global, host: HostId, row: (u8, bool, End)) -> Result<bool, NoMemory> {
    let (count, cut, end) = row;
    let mut picks = Vec::new(alloc);
    if picks.push(Pick::Old).is_err() {
        return Err(NoMemory);
    }
    let mut disk = Memory::new(alloc, picks, Vec::new(alloc), 400)?;
    let (old, new) = if cut {
        (sector(0), sector(4))
    } else {
        (sector(4), sector(0))
    };
    write_volumes(&mut disk, host, count, &old, &new)?;
    let ended = match gather(alloc, &mut disk, host) {
        Ok((got, _)) => got == end,
        Err(_) => false,
    };
    disk.down(host);
    let mut all = ended && stands(&disk, ImageFile::Data(200), &new);
    for v in 1..=count {
        all = all
            && stands(&disk, ImageFile::Text(v), &new)
            && stands(&disk, ImageFile::Data(v), &new);
    }
    Ok(all)
}

// What was written is read, and at a text that can't be read and at too many volumes each file is synced too.
const UNSYNCED: [(u8, bool, End); 4] = [
    (3, false, End::Done(19)),
    (3, true, End::Refused(16, 65, 1)),
    (33, true, End::Refused(135, 68, 33)),
    (40, false, End::Refused(163, 68, 40)),
];

#[test]
fn each_file_is_synced(rt: HostRuntime) -> Result<(), Fail> {
    let host = HostId::new(1).ok_or("no host")?;
    for row in UNSYNCED {
        assert!(rt; is_synced(rt.alloc(), host, row)?, "{row:?}");
    }
    Ok(())
}
