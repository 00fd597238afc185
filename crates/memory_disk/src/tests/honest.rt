// The disk that fails for want of room alone: the same calls, and the units that it uses.
use super::{Call, NONE, Row, TEXT, first_wrong, made, place};
use crate::{Honest, Pick};
use sd_names::{Dir, HostId, Id};
use shared_disk::DiskAnswer::{Exists, Failed, NoFile, NotEmpty, OutOfFile};
use shared_disk::{DiskAnswer, SharedDisk};
use std::test::Fail;

// Each call with its answer and the units that are used after it, of seven.
const USES: [(Call, Result<u64, DiskAnswer>, u64); 23] = [
    (Call::MakeTexts, Err(NoFile), 0),
    (Call::MakeDomain, Ok(0), 1),
    (Call::MakeTexts, Ok(0), 2),
    (Call::MakeTexts, Err(Exists), 2),
    (Call::Create(TEXT, 4), Ok(0), 3),
    (Call::Write(TEXT, 4, 7), Err(OutOfFile), 3),
    (Call::Write(TEXT, 0, 7), Ok(0), 4),
    // A write of a sector that waits already is one unit more; a sync leaves one for each sector.
    (Call::Write(TEXT, 0, 8), Ok(0), 5),
    (Call::Sync(TEXT), Ok(0), 4),
    (Call::Byte(TEXT, 0), Ok(8), 4),
    (Call::Exchange(TEXT, 1, 0, 6), Ok(1000), 5),
    (Call::Write(TEXT, 2, 1), Ok(0), 6),
    (Call::WriteTwo(TEXT, 2), Err(Failed), 6),
    (Call::Create(NONE, 1), Ok(0), 7),
    (Call::Write(TEXT, 3, 1), Err(Failed), 7),
    (Call::Exchange(TEXT, 3, 0, 1), Err(Failed), 7),
    (Call::MakeImages, Err(Failed), 7),
    (Call::Grow(TEXT, 9), Ok(0), 7),
    (Call::Length(TEXT), Ok(4608), 7),
    (Call::RemoveTexts, Err(NotEmpty), 7),
    (Call::Rename, Ok(0), 7),
    (Call::Length(TEXT), Err(NoFile), 7),
    (Call::Remove(NONE), Ok(0), 6),
];

// The number of the first call that is answered otherwise, or after which other units are used.
fn first_otherwise(disk: &mut Honest, host: HostId) -> Option<usize> {
    for (i, (call, answer, used)) in USES.iter().enumerate() {
        if made(disk, host, *call) != *answer || disk.used() != *used {
            return Some(i);
        }
    }
    None
}

#[test]
fn each_call_and_its_units(rt: HostRuntime) -> Result<(), Fail> {
    let alloc = rt.alloc();
    let mut disk = Honest::new(alloc, Vec::new(alloc), 7)?;
    let host = HostId::new(1).ok_or("a host")?;
    assert_eq!(rt; disk.used(), 0);
    assert_eq!(rt; first_otherwise(&mut disk, host), None);
    assert_eq!(rt; disk.fault_count(), 4);
    Ok(())
}

const FOLDERS: [Row; 10] = [
    (1, Call::MakeDomain, Ok(0)),
    (1, Call::MakeTexts, Ok(0)),
    (1, Call::MakeImages, Ok(0)),
    (1, Call::MakeImage, Ok(0)),
    (1, Call::MoveImage, Ok(0)),
    (1, Call::RemoveRemoved, Ok(0)),
    (1, Call::Create(TEXT, 2), Ok(0)),
    (1, Call::Sync(TEXT), Ok(0)),
    (1, Call::Write(TEXT, 0, 7), Ok(0)),
    (1, Call::Write(TEXT, 1, 8), Ok(0)),
];

// Folders are listed and moved, and a host that goes down leaves what the picks say.
#[test]
fn folders_and_a_crash(rt: HostRuntime) -> Result<(), Fail> {
    let alloc = rt.alloc();
    let picks = [Pick::Old, Pick::New].to_vec(alloc)?;
    let mut disk = Honest::new(alloc, picks, 9)?;
    let host = HostId::new(1).ok_or("a host")?;
    assert_eq!(rt; first_wrong(&mut disk, &FOLDERS), None);
    let texts = Dir::DomMd(Id::ZERO);
    assert_eq!(rt; disk.next_name(host, texts, None), Ok(Some(TEXT)));
    assert_eq!(rt;
        disk.next_dir(host, Dir::Root, None),
        Ok(Some(Dir::Domain(Id::ZERO)))
    );
    disk.down(host);
    let mut into = [255; 1024];
    assert_eq!(rt; disk.read_at(host, place(TEXT), 0, &mut into), Ok(1024));
    assert_eq!(rt; into[511], 0);
    assert_eq!(rt; into[1023], 8);
    // The three folders, the file and the one sector that stayed.
    assert_eq!(rt; disk.used(), 5);
    assert_eq!(rt; disk.fault_count(), 0);
    Ok(())
}
