// Names and folders are listed, and files move with their folder.
use super::{Call, NEW, NONE, Row, TEXT, first_wrong, made};
use crate::Memory;
use sd_names::{Dir, HostId, Id, Name, Place};
use shared_disk::DiskAnswer::NoFile;
use shared_disk::{DiskAnswer, SharedDisk};
use std::test::Fail;

const IMAGES: Dir = Dir::Images(Id::ZERO);

const IMAGE: Dir = Dir::Image(Id::ZERO, Id::ZERO);

const REMOVED: Dir = Dir::Removed(Id::ZERO, Id::ZERO);

const LISTED: [Row; 8] = [
    (1, Call::MakeDomain, Ok(0)),
    (1, Call::MakeTexts, Ok(0)),
    (1, Call::MakeImages, Ok(0)),
    (1, Call::MakeRemoved, Ok(0)),
    (1, Call::MakeImage, Ok(0)),
    (1, Call::Create(NEW, 0), Ok(0)),
    (1, Call::Create(TEXT, 0), Ok(0)),
    (1, Call::Create(NONE, 0), Ok(0)),
];

// Whether the folder's names are these, each the next one after the one before it.
fn has_names(disk: &mut Memory, host: HostId, dir: Dir, names: &[Name]) -> bool {
    let mut last = None;
    for name in names {
        if disk.next_name(host, dir, last) != Ok(Some(*name)) {
            return false;
        }
        last = Some(*name);
    }
    disk.next_name(host, dir, last) == Ok(None)
}

// The same of the folders in it.
fn has_dirs(disk: &mut Memory, host: HostId, dir: Dir, dirs: &[Dir]) -> bool {
    let mut last = None;
    for next in dirs {
        if disk.next_dir(host, dir, last) != Ok(Some(*next)) {
            return false;
        }
        last = Some(*next);
    }
    disk.next_dir(host, dir, last) == Ok(None)
}

// Names and folders come in the order of their paths' bytes, each once.
#[test]
fn listings_go_up(rt: HostRuntime) -> Result<(), Fail> {
    let alloc = rt.alloc();
    let mut disk = Memory::new(alloc, Vec::new(alloc), Vec::new(alloc), 12)?;
    let host = HostId::new(1).ok_or("a host")?;
    let texts = Dir::DomMd(Id::ZERO);
    let last = Dir::Image(Id::ZERO, Id([0xA0; 16]));
    assert_eq!(rt; disk.next_name(host, texts, None), Err(NoFile));
    assert_eq!(rt; disk.next_dir(host, texts, None), Err(NoFile));
    assert_eq!(rt; first_wrong(&mut disk, &LISTED), None);
    assert_eq!(rt; disk.make_dir(host, last), Ok(()));
    assert!(rt; has_names(&mut disk, host, texts, &[NONE, TEXT, NEW]));
    assert!(rt; has_dirs(&mut disk, host, IMAGES, &[IMAGE, REMOVED, last]));
    assert!(rt; has_dirs(&mut disk, host, Dir::Root, &[Dir::Domain(Id::ZERO)]));
    Ok(())
}

// The last byte of a sector that waits in a file, once its folder has moved.
fn moved(disk: &mut Memory, host: HostId, from: Place, to: Place) -> Result<u8, DiskAnswer> {
    for call in [Call::MakeDomain, Call::MakeImages, Call::MakeImage] {
        made(disk, host, call)?;
    }
    disk.create(host, from, 512)?;
    disk.sync(host, from)?;
    disk.write_at(host, from, 0, &[8; 512])?;
    made(disk, host, Call::MoveImage)?;
    let mut into = [0; 512];
    disk.read_at(host, to, 0, &mut into)?;
    Ok(into[511])
}

// A file that is moved with its folder keeps what is unsynced in it.
#[test]
fn a_moved_folder_takes_its_files_along(rt: HostRuntime) -> Result<(), Fail> {
    let alloc = rt.alloc();
    let mut disk = Memory::new(alloc, Vec::new(alloc), Vec::new(alloc), 8)?;
    let host = HostId::new(1).ok_or("a host")?;
    let name = Name::Volume(Id::ZERO);
    let from = Place { dir: IMAGE, name };
    let to = Place { dir: REMOVED, name };
    assert_eq!(rt; moved(&mut disk, host, from, to), Ok(8));
    assert_eq!(rt; disk.length(host, from), Err(NoFile));
    Ok(())
}
