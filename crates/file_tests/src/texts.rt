// What no clause says: whole replacements over a disk in memory, and a disk that fails and a host that goes down at each
// of their calls.
use memory_disk::{Memory, Pick};
use sd_names::{Dir, HostId, Id, Name, NoMemory, Place, Refusal, Turn};
use shared_disk::{DiskAnswer, SharedDisk};
use std::alloc::Global;
use std::test::Fail;
use whole_file::{LONGEST, ROOM, Replace, Text, read_text};

const DIR: Dir = Dir::DomMd(Id::ZERO);

const TARGET: Place = Place {
    dir: DIR,
    name: Name::Metadata,
};

const VOLATILE: Place = Place {
    dir: DIR,
    name: Name::MetadataNew,
};

const OLD: &[u8] = b"CLASS=Data\nEOF\n";

const NEW: &[u8] = &[b'n'; 700];

// How a replacement ended.
#[derive(Clone, Copy, Debug, PartialEq, Eq)]
enum End {
    // After so many steps.
    Done(u8),
    // By a refusal with this number, in the step with this number from 1.
    Refused(u8, u16),
}

fn make_folders(disk: &mut Memory, host: HostId) -> Result<(), DiskAnswer> {
    disk.make_dir(host, Dir::Domain(Id::ZERO))?;
    disk.make_dir(host, DIR)
}

fn replace(disk: &mut Memory, host: HostId, text: &[u8]) -> End {
    if text.len() > LONGEST {
        return End::Done(0);
    }
    let mut work = Replace::begin(TARGET, VOLATILE.name, text.len());
    for step in 1..10 {
        match work.step(host, disk, text) {
            Turn::More(next) => work = next,
            Turn::Done(()) => return End::Done(step),
            Turn::Ended((), refusal) => return End::Refused(step, refusal.number()),
        }
    }
    End::Done(0)
}

// Whether the target reads as this text.
fn reads(disk: &mut Memory, host: HostId, text: &[u8]) -> bool {
    let mut room = [0; ROOM];
    match read_text(host, disk, TARGET, &mut room) {
        Ok(Text::Bytes(length)) => room[..length] == text[..],
        _ => false,
    }
}

// Texts, and in how many steps each replaces the one before it.
const TEXTS: [(&[u8], u8); 4] = [(OLD, 5), (NEW, 5), (&[], 4), (&[b'x'; LONGEST], 5)];

// Whether a text replaces what is there in so many steps, is read, and leaves nothing under the volatile name.
fn is_put(disk: &mut Memory, host: HostId, text: &[u8], steps: u8) -> bool {
    replace(disk, host, text) == End::Done(steps)
        && reads(disk, host, text)
        && disk.length(host, VOLATILE) == Err(DiskAnswer::NoFile)
}

#[test]
fn a_text_is_replaced_and_read(rt: HostRuntime) -> Result<(), Fail> {
    let host = HostId::new(1).ok_or("no host")?;
    let mut disk = Memory::new(rt.alloc(), Vec::new(rt.alloc()), Vec::new(rt.alloc()), 100)?;
    make_folders(&mut disk, host)?;
    let mut room = [0; ROOM];
    assert!(rt;
        matches!(
            read_text(host, &mut disk, TARGET, &mut room),
            Ok(Text::Absent)
        )
    );
    // What an earlier attempt left.
    disk.create(host, VOLATILE, 1024)?;
    disk.write_at(host, VOLATILE, 0, &[7; 1024])?;
    for (text, steps) in TEXTS {
        assert!(rt;
            is_put(&mut disk, host, text, steps),
            "{} bytes",
            text.len()
        );
    }
    Ok(())
}

#[test]
fn long_texts_are_told(rt: HostRuntime) -> Result<(), Fail> {
    let host = HostId::new(1).ok_or("no host")?;
    let mut disk = Memory::new(rt.alloc(), Vec::new(rt.alloc()), Vec::new(rt.alloc()), 100)?;
    make_folders(&mut disk, host)?;
    disk.create(host, TARGET, 9216)?;
    disk.write_at(host, TARGET, 0, &[b'x'; 9216])?;
    let mut room = [0; ROOM];
    for (sector, want) in [
        (17u8, Text::Long),
        (16, Text::Bytes(8192)),
        (1, Text::Bytes(512)),
        (0, Text::Bytes(0)),
    ] {
        disk.write_at(host, TARGET, 512 * u64::from(sector), &[0; 512])?;
        let text = read_text(host, &mut disk, TARGET, &mut room);
        assert!(rt;
            matches!(text, Ok(text) if text == want),
            "zeros in sector {sector}"
        );
    }
    Ok(())
}

// How a replacement ends on a disk that settles by the pick and fails in one of its five calls, or in none; and whether,
// once the host went down, the text stands that the end says, and a second replacement puts the new one there.
fn crash(
    alloc: Global,
    host: HostId,
    other: HostId,
    pick: Pick,
    failing: u64,
) -> Result<(End, bool), NoMemory> {
    let mut picks = Vec::new(alloc);
    let mut list = Vec::new(alloc);
    // Two calls make the folders, five the old text, and then come those of the new one.
    if picks.push(pick).is_err() || failing < 5 && list.push(7 + failing).is_err() {
        return Err(NoMemory);
    }
    let mut disk = Memory::new(alloc, picks, list, 100)?;
    let begun = make_folders(&mut disk, host).is_ok()
        && replace(&mut disk, host, OLD) == End::Done(5);
    let end = replace(&mut disk, host, NEW);
    disk.down(host);
    let stands = reads(&mut disk, other, if failing < 5 { OLD } else { NEW });
    let again = replace(&mut disk, other, NEW) == End::Done(5) && reads(&mut disk, other, NEW);
    Ok((end, begun && stands && again))
}

#[test]
fn the_target_is_old_or_new_at_each_crash(rt: HostRuntime) -> Result<(), Fail> {
    let host = HostId::new(1).ok_or("no host")?;
    let other = HostId::new(2).ok_or("no host")?;
    for pick in [Pick::Old, Pick::New, Pick::Byte(0x55)] {
        for failing in 0..6 {
            let end = if failing < 5 {
                End::Refused(failing as u8 + 1, 120)
            } else {
                End::Done(5)
            };
            assert_eq!(rt;
                crash(rt.alloc(), host, other, pick, failing)?,
                (end, true),
                "{pick:?} at call {failing}"
            );
        }
    }
    Ok(())
}

#[test]
fn a_missing_folder_and_a_fault_are_refused(rt: HostRuntime) -> Result<(), Fail> {
    let host = HostId::new(1).ok_or("no host")?;
    let mut list = Vec::new(rt.alloc());
    list.push(2)?;
    let mut disk = Memory::new(rt.alloc(), Vec::new(rt.alloc()), list, 100)?;
    assert!(rt; replace(&mut disk, host, NEW) == End::Refused(2, 122));
    let mut room = [0; ROOM];
    assert!(rt;
        matches!(
            read_text(host, &mut disk, TARGET, &mut room),
            Err(Refusal::DiskFault(1))
        )
    );
    Ok(())
}
