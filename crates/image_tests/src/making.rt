// Making an image: each file's bytes, and a fault and a cut at each call.
ghost use Rattle.std.specs.Prelude.{◌<◌, ◌≤◌};

use crate::shared::{BEFORE, End, NEVER, OWN, VOLUME, at, disk_with, is_gone, make, remove};
use memory_disk::{Memory, Pick};
use sd_names::{Format, HostId, Name, NoMemory, Place};
use shared_disk::SharedDisk;
use std::alloc::Global;
use std::test::Fail;

const FILE: Name = Name::Volume(VOLUME);

const META: Name = Name::Meta(VOLUME);

// The texts, by the version of the domain, as the table of keys in `docs/FORMATS.md` has them.
const RAW_IN_5: &[u8] =
    b"CAP=1024\nCTIME=1700000000\nDESCRIPTION=disk\nDISKTYPE=DATA\nDOMAIN=00000000-0000-4000-8000-000000000002\nFORMAT=RAW\nGEN=0\nIMAGE=00000000-0000-4000-8000-000000000003\nLEGALITY=LEGAL\nPUUID=00000000-0000-0000-0000-000000000000\nTYPE=SPARSE\nVOLTYPE=LEAF\nEOF\n";

const COW_IN_4: &[u8] =
    b"CTIME=1700000000\nDESCRIPTION=disk\nDISKTYPE=DATA\nDOMAIN=00000000-0000-4000-8000-000000000002\nFORMAT=COW\nGEN=0\nIMAGE=00000000-0000-4000-8000-000000000003\nLEGALITY=LEGAL\nMTIME=0\nPUUID=00000000-0000-0000-0000-000000000000\nSIZE=2097152\nTYPE=SPARSE\nVOLTYPE=LEAF\nEOF\n";

// The first 112 bytes of a layer of 1 GiB without a backing file (qcow2 specification, "Header").
const HEADER: [u8; 112] = [
    0x51, 0x46, 0x49, 0xfb, 0, 0, 0, 3, 0, 0, 0, 0, 0, 0, 0, 0, 0, 0, 0, 0, 0, 0, 0, 16, 0, 0, 0,
    0, 0x40, 0, 0, 0, 0, 0, 0, 0, 0, 0, 0, 2, 0, 0, 0, 0, 0, 3, 0, 0, 0, 0, 0, 0, 0, 1, 0, 0, 0, 0,
    0, 1, 0, 0, 0, 0, 0, 0, 0, 0, 0, 0, 0, 0, 0, 0, 0, 0, 0, 0, 0, 0, 0, 0, 0, 0, 0, 0, 0, 0, 0, 0,
    0, 0, 0, 0, 0, 0, 0, 0, 0, 4, 0, 0, 0, 104, 0, 0, 0, 0, 0, 0, 0, 0,
];

// Whether a sector of a file begins with these bytes, and has zeros behind them.
pub fn holds_at(disk: &Memory, place: Place, from: u64, bytes: &[u8]) -> bool {
    let mut sector = [7; 512];
    disk.bytes(place, from, &mut sector) == Some(512)
        && bytes.len() <= 512
        && sector[..bytes.len()] == bytes[..]
        && sector[bytes.len()..].iter().all(|byte| *byte == 0)
}

// Whether a file begins with these bytes, and has zeros behind them up to this place.
fn holds(disk: &Memory, name: Name, from: u64, bytes: &[u8], length: u64) -> bool {
    let mut behind = [7; 512];
    holds_at(disk, at(OWN, name), from, bytes)
        && disk.bytes(at(OWN, name), length, &mut behind) == Some(0)
}

// Whether the image stands there whole, as it was wanted.
pub fn is_whole(disk: &mut Memory, host: HostId, format: Format) -> bool {
    let names = disk.next_name(host, OWN, None) == Ok(Some(FILE))
        && disk.next_name(host, OWN, Some(FILE)) == Ok(Some(META))
        && disk.next_name(host, OWN, Some(META)) == Ok(None);
    let files = match format {
        Format::Raw => {
            holds(disk, FILE, 0, b"", 1_024)
                && holds(disk, FILE, 512, b"", 1_024)
                && holds(disk, META, 0, RAW_IN_5, 512)
        }
        Format::Cow => {
            holds(disk, FILE, 0, &HEADER, 1_310_720)
                && holds(disk, FILE, 512, b"", 1_310_720)
                && holds(disk, FILE, 64_512, b"", 1_310_720)
                && holds(disk, FILE, 65_536, &[0, 0, 0, 0, 0, 2, 0, 0], 1_310_720)
                && holds(disk, FILE, 131_072, &[0, 1, 0, 1, 0, 1, 0, 1], 1_310_720)
                && holds(disk, FILE, 196_608, b"", 1_310_720)
                && holds(disk, FILE, 1_310_208, b"", 1_310_720)
                && holds(disk, META, 0, COW_IN_4, 512)
        }
    };
    names && files
}

// The version of the domain of each image.
pub fn version_for(format: Format) -> u8 {
    match format {
        Format::Raw => 5,
        Format::Cow => 4,
    }
}

// How many calls each takes: the folder; the raw file and its sync, or the layer's five; and the text's five.
pub fn calls_for(format: Format) -> u16
    ensures { result ≤ 11 }
{
    match format {
        Format::Raw => 8,
        Format::Cow => 11,
    }
}

#[test]
fn images_are_made_whole(rt: HostRuntime) -> Result<(), Fail> {
    let host = HostId::new(1).ok_or("no host")?;
    for format in [Format::Raw, Format::Cow] {
        for pick in [Pick::Old, Pick::Byte(0x55)] {
            let mut disk = disk_with(rt.alloc(), host, pick, NEVER)?;
            let end = make(rt.alloc(), &mut disk, host, format, version_for(format), 64);
            assert!(rt; end == End::Done(calls_for(format)), "{end:?}");
            disk.down(host);
            assert!(rt; is_whole(&mut disk, host, format), "{format:?}");
            let again = make(rt.alloc(), &mut disk, host, format, version_for(format), 64);
            assert!(rt; again == End::Refused(1, 122), "{again:?}");
        }
    }
    Ok(())
}

// Whether a making that fails in this call, from 0, is refused there, or that is cut before it, and leaves no text; and whether,
// once its host went down, another host removes what is left, and then makes the image whole.
fn is_made_good(
    alloc: Global,
    pick: Pick,
    format: Format,
    call: u16,
    fails: bool,
) -> Result<bool, NoMemory>
    requires { call < 11 }
{
    let (Some(host), Some(other)) = (HostId::new(1), HostId::new(2)) else {
        return Ok(false);
    };
    let (failing, most, wanted) = if fails {
        (BEFORE + u64::from(call), 64, End::Refused(call + 1, 120))
    } else {
        (NEVER, call, End::Other)
    };
    let version = version_for(format);
    let mut disk = disk_with(alloc, host, pick, failing)?;
    let mut sector = [0; 512];
    let ended = make(alloc, &mut disk, host, format, version, most) == wanted;
    disk.down(host);
    let none = disk.bytes(at(OWN, META), 0, &mut sector).is_none();
    let removed = matches!(remove(&mut disk, other, 64), End::Done(_));
    let gone = is_gone(&mut disk, other);
    let again = matches!(
        make(alloc, &mut disk, other, format, version, 64),
        End::Done(_)
    );
    disk.down(other);
    Ok(ended && none && removed && gone && again && is_whole(&mut disk, host, format))
}

#[test]
fn each_fault_and_cut_is_made_good(rt: HostRuntime) -> Result<(), Fail> {
    for format in [Format::Raw, Format::Cow] {
        for call in 0..calls_for(format) {
            for pick in [Pick::Old, Pick::New, Pick::Byte(0x55)] {
                for fails in [true, false] {
                    assert!(rt;
                        is_made_good(rt.alloc(), pick, format, call, fails)?,
                        "{format:?} {pick:?}, call {call} {fails}"
                    );
                }
            }
        }
    }
    Ok(())
}
