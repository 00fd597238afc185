// What a host leaves that goes down, by the picks.
use super::{TEXT, place, read, write};
use crate::{Memory, Pick};
use sd_names::{Dir, HostId, Id};
use shared_disk::{DiskAnswer, SharedDisk};
use std::alloc::Global;
use std::test::Fail;

// The last bytes of the sectors of a file of three after its host went down: it was synced, then the host wrote 1 to
// the first sector, 2 to the second, and 3 to the first again. Host 2's write of the third stays its own.
fn settled(disk: &mut Memory, synced: bool) -> Result<[u64; 4], DiskAnswer> {
    let (host, other) = match (HostId::new(1), HostId::new(2)) {
        (Some(host), Some(other)) => (host, other),
        _ => return Err(DiskAnswer::Failed),
    };
    disk.make_dir(host, Dir::Domain(Id::ZERO))?;
    disk.make_dir(host, Dir::DomMd(Id::ZERO))?;
    disk.create(host, place(TEXT), 1536)?;
    if synced {
        disk.sync(host, place(TEXT))?;
    }
    for (sector, byte) in [(0, 1), (1, 2), (0, 3)] {
        write(disk, host, TEXT, sector, &[byte; 512])?;
    }
    write(disk, other, TEXT, 2, &[4; 512])?;
    disk.down(host);
    let third = read(disk, other, TEXT, 2)?;
    disk.down(other);
    Ok([
        read(disk, host, TEXT, 0)?,
        read(disk, host, TEXT, 1)?,
        third,
        read(disk, host, TEXT, 2)?,
    ])
}

// Picks, whether the file was synced, and the last bytes.
const SETTLED: [(&[Pick], bool, [u64; 4]); 8] = [
    // In a file that was synced each sector is old or new, in turn; a byte is old.
    (&[Pick::New, Pick::New], true, [3, 2, 4, 4]),
    (&[Pick::Old, Pick::Old], true, [0, 0, 4, 0]),
    (&[Pick::Old, Pick::New], true, [0, 2, 4, 0]),
    (&[Pick::New, Pick::Old], true, [3, 0, 4, 4]),
    (&[Pick::Byte(9), Pick::New], true, [0, 2, 4, 0]),
    // In a file that was not, a byte is each sector, written or not.
    (&[Pick::New, Pick::Old], false, [3, 0, 4, 4]),
    (&[Pick::Byte(9), Pick::Byte(9)], false, [9, 9, 4, 9]),
    // Where there are none, each is New.
    (&[], true, [3, 2, 4, 4]),
];

#[test]
fn picks_settle_what_was_unsynced(rt: HostRuntime) -> Result<(), Fail> {
    let alloc = rt.alloc();
    for (picks, synced, bytes) in SETTLED {
        let mut disk = Memory::new(alloc, picks.to_vec(alloc)?, Vec::new(alloc), 12)?;
        assert_eq!(rt; settled(&mut disk, synced), Ok(bytes));
    }
    Ok(())
}
