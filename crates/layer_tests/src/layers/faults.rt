// Layers with something wrong: each is refused with its first fault.
use super::{GIB, Outcome, alone, disk_with, lay_number, open_layer, over_raw, told};
use sd_names::{HostId, LayerFault, NoMemory};
use std::alloc::{AllocError, Global};
use std::test::Fail;

// A layer that is changed.
#[derive(Clone, Copy, Debug)]
enum Base {
    Empty,
    OverRaw,
    Alone,
}

fn file_of(alloc: Global, base: Base) -> Result<Vec<u8>, AllocError> {
    match base {
        Base::Empty => Ok(Vec::new(alloc)),
        Base::OverRaw => over_raw(alloc),
        Base::Alone => alone(alloc),
    }
}

fn capacity_of(base: Base) -> u64 {
    match base {
        Base::Empty => GIB,
        Base::OverRaw => GIB,
        Base::Alone => 131_072,
    }
}

// What comes where numbers are laid over the layer: at a place, so many bytes, the number.
fn answer(
    alloc: Global,
    host: HostId,
    base: Base,
    changes: &[(usize, usize, u64)],
) -> Result<Outcome, NoMemory> {
    let mut file = match file_of(alloc, base) {
        Ok(file) => file,
        Err(_) => return Err(NoMemory),
    };
    for (at, length, number) in changes {
        lay_number(&mut file, *at, *length, *number);
    }
    let mut disk = disk_with(alloc, u64::MAX, &file)?;
    Ok(told(open_layer(alloc, &mut disk, host, capacity_of(base))))
}

#[test]
fn each_fault(rt: HostRuntime) -> Result<(), Fail> {
    let host = HostId::new(1).ok_or("no host")?;
    let rows = [
        (Base::Empty, &[][..], LayerFault::Short),
        (Base::OverRaw, &[(0, 1, 0)][..], LayerFault::Magic),
        (Base::OverRaw, &[(4, 4, 4)][..], LayerFault::Version),
        (Base::OverRaw, &[(20, 4, 9)][..], LayerFault::Bits),
        (Base::OverRaw, &[(32, 4, 1)][..], LayerFault::Encrypted),
        (Base::OverRaw, &[(60, 4, 1)][..], LayerFault::Snapshots),
        (Base::OverRaw, &[(72, 8, 16)][..], LayerFault::Feature(4)),
        (Base::OverRaw, &[(96, 4, 3)][..], LayerFault::RefcountOrder),
        (Base::OverRaw, &[(100, 4, 105)][..], LayerFault::HeaderShape),
        (Base::OverRaw, &[(24, 8, 512)][..], LayerFault::Size(512)),
        (
            Base::OverRaw,
            &[(196_608, 8, 0x8000_0000_0004_0001)][..],
            LayerFault::MixedBits(196_608),
        ),
        (
            Base::OverRaw,
            &[(196_608, 8, 0x8000_0000_0014_0000)][..],
            LayerFault::OutOfFile(196_608),
        ),
        (
            Base::OverRaw,
            &[(196_608, 8, 0x8000_0000_0003_0000)][..],
            LayerFault::Shared(196_608),
        ),
        (
            Base::OverRaw,
            &[(196_608, 8, 0x8000_0000_0004_0000)][..],
            LayerFault::LowRefcount(262_144),
        ),
        (
            Base::OverRaw,
            &[
                (196_608, 8, 0x8000_0000_0004_0000),
                (131_080, 2, 1),
                (262_144, 8, 0x4000_0000_0005_0000),
            ][..],
            LayerFault::Compressed(262_144),
        ),
        (
            Base::Alone,
            &[(262_160, 8, 1)][..],
            LayerFault::Tail(262_160),
        ),
    ];
    for (base, changes, fault) in rows {
        assert!(rt;
            answer(rt.alloc(), host, base, changes)? == Outcome::Fault(fault),
            "{fault:?}"
        );
    }
    Ok(())
}

// The header's own cluster, then the L1 table's, the refcount table's, the blocks, and the entries; at an entry of an L2
// table the faults in their order.
#[test]
fn the_first_of_several(rt: HostRuntime) -> Result<(), Fail> {
    let host = HostId::new(1).ok_or("no host")?;
    let rows = [
        // The header's cluster, the L1 table and the refcount table have no counts.
        (
            Base::OverRaw,
            &[(131_072, 8, 0)][..],
            LayerFault::LowRefcount(0),
        ),
        (
            Base::OverRaw,
            &[(131_072, 8, 0x0001_0000_0000_0000)][..],
            LayerFault::LowRefcount(196_608),
        ),
        (
            Base::OverRaw,
            &[(131_074, 2, 0)][..],
            LayerFault::LowRefcount(65_536),
        ),
        // The refcount table past the file's end: it counts nothing.
        (
            Base::OverRaw,
            &[(48, 8, 0x14_0000)][..],
            LayerFault::LowRefcount(0),
        ),
        // The L1 table past the file's end, over the header, and over the refcount table.
        (
            Base::OverRaw,
            &[(40, 8, 0x14_0000), (196_608, 8, 2)][..],
            LayerFault::OutOfFile(40),
        ),
        (Base::OverRaw, &[(40, 8, 0)][..], LayerFault::Shared(0)),
        (
            Base::OverRaw,
            &[(40, 8, 0x1_0000)][..],
            LayerFault::Shared(65_536),
        ),
        // A refcount table of three clusters reaches the L1 table.
        (
            Base::OverRaw,
            &[(56, 4, 3)][..],
            LayerFault::Shared(196_608),
        ),
        // Refcount blocks: reserved bits, past the file's end, over the L1 table, without a count.
        (
            Base::OverRaw,
            &[(65_544, 8, 0x3_0001), (196_608, 8, 2)][..],
            LayerFault::MixedBits(65_544),
        ),
        (
            Base::OverRaw,
            &[(65_544, 8, 0x3_0200)][..],
            LayerFault::MixedBits(65_544),
        ),
        (
            Base::OverRaw,
            &[(65_544, 8, 0x14_0000)][..],
            LayerFault::OutOfFile(65_544),
        ),
        (
            Base::OverRaw,
            &[(131_064, 8, 0x3_0000)][..],
            LayerFault::Shared(196_608),
        ),
        (
            Base::OverRaw,
            &[(131_076, 2, 0)][..],
            LayerFault::LowRefcount(131_072),
        ),
        // L1 entries: bit 62 is reserved there; the second one, behind the first one's table.
        (
            Base::OverRaw,
            &[(196_608, 8, 0x4000_0000_0004_0000)][..],
            LayerFault::MixedBits(196_608),
        ),
        (
            Base::Alone,
            &[(196_608, 8, 0x8000_0000_0004_0200)][..],
            LayerFault::MixedBits(196_608),
        ),
        (
            Base::Alone,
            &[(36, 4, 2), (196_616, 8, 2), (327_672, 8, 2)][..],
            LayerFault::MixedBits(327_672),
        ),
        (
            Base::Alone,
            &[(36, 4, 2), (196_616, 8, 0x8000_0000_0005_0000)][..],
            LayerFault::Shared(327_680),
        ),
        // L2 entries.
        (
            Base::Alone,
            &[(262_160, 8, 0x4000_0000_0005_0002)][..],
            LayerFault::Compressed(262_160),
        ),
        (
            Base::Alone,
            &[(262_160, 8, 0x8000_0000_0014_0002)][..],
            LayerFault::MixedBits(262_160),
        ),
        (
            Base::Alone,
            &[(262_160, 8, 0x8000_0000_0014_0000)][..],
            LayerFault::Tail(262_160),
        ),
        (
            Base::Alone,
            &[(262_152, 8, 0x8000_0000_0014_0000)][..],
            LayerFault::OutOfFile(262_152),
        ),
        (
            Base::Alone,
            &[(262_152, 8, 0x8000_0000_0005_0001)][..],
            LayerFault::Shared(327_680),
        ),
        (
            Base::Alone,
            &[(262_152, 8, 0x8000_0000_0006_0000), (262_160, 8, 1)][..],
            LayerFault::LowRefcount(393_216),
        ),
    ];
    for (number, (base, changes, fault)) in rows.into_iter().enumerate() {
        assert!(rt;
            answer(rt.alloc(), host, base, changes)? == Outcome::Fault(fault),
            "row {number}, {fault:?}"
        );
    }
    Ok(())
}

// Counts above 1, an entry of bit 63 alone past the capacity, and whatever stands behind the L1 table's last entry.
#[test]
fn no_faults(rt: HostRuntime) -> Result<(), Fail> {
    let host = HostId::new(1).ok_or("no host")?;
    let rows = [
        (Base::OverRaw, &[][..]),
        (Base::Alone, &[][..]),
        (Base::OverRaw, &[(131_072, 8, 0x0002_ffff_0003_0001)][..]),
        (Base::Alone, &[(262_160, 8, 1 << 63)][..]),
        (Base::Alone, &[(196_616, 8, u64::MAX)][..]),
        (Base::Alone, &[(262_152, 8, 1)][..]),
    ];
    for (number, (base, changes)) in rows.into_iter().enumerate() {
        assert!(rt;
            answer(rt.alloc(), host, base, changes)? == Outcome::Opened,
            "row {number}"
        );
    }
    Ok(())
}
