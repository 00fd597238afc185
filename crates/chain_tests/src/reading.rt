// What no clause says: parts that are read through whole chains in memory, by how many calls, and on disks that fail.
use chain_reading::ReadPart;
use memory_disk::Memory;
use sd_names::{
    AllocKind, Bytes, Dir, Format, HostId, Id, Legality, Name, NoMemory, Place, Turn, VolType,
};
use shared_disk::SharedDisk;
use std::alloc::Global;
use std::test::Fail;
use volume_chain::{Chain, ChainOpening};
use volume_meta::{VolumeRecord, write_into};

// A volume: its format, its capacity in sectors, and its clusters. A point is one that it doesn't hold, `0` one of zeros, a
// letter one of data. It stands behind the one before it, a capital letter with a cluster between them. In a raw volume a
// letter stands for eight sectors, and behind the last one its file ends.
type Row = (Format, u64, &'static [u8]);

// Volumes from the base up, and the clusters of their layers, as a power of two.
type Image<'a> = (&'a [Row], u32);

const RAW: Format = Format::Raw;

const COW: Format = Format::Cow;

fn id(number: u8) -> Id {
    Id([number; 16])
}

fn place(name: Name) -> Place {
    Place {
        dir: Dir::Image(id(200), id(201)),
        name,
    }
}

// The sector that the text of volume `number` stands in, which is over the one before it.
fn text_sector(alloc: Global, version: u8, number: u8, row: &Row) -> Result<[u8; 512], NoMemory> {
    let meta = VolumeRecord {
        capacity: row.1.saturating_mul(512),
        ctime: 0,
        description: Bytes::new(alloc),
        disk_type: Bytes::copied(alloc, b"DATA")?,
        domain: id(200),
        format: row.0,
        generation: 0,
        image: id(201),
        legality: Legality::Legal,
        merged: false,
        parent: if number <= 1 {
            Id::ZERO
        } else {
            id(number - 1)
        },
        kind: AllocKind::Sparse,
        voltype: VolType::Leaf,
    };
    let mut text = [0; 8192];
    let length = write_into(version, &meta, &mut text);
    let mut sector = [0; 512];
    for (to, from) in sector.iter_mut().zip(text.iter().take(length)) {
        *to = *from;
    }
    Ok(sector)
}

// Puts the text of a volume.
fn put_text(
    alloc: Global,
    disk: &mut Memory,
    version: u8,
    number: u8,
    row: &Row,
) -> Result<(), NoMemory> {
    let sector = text_sector(alloc, version, number, row)?;
    disk.put(place(Name::Meta(id(number))), &sector)
}

// The byte of each byte of a sector of data: by the letter, and by which of its cluster's sectors it is.
fn data(letter: u8, sector: u64) -> u8 {
    letter.to_ascii_lowercase() ^ (sector % 251) as u8
}

// A sector that begins with these bytes.
fn write(disk: &mut Memory, host: HostId, at: Place, sector: u64, bytes: &[u8]) {
    let mut room = [0; 512];
    for (to, from) in room.iter_mut().zip(bytes) {
        *to = *from;
    }
    let _ = disk.write_at(host, at, sector.min(1 << 40) * 512, &room);
}

// The place of cluster `k` of the virtual disk, in clusters: behind the header, the two of refcounts, and the two tables.
fn cluster_at(clusters: &[u8], k: usize) -> u64 {
    let mut next = 5u64;
    for (n, letter) in clusters.iter().enumerate() {
        if letter.is_ascii_uppercase() {
            next = next.saturating_add(1);
        }
        if n == k {
            return next;
        }
        if letter.is_ascii_alphabetic() {
            next = next.saturating_add(1);
        }
    }
    next
}

// The file of a layer of version 3, made and synced by a host: one block of counts, one L2 table.
fn put_layer(disk: &mut Memory, host: HostId, number: u8, row: &Row, bits: u32) {
    let at = place(Name::Volume(id(number)));
    let width = 1u64 << bits.min(21);
    let sectors = width / 512;
    let clusters = row.2;
    let count = cluster_at(clusters, clusters.len()).saturating_add(1);
    let _ = disk.create(host, at, count.saturating_mul(width) / 512 * 512);
    let mut header = [0; 512];
    header[..8].copy_from_slice(b"QFI\xfb\0\0\0\x03");
    if number > 1 {
        header[8..16].copy_from_slice(&256u64.to_be_bytes());
        header[16..20].copy_from_slice(&36u32.to_be_bytes());
        header[256..292].copy_from_slice(&id(number - 1).text());
    }
    header[20..24].copy_from_slice(&bits.to_be_bytes());
    header[24..32].copy_from_slice(&row.1.saturating_mul(512).to_be_bytes());
    header[36..40].copy_from_slice(&1u32.to_be_bytes());
    header[40..48].copy_from_slice(&width.saturating_mul(3).to_be_bytes());
    header[48..56].copy_from_slice(&width.to_be_bytes());
    header[56..60].copy_from_slice(&1u32.to_be_bytes());
    header[96..100].copy_from_slice(&4u32.to_be_bytes());
    header[100..104].copy_from_slice(&104u32.to_be_bytes());
    write(disk, host, at, 0, &header);
    write(
        disk,
        host,
        at,
        sectors,
        &width.saturating_mul(2).to_be_bytes(),
    );
    let mut counts = [0; 512];
    for pair in counts.chunks_exact_mut(2).take(count.min(256) as usize) {
        pair.copy_from_slice(&[0, 1]);
    }
    write(disk, host, at, 2 * sectors, &counts);
    write(
        disk,
        host,
        at,
        3 * sectors,
        &(width.saturating_mul(4) | (1 << 63)).to_be_bytes(),
    );
    let mut entries = [0; 512];
    for (k, (entry, letter)) in entries.chunks_exact_mut(8).zip(clusters).enumerate() {
        let word = match letter {
            b'.' => 0,
            b'0' => 1,
            _ => cluster_at(clusters, k).saturating_mul(width) | (1 << 63),
        };
        entry.copy_from_slice(&word.to_be_bytes());
    }
    write(disk, host, at, 4 * sectors, &entries);
    for (k, letter) in clusters.iter().enumerate() {
        if letter.is_ascii_alphabetic() {
            for sector in 0..sectors {
                // of a large cluster the parts meet the ends alone
                if sector >= 128 && sector.saturating_add(128) < sectors {
                    continue;
                }
                let place = cluster_at(clusters, k)
                    .saturating_mul(sectors)
                    .saturating_add(sector);
                write(disk, host, at, place, &[data(*letter, sector); 512]);
            }
        }
    }
    let _ = disk.sync(host, at);
}

// The file of a raw volume.
fn put_raw(disk: &mut Memory, host: HostId, number: u8, row: &Row) {
    let at = place(Name::Volume(id(number)));
    let _ = disk.create(host, at, 4096 * row.2.len().min(64) as u64);
    for (k, letter) in row.2.iter().enumerate() {
        for sector in 0..8u64 {
            let byte = if *letter == b'0' {
                0
            } else {
                data(*letter, sector)
            };
            write(
                disk,
                host,
                at,
                (k as u64).saturating_mul(8).saturating_add(sector),
                &[byte; 512],
            );
        }
    }
    let _ = disk.sync(host, at);
}

// A disk with an image.
fn disk_of(
    alloc: Global,
    host: HostId,
    image: Image,
    failing: Vec<u64>,
) -> Result<Memory, NoMemory> {
    let mut disk = Memory::new(alloc, Vec::new(alloc), failing, 3_000)?;
    for (n, row) in image.0.iter().enumerate() {
        let number = (n % 200) as u8 + 1;
        put_text(alloc, &mut disk, 5, number, row)?;
        if row.0 == RAW {
            put_raw(&mut disk, host, number, row);
        } else {
            put_layer(&mut disk, host, number, row, image.1);
        }
    }
    Ok(disk)
}

fn open(alloc: Global, disk: &mut Memory, host: HostId) -> Option<Chain> {
    let Ok(mut work) = ChainOpening::begin(alloc, id(200), id(201), 5) else {
        return None;
    };
    for _ in 0..100_000u32 {
        match work.step(host, disk) {
            Turn::More(next) => work = next,
            Turn::Done(chain) => return Some(chain),
            Turn::Ended((), _) => return None,
        }
    }
    None
}

// The byte of sector k of the first of these volumes that holds it, from the last row up to the first.
fn expected(image: Image, k: u64) -> u8 {
    let sectors = (1u64 << image.1.min(21)) / 512;
    for row in image.0.iter().rev() {
        if k < row.1 {
            let width = if row.0 == RAW { 8 } else { sectors.max(1) };
            match row.2.get((k / width) as usize) {
                Some(b'0') => return 0,
                Some(b'.') => {}
                Some(letter) => return data(*letter, k % width),
                None => {
                    if row.0 == RAW {
                        return 0;
                    }
                }
            }
        }
    }
    0
}

// How a read ended: after so many steps, with a wrong sector, or by a fault.
#[derive(Clone, Copy, Debug, PartialEq, Eq)]
enum End {
    Read,
    Wrong(u64),
    Refused(u16),
    Unopened,
}

// A part that the reading volume is asked for: it begins at a sector and has so many.
fn read(
    alloc: Global,
    host: HostId,
    image: Image,
    at: u64,
    count: usize,
    failing: Vec<u64>,
) -> Result<(End, u64), NoMemory> {
    let mut disk = disk_of(alloc, host, image, failing)?;
    let Some(mut chain) = open(alloc, &mut disk, host) else {
        return Ok((End::Unopened, 0));
    };
    let Some(volume) = chain.reading() else {
        return Ok((End::Unopened, 0));
    };
    let mut room = [0xee; 65_536];
    let part = &mut room[..512 * count.clamp(1, 128)];
    let mut work = ReadPart::begin(volume, at.min(1 << 30) * 512);
    for step in 1..5000u64 {
        match work.step(host, &mut chain, &mut disk, part) {
            Turn::More(next) => work = next,
            Turn::Ended((), refusal) => return Ok((End::Refused(refusal.number()), step)),
            Turn::Done(()) => {
                for (n, sector) in part.chunks_exact(512).enumerate() {
                    let k = at.saturating_add(n as u64);
                    let want = expected(image, k);
                    if sector != [want; 512].as_slice() {
                        return Ok((End::Wrong(k), step));
                    }
                }
                return Ok((End::Read, step));
            }
        }
    }
    Ok((End::Unopened, 0))
}

// Images; the sector at which a part begins and how many it has; and after how many steps it is read.
const READS: [(Image, u64, usize); 14] = [
    ((&[(RAW, 24, b"abc")], 12), 0, 24),
    ((&[(RAW, 24, b"a")], 12), 4, 16),
    ((&[(COW, 32, b"abcd")], 12), 0, 32),
    ((&[(COW, 32, b"ab.0")], 12), 3, 29),
    ((&[(COW, 32, b"aBcD")], 12), 5, 20),
    ((&[(COW, 20, b"abc")], 12), 0, 20),
    ((&[(RAW, 32, b"abcd"), (COW, 32, b".x.0")], 12), 0, 32),
    ((&[(RAW, 12, b"ab"), (COW, 32, b"...x")], 12), 0, 32),
    ((&[(COW, 32, b"abcd"), (COW, 32, b"x..y")], 12), 1, 30),
    (
        (
            &[(COW, 32, b"aBCd"), (COW, 32, b".0.y"), (COW, 40, b"z...w")],
            12,
        ),
        0,
        40,
    ),
    ((&[(COW, 256, b"ab")], 16), 64, 128),
    (
        (&[(RAW, 200, b"abcdefghijkl"), (COW, 256, b".x")], 16),
        40,
        128,
    ),
    ((&[(COW, 8, b"0"), (COW, 8, b".")], 12), 0, 8),
    ((&[(RAW, 8, b""), (COW, 8, b".")], 12), 0, 8),
];

#[test]
fn parts_are_read(rt: HostRuntime) -> Result<(), Fail> {
    let host = HostId::new(1).ok_or("no host")?;
    for (image, at, count) in READS {
        let got = read(rt.alloc(), host, image, at, count, Vec::new(rt.alloc()))?;
        assert_eq!(rt; got.0, End::Read, "{image:?} at {at}");
    }
    Ok(())
}
