// What no clause says: whole openings of images in memory, with what each comes to.
use crate::images::State::{self, Illegal, Legal, Merged};
use crate::images::{Row, id, number, record};
use memory_disk::Memory;
use sd_names::Format::{self, Cow, Raw};
use sd_names::{Bytes, Dir, HostId, Id, Name, NoMemory, Place, Refusal, Turn, VolumeFault};
use shared_disk::SharedDisk;
use std::alloc::Global;
use volume_chain::{Chain, ChainOpening};
use volume_meta::write_into;

mod chains;
mod failing;
mod refused;

const SD: u8 = 200;

const IMAGE: u8 = 201;

// The length of a layer's clusters: those of 4,096 bytes would take a map of 36 MiB for each layer, as it may grow to 1 TiB.
const CLUSTER: usize = 65_536;

// The length of a layer's file: four clusters, and a sector for an L2 table.
const LAYER: usize = 4 * CLUSTER + 512;

// What differs in a volume from what its row says.
#[derive(Clone, Copy, Debug, PartialEq, Eq)]
enum Twist {
    Fine,
    // Its text ends before its last line.
    CutText,
    // Its file isn't there.
    NoFile,
    // Its layer's header names this volume, or none for 0.
    Names(u8),
    // The first entry of its layer is of a compressed cluster.
    Compressed,
}

// An image: its volumes, and one that has a twist.
type Volumes<'a> = (&'a [Row], u8, Twist);

// What an opening comes to: the number of the refusal, or 0; the volume that it names; the other volume, the number or
// the place behind that; and the word.
type Told = (u16, u8, u64, &'static str);

const OPEN: Told = (0, 0, 0, "");

fn told(refusal: &Refusal) -> Told {
    match refusal {
        Refusal::NoVolume(v) => (60, number(v), 0, ""),
        Refusal::MetaCorrupt(v, VolumeFault::BadValue(key)) => (65, number(v), 0, key.name()),
        Refusal::MetaCorrupt(v, VolumeFault::NoEof) => (65, number(v), 0, "NoEof"),
        Refusal::WrongParent(v, p) => (67, number(v), u64::from(number(p)), ""),
        Refusal::ChainTooLong(count) => (68, 0, *count, ""),
        Refusal::LayerRefused(v, fault) => (
            80,
            number(v),
            fault.value().unwrap_or(0),
            fault.name(),
        ),
        other => (other.number(), 0, 0, ""),
    }
}

fn place(name: Name) -> Place {
    Place {
        dir: Dir::Image(id(SD), id(IMAGE)),
        name,
    }
}

// The sector that the text of a volume stands in.
fn text_sector(alloc: Global, version: u8, row: &Row, cut: bool) -> Result<[u8; 512], NoMemory> {
    let mut meta = record(alloc, row);
    meta.description = Bytes::new(alloc);
    meta.disk_type = Bytes::copied(alloc, b"DATA")?;
    let mut text = [0; 8192];
    let length = write_into(version, &meta, &mut text);
    let kept = if cut {
        length.saturating_sub(4)
    } else {
        length
    };
    let mut sector = [0; 512];
    for (to, from) in sector.iter_mut().zip(text.iter().take(kept)) {
        *to = *from;
    }
    Ok(sector)
}

// Puts the text of a volume.
fn put_text(
    alloc: Global,
    disk: &mut Memory,
    version: u8,
    row: &Row,
    cut: bool,
) -> Result<(), NoMemory> {
    let sector = text_sector(alloc, version, row, cut)?;
    disk.put(place(Name::Meta(id(row.0))), &sector)
}

// Lays bytes over a layer's file from a place on.
fn lay(file: &mut Vec<u8>, at: usize, bytes: &[u8]) {
    if at <= file.len() && bytes.len() <= file.len() - at {
        file[at..at + bytes.len()].copy_from_slice(bytes);
    }
}

// A layer of version 2 without data, over a volume of this number, or over none for 0: the header, the refcount table, its
// block, the L1 table, and a sector of a cluster that nothing names.
fn layer_bytes(alloc: Global, row: &Row, names: u8) -> Result<Vec<u8>, NoMemory> {
    let Ok(mut file) = Vec::from_elem(alloc, 0, LAYER) else {
        return Err(NoMemory);
    };
    lay(&mut file, 0, b"QFI\xfb\0\0\0\x02");
    lay(&mut file, 20, &[0, 0, 0, 16]);
    lay(&mut file, 24, &row.4.saturating_mul(512).to_be_bytes());
    lay(&mut file, 36, &[0, 0, 0, 1]);
    lay(&mut file, 40, &(3 * CLUSTER as u64).to_be_bytes());
    lay(&mut file, 48, &(CLUSTER as u64).to_be_bytes());
    lay(&mut file, 56, &[0, 0, 0, 1]);
    lay(&mut file, CLUSTER, &(2 * CLUSTER as u64).to_be_bytes());
    lay(&mut file, 2 * CLUSTER, &[0, 1, 0, 1, 0, 1, 0, 1]);
    if names != 0 {
        lay(&mut file, 8, &1_024u64.to_be_bytes());
        lay(&mut file, 16, &[0, 0, 0, 36]);
        lay(&mut file, 1_024, &id(names).text());
    }
    Ok(file)
}

// Lets the first entry of a layer be that of a compressed cluster: the last cluster is the L2 table, and is counted.
fn compress(file: &mut Vec<u8>) {
    lay(file, 2 * CLUSTER + 8, &[0, 1]);
    lay(
        file,
        3 * CLUSTER,
        &(1u64 << 63 | 4 * CLUSTER as u64).to_be_bytes(),
    );
    lay(file, 4 * CLUSTER, &0x4000_0000_0000_5000u64.to_be_bytes());
}

// Puts the file of a volume.
fn put_file(alloc: Global, disk: &mut Memory, row: &Row, twist: Twist) -> Result<(), NoMemory> {
    let at = place(Name::Volume(id(row.0)));
    if row.3 == Raw {
        return disk.put(at, &[row.0; 1024]);
    }
    let names = match twist {
        Twist::Names(volume) => volume,
        _ => row.1,
    };
    let mut file = layer_bytes(alloc, row, names)?;
    if twist == Twist::Compressed {
        compress(&mut file);
    }
    if file.len() % 512 == 0 {
        disk.put(at, &file)?;
    }
    Ok(())
}

// A disk with such an image, which fails in these calls.
fn image_on(
    alloc: Global,
    version: u8,
    volumes: Volumes,
    failing: Vec<u64>,
) -> Result<Memory, NoMemory> {
    let (rows, twisted, twist) = volumes;
    let mut disk = Memory::new(alloc, Vec::new(alloc), failing, 100)?;
    for row in rows {
        let twist = if row.0 == twisted { twist } else { Twist::Fine };
        put_text(alloc, &mut disk, version, row, twist == Twist::CutText)?;
        if twist != Twist::NoFile {
            put_file(alloc, &mut disk, row, twist)?;
        }
    }
    Ok(disk)
}

// A whole opening: what it came to, after how many steps, and the chain.
fn open(
    alloc: Global,
    disk: &mut Memory,
    host: HostId,
    version: u8,
) -> Result<(Told, u64, Option<Chain>), NoMemory> {
    let Ok(mut work) = ChainOpening::begin(alloc, id(SD), id(IMAGE), version) else {
        return Err(NoMemory);
    };
    for step in 1..200_000u64 {
        match work.step(host, disk) {
            Turn::More(next) => work = next,
            Turn::Done(chain) => return Ok((OPEN, step, Some(chain))),
            Turn::Ended((), refusal) => return Ok((told(&refusal), step, None)),
        }
    }
    Ok(((1, 0, 0, "no end"), 0, None))
}

// Whether a file is the same on both disks: none is longer than a layer's.
fn is_same_file(one: &Memory, other: &Memory, at: Place) -> bool {
    let mut first = [0; 4096];
    let mut second = [0; 4096];
    for piece in 0..65u64 {
        let a = one.bytes(at, piece * 4096, &mut first);
        let b = other.bytes(at, piece * 4096, &mut second);
        if a != b || first != second {
            return false;
        }
    }
    true
}

// Whether each volume's file and text is the same on both disks, byte for byte.
fn are_same_files(one: &Memory, other: &Memory, rows: &[Row]) -> bool {
    for row in rows {
        let v = id(row.0);
        if !is_same_file(one, other, place(Name::Volume(v)))
            || !is_same_file(one, other, place(Name::Meta(v)))
        {
            return false;
        }
    }
    true
}
