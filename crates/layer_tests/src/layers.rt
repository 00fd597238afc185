// Whole layers over a disk in memory: which of them open, what the others are refused for, what the look-up of a cluster
// says, and a disk that fails in each call.
use memory_disk::Memory;
use qcow_layer::{Layer, Looked, Looking, Opening};
use sd_names::{Dir, HostId, Id, LayerFault, Name, NoMemory, Place, Refusal, Turn};
use std::alloc::{AllocError, Global};

mod clearing;
mod creating;
mod failing;
mod faults;
mod links;
mod looks;
mod opens;
mod placed;
mod rebasing;
mod sizing;

const VOLUME: Id = Id([0, 0, 0, 0, 0, 0, 0x40, 0, 0x80, 0, 0, 0, 0, 0, 1, 2]);

const FILE: Place = Place {
    dir: Dir::Image(Id([1; 16]), Id([2; 16])),
    name: Name::Volume(VOLUME),
};

// The first bytes of a layer of 1 GiB over a raw volume: version 3, clusters of 65,536 bytes, a backing format at 104,
// and the name of the backing file, 36 bytes, at 64,512.
const FIRST: [u8; 128] = [
    0x51, 0x46, 0x49, 0xfb, 0x00, 0x00, 0x00, 0x03, 0x00, 0x00, 0x00, 0x00, 0x00, 0x00, 0xfc, 0x00,
    0x00, 0x00, 0x00, 0x24, 0x00, 0x00, 0x00, 0x10, 0x00, 0x00, 0x00, 0x00, 0x40, 0x00, 0x00, 0x00,
    0x00, 0x00, 0x00, 0x00, 0x00, 0x00, 0x00, 0x02, 0x00, 0x00, 0x00, 0x00, 0x00, 0x03, 0x00, 0x00,
    0x00, 0x00, 0x00, 0x00, 0x00, 0x01, 0x00, 0x00, 0x00, 0x00, 0x00, 0x01, 0x00, 0x00, 0x00, 0x00,
    0x00, 0x00, 0x00, 0x00, 0x00, 0x00, 0x00, 0x00, 0x00, 0x00, 0x00, 0x00, 0x00, 0x00, 0x00, 0x00,
    0x00, 0x00, 0x00, 0x00, 0x00, 0x00, 0x00, 0x00, 0x00, 0x00, 0x00, 0x00, 0x00, 0x00, 0x00, 0x00,
    0x00, 0x00, 0x00, 0x04, 0x00, 0x00, 0x00, 0x68, 0xe2, 0x79, 0x2a, 0xca, 0x00, 0x00, 0x00, 0x03,
    0x72, 0x61, 0x77, 0x00, 0x00, 0x00, 0x00, 0x00, 0x00, 0x00, 0x00, 0x00, 0x00, 0x00, 0x00, 0x00,
];

const NAME: [u8; 36] = *b"00000000-0000-4000-8000-000000000101";

const GIB: u64 = 1 << 30;

// What an opening came to: the layer opened, or it was refused with a fault, or with this number.
#[derive(Clone, Copy, Debug, PartialEq, Eq)]
enum Outcome {
    Opened,
    Fault(LayerFault),
    Refused(u16),
}

// Lays bytes over a file from a place on.
fn lay(file: &mut Vec<u8>, at: usize, bytes: &[u8]) {
    if at <= file.len() && bytes.len() <= file.len() - at {
        file[at..at + bytes.len()].copy_from_slice(bytes);
    }
}

// Lays a number of so many bytes over a file.
fn lay_number(file: &mut Vec<u8>, at: usize, length: usize, number: u64) {
    let bytes = number.to_be_bytes();
    if length <= 8 {
        lay(file, at, &bytes[8 - length..]);
    }
}

// The layer of 1 GiB over a raw volume, as this store makes it: the header, the refcount table, its block with the counts
// of clusters 0 to 3, and the L1 table, in a file of 20 clusters.
fn over_raw(alloc: Global) -> Result<Vec<u8>, AllocError> {
    let mut file = vec![in alloc; 0; 1_310_720]?;
    lay(&mut file, 0, &FIRST);
    lay(&mut file, 64_512, &NAME);
    lay_number(&mut file, 65_536, 8, 0x2_0000);
    lay(&mut file, 131_072, &[0, 1, 0, 1, 0, 1, 0, 1]);
    Ok(file)
}

// A layer of 131,072 bytes without a backing file, as this store makes it, after a first write: cluster 4 is the L2 table
// and cluster 5 has the data.
fn alone(alloc: Global) -> Result<Vec<u8>, AllocError> {
    let mut file = over_raw(alloc)?;
    lay(&mut file, 8, &[0; 12]);
    lay_number(&mut file, 24, 8, 131_072);
    lay_number(&mut file, 36, 4, 1);
    lay(&mut file, 104, &[0; 16]);
    lay(&mut file, 64_512, &[0; 36]);
    lay(&mut file, 131_080, &[0, 1, 0, 1]);
    lay_number(&mut file, 196_608, 8, 0x8000_0000_0004_0000);
    lay_number(&mut file, 262_144, 8, 0x8000_0000_0005_0000);
    Ok(file)
}

// A layer of version 2 and 4 MiB with clusters of 4,096 bytes: the header, the refcount table, its block, the L1 table, two
// L2 tables and two clusters of data.
fn small(alloc: Global) -> Result<Vec<u8>, AllocError> {
    let mut file = vec![in alloc; 0; 32_768]?;
    lay(&mut file, 0, b"QFI\xfb\0\0\0\x02");
    lay_number(&mut file, 20, 4, 12);
    lay_number(&mut file, 24, 8, 4_194_304);
    lay_number(&mut file, 36, 4, 2);
    lay_number(&mut file, 40, 8, 12_288);
    lay_number(&mut file, 48, 8, 4_096);
    lay_number(&mut file, 56, 4, 1);
    lay_number(&mut file, 4_096, 8, 8_192);
    lay(
        &mut file,
        8_192,
        &[0, 1, 0, 1, 0, 1, 0, 1, 0, 1, 0, 1, 0, 1, 0, 1],
    );
    lay_number(&mut file, 12_288, 8, 0x8000_0000_0000_4000);
    lay_number(&mut file, 12_296, 8, 0x8000_0000_0000_5000);
    lay_number(&mut file, 16_384, 8, 0x8000_0000_0000_7000);
    lay_number(&mut file, 24_568, 8, 0x8000_0000_0000_6000);
    Ok(file)
}

// A disk with the file of a layer, which fails in this call, from 0.
fn disk_with(alloc: Global, failing: u64, file: &[u8]) -> Result<Memory, NoMemory> {
    let mut list = Vec::new(alloc);
    if list.push(failing).is_err() {
        return Err(NoMemory);
    }
    let mut disk = Memory::new(alloc, Vec::new(alloc), list, 0)?;
    if file.len() % 512 == 0 {
        disk.put(FILE, file)?;
    }
    Ok(disk)
}

// Opens the layer. No file here takes so many steps.
fn open_layer(
    alloc: Global,
    disk: &mut Memory,
    host: HostId,
    capacity: u64,
) -> Result<Layer, Refusal> {
    let mut work = Opening::begin(alloc, VOLUME, FILE, capacity, capacity)?;
    for _ in 0..40_000 {
        match work.step(host, disk) {
            Turn::More(next) => work = next,
            Turn::Done(layer) => return Ok(layer),
            Turn::Ended((), refusal) => return Err(refusal),
        }
    }
    Err(Refusal::NotBuilt)
}

fn told(answer: Result<Layer, Refusal>) -> Outcome {
    match answer {
        Ok(_) => Outcome::Opened,
        Err(Refusal::LayerRefused(volume, fault)) if volume == VOLUME => Outcome::Fault(fault),
        Err(refusal) => Outcome::Refused(refusal.number()),
    }
}

// Looks a cluster up, in two steps at the most.
fn look(disk: &mut Memory, host: HostId, layer: &mut Layer, cluster: u64) -> Option<Looked> {
    let mut work = Looking::begin(cluster);
    for _ in 0..2 {
        match work.step(host, layer, disk) {
            Turn::More(next) => work = next,
            Turn::Done(looked) => return Some(looked),
            Turn::Ended((), _) => return None,
        }
    }
    None
}
