// The file that came in, on a disk in memory.
ghost use Rattle.std.specs.Prelude.{◌≡◌, ◌%◌, OnOk, length};

use memory_disk::Memory;
use qcow_format::Header;
use qcow_layer::{Layer, Opening};
use sd_names::{Dir, HostId, Id, Name, NoMemory, Place, Refusal, Turn};
use std::alloc::{AllocError, Global};

/// The longest file that is taken, in bytes. It bounds the memory: the file, the disk's copy of it, and the room that the
/// disk takes for unsynced writes of each sector, about three times as much, which isn't touched here.
pub(crate) const LONGEST: u64 = 64 << 20;

// The longest head of a layer, in bytes.
const HEAD: usize = 65_536;

const FILE: Place = Place {
    dir: Dir::Image(Id::ZERO, Id::ZERO),
    name: Name::Volume(Id::ZERO),
};

/// Lengthens the file with zeros to a whole sector, as a store shows it.
pub(crate) fn pad(file: &mut Vec<u8>) -> Result<(), AllocError>
    ensures { OnOk result (length file.new.items % 512 ≡ 0) }
{
    file.resize(file.len().next_multiple_of(512), 0)
}

/// A disk on which the file stands.
pub(crate) fn disk_with(alloc: Global, file: &[u8]) -> Result<Memory, NoMemory>
    requires { length file.now % 512 ≡ 0 }
{
    let mut disk = Memory::new(alloc, Vec::new(alloc), Vec::new(alloc), 0)?;
    disk.put(FILE, file)?;
    Ok(disk)
}

/// The size of the virtual disk in bytes, as the header has it; 0 where the header has a fault, which the opening tells.
pub(crate) fn capacity_of(file: &[u8]) -> u64 {
    let mut head = [0; HEAD];
    let length = if file.len() < HEAD { file.len() } else { HEAD };
    head[..length].copy_from_slice(&file[..length]);
    match Header::read(&head) {
        Ok(header) => header.size,
        Err(_) => 0,
    }
}

/// Opens the layer for a volume of a capacity, and tells in how many steps. The end of the loop isn't reached: each step
/// of an opening leaves fewer.
pub(crate) fn open_layer(
    alloc: Global,
    host: HostId,
    disk: &mut Memory,
    capacity: u64,
) -> Result<(Layer, u64), Refusal> {
    let mut work = Opening::begin(alloc, Id::ZERO, FILE, capacity, capacity)?;
    for done in 0..u64::MAX {
        match work.step(host, disk) {
            Turn::More(next) => work = next,
            Turn::Done(layer) => return Ok((layer, done + 1)),
            Turn::Ended((), refusal) => return Err(refusal),
        }
    }
    Err(Refusal::NotBuilt)
}
