// Opens the layer that stands in the folder.
use qcow_format::Header;
use qcow_layer::{Layer, Opening};
use sd_names::{Dir, HostId, Id, Name, Place, Refusal, Turn};
use shared_disk::{SharedDisk, refusal_for};
use std::alloc::Global;

const PLACE: Place = Place {
    dir: Dir::Image(Id::ZERO, Id::ZERO),
    name: Name::Volume(Id::ZERO),
};

// The size of the virtual disk in bytes, as the header has it; 0 where the header has a fault, which the opening tells.
fn capacity_of<D: SharedDisk>(host: HostId, disk: &mut D) -> Result<u64, Refusal> {
    let mut head = [0; 65_536];
    match disk.read_at(host, PLACE, 0, &mut head) {
        Ok(_) => match Header::read(&head) {
            Ok(header) => Ok(header.size),
            Err(_) => Ok(0),
        },
        Err(answer) => Err(refusal_for(answer, disk)),
    }
}

/// Opens the layer for a volume of the capacity that its header has. The file is synced before, since what is known of a
/// layer that was opened holds where nothing in its file was unsynced. The end of the loop isn't reached: each step of an
/// opening leaves fewer.
pub(crate) fn open_layer<D: SharedDisk>(
    alloc: Global,
    host: HostId,
    disk: &mut D,
) -> Result<Layer, Refusal> {
    if let Err(answer) = disk.sync(host, PLACE) {
        return Err(refusal_for(answer, disk));
    }
    let capacity = capacity_of(host, disk)?;
    let mut work = Opening::begin(alloc, Id::ZERO, PLACE, capacity, capacity)?;
    for _ in 0..u64::MAX {
        match work.step(host, disk) {
            Turn::More(next) => work = next,
            Turn::Done(layer) => return Ok(layer),
            Turn::Ended((), refusal) => return Err(refusal),
        }
    }
    Err(Refusal::NotBuilt)
}
