// Makes the file of a layer.
use crate::words::Order;
use folder_disk::FolderDisk;
use layer_creating::Creating;
use sd_names::{Dir, HostId, Id, Name, Place, Refusal, Turn};
use shared_disk::{DiskAnswer, SharedDisk, refusal_for};

const PLACE: Place = Place {
    dir: Dir::Image(Id::ZERO, Id::ZERO),
    name: Name::Volume(Id::ZERO),
};

/// The path of the layer's file.
pub(crate) const LAYER: &str = "00000000-0000-0000-0000-000000000000/images/\
    00000000-0000-0000-0000-000000000000/00000000-0000-0000-0000-000000000000";

// Makes a folder, where it isn't there yet.
fn make_dir(disk: &mut FolderDisk<&HostRuntime>, host: HostId, dir: Dir) -> Result<(), Refusal> {
    if dir.is(&Dir::Root) {
        return Ok(());
    }
    match disk.make_dir(host, dir) {
        Ok(()) | Err(DiskAnswer::Exists) => Ok(()),
        Err(answer) => Err(refusal_for(answer, disk)),
    }
}

/// Makes the folders on the way to the layer, and its file. The end of the loop isn't reached: six steps make a file.
pub(crate) fn make_layer(
    disk: &mut FolderDisk<&HostRuntime>,
    host: HostId,
    order: Order,
) -> Result<(), Refusal> {
    make_dir(disk, host, Dir::Domain(Id::ZERO))?;
    make_dir(disk, host, Dir::Images(Id::ZERO))?;
    make_dir(disk, host, PLACE.dir)?;
    let mut work = Creating::begin(PLACE, order.capacity, order.backing, order.length);
    for _ in 0..6 {
        match work.step(host, disk) {
            Turn::More(next) => work = next,
            Turn::Done(()) => return Ok(()),
            Turn::Ended((), refusal) => return Err(refusal),
        }
    }
    Err(Refusal::NotBuilt)
}
