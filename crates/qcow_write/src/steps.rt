// The steppers that a write takes, each to its end, with how many steps it took. Each step makes one call of the disk. The
// ends of the loops aren't reached: each step leaves fewer.
ghost use Rattle.std.specs.Prelude.{◌≤◌};

use layer_linking::{Linking, Links};
use layer_placing::{Clusters, Placing};
use qcow_layer::{Layer, Looked, Looking};
use sd_names::{HostId, Refusal, Turn};
use shared_disk::SharedDisk;

/// Looks a cluster of the virtual disk up.
pub(crate) fn look<D: SharedDisk>(
    host: HostId,
    layer: &mut Layer,
    disk: &mut D,
    cluster: u64,
) -> Result<(Looked, u64), Refusal> {
    let mut work = Looking::begin(cluster);
    for done in 0..u64::MAX {
        match work.step(host, layer, disk) {
            Turn::More(next) => work = next,
            Turn::Done(looked) => return Ok((looked, done + 1)),
            Turn::Ended((), refusal) => return Err(refusal),
        }
    }
    Err(Refusal::NotBuilt)
}

/// Takes so many clusters of the file.
pub(crate) fn place<D: SharedDisk>(
    host: HostId,
    layer: &mut Layer,
    disk: &mut D,
    count: u8,
) -> Result<(Clusters, u64), Refusal>
    requires some { 1 ≤ count }
    requires few { count ≤ 40 }
{
    let mut work = Placing::begin(count);
    for done in 0..u64::MAX {
        match work.step(host, layer, disk) {
            Turn::More(next) => work = next,
            Turn::Done(clusters) => return Ok((clusters, done + 1)),
            Turn::Ended((), refusal) => return Err(refusal),
        }
    }
    Err(Refusal::NotBuilt)
}

/// Makes the entries of clusters. `table` is the place of a new table, or 0.
pub(crate) fn link<D: SharedDisk>(
    host: HostId,
    layer: &mut Layer,
    disk: &mut D,
    links: Links,
    table: u64,
) -> Result<u64, Refusal> {
    let mut work = Linking::begin_all(links, table);
    for done in 0..u64::MAX {
        match work.step(host, layer, disk) {
            Turn::More(next) => work = next,
            Turn::Done(()) => return Ok(done + 1),
            Turn::Ended((), refusal) => return Err(refusal),
        }
    }
    Err(Refusal::NotBuilt)
}
