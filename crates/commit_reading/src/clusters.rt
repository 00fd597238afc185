// The sectors of a cluster of the top.
ghost use Rattle.std.specs.Prelude.{◌≡◌, ◌<◌};
ghost use Rattle.chain_reading.specs.Asked.{cluster_sectors, sectors_in};
ghost use Rattle.commit_reading.specs.Pieces.{IsCluster, width_in};

use crate::pieces::Pieces;
use chain_reading::place_on;
use layer_walk::cluster_bytes;
use qcow_layer::Layer;
use sd_names::Id;
use volume_chain::{Chain, OpenVolume, Subchain};
use volume_meta::VolumeRecord;

// How many sectors a cluster of a layer has.
fn cluster_sectors(layer: &Layer) -> u64
    ensures { result ≡ cluster_sectors layer.now }
{
    cluster_bytes(layer.header()) / 512
}

// A volume's capacity, in bytes.
fn capacity_of(record: &VolumeRecord) -> u64
    ensures { result ≡ record.now.capacity }
{
    record.capacity
}

// How many sectors a volume has.
fn sectors_of(chain: &Chain, id: &Id) -> u64
    ensures value { result ≡ sectors_in chain.now id.now }
    ensures low { result < 36028797018963968 }
{
    match chain.volume(id) {
        Some(record) => capacity_of(record) / 512,
        None => 0,
    }
}

// How many sectors a cluster of the top has; none where it isn't a layer of the path.
fn width_of(chain: &Chain, top: &Id) -> u64
    ensures { result ≡ width_in chain.now top.now }
{
    match chain.volumes().get(place_on(chain.path(), top)) {
        Some(OpenVolume::Cow(layer)) => cluster_sectors(layer),
        Some(OpenVolume::Raw(_)) => 0,
        None => 0,
    }
}

/// The sectors of a cluster of the top that both volumes have.
pub(crate) fn pieces_of(chain: &Chain, sub: &Subchain, cluster: u64) -> Pieces
    ensures { IsCluster chain.now sub.now cluster result }
{
    let width = width_of(chain, &sub.top);
    let have = sectors_of(chain, &sub.top).min(sectors_of(chain, &sub.base));
    let first = cluster.saturating_mul(width);
    let end = first.saturating_add(width).min(have);
    Pieces {
        first: first.min(end),
        end,
    }
}
