// What a read asks of the volumes of a path.
ghost use Rattle.std.specs.Prelude.{◌≡◌, ◌^◌, ◌<◌, ◌≤◌, IfSome};
ghost use Rattle.chain_reading.specs.Asked.{asked_in, cluster_by, cluster_end, cluster_number, cluster_sectors, end_in, offset_in, sectors_in};

use layer_walk::cluster_bytes;
use qcow_layer::Layer;
use sd_names::{Id, Place};
use volume_chain::{Chain, OpenVolume};

/// A volume of a path: the place of its file, how many sectors it has, and how many of them a cluster of its layer has. A
/// raw volume has no clusters.
#[derive(Clone, Copy, Debug)]
pub(crate) struct Asked {
    pub(crate) place: Place,
    pub(crate) sectors: u64,
    pub(crate) cluster: Option<u64>,
}

// How many sectors a cluster of a layer has.
fn cluster_sectors(layer: &Layer) -> u64
    ensures { result ≡ cluster_sectors layer.now }
{
    cluster_bytes(layer.header()) / 512
}

// How many sectors a cluster of a volume has.
fn cluster_of(volume: &OpenVolume) -> Option<u64>
    ensures { result ≡ cluster_by volume.now }
{
    match volume {
        OpenVolume::Raw(_) => None,
        OpenVolume::Cow(layer) => Some(cluster_sectors(layer)),
    }
}

// How many sectors a volume has.
fn sectors_of(chain: &Chain, id: &Id) -> u64
    ensures { result ≡ sectors_in chain.now id.now }
{
    match chain.volume(id) {
        Some(record) => record.capacity / 512,
        None => 0,
    }
}

/// The volume of the path with this index.
pub(crate) fn asked_at(chain: &Chain, index: usize) -> Option<Asked>
    ensures is { result ≡ asked_in chain.now index }
    ensures few { IfSome result (λ _. index < 2 ^ 63) }
{
    let Some(id) = chain.path().get(index) else {
        return None;
    };
    let Some(volume) = chain.volumes().get(index) else {
        return None;
    };
    let cluster = cluster_of(volume);
    Some(Asked {
        place: chain.place(id),
        sectors: sectors_of(chain, id),
        cluster,
    })
}

impl Asked {
    /// Where the part ends in this volume, in sectors of the part: there the part itself ends, or the volume does. The part
    /// begins at sector `first` of the volumes and has `count` sectors.
    pub(crate) fn end(&self, first: u64, count: usize) -> usize
        requires { count ≤ 128 }
        ensures { result ≡ end_in self.now first count }
    {
        self.sectors.saturating_sub(first).min(count as u64) as usize
    }

    /// Which sector of its cluster sector `at` of the part is.
    pub(crate) fn offset(&self, first: u64, at: usize) -> u64
        requires low { first < 36028797018963968 }
        requires inside { at ≤ 128 }
        ensures value { result ≡ offset_in self.now.cluster first at }
        ensures low { result < 2 ^ 56 }
    {
        match self.cluster {
            None => 0,
            Some(sectors) => (first + at as u64) % sectors.max(1),
        }
    }

    /// The number of the cluster that has sector `at` of the part.
    pub(crate) fn cluster_number(&self, first: u64, at: usize) -> u64
        requires low { first < 36028797018963968 }
        requires inside { at ≤ 128 }
        ensures { result ≡ cluster_number self.now.cluster first at }
    {
        match self.cluster {
            None => 0,
            Some(sectors) => (first + at as u64) / sectors.max(1),
        }
    }

    /// Where the cluster ends that has sector `at` of the part, or the part in this volume does. A raw volume is one cluster.
    pub(crate) fn cluster_end(&self, first: u64, at: usize, end: usize) -> usize
        requires low { first < 36028797018963968 }
        requires inside { at ≤ 128 }
        requires few { end ≤ 128 }
        ensures { result ≡ cluster_end self.now.cluster first at end }
    {
        match self.cluster {
            None => end.max(at),
            Some(sectors) => {
                let sectors = sectors.max(1);
                let left = sectors - (first + at as u64) % sectors;
                let past = (at as u64).saturating_add(left).min(end as u64) as usize;
                past.max(at)
            }
        }
    }
}
