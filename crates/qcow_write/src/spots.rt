// Where the clusters of a line stand in the file, or are to stand.
ghost use Rattle.std.specs.Prelude.{◌≤◌};

use crate::order::Order;
use crate::steps::look;
use layer_linking::Links;
use layer_placing::Clusters;
use qcow_format::Entry;
use qcow_layer::Layer;
use sd_names::{HostId, Refusal};
use shared_disk::SharedDisk;

/// The place of a cluster, in bytes.
#[derive(Clone, Copy)]
pub(crate) enum Spot {
    /// Its data stands there.
    Data(u64),
    /// It has this place, and no data there yet: its entry is to be made.
    Empty(u64),
    /// It has no place.
    None,
}

/// The clusters of an order, from its first one on, and what looking them up told.
#[derive(Clone, Copy)]
pub(crate) struct Spots {
    pub(crate) spots: [Spot; 39],
    /// Whether their L2 table is there.
    pub(crate) table: bool,
    /// How many calls it took.
    pub(crate) calls: u64,
}

// What an entry tells of a cluster's place. One of zeros may keep a place, which serves its data.
fn spot_of(entry: Entry) -> Spot {
    match entry {
        Entry::Data(place) => Spot::Data(place),
        Entry::Zero(0) | Entry::Absent => Spot::None,
        Entry::Zero(place) => Spot::Empty(place),
    }
}

impl Spots {
    /// Looks the clusters of an order up.
    pub(crate) fn look_up<D: SharedDisk>(
        host: HostId,
        layer: &mut Layer,
        disk: &mut D,
        order: Order,
    ) -> Result<Spots, Refusal> {
        let mut found = Spots {
            spots: [Spot::None; 39],
            table: false,
            calls: 0,
        };
        for i in 0..order.count {
            let cluster = order.first.saturating_add(u64::from(i));
            let (looked, calls) = look(host, layer, disk, cluster)?;
            found.spots[i as usize] = spot_of(looked.entry);
            found.table = looked.table;
            found.calls = found.calls.saturating_add(calls);
        }
        Ok(found)
    }

    /// How many of the clusters have no place.
    pub(crate) fn missing(&self, order: Order) -> u8
        ensures { result ≤ 39 }
    {
        let mut missing: u8 = 0;
        for i in 0..order.count {
            let spot = self.spots[i as usize];
            if let Spot::None = spot {
                missing = missing.saturating_add(1);
            }
        }
        missing.min(39)
    }

    /// Gives the clusters that have no place those that were placed, and answers how many it gave.
    pub(crate) fn give(
        &mut self,
        order: Order,
        clusters: &Clusters,
        width: u64,
    ) -> Result<usize, Refusal> {
        let mut given: usize = 0;
        for i in 0..order.count {
            let spot = self.spots[i as usize];
            if let Spot::None = spot {
                self.spots[i as usize] = Spot::Empty(place_in(clusters, given, width)?);
                given = given.saturating_add(1);
            }
        }
        Ok(given)
    }

    /// The entries that are to be made; `None` where each cluster has its data.
    pub(crate) fn links(&self, order: Order) -> Result<Option<Links>, Refusal> {
        let mut links: Option<Links> = None;
        for i in 0..order.count {
            let spot = self.spots[i as usize];
            if let Spot::Empty(place) = spot {
                links = Some(link_too(links, order.first.saturating_add(u64::from(i)), place)?);
            }
        }
        Ok(links)
    }
}

/// The place of a cluster that was placed, by its index, in bytes.
pub(crate) fn place_in(clusters: &Clusters, index: usize, width: u64) -> Result<u64, Refusal> {
    if index >= clusters.count() {
        return Err(Refusal::NotBuilt);
    }
    Ok(clusters.get(index).saturating_mul(width))
}

// Entries with one more. That of another sector isn't taken, which an order doesn't ask for.
fn link_too(links: Option<Links>, cluster: u64, place: u64) -> Result<Links, Refusal> {
    match links {
        None => Ok(Links::one(cluster, place)),
        Some(links) => {
            if cluster / 64 != links.group() {
                return Err(Refusal::NotBuilt);
            }
            Ok(links.with(cluster, place))
        }
    }
}
