// Choosing clusters in the layer's map.
ghost use Rattle.std.specs.Prelude.{◌≡◌, ◌≤◌, ◌^◌, min};
ghost use Rattle.image_model.specs.File.{File};
ghost use Rattle.image_model.specs.Layer.{covered};
ghost use Rattle.layer_laws.specs.Laws as laws;
ghost use Rattle.qcow_layer.specs.Opening.{header_kept};
ghost use Rattle.layer_placing.specs.Chosen.{AreLeast, Chooses, IsWantedLength, listed};

use crate::clusters::Clusters;
use crate::counting::cluster_width;
use qcow_layer::Layer;
use sd_names::Refusal;

/// The least free clusters below `end`, `count` of them, or all where those are fewer.
pub(crate) fn least_free(layer: &Layer, count: u8, end: u64) -> Clusters
    requires { count ≤ 40 }
    ensures { AreLeast layer.now end count (listed result) }
{
    let mut chosen = Clusters::none();
    let mut next = 0;
    for _ in 0..count {
        match layer.least_free(next, end) {
            Some(cluster) => {
                chosen.push(cluster);
                next = cluster + 1;
            }
            None => return chosen,
        }
    }
    chosen
}

// The bytes of a file that the refcount table covers, at places that entries can name.
fn most_bytes(layer: &Layer) -> u64
    ensures { (file : File) → result ≡ min (covered (laws.layer (header_kept layer.now) file)) (2 ^ 56) }
{
    let cluster = cluster_width(layer);
    let block = cluster / 8 * (cluster / 2) * cluster;
    u64::from(layer.header().refcount_table_clusters)
        .saturating_mul(block)
        .min(1 << 56)
}

// The least length that as room has so many free clusters, or 0 where the map has none up to `most` bytes.
fn wanted_length(layer: &Layer, count: u8, most: u64) -> u64
    requires some { 1 ≤ count }
    requires few { count ≤ 40 }
    ensures { IsWantedLength layer.now count most result }
{
    let cluster = cluster_width(layer);
    let chosen = least_free(layer, count, most / cluster);
    if chosen.count() < count as usize {
        return 0;
    }
    (chosen.get(chosen.count() - 1) + 1) * cluster
}

/// Chooses the least free clusters of a file of so many bytes, 1 to 40, or says what room there is and what would do, both in
/// bytes. Nothing is taken by it.
pub fn choose(layer: &Layer, count: u8, length: u64) -> Result<Clusters, Refusal>
    requires some { 1 ≤ count }
    requires few { count ≤ 40 }
    ensures { Chooses layer.now count length result }
{
    let cluster = cluster_width(layer);
    let most = most_bytes(layer);
    let end = length.min(most) / cluster;
    let chosen = least_free(layer, count, end);
    if chosen.count() < count as usize {
        let wanted = wanted_length(layer, count, most);
        return Err(Refusal::NoRoom(layer.volume(), end * cluster, wanted));
    }
    Ok(chosen)
}
