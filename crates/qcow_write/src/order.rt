// What a line asks for.
ghost use Rattle.std.specs.Prelude.{◌≤◌};

use layer_walk::cluster_bytes;
use qcow_layer::Layer;

/// The most clusters of a line: with a new table they are 40, as many as are placed at once.
pub(crate) const MOST: u8 = 39;

/// Clusters of the virtual disk that are to be filled with one byte, from `first` on. Their entries stand in one sector.
#[derive(Clone, Copy)]
pub(crate) struct Order {
    pub(crate) first: u64,
    pub(crate) byte: u8,
    pub(crate) count: u8,
    pub(crate) ghost few: { count ≤ 39 },
}

/// The size of a layer's clusters, in bytes.
pub(crate) fn width_of(layer: &Layer) -> u64 {
    cluster_bytes(layer.header())
}

/// Reads a line: the number of the first cluster, the byte, and how many clusters there are, 1 where it isn't said. `None`
/// where a word is wrong, a cluster lies behind the end of the virtual disk, or their entries stand in several sectors.
pub(crate) fn order_of(line: &str, layer: &Layer) -> Option<Order> {
    let mut words = line.split_whitespace();
    let first: u64 = words.next()?.parse().ok()?;
    let byte = words.next()?.parse().ok()?;
    let count: u8 = match words.next() {
        Some(word) => word.parse().ok()?,
        None => 1,
    };
    if words.next().is_some() || count == 0 || count > MOST || first % 64 + u64::from(count) > 64 {
        return None;
    }
    let last = first.saturating_add(u64::from(count) - 1);
    if last.saturating_mul(width_of(layer)) >= layer.header().size {
        return None;
    }
    Some(Order { first, byte, count })
}
