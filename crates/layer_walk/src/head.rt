// The clusters that the header names: its own, and those of the L1 table and of the refcount table, in this order.
ghost use Rattle.std.specs.Prelude.{◌≡◌, ◌+◌, ◌*◌, ◌/◌, ◌^◌, ◌<◌, ◌≤◌};
ghost use Rattle.layer_walk.specs.Items.{item_of};
ghost use Rattle.layer_walk.specs.Positions.{IsHead, IsNamed, PassesHead, head_count, l1_count};

use crate::item::{Item, cluster_bytes};
use crate::marks::Marks;
use qcow_format::Header;
use sd_names::LayerFault;

/// A position that has a fault.
#[derive(Clone, Copy, Debug)]
pub struct Stop {
    pub at: u64,
    pub fault: LayerFault,
}

// How many clusters the L1 table has.
fn l1_clusters(header: &Header) -> u64
    requires { header.now.cluster_bits ≤ 21 }
    ensures value { result ≡ l1_count header.now }
    ensures few { result < 2 ^ 35 + 2 ^ 21 }
{
    let cluster = cluster_bytes(header);
    (8 * header.l1_size as u64 + (cluster - 1)) / cluster
}

/// How many entries the refcount table has.
pub fn table_entries(header: &Header) -> u64
    requires { header.now.cluster_bits ≤ 21 }
    ensures { result ≡ header.now.refcount_table_clusters * (2 ^ header.now.cluster_bits / 8) }
{
    header.refcount_table_clusters as u64 * (cluster_bytes(header) / 8)
}

/// How many clusters the header names.
pub fn head_clusters(header: &Header) -> u64
    requires { header.now.cluster_bits ≤ 21 }
    ensures value { result ≡ head_count header.now }
    ensures few { result < 2 ^ 36 }
{
    1 + l1_clusters(header) + header.refcount_table_clusters as u64
}

// Cluster k of those from `first` on, which the field of the header at `at` names. No file has a place that 64 bits
// can't hold.
fn named(header: &Header, at: u64, first: u64, k: u64) -> Item
    requires bits { header.now.cluster_bits ≤ 21 }
    requires few { k < 2 ^ 36 }
    ensures { IsNamed at (first + k * 2 ^ header.now.cluster_bits) (2 ^ header.now.cluster_bits) (item_of result) }
{
    match first.checked_add(k * cluster_bytes(header)) {
        None => Item {
            at,
            wrong: Some(LayerFault::OutOfFile(at)),
            name: None,
        },
        Some(place) => Item {
            at,
            wrong: None,
            name: Some(place),
        },
    }
}

/// Cluster n of those that the header names.
pub fn head_item(header: &Header, n: u64) -> Item
    requires bits { header.now.cluster_bits ≤ 21 }
    requires few { n < 2 ^ 36 }
    requires inside { n < head_count header.now }
    ensures { IsHead header.now n (item_of result) }
{
    if n == 0 {
        return named(header, 0, 0, 0);
    }
    let l1 = l1_clusters(header);
    if n <= l1 {
        return named(header, 40, header.l1_table_offset, n - 1);
    }
    named(header, 48, header.refcount_table_offset, n - 1 - l1)
}

/// The clusters that the header names, up to the first that has a fault.
pub fn check_head(header: &Header, marks: &mut Marks) -> Option<Stop>
    requires { header.now.cluster_bits ≤ 21 }
    ensures { PassesHead header.now (head_count header.now) marks.old marks.new result }
{
    for n in 0..head_clusters(header) {
        if let Some(fault) = marks.admit(&head_item(header, n)) {
            return Some(Stop { at: n, fault });
        }
    }
    None
}
