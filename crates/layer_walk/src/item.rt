// What stands at one position of a layer: where in the file, what is wrong with its bits, and the place that it names.
ghost use Rattle.std.specs.Prelude.{◌≡◌, ℕ, ◌^◌, ◌≤◌, nat_le, None};
ghost use Rattle.image_model.specs.File.{File};
ghost use Rattle.image_model.specs.Layer.{block_at, block_word};
ghost use Rattle.image_model.specs.Soundness.{placed, faulty, block_item, l1_item_of, l2_item_of, beyond};
ghost use Rattle.qcow_format.specs.Entry.{entry_in, table_in};
ghost use Rattle.layer_walk.specs.Items.{item_of, layer_of, NamesCluster};

use qcow_format::{Entry, Header, entry_of, table_place};
use sd_names::LayerFault;

/// What stands at a position.
#[derive(Clone, Copy, Debug)]
pub struct Item {
    pub at: u64,
    pub wrong: Option<LayerFault>,
    pub name: Option<u64>,
}

// An entry that names nothing.
const NOTHING: Item = Item {
    at: 0,
    wrong: None,
    name: None,
};

/// The size of a cluster, in bytes.
pub fn cluster_bytes(header: &Header) -> u64
    requires { header.now.cluster_bits ≤ 21 }
    ensures { result ≡ 2 ^ header.now.cluster_bits }
{
    1 << header.cluster_bits
}

// An entry that names a place, which has to be one of a cluster.
fn placed(header: &Header, at: u64, place: u64) -> Item
    requires { header.now.cluster_bits ≤ 21 }
    ensures item { (file : File) → item_of result ≡ placed (layer_of header.now file) at place }
    ensures aligned { NamesCluster (2 ^ header.now.cluster_bits) (item_of result) }
{
    let wrong = if place % cluster_bytes(header) == 0 {
        None
    } else {
        Some(LayerFault::MixedBits(at))
    };
    Item {
        at,
        wrong,
        name: Some(place),
    }
}

// An entry with a fault.
fn faulty(at: u64, fault: LayerFault) -> Item
    ensures item { item_of result ≡ faulty at fault }
{
    Item {
        at,
        wrong: Some(fault),
        name: None,
    }
}

/// The refcount table's entry at a place of the file.
pub fn block_item(header: &Header, at: u64, bits: u64) -> Item
    requires { header.now.cluster_bits ≤ 21 }
    ensures item { (file : File) (k : ℕ) → block_at (layer_of header.now file) k ≡ at → block_word (layer_of header.now file) k ≡ bits → item_of result ≡ block_item (layer_of header.now file) k }
    ensures aligned { NamesCluster (2 ^ header.now.cluster_bits) (item_of result) }
{
    if bits % 512 != 0 {
        return faulty(at, LayerFault::MixedBits(at));
    }
    if bits == 0 {
        return NOTHING;
    }
    placed(header, at, bits)
}

/// The L1 entry at a place of the file.
pub fn l1_item(header: &Header, at: u64, bits: u64) -> Item
    requires { header.now.cluster_bits ≤ 21 }
    ensures item { (file : File) → item_of result ≡ l1_item_of (layer_of header.now file) at (table_in bits at) }
    ensures aligned { NamesCluster (2 ^ header.now.cluster_bits) (item_of result) }
{
    match table_place(bits, at) {
        Err(fault) => faulty(at, fault),
        Ok(None) => NOTHING,
        Ok(Some(table)) => placed(header, at, table),
    }
}

// An L2 entry that may only be Absent where its cluster of the virtual disk is past the capacity.
fn tailed(is_past: bool, item: Item) -> Item
    ensures item { (capacity start : ℕ) → is_past ≡ nat_le capacity start → item_of result ≡ beyond capacity start (item_of item) }
    ensures name { result.name ≡ item.name }
    ensures fine { result.wrong ≡ None → item.wrong ≡ None }
{
    if is_past && item.wrong.is_none() {
        return Item {
            at: item.at,
            wrong: Some(LayerFault::Tail(item.at)),
            name: item.name,
        };
    }
    item
}

/// The L2 entry at a place of the file; whether its cluster of the virtual disk is past the capacity.
pub fn l2_item(header: &Header, is_past: bool, at: u64, bits: u64) -> Item
    requires { header.now.cluster_bits ≤ 21 }
    ensures item { (file : File) (capacity start : ℕ) → is_past ≡ nat_le capacity start → item_of result ≡ l2_item_of (layer_of header.now file) capacity start at (entry_in bits header.now.version at) }
    ensures aligned { NamesCluster (2 ^ header.now.cluster_bits) (item_of result) }
{
    match entry_of(bits, header.version, at) {
        Err(fault) => faulty(at, fault),
        Ok(Entry::Absent) => NOTHING,
        Ok(Entry::Zero(0)) => tailed(
            is_past,
            Item {
                at,
                wrong: None,
                name: None,
            },
        ),
        Ok(Entry::Zero(place)) => tailed(is_past, placed(header, at, place)),
        Ok(Entry::Data(place)) => tailed(is_past, placed(header, at, place)),
    }
}
