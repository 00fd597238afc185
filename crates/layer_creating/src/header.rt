// The header of a new layer.
ghost use Rattle.std.specs.Prelude.{◌≡◌, ◌^◌, ◌≤◌};
ghost use Rattle.layer_creating.specs.New.{HasBytes, l1_size_for, new_header};

use crate::backing::Backing;
use qcow_format::{Header, MAGIC};

/// Where the L1 table and the refcount table stand, in bytes.
const L1_TABLE: u64 = 196_608;

const REFCOUNT_TABLE: u64 = 65_536;

/// Where the backing file's name stands, in bytes, and its length.
const NAME: (u64, u32) = (64_512, 36);

/// Where the extension with the backing file's format stands, in bytes: directly behind the header.
const FORMAT: u32 = 104;

// How many entries the L1 table has: each maps 512 MiB, and there is one at least.
fn l1_size_for(capacity: u64) -> u32
    requires { capacity ≤ 2 ^ 40 }
    ensures { result ≡ l1_size_for capacity }
{
    (capacity.div_ceil(536_870_912) as u32).max(1)
}

// The header without a backing file.
fn plain_header(capacity: u64) -> Header
    requires { capacity ≤ 2 ^ 40 }
    ensures { result ≡ new_header capacity None }
{
    Header {
        magic: MAGIC,
        version: 3,
        backing_file_offset: 0,
        backing_file_size: 0,
        cluster_bits: 16,
        size: capacity,
        crypt_method: 0,
        l1_size: l1_size_for(capacity),
        l1_table_offset: L1_TABLE,
        refcount_table_offset: REFCOUNT_TABLE,
        refcount_table_clusters: 1,
        nb_snapshots: 0,
        snapshots_offset: 0,
        incompatible_features: 0,
        compatible_features: 0,
        autoclear_features: 0,
        refcount_order: 4,
        header_length: FORMAT,
        name: (0, 0),
        format_at: None,
        format: None,
    }
}

/// The header of a new layer of a capacity in bytes, at most 1 TiB: version 3, clusters of 65,536 bytes, and no features.
/// Over a backing file it names the file's format and the place of its name.
pub fn new_header(capacity: u64, backing: Option<Backing>) -> Header
    requires { capacity ≤ 2 ^ 40 }
    ensures { result ≡ new_header capacity backing }
{
    let header = plain_header(capacity);
    match backing {
        None => header,
        Some(backing) => Header {
            backing_file_offset: NAME.0,
            backing_file_size: NAME.1,
            name: NAME,
            format_at: Some(FORMAT),
            format: Some(backing.format),
            ..header
        },
    }
}
