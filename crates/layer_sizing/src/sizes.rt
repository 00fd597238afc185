// The numbers of a layer with a larger capacity.
ghost use Rattle.std.specs.Prelude.{◌≡◌, ◌^◌, ◌+◌, ◌≤◌, ◌<◌, length};
ghost use Rattle.qcow_format.specs.Bytes.{bytes_of, put};
ghost use Rattle.layer_sizing.specs.Sized.{bound, l1_size_for, sized, sized_sector, span};
ghost use Rattle.layer_sizing.specs.Stages.{rest_range, table_range, tables_stage, zeros_from};

use crate::raising::{Part, Range, Stage};
use byteorder::{BigEndian, ByteOrder};
use layer_walk::cluster_bytes;
use qcow_format::Header;

/// The greatest capacity of a layer, in bytes: 1 TiB.
const MOST: u64 = 1 << 40;

// How many bytes of the virtual disk one L1 entry maps.
fn span(header: &Header) -> u64
    requires low { 12 ≤ header.now.cluster_bits }
    requires high { header.now.cluster_bits ≤ 21 }
    ensures value { result ≡ span header.now }
    ensures least { 2 ^ 21 ≤ result }
    ensures most { result ≤ 2 ^ 39 }
{
    let cluster = cluster_bytes(header);
    cluster / 8 * cluster
}

/// The greatest capacity that a layer with this header can get, in bytes: what the whole clusters of its L1 table can map, at
/// most 1 TiB (qcow2 specification, "Cluster mapping").
pub fn bound(header: &Header) -> u64
    requires low { 12 ≤ header.now.cluster_bits }
    requires high { header.now.cluster_bits ≤ 21 }
    requires few { header.now.l1_size < 2 ^ 32 }
    ensures value { result ≡ bound header.now }
    ensures most { result ≤ 2 ^ 40 }
{
    let cluster = cluster_bytes(header);
    let held = (8 * u64::from(header.l1_size) + (cluster - 1)) / cluster * (cluster / 8);
    held.saturating_mul(span(header)).min(MOST)
}

/// How many L1 entries map a capacity, where those that there are stay.
pub(crate) fn l1_size_for(header: &Header, capacity: u64) -> u32
    requires low { 12 ≤ header.now.cluster_bits }
    requires high { header.now.cluster_bits ≤ 21 }
    requires fits { capacity ≤ 2 ^ 40 }
    ensures { result ≡ l1_size_for header.now capacity }
{
    let span = span(header);
    header.l1_size.max(((capacity + (span - 1)) / span) as u32)
}

/// The header of the layer with a larger capacity, which has the tables at the same places. A size that is larger stays.
pub fn sized(header: &Header, capacity: u64) -> Header
    requires low { 12 ≤ header.now.cluster_bits }
    requires high { header.now.cluster_bits ≤ 21 }
    requires fits { capacity ≤ 2 ^ 40 }
    ensures { result ≡ sized header.now capacity }
{
    Header {
        size: header.size.max(capacity),
        l1_size: l1_size_for(header, capacity),
        ..*header
    }
}

/// The L1 entries that come into use with a capacity, as a range of the file.
pub(crate) fn table_range(header: &Header, capacity: u64) -> Range
    requires low { 12 ≤ header.now.cluster_bits }
    requires high { header.now.cluster_bits ≤ 21 }
    requires fits { capacity ≤ 2 ^ 40 }
    ensures { result ≡ table_range header.now capacity }
{
    let last = u64::from(l1_size_for(header, capacity));
    Range {
        at: header
            .l1_table_offset
            .saturating_add(8 * u64::from(header.l1_size)),
        end: header.l1_table_offset.saturating_add(8 * last),
        part: Part::Tables,
    }
}

/// The stage in which these entries get zeros, or the one behind it where there are none.
pub(crate) fn tables_stage(header: &Header, capacity: u64) -> Stage
    requires low { 12 ≤ header.now.cluster_bits }
    requires high { header.now.cluster_bits ≤ 21 }
    requires fits { capacity ≤ 2 ^ 40 }
    ensures { result ≡ tables_stage header.now capacity }
{
    let range = table_range(header, capacity);
    if range.at < range.end {
        Stage::Zeroing(range)
    } else {
        Stage::Ready
    }
}

/// The rest of a cluster of data, at a place of the file, in which a capacity ends.
pub(crate) fn rest_range(header: &Header, capacity: u64, place: u64) -> Range
    requires low { 12 ≤ header.now.cluster_bits }
    requires high { header.now.cluster_bits ≤ 21 }
    ensures { result ≡ rest_range header.now capacity place }
{
    let cluster = cluster_bytes(header);
    Range {
        at: place.saturating_add(capacity % cluster),
        end: place.saturating_add(cluster),
        part: Part::Rest,
    }
}

/// A sector with zeros from a byte on.
pub(crate) fn zeros_from(sector: [u8; 512], from: usize) -> [u8; 512]
    requires { from ≤ 512 }
    ensures { result ≡ zeros_from from sector }
{
    let mut sector = sector;
    let zeros = [0; 512];
    sector[from..].copy_from_slice(&zeros[from..]);
    sector
}

// Writes a number of 4 bytes at a place.
#[tactic(auto, unfolding(qcow_format::specs::Bytes::put, qcow_format::specs::Bytes::bytes_of))]
fn put_u32(bytes: &mut [u8], at: usize, number: u32)
    requires { at + 4 ≤ length bytes.old }
    ensures value { bytes.new ≡ put at (bytes_of 4 number) bytes.old }
    ensures length { length bytes.new ≡ length bytes.old }
{
    BigEndian::write_u32(&mut bytes[at..], number);
}

// Writes a number of 8 bytes at a place.
#[tactic(auto, unfolding(qcow_format::specs::Bytes::put, qcow_format::specs::Bytes::bytes_of))]
fn put_u64(bytes: &mut [u8], at: usize, number: u64)
    requires { at + 8 ≤ length bytes.old }
    ensures value { bytes.new ≡ put at (bytes_of 8 number) bytes.old }
    ensures length { length bytes.new ≡ length bytes.old }
{
    BigEndian::write_u64(&mut bytes[at..], number);
}

/// The first sector of a file with the size and the length of the L1 table for a capacity; all other bytes stay.
pub(crate) fn sized_sector(header: &Header, capacity: u64, first: [u8; 512]) -> [u8; 512]
    requires low { 12 ≤ header.now.cluster_bits }
    requires high { header.now.cluster_bits ≤ 21 }
    requires fits { capacity ≤ 2 ^ 40 }
    ensures { result ≡ sized_sector header.now capacity first }
{
    let mut first = first;
    put_u64(&mut first, 24, header.size.max(capacity));
    put_u32(&mut first, 36, l1_size_for(header, capacity));
    first
}
