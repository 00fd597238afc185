// The entries of the refcount table and of the L1 and L2 tables, each admitted in its turn.
ghost use Rattle.std.specs.Prelude.{◌≡◌, ◌+◌, ◌*◌, ◌/◌, ◌^◌, ◌<◌, ◌≤◌, nat_le};
ghost use Rattle.layer_walk.specs.Positions.{PassesBlock, PassesBlocks, PassesEntry, PassesEntries, PassesL1, PassesRow, row_end};

use crate::item::{block_item, cluster_bytes, l1_item, l2_item};
use crate::marks::Marks;
use crate::sector::word_at;
use crate::walk::{Block, Table};
use qcow_format::Header;
use sd_names::LayerFault;

// Entry k of the refcount table: the block that it names, or None, or its fault.
fn admit_block(
    header: &Header,
    marks: &mut Marks,
    k: u64,
    bits: u64,
) -> Result<Option<u64>, LayerFault>
    requires bits { header.now.cluster_bits ≤ 21 }
    ensures { PassesBlock header.now k bits marks.old marks.new result }
{
    let at = header
        .refcount_table_offset
        .saturating_add(k.saturating_mul(8));
    let item = block_item(header, at, bits);
    match marks.admit(&item) {
        Some(fault) => Err(fault),
        None => Ok(item.name),
    }
}

/// The refcount table's entries from k on that stand in this sector, up to the first that names a block.
pub fn pass_blocks(
    header: &Header,
    marks: &mut Marks,
    k: u64,
    sector: &[u8; 512],
) -> Result<Option<Block>, LayerFault>
    requires bits { header.now.cluster_bits ≤ 21 }
    ensures { PassesBlocks header.now k (k / 64 * 64 + 64) sector.now marks.old marks.new result }
{
    let row = k / 64 * 64;
    for j in (k % 64)..64 {
        let index = row + j;
        match admit_block(header, marks, index, word_at(sector, j as usize)) {
            Err(fault) => return Err(fault),
            Ok(found) => {
                if let Some(place) = found {
                    return Ok(Some(Block { index, place }));
                }
            }
        }
    }
    Ok(None)
}

// Whether a cluster of the virtual disk, by its number, begins at or past the capacity.
fn is_past(header: &Header, capacity: u64, cluster: u64) -> bool
    requires bits { header.now.cluster_bits ≤ 21 }
    ensures { result ≡ nat_le capacity (cluster * 2 ^ header.now.cluster_bits) }
{
    cluster >= capacity.div_ceil(cluster_bytes(header))
}

// Entry j of the L2 table that L1 entry i names.
fn admit_entry(
    header: &Header,
    capacity: u64,
    marks: &mut Marks,
    i: u64,
    table: u64,
    j: u64,
    bits: u64,
) -> Option<LayerFault>
    requires bits { header.now.cluster_bits ≤ 21 }
    requires few { i < 2 ^ 32 }
    requires narrow { j < 2 ^ 33 }
    ensures { PassesEntry header.now capacity i table j bits marks.old marks.new result }
{
    let cluster = i * (cluster_bytes(header) / 8) + j;
    let past = is_past(header, capacity, cluster);
    marks.admit(&l2_item(header, past, table.saturating_add(8 * j), bits))
}

/// The 64 entries from j on of the L2 table that L1 entry i names, which stand in this sector.
pub fn check_entries(
    header: &Header,
    capacity: u64,
    marks: &mut Marks,
    i: u64,
    table: u64,
    j: u64,
    sector: &[u8; 512],
) -> Option<LayerFault>
    requires bits { header.now.cluster_bits ≤ 21 }
    requires few { i < 2 ^ 32 }
    requires narrow { j < 2 ^ 32 }
    ensures { PassesEntries header.now capacity i table j 64 sector.now marks.old marks.new result }
{
    for m in 0..64 {
        let bits = word_at(sector, m);
        if let Some(fault) = admit_entry(header, capacity, marks, i, table, j + m as u64, bits) {
            return Some(fault);
        }
    }
    None
}

// L1 entry i: the L2 table that it names, or None, or its fault.
fn admit_l1(
    header: &Header,
    marks: &mut Marks,
    i: u64,
    bits: u64,
) -> Result<Option<u64>, LayerFault>
    requires bits { header.now.cluster_bits ≤ 21 }
    requires few { i < 2 ^ 32 }
    ensures { PassesL1 header.now i bits marks.old marks.new result }
{
    let item = l1_item(header, header.l1_table_offset.saturating_add(8 * i), bits);
    match marks.admit(&item) {
        Some(fault) => Err(fault),
        None => Ok(item.name),
    }
}

/// The L1 entry behind the last one that stands in the same sector as entry i.
pub fn end_of_row(header: &Header, i: u32) -> u32
    ensures { result ≡ row_end header.now i }
{
    header.l1_size.min((i / 64 * 64).saturating_add(64))
}

/// The L1 entries from i on that stand in this sector, up to the first that names an L2 table.
pub fn pass_l1(
    header: &Header,
    marks: &mut Marks,
    i: u32,
    sector: &[u8; 512],
) -> Result<Option<Table>, LayerFault>
    requires { header.now.cluster_bits ≤ 21 }
    ensures { PassesRow header.now i (row_end header.now i) sector.now marks.old marks.new result }
{
    let end = end_of_row(header, i);
    for k in i..end {
        let bits = word_at(sector, (k % 64) as usize);
        match admit_l1(header, marks, k as u64, bits) {
            Err(fault) => return Err(fault),
            Ok(found) => {
                if let Some(place) = found {
                    return Ok(Some(Table { index: k, place }));
                }
            }
        }
    }
    Ok(None)
}
