// The counts of all clusters, sector by sector: the rows of the refcount table, and behind each the blocks that it names.
ghost use Rattle.std.specs.Prelude.{◌≡◌, ◌+◌, ◌-◌, ◌*◌, ◌/◌, ◌^◌, ◌<◌, ◌≤◌};
ghost use Rattle.std.specs.Int.{div_ceil};
ghost use Rattle.layer_walk.specs.Bits.{room_of};
ghost use Rattle.layer_walk.specs.Counting.{EndsRow, Scans, Takes, Turns, wanted_place};

use crate::count::{Count, Spot};
use crate::counted::{block_span, pass_counts, pass_range};
use crate::head::table_entries;
use crate::marks::Marks;
use crate::sector::word_at;
use qcow_format::Header;

// How many blocks the map's clusters have.
fn ranges(header: &Header, marks: &Marks) -> u64
    requires low { 12 ≤ header.now.cluster_bits }
    requires high { header.now.cluster_bits ≤ 21 }
    ensures { result ≡ div_ceil (room_of marks.now.free) (2 ^ header.now.cluster_bits / 2) }
{
    marks.free.room().div_ceil(block_span(header))
}

// Behind a row: the next row, or the clusters without a block that are left.
fn turn(header: &Header, marks: &mut Marks, entry: u64) -> Option<Count>
    requires low { 12 ≤ header.now.cluster_bits }
    requires high { header.now.cluster_bits ≤ 21 }
    ensures { Turns header.now entry marks.old marks.new result }
{
    let end = ranges(header, marks);
    if entry >= end {
        return None;
    }
    if entry < table_entries(header) {
        return Some(Count::Row(entry));
    }
    for k in entry..end {
        pass_range(header, marks, k);
    }
    None
}

// The entry behind the last one of a row, of those that the clusters of the map have.
fn end_of_row(header: &Header, marks: &Marks, entry: u64) -> u64
    requires low { 12 ≤ header.now.cluster_bits }
    requires high { header.now.cluster_bits ≤ 21 }
    ensures { EndsRow header.now marks.now entry result }
{
    let end = (entry / 64 * 64).saturating_add(64);
    end.min(table_entries(header)).min(ranges(header, marks))
}

// The entries of a row from one on, up to the next that names a block.
fn scan(header: &Header, marks: &mut Marks, entry: u64, row: &[u8; 512]) -> Option<Count>
    requires low { 12 ≤ header.now.cluster_bits }
    requires high { header.now.cluster_bits ≤ 21 }
    ensures { Scans header.now entry row.now marks.old marks.new result }
{
    let end = end_of_row(header, marks, entry);
    for k in entry..end {
        let place = word_at(row, (k % 64) as usize) / 512 * 512;
        if place != 0 {
            return Some(Count::Block(Spot {
                entry: k,
                place,
                part: 0,
                row: *row,
            }));
        }
        pass_range(header, marks, k);
    }
    turn(header, marks, end)
}

// A sector of a block.
fn take_block(header: &Header, marks: &mut Marks, spot: Spot, sector: &[u8; 512]) -> Option<Count>
    requires low { 12 ≤ header.now.cluster_bits }
    requires high { header.now.cluster_bits ≤ 21 }
    ensures { Takes header.now (Count.Block spot) sector.now marks.old marks.new result }
{
    let span = block_span(header);
    let first = spot.entry * span + 256 * spot.part;
    pass_counts(marks, first, sector);
    let part = spot.part + 1;
    let end = ((spot.entry + 1) * span).min(marks.free.room());
    if first + 256 < end {
        return Some(Count::Block(Spot {
            entry: spot.entry,
            place: spot.place,
            part,
            row: spot.row,
        }));
    }
    let entry = spot.entry + 1;
    if entry % 64 == 0 {
        return turn(header, marks, entry);
    }
    scan(header, marks, entry, &spot.row)
}

/// The first sector that is wanted. None where the refcount table has no entries.
pub fn begin_counts(header: &Header, marks: &mut Marks) -> Option<Count>
    requires low { 12 ≤ header.now.cluster_bits }
    requires high { header.now.cluster_bits ≤ 21 }
    ensures { Turns header.now 0 marks.old marks.new result }
{
    turn(header, marks, 0)
}

/// Where the sector that is wanted begins in the file, or the highest place where it begins past that.
pub fn wanted_counts(header: &Header, count: &Count) -> u64
    ensures near { wanted_place header.now count.now < 2 ^ 64 → result ≡ wanted_place header.now count.now }
    ensures far { 2 ^ 64 ≤ wanted_place header.now count.now → result ≡ 2 ^ 64 - 1 }
{
    match count {
        Count::Row(entry) => header
            .refcount_table_offset
            .saturating_add(entry.saturating_mul(8)),
        Count::Block(spot) => spot.place.saturating_add(512 * spot.part),
    }
}

/// Takes in the sector that was wanted, and the clusters behind it that have no block. What comes back is the next sector
/// that is wanted, or None where all counts are taken in.
pub fn take_counts(
    header: &Header,
    marks: &mut Marks,
    count: Count,
    sector: &[u8; 512],
) -> Option<Count>
    requires low { 12 ≤ header.now.cluster_bits }
    requires high { header.now.cluster_bits ≤ 21 }
    ensures { Takes header.now count sector.now marks.old marks.new result }
{
    match count {
        Count::Row(entry) => scan(header, marks, entry, sector),
        Count::Block(spot) => take_block(header, marks, spot, sector),
    }
}
