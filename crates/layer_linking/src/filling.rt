// A new L2 table: zeros, then its entries, then a sync.
ghost use Rattle.std.specs.Prelude.{◌≡◌, ◌+◌, ◌-◌, ◌%◌, ◌≤◌, ◌^◌, min};
ghost use Rattle.shared_disk.specs.Calls.{Told};
ghost use Rattle.shared_disk.specs.Step.{EndsOnlyBy, IsDiskRefusal, NearsEnd, StepCounts};
ghost use Rattle.qcow_layer.specs.Opening.{header_kept};
ghost use Rattle.layer_linking.specs.Calls.{IsSameLinking, SyncsTable, WritesEntries, ZeroesPiece};
ghost use Rattle.layer_linking.specs.Calls.{piece_size, pieces, stage_behind, steps_left};

use crate::linking::{Linking, Stage};
use crate::reading::entries_sector_of;
use layer_walk::cluster_bytes;
use qcow_format::Header;
use qcow_layer::Layer;
use sd_names::{HostId, Turn};
use shared_disk::{SharedDisk, refusal_for};

// What one call writes of a new table at the most, in bytes.
const LONGEST: usize = 65536;

// The size of the pieces in which a table is filled.
fn piece_bytes(header: &Header) -> usize
    requires low { 12 ≤ header.now.cluster_bits }
    requires high { header.now.cluster_bits ≤ 21 }
    ensures value { result ≡ piece_size header.now }
    ensures most { result ≤ 65536 }
    ensures some { 512 ≤ result }
    ensures sectors { result % 512 ≡ 0 }
{
    cluster_bytes(header).min(LONGEST as u64) as usize
}

// The stage behind a piece of zeros.
fn behind(header: &Header, table: u64, piece: u8) -> Stage
    requires low { 12 ≤ header.now.cluster_bits }
    requires high { header.now.cluster_bits ≤ 21 }
    ensures { result ≡ stage_behind header.now table piece }
{
    if u64::from(piece) + 1 < cluster_bytes(header) / piece_bytes(header) as u64 {
        Stage::Filling(table, piece + 1)
    } else {
        Stage::Zeroed(table)
    }
}

/// One piece of zeros.
pub(crate) fn zero_piece<D: SharedDisk>(
    linking: Linking,
    table: u64,
    piece: u8,
    layer: &Layer,
    host: HostId,
    disk: &mut D,
) -> Turn<Linking, (), ()>
    ensures counts { StepCounts (D.faults disk.old) (D.faults disk.new) (D.calls disk.old) (D.calls disk.new) result }
    ensures counted { D.calls disk.new ≡ min (D.calls disk.old + 1) (2 ^ 64 - 1) }
    ensures refusals { EndsOnlyBy IsDiskRefusal result }
    ensures keeps { NearsEnd (IsSameLinking linking) (steps_left layer.now) (6 + (pieces (header_kept layer.now) - 1 - piece)) result }
    ensures content { Told (D.content disk.old) (D.content disk.new) (ZeroesPiece linking table piece layer.now host (D.faults disk.new) result) }
{
    let size = piece_bytes(layer.header());
    let zeros = [0; LONGEST];
    let at = table.saturating_add(u64::from(piece) * size as u64);
    match disk.write_at(host, layer.place(), at / 512 * 512, &zeros[..size]) {
        Err(answer) => Turn::Ended((), refusal_for(answer, disk)),
        Ok(()) => Turn::More(Linking {
            links: linking.links,
            table: linking.table,
            stage: behind(layer.header(), table, piece),
        }),
    }
}

/// The sector of the entries, over zeros.
pub(crate) fn write_entries<D: SharedDisk>(
    linking: Linking,
    table: u64,
    layer: &Layer,
    host: HostId,
    disk: &mut D,
) -> Turn<Linking, (), ()>
    ensures counts { StepCounts (D.faults disk.old) (D.faults disk.new) (D.calls disk.old) (D.calls disk.new) result }
    ensures counted { D.calls disk.new ≡ min (D.calls disk.old + 1) (2 ^ 64 - 1) }
    ensures refusals { EndsOnlyBy IsDiskRefusal result }
    ensures keeps { NearsEnd (IsSameLinking linking) (steps_left layer.now) 5 result }
    ensures content { Told (D.content disk.old) (D.content disk.new) (WritesEntries linking table layer.now host (D.faults disk.new) result) }
{
    let at = 512 * entries_sector_of(layer.header(), linking.links.group(), table);
    let sector = linking.links.lay([0; 512]);
    match disk.write_at(host, layer.place(), at, &sector) {
        Err(answer) => Turn::Ended((), refusal_for(answer, disk)),
        Ok(()) => Turn::More(Linking {
            links: linking.links,
            table: linking.table,
            stage: Stage::Filled(table),
        }),
    }
}

/// The new table is put onto the medium.
pub(crate) fn sync_table<D: SharedDisk>(
    linking: Linking,
    table: u64,
    layer: &Layer,
    host: HostId,
    disk: &mut D,
) -> Turn<Linking, (), ()>
    ensures counts { StepCounts (D.faults disk.old) (D.faults disk.new) (D.calls disk.old) (D.calls disk.new) result }
    ensures counted { D.calls disk.new ≡ min (D.calls disk.old + 1) (2 ^ 64 - 1) }
    ensures refusals { EndsOnlyBy IsDiskRefusal result }
    ensures keeps { NearsEnd (IsSameLinking linking) (steps_left layer.now) 4 result }
    ensures content { Told (D.content disk.old) (D.content disk.new) (SyncsTable linking table layer.now host (D.faults disk.new) result) }
{
    match disk.sync(host, layer.place()) {
        Err(answer) => Turn::Ended((), refusal_for(answer, disk)),
        Ok(()) => Turn::More(Linking {
            links: linking.links,
            table: linking.table,
            stage: Stage::Synced(table),
        }),
    }
}
