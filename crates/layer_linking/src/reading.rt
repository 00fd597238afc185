// The sectors that a linking reads, and lays its entries in.
ghost use Rattle.std.specs.Prelude.{◌≡◌, ◌^◌, ◌≤◌, ◌<◌, ◌+◌, ◌-◌, min};
ghost use Rattle.shared_disk.specs.Calls.{Told};
ghost use Rattle.shared_disk.specs.Step.{EndsOnlyBy, IsDiskRefusal, NearsEnd, StepCounts};
ghost use Rattle.qcow_layer.specs.Opening.{header_kept};
ghost use Rattle.layer_linking.specs.Calls.{FindsTable, IsSameLinking, LaysEntries, LaysTable, entries_sector, group_of, l1_place, steps_left};

use crate::linking::{Linking, Stage};
use crate::links::put_word;
use layer_walk::{cluster_bytes, word_at};
use qcow_format::{Entry, Header, entry_bits, table_place};
use qcow_layer::{Layer, read_sector};
use sd_names::{Absence, HostId, Refusal, Turn};
use shared_disk::SharedDisk;

// Where the L1 entry stands behind which the entries of a sector stand.
fn l1_place_of(header: &Header, group: u64) -> u64
    requires low { 12 ≤ header.now.cluster_bits }
    requires high { header.now.cluster_bits ≤ 21 }
    requires few { group < 2 ^ 58 }
    ensures { result ≡ l1_place header.now group }
{
    let row = 64 * group / (cluster_bytes(header) / 8);
    header.l1_table_offset.saturating_add(8 * row)
}

/// Which sector of the file the entries' sector is, in the table at a place.
pub(crate) fn entries_sector_of(header: &Header, group: u64, table: u64) -> u64
    requires low { 12 ≤ header.now.cluster_bits }
    requires high { header.now.cluster_bits ≤ 21 }
    requires few { group < 2 ^ 58 }
    ensures value { result ≡ entries_sector header.now group table }
    ensures low { result < 2 ^ 55 }
{
    let column = 64 * group % (cluster_bytes(header) / 8);
    table.saturating_add(8 * column) / 512
}

/// The L2 table's place, from the L1 entry.
pub(crate) fn find_table<D: SharedDisk>(
    linking: Linking,
    layer: &Layer,
    host: HostId,
    disk: &mut D,
) -> Turn<Linking, (), ()>
    ensures counts { StepCounts (D.faults disk.old) (D.faults disk.new) (D.calls disk.old) (D.calls disk.new) result }
    ensures counted { D.calls disk.new ≡ min (D.calls disk.old + 1) (2 ^ 64 - 1) }
    ensures refusals { EndsOnlyBy IsDiskRefusal result }
    ensures keeps { NearsEnd (IsSameLinking linking) (steps_left layer.now) 4 result }
    ensures content { Told (D.content disk.old) (D.content disk.new) (FindsTable linking layer.now host (D.faults disk.new) result) }
{
    let at = l1_place_of(layer.header(), linking.links.group());
    match read_sector(host, disk, layer.place(), at / 512 * 512) {
        Err(refusal) => Turn::Ended((), refusal),
        Ok(sector) => match table_place(word_at(&sector, (at % 512 / 8) as usize), at) {
            Ok(Some(table)) => Turn::More(Linking {
                links: linking.links,
                table: linking.table,
                stage: Stage::Found(table),
            }),
            Ok(None) => Turn::Ended((), Refusal::Vanished(Absence::OutOfFile)),
            Err(_) => Turn::Ended((), Refusal::Vanished(Absence::OutOfFile)),
        },
    }
}

/// The sector of the entries, with those of the clusters laid in.
pub(crate) fn lay_entries<D: SharedDisk>(
    linking: Linking,
    table: u64,
    layer: &Layer,
    host: HostId,
    disk: &mut D,
) -> Turn<Linking, (), ()>
    ensures counts { StepCounts (D.faults disk.old) (D.faults disk.new) (D.calls disk.old) (D.calls disk.new) result }
    ensures counted { D.calls disk.new ≡ min (D.calls disk.old + 1) (2 ^ 64 - 1) }
    ensures refusals { EndsOnlyBy IsDiskRefusal result }
    ensures keeps { NearsEnd (IsSameLinking linking) (steps_left layer.now) 3 result }
    ensures content { Told (D.content disk.old) (D.content disk.new) (LaysEntries linking table layer.now host (D.faults disk.new) result) }
{
    let at = 512 * entries_sector_of(layer.header(), linking.links.group(), table);
    match read_sector(host, disk, layer.place(), at) {
        Err(refusal) => Turn::Ended((), refusal),
        Ok(sector) => Turn::More(Linking {
            links: linking.links,
            table: linking.table,
            stage: Stage::Laid(at, linking.links.lay(sector)),
        }),
    }
}

/// The sector of the L1 entry, which names the new table.
pub(crate) fn lay_table<D: SharedDisk>(
    linking: Linking,
    table: u64,
    layer: &Layer,
    host: HostId,
    disk: &mut D,
) -> Turn<Linking, (), ()>
    ensures counts { StepCounts (D.faults disk.old) (D.faults disk.new) (D.calls disk.old) (D.calls disk.new) result }
    ensures counted { D.calls disk.new ≡ min (D.calls disk.old + 1) (2 ^ 64 - 1) }
    ensures refusals { EndsOnlyBy IsDiskRefusal result }
    ensures keeps { NearsEnd (IsSameLinking linking) (steps_left layer.now) 3 result }
    ensures content { Told (D.content disk.old) (D.content disk.new) (LaysTable linking table layer.now host (D.faults disk.new) result) }
{
    let at = l1_place_of(layer.header(), linking.links.group());
    match read_sector(host, disk, layer.place(), at / 512 * 512) {
        Err(refusal) => Turn::Ended((), refusal),
        Ok(sector) => {
            let mut sector = sector;
            // An L1 entry has its offset and bit 63 as an entry of data has them.
            let word = entry_bits(Entry::Data(table));
            put_word(&mut sector, (at % 512 / 8) as usize, word);
            Turn::More(Linking {
                links: linking.links,
                table: linking.table,
                stage: Stage::Laid(at / 512 * 512, sector),
            })
        }
    }
}
