// Looking a cluster of the virtual disk up.
ghost use Rattle.std.specs.Prelude.{◌≡◌, None, Some};
ghost use Rattle.shared_disk.specs.Calls.{Told};
ghost use Rattle.shared_disk.specs.Step.{EndsOnlyBy, IsDiskRefusal, StepCounts};
ghost use Rattle.qcow_layer.specs.Looking.{FewerLooks, FindsEntry, FindsTable, LooksOn};

use crate::layer::Layer;
use crate::reading::read_sector;
use layer_walk::{cluster_bytes, word_at};
use qcow_format::{Entry, entry_of, table_place};
use sd_names::{HostId, Turn};
use shared_disk::SharedDisk;

/// What a layer says of a cluster: its entry, and whether its L2 table is there.
#[derive(Clone, Copy, Debug, PartialEq, Eq)]
pub struct Looked {
    pub entry: Entry,
    pub table: bool,
}

/// The looking up of a cluster, by its number, in steps of at most one call of the disk: the L1 entry, then the L2 entry.
#[derive(Clone, Copy, Debug)]
pub struct Looking {
    cluster: u64,
    table: Option<u64>,
}

// A cluster that the layer doesn't hold, and for which it has no table.
const NOT_THERE: Looked = Looked {
    entry: Entry::Absent,
    table: false,
};

// The L2 table of a cluster, from its L1 entry.
fn find_table<D: SharedDisk>(
    layer: &Layer,
    host: HostId,
    disk: &mut D,
    cluster: u64,
) -> Turn<Looking, Looked, ()>
    ensures counts { StepCounts (D.faults disk.old) (D.faults disk.new) (D.calls disk.old) (D.calls disk.new) result }
    ensures refusals { EndsOnlyBy IsDiskRefusal result }
    ensures falls { FewerLooks None result }
    ensures content { Told (D.content disk.old) (D.content disk.new) (FindsTable layer.now host cluster result) }
{
    let header = layer.work.header;
    let i = cluster / (cluster_bytes(&header) / 8);
    if i >= u64::from(header.l1_size) {
        return Turn::Done(NOT_THERE);
    }
    let at = header.l1_table_offset.saturating_add(8 * i);
    match read_sector(host, disk, layer.target.place, at / 512 * 512) {
        Err(refusal) => Turn::Ended((), refusal),
        Ok(sector) => match table_place(word_at(&sector, (at % 512 / 8) as usize), at) {
            Err(_) => Turn::Done(NOT_THERE),
            Ok(None) => Turn::Done(NOT_THERE),
            Ok(Some(table)) => Turn::More(Looking {
                cluster,
                table: Some(table),
            }),
        },
    }
}

// The entry of a cluster, in its L2 table.
fn find_entry<D: SharedDisk>(
    layer: &Layer,
    host: HostId,
    disk: &mut D,
    cluster: u64,
    table: u64,
) -> Turn<Looking, Looked, ()>
    ensures counts { StepCounts (D.faults disk.old) (D.faults disk.new) (D.calls disk.old) (D.calls disk.new) result }
    ensures refusals { EndsOnlyBy IsDiskRefusal result }
    ensures falls { FewerLooks (Some table) result }
    ensures content { Told (D.content disk.old) (D.content disk.new) (FindsEntry layer.now host cluster table result) }
{
    let header = layer.work.header;
    let at = table.saturating_add(8 * (cluster % (cluster_bytes(&header) / 8)));
    match read_sector(host, disk, layer.target.place, at / 512 * 512) {
        Err(refusal) => Turn::Ended((), refusal),
        Ok(sector) => {
            let bits = word_at(&sector, (at % 512 / 8) as usize);
            match entry_of(bits, header.version, at) {
                Err(_) => Turn::Done(Looked {
                    entry: Entry::Absent,
                    table: true,
                }),
                Ok(entry) => Turn::Done(Looked { entry, table: true }),
            }
        }
    }
}

impl Looking {
    ghost use Rattle.qcow_layer.specs.Looking.{cluster_of, table_of};

    /// The looking up of the cluster of the virtual disk with this number.
    pub fn begin(cluster: u64) -> Looking
        ensures cluster { cluster_of result ≡ cluster }
        ensures table { table_of result ≡ None }
    {
        Looking {
            cluster,
            table: None,
        }
    }

    /// Makes at most one call of the disk. The layer is the same in each step.
    pub fn step<D: SharedDisk>(
        self,
        host: HostId,
        layer: &mut Layer,
        disk: &mut D,
    ) -> Turn<Looking, Looked, ()>
        ensures counts { StepCounts (D.faults disk.old) (D.faults disk.new) (D.calls disk.old) (D.calls disk.new) result }
        ensures refusals { EndsOnlyBy IsDiskRefusal result }
        ensures layer { layer.new ≡ layer.old }
        ensures falls { FewerLooks (table_of self) result }
        ensures content { Told (D.content disk.old) (D.content disk.new) (LooksOn self layer.old host result) }
    {
        match self.table {
            None => find_table(layer, host, disk, self.cluster),
            Some(table) => find_entry(layer, host, disk, self.cluster, table),
        }
    }
}
