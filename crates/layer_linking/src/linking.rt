// Entering clusters into an L2 table, or into a new one.
ghost use Rattle.std.specs.Prelude.{◌≡◌, ◌≢◌, ◌/◌, ℕ, None, Some, ◌+◌, ◌-◌, ◌^◌, min};
ghost use Rattle.shared_disk.specs.Calls.{Told};

use crate::filling::{sync_table, write_entries, zero_piece};
use crate::links::Links;
use crate::reading::{find_table, lay_entries, lay_table};
use crate::writing::{sync_entered, write_laid};
use qcow_layer::Layer;
use sd_names::{HostId, Turn};
use shared_disk::SharedDisk;

/// How far a linking is.
#[derive(Clone, Copy, Debug)]
pub enum Stage {
    /// The table is there, and its place isn't known yet.
    Begun,
    /// The table is there, at this place.
    Found(u64),
    /// The new table at this place is zeros up to the piece with this index.
    Filling(u64, u8),
    /// The new table at this place is zeros.
    Zeroed(u64),
    /// The new table at this place has its entries.
    Filled(u64),
    /// The new table at this place is on the medium, with its entries.
    Synced(u64),
    /// This sector is to be written at this place.
    Laid(u64, [u8; 512]),
    /// It is written, and not yet synced.
    Entered,
}

/// The linking of clusters to places of the file, in steps of one call of the disk. Where the L2 table is there,
/// its sector is read, written with all the entries, and synced. Where there is none, a new table is written with the
/// entries and synced, before the L1 entry that names it is written and synced.
#[derive(Clone, Copy, Debug)]
pub struct Linking {
    pub(crate) links: Links,
    pub(crate) table: Option<u64>,
    pub(crate) stage: Stage,
}

impl Linking {
    ghost use Rattle.layer_linking.specs.Calls.{CallOf, IsSameLinking, first_stage, group_of, links_of, stage_of, steps_left, table_given, table_of, to_of};
    ghost use Rattle.layer_linking.specs.Linking.{Steps};
    ghost use Rattle.shared_disk.specs.Step.{EndsOnlyBy, IsDiskRefusal, NearsEnd, StepCounts};

    /// The linking of one cluster, by its number, to a place, in bytes. `table` is the place of a new L2 table where the
    /// cluster has none yet, else 0.
    pub fn begin(cluster: u64, place: u64, table: u64) -> Linking
        ensures group { group_of result ≡ cluster / 64 }
        ensures here { to_of result cluster ≡ Some place }
        ensures others { (k : ℕ) → k ≢ cluster → to_of result k ≡ None }
        ensures table { table_of result ≡ table_given table }
        ensures stage { stage_of result ≡ first_stage table }
    {
        Linking::begin_all(Links::one(cluster, place), table)
    }

    /// The linking of several clusters. `table` is the place of a new L2 table where they have none yet, else 0.
    pub fn begin_all(links: Links, table: u64) -> Linking
        ensures links { links_of result ≡ links }
        ensures table { table_of result ≡ table_given table }
        ensures stage { stage_of result ≡ first_stage table }
    {
        if table == 0 {
            return Linking {
                links,
                table: None,
                stage: Stage::Begun,
            };
        }
        Linking {
            links,
            table: Some(table),
            stage: Stage::Filling(table, 0),
        }
    }

    /// Makes one call of the disk. The layer is the same in each step.
    pub fn step<D: SharedDisk>(
        self,
        host: HostId,
        layer: &mut Layer,
        disk: &mut D,
    ) -> Turn<Linking, (), ()>
        ensures counts { StepCounts (D.faults disk.old) (D.faults disk.new) (D.calls disk.old) (D.calls disk.new) result }
        ensures counted { D.calls disk.new ≡ min (D.calls disk.old + 1) (2 ^ 64 - 1) }
        ensures refusals { EndsOnlyBy IsDiskRefusal result }
        ensures layer { layer.new ≡ layer.old }
        ensures keeps { NearsEnd (IsSameLinking self) (steps_left layer.old) (steps_left layer.old self) result }
        ensures call { Told (D.content disk.old) (D.content disk.new) (CallOf (stage_of self) self layer.old host (D.faults disk.new) result) }
        ensures content { Told (D.content disk.old) (D.content disk.new) (Steps self layer.old host result) }
    {
        match self.stage {
            Stage::Begun => find_table(self, layer, host, disk),
            Stage::Found(table) => lay_entries(self, table, layer, host, disk),
            Stage::Filling(table, piece) => zero_piece(self, table, piece, layer, host, disk),
            Stage::Zeroed(table) => write_entries(self, table, layer, host, disk),
            Stage::Filled(table) => sync_table(self, table, layer, host, disk),
            Stage::Synced(table) => lay_table(self, table, layer, host, disk),
            Stage::Laid(at, sector) => write_laid(self, at, sector, layer, host, disk),
            Stage::Entered => sync_entered(layer, host, disk),
        }
    }
}
