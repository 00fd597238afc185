// A layer gets a larger capacity.
ghost use Rattle.std.specs.Prelude.{◌≡◌, ◌^◌, ◌≤◌};
ghost use Rattle.shared_disk.specs.Calls.{Told};
ghost use Rattle.shared_disk.specs.Step.{NearsEnd, StepCounts};

use crate::heading::{lay_header, sync_header, write_header};
use crate::raising::{Raising, Stage};
use crate::sizes::{bound, tables_stage};
use crate::zeroing::{look, write_edge, zero};
use layer_walk::cluster_bytes;
use qcow_layer::{Layer, Looking};
use sd_names::{HostId, Refusal, Turn};
use shared_disk::SharedDisk;

/// The change of a layer's capacity to a larger one, in steps of at most one call of the disk (qcow2 specification, "Header":
/// size and l1_size). Zeros are written over the rest of a cluster of data in which the old capacity ends, and over the L1
/// entries that come into use, and synced; then both fields are written, by one write of the first sector, and synced.
#[derive(Clone, Copy, Debug)]
pub enum Sizing {
    /// Nothing has changed, and nothing was checked. The new capacity, in bytes.
    Begun(u64),
    /// The capacity is larger than that of the layer, and within the bound.
    Going(Raising),
}

impl Sizing {
    ghost use Rattle.layer_sizing.specs.Stages.{BeginsBy, BeginsWithout, IsFirst, IsSameSizing, KeepsSize, larger_of, sizing_left};
    ghost use Rattle.layer_sizing.specs.Sizing.{CallOf, Sizes};

    /// The change of a layer's capacity to this one, in bytes. One that isn't larger leaves the layer as it is.
    pub fn begin(capacity: u64) -> Sizing
        ensures { result ≡ Sizing.Begun capacity }
    {
        Sizing::Begun(capacity)
    }

    /// Makes at most one call of the disk. The first step makes none: 69 comes in it alone, exactly where the capacity is past
    /// the bound, and it is the last one where the capacity isn't larger than the layer's. At `Done` the header on the medium
    /// has the size and the length of the L1 table, and the layer has that header and the capacity; before that the layer
    /// stays. 120 is the disk's fault; 122 comes where the file isn't as the layer knows it.
    pub fn step<D: SharedDisk>(
        self,
        host: HostId,
        layer: &mut Layer,
        disk: &mut D,
    ) -> Turn<Sizing, (), ()>
        ensures counts { StepCounts (D.faults disk.old) (D.faults disk.new) (D.calls disk.old) (D.calls disk.new) result }
        ensures bounded { BeginsBy self layer.old result }
        ensures begins { Told (D.content disk.old) (D.content disk.new) (BeginsWithout self) }
        ensures falls { NearsEnd (IsSameSizing self) (sizing_left layer.old) (sizing_left layer.old self) result }
        ensures layer { KeepsSize self layer.old layer.new result }
        ensures call { Told (D.content disk.old) (D.content disk.new) (CallOf self layer.old host (D.faults disk.new) result) }
        ensures content { Told (D.content disk.old) (D.content disk.new) (Sizes self layer.old layer.new host (D.faults disk.new) result) }
    {
        match self {
            Sizing::Begun(capacity) => Sizing::check(capacity, layer),
            Sizing::Going(raising) => match raising.stage {
                Stage::Seeking(looking) => look(raising, looking, host, layer, disk),
                Stage::Zeroing(range) => zero(raising, range, host, layer, disk),
                Stage::Edge(range, sector) => write_edge(
                    raising, range, &sector, host, layer, disk,
                ),
                Stage::Ready => lay_header(raising, host, layer, disk),
                Stage::Laid(sector) => write_header(raising, &sector, host, layer, disk),
                Stage::Headed => sync_header(raising, host, layer, disk),
            },
        }
    }

    // Refuses a capacity past the bound, and is done with one that isn't larger.
    fn check(capacity: u64, layer: &Layer) -> Turn<Sizing, (), ()>
        ensures bounded { BeginsBy (Sizing.Begun capacity) layer.now result }
        ensures falls { NearsEnd (IsSameSizing (Sizing.Begun capacity)) (sizing_left layer.now) (sizing_left layer.now (Sizing.Begun capacity)) result }
    {
        let most = bound(layer.header());
        if capacity > most {
            return Turn::Ended((), Refusal::BadCapacity(capacity, most));
        }
        if capacity <= layer.capacity() {
            return Turn::Done(());
        }
        let stage = Sizing::first_stage(capacity, layer);
        Turn::More(Sizing::Going(Raising::new(capacity, stage)))
    }

    // The cluster in which the old capacity ends is looked up, where it doesn't end with one.
    fn first_stage(capacity: u64, layer: &Layer) -> Stage
        requires { capacity ≤ 2 ^ 40 }
        ensures { IsFirst layer.now capacity result }
    {
        let cluster = cluster_bytes(layer.header());
        if layer.capacity() % cluster == 0 {
            tables_stage(layer.header(), capacity)
        } else {
            Stage::Seeking(Looking::begin(layer.capacity() / cluster))
        }
    }
}
