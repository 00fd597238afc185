// The end of a write to a layer.
ghost use Rattle.std.specs.Prelude.{◌≡◌};
ghost use Rattle.shared_disk.specs.Calls.{Told};
ghost use Rattle.shared_disk.specs.Step.{EndsOnlyBy, IsDiskRefusal, NearsEnd, StepCounts};
ghost use Rattle.write_linking.specs.Linking.{LinksAt, StageFalls};

use crate::sectors::{link, next_linking, sync};
use crate::stage::Stage;
use qcow_layer::Layer;
use sd_names::{HostId, Turn};
use shared_disk::SharedDisk;
use write_preparing::Placed;

// One step.
fn step_stage<D: SharedDisk>(
    stage: Stage,
    host: HostId,
    layer: &mut Layer,
    disk: &mut D,
) -> Turn<Stage, (), ()>
    ensures counts { StepCounts (D.faults disk.old) (D.faults disk.new) (D.calls disk.old) (D.calls disk.new) result }
    ensures refusals { EndsOnlyBy IsDiskRefusal result }
    ensures layer { layer.new ≡ layer.old }
    ensures falls { StageFalls layer.old stage result }
    ensures content { Told (D.content disk.old) (D.content disk.new) (LinksAt stage layer.old host (D.faults disk.new) result) }
{
    match stage {
        Stage::Syncing(placed) => sync(placed, host, layer, disk),
        Stage::Next(placed, sector) => next_linking(placed, sector),
        Stage::Links(placed, next, work) => link(placed, next, work, host, layer, disk),
    }
}

/// The end of a guest's write to a layer, in steps of at most one call of the disk: what was written is synced, then the
/// clusters that got places get their entries, sector by sector, with the L2 tables that these need.
#[derive(Drop)]
pub struct WriteLinking {
    stage: Stage,
}

impl WriteLinking {
    ghost use Rattle.write_linking.specs.Linking.{IsBegun, IsSamePlaced, LinksOn, linking_left};

    /// The linking of clusters that were taken and written.
    pub fn begin(placed: Placed) -> WriteLinking
        ensures { IsBegun placed result }
    {
        WriteLinking {
            stage: Stage::Syncing(placed),
        }
    }

    /// Makes at most one call of the disk. The layer is the same in each step. At `Done` the part is on the medium; 120 and 122
    /// are the disk's.
    pub fn step<D: SharedDisk>(
        self,
        host: HostId,
        layer: &mut Layer,
        disk: &mut D,
    ) -> Turn<WriteLinking, (), ()>
        ensures counts { StepCounts (D.faults disk.old) (D.faults disk.new) (D.calls disk.old) (D.calls disk.new) result }
        ensures refusals { EndsOnlyBy IsDiskRefusal result }
        ensures layer { layer.new ≡ layer.old }
        ensures falls { NearsEnd (IsSamePlaced self) (linking_left layer.old) (linking_left layer.old self) result }
        ensures content { Told (D.content disk.old) (D.content disk.new) (LinksOn self layer.old host (D.faults disk.new) result) }
    {
        match step_stage(self.stage, host, layer, disk) {
            Turn::More(stage) => Turn::More(WriteLinking { stage }),
            Turn::Done(()) => Turn::Done(()),
            Turn::Ended((), refusal) => Turn::Ended((), refusal),
        }
    }
}
