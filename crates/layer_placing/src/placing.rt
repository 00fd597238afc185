// Taking clusters, in steps.
ghost use Rattle.std.specs.Prelude.{◌≡◌, ◌≤◌, ◌+◌, ◌-◌, ◌^◌, min};
ghost use Rattle.shared_disk.specs.Calls.{Told};
ghost use Rattle.layer_placing.specs.Knows.{KeepsChosen, Steps};
ghost use Rattle.shared_disk.specs.Step.{EndsOnlyBy, NearsEnd, StepCounts};
ghost use Rattle.layer_placing.specs.Stages.{Falls, IsPlacingRefusal, OnlyTakes, pieces_of};
ghost use Rattle.layer_placing.specs.declared.stage.Stage.TheVariants.{Begun};

use crate::choosing::choose;
use crate::clusters::Clusters;
use crate::counting::{find_block, raise_counts, read_counts};
use crate::covering::{enter, settle, settle_entry, write_piece};
use crate::stage::{Asked, Stage, Work};
use qcow_layer::Layer;
use sd_names::{HostId, Turn};
use shared_disk::{SharedDisk, refusal_for};

/// The taking of the least free clusters of a layer's file, in steps of one call of the disk: the length is asked
/// and the clusters are chosen; then their counts become 1, range by range, each of which first gets its block where it has
/// none.
#[derive(Drop)]
pub struct Placing {
    stage: Stage,
}

// The length is asked, and the clusters are chosen.
fn begin<D: SharedDisk>(
    layer: &Layer,
    host: HostId,
    disk: &mut D,
    asked: Asked,
) -> Turn<Stage, Clusters, ()>
    ensures counts { StepCounts (D.faults disk.old) (D.faults disk.new) (D.calls disk.old) (D.calls disk.new) result }
    ensures counted { D.calls disk.new ≡ min (D.calls disk.old + 1) (2 ^ 64 - 1) }
    ensures refusals { EndsOnlyBy (IsPlacingRefusal layer.now (Begun asked)) result }
    ensures falls { Falls (pieces_of layer.now) (Begun asked) result }
    ensures chosen { KeepsChosen (Begun asked) result }
    ensures content { Told (D.content disk.old) (D.content disk.new) (Steps layer.now layer.now host (D.faults disk.new) (Begun asked) result) }
{
    match disk.length(host, layer.place()) {
        Err(answer) => Turn::Ended((), refusal_for(answer, disk)),
        Ok(length) => match choose(layer, asked.count, length) {
            Err(refusal) => Turn::Ended((), refusal),
            Ok(chosen) => Turn::More(Stage::Finding(Work { chosen, done: 0 })),
        },
    }
}

// One step.
fn step_stage<D: SharedDisk>(
    stage: Stage,
    host: HostId,
    layer: &mut Layer,
    disk: &mut D,
) -> Turn<Stage, Clusters, ()>
    ensures counts { StepCounts (D.faults disk.old) (D.faults disk.new) (D.calls disk.old) (D.calls disk.new) result }
    ensures counted { D.calls disk.new ≡ min (D.calls disk.old + 1) (2 ^ 64 - 1) }
    ensures refusals { EndsOnlyBy (IsPlacingRefusal layer.old stage) result }
    ensures layer { OnlyTakes layer.old layer.new }
    ensures falls { Falls (pieces_of layer.old) stage result }
    ensures chosen { KeepsChosen stage result }
    ensures content { Told (D.content disk.old) (D.content disk.new) (Steps layer.old layer.new host (D.faults disk.new) stage result) }
{
    match stage {
        Stage::Begun(asked) => begin(layer, host, disk, asked),
        Stage::Finding(work) => find_block(layer, host, disk, work),
        Stage::Counting(work, block) => read_counts(layer, host, disk, work, block),
        Stage::Raising(raise) => raise_counts(layer, host, disk, raise),
        Stage::Zeroing(work, table, piece) => write_piece(layer, host, disk, work, table, piece),
        Stage::Zeroed(work, table) => settle(layer, host, disk, work, table),
        Stage::Settled(work, table) => enter(layer, host, disk, work, table),
        Stage::Entered(work, block) => settle_entry(layer, host, disk, work, block),
    }
}

impl Placing {
    ghost use Rattle.layer_placing.specs.Placing.{IsBegun, KeepsClusters, PlacesOn, placing_left, stage_of};

    /// The taking of so many clusters, 1 to 40.
    pub fn begin(count: u8) -> Placing
        requires some { 1 ≤ count }
        requires few { count ≤ 40 }
        ensures { IsBegun count result }
    {
        Placing {
            stage: Stage::Begun(Asked { count }),
        }
    }

    /// Makes one call of the disk. All steps are made with the same layer, by one host.
    pub fn step<D: SharedDisk>(
        self,
        host: HostId,
        layer: &mut Layer,
        disk: &mut D,
    ) -> Turn<Placing, Clusters, ()>
        ensures counts { StepCounts (D.faults disk.old) (D.faults disk.new) (D.calls disk.old) (D.calls disk.new) result }
        ensures counted { D.calls disk.new ≡ min (D.calls disk.old + 1) (2 ^ 64 - 1) }
        ensures refusals { EndsOnlyBy (IsPlacingRefusal layer.old (stage_of self)) result }
        ensures layer { OnlyTakes layer.old layer.new }
        ensures falls { NearsEnd (λ next. Unit {0}) (placing_left (pieces_of layer.old)) (placing_left (pieces_of layer.old) self) result }
        ensures chosen { KeepsClusters self result }
        ensures content { Told (D.content disk.old) (D.content disk.new) (PlacesOn self layer.old layer.new host (D.faults disk.new) result) }
    {
        match step_stage(self.stage, host, layer, disk) {
            Turn::More(stage) => Turn::More(Placing { stage }),
            Turn::Done(chosen) => Turn::Done(chosen),
            Turn::Ended(_, refusal) => Turn::Ended((), refusal),
        }
    }
}
