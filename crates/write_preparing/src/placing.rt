// The header loses features, and clusters of the file are taken for those that aren't there.
ghost use Rattle.std.specs.Prelude.{◌≡◌, ◌≤◌};
ghost use Rattle.shared_disk.specs.Calls.{Told};
ghost use Rattle.shared_disk.specs.Step.{EndsOnlyBy, IsDiskRefusal, StepCounts};
ghost use Rattle.layer_placing.specs.Stages.{pieces_of};
ghost use Rattle.write_planning.specs.Plan.{span_of};
ghost use Rattle.write_preparing.specs.Placed.{clusters_of, plan_of};
ghost use Rattle.write_preparing.specs.Preparing.{IsPreparingRefusal, IsSameLayer, KeepsPlain, PreparesAt, StageFalls, StagePlans, TakesNext, WritesFirst};
ghost use Rattle.write_preparing.specs.declared.stage.Stage.TheVariants.{Clearing as AtClearing, Placing as AtPlacing};

use crate::placed::Placed;
use crate::stage::{Stage, Taking};
use layer_heading::Clearing;
use layer_placing::{Clusters, Placing};
use place_writing::PlaceWriting;
use qcow_layer::Layer;
use sd_names::{HostId, Turn};
use shared_disk::SharedDisk;
use write_planning::WritePlan;

// The part is written over data first, before anything else of it is written.
fn written_first(placed: Placed) -> Stage
    ensures { WritesFirst (plan_of placed) (clusters_of placed) result }
{
    let plan = placed.plan();
    let writing = PlaceWriting::begin(plan);
    Stage::InPlace(placed, writing)
}

// The taking of the clusters that a plan wants, where it wants some.
fn taking_of(plan: WritePlan) -> Stage
    ensures { TakesNext plan result }
{
    let wanted = plan.wanted();
    if wanted > 0 {
        let work = Placing::begin(wanted);
        return Stage::Placing(Taking { plan, work });
    }
    written_first(Placed::new(plan, Clusters::none()))
}

/// A step of the clearing of the header's features.
pub(crate) fn clear<D: SharedDisk>(
    plan: WritePlan,
    work: Clearing,
    host: HostId,
    layer: &mut Layer,
    disk: &mut D,
) -> Turn<Stage, Placed, ()>
    ensures counts { StepCounts (D.faults disk.old) (D.faults disk.new) (D.calls disk.old) (D.calls disk.new) result }
    ensures refusals { EndsOnlyBy IsDiskRefusal result }
    ensures layer { IsSameLayer layer.old layer.new }
    ensures falls { StageFalls (pieces_of layer.old) (AtClearing plan work) result }
    ensures plans { StagePlans (AtClearing plan work) result }
    ensures plain { KeepsPlain (AtClearing plan work) layer.old layer.new result }
    ensures content { Told (D.content disk.old) (D.content disk.new) (PreparesAt (AtClearing plan work) layer.old layer.new host (D.faults disk.new) result) }
{
    match work.step(host, layer, disk) {
        Turn::More(next) => Turn::More(Stage::Clearing(plan, next)),
        Turn::Done(()) => Turn::More(taking_of(plan)),
        Turn::Ended((), refusal) => Turn::Ended((), refusal),
    }
}

/// A step of the taking of clusters.
pub(crate) fn place<D: SharedDisk>(
    taking: Taking,
    host: HostId,
    layer: &mut Layer,
    disk: &mut D,
) -> Turn<Stage, Placed, ()>
    ensures counts { StepCounts (D.faults disk.old) (D.faults disk.new) (D.calls disk.old) (D.calls disk.new) result }
    ensures refusals { EndsOnlyBy (IsPreparingRefusal layer.old) result }
    ensures layer { IsSameLayer layer.old layer.new }
    ensures falls { StageFalls (pieces_of layer.old) (AtPlacing taking) result }
    ensures plans { StagePlans (AtPlacing taking) result }
    ensures plain { KeepsPlain (AtPlacing taking) layer.old layer.new result }
    ensures content { Told (D.content disk.old) (D.content disk.new) (PreparesAt (AtPlacing taking) layer.old layer.new host (D.faults disk.new) result) }
{
    let plan = taking.plan;
    match taking.work.step(host, layer, disk) {
        Turn::More(work) => Turn::More(Stage::Placing(Taking { plan, work })),
        Turn::Done(clusters) => Turn::More(written_first(Placed::new(plan, clusters))),
        Turn::Ended((), refusal) => Turn::Ended((), refusal),
    }
}
