// The part's clusters are looked up, and room is asked for.
ghost use Rattle.std.specs.Prelude.{◌≡◌};
ghost use Rattle.shared_disk.specs.Calls.{Told};
ghost use Rattle.shared_disk.specs.Step.{EndsOnlyBy, IsDiskRefusal, StepCounts};
ghost use Rattle.layer_placing.specs.Stages.{pieces_of};
ghost use Rattle.part_survey.specs.Survey as survey;
ghost use Rattle.write_planning.specs.Plan.{span_of};
ghost use Rattle.write_preparing.specs.Preparing.{AsksNext, GoesBehind, IsPreparingRefusal, KeepsPlain, PreparesAt, StageFalls, StagePlans};
ghost use Rattle.write_preparing.specs.declared.stage.Stage.TheVariants.{Asking, Surveying};

use crate::placed::Placed;
use crate::stage::{Stage, Wanting};
use layer_heading::Clearing;
use layer_placing::choose;
use part_survey::Survey;
use qcow_layer::Layer;
use sd_names::{HostId, Turn};
use shared_disk::{SharedDisk, refusal_for};
use write_planning::WritePlan;

// Room is asked for where clusters are wanted.
fn asking_of(plan: WritePlan) -> Stage
    ensures { AsksNext plan result }
{
    if plan.wanted() > 0 {
        return Stage::Asking(Wanting { plan });
    }
    Stage::Clearing(plan, Clearing::begin())
}

/// A step of the look-up of the part's clusters.
pub(crate) fn survey<D: SharedDisk>(
    work: Survey,
    host: HostId,
    layer: &mut Layer,
    disk: &mut D,
) -> Turn<Stage, Placed, ()>
    ensures counts { StepCounts (D.faults disk.old) (D.faults disk.new) (D.calls disk.old) (D.calls disk.new) result }
    ensures refusals { EndsOnlyBy IsDiskRefusal result }
    ensures layer { layer.new ≡ layer.old }
    ensures falls { StageFalls (pieces_of layer.old) (Surveying work) result }
    ensures plans { StagePlans (Surveying work) result }
    ensures plain { KeepsPlain (Surveying work) layer.old layer.new result }
    ensures content { Told (D.content disk.old) (D.content disk.new) (PreparesAt (Surveying work) layer.old layer.new host (D.faults disk.new) result) }
{
    match work.step(host, layer, disk) {
        Turn::More(next) => Turn::More(Stage::Surveying(next)),
        Turn::Done(plan) => Turn::More(asking_of(plan)),
        Turn::Ended((), refusal) => Turn::Ended((), refusal),
    }
}

/// Room is asked for; nothing is changed.
pub(crate) fn ask<D: SharedDisk>(
    asked: Wanting,
    host: HostId,
    layer: &Layer,
    disk: &mut D,
) -> Turn<Stage, Placed, ()>
    ensures counts { StepCounts (D.faults disk.old) (D.faults disk.new) (D.calls disk.old) (D.calls disk.new) result }
    ensures refusals { EndsOnlyBy (IsPreparingRefusal layer.now) result }
    ensures falls { StageFalls (pieces_of layer.now) (Asking asked) result }
    ensures plans { StagePlans (Asking asked) result }
    ensures plain { KeepsPlain (Asking asked) layer.now layer.now result }
    ensures room { GoesBehind (Asking asked) result }
    ensures content { Told (D.content disk.old) (D.content disk.new) (PreparesAt (Asking asked) layer.now layer.now host (D.faults disk.new) result) }
{
    match disk.length(host, layer.place()) {
        Ok(length) => match choose(layer, asked.plan.wanted(), length) {
            Ok(_) => Turn::More(Stage::Clearing(asked.plan, Clearing::begin())),
            Err(refusal) => Turn::Ended((), refusal),
        },
        Err(answer) => Turn::Ended((), refusal_for(answer, disk)),
    }
}
