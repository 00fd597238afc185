// The preparing of a write to a layer.
ghost use Rattle.std.specs.Prelude.{◌≡◌, length};
ghost use Rattle.shared_disk.specs.Calls.{IsAligned, Told};
ghost use Rattle.shared_disk.specs.Step.{EndsOnlyBy, NearsEnd, StepCounts};
ghost use Rattle.layer_placing.specs.Stages.{pieces_of};
ghost use Rattle.write_planning.specs.Span.{at_of, length_of};
ghost use Rattle.write_preparing.specs.Preparing.{GoesBehind, IsPreparingRefusal, IsSameLayer, KeepsPlain, PreparesIn, StageFalls, StagePlans, span_at};

use crate::beginning::{ask, survey};
use crate::placed::Placed;
use crate::placing::{clear, place};
use crate::stage::Stage;
use crate::writing::write_places;
use part_survey::Survey;
use qcow_layer::Layer;
use sd_names::{HostId, Turn};
use shared_disk::SharedDisk;
use write_planning::Span;

// One step.
fn step_stage<D: SharedDisk>(
    stage: Stage,
    host: HostId,
    layer: &mut Layer,
    disk: &mut D,
    part: &[u8],
) -> Turn<Stage, Placed, ()>
    requires part { length part.now ≡ length_of (span_at stage) }
    requires at { IsAligned (at_of (span_at stage)) }
    requires length { IsAligned (length_of (span_at stage)) }
    ensures counts { StepCounts (D.faults disk.old) (D.faults disk.new) (D.calls disk.old) (D.calls disk.new) result }
    ensures refusals { EndsOnlyBy (IsPreparingRefusal layer.old) result }
    ensures layer { IsSameLayer layer.old layer.new }
    ensures falls { StageFalls (pieces_of layer.old) stage result }
    ensures plans { StagePlans stage result }
    ensures plain { KeepsPlain stage layer.old layer.new result }
    ensures room { GoesBehind stage result }
    ensures content { Told (D.content disk.old) (D.content disk.new) (PreparesIn stage layer.old layer.new host (D.faults disk.new) part.now result) }
{
    match stage {
        Stage::Surveying(work) => survey(work, host, layer, disk),
        Stage::Asking(asked) => ask(asked, host, layer, disk),
        Stage::Clearing(plan, work) => clear(plan, work, host, layer, disk),
        Stage::Placing(taking) => place(taking, host, layer, disk),
        Stage::InPlace(placed, work) => write_places(placed, work, host, layer, disk, part),
    }
}

/// The preparing of a guest's write to a layer, in steps of at most one call of the disk: the clusters that the part meets are
/// looked up; room is asked for where clusters are wanted; the header loses the features that a writer clears; clusters are
/// taken; and the part is written over those that are data. Nothing of it is synced but what the taking of clusters syncs.
#[derive(Drop)]
pub struct Preparing {
    stage: Stage,
}

impl Preparing {
    ghost use Rattle.write_preparing.specs.Preparing.{GoesOnWithRoom, IsBegun, IsSamePart, Plans, PreparesOn, StaysPlain, preparing_left, span_in};

    /// The preparing of the write of a part.
    pub fn begin(span: Span) -> Preparing
        ensures { IsBegun span result }
    {
        Preparing {
            stage: Stage::Surveying(Survey::begin(span)),
        }
    }

    /// Makes at most one call of the disk. The part is that of the span, of whole sectors, and the same in each step, as is the
    /// layer's volume. 71 comes where room is asked for, and changes nothing; 120 and 122 are the disk's.
    pub fn step<D: SharedDisk>(
        self,
        host: HostId,
        layer: &mut Layer,
        disk: &mut D,
        part: &[u8],
    ) -> Turn<Preparing, Placed, ()>
        requires part { length part.now ≡ length_of (span_in self) }
        requires at { IsAligned (at_of (span_in self)) }
        requires length { IsAligned (length_of (span_in self)) }
        ensures counts { StepCounts (D.faults disk.old) (D.faults disk.new) (D.calls disk.old) (D.calls disk.new) result }
        ensures refusals { EndsOnlyBy (IsPreparingRefusal layer.old) result }
        ensures layer { IsSameLayer layer.old layer.new }
        ensures falls { NearsEnd (IsSamePart self) (preparing_left (pieces_of layer.old)) (preparing_left (pieces_of layer.old) self) result }
        ensures plans { Plans self result }
        ensures plain { StaysPlain self layer.old layer.new result }
        ensures room { GoesOnWithRoom self result }
        ensures content { Told (D.content disk.old) (D.content disk.new) (PreparesOn self layer.old layer.new host (D.faults disk.new) part.now result) }
    {
        match step_stage(self.stage, host, layer, disk, part) {
            Turn::More(stage) => Turn::More(Preparing { stage }),
            Turn::Done(placed) => Turn::Done(placed),
            Turn::Ended((), refusal) => Turn::Ended((), refusal),
        }
    }
}
