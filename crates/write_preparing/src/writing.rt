// The part is written over data.
ghost use Rattle.std.specs.Prelude.{◌≡◌, ℕ, length};
ghost use Rattle.shared_disk.specs.Calls.{IsAligned, Told};
ghost use Rattle.shared_disk.specs.Step.{EndsOnlyBy, IsDiskRefusal, StepCounts};
ghost use Rattle.place_writing.specs.Places as places;
ghost use Rattle.write_planning.specs.Plan.{span_of};
ghost use Rattle.write_planning.specs.Span.{at_of, length_of};
ghost use Rattle.write_preparing.specs.Preparing.{KeepsPlain, PreparesIn, StageFalls, StagePlans};
ghost use Rattle.write_preparing.specs.declared.stage.Stage.TheVariants.{InPlace};

use crate::placed::Placed;
use crate::stage::Stage;
use place_writing::PlaceWriting;
use qcow_layer::Layer;
use sd_names::{HostId, Turn};
use shared_disk::SharedDisk;

/// A step of the writing over data.
pub(crate) fn write_places<D: SharedDisk>(
    placed: Placed,
    work: PlaceWriting,
    host: HostId,
    layer: &Layer,
    disk: &mut D,
    part: &[u8],
) -> Turn<Stage, Placed, ()>
    requires part { length part.now ≡ length_of (span_of (places.plan_of work)) }
    requires at { IsAligned (at_of (span_of (places.plan_of work))) }
    requires length { IsAligned (length_of (span_of (places.plan_of work))) }
    ensures counts { StepCounts (D.faults disk.old) (D.faults disk.new) (D.calls disk.old) (D.calls disk.new) result }
    ensures refusals { EndsOnlyBy IsDiskRefusal result }
    ensures falls { (pieces : ℕ) → StageFalls pieces (InPlace placed work) result }
    ensures plans { StagePlans (InPlace placed work) result }
    ensures plain { KeepsPlain (InPlace placed work) layer.now layer.now result }
    ensures content { Told (D.content disk.old) (D.content disk.new) (PreparesIn (InPlace placed work) layer.now layer.now host (D.faults disk.new) part.now result) }
{
    match work.step(host, layer, disk, part) {
        Turn::More(next) => Turn::More(Stage::InPlace(placed, next)),
        Turn::Done(()) => Turn::Done(placed),
        Turn::Ended((), refusal) => Turn::Ended((), refusal),
    }
}
