// The pieces of a part that lie in clusters of data are written over what stands there.
ghost use Rattle.std.specs.Prelude.{◌≡◌, ◌+◌, ◌-◌, ◌*◌, ◌/◌, ◌%◌, ◌<◌, ◌≤◌, min, length};
ghost use Rattle.sd_names.specs.Turn.{MatchTurn};
ghost use Rattle.shared_disk.specs.Calls.{IsAligned, IsPiece, Told};
ghost use Rattle.shared_disk.specs.Step.{EndsOnlyBy, IsDiskRefusal, NearsEnd, StepCounts};
ghost use Rattle.write_planning.specs.Part.{IsPieceOf};
ghost use Rattle.write_planning.specs.Plan.{span_of};
ghost use Rattle.write_planning.specs.Span.{at_of, count_of, length_of, width_of};

use qcow_layer::Layer;
use sd_names::{HostId, Turn};
use shared_disk::{SharedDisk, refusal_for};
use write_planning::{Piece, Span, Target, WritePlan};

/// The writing of a part's bytes into the clusters of a layer that are data, in steps of at most one call of the disk: one for
/// each such cluster. Nothing is synced.
#[derive(Clone, Copy, Debug)]
pub struct PlaceWriting {
    plan: WritePlan,
    index: usize,
    ghost within: { index < count_of (span_of plan) },
}

// The bytes of a part of whole sectors that lie in one of its clusters: whole sectors too.
fn whole_piece(span: &Span, index: usize) -> Piece
    requires index { index < count_of span.now }
    requires at { IsAligned (at_of span.now) }
    requires length { IsAligned (length_of span.now) }
    ensures piece { IsPieceOf (at_of span.now) (length_of span.now) (width_of span.now) index result }
    ensures from { IsAligned result.from }
    ensures offset { IsAligned result.offset }
    ensures size { IsPiece (result.end - result.from) }
{
    span.piece(index)
}

impl PlaceWriting {
    ghost use Rattle.place_writing.specs.Calls.{ComesOn, StepsBy};
    ghost use Rattle.place_writing.specs.Places.{IsBegun, IsSamePlan, PassesOn, PlacesOn, WritesPiece, index_of, plan_of, places_left};

    /// The writing of a part over the data that a plan found.
    pub fn begin(plan: WritePlan) -> PlaceWriting
        ensures { IsBegun plan result }
    {
        let _count = plan.span().count();
        PlaceWriting { plan, index: 0 }
    }

    /// Makes at most one call of the disk. The part is the plan's, of whole sectors, and the same in each step, as is the layer.
    pub fn step<D: SharedDisk>(
        self,
        host: HostId,
        layer: &Layer,
        disk: &mut D,
        part: &[u8],
    ) -> Turn<PlaceWriting, (), ()>
        requires part { length part.now ≡ length_of (span_of (plan_of self)) }
        requires at { IsAligned (at_of (span_of (plan_of self))) }
        requires length { IsAligned (length_of (span_of (plan_of self))) }
        ensures counts { StepCounts (D.faults disk.old) (D.faults disk.new) (D.calls disk.old) (D.calls disk.new) result }
        ensures refusals { EndsOnlyBy IsDiskRefusal result }
        ensures falls { NearsEnd (IsSamePlan self) places_left (places_left self) result }
        ensures passes { ComesOn self result }
        ensures steps { Told (D.content disk.old) (D.content disk.new) (StepsBy self layer.now host (D.faults disk.new) part.now result) }
        ensures content { Told (D.content disk.old) (D.content disk.new) (PlacesOn self layer.now host (D.faults disk.new) part.now result) }
    {
        match self.plan.target(self.index) {
            Target::InPlace(place) => self.write(place, host, layer, disk, part),
            Target::Kept(_) => self.pass(),
            Target::New(_) => self.pass(),
        }
    }

    // The next cluster, or the end where this was the last one.
    fn pass(self) -> Turn<PlaceWriting, (), ()>
        ensures { PassesOn self result }
    {
        if self.index + 1 < self.plan.span().count() {
            return Turn::More(PlaceWriting {
                plan: self.plan,
                index: self.index + 1,
            });
        }
        Turn::Done(())
    }

    // The part's bytes are written into the cluster at a place.
    fn write<D: SharedDisk>(
        self,
        place: u64,
        host: HostId,
        layer: &Layer,
        disk: &mut D,
        part: &[u8],
    ) -> Turn<PlaceWriting, (), ()>
        requires part { length part.now ≡ length_of (span_of (plan_of self)) }
        requires at { IsAligned (at_of (span_of (plan_of self))) }
        requires length { IsAligned (length_of (span_of (plan_of self))) }
        ensures counts { StepCounts (D.faults disk.old) (D.faults disk.new) (D.calls disk.old) (D.calls disk.new) result }
        ensures next { MatchTurn result (λ _. PassesOn self result) (λ _. PassesOn self result) (λ _ refusal. IsDiskRefusal refusal) }
        ensures content { Told (D.content disk.old) (D.content disk.new) (WritesPiece self place layer.now host (D.faults disk.new) part.now result) }
    {
        let piece = whole_piece(&self.plan.span(), self.index);
        let at = place.saturating_add(piece.offset) / 512 * 512;
        match disk.write_at(host, layer.place(), at, &part[piece.from..piece.end]) {
            Ok(()) => self.pass(),
            Err(answer) => Turn::Ended((), refusal_for(answer, disk)),
        }
    }
}
