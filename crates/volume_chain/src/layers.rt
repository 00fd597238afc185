// The volumes of the path are opened, one after the other.
ghost use Rattle.std.specs.Prelude.{◌≡◌, ℕ};
ghost use Rattle.shared_disk.specs.Calls.{Told};
ghost use Rattle.shared_disk.specs.Step.{EndsOnlyBy, IsDiskRefusal, StepCounts, TurnFaults};
ghost use Rattle.volume_chain.specs.declared.stages.Stage.TheVariants as stages;
ghost use Rattle.volume_chain.specs.Stages.{AddsLayer, AsksLength, BeginsLayer, IsNamed, IsStageRefusal, IsWrongParent, KeepsShape, LengthOf, StageFalls, StageSteps};

use crate::chain::{Chain, GREATEST, Kind};
use crate::stages::Stage;
use crate::volumes::OpenVolume;
use qcow_layer::{Layer, Opening};
use sd_names::{HostId, Id, Refusal, Turn};
use shared_disk::{SharedDisk, refusal_for};
use std::alloc::Global;

/// The next volume of the path: a raw one's length is asked, the opening of a layer begins. Where all are open, the chain
/// is.
pub(crate) fn step_along<D: SharedDisk>(
    alloc: Global,
    chain: Chain,
    host: HostId,
    disk: &mut D,
) -> Turn<Stage, Chain, ()>
    ensures counts { StepCounts (D.faults disk.old) (D.faults disk.new) (D.calls disk.old) (D.calls disk.new) result }
    ensures refusals { EndsOnlyBy IsDiskRefusal result }
    ensures shape { KeepsShape (stages.Along chain) result }
    ensures falls { StageFalls (stages.Along chain) result }
    ensures content { Told (D.content disk.old) (D.content disk.new) (StageSteps (stages.Along chain) host result) }
{
    match chain.next_kind() {
        None => Turn::Done(chain),
        Some(Kind::Raw(id)) => ask_length(chain, id, host, disk),
        Some(Kind::Cow(id, capacity)) => begin_layer(alloc, chain, id, capacity),
    }
}

// The length of a raw volume's file.
fn ask_length<D: SharedDisk>(
    chain: Chain,
    id: Id,
    host: HostId,
    disk: &mut D,
) -> Turn<Stage, Chain, ()>
    ensures counts { StepCounts (D.faults disk.old) (D.faults disk.new) (D.calls disk.old) (D.calls disk.new) result }
    ensures refusals { EndsOnlyBy IsDiskRefusal result }
    ensures asked { AsksLength chain result }
    ensures content { Told (D.content disk.old) (D.content disk.new) (LengthOf chain id (D.faults disk.new) result) }
{
    match disk.length(host, chain.place(&id)) {
        Ok(length) => Turn::More(Stage::Along(chain.push(OpenVolume::Raw(length)))),
        Err(answer) => Turn::Ended((), refusal_for(answer, disk)),
    }
}

// The opening of a layer begins, which calls no disk.
fn begin_layer(alloc: Global, chain: Chain, id: Id, capacity: u64) -> Turn<Stage, Chain, ()>
    ensures begins { BeginsLayer chain id capacity result }
    ensures cause { (before after : ℕ) → after ≡ before → TurnFaults before after result }
    ensures refusals { EndsOnlyBy IsDiskRefusal result }
{
    let place = chain.place(&id);
    match Opening::begin(alloc, id, place, capacity, GREATEST) {
        Ok(opening) => Turn::More(Stage::Layer(chain, opening)),
        Err(refusal) => Turn::Ended((), refusal),
    }
}

/// A step of the opening of a layer.
pub(crate) fn step_layer<D: SharedDisk>(
    chain: Chain,
    opening: Opening,
    host: HostId,
    disk: &mut D,
) -> Turn<Stage, Chain, ()>
    ensures counts { StepCounts (D.faults disk.old) (D.faults disk.new) (D.calls disk.old) (D.calls disk.new) result }
    ensures refusals { EndsOnlyBy (IsStageRefusal (stages.Layer chain opening)) result }
    ensures shape { KeepsShape (stages.Layer chain opening) result }
    ensures falls { StageFalls (stages.Layer chain opening) result }
    ensures content { Told (D.content disk.old) (D.content disk.new) (StageSteps (stages.Layer chain opening) host result) }
{
    match opening.step(host, disk) {
        Turn::More(next) => Turn::More(Stage::Layer(chain, next)),
        Turn::Done(layer) => opened(chain, layer),
        Turn::Ended(_, refusal) => Turn::Ended((), refusal),
    }
}

// A layer was found sound: what its header names is compared.
fn opened(chain: Chain, layer: Layer) -> Turn<Stage, Chain, ()>
    ensures turn { IsNamed chain layer result }
    ensures cause { (before after : ℕ) → after ≡ before → TurnFaults before after result }
    ensures refusals { EndsOnlyBy IsWrongParent result }
    ensures adds { AddsLayer chain layer result }
{
    let id = layer.volume();
    let named = match layer.parent() {
        Some(parent) => parent,
        None => Id::ZERO,
    };
    if chain.is_expected(&id, &named) {
        Turn::More(Stage::Along(chain.push(OpenVolume::Cow(layer))))
    } else {
        Turn::Ended((), Refusal::WrongParent(id, named))
    }
}
