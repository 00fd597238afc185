// A step in each stage of a write whose volume was found.
ghost use Rattle.std.specs.Prelude.{◌≡◌, ◌+◌, ◌^◌, ◌≤◌, ℕ, List, length};
ghost use Rattle.shared_disk.specs.Calls.{IsAligned, IsPiece, Told};
ghost use Rattle.shared_disk.specs.Step.{EndsOnlyBy, StepCounts};
ghost use Rattle.sd_names.specs.declared.id.Id.{Id as AnyId};
ghost use Rattle.raw_writing.specs.Writing.{from_of};
ghost use Rattle.volume_chain.specs.Chain.{open_in};
ghost use Rattle.volume_chain.specs.Layers.{IsLayerAt};
ghost use Rattle.volume_chain.specs.declared.chain.Chain.{Chain as AnyChain};
ghost use Rattle.guest_writing.specs.Left.{StageNears};
ghost use Rattle.guest_writing.specs.Way.{IsPreparingAt, KeepsWay, StageFalls, StageKeeps, StageRefusal};
ghost use Rattle.guest_writing.specs.Writing.{WritesIn};
ghost use Rattle.guest_writing.specs.declared.stage.Stage.TheVariants as stages;

use crate::stage::Stage;
use guest_steps::{link, prepare};
use raw_writing::RawWriting;
use sd_names::{HostId, Id, Turn};
use shared_disk::SharedDisk;
use volume_chain::Chain;
use write_filling::Fillings;
use write_linking::WriteLinking;
use write_preparing::Preparing;

/// A step of the write to a raw volume.
pub(crate) fn write_raw<D: SharedDisk>(
    work: RawWriting,
    host: HostId,
    disk: &mut D,
    part: &[u8],
) -> Turn<Stage, (), ()>
    requires piece { IsPiece (length part.now) }
    requires end { from_of work + length part.now ≤ 2 ^ 62 }
    ensures counts { StepCounts (D.faults disk.old) (D.faults disk.new) (D.calls disk.old) (D.calls disk.new) result }
    ensures refusals { (chain : AnyChain) → EndsOnlyBy (StageRefusal (stages.Raw work) chain (length part.now)) result }
    ensures way { (volume : AnyId) (at : ℕ) (chain : AnyChain) → KeepsWay volume at chain (length part.now) result }
    ensures falls { (chain : AnyChain) → StageFalls (stages.Raw work) chain result }
    ensures left { (volume : AnyId) (at count : ℕ) (chain : AnyChain) → StageNears (stages.Raw work) volume at chain chain count result }
    ensures content { Told (D.content disk.old) (D.content disk.new) (λ d e. (volume : AnyId) (at : ℕ) (chain : AnyChain) (room : List ℕ) → WritesIn (stages.Raw work) volume at chain chain host (D.faults disk.new) part.now room room result d e) }
{
    match work.step(host, disk, part) {
        Turn::More(next) => Turn::More(Stage::Raw(next)),
        Turn::Done(()) => Turn::Done(()),
        Turn::Ended((), refusal) => Turn::Ended((), refusal),
    }
}

/// A step of the preparing of the write to a layer. Behind it the new clusters are written whole.
pub(crate) fn prepare_layer<D: SharedDisk>(
    volume: Id,
    at: u64,
    index: usize,
    work: Preparing,
    host: HostId,
    chain: &mut Chain,
    disk: &mut D,
    part: &[u8],
) -> Turn<Stage, (), ()>
    requires piece { IsPiece (length part.now) }
    requires way { IsPreparingAt chain.old index work (length part.now) }
    ensures counts { StepCounts (D.faults disk.old) (D.faults disk.new) (D.calls disk.old) (D.calls disk.new) result }
    ensures refusals { EndsOnlyBy (StageRefusal (stages.Preparing index work) chain.old (length part.now)) result }
    ensures chain { StageKeeps (stages.Preparing index work) chain.old chain.new }
    ensures way { KeepsWay volume at chain.new (length part.now) result }
    ensures falls { StageFalls (stages.Preparing index work) chain.old result }
    ensures left { StageNears (stages.Preparing index work) volume at chain.old chain.new (length part.now) result }
    ensures content { Told (D.content disk.old) (D.content disk.new) (λ d e. (room : List ℕ) → WritesIn (stages.Preparing index work) volume at chain.old chain.new host (D.faults disk.new) part.now room room result d e) }
{
    match prepare(index, work, host, chain, disk, part) {
        Turn::More(next) => Turn::More(Stage::Preparing(index, next)),
        Turn::Done(placed) => {
            let fillings = Fillings::begin(volume, index, at, placed);
            Turn::More(Stage::Filling(index, fillings))
        }
        Turn::Ended((), refusal) => Turn::Ended((), refusal),
    }
}

/// A step of the writing of new clusters. Behind it all is synced, and they get their entries.
pub(crate) fn fill_layer<D: SharedDisk>(
    index: usize,
    work: Fillings,
    host: HostId,
    chain: &mut Chain,
    disk: &mut D,
    part: &[u8],
    room: &mut [u8],
) -> Turn<Stage, (), ()>
    requires piece { IsPiece (length part.now) }
    requires room { length room.old ≡ 65536 }
    requires way { IsLayerAt (open_in chain.old) index }
    ensures counts { StepCounts (D.faults disk.old) (D.faults disk.new) (D.calls disk.old) (D.calls disk.new) result }
    ensures refusals { EndsOnlyBy (StageRefusal (stages.Filling index work) chain.old (length part.now)) result }
    ensures chain { StageKeeps (stages.Filling index work) chain.old chain.new }
    ensures way { (volume : AnyId) (at : ℕ) → KeepsWay volume at chain.new (length part.now) result }
    ensures falls { StageFalls (stages.Filling index work) chain.old result }
    ensures left { (volume : AnyId) (at count : ℕ) → StageNears (stages.Filling index work) volume at chain.old chain.new count result }
    ensures content { Told (D.content disk.old) (D.content disk.new) (λ d e. (volume : AnyId) (at : ℕ) → WritesIn (stages.Filling index work) volume at chain.old chain.new host (D.faults disk.new) part.now room.old room.new result d e) }
{
    match work.step(host, chain, disk, part, room) {
        Turn::More(next) => Turn::More(Stage::Filling(index, next)),
        Turn::Done(placed) => {
            let linking = WriteLinking::begin(placed);
            Turn::More(Stage::Linking(index, linking))
        }
        Turn::Ended((), refusal) => Turn::Ended((), refusal),
    }
}

/// A step of the sync and of the entries.
pub(crate) fn link_layer<D: SharedDisk>(
    index: usize,
    work: WriteLinking,
    host: HostId,
    chain: &mut Chain,
    disk: &mut D,
) -> Turn<Stage, (), ()>
    requires way { IsLayerAt (open_in chain.old) index }
    ensures counts { StepCounts (D.faults disk.old) (D.faults disk.new) (D.calls disk.old) (D.calls disk.new) result }
    ensures refusals { (count : ℕ) → EndsOnlyBy (StageRefusal (stages.Linking index work) chain.old count) result }
    ensures chain { StageKeeps (stages.Linking index work) chain.old chain.new }
    ensures way { (volume : AnyId) (at count : ℕ) → KeepsWay volume at chain.new count result }
    ensures falls { StageFalls (stages.Linking index work) chain.old result }
    ensures left { (volume : AnyId) (at count : ℕ) → StageNears (stages.Linking index work) volume at chain.old chain.new count result }
    ensures content { Told (D.content disk.old) (D.content disk.new) (λ d e. (volume : AnyId) (at : ℕ) (part room : List ℕ) → WritesIn (stages.Linking index work) volume at chain.old chain.new host (D.faults disk.new) part room room result d e) }
{
    match link(index, work, host, chain, disk) {
        Turn::More(next) => Turn::More(Stage::Linking(index, next)),
        Turn::Done(()) => Turn::Done(()),
        Turn::Ended((), refusal) => Turn::Ended((), refusal),
    }
}
