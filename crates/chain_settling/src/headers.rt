// The headers of the path's layers are made to name the parents that count, one after the other.
ghost use Rattle.std.specs.Prelude.{◌≡◌, ℕ};
ghost use Rattle.shared_disk.specs.Calls.{Told};
ghost use Rattle.shared_disk.specs.Content.{Content};
ghost use Rattle.shared_disk.specs.Step.{EndsOnlyBy, IsDiskRefusal, NearsEnd, StepCounts, TurnFaults};
ghost use Rattle.chain_records.specs.Records.{records_in};
ghost use Rattle.layer_heading.specs.Rebasing.{IsSameRebasing, rebasing_left};
ghost use Rattle.volume_chain.specs.Chain.{records_kept};
ghost use Rattle.chain_settling.specs.Fit.{IsFit, IsSameChain, KeepsFit};
ghost use Rattle.chain_settling.specs.Left.{FallsIn};
ghost use Rattle.chain_settling.specs.Steps.{RebasesAt, SettlesIn};
ghost use Rattle.chain_settling.specs.Work.{IsBackingFor, IsHeaderWork};
ghost use Rattle.chain_settling.specs.declared.stages.Stage.TheVariants as stages;

use crate::stages::{Part, Stage};
use chain_records::VolumeRecords;
use layer_creating::Backing;
use layer_heading::Rebasing;
use qcow_layer::Layer;
use sd_names::{HostId, Turn};
use shared_disk::SharedDisk;
use volume_chain::{Chain, OpenVolume};

// What has to be done to the header of the volume at a place of a path.
#[derive(Clone, Copy, Debug)]
enum HeaderWork {
    // The path has ended.
    End,
    // The header stays, or there is none.
    Stays,
    // It is made to name this volume.
    Names(Backing),
}

/// The next volume of the path: the rewriting of its header begins, where it names another volume than the parent that
/// counts. Behind the last one the texts follow.
pub(crate) fn step_headers(chain: Chain, at: usize) -> Turn<Stage, Chain, ()>
    requires { IsFit (stages.Headers chain at) }
    ensures cause { (before after : ℕ) → after ≡ before → TurnFaults before after result }
    ensures refusals { EndsOnlyBy IsDiskRefusal result }
    ensures fit { KeepsFit (stages.Headers chain at) result }
    ensures falls { FallsIn (stages.Headers chain at) result }
    ensures content { (host faults : ℕ) (d : Content) → SettlesIn (stages.Headers chain at) host faults result d d }
{
    match header_work(&chain, at) {
        HeaderWork::End => Turn::More(Stage::Texts(chain, Part::Parents, 0)),
        HeaderWork::Stays => Turn::More(Stage::Headers(chain, at + 1)),
        HeaderWork::Names(backing) => {
            Turn::More(Stage::Heading(chain, at, Rebasing::begin(backing)))
        }
    }
}

// What has to be done to the header of the volume at a place of the path.
fn header_work(chain: &Chain, at: usize) -> HeaderWork
    ensures work { IsHeaderWork chain.now at result }
{
    let Some(volume) = chain.volumes().get(at) else {
        return HeaderWork::End;
    };
    let OpenVolume::Cow(layer) = volume else {
        return HeaderWork::Stays;
    };
    match backing_for(chain.records(), layer) {
        Some(backing) => HeaderWork::Names(backing),
        None => HeaderWork::Stays,
    }
}

// The volume that a layer's header has to be made to name, with its format.
fn backing_for(records: &VolumeRecords, layer: &Layer) -> Option<Backing>
    ensures { IsBackingFor (records_in records.now) layer.now result }
{
    match records.header_to_write(&layer.volume(), layer.parent()) {
        None => None,
        Some(up) => match records.get(&up) {
            None => None,
            Some(below) => Some(Backing {
                parent: up,
                format: below.format,
            }),
        },
    }
}

/// A step of the rewriting of a header.
pub(crate) fn step_heading<D: SharedDisk>(
    chain: Chain,
    at: usize,
    rebasing: Rebasing,
    host: HostId,
    disk: &mut D,
) -> Turn<Stage, Chain, ()>
    requires { IsFit (stages.Heading chain at rebasing) }
    ensures counts { StepCounts (D.faults disk.old) (D.faults disk.new) (D.calls disk.old) (D.calls disk.new) result }
    ensures refusals { EndsOnlyBy IsDiskRefusal result }
    ensures fit { KeepsFit (stages.Heading chain at rebasing) result }
    ensures falls { FallsIn (stages.Heading chain at rebasing) result }
    ensures content { Told (D.content disk.old) (D.content disk.new) (SettlesIn (stages.Heading chain at rebasing) host (D.faults disk.new) result) }
{
    let mut chain = chain;
    match rebase(&mut chain, at, rebasing, host, disk) {
        Turn::More(next) => Turn::More(Stage::Heading(chain, at, next)),
        Turn::Done(()) => Turn::More(Stage::Headers(chain, at + 1)),
        Turn::Ended(_, refusal) => Turn::Ended((), refusal),
    }
}

// The same of the layer itself. Where none stands there, there is nothing to do.
fn rebase<D: SharedDisk>(
    chain: &mut Chain,
    at: usize,
    rebasing: Rebasing,
    host: HostId,
    disk: &mut D,
) -> Turn<Rebasing, (), ()>
    ensures counts { StepCounts (D.faults disk.old) (D.faults disk.new) (D.calls disk.old) (D.calls disk.new) result }
    ensures refusals { EndsOnlyBy IsDiskRefusal result }
    ensures falls { NearsEnd (IsSameRebasing rebasing) rebasing_left (rebasing_left rebasing) result }
    ensures same { IsSameChain chain.old chain.new }
    ensures content { Told (D.content disk.old) (D.content disk.new) (RebasesAt chain.old chain.new at rebasing host (D.faults disk.new) result) }
    ensures records { records_kept chain.new ≡ records_kept chain.old }
{
    match chain.take_layer(at) {
        None => Turn::Done(()),
        Some(layer) => {
            let mut layer = layer;
            let turn = rebasing.step(host, &mut layer, disk);
            chain.put_layer(at, layer);
            turn
        }
    }
}
