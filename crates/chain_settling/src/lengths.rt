// The files of the path's layers are grown to whole clusters, one after the other.
ghost use Rattle.std.specs.Prelude.{◌≡◌, ◌<◌, ℕ, None, length, slice_get};
ghost use Rattle.shared_disk.specs.Calls.{Told};
ghost use Rattle.shared_disk.specs.Content.{Content};
ghost use Rattle.shared_disk.specs.Step.{EndsOnlyBy, IsDiskRefusal, NearsEnd, StepCounts, TurnFaults};
ghost use Rattle.settling_steps.specs.Lengthening.{steps_left};
ghost use Rattle.volume_chain.specs.Chain.{open_in};
ghost use Rattle.chain_settling.specs.Fit.{IsFit, KeepsFit};
ghost use Rattle.chain_settling.specs.Left.{FallsIn};
ghost use Rattle.chain_settling.specs.Steps.{LengthensAt, SettlesIn};
ghost use Rattle.chain_settling.specs.Work.{kind_at};
ghost use Rattle.chain_settling.specs.declared.stages.Stage.TheVariants as stages;

use crate::stages::Stage;
use sd_names::{HostId, Turn};
use settling_steps::Lengthening;
use shared_disk::SharedDisk;
use volume_chain::{Chain, OpenVolume};

/// What stands at a place of a path.
#[derive(Clone, Copy, Debug)]
pub(crate) enum Kind {
    /// Nothing: the path has ended.
    End,
    /// A raw volume.
    Raw,
    /// A layer.
    Layer,
}

/// What stands at a place of the path.
pub(crate) fn kind_at(chain: &Chain, at: usize) -> Kind
    ensures kind { result ≡ kind_at chain.now at }
    ensures end { result ≡ Kind.End → slice_get (open_in chain.now) at ≡ None }
    ensures raw { result ≡ Kind.Raw → at < length (open_in chain.now) }
    ensures layer { result ≡ Kind.Layer → at < length (open_in chain.now) }
{
    match chain.volumes().get(at) {
        None => Kind::End,
        Some(OpenVolume::Raw(_)) => Kind::Raw,
        Some(OpenVolume::Cow(_)) => Kind::Layer,
    }
}

/// The next volume of the path: the growth of a layer's file begins. Behind the last one the headers follow.
pub(crate) fn step_lengths(chain: Chain, at: usize) -> Turn<Stage, Chain, ()>
    requires { IsFit (stages.Lengths chain at) }
    ensures cause { (before after : ℕ) → after ≡ before → TurnFaults before after result }
    ensures refusals { EndsOnlyBy IsDiskRefusal result }
    ensures fit { KeepsFit (stages.Lengths chain at) result }
    ensures falls { FallsIn (stages.Lengths chain at) result }
    ensures content { (host faults : ℕ) (d : Content) → SettlesIn (stages.Lengths chain at) host faults result d d }
{
    match kind_at(&chain, at) {
        Kind::End => Turn::More(Stage::Headers(chain, 0)),
        Kind::Raw => Turn::More(Stage::Lengths(chain, at + 1)),
        Kind::Layer => Turn::More(Stage::Lengthening(chain, at, Lengthening::begin())),
    }
}

/// A step of the growth of a layer's file.
pub(crate) fn step_lengthening<D: SharedDisk>(
    chain: Chain,
    at: usize,
    lengthening: Lengthening,
    host: HostId,
    disk: &mut D,
) -> Turn<Stage, Chain, ()>
    requires { IsFit (stages.Lengthening chain at lengthening) }
    ensures counts { StepCounts (D.faults disk.old) (D.faults disk.new) (D.calls disk.old) (D.calls disk.new) result }
    ensures refusals { EndsOnlyBy IsDiskRefusal result }
    ensures fit { KeepsFit (stages.Lengthening chain at lengthening) result }
    ensures falls { FallsIn (stages.Lengthening chain at lengthening) result }
    ensures content { Told (D.content disk.old) (D.content disk.new) (SettlesIn (stages.Lengthening chain at lengthening) host (D.faults disk.new) result) }
{
    match lengthen(&chain, at, lengthening, host, disk) {
        Turn::More(next) => Turn::More(Stage::Lengthening(chain, at, next)),
        Turn::Done(()) => Turn::More(Stage::Lengths(chain, at + 1)),
        Turn::Ended(_, refusal) => Turn::Ended((), refusal),
    }
}

// The same of the layer itself. Where none stands there, there is nothing to do.
fn lengthen<D: SharedDisk>(
    chain: &Chain,
    at: usize,
    lengthening: Lengthening,
    host: HostId,
    disk: &mut D,
) -> Turn<Lengthening, (), ()>
    ensures counts { StepCounts (D.faults disk.old) (D.faults disk.new) (D.calls disk.old) (D.calls disk.new) result }
    ensures refusals { EndsOnlyBy IsDiskRefusal result }
    ensures falls { NearsEnd (λ _. Unit {0}) steps_left (steps_left lengthening) result }
    ensures content { Told (D.content disk.old) (D.content disk.new) (LengthensAt chain.now at lengthening host (D.faults disk.new) result) }
{
    match chain.volumes().get(at) {
        Some(OpenVolume::Cow(layer)) => lengthening.step(host, layer, disk),
        _ => Turn::Done(()),
    }
}
