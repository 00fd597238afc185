// Settling an image that was opened.
ghost use Rattle.std.specs.Prelude.{◌≡◌};
ghost use Rattle.shared_disk.specs.Calls.{Told};
ghost use Rattle.shared_disk.specs.Step.{EndsOnlyBy, IsDiskRefusal, StepCounts};
ghost use Rattle.settling_steps.specs.Leftovers.{IsRise};
ghost use Rattle.chain_settling.specs.Fit.{AreValid, IsFit, KeepsFit};
ghost use Rattle.chain_settling.specs.Left.{FallsIn, MeetsAt};
ghost use Rattle.chain_settling.specs.Steps.{SettlesIn};
ghost use Rattle.chain_settling.specs.declared.stages.Stage.TheVariants as stages;

use crate::headers::{step_headers, step_heading};
use crate::lengths::{step_lengthening, step_lengths};
use crate::stages::Stage;
use crate::texts::{step_texts, step_writing};
use sd_names::{HostId, Turn};
use settling_steps::Tidying;
use shared_disk::SharedDisk;
use volume_chain::Chain;

/// The settling of an image that was opened, in steps of at most one call of the disk: temporary names are removed; the
/// files of the path's layers are grown to whole clusters; their headers, and then the texts of all volumes, are made to
/// name the parents that count; and each LEGAL volume's VOLTYPE becomes LEAF exactly where no volume names it. It takes no
/// memory.
#[derive(Drop)]
pub struct Settling {
    stage: Stage,
}

impl Settling {
    ghost use Rattle.chain_settling.specs.Settling.{BeginsTidying, IsBegun, Keeps, Meets, Nears, SettlesOn, stage_of};

    /// The settling of an open image, of which each record is valid, as all are of a chain that was opened. It makes no call of
    /// the disk.
    pub fn begin(chain: Chain) -> Settling
        requires { AreValid chain }
        ensures begun { IsBegun chain result }
        ensures tidies { BeginsTidying chain result }
    {
        let _path = chain.volumes().len();
        let _list = chain.records().len();
        let tidying = Tidying::begin(chain.folder());
        Settling {
            stage: Stage::Tidying(chain, tidying),
        }
    }

    /// Makes at most one call of the disk. `Done` has the chain, with the records and the layers as texts and headers are
    /// then. 120 and 122 come from the disk.
    pub fn step<D: SharedDisk>(self, host: HostId, disk: &mut D) -> Turn<Settling, Chain, ()>
        requires { IsFit (stage_of self) }
        ensures counts { StepCounts (D.faults disk.old) (D.faults disk.new) (D.calls disk.old) (D.calls disk.new) result }
        ensures refusals { EndsOnlyBy IsDiskRefusal result }
        ensures keeps { Keeps self result }
        ensures rises { Meets IsRise self result }
        ensures falls { Nears self result }
        ensures content { Told (D.content disk.old) (D.content disk.new) (SettlesOn self host (D.faults disk.new) result) }
    {
        match step_stage(self.stage, host, disk) {
            Turn::More(stage) => Turn::More(Settling { stage }),
            Turn::Done(chain) => Turn::Done(chain),
            Turn::Ended(_, refusal) => Turn::Ended((), refusal),
        }
    }
}

// One step of a stage.
fn step_stage<D: SharedDisk>(stage: Stage, host: HostId, disk: &mut D) -> Turn<Stage, Chain, ()>
    requires { IsFit stage }
    ensures counts { StepCounts (D.faults disk.old) (D.faults disk.new) (D.calls disk.old) (D.calls disk.new) result }
    ensures refusals { EndsOnlyBy IsDiskRefusal result }
    ensures fit { KeepsFit stage result }
    ensures rises { MeetsAt IsRise stage result }
    ensures falls { FallsIn stage result }
    ensures content { Told (D.content disk.old) (D.content disk.new) (SettlesIn stage host (D.faults disk.new) result) }
{
    match stage {
        Stage::Tidying(chain, tidying) => tidy(chain, tidying, host, disk),
        Stage::Lengths(chain, at) => step_lengths(chain, at),
        Stage::Lengthening(chain, at, lengthening) => step_lengthening(
            chain,
            at,
            lengthening,
            host,
            disk,
        ),
        Stage::Headers(chain, at) => step_headers(chain, at),
        Stage::Heading(chain, at, rebasing) => step_heading(chain, at, rebasing, host, disk),
        Stage::Texts(chain, part, at) => step_texts(chain, part, at),
        Stage::Writing(chain, part, at, write) => step_writing(chain, part, at, write, host, disk),
    }
}

// A step of the removal of temporary names. Behind it the lengths follow.
fn tidy<D: SharedDisk>(
    chain: Chain,
    tidying: Tidying,
    host: HostId,
    disk: &mut D,
) -> Turn<Stage, Chain, ()>
    requires { IsFit (stages.Tidying chain tidying) }
    ensures counts { StepCounts (D.faults disk.old) (D.faults disk.new) (D.calls disk.old) (D.calls disk.new) result }
    ensures refusals { EndsOnlyBy IsDiskRefusal result }
    ensures fit { KeepsFit (stages.Tidying chain tidying) result }
    ensures rises { MeetsAt IsRise (stages.Tidying chain tidying) result }
    ensures falls { FallsIn (stages.Tidying chain tidying) result }
    ensures content { Told (D.content disk.old) (D.content disk.new) (SettlesIn (stages.Tidying chain tidying) host (D.faults disk.new) result) }
{
    match tidying.step(host, disk) {
        Turn::More(next) => Turn::More(Stage::Tidying(chain, next)),
        Turn::Done(()) => Turn::More(Stage::Lengths(chain, 0)),
        Turn::Ended(_, refusal) => Turn::Ended((), refusal),
    }
}
