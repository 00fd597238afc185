// Opening the chain of an image.
ghost use Rattle.std.specs.Prelude.{◌≡◌, MatchResult};
ghost use Rattle.sd_names.specs.declared.refusal.Refusal.TheVariants as refusal;
ghost use Rattle.shared_disk.specs.Calls.{Told};
ghost use Rattle.shared_disk.specs.Step.{EndsOnlyBy, StepCounts};
ghost use Rattle.chain_gathering.specs.Steps.{IsRise};
ghost use Rattle.volume_chain.specs.declared.stages.Stage.TheVariants as stages;
ghost use Rattle.volume_chain.specs.Opening.{IsBegun, MayRefuse, Meets, Nears, OpensOn, StaysFit};
ghost use Rattle.volume_chain.specs.Stages.{IsStageRefusal, KeepsShape, StageFalls, StageMeets, StageSteps};

use crate::chain::{Chain, Target};
use crate::checking::checked;
use crate::layers::{step_along, step_layer};
use crate::stages::Stage;
use crate::volumes::OpenVolumes;
use chain_gathering::Gathering;
use sd_names::{HostId, Id, NoMemory, Refusal, Turn};
use shared_disk::SharedDisk;
use std::alloc::Global;

/// The opening of an image's chain, in steps of at most one call of the disk: its folder is gathered, the records are
/// checked, and the volumes of the path by which guests read are opened, from the reading volume to its base.
#[derive(Drop)]
pub struct ChainOpening {
    alloc: Global,
    stage: Stage,
}

impl ChainOpening {
    /// The opening of an image of a domain, whose version says how texts are read. It takes the memory for 32 volumes and
    /// for a path of them, and refuses only for want of it.
    pub fn begin(alloc: Global, sd: Id, image: Id, version: u8) -> Result<ChainOpening, Refusal>
        ensures { MatchResult result (λ o. IsBegun o sd image version) (λ refused. refused ≡ refusal.OutOfMemory) }
    {
        let volumes = match OpenVolumes::new(alloc) {
            Ok(volumes) => volumes,
            Err(NoMemory) => return Err(Refusal::OutOfMemory),
        };
        match Gathering::begin(alloc, sd, image, version) {
            Err(refusal) => Err(refusal),
            Ok(gathering) => {
                let target = Target { sd, image, version };
                Ok(ChainOpening {
                    alloc,
                    stage: Stage::Gathering(target, volumes, gathering),
                })
            }
        }
    }

    /// Makes at most one call of the disk. `Done` has the chain where the image can be opened, and a refusal is the first
    /// one that the image has: 68 with the number of texts, above 32; 65 with a text that can't be read; 60; 67 by a
    /// parent; 68 with 0 for a ring; 65 for FORMAT or CAP; 57; and along the path 80 with a layer's first fault, and 67
    /// with what its header names. 120 and 122 come from the disk, 130 where there is no memory for a record or for a
    /// layer's map. At each but 120 nothing is unsynced in the volumes' files and texts.
    pub fn step<D: SharedDisk>(self, host: HostId, disk: &mut D) -> Turn<ChainOpening, Chain, ()>
        ensures counts { StepCounts (D.faults disk.old) (D.faults disk.new) (D.calls disk.old) (D.calls disk.new) result }
        ensures refusals { EndsOnlyBy (MayRefuse self) result }
        ensures fit { StaysFit self result }
        ensures rises { Meets IsRise self result }
        ensures falls { Nears self result }
        ensures content { Told (D.content disk.old) (D.content disk.new) (OpensOn self host result) }
    {
        let alloc = self.alloc;
        match step_stage(alloc, self.stage, host, disk) {
            Turn::More(stage) => Turn::More(ChainOpening { alloc, stage }),
            Turn::Done(chain) => Turn::Done(chain),
            Turn::Ended(_, refusal) => Turn::Ended((), refusal),
        }
    }
}

// One step of a stage.
fn step_stage<D: SharedDisk>(
    alloc: Global,
    stage: Stage,
    host: HostId,
    disk: &mut D,
) -> Turn<Stage, Chain, ()>
    ensures counts { StepCounts (D.faults disk.old) (D.faults disk.new) (D.calls disk.old) (D.calls disk.new) result }
    ensures refusals { EndsOnlyBy (IsStageRefusal stage) result }
    ensures shape { KeepsShape stage result }
    ensures rises { StageMeets IsRise stage result }
    ensures falls { StageFalls stage result }
    ensures content { Told (D.content disk.old) (D.content disk.new) (StageSteps stage host result) }
{
    match stage {
        Stage::Gathering(target, volumes, gathering) => gather(
            target, volumes, gathering, host, disk,
        ),
        Stage::Along(chain) => step_along(alloc, chain, host, disk),
        Stage::Layer(chain, opening) => step_layer(chain, opening, host, disk),
    }
}

// A step of the gathering, behind which the records are checked.
fn gather<D: SharedDisk>(
    target: Target,
    volumes: OpenVolumes,
    gathering: Gathering,
    host: HostId,
    disk: &mut D,
) -> Turn<Stage, Chain, ()>
    ensures counts { StepCounts (D.faults disk.old) (D.faults disk.new) (D.calls disk.old) (D.calls disk.new) result }
    ensures refusals { EndsOnlyBy (IsStageRefusal (stages.Gathering target volumes gathering)) result }
    ensures shape { KeepsShape (stages.Gathering target volumes gathering) result }
    ensures rises { StageMeets IsRise (stages.Gathering target volumes gathering) result }
    ensures falls { StageFalls (stages.Gathering target volumes gathering) result }
    ensures content { Told (D.content disk.old) (D.content disk.new) (StageSteps (stages.Gathering target volumes gathering) host result) }
{
    match gathering.step(host, disk) {
        Turn::More(next) => Turn::More(Stage::Gathering(target, volumes, next)),
        Turn::Done(gathered) => checked(target, gathered.into_records(), volumes),
        Turn::Ended(_, refusal) => Turn::Ended((), refusal),
    }
}
