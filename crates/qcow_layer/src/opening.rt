// Opening a layer: it is found sound, or its first fault is told.
ghost use Rattle.std.specs.Prelude.{◌≡◌, MatchResult};
ghost use Rattle.shared_disk.specs.Calls.{Told};
ghost use Rattle.shared_disk.specs.Step.{EndsOnlyBy, StepCounts};
ghost use Rattle.qcow_layer.specs.Stages.{IsOpeningRefusal};

use crate::layer::Layer;
use crate::stages::{Stage, Target, step_stage};
use sd_names::{HostId, Id, Place, Refusal, Turn};
use shared_disk::SharedDisk;
use std::alloc::Global;

/// The opening of a layer, in steps of at most one call of the disk: the file's length, its header, then what its tables
/// name, in the order of the positions, and last the counts of its clusters.
#[derive(Drop)]
pub struct Opening {
    alloc: Global,
    target: Target,
    stage: Stage,
}

impl Opening {
    ghost use Rattle.qcow_layer.specs.Opening.{IsBegun, KeepsInside, KeepsTarget, NearsEnd, OpensOn, may_lack_memory};

    /// The opening of the layer of a volume, whose file stands at `place` and whose capacity is so many bytes, and
    /// becomes at most `greatest` while the layer is open. It takes no memory yet, and never refuses.
    pub fn begin(
        alloc: Global,
        volume: Id,
        place: Place,
        capacity: u64,
        greatest: u64,
    ) -> Result<Opening, Refusal>
        ensures { MatchResult result (λ opening. IsBegun opening volume place capacity greatest) (λ _. ⊥) }
    {
        Ok(Opening {
            alloc,
            target: Target {
                volume,
                place,
                capacity,
                greatest,
            },
            stage: Stage::Begun,
        })
    }

    /// Makes at most one call of the disk. `Done` comes where the layer is sound, `LayerRefused` with its first fault
    /// where it isn't, `OutOfMemory` where the length is known and there is no room for a bit per cluster.
    pub fn step<D: SharedDisk>(self, host: HostId, disk: &mut D) -> Turn<Opening, Layer, ()>
        ensures counts { StepCounts (D.faults disk.old) (D.faults disk.new) (D.calls disk.old) (D.calls disk.new) result }
        ensures refusals { EndsOnlyBy (IsOpeningRefusal (may_lack_memory self)) result }
        ensures keeps { KeepsTarget self result }
        ensures inside { KeepsInside self result }
        ensures falls { NearsEnd self result }
        ensures content { Told (D.content disk.old) (D.content disk.new) (OpensOn self host result) }
    {
        let alloc = self.alloc;
        let target = self.target;
        match step_stage(alloc, target, host, disk, self.stage) {
            Turn::More(stage) => Turn::More(Opening {
                alloc,
                target,
                stage,
            }),
            Turn::Done(work) => Turn::Done(Layer { target, work }),
            Turn::Ended(_, refusal) => Turn::Ended((), refusal),
        }
    }
}
