// The stages of an opening, and one step.
ghost use Rattle.std.specs.Prelude.{◌≡◌, ℕ, false};
ghost use Rattle.shared_disk.specs.Calls.{Told};
ghost use Rattle.shared_disk.specs.Step.{EndsOnlyBy, StepCounts, TurnFaults};
ghost use Rattle.qcow_layer.specs.Left.{Falls, StaysInside};
ghost use Rattle.qcow_layer.specs.Stages.{IsOpeningRefusal, Steps, takes_map, turn_of};

use crate::reading::read_sector;
use crate::starting::{step_begun, step_sized};
use layer_walk::{Passed, Walk, Work, take, wanted};
use sd_names::{HostId, Id, Place, Refusal, Turn};
use shared_disk::SharedDisk;
use std::alloc::Global;

/// Which layer is opened: the volume, its file, its capacity in bytes, and the greatest that it can get while it is open.
#[derive(Clone, Copy, Debug)]
pub(crate) struct Target {
    pub(crate) volume: Id,
    pub(crate) place: Place,
    pub(crate) capacity: u64,
    pub(crate) greatest: u64,
}

/// What is known of a layer that is opened.
#[derive(Debug, Drop)]
pub(crate) enum Stage {
    /// Nothing.
    Begun,
    /// The file's length, in bytes.
    Sized(u64),
    /// The header, and a part of the tables.
    Walking(Walk),
}

/// What comes of a sector is the next stage, the layer or its first fault.
pub(crate) fn passed(target: Target, passed: Passed) -> Turn<Stage, Work, ()>
    ensures turn { result ≡ turn_of target passed }
    ensures cause { (before after : ℕ) → after ≡ before → TurnFaults before after result }
    ensures refusals { EndsOnlyBy (IsOpeningRefusal false) result }
{
    match passed {
        Passed::More(walk) => Turn::More(Stage::Walking(walk)),
        Passed::Sound(work) => Turn::Done(work),
        Passed::Fault(fault) => Turn::Ended((), Refusal::LayerRefused(target.volume, fault)),
    }
}

// One sector of the walk.
fn step_walking<D: SharedDisk>(
    target: Target,
    host: HostId,
    disk: &mut D,
    walk: Walk,
) -> Turn<Stage, Work, ()>
    ensures counts { StepCounts (D.faults disk.old) (D.faults disk.new) (D.calls disk.old) (D.calls disk.new) result }
    ensures refusals { EndsOnlyBy (IsOpeningRefusal false) result }
    ensures inside { StaysInside (Stage.Walking walk) result }
    ensures falls { Falls (Stage.Walking walk) result }
    ensures content { Told (D.content disk.old) (D.content disk.new) (Steps target host (Stage.Walking walk) result) }
{
    let at = wanted(&walk) / 512 * 512;
    match read_sector(host, disk, target.place, at) {
        Err(refusal) => Turn::Ended((), refusal),
        Ok(sector) => passed(target, take(target.capacity, walk, sector)),
    }
}

/// At most one call of the disk.
pub(crate) fn step_stage<D: SharedDisk>(
    alloc: Global,
    target: Target,
    host: HostId,
    disk: &mut D,
    stage: Stage,
) -> Turn<Stage, Work, ()>
    ensures counts { StepCounts (D.faults disk.old) (D.faults disk.new) (D.calls disk.old) (D.calls disk.new) result }
    ensures refusals { EndsOnlyBy (IsOpeningRefusal (takes_map stage)) result }
    ensures inside { StaysInside stage result }
    ensures falls { Falls stage result }
    ensures content { Told (D.content disk.old) (D.content disk.new) (Steps target host stage result) }
{
    match stage {
        Stage::Begun => step_begun(target, host, disk),
        Stage::Sized(length) => step_sized(alloc, target, host, disk, length),
        Stage::Walking(walk) => step_walking(target, host, disk, walk),
    }
}
