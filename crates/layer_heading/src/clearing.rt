// The features that a writer clears are cleared before a layer's first change.
ghost use Rattle.std.specs.Prelude.{◌≡◌};
ghost use Rattle.shared_disk.specs.Calls.{Told};
ghost use Rattle.shared_disk.specs.Step.{EndsOnlyBy, IsDiskRefusal, NearsEnd, StepCounts};

use crate::clearing_stage::ClearingStage;
use qcow_layer::Layer;
use sd_names::{HostId, Turn};
use shared_disk::SharedDisk;

/// The clearing of a layer's autoclear features (qcow2 specification, "Header"), in steps of one call of the disk at most: the
/// first sector is read, written with these 8 bytes 0 and all others as they were, and synced. Where the layer's header has
/// none, it is done without a call.
#[derive(Clone, Copy, Debug)]
pub struct Clearing {
    stage: ClearingStage,
}

impl Clearing {
    ghost use Rattle.layer_heading.specs.Clearing.{Clears, ClearsBy, KeepsCleared, clearing_left, stage_of, stage_turn};
    ghost use Rattle.layer_heading.specs.declared.clearing_stage.ClearingStage.TheVariants.{Begun};

    /// The clearing of a layer's features.
    pub fn begin() -> Clearing
        ensures { stage_of result ≡ Begun }
    {
        Clearing {
            stage: ClearingStage::Begun,
        }
    }

    /// Makes one call of the disk, or none where there is nothing to clear. At `Done` the header on the medium has no autoclear
    /// features, and the layer has that header; before that the layer stays. 120 is the disk's fault; 122 comes where the file
    /// isn't there or has no sector.
    pub fn step<D: SharedDisk>(
        self,
        host: HostId,
        layer: &mut Layer,
        disk: &mut D,
    ) -> Turn<Clearing, (), ()>
        ensures counts { StepCounts (D.faults disk.old) (D.faults disk.new) (D.calls disk.old) (D.calls disk.new) result }
        ensures refusals { EndsOnlyBy IsDiskRefusal result }
        ensures falls { NearsEnd (λ _. Unit {0}) clearing_left (clearing_left self) result }
        ensures layer { KeepsCleared layer.old layer.new (stage_turn result) }
        ensures call { Told (D.content disk.old) (D.content disk.new) (ClearsBy self layer.old host (D.faults disk.new) result) }
        ensures content { Told (D.content disk.old) (D.content disk.new) (Clears self layer.old layer.new host (D.faults disk.new) result) }
    {
        match self.stage.step(host, layer, disk) {
            Turn::More(stage) => Turn::More(Clearing { stage }),
            Turn::Done(()) => Turn::Done(()),
            Turn::Ended((), refusal) => Turn::Ended((), refusal),
        }
    }
}
