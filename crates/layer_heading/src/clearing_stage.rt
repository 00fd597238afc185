// The steps of a clearing, by its stage.
ghost use Rattle.std.specs.Prelude.{◌≡◌};
ghost use Rattle.shared_disk.specs.Calls.{Told};
ghost use Rattle.shared_disk.specs.Step.{EndsOnlyBy, IsDiskRefusal, NearsEnd, StepCounts};

use crate::header::{cleared, cleared_sector};
use qcow_layer::Layer;
use sd_names::{HostId, Turn};
use shared_disk::{SharedDisk, refusal_for};

/// How far a clearing is.
#[derive(Clone, Copy, Debug)]
pub(crate) enum ClearingStage {
    /// Nothing has changed.
    Begun,
    /// The first sector of the file, without the features.
    Laid([u8; 512]),
    /// It is written, and not yet synced.
    Headed,
}

impl ClearingStage {
    ghost use Rattle.layer_heading.specs.Clearing.{IsLaid, KeepsCleared, StageCalls, StageClears, laid_next, stage_left};
    ghost use Rattle.layer_heading.specs.Writing.{ReadsThen, SyncsThen, WritesThen};
    ghost use Rattle.layer_heading.specs.declared.clearing_stage.ClearingStage.TheVariants.{Begun, Headed};
    ghost use Rattle.sd_names.specs.Turn.{MatchTurn};
    ghost use Rattle.sd_names.specs.declared.turn.Turn.TheVariants.{More, Done};

    /// One step: a call of the disk, or none where there is nothing to clear.
    pub(crate) fn step<D: SharedDisk>(
        self,
        host: HostId,
        layer: &mut Layer,
        disk: &mut D,
    ) -> Turn<ClearingStage, (), ()>
        ensures counts { StepCounts (D.faults disk.old) (D.faults disk.new) (D.calls disk.old) (D.calls disk.new) result }
        ensures refusals { EndsOnlyBy IsDiskRefusal result }
        ensures falls { NearsEnd (λ _. Unit {0}) stage_left (stage_left self) result }
        ensures layer { KeepsCleared layer.old layer.new result }
        ensures call { Told (D.content disk.old) (D.content disk.new) (StageCalls self layer.old host (D.faults disk.new) result) }
        ensures content { Told (D.content disk.old) (D.content disk.new) (StageClears self layer.old layer.new host (D.faults disk.new) result) }
    {
        match self {
            ClearingStage::Begun => {
                if layer.header().autoclear_features == 0 {
                    Turn::Done(())
                } else {
                    ClearingStage::lay(host, layer, disk)
                }
            }
            ClearingStage::Laid(sector) => ClearingStage::write(host, layer, disk, &sector),
            ClearingStage::Headed => ClearingStage::sync(host, layer, disk),
        }
    }

    // The first sector is read, and the features in it are cleared.
    fn lay<D: SharedDisk>(host: HostId, layer: &Layer, disk: &mut D) -> Turn<ClearingStage, (), ()>
        ensures counts { StepCounts (D.faults disk.old) (D.faults disk.new) (D.calls disk.old) (D.calls disk.new) result }
        ensures next { MatchTurn result IsLaid (λ _. ⊥) (λ _ refusal. IsDiskRefusal refusal) }
        ensures content { Told (D.content disk.old) (D.content disk.new) (ReadsThen layer.now host (D.faults disk.new) laid_next result) }
    {
        let mut first = [0; 512];
        match disk.read_at(host, layer.place(), 0, &mut first) {
            Ok(_) => Turn::More(ClearingStage::Laid(cleared_sector(first))),
            Err(answer) => Turn::Ended((), refusal_for(answer, disk)),
        }
    }

    // The first sector is written.
    fn write<D: SharedDisk>(
        host: HostId,
        layer: &Layer,
        disk: &mut D,
        sector: &[u8; 512],
    ) -> Turn<ClearingStage, (), ()>
        ensures counts { StepCounts (D.faults disk.old) (D.faults disk.new) (D.calls disk.old) (D.calls disk.new) result }
        ensures next { MatchTurn result (λ c. c ≡ Headed) (λ _. ⊥) (λ _ refusal. IsDiskRefusal refusal) }
        ensures content { Told (D.content disk.old) (D.content disk.new) (WritesThen layer.now host 0 sector.now (D.faults disk.new) (More Headed) result) }
    {
        match disk.write_at(host, layer.place(), 0, sector) {
            Ok(()) => Turn::More(ClearingStage::Headed),
            Err(answer) => Turn::Ended((), refusal_for(answer, disk)),
        }
    }

    // It is put onto the medium, and the layer has the header without the features.
    fn sync<D: SharedDisk>(
        host: HostId,
        layer: &mut Layer,
        disk: &mut D,
    ) -> Turn<ClearingStage, (), ()>
        ensures counts { StepCounts (D.faults disk.old) (D.faults disk.new) (D.calls disk.old) (D.calls disk.new) result }
        ensures last { MatchTurn result (λ _. ⊥) (λ _. Unit {0}) (λ _ refusal. IsDiskRefusal refusal) }
        ensures layer { KeepsCleared layer.old layer.new result }
        ensures content { Told (D.content disk.old) (D.content disk.new) (SyncsThen layer.old host (D.faults disk.new) (Done tt) result) }
    {
        match disk.sync(host, layer.place()) {
            Ok(()) => {
                let header = cleared(layer.header());
                let parent = layer.parent();
                layer.set_header(header, parent);
                Turn::Done(())
            }
            Err(answer) => Turn::Ended((), refusal_for(answer, disk)),
        }
    }
}
