// The header with the new size.
ghost use Rattle.std.specs.Prelude.{◌≡◌};
ghost use Rattle.sd_names.specs.Turn.{MatchTurn};
ghost use Rattle.sd_names.specs.declared.turn.Turn.TheVariants.{Done};
ghost use Rattle.shared_disk.specs.Calls.{Told};
ghost use Rattle.shared_disk.specs.Step.{IsDiskRefusal, StepCounts};
ghost use Rattle.layer_heading.specs.Writing.{SyncsThen, WritesThen};
ghost use Rattle.layer_sizing.specs.Stages.{GoesTo, IsLaid, IsResized, asked_of, going};
ghost use Rattle.layer_sizing.specs.Sizing.{LaysHeader};
ghost use Rattle.layer_sizing.specs.declared.raising.Stage.TheVariants.{Headed};

use crate::raising::{Raising, Stage};
use crate::sizes::{sized, sized_sector};
use crate::sizing::Sizing;
use qcow_layer::Layer;
use sd_names::{HostId, Turn};
use shared_disk::{SharedDisk, refusal_for};

/// The first sector is read, and the size and the length of the L1 table are laid over it.
pub(crate) fn lay_header<D: SharedDisk>(
    raising: Raising,
    host: HostId,
    layer: &Layer,
    disk: &mut D,
) -> Turn<Sizing, (), ()>
    ensures counts { StepCounts (D.faults disk.old) (D.faults disk.new) (D.calls disk.old) (D.calls disk.new) result }
    ensures next { MatchTurn result (GoesTo IsLaid raising) (λ _. ⊥) (λ _ refusal. IsDiskRefusal refusal) }
    ensures content { Told (D.content disk.old) (D.content disk.new) (LaysHeader raising layer.now host (D.faults disk.new) result) }
{
    let mut first = [0; 512];
    match disk.read_at(host, layer.place(), 0, &mut first) {
        Err(answer) => Turn::Ended((), refusal_for(answer, disk)),
        Ok(_) => {
            let sector = sized_sector(layer.header(), raising.capacity, first);
            Turn::More(Sizing::Going(raising.at(Stage::Laid(sector))))
        }
    }
}

/// The first sector is written.
pub(crate) fn write_header<D: SharedDisk>(
    raising: Raising,
    sector: &[u8; 512],
    host: HostId,
    layer: &Layer,
    disk: &mut D,
) -> Turn<Sizing, (), ()>
    ensures counts { StepCounts (D.faults disk.old) (D.faults disk.new) (D.calls disk.old) (D.calls disk.new) result }
    ensures next { MatchTurn result (GoesTo (λ stage. stage ≡ Headed) raising) (λ _. ⊥) (λ _ refusal. IsDiskRefusal refusal) }
    ensures content { Told (D.content disk.old) (D.content disk.new) (WritesThen layer.now host 0 sector.now (D.faults disk.new) (going raising Headed) result) }
{
    match disk.write_at(host, layer.place(), 0, sector) {
        Ok(()) => Turn::More(Sizing::Going(raising.at(Stage::Headed))),
        Err(answer) => Turn::Ended((), refusal_for(answer, disk)),
    }
}

/// It is put onto the medium, and the layer has the new header and the capacity.
pub(crate) fn sync_header<D: SharedDisk>(
    raising: Raising,
    host: HostId,
    layer: &mut Layer,
    disk: &mut D,
) -> Turn<Sizing, (), ()>
    ensures counts { StepCounts (D.faults disk.old) (D.faults disk.new) (D.calls disk.old) (D.calls disk.new) result }
    ensures last { MatchTurn result (λ _. ⊥) (λ _. Unit {0}) (λ _ refusal. IsDiskRefusal refusal) }
    ensures layer { MatchTurn result (λ _. layer.new ≡ layer.old) (λ _. IsResized layer.old (asked_of raising) layer.new) (λ _ _. layer.new ≡ layer.old) }
    ensures content { Told (D.content disk.old) (D.content disk.new) (SyncsThen layer.old host (D.faults disk.new) (Done tt) result) }
{
    match disk.sync(host, layer.place()) {
        Ok(()) => {
            let header = sized(layer.header(), raising.capacity);
            let parent = layer.parent();
            let capacity = layer.capacity().max(raising.capacity);
            layer.set_header(header, parent);
            layer.set_capacity(capacity);
            Turn::Done(())
        }
        Err(answer) => Turn::Ended((), refusal_for(answer, disk)),
    }
}
