// A layer gets another backing file.
ghost use Rattle.std.specs.Prelude.{◌≡◌, ◌/◌, Some, ◌+◌, ◌-◌, ◌^◌, min};
ghost use Rattle.sd_names.specs.Id.{IsIdBytes};
ghost use Rattle.shared_disk.specs.Calls.{IsAligned, Told};
ghost use Rattle.shared_disk.specs.Step.{EndsOnlyBy, IsDiskRefusal, NearsEnd, StepCounts};

use crate::header::{lay, name_place, name_sector, rebased};
use layer_creating::Backing;
use qcow_layer::Layer;
use sd_names::{Absence, HostId, Refusal, Turn};
use shared_disk::{SharedDisk, refusal_for};

/// How far a rebasing is.
#[derive(Clone, Copy, Debug)]
pub enum Stage {
    /// Nothing has changed.
    Begun,
    /// The new name stands beside the old one, not yet synced.
    Named,
    /// It is on the medium.
    Synced,
    /// The first sector of the file, with the new header.
    Laid([u8; 512]),
    /// It is written, and not yet synced.
    Headed,
}

/// The change of a layer's backing file, in steps of one call of the disk: the name is written where the present one doesn't
/// stand, and synced; then the header is written, and synced.
#[derive(Clone, Copy, Debug)]
pub struct Rebasing {
    backing: Backing,
    stage: Stage,
    ghost bytes: { IsIdBytes backing.parent.0 },
}

impl Rebasing {
    ghost use Rattle.layer_heading.specs.Rebasing.{CallOf, IsAt, IsSameRebasing, KeepsLayer, LaysHeader, Steps, at_stage, backing_of, rebasing_left, stage_of};
    ghost use Rattle.layer_heading.specs.Writing.{SyncsThen, WritesThen};
    ghost use Rattle.sd_names.specs.Turn.{MatchTurn};
    ghost use Rattle.qcow_layer.specs.Opening.{header_kept, place_kept};
    ghost use Rattle.layer_creating.specs.New.{name_sector};
    ghost use Rattle.layer_heading.specs.Rebased.{name_place};
    ghost use Rattle.sd_names.specs.declared.turn.Turn.TheVariants.{More, Done};

    /// The change of a layer's backing file to this one.
    pub fn begin(backing: Backing) -> Rebasing
        ensures backing { backing_of result ≡ backing }
        ensures stage { stage_of result ≡ Stage.Begun }
    {
        backing.parent.has_sixteen_bytes();
        Rebasing {
            backing,
            stage: Stage::Begun,
        }
    }

    /// Makes one call of the disk. At `Done` the header on the medium names the new backing file, and the layer has it and
    /// the parent; before that the layer stays. 122 comes where the file isn't as the layer knows it.
    pub fn step<D: SharedDisk>(
        self,
        host: HostId,
        layer: &mut Layer,
        disk: &mut D,
    ) -> Turn<Rebasing, (), ()>
        ensures counts { StepCounts (D.faults disk.old) (D.faults disk.new) (D.calls disk.old) (D.calls disk.new) result }
        ensures counted { D.calls disk.new ≡ min (D.calls disk.old + 1) (2 ^ 64 - 1) }
        ensures refusals { EndsOnlyBy IsDiskRefusal result }
        ensures falls { NearsEnd (IsSameRebasing self) rebasing_left (rebasing_left self) result }
        ensures layer { KeepsLayer self layer.old layer.new result }
        ensures call { Told (D.content disk.old) (D.content disk.new) (CallOf self layer.old host (D.faults disk.new) result) }
        ensures content { Told (D.content disk.old) (D.content disk.new) (Steps self layer.old layer.new host (D.faults disk.new) result) }
    {
        match self.stage {
            Stage::Begun => {
                let at = name_place(layer.header());
                let sector = name_sector(&self.backing);
                self.write(host, layer, disk, at, &sector, Stage::Named)
            }
            Stage::Named => self.sync_name(host, layer, disk),
            Stage::Synced => self.lay_header(host, layer, disk),
            Stage::Laid(sector) => self.write(host, layer, disk, 0, &sector, Stage::Headed),
            Stage::Headed => self.sync_header(host, layer, disk),
        }
    }

    // The rebasing in another stage.
    fn at(self, stage: Stage) -> Rebasing
        ensures { result ≡ at_stage self stage }
    {
        Rebasing {
            backing: self.backing,
            stage,
        }
    }

    // A sector is written at a place of the file, in bytes.
    fn write<D: SharedDisk>(
        self,
        host: HostId,
        layer: &Layer,
        disk: &mut D,
        at: u64,
        sector: &[u8; 512],
        next: Stage,
    ) -> Turn<Rebasing, (), ()>
        requires { IsAligned at }
        ensures counts { StepCounts (D.faults disk.old) (D.faults disk.new) (D.calls disk.old) (D.calls disk.new) result }
        ensures counted { D.calls disk.new ≡ min (D.calls disk.old + 1) (2 ^ 64 - 1) }
        ensures next { MatchTurn result (λ r. r ≡ at_stage self next) (λ _. ⊥) (λ _ refusal. IsDiskRefusal refusal) }
        ensures content { Told (D.content disk.old) (D.content disk.new) (WritesThen layer.now host (at / 512) sector.now (D.faults disk.new) (More (at_stage self next)) result) }
    {
        match disk.write_at(host, layer.place(), at, sector) {
            Ok(()) => Turn::More(self.at(next)),
            Err(answer) => Turn::Ended((), refusal_for(answer, disk)),
        }
    }

    // The name is put onto the medium.
    fn sync_name<D: SharedDisk>(
        self,
        host: HostId,
        layer: &Layer,
        disk: &mut D,
    ) -> Turn<Rebasing, (), ()>
        ensures counts { StepCounts (D.faults disk.old) (D.faults disk.new) (D.calls disk.old) (D.calls disk.new) result }
        ensures counted { D.calls disk.new ≡ min (D.calls disk.old + 1) (2 ^ 64 - 1) }
        ensures next { MatchTurn result (λ r. r ≡ at_stage self Stage.Synced) (λ _. ⊥) (λ _ refusal. IsDiskRefusal refusal) }
        ensures content { Told (D.content disk.old) (D.content disk.new) (SyncsThen layer.now host (D.faults disk.new) (More (at_stage self Stage.Synced)) result) }
    {
        match disk.sync(host, layer.place()) {
            Ok(()) => Turn::More(self.at(Stage::Synced)),
            Err(answer) => Turn::Ended((), refusal_for(answer, disk)),
        }
    }

    // The first sector is read, and the new header laid over it.
    fn lay_header<D: SharedDisk>(
        self,
        host: HostId,
        layer: &Layer,
        disk: &mut D,
    ) -> Turn<Rebasing, (), ()>
        ensures counts { StepCounts (D.faults disk.old) (D.faults disk.new) (D.calls disk.old) (D.calls disk.new) result }
        ensures counted { D.calls disk.new ≡ min (D.calls disk.old + 1) (2 ^ 64 - 1) }
        ensures next { MatchTurn result (λ r. IsAt self r) (λ _. ⊥) (λ _ refusal. IsDiskRefusal refusal) }
        ensures content { Told (D.content disk.old) (D.content disk.new) (LaysHeader self layer.now host (D.faults disk.new) result) }
    {
        let mut first = [0; 512];
        match disk.read_at(host, layer.place(), 0, &mut first) {
            Err(answer) => Turn::Ended((), refusal_for(answer, disk)),
            Ok(_) => match lay(&rebased(layer.header(), self.backing), first) {
                Some(sector) => Turn::More(self.at(Stage::Laid(sector))),
                None => Turn::Ended((), Refusal::Vanished(Absence::OutOfFile)),
            },
        }
    }

    // The header is put onto the medium, and the layer has it.
    fn sync_header<D: SharedDisk>(
        self,
        host: HostId,
        layer: &mut Layer,
        disk: &mut D,
    ) -> Turn<Rebasing, (), ()>
        ensures counts { StepCounts (D.faults disk.old) (D.faults disk.new) (D.calls disk.old) (D.calls disk.new) result }
        ensures counted { D.calls disk.new ≡ min (D.calls disk.old + 1) (2 ^ 64 - 1) }
        ensures last { MatchTurn result (λ _. ⊥) (λ _. Unit {0}) (λ _ refusal. IsDiskRefusal refusal) }
        ensures layer { KeepsLayer self layer.old layer.new result }
        ensures content { Told (D.content disk.old) (D.content disk.new) (SyncsThen layer.old host (D.faults disk.new) (Done tt) result) }
    {
        match disk.sync(host, layer.place()) {
            Ok(()) => {
                let header = rebased(layer.header(), self.backing);
                layer.set_header(header, Some(self.backing.parent));
                Turn::Done(())
            }
            Err(answer) => Turn::Ended((), refusal_for(answer, disk)),
        }
    }
}
