// The sector that makes all the entries at once.
ghost use Rattle.std.specs.Prelude.{◌≡◌, ◌+◌, ◌-◌, ◌^◌, min};
ghost use Rattle.shared_disk.specs.Calls.{Told};
ghost use Rattle.shared_disk.specs.Step.{EndsOnlyBy, IsDiskRefusal, IsLast, NearsEnd, StepCounts};
ghost use Rattle.layer_linking.specs.Calls.{IsSameLinking, SyncsEntered, WritesLaid, steps_left};

use crate::linking::{Linking, Stage};
use qcow_layer::Layer;
use sd_names::{HostId, Turn};
use shared_disk::{SharedDisk, refusal_for};

/// The sector is written.
pub(crate) fn write_laid<D: SharedDisk>(
    linking: Linking,
    at: u64,
    sector: [u8; 512],
    layer: &Layer,
    host: HostId,
    disk: &mut D,
) -> Turn<Linking, (), ()>
    ensures counts { StepCounts (D.faults disk.old) (D.faults disk.new) (D.calls disk.old) (D.calls disk.new) result }
    ensures counted { D.calls disk.new ≡ min (D.calls disk.old + 1) (2 ^ 64 - 1) }
    ensures refusals { EndsOnlyBy IsDiskRefusal result }
    ensures keeps { NearsEnd (IsSameLinking linking) (steps_left layer.now) 2 result }
    ensures content { Told (D.content disk.old) (D.content disk.new) (WritesLaid linking at sector layer.now host (D.faults disk.new) result) }
{
    match disk.write_at(host, layer.place(), at / 512 * 512, &sector) {
        Err(answer) => Turn::Ended((), refusal_for(answer, disk)),
        Ok(()) => Turn::More(Linking {
            links: linking.links,
            table: linking.table,
            stage: Stage::Entered,
        }),
    }
}

/// The sector is put onto the medium.
pub(crate) fn sync_entered<D: SharedDisk>(
    layer: &Layer,
    host: HostId,
    disk: &mut D,
) -> Turn<Linking, (), ()>
    ensures counts { StepCounts (D.faults disk.old) (D.faults disk.new) (D.calls disk.old) (D.calls disk.new) result }
    ensures counted { D.calls disk.new ≡ min (D.calls disk.old + 1) (2 ^ 64 - 1) }
    ensures refusals { EndsOnlyBy IsDiskRefusal result }
    ensures last { IsLast result }
    ensures content { Told (D.content disk.old) (D.content disk.new) (SyncsEntered layer.now host (D.faults disk.new) result) }
{
    match disk.sync(host, layer.place()) {
        Err(answer) => Turn::Ended((), refusal_for(answer, disk)),
        Ok(()) => Turn::Done(()),
    }
}
