// A layer's file is grown to whole clusters.
ghost use Rattle.std.specs.Prelude.{◌≡◌, ℕ, ◌+◌, ◌-◌, ◌^◌, min};
ghost use Rattle.shared_disk.specs.Calls.{Told};
ghost use Rattle.shared_disk.specs.Step.{EndsOnlyBy, IsDiskRefusal, NearsEnd, StepCounts, TurnFaults};
ghost use Rattle.settling_steps.specs.Lengthening.{IsWholeLength, width_of};

use layer_walk::cluster_bytes;
use qcow_layer::Layer;
use sd_names::{Absence, HostId, Refusal, Turn};
use shared_disk::{SharedDisk, refusal_for};

/// The growth of a layer's file to whole clusters, as a writer of the layer needs it, in steps of one disk call: the file's
/// length is asked, and raised to the next multiple of the cluster size where it isn't one.
#[derive(Clone, Copy, Debug)]
pub enum Lengthening {
    /// The length isn't known.
    Asking,
    /// The file gets this length, in bytes.
    Growing(u64),
}

impl Lengthening {
    ghost use Rattle.settling_steps.specs.Lengthening.{AsksLength, CallOf, GrowsFile, Lengthens, TurnsBy, steps_left};
    ghost use Rattle.settling_steps.specs.declared.lengthening.Lengthening.TheVariants.{Asking};

    /// The growth of a layer's file.
    pub fn begin() -> Lengthening
        ensures { result ≡ Asking }
    {
        Lengthening::Asking
    }

    /// Makes one call of the disk, of two at the most. At `Done` the file is of whole clusters. 120 is the disk's fault; 122
    /// comes where the file isn't there, or has a length of which no multiple of the cluster size above it is below 2^64.
    pub fn step<D: SharedDisk>(
        self,
        host: HostId,
        layer: &Layer,
        disk: &mut D,
    ) -> Turn<Lengthening, (), ()>
        ensures counts { StepCounts (D.faults disk.old) (D.faults disk.new) (D.calls disk.old) (D.calls disk.new) result }
        ensures counted { D.calls disk.new ≡ min (D.calls disk.old + 1) (2 ^ 64 - 1) }
        ensures refusals { EndsOnlyBy IsDiskRefusal result }
        ensures falls { NearsEnd (λ _. Unit {0}) steps_left (steps_left self) result }
        ensures call { Told (D.content disk.old) (D.content disk.new) (CallOf self layer.now (D.faults disk.new) result) }
        ensures content { Told (D.content disk.old) (D.content disk.new) (Lengthens self layer.now host (D.faults disk.new) result) }
    {
        match self {
            Lengthening::Asking => Lengthening::ask(host, layer, disk),
            Lengthening::Growing(length) => Lengthening::grow(length, host, layer, disk),
        }
    }

    // The file's length is asked.
    fn ask<D: SharedDisk>(host: HostId, layer: &Layer, disk: &mut D) -> Turn<Lengthening, (), ()>
        ensures counts { StepCounts (D.faults disk.old) (D.faults disk.new) (D.calls disk.old) (D.calls disk.new) result }
        ensures counted { D.calls disk.new ≡ min (D.calls disk.old + 1) (2 ^ 64 - 1) }
        ensures refusals { EndsOnlyBy IsDiskRefusal result }
        ensures falls { NearsEnd (λ _. Unit {0}) steps_left 2 result }
        ensures content { Told (D.content disk.old) (D.content disk.new) (AsksLength layer.now (D.faults disk.new) result) }
    {
        match disk.length(host, layer.place()) {
            Ok(length) => Lengthening::turn(length, whole_length(layer, length)),
            Err(answer) => Turn::Ended((), refusal_for(answer, disk)),
        }
    }

    // A file of whole clusters stays, and any other one is grown.
    fn turn(length: u64, next: Option<u64>) -> Turn<Lengthening, (), ()>
        ensures turn { TurnsBy length result next }
        ensures refusals { EndsOnlyBy IsDiskRefusal result }
        ensures falls { NearsEnd (λ _. Unit {0}) steps_left 2 result }
        ensures cause { (before after : ℕ) → after ≡ before → TurnFaults before after result }
    {
        match next {
            None => Turn::Ended((), Refusal::Vanished(Absence::OutOfFile)),
            Some(next) => {
                if next == length {
                    Turn::Done(())
                } else {
                    Turn::More(Lengthening::Growing(next))
                }
            }
        }
    }

    // The file gets a length, which is a multiple of 512 already.
    fn grow<D: SharedDisk>(
        length: u64,
        host: HostId,
        layer: &Layer,
        disk: &mut D,
    ) -> Turn<Lengthening, (), ()>
        ensures counts { StepCounts (D.faults disk.old) (D.faults disk.new) (D.calls disk.old) (D.calls disk.new) result }
        ensures counted { D.calls disk.new ≡ min (D.calls disk.old + 1) (2 ^ 64 - 1) }
        ensures refusals { EndsOnlyBy IsDiskRefusal result }
        ensures falls { NearsEnd (λ _. Unit {0}) steps_left 1 result }
        ensures content { Told (D.content disk.old) (D.content disk.new) (GrowsFile length layer.now (D.faults disk.new) result) }
    {
        match disk.grow(host, layer.place(), length / 512 * 512) {
            Ok(()) => Turn::Done(()),
            Err(answer) => Turn::Ended((), refusal_for(answer, disk)),
        }
    }
}

// The least length of whole clusters that isn't below a length, in bytes. None where 64 bits don't hold it.
fn whole_length(layer: &Layer, length: u64) -> Option<u64>
    ensures { IsWholeLength (width_of layer.now) length result }
{
    let size = cluster_bytes(layer.header());
    let rest = length % size;
    if rest == 0 {
        return Some(length);
    }
    length.checked_add(size - rest)
}
