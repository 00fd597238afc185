// The preparing of a write, with a layer of an open chain.
ghost use Rattle.std.specs.Prelude.{◌≡◌, length};
ghost use Rattle.shared_disk.specs.Calls.{IsAligned, Told};
ghost use Rattle.shared_disk.specs.Step.{EndsOnlyBy, StepCounts};
ghost use Rattle.volume_chain.specs.Chain.{open_in};
ghost use Rattle.volume_chain.specs.Layers.{IsLayerAt};
ghost use Rattle.write_planning.specs.Span.{at_of, length_of};
ghost use Rattle.write_preparing.specs.Preparing.{Plans, span_in};
ghost use Rattle.guest_steps.specs.Preparing.{FallsAt, IsLent, IsStepRefusal, PreparesAt};

use sd_names::{HostId, Turn};
use shared_disk::SharedDisk;
use volume_chain::Chain;
use write_preparing::{Placed, Preparing};

/// A step of the preparing of a write, with the layer of the volume with this index of the chain's path. It makes at most one call
/// of the disk; the part is the same in each step. 71, 120 and 122 alone.
pub fn prepare<D: SharedDisk>(
    index: usize,
    work: Preparing,
    host: HostId,
    chain: &mut Chain,
    disk: &mut D,
    part: &[u8],
) -> Turn<Preparing, Placed, ()>
    requires layer { IsLayerAt (open_in chain.old) index }
    requires part { length part.now ≡ length_of (span_in work) }
    requires at { IsAligned (at_of (span_in work)) }
    requires length { IsAligned (length_of (span_in work)) }
    ensures counts { StepCounts (D.faults disk.old) (D.faults disk.new) (D.calls disk.old) (D.calls disk.new) result }
    ensures refusals { EndsOnlyBy (IsStepRefusal chain.old index) result }
    ensures chain { IsLent chain.old chain.new index }
    ensures falls { FallsAt work chain.old index result }
    ensures plans { Plans work result }
    ensures content { Told (D.content disk.old) (D.content disk.new) (PreparesAt work chain.old chain.new index host (D.faults disk.new) part.now result) }
{
    match work.step(host, chain.layer_mut(index), disk, part) {
        Turn::More(next) => Turn::More(next),
        Turn::Done(placed) => Turn::Done(placed),
        Turn::Ended((), refusal) => Turn::Ended((), refusal),
    }
}
