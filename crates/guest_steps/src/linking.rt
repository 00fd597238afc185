// The linking of a write's new clusters, with a layer of an open chain.
ghost use Rattle.std.specs.Prelude.{◌≡◌};
ghost use Rattle.shared_disk.specs.Calls.{Told};
ghost use Rattle.shared_disk.specs.Step.{EndsOnlyBy, IsDiskRefusal, StepCounts};
ghost use Rattle.volume_chain.specs.Chain.{open_in};
ghost use Rattle.volume_chain.specs.Layers.{IsLayerAt};
ghost use Rattle.guest_steps.specs.Linking.{FallsAt, LinksIn};

use sd_names::{HostId, Turn};
use shared_disk::SharedDisk;
use volume_chain::Chain;
use write_linking::WriteLinking;

/// A step of the linking of a write's new clusters, with the layer of the volume with this index of the chain's path. It makes at
/// most one call of the disk. At `Done` the part is on the medium; 120 and 122 are the disk's.
pub fn link<D: SharedDisk>(
    index: usize,
    work: WriteLinking,
    host: HostId,
    chain: &mut Chain,
    disk: &mut D,
) -> Turn<WriteLinking, (), ()>
    requires layer { IsLayerAt (open_in chain.old) index }
    ensures counts { StepCounts (D.faults disk.old) (D.faults disk.new) (D.calls disk.old) (D.calls disk.new) result }
    ensures refusals { EndsOnlyBy IsDiskRefusal result }
    ensures chain { chain.new ≡ chain.old }
    ensures falls { FallsAt work chain.old index result }
    ensures content { Told (D.content disk.old) (D.content disk.new) (LinksIn work chain.old index host (D.faults disk.new) result) }
{
    match work.step(host, chain.layer_mut(index), disk) {
        Turn::More(next) => Turn::More(next),
        Turn::Done(()) => Turn::Done(()),
        Turn::Ended((), refusal) => Turn::Ended((), refusal),
    }
}
