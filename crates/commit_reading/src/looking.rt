// A step of looking a cluster up in the top.
ghost use Rattle.std.specs.Prelude.{◌≡◌};
ghost use Rattle.shared_disk.specs.Calls.{Told};
ghost use Rattle.shared_disk.specs.Step.{EndsOnlyBy, IsDiskRefusal, StepCounts};
ghost use Rattle.qcow_layer.specs.Looking.{FewerLooks, table_of};
ghost use Rattle.chain_reading.specs.Looking.{LooksAt};

use qcow_format::Entry;
use qcow_layer::{Looked, Looking};
use sd_names::{HostId, Turn};
use shared_disk::SharedDisk;
use volume_chain::{Chain, OpenVolume};

// A cluster of a volume that has none.
const NOT_THERE: Looked = Looked {
    entry: Entry::Absent,
    table: false,
};

/// A step of looking a cluster up in the volume of the path with this index, which is a layer. No other holds clusters.
pub(crate) fn look<D: SharedDisk>(
    chain: &mut Chain,
    index: usize,
    looking: Looking,
    host: HostId,
    disk: &mut D,
) -> Turn<Looking, Looked, ()>
    ensures counts { StepCounts (D.faults disk.old) (D.faults disk.new) (D.calls disk.old) (D.calls disk.new) result }
    ensures refusals { EndsOnlyBy IsDiskRefusal result }
    ensures chain { chain.new ≡ chain.old }
    ensures falls { FewerLooks (table_of looking) result }
    ensures content { Told (D.content disk.old) (D.content disk.new) (LooksAt chain.old index looking host result) }
{
    match chain.volumes().get(index) {
        Some(OpenVolume::Cow(_)) => looking.step(host, chain.layer_mut(index), disk),
        Some(OpenVolume::Raw(_)) => Turn::Done(NOT_THERE),
        None => Turn::Done(NOT_THERE),
    }
}
