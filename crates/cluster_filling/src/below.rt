// Which volume is read for a new cluster.
ghost use Rattle.std.specs.Prelude.{◌≡◌, ◌^◌, ◌<◌};
ghost use Rattle.volume_chain.specs.Chain.{path_in};
ghost use Rattle.cluster_filling.specs.Cluster.{source_on};

use qcow_format::Entry;
use sd_names::Id;
use volume_chain::Chain;

/// The volume that is read for a new cluster's sectors outside the part, where the layer says so of the cluster: the next one
/// of the path behind the volume with this index, or none where the cluster reads as zeros.
pub fn source(chain: &Chain, index: usize, entry: Entry) -> Option<Id>
    requires { index < 2 ^ 63 }
    ensures { result ≡ source_on (path_in chain.now) index entry }
{
    match entry {
        Entry::Absent => match chain.path().get(index + 1) {
            Some(id) => Some(*id),
            None => None,
        },
        Entry::Zero(_) => None,
        Entry::Data(_) => None,
    }
}
