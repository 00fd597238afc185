// Writing a new cluster, piece by piece.
ghost use Rattle.std.specs.Prelude.{◌≡◌, ◌<◌, ◌≤◌, length};
ghost use Rattle.shared_disk.specs.Calls.{IsPiece, Told};
ghost use Rattle.shared_disk.specs.Step.{EndsOnlyBy, IsDiskRefusal, StepCounts};

use crate::cluster::{Cluster, NewCluster};
use chain_reading::ReadPart;
use sd_names::{HostId, Turn};
use shared_disk::SharedDisk;
use volume_chain::Chain;

/// How far the piece is that is written next.
#[derive(Clone, Copy, Debug)]
pub(crate) enum Stage {
    /// Nothing was read for it.
    Begun,
    /// It is being read.
    Reading(ReadPart),
    /// The room has what was read.
    Read,
}

/// The write of a cluster that has no data yet, whole, into a place of the volume's file that nothing names, in steps of at
/// most one call of the disk. The cluster goes in pieces of up to 65,536 bytes: each is read from the volumes below where it
/// has a sector outside the guest's part and below the capacity, the part is laid over it, zeros past the capacity, and it is
/// written. Nothing is synced.
#[derive(Clone, Copy, Debug)]
pub struct Filling {
    pub(crate) cluster: Cluster,
    /// How many sectors of the cluster are written.
    pub(crate) done: u64,
    pub(crate) stage: Stage,
    ghost more: { done < cluster.count },
}

impl Filling {
    ghost use Rattle.cluster_filling.specs.Calls.{StepsBy};
    ghost use Rattle.cluster_filling.specs.Filling.{FillsOn, IsBegun, KeepsCluster};
    ghost use Rattle.cluster_filling.specs.Left.{Falls};

    /// The write of a cluster, whose size is 4,096 to 2,097,152 bytes.
    pub fn begin(new: NewCluster) -> Filling
        requires low { 4096 ≤ new.width }
        requires high { new.width ≤ 2097152 }
        ensures { IsBegun new result }
    {
        Filling {
            cluster: Cluster::of(new),
            done: 0,
            stage: Stage::Begun,
        }
    }

    /// Makes at most one call of the disk. The part has 512 to 65,536 bytes, a multiple of 512, and is the same in each step;
    /// the room has 65,536 bytes, and holds what the step before left in it. At `Done` the host sees each sector of the cluster
    /// as it is to be. 120 and 122 alone; no memory is taken.
    pub fn step<D: SharedDisk>(
        self,
        host: HostId,
        chain: &mut Chain,
        disk: &mut D,
        part: &[u8],
        room: &mut [u8],
    ) -> Turn<Filling, (), ()>
        requires part { IsPiece (length part.now) }
        requires room { length room.old ≡ 65536 }
        ensures counts { StepCounts (D.faults disk.old) (D.faults disk.new) (D.calls disk.old) (D.calls disk.new) result }
        ensures refusals { EndsOnlyBy IsDiskRefusal result }
        ensures chain { chain.new ≡ chain.old }
        ensures keeps { KeepsCluster self result }
        ensures falls { Falls self chain.old result }
        ensures steps { Told (D.content disk.old) (D.content disk.new) (StepsBy self chain.old host part.now room.old room.new (D.faults disk.new) result) }
        ensures content { Told (D.content disk.old) (D.content disk.new) (FillsOn self chain.old host part.now room.old room.new result) }
    {
        let count = self.cluster.piece(self.done);
        let piece = &mut room[..512 * count];
        self.fill(host, chain, disk, part, piece)
    }
}
