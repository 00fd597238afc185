// The commit of a cluster.
ghost use Rattle.std.specs.Prelude.{◌≡◌, length};
ghost use Rattle.shared_disk.specs.Calls.{Told};
ghost use Rattle.shared_disk.specs.Step.{EndsOnlyBy, StepCounts};
ghost use Rattle.cluster_committing.specs.Committing.{CommitsIn};
ghost use Rattle.cluster_committing.specs.Way.{IsOnWayIn, KeepsWay, StageFalls, StageKeeps, StageRefusal, StandsOpenFor};

use crate::stage::Stage;
use crate::stages::{read_piece, write_piece};
use commit_reading::CommitReading;
use sd_names::{HostId, Turn};
use shared_disk::SharedDisk;
use volume_chain::{Chain, Subchain};

// One step of the commit of a cluster.
fn step_stage<D: SharedDisk>(
    sub: Subchain,
    cluster: u64,
    stage: Stage,
    host: HostId,
    chain: &mut Chain,
    disk: &mut D,
    part: &mut [u8],
    room: &mut [u8],
) -> Turn<Stage, (), ()>
    requires part { length part.old ≡ 65536 }
    requires room { length room.old ≡ 65536 }
    requires base { StandsOpenFor chain.old sub }
    requires way { IsOnWayIn stage sub cluster chain.old }
    ensures counts { StepCounts (D.faults disk.old) (D.faults disk.new) (D.calls disk.old) (D.calls disk.new) result }
    ensures refusals { EndsOnlyBy (StageRefusal stage chain.old) result }
    ensures chain { StageKeeps stage chain.old chain.new }
    ensures way { KeepsWay sub cluster chain.new result }
    ensures falls { StageFalls stage chain.old result }
    ensures content { Told (D.content disk.old) (D.content disk.new) (CommitsIn stage sub cluster chain.old chain.new host part.old part.new room.old room.new result) }
{
    match stage {
        Stage::Reading(work) => read_piece(sub, cluster, work, host, chain, disk, part),
        Stage::Writing(pieces, work) => {
            let piece = &part[..pieces.length()];
            write_piece(sub, cluster, pieces, work, host, chain, disk, piece, room)
        }
    }
}

/// The commit of a cluster that the top of two neighbouring volumes holds: its bytes go into the base, zeros where its entry says
/// so, in steps of at most one call of the disk. A cluster that the top doesn't hold is left as it is, and so is what only one of
/// the volumes has.
#[derive(Drop)]
pub struct CommitCluster {
    pub(crate) sub: Subchain,
    pub(crate) cluster: u64,
    pub(crate) stage: Stage,
}

impl CommitCluster {
    ghost use Rattle.cluster_committing.specs.Commit.{Commits, Falls, IsBegun, IsCommitRefusal, IsCommittedChain, IsOnWay, StaysOnWay};

    /// The commit of a cluster of the top, by its number on the virtual disk.
    pub fn begin(sub: &Subchain, cluster: u64) -> CommitCluster
        ensures { IsBegun sub.now cluster result }
    {
        CommitCluster {
            sub: *sub,
            cluster,
            stage: Stage::Reading(CommitReading::begin(sub, cluster)),
        }
    }

    /// Makes at most one call of the disk. The part and the room have 65,536 bytes each, and hold what the step before left in
    /// them. At `Done` the base holds the cluster, on the medium, or the top doesn't hold it. 71 comes where room is short in the
    /// base, and changes nothing; 120 and 122 are the disk's. No memory is taken.
    pub fn step<D: SharedDisk>(
        self,
        host: HostId,
        chain: &mut Chain,
        disk: &mut D,
        part: &mut [u8],
        room: &mut [u8],
    ) -> Turn<CommitCluster, (), ()>
        requires part { length part.old ≡ 65536 }
        requires room { length room.old ≡ 65536 }
        requires way { IsOnWay self chain.old }
        ensures counts { StepCounts (D.faults disk.old) (D.faults disk.new) (D.calls disk.old) (D.calls disk.new) result }
        ensures refusals { EndsOnlyBy (IsCommitRefusal self chain.old) result }
        ensures chain { IsCommittedChain self chain.old chain.new }
        ensures way { StaysOnWay self chain.new result }
        ensures falls { Falls self chain.old result }
        ensures content { Told (D.content disk.old) (D.content disk.new) (Commits self chain.old chain.new host part.old part.new room.old room.new result) }
    {
        let sub = self.sub;
        let cluster = self.cluster;
        match step_stage(sub, cluster, self.stage, host, chain, disk, part, room) {
            Turn::More(stage) => Turn::More(CommitCluster {
                sub,
                cluster,
                stage,
            }),
            Turn::Done(()) => Turn::Done(()),
            Turn::Ended((), refusal) => Turn::Ended((), refusal),
        }
    }
}
