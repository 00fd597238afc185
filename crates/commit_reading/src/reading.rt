// The read of what is committed.
ghost use Rattle.std.specs.Prelude.{◌≡◌, length};
ghost use Rattle.shared_disk.specs.Calls.{Told};
ghost use Rattle.shared_disk.specs.Step.{EndsOnlyBy, IsDiskRefusal, StepCounts};

use crate::pieces::Pieces;
use chain_reading::ReadPart;
use qcow_layer::Looking;
use sd_names::{HostId, Turn};
use shared_disk::SharedDisk;
use volume_chain::{Chain, Subchain};

/// How far the read of a cluster is.
#[derive(Clone, Copy, Debug)]
pub(crate) enum Stage {
    /// The top wasn't asked yet whether it holds the cluster.
    Begun,
    /// The top's entry is looked up.
    Looking(Looking),
    /// The top holds the cluster, and the next piece of these is to be read.
    Next(Pieces),
    /// It is read.
    Reading(Pieces, ReadPart),
}

/// The read of a cluster that the top of two volumes holds, up to the end of its next piece, in steps of at most one call of the
/// disk: the cluster's entry is looked up, and the piece is read through the chain from the top on, as zeros where the entry says
/// so. Of a cluster that the top doesn't hold nothing is read.
#[derive(Clone, Copy, Debug)]
pub struct CommitReading {
    pub(crate) sub: Subchain,
    pub(crate) cluster: u64,
    pub(crate) stage: Stage,
}

impl CommitReading {
    ghost use Rattle.commit_reading.specs.Left.{Falls};
    ghost use Rattle.commit_reading.specs.Reading.{IsBegun, IsBehind, IsOnWay, ReadsOn, StaysOnWay};

    /// The read of the first piece of a cluster of the top, by its number on the virtual disk.
    pub fn begin(sub: &Subchain, cluster: u64) -> CommitReading
        ensures { IsBegun sub.now cluster result }
    {
        CommitReading {
            sub: *sub,
            cluster,
            stage: Stage::Begun,
        }
    }

    /// The read of the piece behind the next one of these.
    pub fn behind(sub: &Subchain, cluster: u64, pieces: &Pieces) -> CommitReading
        ensures { IsBehind sub.now cluster pieces.now result }
    {
        CommitReading {
            sub: *sub,
            cluster,
            stage: Stage::Next(pieces.behind()),
        }
    }

    /// Makes at most one call of the disk. The part has 65,536 bytes, and holds what the step before left in it. At `Done` the
    /// next piece of what is left of the cluster stands in front of the part; or `None`: nothing of it is left, or the top
    /// doesn't hold it. 120 and 122 alone; no memory is taken.
    pub fn step<D: SharedDisk>(
        self,
        host: HostId,
        chain: &mut Chain,
        disk: &mut D,
        part: &mut [u8],
    ) -> Turn<CommitReading, Option<Pieces>, ()>
        requires part { length part.old ≡ 65536 }
        requires way { IsOnWay self chain.old }
        ensures counts { StepCounts (D.faults disk.old) (D.faults disk.new) (D.calls disk.old) (D.calls disk.new) result }
        ensures refusals { EndsOnlyBy IsDiskRefusal result }
        ensures chain { chain.new ≡ chain.old }
        ensures way { StaysOnWay self chain.old result }
        ensures falls { Falls self chain.old result }
        ensures content { Told (D.content disk.old) (D.content disk.new) (ReadsOn self chain.old host part.old part.new result) }
    {
        match self.stage {
            Stage::Begun => Turn::More(self.ask()),
            Stage::Looking(looking) => self.look(looking, host, chain, disk),
            Stage::Next(pieces) => self.next(pieces),
            Stage::Reading(pieces, read) => {
                let piece = &mut part[..pieces.length()];
                self.read(pieces, read, host, chain, disk, piece)
            }
        }
    }
}
