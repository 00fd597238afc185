// The steps of a commit, by its stage.
ghost use Rattle.std.specs.Prelude.{◌≡◌, ◌*◌, ℕ, List, length};
ghost use Rattle.shared_disk.specs.Calls.{Told};
ghost use Rattle.shared_disk.specs.Step.{EndsOnlyBy, IsDiskRefusal, StepCounts};
ghost use Rattle.commit_reading.specs.Pieces.{count_of};
ghost use Rattle.guest_writing.specs.Guest.{IsGuestRefusal, IsWrittenChain};
ghost use Rattle.cluster_committing.specs.Committing.{CommitsIn, CommitsPiece};
ghost use Rattle.cluster_committing.specs.Way.{IsReadingOf, IsWritingOf, KeepsWay, StageFalls, StandsOpenFor};
ghost use Rattle.cluster_committing.specs.declared.stage.Stage.TheVariants as stages;

use crate::stage::Stage;
use commit_reading::{CommitReading, Pieces};
use guest_writing::GuestWrite;
use sd_names::{HostId, Turn};
use shared_disk::SharedDisk;
use volume_chain::{Chain, Subchain};

/// A step of the read of the next piece. Behind it the piece is written to the base.
pub(crate) fn read_piece<D: SharedDisk>(
    sub: Subchain,
    cluster: u64,
    work: CommitReading,
    host: HostId,
    chain: &mut Chain,
    disk: &mut D,
    part: &mut [u8],
) -> Turn<Stage, (), ()>
    requires part { length part.old ≡ 65536 }
    requires base { StandsOpenFor chain.old sub }
    requires way { IsReadingOf work sub cluster chain.old }
    ensures counts { StepCounts (D.faults disk.old) (D.faults disk.new) (D.calls disk.old) (D.calls disk.new) result }
    ensures refusals { EndsOnlyBy IsDiskRefusal result }
    ensures chain { chain.new ≡ chain.old }
    ensures way { KeepsWay sub cluster chain.old result }
    ensures falls { StageFalls (stages.Reading work) chain.old result }
    ensures content { Told (D.content disk.old) (D.content disk.new) (λ d e. (room : List ℕ) → CommitsIn (stages.Reading work) sub cluster chain.old chain.old host part.old part.new room room result d e) }
{
    match work.step(host, chain, disk, part) {
        Turn::More(next) => Turn::More(Stage::Reading(next)),
        Turn::Done(None) => Turn::Done(()),
        Turn::Done(Some(pieces)) => {
            let writing = GuestWrite::begin(sub.base, pieces.at());
            Turn::More(Stage::Writing(pieces, writing))
        }
        Turn::Ended((), refusal) => Turn::Ended((), refusal),
    }
}

/// A step of the write of a piece. Behind it the next one is read.
pub(crate) fn write_piece<D: SharedDisk>(
    sub: Subchain,
    cluster: u64,
    pieces: Pieces,
    work: GuestWrite,
    host: HostId,
    chain: &mut Chain,
    disk: &mut D,
    piece: &[u8],
    room: &mut [u8],
) -> Turn<Stage, (), ()>
    requires piece { length piece.now ≡ 512 * count_of pieces }
    requires room { length room.old ≡ 65536 }
    requires base { StandsOpenFor chain.old sub }
    requires way { IsWritingOf pieces work sub cluster chain.old }
    ensures counts { StepCounts (D.faults disk.old) (D.faults disk.new) (D.calls disk.old) (D.calls disk.new) result }
    ensures refusals { EndsOnlyBy (IsGuestRefusal work chain.old (512 * count_of pieces)) result }
    ensures chain { IsWrittenChain work chain.old chain.new }
    ensures way { KeepsWay sub cluster chain.new result }
    ensures falls { StageFalls (stages.Writing pieces work) chain.old result }
    ensures content { Told (D.content disk.old) (D.content disk.new) (CommitsPiece pieces work sub cluster chain.old chain.new host piece.now room.old room.new result) }
{
    match work.step(host, chain, disk, piece, room) {
        Turn::More(next) => Turn::More(Stage::Writing(pieces, next)),
        Turn::Done(()) => {
            let reading = CommitReading::behind(&sub, cluster, &pieces);
            Turn::More(Stage::Reading(reading))
        }
        Turn::Ended((), refusal) => Turn::Ended((), refusal),
    }
}
