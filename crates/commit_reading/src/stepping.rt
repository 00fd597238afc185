// The steps of the read of a cluster, by its stage.
ghost use Rattle.std.specs.Prelude.{◌≡◌, ◌*◌, ◌<◌, List, ℕ, length};
ghost use Rattle.shared_disk.specs.Calls.{Told};
ghost use Rattle.shared_disk.specs.Step.{EndsOnlyBy, IsDiskRefusal, StepCounts};
ghost use Rattle.commit_reading.specs.Left.{FallsIn};
ghost use Rattle.commit_reading.specs.Knowing.{IsReadOf};
ghost use Rattle.commit_reading.specs.Pieces.{IsInside, count_of};
ghost use Rattle.commit_reading.specs.Reading.{Asks, BeginsRead, IsFound, ReadsFront, ReadsIn, StaysIn, at_stage};
ghost use Rattle.commit_reading.specs.declared.reading.Stage.TheVariants as stages;

use crate::clusters::pieces_of;
use crate::looking::look;
use crate::pieces::Pieces;
use crate::reading::{CommitReading, Stage};
use chain_reading::{ReadPart, place_on};
use qcow_format::Entry;
use qcow_layer::Looking;
use sd_names::{HostId, Turn};
use shared_disk::SharedDisk;
use volume_chain::Chain;

impl CommitReading {
    // The same read in another stage.
    fn with(self, stage: Stage) -> CommitReading
        ensures { result ≡ at_stage self stage }
    {
        CommitReading {
            sub: self.sub,
            cluster: self.cluster,
            stage,
        }
    }

    /// The look-up of the cluster is begun.
    pub(crate) fn ask(self) -> CommitReading
        ensures { Asks self result }
    {
        self.with(Stage::Looking(Looking::begin(self.cluster)))
    }

    /// A step of the look-up in the top.
    pub(crate) fn look<D: SharedDisk>(
        self,
        looking: Looking,
        host: HostId,
        chain: &mut Chain,
        disk: &mut D,
    ) -> Turn<CommitReading, Option<Pieces>, ()>
        ensures counts { StepCounts (D.faults disk.old) (D.faults disk.new) (D.calls disk.old) (D.calls disk.new) result }
        ensures refusals { EndsOnlyBy IsDiskRefusal result }
        ensures chain { chain.new ≡ chain.old }
        ensures way { StaysIn (stages.Looking looking) self chain.old result }
        ensures falls { FallsIn (stages.Looking looking) self chain.old result }
        ensures content { Told (D.content disk.old) (D.content disk.new) (λ d e. (part : List ℕ) → ReadsIn (stages.Looking looking) self chain.old host part part result d e) }
    {
        let index = place_on(chain.path(), &self.sub.top);
        match look(chain, index, looking, host, disk) {
            Turn::More(next) => Turn::More(self.with(Stage::Looking(next))),
            Turn::Done(looked) => match looked.entry {
                Entry::Absent => Turn::Done(None),
                Entry::Zero(_) => Turn::More(self.found(chain)),
                Entry::Data(_) => Turn::More(self.found(chain)),
            },
            Turn::Ended(_, refusal) => Turn::Ended((), refusal),
        }
    }

    // The top holds the cluster.
    fn found(self, chain: &Chain) -> CommitReading
        ensures { IsFound self chain.now result }
    {
        let pieces = pieces_of(chain, &self.sub, self.cluster);
        self.with(Stage::Next(pieces))
    }

    /// The read of the next piece is begun, if one is left.
    pub(crate) fn next(self, pieces: Pieces) -> Turn<CommitReading, Option<Pieces>, ()>
        ensures { BeginsRead self pieces result }
    {
        if pieces.length() == 0 {
            return Turn::Done(None);
        }
        let read = ReadPart::begin(self.sub.top, pieces.at());
        Turn::More(self.with(Stage::Reading(pieces, read)))
    }

    /// A step of the read of a piece.
    pub(crate) fn read<D: SharedDisk>(
        self,
        pieces: Pieces,
        read: ReadPart,
        host: HostId,
        chain: &mut Chain,
        disk: &mut D,
        piece: &mut [u8],
    ) -> Turn<CommitReading, Option<Pieces>, ()>
        requires piece { length piece.old ≡ 512 * count_of pieces }
        requires some { 0 < count_of pieces }
        requires inside { IsInside chain.old self.sub self.cluster pieces }
        requires of { IsReadOf self.sub pieces read }
        ensures counts { StepCounts (D.faults disk.old) (D.faults disk.new) (D.calls disk.old) (D.calls disk.new) result }
        ensures refusals { EndsOnlyBy IsDiskRefusal result }
        ensures chain { chain.new ≡ chain.old }
        ensures way { StaysIn (stages.Reading pieces read) self chain.old result }
        ensures falls { FallsIn (stages.Reading pieces read) self chain.old result }
        ensures content { Told (D.content disk.old) (D.content disk.new) (ReadsFront self pieces read chain.old host piece.old piece.new result) }
    {
        match read.step(host, chain, disk, piece) {
            Turn::More(next) => Turn::More(self.with(Stage::Reading(pieces, next))),
            Turn::Done(()) => Turn::Done(Some(pieces)),
            Turn::Ended((), refusal) => Turn::Ended((), refusal),
        }
    }
}
