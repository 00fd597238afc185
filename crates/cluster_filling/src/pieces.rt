// The steps of a piece, by its stage.
ghost use Rattle.std.specs.Prelude.{◌≡◌, ◌*◌, ◌≤◌, length, replicate};
ghost use Rattle.shared_disk.specs.Calls.{IsPiece, Told};
ghost use Rattle.shared_disk.specs.Step.{EndsOnlyBy, IsDiskRefusal, StepCounts};
ghost use Rattle.cluster_filling.specs.Calls.{StepsIn};
ghost use Rattle.cluster_filling.specs.Filling.{BeginsPiece, FillsPiece, IsAdvanced, IsAt, KeepsCluster, ReadsPiece, Skips, WritesPiece, piece_of};
ghost use Rattle.cluster_filling.specs.Left.{Falls, FallsIn};
ghost use Rattle.cluster_filling.specs.declared.filling.Stage.TheVariants as stages;

use crate::filling::{Filling, Stage};
use crate::laying::lay;
use chain_reading::ReadPart;
use sd_names::{HostId, Id, Turn};
use shared_disk::{SharedDisk, refusal_for};
use volume_chain::Chain;

// Zeros.
fn clear(piece: &mut [u8])
    ensures { piece.new ≡ replicate (length piece.old) 0 }
{
    piece.fill(0)
}

impl Filling {
    // The same cluster and piece in another stage.
    fn at(self, stage: Stage) -> Filling
        ensures { IsAt self stage result }
    {
        Filling {
            cluster: self.cluster,
            done: self.done,
            stage,
        }
    }

    // The piece is written: the next one is begun, where there is one.
    fn advanced(self) -> Turn<Filling, (), ()>
        ensures { IsAdvanced self result }
    {
        let done = self.done + self.cluster.piece(self.done) as u64;
        if done >= self.cluster.count {
            return Turn::Done(());
        }
        Turn::More(Filling {
            cluster: self.cluster,
            done,
            stage: Stage::Begun,
        })
    }

    // The volume that the piece is to be read from. None where all of it is known.
    fn source(&self, part: usize) -> Option<Id>
        requires { part ≤ 128 }
        ensures { Skips self.now part result }
    {
        match self.cluster.below {
            None => None,
            Some(below) => {
                if self.cluster.is_read(self.done, part) {
                    return Some(below);
                }
                None
            }
        }
    }

    /// A step, by its stage, in front of the room.
    pub(crate) fn fill<D: SharedDisk>(
        self,
        host: HostId,
        chain: &mut Chain,
        disk: &mut D,
        part: &[u8],
        piece: &mut [u8],
    ) -> Turn<Filling, (), ()>
        requires part { IsPiece (length part.now) }
        requires piece { length piece.old ≡ 512 * piece_of self }
        ensures counts { StepCounts (D.faults disk.old) (D.faults disk.new) (D.calls disk.old) (D.calls disk.new) result }
        ensures refusals { EndsOnlyBy IsDiskRefusal result }
        ensures chain { chain.new ≡ chain.old }
        ensures keeps { KeepsCluster self result }
        ensures falls { Falls self chain.old result }
        ensures steps { Told (D.content disk.old) (D.content disk.new) (StepsIn self.stage self chain.old host part.now piece.old piece.new (D.faults disk.new) result) }
        ensures content { Told (D.content disk.old) (D.content disk.new) (FillsPiece self chain.old host part.now piece.old piece.new result) }
    {
        match self.stage {
            Stage::Begun => self.begin_piece(host, chain, disk, part, piece),
            Stage::Reading(read) => self.read(read, host, chain, disk, piece),
            Stage::Read => self.write(host, chain, disk, part, piece),
        }
    }

    // A step in which nothing was read for the piece: its read is begun, or it is written.
    fn begin_piece<D: SharedDisk>(
        self,
        host: HostId,
        chain: &Chain,
        disk: &mut D,
        part: &[u8],
        piece: &mut [u8],
    ) -> Turn<Filling, (), ()>
        requires part { IsPiece (length part.now) }
        requires piece { length piece.old ≡ 512 * piece_of self }
        ensures counts { StepCounts (D.faults disk.old) (D.faults disk.new) (D.calls disk.old) (D.calls disk.new) result }
        ensures refusals { EndsOnlyBy IsDiskRefusal result }
        ensures keeps { KeepsCluster self result }
        ensures falls { FallsIn stages.Begun self chain.now result }
        ensures content { Told (D.content disk.old) (D.content disk.new) (BeginsPiece self chain.now host part.now piece.old piece.new (D.faults disk.new) result) }
    {
        match self.source(part.len() / 512) {
            None => {
                clear(piece);
                self.write(host, chain, disk, part, piece)
            }
            Some(below) => {
                let read = ReadPart::begin(below, 512 * (self.cluster.first + self.done));
                Turn::More(self.at(Stage::Reading(read)))
            }
        }
    }

    // A step of the piece's read.
    fn read<D: SharedDisk>(
        self,
        read: ReadPart,
        host: HostId,
        chain: &mut Chain,
        disk: &mut D,
        piece: &mut [u8],
    ) -> Turn<Filling, (), ()>
        requires { length piece.old ≡ 512 * piece_of self }
        ensures counts { StepCounts (D.faults disk.old) (D.faults disk.new) (D.calls disk.old) (D.calls disk.new) result }
        ensures refusals { EndsOnlyBy IsDiskRefusal result }
        ensures chain { chain.new ≡ chain.old }
        ensures keeps { KeepsCluster self result }
        ensures falls { FallsIn (stages.Reading read) self chain.old result }
        ensures content { Told (D.content disk.old) (D.content disk.new) (ReadsPiece self read chain.old host piece.old piece.new result) }
    {
        match read.step(host, chain, disk, piece) {
            Turn::More(next) => Turn::More(self.at(Stage::Reading(next))),
            Turn::Done(()) => Turn::More(self.at(Stage::Read)),
            Turn::Ended((), refusal) => Turn::Ended((), refusal),
        }
    }

    // The piece is written: the part is laid over it first.
    fn write<D: SharedDisk>(
        self,
        host: HostId,
        chain: &Chain,
        disk: &mut D,
        part: &[u8],
        piece: &mut [u8],
    ) -> Turn<Filling, (), ()>
        requires part { IsPiece (length part.now) }
        requires piece { length piece.old ≡ 512 * piece_of self }
        ensures counts { StepCounts (D.faults disk.old) (D.faults disk.new) (D.calls disk.old) (D.calls disk.new) result }
        ensures refusals { EndsOnlyBy IsDiskRefusal result }
        ensures keeps { KeepsCluster self result }
        ensures falls { FallsIn stages.Read self chain.now result }
        ensures content { Told (D.content disk.old) (D.content disk.new) (WritesPiece self chain.now host part.now piece.old piece.new (D.faults disk.new) result) }
    {
        lay(&self.cluster, self.cluster.first + self.done, part, piece);
        let at = 512 * (self.cluster.target + self.done);
        match disk.write_at(host, chain.place(&self.cluster.volume), at, piece) {
            Ok(()) => self.advanced(),
            Err(answer) => Turn::Ended((), refusal_for(answer, disk)),
        }
    }
}
