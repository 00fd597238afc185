// The clusters of a part that get a place are written whole, one after the other.
ghost use Rattle.std.specs.Prelude.{◌≡◌, ◌+◌, ◌^◌, ◌<◌, ◌≤◌, length};
ghost use Rattle.shared_disk.specs.Calls.{IsPiece, Told};
ghost use Rattle.shared_disk.specs.Step.{EndsOnlyBy, IsDiskRefusal, StepCounts};
ghost use Rattle.write_planning.specs.Plan.{span_of};
ghost use Rattle.write_planning.specs.Span.{count_of};
ghost use Rattle.write_preparing.specs.Placed.{plan_of};
ghost use Rattle.write_filling.specs.Stage.{under_way};

use crate::said::{capacity, entry_found};
use crate::stage::Stage;
use cluster_filling::{Filling, NewCluster, source};
use sd_names::{HostId, Id, Turn};
use shared_disk::SharedDisk;
use volume_chain::Chain;
use write_preparing::Placed;

/// The writing of a part's new clusters: each cluster that has no data, and so gets a place in the volume's file, is written
/// whole there, in the order of the virtual disk. No entry names the places yet, and nothing is synced.
#[derive(Drop)]
pub struct Fillings {
    volume: Id,
    index: usize,
    at: u64,
    placed: Placed,
    done: usize,
    stage: Stage,
    ghost low: { index < 2 ^ 63 },
    ghost within: { done + under_way stage ≤ count_of (span_of (plan_of placed)) },
}

impl Fillings {
    ghost use Rattle.write_filling.specs.Cluster.{IsNewCluster};
    ghost use Rattle.write_filling.specs.Filling.{FillsOn, GoesNext, IsAtWork, IsBegun, IsPassed, KeepsPlaced};
    ghost use Rattle.write_filling.specs.Left.{Falls};

    /// The filling of what was placed for a part, which begins with the byte `at` of the volume. The volume has this index on
    /// the chain's path, below 2^63.
    pub fn begin(volume: Id, index: usize, at: u64, placed: Placed) -> Fillings
        requires { index < 2 ^ 63 }
        ensures { IsBegun volume index at placed result }
    {
        Fillings {
            volume,
            index,
            at,
            placed,
            done: 0,
            stage: Stage::Next,
        }
    }

    /// Makes at most one call of the disk. The part has 512 to 65,536 bytes, a multiple of 512, and is the same in each step,
    /// as is the chain; the room has 65,536 bytes, and holds what the step before left in it. At `Done` the host sees each new
    /// cluster as it is to be. 120 and 122 alone; no memory is taken.
    pub fn step<D: SharedDisk>(
        self,
        host: HostId,
        chain: &mut Chain,
        disk: &mut D,
        part: &[u8],
        room: &mut [u8],
    ) -> Turn<Fillings, Placed, ()>
        requires part { IsPiece (length part.now) }
        requires room { length room.old ≡ 65536 }
        ensures counts { StepCounts (D.faults disk.old) (D.faults disk.new) (D.calls disk.old) (D.calls disk.new) result }
        ensures refusals { EndsOnlyBy IsDiskRefusal result }
        ensures chain { chain.new ≡ chain.old }
        ensures falls { Falls self chain.old result }
        ensures placed { KeepsPlaced self result }
        ensures content { Told (D.content disk.old) (D.content disk.new) (FillsOn self chain.old host (D.faults disk.new) part.now room.old room.new result) }
    {
        match self.stage {
            Stage::Next => self.next(chain),
            Stage::Fills(work) => match work.step(host, chain, disk, part, room) {
                Turn::More(next) => Turn::More(self.at_work(next)),
                Turn::Done(()) => Turn::More(self.passed()),
                Turn::Ended((), refusal) => Turn::Ended((), refusal),
            },
        }
    }

    // The next cluster is begun, or passed over where it gets no place. Behind the last one all is done.
    fn next(self, chain: &Chain) -> Turn<Fillings, Placed, ()>
        ensures { GoesNext self chain.now result }
    {
        let plan = self.placed.plan();
        if self.done >= plan.span().count() {
            return Turn::Done(self.placed);
        }
        match plan.place(self.done, self.placed.clusters()) {
            None => Turn::More(self.passed()),
            Some(place) => {
                let work = Filling::begin(self.new_cluster(place, chain));
                Turn::More(self.at_work(work))
            }
        }
    }

    // The next cluster, which is to be written whole at a place.
    fn new_cluster(&self, place: u64, chain: &Chain) -> NewCluster
        requires { self.now.done < count_of (span_of (plan_of self.now.placed)) }
        ensures new { IsNewCluster self.now place chain.now result }
        ensures low { 4096 ≤ result.width }
        ensures high { result.width ≤ 2097152 }
    {
        let plan = self.placed.plan();
        let span = plan.span();
        let entry = entry_found(plan.found(self.done));
        NewCluster {
            volume: self.volume,
            below: source(chain, self.index, entry),
            number: span.first() + self.done as u64,
            width: span.width(),
            place,
            capacity: capacity(chain, &self.volume),
            at: self.at,
        }
    }

    // The next cluster is behind.
    fn passed(self) -> Fillings
        requires { self.done < count_of (span_of (plan_of self.placed)) }
        ensures { IsPassed self result }
    {
        let _count = self.placed.plan().span().count();
        Fillings {
            volume: self.volume,
            index: self.index,
            at: self.at,
            placed: self.placed,
            done: self.done + 1,
            stage: Stage::Next,
        }
    }

    // The next cluster is written, so far.
    fn at_work(self, work: Filling) -> Fillings
        requires { self.done < count_of (span_of (plan_of self.placed)) }
        ensures { IsAtWork self work result }
    {
        Fillings {
            volume: self.volume,
            index: self.index,
            at: self.at,
            placed: self.placed,
            done: self.done,
            stage: Stage::Fills(work),
        }
    }
}
