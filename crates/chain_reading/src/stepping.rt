// The steps of a read, by its stage.
ghost use Rattle.std.specs.Prelude.{◌≡◌, ℕ, ◌*◌, ◌/◌, ◌^◌, ◌<◌, ◌≤◌, List, length};
ghost use Rattle.shared_disk.specs.Calls.{IsPiece, Told};
ghost use Rattle.shared_disk.specs.Step.{EndsOnlyBy, IsDiskRefusal, StepCounts};
ghost use Rattle.chain_reading.specs.Knowing.{place_on};
ghost use Rattle.chain_reading.specs.Laying.{LaysZeros};
ghost use Rattle.chain_reading.specs.Left.{FallsIn};
ghost use Rattle.chain_reading.specs.Reading.{FillsIn, IsBehind, IsBehindThen, IsFinished, IsFoundOn, IsPassed, KeepsPart, ReadsIn, RunsOn};
ghost use Rattle.chain_reading.specs.declared.part.Stage.TheVariants as stages;

use crate::asked::asked_at;
use crate::choosing::{Fit, Next};
use crate::laying::{all_missing, lay, lay_zeros};
use crate::looking::look;
use crate::part::{ReadPart, Stage};
use crate::running::Run;
use qcow_format::Entry;
use qcow_layer::Looking;
use sd_names::{HostId, Id, Place, Turn};
use shared_disk::SharedDisk;
use volume_chain::Chain;

/// How many volumes of a path stand before this one, which is its index there; the path's length where it isn't one of them.
pub fn place_on(path: &[Id], volume: &Id) -> usize
    ensures { result ≡ place_on volume.now path.now }
{
    for (k, id) in path.iter().enumerate() {
        if id.is(volume) {
            return k;
        }
    }
    path.len()
}

impl ReadPart {
    // The same read with another run and in another stage.
    fn with(self, run: Run, stage: Stage) -> ReadPart
        ensures { RunsOn self run stage result }
    {
        let missing = self.missing;
        ReadPart {
            volume: self.volume,
            first: self.first,
            missing,
            index: self.index,
            run,
            stage,
        }
    }

    /// The volume is found on the path.
    pub(crate) fn find(self, chain: &Chain) -> ReadPart
        ensures { IsFoundOn self chain.now result }
    {
        let missing = all_missing();
        ReadPart {
            volume: self.volume,
            first: self.first,
            missing,
            index: place_on(chain.path(), &self.volume),
            run: Run::none(0),
            stage: Stage::Asking,
        }
    }

    // The run is read.
    fn read<D: SharedDisk>(
        self,
        place: Place,
        host: HostId,
        disk: &mut D,
        part: &mut [u8],
    ) -> Turn<ReadPart, (), ()>
        requires { self.run.from < self.run.to }
        ensures counts { StepCounts (D.faults disk.old) (D.faults disk.new) (D.calls disk.old) (D.calls disk.new) result }
        ensures refusals { EndsOnlyBy IsDiskRefusal result }
        ensures behind { IsBehindThen self result }
        ensures content { Told (D.content disk.old) (D.content disk.new) (FillsIn self place part.old part.new (D.faults disk.new) result) }
    {
        match self.run.read(host, disk, place) {
            Err(refusal) => Turn::Ended((), refusal),
            Ok(bytes) => {
                let mut missing = self.missing;
                lay(&mut missing, part, self.run.from, self.run.to, &bytes);
                Turn::More(ReadPart {
                    volume: self.volume,
                    first: self.first,
                    missing,
                    index: self.index,
                    run: Run::none(self.run.to),
                    stage: self.stage,
                })
            }
        }
    }

    // The sectors behind the run, up to `end`, are zeros.
    fn zero(self, end: usize, part: &mut [u8]) -> ReadPart
        requires order { self.run.to ≤ end }
        requires few { end ≤ 128 }
        ensures behind { IsBehind self end stages.Asking result }
        ensures zeros { 512 * end ≤ length part.old → LaysZeros self.missing result.missing part.old part.new self.run.to end }
    {
        let mut missing = self.missing;
        lay_zeros(&mut missing, part, self.run.to, end);
        ReadPart {
            volume: self.volume,
            first: self.first,
            missing,
            index: self.index,
            run: Run::none(end),
            stage: Stage::Asking,
        }
    }

    // No volume is left: the sectors that are missing are zeros.
    fn finish(self, part: &mut [u8])
        requires { IsPiece (length part.old) }
        ensures { IsFinished self part.old part.new }
    {
        let mut missing = self.missing;
        let count = part.len() / 512;
        lay_zeros(&mut missing, part, 0, count)
    }

    // The next volume is asked.
    fn pass(self) -> ReadPart
        requires { self.index < 2 ^ 63 }
        ensures { IsPassed self result }
    {
        let missing = self.missing;
        ReadPart {
            volume: self.volume,
            first: self.first,
            missing,
            index: self.index + 1,
            run: Run::none(0),
            stage: Stage::Asking,
        }
    }

    /// A step where it is to be decided what is asked of the volume.
    pub(crate) fn ask<D: SharedDisk>(
        self,
        host: HostId,
        chain: &Chain,
        disk: &mut D,
        part: &mut [u8],
    ) -> Turn<ReadPart, (), ()>
        requires piece { IsPiece (length part.old) }
        requires stage { self.stage ≡ stages.Asking }
        ensures counts { StepCounts (D.faults disk.old) (D.faults disk.new) (D.calls disk.old) (D.calls disk.new) result }
        ensures refusals { EndsOnlyBy IsDiskRefusal result }
        ensures keeps { KeepsPart self result }
        ensures falls { FallsIn stages.Asking self chain.now (length part.old / 512) result }
        ensures content { Told (D.content disk.old) (D.content disk.new) (ReadsIn stages.Asking self chain.now host part.old part.new result) }
    {
        match asked_at(chain, self.index) {
            None => {
                self.finish(part);
                Turn::Done(())
            }
            Some(asked) => match self.next(&asked, part.len() / 512) {
                Next::Read => self.read(asked.place, host, disk, part),
                Next::Pass => Turn::More(self.pass()),
                Next::Take(taking) => {
                    let taken = self.with(taking, Stage::Asking);
                    Turn::More(taken)
                }
                Next::Look(waiting) => {
                    let looking = Looking::begin(asked.cluster_number(self.first, waiting.to));
                    let looked = self.with(waiting, Stage::Looking(looking));
                    Turn::More(looked)
                }
            },
        }
    }

    /// A step of the look-up of a cluster.
    pub(crate) fn look<D: SharedDisk>(
        self,
        looking: Looking,
        host: HostId,
        chain: &mut Chain,
        disk: &mut D,
    ) -> Turn<ReadPart, (), ()>
        ensures counts { StepCounts (D.faults disk.old) (D.faults disk.new) (D.calls disk.old) (D.calls disk.new) result }
        ensures refusals { EndsOnlyBy IsDiskRefusal result }
        ensures chain { chain.new ≡ chain.old }
        ensures keeps { KeepsPart self result }
        ensures falls { (count : ℕ) → FallsIn (stages.Looking looking) self chain.old count result }
        ensures content { Told (D.content disk.old) (D.content disk.new) (λ d e. (part : List ℕ) → ReadsIn (stages.Looking looking) self chain.old host part part result d e) }
    {
        match look(chain, self.index, looking, host, disk) {
            Turn::More(further) => {
                let more = self.with(self.run, Stage::Looking(further));
                Turn::More(more)
            }
            Turn::Done(looked) => {
                let found = self.with(self.run, Stage::Found(looked.entry));
                Turn::More(found)
            }
            Turn::Ended(_, refusal) => Turn::Ended((), refusal),
        }
    }

    /// A step where the entry of the cluster behind the run is known.
    pub(crate) fn enter<D: SharedDisk>(
        self,
        entry: Entry,
        host: HostId,
        chain: &Chain,
        disk: &mut D,
        part: &mut [u8],
    ) -> Turn<ReadPart, (), ()>
        requires piece { IsPiece (length part.old) }
        requires stage { self.stage ≡ stages.Found entry }
        ensures counts { StepCounts (D.faults disk.old) (D.faults disk.new) (D.calls disk.old) (D.calls disk.new) result }
        ensures refusals { EndsOnlyBy IsDiskRefusal result }
        ensures keeps { KeepsPart self result }
        ensures falls { FallsIn (stages.Found entry) self chain.now (length part.old / 512) result }
        ensures content { Told (D.content disk.old) (D.content disk.new) (ReadsIn (stages.Found entry) self chain.now host part.old part.new result) }
    {
        match asked_at(chain, self.index) {
            None => {
                let lost = self.with(self.run, Stage::Asking);
                Turn::More(lost)
            }
            Some(asked) => match self.fit(&asked, entry, part.len() / 512) {
                Fit::Read => self.read(asked.place, host, disk, part),
                Fit::Take(taking) => {
                    let taken = self.with(taking, Stage::Asking);
                    Turn::More(taken)
                }
                Fit::Zeros(past) => {
                    let zeroed = self.zero(past, part);
                    Turn::More(zeroed)
                }
                Fit::Skip(past) => {
                    let behind = Run::none(past);
                    let skipped = self.with(behind, Stage::Asking);
                    Turn::More(skipped)
                }
            },
        }
    }
}
