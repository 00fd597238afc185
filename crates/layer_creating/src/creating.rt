// Making the file of a new layer.
ghost use Rattle.std.specs.Prelude.{◌≡◌, ◌%◌, ◌/◌, ◌^◌, ◌≤◌, ◌+◌, ◌-◌, min};
ghost use Rattle.shared_disk.specs.Calls.{IsAligned, Told};
ghost use Rattle.shared_disk.specs.Step.{EndsOnlyBy, IsDiskRefusal, NearsEnd, StepCounts};
ghost use Rattle.layer_creating.specs.New.{IsCapacity, IsLength};

use crate::backing::Backing;
use crate::sectors::{block_sector, header_sector, name_sector, table_sector};
use sd_names::{HostId, Place, Turn};
use shared_disk::{SharedDisk, refusal_for};

/// How far the file is.
#[derive(Clone, Copy, Debug)]
pub enum Made {
    /// It isn't there.
    Begun,
    /// It is there, with zeros.
    Created,
    /// The block counts the first four clusters.
    Counted,
    /// The refcount table names the block.
    Tabled,
    /// The parent's name stands in the head.
    Named,
    /// The header stands in front, and nothing is synced yet.
    Headed,
}

/// The making of a new layer's file, in steps of one call of the disk. The file is new, so that nothing is lost where a
/// crash comes before the sync at the end.
#[derive(Clone, Copy, Debug)]
pub struct Creating {
    place: Place,
    capacity: u64,
    backing: Option<Backing>,
    length: u64,
    made: Made,
    ghost fits: { capacity ≤ 2 ^ 40 },
    ghost whole: { length % 65536 ≡ 0 },
    ghost least: { 1310720 ≤ length },
}

impl Creating {
    ghost use Rattle.layer_creating.specs.Creating.{CallOf, CreatesFile, IsBegun, IsIn, IsSameMaking, Knows, Makes, SyncsFile, WritesHeader, WritesSector, creating_left};
    ghost use Rattle.sd_names.specs.Turn.{MatchTurn};

    /// The making of a layer's file of `length` bytes at `place`, for a volume of a capacity in bytes. The capacity is 512
    /// bytes to 1 TiB, the length a multiple of 65,536 from 1,310,720 on.
    pub fn begin(place: Place, capacity: u64, backing: Option<Backing>, length: u64) -> Creating
        requires capacity { IsCapacity capacity }
        requires length { IsLength length }
        ensures { IsBegun result place capacity backing length }
    {
        Creating {
            place,
            capacity,
            backing,
            length,
            made: Made::Begun,
        }
    }

    /// Makes one call of the disk. At `Done` the file is on the medium. 122 comes with `NoFile` where its folder isn't
    /// there, and with `Exists` where something stands at the place, which then stays.
    pub fn step<D: SharedDisk>(self, host: HostId, disk: &mut D) -> Turn<Creating, (), ()>
        ensures counts { StepCounts (D.faults disk.old) (D.faults disk.new) (D.calls disk.old) (D.calls disk.new) result }
        ensures counted { D.calls disk.new ≡ min (D.calls disk.old + 1) (2 ^ 64 - 1) }
        ensures refusals { EndsOnlyBy IsDiskRefusal result }
        ensures falls { NearsEnd (IsSameMaking self) creating_left (creating_left self) result }
        ensures call { Told (D.content disk.old) (D.content disk.new) (CallOf self host (D.faults disk.new) result) }
        ensures content { Told (D.content disk.old) (D.content disk.new) (λ d e. Knows self host d → Makes self host (D.faults disk.new) result d e) }
    {
        match self.made {
            Made::Begun => self.create(host, disk),
            Made::Created => self.write(host, disk, 131_072, &block_sector(), Made::Counted),
            Made::Counted => self.write(host, disk, 65_536, &table_sector(), Made::Tabled),
            Made::Tabled => match self.backing {
                None => self.write_header(host, disk),
                Some(backing) => {
                    let sector = name_sector(backing.parent);
                    self.write(host, disk, 64_512, &sector, Made::Named)
                }
            },
            Made::Named => self.write_header(host, disk),
            Made::Headed => self.sync(host, disk),
        }
    }

    // The making in another stage.
    fn at(self, made: Made) -> Creating
        ensures { IsIn self made result }
    {
        Creating {
            place: self.place,
            capacity: self.capacity,
            backing: self.backing,
            length: self.length,
            made,
        }
    }

    // The file is made, with zeros.
    fn create<D: SharedDisk>(self, host: HostId, disk: &mut D) -> Turn<Creating, (), ()>
        ensures counts { StepCounts (D.faults disk.old) (D.faults disk.new) (D.calls disk.old) (D.calls disk.new) result }
        ensures counted { D.calls disk.new ≡ min (D.calls disk.old + 1) (2 ^ 64 - 1) }
        ensures next { MatchTurn result (IsIn self Made.Created) (λ _. ⊥) (λ _ refusal. IsDiskRefusal refusal) }
        ensures content { Told (D.content disk.old) (D.content disk.new) (CreatesFile self host (D.faults disk.new) result) }
    {
        match disk.create(host, self.place, self.length) {
            Ok(()) => Turn::More(self.at(Made::Created)),
            Err(answer) => Turn::Ended((), refusal_for(answer, disk)),
        }
    }

    // A sector is written at a place of the file, in bytes.
    fn write<D: SharedDisk>(
        self,
        host: HostId,
        disk: &mut D,
        at: u64,
        sector: &[u8; 512],
        next: Made,
    ) -> Turn<Creating, (), ()>
        requires { IsAligned at }
        ensures counts { StepCounts (D.faults disk.old) (D.faults disk.new) (D.calls disk.old) (D.calls disk.new) result }
        ensures counted { D.calls disk.new ≡ min (D.calls disk.old + 1) (2 ^ 64 - 1) }
        ensures next { MatchTurn result (IsIn self next) (λ _. ⊥) (λ _ refusal. IsDiskRefusal refusal) }
        ensures content { Told (D.content disk.old) (D.content disk.new) (WritesSector self host (at / 512) sector.now next (D.faults disk.new) result) }
    {
        match disk.write_at(host, self.place, at, sector) {
            Ok(()) => Turn::More(self.at(next)),
            Err(answer) => Turn::Ended((), refusal_for(answer, disk)),
        }
    }

    // The header is written, the last of the sectors.
    fn write_header<D: SharedDisk>(self, host: HostId, disk: &mut D) -> Turn<Creating, (), ()>
        ensures counts { StepCounts (D.faults disk.old) (D.faults disk.new) (D.calls disk.old) (D.calls disk.new) result }
        ensures counted { D.calls disk.new ≡ min (D.calls disk.old + 1) (2 ^ 64 - 1) }
        ensures next { MatchTurn result (IsIn self Made.Headed) (λ _. ⊥) (λ _ refusal. IsDiskRefusal refusal) }
        ensures content { Told (D.content disk.old) (D.content disk.new) (WritesHeader self host (D.faults disk.new) result) }
    {
        let sector = header_sector(self.capacity, self.backing);
        self.write(host, disk, 0, &sector, Made::Headed)
    }

    // All is put onto the medium.
    fn sync<D: SharedDisk>(self, host: HostId, disk: &mut D) -> Turn<Creating, (), ()>
        ensures counts { StepCounts (D.faults disk.old) (D.faults disk.new) (D.calls disk.old) (D.calls disk.new) result }
        ensures counted { D.calls disk.new ≡ min (D.calls disk.old + 1) (2 ^ 64 - 1) }
        ensures last { MatchTurn result (λ _. ⊥) (λ _. Unit {0}) (λ _ refusal. IsDiskRefusal refusal) }
        ensures content { Told (D.content disk.old) (D.content disk.new) (SyncsFile self host (D.faults disk.new) result) }
    {
        match disk.sync(host, self.place) {
            Ok(()) => Turn::Done(()),
            Err(answer) => Turn::Ended((), refusal_for(answer, disk)),
        }
    }
}
