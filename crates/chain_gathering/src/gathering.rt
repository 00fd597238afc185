// Gathering what an image's folder holds.
ghost use Rattle.std.specs.Prelude.{◌≡◌, ◌<◌, ◌≤◌, ℕ, length, MatchResult, Some};
ghost use Rattle.sd_names.specs.Place.{NameHasIds};
ghost use Rattle.sd_names.specs.declared.refusal.Refusal.TheVariants as refusal;
ghost use Rattle.shared_disk.specs.Calls.{Told};
ghost use Rattle.shared_disk.specs.Step.{EndsOnlyBy, StepCounts, TurnFaults};
ghost use Rattle.whole_file.specs.Read.{IsShort};
ghost use Rattle.chain_gathering.specs.Gathering.{IsBegun, MayRefuse, Meets, Nears, StaysInOrder, StaysValid};
ghost use Rattle.chain_gathering.specs.Kept.{found_in, next_of, records_kept};
ghost use Rattle.chain_gathering.specs.Names.{volume_name};
ghost use Rattle.chain_gathering.specs.Stages.{KeepsText, Lists, ReadsNext, SyncsFile, after_sync, at_stage, dir_in, listed, met_stage};
ghost use Rattle.chain_gathering.specs.Steps.{Gathers, IsGatheringRefusal, IsRise, KeepsOrder, KeepsValid, MeetsBy, NearsBy};

use crate::gathered::Gathered;
use crate::names::{VolumeName, has_ids};
use crate::stages::{Seen, Stage, Target};
use sd_names::{Absence, Dir, HostId, Id, Name, NoMemory, Place, Refusal, Turn, VolumeFault};
use shared_disk::{SharedDisk, refusal_for};
use std::alloc::Global;
use volume_meta::read;
use whole_file::{ROOM, Text, read_text};

/// What the opening of an image begins with, in steps of at most one call of the disk: its folder is listed name by
/// name, each volume's file and text is synced as it is listed, and then the texts are read in order.
#[derive(Drop)]
pub struct Gathering {
    alloc: Global,
    target: Target,
    kept: Gathered,
    stage: Stage,
}

impl Gathering {
    /// The gathering of an image of a domain, whose version says how texts are read. It takes the memory for 32
    /// volumes; later on memory is taken for the two short texts of each record alone.
    pub fn begin(alloc: Global, sd: Id, image: Id, version: u8) -> Result<Gathering, Refusal>
        ensures { MatchResult result (λ g. IsBegun g sd image version) (λ refused. refused ≡ refusal.OutOfMemory) }
    {
        match Gathered::new(alloc) {
            Err(NoMemory) => Err(Refusal::OutOfMemory),
            Ok(kept) => Ok(Gathering {
                alloc,
                target: Target { sd, image, version },
                kept,
                stage: Stage::Listing(Seen {
                    after: None,
                    file: None,
                    count: 0,
                }),
            }),
        }
    }

    /// Makes at most one call of the disk. `ChainTooLong` has the number of the image's texts and comes once all names
    /// were listed; `MetaCorrupt` has the first volume whose text can't be read, and its fault; `OutOfMemory` comes
    /// where there is no memory for a record. At each of them, and at `Done`, the volumes' files and texts are synced.
    pub fn step<D: SharedDisk>(self, host: HostId, disk: &mut D) -> Turn<Gathering, Gathered, ()>
        ensures counts { StepCounts (D.faults disk.old) (D.faults disk.new) (D.calls disk.old) (D.calls disk.new) result }
        ensures refusals { EndsOnlyBy (MayRefuse self) result }
        ensures rises { Meets IsRise self result }
        ensures falls { Nears self result }
        ensures order { StaysInOrder self result }
        ensures valid { StaysValid self result }
        ensures content { Told (D.content disk.old) (D.content disk.new) (Gathers self host result) }
    {
        match self.stage {
            Stage::Listing(seen) => self.list(seen, host, disk),
            Stage::Syncing(seen, file) => self.sync(seen, file, host, disk),
            Stage::Reading => self.read(host, disk),
        }
    }

    // The image's folder.
    fn dir(&self) -> Dir
        ensures { result ≡ dir_in self.now.target }
    {
        Dir::Image(self.target.sd, self.target.image)
    }

    // The same gathering in another stage.
    fn at(self, stage: Stage) -> Gathering
        ensures { result ≡ at_stage self stage }
    {
        Gathering {
            alloc: self.alloc,
            target: self.target,
            kept: self.kept,
            stage,
        }
    }

    // The next name of the folder.
    fn list<D: SharedDisk>(
        self,
        seen: Seen,
        host: HostId,
        disk: &mut D,
    ) -> Turn<Gathering, Gathered, ()>
        ensures counts { StepCounts (D.faults disk.old) (D.faults disk.new) (D.calls disk.old) (D.calls disk.new) result }
        ensures refusals { EndsOnlyBy (IsGatheringRefusal self.kept (Stage.Listing seen)) result }
        ensures rises { MeetsBy IsRise (Stage.Listing seen) result }
        ensures falls { NearsBy self (Stage.Listing seen) result }
        ensures order { KeepsOrder self.kept result }
        ensures valid { KeepsValid self.kept result }
        ensures content { Told (D.content disk.old) (D.content disk.new) (Lists self seen (D.faults disk.new) result) }
    {
        match disk.next_name(host, self.dir(), seen.after) {
            Ok(None) => self.listed(seen),
            Ok(Some(name)) => {
                has_ids(&name);
                Turn::More(self.meet(seen, name))
            }
            Err(answer) => Turn::Ended((), refusal_for(answer, disk)),
        }
    }

    // All names were listed.
    fn listed(self, seen: Seen) -> Turn<Gathering, Gathered, ()>
        ensures { result ≡ listed self seen }
    {
        if seen.count > 32 {
            return Turn::Ended((), Refusal::ChainTooLong(seen.count));
        }
        Turn::More(self.at(Stage::Reading))
    }

    // A name was listed.
    fn meet(self, seen: Seen, name: Name) -> Gathering
        ensures { result ≡ at_stage self (met_stage seen name (volume_name name)) }
    {
        match VolumeName::of(name) {
            Some(file) => self.at(Stage::Syncing(seen, file)),
            None => self.at(Stage::Listing(Seen {
                after: Some(name),
                file: seen.file,
                count: seen.count,
            })),
        }
    }

    // What this host wrote in a volume's file or text is put onto the medium.
    fn sync<D: SharedDisk>(
        self,
        seen: Seen,
        file: VolumeName,
        host: HostId,
        disk: &mut D,
    ) -> Turn<Gathering, Gathered, ()>
        ensures counts { StepCounts (D.faults disk.old) (D.faults disk.new) (D.calls disk.old) (D.calls disk.new) result }
        ensures refusals { EndsOnlyBy (IsGatheringRefusal self.kept (Stage.Syncing seen file)) result }
        ensures rises { MeetsBy IsRise (Stage.Syncing seen file) result }
        ensures falls { NearsBy self (Stage.Syncing seen file) result }
        ensures order { KeepsOrder self.kept result }
        ensures valid { KeepsValid self.kept result }
        ensures content { Told (D.content disk.old) (D.content disk.new) (SyncsFile self seen file host (D.faults disk.new) result) }
    {
        let place = Place {
            dir: self.dir(),
            name: file.name(),
        };
        match disk.sync(host, place) {
            Ok(()) => Turn::More(self.synced(seen, file)),
            Err(answer) => Turn::Ended((), refusal_for(answer, disk)),
        }
    }

    // A volume's file or text was synced.
    fn synced(self, seen: Seen, file: VolumeName) -> Gathering
        ensures { result ≡ after_sync self seen file }
    {
        match file {
            VolumeName::Data(v) => self.at(Stage::Listing(Seen {
                after: Some(Name::Volume(v)),
                file: Some(v),
                count: seen.count,
            })),
            VolumeName::Text(v) => {
                let mut kept = self.kept;
                kept.note(v, seen.file);
                Gathering {
                    alloc: self.alloc,
                    target: self.target,
                    kept,
                    stage: Stage::Listing(Seen {
                        after: Some(Name::Meta(v)),
                        file: seen.file,
                        count: seen.count.saturating_add(1),
                    }),
                }
            }
        }
    }

    // The text of the next volume is read, if there is one.
    fn read<D: SharedDisk>(self, host: HostId, disk: &mut D) -> Turn<Gathering, Gathered, ()>
        ensures counts { StepCounts (D.faults disk.old) (D.faults disk.new) (D.calls disk.old) (D.calls disk.new) result }
        ensures refusals { EndsOnlyBy (IsGatheringRefusal self.kept Stage.Reading) result }
        ensures rises { MeetsBy IsRise Stage.Reading result }
        ensures falls { NearsBy self Stage.Reading result }
        ensures order { KeepsOrder self.kept result }
        ensures valid { KeepsValid self.kept result }
        ensures content { Told (D.content disk.old) (D.content disk.new) (ReadsNext self (next_of self.kept) host (D.faults disk.new) result) }
    {
        let Some(id) = self.kept.next() else {
            return Turn::Done(self.kept);
        };
        let place = Place {
            dir: self.dir(),
            name: Name::Meta(id),
        };
        let mut room = [0; ROOM];
        match read_text(host, disk, place, &mut room) {
            Ok(text) => self.keep(id, text, &room),
            Err(refusal) => Turn::Ended((), refusal),
        }
    }

    // The text of a volume was read.
    fn keep(self, id: Id, text: Text, room: &[u8; ROOM]) -> Turn<Gathering, Gathered, ()>
        requires short { IsShort text }
        requires room { length (records_kept self.kept) < length (found_in self.kept) }
        requires few { length (found_in self.kept) ≤ 32 }
        requires next { next_of self.kept ≡ Some id }
        ensures turn { KeepsText self id room.now result text }
        ensures cause { (before after : ℕ) → after ≡ before → TurnFaults before after result }
        ensures refusals { EndsOnlyBy (IsGatheringRefusal self.kept Stage.Reading) result }
        ensures rises { MeetsBy IsRise Stage.Reading result }
        ensures falls { NearsBy self Stage.Reading result }
        ensures order { KeepsOrder self.kept result }
        ensures valid { KeepsValid self.kept result }
    {
        let length = match text {
            Text::Absent => return Turn::Ended((), Refusal::Vanished(Absence::NoFile)),
            Text::Long => {
                return Turn::Ended((), Refusal::MetaCorrupt(id, VolumeFault::TooLong));
            }
            Text::Bytes(length) => length,
        };
        let Target { sd, image, version } = self.target;
        match read(self.alloc, version, sd, image, &room[..length]) {
            Err(VolumeFault::Memory) => Turn::Ended((), Refusal::OutOfMemory),
            Err(fault) => Turn::Ended((), Refusal::MetaCorrupt(id, fault)),
            Ok(record) => {
                let mut kept = self.kept;
                kept.keep(id, record);
                Turn::More(Gathering {
                    alloc: self.alloc,
                    target: self.target,
                    kept,
                    stage: Stage::Reading,
                })
            }
        }
    }
}
