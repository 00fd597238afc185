// The step of each stage: one call of the disk.
ghost use Rattle.std.specs.Prelude.{◌≡◌, ◌≢◌, ◌≤◌, ◌+◌, ◌-◌, ◌^◌, min, None, length, IfNone, IfSome};
ghost use Rattle.sd_names.specs.Id.{IsIdBytes};
ghost use Rattle.sd_names.specs.Turn.{MatchTurn};
ghost use Rattle.sd_names.specs.declared.place.Dir.TheVariants.{Domain, Root};
ghost use Rattle.shared_disk.specs.Calls.{Told};
ghost use Rattle.shared_disk.specs.Step.{IsDiskRefusal, StepCounts};
ghost use Rattle.domain_meta.specs.Text.{domain_text};
ghost use Rattle.pool_making.specs.Making.{IsAt, IsMakeRefusal, IsNext, behind_folder, domain_of, record_of, stage_of, text_of};
ghost use Rattle.pool_making.specs.Steps.{Checks, Clears, CreatesArea, IsBehind, Lists, Makes, Searches, StepsText, SyncsArea, WritesText};
ghost use Rattle.pool_making.specs.Writing.{length_kept};
ghost use Rattle.pool_making.specs.Layout.{area_place, folder_after};
ghost use Rattle.whole_file.specs.Replace.{Knows as KnowsReplace, length_of};

use crate::making::{MakePool, Stage};
use crate::{Area, Folder};
use sd_names::{Dir, HostId, Id, Name, Place, Refusal, Turn};
use shared_disk::{DiskAnswer, SharedDisk, refusal_for};
use whole_file::{LONGEST, Replace};

impl MakePool {
    // The making in another stage.
    fn at(self, stage: Stage) -> MakePool
        requires text { length_kept stage (length (text_of self)) ≡ length (text_of self) }
        ensures { IsAt self stage result }
    {
        MakePool {
            domain: self.domain,
            stage,
        }
    }

    // The next folder under the root.
    pub(crate) fn list<D: SharedDisk>(
        self,
        after: Option<Dir>,
        host: HostId,
        disk: &mut D,
    ) -> Turn<MakePool, (), ()>
        ensures counts { StepCounts (D.faults disk.old) (D.faults disk.new) (D.calls disk.old) (D.calls disk.new) result }
        ensures counted { D.calls disk.new ≡ min (D.calls disk.old + 1) (2 ^ 64 - 1) }
        ensures next { MatchTurn result (λ next. (record_of next ≡ record_of self) × IsNext (Stage.Listing after) self (stage_of next)) (λ _. ⊥) (λ _ refusal. IsDiskRefusal refusal) }
        ensures id { IsIdBytes (domain_of self).0 }
        ensures content { Told (D.content disk.old) (D.content disk.new) (Lists self after (D.faults disk.new) result) }
    {
        self.domain.sduuid.has_sixteen_bytes();
        match disk.next_dir(host, Dir::Root, after) {
            Ok(Some(Dir::Domain(sd))) => Turn::More(self.at(Stage::Checking(sd))),
            Ok(Some(dir)) => Turn::More(self.at(Stage::Listing(Some(dir)))),
            Ok(None) => Turn::More(self.at(Stage::Searching)),
            Err(answer) => Turn::Ended((), refusal_for(answer, disk)),
        }
    }

    // Whether the domain of a folder under the root has a text.
    pub(crate) fn check<D: SharedDisk>(
        self,
        sd: Id,
        host: HostId,
        disk: &mut D,
    ) -> Turn<MakePool, (), ()>
        ensures counts { StepCounts (D.faults disk.old) (D.faults disk.new) (D.calls disk.old) (D.calls disk.new) result }
        ensures counted { D.calls disk.new ≡ min (D.calls disk.old + 1) (2 ^ 64 - 1) }
        ensures next { MatchTurn result (λ next. (record_of next ≡ record_of self) × IsNext (Stage.Checking sd) self (stage_of next)) (λ _. ⊥) (λ _ refusal. IsMakeRefusal refusal) }
        ensures id { IsIdBytes sd.0 }
        ensures content { Told (D.content disk.old) (D.content disk.new) (Checks self sd (D.faults disk.new) result) }
    {
        sd.has_sixteen_bytes();
        let place = Place {
            dir: Dir::DomMd(sd),
            name: Name::Metadata,
        };
        match disk.length(host, place) {
            Ok(_) => Turn::Ended((), Refusal::PoolExists(sd)),
            Err(DiskAnswer::NoFile) => Turn::More(self.at(Stage::Listing(Some(Dir::Domain(sd))))),
            Err(answer) => Turn::Ended((), refusal_for(answer, disk)),
        }
    }

    // Whether the domain has images.
    pub(crate) fn search<D: SharedDisk>(self, host: HostId, disk: &mut D) -> Turn<MakePool, (), ()>
        ensures counts { StepCounts (D.faults disk.old) (D.faults disk.new) (D.calls disk.old) (D.calls disk.new) result }
        ensures counted { D.calls disk.new ≡ min (D.calls disk.old + 1) (2 ^ 64 - 1) }
        ensures next { MatchTurn result (λ next. (record_of next ≡ record_of self) × IsNext Stage.Searching self (stage_of next)) (λ _. ⊥) (λ _ refusal. IsMakeRefusal refusal) }
        ensures content { Told (D.content disk.old) (D.content disk.new) (Searches self (D.faults disk.new) result) }
    {
        match disk.next_dir(host, Dir::Images(self.domain.sduuid), None) {
            Ok(Some(_)) => Turn::Ended((), Refusal::DomainExists),
            Ok(None) | Err(DiskAnswer::NoFile) => Turn::More(self.at(Stage::Making(
                Folder::Domain,
            ))),
            Err(answer) => Turn::Ended((), refusal_for(answer, disk)),
        }
    }

    // A folder of the domain.
    pub(crate) fn make<D: SharedDisk>(
        self,
        folder: Folder,
        host: HostId,
        disk: &mut D,
    ) -> Turn<MakePool, (), ()>
        ensures counts { StepCounts (D.faults disk.old) (D.faults disk.new) (D.calls disk.old) (D.calls disk.new) result }
        ensures counted { D.calls disk.new ≡ min (D.calls disk.old + 1) (2 ^ 64 - 1) }
        ensures next { MatchTurn result (λ next. (record_of next ≡ record_of self) × IsNext (Stage.Making folder) self (stage_of next)) (λ _. ⊥) (λ _ refusal. IsDiskRefusal refusal) }
        ensures content { Told (D.content disk.old) (D.content disk.new) (Makes self folder (D.faults disk.new) result) }
    {
        match disk.make_dir(host, folder.of(self.domain.sduuid)) {
            Ok(()) | Err(DiskAnswer::Exists) => Turn::More(self.behind_folder(folder)),
            Err(answer) => Turn::Ended((), refusal_for(answer, disk)),
        }
    }

    // The making once this folder is there.
    fn behind_folder(self, folder: Folder) -> MakePool
        ensures { IsAt self (behind_folder (folder_after folder)) result }
    {
        match folder.next() {
            Some(next) => self.at(Stage::Making(next)),
            None => self.at(Stage::Clearing(Area::Leases)),
        }
    }

    // What an earlier attempt left of a file of zeros.
    pub(crate) fn clear<D: SharedDisk>(
        self,
        area: Area,
        host: HostId,
        disk: &mut D,
    ) -> Turn<MakePool, (), ()>
        ensures counts { StepCounts (D.faults disk.old) (D.faults disk.new) (D.calls disk.old) (D.calls disk.new) result }
        ensures counted { D.calls disk.new ≡ min (D.calls disk.old + 1) (2 ^ 64 - 1) }
        ensures next { MatchTurn result (λ next. (record_of next ≡ record_of self) × IsNext (Stage.Clearing area) self (stage_of next)) (λ _. ⊥) (λ _ refusal. IsDiskRefusal refusal) }
        ensures content { Told (D.content disk.old) (D.content disk.new) (Clears self area (D.faults disk.new) result) }
    {
        match disk.remove(host, self.place_of(area)) {
            Ok(()) | Err(DiskAnswer::NoFile) => Turn::More(self.at(Stage::Creating(area))),
            Err(answer) => Turn::Ended((), refusal_for(answer, disk)),
        }
    }

    // A file of zeros.
    pub(crate) fn create<D: SharedDisk>(
        self,
        area: Area,
        host: HostId,
        disk: &mut D,
    ) -> Turn<MakePool, (), ()>
        ensures counts { StepCounts (D.faults disk.old) (D.faults disk.new) (D.calls disk.old) (D.calls disk.new) result }
        ensures counted { D.calls disk.new ≡ min (D.calls disk.old + 1) (2 ^ 64 - 1) }
        ensures next { MatchTurn result (λ next. (record_of next ≡ record_of self) × IsNext (Stage.Creating area) self (stage_of next)) (λ _. ⊥) (λ _ refusal. IsDiskRefusal refusal) }
        ensures content { Told (D.content disk.old) (D.content disk.new) (CreatesArea self area host (D.faults disk.new) result) }
    {
        match disk.create(host, self.place_of(area), area.bytes()) {
            Ok(()) => Turn::More(self.at(Stage::Syncing(area))),
            Err(answer) => Turn::Ended((), refusal_for(answer, disk)),
        }
    }

    // A file of zeros is put onto the medium.
    pub(crate) fn sync<D: SharedDisk>(
        self,
        area: Area,
        host: HostId,
        disk: &mut D,
    ) -> Turn<MakePool, (), ()>
        ensures counts { StepCounts (D.faults disk.old) (D.faults disk.new) (D.calls disk.old) (D.calls disk.new) result }
        ensures counted { D.calls disk.new ≡ min (D.calls disk.old + 1) (2 ^ 64 - 1) }
        ensures next { MatchTurn result (IsBehind self area) (λ _. ⊥) (λ _ refusal. IsDiskRefusal refusal) }
        ensures content { Told (D.content disk.old) (D.content disk.new) (SyncsArea self area host (D.faults disk.new) result) }
    {
        match disk.sync(host, self.place_of(area)) {
            Ok(()) => Turn::More(self.behind_area(area)),
            Err(answer) => Turn::Ended((), refusal_for(answer, disk)),
        }
    }

    // The making once this file is on the medium.
    fn behind_area(self, area: Area) -> MakePool
        ensures { IsBehind self area result }
    {
        match area.next() {
            Some(next) => self.at(Stage::Clearing(next)),
            None => {
                let mut text = [0; LONGEST];
                let length = domain_meta::write_into(&self.domain, &mut text);
                let metadata = Place {
                    dir: Dir::DomMd(self.domain.sduuid),
                    name: Name::Metadata,
                };
                let replace = Replace::begin(metadata, Name::MetadataNew, length);
                self.at(Stage::Writing(replace))
            }
        }
    }

    // A step of the replacement that gives the domain its text.
    pub(crate) fn write<D: SharedDisk>(
        self,
        replace: Replace,
        host: HostId,
        disk: &mut D,
    ) -> Turn<MakePool, (), ()>
        requires text { length_of replace ≡ length (text_of self) }
        ensures counts { StepCounts (D.faults disk.old) (D.faults disk.new) (D.calls disk.old) (D.calls disk.new) result }
        ensures counted { D.calls disk.new ≡ min (D.calls disk.old + 1) (2 ^ 64 - 1) }
        ensures next { MatchTurn result (λ next. (record_of next ≡ record_of self) × IsNext (Stage.Writing replace) self (stage_of next)) (λ _. Unit {0}) (λ _ refusal. IsDiskRefusal refusal) }
        ensures content { Told (D.content disk.old) (D.content disk.new) (WritesText self replace host (D.faults disk.new) result) }
        ensures steps { Told (D.content disk.old) (D.content disk.new) (λ d e. KnowsReplace replace host (text_of self) d → StepsText self replace host (D.faults disk.new) result d e) }
    {
        let mut text = [0; LONGEST];
        let length = domain_meta::write_into(&self.domain, &mut text);
        match replace.step(host, disk, &text[..length]) {
            Turn::More(next) => Turn::More(self.at(Stage::Writing(next))),
            Turn::Done(()) => Turn::Done(()),
            Turn::Ended((), refusal) => Turn::Ended((), refusal),
        }
    }

    // The place of a file of zeros.
    fn place_of(&self, area: Area) -> Place
        ensures { result ≡ area_place (domain_of self.now) area }
    {
        Place {
            dir: Dir::DomMd(self.domain.sduuid),
            name: area.name(),
        }
    }
}
