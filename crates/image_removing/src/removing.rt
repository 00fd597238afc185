// An image's files are removed, in steps of one call of the disk.
ghost use Rattle.std.specs.Prelude.{◌≡◌, ◌+◌, ◌-◌, ◌^◌, min};
ghost use Rattle.shared_disk.specs.Calls.{Told};
ghost use Rattle.shared_disk.specs.Step.{EndsOnlyBy, IsDiskRefusal, StepCounts};

use sd_names::{Dir, HostId, Id, Name, Place, Turn};
use shared_disk::{DiskAnswer, SharedDisk, refusal_for};

/// Which files a removal is at.
#[derive(Clone, Copy, Debug)]
pub enum Pass {
    /// What an earlier removal, which was cut, left under the removed name.
    Earlier,
    /// The image's own, whose folder has got the removed name.
    Moved,
}

/// How far a removal is.
#[derive(Clone, Copy, Debug)]
pub enum Stage {
    /// The files of the removed folder up to this name are gone.
    Listing(Pass, Option<Name>),
    /// This file comes next.
    Removing(Pass, Name),
    /// The removed folder has no files.
    Ending(Pass),
    /// No folder has the removed name; the image's own may be there.
    Moving,
}

/// The removal of an image's files, in steps of one disk call. The image's folder gets the removed name, each of its files
/// is removed as it is listed, and then the folder. What an earlier removal left under that name is removed before, so that
/// a removal that was cut is done again from its beginning.
#[derive(Clone, Copy, Debug)]
pub struct ImageRemoving {
    sd: Id,
    image: Id,
    stage: Stage,
}

impl ImageRemoving {
    ghost use Rattle.image_removing.specs.Steps.{CallOf, Ends, Lists, Moves, RemovesFile, Removal};
    ghost use Rattle.image_removing.specs.Falls.{IsRise, Meets, MeetsIn, Nears, NearsIn};
    ghost use Rattle.image_removing.specs.Removing.{IsBegun, IsBehind, at_stage, own_folder, removed_folder, removed_place};

    /// The removal of the image `image` of the domain `sd`.
    pub fn begin(sd: Id, image: Id) -> ImageRemoving
        ensures { IsBegun sd image result }
    {
        ImageRemoving {
            sd,
            image,
            stage: Stage::Listing(Pass::Earlier, None),
        }
    }

    /// Makes one call of the disk. At `Done` the image's folder is gone, under either name. 120 and 122 come from the disk.
    pub fn step<D: SharedDisk>(self, host: HostId, disk: &mut D) -> Turn<ImageRemoving, (), ()>
        ensures counts { StepCounts (D.faults disk.old) (D.faults disk.new) (D.calls disk.old) (D.calls disk.new) result }
        ensures counted { D.calls disk.new ≡ min (D.calls disk.old + 1) (2 ^ 64 - 1) }
        ensures refusals { EndsOnlyBy IsDiskRefusal result }
        ensures rises { Meets IsRise self result }
        ensures falls { Nears self result }
        ensures call { Told (D.content disk.old) (D.content disk.new) (CallOf self (D.faults disk.new) result) }
        ensures content { Told (D.content disk.old) (D.content disk.new) (Removal self (D.faults disk.new) result) }
    {
        match self.stage {
            Stage::Listing(pass, after) => self.list(pass, after, host, disk),
            Stage::Removing(pass, name) => self.remove(pass, name, host, disk),
            Stage::Ending(pass) => self.end(pass, host, disk),
            Stage::Moving => self.give_name(host, disk),
        }
    }

    // The same removal in another stage.
    fn at(self, stage: Stage) -> ImageRemoving
        ensures { result ≡ at_stage self stage }
    {
        ImageRemoving {
            sd: self.sd,
            image: self.image,
            stage,
        }
    }

    // The folder that is removed.
    fn removed(&self) -> Dir
        ensures { result ≡ removed_folder self.now }
    {
        Dir::Removed(self.sd, self.image)
    }

    // The removal once the removed folder is gone.
    fn behind(self, pass: Pass) -> Turn<ImageRemoving, (), ()>
        ensures { IsBehind self pass result }
    {
        match pass {
            Pass::Earlier => Turn::More(self.at(Stage::Moving)),
            Pass::Moved => Turn::Done(()),
        }
    }

    // The next name of the removed folder.
    fn list<D: SharedDisk>(
        self,
        pass: Pass,
        after: Option<Name>,
        host: HostId,
        disk: &mut D,
    ) -> Turn<ImageRemoving, (), ()>
        ensures counts { StepCounts (D.faults disk.old) (D.faults disk.new) (D.calls disk.old) (D.calls disk.new) result }
        ensures counted { D.calls disk.new ≡ min (D.calls disk.old + 1) (2 ^ 64 - 1) }
        ensures refusals { EndsOnlyBy IsDiskRefusal result }
        ensures rises { MeetsIn IsRise (Stage.Listing pass after) result }
        ensures falls { NearsIn self (Stage.Listing pass after) result }
        ensures content { Told (D.content disk.old) (D.content disk.new) (Lists self pass after (D.faults disk.new) result) }
    {
        match disk.next_name(host, self.removed(), after) {
            Ok(Some(name)) => Turn::More(self.at(Stage::Removing(pass, name))),
            Ok(None) => Turn::More(self.at(Stage::Ending(pass))),
            Err(DiskAnswer::NoFile) => self.behind(pass),
            Err(answer) => Turn::Ended((), refusal_for(answer, disk)),
        }
    }

    // A file of the removed folder goes, unless it is gone.
    fn remove<D: SharedDisk>(
        self,
        pass: Pass,
        name: Name,
        host: HostId,
        disk: &mut D,
    ) -> Turn<ImageRemoving, (), ()>
        ensures counts { StepCounts (D.faults disk.old) (D.faults disk.new) (D.calls disk.old) (D.calls disk.new) result }
        ensures counted { D.calls disk.new ≡ min (D.calls disk.old + 1) (2 ^ 64 - 1) }
        ensures refusals { EndsOnlyBy IsDiskRefusal result }
        ensures rises { MeetsIn IsRise (Stage.Removing pass name) result }
        ensures falls { NearsIn self (Stage.Removing pass name) result }
        ensures content { Told (D.content disk.old) (D.content disk.new) (RemovesFile self pass name (D.faults disk.new) result) }
    {
        let place = Place {
            dir: self.removed(),
            name,
        };
        match disk.remove(host, place) {
            Ok(()) | Err(DiskAnswer::NoFile) => {
                Turn::More(self.at(Stage::Listing(pass, Some(name))))
            }
            Err(answer) => Turn::Ended((), refusal_for(answer, disk)),
        }
    }

    // The removed folder goes, unless it is gone.
    fn end<D: SharedDisk>(
        self,
        pass: Pass,
        host: HostId,
        disk: &mut D,
    ) -> Turn<ImageRemoving, (), ()>
        ensures counts { StepCounts (D.faults disk.old) (D.faults disk.new) (D.calls disk.old) (D.calls disk.new) result }
        ensures counted { D.calls disk.new ≡ min (D.calls disk.old + 1) (2 ^ 64 - 1) }
        ensures refusals { EndsOnlyBy IsDiskRefusal result }
        ensures rises { MeetsIn IsRise (Stage.Ending pass) result }
        ensures falls { NearsIn self (Stage.Ending pass) result }
        ensures content { Told (D.content disk.old) (D.content disk.new) (Ends self pass (D.faults disk.new) result) }
    {
        match disk.remove_dir(host, self.removed()) {
            Ok(()) | Err(DiskAnswer::NoFile) => self.behind(pass),
            Err(answer) => Turn::Ended((), refusal_for(answer, disk)),
        }
    }

    // The image's folder gets the removed name. Where it isn't there, nothing is left of the image.
    fn give_name<D: SharedDisk>(self, host: HostId, disk: &mut D) -> Turn<ImageRemoving, (), ()>
        ensures counts { StepCounts (D.faults disk.old) (D.faults disk.new) (D.calls disk.old) (D.calls disk.new) result }
        ensures counted { D.calls disk.new ≡ min (D.calls disk.old + 1) (2 ^ 64 - 1) }
        ensures refusals { EndsOnlyBy IsDiskRefusal result }
        ensures rises { MeetsIn IsRise Stage.Moving result }
        ensures falls { NearsIn self Stage.Moving result }
        ensures content { Told (D.content disk.old) (D.content disk.new) (Moves self (D.faults disk.new) result) }
    {
        match disk.move_dir(host, Dir::Image(self.sd, self.image), self.removed()) {
            Ok(()) => Turn::More(self.at(Stage::Listing(Pass::Moved, None))),
            Err(DiskAnswer::NoFile) => Turn::Done(()),
            Err(answer) => Turn::Ended((), refusal_for(answer, disk)),
        }
    }
}
