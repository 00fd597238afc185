// Leftover temporary names are removed from an image's folder.
ghost use Rattle.std.specs.Prelude.{◌≡◌, ◌+◌, ◌-◌, ◌^◌, min};
ghost use Rattle.shared_disk.specs.Calls.{Told};
ghost use Rattle.shared_disk.specs.Step.{EndsOnlyBy, IsDiskRefusal, StepCounts};
ghost use Rattle.settling_steps.specs.Names.{name_of, temporary_name};

use crate::names::{Temporary, has_ids};
use sd_names::{Dir, HostId, Name, Place, Turn};
use shared_disk::{DiskAnswer, SharedDisk, refusal_for};

/// How far a tidying is.
#[derive(Clone, Copy, Debug)]
pub(crate) enum Stage {
    /// The names up to this one were listed, and no temporary one of them is left.
    Listing(Option<Name>),
    /// This temporary name comes next, and is to be removed.
    Removing(Temporary),
}

/// The removal of the temporary names of an image's folder, in steps of one disk call: the folder is listed name by name, and
/// each text that a cut write left beside a volume's text, `<v>.meta.new` or `<v>.meta.volatile`, is removed as it is listed.
#[derive(Clone, Copy, Debug)]
pub struct Tidying {
    dir: Dir,
    stage: Stage,
}

impl Tidying {
    ghost use Rattle.settling_steps.specs.Leftovers.{CallOf, IsBegun, IsRise, Lists, Meets, MeetsIn, Nears, NearsIn, RemovesName, TidyLeaves, at_stage, met_stage};

    /// The tidying of an image's folder.
    pub fn begin(dir: Dir) -> Tidying
        ensures { IsBegun dir result }
    {
        Tidying {
            dir,
            stage: Stage::Listing(None),
        }
    }

    /// Makes one call of the disk. At `Done` no temporary name is left. 120 and 122 come from the disk.
    pub fn step<D: SharedDisk>(self, host: HostId, disk: &mut D) -> Turn<Tidying, (), ()>
        ensures counts { StepCounts (D.faults disk.old) (D.faults disk.new) (D.calls disk.old) (D.calls disk.new) result }
        ensures counted { D.calls disk.new ≡ min (D.calls disk.old + 1) (2 ^ 64 - 1) }
        ensures refusals { EndsOnlyBy IsDiskRefusal result }
        ensures rises { Meets IsRise self result }
        ensures falls { Nears self result }
        ensures call { Told (D.content disk.old) (D.content disk.new) (CallOf self (D.faults disk.new) result) }
        ensures content { Told (D.content disk.old) (D.content disk.new) (TidyLeaves self (D.faults disk.new) result) }
    {
        match self.stage {
            Stage::Listing(after) => self.list(after, host, disk),
            Stage::Removing(temporary) => self.remove(temporary, host, disk),
        }
    }

    // The same tidying in another stage.
    fn at(self, stage: Stage) -> Tidying
        ensures { result ≡ at_stage self stage }
    {
        Tidying {
            dir: self.dir,
            stage,
        }
    }

    // The next name of the folder.
    fn list<D: SharedDisk>(
        self,
        after: Option<Name>,
        host: HostId,
        disk: &mut D,
    ) -> Turn<Tidying, (), ()>
        ensures counts { StepCounts (D.faults disk.old) (D.faults disk.new) (D.calls disk.old) (D.calls disk.new) result }
        ensures counted { D.calls disk.new ≡ min (D.calls disk.old + 1) (2 ^ 64 - 1) }
        ensures refusals { EndsOnlyBy IsDiskRefusal result }
        ensures rises { MeetsIn IsRise (Stage.Listing after) result }
        ensures falls { NearsIn self (Stage.Listing after) result }
        ensures content { Told (D.content disk.old) (D.content disk.new) (Lists self after (D.faults disk.new) result) }
    {
        match disk.next_name(host, self.dir, after) {
            Ok(None) => Turn::Done(()),
            Ok(Some(name)) => {
                has_ids(&name);
                Turn::More(self.meet(name))
            }
            Err(answer) => Turn::Ended((), refusal_for(answer, disk)),
        }
    }

    // A name was listed.
    fn meet(self, name: Name) -> Tidying
        ensures { result ≡ at_stage self (met_stage name (temporary_name name)) }
    {
        match Temporary::of(name) {
            Some(temporary) => self.at(Stage::Removing(temporary)),
            None => self.at(Stage::Listing(Some(name))),
        }
    }

    // A temporary text is removed, unless it is gone.
    fn remove<D: SharedDisk>(
        self,
        temporary: Temporary,
        host: HostId,
        disk: &mut D,
    ) -> Turn<Tidying, (), ()>
        ensures counts { StepCounts (D.faults disk.old) (D.faults disk.new) (D.calls disk.old) (D.calls disk.new) result }
        ensures counted { D.calls disk.new ≡ min (D.calls disk.old + 1) (2 ^ 64 - 1) }
        ensures refusals { EndsOnlyBy IsDiskRefusal result }
        ensures rises { MeetsIn IsRise (Stage.Removing temporary) result }
        ensures falls { NearsIn self (Stage.Removing temporary) result }
        ensures content { Told (D.content disk.old) (D.content disk.new) (RemovesName self temporary (D.faults disk.new) result) }
    {
        let name = temporary.name();
        let place = Place {
            dir: self.dir,
            name,
        };
        match disk.remove(host, place) {
            Ok(()) | Err(DiskAnswer::NoFile) => Turn::More(self.at(Stage::Listing(Some(name)))),
            Err(answer) => Turn::Ended((), refusal_for(answer, disk)),
        }
    }
}
