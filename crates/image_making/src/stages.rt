// The step of each stage: one call of the disk.
ghost use Rattle.std.specs.Prelude.{◌≡◌, ◌≤◌, ◌+◌, ◌-◌, ◌^◌, min, length};
ghost use Rattle.shared_disk.specs.Calls.{Told};
ghost use Rattle.shared_disk.specs.Step.{EndsOnlyBy, IsDiskRefusal, NearsEnd, StepCounts};
ghost use Rattle.volume_meta.specs.Text.{HasShortTexts};
ghost use Rattle.layer_creating.specs.Creating.{Knows as KnowsLayer};
ghost use Rattle.whole_file.specs.Replace.{Knows as KnowsReplace, length_of};
ghost use Rattle.image_making.specs.Making.{IsAt, IsBehindFile, IsBehindFolder, IsOf, image_of, left_of, making_left, text_of};
ghost use Rattle.image_making.specs.NewImage.{folder_of, volume_place};
ghost use Rattle.image_making.specs.Writing.{length_kept};
ghost use Rattle.image_making.specs.Steps.{FillsFile, LayersFile, MakesFolder, StepsLayer, StepsText, SyncsFile, WritesText};

use crate::making::{ImageMaking, Stage};
use layer_creating::Creating;
use sd_names::{Dir, Format, HostId, Name, Place, Turn};
use shared_disk::{SharedDisk, refusal_for};
use volume_meta::write_into;
use whole_file::{LONGEST, Replace};

/// The length of a new layer's file in bytes: twenty clusters.
const LAYER: u64 = 1_310_720;

impl ImageMaking {
    // The making in another stage.
    fn at(self, stage: Stage) -> ImageMaking
        requires text { length_kept stage (length (text_of self)) ≡ length (text_of self) }
        ensures { IsAt self stage result }
    {
        ImageMaking {
            image: self.image,
            stage,
        }
    }

    // The image's folder.
    fn folder(&self) -> Dir
        ensures { result ≡ folder_of (image_of self.now) }
    {
        Dir::Image(self.image.says.domain, self.image.says.image)
    }

    // The place of the volume's file.
    fn file(&self) -> Place
        ensures { result ≡ volume_place (image_of self.now) }
    {
        Place {
            dir: self.folder(),
            name: Name::Volume(self.image.volume),
        }
    }

    // The image's folder is made.
    pub(crate) fn make_folder<D: SharedDisk>(
        self,
        host: HostId,
        disk: &mut D,
    ) -> Turn<ImageMaking, (), ()>
        ensures counts { StepCounts (D.faults disk.old) (D.faults disk.new) (D.calls disk.old) (D.calls disk.new) result }
        ensures counted { D.calls disk.new ≡ min (D.calls disk.old + 1) (2 ^ 64 - 1) }
        ensures refusals { EndsOnlyBy IsDiskRefusal result }
        ensures keeps { NearsEnd (IsOf (image_of self)) making_left 12 result }
        ensures content { Told (D.content disk.old) (D.content disk.new) (MakesFolder self (D.faults disk.new) result) }
    {
        match disk.make_dir(host, self.folder()) {
            Ok(()) => Turn::More(self.behind_folder()),
            Err(answer) => Turn::Ended((), refusal_for(answer, disk)),
        }
    }

    // The making once the folder is there.
    fn behind_folder(self) -> ImageMaking
        ensures folder { IsBehindFolder self result }
        ensures left { making_left result ≤ 11 }
    {
        match self.image.says.format {
            Format::Raw => self.at(Stage::Filling),
            Format::Cow => {
                let creating = Creating::begin(self.file(), self.image.says.capacity, None, LAYER);
                self.at(Stage::Layering(creating))
            }
        }
    }

    // A raw volume's file is made, of the capacity's length.
    pub(crate) fn fill<D: SharedDisk>(self, host: HostId, disk: &mut D) -> Turn<ImageMaking, (), ()>
        ensures counts { StepCounts (D.faults disk.old) (D.faults disk.new) (D.calls disk.old) (D.calls disk.new) result }
        ensures counted { D.calls disk.new ≡ min (D.calls disk.old + 1) (2 ^ 64 - 1) }
        ensures refusals { EndsOnlyBy IsDiskRefusal result }
        ensures keeps { NearsEnd (IsOf (image_of self)) making_left 7 result }
        ensures content { Told (D.content disk.old) (D.content disk.new) (FillsFile self host (D.faults disk.new) result) }
    {
        match disk.create(host, self.file(), self.image.says.capacity) {
            Ok(()) => Turn::More(self.at(Stage::Syncing)),
            Err(answer) => Turn::Ended((), refusal_for(answer, disk)),
        }
    }

    // A raw volume's file is put onto the medium.
    pub(crate) fn sync<D: SharedDisk>(self, host: HostId, disk: &mut D) -> Turn<ImageMaking, (), ()>
        ensures counts { StepCounts (D.faults disk.old) (D.faults disk.new) (D.calls disk.old) (D.calls disk.new) result }
        ensures counted { D.calls disk.new ≡ min (D.calls disk.old + 1) (2 ^ 64 - 1) }
        ensures refusals { EndsOnlyBy IsDiskRefusal result }
        ensures keeps { NearsEnd (IsOf (image_of self)) making_left 6 result }
        ensures content { Told (D.content disk.old) (D.content disk.new) (SyncsFile self host (D.faults disk.new) result) }
    {
        match disk.sync(host, self.file()) {
            Ok(()) => Turn::More(self.behind_file()),
            Err(answer) => Turn::Ended((), refusal_for(answer, disk)),
        }
    }

    // A step of the making of a layer's file.
    pub(crate) fn layer<D: SharedDisk>(
        self,
        creating: Creating,
        host: HostId,
        disk: &mut D,
    ) -> Turn<ImageMaking, (), ()>
        ensures counts { StepCounts (D.faults disk.old) (D.faults disk.new) (D.calls disk.old) (D.calls disk.new) result }
        ensures counted { D.calls disk.new ≡ min (D.calls disk.old + 1) (2 ^ 64 - 1) }
        ensures refusals { EndsOnlyBy IsDiskRefusal result }
        ensures keeps { NearsEnd (IsOf (image_of self)) making_left (left_of (Stage.Layering creating)) result }
        ensures content { Told (D.content disk.old) (D.content disk.new) (LayersFile self creating host (D.faults disk.new) result) }
        ensures steps { Told (D.content disk.old) (D.content disk.new) (λ d e. KnowsLayer creating host d → StepsLayer self creating host (D.faults disk.new) result d e) }
    {
        match creating.step(host, disk) {
            Turn::More(next) => Turn::More(self.at(Stage::Layering(next))),
            Turn::Done(()) => Turn::More(self.behind_file()),
            Turn::Ended((), refusal) => Turn::Ended((), refusal),
        }
    }

    // The making once the volume's file is on the medium.
    fn behind_file(self) -> ImageMaking
        ensures file { IsBehindFile self result }
        ensures left { making_left result ≤ 5 }
    {
        let mut text = [0; LONGEST];
        let length = write_into(self.image.version, &self.image.says, &mut text);
        let target = Place {
            dir: self.folder(),
            name: Name::Meta(self.image.volume),
        };
        let replace = Replace::begin(target, Name::MetaVolatile(self.image.volume), length);
        self.at(Stage::Writing(replace))
    }

    // A step of the replacement that gives the volume its text.
    pub(crate) fn write<D: SharedDisk>(
        self,
        replace: Replace,
        host: HostId,
        disk: &mut D,
    ) -> Turn<ImageMaking, (), ()>
        requires text { length_of replace ≡ length (text_of self) }
        ensures counts { StepCounts (D.faults disk.old) (D.faults disk.new) (D.calls disk.old) (D.calls disk.new) result }
        ensures counted { D.calls disk.new ≡ min (D.calls disk.old + 1) (2 ^ 64 - 1) }
        ensures refusals { EndsOnlyBy IsDiskRefusal result }
        ensures keeps { NearsEnd (IsOf (image_of self)) making_left (left_of (Stage.Writing replace)) result }
        ensures content { Told (D.content disk.old) (D.content disk.new) (WritesText self replace host (D.faults disk.new) result) }
        ensures steps { Told (D.content disk.old) (D.content disk.new) (λ d e. KnowsReplace replace host (text_of self) d → StepsText self replace host (D.faults disk.new) result d e) }
    {
        let mut text = [0; LONGEST];
        let length = write_into(self.image.version, &self.image.says, &mut text);
        match replace.step(host, disk, &text[..length]) {
            Turn::More(next) => Turn::More(self.at(Stage::Writing(next))),
            Turn::Done(()) => Turn::Done(()),
            Turn::Ended((), refusal) => Turn::Ended((), refusal),
        }
    }
}
