// Making the files of an image: what is made, and how far it is.
ghost use Rattle.std.specs.Prelude.{◌≡◌, ◌+◌, ◌-◌, ◌^◌, min, length};
ghost use Rattle.shared_disk.specs.Calls.{Told};
ghost use Rattle.shared_disk.specs.Step.{EndsOnlyBy, IsDiskRefusal, NearsEnd, StepCounts};
ghost use Rattle.volume_meta.specs.Text.{HasShortTexts, volume_text};
ghost use Rattle.volume_meta.specs.Valid.{IsCapacity};
ghost use Rattle.image_making.specs.Record.{IsBase};
ghost use Rattle.image_making.specs.Writing.{length_kept};

use layer_creating::Creating;
use sd_names::{HostId, Id, Turn};
use shared_disk::SharedDisk;
use volume_meta::VolumeRecord;
use whole_file::Replace;

/// An image that is to be made, of one volume.
#[derive(Debug, Drop)]
pub struct NewImage {
    /// The version of the image's domain, by which the volume's text is written: CAP stands in that of 5, SIZE and MTIME in
    /// that of 4.
    pub version: u8,
    /// The volume.
    pub volume: Id,
    /// What the volume's text says, its domain and its image among it.
    pub says: VolumeRecord,
}

/// How far a making is.
#[derive(Clone, Copy, Debug)]
pub enum Stage {
    /// The image's folder isn't there.
    Begun,
    /// The folder is there, and the raw volume's file isn't.
    Filling,
    /// The raw volume's file is there, with zeros, not yet on the medium.
    Syncing,
    /// The folder is there; the layer's file is made.
    Layering(Creating),
    /// The volume's file is on the medium; its text is written.
    Writing(Replace),
}

/// The files of a new image are made, in steps of one disk call: its folder; the file of its volume, of the capacity's length
/// for a raw one, of 1,310,720 bytes for a layer; and last, by one rename, the volume's text: from then on the volume counts.
#[derive(Drop)]
pub struct ImageMaking {
    pub(crate) image: NewImage,
    pub(crate) stage: Stage,
    ghost capacity: { IsCapacity image.says.capacity },
    ghost short: { HasShortTexts image.says },
    ghost text: { length_kept stage (length (volume_text image.version image.says)) ≡ length (volume_text image.version image.says) },
}

impl ImageMaking {
    ghost use Rattle.image_making.specs.Making.{IsOf, image_of, making_left, stage_of};
    ghost use Rattle.image_making.specs.Steps.{CallOf, Knows, MakeSteps};

    /// The making of an image of one LEGAL leaf without a parent.
    pub fn begin(image: NewImage) -> ImageMaking
        requires { IsBase image.says }
        ensures image { image_of result ≡ image }
        ensures stage { stage_of result ≡ Stage.Begun }
    {
        ImageMaking {
            image,
            stage: Stage::Begun,
        }
    }

    /// Makes one call of the disk, of twelve at the most. At `Done` the image is there, whole and on the medium. 120 is the
    /// disk's fault; 122 comes where the image's folder is there already, or the domain's folder of images isn't.
    pub fn step<D: SharedDisk>(self, host: HostId, disk: &mut D) -> Turn<ImageMaking, (), ()>
        ensures counts { StepCounts (D.faults disk.old) (D.faults disk.new) (D.calls disk.old) (D.calls disk.new) result }
        ensures counted { D.calls disk.new ≡ min (D.calls disk.old + 1) (2 ^ 64 - 1) }
        ensures refusals { EndsOnlyBy IsDiskRefusal result }
        ensures keeps { NearsEnd (IsOf (image_of self)) making_left (making_left self) result }
        ensures call { Told (D.content disk.old) (D.content disk.new) (CallOf (stage_of self) self host (D.faults disk.new) result) }
        ensures content { Told (D.content disk.old) (D.content disk.new) (λ d e. Knows self host d → MakeSteps self host (D.faults disk.new) result d e) }
    {
        match self.stage {
            Stage::Begun => self.make_folder(host, disk),
            Stage::Filling => self.fill(host, disk),
            Stage::Syncing => self.sync(host, disk),
            Stage::Layering(creating) => self.layer(creating, host, disk),
            Stage::Writing(replace) => self.write(replace, host, disk),
        }
    }
}
