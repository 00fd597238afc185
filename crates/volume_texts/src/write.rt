// Writing a volume's text: a new file beside it is written and synced, then takes its name.
ghost use Rattle.std.specs.Prelude.{◌≡◌, ◌≢◌, ◌+◌, ◌-◌, ◌^◌, min, length};
ghost use Rattle.shared_disk.specs.Calls.{Told};
ghost use Rattle.shared_disk.specs.Step.{EndsOnlyBy, IsDiskRefusal, NearsEnd, StepCounts};
ghost use Rattle.volume_meta.specs.Text.{HasShortTexts};
ghost use Rattle.whole_file.specs.Replace.{stage_of as replace_stage, target_of, volatile_of as replace_volatile};
ghost use Rattle.whole_file.specs.declared.replace.Stage.TheVariants.{Begun};

use sd_names::{Dir, HostId, Id, Name, Place, Turn};
use shared_disk::SharedDisk;
use volume_meta::{VolumeRecord, write_into};
use whole_file::{LONGEST, Replace};

/// A write of a volume's text into its file, in steps of one disk call: the file has the new text afterwards, or, where the
/// write is cut, is as it was. The file beside it is `<v>.meta.new`, which nobody else uses.
#[derive(Clone, Copy, Debug)]
pub struct TextWrite {
    replace: Replace,
    version: u8,
    ghost apart: { target_of replace ≢ replace_volatile replace },
}

impl TextWrite {
    ghost use Rattle.volume_texts.specs.Write.{CallOf, IsFor, IsSameWrite, Knows, WriteSteps, new_place, stage_of, text_place, volatile_of, write_left};
    ghost use Rattle.volume_texts.specs.Write.{file_of, version_of};

    /// A write of a record as the text of a volume in an image's folder, by the version of its domain. The record's
    /// description has at most 4,096 bytes and its disk type at most 16, as in every record that `volume_meta::read` gives.
    pub fn begin(dir: Dir, volume: Id, version: u8, says: &VolumeRecord) -> TextWrite
        requires { HasShortTexts says.now }
        ensures file { file_of result ≡ text_place dir volume }
        ensures volatile { volatile_of result ≡ new_place dir volume }
        ensures version { version_of result ≡ version }
        ensures text { IsFor says.now result }
        ensures stage { stage_of result ≡ Begun }
    {
        let mut text = [0; LONGEST];
        let length = write_into(version, says, &mut text);
        let target = Place {
            dir,
            name: Name::Meta(volume),
        };
        TextWrite {
            replace: Replace::begin(target, Name::MetaNew(volume), length),
            version,
        }
    }

    /// Makes one call of the disk, of five at the most. The record is the one of `begin`, unchanged. At `Done` its text is
    /// on the medium. 120 and 122 come from the disk.
    pub fn step<D: SharedDisk>(
        self,
        host: HostId,
        disk: &mut D,
        says: &VolumeRecord,
    ) -> Turn<TextWrite, (), ()>
        requires short { HasShortTexts says.now }
        requires same { IsFor says.now self }
        ensures counts { StepCounts (D.faults disk.old) (D.faults disk.new) (D.calls disk.old) (D.calls disk.new) result }
        ensures counted { D.calls disk.new ≡ min (D.calls disk.old + 1) (2 ^ 64 - 1) }
        ensures refusals { EndsOnlyBy IsDiskRefusal result }
        ensures keeps { NearsEnd (IsSameWrite self) write_left (write_left self) result }
        ensures call { Told (D.content disk.old) (D.content disk.new) (CallOf self host (D.faults disk.new) says.now result) }
        ensures content { Told (D.content disk.old) (D.content disk.new) (λ d e. Knows self host says.now d → WriteSteps self host (D.faults disk.new) says.now result d e) }
    {
        let version = self.version;
        let mut text = [0; LONGEST];
        let length = write_into(version, says, &mut text);
        match self.replace.step(host, disk, &text[..length]) {
            Turn::More(replace) => Turn::More(TextWrite { replace, version }),
            Turn::Done(()) => Turn::Done(()),
            Turn::Ended((), refusal) => Turn::Ended((), refusal),
        }
    }
}
