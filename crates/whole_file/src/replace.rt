// Replacing a file's text: a new file under another name is written and synced, then takes the target's name.
ghost use Rattle.std.specs.Prelude.{◌≡◌, ◌≢◌, ◌+◌, ◌-◌, ◌^◌, ◌++◌, ◌≤◌, ◌<◌, min, length, replicate};
ghost use Rattle.sd_names.specs.Turn.{MatchTurn};
ghost use Rattle.shared_disk.specs.Calls.{Told};
ghost use Rattle.whole_file.specs.Text.{padded, sectors_for};

use crate::LONGEST;
use sd_names::{HostId, Name, Place, Turn};
use shared_disk::{DiskAnswer, SharedDisk, refusal_for};

/// How far a replacement is.
#[derive(Clone, Copy, Debug)]
pub enum Stage {
    /// A file that was left under the volatile name may be there.
    Begun,
    /// No file has the volatile name.
    Cleared,
    /// The volatile file is there, with zeros.
    Created,
    /// The volatile file has the text, not yet synced.
    Written,
    /// The volatile file has the text, on the medium.
    Synced,
}

/// A replacement of a file's text, in steps of one disk call: what was left under the volatile name is removed, then the
/// volatile file is made, written, synced, and takes the target's name.
#[derive(Clone, Copy, Debug)]
pub struct Replace {
    target: Place,
    volatile: Name,
    length: usize,
    stage: Stage,
    ghost other: { target.name ≢ volatile },
    ghost fits: { length ≤ 8192 },
}

impl Replace {
    ghost use Rattle.whole_file.specs.Replace.{CallOf, Clears, IsAt, IsSameReplace, Knows, Makes, Steps, SyncsText, TakesName, Writes, length_of, replace_left, stage_of, target_of, volatile_of};
    ghost use Rattle.shared_disk.specs.NameCalls.{place_in};
    ghost use Rattle.shared_disk.specs.Step.{EndsOnlyBy, IsDiskRefusal, NearsEnd, StepCounts};

    /// A replacement of the file at `target` by a text of `length` bytes, 0 to 8,192. The volatile name is another one
    /// in the target's folder, which nobody else uses.
    pub fn begin(target: Place, volatile: Name, length: usize) -> Replace
        requires other { target.name ≢ volatile }
        requires fits { length ≤ 8192 }
        ensures target { target_of result ≡ target }
        ensures volatile { volatile_of result ≡ place_in target.dir volatile }
        ensures length { length_of result ≡ length }
        ensures stage { stage_of result ≡ Stage.Begun }
    {
        Replace {
            target,
            volatile,
            length,
            stage: Stage::Begun,
        }
    }

    /// Makes one call of the disk. The text has the length that `begin` was told, and is the same in each step. At
    /// `Done` the target has the text on the medium, and no file has the volatile name.
    pub fn step<D: SharedDisk>(
        self,
        host: HostId,
        disk: &mut D,
        text: &[u8],
    ) -> Turn<Replace, (), ()>
        requires same { length text.now ≡ length_of self }
        ensures counts { StepCounts (D.faults disk.old) (D.faults disk.new) (D.calls disk.old) (D.calls disk.new) result }
        ensures counted { D.calls disk.new ≡ min (D.calls disk.old + 1) (2 ^ 64 - 1) }
        ensures refusals { EndsOnlyBy IsDiskRefusal result }
        ensures keeps { NearsEnd (IsSameReplace self) replace_left (replace_left self) result }
        ensures call { Told (D.content disk.old) (D.content disk.new) (CallOf (stage_of self) self host (D.faults disk.new) text.now result) }
        ensures content { Told (D.content disk.old) (D.content disk.new) (λ d e. Knows self host text.now d → Steps self host (D.faults disk.new) text.now result d e) }
    {
        match self.stage {
            Stage::Begun => self.clear(host, disk),
            Stage::Cleared => self.create(host, disk),
            Stage::Created => {
                if self.length == 0 {
                    self.sync(host, disk)
                } else {
                    self.write(host, disk, text)
                }
            }
            Stage::Written => self.sync(host, disk),
            Stage::Synced => self.rename(host, disk),
        }
    }

    // The place of the volatile file.
    fn volatile_place(&self) -> Place
        ensures { result ≡ volatile_of self.now }
    {
        Place {
            dir: self.target.dir,
            name: self.volatile,
        }
    }

    // The replacement in another stage.
    fn at(self, stage: Stage) -> Replace
        ensures { IsAt self stage result }
    {
        Replace {
            target: self.target,
            volatile: self.volatile,
            length: self.length,
            stage,
        }
    }

    // What an earlier attempt left under the volatile name is removed.
    fn clear<D: SharedDisk>(self, host: HostId, disk: &mut D) -> Turn<Replace, (), ()>
        ensures counts { StepCounts (D.faults disk.old) (D.faults disk.new) (D.calls disk.old) (D.calls disk.new) result }
        ensures counted { D.calls disk.new ≡ min (D.calls disk.old + 1) (2 ^ 64 - 1) }
        ensures next { MatchTurn result (IsAt self Stage.Cleared) (λ _. ⊥) (λ _ refusal. IsDiskRefusal refusal) }
        ensures content { Told (D.content disk.old) (D.content disk.new) (Clears self (D.faults disk.new) result) }
    {
        match disk.remove(host, self.volatile_place()) {
            Ok(()) | Err(DiskAnswer::NoFile) => Turn::More(self.at(Stage::Cleared)),
            Err(answer) => Turn::Ended((), refusal_for(answer, disk)),
        }
    }

    // The volatile file is made, with room for the text.
    fn create<D: SharedDisk>(self, host: HostId, disk: &mut D) -> Turn<Replace, (), ()>
        ensures counts { StepCounts (D.faults disk.old) (D.faults disk.new) (D.calls disk.old) (D.calls disk.new) result }
        ensures counted { D.calls disk.new ≡ min (D.calls disk.old + 1) (2 ^ 64 - 1) }
        ensures next { MatchTurn result (IsAt self Stage.Created) (λ _. ⊥) (λ _ refusal. IsDiskRefusal refusal) }
        ensures content { Told (D.content disk.old) (D.content disk.new) (Makes self host (D.faults disk.new) result) }
    {
        let length = self.length.div_ceil(512) as u64 * 512;
        match disk.create(host, self.volatile_place(), length) {
            Ok(()) => Turn::More(self.at(Stage::Created)),
            Err(answer) => Turn::Ended((), refusal_for(answer, disk)),
        }
    }

    // The text is written, with zeros up to whole sectors.
    fn write<D: SharedDisk>(self, host: HostId, disk: &mut D, text: &[u8]) -> Turn<Replace, (), ()>
        requires same { length text.now ≡ length_of self }
        requires some { 0 < length text.now }
        ensures counts { StepCounts (D.faults disk.old) (D.faults disk.new) (D.calls disk.old) (D.calls disk.new) result }
        ensures counted { D.calls disk.new ≡ min (D.calls disk.old + 1) (2 ^ 64 - 1) }
        ensures next { MatchTurn result (IsAt self Stage.Written) (λ _. ⊥) (λ _ refusal. IsDiskRefusal refusal) }
        ensures content { Told (D.content disk.old) (D.content disk.new) (Writes self host (D.faults disk.new) text.now result) }
    {
        let mut room = [0; LONGEST];
        let piece = pad(text, &mut room);
        match disk.write_at(host, self.volatile_place(), 0, piece) {
            Ok(()) => Turn::More(self.at(Stage::Written)),
            Err(answer) => Turn::Ended((), refusal_for(answer, disk)),
        }
    }

    // The text is put onto the medium.
    fn sync<D: SharedDisk>(self, host: HostId, disk: &mut D) -> Turn<Replace, (), ()>
        ensures counts { StepCounts (D.faults disk.old) (D.faults disk.new) (D.calls disk.old) (D.calls disk.new) result }
        ensures counted { D.calls disk.new ≡ min (D.calls disk.old + 1) (2 ^ 64 - 1) }
        ensures next { MatchTurn result (IsAt self Stage.Synced) (λ _. ⊥) (λ _ refusal. IsDiskRefusal refusal) }
        ensures content { Told (D.content disk.old) (D.content disk.new) (SyncsText self host (D.faults disk.new) result) }
    {
        match disk.sync(host, self.volatile_place()) {
            Ok(()) => Turn::More(self.at(Stage::Synced)),
            Err(answer) => Turn::Ended((), refusal_for(answer, disk)),
        }
    }

    // The volatile file takes the target's name.
    fn rename<D: SharedDisk>(self, host: HostId, disk: &mut D) -> Turn<Replace, (), ()>
        ensures counts { StepCounts (D.faults disk.old) (D.faults disk.new) (D.calls disk.old) (D.calls disk.new) result }
        ensures counted { D.calls disk.new ≡ min (D.calls disk.old + 1) (2 ^ 64 - 1) }
        ensures last { MatchTurn result (λ _. ⊥) (λ _. Unit {0}) (λ _ refusal. IsDiskRefusal refusal) }
        ensures content { Told (D.content disk.old) (D.content disk.new) (TakesName self (D.faults disk.new) result) }
    {
        match disk.rename(host, self.volatile_place(), self.target.name) {
            Ok(()) => Turn::Done(()),
            Err(answer) => Turn::Ended((), refusal_for(answer, disk)),
        }
    }
}

// A text, and zeros up to whole sectors.
fn pad<'a>(text: &[u8], room: &'a mut [u8; LONGEST]) -> &'a [u8]
    requires fits { length text.now ≤ 8192 }
    requires zeros { room.old ≡ replicate 8192 0 }
    ensures { result.now ≡ padded text.now }
{
    room[..text.len()].copy_from_slice(text);
    &room[..text.len().div_ceil(512) * 512]
}
