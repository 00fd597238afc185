// Writing a part of a raw volume: the length is asked where it isn't known, then the part is written, then synced.
ghost use Rattle.std.specs.Prelude.{◌≡◌, ◌⊎◌, ℕ, ◌+◌, ◌%◌, ◌<◌, ◌^◌, length};
ghost use Rattle.shared_disk.specs.Calls.{IsAligned, IsPiece, Told};
ghost use Rattle.sd_names.specs.Turn.{MatchTurn};
ghost use Rattle.sd_names.specs.declared.refusal.Refusal.TheVariants.{NoRoom};
ghost use Rattle.shared_disk.specs.Step.{EndsOnlyBy, IsDiskRefusal, NearsEnd, StepCounts};
ghost use Rattle.raw_layer.specs.Place.{volume_of};

use crate::Raw;
use sd_names::{HostId, Id, Name, Place, Refusal, Turn};
use shared_disk::{SharedDisk, refusal_for};

/// What is known in the course of a write.
#[derive(Clone, Copy, Debug)]
pub enum Stage {
    /// The file had at least this length, in bytes.
    Begun(u64),
    /// The part lies within the file.
    Fits,
    /// The part is written, and not yet synced.
    Written,
}

/// A write of a part of a raw volume from an offset on.
#[derive(Clone, Copy, Debug)]
pub struct RawWrite {
    place: Place,
    at: u64,
    stage: Stage,
    ghost aligned: { at % 512 ≡ 0 },
}

impl RawWrite {
    ghost use Rattle.raw_layer.specs.Raw.{AsksLength, IsAt, IsSameWrite, IsWriteRefusal, SyncsFile, WriteSteps, WritesPart, known_length_of, place_of, stage_of, write_from, write_left, write_place};

    /// A write from the offset `at` on, in bytes and a multiple of 512.
    pub fn begin(raw: &Raw, at: u64) -> RawWrite
        requires { IsAligned at }
        ensures place { write_place result ≡ place_of raw.now }
        ensures at { write_from result ≡ at }
        ensures stage { stage_of result ≡ Stage.Begun (known_length_of raw.now) }
    {
        RawWrite {
            place: raw.place,
            at,
            stage: Stage::Begun(raw.length),
        }
    }

    /// Makes one call of the disk. The part is 512 to 65,536 bytes, a multiple of 512, and the same in each step; its
    /// end is below 2^64. At `Done` the part is synced.
    pub fn step<D: SharedDisk>(
        self,
        host: HostId,
        disk: &mut D,
        part: &[u8],
    ) -> Turn<RawWrite, (), ()>
        requires piece { IsPiece (length part.now) }
        requires end { write_from self + length part.now < 2 ^ 64 }
        ensures counts { StepCounts (D.faults disk.old) (D.faults disk.new) (D.calls disk.old) (D.calls disk.new) result }
        ensures refusals { EndsOnlyBy (IsWriteRefusal (stage_of self) self (write_from self + length part.now)) result }
        ensures keeps { NearsEnd (IsSameWrite self) write_left (write_left self) result }
        ensures content { Told (D.content disk.old) (D.content disk.new) (WriteSteps (stage_of self) self host (D.faults disk.new) part.now result) }
    {
        match self.stage {
            Stage::Begun(known) => {
                if self.at + part.len() as u64 <= known {
                    self.write(host, disk, part)
                } else {
                    self.ask(host, disk, part.len() as u64)
                }
            }
            Stage::Fits => self.write(host, disk, part),
            Stage::Written => self.sync(host, disk),
        }
    }

    // The part is written; the sync comes next.
    fn write<D: SharedDisk>(self, host: HostId, disk: &mut D, part: &[u8]) -> Turn<RawWrite, (), ()>
        requires { IsPiece (length part.now) }
        ensures counts { StepCounts (D.faults disk.old) (D.faults disk.new) (D.calls disk.old) (D.calls disk.new) result }
        ensures next { MatchTurn result (IsAt self Stage.Written) (λ _. ⊥) (λ _ refusal. IsDiskRefusal refusal) }
        ensures content { Told (D.content disk.old) (D.content disk.new) (WritesPart self host (D.faults disk.new) part.now result) }
    {
        match disk.write_at(host, self.place, self.at, part) {
            Ok(()) => Turn::More(RawWrite {
                place: self.place,
                at: self.at,
                stage: Stage::Written,
            }),
            Err(answer) => Turn::Ended((), refusal_for(answer, disk)),
        }
    }

    // The file's length decides whether there is room for a part of `count` bytes.
    fn ask<D: SharedDisk>(self, host: HostId, disk: &mut D, count: u64) -> Turn<RawWrite, (), ()>
        requires { write_from self + count < 2 ^ 64 }
        ensures counts { StepCounts (D.faults disk.old) (D.faults disk.new) (D.calls disk.old) (D.calls disk.new) result }
        ensures next { MatchTurn result (IsAt self Stage.Fits) (λ _. ⊥) (λ _ refusal. IsDiskRefusal refusal ⊎ ((room : ℕ) × (room < write_from self + count) × (refusal ≡ NoRoom (volume_of (write_place self).name) room (write_from self + count)))) }
        ensures content { Told (D.content disk.old) (D.content disk.new) (AsksLength self (D.faults disk.new) count result) }
    {
        match disk.length(host, self.place) {
            Ok(length) => {
                let end = self.at + count;
                if end <= length {
                    Turn::More(RawWrite {
                        place: self.place,
                        at: self.at,
                        stage: Stage::Fits,
                    })
                } else {
                    Turn::Ended((), Refusal::NoRoom(volume_at(self.place), length, end))
                }
            }
            Err(answer) => Turn::Ended((), refusal_for(answer, disk)),
        }
    }

    // What was written is put onto the medium.
    fn sync<D: SharedDisk>(self, host: HostId, disk: &mut D) -> Turn<RawWrite, (), ()>
        ensures counts { StepCounts (D.faults disk.old) (D.faults disk.new) (D.calls disk.old) (D.calls disk.new) result }
        ensures last { MatchTurn result (λ _. ⊥) (λ _. Unit {0}) (λ _ refusal. IsDiskRefusal refusal) }
        ensures content { Told (D.content disk.old) (D.content disk.new) (SyncsFile self host (D.faults disk.new) result) }
    {
        match disk.sync(host, self.place) {
            Ok(()) => Turn::Done(()),
            Err(answer) => Turn::Ended((), refusal_for(answer, disk)),
        }
    }
}

// The volume whose file this is.
fn volume_at(place: Place) -> Id
    ensures { result ≡ volume_of place.name }
{
    match place.name {
        Name::Volume(v) => v,
        _ => Id::ZERO,
    }
}
