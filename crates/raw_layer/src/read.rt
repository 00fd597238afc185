// Reading a part of a raw volume, by one call of the disk.
ghost use Rattle.std.specs.Prelude.{◌≡◌, ◌-◌, ◌%◌, ◌≤◌, ◌++◌, length, take, replicate};
ghost use Rattle.shared_disk.specs.Calls.{IsAligned, IsPiece, Told};
ghost use Rattle.shared_disk.specs.Step.{EndsOnlyBy, IsDiskRefusal, IsLast, StepCounts};

use crate::Raw;
use sd_names::{HostId, Place, Turn};
use shared_disk::{SharedDisk, refusal_for};

/// A read of a part of a raw volume from an offset on.
#[derive(Clone, Copy, Debug)]
pub struct RawRead {
    place: Place,
    at: u64,
    ghost aligned: { at % 512 ≡ 0 },
}

impl RawRead {
    ghost use Rattle.raw_layer.specs.Raw.{ReadSteps, place_of, read_place, read_from};

    /// A read from the offset `at` on, in bytes and a multiple of 512.
    pub fn begin(raw: &Raw, at: u64) -> RawRead
        requires { IsAligned at }
        ensures place { read_place result ≡ place_of raw.now }
        ensures at { read_from result ≡ at }
    {
        RawRead {
            place: raw.place,
            at,
        }
    }

    /// Reads the part, which is 512 to 65,536 bytes and a multiple of 512: the file's bytes, then zeros.
    pub fn step<D: SharedDisk>(
        self,
        host: HostId,
        disk: &mut D,
        part: &mut [u8],
    ) -> Turn<RawRead, (), ()>
        requires { IsPiece (length part.old) }
        ensures counts { StepCounts (D.faults disk.old) (D.faults disk.new) (D.calls disk.old) (D.calls disk.new) result }
        ensures refusals { EndsOnlyBy IsDiskRefusal result }
        ensures last { IsLast result }
        ensures content { Told (D.content disk.old) (D.content disk.new) (ReadSteps self host (D.faults disk.new) part.new result) }
    {
        match disk.read_at(host, self.place, self.at, part) {
            Ok(count) => {
                zero_from(part, count);
                Turn::Done(())
            }
            Err(answer) => Turn::Ended((), refusal_for(answer, disk)),
        }
    }
}

// Zeros from an index on.
fn zero_from(part: &mut [u8], count: usize)
    requires { count ≤ length part.old }
    ensures { part.new ≡ take count part.old ++ replicate (length part.old - count) 0 }
{
    part[count..].fill(0);
}
