// Writing a part of a raw volume of an open chain: room is asked for, then the part is written, then synced.
ghost use Rattle.std.specs.Prelude.{◌≡◌, ◌+◌, ◌<◌, ◌^◌, length};
ghost use Rattle.shared_disk.specs.Calls.{IsAligned, IsPiece, Told};
ghost use Rattle.shared_disk.specs.Step.{EndsOnlyBy, NearsEnd, StepCounts};

use raw_layer::{Raw, RawWrite};
use sd_names::{HostId, Id, Turn};
use shared_disk::SharedDisk;
use volume_chain::Chain;

/// The write of a part of a raw volume of an open chain from an offset on, in three steps of one call of the disk: the
/// file's length is asked, the part is written, and it is synced.
#[derive(Clone, Copy, Debug)]
pub struct RawWriting {
    pub(crate) volume: Id,
    pub(crate) write: RawWrite,
}

impl RawWriting {
    ghost use Rattle.raw_writing.specs.Writing.{IsBegun, IsSameWriting, IsWritingRefusal, WritesOn, from_of, steps_left};

    /// A write from the offset `at` on, in bytes and a multiple of 512, of a raw volume of the chain's path.
    pub fn begin(chain: &Chain, volume: Id, at: u64) -> RawWriting
        requires { IsAligned at }
        ensures { IsBegun chain.now volume at result }
    {
        let capacity = match chain.volume(&volume) {
            Some(record) => record.capacity,
            None => 0,
        };
        let raw = Raw::new(chain.place(&volume), capacity, 0);
        let write = RawWrite::begin(&raw, at);
        RawWriting { volume, write }
    }

    /// Makes one call of the disk. The part is 512 to 65,536 bytes, a multiple of 512, and the same in each step; its end is
    /// below 2^64. At `Done` the part is on the medium. 71 comes where the part ends past the file, and changes nothing; 120
    /// is the disk's fault; 122 comes where the file isn't there.
    pub fn step<D: SharedDisk>(
        self,
        host: HostId,
        disk: &mut D,
        part: &[u8],
    ) -> Turn<RawWriting, (), ()>
        requires piece { IsPiece (length part.now) }
        requires end { from_of self + length part.now < 2 ^ 64 }
        ensures counts { StepCounts (D.faults disk.old) (D.faults disk.new) (D.calls disk.old) (D.calls disk.new) result }
        ensures refusals { EndsOnlyBy (IsWritingRefusal self (length part.now)) result }
        ensures falls { NearsEnd (IsSameWriting self) steps_left (steps_left self) result }
        ensures content { Told (D.content disk.old) (D.content disk.new) (WritesOn self host (D.faults disk.new) part.now result) }
    {
        match self.write.step(host, disk, part) {
            Turn::More(write) => Turn::More(RawWriting {
                volume: self.volume,
                write,
            }),
            Turn::Done(()) => Turn::Done(()),
            Turn::Ended((), refusal) => Turn::Ended((), refusal),
        }
    }
}
