// A guest's write.
ghost use Rattle.std.specs.Prelude.{◌≡◌, ◌%◌, length};
ghost use Rattle.shared_disk.specs.Calls.{IsAligned, IsPiece, Told};
ghost use Rattle.shared_disk.specs.Step.{EndsOnlyBy, StepCounts};
ghost use Rattle.guest_writing.specs.Left.{StageNears};
ghost use Rattle.guest_writing.specs.Way.{KeepsWay, StageFalls, StageKeeps, StageOnWay, StageRefusal};
ghost use Rattle.guest_writing.specs.Writing.{WritesIn};

use crate::finding::find;
use crate::layers::{fill_layer, link_layer, prepare_layer, write_raw};
use crate::stage::Stage;
use sd_names::{HostId, Id, Turn};
use shared_disk::SharedDisk;
use volume_chain::Chain;

// One step of the write of a part of a volume, from a byte on.
fn step_stage<D: SharedDisk>(
    volume: Id,
    at: u64,
    stage: Stage,
    host: HostId,
    chain: &mut Chain,
    disk: &mut D,
    part: &[u8],
    room: &mut [u8],
) -> Turn<Stage, (), ()>
    requires aligned { IsAligned at }
    requires piece { IsPiece (length part.now) }
    requires room { length room.old ≡ 65536 }
    requires way { StageOnWay stage volume at chain.old (length part.now) }
    ensures counts { StepCounts (D.faults disk.old) (D.faults disk.new) (D.calls disk.old) (D.calls disk.new) result }
    ensures refusals { EndsOnlyBy (StageRefusal stage chain.old (length part.now)) result }
    ensures chain { StageKeeps stage chain.old chain.new }
    ensures way { KeepsWay volume at chain.new (length part.now) result }
    ensures falls { StageFalls stage chain.old result }
    ensures left { StageNears stage volume at chain.old chain.new (length part.now) result }
    ensures content { Told (D.content disk.old) (D.content disk.new) (WritesIn stage volume at chain.old chain.new host (D.faults disk.new) part.now room.old room.new result) }
{
    match stage {
        Stage::Begun => Turn::More(find(volume, at, chain, part)),
        Stage::Raw(work) => write_raw(work, host, disk, part),
        Stage::Preparing(index, work) => {
            prepare_layer(volume, at, index, work, host, chain, disk, part)
        }
        Stage::Filling(index, work) => fill_layer(index, work, host, chain, disk, part, room),
        Stage::Linking(index, work) => link_layer(index, work, host, chain, disk),
    }
}

/// The write of a part of a volume of an open chain from an offset on, in steps of at most one call of the disk. In a raw volume
/// the length is asked, the part is written, and synced. In a layer room is found and clusters are taken; the part is written
/// over data, and new clusters are written whole; all is synced; and then the new clusters get their entries.
#[derive(Drop)]
pub struct GuestWrite {
    volume: Id,
    at: u64,
    stage: Stage,
    ghost aligned: { at % 512 ≡ 0 },
}

impl GuestWrite {
    ghost use Rattle.guest_writing.specs.Guest.{Falls, GuestWrites, IsBegun, IsGuestRefusal, IsOnWay, IsWrittenChain, Nears, StaysOnWay};

    /// The write of a part of a volume from the offset `at` on, in bytes and a multiple of 512.
    pub fn begin(volume: Id, at: u64) -> GuestWrite
        requires { IsAligned at }
        ensures { IsBegun volume at result }
    {
        GuestWrite {
            volume,
            at,
            stage: Stage::Begun,
        }
    }

    /// Makes at most one call of the disk. The part has 512 to 65,536 bytes, a multiple of 512, and is the same in each step; it
    /// lies within its volume's capacity, and the volume is one of the chain's path. The room has 65,536 bytes, and holds in each
    /// step what the step before left in it. At `Done` the part is on the medium. 71 comes where room is short, and changes
    /// nothing; 120 and 122 are the disk's.
    pub fn step<D: SharedDisk>(
        self,
        host: HostId,
        chain: &mut Chain,
        disk: &mut D,
        part: &[u8],
        room: &mut [u8],
    ) -> Turn<GuestWrite, (), ()>
        requires piece { IsPiece (length part.now) }
        requires room { length room.old ≡ 65536 }
        requires way { IsOnWay self chain.old (length part.now) }
        ensures counts { StepCounts (D.faults disk.old) (D.faults disk.new) (D.calls disk.old) (D.calls disk.new) result }
        ensures refusals { EndsOnlyBy (IsGuestRefusal self chain.old (length part.now)) result }
        ensures chain { IsWrittenChain self chain.old chain.new }
        ensures way { StaysOnWay chain.new (length part.now) result }
        ensures falls { Falls self chain.old result }
        ensures left { Nears self chain.old chain.new (length part.now) result }
        ensures content { Told (D.content disk.old) (D.content disk.new) (GuestWrites self chain.old chain.new host (D.faults disk.new) part.now room.old room.new result) }
    {
        let volume = self.volume;
        let at = self.at;
        match step_stage(volume, at, self.stage, host, chain, disk, part, room) {
            Turn::More(stage) => Turn::More(GuestWrite { volume, at, stage }),
            Turn::Done(()) => Turn::Done(()),
            Turn::Ended((), refusal) => Turn::Ended((), refusal),
        }
    }
}
