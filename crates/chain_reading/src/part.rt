// Reading a part of a volume through the chain of its image.
ghost use Rattle.std.specs.Prelude.{◌≡◌, ◌/◌, ◌<◌, length};
ghost use Rattle.shared_disk.specs.Calls.{IsAligned, IsPiece, Told};
ghost use Rattle.shared_disk.specs.Step.{EndsOnlyBy, IsDiskRefusal, StepCounts};

use crate::laying::all_missing;
use crate::running::Run;
use qcow_format::Entry;
use qcow_layer::Looking;
use sd_names::{HostId, Id, Turn};
use shared_disk::SharedDisk;
use volume_chain::Chain;

/// How far a read is.
#[derive(Clone, Copy, Debug)]
pub(crate) enum Stage {
    /// The volume wasn't found on the path yet.
    Begun,
    /// It is decided next what is asked of the volume.
    Asking,
    /// The cluster of the first sector behind the run is looked up.
    Looking(Looking),
    /// It has this entry.
    Found(Entry),
}

/// The read of a part of a volume from an offset on, in steps of at most one call of the disk. The volumes of the path are
/// asked one after the other, from the volume to the base of the chain, for the sectors that none before them holds.
/// Sectors that stand side by side in one file are read by one call.
#[derive(Clone, Copy, Debug)]
pub struct ReadPart {
    pub(crate) volume: Id,
    /// The sector of the volume with which the part begins.
    pub(crate) first: u64,
    /// The sectors of the part that no volume was found to hold.
    pub(crate) missing: [bool; 128],
    /// The volume of the path that is asked.
    pub(crate) index: usize,
    /// The sectors of the part that it has side by side, and that are to be read. Those before them were asked for.
    pub(crate) run: Run,
    pub(crate) stage: Stage,
    ghost low: { first < 36028797018963968 },
}

impl ReadPart {
    ghost use Rattle.chain_reading.specs.Left.{Falls};
    ghost use Rattle.chain_reading.specs.Reading.{IsBegun, KeepsPart, ReadsOn};

    /// The read of a part of a volume that begins at the offset `at`, in bytes and a multiple of 512.
    pub fn begin(volume: Id, at: u64) -> ReadPart
        requires { IsAligned at }
        ensures { IsBegun result volume at }
    {
        let missing = all_missing();
        ReadPart {
            volume,
            first: at / 512,
            missing,
            index: 0,
            run: Run::none(0),
            stage: Stage::Begun,
        }
    }

    /// Makes at most one call of the disk. The part is 512 to 65,536 bytes, a multiple of 512, the same in each step, and ends
    /// at 2^64 at the latest; the volume is one of the chain's path. At `Done` the part is what the volume reads as there.
    /// 120 and 122 alone; no memory is taken.
    pub fn step<D: SharedDisk>(
        self,
        host: HostId,
        chain: &mut Chain,
        disk: &mut D,
        part: &mut [u8],
    ) -> Turn<ReadPart, (), ()>
        requires { IsPiece (length part.old) }
        ensures counts { StepCounts (D.faults disk.old) (D.faults disk.new) (D.calls disk.old) (D.calls disk.new) result }
        ensures refusals { EndsOnlyBy IsDiskRefusal result }
        ensures chain { chain.new ≡ chain.old }
        ensures keeps { KeepsPart self result }
        ensures falls { Falls self chain.old (length part.old / 512) result }
        ensures content { Told (D.content disk.old) (D.content disk.new) (ReadsOn self chain.old host part.old part.new result) }
    {
        match self.stage {
            Stage::Begun => Turn::More(self.find(chain)),
            Stage::Asking => self.ask(host, chain, disk, part),
            Stage::Looking(looking) => self.look(looking, host, chain, disk),
            Stage::Found(entry) => self.enter(entry, host, chain, disk, part),
        }
    }
}
