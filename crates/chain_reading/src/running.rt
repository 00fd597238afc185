// Sectors that stand side by side in a volume's file, and their read by one call.
ghost use Rattle.std.specs.Prelude.{◌≡◌, ◌↔◌, ◌+◌, ◌-◌, ◌<◌, ◌≤◌, IfErr, IsTrue};
ghost use Rattle.shared_disk.specs.Calls.{Told};
ghost use Rattle.shared_disk.specs.Step.{IsDiskRefusal, ResultCounts};

use raw_layer::{Raw, RawRead};
use sd_names::{HostId, Place, Refusal, Turn};
use shared_disk::SharedDisk;

/// Sectors `from` to `to` of a part, none where these are one: the volume's file has them side by side from its sector
/// `sector` on.
#[derive(Clone, Copy, Debug)]
pub(crate) struct Run {
    pub(crate) sector: u64,
    pub(crate) from: usize,
    pub(crate) to: usize,
    ghost order: { from ≤ to },
    ghost few: { to ≤ 128 },
}

/// The last sector that a place in bytes can have.
const LAST: u64 = 36_028_797_018_963_967;

impl Run {
    ghost use Rattle.chain_reading.specs.Running.{ReadsRun, is_empty};

    /// No sectors, at this one of the part.
    pub(crate) fn none(at: usize) -> Run
        requires { at ≤ 128 }
        ensures from { result.from ≡ at }
        ensures to { result.to ≡ at }
    {
        Run {
            sector: 0,
            from: at,
            to: at,
        }
    }

    /// Whether there are none.
    pub(crate) fn is_empty(&self) -> bool
        ensures { result ≡ is_empty self.now }
    {
        self.from == self.to
    }

    /// Whether this sector of the file stands behind them.
    pub(crate) fn is_followed_by(&self, sector: u64) -> bool
        ensures { IsTrue result ↔ (sector ≡ self.now.sector + (self.now.to - self.now.from)) }
    {
        sector.checked_sub(self.sector) == Some((self.to - self.from) as u64)
    }

    /// Reads them by one call of the disk, zeros past the file's end. They stand in front of the others.
    pub(crate) fn read<D: SharedDisk>(
        &self,
        host: HostId,
        disk: &mut D,
        place: Place,
    ) -> Result<[u8; 65536], Refusal>
        requires { self.now.from < self.now.to }
        ensures counts { ResultCounts (D.faults disk.old) (D.faults disk.new) (D.calls disk.old) (D.calls disk.new) result }
        ensures refusals { IfErr result IsDiskRefusal }
        ensures content { Told (D.content disk.old) (D.content disk.new) (ReadsRun host place self.now (D.faults disk.new) result) }
    {
        let mut bytes = [0; 65536];
        let count = self.to - self.from;
        let raw = Raw::new(place, 0, 0);
        let reading = RawRead::begin(&raw, self.sector.min(LAST) * 512);
        match reading.step(host, disk, &mut bytes[..512 * count]) {
            Turn::Done(()) => Ok(bytes),
            Turn::Ended((), refusal) => Err(refusal),
            Turn::More(_) => unreachable!(),
        }
    }
}
