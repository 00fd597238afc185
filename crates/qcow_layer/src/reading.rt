// Reads of a layer's file, one call of the disk each. What stands past the file's end reads as zeros.
ghost use Rattle.std.specs.Prelude.{◌≡◌, ℕ, ◌/◌, IfErr, ◌+◌, ◌-◌, ◌^◌, min};
ghost use Rattle.shared_disk.specs.Calls.{IsAligned, Told};
ghost use Rattle.shared_disk.specs.Step.{IsDiskRefusal, ResultCounts};
ghost use Rattle.qcow_layer.specs.Seen.{ReadsHead, ReadsSector};

use sd_names::{HostId, Place, Refusal};
use shared_disk::{SharedDisk, refusal_for};

/// The longest head of a layer, in bytes.
pub(crate) const HEAD: usize = 65536;

/// Reads the sector that begins at a place of a layer's file, in bytes: zeros past its end. 120 and 122 alone.
pub fn read_sector<D: SharedDisk>(
    host: HostId,
    disk: &mut D,
    place: Place,
    at: u64,
) -> Result<[u8; 512], Refusal>
    requires { IsAligned at }
    ensures counts { ResultCounts (D.faults disk.old) (D.faults disk.new) (D.calls disk.old) (D.calls disk.new) result }
    ensures counted { D.calls disk.new ≡ min (D.calls disk.old + 1) (2 ^ 64 - 1) }
    ensures refusals { IfErr result IsDiskRefusal }
    ensures content { Told (D.content disk.old) (D.content disk.new) (ReadsSector host place (at / 512) (D.faults disk.new) result) }
{
    let mut sector = [0; 512];
    match disk.read_at(host, place, at, &mut sector) {
        Ok(_) => Ok(sector),
        Err(answer) => Err(refusal_for(answer, disk)),
    }
}

/// Reads the first 65,536 bytes of the file.
pub(crate) fn read_head<D: SharedDisk>(
    host: HostId,
    disk: &mut D,
    place: Place,
) -> Result<[u8; HEAD], Refusal>
    ensures counts { ResultCounts (D.faults disk.old) (D.faults disk.new) (D.calls disk.old) (D.calls disk.new) result }
    ensures counted { D.calls disk.new ≡ min (D.calls disk.old + 1) (2 ^ 64 - 1) }
    ensures refusals { IfErr result IsDiskRefusal }
    ensures content { Told (D.content disk.old) (D.content disk.new) (ReadsHead host place (D.faults disk.new) result) }
{
    let mut head = [0; HEAD];
    match disk.read_at(host, place, 0, &mut head) {
        Ok(_) => Ok(head),
        Err(answer) => Err(refusal_for(answer, disk)),
    }
}
