// Reading a small file whole.
ghost use Rattle.std.specs.Prelude.{◌≡◌, ◌≤◌, ◌+◌, ◌-◌, ◌^◌, min, length, take, IfErr, IfOk};
ghost use Rattle.shared_disk.specs.Calls.{Told};
ghost use Rattle.shared_disk.specs.Step.{IsDiskRefusal, ResultCounts};
ghost use Rattle.whole_file.specs.Read.{IsShort, ReadsFront, ReadsText};
ghost use Rattle.whole_file.specs.Text.{before_zero};

use sd_names::{HostId, Place, Refusal};
use shared_disk::{DiskAnswer, SharedDisk, refusal_for};

/// The longest text of a small file, in bytes.
pub const LONGEST: usize = 8192;

/// How many bytes are read of a small file: the longest text, and one sector more, which tells that it ends.
pub const ROOM: usize = 8704;

/// What a small file reads as.
#[derive(Clone, Copy, Debug, PartialEq, Eq)]
pub enum Text {
    /// No file is there.
    Absent,
    /// Its text has more than 8,192 bytes.
    Long,
    /// Its text is so many bytes at the front of the room.
    Bytes(usize),
}

/// Reads the text of a small file: what stands before its first zero byte, or its end. One call of the disk.
pub fn read_text<D: SharedDisk>(
    host: HostId,
    disk: &mut D,
    place: Place,
    into: &mut [u8; ROOM],
) -> Result<Text, Refusal>
    ensures counts { ResultCounts (D.faults disk.old) (D.faults disk.new) (D.calls disk.old) (D.calls disk.new) result }
    ensures counted { D.calls disk.new ≡ min (D.calls disk.old + 1) (2 ^ 64 - 1) }
    ensures refusals { IfErr result IsDiskRefusal }
    ensures short { IfOk result IsShort }
    ensures call { Told (D.content disk.old) (D.content disk.new) (ReadsFront host place (D.faults disk.new) into.old into.new result) }
    ensures content { Told (D.content disk.old) (D.content disk.new) (ReadsText host place into.new (D.faults disk.new) result) }
{
    match disk.read_at(host, place, 0, into) {
        Ok(count) => {
            let length = text_length(&into[..count]);
            if length > LONGEST {
                Ok(Text::Long)
            } else {
                Ok(Text::Bytes(length))
            }
        }
        Err(DiskAnswer::NoFile) => Ok(Text::Absent),
        Err(answer) => Err(refusal_for(answer, disk)),
    }
}

// How many bytes stand before the first zero byte.
fn text_length(bytes: &[u8]) -> usize
    ensures value { result ≡ length (before_zero bytes.now) }
    ensures front { take result bytes.now ≡ before_zero bytes.now }
    ensures bound { result ≤ length bytes.now }
{
    for (i, byte) in bytes.iter().enumerate() {
        if *byte == 0 {
            return i;
        }
    }
    bytes.len()
}
