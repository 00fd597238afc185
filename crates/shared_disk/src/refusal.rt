// The refusal that stands for a disk's answer.
ghost use Rattle.std.specs.Prelude.{◌≡◌};
ghost use Rattle.shared_disk.specs.Refusal.{refusal_of};

use crate::{DiskAnswer, SharedDisk};
use sd_names::{Absence, Refusal};

/// The refusal for an answer that a call of the disk gave just now: 120 with the disk's count of faults, or 122 with
/// the word of the answer.
pub fn refusal_for<D: SharedDisk>(answer: DiskAnswer, disk: &D) -> Refusal
    ensures { result ≡ refusal_of answer (D.faults disk.now) }
{
    match answer {
        DiskAnswer::NoFile => Refusal::Vanished(Absence::NoFile),
        DiskAnswer::Exists => Refusal::Vanished(Absence::Exists),
        DiskAnswer::OutOfFile => Refusal::Vanished(Absence::OutOfFile),
        DiskAnswer::NotEmpty => Refusal::Vanished(Absence::NotEmpty),
        DiskAnswer::Failed => Refusal::DiskFault(disk.fault_count()),
    }
}
