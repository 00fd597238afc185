// The counts of a memory disk's calls and faults.
ghost use Rattle.std.specs.Prelude.{◌≡◌, ◌+◌, ◌-◌, ◌^◌, ◌<◌, ◌≤◌, min, IsErrOf};

use shared_disk::DiskAnswer;

/// One more, up to 2^64 - 1.
pub(crate) fn bump(count: &mut u64)
    ensures { count.new ≡ min (count.old + 1) (2 ^ 64 - 1) }
{
    *count = count.saturating_add(1);
}

/// Counts a fault, where a call found no room.
pub(crate) fn count(faults: &mut u64, answer: Result<(), DiskAnswer>)
    requires fits { faults.old < 2 ^ 64 }
    ensures failed { IsErrOf answer DiskAnswer.Failed → faults.new ≡ min (faults.old + 1) (2 ^ 64 - 1) }
    ensures other { ¬ IsErrOf answer DiskAnswer.Failed → faults.new ≡ faults.old }
    ensures no_less { faults.old ≤ faults.new }
{
    if let Err(DiskAnswer::Failed) = answer {
        bump(faults);
    }
}
