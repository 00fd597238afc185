// What was gathered is checked by the records alone.
ghost use Rattle.std.specs.Prelude.{◌≡◌, [], ℕ};
ghost use Rattle.shared_disk.specs.Step.{EndsOnlyBy, TurnFaults};
ghost use Rattle.volume_chain.specs.Checking.{IsChecked, IsRecordRefusal};

use crate::chain::{Chain, Target};
use crate::stages::Stage;
use crate::volumes::OpenVolumes;
use chain_records::VolumeRecords;
use sd_names::{Refusal, Turn};

/// The checks that need the records alone, in the order of an opening: each file is there (60), the first refusal of
/// the records (67, 68, 65, 57). Where none refuses, the path of the reading volume is opened.
pub(crate) fn checked(
    target: Target,
    records: VolumeRecords,
    volumes: OpenVolumes,
) -> Turn<Stage, Chain, ()>
    ensures turn { IsChecked target records volumes result }
    ensures cause { (before after : ℕ) → after ≡ before → TurnFaults before after result }
    ensures refusals { EndsOnlyBy IsRecordRefusal result }
{
    if let Some(refusal) = records.missing_file() {
        return Turn::Ended((), refusal);
    }
    if let Some(refusal) = records.first_refusal() {
        return Turn::Ended((), refusal);
    }
    match records.reading_path() {
        Some(path) => Turn::More(Stage::Along(Chain {
            target,
            records,
            path,
            volumes,
        })),
        None => Turn::Ended((), Refusal::NoReadingVolume),
    }
}
