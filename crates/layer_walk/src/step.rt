// One sector of the walk: which is wanted, and what it tells.
ghost use Rattle.std.specs.Prelude.{◌+◌};
ghost use Rattle.layer_walk.specs.Counting.{sectors_left};
ghost use Rattle.layer_walk.specs.Known.{Keeps, work_of};
ghost use Rattle.layer_walk.specs.Left.{Below, IsInside, StaysInside, blocks_of, l1_left, walk_left};
ghost use Rattle.layer_walk.specs.Walking.{CountsTake, IsNear, WalkTakes, place_of};

use crate::count::Count;
use crate::counting::{take_counts, wanted_counts};
use crate::finish::finish_counts;
use crate::lookup::{take_count, wanted_count};
use crate::rows::{pass_entries, pass_row, take_entries};
use crate::walk::{Passed, Walk};
use crate::work::Work;
use sd_names::LayerFault;

// A sector of the refcount table, or of a block, in the pass over all counts.
fn take_counted(work: Work, fault: Option<LayerFault>, count: Count, sector: &[u8; 512]) -> Passed
    ensures keeps { Keeps work result }
    ensures inside { StaysInside work result }
    ensures falls { Below work (λ h tables. 1 + sectors_left h (blocks_of h tables) count + l1_left h tables 0) result }
    ensures next { CountsTake work fault count sector.now result }
{
    let mut work = work;
    let header = work.header;
    match take_counts(&header, &mut work.marks, count, sector) {
        None => finish_counts(work, fault),
        Some(next) => Passed::More(Walk::Counts(work, fault, next)),
    }
}

/// The place of a number in the sector that is wanted next.
pub fn wanted(walk: &Walk) -> u64
    ensures { IsNear (place_of walk.now) result }
{
    match walk {
        Walk::Blocks(work, k) => work
            .header
            .refcount_table_offset
            .saturating_add((*k).saturating_mul(8)),
        Walk::Ask(work, ask) => wanted_count(&work.header, ask),
        Walk::L1(work, i) => work.header.l1_table_offset.saturating_add(8 * *i as u64),
        Walk::L2(_, _, table, j, _) => (*table).saturating_add(8 * *j as u64),
        Walk::Counts(work, _, count) => wanted_counts(&work.header, count),
    }
}

/// What the sector tells.
pub fn take(capacity: u64, walk: Walk, sector: [u8; 512]) -> Passed
    ensures keeps { Keeps (work_of walk) result }
    ensures inside { IsInside (work_of walk).header walk → StaysInside (work_of walk) result }
    ensures falls { Below (work_of walk) (λ h tables. walk_left h tables walk) result }
    ensures next { WalkTakes capacity walk sector result }
{
    match walk {
        Walk::Blocks(work, k) => pass_entries(work, k, sector),
        Walk::Ask(work, ask) => take_count(work, ask, &sector),
        Walk::L1(work, i) => pass_row(work, i, sector),
        Walk::L2(work, i, table, j, row) => take_entries(capacity, work, i, table, j, row, &sector),
        Walk::Counts(work, fault, count) => take_counted(work, fault, count, &sector),
    }
}
