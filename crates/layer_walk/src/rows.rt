// The entries of the refcount table, of the L1 table and of L2 tables, sector by sector.
ghost use Rattle.std.specs.Prelude.{◌≡◌, ◌+◌, ◌-◌, ◌*◌, ◌/◌, ◌%◌, ◌<◌, ◌^◌, ◌≤◌, max};
ghost use Rattle.layer_walk.specs.Counting.{block_parts, table_rows};
ghost use Rattle.layer_walk.specs.Known.{Keeps, L1Known, L1SectorKnown, Leads, LeadsAt, RowKnown, SectorKnown, TableKnown};
ghost use Rattle.layer_walk.specs.Left.{Below, StaysInside, behind_left, blocks_of, first_left, l1_left, l1_rows, l1_start, rows_behind, rows_from};
ghost use Rattle.layer_walk.specs.Walking.{SectorOfTable};

use crate::ask::ask_head;
use crate::finish::{end_walk, stop_walk};
use crate::head::{head_clusters, table_entries};
use crate::item::cluster_bytes;
use crate::tables::{check_entries, end_of_row, pass_blocks, pass_l1};
use crate::walk::{Ask, Passed, Then, Walk};
use crate::work::Work;

/// The L1 entries from i on, the first of a sector.
pub fn next_l1(work: Work, i: u32) -> Passed
    requires { i < work.header.l1_size → i % 64 ≡ 0 }
    ensures keeps { Keeps work result }
    ensures inside { StaysInside work result }
    ensures falls { Below work (λ h tables. 1 + rows_behind h i + block_parts h * tables (l1_start h i) + behind_left h tables work.marks.noted) result }
    ensures next { Leads work (λ t capacity. L1Known t capacity work.marks i) result }
{
    if i >= work.header.l1_size {
        return end_walk(work);
    }
    Passed::More(Walk::L1(work, i))
}

/// The refcount table's entries from k on, the first of a sector.
pub fn next_entries(work: Work, k: u64) -> Passed
    ensures keeps { Keeps work result }
    ensures inside { StaysInside work result }
    ensures falls { Below work (λ h tables. 1 + (table_rows h - k / 64) + 2 * blocks_of h tables k + first_left h tables) result }
    ensures next { Leads work (λ t capacity. RowKnown t capacity work.marks k) result }
{
    if k >= table_entries(&work.header) {
        return next_l1(work, 0);
    }
    Passed::More(Walk::Blocks(work, k))
}

/// The refcount table's entries from k on that stand in this sector, up to the first that names a block.
pub fn pass_entries(work: Work, k: u64, row: [u8; 512]) -> Passed
    ensures keeps { Keeps work result }
    ensures inside { StaysInside work result }
    ensures falls { Below work (λ h tables. rows_from h k + 2 * blocks_of h tables k + first_left h tables) result }
    ensures next { Leads work (λ t capacity. SectorKnown t capacity work.marks k row) result }
{
    let mut work = work;
    let header = work.header;
    if k >= table_entries(&header) {
        return next_l1(work, 0);
    }
    match pass_blocks(&header, &mut work.marks, k, &row) {
        Err(fault) => {
            let end = head_clusters(&header);
            ask_head(work, 0, end, fault)
        }
        Ok(found) => match found {
            None => next_entries(work, k / 64 * 64 + 64),
            Some(block) => Passed::More(Walk::Ask(
                work,
                Ask {
                    place: block.place,
                    block: None,
                    then: Then::Entries(block.index, row),
                },
            )),
        },
    }
}

/// The L1 entries from i on that stand in this sector, up to the first that names an L2 table.
pub fn pass_row(work: Work, i: u32, row: [u8; 512]) -> Passed
    ensures keeps { Keeps work result }
    ensures inside { StaysInside work result }
    ensures falls { Below work (λ h tables. l1_left h tables i + behind_left h tables work.marks.noted) result }
    ensures next { Leads work (λ t capacity. L1SectorKnown t capacity work.marks i row) result }
{
    let mut work = work;
    let header = work.header;
    if i >= header.l1_size {
        return end_walk(work);
    }
    match pass_l1(&header, &mut work.marks, i, &row) {
        Err(fault) => stop_walk(work, fault),
        Ok(found) => match found {
            None => next_l1(work, end_of_row(&header, i)),
            Some(table) => Passed::More(Walk::L2(work, table.index, table.place, 0, row)),
        },
    }
}

// What comes behind the L2 table that L1 entry i names.
fn finish_table(work: Work, i: u32, row: [u8; 512]) -> Passed
    ensures keeps { Keeps work result }
    ensures inside { StaysInside work result }
    ensures falls { Below work (λ h tables. 1 + (l1_rows h i - 1) + block_parts h * tables (l1_start h (i + 1)) + behind_left h tables work.marks.noted) result }
    ensures next { Leads work (λ t capacity. TableKnown t capacity work.marks i row) result }
{
    let next = i.saturating_add(1);
    if next >= work.header.l1_size {
        return end_walk(work);
    }
    if next % 64 == 0 {
        return Passed::More(Walk::L1(work, next));
    }
    pass_row(work, next, row)
}

/// The 64 entries from j on of the L2 table at a place, which stand in this sector.
pub fn take_entries(
    capacity: u64,
    work: Work,
    i: u32,
    table: u64,
    j: u32,
    row: [u8; 512],
    sector: &[u8; 512],
) -> Passed
    ensures keeps { Keeps work result }
    ensures inside { i < work.header.l1_size → StaysInside work result }
    ensures falls { Below work (λ h tables. max 1 (block_parts h - j / 64) + (l1_rows h i - 1) + block_parts h * tables (l1_start h (i + 1)) + behind_left h tables work.marks.noted) result }
    ensures next { LeadsAt capacity work (λ t. SectorOfTable t capacity work.marks i table j row sector.now) result }
{
    let mut work = work;
    let header = work.header;
    if let Some(fault) = check_entries(
        &header,
        capacity,
        &mut work.marks,
        i as u64,
        table,
        j as u64,
        sector,
    ) {
        return stop_walk(work, fault);
    }
    let next = j.saturating_add(64);
    if next as u64 >= cluster_bytes(&header) / 8 {
        return finish_table(work, i, row);
    }
    Passed::More(Walk::L2(work, i, table, next, row))
}
