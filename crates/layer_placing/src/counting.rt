// Raising counts, in a range of clusters that has a block.
ghost use Rattle.std.specs.Prelude.{◌≡◌, ◌≢◌, ℕ, ◌+◌, ◌*◌, ◌%◌, ◌^◌, ◌<◌, ◌≤◌, length, ◌-◌, min};
ghost use Rattle.shared_disk.specs.Calls.{Told};
ghost use Rattle.shared_disk.specs.Step.{EndsOnlyBy, IsDiskRefusal, NearsEnd, StepCounts};
ghost use Rattle.layer_placing.specs.Chosen.{listed};
ghost use Rattle.layer_placing.specs.Stages.{Falls, IsAfterRaise, IsRaised, OnlyTakes, TakesUpTo, entry_place_of, pieces_of, rest_left, span_of, stage_left};
ghost use Rattle.qcow_format.specs.Bytes.{bytes_of, number, put};
ghost use Rattle.qcow_layer.specs.Opening.{header_kept};
ghost use Rattle.layer_placing.specs.Knows.{KeepsChosen, Steps};
ghost use Rattle.layer_placing.specs.declared.stage.Stage.TheVariants.{Counting, Finding, Raising};

use crate::clusters::Clusters;
use crate::stage::{Raise, Stage, Work};
use byteorder::{BigEndian, ByteOrder};
use layer_walk::{cluster_bytes, word_at};
use qcow_layer::{Layer, read_sector};
use sd_names::{HostId, Turn};
use shared_disk::{SharedDisk, refusal_for};

/// The size of the layer's clusters, in bytes.
pub(crate) fn cluster_width(layer: &Layer) -> u64
    ensures value { result ≡ 2 ^ (header_kept layer.now).cluster_bits }
    ensures low { 4096 ≤ result }
    ensures high { result ≤ 2097152 }
    ensures whole { result % 512 ≡ 0 }
{
    cluster_bytes(layer.header())
}

/// How many clusters a block of the layer counts.
pub(crate) fn block_span(layer: &Layer) -> u64
    ensures value { result ≡ span_of layer.now }
    ensures low { 2048 ≤ result }
    ensures high { result ≤ 1048576 }
{
    cluster_width(layer) / 2
}

/// Where the entry of the range stands that has a cluster.
pub(crate) fn entry_place(layer: &Layer, cluster: u64) -> u64
    ensures { result ≡ entry_place_of layer.now cluster }
{
    let range = cluster / block_span(layer);
    layer
        .header()
        .refcount_table_offset
        .saturating_add(8 * range)
}

/// Reads the entry of the next cluster's range.
pub(crate) fn find_block<D: SharedDisk>(
    layer: &Layer,
    host: HostId,
    disk: &mut D,
    work: Work,
) -> Turn<Stage, Clusters, ()>
    ensures counts { StepCounts (D.faults disk.old) (D.faults disk.new) (D.calls disk.old) (D.calls disk.new) result }
    ensures counted { D.calls disk.new ≡ min (D.calls disk.old + 1) (2 ^ 64 - 1) }
    ensures refusals { EndsOnlyBy IsDiskRefusal result }
    ensures falls { Falls (pieces_of layer.now) (Finding work) result }
    ensures chosen { KeepsChosen (Finding work) result }
    ensures content { Told (D.content disk.old) (D.content disk.new) (Steps layer.now layer.now host (D.faults disk.new) (Finding work) result) }
{
    let at = entry_place(layer, work.current());
    match read_sector(host, disk, layer.place(), at / 512 * 512) {
        Err(refusal) => Turn::Ended((), refusal),
        Ok(table) => {
            let block = word_at(&table, (at % 512 / 8) as usize) / 512 * 512;
            if block == 0 {
                return Turn::More(Stage::Zeroing(work, table, 0));
            }
            Turn::More(Stage::Counting(work, block))
        }
    }
}

// Puts a number of 2 bytes into a sector.
#[tactic(auto, unfolding(qcow_format::specs::Bytes::put, qcow_format::specs::Bytes::bytes_of))]
fn put_half(sector: &mut [u8; 512], at: usize, number: u16)
    requires { at + 2 ≤ 512 }
    ensures { sector.new ≡ put at (bytes_of 2 number) sector.old }
{
    BigEndian::write_u16(&mut sector[at..], number);
}

// Makes a count of a sector 1.
fn put_count(sector: &mut [u8; 512], index: usize)
    requires { index < 256 }
    ensures here { number 2 (index * 2) sector.new ≡ 1 }
    ensures others { (m : ℕ) → m < 256 → m ≢ index → number 2 (m * 2) sector.new ≡ number 2 (m * 2) sector.old }
{
    put_half(sector, index * 2, 1);
}

// The sector of the next cluster's count, with the counts of all chosen clusters that stand in it at 1, and the index of the
// first one that doesn't.
fn raised(work: &Work, sector: [u8; 512]) -> ([u8; 512], usize)
    ensures { IsRaised work.now sector result.0 result.1 }
{
    let mut counts = sector;
    let row = work.current() / 256;
    for i in work.done..work.chosen.count() {
        let cluster = work.chosen.get(i);
        if cluster / 256 != row {
            return (counts, i);
        }
        put_count(&mut counts, (cluster % 256) as usize);
    }
    (counts, work.chosen.count())
}

/// Reads the sector of the next cluster's count.
pub(crate) fn read_counts<D: SharedDisk>(
    layer: &Layer,
    host: HostId,
    disk: &mut D,
    work: Work,
    block: u64,
) -> Turn<Stage, Clusters, ()>
    ensures counts { StepCounts (D.faults disk.old) (D.faults disk.new) (D.calls disk.old) (D.calls disk.new) result }
    ensures counted { D.calls disk.new ≡ min (D.calls disk.old + 1) (2 ^ 64 - 1) }
    ensures refusals { EndsOnlyBy IsDiskRefusal result }
    ensures falls { Falls (pieces_of layer.now) (Counting work block) result }
    ensures chosen { KeepsChosen (Counting work block) result }
    ensures content { Told (D.content disk.old) (D.content disk.new) (Steps layer.now layer.now host (D.faults disk.new) (Counting work block) result) }
{
    let at = block.saturating_add(2 * (work.current() % block_span(layer))) / 512 * 512;
    match read_sector(host, disk, layer.place(), at) {
        Err(refusal) => Turn::Ended((), refusal),
        Ok(sector) => {
            let (counts, upto) = raised(&work, sector);
            Turn::More(Stage::Raising(Raise {
                work,
                at,
                counts,
                upto,
            }))
        }
    }
}

// Takes the chosen clusters from the next one up to `upto` in the layer's map.
fn take_all(layer: &mut Layer, work: &Work, upto: usize)
    requires ahead { work.now.done ≤ upto }
    requires fits { upto ≤ length (listed work.now.chosen) }
    ensures { TakesUpTo layer.old work.now upto layer.new }
{
    for i in work.done..upto {
        layer.take(work.chosen.get(i));
    }
}

// What comes once the chosen clusters up to `upto` have their counts.
fn after_raise(work: Work, upto: usize) -> Turn<Stage, Clusters, ()>
    requires ahead { work.done < upto }
    requires fits { upto ≤ length (listed work.chosen) }
    ensures next { IsAfterRaise work upto result }
    ensures falls { (p : ℕ) → NearsEnd (λ next. Unit {0}) (stage_left p) (rest_left p work + 1) result }
{
    let Work { chosen, done: _ } = work;
    if upto < chosen.count() {
        return Turn::More(Stage::Finding(Work { chosen, done: upto }));
    }
    Turn::Done(chosen)
}

/// Writes the sector of counts.
pub(crate) fn raise_counts<D: SharedDisk>(
    layer: &mut Layer,
    host: HostId,
    disk: &mut D,
    raise: Raise,
) -> Turn<Stage, Clusters, ()>
    ensures counts { StepCounts (D.faults disk.old) (D.faults disk.new) (D.calls disk.old) (D.calls disk.new) result }
    ensures counted { D.calls disk.new ≡ min (D.calls disk.old + 1) (2 ^ 64 - 1) }
    ensures refusals { EndsOnlyBy IsDiskRefusal result }
    ensures kept { OnlyTakes layer.old layer.new }
    ensures falls { Falls (pieces_of layer.old) (Raising raise) result }
    ensures chosen { KeepsChosen (Raising raise) result }
    ensures content { Told (D.content disk.old) (D.content disk.new) (Steps layer.old layer.new host (D.faults disk.new) (Raising raise) result) }
{
    let Raise {
        work,
        at,
        counts,
        upto,
    } = raise;
    match disk.write_at(host, layer.place(), at / 512 * 512, &counts) {
        Err(answer) => Turn::Ended((), refusal_for(answer, disk)),
        Ok(()) => {
            take_all(layer, &work, upto);
            after_raise(work, upto)
        }
    }
}
