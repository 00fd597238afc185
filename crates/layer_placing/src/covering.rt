// A block for a range of clusters that has none: the first cluster of the range becomes it.
ghost use Rattle.std.specs.Prelude.{◌≡◌, ◌+◌, ◌≤◌, replicate, ◌-◌, ◌^◌, min};
ghost use Rattle.shared_disk.specs.Calls.{Told};
ghost use Rattle.layer_placing.specs.Knows.{IsRoom, KeepsChosen, Steps};
ghost use Rattle.qcow_format.specs.Bytes.{bytes_of, put};
ghost use Rattle.shared_disk.specs.Step.{EndsOnlyBy, IsDiskRefusal, StepCounts};
ghost use Rattle.layer_placing.specs.Stages.{Falls, block_place_of, pieces_of};
ghost use Rattle.layer_placing.specs.declared.stage.Stage.TheVariants.{Entered, Settled, Zeroed, Zeroing};

use crate::clusters::Clusters;
use crate::counting::{block_span, cluster_width, entry_place};
use crate::stage::{Stage, Work};
use byteorder::{BigEndian, ByteOrder};
use qcow_layer::Layer;
use sd_names::{HostId, Turn};
use shared_disk::{SharedDisk, refusal_for};

/// The longest piece of a cluster that is written at once, in bytes.
const PIECE: u64 = 65536;

// Puts a number of 8 bytes into a sector.
#[tactic(auto, unfolding(qcow_format::specs::Bytes::put, qcow_format::specs::Bytes::bytes_of))]
fn put_word(sector: &mut [u8; 512], at: usize, number: u64)
    requires { at + 8 ≤ 512 }
    ensures { sector.new ≡ put at (bytes_of 8 number) sector.old }
{
    BigEndian::write_u64(&mut sector[at..], number);
}

// Where the block of a cluster's range comes to stand.
fn block_place(layer: &Layer, cluster: u64) -> u64
    ensures { result ≡ block_place_of layer.now cluster }
{
    let span = block_span(layer);
    let first = cluster / span * span;
    first.saturating_mul(cluster_width(layer))
}

// Puts the block's own count into the room of zeros for a piece, where the piece is the first one.
fn mark_own(room: &mut [u8; 65536], first: bool)
    requires zeros { room.old ≡ replicate 65536 0 }
    ensures { IsRoom first room.new }
{
    if first {
        room[1] = 1;
    }
}

/// Writes a piece of the block: zeros, and in the first piece the block's own count.
pub(crate) fn write_piece<D: SharedDisk>(
    layer: &Layer,
    host: HostId,
    disk: &mut D,
    work: Work,
    table: [u8; 512],
    piece: u64,
) -> Turn<Stage, Clusters, ()>
    ensures counts { StepCounts (D.faults disk.old) (D.faults disk.new) (D.calls disk.old) (D.calls disk.new) result }
    ensures counted { D.calls disk.new ≡ min (D.calls disk.old + 1) (2 ^ 64 - 1) }
    ensures refusals { EndsOnlyBy IsDiskRefusal result }
    ensures falls { Falls (pieces_of layer.now) (Zeroing work table piece) result }
    ensures chosen { KeepsChosen (Zeroing work table piece) result }
    ensures content { Told (D.content disk.old) (D.content disk.new) (Steps layer.now layer.now host (D.faults disk.new) (Zeroing work table piece) result) }
{
    let cluster = cluster_width(layer);
    let size = cluster.min(PIECE);
    let mut room = [0; 65536];
    mark_own(&mut room, piece == 0);
    let at = block_place(layer, work.current()).saturating_add(piece.saturating_mul(size));
    match disk.write_at(host, layer.place(), at / 512 * 512, &room[..size as usize]) {
        Err(answer) => Turn::Ended((), refusal_for(answer, disk)),
        Ok(()) => {
            if piece < cluster.div_ceil(PIECE) - 1 {
                return Turn::More(Stage::Zeroing(work, table, piece + 1));
            }
            Turn::More(Stage::Zeroed(work, table))
        }
    }
}

/// Puts the block onto the medium.
pub(crate) fn settle<D: SharedDisk>(
    layer: &Layer,
    host: HostId,
    disk: &mut D,
    work: Work,
    table: [u8; 512],
) -> Turn<Stage, Clusters, ()>
    ensures counts { StepCounts (D.faults disk.old) (D.faults disk.new) (D.calls disk.old) (D.calls disk.new) result }
    ensures counted { D.calls disk.new ≡ min (D.calls disk.old + 1) (2 ^ 64 - 1) }
    ensures refusals { EndsOnlyBy IsDiskRefusal result }
    ensures falls { Falls (pieces_of layer.now) (Zeroed work table) result }
    ensures chosen { KeepsChosen (Zeroed work table) result }
    ensures content { Told (D.content disk.old) (D.content disk.new) (Steps layer.now layer.now host (D.faults disk.new) (Zeroed work table) result) }
{
    match disk.sync(host, layer.place()) {
        Err(answer) => Turn::Ended((), refusal_for(answer, disk)),
        Ok(()) => Turn::More(Stage::Settled(work, table)),
    }
}

/// Enters the block in the refcount table.
pub(crate) fn enter<D: SharedDisk>(
    layer: &Layer,
    host: HostId,
    disk: &mut D,
    work: Work,
    table: [u8; 512],
) -> Turn<Stage, Clusters, ()>
    ensures counts { StepCounts (D.faults disk.old) (D.faults disk.new) (D.calls disk.old) (D.calls disk.new) result }
    ensures counted { D.calls disk.new ≡ min (D.calls disk.old + 1) (2 ^ 64 - 1) }
    ensures refusals { EndsOnlyBy IsDiskRefusal result }
    ensures falls { Falls (pieces_of layer.now) (Settled work table) result }
    ensures chosen { KeepsChosen (Settled work table) result }
    ensures content { Told (D.content disk.old) (D.content disk.new) (Steps layer.now layer.now host (D.faults disk.new) (Settled work table) result) }
{
    let at = entry_place(layer, work.current());
    let block = block_place(layer, work.current());
    let mut entries = table;
    put_word(&mut entries, (at % 512 / 8 * 8) as usize, block);
    match disk.write_at(host, layer.place(), at / 512 * 512, &entries) {
        Err(answer) => Turn::Ended((), refusal_for(answer, disk)),
        Ok(()) => Turn::More(Stage::Entered(work, block)),
    }
}

/// Puts the entry onto the medium.
pub(crate) fn settle_entry<D: SharedDisk>(
    layer: &Layer,
    host: HostId,
    disk: &mut D,
    work: Work,
    block: u64,
) -> Turn<Stage, Clusters, ()>
    ensures counts { StepCounts (D.faults disk.old) (D.faults disk.new) (D.calls disk.old) (D.calls disk.new) result }
    ensures counted { D.calls disk.new ≡ min (D.calls disk.old + 1) (2 ^ 64 - 1) }
    ensures refusals { EndsOnlyBy IsDiskRefusal result }
    ensures falls { Falls (pieces_of layer.now) (Entered work block) result }
    ensures chosen { KeepsChosen (Entered work block) result }
    ensures content { Told (D.content disk.old) (D.content disk.new) (Steps layer.now layer.now host (D.faults disk.new) (Entered work block) result) }
{
    match disk.sync(host, layer.place()) {
        Err(answer) => Turn::Ended((), refusal_for(answer, disk)),
        Ok(()) => Turn::More(Stage::Counting(work, block)),
    }
}
