// Writes the clusters of an order.
ghost use Rattle.std.specs.Prelude.{◌≡◌, ◌≤◌, ◌%◌};

use crate::order::{Order, width_of};
use crate::spots::{Spot, Spots, place_in};
use crate::steps::{link, place};
use qcow_layer::Layer;
use sd_names::{HostId, Refusal};
use shared_disk::{SharedDisk, refusal_for};

// The longest piece of a cluster that is written at once, in bytes.
const PIECE: usize = 65_536;

/// How many calls of the disk the parts of a write took. Those of `write` are the data's and the sync that follows.
#[derive(Clone, Copy)]
pub(crate) struct Calls {
    pub(crate) look: u64,
    pub(crate) place: u64,
    pub(crate) write: u64,
    pub(crate) link: u64,
}

impl Calls {
    /// All of them.
    pub(crate) fn all(&self) -> u64 {
        self.look
            .saturating_add(self.place)
            .saturating_add(self.write)
            .saturating_add(self.link)
    }
}

/// How an order was done.
#[derive(Clone, Copy)]
pub(crate) struct Report {
    pub(crate) calls: Calls,
    /// Whether there was a table for the clusters before.
    pub(crate) table: bool,
}

impl Report {
    /// In words.
    pub(crate) fn way(&self) -> &'static str {
        match (self.calls.link, self.calls.place, self.table) {
            (0, _, _) => "in place",
            (_, 0, _) => "in a place that was kept",
            (_, _, true) => "in a new cluster",
            (_, _, false) => "in a new cluster, with a new table",
        }
    }
}

// How many bytes of a cluster are written at once: all of them, and 65,536 at the most.
fn piece_bytes(layer: &Layer) -> usize
    ensures sectors { result % 512 ≡ 0 }
    ensures some { 512 ≤ result }
    ensures most { result ≤ 65536 }
{
    match layer.header().cluster_bits {
        12 => 4_096,
        13 => 8_192,
        14 => 16_384,
        15 => 32_768,
        _ => PIECE,
    }
}

// The longest piece, of one byte.
fn room_of(byte: u8) -> [u8; PIECE] {
    [byte; PIECE]
}

// Writes a piece of one byte at a place of the layer's file.
fn write_piece<D: SharedDisk>(
    host: HostId,
    layer: &Layer,
    disk: &mut D,
    at: u64,
    byte: u8,
    size: usize,
) -> Result<(), Refusal>
    requires sectors { size % 512 ≡ 0 }
    requires some { 512 ≤ size }
    requires most { size ≤ 65536 }
{
    let room = room_of(byte);
    match disk.write_at(host, layer.place(), at / 512 * 512, &room[..size]) {
        Ok(()) => Ok(()),
        Err(answer) => Err(refusal_for(answer, disk)),
    }
}

// Fills a cluster at a place of the file with a byte, in pieces, and answers how many calls that took.
fn fill<D: SharedDisk>(
    host: HostId,
    layer: &Layer,
    disk: &mut D,
    at: u64,
    byte: u8,
) -> Result<u64, Refusal> {
    let size = piece_bytes(layer);
    let pieces = width_of(layer).div_ceil(PIECE as u64);
    for piece in 0..pieces {
        let place = at.saturating_add(piece.saturating_mul(size as u64));
        write_piece(host, layer, disk, place, byte, size)?;
    }
    Ok(pieces)
}

// Writes the data of all clusters, and puts it onto the medium with the counts that were made before.
fn write_data<D: SharedDisk>(
    host: HostId,
    layer: &Layer,
    disk: &mut D,
    order: Order,
    found: &Spots,
) -> Result<u64, Refusal> {
    let mut calls: u64 = 1;
    for i in 0..order.count {
        let spot = found.spots[i as usize];
        match spot {
            Spot::Data(at) | Spot::Empty(at) => {
                calls = calls.saturating_add(fill(host, layer, disk, at, order.byte)?);
            }
            Spot::None => return Err(Refusal::NotBuilt),
        }
    }
    match disk.sync(host, layer.place()) {
        Ok(()) => Ok(calls),
        Err(answer) => Err(refusal_for(answer, disk)),
    }
}

// Places the clusters that have no place, and their table where there is none. Answers the table's place, or 0, and how many
// calls it took.
fn place_missing<D: SharedDisk>(
    host: HostId,
    layer: &mut Layer,
    disk: &mut D,
    order: Order,
    found: &mut Spots,
) -> Result<(u64, u64), Refusal> {
    let missing = found.missing(order);
    if missing == 0 {
        return Ok((0, 0));
    }
    let width = width_of(layer);
    if found.table {
        let (clusters, calls) = place(host, layer, disk, missing)?;
        found.give(order, &clusters, width)?;
        return Ok((0, calls));
    }
    let (clusters, calls) = place(host, layer, disk, missing + 1)?;
    let given = found.give(order, &clusters, width)?;
    Ok((place_in(&clusters, given, width)?, calls))
}

/// Writes the clusters of an order: those that have data in place; for the others clusters of the file are placed, filled and
/// synced, before their entries are made.
pub(crate) fn write_clusters<D: SharedDisk>(
    host: HostId,
    layer: &mut Layer,
    disk: &mut D,
    order: Order,
) -> Result<Report, Refusal> {
    let mut found = Spots::look_up(host, layer, disk, order)?;
    let (table, placed) = place_missing(host, layer, disk, order, &mut found)?;
    let written = write_data(host, layer, disk, order, &found)?;
    let linked = match found.links(order)? {
        Some(links) => link(host, layer, disk, links, table)?,
        None => 0,
    };
    Ok(Report {
        calls: Calls {
            look: found.calls,
            place: placed,
            write: written,
            link: linked,
        },
        table: found.table,
    })
}
