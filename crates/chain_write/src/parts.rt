// Parts that are written and read through the chain.
ghost use Rattle.std.specs.Prelude.{◌≡◌, ◌+◌, ◌^◌, ◌≤◌, IfOk, length};
ghost use Rattle.shared_disk.specs.Calls.{IsAligned, IsPiece};
ghost use Rattle.chain_write.specs.Open.{AreAllOpen};

use crate::order::Parts;
use byteorder::{BigEndian, ByteOrder};
use chain_reading::ReadPart;
use guest_writing::GuestWrite;
use sd_names::{HostId, Refusal, Turn};
use shared_disk::SharedDisk;
use volume_chain::Chain;

// Where each image ends at the latest, in bytes, 1 TiB, as the store bounds it.
const LIMIT: u64 = 1 << 40;

/// Writes parts that are filled with one byte, one after the other.
pub(crate) fn write_parts<D: SharedDisk>(
    host: HostId,
    chain: &mut Chain,
    disk: &mut D,
    parts: Parts,
    byte: u8,
) -> Result<(), Refusal>
    requires { AreAllOpen chain.old }
    ensures { AreAllOpen chain.new }
{
    let bytes = [byte; 65_536];
    let mut room = [0; 65_536];
    let mut at = parts.at;
    for _ in 0..parts.count {
        let part = first_of(&bytes, parts.length);
        is_inside(chain, at, part.len())?;
        write_part(host, chain, disk, at, part, &mut room)?;
        at = at.saturating_add(parts.length as u64);
    }
    Ok(())
}

// The first bytes of some.
fn first_of(bytes: &[u8], count: usize) -> &[u8]
    requires { count ≤ length bytes.now }
    ensures { length result.now ≡ count }
{
    &bytes[..count]
}

// Refuses a part that isn't within the image.
fn is_inside(chain: &Chain, at: u64, length: usize) -> Result<(), Refusal>
    requires { length ≤ 65536 }
    ensures { IfOk result (λ _. at + length ≤ 2 ^ 62) }
{
    let capacity = match chain.capacity() {
        Some(capacity) => capacity,
        None => 0,
    };
    let end = at.saturating_add(length as u64);
    if end > capacity.min(LIMIT) {
        return Err(Refusal::OutOfRange(end, capacity));
    }
    Ok(())
}

// Writes a part of the volume that guests write. The end of the loop isn't reached: each step leaves fewer.
fn write_part<D: SharedDisk>(
    host: HostId,
    chain: &mut Chain,
    disk: &mut D,
    at: u64,
    part: &[u8],
    room: &mut [u8],
) -> Result<(), Refusal>
    requires at { IsAligned at }
    requires piece { IsPiece (length part.now) }
    requires end { at + length part.now ≤ 2 ^ 62 }
    requires room { length room.old ≡ 65536 }
    requires open { AreAllOpen chain.old }
    ensures open { AreAllOpen chain.new }
    ensures room { length room.new ≡ 65536 }
{
    let Some(volume) = chain.reading() else {
        return Err(Refusal::NotBuilt);
    };
    let mut work = GuestWrite::begin(volume, at);
    for _ in 0..u64::MAX {
        match work.step(host, chain, disk, part, room) {
            Turn::More(next) => work = next,
            Turn::Done(()) => return Ok(()),
            Turn::Ended((), refusal) => return Err(refusal),
        }
    }
    Err(Refusal::NotBuilt)
}

/// Reads parts, one after the other. The byte that all of them have; `None` where they have several.
pub(crate) fn read_parts<D: SharedDisk>(
    host: HostId,
    chain: &mut Chain,
    disk: &mut D,
    parts: Parts,
) -> Result<Option<u8>, Refusal>
    ensures { chain.new ≡ chain.old }
{
    let mut bytes = [0; 65_536];
    let mut at = parts.at;
    let mut found = None;
    for _ in 0..parts.count {
        is_inside(chain, at, parts.length)?;
        let part = &mut bytes[..parts.length];
        read_part(host, chain, disk, at, part)?;
        let byte = match found {
            Some(byte) => byte,
            None => part[0],
        };
        if !has_only(part, byte) {
            return Ok(None);
        }
        found = Some(byte);
        at = at.saturating_add(parts.length as u64);
    }
    Ok(found)
}

// Whether a part has this byte alone. Eight are looked at at once, since a part of whole sectors has as many eights.
fn has_only(part: &[u8], byte: u8) -> bool {
    let eight = u64::from(byte) * 0x0101_0101_0101_0101;
    for k in 0..part.len() / 8 {
        if BigEndian::read_u64(&part[8 * k..]) != eight {
            return false;
        }
    }
    true
}

// Reads a part of the volume that guests read. The end of the loop isn't reached: each step leaves fewer.
fn read_part<D: SharedDisk>(
    host: HostId,
    chain: &mut Chain,
    disk: &mut D,
    at: u64,
    part: &mut [u8],
) -> Result<(), Refusal>
    requires at { IsAligned at }
    requires piece { IsPiece (length part.old) }
    ensures chain { chain.new ≡ chain.old }
    ensures part { length part.new ≡ length part.old }
{
    let Some(volume) = chain.reading() else {
        return Err(Refusal::NotBuilt);
    };
    let mut work = ReadPart::begin(volume, at);
    for _ in 0..u64::MAX {
        match work.step(host, chain, disk, part) {
            Turn::More(next) => work = next,
            Turn::Done(()) => return Ok(()),
            Turn::Ended((), refusal) => return Err(refusal),
        }
    }
    Err(Refusal::NotBuilt)
}
