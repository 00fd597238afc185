// Entries that are made in a table that is there, and in a new one, by a host that stops or meets a fault at each
// step; and what is there once it went down.
ghost use Rattle.std.specs.Prelude.{◌≤◌};

use super::{FILE, disk_with, lay, lay_number, look, open_layer};
use layer_linking::{Linking, Links};
use memory_disk::{Memory, Pick};
use qcow_format::Entry;
use qcow_layer::{Layer, Looked};
use sd_names::{HostId, NoMemory, Turn};
use shared_disk::SharedDisk;
use std::alloc::{AllocError, Global};
use std::test::Fail;

// A layer of version 2 with two L1 entries, the first of which names a table with one entry: clusters 0 to 5 are the
// header, the refcount table, its block, the L1 table, the L2 table and the data. Clusters 6 to 8 have counts and no names.
fn file_of(alloc: Global, bits: u32) -> Result<Vec<u8>, AllocError>
    requires low { 12 ≤ bits }
    requires high { bits ≤ 21 }
{
    let c: usize = 1 << bits;
    let mut file = vec![in alloc; 0; 9 * c]?;
    lay(&mut file, 0, b"QFI\xfb\0\0\0\x02");
    lay_number(&mut file, 20, 4, u64::from(bits));
    lay_number(&mut file, 24, 8, capacity_of(bits));
    lay_number(&mut file, 36, 4, 2);
    lay_number(&mut file, 40, 8, 3 * c as u64);
    lay_number(&mut file, 48, 8, c as u64);
    lay_number(&mut file, 56, 4, 1);
    lay_number(&mut file, c, 8, 2 * c as u64);
    lay(
        &mut file,
        2 * c,
        &[0, 1, 0, 1, 0, 1, 0, 1, 0, 1, 0, 1, 0, 1, 0, 1, 0, 1],
    );
    lay_number(&mut file, 3 * c, 8, (1 << 63) + 4 * c as u64);
    lay_number(&mut file, 4 * c, 8, (1 << 63) + 5 * c as u64);
    Ok(file)
}

// The clusters of one table, and 64 more.
fn capacity_of(bits: u32) -> u64
    requires { bits ≤ 21 }
{
    let c: u64 = 1 << bits;
    (c / 8 + 64) * c
}

// Two clusters of the virtual disk get the places of clusters 7 and 8: 1 and 3 of the first table, or of a new one at
// cluster 6. So many steps are made, or as many calls are answered before one fails; then the host goes down.
#[derive(Clone, Copy, Debug)]
struct Case {
    bits: u32,
    new: bool,
    pick: Pick,
    steps: u64,
    fails: bool,
}

// How the linking ended, and what is there then: the two entries as another host finds them, opening the layer anew, the
// entry beside them, and the words on the medium.
#[derive(Clone, Copy, Debug, PartialEq, Eq)]
struct Found {
    done: bool,
    refused: u16,
    first: Option<Looked>,
    second: Option<Looked>,
    beside: Option<Looked>,
    word: u64,
    l1_word: u64,
}

fn word_on(disk: &Memory, at: u64) -> u64 {
    let mut bytes = [0; 8];
    match disk.bytes(FILE, at, &mut bytes) {
        Some(_) => u64::from_be_bytes(bytes),
        None => 0,
    }
}

// A disk with the file, which settles by the pick, and fails in the call of the case.
fn disk_of(alloc: Global, case: &Case, file: &[u8]) -> Result<Memory, NoMemory> {
    let mut picks = Vec::new(alloc);
    let mut list = Vec::new(alloc);
    if picks.push(case.pick).is_err() || case.fails && list.push(case.steps).is_err() {
        return Err(NoMemory);
    }
    let mut disk = Memory::new(alloc, picks, list, 20_000)?;
    if file.len() % 512 == 0 {
        disk.put(FILE, file)?;
    }
    Ok(disk)
}

// Makes so many steps, or fewer. Whether the linking was done, and the number of its refusal, or 0.
fn step(
    host: HostId,
    layer: &mut Layer,
    disk: &mut Memory,
    linking: Linking,
    steps: u64,
) -> (bool, u16) {
    let mut linking = linking;
    for _ in 0..steps {
        match linking.step(host, layer, disk) {
            Turn::More(next) => linking = next,
            Turn::Done(()) => return (true, 0),
            Turn::Ended((), refusal) => return (false, refusal.number()),
        }
    }
    (false, 0)
}

// The first of the two clusters is behind this one.
fn base_of(case: &Case) -> u64
    requires { case.now.bits ≤ 21 }
    ensures { result ≤ 262144 }
{
    let c: u64 = 1 << case.bits;
    // A table has at most so many entries.
    if case.new { (c / 8).min(262_144) } else { 0 }
}

// What another host finds that opens the layer anew.
fn look_again(
    alloc: Global,
    other: HostId,
    disk: &mut Memory,
    case: &Case,
    end: (bool, u16),
) -> Option<Found>
    requires { case.now.bits ≤ 21 }
{
    let c: u64 = 1 << case.bits;
    let base = base_of(case);
    let l1_word = word_on(disk, 3 * c + 8);
    let table = if case.new { 6 * c } else { 4 * c };
    // A table that nothing names may hold anything.
    let word = if case.new && l1_word == 0 {
        0
    } else {
        word_on(disk, table + 24)
    };
    match open_layer(alloc, disk, other, capacity_of(case.bits)) {
        Err(_) => None,
        Ok(layer) => {
            let mut layer = layer;
            Some(Found {
                done: end.0,
                refused: end.1,
                first: look(disk, other, &mut layer, base + 1),
                second: look(disk, other, &mut layer, base + 3),
                beside: look(disk, other, &mut layer, 0),
                word,
                l1_word,
            })
        }
    }
}

fn run(alloc: Global, host: HostId, other: HostId, case: &Case) -> Result<Option<Found>, NoMemory>
    requires low { 12 ≤ case.now.bits }
    requires high { case.now.bits ≤ 21 }
{
    let Ok(file) = file_of(alloc, case.bits) else {
        return Err(NoMemory);
    };
    let c: u64 = 1 << case.bits;
    let mut readable = disk_with(alloc, u64::MAX, &file)?;
    let Ok(layer) = open_layer(alloc, &mut readable, host, capacity_of(case.bits)) else {
        return Ok(None);
    };
    let mut layer = layer;
    let mut disk = disk_of(alloc, case, &file)?;
    let base = base_of(case);
    let links = Links::one(base + 1, 7 * c);
    if links.group() != (base + 3) / 64 {
        return Ok(None);
    }
    let table = if case.new { 6 * c } else { 0 };
    let linking = Linking::begin_all(links.with(base + 3, 8 * c), table);
    let steps = if case.fails { 100 } else { case.steps };
    let end = step(host, &mut layer, &mut disk, linking, steps);
    disk.down(host);
    Ok(look_again(alloc, other, &mut disk, case, end))
}

// What has to be there: none of the entries or both, with bit 63, and in a new table only where it is named.
fn wanted(case: &Case, done: bool, refused: u16, new: bool) -> Found
    requires { case.now.bits ≤ 21 }
{
    let c: u64 = 1 << case.bits;
    let entry = |place: u64| {
        if new {
            Entry::Data(place)
        } else {
            Entry::Absent
        }
    };
    let table = !case.new || new;
    Found {
        done,
        refused,
        first: Some(Looked {
            entry: entry(7 * c),
            table,
        }),
        second: Some(Looked {
            entry: entry(8 * c),
            table,
        }),
        beside: Some(Looked {
            entry: Entry::Data(5 * c),
            table: true,
        }),
        word: if new { (1 << 63) + 8 * c } else { 0 },
        l1_word: if case.new && new {
            (1 << 63) + 6 * c
        } else {
            0
        },
    }
}

// A table of 4,096 bytes that is there takes 4 calls, a new one 6: zeros, entries, sync; then the L1 entry's sector is read,
// written and synced. Before the last write reached the medium the entries are old.
#[test]
fn small_clusters_at_each_crash(rt: HostRuntime) -> Result<(), Fail> {
    let host = HostId::new(1).ok_or("no host")?;
    let other = HostId::new(2).ok_or("no host")?;
    for (new, calls) in [(false, 4), (true, 6)] {
        for pick in [Pick::Old, Pick::New, Pick::Byte(0x55)] {
            for steps in 0..calls + 1 {
                for fails in [false, true] {
                    let case = Case {
                        bits: 12,
                        new,
                        pick,
                        steps,
                        fails: fails && steps < calls,
                    };
                    let done = steps == calls;
                    let reached = steps + 1 == calls && matches!(pick, Pick::New);
                    let refused = if fails && !done { 120 } else { 0 };
                    assert_eq!(rt;
                        run(rt.alloc(), host, other, &case)?,
                        Some(wanted(&case, done, refused, done || reached)),
                        "a new table: {new}, {pick:?}, {steps} steps, a fault: {fails}"
                    );
                }
            }
        }
    }
    Ok(())
}

// A new table of 2,097,152 bytes takes 32 pieces of zeros and 5 more calls.
#[test]
fn large_clusters(rt: HostRuntime) -> Result<(), Fail> {
    let host = HostId::new(1).ok_or("no host")?;
    let other = HostId::new(2).ok_or("no host")?;
    let rows = [(Pick::New, 33, false, false), (Pick::Old, 37, true, true)];
    for (pick, steps, done, linked) in rows {
        let case = Case {
            bits: 21,
            new: true,
            pick,
            steps,
            fails: false,
        };
        assert_eq!(rt;
            run(rt.alloc(), host, other, &case)?,
            Some(wanted(&case, done, 0, linked)),
            "{pick:?}, {steps} steps"
        );
    }
    Ok(())
}
