// The manager's role: who becomes it, what is refused, and giving it up.
use crate::shared::{LEASES, METADATA, POOL, SD, TEXT, make, start};
use lease_area::{Kind, LeaseRecord, Sector};
use memory_disk::Memory;
use sd_names::{HostId, Id, NoMemory, Refusal, UpSet};
use shared_disk::SharedDisk;
use spm_role::{Spm, spm_stop};
use std::alloc::Global;
use std::test::Fail;

// A pool on a disk that fails in this call, from 0; making it takes the calls 0 to 20.
pub fn pool(alloc: Global, host: HostId, failing: u64) -> Result<Memory, NoMemory> {
    let mut list = Vec::new(alloc);
    if list.push(failing).is_err() {
        return Err(NoMemory);
    }
    let mut disk = Memory::new(alloc, Vec::new(alloc), list, 6_000)?;
    let _ = make(alloc, &mut disk, host, 64);
    Ok(disk)
}

// Whether a start was refused with this text.
fn is_refused(started: Result<Spm, Refusal>, text: &[u8]) -> bool {
    match started {
        Ok(spm) => {
            spm.lost();
            false
        }
        Err(refusal) => refusal.text().as_bytes() == text,
    }
}

// Whether this is the manager at this version, with the pool and its domain.
fn is_manager(spm: &Spm, version: u64) -> bool {
    spm.version() == version
        && spm.master() == SD
        && spm.pool() == POOL
        && spm.domains.as_slice() == [SD].as_slice()
        && spm.tasks.as_slice().is_empty()
}

// Whether a host becomes the manager from this owner and version, at the next one, and gives the role up.
fn starts_and_stops(
    alloc: Global,
    disk: &mut Memory,
    host: HostId,
    up: &UpSet,
    prev: u8,
    lver: u64,
) -> bool {
    match start(alloc, disk, host, up, prev, lver) {
        Ok(spm) => {
            let is = lver < 100 && is_manager(&spm, lver + 1);
            spm_stop(spm, host, disk).is_ok() && is
        }
        Err(_) => false,
    }
}

// Whether a host becomes the manager so, and goes down.
fn starts_and_falls(
    alloc: Global,
    disk: &mut Memory,
    host: HostId,
    up: &mut UpSet,
    prev: u8,
    lver: u64,
) -> bool {
    match start(alloc, disk, host, up, prev, lver) {
        Ok(spm) => {
            let is = lver < 100 && is_manager(&spm, lver + 1);
            spm.lost();
            up.remove(host);
            disk.down(host);
            is
        }
        Err(_) => false,
    }
}

// A takeover: the version that was asked has to stand there, and the manager has to be gone.
#[test]
fn the_role_goes_over(rt: HostRuntime) -> Result<(), Fail> {
    let one = HostId::new(1).ok_or("1")?;
    let two = HostId::new(2).ok_or("2")?;
    let mut up = UpSet::new();
    up.add(one);
    up.add(two);
    let mut disk = pool(rt.alloc(), one, 1_000_000)?;
    assert!(rt; starts_and_stops(rt.alloc(), &mut disk, one, &up, 0, 0));
    let late = start(rt.alloc(), &mut disk, two, &up, 0, 0);
    assert!(rt; is_refused(late, b"42 LverMismatch 0 1"));
    let Ok(spm) = start(rt.alloc(), &mut disk, one, &up, 0, 1) else {
        return Err("refused".into());
    };
    assert!(rt; is_manager(&spm, 2));
    let held = start(rt.alloc(), &mut disk, two, &up, 1, 2);
    assert!(rt; is_refused(held, b"41 SpmHeld 1 2"));
    spm.lost();
    up.remove(one);
    disk.down(one);
    let other = start(rt.alloc(), &mut disk, two, &up, 3, 2);
    assert!(rt; is_refused(other, b"43 PrevMismatch 3 1"));
    assert!(rt; starts_and_falls(rt.alloc(), &mut disk, two, &mut up, 1, 2));
    // A host that went down and is up again takes its own.
    up.add(two);
    assert!(rt; starts_and_stops(rt.alloc(), &mut disk, two, &up, 2, 3));
    assert!(rt; starts_and_stops(rt.alloc(), &mut disk, one, &up, 0, 4));
    Ok(())
}

// A manager whose sector another host took meanwhile is told so.
#[test]
fn a_role_that_is_gone_is_told(rt: HostRuntime) -> Result<(), Fail> {
    let one = HostId::new(1).ok_or("1")?;
    let two = HostId::new(2).ok_or("2")?;
    let mut up = UpSet::new();
    up.add(two);
    let mut disk = pool(rt.alloc(), one, 1_000_000)?;
    let Ok(spm) = start(rt.alloc(), &mut disk, one, &up, 0, 0) else {
        return Err("refused".into());
    };
    assert!(rt; starts_and_falls(rt.alloc(), &mut disk, two, &mut up, 1, 1));
    match spm_stop(spm, one, &mut disk) {
        Ok(()) => return Err("given up".into()),
        Err(refusal) => assert!(rt; refusal.text().as_bytes() == b"41 SpmHeld 2 2".as_slice()),
    }
    Ok(())
}

// The text of a domain, with zeros to the sector's end, in place of the pool's.
pub fn put_text(disk: &mut Memory, text: &[u8]) -> Result<(), NoMemory> {
    let mut sector = [0; 512];
    if text.len() <= 512 {
        sector[..text.len()].copy_from_slice(text);
    }
    disk.put(METADATA, &sector)
}

const REGULAR: &[u8] =
    b"CLASS=Data\nDESCRIPTION=\nMASTER_VERSION=0\nPOOL_DOMAINS=\nPOOL_UUID=00000000-0000-4000-8000-000000000001\nROLE=Regular\nSDUUID=00000000-0000-4000-8000-000000000002\nVERSION=5\n_SHA_CKSUM=e407cdd00f21d39447b33a85cb981a4396a0686a\n";

const OF_VERSION_6: &[u8] =
    b"CLASS=Data\nDESCRIPTION=\nMASTER_VERSION=1\nPOOL_DOMAINS=00000000-0000-4000-8000-000000000002:Active\nPOOL_UUID=00000000-0000-4000-8000-000000000001\nROLE=Master\nSDUUID=00000000-0000-4000-8000-000000000002\nVERSION=6\n_SHA_CKSUM=e573204a4aed79ff12b0efd63ce2302aeaa016f3\n";

// The pool's text with another description, under the old digest.
const CHANGED: &[u8] =
    b"CLASS=Data\nDESCRIPTION=x\nMASTER_VERSION=1\nPOOL_DOMAINS=00000000-0000-4000-8000-000000000002:Active\nPOOL_UUID=00000000-0000-4000-8000-000000000001\nROLE=Master\nSDUUID=00000000-0000-4000-8000-000000000002\nVERSION=5\n_SHA_CKSUM=46e88711d22d8318aa83f22d3394d6dbac8534bc\n";

// The pool's text with another domain, of which nothing but the entry is there.
pub const OF_TWO: &[u8] =
    b"CLASS=Data\nDESCRIPTION=\nMASTER_VERSION=1\nPOOL_DOMAINS=00000000-0000-4000-8000-000000000002:Active,00000000-0000-4000-8000-000000000003:Active\nPOOL_UUID=00000000-0000-4000-8000-000000000001\nROLE=Master\nSDUUID=00000000-0000-4000-8000-000000000002\nVERSION=5\n_SHA_CKSUM=f1199c2643319156ddfcfd402e797b21e14fed52\n";

pub const OTHER: Id = Id([0, 0, 0, 0, 0, 0, 0x40, 0, 0x80, 0, 0, 0, 0, 0, 0, 3]);

// What a manager keeps of two lists that it reads, and of a text that is gone.
fn lists_again(
    alloc: Global,
    disk: &mut Memory,
    host: HostId,
    spm: &mut Spm,
) -> Result<bool, NoMemory> {
    put_text(disk, OF_TWO)?;
    let two = spm.read_list(alloc, host, disk).is_ok()
        && spm.domains.as_slice() == [SD, OTHER].as_slice()
        && spm.master() == SD;
    let gone = disk.remove(host, METADATA).is_ok();
    let refused = match spm.read_list(alloc, host, disk) {
        Ok(()) => false,
        Err(refusal) => refusal.text().as_bytes() == b"32 NoDomain".as_slice(),
    };
    let kept = spm.domains.as_slice() == [SD, OTHER].as_slice();
    put_text(disk, TEXT)?;
    let one = spm.read_list(alloc, host, disk).is_ok() && is_manager(spm, 1);
    Ok(two && gone && refused && kept && one)
}

#[test]
fn a_manager_reads_its_list_again(rt: HostRuntime) -> Result<(), Fail> {
    let host = HostId::new(1).ok_or("1")?;
    let mut up = UpSet::new();
    up.add(host);
    let mut disk = pool(rt.alloc(), host, 1_000_000)?;
    let Ok(mut spm) = start(rt.alloc(), &mut disk, host, &up, 0, 0) else {
        return Err("refused".into());
    };
    let listed = lists_again(rt.alloc(), &mut disk, host, &mut spm);
    spm.lost();
    assert!(rt; listed?);
    Ok(())
}

#[test]
fn each_text_is_refused_as_it_is(rt: HostRuntime) -> Result<(), Fail> {
    let host = HostId::new(1).ok_or("1")?;
    let mut up = UpSet::new();
    up.add(host);
    let mut disk = pool(rt.alloc(), host, 1_000_000)?;
    let cases: [(&[u8], &[u8]); 4] = [
        (b"", b"34 DomainCorrupt MissingKey CLASS"),
        (REGULAR, b"30 NoPool"),
        (OF_VERSION_6, b"35 WrongVersion 6"),
        (
            CHANGED,
            b"34 DomainCorrupt Checksum 46e88711d22d8318aa83f22d3394d6dbac8534bc c038fffa8257322e00ab8bc95a599ad26f90d4cd",
        ),
    ];
    for (text, want) in cases {
        put_text(&mut disk, text)?;
        let started = start(rt.alloc(), &mut disk, host, &up, 0, 0);
        assert!(rt; is_refused(started, want));
    }
    disk.remove(host, METADATA)?;
    let started = start(rt.alloc(), &mut disk, host, &up, 0, 0);
    assert!(rt; is_refused(started, b"32 NoDomain"));
    put_text(&mut disk, TEXT)?;
    assert!(rt; starts_and_stops(rt.alloc(), &mut disk, host, &up, 0, 0));
    Ok(())
}

// Sector 0 as another program left it; an expected answer of nothing is a start and a stop.
#[test]
fn each_sector_is_refused_as_it_is(rt: HostRuntime) -> Result<(), Fail> {
    let host = HostId::new(1).ok_or("1")?;
    let other = HostId::new(2).ok_or("2")?;
    let mut up = UpSet::new();
    up.add(host);
    up.add(other);
    let mut disk = pool(rt.alloc(), host, 1_000_000)?;
    disk.write_at(host, LEASES, 0, &[1; 512])?;
    disk.sync(host, LEASES)?;
    let started = start(rt.alloc(), &mut disk, host, &up, 0, 0);
    assert!(rt; is_refused(started, b"58 LeaseCorrupt 0"));
    let held = Sector::Lease(LeaseRecord {
        kind: Kind::Guest,
        owner: 2,
        version: 7,
        image: Id::ZERO,
    });
    disk.write_at(host, LEASES, 0, &held.write())?;
    disk.sync(host, LEASES)?;
    // 41 comes before 43, and 43 before 42.
    let started = start(rt.alloc(), &mut disk, host, &up, 0, 0);
    assert!(rt; is_refused(started, b"41 SpmHeld 2 7"));
    up.remove(other);
    let started = start(rt.alloc(), &mut disk, host, &up, 0, 0);
    assert!(rt; is_refused(started, b"43 PrevMismatch 0 2"));
    let started = start(rt.alloc(), &mut disk, host, &up, 2, 0);
    assert!(rt; is_refused(started, b"42 LverMismatch 0 7"));
    assert!(rt; starts_and_stops(rt.alloc(), &mut disk, host, &up, 2, 7));
    Ok(())
}

// A fault in each call of a start, and in the one of a stop: the calls behind the 21 of the pool.
#[test]
fn each_fault_is_told(rt: HostRuntime) -> Result<(), Fail> {
    let host = HostId::new(1).ok_or("1")?;
    let mut up = UpSet::new();
    up.add(host);
    for call in 21..25 {
        let mut disk = pool(rt.alloc(), host, call)?;
        let started = start(rt.alloc(), &mut disk, host, &up, 0, 0);
        assert!(rt; is_refused(started, b"120 DiskFault 1"), "call {call}");
        assert!(rt;
            starts_and_stops(rt.alloc(), &mut disk, host, &up, 0, 0),
            "call {call}"
        );
    }
    let mut disk = pool(rt.alloc(), host, 25)?;
    let Ok(spm) = start(rt.alloc(), &mut disk, host, &up, 0, 0) else {
        return Err("refused".into());
    };
    match spm_stop(spm, host, &mut disk) {
        Ok(()) => return Err("given up".into()),
        Err(refusal) => assert!(rt; refusal.number() == 120),
    }
    Ok(())
}
