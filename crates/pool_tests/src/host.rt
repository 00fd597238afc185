// A host: what is refused before a verb begins, and its going down.
ghost use Rattle.host_core.specs.State.{IsHosted};

use crate::shared::{LEASES, POOL, SD};
use host_core::Host;
use memory_disk::{Memory, Pick};
use sd_names::{HostId, Refusal, UpSet, Verb};
use shared_disk::SharedDisk;
use std::alloc::Global;
use std::test::Fail;

const MAKE: Verb<'static> = Verb::MakePool {
    pool: POOL,
    sd: SD,
    version: 5,
    text: b"",
};

const START: Verb<'static> = Verb::SpmStart {
    sd: SD,
    prev: 0,
    lver: 0,
};

const CLEAR: Verb<'static> = Verb::ClearTask { task: POOL };

// Whether this is a refusal with this text.
fn says(refusal: Option<Refusal>, text: &[u8]) -> bool {
    match refusal {
        Some(refusal) => refusal.text().as_bytes() == text,
        None => false,
    }
}

// A host that was just booted isn't the manager: what asks for one is refused, and making a pool only beside others.
fn is_new(host: &Host, alone: &UpSet, beside: &UpSet) -> bool {
    host.barred(alone, &MAKE).is_none()
        && says(host.barred(beside, &MAKE), b"25 OthersUp 2")
        && host.barred(beside, &START).is_none()
        && says(host.barred(alone, &Verb::SpmStop), b"40 NotSpm")
        && says(host.barred(alone, &Verb::Tasks), b"40 NotSpm")
        && says(host.barred(alone, &Verb::Recover), b"40 NotSpm")
        && says(host.barred(alone, &CLEAR), b"40 NotSpm")
        && host.read_bytes().is_empty()
}

#[test]
fn a_new_host_leads_nothing(rt: HostRuntime) -> Result<(), Fail> {
    let one = HostId::new(1).ok_or("1")?;
    let two = HostId::new(2).ok_or("2")?;
    let mut disk = Memory::new(rt.alloc(), Vec::new(rt.alloc()), Vec::new(rt.alloc()), 100)?;
    let mut alone = UpSet::new();
    alone.add(one);
    let mut beside = alone;
    beside.add(two);
    let mut host = match Host::boot(rt.alloc(), one, 0) {
        Ok(host) => host,
        Err(_) => return Err("no host".into()),
    };
    let new = is_new(&host, &alone, &beside);
    let stop = host.begin(&alone, &Verb::SpmStop);
    let same = is_new(&host, &alone, &beside);
    host.down(&mut disk);
    assert!(rt; new && same);
    assert!(rt; says(stop.err(), b"40 NotSpm"));
    Ok(())
}

// Whether a new host is refused this verb, as one that isn't the manager, and goes down.
fn begins_nothing(alloc: Global, disk: &mut Memory, id: HostId, verb: &Verb<'_>) -> bool
    requires hosted { IsHosted verb.now }
{
    let mut up = UpSet::new();
    up.add(id);
    match Host::boot(alloc, id, 0) {
        Ok(mut host) => {
            let begun = host.begin(&up, verb);
            host.down(disk);
            says(begun.err(), b"40 NotSpm")
        }
        Err(_) => false,
    }
}

#[test]
fn a_new_host_asks_for_no_tasks(rt: HostRuntime) -> Result<(), Fail> {
    let one = HostId::new(1).ok_or("1")?;
    let mut disk = Memory::new(rt.alloc(), Vec::new(rt.alloc()), Vec::new(rt.alloc()), 100)?;
    assert!(rt; begins_nothing(rt.alloc(), &mut disk, one, &Verb::Tasks));
    assert!(rt; begins_nothing(rt.alloc(), &mut disk, one, &CLEAR));
    Ok(())
}

// What the host had not synced is settled with it.
#[test]
fn a_host_goes_down_with_the_disk(rt: HostRuntime) -> Result<(), Fail> {
    let one = HostId::new(1).ok_or("1")?;
    let mut picks = Vec::new(rt.alloc());
    picks.push(Pick::Old)?;
    let mut disk = Memory::new(rt.alloc(), picks, Vec::new(rt.alloc()), 100)?;
    disk.put(LEASES, &[0; 512])?;
    let wrote = disk.write_at(one, LEASES, 0, &[7; 512]).is_ok();
    let mut sector = [1; 512];
    let seen = disk.read_at(one, LEASES, 0, &mut sector) == Ok(512) && sector == [7; 512];
    let host = match Host::boot(rt.alloc(), one, 0) {
        Ok(host) => host,
        Err(_) => return Err("no host".into()),
    };
    host.down(&mut disk);
    let after = disk.read_at(one, LEASES, 0, &mut sector) == Ok(512) && sector == [0; 512];
    assert!(rt; wrote && seen && after);
    Ok(())
}
