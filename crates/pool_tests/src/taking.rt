// Taking the manager's role, up to the list of domains that is read behind the exchange.
use crate::role::{OF_TWO, OTHER, pool, put_text};
use crate::shared::SD;
use memory_disk::Memory;
use role_taking::RoleTaking;
use sd_names::{HostId, Id, Turn, UpSet};
use spm_role::Spm;
use std::alloc::Global;
use std::test::Fail;

// So many steps of a taking: what is left to do, or how it ended.
fn steps(
    alloc: Global,
    disk: &mut Memory,
    host: HostId,
    up: &UpSet,
    taking: RoleTaking,
    count: u16,
) -> Turn<RoleTaking, Spm, ()> {
    let mut work = taking;
    for _ in 0..count {
        match work.step(alloc, host, up, disk) {
            Turn::More(next) => work = next,
            Turn::Done(spm) => return Turn::Done(spm),
            Turn::Ended((), refusal) => return Turn::Ended((), refusal),
        }
    }
    Turn::More(work)
}

// What is left of a taking that has not ended.
fn left(turn: Turn<RoleTaking, Spm, ()>) -> Option<RoleTaking> {
    match turn {
        Turn::More(taking) => Some(taking),
        Turn::Done(spm) => {
            spm.lost();
            None
        }
        Turn::Ended((), _) => None,
    }
}

// Whether the taking ended with the manager of this version, who lists these domains.
fn leads(turn: Turn<RoleTaking, Spm, ()>, version: u64, domains: &[Id]) -> bool {
    match turn {
        Turn::More(taking) => {
            taking.lost();
            false
        }
        Turn::Done(spm) => {
            let is = spm.version() == version && spm.domains.as_slice() == domains;
            spm.lost();
            is
        }
        Turn::Ended((), _) => false,
    }
}

// Whether it was refused with this text.
fn says(turn: Turn<RoleTaking, Spm, ()>, text: &[u8]) -> bool {
    match turn {
        Turn::More(taking) => {
            taking.lost();
            false
        }
        Turn::Done(spm) => {
            spm.lost();
            false
        }
        Turn::Ended((), refusal) => refusal.text().as_bytes() == text,
    }
}

// A whole taking, from this owner and version.
fn take(
    alloc: Global,
    disk: &mut Memory,
    host: HostId,
    up: &UpSet,
    prev: u8,
    lver: u64,
) -> Turn<RoleTaking, Spm, ()> {
    match RoleTaking::begin(alloc, SD, prev, lver) {
        Ok(taking) => steps(alloc, disk, host, up, taking, 5),
        Err(refusal) => Turn::Ended((), refusal),
    }
}

#[test]
fn a_role_is_taken_over(rt: HostRuntime) -> Result<(), Fail> {
    let one = HostId::new(1).ok_or("1")?;
    let two = HostId::new(2).ok_or("2")?;
    let mut up = UpSet::new();
    up.add(one);
    up.add(two);
    let mut disk = pool(rt.alloc(), one, 1_000_000)?;
    let first = take(rt.alloc(), &mut disk, one, &up, 0, 0);
    assert!(rt; leads(first, 1, &[SD]));
    let held = take(rt.alloc(), &mut disk, two, &up, 1, 1);
    assert!(rt; says(held, b"41 SpmHeld 1 1"));
    up.remove(one);
    let other = take(rt.alloc(), &mut disk, two, &up, 0, 1);
    assert!(rt; says(other, b"43 PrevMismatch 0 1"));
    let late = take(rt.alloc(), &mut disk, two, &up, 1, 0);
    assert!(rt; says(late, b"42 LverMismatch 0 1"));
    let second = take(rt.alloc(), &mut disk, two, &up, 1, 1);
    assert!(rt; leads(second, 2, &[SD]));
    Ok(())
}

// The list that was read before the exchange is an old one: the manager has that of the reading behind it.
#[test]
fn the_list_is_read_behind_the_exchange(rt: HostRuntime) -> Result<(), Fail> {
    let host = HostId::new(1).ok_or("1")?;
    let mut up = UpSet::new();
    up.add(host);
    let mut disk = pool(rt.alloc(), host, 1_000_000)?;
    let Ok(taking) = RoleTaking::begin(rt.alloc(), SD, 0, 0) else {
        return Err("not begun".into());
    };
    let Some(taking) = left(steps(rt.alloc(), &mut disk, host, &up, taking, 3)) else {
        return Err("ended".into());
    };
    let put = put_text(&mut disk, OF_TWO);
    let ended = steps(rt.alloc(), &mut disk, host, &up, taking, 2);
    let listed = leads(ended, 1, &[SD, OTHER]);
    put?;
    assert!(rt; listed);
    Ok(())
}

// A fault in each call, those behind the 21 of the pool. Behind the exchange the sector names the host, which takes the role
// from itself.
#[test]
fn each_fault_of_a_taking_is_told(rt: HostRuntime) -> Result<(), Fail> {
    let host = HostId::new(1).ok_or("1")?;
    let mut up = UpSet::new();
    up.add(host);
    for call in 21..26 {
        let mut disk = pool(rt.alloc(), host, call)?;
        let failed = take(rt.alloc(), &mut disk, host, &up, 0, 0);
        assert!(rt; says(failed, b"120 DiskFault 1"), "call {call}");
        let (prev, lver) = if call == 25 { (1, 1) } else { (0, 0) };
        let again = take(rt.alloc(), &mut disk, host, &up, prev, lver);
        assert!(rt; leads(again, lver + 1, &[SD]), "call {call}");
    }
    Ok(())
}
