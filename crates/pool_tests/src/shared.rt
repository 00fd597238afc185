// What the tests share: the names of a pool, and whole runs of the verbs.
ghost use Rattle.std.specs.Prelude.{◌≡◌, IfOk};
ghost use Rattle.spm_role.specs.Spm.{host_of};

use memory_disk::Memory;
use pool_making::MakePool;
use sd_names::{Dir, HostId, Id, Name, Place, Refusal, Turn, UpSet};
use spm_role::{Spm, SpmStart};
use std::alloc::Global;

pub const POOL: Id = Id([0, 0, 0, 0, 0, 0, 0x40, 0, 0x80, 0, 0, 0, 0, 0, 0, 1]);

pub const SD: Id = Id([0, 0, 0, 0, 0, 0, 0x40, 0, 0x80, 0, 0, 0, 0, 0, 0, 2]);

pub const METADATA: Place = Place {
    dir: Dir::DomMd(SD),
    name: Name::Metadata,
};

pub const LEASES: Place = Place {
    dir: Dir::DomMd(SD),
    name: Name::Leases,
};

// The text of a pool's only domain, version 5, without a description; the digest is from outside.
pub const TEXT: &[u8] =
    b"CLASS=Data\nDESCRIPTION=\nMASTER_VERSION=1\nPOOL_DOMAINS=00000000-0000-4000-8000-000000000002:Active\nPOOL_UUID=00000000-0000-4000-8000-000000000001\nROLE=Master\nSDUUID=00000000-0000-4000-8000-000000000002\nVERSION=5\n_SHA_CKSUM=46e88711d22d8318aa83f22d3394d6dbac8534bc\n";

// How a verb ended, after so many steps.
#[derive(Clone, Copy, Debug, PartialEq, Eq)]
pub enum End {
    Done(u16),
    // With the number of the refusal.
    Refused(u16, u16),
    // It never began, or took more steps than these tests allow.
    Other,
}

// Makes the pool, or so many steps of it.
pub fn make(alloc: Global, disk: &mut Memory, host: HostId, most: u16) -> End {
    let mut work = match MakePool::begin(alloc, POOL, SD, 5, b"") {
        Ok(work) => work,
        Err(_) => return End::Other,
    };
    for step in 1..=most {
        match work.step(host, disk) {
            Turn::More(next) => work = next,
            Turn::Done(()) => return End::Done(step),
            Turn::Ended((), refusal) => return End::Refused(step, refusal.number()),
        }
    }
    End::Other
}

// Becomes the manager.
pub fn start(
    alloc: Global,
    disk: &mut Memory,
    host: HostId,
    up: &UpSet,
    prev: u8,
    lver: u64,
) -> Result<Spm, Refusal>
    ensures { IfOk result (λ spm. host_of spm ≡ host) }
{
    let mut work = SpmStart::begin(alloc, SD, prev, lver)?;
    for _ in 0..4 {
        match work.step(host, up, disk) {
            Turn::More(next) => work = next,
            Turn::Done(spm) => return Ok(spm),
            Turn::Ended((), refusal) => return Err(refusal),
        }
    }
    Err(Refusal::NotBuilt)
}
