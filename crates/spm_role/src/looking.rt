// Reading sector 0 of the leases file, before it is taken.
ghost use Rattle.std.specs.Prelude.{◌≡◌, ℕ, ◌+◌, ◌-◌, ◌^◌, min, IfErr, IfOk};
ghost use Rattle.shared_disk.specs.Calls.{Told};
ghost use Rattle.shared_disk.specs.Refusal.{IsRisen};
ghost use Rattle.shared_disk.specs.Step.{ResultCounts};
ghost use Rattle.lease_area.specs.Hold.{IsRoleRefusal};
ghost use Rattle.lease_area.specs.Move.{owner_of, version_of};
ghost use Rattle.spm_role.specs.Look.{Looks, look_answer, sector_read};

use lease_area::{Sector, is_open};
use sd_names::{Dir, HostId, Id, Name, Place, Refusal, UpSet};
use shared_disk::{SharedDisk, refusal_for};

// The sector that was read, where a whole one was.
fn sector_read(count: usize, bytes: &[u8; 512]) -> Option<Sector>
    ensures { result ≡ sector_read count bytes.now }
{
    if count == 512 {
        Sector::read(bytes)
    } else {
        None
    }
}

// The sector, where it may be taken from this owner at this version; else why it may not.
fn asked_in(
    up: &UpSet,
    host: HostId,
    prev: u8,
    lver: u64,
    found: Option<Sector>,
) -> Result<Sector, Refusal>
    ensures exact { result ≡ look_answer up.now host prev lver found }
    ensures as_asked { IfOk result (λ sector. (owner_of sector ≡ prev) × (version_of sector ≡ lver)) }
    ensures refusals { IfErr result IsRoleRefusal }
    ensures no_fault { IfErr result (λ refusal. (before after : ℕ) → after ≡ before → IsRisen before after refusal) }
{
    let sector = match found {
        Some(sector) => sector,
        None => return Err(Refusal::LeaseCorrupt(0)),
    };
    let (owner, version) = (sector.owner(), sector.version());
    if !is_open(up, host, owner) {
        return Err(Refusal::SpmHeld(owner, version));
    }
    if owner != prev {
        return Err(Refusal::PrevMismatch(prev, owner));
    }
    if version != lver {
        return Err(Refusal::LverMismatch(lver, version));
    }
    Ok(sector)
}

/// Reads sector 0: the sector, where it may be taken from this owner at this version. One call of the disk. 58 where
/// no sector stands there, 41 where another host that is up has it, 43 where its owner isn't `prev`, 42 where its
/// version isn't `lver`, as the sector is in this moment.
pub(crate) fn look<D: SharedDisk>(
    host: HostId,
    up: &UpSet,
    disk: &mut D,
    sd: Id,
    prev: u8,
    lver: u64,
) -> Result<Sector, Refusal>
    ensures counts { ResultCounts (D.faults disk.old) (D.faults disk.new) (D.calls disk.old) (D.calls disk.new) result }
    ensures counted { D.calls disk.new ≡ min (D.calls disk.old + 1) (2 ^ 64 - 1) }
    ensures refusals { IfErr result IsRoleRefusal }
    ensures as_asked { IfOk result (λ sector. (owner_of sector ≡ prev) × (version_of sector ≡ lver)) }
    ensures content { Told (D.content disk.old) (D.content disk.new) (Looks host up.now sd prev lver (D.faults disk.new) result) }
{
    let place = Place {
        dir: Dir::DomMd(sd),
        name: Name::Leases,
    };
    let mut bytes = [0; 512];
    match disk.read_at(host, place, 0, &mut bytes) {
        Ok(count) => asked_in(up, host, prev, lver, sector_read(count, &bytes)),
        Err(answer) => Err(refusal_for(answer, disk)),
    }
}
