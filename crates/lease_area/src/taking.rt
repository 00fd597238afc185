// Taking a lease, by one exchange.
ghost use Rattle.std.specs.Prelude.{◌≡◌, ◌≢◌, ◌<◌, ◌+◌, ◌-◌, ◌^◌, ℕ, List, false, min, IfErr, IfOk};
ghost use Rattle.sd_names.specs.Id.{zero_id};
ghost use Rattle.shared_disk.specs.Calls.{Told};
ghost use Rattle.shared_disk.specs.Step.{ResultCounts};
ghost use Rattle.lease_area.specs.Hold.{ByOneExchange, IsImageRefusal, IsRoleRefusal, IsTakeRefusal, Stands, Takes, domain_of, image_answer, image_answer_to, record_of, record_taken, role_answer, role_answer_to, slot_of, take_answer, take_answer_to};
ghost use Rattle.lease_area.specs.Move.{LeaseMove, image_taken, is_task, next_sector, role_taken, taken};
ghost use Rattle.lease_area.specs.declared.sector.Kind.TheVariants.{Free, Guest};
ghost use Rattle.lease_area.specs.declared.sector.Sector.TheVariants.{Lease as OfImage};

use crate::attempt::{NotTaken, attempt};
use crate::new_lease::{image_taken, role_taken};
use crate::refusal::{image_refusal, role_refusal};
use crate::{Kind, Lease, Sector};
use sd_names::{HostId, Id, Refusal, UpSet};
use shared_disk::SharedDisk;

/// Takes the role of the pool's manager: sector 0 of the master domain, where it is as expected and the host may have it.
/// One exchange, which decides. Where the sector that was handed can't be taken it is exchanged for itself, so that the
/// refusal holds in the moment of this call; where another one is found, that one decides.
///
/// 58 where no sector stands there, 41 where another host that is up has it, 43 where its owner differs from the expected
/// one, 42 where its version does; 41 with the asking host's own number where an empty sector was expected and a free one
/// of version 0 found, or the other way round.
pub fn take_role<D: SharedDisk>(
    host: HostId,
    up: &UpSet,
    sd: Id,
    expect: &Sector,
    disk: &mut D,
) -> Result<Lease, Refusal>
    ensures counts { ResultCounts (D.faults disk.old) (D.faults disk.new) (D.calls disk.old) (D.calls disk.new) result }
    ensures counted { D.calls disk.new ≡ min (D.calls disk.old + 1) (2 ^ 64 - 1) }
    ensures refusals { IfErr result IsRoleRefusal }
    ensures sector { IfOk result (λ lease. (domain_of lease ≡ sd) × (slot_of lease ≡ 0)) }
    ensures held { IfOk result (λ lease. ((record_of lease).owner ≡ host) × ((record_of lease).kind ≡ Guest)) }
    ensures moves { IfOk result (λ lease. LeaseMove up.now host false 0 expect.now (OfImage (record_of lease))) }
    ensures content { Told (D.content disk.old) (D.content disk.new) (λ d e. (bytes : List ℕ) → Stands d sd 0 bytes → Takes sd 0 (role_answer up.now host expect.now bytes) (D.faults disk.new) (record_taken result) d e) }
    ensures exchange { Told (D.content disk.old) (D.content disk.new) (λ d e. ByOneExchange host sd 0 expect.now (next_sector (role_taken up.now host expect.now) expect.now) (role_answer_to up.now host expect.now (D.faults disk.new)) (record_taken result) d e) }
{
    let new = role_taken(up, host, expect);
    match attempt(host, sd, 0, expect, new, disk) {
        Ok(lease) => Ok(lease),
        Err(NotTaken::Found(found)) => Err(role_refusal(up, host, expect, found)),
        Err(NotTaken::Refused(refusal)) => Err(refusal),
    }
}

/// Takes the lease of an image, where its sector is as expected and the host may have it: one exchange, as in `take_role`.
/// An empty sector is taken for a task alone, for a new image.
///
/// 52 with the owner where the sector is held for a task, or for a guest of another host that is up; with the asking host's
/// own number where another sector was found that it could take as well, so that its caller scans again. 50 where the
/// sector doesn't name the image.
pub fn take_image<D: SharedDisk>(
    host: HostId,
    up: &UpSet,
    sd: Id,
    slot: u16,
    expect: &Sector,
    kind: Kind,
    image: Id,
    disk: &mut D,
) -> Result<Lease, Refusal>
    requires slot { slot < 1024 }
    requires image { (slot ≢ 0) × (image ≢ zero_id) }
    requires kind { kind ≢ Free }
    ensures counts { ResultCounts (D.faults disk.old) (D.faults disk.new) (D.calls disk.old) (D.calls disk.new) result }
    ensures counted { D.calls disk.new ≡ min (D.calls disk.old + 1) (2 ^ 64 - 1) }
    ensures refusals { IfErr result IsImageRefusal }
    ensures sector { IfOk result (λ lease. (domain_of lease ≡ sd) × (slot_of lease ≡ slot)) }
    ensures held { IfOk result (λ lease. ((record_of lease).owner ≡ host) × ((record_of lease).kind ≡ kind)) }
    ensures moves { IfOk result (λ lease. LeaseMove up.now host (is_task kind) slot expect.now (OfImage (record_of lease))) }
    ensures content { Told (D.content disk.old) (D.content disk.new) (λ d e. (bytes : List ℕ) → Stands d sd slot bytes → Takes sd slot (image_answer up.now host kind image expect.now bytes) (D.faults disk.new) (record_taken result) d e) }
    ensures exchange { Told (D.content disk.old) (D.content disk.new) (λ d e. ByOneExchange host sd slot expect.now (next_sector (image_taken up.now host kind image expect.now) expect.now) (image_answer_to up.now host kind image expect.now (D.faults disk.new)) (record_taken result) d e) }
{
    let new = image_taken(up, host, kind, image, expect);
    match attempt(host, sd, slot, expect, new, disk) {
        Ok(lease) => Ok(lease),
        Err(NotTaken::Found(found)) => Err(image_refusal(up, host, image, found)),
        Err(NotTaken::Refused(refusal)) => Err(refusal),
    }
}

/// Takes the lease of an image, as `take_image` does, or in sector 0 the role of the pool's manager, as `take_role` does.
pub fn take<D: SharedDisk>(
    host: HostId,
    up: &UpSet,
    sd: Id,
    slot: u16,
    expect: &Sector,
    kind: Kind,
    image: Id,
    disk: &mut D,
) -> Result<Lease, Refusal>
    requires slot { slot < 1024 }
    requires kind { kind ≢ Free }
    requires role { slot ≡ 0 → (kind ≡ Guest) × (image ≡ zero_id) }
    requires image { slot ≢ 0 → image ≢ zero_id }
    ensures counts { ResultCounts (D.faults disk.old) (D.faults disk.new) (D.calls disk.old) (D.calls disk.new) result }
    ensures counted { D.calls disk.new ≡ min (D.calls disk.old + 1) (2 ^ 64 - 1) }
    ensures refusals { IfErr result (IsTakeRefusal slot) }
    ensures sector { IfOk result (λ lease. (domain_of lease ≡ sd) × (slot_of lease ≡ slot)) }
    ensures held { IfOk result (λ lease. ((record_of lease).owner ≡ host) × ((record_of lease).kind ≡ kind)) }
    ensures moves { IfOk result (λ lease. LeaseMove up.now host (is_task kind) slot expect.now (OfImage (record_of lease))) }
    ensures content { Told (D.content disk.old) (D.content disk.new) (λ d e. (bytes : List ℕ) → Stands d sd slot bytes → Takes sd slot (take_answer up.now host slot kind image expect.now bytes) (D.faults disk.new) (record_taken result) d e) }
    ensures exchange { Told (D.content disk.old) (D.content disk.new) (λ d e. ByOneExchange host sd slot expect.now (next_sector (taken up.now host slot kind image expect.now) expect.now) (take_answer_to up.now host slot kind image expect.now (D.faults disk.new)) (record_taken result) d e) }
{
    if slot == 0 {
        take_role(host, up, sd, expect, disk)
    } else {
        take_image(host, up, sd, slot, expect, kind, image, disk)
    }
}
