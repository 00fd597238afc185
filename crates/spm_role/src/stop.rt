// Giving the role of a pool's manager up.
ghost use Rattle.std.specs.Prelude.{◌≡◌, ℕ, ◌+◌, ◌-◌, ◌^◌, List, false, min, IfErr};
ghost use Rattle.sd_names.specs.UpSet.{Hosts};
ghost use Rattle.shared_disk.specs.Calls.{Told};
ghost use Rattle.shared_disk.specs.Step.{ResultCounts};
ghost use Rattle.lease_area.specs.Hold.{ByOneExchange, GivesUp, IsGivingRefusal, Stands, giving_answer};
ghost use Rattle.lease_area.specs.Move.{LeaseMove, freed};
ghost use Rattle.lease_area.specs.declared.sector.Sector.TheVariants.{Lease as Named};
ghost use Rattle.spm_role.specs.Spm.{host_of, master_of, role_of};

use crate::Spm;
use sd_names::{HostId, Refusal};
use shared_disk::SharedDisk;

/// Gives the role up: sector 0 is free, with its version. One exchange. 41 with what stands there where that isn't
/// this role's own sector. The host is the one that took the role, and isn't the manager afterwards, whatever is
/// answered; after 120 sector 0 may name it still.
pub fn spm_stop<D: SharedDisk>(spm: Spm, host: HostId, disk: &mut D) -> Result<(), Refusal>
    requires own { host_of spm ≡ host }
    ensures counts { ResultCounts (D.faults disk.old) (D.faults disk.new) (D.calls disk.old) (D.calls disk.new) result }
    ensures counted { D.calls disk.new ≡ min (D.calls disk.old + 1) (2 ^ 64 - 1) }
    ensures refusals { IfErr result IsGivingRefusal }
    ensures moves { (up : Hosts) → LeaseMove up host false 0 (Named (role_of spm)) (Named (freed (role_of spm))) }
    ensures content { Told (D.content disk.old) (D.content disk.new) (λ d e. (bytes : List ℕ) → Stands d (master_of spm) 0 bytes → GivesUp (master_of spm) 0 (role_of spm) (Named (freed (role_of spm))) (D.faults disk.new) bytes result d e) }
    ensures exchange { Told (D.content disk.old) (D.content disk.new) (λ d e. ByOneExchange host (master_of spm) 0 (Named (role_of spm)) (Named (freed (role_of spm))) (giving_answer (D.faults disk.new)) result d e) }
{
    let lease = spm.into_lease();
    lease.release(host, disk)
}
