// What a pool lists, as its manager reads it.
ghost use Rattle.std.specs.Prelude.{◌≡◌, ◌+◌, ◌-◌, ◌^◌, min, true, IfErr, OnOk};
ghost use Rattle.domain_meta.specs.Values.{is_rising};
ghost use Rattle.shared_disk.specs.Calls.{Told};
ghost use Rattle.shared_disk.specs.Step.{ResultCounts};
ghost use Rattle.spm_role.specs.List.{IsSameManager, ListsPool};
ghost use Rattle.spm_role.specs.Master.{IsTextRefusal};
ghost use Rattle.spm_role.specs.Spm.{domains_of, master_of};

use crate::Spm;
use crate::master::read_master;
use sd_names::{HostId, Refusal};
use shared_disk::SharedDisk;
use std::alloc::Global;

impl Spm {
    /// Reads the master's text again, and keeps the domains that it lists now. One call of the disk. Behind the exchange by
    /// which the host became the manager nobody else changes the list, so it is the pool's from then on. Refused as a start is
    /// by the text, and then the list that is kept is as before.
    pub fn read_list<D: SharedDisk>(
        &mut self,
        alloc: Global,
        host: HostId,
        disk: &mut D,
    ) -> Result<(), Refusal>
        ensures counts { ResultCounts (D.faults disk.old) (D.faults disk.new) (D.calls disk.old) (D.calls disk.new) result }
        ensures counted { D.calls disk.new ≡ min (D.calls disk.old + 1) (2 ^ 64 - 1) }
        ensures refusals { IfErr result IsTextRefusal }
        ensures same { IsSameManager self.old self.new }
        ensures rising { OnOk result (is_rising (domains_of self.new) ≡ true) }
        ensures content { Told (D.content disk.old) (D.content disk.new) (ListsPool host (master_of self.old) (D.faults disk.new) result (domains_of self.old) (domains_of self.new)) }
    {
        match read_master(alloc, host, disk, self.master) {
            Ok(domain) => {
                self.domains.fill(domain.domains.as_slice());
                Ok(())
            }
            Err(refusal) => Err(refusal),
        }
    }
}
