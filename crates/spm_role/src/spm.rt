// The manager of a pool.
ghost use Rattle.std.specs.Prelude.{◌≡◌};
ghost use Rattle.lease_area.specs.Hold.{domain_of, slot_of};

use crate::{DomainList, TaskList};
use lease_area::Lease;
use sd_names::Id;

/// The manager of a pool: what the host that took the role knows. It can't be dropped, since it has the lease of
/// sector 0: it is spent by `spm_stop`, or by `lost`.
#[derive(Debug)]
pub struct Spm {
    pub(crate) master: Id,
    pub(crate) pool: Id,
    /// The domains of the pool.
    pub domains: DomainList,
    /// The tasks that the pool keeps.
    pub tasks: TaskList,
    pub(crate) lease: Lease,
    ghost here: { domain_of lease ≡ master },
    ghost first: { slot_of lease ≡ 0 },
}

impl Spm {
    ghost use Rattle.spm_role.specs.Spm.{lease_of, master_of, pool_of, version_of};

    /// The pool's master domain, whose sector 0 names the host.
    pub fn master(&self) -> Id
        ensures { result ≡ master_of self.now }
    {
        self.master
    }

    /// The pool.
    pub fn pool(&self) -> Id
        ensures { result ≡ pool_of self.now }
    {
        self.pool
    }

    /// How often the role was taken, this host's own time included; below 2^63.
    pub fn version(&self) -> u64
        ensures { result ≡ version_of self.now }
    {
        self.lease.record().version
    }

    /// Spends the role without a call of the disk, and leaves sector 0: for a host that goes down, that was told that
    /// another one is the manager, or that doesn't know after a fault.
    pub fn lost(self) {
        self.into_lease().lost();
    }

    /// The lease of sector 0.
    pub(crate) fn into_lease(self) -> Lease
        ensures { result ≡ lease_of self }
    {
        let Spm {
            master: _,
            pool: _,
            domains: _,
            tasks: _,
            lease,
        } = self;
        lease
    }
}
