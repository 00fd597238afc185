// A host takes the manager's role of a pool, up to the recovery of what another manager left.
ghost use Rattle.std.specs.Prelude.{◌≡◌, ◌≤◌, ◌+◌, ◌-◌, ◌^◌, min, false, ℕ};
ghost use Rattle.sd_names.specs.UpSet.{Hosts, is_up};
ghost use Rattle.shared_disk.specs.Calls.{Told};
ghost use Rattle.shared_disk.specs.Step.{EndsOnlyBy, NearsEnd, StepCounts};
ghost use Rattle.spm_role.specs.Start.{IsStartRefusal};
ghost use Rattle.role_taking.specs.Asked.{Asked, IsAsked, StaysAsked, taking_left};
ghost use Rattle.role_taking.specs.Taking.{TakesRole};

use sd_names::{HostId, Id, Refusal, Turn, UpSet};
use shared_disk::SharedDisk;
use spm_role::{Spm, SpmStart};
use std::alloc::Global;

/// How far a host is that takes the role of a pool's manager. It can't be dropped, since it may hold the lease of sector 0: it is
/// spent by its steps, or by `lost`.
pub enum RoleTaking {
    /// Sector 0 isn't taken yet.
    Starting(SpmStart),
    /// Sector 0 is this host's; the list of domains is to be read.
    Taken(Spm),
}

impl RoleTaking {
    ghost use Rattle.std.specs.Prelude.{MatchResult};
    ghost use Rattle.sd_names.specs.declared.refusal.Refusal.TheVariants.{OutOfMemory};
    ghost use Rattle.pool_model.specs.Marks.{HasMarks};
    ghost use Rattle.pool_model.specs.Pool.{Pool};
    ghost use Rattle.pool_model.specs.Role.{Role};
    ghost use Rattle.pool_model.specs.Verb.{spm_start};
    ghost use Rattle.role_taking.specs.Knows.{KnowsTaking};
    ghost use Rattle.role_taking.specs.Marks.{marks_left};

    /// The taking of the role of the pool whose master is the domain `sd`, from the owner `prev` of its sector 0, 0 for nobody, at
    /// the version `lver`. All marks of `spm-start` are to come, and nothing has to be known of the pool. Refused for want of
    /// memory alone: it takes room for 4 domains and 128 tasks.
    pub fn begin(alloc: Global, sd: Id, prev: u8, lver: u64) -> Result<RoleTaking, Refusal>
        ensures asked { MatchResult result (IsAsked (record { sd = sd; prev = prev; lver = lver })) (λ refusal. refusal ≡ OutOfMemory) }
        ensures marks { (moment : ℕ) (role : Role) → MatchResult result (λ taking. HasMarks moment role (spm_start sd prev lver) (marks_left (record { sd = sd; prev = prev; lver = lver }) taking)) (λ _. Unit {0}) }
        ensures knows { (host : ℕ) (p : Pool) → MatchResult result (λ taking. KnowsTaking host taking p) (λ _. Unit {0}) }
        ensures most { MatchResult result (λ taking. taking_left taking ≡ 5) (λ _. Unit {0}) }
    {
        match SpmStart::begin(alloc, sd, prev, lver) {
            Ok(start) => Ok(RoleTaking::Starting(start)),
            Err(refusal) => Err(refusal),
        }
    }

    /// Makes one call of the disk: the text of the domain is read, sector 0, and the text again; sector 0 is exchanged for this
    /// host's; then the text is read once more, since the list that was read before may be an old one. `Done` comes from this last
    /// reading. 32, 34, 35 and 30 as the text has it; 41, 43 and 42 as sector 0 has it in the moment of the step; 130 in a step
    /// that reads the text. After a refusal sector 0 may name this host, which isn't the manager.
    pub fn step<D: SharedDisk>(
        self,
        alloc: Global,
        host: HostId,
        up: &UpSet,
        disk: &mut D,
    ) -> Turn<RoleTaking, Spm, ()>
        ensures counts { StepCounts (D.faults disk.old) (D.faults disk.new) (D.calls disk.old) (D.calls disk.new) result }
        ensures counted { D.calls disk.new ≡ min (D.calls disk.old + 1) (2 ^ 64 - 1) }
        ensures refusals { EndsOnlyBy IsStartRefusal result }
        ensures asked { (a : Asked) → IsAsked a self → StaysAsked a result }
        ensures falls { NearsEnd (λ _. Unit {0}) taking_left (taking_left self) result }
        ensures content { Told (D.content disk.old) (D.content disk.new) (TakesRole host up.now self result) }
    {
        match self {
            RoleTaking::Starting(start) => start_on(start, host, up, disk),
            RoleTaking::Taken(spm) => list_behind(spm, alloc, host, disk),
        }
    }

    /// Ends it without a call of the disk, and leaves sector 0: for a host that goes down.
    pub fn lost(self) {
        match self {
            RoleTaking::Starting(_) => {}
            RoleTaking::Taken(spm) => spm.lost(),
        }
    }
}

// One step of a start. The manager that it ends with has a list that may be an old one.
fn start_on<D: SharedDisk>(
    start: SpmStart,
    host: HostId,
    up: &UpSet,
    disk: &mut D,
) -> Turn<RoleTaking, Spm, ()>
    ensures counts { StepCounts (D.faults disk.old) (D.faults disk.new) (D.calls disk.old) (D.calls disk.new) result }
    ensures counted { D.calls disk.new ≡ min (D.calls disk.old + 1) (2 ^ 64 - 1) }
    ensures refusals { EndsOnlyBy IsStartRefusal result }
    ensures asked { (a : Asked) → IsAsked a (RoleTaking.Starting start) → StaysAsked a result }
    ensures falls { NearsEnd (λ _. Unit {0}) taking_left (taking_left (RoleTaking.Starting start)) result }
    ensures content { Told (D.content disk.old) (D.content disk.new) (TakesRole host up.now (RoleTaking.Starting start) result) }
{
    bounds(host, up);
    match start.step(host, up, disk) {
        Turn::More(next) => Turn::More(RoleTaking::Starting(next)),
        Turn::Done(spm) => Turn::More(RoleTaking::Taken(spm)),
        Turn::Ended((), refusal) => Turn::Ended((), refusal),
    }
}

// A host's number is 1 to 250, and no set of hosts has the number 0. Their types keep it so, and tell it by what these calls
// answer.
fn bounds(host: HostId, up: &UpSet)
    ensures host { (1 ≤ host) × (host ≤ 250) }
    ensures nobody { is_up up.now 0 ≡ false }
{
    host.get();
    match up.least_but(host) {
        Some(other) => {
            other.get();
        }
        None => {}
    }
}

// The list of domains is read behind the exchange.
fn list_behind<D: SharedDisk>(
    spm: Spm,
    alloc: Global,
    host: HostId,
    disk: &mut D,
) -> Turn<RoleTaking, Spm, ()>
    ensures counts { StepCounts (D.faults disk.old) (D.faults disk.new) (D.calls disk.old) (D.calls disk.new) result }
    ensures counted { D.calls disk.new ≡ min (D.calls disk.old + 1) (2 ^ 64 - 1) }
    ensures refusals { EndsOnlyBy IsStartRefusal result }
    ensures asked { (a : Asked) → IsAsked a (RoleTaking.Taken spm) → StaysAsked a result }
    ensures falls { NearsEnd (λ _. Unit {0}) taking_left (taking_left (RoleTaking.Taken spm)) result }
    ensures content { (up : Hosts) → Told (D.content disk.old) (D.content disk.new) (TakesRole host up (RoleTaking.Taken spm) result) }
{
    let mut spm = spm;
    match spm.read_list(alloc, host, disk) {
        Ok(()) => Turn::Done(spm),
        Err(refusal) => {
            spm.lost();
            Turn::Ended((), refusal)
        }
    }
}
