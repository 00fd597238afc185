// A host becomes the manager of a pool: it takes the role, and recovers what another manager left.
ghost use Rattle.std.specs.Prelude.{◌≡◌, ◌+◌, ◌-◌, ◌^◌, min, ℕ, MatchResult};
ghost use Rattle.sd_names.specs.declared.refusal.Refusal.TheVariants.{OutOfMemory};
ghost use Rattle.sd_names.specs.UpSet.{Hosts};
ghost use Rattle.shared_disk.specs.Calls.{Told};
ghost use Rattle.shared_disk.specs.Content.{Content};
ghost use Rattle.shared_disk.specs.Step.{EndsOnlyBy, StepCounts};
ghost use Rattle.pool_model.specs.Marks.{HasMarks};
ghost use Rattle.pool_model.specs.Pool.{Pool};
ghost use Rattle.pool_model.specs.Role.{Role};
ghost use Rattle.pool_model.specs.Verb.{spm_start};
ghost use Rattle.role_taking.specs.Asked.{Asked};
ghost use Rattle.role_starting.specs.Starting.{Advances, CallsMade, IsAsked, MayRefuse, StaysAsked};
ghost use Rattle.role_starting.specs.Knowing.{Knows};
ghost use Rattle.role_starting.specs.Marks.{marks_left};
ghost use Rattle.role_starting.specs.Steps.{StartsRole};
ghost use Rattle.role_starting.specs.declared.starting.RoleStarting.TheVariants.{Recovering, Taking};

use pool_recovering::PoolRecovery;
use pool_recovering::laws::recoveries_are_turns;
use role_taking::RoleTaking;
use sd_names::{HostId, Id, Refusal, Turn, UpSet};
use shared_disk::SharedDisk;
use spm_role::Spm;
use std::alloc::Global;

/// How far a host is that becomes the manager of a pool, in steps of one disk call at most. It can't be dropped, since it may
/// hold the lease of sector 0: it is spent by its steps, or by `lost`.
pub enum RoleStarting {
    /// The role is being taken.
    Taking(RoleTaking),
    /// Sector 0 is this host's, and the list of domains was read behind that: the pool is recovered.
    Recovering(Spm, PoolRecovery),
}

impl RoleStarting {
    /// The start of the manager of the pool whose master is the domain `sd`, from the owner `prev` of its sector 0, 0 for nobody,
    /// at the version `lver`. All marks of `spm-start` are to come, and nothing has to be known of the pool. Refused for want of
    /// memory alone: it takes room for 4 domains and 128 tasks.
    pub fn begin(alloc: Global, sd: Id, prev: u8, lver: u64) -> Result<RoleStarting, Refusal>
        ensures asked { MatchResult result (IsAsked (record { sd = sd; prev = prev; lver = lver })) (λ refusal. refusal ≡ OutOfMemory) }
        ensures marks { (moment : ℕ) (role : Role) → MatchResult result (λ start. HasMarks moment role (spm_start sd prev lver) (marks_left (record { sd = sd; prev = prev; lver = lver }) start)) (λ _. Unit {0}) }
        ensures knows { (host : ℕ) (d : Content) (p : Pool) → MatchResult result (λ start. Knows host start d p) (λ _. Unit {0}) }
    {
        match RoleTaking::begin(alloc, sd, prev, lver) {
            Ok(taking) => Ok(RoleStarting::Taking(taking)),
            Err(refusal) => Err(refusal),
        }
    }

    /// Makes one call of the disk; a step that reads sectors makes one at most. The role is taken as `RoleTaking` does, and then
    /// the pool recovered as `PoolRecovery` does, with their refusals. At `Done` no task is open, the manager's tasks are the
    /// pool's, and the number says how many were open. After a refusal sector 0 may name this host, which isn't the manager.
    pub fn step<D: SharedDisk>(
        self,
        alloc: Global,
        host: HostId,
        up: &UpSet,
        disk: &mut D,
    ) -> Turn<RoleStarting, (Spm, u16), ()>
        ensures counts { StepCounts (D.faults disk.old) (D.faults disk.new) (D.calls disk.old) (D.calls disk.new) result }
        ensures counted { CallsMade self (D.calls disk.old) (D.calls disk.new) }
        ensures refusals { EndsOnlyBy (MayRefuse self) result }
        ensures asked { (a : Asked) → IsAsked a self → StaysAsked a result }
        ensures advances { Advances self result }
        ensures content { Told (D.content disk.old) (D.content disk.new) (StartsRole host up.now self result) }
    {
        match self {
            RoleStarting::Taking(taking) => take_on(taking, alloc, host, up, disk),
            RoleStarting::Recovering(spm, recovery) => {
                recover_on(spm, recovery, alloc, host, disk)
            }
        }
    }

    /// Ends it without a call of the disk, and leaves sector 0: for a host that goes down.
    pub fn lost(self) {
        match self {
            RoleStarting::Taking(taking) => taking.lost(),
            RoleStarting::Recovering(spm, _) => spm.lost(),
        }
    }
}

// One step of the taking. Behind it the pool is recovered.
fn take_on<D: SharedDisk>(
    taking: RoleTaking,
    alloc: Global,
    host: HostId,
    up: &UpSet,
    disk: &mut D,
) -> Turn<RoleStarting, (Spm, u16), ()>
    ensures counts { StepCounts (D.faults disk.old) (D.faults disk.new) (D.calls disk.old) (D.calls disk.new) result }
    ensures counted { D.calls disk.new ≡ min (D.calls disk.old + 1) (2 ^ 64 - 1) }
    ensures refusals { EndsOnlyBy (MayRefuse (Taking taking)) result }
    ensures asked { (a : Asked) → IsAsked a (Taking taking) → StaysAsked a result }
    ensures advances { Advances (Taking taking) result }
    ensures content { Told (D.content disk.old) (D.content disk.new) (StartsRole host up.now (Taking taking) result) }
{
    match taking.step(alloc, host, up, disk) {
        Turn::More(next) => Turn::More(RoleStarting::Taking(next)),
        Turn::Done(spm) => {
            let recovery = PoolRecovery::begin(alloc, spm.master());
            Turn::More(RoleStarting::Recovering(spm, recovery))
        }
        Turn::Ended((), refusal) => Turn::Ended((), refusal),
    }
}

// One step of the recovery.
fn recover_on<D: SharedDisk>(
    spm: Spm,
    recovery: PoolRecovery,
    alloc: Global,
    host: HostId,
    disk: &mut D,
) -> Turn<RoleStarting, (Spm, u16), ()>
    ensures counts { StepCounts (D.faults disk.old) (D.faults disk.new) (D.calls disk.old) (D.calls disk.new) result }
    ensures counted { CallsMade (Recovering spm recovery) (D.calls disk.old) (D.calls disk.new) }
    ensures refusals { EndsOnlyBy (MayRefuse (Recovering spm recovery)) result }
    ensures asked { (a : Asked) → IsAsked a (Recovering spm recovery) → StaysAsked a result }
    ensures advances { Advances (Recovering spm recovery) result }
    ensures content { (up : Hosts) → Told (D.content disk.old) (D.content disk.new) (StartsRole host up (Recovering spm recovery) result) }
{
    recoveries_are_turns();
    let mut spm = spm;
    match recovery.step(&mut spm, alloc, host, disk) {
        Turn::More(next) => Turn::More(RoleStarting::Recovering(spm, next)),
        Turn::Done(count) => Turn::Done((spm, count)),
        Turn::Ended((), refusal) => {
            spm.lost();
            Turn::Ended((), refusal)
        }
    }
}
