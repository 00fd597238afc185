// Becoming the manager of a pool.
ghost use Rattle.std.specs.Prelude.{◌≡◌, ◌≤◌, ◌+◌, ◌-◌, ◌^◌, [], min, IfOk, MatchResult};
ghost use Rattle.sd_names.specs.Turn.{MatchTurn};
ghost use Rattle.shared_disk.specs.Calls.{Told};
ghost use Rattle.shared_disk.specs.Step.{EndsOnlyBy, IsDiskRefusal, NearsEnd, StepCounts};
ghost use Rattle.lease_area.specs.Move.{owner_of, version_of};
ghost use Rattle.spm_role.specs.Asked.{owner_kept, version_kept};

use crate::looking::look;
use crate::master::read_master;
use crate::{DomainList, Spm, TaskList};
use domain_meta::DomainRecord;
use lease_area::{Lease, Sector, take_role};
use sd_names::{HostId, Id, NoMemory, Refusal, Turn, UpSet};
use shared_disk::SharedDisk;
use std::alloc::Global;

/// How far a start is.
#[derive(Clone, Copy, Debug)]
pub enum Stage {
    /// Nothing was asked yet.
    Begun,
    /// The domain has a master's text.
    Known,
    /// Sector 0 may be taken, as it was read.
    Seen(Sector),
    /// The text was read behind sector 0: it is of this pool.
    Listed(Sector, Id),
}

/// A host becomes the manager of a pool, in at most four steps of one disk call: the text of the master domain is
/// read, then sector 0, then the text again, so that what it lists is what it listed while nobody else was the
/// manager; then sector 0 is exchanged for the host's own.
#[derive(Drop)]
pub struct SpmStart {
    alloc: Global,
    sd: Id,
    prev: u8,
    lver: u64,
    domains: DomainList,
    tasks: TaskList,
    stage: Stage,
    ghost owner: { owner_kept stage prev ≡ prev },
    ghost version: { version_kept stage lver ≡ lver },
    ghost none: { tasks ≡ [] },
}

impl SpmStart {
    ghost use Rattle.std.specs.Prelude.{length, false};
    ghost use Rattle.lease_area.specs.Hold.{IsRoleRefusal, domain_of as lease_domain, slot_of};
    ghost use Rattle.lease_area.specs.Move.{LeaseMove};
    ghost use Rattle.lease_area.specs.declared.sector.Sector.TheVariants.{Lease as Named};
    ghost use Rattle.spm_role.specs.Spm.{role_of};
    ghost use Rattle.sd_names.specs.declared.refusal.Refusal.TheVariants.{OutOfMemory};
    ghost use Rattle.spm_role.specs.Start.{Checks, EndsWith, HasRead, IsAllowed, IsAt, IsInListed, IsInSeen, IsMade, IsManager, IsManagerOf, IsSameStart, IsStartRefusal, Lists, LooksAt, StartsBy, TakesRole, domain_of, lver_of, prev_of, read_of, stage_of, start_left};
    ghost use Rattle.spm_role.specs.Master.{IsTextRefusal};

    /// The start of a manager of the pool whose master is the domain `sd`, from the owner `prev` of its sector 0, 0 for
    /// nobody, at the version `lver`. Refused for want of memory alone: it takes room for 4 domains and 128 tasks.
    pub fn begin(alloc: Global, sd: Id, prev: u8, lver: u64) -> Result<SpmStart, Refusal>
        ensures { MatchResult result (λ start. (domain_of start ≡ sd) × (prev_of start ≡ prev) × (lver_of start ≡ lver) × (stage_of start ≡ Stage.Begun)) (λ refusal. refusal ≡ OutOfMemory) }
    {
        match room(alloc) {
            Ok((domains, tasks)) => Ok(SpmStart {
                alloc,
                sd,
                prev,
                lver,
                domains,
                tasks,
                stage: Stage::Begun,
            }),
            Err(NoMemory) => Err(Refusal::OutOfMemory),
        }
    }

    /// Makes one call of the disk. `Done` comes exactly where the exchange made this host the owner of sector 0, at
    /// the next version. 32, 34, 35 and 30 as the text has it; 58, 41, 43 and 42 as sector 0 is in the moment of this
    /// step; 130 in a step that reads the text. 41 with this host's own number only where sector 0 changed since it
    /// was read and has the owner and the version that were asked.
    pub fn step<D: SharedDisk>(
        self,
        host: HostId,
        up: &UpSet,
        disk: &mut D,
    ) -> Turn<SpmStart, Spm, ()>
        ensures counts { StepCounts (D.faults disk.old) (D.faults disk.new) (D.calls disk.old) (D.calls disk.new) result }
        ensures counted { D.calls disk.new ≡ min (D.calls disk.old + 1) (2 ^ 64 - 1) }
        ensures refusals { EndsOnlyBy IsStartRefusal result }
        ensures keeps { NearsEnd (IsSameStart self) start_left (start_left self) result }
        ensures manager { EndsWith (IsManager self host) result }
        ensures moves { EndsWith (IsAllowed (stage_of self) up.now host) result }
        ensures content { Told (D.content disk.old) (D.content disk.new) (StartsBy (stage_of self) self host up.now (D.faults disk.new) result) }
    {
        match self.stage {
            Stage::Begun => self.check(host, disk),
            Stage::Known => self.look(host, up, disk),
            Stage::Seen(sector) => self.list(sector, host, disk),
            Stage::Listed(sector, pool) => self.take(sector, pool, host, up, disk),
        }
    }

    // The start in another stage.
    fn at(self, stage: Stage) -> SpmStart
        requires owner { owner_kept stage (prev_of self) ≡ prev_of self }
        requires version { version_kept stage (lver_of self) ≡ lver_of self }
        ensures at { IsAt self stage result }
        ensures read { read_of result ≡ read_of self }
    {
        let SpmStart {
            alloc,
            sd,
            prev,
            lver,
            domains,
            tasks,
            stage: _,
        } = self;
        SpmStart {
            alloc,
            sd,
            prev,
            lver,
            domains,
            tasks,
            stage,
        }
    }

    // Whether the domain's text is a master's.
    fn check<D: SharedDisk>(self, host: HostId, disk: &mut D) -> Turn<SpmStart, Spm, ()>
        ensures counts { StepCounts (D.faults disk.old) (D.faults disk.new) (D.calls disk.old) (D.calls disk.new) result }
        ensures counted { D.calls disk.new ≡ min (D.calls disk.old + 1) (2 ^ 64 - 1) }
        ensures next { MatchTurn result (IsAt self Stage.Known) (λ _. ⊥) (λ _ refusal. IsTextRefusal refusal) }
        ensures content { Told (D.content disk.old) (D.content disk.new) (Checks self host (D.faults disk.new) result) }
    {
        match read_master(self.alloc, host, disk, self.sd) {
            Ok(_) => Turn::More(self.at(Stage::Known)),
            Err(refusal) => Turn::Ended((), refusal),
        }
    }

    // Whether sector 0 is as asked.
    fn look<D: SharedDisk>(self, host: HostId, up: &UpSet, disk: &mut D) -> Turn<SpmStart, Spm, ()>
        ensures counts { StepCounts (D.faults disk.old) (D.faults disk.new) (D.calls disk.old) (D.calls disk.new) result }
        ensures counted { D.calls disk.new ≡ min (D.calls disk.old + 1) (2 ^ 64 - 1) }
        ensures next { MatchTurn result (IsInSeen self) (λ _. ⊥) (λ _ refusal. IsRoleRefusal refusal) }
        ensures content { Told (D.content disk.old) (D.content disk.new) (LooksAt self host up.now (D.faults disk.new) result) }
    {
        match look(host, up, disk, self.sd, self.prev, self.lver) {
            Ok(sector) => Turn::More(self.at(Stage::Seen(sector))),
            Err(refusal) => Turn::Ended((), refusal),
        }
    }

    // What the text lists, while sector 0 is as it was read.
    fn list<D: SharedDisk>(
        self,
        sector: Sector,
        host: HostId,
        disk: &mut D,
    ) -> Turn<SpmStart, Spm, ()>
        requires asked { (owner_of sector ≡ prev_of self) × (version_of sector ≡ lver_of self) }
        ensures counts { StepCounts (D.faults disk.old) (D.faults disk.new) (D.calls disk.old) (D.calls disk.new) result }
        ensures counted { D.calls disk.new ≡ min (D.calls disk.old + 1) (2 ^ 64 - 1) }
        ensures next { MatchTurn result (IsInListed self sector) (λ _. ⊥) (λ _ refusal. IsTextRefusal refusal) }
        ensures content { Told (D.content disk.old) (D.content disk.new) (Lists self sector host (D.faults disk.new) result) }
    {
        match read_master(self.alloc, host, disk, self.sd) {
            Ok(domain) => Turn::More(self.with_list(sector, domain)),
            Err(refusal) => Turn::Ended((), refusal),
        }
    }

    // The start that has read this record.
    fn with_list(self, sector: Sector, domain: DomainRecord) -> SpmStart
        requires asked { (owner_of sector ≡ prev_of self) × (version_of sector ≡ lver_of self) }
        requires few { length domain.domains ≤ 4 }
        ensures { HasRead self sector domain result }
    {
        let SpmStart {
            alloc,
            sd,
            prev,
            lver,
            mut domains,
            tasks,
            stage: _,
        } = self;
        domains.fill(domain.domains.as_slice());
        SpmStart {
            alloc,
            sd,
            prev,
            lver,
            domains,
            tasks,
            stage: Stage::Listed(sector, domain.pool),
        }
    }

    // The exchange that makes this host the owner of sector 0.
    fn take<D: SharedDisk>(
        self,
        sector: Sector,
        pool: Id,
        host: HostId,
        up: &UpSet,
        disk: &mut D,
    ) -> Turn<SpmStart, Spm, ()>
        requires asked { version_of sector ≡ lver_of self }
        ensures counts { StepCounts (D.faults disk.old) (D.faults disk.new) (D.calls disk.old) (D.calls disk.new) result }
        ensures counted { D.calls disk.new ≡ min (D.calls disk.old + 1) (2 ^ 64 - 1) }
        ensures last { MatchTurn result (λ _. ⊥) (IsManagerOf self pool host) (λ _ refusal. IsRoleRefusal refusal) }
        ensures moves { EndsWith (λ spm. LeaseMove up.now host false 0 sector (Named (role_of spm))) result }
        ensures content { Told (D.content disk.old) (D.content disk.new) (TakesRole self sector host up.now (D.faults disk.new) result) }
    {
        match take_role(host, up, self.sd, &sector, disk) {
            Ok(lease) => Turn::Done(self.manager(pool, lease)),
            Err(refusal) => Turn::Ended((), refusal),
        }
    }

    // The manager that holds this lease.
    fn manager(self, pool: Id, lease: Lease) -> Spm
        requires here { lease_domain lease ≡ domain_of self }
        requires first { slot_of lease ≡ 0 }
        ensures { IsMade self pool lease result }
    {
        let SpmStart {
            alloc: _,
            sd,
            prev: _,
            lver: _,
            domains,
            tasks,
            stage: _,
        } = self;
        Spm {
            master: sd,
            pool,
            domains,
            tasks,
            lease,
        }
    }
}

// Room for the lists of a manager.
fn room(alloc: Global) -> Result<(DomainList, TaskList), NoMemory>
    ensures { IfOk result (λ lists. (lists.0 ≡ []) × (lists.1 ≡ [])) }
{
    let domains = DomainList::with_room(alloc)?;
    let tasks = TaskList::with_room(alloc)?;
    Ok((domains, tasks))
}
