// Making a pool: what is made, and how far it is.
ghost use Rattle.std.specs.Prelude.{◌≡◌, ◌≤◌, ◌+◌, ◌-◌, ◌^◌, min, length, IfOk};
ghost use Rattle.domain_meta.specs.Text.{HasShortTexts, domain_text};
ghost use Rattle.kv_text.specs.Text.{IsOneLine};
ghost use Rattle.pool_making.specs.Writing.{length_kept, only_master};

use crate::{Area, Folder};
use domain_meta::DomainRecord;
use sd_names::{Bytes, Dir, HostId, Id, Ids, NoMemory, Refusal, Role, Turn};
use shared_disk::SharedDisk;
use std::alloc::Global;
use whole_file::Replace;

/// How far a making is.
#[derive(Clone, Copy, Debug)]
pub enum Stage {
    /// The folders under the root are listed; those up to this one hold no domain with a text.
    Listing(Option<Dir>),
    /// The folder of this domain was found; those below it hold no domain with a text.
    Checking(Id),
    /// No pool is there; the domain may have images.
    Searching,
    /// The folders before this one are there.
    Making(Folder),
    /// The folders are there, and the files of zeros before this one; an earlier attempt may have left this one.
    Clearing(Area),
    /// This file isn't there.
    Creating(Area),
    /// This file is there, with zeros, not yet on the medium.
    Syncing(Area),
    /// The folders and the files of zeros are there; the domain's text is written.
    Writing(Replace),
}

/// A pool is made, in steps of one disk call. No folder under the root may hold a pool, and the domain may have no
/// images. Then the folders of its master domain are made, its leases, inbox and outbox as zeros, and last, by one
/// rename, its text: from then on the domain counts.
#[derive(Drop)]
pub struct MakePool {
    pub(crate) domain: DomainRecord,
    pub(crate) stage: Stage,
    ghost short: { HasShortTexts domain },
    ghost text: { length_kept stage (length (domain_text domain)) ≡ length (domain_text domain) },
}

impl MakePool {
    ghost use Rattle.std.specs.Prelude.{MatchResult, None};
    ghost use Rattle.sd_names.specs.Turn.{MatchTurn};
    ghost use Rattle.sd_names.specs.declared.refusal.Refusal.TheVariants.{OutOfMemory};
    ghost use Rattle.shared_disk.specs.Calls.{Told};
    ghost use Rattle.shared_disk.specs.Step.{EndsOnlyBy, StepCounts};
    ghost use Rattle.pool_making.specs.Making.{IsAt, IsLastOf, IsMakeRefusal, IsNearer, record_of, stage_of};
    ghost use Rattle.pool_making.specs.Steps.{CallOf, Falls, Knows, MakeSteps};

    /// The making of the pool `pool` with the domain `sd` as its master, of this version and with this description,
    /// of at most 4,096 bytes without a line feed. Refused for want of memory alone.
    pub fn begin(
        alloc: Global,
        pool: Id,
        sd: Id,
        version: u8,
        text: &[u8],
    ) -> Result<MakePool, Refusal>
        requires short { length text.now ≤ 4096 }
        requires one_line { IsOneLine text.now }
        ensures { MatchResult result (λ make. (record_of make ≡ only_master pool sd version text.now) × (stage_of make ≡ Stage.Listing None)) (λ refusal. refusal ≡ OutOfMemory) }
    {
        match master_record(alloc, pool, sd, version, text) {
            Ok(domain) => Ok(MakePool {
                domain,
                stage: Stage::Listing(None),
            }),
            Err(NoMemory) => Err(Refusal::OutOfMemory),
        }
    }

    /// Makes one call of the disk. 31 with a domain that has a text, where none of a lesser folder had one when the
    /// listing came by; 33 where the images folder of the domain shows a folder. What an earlier attempt left of
    /// leases, inbox and outbox is removed and made again.
    pub fn step<D: SharedDisk>(self, host: HostId, disk: &mut D) -> Turn<MakePool, (), ()>
        ensures counts { StepCounts (D.faults disk.old) (D.faults disk.new) (D.calls disk.old) (D.calls disk.new) result }
        ensures counted { D.calls disk.new ≡ min (D.calls disk.old + 1) (2 ^ 64 - 1) }
        ensures refusals { EndsOnlyBy IsMakeRefusal result }
        ensures keeps { MatchTurn result (IsNearer self) (λ _. IsLastOf (stage_of self)) (λ _ _. Unit {0}) }
        ensures falls { Told (D.content disk.old) (D.content disk.new) (Falls self result) }
        ensures call { Told (D.content disk.old) (D.content disk.new) (CallOf (stage_of self) self host (D.faults disk.new) result) }
        ensures content { Told (D.content disk.old) (D.content disk.new) (λ d e. Knows self host d → MakeSteps self host (D.faults disk.new) result d e) }
    {
        match self.stage {
            Stage::Listing(after) => self.list(after, host, disk),
            Stage::Checking(sd) => self.check(sd, host, disk),
            Stage::Searching => self.search(host, disk),
            Stage::Making(folder) => self.make(folder, host, disk),
            Stage::Clearing(area) => self.clear(area, host, disk),
            Stage::Creating(area) => self.create(area, host, disk),
            Stage::Syncing(area) => self.sync(area, host, disk),
            Stage::Writing(replace) => self.write(replace, host, disk),
        }
    }
}

// The record of a master that is the only domain of its pool.
fn master_record(
    alloc: Global,
    pool: Id,
    sd: Id,
    version: u8,
    text: &[u8],
) -> Result<DomainRecord, NoMemory>
    ensures { IfOk result (λ domain. domain ≡ only_master pool sd version text.now) }
{
    let description = Bytes::copied(alloc, text)?;
    let domains = Ids::copied(alloc, &[sd])?;
    Ok(DomainRecord {
        version: u64::from(version),
        role: Role::Master,
        sduuid: sd,
        pool,
        domains,
        master_version: 1,
        description,
    })
}
