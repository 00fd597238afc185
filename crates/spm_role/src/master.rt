// Reading the text of a master domain.
ghost use Rattle.std.specs.Prelude.{◌≡◌, ◌+◌, ◌-◌, ◌^◌, min, IfErr, IfOk};
ghost use Rattle.shared_disk.specs.Calls.{Told};
ghost use Rattle.shared_disk.specs.Step.{ResultCounts};
ghost use Rattle.shared_disk.specs.Refusal.{IsRisen};
ghost use Rattle.std.specs.Prelude.{ℕ};
ghost use Rattle.domain_meta.specs.Valid.{IsValid};
ghost use Rattle.sd_names.specs.declared.kinds.Role.TheVariants.{Master};
ghost use Rattle.spm_role.specs.Master.{IsTextRefusal, IsTold, ReadsMaster, metadata_of};

use domain_meta::DomainRecord;
use sd_names::{Dir, DomainFault, HostId, Id, Name, Place, Refusal, Role};
use shared_disk::SharedDisk;
use std::alloc::Global;
use whole_file::{ROOM, Text, read_text};

// The record of a text of the domain `sd`, where it is a master's: 34 with what is wrong with the text, 35 where its
// version is neither 4 nor 5, 30 where it isn't a master's.
fn master_in(alloc: Global, sd: Id, text: &[u8]) -> Result<DomainRecord, Refusal>
    ensures told { IsTold result sd text.now }
    ensures refusals { IfErr result IsTextRefusal }
    ensures no_fault { IfErr result (λ refusal. (before after : ℕ) → after ≡ before → IsRisen before after refusal) }
    ensures valid { IfOk result IsValid }
    ensures master { IfOk result (λ domain. domain.role ≡ Master) }
{
    match domain_meta::read(alloc, sd, text) {
        Ok(domain) => {
            if domain.version != 4 && domain.version != 5 {
                return Err(Refusal::WrongVersion(domain.version));
            }
            match domain.role {
                Role::Master => Ok(domain),
                Role::Regular => Err(Refusal::NoPool),
            }
        }
        Err(DomainFault::Memory) => Err(Refusal::OutOfMemory),
        Err(fault) => Err(Refusal::DomainCorrupt(fault)),
    }
}

/// Reads the text of the domain `sd`: its record, where it is a master's of version 4 or 5. One call of the disk. 32
/// where no text is there, 34, 35 and 30 as the text has it.
pub(crate) fn read_master<D: SharedDisk>(
    alloc: Global,
    host: HostId,
    disk: &mut D,
    sd: Id,
) -> Result<DomainRecord, Refusal>
    ensures counts { ResultCounts (D.faults disk.old) (D.faults disk.new) (D.calls disk.old) (D.calls disk.new) result }
    ensures counted { D.calls disk.new ≡ min (D.calls disk.old + 1) (2 ^ 64 - 1) }
    ensures refusals { IfErr result IsTextRefusal }
    ensures valid { IfOk result IsValid }
    ensures master { IfOk result (λ domain. domain.role ≡ Master) }
    ensures content { Told (D.content disk.old) (D.content disk.new) (ReadsMaster host sd (D.faults disk.new) result) }
{
    let place = Place {
        dir: Dir::DomMd(sd),
        name: Name::Metadata,
    };
    let mut room = [0; ROOM];
    match read_text(host, disk, place, &mut room) {
        Ok(Text::Absent) => Err(Refusal::NoDomain),
        Ok(Text::Long) => Err(Refusal::DomainCorrupt(DomainFault::TooLong)),
        Ok(Text::Bytes(length)) => master_in(alloc, sd, &room[..length]),
        Err(refusal) => Err(refusal),
    }
}
