// Reading a domain's text.
ghost use Rattle.std.specs.Prelude.{◌≡◌, ◌≤◌, length, IfOk};
ghost use Rattle.kv_text.specs.Gives.{Gives};
ghost use Rattle.kv_text.specs.Text.{pairs};
ghost use Rattle.sd_names.specs.declared.fault.DomainFault.TheVariants as fault;
ghost use Rattle.domain_meta.specs.Read.{needed_keys, fault_of, same_digest, fields_of, checked_fields, read_domain};
ghost use Rattle.domain_meta.specs.Checksum.{checksum_of};
ghost use Rattle.domain_meta.specs.Shown.{fields_shown, fields_view};
ghost use Rattle.domain_meta.specs.Text.{HasShortTexts};
ghost use Rattle.domain_meta.specs.Valid.{IsValid};

use crate::checksum::checksum;
use crate::keys;
use crate::listed::Listed;
use crate::record::DomainRecord;
use kv_text::{TextFault, description, shape_fault};
use sd_names::{Bytes, DomainFault, Id, Ids, Key, NoMemory, Role};
use std::alloc::Global;

// The values of a text, of which the description is lent.
#[derive(Drop)]
struct Fields<'a> {
    version: u64,
    role: Role,
    sduuid: Id,
    pool: Id,
    domains: Listed,
    master_version: u64,
    description: &'a [u8],
}

#[tactic(auto, unfolding(crate::specs::Read::fields_of))]
fn read_fields(sd: Id, text: &[u8]) -> Result<Fields<'_>, TextFault>
    ensures value { fields_shown result ≡ fields_of sd (pairs text.now) }
    ensures valid { IfOk result (λ fields. IsValid (fields_view fields)) }
{
    keys::class(text)?;
    let description = description(text)?;
    let role = keys::role_in(text);
    let master_version = keys::master_version(role, text)?;
    let domains = keys::domains(role, text)?;
    let pool = keys::pool(text)?;
    let role = keys::role(text)?;
    let sduuid = keys::sduuid(sd, text)?;
    let version = keys::version(text)?;
    Ok(Fields {
        version,
        role,
        sduuid,
        pool,
        domains,
        master_version,
        description,
    })
}

// The keys that have to be there, in the order in which they are written.
fn needed_keys() -> [Key; 8]
    ensures { result ≡ needed_keys }
{
    [
        Key::Class,
        Key::MasterVersion,
        Key::PoolDomains,
        Key::PoolUuid,
        Key::Role,
        Key::SdUuid,
        Key::Version,
        Key::ShaCksum,
    ]
}

// A fault of lines, keys and values as one of a domain's text.
fn fault_of(fault: TextFault) -> DomainFault
    ensures { result ≡ fault_of fault }
{
    match fault {
        TextFault::BadLine(number) => DomainFault::BadLine(number),
        TextFault::MissingKey(key) => DomainFault::MissingKey(key),
        TextFault::BadValue(key) => DomainFault::BadValue(key),
    }
}

// What is wrong with the checksum of a text, if anything is.
fn checksum_fault(found: [u8; 20], text: &[u8]) -> Option<DomainFault>
    requires short { length text.now ≤ 8192 }
    ensures { result ≡ same_digest found (checksum_of text.now) }
{
    let computed = checksum(text);
    if found == computed {
        None
    } else {
        Some(DomainFault::Checksum(found, computed))
    }
}

// The values of a text whose lines and keys are right, or what is wrong with its checksum or a value.
#[tactic(auto, unfolding(crate::specs::Read::checked_fields))]
fn checked_fields(sd: Id, text: &[u8]) -> Result<Fields<'_>, DomainFault>
    requires short { length text.now ≤ 8192 }
    ensures value { fields_shown result ≡ checked_fields sd text.now }
    ensures valid { IfOk result (λ fields. IsValid (fields_view fields)) }
{
    let found = match keys::checksum(text) {
        Ok(found) => found,
        Err(fault) => return Err(fault_of(fault)),
    };
    if let Some(fault) = checksum_fault(found, text) {
        return Err(fault);
    }
    match read_fields(sd, text) {
        Ok(fields) => Ok(fields),
        Err(fault) => Err(fault_of(fault)),
    }
}

// The values of a text, or the first thing wrong with it. It takes no memory.
#[tactic(auto, unfolding(crate::specs::Read::read_domain))]
fn read_lent(sd: Id, text: &[u8]) -> Result<Fields<'_>, DomainFault>
    ensures value { fields_shown result ≡ read_domain sd text.now }
    ensures valid { IfOk result (λ fields. IsValid (fields_view fields)) }
{
    if text.len() > 8192 {
        return Err(DomainFault::TooLong);
    }
    match shape_fault(text, &needed_keys()) {
        Some(fault) => Err(fault_of(fault)),
        None => checked_fields(sd, text),
    }
}

// The record of these values.
fn record(alloc: Global, fields: Fields<'_>) -> Result<DomainRecord, NoMemory>
    ensures { IfOk result (λ domain. domain ≡ fields_view fields.entry) }
{
    let description = Bytes::copied(alloc, fields.description)?;
    let domains = Ids::copied(alloc, fields.domains.as_slice())?;
    Ok(DomainRecord {
        version: fields.version,
        role: fields.role,
        sduuid: fields.sduuid,
        pool: fields.pool,
        domains,
        master_version: fields.master_version,
        description,
    })
}

/// The record of the text of the domain `sd`, or the first thing wrong with it: more than 8,192 bytes, a line that is
/// no pair, a key that isn't there, a checksum that isn't the one of the lines, a value that its key may not have. Keys
/// are looked at in the order in which they are written, but the checksum before all others. The checksum is the SHA-1
/// (FIPS 180-4) of the lines, the checksum's own left out, sorted by their bytes. `Memory` is want of memory alone: it
/// comes only where the text has no fault.
pub fn read(alloc: Global, sd: Id, text: &[u8]) -> Result<DomainRecord, DomainFault>
    ensures read { Gives fault.Memory result (read_domain sd text.now) }
    ensures valid { IfOk result IsValid }
    ensures short { IfOk result HasShortTexts }
{
    match read_lent(sd, text) {
        Ok(fields) => match record(alloc, fields) {
            Ok(domain) => Ok(domain),
            Err(NoMemory) => Err(DomainFault::Memory),
        },
        Err(fault) => Err(fault),
    }
}
