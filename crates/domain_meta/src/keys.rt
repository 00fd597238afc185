// The value of each key in a text.
ghost use Rattle.std.specs.Prelude.{◌≡◌, All, IfOk, Some};
ghost use Rattle.kv_text.specs.Ids.{this_id};
ghost use Rattle.kv_text.specs.Keys.{value, needed};
ghost use Rattle.decimal_numbers.specs.Number.{number_of};
ghost use Rattle.kv_text.specs.Text.{pairs};
ghost use Rattle.sd_names.specs.Id.{IsIdBytes, id_of};
ghost use Rattle.sd_names.specs.declared.fault.Key.TheVariants as key;
ghost use Rattle.domain_meta.specs.Read.{role_in};
ghost use Rattle.domain_meta.specs.Valid.{GoesWith, MayList};
ghost use Rattle.domain_meta.specs.Values.{class_of, role_of, master_version_of, domains_of, digest_of};

use crate::listed::Listed;
use crate::values;
use decimal_numbers::number;
use kv_text::{TextFault, needed, read_own_id, value};
use sd_names::{Id, Key, Role};

/// The role that ROLE has, if it has one.
pub fn role_in(text: &[u8]) -> Option<Role>
    ensures { result ≡ role_in (pairs text.now) }
{
    match value(text, Key::Role) {
        Some(value) => values::role(value),
        None => None,
    }
}

pub fn class(text: &[u8]) -> Result<(), TextFault>
    ensures { result ≡ needed key.Class class_of (value key.Class (pairs text.now)) }
{
    let value = needed(text, Key::Class)?;
    values::class(value).ok_or(TextFault::BadValue(Key::Class))
}

pub fn master_version(role: Option<Role>, text: &[u8]) -> Result<u64, TextFault>
    ensures value { result ≡ needed key.MasterVersion (master_version_of role) (value key.MasterVersion (pairs text.now)) }
    ensures valid { IfOk result (GoesWith role) }
{
    let value = needed(text, Key::MasterVersion)?;
    values::master_version(role, value).ok_or(TextFault::BadValue(Key::MasterVersion))
}

pub fn domains(role: Option<Role>, text: &[u8]) -> Result<Listed, TextFault>
    ensures value { result ≡ needed key.PoolDomains (domains_of role) (value key.PoolDomains (pairs text.now)) }
    ensures listed { IfOk result (λ ids. MayList role ids) }
    ensures ids { IfOk result (λ ids. All (λ id. IsIdBytes id.0) ids) }
{
    let value = needed(text, Key::PoolDomains)?;
    values::domains(role, value).ok_or(TextFault::BadValue(Key::PoolDomains))
}

pub fn pool(text: &[u8]) -> Result<Id, TextFault>
    ensures value { result ≡ needed key.PoolUuid id_of (value key.PoolUuid (pairs text.now)) }
    ensures valid { IfOk result (λ id. IsIdBytes id.0) }
{
    let value = needed(text, Key::PoolUuid)?;
    match Id::read(value) {
        Some(id) => {
            id.has_sixteen_bytes();
            Ok(id)
        }
        None => Err(TextFault::BadValue(Key::PoolUuid)),
    }
}

pub fn role(text: &[u8]) -> Result<Role, TextFault>
    ensures value { result ≡ needed key.Role role_of (value key.Role (pairs text.now)) }
    ensures known { IfOk result (λ role. role_in (pairs text.now) ≡ Some role) }
{
    let value = needed(text, Key::Role)?;
    values::role(value).ok_or(TextFault::BadValue(Key::Role))
}

pub fn sduuid(sd: Id, text: &[u8]) -> Result<Id, TextFault>
    ensures value { result ≡ needed key.SdUuid (this_id sd) (value key.SdUuid (pairs text.now)) }
    ensures valid { IfOk result (λ id. IsIdBytes id.0) }
{
    let value = needed(text, Key::SdUuid)?;
    match read_own_id(sd, value) {
        Some(id) => {
            id.has_sixteen_bytes();
            Ok(id)
        }
        None => Err(TextFault::BadValue(Key::SdUuid)),
    }
}

pub fn version(text: &[u8]) -> Result<u64, TextFault>
    ensures { result ≡ needed key.Version number_of (value key.Version (pairs text.now)) }
{
    let value = needed(text, Key::Version)?;
    number(value).ok_or(TextFault::BadValue(Key::Version))
}

pub fn checksum(text: &[u8]) -> Result<[u8; 20], TextFault>
    ensures { result ≡ needed key.ShaCksum digest_of (value key.ShaCksum (pairs text.now)) }
{
    let value = needed(text, Key::ShaCksum)?;
    values::digest(value).ok_or(TextFault::BadValue(Key::ShaCksum))
}
