// What the values of a domain's keys mean.
ghost use Rattle.std.specs.Prelude.{◌≡◌, All, IfSome, IsTrue};
ghost use Rattle.std.specs.Option.{option_map};
ghost use Rattle.hex.specs.Hex.{encode_lower};
ghost use Rattle.domain_meta.specs.Values.{class_of, role_of, is_version_of, version_of_role, master_version_of, domains_of, digest_of};
ghost use Rattle.domain_meta.specs.Valid.{GoesWith, MayList};
ghost use Rattle.sd_names.specs.Id.{IsIdBytes};

use crate::listed::{Listed, read_listed};
use decimal_numbers::number;
use hex::FromHex;
use sd_names::Role;

#[tactic(auto, unfolding(crate::specs::Values::class_of))]
pub fn class(value: &[u8]) -> Option<()>
    ensures { result ≡ class_of value.now }
{
    if value == b"Data".as_slice() {
        Some(())
    } else {
        None
    }
}

#[tactic(auto, unfolding(crate::specs::Values::role_of))]
pub fn role(value: &[u8]) -> Option<Role>
    ensures { result ≡ role_of value.now }
{
    if value == b"Master".as_slice() {
        Some(Role::Master)
    } else if value == b"Regular".as_slice() {
        Some(Role::Regular)
    } else {
        None
    }
}

// Whether a master's version goes with a role, or where ROLE has none, with either.
fn is_version_of(role: Option<Role>, number: u64) -> bool
    ensures value { result ≡ is_version_of role number }
    ensures valid { IsTrue result → GoesWith role number }
{
    match role {
        Some(Role::Master) => number == 1,
        Some(Role::Regular) => number == 0,
        None => number <= 1,
    }
}

#[tactic(auto, unfolding(crate::specs::Values::master_version_of))]
pub fn master_version(role: Option<Role>, value: &[u8]) -> Option<u64>
    ensures value { result ≡ master_version_of role value.now }
    ensures valid { IfSome result (GoesWith role) }
{
    let number = number(value)?;
    if is_version_of(role, number) {
        Some(number)
    } else {
        None
    }
}

#[tactic(auto, unfolding(crate::specs::Values::domains_of))]
pub fn domains(role: Option<Role>, value: &[u8]) -> Option<Listed>
    ensures value { result ≡ domains_of role value.now }
    ensures listed { IfSome result (λ ids. MayList role ids) }
    ensures ids { IfSome result (λ ids. All (λ id. IsIdBytes id.0) ids) }
{
    match role {
        Some(Role::Master) => read_listed(value),
        Some(Role::Regular) => {
            if value.is_empty() {
                Some(Listed::new())
            } else {
                None
            }
        }
        None => {
            if value.is_empty() {
                Some(Listed::new())
            } else {
                read_listed(value)
            }
        }
    }
}

/// The 40 hexadecimal digits of a digest, in lower case.
pub fn digest_text(digest: &[u8; 20]) -> [u8; 40]
    ensures text { result ≡ encode_lower digest.now }
{
    let mut text = [0; 40];
    hex::encode_to_slice(digest.as_slice(), &mut text).unwrap();
    text
}

#[tactic(auto, unfolding(crate::specs::Values::digest_of))]
pub fn digest(value: &[u8]) -> Option<[u8; 20]>
    ensures { result ≡ digest_of value.now }
{
    match <[u8; 20]>::from_hex(value) {
        Ok(digest) => {
            if digest_text(&digest).as_slice() == value {
                Some(digest)
            } else {
                None
            }
        }
        Err(_) => None,
    }
}
