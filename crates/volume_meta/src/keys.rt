// The value of each key in a text.
ghost use Rattle.std.specs.Prelude.{◌≡◌, ◌≤◌, length, IfOk, IfSome, codes, false};
ghost use Rattle.kv_text.specs.Ids.{this_id};
ghost use Rattle.kv_text.specs.Keys.{value, needed, meant, optional, bytes_of};
ghost use Rattle.decimal_numbers.specs.Number.{number_of};
ghost use Rattle.kv_text.specs.Text.{IsOneLine, pairs};
ghost use Rattle.sd_names.specs.Id.{IsIdBytes, id_of};
ghost use Rattle.sd_names.specs.declared.fault.Key.TheVariants as key;
ghost use Rattle.volume_meta.specs.Read.{in_five, in_others};
ghost use Rattle.volume_meta.specs.Valid.{IsCapacity, MayBeMerged};
ghost use Rattle.volume_meta.specs.Values.{capacity_of, size_of, generation_of, disk_type_of, format_of, legality_of, kind_of, voltype_of, merged_of};

use crate::values;
use decimal_numbers::number;
use kv_text::{TextFault, needed, read_own_id, value};
use sd_names::{AllocKind, Format, Id, Key, Legality, VolType};

/// CAP, which version 5 has and no other.
pub fn cap(five: bool, text: &[u8]) -> Result<Option<u64>, TextFault>
    ensures value { result ≡ in_five five (needed key.Cap capacity_of (value key.Cap (pairs text.now))) }
    ensures valid { IfOk result (λ cap. IfSome cap IsCapacity) }
{
    if !five {
        return Ok(None);
    }
    let value = needed(text, Key::Cap)?;
    match values::capacity(value) {
        Some(bytes) => Ok(Some(bytes)),
        None => Err(TextFault::BadValue(Key::Cap)),
    }
}

/// SIZE, in bytes, where the capacity didn't stand in CAP.
pub fn capacity(cap: Option<u64>, text: &[u8]) -> Result<u64, TextFault>
    requires valid { IfSome cap IsCapacity }
    ensures value { result ≡ in_others cap (needed key.Size size_of (value key.Size (pairs text.now))) }
    ensures valid { IfOk result IsCapacity }
{
    if let Some(bytes) = cap {
        return Ok(bytes);
    }
    let value = needed(text, Key::Size)?;
    values::size(value).ok_or(TextFault::BadValue(Key::Size))
}

pub fn ctime(text: &[u8]) -> Result<u64, TextFault>
    ensures { result ≡ optional key.Ctime 0 number_of (value key.Ctime (pairs text.now)) }
{
    match value(text, Key::Ctime) {
        Some(value) => number(value).ok_or(TextFault::BadValue(Key::Ctime)),
        None => Ok(0),
    }
}

pub fn disk_type(text: &[u8]) -> Result<&[u8], TextFault>
    ensures value { bytes_of result ≡ optional key.DiskType (codes "DATA") disk_type_of (value key.DiskType (pairs text.now)) }
    ensures short { IfOk result (λ bytes. length bytes.now ≤ 16) }
    ensures some { IfOk result (λ bytes. 1 ≤ length bytes.now) }
    ensures one_line { IfOk result (λ bytes. IsOneLine bytes.now) }
{
    match value(text, Key::DiskType) {
        Some(value) => values::disk_type(value).ok_or(TextFault::BadValue(Key::DiskType)),
        None => Ok(b"DATA"),
    }
}

pub fn domain(sd: Id, text: &[u8]) -> Result<Id, TextFault>
    ensures value { result ≡ needed key.Domain (this_id sd) (value key.Domain (pairs text.now)) }
    ensures valid { IfOk result (λ id. IsIdBytes id.0) }
{
    let value = needed(text, Key::Domain)?;
    own_id(sd, Key::Domain, value)
}

pub fn format(text: &[u8]) -> Result<Format, TextFault>
    ensures { result ≡ needed key.Format format_of (value key.Format (pairs text.now)) }
{
    let value = needed(text, Key::Format)?;
    values::format(value).ok_or(TextFault::BadValue(Key::Format))
}

pub fn generation(text: &[u8]) -> Result<u16, TextFault>
    ensures value { result ≡ optional key.Gen 0 generation_of (value key.Gen (pairs text.now)) }
    ensures valid { IfOk result (λ n. n ≤ 999) }
{
    match value(text, Key::Gen) {
        Some(value) => values::generation(value).ok_or(TextFault::BadValue(Key::Gen)),
        None => Ok(0),
    }
}

pub fn image(image: Id, text: &[u8]) -> Result<Id, TextFault>
    ensures value { result ≡ needed key.Image (this_id image) (value key.Image (pairs text.now)) }
    ensures valid { IfOk result (λ id. IsIdBytes id.0) }
{
    let value = needed(text, Key::Image)?;
    own_id(image, Key::Image, value)
}

pub fn legality(text: &[u8]) -> Result<Legality, TextFault>
    ensures { result ≡ needed key.Legality legality_of (value key.Legality (pairs text.now)) }
{
    let value = needed(text, Key::Legality)?;
    values::legality(value).ok_or(TextFault::BadValue(Key::Legality))
}

pub fn merged(legality: Legality, text: &[u8]) -> Result<bool, TextFault>
    ensures value { result ≡ optional key.Merged false (merged_of legality) (value key.Merged (pairs text.now)) }
    ensures valid { IfOk result (MayBeMerged legality) }
{
    match value(text, Key::Merged) {
        Some(value) => { values::merged(legality, value).ok_or(TextFault::BadValue(Key::Merged)) }
        None => Ok(not_merged(legality)),
    }
}

pub fn parent(text: &[u8]) -> Result<Id, TextFault>
    ensures value { result ≡ needed key.Puuid id_of (value key.Puuid (pairs text.now)) }
    ensures valid { IfOk result (λ id. IsIdBytes id.0) }
{
    let value = needed(text, Key::Puuid)?;
    match Id::read(value) {
        Some(id) => {
            id.has_sixteen_bytes();
            Ok(id)
        }
        None => Err(TextFault::BadValue(Key::Puuid)),
    }
}

pub fn kind(text: &[u8]) -> Result<AllocKind, TextFault>
    ensures { result ≡ needed key.Alloc kind_of (value key.Alloc (pairs text.now)) }
{
    let value = needed(text, Key::Alloc)?;
    values::kind(value).ok_or(TextFault::BadValue(Key::Alloc))
}

pub fn voltype(text: &[u8]) -> Result<VolType, TextFault>
    ensures { result ≡ needed key.VolType voltype_of (value key.VolType (pairs text.now)) }
{
    let value = needed(text, Key::VolType)?;
    values::voltype(value).ok_or(TextFault::BadValue(Key::VolType))
}

// This identifier, where the value of a key is its text.
fn own_id(id: Id, key: Key, value: &[u8]) -> Result<Id, TextFault>
    ensures value { result ≡ meant key (this_id id value.now) }
    ensures valid { IfOk result (λ found. IsIdBytes found.0) }
{
    match read_own_id(id, value) {
        Some(found) => {
            found.has_sixteen_bytes();
            Ok(found)
        }
        None => Err(TextFault::BadValue(key)),
    }
}

// No volume is merged where its text doesn't say so.
fn not_merged(legality: Legality) -> bool
    ensures value { result ≡ false }
    ensures valid { MayBeMerged legality result }
{
    match legality {
        Legality::Legal => false,
        Legality::Illegal => false,
    }
}
