// Reading a volume's text.
ghost use Rattle.std.specs.Prelude.{◌≡◌, IfOk};
ghost use Rattle.kv_text.specs.Gives.{Gives};
ghost use Rattle.kv_text.specs.Text.{pairs};
ghost use Rattle.sd_names.specs.declared.fault.VolumeFault.TheVariants as fault;
ghost use Rattle.volume_meta.specs.Read.{needed_keys, fault_of, fields_of, read_volume};
ghost use Rattle.volume_meta.specs.Shown.{fields_shown, fields_view};
ghost use Rattle.volume_meta.specs.Text.{HasShortTexts};
ghost use Rattle.volume_meta.specs.Valid.{IsValid};

use crate::keys;
use crate::record::VolumeRecord;
use kv_text::{TextFault, description, has_eof, shape_fault};
use sd_names::{AllocKind, Bytes, Format, Id, Key, Legality, NoMemory, VolType, VolumeFault};
use std::alloc::Global;

// The values of a text, of which the texts are lent.
#[derive(Clone, Copy)]
struct Fields<'a> {
    capacity: u64,
    ctime: u64,
    description: &'a [u8],
    disk_type: &'a [u8],
    domain: Id,
    format: Format,
    generation: u16,
    image: Id,
    legality: Legality,
    merged: bool,
    parent: Id,
    kind: AllocKind,
    voltype: VolType,
}

#[tactic(auto, unfolding(crate::specs::Read::fields_of))]
fn read_fields(five: bool, sd: Id, image: Id, text: &[u8]) -> Result<Fields<'_>, TextFault>
    ensures value { fields_shown result ≡ fields_of five sd image (pairs text.now) }
    ensures valid { IfOk result (λ fields. IsValid (fields_view fields)) }
{
    let cap = keys::cap(five, text)?;
    let ctime = keys::ctime(text)?;
    let description = description(text)?;
    let disk_type = keys::disk_type(text)?;
    let domain = keys::domain(sd, text)?;
    let format = keys::format(text)?;
    let generation = keys::generation(text)?;
    let image = keys::image(image, text)?;
    let legality = keys::legality(text)?;
    let merged = keys::merged(legality, text)?;
    let parent = keys::parent(text)?;
    let capacity = keys::capacity(cap, text)?;
    let kind = keys::kind(text)?;
    let voltype = keys::voltype(text)?;
    Ok(Fields {
        capacity,
        ctime,
        description,
        disk_type,
        domain,
        format,
        generation,
        image,
        legality,
        merged,
        parent,
        kind,
        voltype,
    })
}

// The keys that have to be there, in the order in which they are written.
fn needed_keys(five: bool) -> [Key; 8]
    ensures { result ≡ needed_keys five }
{
    if five {
        [
            Key::Cap,
            Key::Domain,
            Key::Format,
            Key::Image,
            Key::Legality,
            Key::Puuid,
            Key::Alloc,
            Key::VolType,
        ]
    } else {
        [
            Key::Domain,
            Key::Format,
            Key::Image,
            Key::Legality,
            Key::Puuid,
            Key::Size,
            Key::Alloc,
            Key::VolType,
        ]
    }
}

// A fault of lines, keys and values as one of a volume's text.
fn fault_of(fault: TextFault) -> VolumeFault
    ensures { result ≡ fault_of fault }
{
    match fault {
        TextFault::BadLine(number) => VolumeFault::BadLine(number),
        TextFault::MissingKey(key) => VolumeFault::MissingKey(key),
        TextFault::BadValue(key) => VolumeFault::BadValue(key),
    }
}

// The values of a text, or the first thing wrong with it. It takes no memory.
#[tactic(auto, unfolding(crate::specs::Read::read_volume))]
fn read_lent(version: u8, sd: Id, image: Id, text: &[u8]) -> Result<Fields<'_>, VolumeFault>
    ensures value { fields_shown result ≡ read_volume version sd image text.now }
    ensures valid { IfOk result (λ fields. IsValid (fields_view fields)) }
{
    if text.len() > 8192 {
        return Err(VolumeFault::TooLong);
    }
    if !has_eof(text) {
        return Err(VolumeFault::NoEof);
    }
    let five = version == 5;
    if let Some(fault) = shape_fault(text, &needed_keys(five)) {
        return Err(fault_of(fault));
    }
    match read_fields(five, sd, image, text) {
        Ok(fields) => Ok(fields),
        Err(fault) => Err(fault_of(fault)),
    }
}

// The record of these values.
fn record(alloc: Global, fields: Fields<'_>) -> Result<VolumeRecord, NoMemory>
    ensures { IfOk result (λ volume. volume ≡ fields_view fields.entry) }
{
    let description = Bytes::copied(alloc, fields.description)?;
    let disk_type = Bytes::copied(alloc, fields.disk_type)?;
    Ok(VolumeRecord {
        capacity: fields.capacity,
        ctime: fields.ctime,
        description,
        disk_type,
        domain: fields.domain,
        format: fields.format,
        generation: fields.generation,
        image: fields.image,
        legality: fields.legality,
        merged: fields.merged,
        parent: fields.parent,
        kind: fields.kind,
        voltype: fields.voltype,
    })
}

/// The record of the text beside a volume of the domain `sd` and the image `image`, or the first thing wrong
/// with it: more than 8,192 bytes, no line `EOF`, a line that is no pair, a key that isn't there, a value that its key
/// may not have. Keys are looked at in the order in which they are written. In version 5 the capacity stands in CAP,
/// in any other in SIZE. `Memory` is want of memory alone: it comes only where the text has no fault.
pub fn read(
    alloc: Global,
    version: u8,
    sd: Id,
    image: Id,
    text: &[u8],
) -> Result<VolumeRecord, VolumeFault>
    ensures read { Gives fault.Memory result (read_volume version sd image text.now) }
    ensures valid { IfOk result IsValid }
    ensures short { IfOk result HasShortTexts }
{
    match read_lent(version, sd, image, text) {
        Ok(fields) => match record(alloc, fields) {
            Ok(volume) => Ok(volume),
            Err(NoMemory) => Err(VolumeFault::Memory),
        },
        Err(fault) => Err(fault),
    }
}
