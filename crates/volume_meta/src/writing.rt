// Writing a volume's text.
ghost use Rattle.std.specs.Prelude.{◌≡◌, ◌≤◌, ◌+◌, ◌/◌, ◌++◌, length, take, decimal};
ghost use Rattle.kv_text.specs.Written.{written, room, buffer};
ghost use Rattle.volume_meta.specs.Text.{line_of, cap_line, merged_line, mtime_line, size_line, first_lines, last_lines, volume_text, HasShortTexts, format_text, legality_text, kind_text, voltype_text};

use crate::record::VolumeRecord;
use itoa::Buffer;
use kv_text::KvWriter;
use sd_names::{AllocKind, Format, Key, Legality, VolType};

// Writes a line whose value has at most 40 bytes.
fn push(writer: &mut KvWriter<'_>, key: Key, value: &[u8])
    requires short { length value.now ≤ 40 }
    requires fits { 56 ≤ length (room writer.old) }
    ensures written { written writer.new ≡ written writer.old ++ line_of key value.now }
    ensures left { length (room writer.old) ≤ length (room writer.new) + 56 }
    ensures whole { length (written writer.new) + length (room writer.new) ≡ length (written writer.old) + length (room writer.old) }
    ensures buffer { (buffer writer.new).ghost_name ≡ (buffer writer.old).ghost_name }
{
    writer.push(key.name().as_bytes(), value);
}

// Writes a line whose value is a number.
fn push_number(writer: &mut KvWriter<'_>, key: Key, number: u64)
    requires { 56 ≤ length (room writer.old) }
    ensures written { written writer.new ≡ written writer.old ++ line_of key (decimal number) }
    ensures left { length (room writer.old) ≤ length (room writer.new) + 56 }
    ensures whole { length (written writer.new) + length (room writer.new) ≡ length (written writer.old) + length (room writer.old) }
    ensures buffer { (buffer writer.new).ghost_name ≡ (buffer writer.old).ghost_name }
{
    let mut digits = Buffer::new();
    push(writer, key, digits.format(number).as_bytes());
}

fn push_cap(writer: &mut KvWriter<'_>, five: bool, capacity: u64)
    requires { 56 ≤ length (room writer.old) }
    ensures written { written writer.new ≡ written writer.old ++ cap_line five capacity }
    ensures left { length (room writer.old) ≤ length (room writer.new) + 56 }
    ensures whole { length (written writer.new) + length (room writer.new) ≡ length (written writer.old) + length (room writer.old) }
    ensures buffer { (buffer writer.new).ghost_name ≡ (buffer writer.old).ghost_name }
{
    if five {
        push_number(writer, Key::Cap, capacity);
    }
}

fn push_merged(writer: &mut KvWriter<'_>, merged: bool)
    requires { 56 ≤ length (room writer.old) }
    ensures written { written writer.new ≡ written writer.old ++ merged_line merged }
    ensures left { length (room writer.old) ≤ length (room writer.new) + 56 }
    ensures whole { length (written writer.new) + length (room writer.new) ≡ length (written writer.old) + length (room writer.old) }
    ensures buffer { (buffer writer.new).ghost_name ≡ (buffer writer.old).ghost_name }
{
    if merged {
        push(writer, Key::Merged, b"TRUE");
    }
}

fn push_mtime(writer: &mut KvWriter<'_>, five: bool)
    requires { 56 ≤ length (room writer.old) }
    ensures written { written writer.new ≡ written writer.old ++ mtime_line five }
    ensures left { length (room writer.old) ≤ length (room writer.new) + 56 }
    ensures whole { length (written writer.new) + length (room writer.new) ≡ length (written writer.old) + length (room writer.old) }
    ensures buffer { (buffer writer.new).ghost_name ≡ (buffer writer.old).ghost_name }
{
    if !five {
        push(writer, Key::Mtime, b"0");
    }
}

fn push_size(writer: &mut KvWriter<'_>, five: bool, capacity: u64)
    requires { 56 ≤ length (room writer.old) }
    ensures written { written writer.new ≡ written writer.old ++ size_line five capacity }
    ensures left { length (room writer.old) ≤ length (room writer.new) + 56 }
    ensures whole { length (written writer.new) + length (room writer.new) ≡ length (written writer.old) + length (room writer.old) }
    ensures buffer { (buffer writer.new).ghost_name ≡ (buffer writer.old).ghost_name }
{
    if !five {
        push_number(writer, Key::Size, capacity / 512);
    }
}

fn format_text(format: Format) -> &'static [u8]
    ensures text { result.now ≡ format_text format }
    ensures short { length result.now ≤ 12 }
{
    match format {
        Format::Raw => b"RAW",
        Format::Cow => b"COW",
    }
}

fn legality_text(legality: Legality) -> &'static [u8]
    ensures text { result.now ≡ legality_text legality }
    ensures short { length result.now ≤ 12 }
{
    match legality {
        Legality::Legal => b"LEGAL",
        Legality::Illegal => b"ILLEGAL",
    }
}

fn kind_text(kind: AllocKind) -> &'static [u8]
    ensures text { result.now ≡ kind_text kind }
    ensures short { length result.now ≤ 12 }
{
    match kind {
        AllocKind::Sparse => b"SPARSE",
        AllocKind::Preallocated => b"PREALLOCATED",
    }
}

fn voltype_text(voltype: VolType) -> &'static [u8]
    ensures text { result.now ≡ voltype_text voltype }
    ensures short { length result.now ≤ 12 }
{
    match voltype {
        VolType::Leaf => b"LEAF",
        VolType::Internal => b"INTERNAL",
    }
}

// The lines up to GEN.
fn push_first(writer: &mut KvWriter<'_>, five: bool, volume: &VolumeRecord)
    requires description { length volume.now.description ≤ 4096 }
    requires disk_type { length volume.now.disk_type ≤ 16 }
    requires fits { 5000 ≤ length (room writer.old) }
    ensures written { written writer.new ≡ written writer.old ++ first_lines five volume.now }
    ensures left { length (room writer.old) ≤ length (room writer.new) + 4500 }
    ensures whole { length (written writer.new) + length (room writer.new) ≡ length (written writer.old) + length (room writer.old) }
    ensures buffer { (buffer writer.new).ghost_name ≡ (buffer writer.old).ghost_name }
{
    push_cap(writer, five, volume.capacity);
    push_number(writer, Key::Ctime, volume.ctime);
    writer.push(
        Key::Description.name().as_bytes(),
        volume.description.as_slice(),
    );
    push(writer, Key::DiskType, volume.disk_type.as_slice());
    push(writer, Key::Domain, &volume.domain.text());
    push(writer, Key::Format, format_text(volume.format));
    push_number(writer, Key::Gen, u64::from(volume.generation));
}

// The lines from IMAGE on, but `EOF`.
fn push_last(writer: &mut KvWriter<'_>, five: bool, volume: &VolumeRecord)
    requires fits { 500 ≤ length (room writer.old) }
    ensures written { written writer.new ≡ written writer.old ++ last_lines five volume.now }
    ensures left { length (room writer.old) ≤ length (room writer.new) + 448 }
    ensures whole { length (written writer.new) + length (room writer.new) ≡ length (written writer.old) + length (room writer.old) }
    ensures buffer { (buffer writer.new).ghost_name ≡ (buffer writer.old).ghost_name }
{
    push(writer, Key::Image, &volume.image.text());
    push(writer, Key::Legality, legality_text(volume.legality));
    push_merged(writer, volume.merged);
    push_mtime(writer, five);
    push(writer, Key::Puuid, &volume.parent.text());
    push_size(writer, five, volume.capacity);
    push(writer, Key::Alloc, kind_text(volume.kind));
    push(writer, Key::VolType, voltype_text(volume.voltype));
}

/// Writes the text of a record from the buffer's start on, and gives its length in bytes, which is at most
/// 8,192. The record's description has at most 4,096 bytes and its disk type at most 16, as in every record that
/// `read` gives. In version 5 the capacity stands in CAP, in any other in SIZE.
#[tactic(auto, unfolding(crate::specs::Text::volume_text))]
pub fn write_into(version: u8, volume: &VolumeRecord, into: &mut [u8; 8192]) -> usize
    requires { HasShortTexts volume.now }
    ensures len { result ≡ length (volume_text version volume.now) }
    ensures short { result ≤ 8192 }
    ensures text { take result into.new ≡ volume_text version volume.now }
{
    let five = version == 5;
    let mut writer = KvWriter::new(into);
    push_first(&mut writer, five, volume);
    push_last(&mut writer, five, volume);
    let len = writer.finish();
    into[len..len + 4].copy_from_slice(b"EOF\n");
    len + 4
}
