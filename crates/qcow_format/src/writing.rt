// Writing a header.
ghost use Rattle.std.specs.Prelude.{◌≡◌, ◌+◌, ◌≤◌, length};
ghost use Rattle.qcow_format.specs.Bytes.{put};
ghost use Rattle.qcow_format.specs.Written.{version_2_table, version_3_table, puts, put_fields, format_bytes};

use crate::bytes::{put_u32, put_u64};
use crate::header::Header;
use sd_names::Format;

// The extension that names the format `raw`.
const RAW: [u8; 16] = [
    0xe2, 0x79, 0x2a, 0xca, 0, 0, 0, 3, b'r', b'a', b'w', 0, 0, 0, 0, 0,
];

// The extension that names the format `qcow2`.
const QCOW2: [u8; 16] = [
    0xe2, 0x79, 0x2a, 0xca, 0, 0, 0, 5, b'q', b'c', b'o', b'w', b'2', 0, 0, 0,
];

// Writes the fields that both versions have.
fn write_version_2(header: &Header, bytes: &mut [u8])
    requires { 512 ≤ length bytes.old }
    ensures value { bytes.new ≡ puts (version_2_table header.now) bytes.old }
    ensures length { length bytes.new ≡ length bytes.old }
{
    put_u32(bytes, 0, header.magic);
    put_u32(bytes, 4, header.version);
    put_u64(bytes, 8, header.backing_file_offset);
    put_u32(bytes, 16, header.backing_file_size);
    put_u32(bytes, 20, header.cluster_bits);
    put_u64(bytes, 24, header.size);
    put_u32(bytes, 32, header.crypt_method);
    put_u32(bytes, 36, header.l1_size);
    put_u64(bytes, 40, header.l1_table_offset);
    put_u64(bytes, 48, header.refcount_table_offset);
    put_u32(bytes, 56, header.refcount_table_clusters);
    put_u32(bytes, 60, header.nb_snapshots);
    put_u64(bytes, 64, header.snapshots_offset);
}

// Writes the fields that version 3 adds.
fn write_version_3(header: &Header, bytes: &mut [u8])
    requires { 512 ≤ length bytes.old }
    ensures value { bytes.new ≡ puts (version_3_table header.now) bytes.old }
    ensures length { length bytes.new ≡ length bytes.old }
{
    put_u64(bytes, 72, header.incompatible_features);
    put_u64(bytes, 80, header.compatible_features);
    put_u64(bytes, 88, header.autoclear_features);
    put_u32(bytes, 96, header.refcount_order);
    put_u32(bytes, 100, header.header_length);
}

// Writes the fields of the header's version.
pub(crate) fn write_fields(header: &Header, bytes: &mut [u8])
    requires { 512 ≤ length bytes.old }
    ensures value { bytes.new ≡ put_fields header.now bytes.old }
    ensures length { length bytes.new ≡ length bytes.old }
{
    write_version_2(header, bytes);
    if header.version == 3 {
        write_version_3(header, bytes);
    }
}

// The extension that names a format.
#[tactic(auto, unfolding(crate::specs::Written::format_bytes, crate::specs::Bytes::bytes_of))]
fn extension_of(format: Format) -> [u8; 16]
    ensures { result ≡ format_bytes format }
{
    match format {
        Format::Raw => RAW,
        Format::Cow => QCOW2,
    }
}

// Writes the extension of a backing format at a place.
#[tactic(auto, unfolding(crate::specs::Bytes::put))]
pub(crate) fn write_format(bytes: &mut [u8], at: usize, format: Format)
    requires { at + 16 ≤ length bytes.old }
    ensures value { bytes.new ≡ put at (format_bytes format) bytes.old }
    ensures length { length bytes.new ≡ length bytes.old }
{
    let extension = extension_of(format);
    bytes[at..at + 16].copy_from_slice(&extension);
}
