// The header.
ghost use Rattle.std.specs.Prelude.{◌≡◌, ℕ, ◌^◌, ◌<◌, ◌≤◌, ◌++◌, List, length, replicate, take, Option, IfNone, IfOk, Ok, nat_le, true};
ghost use Rattle.std.specs.Option.{SomeIff};
ghost use Rattle.qcow_format.specs.Header.{fields_of_version_2, fields_of, field_fault, name_of, mapped, has_name, head_size, shape_of, with_format, header_of};
ghost use Rattle.qcow_format.specs.Written.{HasRoom, IsHeader, IsNew, written};
ghost use Rattle.qcow_format.specs.Numbers.{magic, backing_format};

use crate::bytes::{u32_at, u64_at};
use crate::extension::BACKING_FORMAT;
use crate::shape::{cluster_bytes, format_of_head};
use crate::writing::{write_fields, write_format};
use sd_names::{Format, LayerFault};

/// The first four bytes of a qcow2 file, `51 46 49 fb`.
pub const MAGIC: u32 = 0x5146_49fb;

/// The header of a qcow2 file (qcow2 specification, "Header"), with what its extensions and its backing file name
/// add. Offsets and sizes are in bytes. In version 2, which doesn't have the last five fields of the standard, the
/// features are 0, the refcount order is 4 and the header's length is 72.
#[derive(Clone, Copy, Debug, PartialEq, Eq)]
pub struct Header {
    /// `MAGIC`
    pub magic: u32,
    /// 2 or 3
    pub version: u32,
    /// Where the backing file's name stands, or 0 where there is no backing file.
    pub backing_file_offset: u64,
    /// The length of the backing file's name, at most 1,023. It counts only where there is a backing file.
    pub backing_file_size: u32,
    /// A cluster has 2 to this power bytes; 12 to 21.
    pub cluster_bits: u32,
    /// The capacity of the virtual disk.
    pub size: u64,
    /// 0, since nothing is encrypted.
    pub crypt_method: u32,
    /// How many entries the L1 table has.
    pub l1_size: u32,
    /// Where the L1 table stands, a multiple of the cluster size.
    pub l1_table_offset: u64,
    /// Where the refcount table stands, a multiple of the cluster size.
    pub refcount_table_offset: u64,
    /// How many clusters the refcount table has.
    pub refcount_table_clusters: u32,
    /// 0, since there are no internal snapshots.
    pub nb_snapshots: u32,
    /// Where the snapshot table would stand; it isn't looked at.
    pub snapshots_offset: u64,
    /// 0, since a layer with an incompatible feature isn't read.
    pub incompatible_features: u64,
    /// Features that may be passed over.
    pub compatible_features: u64,
    /// Features to be cleared by a writer that doesn't know them.
    pub autoclear_features: u64,
    /// 4: a refcount has 2 to this power bits.
    pub refcount_order: u32,
    /// How many bytes the header has: 72 in version 2, and in version 3 a multiple of 8 from 104 on.
    pub header_length: u32,
    /// Where the backing file's name stands, and its length; (0, 0) where there is no backing file.
    pub name: (u64, u32),
    /// Where the extension with the backing file's format stands, the last of several.
    pub format_at: Option<u32>,
    /// The backing file's format, where an extension names it.
    pub format: Option<Format>,
}

// Where a name stands and its length, (0, 0) where there is no backing file.
fn name_at(offset: u64, size: u32) -> (u64, u32)
    ensures { result ≡ name_of offset size }
{
    if offset == 0 { (0, 0) } else { (offset, size) }
}

// The fields that both versions have.
#[tactic(auto, unfolding(crate::specs::Header::fields_of_version_2))]
fn version_2_fields(head: &[u8]) -> Header
    requires { 512 ≤ length head.now }
    ensures { result ≡ fields_of_version_2 head.now }
{
    let backing_file_offset = u64_at(head, 8);
    let backing_file_size = u32_at(head, 16);
    Header {
        magic: u32_at(head, 0),
        version: u32_at(head, 4),
        backing_file_offset,
        backing_file_size,
        cluster_bits: u32_at(head, 20),
        size: u64_at(head, 24),
        crypt_method: u32_at(head, 32),
        l1_size: u32_at(head, 36),
        l1_table_offset: u64_at(head, 40),
        refcount_table_offset: u64_at(head, 48),
        refcount_table_clusters: u32_at(head, 56),
        nb_snapshots: u32_at(head, 60),
        snapshots_offset: u64_at(head, 64),
        incompatible_features: 0,
        compatible_features: 0,
        autoclear_features: 0,
        refcount_order: 4,
        header_length: 72,
        name: name_at(backing_file_offset, backing_file_size),
        format_at: None,
        format: None,
    }
}

// The fields of a header; those of version 3 are read only where the version is 3.
#[tactic(auto, unfolding(crate::specs::Header::fields_of))]
fn fields(head: &[u8]) -> Header
    requires { 512 ≤ length head.now }
    ensures { result ≡ fields_of head.now }
{
    let version = u32_at(head, 4);
    let header = version_2_fields(head);
    if version != 3 {
        return header;
    }
    Header {
        incompatible_features: u64_at(head, 72),
        compatible_features: u64_at(head, 80),
        autoclear_features: u64_at(head, 88),
        refcount_order: u32_at(head, 96),
        header_length: u32_at(head, 100),
        ..header
    }
}

// What is wrong with the fields alone, the first fault.
#[tactic(auto, unfolding(crate::specs::Header::field_fault))]
fn fault_of(header: &Header) -> Option<LayerFault>
    ensures value { result ≡ field_fault header.now }
    ensures low { IfNone result (12 ≤ header.now.cluster_bits) }
    ensures high { IfNone result (header.now.cluster_bits ≤ 21) }
{
    if header.magic != MAGIC {
        return Some(LayerFault::Magic);
    }
    if header.version != 2 && header.version != 3 {
        return Some(LayerFault::Version);
    }
    if header.cluster_bits < 12 || header.cluster_bits > 21 {
        return Some(LayerFault::Bits);
    }
    if header.crypt_method != 0 {
        return Some(LayerFault::Encrypted);
    }
    if header.nb_snapshots != 0 {
        return Some(LayerFault::Snapshots);
    }
    if header.incompatible_features != 0 {
        return Some(LayerFault::Feature(header.incompatible_features.trailing_zeros()));
    }
    if header.refcount_order != 4 {
        return Some(LayerFault::RefcountOrder);
    }
    None
}

// How many bytes an L1 table of this many entries maps, or None where the number doesn't fit.
fn mapped_bytes(header: &Header) -> Option<u64>
    requires low { 12 ≤ header.now.cluster_bits }
    requires high { header.now.cluster_bits ≤ 21 }
    ensures { SomeIff result (mapped header.now < 2 ^ 64) (mapped header.now) }
{
    let cluster = cluster_bytes(header.cluster_bits);
    u64::from(header.l1_size).checked_mul(cluster / 8 * cluster)
}

// Whether the L1 table can map the header's size.
fn is_mapped(header: &Header) -> bool
    requires low { 12 ≤ header.now.cluster_bits }
    requires high { header.now.cluster_bits ≤ 21 }
    ensures { result ≡ nat_le header.now.size (mapped header.now) }
{
    let size = header.size;
    match mapped_bytes(header) {
        Some(bytes) => size <= bytes,
        None => true,
    }
}

// The header with the backing format that was found.
fn with_found(header: Header, found: Option<(u32, Format)>) -> Header
    ensures { result ≡ with_format header found }
{
    match found {
        Some((at, format)) => Header {
            format_at: Some(at),
            format: Some(format),
            ..header
        },
        None => Header {
            format_at: None,
            format: None,
            ..header
        },
    }
}

// The header of a file that begins with these bytes, or its first fault.
#[tactic(auto, unfolding(crate::specs::Header::header_of))]
fn header_in(head: &[u8]) -> Result<Header, LayerFault>
    ensures { result ≡ header_of head.now }
{
    if head.len() < 512 {
        return Err(LayerFault::Short);
    }
    let header = fields(head);
    if let Some(fault) = fault_of(&header) {
        return Err(fault);
    }
    let found = format_of_head(&header, head)?;
    let header = with_found(header, found);
    if !is_mapped(&header) {
        return Err(LayerFault::Size(header.size));
    }
    Ok(header)
}

impl Header {
    /// Reads the header of a file that begins with these bytes.
    ///
    /// Give it the head, which is the first 65,536 bytes or the first cluster, whichever is less, with zeros where the
    /// file is shorter. What stands behind the head isn't looked at, so that 65,536 bytes always do. Of a shorter head
    /// only the bytes that are given count: what would stand behind them is taken as past the head.
    ///
    /// The first fault comes in this order: `Short` for fewer than 512 bytes, `Magic`, `Version`, `Bits`, `Encrypted`,
    /// `Snapshots`, `Feature`, `RefcountOrder`, `HeaderShape`, and `Size` where the L1 table can't map the header's own
    /// size. Whether the size is enough for a volume is for the caller, who knows the volume.
    pub fn read(head: &[u8]) -> Result<Header, LayerFault>
        ensures value { result ≡ header_of head.now }

        // What is read is a header that `write` takes.
        ensures sound { IfOk result IsHeader }
    {
        header_in(head)
    }

    /// Writes the header's fields to the first sector of a file, and the backing format at its place where there is
    /// one. All other bytes stay. In version 2 the fields of version 3 aren't written.
    pub fn write(&self, first: &mut [u8; 512])
        requires { HasRoom self.now }
        ensures { first.new ≡ written self.now first.old }
    {
        write_fields(self, first);
        if let (Some(at), Some(format)) = (self.format_at, self.format) {
            write_format(first, at as usize, format);
        }
    }
}

/// A law: a header that was written to the first sector of a file is read again, where the head behind it keeps the
/// profile's rules and names the header's own backing format. A new layer's header, written into a sector of zeros, keeps
/// them by itself, so that nothing is asked of the head but the backing file's name, which stands elsewhere in it.
pub fn headers_read_again()
    ensures shaped { (h : Header) (first rest : List ℕ) (found : Option (ℕ × Format)) → IsHeader h → length first ≡ 512
        → shape_of (take (head_size h.cluster_bits) (written h first ++ rest)) h ≡ Ok found → with_format h found ≡ h
        → header_of (written h first ++ rest) ≡ Ok h }
    ensures fresh { (h : Header) (rest : List ℕ) → IsHeader h → IsNew h
        → has_name (take (head_size h.cluster_bits) (written h (replicate 512 0) ++ rest)) h ≡ true
        → header_of (written h (replicate 512 0) ++ rest) ≡ Ok h }
{}

/// The numbers by which a file and a backing format are known are those of the standard.
pub fn numbers_of_the_standard()
    ensures magic { MAGIC ≡ magic }
    ensures backing_format { BACKING_FORMAT ≡ backing_format }
{}
