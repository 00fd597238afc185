// The header of a layer over another backing file.
ghost use Rattle.std.specs.Prelude.{◌≡◌, ◌≤◌, Some};
ghost use Rattle.shared_disk.specs.Calls.{IsAligned};
ghost use Rattle.qcow_format.specs.Header.{head_size};
ghost use Rattle.layer_creating.specs.New.{name_sector};
ghost use Rattle.layer_heading.specs.Cleared.{cleared, cleared_sector};
ghost use Rattle.layer_heading.specs.Rebased.{is_touched, laid, name_place, rebased};

use layer_creating::Backing;
use layer_walk::cluster_bytes;
use qcow_format::Header;

/// How long the name of a backing file is that is written, in bytes: an identifier.
const NAME: u32 = 36;

// The size of the head, in bytes.
fn head_size(header: &Header) -> u64
    requires low { 12 ≤ header.now.cluster_bits }
    requires high { header.now.cluster_bits ≤ 21 }
    ensures value { result ≡ head_size header.now.cluster_bits }
    ensures least { 4096 ≤ result }
    ensures most { result ≤ 65536 }
    ensures whole { IsAligned result }
{
    cluster_bytes(header).min(65_536)
}

// Whether the backing file's name stands in the sector at a place, in bytes.
fn touches(header: &Header, sector: u64) -> bool
    requires { sector ≤ 65536 }
    ensures { result ≡ is_touched header.now sector }
{
    let at = header.backing_file_offset;
    let size = u64::from(header.backing_file_size);
    at != 0 && at < sector + 512 && sector < at.saturating_add(size)
}

/// Where the next name goes, in bytes: to the first of the head's last two sectors, unless the present name stands there.
pub(crate) fn name_place(header: &Header) -> u64
    requires low { 12 ≤ header.now.cluster_bits }
    requires high { header.now.cluster_bits ≤ 21 }
    ensures value { result ≡ name_place header.now }
    ensures whole { IsAligned result }
{
    let head = head_size(header);
    if touches(header, head - 1024) {
        head - 512
    } else {
        head - 1024
    }
}

/// The header over another backing file: it names the place of the file's name, and its format where it names one. The
/// features that a writer clears are cleared.
pub fn rebased(header: &Header, backing: Backing) -> Header
    requires low { 12 ≤ header.now.cluster_bits }
    requires high { header.now.cluster_bits ≤ 21 }
    ensures { result ≡ rebased header.now backing }
{
    let at = name_place(header);
    let format = match header.format {
        None => None,
        Some(_) => Some(backing.format),
    };
    Header {
        backing_file_offset: at,
        backing_file_size: NAME,
        autoclear_features: 0,
        name: (at, NAME),
        format,
        ..*header
    }
}

/// The first sector of a file with a header; `None` where the header's backing format doesn't fit there.
pub(crate) fn lay(header: &Header, first: [u8; 512]) -> Option<[u8; 512]>
    ensures { result ≡ laid header.now first }
{
    if let Some(at) = header.format_at {
        if at > 496 {
            return None;
        }
    }
    let mut first = first;
    header.write(&mut first);
    Some(first)
}

/// The sector with the name of a backing file.
#[tactic(auto, unfolding(qcow_format::specs::Bytes::put, shared_disk::specs::Content::zero_sector))]
pub(crate) fn name_sector(backing: &Backing) -> [u8; 512]
    ensures { result ≡ name_sector (Some backing.now) }
{
    let mut sector = [0; 512];
    sector[..36].copy_from_slice(&backing.parent.text());
    sector
}

/// The header without the features that a writer clears.
pub(crate) fn cleared(header: &Header) -> Header
    ensures { result ≡ cleared header.now }
{
    let mut header = *header;
    header.autoclear_features = 0;
    header
}

/// The first sector of a file without them: bytes 88 to 95 are 0, and all others as they were.
#[tactic(auto, unfolding(qcow_format::specs::Bytes::put))]
pub(crate) fn cleared_sector(first: [u8; 512]) -> [u8; 512]
    ensures { result ≡ cleared_sector first }
{
    let mut first = first;
    first[88..96].copy_from_slice(&[0; 8]);
    first
}
