// The profile's rules on what a head holds.
ghost use Rattle.std.specs.Prelude.{◌≡◌, ◌+◌, ◌*◌, ◌^◌, ◌≤◌, length, min, take};
ghost use Rattle.qcow_format.specs.Header.{head_size, has_length, has_aligned_tables, has_name, is_closed, has_shape, shape_of};

use crate::bytes::u32_at;
use crate::format::walk;
use crate::header::Header;
use crate::name::is_fine;
use sd_names::{Format, LayerFault};

// The size of a cluster.
pub(crate) fn cluster_bytes(cluster_bits: u32) -> u64
    requires at_least { 12 ≤ cluster_bits }
    requires at_most { cluster_bits ≤ 21 }
    ensures value { result ≡ 2 ^ cluster_bits }
    ensures low { 4096 ≤ result }
    ensures high { result ≤ 2 ^ 21 }
{
    1 << cluster_bits
}

// The size of the head.
fn head_span(cluster_bits: u32) -> u64
    requires at_least { 12 ≤ cluster_bits }
    requires at_most { cluster_bits ≤ 21 }
    ensures value { result ≡ head_size cluster_bits }
    ensures low { 4096 ≤ result }
    ensures high { result ≤ 65536 }
{
    cluster_bytes(cluster_bits).min(65_536)
}

fn has_fine_length(header: &Header) -> bool
    ensures { result ≡ has_length header.now }
{
    header.version == 2 || (header.header_length >= 104 && header.header_length % 8 == 0)
}

fn has_fine_tables(header: &Header) -> bool
    requires low { 12 ≤ header.now.cluster_bits }
    requires high { header.now.cluster_bits ≤ 21 }
    ensures { result ≡ has_aligned_tables header.now }
{
    let cluster = cluster_bytes(header.cluster_bits);
    header.l1_table_offset % cluster == 0 && header.refcount_table_offset % cluster == 0
}

fn has_fine_name(head: &[u8], header: &Header) -> bool
    requires low { 12 ≤ header.now.cluster_bits }
    requires high { header.now.cluster_bits ≤ 21 }
    requires within { length head.now ≤ head_size header.now.cluster_bits }
    ensures { result ≡ has_name head.now header.now }
{
    let span = head_span(header.cluster_bits);
    header.backing_file_offset == 0
        || is_fine(
            head,
            span,
            header.backing_file_offset,
            header.backing_file_size,
        )
}

// Whether the closing mark stands at a place, and 1,024 bytes of the head or more behind it.
fn has_closing_mark(head: &[u8], span: u64, at: usize) -> bool
    requires { length head.now ≤ span }
    ensures { result ≡ is_closed head.now span at }
{
    if at > head.len() || head.len() - at < 8 {
        return false;
    }
    u32_at(head, at) == 0 && span - at as u64 - 8 >= 1024
}

// The backing format that a head names, where it keeps the profile's rules.
#[tactic(auto, unfolding(crate::specs::Header::shape_of))]
fn format_within(head: &[u8], header: &Header) -> Result<Option<(u32, Format)>, LayerFault>
    requires low { 12 ≤ header.now.cluster_bits }
    requires high { header.now.cluster_bits ≤ 21 }
    requires within { length head.now ≤ head_size header.now.cluster_bits }
    ensures { result ≡ shape_of head.now header.now }
{
    let span = head_span(header.cluster_bits);
    let (end, found) = walk(head, header.header_length as usize)?;
    let fine = has_fine_length(header)
        && has_fine_tables(header)
        && has_fine_name(head, header)
        && has_closing_mark(head, span, end);
    if !fine {
        return Err(LayerFault::HeaderShape);
    }
    Ok(found)
}

// The backing format that the head of these bytes names, where it keeps the profile's rules.
pub(crate) fn format_of_head(
    header: &Header,
    bytes: &[u8],
) -> Result<Option<(u32, Format)>, LayerFault>
    requires low { 12 ≤ header.now.cluster_bits }
    requires high { header.now.cluster_bits ≤ 21 }
    ensures { result ≡ shape_of (take (head_size header.now.cluster_bits) bytes.now) header.now }
{
    let span = head_span(header.cluster_bits) as usize;
    if bytes.len() <= span {
        return format_within(bytes, header);
    }
    format_within(&bytes[..span], header)
}
