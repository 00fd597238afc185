// Backing file names.
ghost use Rattle.std.specs.Prelude.{◌≡◌, ◌≢◌, ◌≤◌, length, IfNone, IfSome, Ok};
ghost use Rattle.qcow_format.specs.Header.{header_of};
ghost use Rattle.qcow_format.specs.Name.{backing_id, last_part, is_name};

use crate::header::Header;
use sd_names::Id;

// The part of a name behind its last `/`.
fn last_part_of(name: &[u8]) -> &[u8]
    ensures { result.now ≡ last_part name.now }
{
    let mut start = name.len();
    while start > 0 && name[start - 1] != b'/' {
        start -= 1;
    }
    &name[start..]
}

// Whether a name of `size` bytes at the place `at` is fine: its last part is an identifier, and it lies within the
// head, whose size is `span`, and doesn't touch both of its last two sectors.
pub(crate) fn is_fine(head: &[u8], span: u64, at: u64, size: u32) -> bool
    requires low { 1024 ≤ span }
    requires within { length head.now ≤ span }
    ensures { result ≡ is_name head.now span at size }
{
    let size = u64::from(size);
    let length = head.len() as u64;
    if size > 1023 || at > length || length - at < size {
        return false;
    }
    let last_sector = span - 512;
    if at < last_sector && last_sector < at + size {
        return false;
    }
    let from = at as usize;
    Id::read(last_part_of(&head[from..from + size as usize])).is_some()
}

/// The identifier with which the backing file's name ends, behind its last `/` where it has one; None exactly where
/// there is no backing file. The header is the one that these bytes were read as.
pub fn backing_id(header: &Header, head: &[u8]) -> Option<Id>
    requires { header_of head.now ≡ Ok header.now }
    ensures value { result ≡ backing_id header.now head.now }
    ensures none { IfNone result (header.now.backing_file_offset ≡ 0) }
    ensures some { IfSome result (λ _. header.now.backing_file_offset ≢ 0) }
{
    if header.backing_file_offset == 0 {
        return None;
    }
    let from = header.backing_file_offset as usize;
    Id::read(last_part_of(&head[from..][..header.backing_file_size as usize]))
}
