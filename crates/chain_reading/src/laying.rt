// The sectors of a part that are still missing.
ghost use Rattle.std.specs.Prelude.{◌≡◌, ◌≢◌, ℕ, ◌+◌, ◌*◌, ◌<◌, ◌≤◌, true, length};
ghost use Rattle.shared_disk.specs.Content.{sector_of};
ghost use Rattle.chain_reading.specs.Laying.{IsFirstMissing, IsLaid, LaysZeros, is_missing};

/// Each sector is missing.
pub(crate) fn all_missing() -> [bool; 128]
    ensures { (j : ℕ) → j < 128 → is_missing result j ≡ true }
{
    [true; 128]
}

/// The first missing sector from `from` on below `end`, else the greater of the two.
pub(crate) fn first_missing(missing: &[bool; 128], from: usize, end: usize) -> usize
    requires { end ≤ 128 }
    ensures { IsFirstMissing missing.now from end result }
{
    for k in from..end {
        if missing[k] {
            return k;
        }
    }
    from.max(end)
}

// Copies sector `m` of some bytes over sector `k` of a part.
fn copy_sector(part: &mut [u8], k: usize, bytes: &[u8; 65536], m: usize)
    requires within { 512 * (k + 1) ≤ length part.old }
    requires among { 512 * (m + 1) ≤ 65536 }
    ensures here { sector_of part.new k ≡ sector_of bytes.now m }
    ensures others { (i : ℕ) → i ≢ k → sector_of part.new i ≡ sector_of part.old i }
{
    part[512 * k..512 * k + 512].copy_from_slice(&bytes[512 * m..512 * m + 512]);
}

// Lays the first sectors of some bytes over those from `from` to `to` of a part that are missing. None of them is missing
// then.
fn lay_within(
    missing: &mut [bool; 128],
    part: &mut [u8],
    from: usize,
    to: usize,
    bytes: &[u8; 65536],
)
    requires within { 512 * to ≤ length part.old }
    requires order { from ≤ to }
    requires few { to ≤ 128 }
    ensures { IsLaid missing.old missing.new part.old part.new from to bytes.now }
{
    for k in from..to {
        if missing[k] {
            copy_sector(part, k, bytes, k - from);
            missing[k] = false;
        }
    }
}

/// Lays the first sectors of some bytes over those from `from` to `to` of a part that are missing, as far as the part has
/// them. None of them is missing then.
pub(crate) fn lay(
    missing: &mut [bool; 128],
    part: &mut [u8],
    from: usize,
    to: usize,
    bytes: &[u8; 65536],
)
    requires order { from ≤ to }
    requires few { to ≤ 128 }
    ensures { 512 * to ≤ length part.old → IsLaid missing.old missing.new part.old part.new from to bytes.now }
{
    let to = to.min(part.len() / 512);
    let from = from.min(to);
    lay_within(missing, part, from, to, bytes)
}

/// Lays zeros over the sectors from `from` to `to` of a part that are missing, as far as the part has them. None of them is
/// missing then.
pub(crate) fn lay_zeros(missing: &mut [bool; 128], part: &mut [u8], from: usize, to: usize)
    requires order { from ≤ to }
    requires few { to ≤ 128 }
    ensures { 512 * to ≤ length part.old → LaysZeros missing.old missing.new part.old part.new from to }
{
    lay(missing, part, from, to, &[0; 65536])
}
