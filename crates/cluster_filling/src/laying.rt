// A piece of a new cluster: the guest's part over what was read, and zeros past the capacity.
ghost use Rattle.std.specs.Prelude.{◌≡◌, ◌≢◌, ℕ, ◌+◌, ◌*◌, ◌/◌, ◌<◌, ◌≤◌, length};
ghost use Rattle.shared_disk.specs.Calls.{IsPiece};
ghost use Rattle.shared_disk.specs.Content.{sector_of, zero_sector};
ghost use Rattle.cluster_filling.specs.Laying.{IsLaid, IsLaidSector};

use crate::cluster::Cluster;

// Copies sector `m` of some bytes over sector `k` of a piece.
fn copy_sector(piece: &mut [u8], k: usize, bytes: &[u8], m: usize)
    requires within { 512 * (k + 1) ≤ length piece.old }
    requires among { 512 * (m + 1) ≤ length bytes.now }
    requires few { length piece.old ≤ 65536 }
    requires some { length bytes.now ≤ 65536 }
    ensures here { sector_of piece.new k ≡ sector_of bytes.now m }
    ensures others { (i : ℕ) → i ≢ k → sector_of piece.new i ≡ sector_of piece.old i }
{
    piece[512 * k..512 * k + 512].copy_from_slice(&bytes[512 * m..512 * m + 512]);
}

// A sector of zeros.
fn zero_sector(piece: &mut [u8], k: usize)
    requires within { 512 * (k + 1) ≤ length piece.old }
    requires few { length piece.old ≤ 65536 }
    ensures here { sector_of piece.new k ≡ zero_sector }
    ensures others { (i : ℕ) → i ≢ k → sector_of piece.new i ≡ sector_of piece.old i }
{
    copy_sector(piece, k, &[0; 512], 0)
}

// Lays what it is to be over sector `k` of a piece, which is sector `sector` of the virtual disk.
fn lay_sector(cluster: &Cluster, sector: u64, k: usize, part: &[u8], piece: &mut [u8])
    requires part { IsPiece (length part.now) }
    requires within { 512 * (k + 1) ≤ length piece.old }
    requires few { length piece.old ≤ 65536 }
    ensures here { IsLaidSector cluster.now part.now sector (sector_of piece.old k) (sector_of piece.new k) }
    ensures others { (i : ℕ) → i ≢ k → sector_of piece.new i ≡ sector_of piece.old i }
{
    let sectors = part.len() as u64 / 512;
    if cluster.from <= sector && sector - cluster.from < sectors {
        copy_sector(piece, k, part, (sector - cluster.from) as usize)
    } else if cluster.capacity <= sector {
        zero_sector(piece, k)
    }
}

/// Lays the guest's part and zeros past the capacity over a piece that begins with sector `first` of the virtual disk.
pub(crate) fn lay(cluster: &Cluster, first: u64, part: &[u8], piece: &mut [u8])
    requires part { IsPiece (length part.now) }
    requires piece { IsPiece (length piece.old) }
    requires low { first < 36028797018963968 }
    ensures { IsLaid cluster.now first part.now (length piece.old / 512) piece.old piece.new }
{
    for k in 0..piece.len() / 512 {
        lay_sector(cluster, first + k as u64, k, part, piece);
    }
}
