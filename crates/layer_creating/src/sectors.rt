// The sectors of a new layer's file that aren't zeros.
ghost use Rattle.std.specs.Prelude.{◌≡◌, ◌^◌, ◌≤◌, length, Some};
ghost use Rattle.layer_creating.specs.declared.backing.Backing.{Backing};
ghost use Rattle.layer_creating.specs.New.{beginning, block_sector, header_sector, name_sector, table_sector};

use crate::backing::Backing;
use crate::header::new_header;
use sd_names::Id;

// A sector of zeros that begins with these bytes.
#[tactic(auto, unfolding(qcow_format::specs::Bytes::put, shared_disk::specs::Content::zero_sector))]
fn beginning(bytes: &[u8]) -> [u8; 512]
    requires { length bytes.now ≤ 512 }
    ensures { result ≡ beginning bytes.now }
{
    let mut sector = [0; 512];
    sector[..bytes.len()].copy_from_slice(bytes);
    sector
}

/// The block's first sector: clusters 0 to 3 have the count 1.
#[tactic(auto, unfolding(qcow_format::specs::Bytes::bytes_of))]
pub(crate) fn block_sector() -> [u8; 512]
    ensures { result ≡ block_sector }
{
    beginning(&[0, 1, 0, 1, 0, 1, 0, 1])
}

/// The refcount table's first sector: the block stands at 131,072.
#[tactic(auto, unfolding(qcow_format::specs::Bytes::bytes_of))]
pub(crate) fn table_sector() -> [u8; 512]
    ensures { result ≡ table_sector }
{
    beginning(&131_072u64.to_be_bytes())
}

/// The sector with the parent's name.
pub(crate) fn name_sector(parent: Id) -> [u8; 512]
    ensures { (backing : Backing) → backing.parent ≡ parent → result ≡ name_sector (Some backing) }
{
    beginning(&parent.text())
}

/// The header's sector.
#[tactic(auto, unfolding(shared_disk::specs::Content::zero_sector))]
pub(crate) fn header_sector(capacity: u64, backing: Option<Backing>) -> [u8; 512]
    requires { capacity ≤ 2 ^ 40 }
    ensures { result ≡ header_sector capacity backing }
{
    let mut sector = [0; 512];
    new_header(capacity, backing).write(&mut sector);
    sector
}
