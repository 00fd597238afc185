// Numbers in a sector.
ghost use Rattle.std.specs.Prelude.{◌≡◌, ◌*◌, ◌<◌};
ghost use Rattle.qcow_format.specs.Bytes.{number};

use byteorder::{BigEndian, ByteOrder};

/// The number of 8 bytes with this index.
#[tactic(auto, unfolding(qcow_format::specs::Bytes::number))]
pub fn word_at(sector: &[u8; 512], index: usize) -> u64
    requires { index < 64 }
    ensures { result ≡ number 8 (8 * index) sector.now }
{
    BigEndian::read_u64(&sector[8 * index..])
}

/// The number of 2 bytes with this index.
#[tactic(auto, unfolding(qcow_format::specs::Bytes::number))]
pub fn half_at(sector: &[u8; 512], index: usize) -> u16
    requires { index < 256 }
    ensures { result ≡ number 2 (index * 2) sector.now }
{
    BigEndian::read_u16(&sector[index * 2..])
}
