// Big-endian numbers at places of a head.
ghost use Rattle.std.specs.Prelude.{◌≡◌, ◌+◌, ◌≤◌, length};
ghost use Rattle.qcow_format.specs.Bytes.{number, put, bytes_of};

use byteorder::{BigEndian, ByteOrder};

// The number of 4 bytes at a place.
#[tactic(auto, unfolding(crate::specs::Bytes::number))]
pub(crate) fn u32_at(head: &[u8], at: usize) -> u32
    requires { at + 4 ≤ length head.now }
    ensures { result ≡ number 4 at head.now }
{
    BigEndian::read_u32(&head[at..])
}

// The number of 8 bytes at a place.
#[tactic(auto, unfolding(crate::specs::Bytes::number))]
pub(crate) fn u64_at(head: &[u8], at: usize) -> u64
    requires { at + 8 ≤ length head.now }
    ensures { result ≡ number 8 at head.now }
{
    BigEndian::read_u64(&head[at..])
}

// Writes a number of 4 bytes at a place.
#[tactic(auto, unfolding(crate::specs::Bytes::put, crate::specs::Bytes::bytes_of))]
pub(crate) fn put_u32(bytes: &mut [u8], at: usize, number: u32)
    requires { at + 4 ≤ length bytes.old }
    ensures value { bytes.new ≡ put at (bytes_of 4 number) bytes.old }
    ensures length { length bytes.new ≡ length bytes.old }
{
    BigEndian::write_u32(&mut bytes[at..], number);
}

// Writes a number of 8 bytes at a place.
#[tactic(auto, unfolding(crate::specs::Bytes::put, crate::specs::Bytes::bytes_of))]
pub(crate) fn put_u64(bytes: &mut [u8], at: usize, number: u64)
    requires { at + 8 ≤ length bytes.old }
    ensures value { bytes.new ≡ put at (bytes_of 8 number) bytes.old }
    ensures length { length bytes.new ≡ length bytes.old }
{
    BigEndian::write_u64(&mut bytes[at..], number);
}
