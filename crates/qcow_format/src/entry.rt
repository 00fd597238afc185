// Entries of L1 and L2 tables.
ghost use Rattle.std.specs.Prelude.{◌≡◌, ℕ, ◌-◌, ◌^◌, ◌<◌, ◌≤◌, Ok};
ghost use Rattle.qcow_format.specs.Entry.{bits_between, offset_in, entry_in, table_in, word_of, HasPlace, IsOfVersion2};

use sd_names::LayerFault;

/// Bit 63 of an entry: the cluster's refcount is exactly one.
const COPIED: u64 = 1 << 63;

/// What an L2 entry says of its cluster (qcow2 specification, "Standard Cluster Descriptor"). A place is an
/// offset in the file, in bytes.
#[derive(Clone, Copy, Debug, PartialEq, Eq)]
pub enum Entry {
    /// The layer doesn't hold the cluster.
    Absent,
    /// The cluster reads as zeros. Where the place isn't 0, a cluster of the file is kept for it there.
    Zero(u64),
    /// The cluster stands at this place.
    Data(u64),
}

// The number that bits `low` to `high - 1` of a word make.
fn bits_of(word: u64, low: u32, high: u32) -> u64
    requires order { low ≤ high }
    requires narrow { high - low < 64 }
    requires within { low < 64 }
    ensures { result ≡ bits_between low high word }
{
    (word >> low) % (1 << (high - low))
}

// Bits 9 to 55 of a word: an offset in the file.
fn offset_of(word: u64) -> u64
    ensures value { result ≡ offset_in word }
    ensures low { result < 2 ^ 56 }
{
    bits_of(word, 9, 56) * 512
}

/// Reads the L2 entry that stands at the place `at` of the file, in a layer of version 2 or 3.
///
/// `Compressed(at)` comes for an entry with bit 62, and else `MixedBits(at)` for one with a reserved bit (in
/// version 2 bit 0 is one). Whether the offset is one of a cluster is for the caller, who knows the clusters.
pub fn entry_of(bits: u64, version: u32, at: u64) -> Result<Entry, LayerFault>
    ensures { result ≡ entry_in bits version at }
{
    if bits_of(bits, 62, 63) != 0 {
        return Err(LayerFault::Compressed(at));
    }
    let reads_as_zeros = bits_of(bits, 0, 1) != 0;
    if bits_of(bits, 1, 9) != 0 || bits_of(bits, 56, 62) != 0 || (reads_as_zeros && version != 3) {
        return Err(LayerFault::MixedBits(at));
    }
    let place = offset_of(bits);
    if reads_as_zeros {
        return Ok(Entry::Zero(place));
    }
    if place == 0 {
        return Ok(Entry::Absent);
    }
    Ok(Entry::Data(place))
}

/// The L2 entry's bits. An entry with a place has bit 63, and of the place bits 9 to 55.
pub fn entry_bits(entry: Entry) -> u64
    ensures { result ≡ word_of entry }
{
    match entry {
        Entry::Absent => 0,
        Entry::Zero(0) => 1,
        Entry::Zero(place) => COPIED + offset_of(place) + 1,
        Entry::Data(place) => COPIED + offset_of(place),
    }
}

/// The place of the L2 table that an L1 entry names, or None where it names none. The entry stands at the place
/// `at` of the file.
///
/// `MixedBits(at)` comes for an entry with a reserved bit, 0 to 8 or 56 to 62. Whether the offset is one of a
/// cluster is for the caller, who knows the clusters.
pub fn table_place(bits: u64, at: u64) -> Result<Option<u64>, LayerFault>
    ensures { result ≡ table_in bits at }
{
    if bits_of(bits, 0, 9) != 0 || bits_of(bits, 56, 63) != 0 {
        return Err(LayerFault::MixedBits(at));
    }
    let place = offset_of(bits);
    if place == 0 {
        return Ok(None);
    }
    Ok(Some(place))
}

/// A law: an entry that was written is read again. Version 2 has no entries that read as zeros.
pub fn entries_read_again()
    ensures version_3 { (e : Entry) (at : ℕ) → HasPlace e → entry_in (word_of e) 3 at ≡ Ok e }
    ensures version_2 { (e : Entry) (at : ℕ) → HasPlace e → IsOfVersion2 e → entry_in (word_of e) 2 at ≡ Ok e }
{}
