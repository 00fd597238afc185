// What the values of a volume's keys mean.
ghost use Rattle.std.specs.Prelude.{◌≡◌, ◌≤◌, length, IfSome};
ghost use Rattle.std.specs.Option.{option_map};
ghost use Rattle.volume_meta.specs.Values.{capacity_of, size_of, generation_of, disk_type_of, format_of, legality_of, kind_of, voltype_of, merged_of};
ghost use Rattle.volume_meta.specs.Valid.{IsCapacity, MayBeMerged};

use decimal_numbers::number;
use sd_names::{AllocKind, Format, Legality, VolType};

// The most bytes of a capacity, 1 TiB.
const MOST_CAPACITY: u64 = 1 << 40;

// The most blocks of 512 bytes of a capacity.
const MOST_BLOCKS: u64 = 1 << 31;

#[tactic(auto, unfolding(crate::specs::Values::capacity_of))]
pub fn capacity(value: &[u8]) -> Option<u64>
    ensures value { result ≡ capacity_of value.now }
    ensures valid { IfSome result IsCapacity }
{
    let bytes = number(value)?;
    if bytes % 512 == 0 && bytes >= 512 && bytes <= MOST_CAPACITY {
        Some(bytes)
    } else {
        None
    }
}

#[tactic(auto, unfolding(crate::specs::Values::size_of))]
pub fn size(value: &[u8]) -> Option<u64>
    ensures value { result ≡ size_of value.now }
    ensures valid { IfSome result IsCapacity }
{
    let blocks = number(value)?;
    if blocks >= 1 && blocks <= MOST_BLOCKS {
        Some(blocks * 512)
    } else {
        None
    }
}

#[tactic(auto, unfolding(crate::specs::Values::generation_of))]
pub fn generation(value: &[u8]) -> Option<u16>
    ensures value { result ≡ generation_of value.now }
    ensures valid { IfSome result (λ n. n ≤ 999) }
{
    let number = number(value)?;
    if number <= 999 {
        Some(number as u16)
    } else {
        None
    }
}

#[tactic(auto, unfolding(crate::specs::Values::disk_type_of))]
pub fn disk_type(value: &[u8]) -> Option<&[u8]>
    ensures value { option_map (λ bytes. bytes.now) result ≡ disk_type_of value.now }
    ensures short { IfSome result (λ bytes. length bytes.now ≤ 16) }
    ensures some { IfSome result (λ bytes. 1 ≤ length bytes.now) }
    ensures same { IfSome result (λ bytes. bytes.now ≡ value.now) }
{
    if value.len() >= 1 && value.len() <= 16 {
        Some(value)
    } else {
        None
    }
}

#[tactic(auto, unfolding(crate::specs::Values::format_of))]
pub fn format(value: &[u8]) -> Option<Format>
    ensures { result ≡ format_of value.now }
{
    if value == b"RAW".as_slice() {
        Some(Format::Raw)
    } else if value == b"COW".as_slice() {
        Some(Format::Cow)
    } else {
        None
    }
}

#[tactic(auto, unfolding(crate::specs::Values::legality_of))]
pub fn legality(value: &[u8]) -> Option<Legality>
    ensures { result ≡ legality_of value.now }
{
    if value == b"LEGAL".as_slice() {
        Some(Legality::Legal)
    } else if value == b"ILLEGAL".as_slice() {
        Some(Legality::Illegal)
    } else {
        None
    }
}

#[tactic(auto, unfolding(crate::specs::Values::kind_of))]
pub fn kind(value: &[u8]) -> Option<AllocKind>
    ensures { result ≡ kind_of value.now }
{
    if value == b"SPARSE".as_slice() {
        Some(AllocKind::Sparse)
    } else if value == b"PREALLOCATED".as_slice() {
        Some(AllocKind::Preallocated)
    } else {
        None
    }
}

#[tactic(auto, unfolding(crate::specs::Values::voltype_of))]
pub fn voltype(value: &[u8]) -> Option<VolType>
    ensures { result ≡ voltype_of value.now }
{
    if value == b"LEAF".as_slice() {
        Some(VolType::Leaf)
    } else if value == b"INTERNAL".as_slice() {
        Some(VolType::Internal)
    } else {
        None
    }
}

#[tactic(auto, unfolding(crate::specs::Values::merged_of))]
pub fn merged(legality: Legality, value: &[u8]) -> Option<bool>
    ensures value { result ≡ merged_of legality value.now }
    ensures valid { IfSome result (MayBeMerged legality) }
{
    match legality {
        Legality::Legal => None,
        Legality::Illegal => {
            if value == b"TRUE".as_slice() {
                Some(true)
            } else {
                None
            }
        }
    }
}
