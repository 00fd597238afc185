// The value of one argument, from its word.
ghost use Rattle.std.specs.Prelude.{◌≡◌, ◌≤◌, IfSome};
ghost use Rattle.std.specs.Option.{option_map};
ghost use Rattle.script_lines.specs.Argument.{layout_value, id_of, set_id_of, number_in, description_of, layout_of};

use decimal_numbers::number;
use sd_names::{AllocKind, Format, Id};

/// An identifier, in either case.
pub fn read_id(word: &[u8]) -> Option<Id>
    ensures { option_map (λ id. id.0) result ≡ id_of word.now }
{
    let id = Id::read(word)?;
    id.has_sixteen_bytes();
    Some(id)
}

/// An identifier that isn't all zeros.
#[tactic(auto, unfolding(crate::specs::Argument::set_id_of))]
pub fn read_set_id(word: &[u8]) -> Option<Id>
    ensures { option_map (λ id. id.0) result ≡ set_id_of word.now }
{
    let id = read_id(word)?;
    if id.is_zero() { None } else { Some(id) }
}

/// A number from `low` to `high`.
#[tactic(auto, unfolding(crate::specs::Argument::number_in))]
pub fn read_number(word: &[u8], low: u64, high: u64) -> Option<u64>
    ensures value { result ≡ number_in low high word.now }
    ensures within { IfSome result (λ n. (low ≤ n) × (n ≤ high)) }
{
    let value = number(word)?;
    if value < low || value > high {
        return None;
    }
    Some(value)
}

/// A description of 1 to 200 bytes; `-` is the empty one.
#[tactic(auto, unfolding(crate::specs::Argument::description_of))]
pub fn read_description(word: &[u8]) -> Option<&[u8]>
    ensures { option_map (λ text. text.now) result ≡ description_of word.now }
{
    if word == b"-".as_slice() {
        return Some(&word[..0]);
    }
    if word.len() > 200 {
        return None;
    }
    Some(word)
}

/// Format and allocation.
#[tactic(auto, unfolding(crate::specs::Argument::layout_of))]
pub fn read_layout(format: &[u8], kind: &[u8]) -> Option<(Format, AllocKind)>
    ensures { option_map (λ of. layout_value of.0 of.1) result ≡ layout_of format.now kind.now }
{
    let is_sparse = kind == b"SPARSE".as_slice();
    if format == b"COW".as_slice() {
        return if is_sparse {
            Some((Format::Cow, AllocKind::Sparse))
        } else {
            None
        };
    }
    if format != b"RAW".as_slice() {
        return None;
    }
    if is_sparse {
        return Some((Format::Raw, AllocKind::Sparse));
    }
    if kind == b"PREALLOCATED".as_slice() {
        return Some((Format::Raw, AllocKind::Preallocated));
    }
    None
}
