// Data text: bytes as a word of a script spells them.
ghost use Rattle.std.specs.Prelude.{◌≡◌, ◌<◌, ◌≤◌, [], ◌∷◌, length, take, IfSome, IfNone, MatchOption};
ghost use Rattle.std.specs.List.{slice_split};
ghost use Rattle.std.specs.Option.{option_map_or};
ghost use Rattle.decimal_numbers.specs.Number.{number_of};
ghost use Rattle.script_lines.specs.Data.{is_plus, byte_of, repeated, digits_of, part_of, data_of, DoesNotFit, LaysAt};

use crate::places::place_of;
use decimal_numbers::number;
use hex::decode_to_slice;

/// The most bytes that one piece of data text spells.
pub const MAX_DATA: usize = 65536;

/// Decodes data text into room for 65,536 bytes, and says how many bytes it spells, 1 to 65,536. Parts are
/// joined by `+`: `N*BB` is N bytes BB, N of 1 to 65,536, and another part is hexadecimal digits of either case,
/// two a byte. Where the word isn't data text the room holds any bytes.
pub fn decode(word: &[u8], into: &mut [u8]) -> Option<usize>
    requires { length into.old ≡ MAX_DATA }
    ensures decoded { MatchOption result
        (data_of word.now ≡ None)
        (λ count. data_of word.now ≡ Some (take count into.new)) }
    ensures bounds { IfSome result (λ count. (1 ≤ count) × (count ≤ MAX_DATA)) }
{
    let mut count = 0;
    let mut rest = word;
    'parts: loop {
        let (part, more) = split_part(rest);
        count = decode_part(part, into, count)?;
        match more {
            Some(next) => rest = next,
            None => return Some(count),
        }
    }
}

/// The part before the first `+` of a text, and what stands behind that `+`, if it has one.
fn split_part(text: &[u8]) -> (&[u8], Option<&[u8]>)
    ensures parts { slice_split is_plus text.now
        ≡ result.0.now ∷ option_map_or (λ more. slice_split is_plus more.now) result.1 [] }
    ensures shorter { IfSome result.1 (λ more. length more.now < length text.now) }
{
    match place_of(text, b'+') {
        Some(end) => (&text[..end], Some(&text[end + 1..])),
        None => (text, None),
    }
}

/// Lays the bytes of one part into the room from a place on, and says where they end. `None` where the part spells
/// no bytes, or more than there is room for.
fn decode_part(part: &[u8], into: &mut [u8], at: usize) -> Option<usize>
    requires { at ≤ length into.old }
    ensures refused { IfNone result (DoesNotFit (part_of part.now) (length into.old) at) }
    ensures laid { IfSome result (λ end. LaysAt (part_of part.now) into.old into.new at end) }
{
    match place_of(part, b'*') {
        Some(star) => decode_run(&part[..star], &part[star + 1..], into, at),
        None => decode_digits(part, into, at),
    }
}

/// Lays so many times a byte into the room, from a place on.
fn decode_run(count: &[u8], byte: &[u8], into: &mut [u8], at: usize) -> Option<usize>
    requires { at ≤ length into.old }
    ensures refused { IfNone result
        (DoesNotFit (repeated (number_of count.now) (byte_of byte.now)) (length into.old) at) }
    ensures laid { IfSome result
        (λ end. LaysAt (repeated (number_of count.now) (byte_of byte.now)) into.old into.new at end) }
{
    let count = number(count)?;
    let byte = decode_byte(byte)?;
    if count < 1 || count > 65536 {
        return None;
    }
    let count = count as usize;
    if count > into.len() - at {
        return None;
    }
    let end = at + count;
    into[at..end].fill(byte);
    Some(end)
}

/// Lays the bytes of hexadecimal digits into the room, from a place on.
fn decode_digits(part: &[u8], into: &mut [u8], at: usize) -> Option<usize>
    requires { at ≤ length into.old }
    ensures refused { IfNone result (DoesNotFit (digits_of part.now) (length into.old) at) }
    ensures laid { IfSome result (λ end. LaysAt (digits_of part.now) into.old into.new at end) }
{
    let count = part.len() / 2;
    if part.is_empty() || count > into.len() - at {
        return None;
    }
    let end = at + count;
    match decode_to_slice(part, &mut into[at..end]) {
        Ok(()) => Some(end),
        Err(_) => None,
    }
}

/// The byte of two hexadecimal digits.
fn decode_byte(digits: &[u8]) -> Option<u8>
    ensures { result ≡ byte_of digits.now }
{
    let mut byte = [0];
    match decode_to_slice(digits, &mut byte) {
        Ok(()) => Some(byte[0]),
        Err(_) => None,
    }
}
