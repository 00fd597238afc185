// Data as a reply prints it, by sectors of 512 bytes.
ghost use Rattle.std.specs.Prelude.{◌≡◌, ◌+◌, ◌-◌, ◌*◌, ◌/◌, ◌%◌, ◌<◌, ◌≤◌, ◌++◌, ◌==◌, length, drop, slice_index, vec_capacity};
ghost use Rattle.std.specs.List.{prefix_len};
ghost use Rattle.hex.specs.Hex.{encode_lower};
ghost use Rattle.script_lines.specs.Printed.{run, piece_text, printed, printed_behind};

use crate::places::place_of_other;
use hex::encode_to_slice;
use sd_names::{push_all, push_number};

/// The bytes of a sector.
const SECTOR: usize = 512;

/// Pushes data of whole sectors of 512 bytes, as a reply prints it, into reserved room. A longest run of sectors
/// that hold one byte alone is `N*BB`, N its bytes, each other sector is 1,024 lower-case hexadecimal digits, and a
/// `+` stands between two pieces.
pub fn push_data(text: &mut Vec<u8>, bytes: &[u8])
    requires whole { length bytes.now % 512 ≡ 0 }
    requires room { length text.old.items + 3 * length bytes.now ≤ vec_capacity text.old }
    ensures items { text.new.items ≡ text.old.items ++ printed bytes.now }
    ensures len { length text.new.items ≤ length text.old.items + 3 * length bytes.now }
    ensures capacity { vec_capacity text.old ≤ vec_capacity text.new }
{
    let mut rest = bytes;
    while !rest.is_empty() {
        let count = push_piece(text, rest);
        rest = &rest[count..];
        push_separator(text, rest);
    }
}

/// Pushes the first piece of data, and says how many bytes of the data it prints.
fn push_piece(text: &mut Vec<u8>, bytes: &[u8]) -> usize
    requires whole { length bytes.now % 512 ≡ 0 }
    requires some { 0 < length bytes.now }
    requires room { length text.old.items + 1024 ≤ vec_capacity text.old }
    ensures items { text.new.items ++ printed_behind (drop result bytes.now) ≡ text.old.items ++ printed bytes.now }
    ensures len { length text.new.items ≤ length text.old.items + 1024 }
    ensures some { 512 ≤ result }
    ensures within { result ≤ length bytes.now }
    ensures whole { (length bytes.now - result) % 512 ≡ 0 }
    ensures capacity { vec_capacity text.old ≤ vec_capacity text.new }
{
    let run = run_length(bytes);
    if run > 0 {
        push_run(text, run, bytes[0]);
        return run;
    }
    push_digits(text, &bytes[..SECTOR]);
    SECTOR
}

/// How many bytes the longest run of whole sectors has that hold the first byte alone.
fn run_length(bytes: &[u8]) -> usize
    requires { 0 < length bytes.now }
    ensures run { result ≡ 512 * (prefix_len (λ byte. byte == slice_index bytes.now 0) bytes.now / 512) }
    ensures within { result ≤ length bytes.now }
{
    let same = same_bytes(bytes);
    same / SECTOR * SECTOR
}

/// How many bytes from the front on are the first one.
fn same_bytes(bytes: &[u8]) -> usize
    requires { 0 < length bytes.now }
    ensures count { result ≡ prefix_len (λ byte. byte == slice_index bytes.now 0) bytes.now }
    ensures within { result ≤ length bytes.now }
{
    match place_of_other(bytes, bytes[0]) {
        Some(place) => place,
        None => bytes.len(),
    }
}

/// Pushes a run of so many bytes of one value.
fn push_run(text: &mut Vec<u8>, count: usize, byte: u8)
    requires { length text.old.items + 23 ≤ vec_capacity text.old }
    ensures items { text.new.items ≡ text.old.items ++ piece_text (run count byte) }
    ensures len { length text.new.items ≤ length text.old.items + 23 }
    ensures capacity { vec_capacity text.old ≤ vec_capacity text.new }
{
    push_number(text, count as u64);
    push_all(text, b"*");
    let mut digits = [0; 2];
    encode_to_slice([byte].as_slice(), &mut digits).unwrap();
    push_all(text, &digits);
}

/// Pushes the digits of a sector.
fn push_digits(text: &mut Vec<u8>, sector: &[u8])
    requires whole { length sector.now ≡ 512 }
    requires room { length text.old.items + 1024 ≤ vec_capacity text.old }
    ensures items { text.new.items ≡ text.old.items ++ encode_lower sector.now }
    ensures len { length text.new.items ≡ length text.old.items + 1024 }
    ensures capacity { vec_capacity text.old ≤ vec_capacity text.new }
{
    let mut digits = [0; 1024];
    encode_to_slice(sector, &mut digits).unwrap();
    push_all(text, &digits);
}

/// Pushes a `+` where there is more data to print.
fn push_separator(text: &mut Vec<u8>, rest: &[u8])
    requires { length text.old.items + 1 ≤ vec_capacity text.old }
    ensures items { text.new.items ++ printed rest.now ≡ text.old.items ++ printed_behind rest.now }
    ensures len { length text.new.items ≤ length text.old.items + 1 }
    ensures capacity { vec_capacity text.old ≤ vec_capacity text.new }
{
    if !rest.is_empty() {
        push_all(text, b"+");
    }
}
