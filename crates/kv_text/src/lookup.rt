// What a text says as a whole.
ghost use Rattle.std.specs.Prelude.{◌≡◌, IfSome};
ghost use Rattle.std.specs.Option.{option_map};
ghost use Rattle.kv_text.specs.Text.{IsOneLine, items, pairs, has_eof};
ghost use Rattle.kv_text.specs.Lookup.{value_of, first_bad_line};

use crate::lines::Lines;

/// The value of a key, lent from the text: the value of the last pair that has the key.
/// It has no line feed.
pub fn value_of<'a>(text: &'a [u8], key: &[u8]) -> Option<&'a [u8]>
    ensures value { option_map (λ value. value.now) result ≡ value_of key.now (pairs text.now) }
    ensures one_line { IfSome result (λ value. IsOneLine value.now) }
{
    let mut found = None;
    for item in Lines::new(text) {
        if let Ok(pair) = item {
            if pair.key == key {
                found = Some(pair.value);
            }
        }
    }
    found
}

/// The number of the first line that is neither empty nor a pair, before a line `EOF`.
pub fn first_bad_line(text: &[u8]) -> Option<u32>
    ensures { result ≡ first_bad_line (items text.now) }
{
    for item in Lines::new(text) {
        if let Err(number) = item {
            return Some(number);
        }
    }
    None
}

/// Whether a text has a line `EOF`.
pub fn has_eof(text: &[u8]) -> bool
    ensures { result ≡ has_eof text.now }
{
    let mut lines = Lines::new(text);
    while let Some(_) = lines.next() {}
    lines.ended()
}
