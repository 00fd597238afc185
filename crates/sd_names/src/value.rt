// The values that a refusal prints, and their text.
ghost use Rattle.std.specs.Prelude.{◌≡◌, ◌+◌, ◌≤◌, ◌∷◌, ◌++◌, length, decimal};
ghost use Rattle.hex.specs.Hex.{encode_lower};
ghost use Rattle.sd_names.specs.Id.{id_text};
ghost use Rattle.sd_names.specs.Value.{value_text, IsShort};

use crate::Id;
use crate::place::push_hyphenated;
use arrayvec::ArrayString;
use itoa::Buffer;
use std::str;

/// One value of a refusal.
#[derive(Clone, Copy, Debug)]
pub enum Value {
    /// A number, printed in decimal digits.
    Number(u64),
    /// An identifier, printed as its text.
    Identifier(Id),
    /// A word of at most 40 bytes, printed as it stands.
    Word(&'static str),
    /// A digest of SHA-1 (FIPS 180-4), printed as 40 lower-case hexadecimal digits.
    Digest([u8; 20]),
}

/// The values of a refusal, in order.
#[derive(Clone, Copy, Debug)]
pub enum Values {
    Zero,
    One(Value),
    Two(Value, Value),
    Three(Value, Value, Value),
}

/// Pushes a number's decimal digits.
pub fn push_digits(text: &mut ArrayString<160>, number: u64)
    requires room { length text.old.bytes + 20 ≤ 160 }
    ensures bytes { text.new.bytes ≡ text.old.bytes ++ decimal number }
    ensures len { length text.new.bytes ≤ length text.old.bytes + 20 }
{
    let mut buffer = Buffer::new();
    text.push_str(buffer.format(number))
}

/// Pushes a space and a word.
pub fn push_word(text: &mut ArrayString<160>, word: &str)
    requires room { length text.old.bytes + 1 + length word.now ≤ 160 }
    ensures bytes { text.new.bytes ≡ text.old.bytes ++ 32 ∷ word.now }
    ensures len { length text.new.bytes ≡ length text.old.bytes + 1 + length word.now }
{
    text.push_str(" ");
    text.push_str(word)
}

// Pushes the 40 digits of a digest.
fn push_digest(text: &mut ArrayString<160>, digest: &[u8; 20])
    requires room { length text.old.bytes + 40 ≤ 160 }
    ensures bytes { text.new.bytes ≡ text.old.bytes ++ encode_lower digest.now }
    ensures len { length text.new.bytes ≡ length text.old.bytes + 40 }
{
    let mut digits = [0; 40];
    hex::encode_to_slice(digest.as_slice(), &mut digits).unwrap();
    text.push_str(str::from_utf8(&digits).unwrap())
}

/// Pushes a space and a value.
pub fn push_value(text: &mut ArrayString<160>, value: Value)
    requires room { length text.old.bytes + 41 ≤ 160 }
    requires short { IsShort value }
    ensures bytes { text.new.bytes ≡ text.old.bytes ++ 32 ∷ value_text value }
    ensures len { length text.new.bytes ≤ length text.old.bytes + 41 }
{
    match value {
        Value::Number(number) => {
            text.push_str(" ");
            push_digits(text, number)
        }
        Value::Identifier(id) => {
            text.push_str(" ");
            push_hyphenated(text, &id)
        }
        Value::Word(word) => push_word(text, word),
        Value::Digest(digest) => {
            text.push_str(" ");
            push_digest(text, &digest)
        }
    }
}
