// Text pushed behind text, into room that was reserved: none of these takes memory.
ghost use Rattle.std.specs.Prelude.{◌≡◌, ◌+◌, ◌≤◌, ◌++◌, length, vec_capacity, decimal};
ghost use Rattle.sd_names.specs.Id.{id_text};

use crate::Id;
use itoa::Buffer;

/// Pushes bytes into reserved room.
pub fn push_all(text: &mut Vec<u8>, bytes: &[u8])
    requires room { length text.old.items + length bytes.now ≤ vec_capacity text.old }
    ensures items { text.new.items ≡ text.old.items ++ bytes.now }
    ensures len { length text.new.items ≡ length text.old.items + length bytes.now }
    ensures capacity { vec_capacity text.old ≤ vec_capacity text.new }
{
    text.extend_from_slice(bytes).unwrap()
}

/// Pushes the decimal digits of a number, without leading zeros, into reserved room: at most 20 bytes.
pub fn push_number(text: &mut Vec<u8>, number: u64)
    requires room { length text.old.items + 20 ≤ vec_capacity text.old }
    ensures items { text.new.items ≡ text.old.items ++ decimal number }
    ensures len { length text.new.items ≤ length text.old.items + 20 }
    ensures capacity { vec_capacity text.old ≤ vec_capacity text.new }
{
    let mut buffer = Buffer::new();
    push_all(text, buffer.format(number).as_bytes())
}

/// Pushes the 36 bytes of an identifier's text into reserved room.
pub fn push_id(text: &mut Vec<u8>, id: &Id)
    requires room { length text.old.items + 36 ≤ vec_capacity text.old }
    ensures items { text.new.items ≡ text.old.items ++ id_text id.now.0 }
    ensures len { length text.new.items ≡ length text.old.items + 36 }
    ensures capacity { vec_capacity text.old ≤ vec_capacity text.new }
{
    push_all(text, &id.text())
}
