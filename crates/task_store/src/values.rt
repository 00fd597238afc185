// The values of a step: a capacity, and the word of a description.
ghost use Rattle.std.specs.Prelude.{◌≡◌, IfSome};
ghost use Rattle.std.specs.Option.{option_map};
ghost use Rattle.task_store.specs.Values.{IsCapacity, IsDescription, capacity_of, description_of, is_printed};

use decimal_numbers::number;
use itoa::Buffer;

// The most bytes of a capacity, 1 TiB.
const MOST_CAPACITY: u64 = 1 << 40;

/// The capacity of a word, in digits without zeros in front.
#[tactic(auto, unfolding(crate::specs::Values::capacity_of))]
pub fn read_capacity(word: &[u8]) -> Option<u64>
    ensures value { result ≡ capacity_of word.now }
    ensures valid { IfSome result IsCapacity }
{
    let bytes = number(word)?;
    let mut digits = Buffer::new();
    let is_plain = word == digits.format(bytes).as_bytes();
    if bytes % 512 == 0 && bytes >= 512 && bytes <= MOST_CAPACITY && is_plain {
        Some(bytes)
    } else {
        None
    }
}

// Whether a script line can have this word.
fn is_printed(word: &[u8]) -> bool
    ensures { result ≡ is_printed word.now }
{
    word.iter().all(|byte| byte.is_ascii_graphic())
}

/// The word of a description, of 1 to 200 bytes that a script line can have.
#[tactic(auto, unfolding(crate::specs::Values::description_of))]
pub fn read_description(word: &[u8]) -> Option<&[u8]>
    ensures value { option_map (λ lent. lent.now) result ≡ description_of word.now }
    ensures valid { IfSome result (λ lent. IsDescription lent.now) }
{
    if word.len() >= 1 && word.len() <= 200 && is_printed(word) {
        Some(word)
    } else {
        None
    }
}
