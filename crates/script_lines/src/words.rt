// The words of a line, taken from its front one after the other.
ghost use Rattle.std.specs.Prelude.{◌≡◌, ◌<◌, [], ◌∷◌, length, IfSome, MatchOption};
ghost use Rattle.std.specs.List.{position_or_len};
ghost use Rattle.script_lines.specs.Words.{is_space, words};

use crate::places::{place_of, place_of_other};

/// The first word of a line and what follows it, if the line has a word. Words are separated by one or more
/// spaces; spaces around are passed over.
pub fn take_word(line: &[u8]) -> Option<(&[u8], &[u8])>
    ensures word { MatchOption result
        (words line.now ≡ [])
        (λ parts. words line.now ≡ parts.0.now ∷ words parts.1.now) }
    ensures shorter { IfSome result (λ parts. length parts.1.now < length line.now) }
{
    match place_of_other(line, b' ') {
        Some(start) => Some(split_word(&line[start..])),
        None => None,
    }
}

/// A word at the front of a line, and what follows it.
fn split_word(line: &[u8]) -> (&[u8], &[u8])
    requires { 0 < position_or_len is_space line.now }
    ensures word { words line.now ≡ result.0.now ∷ words result.1.now }
    ensures shorter { length result.1.now < length line.now }
{
    match place_of(line, b' ') {
        Some(end) => line.split_at(end),
        None => (line, &line[line.len()..]),
    }
}
