// Where a byte stands in a text.
ghost use Rattle.std.specs.Prelude.{◌≡◌, ◌<◌, ◌==◌, not, length, position, IfSome};

/// Where a byte stands first.
pub fn place_of(text: &[u8], byte: u8) -> Option<usize>
    ensures place { result ≡ position (λ b. b == byte) text.now }
    ensures within { IfSome result (λ place. place < length text.now) }
{
    text.iter().position(|b| *b == byte)
}

/// Where the first byte stands that is another one.
pub fn place_of_other(text: &[u8], byte: u8) -> Option<usize>
    ensures place { result ≡ position (λ b. not (b == byte)) text.now }
    ensures within { IfSome result (λ place. place < length text.now) }
{
    text.iter().position(|b| *b != byte)
}
