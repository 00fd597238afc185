// A slice that is cut at a byte.
ghost use Rattle.std.specs.Prelude.{◌≡◌, ◌==◌, IsSome, IfSome, OnSome, IfNone, is_some};
ghost use Rattle.std.specs.List.{before_first, after_first, position};
ghost use Rattle.kv_text.specs.Text.{is_line_feed};

// The first place of a byte.
fn position_of(bytes: &[u8], byte: u8) -> Option<usize>
    ensures { result ≡ position (λ b. b == byte) bytes.now }
{
    bytes.iter().position(|b| *b == byte)
}

/// What stands before the first `delimiter` and what stands behind it, where there is one.
pub fn split_once(bytes: &[u8], delimiter: u8) -> Option<(&[u8], &[u8])>
    ensures found { is_some result ≡ is_some (position (λ b. b == delimiter) bytes.now) }
    ensures before { IfSome result (λ parts. parts.0.now ≡ before_first (λ b. b == delimiter) bytes.now) }
    ensures after { IfSome result (λ parts. parts.1.now ≡ after_first (λ b. b == delimiter) bytes.now) }
{
    let at = position_of(bytes, delimiter)?;
    Some((&bytes[..at], &bytes[at + 1..]))
}

/// The first line of a text, and what stands behind its line feed.
pub fn first_line(text: &[u8]) -> (&[u8], &[u8])
    ensures line { result.0.now ≡ before_first is_line_feed text.now }
    ensures rest { result.1.now ≡ after_first is_line_feed text.now }
{
    match split_once(text, b'\n') {
        Some((line, rest)) => (line, rest),
        None => (text, &[]),
    }
}
