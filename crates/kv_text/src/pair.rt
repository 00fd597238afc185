// A key and its value.
ghost use Rattle.std.specs.Prelude.{◌≡◌};
ghost use Rattle.kv_text.specs.Text.{item_of};
ghost use Rattle.kv_text.specs.Shown.{shown};

use crate::split::split_once;

/// A key and its value, both lent from the text.
#[derive(Clone, Copy, Debug, PartialEq, Eq)]
pub struct Pair<'a> {
    pub key: &'a [u8],
    pub value: &'a [u8],
}

/// The pair on a line, or the line's number where it has no `=`.
pub fn read_line(line: &[u8], number: u32) -> Result<Pair<'_>, u32>
    ensures { shown result ≡ item_of number line.now }
{
    match split_once(line, b'=') {
        Some((key, value)) => Ok(Pair { key, value }),
        None => Err(number),
    }
}
