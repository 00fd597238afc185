//! Blocks of bytes of a fixed length that are written part by part, from the front on.
#![tactic(auto)]

ghost use Rattle.std.specs.Prelude.{◌≡◌, ◌+◌, ◌≤◌, ◌++◌, length, take, drop};
ghost use Rattle.byte_parts.specs.Puts.{Puts};

/// Writes a part into a block, in bytes from its front; what stands before it and behind it stays.
pub fn put(block: &mut [u8], at: usize, part: &[u8])
    requires { at + length part.now ≤ length block.old }
    ensures whole { block.new ≡ take at block.old ++ part.now ++ drop (at + length part.now) block.old }
    ensures part { Puts at part.now block.old block.new }
    ensures length { length block.new ≡ length block.old }
{
    block[at..at + part.len()].copy_from_slice(part);
}

#[cfg(test)]
mod tests;
