// The checksum of a domain's text.
ghost use Rattle.std.specs.Prelude.{◌≡◌, ◌≤◌, length, map, take};
ghost use Rattle.std.specs.List.{concat};
ghost use Rattle.kv_text.specs.Text.{lines};
ghost use Rattle.sha1.specs.Sha1.{sha1};
ghost use Rattle.domain_meta.specs.Checksum.{is_covered, covered_of, in_order, checksum_of};

use kv_text::first_line;
use sha1::Sha1;

// Whether the checksum covers a line: any but an empty one and the checksum's own.
fn is_covered(line: &[u8]) -> bool
    ensures { result ≡ is_covered line.now }
{
    !line.is_empty() && !line.starts_with(b"_SHA_CKSUM=")
}

// The most lines that the checksum covers in a text of 8,192 bytes: each has a byte and its line feed.
const MOST_LINES: usize = 4096;

// The lines that the checksum covers, in the order of the text, and how many there are.
fn covered(text: &[u8]) -> ([&[u8]; MOST_LINES], usize)
    requires short { length text.now ≤ 8192 }
    ensures lines { map (λ line. line.now) (take result.1 result.0) ≡ covered_of (lines text.now) }
    ensures count { result.1 ≤ MOST_LINES }
{
    let mut found: [&[u8]; MOST_LINES] = [&text[..0]; MOST_LINES];
    let mut count = 0;
    let mut rest = text;
    while !rest.is_empty() {
        let (line, behind) = first_line(rest);
        if line == b"EOF".as_slice() {
            return (found, count);
        }
        rest = behind;
        if is_covered(line) {
            found[count] = line;
            count += 1;
        }
    }
    (found, count)
}

// The digest of lines, one after the other.
fn digest_of(lines: &[&[u8]]) -> [u8; 20]
    ensures { result ≡ sha1 (concat (map (λ line. line.now) lines.now)) }
{
    let mut hasher = Sha1::new();
    for line in lines {
        hasher.update(line);
    }
    hasher.finalize()
}

// The digest of lines in the order of their bytes, into which they are brought.
fn digest_in_order(lines: &mut [&[u8]]) -> [u8; 20]
    ensures { result ≡ sha1 (concat (in_order (map (λ line. line.now) lines.old))) }
{
    lines.sort_unstable();
    digest_of(lines)
}

/// The checksum that the lines of a text have. It takes no memory.
#[tactic(auto, unfolding(crate::specs::Checksum::checksum_of))]
pub fn checksum(text: &[u8]) -> [u8; 20]
    requires short { length text.now ≤ 8192 }
    ensures { result ≡ checksum_of text.now }
{
    let (mut lines, count) = covered(text);
    digest_in_order(&mut lines[..count])
}
