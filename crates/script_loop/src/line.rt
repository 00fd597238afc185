// A line of the script as it comes in.
ghost use Rattle.std.specs.Prelude.{◌≡◌, ◌≤◌, ◌++◌, ◌∷◌, MatchOption, vec_len, vec_capacity};
ghost use Rattle.script_loop.specs.Lines.{HasNoLf};

use sd_names::{NoMemory, push_all};
use std::alloc::Global;

/// The most bytes of a line that are kept: one more than a line may have, so that a longer one can be told.
const LINE_ROOM: usize = 200_001;

/// A line as far as it has come: its first 200,001 bytes.
#[derive(Drop)]
pub struct Line {
    bytes: Vec<u8>,
    ghost kept: { vec_len bytes ≤ 200001 },
    ghost reserved: { 200001 ≤ vec_capacity bytes },
}

impl Line {
    ghost use Rattle.std.specs.Prelude.{◌≡◌, ◌<◌, ◌++◌, [], List, ℕ, length, IfOk, MatchBool};
    ghost use Rattle.script_loop.specs.Line.{Holds};
    ghost use Rattle.script_loop.specs.Run.{handed};

    /// An empty line, with the room that it will need.
    pub fn new(alloc: Global) -> Result<Line, NoMemory>
        ensures { IfOk result (λ line. Holds line []) }
    {
        match Vec::with_capacity(alloc, LINE_ROOM) {
            Ok(bytes) => Ok(Line { bytes }),
            Err(_) => Err(NoMemory),
        }
    }

    /// More of the line has come.
    pub fn push(&mut self, piece: &[u8])
        ensures { (line : List ℕ) → Holds self.old line → Holds self.new (line ++ piece.now) }
    {
        let space = LINE_ROOM - self.bytes.len();
        push_all(&mut self.bytes, &piece[..piece.len().min(space)]);
    }

    /// The next line begins.
    pub fn clear(&mut self)
        ensures { Holds self.new [] }
    {
        self.bytes.clear();
    }

    /// What has come of the line, up to 200,001 bytes.
    pub fn text(&self) -> &[u8]
        ensures { (line : List ℕ) → Holds self.now line → result.now ≡ handed line }
    {
        &self.bytes
    }

    /// Whether nothing has come of the line.
    pub fn is_empty(&self) -> bool
        ensures { (line : List ℕ) → Holds self.now line → MatchBool result (line ≡ []) (0 < length line) }
    {
        match self.bytes.first() {
            Some(_) => false,
            None => true,
        }
    }
}

/// The first line of some bytes that is ended by an LF, and what follows that LF.
pub fn split_line(bytes: &[u8]) -> Option<(&[u8], &[u8])>
    ensures line { MatchOption result
        (HasNoLf bytes.now)
        (λ parts. (bytes.now ≡ parts.0.now ++ 10 ∷ parts.1.now) × HasNoLf parts.0.now) }
{
    let end = bytes.iter().position(|byte| *byte == b'\n')?;
    Some((&bytes[..end], &bytes[end + 1..]))
}
