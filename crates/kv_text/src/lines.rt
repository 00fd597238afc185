// The lines of a text, one pair after the other.
ghost use Rattle.std.specs.Prelude.{◌≡◌, false};
ghost use Rattle.std.specs.Iterator.{item_count};
ghost use Rattle.kv_text.specs.Text.{items, has_eof};
ghost use Rattle.kv_text.specs.Next.{IsNext};

use crate::pair::{Pair, read_line};
use crate::split::first_line;
use std::marker::Model;

/// The pairs of a text, in the order of its lines. A contract sees what is still to come.
#[derive(Debug, Drop)]
pub struct Lines<'a> {
    rest: &'a [u8],
    number: u32,
    ended: bool,
}

impl<'a> Model for Lines<'a> {
    ghost use Rattle.kv_text.specs.Left.{Left, left_of};

    ghost Value = { Left };

    ghost view = { λ l. left_of l.rest.now l.number l.ended };
}

impl<'a> Lines<'a> {
    /// A reader of this text, from its first line on. Lines are numbered from 1.
    pub fn new(text: &'a [u8]) -> Lines<'a>
        ensures items { result.items ≡ items text.now }
        ensures closed { result.closed ≡ has_eof text.now }
        ensures ended { result.ended ≡ false }
    {
        Lines {
            rest: text,
            number: 1,
            ended: false,
        }
    }

    /// Whether a line `EOF` was met.
    pub fn ended(&self) -> bool
        ensures { result ≡ self.now.ended }
    {
        self.ended
    }
}

impl<'a> Iterator for Lines<'a> {
    type Item = Result<Pair<'a>, u32>;

    ghost next_gives = { IsNext };

    ghost remaining = { item_count (λ l. l.items) };

    /// The next pair, whose slices are parts of the text, or the number of the next line that is neither
    /// empty nor a pair. `None` at the end of the text and at a line `EOF`, behind which nothing is read.
    /// Numbers stay at 2^32 - 1.
    fn next(&mut self) -> Option<Result<Pair<'a>, u32>> {
        while !self.rest.is_empty() {
            let (line, rest) = first_line(self.rest);
            let number = self.number;
            self.rest = rest;
            self.number = number.saturating_add(1);
            if line == b"EOF".as_slice() {
                self.rest = &[];
                self.ended = true;
                return None;
            }
            if !line.is_empty() {
                return Some(read_line(line, number));
            }
        }
        None
    }
}
