// The parts of a text between delimiters: its lines, and the words of a line.
ghost use Rattle.std.specs.Prelude.{◌≡◌, ◌↔◌, [], IsTrue};
ghost use Rattle.std.specs.List.{slice_split};
ghost use Rattle.std.specs.Option.{option_map};
ghost use Rattle.task_store.specs.Parts.{first_part, is_byte};

use kv_text::split_once;
use std::marker::Model;

/// The parts of a text that are still to come. A contract sees their list.
#[derive(Drop)]
pub struct Parts<'a> {
    rest: Option<&'a [u8]>,
    delimiter: u8,
}

impl<'a> Model for Parts<'a> {
    ghost use Rattle.std.specs.Prelude.{ℕ, List};

    ghost Value = { List (List ℕ) };

    ghost use Rattle.task_store.specs.Parts.{parts_left};

    ghost view = { λ p. parts_left p.delimiter p.rest };
}

impl<'a> Parts<'a> {
    /// The parts of a text, cut at each delimiter. They are one more than the delimiters.
    pub fn new(text: &'a [u8], delimiter: u8) -> Parts<'a>
        ensures { result ≡ slice_split (is_byte delimiter) text.now }
    {
        Parts {
            rest: Some(text),
            delimiter,
        }
    }

    /// The next part, if there is one.
    pub fn next(&mut self) -> Option<&'a [u8]>
        ensures { option_map (λ part. (part.now, self.new)) result ≡ first_part self.old }
    {
        let rest = self.rest?;
        match split_once(rest, self.delimiter) {
            Some((part, behind)) => {
                self.rest = Some(behind);
                Some(part)
            }
            None => {
                self.rest = None;
                Some(rest)
            }
        }
    }
}
