// How many lines there were, and how many of them were refused.
ghost use Rattle.std.specs.Prelude.{◌≡◌, ◌≤◌};

use crate::{LineOutcome, Status};

/// How many lines there were, how many of them were refused, and how many for want of memory.
#[derive(Drop)]
pub struct Tally {
    pub lines: u64,
    pub refused: u64,
    pub short: u64,
    ghost refused_few: { refused ≤ lines },
    ghost short_few: { short ≤ lines },
}

impl Tally {
    ghost use Rattle.std.specs.Prelude.{◌≡◌, ◌+◌, ◌<◌, ◌^◌, []};
    ghost use Rattle.script_loop.specs.Ends.{status_of};
    ghost use Rattle.script_loop.specs.Progress.{Counted, CountsOne};

    /// No lines.
    pub fn new() -> Tally
        ensures { Counted result 0 [] }
    {
        Tally {
            lines: 0,
            refused: 0,
            short: 0,
        }
    }

    /// One more line.
    pub fn count(&mut self, outcome: LineOutcome)
        requires { self.old.lines + 1 < 2 ^ 64 }
        ensures { CountsOne self.old outcome self.new }
    {
        self.lines += 1;
        match outcome {
            LineOutcome::Silent | LineOutcome::Done => {}
            LineOutcome::Refused => self.refused += 1,
            LineOutcome::Memory => {
                self.refused += 1;
                self.short += 1;
            }
        }
    }

    /// The status at the end of the input.
    pub fn status(&self) -> Status
        ensures { result ≡ status_of self.now.refused self.now.short }
    {
        if self.short > 0 {
            Status::Memory
        } else if self.refused > 0 {
            Status::Refused
        } else {
            Status::Done
        }
    }
}
