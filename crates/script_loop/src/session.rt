// The lines of a script, run one after the other, and their replies given.
ghost use Rattle.std.specs.Prelude.{◌≡◌};
ghost use Rattle.script_loop.specs.Run.{text_for};

use crate::give::give;
use crate::line::{Line, split_line};
use crate::tally::Tally;
use crate::{LineOutcome, LineRunner, Sink, Source};
use sd_names::Failed;

/// The line that is coming in, what the lines before it came to, how many bytes were read, and of how many the lines that an
/// LF ended have run and their replies were given.
#[derive(Drop)]
pub struct Session {
    pub line: Line,
    pub tally: Tally,
    pub taken: usize,
    pub answered: usize,
}

impl Session {
    ghost use Rattle.std.specs.Prelude.{◌≡◌, ◌+◌, ◌-◌, ◌<◌, ◌≤◌, ◌^◌, ◌++◌, ◌∷◌, min, ℕ, List, [], Option, take, length, IfOk, MatchResult};
    ghost use Rattle.script_loop.specs.Ends.{IsBroken, RanAll, most_input};
    ghost use Rattle.script_loop.specs.Line.{Holds};
    ghost use Rattle.script_loop.specs.Progress.{Counted, CountsOne, Progress};
    ghost use Rattle.script_loop.specs.Run.{RunsLine, handed};
    ghost use Rattle.script_loop.specs.Stream.{Faults, Gave, IsCut, IsSpent, Took};
    ghost use Rattle.script_loop.specs.declared.runner.LineOutcome.{LineOutcome};

    /// A script before its first line, with room for a line.
    pub fn new(line: Line) -> Session
        ensures taken { result.taken ≡ 0 }
        ensures answered { result.answered ≡ 0 }
        ensures empty { Holds result.line [] }
        ensures counted { Counted result.tally 0 [] }
    {
        let mut line = line;
        line.clear();
        Session {
            line,
            tally: Tally::new(),
            taken: 0,
            answered: 0,
        }
    }

    /// Reads the next bytes of the script to the front of the piece: at most up to one byte past the bound. It is called only
    /// where the lines of all that was read have run and their replies were given. None are read at the end alone.
    pub fn read<S: Source>(&self, source: &mut S, piece: &mut [u8]) -> Result<usize, Failed>
        requires settled { self.now.taken ≡ self.now.answered }
        requires within { self.now.taken ≤ most_input }
        requires room { 0 < length piece.old }
        ensures room { length piece.new ≡ length piece.old }
        ensures bound { IfOk result (λ count. count ≤ length piece.old) }
        ensures most { IfOk result (λ count. self.now.taken + count ≤ most_input + 1) }
        ensures faults { Faults (S.faults source.old) (S.faults source.new) result }
        ensures took { MatchResult result (λ count. Took (S.left source.old) (S.left source.new) (take count piece.new)) (λ _. Took (S.left source.old) (S.left source.new) []) }
        ensures end { IfOk result (λ count. count ≡ 0 → IsSpent (S.left source.old) (S.left source.new)) }
    {
        let size = piece.len().min(MAX_INPUT + 1 - self.taken);
        let (front, _) = piece.split_at_mut(size);
        match source.read(front) {
            Ok(count) => Ok(count),
            Err(failed) => Err(failed),
        }
    }

    // Runs the line that has come.
    fn run_line<D, L: LineRunner<D>>(&mut self, runner: &mut L, disk: &mut D) -> LineOutcome
        requires few { self.old.tally.lines + 1 < 2 ^ 64 }
        ensures counts { CountsOne self.old.tally result self.new.tally }
        ensures cleared { Holds self.new.line [] }
        ensures taken { self.new.taken ≡ self.old.taken }
        ensures answered { self.new.answered ≡ self.old.answered }
        ensures says { (line : List ℕ) → Holds self.old.line line → L.says runner.old disk.old (self.old.tally.lines + 1) (handed line) result runner.new disk.new }
    {
        let number = self.tally.lines + 1;
        let outcome = runner.line(number, self.line.text(), disk);
        self.tally.count(outcome);
        self.line.clear();
        outcome
    }

    /// Runs the line that has come, and gives its reply, if it has one.
    fn end_line<D, L: LineRunner<D>, K: Sink>(
        &mut self,
        runner: &mut L,
        disk: &mut D,
        sink: &mut K,
    ) -> Result<(), Failed>
        requires few { self.old.tally.lines + 1 < 2 ^ 64 }
        ensures number { self.new.tally.lines ≡ self.old.tally.lines + 1 }
        ensures cleared { Holds self.new.line [] }
        ensures taken { self.new.taken ≡ self.old.taken }
        ensures answered { self.new.answered ≡ self.old.answered }
        ensures faults { Faults (K.faults sink.old) (K.faults sink.new) result }
        ensures ran { (line : List ℕ) → Holds self.old.line line → (outcome : LineOutcome) × (reply : List ℕ)
            × RunsLine L.says L.reply_of (self.old.tally.lines + 1) runner.old disk.old line outcome reply runner.new disk.new
            × CountsOne self.old.tally outcome self.new.tally
            × MatchResult result (λ _. Gave (K.given sink.old) (K.given sink.new) reply) (λ _. IsCut (K.given sink.old) (K.given sink.new) reply) }
    {
        let outcome = self.run_line(runner, disk);
        give(reply_for(outcome, runner), sink)
    }

    /// Takes the next bytes of the script: runs each line that they end, and gives its reply before it goes on.
    pub fn feed<D, L: LineRunner<D>, K: Sink>(
        &mut self,
        piece: &[u8],
        runner: &mut L,
        disk: &mut D,
        sink: &mut K,
    ) -> Result<(), Failed>
        requires few { self.old.tally.lines + length piece.now < 2 ^ 63 }
        requires fits { self.old.answered + length piece.now < 2 ^ 63 }
        ensures number { self.new.tally.lines ≤ self.old.tally.lines + length piece.now }
        ensures taken { self.new.taken ≡ self.old.taken }
        ensures answered { IfOk result (λ _. self.new.answered ≡ self.old.answered + length piece.now) }
        ensures faults { Faults (K.faults sink.old) (K.faults sink.new) result }
        ensures fed { (m : L) (d : D) (bytes : List ℕ) (given : Option (List ℕ))
            → Progress L.says L.reply_of m d bytes given (K.given sink.old) self.old.line self.old.tally runner.old disk.old
            → MatchResult result
            (λ _. Progress L.says L.reply_of m d (bytes ++ piece.now) given (K.given sink.new) self.new.line self.new.tally runner.new disk.new)
            (λ _. (next : List ℕ) × IsBroken L.says L.reply_of m d (10 ∷ next) (bytes ++ piece.now) given (K.given sink.new) self.new.tally.refused runner.new disk.new) }
    {
        let mut rest = piece;
        while let Some((first, next)) = split_line(rest) {
            self.line.push(first);
            match self.end_line(runner, disk, sink) {
                Ok(()) => rest = next,
                Err(failed) => return Err(failed),
            }
        }
        self.line.push(rest);
        self.answered += piece.len();
        Ok(())
    }

    /// Runs the last line, which no LF ends, if it has any bytes.
    pub fn finish<D, L: LineRunner<D>, K: Sink>(
        &mut self,
        runner: &mut L,
        disk: &mut D,
        sink: &mut K,
    ) -> Result<(), Failed>
        requires few { self.old.tally.lines + 1 < 2 ^ 64 }
        ensures faults { Faults (K.faults sink.old) (K.faults sink.new) result }
        ensures finished { (m : L) (d : D) (bytes : List ℕ) (given : Option (List ℕ))
            → Progress L.says L.reply_of m d bytes given (K.given sink.old) self.old.line self.old.tally runner.old disk.old
            → MatchResult result
            (λ _. RanAll L.says L.reply_of m d bytes given (K.given sink.new) self.new.tally.refused self.new.tally.short runner.new disk.new)
            (λ _. IsBroken L.says L.reply_of m d [] bytes given (K.given sink.new) self.new.tally.refused runner.new disk.new) }
    {
        if self.line.is_empty() {
            return Ok(());
        }
        match self.end_line(runner, disk, sink) {
            Ok(()) => Ok(()),
            Err(failed) => Err(failed),
        }
    }
}

/// The most bytes of which lines are run: 64 MiB.
pub const MAX_INPUT: usize = 67_108_864;

/// What is given for a line that has just been run.
fn reply_for<D, L: LineRunner<D>>(outcome: LineOutcome, runner: &L) -> &[u8]
    ensures { result.now ≡ text_for outcome (L.reply_of runner.now) }
{
    match outcome {
        LineOutcome::Silent => &[],
        LineOutcome::Done | LineOutcome::Refused | LineOutcome::Memory => runner.reply(),
    }
}
