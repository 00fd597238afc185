// What runs a line.
ghost use Rattle.std.specs.Prelude.{◌≡◌, ℕ, List};

/// What became of a line.
#[derive(Clone, Copy, Debug, PartialEq, Eq)]
pub enum LineOutcome {
    /// It has no reply.
    Silent,
    /// It was done.
    Done,
    /// It was refused.
    Refused,
    /// It was refused for want of memory.
    Memory,
}

/// What runs the lines of a script over a disk, one after the other.
pub trait LineRunner<D> {
    ghost use Rattle.script_loop.specs.declared.runner.LineOutcome.{LineOutcome};

    /// What a line of a number may come to: from a machine and a disk, to an outcome, a machine and a disk.
    ghost says: { Self → D → ℕ → List ℕ → LineOutcome → Self → D → Type 0 };

    /// The reply to the line that was run last, with its line end.
    ghost reply_of: { Self → List ℕ };

    /// Runs the line of a number, from 1, without its line end. Of a line of more than 200,000 bytes `text` is the first
    /// 200,001.
    fn line(&mut self, number: u64, text: &[u8], disk: &mut D) -> LineOutcome
        ensures says { says self.old disk.old number text.now result self.new disk.new };

    /// The reply to the line that was run last. It is given unless the line was silent.
    fn reply(&self) -> &[u8]
        ensures reply { result.now ≡ reply_of self.now };
}
