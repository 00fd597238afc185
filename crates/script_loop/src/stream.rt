// Where a script comes from, and where its replies go.
ghost use Rattle.std.specs.Prelude.{◌≡◌, ◌<◌, ◌≤◌, List, ℕ, Option, length, IfOk};
ghost use Rattle.script_loop.specs.Stream.{Reads, Writes, Counts};

use sd_names::Failed;

/// Where bytes come from.
pub trait Source {
    /// The bytes that are still to come, where the source tells them.
    ghost left: { Self → Option (List ℕ) };

    /// How often a read has failed. It never falls, and stands still at 2^64 - 1.
    ghost faults: { Self → ℕ };

    /// Moves the next bytes to the front of `into`, and answers how many they are. 0 for room that isn't empty is the end.
    /// It fails where the count of faults rose, and only there; then nothing was moved.
    fn read(&mut self, into: &mut [u8]) -> Result<usize, Failed>
        ensures bound { IfOk result (λ count. count ≤ length into.old) }
        ensures counts { Counts (faults self.old) (faults self.new) result }
        ensures moved { (before : List ℕ) → left self.old ≡ Some before
            → (after : List ℕ) × (left self.new ≡ Some after) × Reads before after into.new (length into.old) result };
}

/// Where bytes go.
pub trait Sink {
    /// The bytes that were given so far, where the sink tells them.
    ghost given: { Self → Option (List ℕ) };

    /// How often a write has failed. It never falls, and stands still at 2^64 - 1.
    ghost faults: { Self → ℕ };

    /// Takes bytes from the front of `piece`, and answers how many: at least one of a piece that isn't empty. It fails where
    /// the count of faults rose, and only there; then nothing was taken.
    fn write(&mut self, piece: &[u8]) -> Result<usize, Failed>
        ensures bound { IfOk result (λ count. count ≤ length piece.now) }
        ensures some { 0 < length piece.now → IfOk result (λ count. 0 < count) }
        ensures counts { Counts (faults self.old) (faults self.new) result }
        ensures taken { (before : List ℕ) → given self.old ≡ Some before
            → (after : List ℕ) × (given self.new ≡ Some after) × Writes before after piece.now result };
}
