// Giving a text to a sink.
ghost use Rattle.std.specs.Prelude.{◌≡◌, ◌≤◌, List, ℕ, Some, MatchResult};
ghost use Rattle.script_loop.specs.Stream.{Faults, Gave, IsCut};

use crate::Sink;
use sd_names::Failed;

/// Gives a whole text to a sink, in as many writes as it takes, up to the first that fails: then the sink has a front of the
/// text that lacks at least one byte.
pub fn give<K: Sink>(text: &[u8], sink: &mut K) -> Result<(), Failed>
    ensures faults { Faults (K.faults sink.old) (K.faults sink.new) result }
    ensures given { MatchResult result (λ _. Gave (K.given sink.old) (K.given sink.new) text.now) (λ _. IsCut (K.given sink.old) (K.given sink.new) text.now) }
{
    let mut rest = text;
    while !rest.is_empty() {
        match sink.write(rest) {
            Ok(count) => rest = &rest[count..],
            Err(failed) => return Err(failed),
        }
    }
    Ok(())
}
