// Laws of lines and replies: what is written reads again.
ghost use Rattle.std.specs.Prelude.{◌≡◌, ◌<◌, ◌≤◌, ◌%◌, ℕ, List, Bool, Some, length, All};
ghost use Rattle.script_lines.specs.Data.{data_of};
ghost use Rattle.script_lines.specs.Printed.{printed};
ghost use Rattle.script_lines.specs.Said.{Event};
ghost use Rattle.script_lines.specs.Event.{event_of};
ghost use Rattle.script_lines.specs.Spelled.{event_text, IsEvent};
ghost use Rattle.script_lines.specs.declared.verb_names.VerbWord.{VerbWord};

/// A law: data of whole sectors of 512 bytes, 1 to 65,536 bytes, as a reply prints it, reads again as the same bytes
/// where a line has it as data text.
pub fn printed_data_reads_again()
    ensures { (bytes : List ℕ) → All (λ byte. byte < 256) bytes → length bytes % 512 ≡ 0 → 0 < length bytes
        → length bytes ≤ 65536 → data_of (printed bytes) ≡ Some bytes }
{}

/// A law: the line that spells an event reads as that event. A verb is one that is built, and has a value within its
/// bounds for each of its arguments.
pub fn spelled_events_read_again()
    ensures { (is_built : VerbWord → Bool) (event : Event) → IsEvent is_built event
        → event_of is_built (event_text event) ≡ event }
{}
