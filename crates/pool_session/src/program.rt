// The program's one public call.
ghost use Rattle.std.specs.Prelude.{◌≡◌, ◌≢◌, ◌⊎◌, ℕ, List, Option, map, Some, None};
ghost use Rattle.shared_disk.specs.Content.{Content, IsEmpty};
ghost use Rattle.command_words.specs.Asked.{Asked, asked_by, run, session};
ghost use Rattle.command_words.specs.Words.{asked};
ghost use Rattle.script_loop.specs.Ends.{Ends, SourceFaults, SinkFaults};
ghost use Rattle.script_loop.specs.Script.{script_of};
ghost use Rattle.pool_session.specs.Program.{Gives, IfRan, TakesAtMost, start};
ghost use Rattle.pool_session.specs.Machine.{Stands};
ghost use Rattle.pool_session.specs.Run.{Course, Flat, FlatSays, SomeSays, course_reply, flat_reply, off};

use crate::session::Session;
use command_words::{Command, read_words};
use script_loop::{Room, Script, Sink, Source, Status, run_script};
use sd_names::NoMemory;
use shared_disk::SharedDisk;
use std::alloc::Global;

/// Runs what the words after the program's name ask for, over the disk, with a reply a line to the sink: for `session` the
/// script that the source gives, and for `run` the script made of the lines that follow, each with an LF behind it. `run`
/// leaves the source as it is.
///
/// The script is run as [`run_script`] says: line by line as it comes, each reply before more is read, up to 67,108,864 bytes.
/// Where the disk tells that it is empty at first, the replies are those of a flat machine (`ends`). On every disk, whatever it
/// holds at first, `runs` says by the line what is answered and what is left of what the disk tells: a verb is done only where the
/// disk has done its calls, a folder or file that is there isn't taken for made, and what the line isn't about stays.
///
/// `moment` is the time in seconds since 1970, where the words give none; no line needs it yet. The memory that a session
/// needs is taken from `alloc` before the first line.
///
/// A fault of the disk is a reply; a fault of the source or the sink, too long an input, other words and want of memory are a
/// [`Status`]. Plain words are never those others ([`read_words`]).
pub fn vdsm<'a, S: Source, K: Sink, D: SharedDisk>(
    alloc: Global,
    words: &'a [&'a str],
    moment: u64,
    source: &mut S,
    sink: &mut K,
    disk: &mut D,
) -> Status
    ensures words { result ≡ Status.Words → asked (map (λ word. word.now) words.now) ≡ None }
    ensures others { asked (map (λ word. word.now) words.now) ≡ None → (result ≡ Status.Words) ⊎ (result ≡ Status.Memory) }
    ensures untouched { (result ≡ Status.Words) ⊎ (result ≡ Status.Memory) → (source.new ≡ source.old) × (sink.new ≡ sink.old) × (disk.new ≡ disk.old) }
    ensures unread { (seconds : Option ℕ) (lines : List (List ℕ)) → asked (map (λ word. word.now) words.now) ≡ Some (run seconds lines) → source.new ≡ source.old }
    ensures source_faults { SourceFaults result (S.faults source.old) (S.faults source.new) }
    ensures sink_faults { SinkFaults result (K.faults sink.old) (K.faults sink.new) }
    ensures bounded { (input : List ℕ) → S.left source.old ≡ Some input → TakesAtMost input (S.left source.new) }
    ensures runs { IfRan result ((left : Option (List ℕ)) × (left' : Option (List ℕ)) × (refused : ℕ) × (course : Course)
        × Gives (asked (map (λ word. word.now) words.now)) (S.left source.old) (S.left source.new) left left'
        × Ends (SomeSays D.content) course_reply result refused off disk.old left left' (K.given sink.old) (K.given sink.new) course disk.new) }
    ensures ends { (d : Content) → D.content disk.old ≡ Some d → IsEmpty d → IfRan result ((left : Option (List ℕ)) × (left' : Option (List ℕ)) × (refused : ℕ) × (e : Content) × (t : Flat)
        × Gives (asked (map (λ word. word.now) words.now)) (S.left source.old) (S.left source.new) left left'
        × (D.content disk.new ≡ Some e) × Stands t.state.stage t.state.flat e × (t.state.faults ≡ D.faults disk.new)
        × Ends FlatSays flat_reply result refused (start (D.faults disk.old)) tt left left' (K.given sink.old) (K.given sink.new) t tt) }
{
    match read_words(alloc, words) {
        Ok(Some(command)) => {
            let _moment = command.moment(moment);
            run_command(alloc, &command, source, sink, disk)
        }
        Ok(None) => Status::Words,
        Err(NoMemory) => Status::Memory,
    }
}

/// Runs a command.
fn run_command<S: Source, K: Sink, D: SharedDisk>(
    alloc: Global,
    command: &Command<'_>,
    source: &mut S,
    sink: &mut K,
    disk: &mut D,
) -> Status
    ensures others { result ≢ Status.Words }
    ensures untouched { result ≡ Status.Memory → (source.new ≡ source.old) × (sink.new ≡ sink.old) × (disk.new ≡ disk.old) }
    ensures unread { (seconds : Option ℕ) (lines : List (List ℕ)) → asked_by command.now ≡ run seconds lines → source.new ≡ source.old }
    ensures source_faults { SourceFaults result (S.faults source.old) (S.faults source.new) }
    ensures sink_faults { SinkFaults result (K.faults sink.old) (K.faults sink.new) }
    ensures bounded { (input : List ℕ) → S.left source.old ≡ Some input → TakesAtMost input (S.left source.new) }
    ensures runs { IfRan result ((left : Option (List ℕ)) × (left' : Option (List ℕ)) × (refused : ℕ) × (course : Course)
        × Gives (Some (asked_by command.now)) (S.left source.old) (S.left source.new) left left'
        × Ends (SomeSays D.content) course_reply result refused off disk.old left left' (K.given sink.old) (K.given sink.new) course disk.new) }
    ensures ends { (d : Content) → D.content disk.old ≡ Some d → IsEmpty d → IfRan result ((left : Option (List ℕ)) × (left' : Option (List ℕ)) × (refused : ℕ) × (e : Content) × (t : Flat)
        × Gives (Some (asked_by command.now)) (S.left source.old) (S.left source.new) left left'
        × (D.content disk.new ≡ Some e) × Stands t.state.stage t.state.flat e × (t.state.faults ≡ D.faults disk.new)
        × Ends FlatSays flat_reply result refused (start (D.faults disk.old)) tt left left' (K.given sink.old) (K.given sink.new) t tt) }
{
    match command {
        Command::Session { moment: _ } => run_session(alloc, source, sink, disk),
        Command::Run { moment: _, lines } => run_lines(alloc, lines, sink, disk),
    }
}

/// Runs the script made of lines.
fn run_lines<K: Sink, D: SharedDisk>(
    alloc: Global,
    lines: &[&str],
    sink: &mut K,
    disk: &mut D,
) -> Status
    ensures others { (result ≢ Status.Words) × (result ≢ Status.ReadFault) }
    ensures untouched { result ≡ Status.Memory → (sink.new ≡ sink.old) × (disk.new ≡ disk.old) }
    ensures sink_faults { SinkFaults result (K.faults sink.old) (K.faults sink.new) }
    ensures runs { IfRan result ((left : Option (List ℕ)) × (left' : Option (List ℕ)) × (refused : ℕ) × (course : Course)
        × (left ≡ Some (script_of (map (λ line. line.now) lines.now)))
        × Ends (SomeSays D.content) course_reply result refused off disk.old left left' (K.given sink.old) (K.given sink.new) course disk.new) }
    ensures ends { (d : Content) → D.content disk.old ≡ Some d → IsEmpty d → IfRan result ((left : Option (List ℕ)) × (left' : Option (List ℕ)) × (refused : ℕ) × (e : Content) × (t : Flat)
        × (left ≡ Some (script_of (map (λ line. line.now) lines.now)))
        × (D.content disk.new ≡ Some e) × Stands t.state.stage t.state.flat e × (t.state.faults ≡ D.faults disk.new)
        × Ends FlatSays flat_reply result refused (start (D.faults disk.old)) tt left left' (K.given sink.old) (K.given sink.new) t tt) }
{
    match Script::of_lines(alloc, lines) {
        Ok(mut script) => run_session(alloc, &mut script, sink, disk),
        Err(NoMemory) => Status::Memory,
    }
}

/// Runs the script that a source gives.
fn run_session<S: Source, K: Sink, D: SharedDisk>(
    alloc: Global,
    source: &mut S,
    sink: &mut K,
    disk: &mut D,
) -> Status
    ensures others { result ≢ Status.Words }
    ensures untouched { result ≡ Status.Memory → (source.new ≡ source.old) × (sink.new ≡ sink.old) × (disk.new ≡ disk.old) }
    ensures source_faults { SourceFaults result (S.faults source.old) (S.faults source.new) }
    ensures sink_faults { SinkFaults result (K.faults sink.old) (K.faults sink.new) }
    ensures bounded { (input : List ℕ) → S.left source.old ≡ Some input → TakesAtMost input (S.left source.new) }
    ensures runs { IfRan result ((refused : ℕ) × (course : Course)
        × Ends (SomeSays D.content) course_reply result refused off disk.old (S.left source.old) (S.left source.new) (K.given sink.old) (K.given sink.new) course disk.new) }
    ensures ends { (d : Content) → D.content disk.old ≡ Some d → IsEmpty d → IfRan result ((refused : ℕ) × (e : Content) × (t : Flat)
        × (D.content disk.new ≡ Some e) × Stands t.state.stage t.state.flat e × (t.state.faults ≡ D.faults disk.new)
        × Ends FlatSays flat_reply result refused (start (D.faults disk.old)) tt (S.left source.old) (S.left source.new) (K.given sink.old) (K.given sink.new) t tt) }
{
    match (Session::new(alloc), Room::new(alloc)) {
        (Ok(mut session), Ok(room)) => {
            let ended = run_script(room, &mut session, disk, source, sink);
            ended.status
        }
        _ => Status::Memory,
    }
}
