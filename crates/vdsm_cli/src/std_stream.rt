// The script and the replies over standard input and output, or any other reader and writer.
ghost use Rattle.std.specs.Prelude.{◌≡◌, ◌≢◌, ◌+◌, ◌-◌, ◌^◌, ◌<◌, ◌≤◌, List, ℕ, length, min, Some, IfErr, IfOk};
ghost use Rattle.std.specs.IoError.{error_kind};
ghost use Rattle.script_loop.specs.Stream.{Counts};
ghost use Rattle.vdsm_cli.specs.Counts.{source_faults, sink_faults};
ghost use Rattle.vdsm_cli.specs.Streams.{source_input, sink_output, sink_unflushed, sink_given, Takes};

use crate::again::{flush_again, read_again, write_again};
use script_loop::{Sink, Source};
use sd_names::Failed;
use std::io;
use std::io::{Error, ErrorKind, Read, Write};

/// A script that is read as it comes. A read that a signal interrupts is made again, and is no fault. It tells the bytes that its reader tells; a stream of the system tells none.
#[derive(Drop)]
pub struct StdSource<I: Read> {
    input: I,
    faults: u64,
}

impl<I: Read> StdSource<I> {
    /// A script that comes from a reader.
    pub fn new(input: I) -> StdSource<I>
        ensures input { source_input result ≡ input }
        ensures faults { source_faults result ≡ 0 }
    {
        StdSource { input, faults: 0 }
    }

    // Counts a read that failed. One that a signal interrupted is none.
    fn count_fault(&mut self, error: Error) -> Failed
        requires failed { error_kind error ≢ ErrorKind.Interrupted }
        ensures faults { source_faults self.new ≡ min (source_faults self.old + 1) (2 ^ 64 - 1) }
        ensures input { source_input self.new ≡ source_input self.old }
    {
        self.faults = self.faults.saturating_add(1);
        Failed
    }
}

impl<I: Read> Source for StdSource<I> {
    ghost use Rattle.vdsm_cli.specs.Counts.{source_faults};
    ghost use Rattle.vdsm_cli.specs.Streams.{source_left};

    ghost left = { source_left I.remaining };

    ghost faults = { source_faults };

    fn read(&mut self, into: &mut [u8]) -> Result<usize, Failed> {
        let _faults = self.faults;
        match read_again(&mut self.input, into) {
            Ok(count) => Ok(count),
            Err(error) => Err(self.count_fault(error)),
        }
    }
}

/// Replies that are flushed as they are given, so that each is seen before more of the script is read. It tells the bytes
/// that its writer tells and has flushed; a stream of the system tells none. A write or a flush that a signal interrupts is
/// made again, and is no fault. Once a flush failed, nothing more is given.
#[derive(Drop)]
pub struct StdSink<O: Write> {
    output: O,
    // How many bytes the writer took last, if it couldn't flush them.
    unflushed: usize,
    faults: u64,
}

impl<O: Write> StdSink<O> {
    /// Replies that go to a writer.
    pub fn new(output: O) -> StdSink<O>
        ensures output { sink_output result ≡ output }
        ensures flushed { sink_unflushed result ≡ 0 }
        ensures faults { sink_faults result ≡ 0 }
    {
        StdSink {
            output,
            unflushed: 0,
            faults: 0,
        }
    }

    // Gives bytes from the front of a piece and flushes them. It fails where that failed, or failed before, or nothing was
    // taken of a piece that isn't empty.
    fn give(&mut self, piece: &[u8]) -> io::Result<usize>
        ensures bound { IfOk result (λ count. count ≤ length piece.now) }
        ensures some { 0 < length piece.now → IfOk result (λ count. 0 < count) }
        ensures taken { (before : List ℕ) → sink_given O.contents self.old ≡ Some before
            → (after : List ℕ) × (sink_given O.contents self.new ≡ Some after) × Takes before after piece.now result }
        ensures retried { IfErr result (λ error. error_kind error ≢ ErrorKind.Interrupted) }
        ensures faults { sink_faults self.new ≡ sink_faults self.old }
    {
        if self.unflushed > 0 {
            return Err(Error::from(ErrorKind::Other));
        }
        let count = match write_again(&mut self.output, piece) {
            Ok(count) => count,
            Err(error) => return Err(error),
        };
        if count == 0 && !piece.is_empty() {
            return Err(Error::from(ErrorKind::WriteZero));
        }
        match flush_again(&mut self.output) {
            Ok(()) => Ok(count),
            Err(error) => {
                self.unflushed = count;
                Err(error)
            }
        }
    }

    // Counts a write that failed. One that a signal interrupted is none.
    fn count_fault(&mut self, error: Error) -> Failed
        requires failed { error_kind error ≢ ErrorKind.Interrupted }
        ensures faults { sink_faults self.new ≡ min (sink_faults self.old + 1) (2 ^ 64 - 1) }
        ensures output { sink_output self.new ≡ sink_output self.old }
        ensures unflushed { sink_unflushed self.new ≡ sink_unflushed self.old }
    {
        self.faults = self.faults.saturating_add(1);
        Failed
    }
}

impl<O: Write> Sink for StdSink<O> {
    ghost use Rattle.vdsm_cli.specs.Counts.{sink_faults};
    ghost use Rattle.vdsm_cli.specs.Streams.{sink_given};

    ghost given = { sink_given O.contents };

    ghost faults = { sink_faults };

    fn write(&mut self, piece: &[u8]) -> Result<usize, Failed> {
        let _faults = self.faults;
        match self.give(piece) {
            Ok(count) => Ok(count),
            Err(error) => Err(self.count_fault(error)),
        }
    }
}
