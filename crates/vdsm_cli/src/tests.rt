// Streams that fail or are interrupted in mid-stream, and the program's words and moment.
use crate::std_stream::{StdSink, StdSource};
use crate::words;
use script_loop::{Sink, Source};
use sd_names::Failed;
use std::io;
use std::io::{ErrorKind, Read, Write};
use std::test::Fail;

// A stream that fails in its second call, and takes or gives one byte in each other.
#[derive(Drop)]
struct Halting {
    calls: u8,
}

impl Halting {
    fn count(&mut self) -> io::Result<usize> {
        self.calls = self.calls.saturating_add(1);
        if self.calls == 2 {
            return Err(io::Error::from(ErrorKind::Other));
        }
        Ok(1)
    }
}

impl Read for Halting {
    fn read(&mut self, buf: &mut [u8]) -> io::Result<usize> {
        let count = self.count()?;
        Ok(count.min(buf.len()))
    }
}

impl Write for Halting {
    fn write(&mut self, buf: &[u8]) -> io::Result<usize> {
        let count = self.count()?;
        Ok(count.min(buf.len()))
    }

    fn flush(&mut self) -> io::Result<()> {
        Ok(())
    }
}

// A stream whose every other call is interrupted by a signal, and that takes or gives one byte in each other.
#[derive(Drop)]
struct Interrupted {
    was: bool,
}

impl Interrupted {
    fn next(&mut self) -> io::Result<()> {
        self.was = !self.was;
        if self.was {
            return Err(io::Error::from(ErrorKind::Interrupted));
        }
        Ok(())
    }
}

impl Read for Interrupted {
    fn read(&mut self, buf: &mut [u8]) -> io::Result<usize> {
        self.next()?;
        Ok(buf.len().min(1))
    }
}

impl Write for Interrupted {
    fn write(&mut self, buf: &[u8]) -> io::Result<usize> {
        self.next()?;
        Ok(buf.len().min(1))
    }

    fn flush(&mut self) -> io::Result<()> {
        self.next()
    }
}

#[test]
fn interrupted_streams_go_on(rt: HostRuntime) {
    let mut source = StdSource::new(Interrupted { was: false });
    let mut room = [0; 4];
    let mut sink = StdSink::new(Interrupted { was: false });
    for _ in 0..3u8 {
        assert!(rt; source.read(&mut room) == Ok(1));
        assert!(rt; sink.write(b"ab") == Ok(1));
    }
}

#[test]
fn streams_fail_in_mid_stream(rt: HostRuntime) {
    let mut source = StdSource::new(Halting { calls: 0 });
    let mut room = [0; 4];
    assert!(rt; source.read(&mut room) == Ok(1));
    assert!(rt; source.read(&mut room) == Err(Failed));
    assert!(rt; source.read(&mut room) == Ok(1));
    let mut sink = StdSink::new(Halting { calls: 0 });
    assert!(rt; sink.write(b"abc") == Ok(1));
    assert!(rt; sink.write(b"bc") == Err(Failed));
    assert!(rt; sink.write(b"bc") == Ok(1));
    let mut full: &mut [u8] = &mut [];
    let mut sink = StdSink::new(&mut full);
    assert!(rt; sink.write(b"a") == Err(Failed));
    assert!(rt; sink.write(b"") == Ok(0));
}

#[test]
fn words_and_moment_are_read(rt: HostRuntime) -> Result<(), Fail> {
    let texts = words::name_and_words(&rt)?;
    let words = words::after_first(rt.alloc(), &texts)?;
    assert!(rt; words.len() + 1 == texts.len());
    // 2020-01-01
    assert!(rt; words::moment(&rt) > 1_577_836_800);
    Ok(())
}
