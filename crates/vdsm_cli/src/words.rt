// The words after the program's name, and the moment at which it is run.
ghost use Rattle.std.specs.Prelude.{◌≡◌, ◌+◌, length, drop, vec_len, IfOk};

use std::alloc::{AllocError, Global};
use std::env;
use std::io::ErrorKind;
use std::rt::{Clock, Env};
use std::time::{SystemTime, UNIX_EPOCH};

/// Why the words couldn't be had.
#[derive(Clone, Copy, Debug, PartialEq, Eq)]
pub(crate) enum NoWords {
    /// There was no memory for them.
    Memory,
    /// One of them isn't UTF-8.
    NotText,
}

/// The program's name and the words after it.
pub(crate) fn name_and_words<R: Env + AllocGlobal>(rt: &R) -> Result<Vec<String>, NoWords> {
    match env::args(rt) {
        Ok(args) => args.collect(rt.alloc()).map_err(|_| NoWords::Memory),
        Err(error) => match error.kind() {
            ErrorKind::OutOfMemory => Err(NoWords::Memory),
            _ => Err(NoWords::NotText),
        },
    }
}

/// The words after the first, lent.
pub(crate) fn after_first<'a>(
    alloc: Global,
    texts: &'a [String],
) -> Result<Vec<&'a str>, AllocError> {
    let mut words = Vec::new(alloc);
    for text in texts.iter().skip(1) {
        words.push(text.as_str())?;
    }
    Ok(words)
}

/// The seconds since 1970 by the system's clock, or 0 where it tells no later moment.
pub(crate) fn moment<R: Clock>(rt: &R) -> u64 {
    match SystemTime::now(rt) {
        Ok(now) => match now.duration_since(UNIX_EPOCH) {
            Ok(since) => since.as_secs(),
            Err(_) => 0,
        },
        Err(_) => 0,
    }
}
