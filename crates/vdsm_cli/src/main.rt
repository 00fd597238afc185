//! The program `vdsm`: a script of standard input or of its words over the current folder, with the replies on standard
//! output.
#![tactic(auto)]

mod again;
mod std_stream;
#[cfg(test)]
mod tests;
mod words;

use folder_disk::FolderDisk;
use pool_session::vdsm;
use std::process::ExitCode;
use std_stream::{StdSink, StdSource};
use words::NoWords;

/// The status where the program finds no memory to begin.
const NO_MEMORY: u8 = 6;

/// The status for words that aren't a command.
const BAD_WORDS: u8 = 2;

fn main(rt: HostRuntime) -> ExitCode {
    let status = run(&rt);
    if status == BAD_WORDS {
        // The status tells of the words, whether or not the line is seen.
        let _ = eprintln!(rt; "usage: vdsm session|run|dump|exercise");
    }
    ExitCode::from(status)
}

// Makes the adapters and runs the command that the words name. It gives the status of the program.
fn run(rt: &HostRuntime) -> u8 {
    let texts = match words::name_and_words(rt) {
        Ok(texts) => texts,
        Err(NoWords::Memory) => return NO_MEMORY,
        Err(NoWords::NotText) => return BAD_WORDS,
    };
    match (
        words::after_first(rt.alloc(), &texts),
        FolderDisk::new(rt, rt.alloc(), "."),
    ) {
        (Ok(words), Ok(mut disk)) => {
            let mut source = StdSource::new(rt.stdin());
            let mut sink = StdSink::new(rt.stdout());
            vdsm(
                rt.alloc(),
                words.as_slice(),
                words::moment(rt),
                &mut source,
                &mut sink,
                &mut disk,
            )
            .code()
        }
        _ => NO_MEMORY,
    }
}
