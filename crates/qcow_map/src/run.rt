// Runs of clusters that agree.
use qcow_format::Entry;
use std::alloc::AllocError;
use std::io;

/// A run of the virtual disk: its first byte, its length in bytes, and what the layer says of it. A place in the entry is
/// that of the run's first byte, and the further ones follow it without a gap.
#[derive(Clone, Copy, Debug)]
pub(crate) struct Run {
    pub(crate) first: u64,
    pub(crate) length: u64,
    pub(crate) entry: Entry,
}

// Whether an entry continues another one, of so many bytes.
fn continues(entry: Entry, length: u64, next: Entry) -> bool {
    match (entry, next) {
        (Entry::Absent, Entry::Absent) => true,
        (Entry::Zero(0), Entry::Zero(0)) => true,
        (Entry::Zero(0), Entry::Zero(_)) => false,
        (Entry::Zero(place), Entry::Zero(at)) => at == place.saturating_add(length),
        (Entry::Data(place), Entry::Data(at)) => at == place.saturating_add(length),
        _ => false,
    }
}

/// Adds a run behind the others, to the last one where it continues that.
pub(crate) fn add_run(runs: &mut Vec<Run>, run: Run) -> Result<(), AllocError> {
    if let Some(last) = runs.last_mut() {
        if continues(last.entry, last.length, run.entry) {
            last.length = last.length.saturating_add(run.length);
            return Ok(());
        }
    }
    runs.push(run)?;
    Ok(())
}

/// Prints a run as a line.
pub(crate) fn print_run(rt: &HostRuntime, run: &Run) -> io::Result<()> {
    let first = run.first;
    let length = run.length;
    match run.entry {
        Entry::Absent => println!(rt; "{first} {length} absent"),
        Entry::Zero(0) => println!(rt; "{first} {length} zero"),
        Entry::Zero(place) => println!(rt; "{first} {length} zero {place}"),
        Entry::Data(place) => println!(rt; "{first} {length} data {place}"),
    }
}
