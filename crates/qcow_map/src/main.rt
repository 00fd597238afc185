//! The program `qcow_map`: which clusters the qcow2 layer that comes on standard input holds, a line for each run of
//! clusters that agree, and in how many steps it was opened, or why the layer is refused.
#![tactic(auto)]

mod file;
mod run;
mod runs;

use file::{LONGEST, capacity_of, disk_with, open_layer, pad};
use run::print_run;
use runs::runs_of;
use sd_names::{HostId, Refusal};
use std::io;
use std::io::Read;

fn main(rt: HostRuntime) -> io::Result<()> {
    let mut file = Vec::new(rt.alloc());
    rt.stdin().take(LONGEST + 1).read_to_end(&mut file)?;
    if file.len() as u64 > LONGEST {
        return println!(rt; "refused TooLong");
    }
    match HostId::new(1) {
        Some(host) => print_map(&rt, host, file),
        None => Ok(()),
    }
}

// Prints the runs of the layer in a file and the number of steps of its opening, or the refusal. All runs are known before
// the first is printed.
fn print_map(rt: &HostRuntime, host: HostId, file: Vec<u8>) -> io::Result<()> {
    let mut file = file;
    if pad(&mut file).is_err() {
        return print_refusal(rt, Refusal::OutOfMemory);
    }
    let mut disk = match disk_with(rt.alloc(), &file) {
        Ok(disk) => disk,
        Err(_) => return print_refusal(rt, Refusal::OutOfMemory),
    };
    let (mut layer, steps) = match open_layer(rt.alloc(), host, &mut disk, capacity_of(&file)) {
        Ok(opened) => opened,
        Err(refusal) => return print_refusal(rt, refusal),
    };
    match runs_of(rt.alloc(), host, &mut disk, &mut layer) {
        Ok(runs) => {
            for run in runs.iter() {
                print_run(rt, run)?;
            }
            println!(rt; "opened in {steps} steps")
        }
        Err(refusal) => print_refusal(rt, refusal),
    }
}

// The layer's fault, with its number where it has one, or the refusal's name.
fn print_refusal(rt: &HostRuntime, refusal: Refusal) -> io::Result<()> {
    match refusal {
        Refusal::LayerRefused(_, fault) => {
            let name = fault.name();
            match fault.value() {
                None => println!(rt; "refused {name}"),
                Some(number) => println!(rt; "refused {name} {number}"),
            }
        }
        other => println!(rt; "refused {}", other.name()),
    }
}
