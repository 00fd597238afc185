//! The program `qcow_write`: writes whole clusters of the virtual disk into the qcow2 layer that stands in a folder, as the
//! lines of standard input ask, and prints for each line how it was done and how many calls of the disk each part took.
#![tactic(auto)]

mod open;
mod order;
mod spots;
mod steps;
mod write;

use folder_disk::FolderDisk;
use open::open_layer;
use order::order_of;
use qcow_layer::Layer;
use sd_names::HostId;
use std::io::{BufRead, BufReader, ErrorKind};
use std::{env, io};
use write::{Report, write_clusters};

fn main(rt: HostRuntime) -> io::Result<()> {
    let words: Vec<String> = env::args(&rt)?.collect(rt.alloc())?;
    let root = match words.get(1) {
        Some(word) => word.as_str(),
        None => "",
    };
    let host = HostId::new(1).ok_or(ErrorKind::Other)?;
    let mut disk = match FolderDisk::new(&rt, rt.alloc(), root) {
        Ok(disk) => disk,
        Err(_) => return Err(ErrorKind::OutOfMemory.into()),
    };
    match open_layer(rt.alloc(), host, &mut disk) {
        Ok(layer) => write_lines(&rt, host, &mut disk, layer),
        Err(refusal) => println!(rt; "refused {refusal}"),
    }
}

// Writes what the lines ask for. The first line that is wrong or refused is the last, since a layer of which a write failed
// has to be opened anew.
fn write_lines(
    rt: &HostRuntime,
    host: HostId,
    disk: &mut FolderDisk<&HostRuntime>,
    layer: Layer,
) -> io::Result<()> {
    let mut layer = layer;
    if layer.header().autoclear_features != 0 {
        return println!(rt; "refused: the layer has autoclear features, which nothing clears here");
    }
    for line in BufReader::new(rt.alloc(), rt.stdin())?.lines(rt.alloc()) {
        let line = line?;
        let order = match order_of(line.as_str(), &layer) {
            Some(order) => order,
            None => return println!(rt; "refused: the line asks for no clusters of the layer"),
        };
        match write_clusters(host, &mut layer, disk, order) {
            Ok(report) => print_report(rt, line.as_str(), &report)?,
            Err(refusal) => return println!(rt; "refused {refusal}"),
        }
    }
    Ok(())
}

// Prints a line's words, how they were done, and the calls of each part.
fn print_report(rt: &HostRuntime, line: &str, report: &Report) -> io::Result<()> {
    let way = report.way();
    let calls = report.calls;
    let all = calls.all();
    println!(rt;
        "{line}: {way}, {all} calls: look {}, place {}, write {}, link {}",
        calls.look, calls.place, calls.write, calls.link
    )
}
