//! The program `qcow_new`: makes the file of a new qcow2 layer in the current folder, as the words ask: its capacity and its
//! length in bytes, and for a layer over a volume that one's identifier and format. It prints the file's path, or why the
//! file isn't made.
#![tactic(auto)]

mod make;
mod words;

use folder_disk::FolderDisk;
use make::{LAYER, make_layer};
use sd_names::HostId;
use std::io::ErrorKind;
use std::{env, io};
use words::order_of;

fn main(rt: HostRuntime) -> io::Result<()> {
    let words: Vec<String> = env::args(&rt)?.collect(rt.alloc())?;
    let host = HostId::new(1).ok_or(ErrorKind::Other)?;
    let Some(order) = order_of(&words) else {
        return println!(rt; "usage: qcow_new CAPACITY LENGTH [PARENT RAW|COW]");
    };
    let mut disk = match FolderDisk::new(&rt, rt.alloc(), "") {
        Ok(disk) => disk,
        Err(_) => return Err(ErrorKind::OutOfMemory.into()),
    };
    match make_layer(&mut disk, host, order) {
        Ok(()) => println!(rt; "{LAYER}"),
        Err(refusal) => println!(rt; "refused {refusal}"),
    }
}
