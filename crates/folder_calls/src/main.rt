//! The program `folder_calls`: makes the calls of a disk over a real folder that the lines of standard input ask for, one
//! after the other, and prints what each answers.
#![tactic(auto)]

mod answers;
mod call;
mod make;

use answers::answer_line;
use folder_disk::FolderDisk;
use sd_names::HostId;
use std::io::{BufRead, BufReader, ErrorKind};
use std::{env, io};

fn main(rt: HostRuntime) -> io::Result<()> {
    let texts: Vec<String> = env::args(&rt)?.collect(rt.alloc())?;
    let root = match texts.get(1) {
        Some(text) => text.as_str(),
        None => "",
    };
    let host = HostId::new(1).ok_or(ErrorKind::Other)?;
    let mut disk = match FolderDisk::new(&rt, rt.alloc(), root) {
        Ok(disk) => disk,
        Err(_) => return Err(ErrorKind::OutOfMemory.into()),
    };
    for line in BufReader::new(rt.alloc(), rt.stdin())?.lines(rt.alloc()) {
        answer_line(&rt, &mut disk, host, line?.as_str())?;
    }
    Ok(())
}
