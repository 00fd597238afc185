//! The program `chain_write`: makes an image of one volume in a folder, and writes and reads parts of it through its chain, as
//! the lines of standard input ask, and prints what each came to.
#![tactic(auto)]

ghost use Rattle.std.specs.Prelude.{IfOk, IfSome};
ghost use Rattle.chain_write.specs.Open.{AreAllOpen};

mod image;
mod open;
mod order;
mod parts;

use folder_disk::FolderDisk;
use image::make_image;
use open::open_image;
use order::{Order, order_of};
use parts::{read_parts, write_parts};
use sd_names::{HostId, Refusal};
use std::io::{BufRead, BufReader, ErrorKind};
use std::{env, io};
use volume_chain::Chain;

fn main(rt: HostRuntime) -> io::Result<()> {
    let words: Vec<String> = env::args(&rt)?.collect(rt.alloc())?;
    let root = match words.get(1) {
        Some(word) => word.as_str(),
        None => "",
    };
    let host = HostId::new(1).ok_or(ErrorKind::Other)?;
    let mut disk = match FolderDisk::new(&rt, rt.alloc(), root) {
        Ok(disk) => disk,
        Err(_) => return Err(ErrorKind::OutOfMemory.into()),
    };
    follow_lines(&rt, host, &mut disk)
}

// Does what the lines ask for. The first line that is wrong or refused is the last, since a chain of which a write failed has
// to be opened anew.
fn follow_lines(
    rt: &HostRuntime,
    host: HostId,
    disk: &mut FolderDisk<&HostRuntime>,
) -> io::Result<()> {
    let mut opened: Option<Chain> = None;
    for line in BufReader::new(rt.alloc(), rt.stdin())?.lines(rt.alloc()) {
        let line = line?;
        let Some(order) = order_of(line.as_str()) else {
            return println!(rt; "refused: the line asks for nothing that is done here");
        };
        match follow(rt, host, disk, order, opened) {
            Ok((chain, told)) => {
                opened = chain;
                print_told(rt, line.as_str(), told)?;
            }
            Err(refusal) => return println!(rt; "refused {refusal}"),
        }
    }
    Ok(())
}

// What a line came to: the byte that all of what was read has, where it was read and is one.
type Told = Option<Option<u8>>;

fn print_told(rt: &HostRuntime, line: &str, told: Told) -> io::Result<()> {
    match told {
        None => println!(rt; "{line}: ok"),
        Some(None) => println!(rt; "{line}: mixed"),
        Some(Some(byte)) => println!(rt; "{line}: {byte}"),
    }
}

// Does what a line asks for. The image is opened for the first line that writes or reads.
fn follow(
    rt: &HostRuntime,
    host: HostId,
    disk: &mut FolderDisk<&HostRuntime>,
    order: Order,
    opened: Option<Chain>,
) -> Result<(Option<Chain>, Told), Refusal>
    requires { IfSome opened AreAllOpen }
    ensures { IfOk result (λ went. IfSome went.0 AreAllOpen) }
{
    if let Order::Make(image) = order {
        make_image(rt.alloc(), host, disk, image)?;
        return Ok((opened, None));
    }
    let mut chain = match opened {
        Some(chain) => chain,
        None => open_image(rt.alloc(), host, disk)?,
    };
    let told = match order {
        Order::Make(_) => None,
        Order::Write(parts, byte) => {
            write_parts(host, &mut chain, disk, parts, byte)?;
            None
        }
        Order::Read(parts) => Some(read_parts(host, &mut chain, disk, parts)?),
    };
    Ok((Some(chain), told))
}
