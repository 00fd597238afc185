//! The program `image_settle`: opens the image whose folder is named and settles it, and prints the volumes of its path, each
//! with what its text says then, or why the image is refused.
#![tactic(auto)]

mod open;

use folder_disk::FolderDisk;
use open::{Image, open_image};
use sd_names::{Format, HostId, Id, VolType};
use std::io::ErrorKind;
use std::{env, io};
use volume_chain::Chain;
use volume_meta::VolumeRecord;

fn main(rt: HostRuntime) -> io::Result<()> {
    let words: Vec<String> = env::args(&rt)?.collect(rt.alloc())?;
    let host = HostId::new(1).ok_or(ErrorKind::Other)?;
    let Some(image) = image_of(&words) else {
        return println!(rt; "usage: image_settle DOMAIN IMAGE VERSION");
    };
    let mut disk = match FolderDisk::new(&rt, rt.alloc(), "") {
        Ok(disk) => disk,
        Err(_) => return Err(ErrorKind::OutOfMemory.into()),
    };
    match open_image(rt.alloc(), host, &mut disk, image) {
        Ok(chain) => print_path(&rt, &chain),
        Err(refusal) => println!(rt; "refused {refusal}"),
    }
}

// The image that the words name; `None` where one is wrong.
fn image_of(words: &[String]) -> Option<Image> {
    let version = match words.get(3)?.as_str() {
        "4" => 4,
        "5" => 5,
        _ => return None,
    };
    Some(Image {
        sd: Id::read(words.get(1)?.as_bytes())?,
        image: Id::read(words.get(2)?.as_bytes())?,
        version,
    })
}

// Prints the volumes of the path, from the one that guests read to its base.
fn print_path(rt: &HostRuntime, chain: &Chain) -> io::Result<()> {
    for id in chain.path() {
        if let Some(record) = chain.volume(id) {
            print_volume(rt, id, record)?;
        }
    }
    Ok(())
}

fn print_volume(rt: &HostRuntime, id: &Id, record: &VolumeRecord) -> io::Result<()> {
    let format = match record.format {
        Format::Raw => "RAW",
        Format::Cow => "COW",
    };
    let voltype = match record.voltype {
        VolType::Leaf => "LEAF",
        VolType::Internal => "INTERNAL",
    };
    let parent = record.parent;
    println!(rt; "{id} {format} {voltype} over {parent}")
}
