// Opens an image, and settles it.
ghost use Rattle.chain_settling.specs.Fit.{AreValid};

use chain_settling::Settling;
use sd_names::{HostId, Id, Refusal, Turn};
use shared_disk::SharedDisk;
use std::alloc::Global;
use volume_chain::{Chain, ChainOpening};

/// An image, with the version by which its texts are read.
#[derive(Clone, Copy)]
pub(crate) struct Image {
    pub(crate) sd: Id,
    pub(crate) image: Id,
    pub(crate) version: u8,
}

/// Opens the image's chain and settles it. The ends of the loops aren't reached: each step leaves fewer.
pub(crate) fn open_image<D: SharedDisk>(
    alloc: Global,
    host: HostId,
    disk: &mut D,
    image: Image,
) -> Result<Chain, Refusal> {
    let mut work = ChainOpening::begin(alloc, image.sd, image.image, image.version)?;
    for _ in 0..u64::MAX {
        match work.step(host, disk) {
            Turn::More(next) => work = next,
            Turn::Done(chain) => return settle(host, disk, chain),
            Turn::Ended((), refusal) => return Err(refusal),
        }
    }
    Err(Refusal::NotBuilt)
}

// Settles an image that was opened.
fn settle<D: SharedDisk>(host: HostId, disk: &mut D, chain: Chain) -> Result<Chain, Refusal>
    requires { AreValid chain }
{
    let mut work = Settling::begin(chain);
    for _ in 0..u64::MAX {
        match work.step(host, disk) {
            Turn::More(next) => work = next,
            Turn::Done(chain) => return Ok(chain),
            Turn::Ended((), refusal) => return Err(refusal),
        }
    }
    Err(Refusal::NotBuilt)
}
