// Opens the image, and settles it.
ghost use Rattle.chain_settling.specs.Fit.{AreValid};
ghost use Rattle.std.specs.Prelude.{IfOk};
ghost use Rattle.chain_write.specs.Open.{AreAllOpen};

use crate::image::{DOMAIN, IMAGE, VERSION};
use chain_settling::Settling;
use sd_names::{HostId, Refusal, Turn};
use shared_disk::SharedDisk;
use std::alloc::Global;
use volume_chain::{Chain, ChainOpening};

/// Opens the image's chain and settles it. The ends of the loops aren't reached: each step leaves fewer.
pub(crate) fn open_image<D: SharedDisk>(
    alloc: Global,
    host: HostId,
    disk: &mut D,
) -> Result<Chain, Refusal>
    ensures { IfOk result AreAllOpen }
{
    let mut work = ChainOpening::begin(alloc, DOMAIN, IMAGE, VERSION)?;
    for _ in 0..u64::MAX {
        match work.step(host, disk) {
            Turn::More(next) => work = next,
            Turn::Done(chain) => return settle(host, disk, chain),
            Turn::Ended((), refusal) => return Err(refusal),
        }
    }
    Err(Refusal::NotBuilt)
}

// Settles an image that was opened.
fn settle<D: SharedDisk>(host: HostId, disk: &mut D, chain: Chain) -> Result<Chain, Refusal>
    requires valid { AreValid chain }
    requires all { AreAllOpen chain }
    ensures { IfOk result AreAllOpen }
{
    let mut work = Settling::begin(chain);
    for _ in 0..u64::MAX {
        match work.step(host, disk) {
            Turn::More(next) => work = next,
            Turn::Done(chain) => return Ok(chain),
            Turn::Ended((), refusal) => return Err(refusal),
        }
    }
    Err(Refusal::NotBuilt)
}
