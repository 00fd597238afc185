// The volume that is written is found on the path.
ghost use Rattle.std.specs.Prelude.{◌<◌, length};
ghost use Rattle.shared_disk.specs.Calls.{IsAligned, IsPiece};
ghost use Rattle.guest_writing.specs.Left.{stage_left};
ghost use Rattle.guest_writing.specs.Way.{IsBehind, StageOnWay, StandsOpen};
ghost use Rattle.guest_writing.specs.Writing.{KnowsBehind};
ghost use Rattle.guest_writing.specs.declared.stage.Stage.TheVariants.{Begun};

use crate::stage::Stage;
use chain_reading::place_on;
use layer_walk::cluster_bytes;
use raw_writing::RawWriting;
use sd_names::Id;
use volume_chain::{Chain, OpenVolume};
use write_planning::Span;
use write_preparing::Preparing;

/// The write of a raw volume, or the preparing of one to a layer.
pub(crate) fn find(volume: Id, at: u64, chain: &Chain, part: &[u8]) -> Stage
    requires aligned { IsAligned at }
    requires piece { IsPiece (length part.now) }
    requires way { StandsOpen chain.now volume at (length part.now) }
    ensures way { StageOnWay result volume at chain.now (length part.now) }
    ensures behind { IsBehind Begun chain.now result }
    ensures left { stage_left result volume at chain.now (length part.now) < stage_left Begun volume at chain.now (length part.now) }
    ensures knows { KnowsBehind Begun volume at chain.now part.now result }
{
    let index = place_on(chain.path(), &volume);
    match chain.volumes().get(index) {
        Some(OpenVolume::Raw(_)) => Stage::Raw(RawWriting::begin(chain, volume, at)),
        Some(OpenVolume::Cow(layer)) => {
            let width = cluster_bytes(layer.header());
            let span = Span::new(at, part.len() as u64, width);
            Stage::Preparing(index, Preparing::begin(span))
        }
        None => unreachable!(),
    }
}
