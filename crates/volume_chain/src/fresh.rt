// The chain of an image of one volume that is made anew, before its files are.
ghost use Rattle.std.specs.Prelude.{◌≡◌, MatchResult};
ghost use Rattle.sd_names.specs.declared.refusal.Refusal.TheVariants.{OutOfMemory};
ghost use Rattle.volume_chain.specs.Fresh.{IsBase, IsBaseLength, IsFreshChain, IsFreshVolume, target_for};

use crate::chain::{Chain, GREATEST, Target};
use crate::volumes::{OpenVolume, OpenVolumes};
use chain_records::{Volume, VolumeList, VolumeRecords};
use qcow_layer::Layer;
use sd_names::{Dir, Format, Id, Name, NoMemory, Place, Refusal};
use std::alloc::Global;
use volume_meta::VolumeRecord;

// The one volume, open: raw, or the layer of a new file without a backing file.
fn fresh_volume(
    alloc: Global,
    target: Target,
    id: Id,
    meta: &VolumeRecord,
    length: u64,
) -> Result<OpenVolume, Refusal>
    requires { IsBaseLength meta.now length }
    ensures { MatchResult result (λ o. IsFreshVolume target id meta.now length o) (λ refusal. refusal ≡ OutOfMemory) }
{
    match meta.format {
        Format::Raw => Ok(OpenVolume::Raw(length)),
        Format::Cow => {
            let place = Place {
                dir: Dir::Image(target.sd, target.image),
                name: Name::Volume(id),
            };
            match Layer::fresh(alloc, id, place, meta.capacity, GREATEST, None, length) {
                Ok(layer) => Ok(OpenVolume::Cow(layer)),
                Err(refusal) => Err(refusal),
            }
        }
    }
}

impl Chain {
    /// The chain of an image of one LEGAL volume without a parent, whose text says `meta`, each field in its range, and whose
    /// file has `length` bytes: a raw one of any length, or the layer that `Creating` makes without a backing file, in whole
    /// clusters of 65,536 bytes, 20 at least. All its memory is taken here, and it refuses only for want of it. It is true
    /// once the files are made.
    pub fn fresh(
        alloc: Global,
        sd: Id,
        image: Id,
        version: u8,
        id: Id,
        meta: VolumeRecord,
        length: u64,
    ) -> Result<Chain, Refusal>
        requires base { IsBase meta }
        requires length { IsBaseLength meta length }
        ensures { MatchResult result (λ c. IsFreshChain c sd image version id meta length) (λ refusal. refusal ≡ OutOfMemory) }
    {
        let target = Target { sd, image, version };
        let volume = match fresh_volume(alloc, target, id, &meta, length) {
            Ok(volume) => volume,
            Err(refusal) => return Err(refusal),
        };
        let Ok(mut records) = VolumeRecords::new(alloc) else {
            return Err(Refusal::OutOfMemory);
        };
        let Ok(mut volumes) = OpenVolumes::new(alloc) else {
            return Err(Refusal::OutOfMemory);
        };
        let mut path = VolumeList::new();
        path.push(id);
        volumes.push(volume);
        records.push(Volume {
            id,
            meta,
            has_file: true,
        });
        Ok(Chain {
            target,
            records,
            path,
            volumes,
        })
    }
}
