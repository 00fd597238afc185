// Laws of the sectors that a layer's volume holds.
ghost use Rattle.std.specs.Prelude.{◌≡◌, ℕ, ◌+◌, ◌%◌, ◌≤◌, ◌<◌, ◌^◌, Bool, List, Option, None, Some};
ghost use Rattle.shared_disk.specs.Calls.{sectors_in};
ghost use Rattle.shared_disk.specs.Content.{File};
ghost use Rattle.qcow_format.specs.declared.entry.Entry.TheVariants.{Data};
ghost use Rattle.qcow_format.specs.declared.header.Header.{Header};
ghost use Rattle.volume_meta.specs.declared.record.VolumeRecord.{VolumeRecord};
ghost use Rattle.image_model.specs.File.{sector_in};
ghost use Rattle.image_model.specs.Layer.{entry_at, own_byte};
ghost use Rattle.layer_laws.specs.Laws.{layer};
ghost use Rattle.link_laws.specs.Links.{Linked};
ghost use Rattle.layer_writing.specs.Holding.{HoldSame, IsInCluster, IsRewritten, on_medium};
ghost use Rattle.chain_model.specs.Own.{own_in, sectors_of};
ghost use Rattle.own_laws.specs.Sectors.{HoldAlike, HoldOver, IsLayerOf, cluster_of, sector_at, sector_behind};

/// A law: a sector of a cluster of data is held as it stands at the cluster's place.
pub fn data_is_held_at_its_place()
    ensures { (x : VolumeRecord) (h : Header) (f : File) (k place : ℕ) → IsLayerOf x h f → k < sectors_of x → entry_at (layer h (on_medium f)) (cluster_of h k) ≡ Data place
        → own_in x f k ≡ Some (sector_in f.size f.stable (sector_at h place k)) }
{}

/// A law: where a layer says the same bytes in two files, with one header or with two, the volume holds the same sectors. So
/// it is where the layer holds the same of the virtual disk, as while clusters are placed.
pub fn layers_with_the_same_bytes_hold_alike()
    ensures bytes { (x : VolumeRecord) (h g : Header) (f f' : File) → IsLayerOf x h f → IsLayerOf x g f'
        → ((i : ℕ) → own_byte (layer g (on_medium f')) i ≡ own_byte (layer h (on_medium f)) i) → HoldAlike x f f' }
    ensures same { (x : VolumeRecord) (h : Header) (f f' : File) → IsLayerOf x h f → IsLayerOf x h f' → HoldSame h x.capacity (on_medium f) (on_medium f') → HoldAlike x f f' }
{}

/// A law: where a piece was written into a cluster of data, each sector is held as on the outcome from which this one comes,
/// or is that of the piece.
pub fn written_data_is_held()
    ensures { (x : VolumeRecord) (h : Header) (c place at : ℕ) (did : ℕ → Bool) (bytes : List ℕ) (f g : File) → IsLayerOf x h g
        → (rewritten : IsRewritten h x.capacity c place did at bytes f g) → IsLayerOf x h rewritten.old
        → entry_at (layer h (on_medium rewritten.old)) c ≡ Data place → IsInCluster (2 ^ h.cluster_bits) place at bytes → at + sectors_in bytes ≤ f.size
        → HoldOver x (sector_behind h c place at) bytes rewritten.old g }
{}

/// A law: once clusters got their places, the sectors of all others are held as before, and theirs as they stood at the places.
pub fn linked_clusters_are_held()
    ensures others { (x : VolumeRecord) (h : Header) (to behind : ℕ → Option ℕ) (f g : File) (k : ℕ) → IsLayerOf x h f → IsLayerOf x h g → Linked h x.capacity to behind (on_medium f) (on_medium g)
        → to (cluster_of h k) ≡ None → own_in x g k ≡ own_in x f k }
    ensures linked { (x : VolumeRecord) (h : Header) (to behind : ℕ → Option ℕ) (f g : File) (k place : ℕ) → IsLayerOf x h f → IsLayerOf x h g → Linked h x.capacity to behind (on_medium f) (on_medium g)
        → k < sectors_of x → place % 512 ≡ 0 → to (cluster_of h k) ≡ Some place → own_in x g k ≡ Some (sector_in f.size f.stable (sector_at h place k)) }
{}
