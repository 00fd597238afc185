// Laws of a part that is laid over a layer's volume, by changes of the layer's file.
ghost use Rattle.std.specs.Prelude.{◌≡◌, ◌⊎◌, ℕ, ◌+◌, ◌^◌, ◌≤◌, ◌<◌, Bool, true, List, Option, Some};
ghost use Rattle.sd_names.specs.declared.place.Name.TheVariants.{Volume};
ghost use Rattle.sd_names.specs.declared.kinds.Format.TheVariants.{Cow, Raw};
ghost use Rattle.shared_disk.specs.Calls.{sectors_in, wrote};
ghost use Rattle.shared_disk.specs.Content.{File};
ghost use Rattle.shared_disk.specs.Crash.{OnEach};
ghost use Rattle.shared_disk.specs.WellFormed.{IsWellFormedFile};
ghost use Rattle.qcow_format.specs.declared.entry.Entry.TheVariants.{Data};
ghost use Rattle.qcow_format.specs.declared.header.Header.{Header};
ghost use Rattle.volume_meta.specs.declared.record.VolumeRecord.{VolumeRecord};
ghost use Rattle.image_model.specs.File.{sector_in};
ghost use Rattle.image_model.specs.Layer.{entry_at};
ghost use Rattle.layer_laws.specs.Laws.{SameContent, layer};
ghost use Rattle.link_laws.specs.Links.{Linked};
ghost use Rattle.qcow_layer.specs.Opening.{capacity_kept, header_kept};
ghost use Rattle.qcow_layer.specs.declared.layer.Layer.{Layer};
ghost use Rattle.layer_writing.specs.Writer.{KnowsWriter};
ghost use Rattle.layer_writing.specs.Holding.{ComesBy, HoldSame, IsInCluster, IsRewritten, on_medium};
ghost use Rattle.chain_model.specs.Folder.{Folder, OnEachFolder, volumes_of};
ghost use Rattle.chain_model.specs.Own.{own_in, sectors_of};
ghost use Rattle.own_laws.specs.Sectors.{IsLayerOf, cluster_of, sector_at, sector_behind};
ghost use Rattle.chain_laws.specs.Laid.{IsInPart, Laying, sector_in_part};
ghost use Rattle.chain_laws.specs.Written.{FileWritten, HoldsPart};
ghost use Rattle.part_laws.specs.Steps.{AreLayers, ComeAlike, HoldsIn, IsPieceAt, StandAtPlaces};

/// A law: a change by which each outcome holds what one from before held is one step of the write. So it is while clusters
/// are placed and filled, and where the header loses features.
pub fn held_files_are_written()
    ensures alike { (l : Laying) (x : VolumeRecord) (f g : File) → l.records l.volume ≡ Some x → ComeAlike x f g → FileWritten l f g }
    ensures same { (l : Laying) (x : VolumeRecord) (h : Header) (f g : File) → l.records l.volume ≡ Some x → AreLayers x h f → AreLayers x h g → ComesBy (HoldSame h x.capacity) f g → FileWritten l f g }
{}

/// A law: so is the write of a piece of the part into its cluster of data, wholly or in part.
pub fn written_pieces_are_of_the_part()
    ensures { (l : Laying) (x : VolumeRecord) (h : Header) (c place at : ℕ) (did : ℕ → Bool) (bytes : List ℕ) (f g : File) → l.records l.volume ≡ Some x → AreLayers x h f → AreLayers x h g
        → OnEach g (IsRewritten h x.capacity c place did at bytes f) → OnEach f (λ o. entry_at (layer h (on_medium o)) c ≡ Data place)
        → IsInCluster (2 ^ h.cluster_bits) place at bytes → at + sectors_in bytes ≤ f.size → IsPieceAt l.part (sector_behind h c place at) bytes → FileWritten l f g }
{}

/// A law: so is the linking of clusters, each outcome of which has none of the entries or all, where at the places stands what
/// the sectors are to be.
pub fn linked_files_are_written()
    ensures { (l : Laying) (x : VolumeRecord) (h : Header) (to behind : ℕ → Option ℕ) (f g : File) → l.records l.volume ≡ Some x → AreLayers x h f → AreLayers x h g
        → OnEach f (StandAtPlaces l x h to) → ComesBy (λ from now. SameContent h x.capacity from now ⊎ Linked h x.capacity to behind from now) f g → FileWritten l f g }
{}

/// A law: a sector of the part is held once its cluster is data and it stands at the cluster's place.
pub fn data_of_the_part_is_held()
    ensures { (l : Laying) (x : VolumeRecord) (h : Header) (f : File) (k place : ℕ) → IsLayerOf x h f → k < sectors_of x → entry_at (layer h (on_medium f)) (cluster_of h k) ≡ Data place
        → sector_in f.size f.stable (sector_at h place k) ≡ sector_in_part l.part k → own_in x f k ≡ Some (sector_in_part l.part k) }
{}

/// A law: sectors of the part that are held stay so while more of it is written.
pub fn held_parts_stay_held()
    ensures { (l : Laying) (x : VolumeRecord) (among : ℕ → Bool) (f g : File) → l.records l.volume ≡ Some x → FileWritten l f g → OnEach f (HoldsIn l x among) → OnEach g (HoldsIn l x among) }
{}

/// A law: once each sector of the part is held on each outcome of the file, it is so on each outcome of the folder.
pub fn volumes_hold_the_part()
    ensures { (l : Laying) (x : VolumeRecord) (among : ℕ → Bool) (f : File) (F : Folder) → l.records l.volume ≡ Some x → F (Volume l.volume) ≡ Some f → ((k : ℕ) → IsInPart l.part k → among k ≡ true)
        → OnEach f (HoldsIn l x among) → OnEachFolder F (λ O. HoldsPart l (volumes_of O)) }
{}

/// A law: a file that the layer's writer knows is the volume's layer on each outcome, as is asked above.
pub fn known_files_are_layers()
    ensures { (x : VolumeRecord) (w : Layer) (host : ℕ) (f : File) → KnowsWriter w host f → IsWellFormedFile f → x.format ≡ Cow → x.capacity ≡ capacity_kept w → AreLayers x (header_kept w) f }
{}

/// A law: the write of a part to a raw volume's file, wholly or in part, is one step of the write, and a sector of the part
/// is held where it stands in the file.
pub fn raw_files_are_written()
    ensures written { (l : Laying) (x : VolumeRecord) (did : ℕ → Bool) (host : ℕ) (f : File) → l.records l.volume ≡ Some x → x.format ≡ Raw → l.part.at + sectors_in l.part.bytes ≤ f.size
        → FileWritten l f (wrote did host l.part.at l.part.bytes f) }
    ensures held { (l : Laying) (x : VolumeRecord) (f : File) (k : ℕ) → x.format ≡ Raw → k < sectors_of x → k < f.size → f.stable k ≡ sector_in_part l.part k → own_in x f k ≡ Some (sector_in_part l.part k) }
{}
