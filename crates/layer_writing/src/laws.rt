// Laws of a layer's writers: contracts of functions that do nothing.
ghost use Rattle.std.specs.Prelude.{◌≡◌, ◌≢◌, ◌⊎◌, ℕ, ◌+◌, ◌*◌, ◌%◌, ◌^◌, ◌<◌, ◌≤◌, Bool, true, List};
ghost use Rattle.shared_disk.specs.Calls.{sectors_in, synced, wrote};
ghost use Rattle.shared_disk.specs.Content.{Content, File, sector_of, seen};
ghost use Rattle.shared_disk.specs.Crash.{DownLeaves, IsAlone, IsSettled, OnEach};
ghost use Rattle.shared_disk.specs.SectorCalls.{IsGrown};
ghost use Rattle.shared_disk.specs.WellFormed.{IsWellFormed, IsWellFormedFile};
ghost use Rattle.qcow_format.specs.declared.entry.Entry.TheVariants.{Data, Zero};
ghost use Rattle.qcow_format.specs.declared.header.Header.{Header};
ghost use Rattle.image_model.specs.File as image;
ghost use Rattle.image_model.specs.Layer.{block_place, entry_at};
ghost use Rattle.layer_laws.specs.Laws.{BlockRecounted, IsUnnamed, Overwritten, SameContent, layer};
ghost use Rattle.qcow_layer.specs.Knowing.{KnowsLayerOn, KnowsNumbers};
ghost use Rattle.qcow_layer.specs.Mapping.{IsSameButMap};
ghost use Rattle.qcow_layer.specs.Opening.{capacity_kept, header_kept, place_kept};
ghost use Rattle.qcow_layer.specs.declared.layer.Layer.{Layer};
ghost use Rattle.layer_writing.specs.Holding.{ComesBy, HoldSame, IsBetween, IsEither, IsInCluster, IsKept, IsRewritten, IsSpare, RaisesCounts, as_seen, on_medium, with_sector};
ghost use Rattle.layer_writing.specs.Writer.{IsLeft, IsSameFile, KnowsWriter, KnowsWriterOn, MapTells, seen_tables};

/// A layer that is known is known to a writer where nothing in its file is unsynced and the file is of whole clusters.
pub fn settled_layers_are_known()
    ensures { (l : Layer) (host : ℕ) (d : Content) → (knows : KnowsLayerOn l host d) → IsSettled knows.file → 512 * knows.file.size % 2 ^ (header_kept l).cluster_bits ≡ 0 → KnowsWriterOn l host d }
{}

/// A layer whose numbers are known in a file with nothing unsynced is known to a writer, where the file is as long as one that
/// the writer of the same file knew. So it is after each change that was synced.
pub fn layers_are_known_anew()
    ensures { (l m : Layer) (host : ℕ) (f g : File) → KnowsWriter l host f → IsSameFile l m → g.size ≡ f.size → IsSettled g → KnowsNumbers m (on_medium g) → KnowsWriter m host g }
{}

/// A sync by a host that is alone in a file leaves one outcome, what it sees. What the writer knows stays known, and a spare
/// cluster as it was seen is spare on the medium.
pub fn synced_layers_are_as_seen()
    ensures settled { (host : ℕ) (f : File) → IsAlone host f → IsSettled (synced host f) }
    ensures seen { (host : ℕ) (f : File) → IsAlone host f → as_seen host (synced host f) ≡ as_seen host f }
    ensures medium { (host : ℕ) (f : File) → IsAlone host f → OnEach (synced host f) (λ g. on_medium g ≡ as_seen host f) }
    ensures knows { (l : Layer) (host : ℕ) (f : File) → KnowsWriter l host f → KnowsWriter l host (synced host f) }
    ensures comes { (h : Header) (capacity host : ℕ) (f : File) → ComesBy (HoldSame h capacity) f (synced host f) }
    ensures spare { (h : Header) (capacity place host : ℕ) (f : File) → IsAlone host f → IsSpare (layer h (as_seen host f)) capacity place
        → OnEach (synced host f) (λ g. IsSpare (layer h (on_medium g)) capacity place) }
{}

/// Sectors of a cluster that nothing names may be written, wholly or in part: what the writer knows stays known, each
/// outcome holds what one from before held, and as the host sees it nothing else has changed.
pub fn unnamed_clusters_may_be_written()
    ensures knows { (l : Layer) (did : ℕ → Bool) (host at place : ℕ) (bytes : List ℕ) (f : File) → IsWellFormedFile f → KnowsWriter l host f
        → IsInCluster (2 ^ (header_kept l).cluster_bits) place at bytes → IsUnnamed (seen_tables l host f) (capacity_kept l) place → KnowsWriter l host (wrote did host at bytes f) }
    ensures comes { (l : Layer) (did : ℕ → Bool) (host at place : ℕ) (bytes : List ℕ) (f : File) → IsWellFormedFile f → KnowsWriter l host f
        → IsInCluster (2 ^ (header_kept l).cluster_bits) place at bytes → IsUnnamed (seen_tables l host f) (capacity_kept l) place
        → ComesBy (HoldSame (header_kept l) (capacity_kept l)) f (wrote did host at bytes f) }
    ensures seen { (l : Layer) (did : ℕ → Bool) (host at place : ℕ) (bytes : List ℕ) (f : File) → IsWellFormedFile f → KnowsWriter l host f
        → IsInCluster (2 ^ (header_kept l).cluster_bits) place at bytes → IsUnnamed (seen_tables l host f) (capacity_kept l) place
        → SameContent (header_kept l) (capacity_kept l) (as_seen host f) (as_seen host (wrote did host at bytes f)) }
{}

/// Sectors of a cluster that an entry of zeros keeps may be written, wholly or in part: what the writer knows stays known,
/// each outcome holds what one from before held, and as the host sees it nothing else has changed.
pub fn kept_clusters_may_be_written()
    ensures knows { (l : Layer) (did : ℕ → Bool) (host at k place : ℕ) (bytes : List ℕ) (f : File) → IsWellFormedFile f → KnowsWriter l host f
        → IsInCluster (2 ^ (header_kept l).cluster_bits) place at bytes → entry_at (seen_tables l host f) k ≡ Zero place → place ≢ 0 → KnowsWriter l host (wrote did host at bytes f) }
    ensures comes { (l : Layer) (did : ℕ → Bool) (host at k place : ℕ) (bytes : List ℕ) (f : File) → IsWellFormedFile f → KnowsWriter l host f
        → IsInCluster (2 ^ (header_kept l).cluster_bits) place at bytes → entry_at (seen_tables l host f) k ≡ Zero place → place ≢ 0
        → ComesBy (HoldSame (header_kept l) (capacity_kept l)) f (wrote did host at bytes f) }
    ensures seen { (l : Layer) (did : ℕ → Bool) (host at k place : ℕ) (bytes : List ℕ) (f : File) → IsWellFormedFile f → KnowsWriter l host f
        → IsInCluster (2 ^ (header_kept l).cluster_bits) place at bytes → entry_at (seen_tables l host f) k ≡ Zero place → place ≢ 0
        → SameContent (header_kept l) (capacity_kept l) (as_seen host f) (as_seen host (wrote did host at bytes f)) }
{}

/// Sectors of a cluster of data may be written, wholly or in part: what the writer knows stays known. Each outcome comes from
/// one from before over which these sectors are laid, and on it as in what the host sees only bytes of that cluster of the
/// virtual disk are others.
pub fn data_clusters_may_be_written()
    ensures knows { (l : Layer) (did : ℕ → Bool) (host at k place : ℕ) (bytes : List ℕ) (f : File) → IsWellFormedFile f → KnowsWriter l host f
        → IsInCluster (2 ^ (header_kept l).cluster_bits) place at bytes → entry_at (seen_tables l host f) k ≡ Data place → KnowsWriter l host (wrote did host at bytes f) }
    ensures comes { (l : Layer) (did : ℕ → Bool) (host at k place : ℕ) (bytes : List ℕ) (f : File) → IsWellFormedFile f → KnowsWriter l host f
        → IsInCluster (2 ^ (header_kept l).cluster_bits) place at bytes → entry_at (seen_tables l host f) k ≡ Data place
        → OnEach (wrote did host at bytes f) (IsRewritten (header_kept l) (capacity_kept l) k place did at bytes f) }
    ensures seen { (l : Layer) (did : ℕ → Bool) (host at k place : ℕ) (bytes : List ℕ) (f : File) → IsWellFormedFile f → KnowsWriter l host f
        → IsInCluster (2 ^ (header_kept l).cluster_bits) place at bytes → entry_at (seen_tables l host f) k ≡ Data place
        → Overwritten (header_kept l) (capacity_kept l) k place (as_seen host f) (as_seen host (wrote did host at bytes f)) }
{}

/// Counts of a block that is there may be raised, by whole sectors, wholly or in part: each outcome holds what one from
/// before held. A layer whose map tells which clusters are used then, and that is the same but for its map, knows its file;
/// whatever its map says, it is sound on each outcome. As the host sees it the counts of the block are those in its sectors,
/// and nothing else has changed.
pub fn counts_may_be_raised()
    ensures knows { (l m : Layer) (did : ℕ → Bool) (host at k : ℕ) (bytes : List ℕ) (f : File) → IsWellFormedFile f → KnowsWriter l host f
        → block_place (seen_tables l host f) k ≢ 0 → IsInCluster (2 ^ (header_kept l).cluster_bits) (block_place (seen_tables l host f) k) at bytes
        → at + sectors_in bytes ≤ f.size → RaisesCounts (seen host f) at bytes
        → IsSameButMap l m → MapTells m (seen_tables m host (wrote did host at bytes f)) → KnowsWriter m host (wrote did host at bytes f) }
    ensures left { (l m : Layer) (did : ℕ → Bool) (host at k : ℕ) (bytes : List ℕ) (f : File) → IsWellFormedFile f → KnowsWriter l host f
        → block_place (seen_tables l host f) k ≢ 0 → IsInCluster (2 ^ (header_kept l).cluster_bits) (block_place (seen_tables l host f) k) at bytes
        → at + sectors_in bytes ≤ f.size → RaisesCounts (seen host f) at bytes → IsSameButMap l m → IsLeft m host (wrote did host at bytes f) }
    ensures comes { (l : Layer) (did : ℕ → Bool) (host at k : ℕ) (bytes : List ℕ) (f : File) → IsWellFormedFile f → KnowsWriter l host f
        → block_place (seen_tables l host f) k ≢ 0 → IsInCluster (2 ^ (header_kept l).cluster_bits) (block_place (seen_tables l host f) k) at bytes
        → at + sectors_in bytes ≤ f.size → RaisesCounts (seen host f) at bytes → ComesBy (HoldSame (header_kept l) (capacity_kept l)) f (wrote did host at bytes f) }
    ensures seen { (l : Layer) (did : ℕ → Bool) (host at k : ℕ) (bytes : List ℕ) (f : File) → IsWellFormedFile f → KnowsWriter l host f
        → block_place (seen_tables l host f) k ≢ 0 → IsInCluster (2 ^ (header_kept l).cluster_bits) (block_place (seen_tables l host f) k) at bytes
        → at + sectors_in bytes ≤ f.size → RaisesCounts (seen host f) at bytes
        → BlockRecounted (header_kept l) (capacity_kept l) k (as_seen host f) (as_seen host (wrote did host at bytes f)) }
{}

/// A sector that is written to a file with nothing unsynced: each outcome has the old sectors or the new ones, also where
/// the write failed. A sync puts the new ones onto the medium.
pub fn one_sector_is_old_or_new()
    ensures each { (did : ℕ → Bool) (host at : ℕ) (bytes : List ℕ) (f : File) → IsSettled f → sectors_in bytes ≡ 1
        → OnEach (wrote did host at bytes f) (IsEither f.stable (with_sector at (sector_of bytes 0) f.stable)) }
    ensures written { (host at : ℕ) (bytes : List ℕ) (f : File) → IsSettled f → sectors_in bytes ≡ 1
        → IsBetween host f.stable (with_sector at (sector_of bytes 0) f.stable) (wrote (λ _. true) host at bytes f) }
    ensures synced { (host : ℕ) (old new : ℕ → List ℕ) (f : File) → IsBetween host old new f → IsSettled (synced host f) × ((synced host f).stable ≡ new) }
{}

/// What a writer knows stays true where others leave the file alone, where they go down, and where they make it longer by
/// whole clusters.
pub fn known_writers_stay_known()
    ensures untouched { (l : Layer) (host : ℕ) (d e : Content) → e.file (place_kept l) ≡ d.file (place_kept l) → KnowsWriterOn l host d → KnowsWriterOn l host e }
    ensures down { (l : Layer) (host other : ℕ) (d e : Content) → host ≢ other → DownLeaves d other e → KnowsWriterOn l host d → KnowsWriterOn l host e }
    ensures grown { (l : Layer) (host size : ℕ) (d e : Content) → IsWellFormed d → 512 * size < 2 ^ 64 → 512 * size % 2 ^ (header_kept l).cluster_bits ≡ 0
        → IsGrown d (place_kept l) size e → KnowsWriterOn l host d → KnowsWriterOn l host e }
{}

/// Outcomes hold what those hold from which they come, over any number of changes.
pub fn holding_goes_on()
    ensures itself { (h : Header) (capacity : ℕ) (f : File) → ComesBy (HoldSame h capacity) f f }
    ensures through { (h : Header) (capacity : ℕ) (f g k : File) → ComesBy (HoldSame h capacity) f g → ComesBy (HoldSame h capacity) g k → ComesBy (HoldSame h capacity) f k }
{}

/// A place that nothing names as the writer sees it is named by nothing on each outcome. A spare place stays spare while
/// names and counts stay.
pub fn spare_places_stay()
    ensures each { (l : Layer) (host place : ℕ) (f : File) → KnowsWriter l host f → IsUnnamed (seen_tables l host f) (capacity_kept l) place
        → OnEach f (λ g. IsUnnamed (layer (header_kept l) (on_medium g)) (capacity_kept l) place) }
    ensures spare { (h : Header) (capacity place : ℕ) (f g : image.File) → SameContent h capacity f g → g.size ≡ f.size → IsSpare (layer h f) capacity place → IsSpare (layer h g) capacity place }
{}
