// Laws of opening and of opened layers: contracts of functions that do nothing.
ghost use Rattle.std.specs.Prelude.{◌≡◌, ◌≢◌, ◌+◌, ◌*◌, ◌/◌, ◌^◌, ◌<◌, ◌≤◌, ℕ, List, Ok, Option, Some, None};
ghost use Rattle.sd_names.specs.declared.place.Place.{Place};
ghost use Rattle.shared_disk.specs.Content.{Content, own_of, seen};
ghost use Rattle.shared_disk.specs.SectorCalls.{IsGrown};
ghost use Rattle.shared_disk.specs.Content as disk;
ghost use Rattle.layer_creating.specs.New.{IsCapacity, IsLength, IsNewLayer};
ghost use Rattle.layer_creating.specs.declared.backing.Backing.{Backing};
ghost use Rattle.qcow_layer.specs.Fresh.{IsFresh};
ghost use Rattle.qcow_format.specs.declared.header.Header.{Header};
ghost use Rattle.image_model.specs.File.{File, file_of};
ghost use Rattle.image_model.specs.Soundness.{layer_header, names};
ghost use Rattle.shared_disk.specs.Crash.{DownLeaves, IsSettled};
ghost use Rattle.shared_disk.specs.WellFormed.{IsWellFormed};
ghost use Rattle.qcow_layer.specs.Knowing.{KnowsLayerOn, KnowsNumbers};
ghost use Rattle.qcow_layer.specs.Opening.{HasSameLength, IsBegun, KnowsFile, OpensFile, OpensHeader, OpensInside, steps_left, target_kept, target_of, work_kept};
ghost use Rattle.sd_names.specs.declared.id.Id.{Id};
ghost use Rattle.image_model.specs.Layer.{Tables};
ghost use Rattle.layer_walk.specs.Items.{layer_of};
ghost use Rattle.layer_walk.specs.Left.{Antitone, positions_from};
ghost use Rattle.layer_walk.specs.Steps.{IsStop, named_from};
ghost use Rattle.qcow_layer.specs.declared.layer.Layer.{Layer};
ghost use Rattle.qcow_layer.specs.Stages.{IsOpened};
ghost use Rattle.qcow_layer.specs.Seen.{IsSeen};
ghost use Rattle.qcow_layer.specs.declared.opening.Opening.{Opening};
ghost use Rattle.layer_walk.specs.declared.work.Work.{Work};
ghost use Rattle.qcow_layer.specs.declared.stages.Target.{Target};

/// How many steps an opening takes: `tables n` being how many positions from n on name a cluster of the header, a refcount
/// block or an L2 table, of those before the first that has a fault by itself or names a place a second time, an opening of
/// which the file is known is one to which `falls` of its step applies. Each file has such a position, or none of its
/// positions is one; and no two before it name one place.
pub fn known_files_bound_the_steps()
    ensures fits { (o : Opening) (host count stop : ℕ) (sectors : ℕ → List ℕ) (d : Content) (h : Header) → KnowsFile o host count sectors d
        → layer_header (file_of count sectors) (target_of o).capacity ≡ Ok h → IsStop (layer_of h (file_of count sectors)) (target_of o).capacity stop
        → OpensFile h (named_from (layer_of h (file_of count sectors)) (target_of o).capacity stop) o }
    ensures stops { (t : Tables) (capacity : ℕ) → (stop : ℕ) × IsStop t capacity stop }
    ensures differ { (t : Tables) (capacity stop a b place : ℕ) → IsStop t capacity stop → a < b → b < stop → names t capacity a ≡ Some place → names t capacity b ≡ Some place → ⊥ }
    ensures fewer { (t : Tables) (capacity stop : ℕ) → Antitone (named_from t capacity stop) }
    ensures begun { (o : Opening) (id : Id) (place : Place) (capacity most : ℕ) (h : Header) (tables : ℕ → ℕ) → IsBegun o id place capacity most
        → steps_left h tables o ≡ 2 * (2 ^ h.cluster_bits / 512 * tables 0) + 5 }
{}

/// An opening ends on every disk: one that was begun stays at entries that are in their tables, and so `falls` of its steps
/// applies with the count that has each position.
pub fn every_disk_bounds_the_steps()
    ensures fits { (o : Opening) (h : Header) → OpensHeader h o → OpensInside o → OpensFile h (positions_from h) o }
    ensures fewer { (h : Header) → Antitone (positions_from h) }
{}

/// What an opening knows stays known whatever else changes on the disk, while the host sees the same sectors in the file.
/// Once its length was asked, the file may be longer than it was then.
pub fn knowledge_survives()
    ensures { (o : Opening) (host count : ℕ) (sectors : ℕ → List ℕ) (d e : Content) → (knows : KnowsFile o host count sectors d)
        → (seen : IsSeen host (target_of o).place count sectors e) → HasSameLength o knows.seen.file.size seen.file.size → KnowsFile o host count sectors e }
{}

/// A host sees in a file what it saw, where the file wasn't touched, and where it was made longer, by whichever host. No
/// write of the host that waits lies past the file's end, since writes are made inside it.
pub fn grown_files_are_seen()
    ensures untouched { (host count : ℕ) (place : Place) (sectors : ℕ → List ℕ) (d e : Content) → e.file place ≡ d.file place
        → IsSeen host place count sectors d → IsSeen host place count sectors e }
    ensures grown { (host count size : ℕ) (place : Place) (sectors : ℕ → List ℕ) (d e : Content) → (seen : IsSeen host place count sectors d)
        → ((k : ℕ) → seen.file.size ≤ k → own_of host k seen.file.loose ≡ None) → IsGrown d place size e → IsSeen host place count sectors e }
{}

/// An opened layer has a parent exactly where its header has a backing file.
pub fn parents_are_backing_files()
    ensures { (target : Target) (file : File) (work : Work) → IsOpened target file work
        → (work.parent ≡ None → work.header.backing_file_offset ≡ 0) × (work.header.backing_file_offset ≡ 0 → work.parent ≡ None) }
{}

/// An opened layer knows its file, where nothing in it was unsynced: it is sound on each outcome, its header and its parent
/// are those that its host sees, and its map tells for each cluster that it has whether it is used.
pub fn opened_layers_are_known()
    ensures { (layer : Layer) (host count : ℕ) (sectors : ℕ → List ℕ) (d : Content) → (s : IsSeen host (target_kept layer).place count sectors d) → IsSettled s.file → 512 * s.file.size < 2 ^ 64
        → IsOpened (target_kept layer) (file_of count sectors) (work_kept layer) → KnowsLayerOn layer host d }
{}

/// What an opened layer knows of its file stays true whatever others do: where they leave the file, go down, or make it longer.
pub fn known_layers_stay_known()
    ensures untouched { (layer : Layer) (host : ℕ) (d e : Content) → e.file (target_kept layer).place ≡ d.file (target_kept layer).place → KnowsLayerOn layer host d → KnowsLayerOn layer host e }
    ensures down { (layer : Layer) (host other : ℕ) (d e : Content) → host ≢ other → DownLeaves d other e → KnowsLayerOn layer host d → KnowsLayerOn layer host e }
    ensures grown { (layer : Layer) (host size : ℕ) (d e : Content) → IsWellFormed d → 512 * size < 2 ^ 64 → IsGrown d (target_kept layer).place size e → KnowsLayerOn layer host d → KnowsLayerOn layer host e }
{}

/// The numbers of a known layer are those of the file that its host sees, so that a look-up finds what the file says.
pub fn known_layers_are_seen()
    ensures { (layer : Layer) (host : ℕ) (d : Content) → (knows : KnowsLayerOn layer host d)
        → IsSeen host (target_kept layer).place knows.file.size (seen host knows.file) d × (512 * knows.file.size < 2 ^ 64) × KnowsNumbers layer (file_of knows.file.size (seen host knows.file)) }
{}

/// The layer of a file that is made anew is known once the file is made: an opening of it would find the same.
pub fn fresh_layers_are_known()
    ensures { (layer : Layer) (id : Id) (at : Place) (capacity greatest : ℕ) (backing : Option Backing) (length host : ℕ) (d : Content) (f : disk.File)
        → IsFresh layer id at capacity greatest backing length → IsCapacity capacity → IsLength length → d.file at ≡ Some f → IsNewLayer capacity backing length f → KnowsLayerOn layer host d }
{}
