// Laws of linking: contracts of functions that do nothing.
ghost use Rattle.std.specs.Prelude.{◌≡◌, ◌≢◌, ◌⊎◌, ℕ, ◌*◌, ◌/◌, ◌^◌, ◌<◌, Option, Ok, Some};
ghost use Rattle.shared_disk.specs.Content.{Content, File};
ghost use Rattle.shared_disk.specs.Crash.{DownLeaves, IsSettled};
ghost use Rattle.qcow_format.specs.declared.header.Header.{Header};
ghost use Rattle.qcow_format.specs.declared.entry.Entry.TheVariants.{Zero};
ghost use Rattle.image_model.specs.File as image;
ghost use Rattle.image_model.specs.Layer.{Tables, entry_at};
ghost use Rattle.image_model.specs.Soundness.{IsSound, layer_header};
ghost use Rattle.layer_laws.specs.Laws.{IsNamedOnlyAt, entry_position, layer};
ghost use Rattle.link_laws.specs.Links.{IsAmong, IsCounted, Linked, row_of};
ghost use Rattle.layer_writing.specs.Holding.{ComesBy, IsSpare};
ghost use Rattle.qcow_layer.specs.Opening.{place_kept};
ghost use Rattle.qcow_layer.specs.declared.layer.Layer.{Layer};
ghost use Rattle.layer_linking.specs.Calls.{first_stage, stage_of, table_given, table_of};
ghost use Rattle.layer_linking.specs.Linking.{IsAsBefore, IsLeftSo, IsLinkable, IsLinked, KnowsLinking};
ghost use Rattle.layer_linking.specs.declared.linking.Linking.{Linking};

/// A linking that was begun knows a file in which it may begin.
pub fn linkings_begin()
    ensures { (l : Linking) (layer : Layer) (host table : ℕ) (f : File) (d : Content) → IsLinkable layer l host f → d.file (place_kept layer) ≡ Some f
        → table_of l ≡ table_given table → stage_of l ≡ first_stage table → KnowsLinking l layer host f d }
{}

/// What a linking knows stays true where others leave the file alone, and where they go down.
pub fn linkings_stay_known()
    ensures untouched { (l : Linking) (layer : Layer) (host : ℕ) (f : File) (d e : Content) → e.file (place_kept layer) ≡ d.file (place_kept layer) → KnowsLinking l layer host f d → KnowsLinking l layer host f e }
    ensures down { (l : Linking) (layer : Layer) (host other : ℕ) (f : File) (d e : Content) → host ≢ other → DownLeaves d other e → KnowsLinking l layer host f d → KnowsLinking l layer host f e }
{}

/// Each outcome of the file in the course of a linking comes from the file in which it began: it has none of the entries, or
/// all.
pub fn outcomes_come_from_the_start()
    ensures { (l : Linking) (layer : Layer) (host : ℕ) (f : File) (e : Content) → IsSettled f → (left : IsLeftSo layer l host f e)
        → ComesBy (λ from now. IsAsBefore layer from now ⊎ IsLinked layer l from now) f left.file }
{}

/// Which places a cluster may get: one that is spare, as far as entries reach, and one that is kept for it already, where it
/// reads as zeros. Each cluster below the capacity has an L1 entry.
pub fn places_may_be_given()
    ensures spare { (t : Tables) (capacity m place : ℕ) → IsSpare t capacity place → place < 2 ^ 56 → IsCounted t place × IsNamedOnlyAt t capacity m place }
    ensures zero { (file : image.File) (capacity k place : ℕ) (h : Header) → layer_header file capacity ≡ Ok h → IsSound file capacity → entry_at (layer h file) k ≡ Zero place → place ≢ 0
        → IsCounted (layer h file) place × IsNamedOnlyAt (layer h file) capacity (entry_position (layer h file) k) place }
    ensures row { (file : image.File) (capacity k : ℕ) (h : Header) → layer_header file capacity ≡ Ok h → k * 2 ^ h.cluster_bits < capacity → row_of (layer h file) (k / 64) < h.l1_size }
{}

/// Places that a linking didn't give are as good as they were for the next one.
pub fn other_places_stay()
    ensures spare { (h : Header) (capacity place : ℕ) (to behind : ℕ → Option ℕ) (f g : image.File) → Linked h capacity to behind f g → (IsAmong to place → ⊥) → (IsAmong behind place → ⊥)
        → IsSpare (layer h f) capacity place → IsSpare (layer h g) capacity place }
    ensures kept { (h : Header) (capacity m place : ℕ) (to behind : ℕ → Option ℕ) (f g : image.File) → Linked h capacity to behind f g → (IsAmong to place → ⊥) → (IsAmong behind place → ⊥)
        → IsCounted (layer h f) place × IsNamedOnlyAt (layer h f) capacity m place → IsCounted (layer h g) place × IsNamedOnlyAt (layer h g) capacity m place }
{}
