// Laws of placings: contracts of functions that do nothing.
ghost use Rattle.std.specs.Prelude.{◌≡◌, ◌≢◌, ◌⊎◌, ℕ, ◌+◌, ◌*◌, ◌^◌, ◌<◌, ◌≤◌, List, Some, length, slice_index};
ghost use Rattle.shared_disk.specs.Content.{Content, File};
ghost use Rattle.shared_disk.specs.Crash.{DownLeaves};
ghost use Rattle.image_model.specs.Room.{Room, Short, end_of_room, free_below};
ghost use Rattle.qcow_layer.specs.Knowing.{mapped};
ghost use Rattle.qcow_layer.specs.Opening.{capacity_kept, header_kept, place_kept};
ghost use Rattle.qcow_layer.specs.declared.layer.Layer.{Layer};
ghost use Rattle.layer_writing.specs.Holding.{IsSpare};
ghost use Rattle.layer_writing.specs.Writer.{KnowsWriter, seen_tables};
ghost use Rattle.layer_placing.specs.Chosen.{IsShort, most_clusters};
ghost use Rattle.layer_placing.specs.Knows.{IsChoice};
ghost use Rattle.layer_placing.specs.Placing.{IsBegun, KnowsFile, placing_left, stage_of};
ghost use Rattle.layer_placing.specs.declared.placing.Placing.{Placing};

/// A placing that was begun knows each file that the layer's writer knows. It takes one step, and for each cluster at most
/// seven and one for each piece of 65,536 bytes in a cluster.
pub fn placings_begin()
    ensures knows { (p : Placing) (count host : ℕ) (l : Layer) (f : File) → IsBegun count p → KnowsWriter l host f → KnowsFile p l host f }
    ensures steps { (p : Placing) (count pieces : ℕ) → IsBegun count p → placing_left pieces p ≡ 1 + count * (7 + pieces) }
{}

/// What a placing knows is of a file that stays as it is when another host goes down.
pub fn placings_survive_others()
    ensures { (p : Placing) (host other : ℕ) (l : Layer) (f : File) (d e : Content) → host ≢ other → DownLeaves d other e → d.file (place_kept l) ≡ Some f → KnowsFile p l host f → e.file (place_kept l) ≡ Some f }
{}

/// A refusal for want of room says what the definition of room says, where the file isn't longer than the layer's map, and
/// the map has so many free clusters or all that the refcount table covers.
pub fn short_of_room()
    ensures { (l : Layer) (r : Room) (need bytes length : ℕ) → end_of_room r ≤ mapped l → (most_clusters r ≤ mapped l) ⊎ (need ≤ free_below r (mapped l)) → IsShort l r need bytes length → Short r need bytes length }
{}

/// The clusters that a placing chooses in its first step are none of the spare places, as those which an earlier placing gave
/// and no entry names yet.
pub fn spare_places_are_not_chosen()
    ensures { (p : Placing) (count host i place : ℕ) (l : Layer) (f : File) (xs : List ℕ) → IsBegun count p → KnowsWriter l host f → IsChoice l host f (stage_of p) xs → i < length xs
        → IsSpare (seen_tables l host f) (capacity_kept l) place → slice_index xs i * 2 ^ (header_kept l).cluster_bits ≢ place }
{}
