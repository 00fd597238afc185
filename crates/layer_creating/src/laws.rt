// Laws of new layers: contracts of functions that do nothing.
ghost use Rattle.std.specs.Prelude.{◌≡◌, ℕ, ◌≤◌, Option};
ghost use Rattle.shared_disk.specs.Content.{Content};
ghost use Rattle.image_model.specs.File.{file_of};
ghost use Rattle.layer_creating.specs.Creating.{Knows, place_of};
ghost use Rattle.layer_creating.specs.New.{HasBytes, IsCapacity, new_sector};
ghost use Rattle.layer_creating.specs.Says.{SaysNew};
ghost use Rattle.layer_creating.specs.declared.backing.Backing.{Backing};
ghost use Rattle.layer_creating.specs.declared.creating.Creating.{Creating};

/// A new layer's file, of 20 clusters or more, is sound, with the header that it is to have and the parent that it lies over.
/// It holds no cluster of the virtual disk; clusters 0 to 3 are used, and no other one but the first of each range without a
/// block.
pub fn new_layers_are_sound()
    ensures { (capacity n : ℕ) (backing : Option Backing) → IsCapacity capacity → HasBytes backing → 2560 ≤ n → SaysNew capacity backing (file_of n (new_sector capacity backing)) }
{}

/// What is known of a file that is being made stays known while nobody else touches it.
pub fn knowledge_survives()
    ensures { (c : Creating) (host : ℕ) (d e : Content) → e.file (place_of c) ≡ d.file (place_of c) → Knows c host d → Knows c host e }
{}
