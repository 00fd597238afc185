// Laws of layers.
ghost use Rattle.std.specs.Prelude.{◌≡◌, ℕ, ◌<◌, ◌≤◌, true, List, Ok};
ghost use Rattle.sd_names.specs.declared.fault.LayerFault.{LayerFault};
ghost use Rattle.qcow_format.specs.declared.header.Header.{Header};
ghost use Rattle.image_model.specs.File.{File, file_of, sector_in};
ghost use Rattle.image_model.specs.Layer.{Tables, is_used};
ghost use Rattle.image_model.specs.Room.{IsWanted, Leaked, Named, Room};
ghost use Rattle.image_model.specs.Soundness.{HasFault, IsClean, IsSound, layer_header};

/// A law: a layer has one first fault at most.
pub fn one_first_fault()
    ensures { (file : File) (capacity : ℕ) (a b : LayerFault) → HasFault file capacity a → HasFault file capacity b → a ≡ b }
{}

/// A law: a layer has no first fault exactly where it is sound.
pub fn sound_without_fault()
    ensures sound { (file : File) (capacity : ℕ) (fault : LayerFault) → IsSound file capacity → HasFault file capacity fault → ⊥ }
    ensures none { (file : File) (capacity : ℕ) → ((fault : LayerFault) → HasFault file capacity fault → ⊥) → IsSound file capacity }
{}

/// A law: a cluster that a position of a sound layer names is used, and isn't leaked.
pub fn named_clusters_are_used()
    ensures used { (t : Tables) (capacity c : ℕ) → ((n : ℕ) → IsClean t capacity n) → Named t capacity c → is_used t c ≡ true }
    ensures kept { (t : Tables) (capacity c : ℕ) → Leaked t capacity c → Named t capacity c → ⊥ }
{}

/// A law: where a write finds too few free clusters, one length would do.
pub fn one_wanted_length()
    ensures { (r : Room) (need a b : ℕ) → 0 < r.cluster → IsWanted r need a → IsWanted r need b → a ≡ b }
{}

/// A law: a file that became longer, with zeros behind what it held, has the same header, is as sound, and the same of its
/// clusters are used.
pub fn longer_files_say_the_same()
    ensures header { (n m capacity : ℕ) (s r : ℕ → List ℕ) (h : Header) → n ≤ m → ((k : ℕ) → sector_in m r k ≡ sector_in n s k)
        → layer_header (file_of n s) capacity ≡ Ok h → layer_header (file_of m r) capacity ≡ Ok h }
    ensures sound { (n m capacity : ℕ) (s r : ℕ → List ℕ) → n ≤ m → ((k : ℕ) → sector_in m r k ≡ sector_in n s k)
        → IsSound (file_of n s) capacity → IsSound (file_of m r) capacity }
    ensures used { (n m c : ℕ) (s r : ℕ → List ℕ) (h : Header) → ((k : ℕ) → sector_in m r k ≡ sector_in n s k)
        → is_used (record { header = h; file = file_of m r }) c ≡ is_used (record { header = h; file = file_of n s }) c }
{}
