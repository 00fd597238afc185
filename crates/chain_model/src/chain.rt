// Laws of chains of volumes, and of what they read as.
ghost use Rattle.std.specs.Prelude.{◌≡◌, ◌⊎◌, ℕ, None, Some, ◌<◌, List, length, Contains, Option, true};
ghost use Rattle.sd_names.specs.declared.id.Id.{Id};
ghost use Rattle.sd_names.specs.declared.kinds.Legality.TheVariants.{Illegal};
ghost use Rattle.sd_names.specs.declared.place.Dir.{Dir};
ghost use Rattle.sd_names.specs.declared.place.Name.TheVariants.{Meta, Volume};
ghost use Rattle.sd_names.specs.declared.refusal.Refusal.{Refusal};
ghost use Rattle.shared_disk.specs.Content.{Content, File};
ghost use Rattle.shared_disk.specs.Crash.{IsOutcome, IsSettled};
ghost use Rattle.shared_disk.specs.NameCalls.{place_in};
ghost use Rattle.whole_file.specs.Text.{HasNoZero, IsTextFile, text_of};
ghost use Rattle.volume_meta.specs.declared.record.VolumeRecord.{VolumeRecord};
ghost use Rattle.chain_model.specs.Folder.{Folder, HoldSameVolumes, IsFolderOutcome, OnEachFolder, Volumes, folder_of, volumes_of};
ghost use Rattle.chain_model.specs.Records.{Records, is_passed, is_volume, parent, stored_text};
ghost use Rattle.chain_model.specs.Chain.{ComesToRing, IsBelow};
ghost use Rattle.chain_model.specs.Up.{IsUp, up_of};
ghost use Rattle.chain_model.specs.Reading.{IsReading};
ghost use Rattle.chain_model.specs.Flat.{IsFlat};
ghost use Rattle.chain_model.specs.Covered.{IsCovered};
ghost use Rattle.chain_model.specs.Opening.{IsStray};

/// A law: one list of volumes stands below a volume. It ends at a volume without a parent, and from each volume on it the
/// rest is what stands below that one. No volume stands below itself, so parents that form a ring have no such list.
pub fn one_chain()
    ensures one { (r : Records) (v : Id) (vs ws : List Id) → IsBelow r v vs → IsBelow r v ws → vs ≡ ws }
    ensures rest { (r : Records) (v w : Id) (vs : List Id) → IsBelow r v vs → Contains vs w → (ws : List Id) × IsBelow r w ws × (length ws < length vs) }
    ensures ringless { (r : Records) (v : Id) (vs : List Id) → IsBelow r v vs → Contains vs v → ⊥ }
{}

/// A law: where the volumes are these at most, the parents of each end or come to a ring, and not both. So each volume has a
/// chain exactly where no parents form a ring.
pub fn chains_end_or_ring()
    ensures either { (r : Records) (all : List Id) → ((v : Id) (x : VolumeRecord) → r v ≡ Some x → Contains all v) → (v : Id) → ((vs : List Id) × IsBelow r v vs) ⊎ ComesToRing r v }
    ensures apart { (r : Records) (v : Id) (vs : List Id) → ComesToRing r v → IsBelow r v vs → ⊥ }
{}

/// A law: the text of a volume, in a file in which nothing is unsynced, is the one that each host reads, and the one that was
/// written there.
pub fn stored_texts_are_read()
    ensures seen { (host : ℕ) (f : File) → IsSettled f → text_of host f ≡ stored_text f }
    ensures whole { (text : List ℕ) (f : File) → HasNoZero text → IsTextFile text f → stored_text f ≡ text }
{}

/// A law: exactly the volumes are passed over that are ILLEGAL and merged and have a parent. That is one of the image where
/// its check finds no stray one, so that there both readings of 'has a parent' are one.
pub fn merged_volumes_are_passed()
    ensures passed { (r : Records) (v : Id) (y : VolumeRecord) (p : Id) → r v ≡ Some y → y.legality ≡ Illegal → y.merged ≡ true → parent r v ≡ Some p → is_passed r v ≡ true }
    ensures only { (r : Records) (v : Id) → is_passed r v ≡ true → (y : VolumeRecord) × (r v ≡ Some y) × (y.legality ≡ Illegal) × (y.merged ≡ true) }
    ensures inside { (x : Volumes) (r : Records) (v : Id) → is_passed r v ≡ true → ((e : Refusal) → IsStray x r v e → ⊥)
        → (p : Id) × (parent r v ≡ Some p) × (is_volume x p ≡ true) }
    ensures parent { (r : Records) (v : Id) → is_passed r v ≡ true → parent r v ≡ None → ⊥ }
{}

/// A law: where the volumes are these at most, each has one parent that counts, also one whose parents come to a ring. Where
/// it has a chain, that is the first volume of the chain that isn't passed over.
pub fn first_that_counts()
    ensures first { (r : Records) (v : Id) (vs : List Id) → IsBelow r v vs → IsUp r v (up_of r vs) }
    ensures some { (r : Records) (all : List Id) (v : Id) → ((u : Id) (x : VolumeRecord) → r u ≡ Some x → Contains all u) → (up : Option Id) × IsUp r v up }
    ensures one { (r : Records) (all : List Id) (v : Id) (a b : Option Id) → ((u : Id) (x : VolumeRecord) → r u ≡ Some x → Contains all u) → IsUp r v a → IsUp r v b → a ≡ b }
{}

/// A law: an image has one reading volume at most, and no other LEGAL volume reads a sector of it.
pub fn one_reading_volume()
    ensures one { (r : Records) (v w : Id) (vs ws : List Id) → IsReading r v vs → IsReading r w ws → v ≡ w }
    ensures covered { (r : Records) (v : Id) (vs : List Id) (x : Volumes) (k : ℕ) → IsReading r v vs → IsCovered r v k x }
{}

/// A law: the files of volumes and their texts are those of their names in a folder. All other names say nothing, neither in a folder nor on its outcomes, and each
/// outcome of a disk gives one of a folder.
pub fn other_names_say_nothing()
    ensures files { (dir : Dir) (d : Content) (v : Id) → (volumes_of (folder_of dir d)).file v ≡ d.file (place_in dir (Volume v)) }
    ensures texts { (dir : Dir) (d : Content) (v : Id) → (volumes_of (folder_of dir d)).text v ≡ d.file (place_in dir (Meta v)) }
    ensures same { (F G : Folder) → HoldSameVolumes F G → volumes_of G ≡ volumes_of F }
    ensures outcome { (dir : Dir) (d o : Content) → IsOutcome d o → IsFolderOutcome (folder_of dir d) (folder_of dir o) }
    ensures elsewhere { (F G O : Folder) → HoldSameVolumes F G → IsFolderOutcome G O → (P : Folder) × IsFolderOutcome F P × HoldSameVolumes P O }
    ensures flats { (r : Records) (flats : Id → ℕ → List ℕ) (F G : Folder) → HoldSameVolumes F G
        → OnEachFolder F (λ o. IsFlat r flats (volumes_of o)) → OnEachFolder G (λ o. IsFlat r flats (volumes_of o)) }
{}
