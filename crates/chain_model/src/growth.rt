// Laws of images whose files get longer.
ghost use Rattle.std.specs.Prelude.{◌≡◌, ℕ, List};
ghost use Rattle.sd_names.specs.declared.fault.LayerFault.{LayerFault};
ghost use Rattle.sd_names.specs.declared.id.Id.{Id};
ghost use Rattle.sd_names.specs.declared.refusal.Refusal.{Refusal};
ghost use Rattle.sd_names.specs.declared.refusal.Refusal.TheVariants.{LayerRefused};
ghost use Rattle.shared_disk.specs.Changes.{grown};
ghost use Rattle.shared_disk.specs.Content.{File};
ghost use Rattle.shared_disk.specs.Crash.{IsFileOutcome};
ghost use Rattle.chain_model.specs.Folder.{Folder, OnEachFolder, Volumes, volumes_of};
ghost use Rattle.chain_model.specs.Records.{Image, Records, records_of};
ghost use Rattle.chain_model.specs.Own.{own};
ghost use Rattle.chain_model.specs.Flat.{IsFlat};
ghost use Rattle.chain_model.specs.Headers.{backing};
ghost use Rattle.chain_model.specs.Growth.{AreLonger, IsLonger, MayGrow, MayHaveGrown};
ghost use Rattle.chain_model.specs.Opening.{IsBadLayer, IsOpenable, OpenFault};

/// A law: where files of an image get longer with zeros, each volume holds and reads as what it did, and each header names
/// what it named. A file that is grown is such a file.
pub fn longer_files_read_alike()
    ensures own { (r : Records) (x y : Volumes) (v : Id) (k : ℕ) → AreLonger x y → own r y v k ≡ own r x v k }
    ensures flats { (r : Records) (flats : Id → ℕ → List ℕ) (x y : Volumes) → AreLonger x y → IsFlat r flats x → IsFlat r flats y }
    ensures named { (r : Records) (x y : Volumes) (v : Id) → AreLonger x y → backing r y v ≡ backing r x v }
    ensures grown { (size : ℕ) (f : File) → IsLonger f (grown size f) }
{}

/// A law: an outcome of a file that was made longer is one of the file as it was, made longer. So where each outcome of a
/// folder's files reads as these, each outcome does once files got longer.
pub fn longer_files_survive_alike()
    ensures file { (f g o : File) → MayGrow f g → IsFileOutcome g o → (h : File) × IsFileOutcome f h × IsLonger h o }
    ensures flats { (r : Records) (flats : Id → ℕ → List ℕ) (F G : Folder) → MayHaveGrown F G
        → OnEachFolder F (λ o. IsFlat r flats (volumes_of o)) → OnEachFolder G (λ o. IsFlat r flats (volumes_of o)) }
{}

/// A law: where files of an image get longer with zeros, an image that can be opened still can, and one that is refused is
/// refused alike, where the fault of a layer, if the refusal is one, is still there. A longer file may end a layer's fault.
pub fn longer_files_open_alike()
    ensures openable { (i : Image) (x y : Volumes) (v : Id) (vs : List Id) → AreLonger x y → IsOpenable i x v vs → IsOpenable i y v vs }
    ensures refused { (i : Image) (x y : Volumes) (e : Refusal) → AreLonger x y
        → ((v : Id) (fault : LayerFault) → e ≡ LayerRefused v fault → IsBadLayer y (records_of i y) v e) → OpenFault i x e → OpenFault i y e }
{}
