// Laws of an image's opening.
ghost use Rattle.std.specs.Prelude.{◌≡◌, ◌⊎◌, ◌≤◌, List, length, Contains, None, Some, true, unwrap_or};
ghost use Rattle.sd_names.specs.Id.{zero_id};
ghost use Rattle.sd_names.specs.Refusal.{refusal_number};
ghost use Rattle.sd_names.specs.declared.id.Id.{Id};
ghost use Rattle.sd_names.specs.declared.kinds.Format.TheVariants.{Cow, Raw};
ghost use Rattle.sd_names.specs.declared.refusal.Refusal.{Refusal};
ghost use Rattle.shared_disk.specs.Content.{File};
ghost use Rattle.volume_meta.specs.declared.record.VolumeRecord.{VolumeRecord};
ghost use Rattle.image_model.specs.File.{file_of};
ghost use Rattle.image_model.specs.Soundness.{IsSound};
ghost use Rattle.chain_model.specs.Folder.{Volumes};
ghost use Rattle.chain_model.specs.Records.{Image, is_volume, parent, records_of};
ghost use Rattle.chain_model.specs.Chain.{IsBelow, path_of};
ghost use Rattle.chain_model.specs.Up.{up_of};
ghost use Rattle.chain_model.specs.Opening.{AreVolumes, IsOpenable, IsUsed, OpenFault, named_by_header, opening_numbers};

/// A law: an image has one first refusal at most, with one of the numbers 57, 60, 65, 67, 68 and 80.
pub fn one_first_refusal()
    ensures one { (i : Image) (x : Volumes) (a b : Refusal) → OpenFault i x a → OpenFault i x b → a ≡ b }
    ensures number { (i : Image) (x : Volumes) (e : Refusal) → OpenFault i x e → Contains opening_numbers (refusal_number e) }
{}

/// A law: an image whose volumes are a list can be opened exactly where it has no first refusal.
pub fn opened_without_refusal()
    ensures openable { (i : Image) (x : Volumes) (v : Id) (vs : List Id) (e : Refusal) → IsOpenable i x v vs → OpenFault i x e → ⊥ }
    ensures none { (i : Image) (x : Volumes) (all : List Id) → AreVolumes x all → ((e : Refusal) → OpenFault i x e → ⊥) → (v : Id) × (vs : List Id) × IsOpenable i x v vs }
{}

/// A law: an image that can be opened is whole. It has at most 32 volumes, each with a text that reads and a file; parents are
/// volumes of it and end; raw volumes have none; no volume that a LEGAL one reads through is smaller than the one below it;
/// each layer of the path is sound, and its header names the volume's parent or the one that counts.
pub fn opened_images_are_whole()
    ensures few { (i : Image) (x : Volumes) (v : Id) (vs all : List Id) → IsOpenable i x v vs → AreVolumes x all → length all ≤ 32 }
    ensures texts { (i : Image) (x : Volumes) (v : Id) (vs : List Id) (w : Id) → IsOpenable i x v vs → is_volume x w ≡ true
        → (y : VolumeRecord) × (records_of i x w ≡ Some y) }
    ensures files { (i : Image) (x : Volumes) (v : Id) (vs : List Id) (w : Id) → IsOpenable i x v vs → is_volume x w ≡ true
        → (f : File) × (x.file w ≡ Some f) }
    ensures parents { (i : Image) (x : Volumes) (v : Id) (vs : List Id) (w p : Id) → IsOpenable i x v vs → parent (records_of i x) w ≡ Some p → is_volume x p ≡ true }
    ensures chains { (i : Image) (x : Volumes) (v : Id) (vs : List Id) (w : Id) → IsOpenable i x v vs → (ws : List Id) × IsBelow (records_of i x) w ws }
    ensures raw { (i : Image) (x : Volumes) (v : Id) (vs : List Id) (w : Id) (y : VolumeRecord) → IsOpenable i x v vs → records_of i x w ≡ Some y
        → y.format ≡ Raw → parent (records_of i x) w ≡ None }
    ensures capacities { (i : Image) (x : Volumes) (v : Id) (vs : List Id) (w p : Id) (ws : List Id) (y z : VolumeRecord) → IsOpenable i x v vs
        → IsUsed (records_of i x) w → records_of i x w ≡ Some y → IsBelow (records_of i x) w ws → up_of (records_of i x) ws ≡ Some p
        → records_of i x p ≡ Some z → z.capacity ≤ y.capacity }
    ensures layers { (i : Image) (x : Volumes) (v : Id) (vs : List Id) (w : Id) (y : VolumeRecord) (f : File) → IsOpenable i x v vs
        → Contains (path_of (records_of i x) v vs) w → records_of i x w ≡ Some y → y.format ≡ Cow → x.file w ≡ Some f
        → IsSound (file_of f.size f.stable) y.capacity }
    ensures headers { (i : Image) (x : Volumes) (v : Id) (vs : List Id) (w : Id) (ws : List Id) (y : VolumeRecord) → IsOpenable i x v vs
        → Contains (path_of (records_of i x) v vs) w → records_of i x w ≡ Some y → y.format ≡ Cow → IsBelow (records_of i x) w ws
        → (named_by_header x (records_of i x) w ≡ y.parent) ⊎ (named_by_header x (records_of i x) w ≡ unwrap_or (up_of (records_of i x) ws) zero_id) }
{}
